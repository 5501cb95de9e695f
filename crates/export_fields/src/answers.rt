// How the answers of the packet's reader and writer cross as numbers.
ghost use Rattle.std.specs.Prelude.{◌≡◌};
ghost use Rattle.export_fields.specs.Answers.{fields_out, fetched_out, taken_out, accepted_out, accepted_in, written_out};

use hermes::Refused;
use packet_format::{Accepted, Fetched, Fields, Taken, Written};

// The answer to a fetch: 0 or the number of the question that said no; and the message, whose body is the len bytes of the packet from at on.
#[repr(C)]
#[derive(Clone, Copy, Default)]
pub struct CetskobiFetched {
    pub number: u8,
    pub kind: u8,
    pub sender: u8,
    pub tie: u8,
    pub epoch: u32,
    pub version: u32,
    pub index: usize,
    pub at: usize,
    pub len: usize,
}

// What is known of a packet that was looked at as a whole: 0 and how many messages it has, or the number of the question that said no and 0.
#[repr(C)]
#[derive(Clone, Copy)]
pub struct CetskobiAccepted {
    pub number: u8,
    pub count: u8,
}

// The answer to a write: 0 or the number of the question that said no, and how many bytes were written.
#[repr(C)]
#[derive(Clone, Copy)]
pub struct CetskobiWritten {
    pub number: u8,
    pub len: usize,
}

// A message by the fields of its entry, whose body begins at the offset.
impl From<Fields> for CetskobiFetched {
    ghost from_gives = { λ fields fetched. fetched ≡ fields_out 0 fields };

    fn from(fields: Fields) -> CetskobiFetched {
        CetskobiFetched {
            number: 0, // no question said no
            kind: fields.kind,
            sender: fields.sender,
            tie: fields.tie,
            epoch: fields.epoch,
            version: fields.version,
            index: fields.index,
            at: fields.offset,
            len: fields.len as usize,
        }
    }
}

// A message taken crosses with its entry's fields as they stand there. A refused taking has no message: its fields are zeros.
impl From<Taken> for CetskobiFetched {
    ghost from_gives = { λ taken fetched. fetched ≡ taken_out taken };

    fn from(taken: Taken) -> CetskobiFetched {
        match taken {
            Ok(fields) => fields.into(),
            Err(Refused(number)) => CetskobiFetched {
                number,
                ..CetskobiFetched::default()
            },
        }
    }
}

// A message fetched crosses as if it was taken.
impl From<Fetched> for CetskobiFetched {
    ghost from_gives = { λ answer fetched. fetched ≡ fetched_out answer };

    fn from(answer: Fetched) -> CetskobiFetched {
        answer.map(|(entry, at)| entry.fields(at)).into()
    }
}

// The facts of a packet, there and back.
impl From<Accepted> for CetskobiAccepted {
    ghost from_gives = { λ facts accepted. accepted ≡ accepted_out facts };

    fn from(facts: Accepted) -> CetskobiAccepted {
        CetskobiAccepted {
            number: facts.number,
            count: facts.count,
        }
    }
}

impl From<CetskobiAccepted> for Accepted {
    ghost from_gives = { λ accepted facts. facts ≡ accepted_in accepted };

    fn from(accepted: CetskobiAccepted) -> Accepted {
        Accepted {
            number: accepted.number,
            count: accepted.count,
        }
    }
}

impl From<Written> for CetskobiWritten {
    ghost from_gives = { λ answer written. written ≡ written_out answer };

    fn from(answer: Written) -> CetskobiWritten {
        match answer {
            Ok(len) => CetskobiWritten { number: 0, len },
            Err(Refused(number)) => CetskobiWritten { number, len: 0 },
        }
    }
}

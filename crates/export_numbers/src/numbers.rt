// How identities, messages and answers cross as numbers.
ghost use Rattle.std.specs.Prelude.{◌≡◌};
ghost use Rattle.export_numbers.specs.Crossing.{settings_of, settings_out, replica_of, identity_of, answer_out, admission_out, received_in};

use hermes::{Admission, Answer, Message, Received, Refused, Replica, Rule, Settings, Timestamp};

// What is fixed at a group's start. The rule of ties is one of hermes's numbers; any other is taken for the old rule.
#[repr(C)]
#[derive(Clone, Copy)]
pub struct CetskobiSettings {
    pub rule: u8,
}

// The identity of a replica.
#[repr(C)]
#[derive(Clone, Copy)]
pub struct CetskobiReplica {
    pub number: u8,
    pub settings: CetskobiSettings,
    pub view: u16,
    pub epoch: u32,
}

// An answer: 0 or the number of the question that said no; and the message that leaves, of kind 0 none, 1 INV, 2 ACK, 3 VAL.
#[repr(C)]
#[derive(Clone, Copy, Default)]
pub struct CetskobiAnswer {
    pub number: u8,
    pub kind: u8,
    pub tie: u8,
    pub version: u32,
}

// A message as it is delivered: of kind 1 INV, 2 ACK, 3 VAL.
#[repr(C)]
#[derive(Clone, Copy)]
pub struct CetskobiMessage {
    pub kind: u8,
    pub sender: u8,
    pub tie: u8,
    pub epoch: u32,
    pub version: u32,
}

// The answer to a read: 0 or the number of the question that said no, and how many bytes of the store are the value.
#[repr(C)]
#[derive(Clone, Copy)]
pub struct CetskobiReading {
    pub number: u8,
    pub len: usize,
}

// The answer to an ask: 0 or the number of the question that said no, how many bytes of the store are the value, and the record's timestamp.
#[repr(C)]
#[derive(Clone, Copy)]
pub struct CetskobiAsked {
    pub number: u8,
    pub tie: u8,
    pub version: u32,
    pub len: usize,
}

// The answer to a fresh start and to a view: 0 or the number of the question that said no, and the identity from then on.
#[repr(C)]
#[derive(Clone, Copy)]
pub struct CetskobiAdmission {
    pub replica: CetskobiReplica,
    pub number: u8,
}

// Settings that came from outside, and on their way out.
impl From<CetskobiSettings> for Settings {
    ghost from_gives = { λ given settings. settings ≡ settings_of given };

    fn from(given: CetskobiSettings) -> Settings {
        Settings {
            rule: Rule::try_from(given.rule).unwrap_or(Rule::Higher),
        }
    }
}

impl From<Settings> for CetskobiSettings {
    ghost from_gives = { λ settings given. given ≡ settings_out settings };

    fn from(settings: Settings) -> CetskobiSettings {
        CetskobiSettings {
            rule: settings.rule.into(),
        }
    }
}

// An identity that came from outside, and on its way out.
impl From<CetskobiReplica> for Replica {
    ghost from_gives = { λ given me. me ≡ replica_of given };

    fn from(given: CetskobiReplica) -> Replica {
        Replica {
            number: given.number,
            epoch: given.epoch,
            view: given.view,
            settings: given.settings.into(),
        }
    }
}

impl From<Replica> for CetskobiReplica {
    ghost from_gives = { λ me given. given ≡ identity_of me };

    fn from(me: Replica) -> CetskobiReplica {
        CetskobiReplica {
            number: me.number,
            settings: me.settings.into(),
            view: me.view,
            epoch: me.epoch,
        }
    }
}

// An answer by its numbers: all 0 where nothing leaves. The header is not repeated: it has the replica's number and epoch and the record's number.
impl From<Answer> for CetskobiAnswer {
    ghost from_gives = { λ answer numbers. numbers ≡ answer_out answer };

    fn from(answer: Answer) -> CetskobiAnswer {
        match answer {
            Ok(Some((message, _))) => CetskobiAnswer {
                number: 0,
                kind: message.kind(),
                tie: message.timestamp().tie,
                version: message.timestamp().version,
            },
            Ok(None) => CetskobiAnswer::default(),
            Err(Refused(number)) => CetskobiAnswer {
                number,
                ..CetskobiAnswer::default()
            },
        }
    }
}

impl CetskobiAdmission {
    // What was answered to the replica with this identity: a refused one keeps it.
    pub fn of(answer: Admission, old: CetskobiReplica) -> CetskobiAdmission
        ensures { result ≡ admission_out answer old }
    {
        match answer {
            Ok(me) => CetskobiAdmission {
                number: 0,
                replica: me.into(),
            },
            Err(Refused(number)) => CetskobiAdmission {
                number,
                replica: old,
            },
        }
    }
}

// A message that came from outside. A kind that is none of the three becomes a validation that question 12 refuses.
impl From<CetskobiMessage> for Received {
    ghost from_gives = { λ given received. received ≡ received_in given };

    fn from(given: CetskobiMessage) -> Received {
        let timestamp = Timestamp {
            version: given.version,
            tie: given.tie,
        };
        let message = match given.kind {
            Message::INV => Message::Inv(timestamp),
            Message::ACK => Message::Ack(timestamp),
            Message::VAL => Message::Val(timestamp),
            _ => Message::Val(Timestamp {
                tie: 255, // no replica's
                ..timestamp
            }),
        };
        Received {
            sender: given.sender,
            epoch: given.epoch,
            message,
        }
    }
}

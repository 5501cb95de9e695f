// One record, moved by value.
ghost use Rattle.std.specs.Prelude.{◌≡◌};
ghost use Rattle.hermes_record.specs.Record.{code, state_of, fresh_record, written_by, replayed, invalidated_state, invalidated, acknowledged, validated};

use crate::members::with;
use crate::timestamp::Timestamp;

#[derive(Clone, Copy, Debug, PartialEq, Eq)]
pub enum State {
    Valid,
    Invalid,
    InvalidWrite,
    Write,
    Replay,
}

// A number that no state has.
#[derive(Clone, Copy, Debug, PartialEq, Eq)]
pub struct UnknownState(pub u8);

impl State {
    // What a taken invalidation makes of a state.
    fn invalidated(self) -> State
        ensures { result ≡ invalidated_state self }
    {
        match self {
            State::Valid => State::Invalid,
            State::Invalid => State::Invalid,
            State::InvalidWrite => State::InvalidWrite,
            State::Write => State::InvalidWrite,
            State::Replay => State::Invalid,
        }
    }
}

// The states by their numbers, as a record's bytes have them.
impl From<State> for u8 {
    ghost from_gives = { λ state number. number ≡ code state };

    fn from(state: State) -> u8 {
        state as u8
    }
}

impl TryFrom<u8> for State {
    type Error = UnknownState;

    ghost try_from_gives = { λ number state. state ≡ state_of number };

    fn try_from(number: u8) -> Result<State, UnknownState> {
        match number {
            0 => Ok(State::Valid),
            1 => Ok(State::Invalid),
            2 => Ok(State::InvalidWrite),
            3 => Ok(State::Write),
            4 => Ok(State::Replay),
            _ => Err(UnknownState(number)),
        }
    }
}

// `writer` is the last writer, `written` the last-write timestamp, `acks` the set of replicas whose acknowledgement has come,
// `len` the value's length.
#[derive(Clone, Copy, Debug, PartialEq, Eq)]
pub struct Record {
    pub state: State,
    pub timestamp: Timestamp,
    pub writer: u8,
    pub written: Timestamp,
    pub acks: u16,
    pub len: u8,
}

impl Record {
    // The most bytes of a value, and the bytes of the store for each record.
    pub const VALUE_MAX: usize = 192;

    // The most records of a replica.
    pub const COUNT_MAX: usize = 4096;

    // The greatest number of a replica.
    pub const NUMBER_MAX: u8 = 15;

    pub const VERSION_MAX: u32 = u32::MAX;

    // The record of a fresh start, whose view has this lowest number.
    pub fn fresh(lowest: u8) -> Record
        ensures { result ≡ fresh_record lowest }
    {
        let first = Timestamp {
            version: 0,
            tie: lowest,
        };
        Record {
            state: State::Valid,
            timestamp: first,
            writer: lowest,
            written: first,
            acks: 0,
            len: 0,
        }
    }

    // A write by replica `me` of a value of `len` bytes.
    pub fn write(self, me: u8, len: u8) -> Record
        ensures { result ≡ written_by self me len }
    {
        let next = Timestamp {
            version: self.timestamp.version.saturating_add(1),
            tie: me,
        };
        Record {
            state: State::Write,
            timestamp: next,
            writer: me,
            written: next,
            acks: 0,
            len,
        }
    }

    // A replay by replica `me`.
    pub fn replay(self, me: u8) -> Record
        ensures { result ≡ replayed self me }
    {
        Record {
            state: State::Replay,
            writer: me,
            written: self.timestamp,
            acks: 0,
            ..self
        }
    }

    // An invalidation is taken: its timestamp, its sender and the length of its value.
    pub fn take_invalidation(self, timestamp: Timestamp, sender: u8, len: u8) -> Record
        ensures { result ≡ invalidated self timestamp sender len }
    {
        Record {
            state: self.state.invalidated(),
            timestamp,
            writer: sender,
            len,
            ..self
        }
    }

    // An acknowledgement is counted.
    pub fn acknowledge(self, sender: u8) -> Record
        ensures { result ≡ acknowledged self sender }
    {
        Record {
            acks: with(self.acks, sender),
            ..self
        }
    }

    // The record becomes valid.
    pub fn validate(self) -> Record
        ensures { result ≡ validated self }
    {
        Record {
            state: State::Valid, // the one change
            ..self
        }
    }
}

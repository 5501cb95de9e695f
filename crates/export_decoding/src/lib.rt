// One record out of its sixteen bytes.
#![tactic(auto)]

ghost use Rattle.std.specs.Prelude.{◌≡◌};
ghost use Rattle.export_decoding.specs.Decoding.{unsound, decode_at, found_in};

use hermes::{Record, State, Timestamp};

// The bytes of a record.
pub const SIZE: usize = 16;

// What bytes with no state stand for: question 5 refuses its length.
pub fn none() -> Record
    ensures { result ≡ unsound }
{
    let zero = Timestamp { version: 0, tie: 0 };
    Record {
        state: State::Valid,
        timestamp: zero,
        writer: 0,
        written: zero,
        acks: 0,
        len: 255,
    }
}

// The record of these bytes, unless they have no state.
#[tactic(auto, unfolding(crate::specs::Decoding::decode))]
pub fn found_in(bytes: &[u8; SIZE]) -> Option<Record>
    ensures { result ≡ found_in bytes.now }
{
    let [
        state,
        tie,
        writer,
        written_tie,
        v0,
        v1,
        v2,
        v3,
        w0,
        w1,
        w2,
        w3,
        a0,
        a1,
        len,
        _,
    ] = *bytes;
    Some(Record {
        state: State::try_from(state).ok()?,
        timestamp: Timestamp {
            version: u32::from_le_bytes([v0, v1, v2, v3]),
            tie,
        },
        writer,
        written: Timestamp {
            version: u32::from_le_bytes([w0, w1, w2, w3]),
            tie: written_tie,
        },
        acks: u16::from_le_bytes([a0, a1]),
        len,
    })
}

// The record of these bytes; where they have no state, none.
#[tactic(auto, unfolding(crate::specs::Decoding::decode))]
pub fn decoded(bytes: &[u8; SIZE]) -> Record
    ensures { result ≡ decode_at bytes.now 0 }
{
    found_in(bytes).unwrap_or(none())
}

// What the reader and the writer answer.
use crate::entry::{Entry, Fields};
use hermes::Refused;

// The answer to a fetch: the message and the offset of its body, or the question that said no.
pub type Fetched = Result<(Entry, usize), Refused>;

// What is known of a packet that was looked at as a whole: 0 and the count of its messages, or the number of the question that said no and 0.
// C keeps it between two calls and may hand any pair back, so it stays two numbers.
#[derive(Clone, Copy)]
pub struct Accepted {
    pub number: u8,
    pub count: u8,
}

// The answer to the taking of a message of an accepted packet: its entry's fields as they stand there, or the question that said no.
pub type Taken = Result<Fields, Refused>;

// The answer to a write: the packet's total length, or the question that said no.
pub type Written = Result<usize, Refused>;

// Packets: the messages of the protocol as bytes. The reader stands in crate `packet_reader`, the writer in `packet_writer`.
// What a packet is stands in specs/; that writing and reading are inverse in proofs/RoundTrip.antt.
#![tactic(auto)]

mod answer;
mod entry;
mod layout;

pub use answer::{Accepted, Fetched, Taken, Written};
pub use entry::{Entry, Fields};
pub use layout::{COUNT_MAX, ENTRY_BYTES, HEADER_BYTES, TOTAL_MAX};

// The writer of packets. What a packet is stands in crate `packet_format`, and the laws of both with it.
#![tactic(auto)]

mod writer;

pub use writer::write;

// Delivery from a packet, for C and Rust. In a crate of its own, so that the reader of packets has one caller in its member of the archive and is inlined there.
#![tactic(auto)]

mod arrival;

pub use arrival::{cetskobi_deliver_packet, numbers_of};
pub use export_numbers::{CetskobiAnswer, CetskobiReplica};

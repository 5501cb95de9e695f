// Delivery from an accepted packet, for C and Rust. In a crate of its own, as `export_arrival` is: the delivery has one caller in its member of the archive and is inlined there.
#![tactic(auto)]

mod accepted;

pub use accepted::{CetskobiArrival, cetskobi_deliver_accepted};
pub use export_fields::CetskobiAccepted;
pub use export_numbers::{CetskobiAnswer, CetskobiReplica};

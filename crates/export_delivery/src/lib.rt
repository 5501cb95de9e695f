// Delivery for C and Rust.
#![tactic(auto)]

mod delivery;

pub use delivery::cetskobi_deliver;
pub use export_numbers::{CetskobiAnswer, CetskobiMessage, CetskobiReplica};

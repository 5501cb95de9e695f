// What leaves an event, for C and Rust.
#![tactic(auto)]

mod leaving;

pub use export_numbers::{CetskobiAnswer, CetskobiReplica};
pub use leaving::{cetskobi_body, cetskobi_recipients};

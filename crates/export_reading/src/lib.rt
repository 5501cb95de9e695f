// Read and ask for C and Rust.
#![tactic(auto)]

mod asking;
mod handing;
mod reading;

pub use asking::cetskobi_ask;
pub use export_numbers::{CetskobiAsked, CetskobiReading, CetskobiReplica};
pub use reading::cetskobi_read;

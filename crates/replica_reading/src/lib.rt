// Read and ask.
#![tactic(auto)]

mod asking;
mod reading;

pub use asking::ask;
pub use reading::{read, read_event, read_number};

// The log of the playing program: the messages that left.
#![tactic(auto)]

mod memory;

pub use memory::{Envelope, Log};

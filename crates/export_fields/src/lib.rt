// The structs of numbers in which C and Rust get the fields of a message of a packet, the facts of one that was accepted, and what a write answers.
#![tactic(auto)]

mod answers;

pub use answers::{CetskobiAccepted, CetskobiFetched, CetskobiWritten};

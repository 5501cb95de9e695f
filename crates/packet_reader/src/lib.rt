// The reader of packets: message i with its body, or the number of the question that said no; and all of a packet in one pass, accepted once.
#![tactic(auto)]

mod accepting;
mod entry;
mod opening;
mod reader;
mod walk;

pub use accepting::{accept, body_taken, take};
pub use reader::{body, fetch};

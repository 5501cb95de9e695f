// A record: its type, and its own moves, each by value.
#![tactic(auto)]

mod bytes;
mod members;
mod record;
mod timestamp;

pub use bytes::copy;
pub use members::with;
pub use record::{Record, State, UnknownState};
pub use timestamp::{Rule, Timestamp, UnknownRule};

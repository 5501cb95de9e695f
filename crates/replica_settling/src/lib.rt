// Replay, validate and resend, and the acknowledgement that settles a record.
#![tactic(auto)]

mod settle;

pub use settle::{acknowledge, replay, resend, validate};

// Deliver: an invalidation, an acknowledgement or a validation comes in.
#![tactic(auto)]

mod delivery;

pub use delivery::{deliver, move_message, stores};

// A packet's message as an event on the record that it is about.
#![tactic(auto)]

mod arriving;

pub use arriving::{Arriving, delivery_in, event_in};

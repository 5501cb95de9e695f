// The engine of one replica: the events on one record by value, with the lent store.
#![tactic(auto)]

mod events;

pub use events::step;

// What every exported event on a record begins and ends with, and the events themselves but for the step that moves the record.
#![tactic(auto)]

mod calls;
mod events;

pub use calls::{begin, finish};
pub use events::{quiet, storing};

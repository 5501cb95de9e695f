// Records put into the bytes of the table: at the end of an event, and at a fresh start.
#![tactic(auto)]

mod filling;
mod putting;

pub use filling::fill;
pub use putting::settle;

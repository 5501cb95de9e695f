// How an event ends, and the bytes of a value.
#![tactic(auto)]

mod ends;
mod value;

pub use ends::{accepted, number_of};
pub use value::stored;

// The script of the playing program: what a line asks for.
#![tactic(auto)]

mod line;
mod seek;

pub use line::{Entry, group_size, parse, text};
pub use seek::find;

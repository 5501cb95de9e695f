// Numbers in decimal: what a word is as a number, and how a number is printed.
#![tactic(auto)]

mod number;

pub use number::read;

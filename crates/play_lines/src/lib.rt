// The printer of the playing program: the line that it prints for each line of a script.
#![tactic(auto)]

mod print;

pub use print::{LINE_MAX, Printer};

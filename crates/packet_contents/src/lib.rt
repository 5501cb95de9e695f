// What stands in a packet before its bodies, from the words of its messages.
#![tactic(auto)]

mod contents;
mod output;

pub use contents::put_front;

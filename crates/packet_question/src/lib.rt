// Question 24 of the messages that a packet is to be written of, asked of their words.
#![tactic(auto)]

mod question;

pub use question::ask;

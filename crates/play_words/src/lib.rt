// The words of a script: two words compared, and the command that a line's first word spells.
#![tactic(auto)]

mod command;

pub use command::{Command, Keyword, is_word, lookup};

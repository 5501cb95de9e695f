// Messages as words, seven for each. What the words stand for is in specs/; the packet writer reads them.
#![tactic(auto)]

mod count;

pub use count::{WORDS, count_in};

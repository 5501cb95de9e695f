// One member of the group in play: its start, what an event on it comes to, and what leaves then.
#![tactic(auto)]

mod answer;
mod member;

pub use answer::{has_room, sent_by};
pub use member::Member;

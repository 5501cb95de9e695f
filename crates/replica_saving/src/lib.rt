// The events that save a value: write, and commit, which brings back the timestamp that an ask handed out.
#![tactic(auto)]

mod committing;
mod saving;
mod writing;

pub use committing::commit;
pub use saving::move_save;
pub use writing::write;

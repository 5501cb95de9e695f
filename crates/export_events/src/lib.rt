// Write, commit, replay, validate and resend for C and Rust.
#![tactic(auto)]

mod events;

pub use events::{
    cetskobi_commit, cetskobi_replay, cetskobi_resend, cetskobi_validate, cetskobi_write,
};
pub use export_numbers::{CetskobiAnswer, CetskobiReplica};

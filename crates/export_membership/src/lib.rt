// Fresh start and view, for C and Rust.
#![tactic(auto)]

mod admission;

pub use admission::{cetskobi_start, cetskobi_view};
pub use export_numbers::{CetskobiAdmission, CetskobiReplica, CetskobiSettings};

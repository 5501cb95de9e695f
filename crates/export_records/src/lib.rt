// The table as bytes, sixteen for each record, for callers that cannot lend records.
#![tactic(auto)]

mod reading;

pub use export_decoding::SIZE;
pub use reading::{count, found_at, record_at};

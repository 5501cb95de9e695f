// Packets, for C and Rust: message i of one, all of one in one pass, and one made of messages.
#![tactic(auto)]

mod packets;

pub use export_fields::{CetskobiAccepted, CetskobiFetched, CetskobiWritten};
pub use export_numbers::CetskobiSettings;
pub use packets::{cetskobi_accept, cetskobi_fetch, cetskobi_fetch_accepted, cetskobi_pack};

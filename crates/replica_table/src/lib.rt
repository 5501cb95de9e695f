// A replica over the memory that the caller lends: the table of records and the store.
#![tactic(auto)]

mod events;

pub use events::apply;
pub use replica_membership::view;
pub use replica_outgoing::recipients;
pub use replica_parts::{ask, body, read, read_number};

// What a lent table and store hand out: a record, a read's number and part, an ask's timestamp, and the bytes that an invalidation takes along.
#![tactic(auto)]

mod asking;
mod leaving;
mod reading;

pub use asking::ask;
pub use leaving::body;
pub use reading::{read, read_number, subject};

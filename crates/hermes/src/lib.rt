// The Hermes protocol for ring records: the types. A record's own, with its moves, is in hermes_record.
// What every event is to do stands in specs/; what is proved of it in proofs/.
#![tactic(auto)]

mod event;
mod message;

pub use event::{Admission, Answer, Event, Moved, Refused, Replica, Settings, Subject};
pub use hermes_record::{Record, Rule, State, Timestamp};
pub use message::{Header, Message, Outgoing, Received};

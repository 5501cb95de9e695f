// Ask: a read that also hands out the timestamp, which a commit brings back. The value is the part that a read hands out.
ghost use Rattle.std.specs.Prelude.{◌≡◌, []};
ghost use Rattle.hermes_record.specs.Order.{ties};
ghost use Rattle.hermes.specs.Event.{moved, ask_stamp};
ghost use Rattle.hermes.specs.declared.event.Event.TheVariants.{Ask};
ghost use Rattle.replica_reading.specs.Asking.{handed_by};

use crate::reading::asks;
use hermes::{Refused, Subject, Timestamp};

// An ask: the record's timestamp, or the question that said no.
pub fn ask(s: Subject, bytes: usize) -> Result<Timestamp, Refused>
    ensures { result ≡ handed_by (moved ties s.me s.count bytes s.index s.found Ask []).answer (ask_stamp s.me s.count bytes s.index s.found) }
{
    let r = asks(s, bytes)?;
    Ok(r.timestamp)
}

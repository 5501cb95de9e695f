// Ask: the timestamp of a record of the lent table.
ghost use Rattle.std.specs.Prelude.{◌≡◌, [], Ok, Err, None, MatchResult};
ghost use Rattle.hermes_record.specs.Order.{ties};
ghost use Rattle.hermes.specs.declared.event.Event.TheVariants.{Ask};
ghost use Rattle.hermes.specs.Node.{lent, asked, apply};

use crate::reading::subject;
use hermes::{Record, Refused, Replica, Timestamp};

// An ask of record i: the timestamp that a commit brings back, or the question that said no. The value is the part that `read` hands out.
pub fn ask(me: Replica, table: &[Record], store: &[u8], i: usize) -> Result<Timestamp, Refused>
    ensures { let a = (apply ties (lent me table.now store.now) i Ask []).answer in
        MatchResult result (λ t. (a ≡ Ok None) × (t ≡ (asked (lent me table.now store.now) i).timestamp)) (λ e. a ≡ Err e) }
{
    replica_reading::ask(subject(me, table, i), store.len())
}

// An event on a record of the lent table: the record is taken out, moved by value, and put back.
ghost use Rattle.std.specs.Prelude.{◌≡◌};
ghost use Rattle.hermes_record.specs.Order.{ties};
ghost use Rattle.hermes.specs.Node.{lent, apply};

use hermes::{Answer, Event, Record, Replica};
use replica_events::step;
use replica_parts::subject;

// An event on record i. A write, a commit and a delivery bring the value's bytes. Of a number past the table's end question 4 says no, or one
// before it.
pub fn apply(
    me: Replica,
    table: &mut [Record],
    store: &mut [u8],
    i: usize,
    e: Event,
    value: &[u8],
) -> Answer
    ensures { (result ≡ (apply ties (lent me table.old store.old) i e value.now).answer)
        × ((table.new ≡ (apply ties (lent me table.old store.old) i e value.now).node.table)
        × (store.new ≡ (apply ties (lent me table.old store.old) i e value.now).node.store)) }
{
    let m = step(subject(me, table, i), store, e, value);
    if i < table.len() {
        table[i] = m.after;
    }
    m.answer
}

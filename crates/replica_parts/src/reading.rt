// Read: the number and the part of a record of the lent table.
ghost use Rattle.std.specs.Prelude.{◌≡◌, [], length};
ghost use Rattle.hermes_record.specs.Order.{ties};
ghost use Rattle.hermes.specs.declared.event.Event.TheVariants.{Read};
ghost use Rattle.hermes.specs.Node.{lent, record_at, read, apply};

use hermes::{Answer, Record, Replica, Subject};

// Record i of the table; past its end a fresh one.
pub fn record_at(table: &[Record], i: usize) -> Record
    ensures { result ≡ record_at table.now i }
{
    table.get(i).copied().unwrap_or(Record::fresh(0))
}

// Record i of the lent table, as an event finds it.
pub fn subject(me: Replica, table: &[Record], i: usize) -> Subject
    ensures { result ≡ record { me = me; count = length table.now; index = i; found = record_at table.now i } }
{
    Subject {
        me,
        count: table.len(),
        index: i,
        found: record_at(table, i),
    }
}

// The value of record i, as a part of the store; the empty part where a question refuses.
pub fn read<'a>(me: Replica, table: &[Record], store: &'a [u8], i: usize) -> &'a [u8]
    ensures { result.now ≡ read (lent me table.now store.now) i }
{
    replica_reading::read(subject(me, table, i), store)
}

// The number of a read of record i.
pub fn read_number(me: Replica, table: &[Record], store: &[u8], i: usize) -> Answer
    ensures { result ≡ (apply ties (lent me table.now store.now) i Read []).answer }
{
    replica_reading::read_number(subject(me, table, i), store.len())
}

// The bytes that a message takes along, out of the lent table and store.
ghost use Rattle.std.specs.Prelude.{◌≡◌};
ghost use Rattle.hermes.specs.Node.{index_of, leaving};

use crate::reading::record_at;
use hermes::{Outgoing, Record};

// The number of the record that what left is about.
fn index_of(out: Outgoing) -> usize
    ensures { result ≡ index_of out }
{
    out.map_or(0, |(_, header)| header.index)
}

// The bytes that what left an event takes along, out of the memory that the event left: the value of an invalidation's record.
pub fn body<'a>(out: Outgoing, table: &[Record], store: &'a [u8]) -> &'a [u8]
    ensures { result.now ≡ leaving out table.now store.now }
{
    replica_outgoing::body(out, record_at(table, index_of(out)), store)
}

// Delivery from a packet, on the lent table: for a Rattle program that lends a table of records. The exported functions have their own, over bytes.
#![tactic(auto)]

ghost use Rattle.std.specs.Prelude.{◌≡◌};
ghost use Rattle.hermes_record.specs.Order.{ties};
ghost use Rattle.hermes.specs.Node.{lent};
ghost use Rattle.packet_event.specs.Arrival.{receipt};

use hermes::{Answer, Record, Replica};
use packet_event::delivery_in;

// Message i of a packet is delivered to the record that it is about. A packet that the reader refuses changes nothing.
pub fn receive(
    me: Replica,
    table: &mut [Record],
    store: &mut [u8],
    bytes: &[u8],
    i: usize,
) -> Answer
    ensures { (result ≡ (receipt ties (lent me table.old store.old) bytes.now i).answer)
        × ((table.new ≡ (receipt ties (lent me table.old store.old) bytes.now i).node.table)
        × (store.new ≡ (receipt ties (lent me table.old store.old) bytes.now i).node.store)) }
{
    let arriving = delivery_in(me, bytes, i)?;
    let value = packet_reader::body(bytes, arriving.fetched);
    replica_table::apply(me, table, store, arriving.index, arriving.event, value)
}

// Delivery of a message about record i, with the bytes that came with it.
ghost use Rattle.hermes.specs.declared.event.Event.TheVariants.{Deliver};
ghost use Rattle.export_numbers.specs.Crossing.{received_in};
ghost use Rattle.export_calls.specs.Calls.{node_of, Done};

use export_calls::{quiet, storing};
use export_numbers::{CetskobiAnswer, CetskobiMessage, CetskobiReplica};
use hermes::{Message, Received, Subject};
use replica_delivery::{move_message, stores};

// The kind is asked first, and each has a step of its own: only an invalidation stores, and one step that is called for all of them is not
// inlined, so that the record goes through memory and a delivery takes twice the instructions.
fn deliver(
    me: CetskobiReplica,
    table: &mut [u8],
    store: &mut [u8],
    i: usize,
    m: Received,
    value: &[u8],
) -> CetskobiAnswer
    ensures { Done (node_of me table.old store.old) table.old i (Deliver m) value.now result table.new store.new }
{
    match m.message {
        Message::Inv(_) => {
            let takes = |s: Subject| stores(s.me, s.found, m);
            let step = |s: Subject, bytes: usize| move_message(s, bytes, m, value);
            storing(me, table, store, i, value, takes, step)
        }
        Message::Ack(_) => {
            let step = |s: Subject, bytes: usize| move_message(s, bytes, m, value);
            quiet(me, table, store.len(), i, step) // an ACK's
        }
        Message::Val(_) => {
            let step = |s: Subject, bytes: usize| move_message(s, bytes, m, value);
            quiet(me, table, store.len(), i, step) // a VAL's
        }
    }
}

// Delivery of a message about record i, with the bytes that came with it.
#[unsafe(no_mangle)]
pub extern "C" fn cetskobi_deliver(
    me: CetskobiReplica,
    table: &mut [u8],
    store: &mut [u8],
    i: usize,
    message: CetskobiMessage,
    value: &[u8],
) -> CetskobiAnswer
    ensures { Done (node_of me table.old store.old) table.old i (Deliver (received_in message)) value.now result table.new store.new }
{
    deliver(me, table, store, i, message.into(), value)
}

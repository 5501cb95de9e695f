// Delivery from a packet.
ghost use Rattle.std.specs.Prelude.{◌≡◌};
ghost use Rattle.packet_format.specs.Reading.{fetched};
ghost use Rattle.export_arrival.specs.Arrival.{numbers_of, Arrived};
ghost use Rattle.export_calls.specs.Calls.{node_of};
ghost use Rattle.export_numbers.specs.Crossing.{group_rule};

use export_delivery::cetskobi_deliver;
use export_numbers::{CetskobiAnswer, CetskobiMessage, CetskobiReplica};
use hermes::{Answer, Settings};
use packet_format::Fields;

// A packet's message as `cetskobi_deliver` takes it. Structs of two crates meet here, so that it is no `From`.
pub fn numbers_of(fields: Fields) -> CetskobiMessage
    ensures { result ≡ numbers_of fields }
{
    CetskobiMessage {
        kind: fields.kind,
        sender: fields.sender,
        tie: fields.tie,
        epoch: fields.epoch,
        version: fields.version,
    }
}

// Delivery of message i of a packet, read by the laptop's own rule, with its body, to the record that it is about: that of `cetskobi_deliver`.
#[unsafe(no_mangle)]
pub extern "C" fn cetskobi_deliver_packet(
    me: CetskobiReplica,
    table: &mut [u8],
    store: &mut [u8],
    packet: &[u8],
    i: usize,
) -> CetskobiAnswer
    ensures { Arrived (node_of me table.old store.old) table.old packet.now (fetched (group_rule me) packet.now i) result table.new store.new }
{
    let rule = Settings::from(me.settings).rule;
    let fetched = packet_reader::fetch(rule, packet, i);
    match fetched {
        Ok((entry, at)) => {
            let fields = entry.fields(at);
            let value = packet_reader::body(packet, fetched);
            cetskobi_deliver(me, table, store, fields.index, numbers_of(fields), value)
        }
        Err(no) => Answer::Err(no).into(),
    }
}

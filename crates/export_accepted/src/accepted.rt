// Delivery from an accepted packet.
ghost use Rattle.packet_format.specs.Accepting.{taken};
ghost use Rattle.export_fields.specs.Answers.{accepted_in};
ghost use Rattle.export_calls.specs.Calls.{node_of};
ghost use Rattle.export_accepted.specs.Arrival.{Came};

use export_arrival::numbers_of;
use export_delivery::cetskobi_deliver;
use export_fields::CetskobiAccepted;
use export_numbers::{CetskobiAnswer, CetskobiReplica};
use hermes::Answer;

// The answer to the delivery of a packet's message; and which message it was, also where its delivery was refused. Zeros where there was none.
#[repr(C)]
#[derive(Clone, Copy, Default)]
pub struct CetskobiArrival {
    pub answer: CetskobiAnswer,
    pub epoch: u32,
    pub sender: u8,
    pub index: usize,
}

// Delivery of message i of a packet by its facts, in constant time: that of `cetskobi_deliver`, to the record that it is about.
#[unsafe(no_mangle)]
pub extern "C" fn cetskobi_deliver_accepted(
    me: CetskobiReplica,
    table: &mut [u8],
    store: &mut [u8],
    packet: &[u8],
    accepted: CetskobiAccepted,
    i: usize,
) -> CetskobiArrival
    ensures { Came (node_of me table.old store.old) table.old packet.now (taken packet.now (accepted_in accepted) i) result table.new store.new }
{
    let taken = packet_reader::take(packet, accepted.into(), i);
    match taken {
        Ok(f) => {
            let value = packet_reader::body_taken(packet, taken);
            CetskobiArrival {
                answer: cetskobi_deliver(me, table, store, f.index, numbers_of(f), value),
                epoch: f.epoch,
                sender: f.sender,
                index: f.index,
            }
        }
        Err(no) => CetskobiArrival {
            answer: Answer::Err(no).into(),
            ..CetskobiArrival::default()
        },
    }
}

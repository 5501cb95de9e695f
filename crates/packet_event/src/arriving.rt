// A fetch as an event on a record of the lent table, for `packet_table`.
ghost use Rattle.std.specs.Prelude.{◌≡◌};
ghost use Rattle.packet_format.specs.Reading.{fetched};
ghost use Rattle.packet_event.specs.Arrival.{received_of};
ghost use Rattle.packet_event.specs.Arriving.{arriving_of, delivery_of};

use hermes::{Event, Received, Record, Refused, Replica};
use packet_format::{Entry, Fetched};

// What a packet's message comes to: an event on the record of this number. Its body goes with the fetch.
#[derive(Clone, Copy)]
pub struct Arriving {
    pub fetched: Fetched,
    pub index: usize,
    pub event: Event,
}

// A packet's message as it is delivered.
fn received(entry: Entry) -> Received
    ensures { result ≡ received_of entry }
{
    Received {
        sender: entry.header.sender,
        epoch: entry.header.epoch,
        message: entry.message,
    }
}

// The event of message i, read by the rule of replica me's group: its delivery. Of a refused packet there is none.
pub fn delivery_in(me: Replica, bytes: &[u8], i: usize) -> Result<Arriving, Refused>
    ensures { result ≡ delivery_of (fetched me.settings.rule bytes.now i) }
{
    let fetched = packet_reader::fetch(me.settings.rule, bytes, i);
    let (entry, _) = fetched?;
    Ok(Arriving {
        fetched,
        index: entry.header.index,
        event: Event::Deliver(received(entry)),
    })
}

// The same of every packet: a refused packet's event is refused too.
pub fn event_in(me: Replica, bytes: &[u8], i: usize) -> Arriving
    ensures { result ≡ arriving_of (fetched me.settings.rule bytes.now i) }
{
    match delivery_in(me, bytes, i) {
        Ok(arriving) => arriving,
        Err(no) => Arriving {
            fetched: Err(no),
            // no table that question 2 admits has a record of this number
            index: Record::COUNT_MAX,
            event: Event::Read,
        },
    }
}

// What leaves an event: the message with its header, the bytes that it takes along, and who gets it. A read hands out the same bytes.
#![tactic(auto)]

ghost use Rattle.std.specs.Prelude.{◌≡◌};
ghost use Rattle.hermes.specs.Store.{value_at};
ghost use Rattle.hermes.specs.Event.{send, leaving_body, sender_of, recipients};

use hermes::{Event, Header, Message, Outgoing, Record, Replica};

// A message about record i, with the replica's number and epoch.
pub fn send(me: Replica, i: usize, message: Message) -> Outgoing
    ensures { result ≡ send me i message }
{
    let header = Header {
        sender: me.number,
        epoch: me.epoch,
        index: i,
    };
    Some((message, header))
}

// The first n bytes of record i, as a part of the store, or as many of them as it has.
pub fn part(store: &[u8], i: usize, n: usize) -> &[u8]
    ensures { result.now ≡ value_at i n store.now }
{
    let at = Record::VALUE_MAX.saturating_mul(i).min(store.len());
    let rest = &store[at..];
    &rest[..n.min(rest.len())]
}

// The bytes that an invalidation takes along, as a part of the store; the empty part otherwise. r is the record as the event left it.
pub fn body(out: Outgoing, r: Record, store: &[u8]) -> &[u8]
    ensures { result.now ≡ leaving_body out r store.now }
{
    match out {
        Some((Message::Inv(_), header)) => part(store, header.index, r.len as usize),
        Some((Message::Ack(_) | Message::Val(_), _)) | None => &store[..0],
    }
}

// The sender of the message that the event delivered, as a set.
fn sender_of(e: Event) -> u16
    ensures { result ≡ sender_of e }
{
    match e {
        Event::Deliver(m) => replica_members::with(0, m.sender),
        _ => 0,
    }
}

// The replicas that get what left an event: all others in the view, or the sender of the invalidation that is acknowledged.
pub fn recipients(me: Replica, e: Event, out: Outgoing) -> u16
    ensures { result ≡ recipients me e out }
{
    match out {
        Some((Message::Inv(_) | Message::Val(_), _)) => {
            replica_members::without(me.view, me.number)
        }
        Some((Message::Ack(_), _)) => sender_of(e),
        None => 0,
    }
}

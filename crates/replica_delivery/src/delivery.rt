// Delivery to record i, r, of replica me with count records and this store, of a message with its value bytes.
ghost use Rattle.std.specs.Prelude.{◌≡◌, ◌≤◌, length};
ghost use Rattle.hermes_record.specs.Order.{ties, later};
ghost use Rattle.hermes.specs.Settings.{under};
ghost use Rattle.hermes.specs.Event.{effect, moved, moved_by, inv_step};
ghost use Rattle.hermes.specs.declared.event.Event.TheVariants.{Deliver};
ghost use Rattle.replica_delivery.specs.Storing.{stores};

use hermes::{Message, Moved, Received, Record, Replica, Subject, Timestamp};

// What an accepted invalidation makes of its record: its acknowledgement always leaves; only a greater timestamp is taken.
fn take_inv(me: Replica, i: usize, r: Record, t: Timestamp, sender: u8, value: &[u8]) -> Moved
    requires { length value.now ≤ 192 }
    ensures { result ≡ moved_by 0 r (inv_step (later (under ties me.settings) t r.timestamp) me i r t sender value.now) }
{
    let ack = replica_outgoing::send(me, i, Message::Ack(t));
    if t.later(r.timestamp, me.settings.rule) {
        return replica_outcome::accepted(ack, r.take_invalidation(t, sender, value.len() as u8));
    }
    replica_outcome::accepted(ack, r)
}

// A message, but for the store, which is of so many bytes. It is inlined, so that where the kind is known the compiler sees the questions and
// the step of that kind alone, and keeps the record in registers.
#[inline(always)]
pub fn move_message(s: Subject, bytes: usize, m: Received, value: &[u8]) -> Moved
    ensures { result ≡ moved ties s.me s.count bytes s.index s.found (Deliver m) value.now }
{
    let a = replica_message::asks(s, bytes, m, value.len());
    let Ok(r) = a else {
        return replica_asking::stopped(a, s.found);
    };
    match m.message {
        Message::Inv(t) => take_inv(s.me, s.index, r, t, m.sender, value),
        Message::Ack(_) => replica_settling::acknowledge(s.me, s.index, r, m.sender),
        Message::Val(_) => replica_outcome::accepted(None, r.validate()),
    }
}

// Is its value stored? Only that of an invalidation with a greater timestamp.
pub fn stores(me: Replica, r: Record, m: Received) -> bool
    ensures { result ≡ stores me.settings r.timestamp m.message }
{
    match m.message {
        Message::Inv(t) => t.later(r.timestamp, me.settings.rule),
        Message::Ack(_) | Message::Val(_) => false,
    }
}

// A message, with the store.
pub fn deliver(s: Subject, store: &mut [u8], m: Received, value: &[u8]) -> Moved
    ensures { (result ≡ (effect ties s.me s.count s.index s.found store.old (Deliver m) value.now).moved)
        × (store.new ≡ (effect ties s.me s.count s.index s.found store.old (Deliver m) value.now).store) }
{
    let moved = move_message(s, store.len(), m, value);
    if stores(s.me, s.found, m) {
        replica_outcome::stored(store, s.count, s.index, moved.answer, value);
    }
    moved
}

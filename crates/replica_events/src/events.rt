// One event on one record, by its kind.
ghost use Rattle.std.specs.Prelude.{◌≡◌};
ghost use Rattle.hermes_record.specs.Order.{ties};
ghost use Rattle.hermes.specs.Event.{effect};

use hermes::{Event, Moved, Subject};
use replica_delivery::deliver;
use replica_reading::read_event;
use replica_saving::{commit, write};
use replica_settling::{replay, resend, validate};

// An event, with the store. A write, a commit and a delivery bring the value's bytes; the other events pass over them.
pub fn step(s: Subject, store: &mut [u8], e: Event, value: &[u8]) -> Moved
    ensures { (result ≡ (effect ties s.me s.count s.index s.found store.old e value.now).moved)
        × (store.new ≡ (effect ties s.me s.count s.index s.found store.old e value.now).store) }
{
    match e {
        Event::Read => read_event(s, store.len()),
        Event::Ask => read_event(s, store.len()),
        Event::Write => write(s, store, value),
        Event::Commit(t) => commit(s, store, t, value),
        Event::Replay => replay(s, store.len()),
        Event::Deliver(m) => deliver(s, store, m, value),
        Event::Validate => validate(s, store.len()),
        Event::Resend => resend(s, store.len()),
    }
}

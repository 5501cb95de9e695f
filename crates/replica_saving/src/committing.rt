// Commit: a write that brings back the timestamp t, which an ask handed out, and asks 26 in place of 7.
ghost use Rattle.std.specs.Prelude.{◌≡◌};
ghost use Rattle.hermes_record.specs.Order.{ties};
ghost use Rattle.hermes.specs.Event.{effect};
ghost use Rattle.hermes.specs.declared.event.Event.TheVariants.{Commit};

use crate::saving::save;
use hermes::{Moved, Subject, Timestamp};

// A commit of a value.
pub fn commit(s: Subject, store: &mut [u8], t: Timestamp, value: &[u8]) -> Moved
    ensures { (result ≡ (effect ties s.me s.count s.index s.found store.old (Commit t) value.now).moved)
        × (store.new ≡ (effect ties s.me s.count s.index s.found store.old (Commit t) value.now).store) }
{
    save(s, store, Some(t), value)
}

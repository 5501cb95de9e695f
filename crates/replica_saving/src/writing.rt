// Write.
ghost use Rattle.std.specs.Prelude.{◌≡◌};
ghost use Rattle.hermes_record.specs.Order.{ties};
ghost use Rattle.hermes.specs.Event.{effect};
ghost use Rattle.hermes.specs.declared.event.Event.TheVariants.{Write};

use crate::saving::save;
use hermes::{Moved, Subject};

// A write of a value.
pub fn write(s: Subject, store: &mut [u8], value: &[u8]) -> Moved
    ensures { (result ≡ (effect ties s.me s.count s.index s.found store.old Write value.now).moved)
        × (store.new ≡ (effect ties s.me s.count s.index s.found store.old Write value.now).store) }
{
    save(s, store, None, value)
}

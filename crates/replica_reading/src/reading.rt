// Read: its number, and its part of the store.
ghost use Rattle.std.specs.Prelude.{◌≡◌, []};
ghost use Rattle.hermes_record.specs.Order.{ties};
ghost use Rattle.hermes.specs.Event.{common, own, moved, read_part};
ghost use Rattle.hermes.specs.declared.event.Event.TheVariants.{Read};
ghost use Rattle.replica_asking.specs.Cascade.{asked};

use hermes::{Answer, Moved, Subject};
use replica_asking::Asked;

// Questions 1 to 6, which an ask asks too.
#[inline(always)]
pub(crate) fn asks(s: Subject, bytes: usize) -> Asked
    ensures { result ≡ asked (common s.me s.count bytes s.index s.found (own s.me s.found Read 0)) s.found }
{
    let r = replica_asking::every(s, bytes)?;
    replica_guards::question6(r)
}

// A read as an event: nothing moves.
pub fn read_event(s: Subject, bytes: usize) -> Moved
    ensures { result ≡ moved ties s.me s.count bytes s.index s.found Read [] }
{
    let a = asks(s, bytes);
    let Ok(r) = a else {
        return replica_asking::stopped(a, s.found);
    };
    replica_outcome::accepted(None, r)
}

// The number of a read.
pub fn read_number(s: Subject, bytes: usize) -> Answer
    ensures { result ≡ (moved ties s.me s.count bytes s.index s.found Read []).answer }
{
    read_event(s, bytes).answer
}

// The value of the record, as a part of the store; the empty part where a question refuses.
pub fn read(s: Subject, store: &[u8]) -> &[u8]
    ensures { result.now ≡ read_part s.me s.count s.index s.found store.now }
{
    let Ok(r) = asks(s, store.len()) else {
        return &store[..0];
    };
    replica_outgoing::part(store, s.index, r.len as usize)
}

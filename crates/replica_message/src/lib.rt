// The questions of a message that comes in, in order: 1 to 5, 10 to 12, and that of its kind. They are inlined: where the kind is known the
// compiler then sees the question of that kind alone, and as a call they would take the record through memory.
#![tactic(auto)]

ghost use Rattle.std.specs.Prelude.{◌≡◌};
ghost use Rattle.hermes.specs.Event.{common, own, of_kind};
ghost use Rattle.hermes.specs.declared.event.Event.TheVariants.{Deliver};
ghost use Rattle.replica_asking.specs.Cascade.{asked};
ghost use Rattle.replica_message.specs.Message.{of_message};

use hermes::{Message, Received, Record, Replica, Subject};
use replica_asking::Asked;

// Questions 10 to 12, of every message.
#[inline(always)]
fn asks_message(me: Replica, r: Record, m: Received, n: usize) -> Asked
    ensures { result ≡ asked (of_message me m n) r }
{
    let r = replica_guards::question10(me, m, r)?;
    let r = replica_guards::question11(me, m, r)?;
    replica_guards::question12(m, n, r)
}

// Question 13 of an acknowledgement, 14 of a validation.
#[inline(always)]
fn asks_kind(m: Received, r: Record) -> Asked
    ensures { result ≡ asked (of_kind m.message m.sender r) r }
{
    match m.message {
        Message::Inv(_) => Ok(r),
        Message::Ack(t) => replica_guards::question13(t, m.sender, r),
        Message::Val(t) => replica_guards::question14(t, r),
    }
}

// The questions of a message m that brings n bytes of value.
#[inline(always)]
pub fn asks(s: Subject, bytes: usize, m: Received, n: usize) -> Asked
    ensures { result ≡ asked (common s.me s.count bytes s.index s.found (own s.me s.found (Deliver m) n)) s.found }
{
    let r = replica_asking::every(s, bytes)?;
    let r = asks_message(s.me, r, m, n)?;
    asks_kind(m, r)
}

// Replay, validate and resend, and the acknowledgement that settles a record.
ghost use Rattle.std.specs.Prelude.{◌≡◌, [], MatchResult};
ghost use Rattle.hermes_record.specs.Order.{ties};
ghost use Rattle.hermes.specs.Event.{common, moved, moved_by, completes, ack_step, validate_step, resent};
ghost use Rattle.hermes.specs.declared.event.Event.TheVariants.{Replay, Validate, Resend};
ghost use Rattle.replica_asking.specs.Cascade.{asked};

use hermes::{Message, Moved, Outgoing, Record, Replica, State, Subject, Timestamp};
use replica_asking::{Asked, every, stopped};
use replica_guards::{question15, question16, question17};
use replica_outcome::accepted;
use replica_outgoing::send;

// The questions of an event: those of every one, and then its own.
fn asks<Q: FnOnce(Replica, Record) -> Asked>(s: Subject, bytes: usize, own: Q) -> Asked
    requires { Q.IsAlwaysCallable own }
    ensures { MatchResult (asked (common s.me s.count bytes s.index s.found []) s.found) (λ x. Q.post own s.me x result) (λ e. result ≡ Err e) }
{
    let r = every(s, bytes)?;
    own(s.me, r)
}

// A replay.
pub fn replay(s: Subject, bytes: usize) -> Moved
    ensures { result ≡ moved ties s.me s.count bytes s.index s.found Replay [] }
{
    let a = asks(s, bytes, question16);
    let Ok(r) = a else {
        return stopped(a, s.found);
    };
    accepted(
        send(s.me, s.index, Message::Inv(r.timestamp)),
        r.replay(s.me.number),
    )
}

// Record i, r becomes valid, and its VAL leaves.
fn validated(me: Replica, i: usize, r: Record) -> Moved
    ensures { result ≡ moved_by 0 r (validate_step me i r) }
{
    accepted(send(me, i, Message::Val(r.timestamp)), r.validate())
}

// A validation.
pub fn validate(s: Subject, bytes: usize) -> Moved
    ensures { result ≡ moved ties s.me s.count bytes s.index s.found Validate [] }
{
    let a = asks(s, bytes, question15);
    let Ok(r) = a else {
        return stopped(a, s.found);
    };
    validated(s.me, s.index, r)
}

// An accepted acknowledgement of record i, r: its sender is counted. With the last one of the view the record also becomes valid: what the
// separate validation asks then holds.
pub fn acknowledge(me: Replica, i: usize, r: Record, sender: u8) -> Moved
    ensures { result ≡ moved_by 0 r (ack_step (completes me r sender) me i r sender) }
{
    let counted = r.acknowledge(sender);
    match question15(me, counted) {
        Ok(r) => validated(me, i, r),
        Err(_) => accepted(None, counted),
    }
}

// What is sent again of record i.
fn again(me: Replica, i: usize, s: State, t: Timestamp) -> Outgoing
    ensures { result ≡ resent me i s t }
{
    match s {
        State::Valid => send(me, i, Message::Val(t)),
        State::Write | State::Replay => send(me, i, Message::Inv(t)),
        State::Invalid | State::InvalidWrite => None,
    }
}

// A resend of what the record last sent.
pub fn resend(s: Subject, bytes: usize) -> Moved
    ensures { result ≡ moved ties s.me s.count bytes s.index s.found Resend [] }
{
    let a = asks(s, bytes, question17);
    let Ok(r) = a else {
        return stopped(a, s.found);
    };
    accepted(again(s.me, s.index, r.state, r.timestamp), r)
}

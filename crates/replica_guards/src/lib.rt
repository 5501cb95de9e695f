// Questions 6 to 17 and 26, which some events ask. A change of view asks its own, 18 and 19, itself (`replica_membership`).
#![tactic(auto)]

ghost use Rattle.std.specs.Prelude.{◌≡◌, [], ◌∷◌};
ghost use Rattle.hermes_record.specs.Record.{one_of};
ghost use Rattle.hermes_record.specs.declared.record.State.TheVariants.{Write, Replay};
ghost use Rattle.hermes.specs.Guards.{question6, question7, question8, question9, question10, question11, question12, question13, question14, question15, question16, question17, question26};
ghost use Rattle.replica_asking.specs.Cascade.{asked};

use hermes::{Message, Received, Record, Replica, State, Timestamp};
use replica_asking::{Asked, question};

pub fn question6(r: Record) -> Asked
    ensures { result ≡ asked (question6 r ∷ []) r }
{
    question(6, r.state == State::Valid, r)
}

pub fn question7(r: Record) -> Asked
    ensures { result ≡ asked (question7 r ∷ []) r }
{
    question(7, matches!(r.state, State::Valid | State::Invalid), r)
}

pub fn question8(n: usize, r: Record) -> Asked
    ensures { result ≡ asked (question8 n ∷ []) r }
{
    question(8, n <= Record::VALUE_MAX, r)
}

pub fn question9(r: Record) -> Asked
    ensures { result ≡ asked (question9 r ∷ []) r }
{
    question(9, r.timestamp.version < Record::VERSION_MAX, r)
}

pub fn question10(me: Replica, m: Received, r: Record) -> Asked
    ensures { result ≡ asked (question10 me m ∷ []) r }
{
    question(10, m.epoch == me.epoch, r)
}

pub fn question11(me: Replica, m: Received, r: Record) -> Asked
    ensures { result ≡ asked (question11 me m ∷ []) r }
{
    question(
        11,
        replica_members::has(me.view, m.sender) && m.sender != me.number,
        r,
    )
}

pub fn question12(m: Received, n: usize, r: Record) -> Asked
    ensures { result ≡ asked (question12 m n ∷ []) r }
{
    let fits = match m.message {
        Message::Inv(_) => n <= Record::VALUE_MAX,
        Message::Ack(_) | Message::Val(_) => n == 0,
    };
    question(
        12,
        m.message.timestamp().tie <= Record::NUMBER_MAX && fits,
        r,
    )
}

// Write, invalid-write and replay count acknowledgements.
#[tactic(auto, unfolding(hermes_record::specs::Order::same_timestamp))]
pub fn question13(t: Timestamp, sender: u8, r: Record) -> Asked
    ensures { result ≡ asked (question13 t sender r ∷ []) r }
{
    let counting = matches!(r.state, State::Write | State::InvalidWrite | State::Replay);
    question(
        13,
        counting && t == r.written && !replica_members::has(r.acks, sender),
        r,
    )
}

#[tactic(auto, unfolding(hermes_record::specs::Order::same_timestamp))]
pub fn question14(t: Timestamp, r: Record) -> Asked
    ensures { result ≡ asked (question14 t r ∷ []) r }
{
    question(14, r.state != State::Valid && t == r.timestamp, r)
}

pub fn question15(me: Replica, r: Record) -> Asked
    ensures { result ≡ asked (question15 me r ∷ []) r }
{
    question(
        15,
        is_pending(r.state) && replica_members::others_in(me.number, me.view, r.acks),
        r,
    )
}

// Invalid or invalid-write: another replica's save stands here, not yet validated.
pub fn question16(me: Replica, r: Record) -> Asked
    ensures { result ≡ asked (question16 me r ∷ []) r }
{
    question(
        16,
        matches!(r.state, State::Invalid | State::InvalidWrite)
            && !replica_members::has(me.view, r.writer),
        r,
    )
}

pub fn question17(me: Replica, r: Record) -> Asked
    ensures { result ≡ asked (question17 me r ∷ []) r }
{
    question(
        17,
        is_pending(r.state) || r.state == State::Valid && r.writer == me.number,
        r,
    )
}

#[tactic(auto, unfolding(hermes_record::specs::Order::same_timestamp))]
pub fn question26(t: Timestamp, r: Record) -> Asked
    ensures { result ≡ asked (question26 t r ∷ []) r }
{
    question(26, r.state == State::Valid && t == r.timestamp, r)
}

// Write or replay: this replica's own invalidation is out.
fn is_pending(s: State) -> bool
    ensures { result ≡ one_of s (Write ∷ Replay ∷ []) }
{
    matches!(s, State::Write | State::Replay)
}

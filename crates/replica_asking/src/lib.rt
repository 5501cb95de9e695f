// How a question answers: it passes its record on, or refuses with its number. Questions 1 to 5, which every event asks.
#![tactic(auto)]

ghost use Rattle.std.specs.Prelude.{◌≡◌, [], ◌∷◌};
ghost use Rattle.hermes.specs.Event.{common};
ghost use Rattle.hermes.specs.Guards.{ask, question1, question2, question3, question4, question5};
ghost use Rattle.hermes.specs.Node.{start_questions};
ghost use Rattle.replica_asking.specs.Cascade.{asked, beforehand, stopped_by};

use hermes::{Moved, Record, Refused, Replica, Subject, Timestamp};

// What a question answers: the record, passed on, or its own number. So `?` after a question goes on after a yes, and ends at a no.
pub type Asked = Result<Record, Refused>;

// The record, field by field: as one copy the compiler takes its padding along, ten to twenty instructions of most events.
fn same(r: Record) -> Record
    ensures { result ≡ r }
{
    Record {
        timestamp: Timestamp { ..r.timestamp },
        written: Timestamp { ..r.written },
        ..r
    }
}

// A question of this number, answered.
pub fn question(number: u8, yes: bool, r: Record) -> Asked
    ensures { result ≡ asked (ask number yes ∷ []) r }
{
    if yes {
        Ok(same(r))
    } else {
        Err(Refused(number))
    }
}

// The end of an event that a question refused.
pub fn stopped(a: Asked, r: Record) -> Moved
    ensures { result ≡ stopped_by a r }
{
    Moved {
        answer: a.map(|_| None),
        after: same(r),
    }
}

pub fn question1(me: Replica, r: Record) -> Asked
    ensures { result ≡ asked (question1 me ∷ []) r }
{
    question(
        1,
        me.number <= Record::NUMBER_MAX && replica_members::plural(me.view),
        r,
    )
}

pub fn question2(count: usize, bytes: usize, r: Record) -> Asked
    ensures { result ≡ asked (question2 count bytes ∷ []) r }
{
    question(
        2,
        1 <= count && count <= Record::COUNT_MAX && bytes == Record::VALUE_MAX * count,
        r,
    )
}

pub fn question3(me: Replica, r: Record) -> Asked
    ensures { result ≡ asked (question3 me ∷ []) r }
{
    question(3, replica_members::has(me.view, me.number), r)
}

pub fn question4(i: usize, count: usize, r: Record) -> Asked
    ensures { result ≡ asked (question4 i count ∷ []) r }
{
    question(4, i < count, r)
}

// The acknowledgements first: the compiler then tests the one bit where it stands.
pub fn question5(me: Replica, r: Record) -> Asked
    ensures { result ≡ asked (question5 me r ∷ []) r }
{
    question(
        5,
        !replica_members::has(r.acks, me.number)
            && r.len as usize <= Record::VALUE_MAX
            && r.timestamp.tie <= Record::NUMBER_MAX
            && r.written.tie <= Record::NUMBER_MAX
            && r.writer <= Record::NUMBER_MAX,
        r,
    )
}

// Questions 1 to 3, of a fresh start.
pub fn at_start(me: Replica, count: usize, bytes: usize, r: Record) -> Asked
    ensures { result ≡ asked (start_questions me count bytes) r }
{
    let r = question1(me, r)?;
    let r = question2(count, bytes, r)?;
    question3(me, r)
}

// Questions 1 to 4, of every event on a record: they look at none.
pub fn beforehand(s: Subject, bytes: usize) -> Asked
    ensures { result ≡ asked (beforehand s.me s.count bytes s.index) s.found }
{
    let r = at_start(s.me, s.count, bytes, s.found)?;
    question4(s.index, s.count, r)
}

// Questions 1 to 5, of every event.
#[inline(always)]
pub fn every(s: Subject, bytes: usize) -> Asked
    ensures { result ≡ asked (common s.me s.count bytes s.index s.found []) s.found }
{
    let r = beforehand(s, bytes)?;
    question5(s.me, r)
}

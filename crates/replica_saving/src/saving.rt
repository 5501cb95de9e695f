// What a write and a commit are, but for the timestamp that a commit brings: `opened`, which an ask handed out. A write brings none.
ghost use Rattle.std.specs.Prelude.{◌≤◌, ◌≡◌, [], ◌∷◌, length};
ghost use Rattle.hermes_record.specs.Order.{ties};
ghost use Rattle.hermes.specs.Event.{common, own, moved, effect, moved_by, write_step};
ghost use Rattle.hermes.specs.Guards.{question8, question9};
ghost use Rattle.replica_asking.specs.Cascade.{asked};
ghost use Rattle.replica_saving.specs.Saving.{first_of, save_of};

use hermes::{Message, Moved, Record, Replica, Subject, Timestamp};
use replica_asking::Asked;

// Questions 7, 8 and 9, of a write; 26, 8 and 9, of a commit. A function of its own: the compiler then keeps the record in registers.
fn asks_own(opened: Option<Timestamp>, r: Record, n: usize) -> Asked
    ensures { result ≡ asked (first_of opened r ∷ question8 n ∷ question9 r ∷ []) r }
{
    let r = match opened {
        None => replica_guards::question7(r)?,
        Some(t) => replica_guards::question26(t, r)?,
    };
    let r = replica_guards::question8(n, r)?;
    replica_guards::question9(r)
}

fn asks(s: Subject, bytes: usize, opened: Option<Timestamp>, n: usize) -> Asked
    ensures { result ≡ asked (common s.me s.count bytes s.index s.found (own s.me s.found (save_of opened) n)) s.found }
{
    let r = replica_asking::every(s, bytes)?;
    asks_own(opened, r, n)
}

// The step on record i, r, but for the store: the record is written, and an invalidation leaves.
fn saved(me: Replica, i: usize, r: Record, value: &[u8]) -> Moved
    requires { length value.now ≤ 192 }
    ensures { result ≡ moved_by 0 r (write_step me i r value.now) }
{
    let next = r.write(me.number, value.len() as u8);
    replica_outcome::accepted(
        replica_outgoing::send(me, i, Message::Inv(next.timestamp)),
        next,
    )
}

// A save of a value, but for the store, which is of so many bytes.
pub fn move_save(s: Subject, bytes: usize, opened: Option<Timestamp>, value: &[u8]) -> Moved
    ensures { result ≡ moved ties s.me s.count bytes s.index s.found (save_of opened) value.now }
{
    let a = asks(s, bytes, opened, value.len());
    let Ok(r) = a else {
        return replica_asking::stopped(a, s.found);
    };
    saved(s.me, s.index, r, value)
}

// A save of a value.
#[tactic(auto, using(crate::proofs::Saves::saves))]
pub(crate) fn save(s: Subject, store: &mut [u8], opened: Option<Timestamp>, value: &[u8]) -> Moved
    ensures { (result ≡ (effect ties s.me s.count s.index s.found store.old (save_of opened) value.now).moved)
        × (store.new ≡ (effect ties s.me s.count s.index s.found store.old (save_of opened) value.now).store) }
{
    let m = move_save(s, store.len(), opened, value);
    replica_outcome::stored(store, s.count, s.index, m.answer, value);
    m
}

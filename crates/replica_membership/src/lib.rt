// Membership: the fresh start of a replica, and its change of view.
#![tactic(auto)]

ghost use Rattle.std.specs.Prelude.{◌≡◌, cond, leb};
ghost use Rattle.hermes_record.specs.Members.{size};
ghost use Rattle.hermes.specs.Answer.{no};
ghost use Rattle.hermes.specs.Node.{admit, first_record, view};

use hermes::{Admission, Record, Refused, Replica, Settings};

// The record that a fresh start fills the table with.
pub fn fresh_record(view: u16) -> Record
    ensures { result ≡ first_record view }
{
    Record::fresh(replica_members::lowest(view))
}

// A fresh start in a group with these settings, with so many records and bytes of store: is it admitted?
pub fn admit(number: u8, view: u16, settings: Settings, count: usize, bytes: usize) -> Admission
    ensures { result ≡ admit number view settings count bytes }
{
    let me = Replica {
        number,
        epoch: 0,
        view,
        settings,
    };
    replica_asking::at_start(me, count, bytes, fresh_record(view))?;
    Ok(me)
}

// The no of this question, which comes after question 1; that one says no first where the view is of fewer than two.
fn refused(me: Replica, number: u8) -> Refused
    ensures { result ≡ no (cond (leb 2 (size me.view)) number 1) }
{
    if replica_members::plural(me.view) {
        Refused(number)
    } else {
        Refused(1)
    }
}

// A change to this epoch and view; number and settings stay: questions 1, 3, 18 and 19. The tests stand in another order. Who is in the view has a number below 16, and
// what a set of two lies within is of two itself: so nothing is left to ask of question 1 once the others say yes, and only after a no is its
// number looked for.
#[tactic(auto, using(crate::proofs::Viewing::members), unfolding(hermes::specs::Node::view))]
pub fn view(me: Replica, epoch: u32, set: u16) -> Admission
    ensures { result ≡ view me epoch set }
{
    if !replica_members::has(me.view, me.number) {
        if Record::NUMBER_MAX < me.number {
            return Err(Refused(1));
        }
        return Err(refused(me, 3));
    }
    if epoch <= me.epoch {
        return Err(refused(me, 18));
    }
    if !(replica_members::within(set, me.view) && replica_members::plural(set)) {
        return Err(refused(me, 19));
    }
    Ok(Replica {
        epoch,
        view: set,
        ..me
    })
}

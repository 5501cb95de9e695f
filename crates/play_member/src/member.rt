// A member of the group in play, and what an event on it comes to.
ghost use Rattle.std.specs.Prelude.{◌≡◌};
ghost use Rattle.hermes_record.specs.Order.{ties};
ghost use Rattle.hermes.specs.Event.{sent_by};
ghost use Rattle.hermes.specs.Node.{index_of, apply, viewed};
ghost use Rattle.hermes.specs.Run.{event};
ghost use Rattle.play_member.specs.Member.{node_of, fresh_in, result_of};

use hermes::{Answer, Event, Record, Replica, Rule, Settings, Subject};

// A replica of one record, with its store.
#[derive(Clone, Copy)]
pub struct Member {
    pub me: Replica,
    pub held: Record,
    pub store: [u8; 192],
}

impl Member {
    // Replica k of a group whose view is this set, just started under the old rule of ties. One that is not in the view keeps what was lent.
    pub fn fresh(k: u8, view: u16) -> Member
        ensures { result ≡ fresh_in view k }
    {
        let settings = Settings { rule: Rule::Higher };
        let start = replica_membership::admit(k, view, settings, 1, Record::VALUE_MAX);
        Member {
            me: Replica {
                number: k,
                epoch: 0,
                view,
                settings,
            },
            held: match start {
                Ok(_) => replica_membership::fresh_record(view),
                Err(_) => Record::fresh(0),
            },
            store: [0; 192],
        }
    }

    // An event on the member's record, with the value's bytes.
    pub fn apply(&mut self, e: Event, value: &[u8]) -> Answer
        ensures { (result_of (Some result) self.new ≡ event (apply ties (node_of self.old) 0 e value.now)) × (index_of (sent_by result) ≡ 0) }
    {
        let s = Subject {
            me: self.me,
            count: 1,
            index: 0,
            found: self.held,
        };
        let moved = replica_events::step(s, &mut self.store, e, value);
        self.held = moved.after;
        moved.answer
    }

    // An epoch and its view.
    pub fn view(&mut self, epoch: u32, set: u16) -> Answer
        ensures { (result_of (Some result) self.new ≡ event (viewed (node_of self.old) epoch set)) × (index_of (sent_by result) ≡ 0) }
    {
        self.me = replica_membership::view(self.me, epoch, set)?;
        Ok(None)
    }
}

// The group in play: its members, the log of what left them, and what a line of a script comes to there.
ghost use Rattle.std.specs.Prelude.{◌≡◌, true, ◌≤◌, length, IfSome};
ghost use Rattle.hermes_record.specs.Order.{ties};
ghost use Rattle.hermes.specs.Event.{sent_by};
ghost use Rattle.hermes.specs.Node.{index_of};
ghost use Rattle.hermes.specs.Run.{perform, logged};
ghost use Rattle.play_script.specs.Command.{text_of};
ghost use Rattle.play_log.specs.Log.{log_of};
ghost use Rattle.play_member.specs.Member.{node_of, result_of, has_room};
ghost use Rattle.play_game.specs.Play.{log_number, action_of};

use hermes::{Answer, Event, Outgoing};
use play_lines::Printer;
use play_log::Log;
use play_member::Member;
use play_script::Entry;
use play_words::Command;

// What a command comes to at a member; no answer where there is no event.
fn perform(m: &mut Member, what: Command, line: &[u8], log: &Log) -> Option<Answer>
    ensures { (result_of result m.new ≡ perform ties (action_of what (text_of line.now)) (log_of log.now) (node_of m.old))
        × (IfSome result (λ a. index_of (sent_by a) ≡ 0)) }
{
    match what {
        Command::Read => Some(m.apply(Event::Read, &[])),
        Command::Write => Some(m.apply(Event::Write, play_script::text(line))),
        Command::Replay => Some(m.apply(Event::Replay, &[])),
        Command::Deliver(k) => {
            let e = log.get(k)?;
            Some(m.apply(Event::Deliver(e.received()), e.body()))
        }
        Command::Validate => Some(m.apply(Event::Validate, &[])),
        Command::Resend => Some(m.apply(Event::Resend, &[])),
        Command::View(epoch, set) => Some(m.view(epoch, set)),
    }
}

// What leaves an event of this member is logged; there is room for it. The answer is its log number, if a message left.
fn keep(m: &Member, o: Outgoing, log: &mut Log) -> Option<u8>
    requires { (has_room (length (log_of log.old)) o ≡ true) × (index_of o ≡ 0) }
    ensures { (log_of log.new ≡ logged (log_of log.old) (node_of m.now) o) × (result ≡ log_number (length (log_of log.old)) o) }
{
    let (message, header) = o?;
    let body = replica_outgoing::body(o, m.held, &m.store);
    let n = log.append(message, header, body)?;
    Some(n as u8)
}

// `count` of the members are in play.
#[derive(Drop)]
pub struct Cluster {
    count: usize,
    members: [Member; 4],
    log: Log,
    ghost few: { count ≤ 4 },
}

impl Cluster {
    ghost use Rattle.std.specs.Prelude.{◌+◌, ◌<◌};
    ghost use Rattle.hermes.specs.Run.{Entry};
    ghost use Rattle.play_game.specs.Play.{fresh_group, entry_turn, turn};
    ghost use Rattle.play_game.specs.Cluster.{group_of, Turned};

    // A group of this many replicas, just started, and no message yet.
    pub fn fresh(count: usize) -> Cluster
        requires { count < 5 }
        ensures { (result.count ≡ count) × (group_of result ≡ fresh_group count) }
    {
        let view = (1 << count) - 1;
        Cluster {
            count,
            members: [
                Member::fresh(0, view),
                Member::fresh(1, view),
                Member::fresh(2, view),
                Member::fresh(3, view),
            ],
            log: Log::new(),
        }
    }

    // One line is played: what it comes to is printed and, if the log has room for what leaves, done.
    pub fn turn(&mut self, line: &[u8], out: &mut Printer)
        requires { out.old.at + 25 ≤ length out.old.out.now }
        ensures { Turned (turn self.old.count (group_of self.old) line.now) self.old out.old self.new out.new }
    {
        match play_script::parse(line) {
            Some(Entry { laptop, command }) if play_bounds::in_group(self.count, laptop) =>
                self.act(laptop, command, line, out),
            _ => out.put_unknown(),
        }
    }

    // A laptop's command.
    fn act(&mut self, who: usize, what: Command, line: &[u8], out: &mut Printer)
        requires { (who < self.old.count) × (out.old.at + 25 ≤ length out.old.out.now) }
        ensures { Turned (entry_turn self.old.count (group_of self.old) (record { who = who; what = action_of what (text_of line.now) })) self.old out.old self.new out.new }
    {
        let mut m = self.members[who];
        let Some(answer) = perform(&mut m, what, line, &self.log) else {
            return out.put_unknown();
        };
        let leaving = play_member::sent_by(answer);
        if !play_member::has_room(self.log.sent(), leaving) {
            return out.put_unknown();
        }
        let number = keep(&m, leaving, &mut self.log);
        self.members[who] = m;
        out.put_answer(replica_outcome::number_of(answer), m.held, number);
    }
}

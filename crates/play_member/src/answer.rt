// What leaves with an answer, and the room of the log for that.
ghost use Rattle.std.specs.Prelude.{◌≡◌};
ghost use Rattle.hermes.specs.Event.{sent_by};
ghost use Rattle.play_member.specs.Member.{has_room};

use hermes::{Answer, Outgoing};

// The most messages of the log.
const MESSAGES_MAX: usize = 256;

// What leaves with an answer.
pub fn sent_by(a: Answer) -> Outgoing
    ensures { result ≡ sent_by a }
{
    a.unwrap_or(None)
}

// Whether the log has room for what leaves.
pub fn has_room(sent: usize, o: Outgoing) -> bool
    ensures { result ≡ has_room sent o }
{
    o.is_none() || sent < MESSAGES_MAX
}

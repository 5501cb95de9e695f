// The end of an accepted event, and the number of an answer; the end of a refused event is `replica_asking::stopped`.
ghost use Rattle.std.specs.Prelude.{◌≡◌, Ok};
ghost use Rattle.hermes.specs.Event.{number_of};

use hermes::{Answer, Moved, Outgoing, Record, Refused};

// What leaves, and the record as it is then.
pub fn accepted(out: Outgoing, after: Record) -> Moved
    ensures { result ≡ record { answer = Ok out; after = after } }
{
    Moved {
        answer: Ok(out),
        after,
    }
}

// The number of an answer.
pub fn number_of(a: Answer) -> u8
    ensures { result ≡ number_of a }
{
    match a {
        Ok(_) => 0,
        Err(Refused(number)) => number,
    }
}

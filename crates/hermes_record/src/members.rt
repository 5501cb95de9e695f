// Sets of replica numbers in 16 bits: what a record's acknowledgements need. The others are in replica_members.
ghost use Rattle.std.specs.Prelude.{◌≡◌};
ghost use Rattle.hermes_record.specs.Members.{with};

use crate::record::Record;

// The set with number n.
pub fn with(set: u16, n: u8) -> u16
    ensures { result ≡ with set n }
{
    if n <= Record::NUMBER_MAX {
        set | (1 << n)
    } else {
        set
    }
}

// Sets of replica numbers in 16 bits.
#![tactic(auto)]

ghost use Rattle.std.specs.Prelude.{◌≡◌, leb};
ghost use Rattle.hermes_record.specs.Members.{has, size, lowest, within, without, others_in};

use hermes::Record;

// The set with a number.
pub use hermes_record::with;

// Is number n in the set?
#[tactic(auto, unfolding(hermes_record::specs::Members::has))]
pub fn has(set: u16, n: u8) -> bool
    ensures { result ≡ has set n }
{
    n <= Record::NUMBER_MAX && (set >> n) % 2 == 1
}

// Are there at least two?
#[tactic(auto, using(crate::proofs::Bits::size_ones))]
pub fn plural(set: u16) -> bool
    ensures { result ≡ leb 2 (size set) }
{
    2 <= set.count_ones()
}

// The lowest number in the set, and 16 where it is empty.
#[tactic(auto, using(crate::proofs::Bits::lowest_zeros))]
pub fn lowest(set: u16) -> u8
    ensures { result ≡ lowest set }
{
    set.trailing_zeros() as u8
}

// Is every number of a in b?
#[tactic(auto, using(crate::proofs::Bits::and_within))]
pub fn within(a: u16, b: u16) -> bool
    ensures { result ≡ within a b }
{
    a & b == a
}

// The set without number n.
#[tactic(auto, unfolding(hermes_record::specs::Members::without))]
pub fn without(set: u16, n: u8) -> u16
    ensures { result ≡ without set n }
{
    if n <= Record::NUMBER_MAX {
        set & !(1 << n)
    } else {
        set
    }
}

// Is every number of the view but n in the set?
#[tactic(auto, using(crate::proofs::Bits::others_within))]
pub fn others_in(n: u8, view: u16, set: u16) -> bool
    ensures { result ≡ others_in n view set }
{
    within(view, with(set, n))
}

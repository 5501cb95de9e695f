// Numbers in decimal.
ghost use Rattle.std.specs.Prelude.{◌≡◌, ◌+◌, ◌^◌, ◌<◌, ◌≤◌, IfSome};
ghost use Rattle.play_numbers.specs.Number.{more, word_number};

// The number that a whole word spells, at most `greatest` and with no leading zero.
#[tactic(auto, unfolding(crate::specs::Number::word_number))]
pub fn read(word: &[u8], greatest: u32) -> Option<usize>
    ensures value { result ≡ word_number (greatest + 1) word.now }
    ensures bound { IfSome result (λ n. n ≤ greatest) }
{
    match word {
        [] | [b'0', _, ..] => None,
        _ => digits(word, greatest as usize + 1),
    }
}

// The number that digits spell, below the limit.
#[tactic(auto, using(crate::proofs::Numbers::more_end, crate::proofs::Numbers::more_step))]
fn digits(word: &[u8], limit: usize) -> Option<usize>
    requires { (0 < limit) × (limit ≤ 2 ^ 32) }
    ensures value { result ≡ more limit 0 word.now }
    ensures bound { IfSome result (λ n. n < limit) }
{
    let mut value = 0;
    for b in word {
        if !b.is_ascii_digit() {
            return None;
        }
        value = value * 10 + (*b - b'0') as usize;
        if limit <= value {
            return None;
        }
    }
    Some(value)
}

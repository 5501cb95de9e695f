// The place of a byte, and the cut at the first space.
ghost use Rattle.std.specs.Prelude.{◌≡◌, ◌+◌, ◌≤◌, ◌==◌, true, false, MatchOption};
ghost use Rattle.std.specs.List.{position};
ghost use Rattle.play_script.specs.Seek.{index_of, slice};
ghost use Rattle.play_script.specs.Command.{spaced, word_of, rest_of};

const SPACE: u8 = b' ';

// The index of the first `b`, if there is one.
fn place(s: &[u8], b: u8) -> Option<usize>
    ensures { result ≡ position (λ x. x == b) s.now }
{
    s.iter().position(|x| *x == b)
}

// The index of the first `b` from index `from` on and below `to`. Where there is none, `to`, or where the text ends before it, its end; but `from`
// where that is no smaller.
#[tactic(auto, using(crate::proofs::Places::place_none))]
pub fn find(s: &[u8], from: usize, to: usize, b: u8) -> usize
    ensures value { result ≡ from + index_of b (slice from to s.now) }
    ensures bound { from ≤ to → result ≤ to }
{
    let end = to.min(s.len());
    if end <= from {
        return from;
    }
    from + place(&s[from..end], b).unwrap_or(end - from)
}

// What stands before the first space, and behind it, where there is one.
pub(crate) fn split(s: &[u8]) -> Option<(&[u8], &[u8])>
    ensures { MatchOption result (spaced s.now ≡ false)
        (λ p. (spaced s.now ≡ true) × (p.0.now ≡ word_of s.now) × (p.1.now ≡ rest_of s.now)) }
{
    let k = place(s, SPACE)?;
    Some((&s[..k], &s[k + 1..]))
}

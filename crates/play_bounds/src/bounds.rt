// What is played: which input into which output, who is in the group, where a line ends.
ghost use Rattle.std.specs.Prelude.{◌≡◌};
ghost use Rattle.play_bounds.specs.Bounds.{playable, in_group, BoundsAt};

use play_lines::LINE_MAX;

const LINE_FEED: u8 = b'\n';

// The most bytes of an input.
const INPUT_MAX: usize = 65536;

// Where a line ends, and where the next one begins.
#[derive(Clone, Copy)]
pub struct Bounds {
    pub end: usize,
    pub next: usize,
}

// Is this input played into an output of so many bytes?
pub fn playable(input: &[u8], room: usize) -> bool
    ensures { result ≡ playable input.now room }
{
    input.len() <= INPUT_MAX && LINE_MAX * input.len() + 2 <= room
}

// Is replica k one of the first `count`?
pub fn in_group(count: usize, k: usize) -> bool
    ensures { result ≡ in_group count k }
{
    k < count
}

// The line that begins at index `from`.
pub fn line_at(input: &[u8], from: usize) -> Bounds
    ensures { BoundsAt input.now from result }
{
    if input.len() <= from {
        return Bounds {
            end: from,
            next: from,
        };
    }
    let end = play_script::find(input, from, input.len(), LINE_FEED);
    Bounds { end, next: end + 1 }
}

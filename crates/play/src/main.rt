// Plays the script on standard input: at most 65,536 bytes of it are read.
#![tactic(auto)]

ghost use Rattle.std.specs.Prelude.{◌≡◌, ℕ, ◌<◌, ◌≤◌, length, take, IfOk, OnErr};
ghost use Rattle.std.specs.Io.KnownBytes.{Consumes, IsAtEnd};

use std::io;
use std::io::Read;

// So many zeros. In a function of its own, so that no proof of its caller computes an array of this size.
fn zeros<const N: usize>() -> [u8; N]
    ensures { N ≡ length result }
{
    [0; N]
}

// Reads until the buffer is full or the input ends. The answer is how many bytes stand at the buffer's front then. The reader's error ends it,
// and leaves at the buffer's front all that the reader gave.
fn read_full<R: Read>(reader: &mut R, buf: &mut [u8]) -> io::Result<usize>
    ensures bound { IfOk result (λ n. n ≤ length buf.new) }
    ensures bytes { IfOk result (λ n. Consumes (R.remaining reader.old) (R.remaining reader.new) (take n buf.new)) }
    ensures end { IfOk result (λ n. n < length buf.new → IsAtEnd (R.remaining reader.new)) }
    ensures err { OnErr result ((n : ℕ) × (n ≤ length buf.new) × Consumes (R.remaining reader.old) (R.remaining reader.new) (take n buf.new)) }
{
    let mut done = 0;
    while done < buf.len() {
        let n = reader.read(&mut buf[done..])?;
        if n == 0 {
            break;
        }
        done += n;
    }
    Ok(done)
}

fn main(rt: HostRuntime) -> io::Result<()> {
    // Room for the script, and for whatever it can print.
    let mut input = zeros::<65536>();
    let mut out = zeros::<1638402>();
    let n = read_full(&mut rt.stdin(), &mut input)?;
    match play_game::play(&input[..n], &mut out) {
        Some(to) if to <= out.len() => rt.write_all(&out[..to]),
        _ => Ok(()),
    }
}

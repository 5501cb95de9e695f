// A whole script.
ghost use Rattle.std.specs.Prelude.{◌≡◌, ◌+◌, ◌*◌, ◌≤◌, ◌<◌, length, drop};
ghost use Rattle.play_script.specs.Text.{lines};
ghost use Rattle.play_lines.specs.Print.{Prints};
ghost use Rattle.play_game.specs.Play.{fresh_group, prints, played_answer, output_of};

use crate::cluster::Cluster;
use play_lines::Printer;

// The lines from index `from` on, played by a group of this many that has just started.
fn play_lines(count: usize, input: &[u8], from: usize, out: &mut Printer)
    requires { (count < 5) × (length input.now ≤ 65536) × (out.old.at + 25 * length input.now ≤ length out.old.out.now) }
    ensures { Prints (prints count (fresh_group count) (lines (drop from input.now))) out.old out.new }
{
    let mut c = Cluster::fresh(count);
    let mut pos = from;
    while pos < input.len() {
        let bounds = play_bounds::line_at(input, pos);
        c.turn(&input[pos..bounds.end], out);
        pos = bounds.next;
    }
}

// Plays a script: what it prints stands at the front of the output, and the answer is how many bytes. Refused where the input is too long, or the
// output too short for what an input of its length could print.
pub fn play(input: &[u8], out: &mut [u8]) -> Option<usize>
    ensures { (result ≡ played_answer input.now (length out.old)) × (out.new ≡ output_of input.now out.old) }
{
    if !play_bounds::playable(input, out.len()) {
        return None;
    }
    let bounds = play_bounds::line_at(input, 0);
    let mut printer = Printer { out, at: 0 };
    let Some(count) = play_script::group_size(&input[..bounds.end]) else {
        printer.put_unknown();
        return Some(printer.at);
    };
    play_lines(count, input, bounds.next, &mut printer);
    Some(printer.at)
}

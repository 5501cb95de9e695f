// The playing program on one script, for C and Rust: a member of its own, so that what it calls has one caller in the other members and is
// inlined there.
#![tactic(auto)]

ghost use Rattle.std.specs.Prelude.{◌≡◌, length};
ghost use Rattle.play_game.specs.Play.{played_answer, output_of};
ghost use Rattle.export_play.specs.Playing.{played_out};

// The number of a script or an output beyond the player's limits. No question has it.
const BEYOND: u8 = 255;

// The answer to a script: 0, or 255 beyond the player's limits; and how many bytes were printed.
#[repr(C)]
#[derive(Clone, Copy)]
pub struct CetskobiPlayed {
    pub number: u8,
    pub len: usize,
}

impl From<Option<usize>> for CetskobiPlayed {
    ghost from_gives = { λ printed played. played ≡ played_out printed };

    fn from(printed: Option<usize>) -> CetskobiPlayed {
        match printed {
            Some(len) => CetskobiPlayed { number: 0, len },
            None => CetskobiPlayed {
                number: BEYOND,
                len: 0,
            },
        }
    }
}

// What a script prints, at the front of the output.
#[unsafe(no_mangle)]
pub extern "C" fn cetskobi_play(script: &[u8], out: &mut [u8]) -> CetskobiPlayed
    ensures { (result ≡ played_out (played_answer script.now (length out.old)))
        × (out.new ≡ output_of script.now out.old) }
{
    play_game::play(script, out).into()
}

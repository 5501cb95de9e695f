// How many messages there are.
ghost use Rattle.std.specs.Prelude.{◌≡◌};
ghost use Rattle.packet_words.specs.Words.{count_in};

use packet_format::COUNT_MAX;

// The words of a message.
pub const WORDS: usize = 7;

// How many messages so many words hold.
pub fn count_in(n: usize) -> usize
    ensures { result ≡ count_in n }
{
    let count = n / WORDS;
    if n % WORDS == 0 && count <= COUNT_MAX {
        count
    } else {
        0
    }
}

// Question 24 of the messages' fields, asked of their words.
ghost use Rattle.std.specs.Prelude.{◌≡◌, ◌+◌, ◌*◌, ◌≤◌, min, length};
ghost use Rattle.packet_words.specs.Words.{fields_at, entries_from, word_messages};
ghost use Rattle.packet_question.specs.Asking.{asked, clipped, BodyOf};

use packet_format::Fields;
use packet_words::WORDS;

// A word as a byte; of one that is none 255, which is good in no field.
fn byte(word: u32) -> u8
    ensures { result ≡ min word 255 }
{
    u8::try_from(word).unwrap_or(u8::MAX)
}

// The fields that stand at w; a body's offset is none of them.
fn fields_at(words: &[u32], w: usize) -> Fields
    requires { w + 7 ≤ length words.now }
    ensures { result ≡ clipped (fields_at words.now w 0) }
{
    Fields {
        kind: byte(words[w]),
        sender: byte(words[w + 1]),
        epoch: words[w + 2],
        index: words[w + 3] as usize,
        version: words[w + 4],
        tie: byte(words[w + 5]),
        offset: 0,
        len: byte(words[w + 6]),
    }
}

// The length of the body of the message at w, if its fields are as question 22 asks. The kind is asked by itself, and the length is the word: the
// compiler then compares the words, and makes no bytes of them.
fn body_len(words: &[u32], w: usize) -> Option<usize>
    requires { w + 7 ≤ length words.now }
    ensures { BodyOf (fields_at words.now w 0) result }
{
    if 255 < words[w] {
        return None;
    }
    fields_at(words, w).good().then_some(words[w + 6] as usize)
}

// The question, of the first `count` messages.
fn ask_first(words: &[u32], count: usize) -> Option<usize>
    requires { (count ≤ 64) × (7 * count ≤ length words.now) }
    ensures { result ≡ asked (entries_from count 0 words.now) }
{
    let mut sum = 0;
    for k in 0..count {
        sum += body_len(words, WORDS * k)?;
    }
    Some(sum)
}

// The question, of all messages that the words hold: the summed length of their bodies, if it says yes.
pub fn ask(words: &[u32]) -> Option<usize>
    ensures { result ≡ asked (word_messages words.now) }
{
    ask_first(words, packet_words::count_in(words.len()))
}

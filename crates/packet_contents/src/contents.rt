// The header and the contents table, from the words of the messages.
ghost use Rattle.std.specs.Prelude.{◌≡◌, ◌+◌, ◌*◌, ◌≤◌, length};
ghost use Rattle.std.proofs.lemmas.List.Edits.{sets};
ghost use Rattle.packet_format.specs.Entry.{entry_bytes};
ghost use Rattle.packet_format.specs.Reading.{entry_place};
ghost use Rattle.packet_words.specs.Words.{fields_at};
ghost use Rattle.packet_contents.specs.Front.{cut, table, fronted};

use crate::output::put;
use hermes_record::Rule;
use packet_format::{ENTRY_BYTES, HEADER_BYTES, TOTAL_MAX};
use packet_words::WORDS;

// The 16 bytes of an entry, whose body begins at `at`: of each word the low bytes that its field has room for.
// Each word is read just before it is stored: the compiler then makes one store of its bytes.
fn put_entry(out: &mut [u8], pos: usize, words: &[u32], w: usize, at: usize)
    requires { (w + 7 ≤ length words.now) × (pos + 16 ≤ length out.old) }
    ensures { out.new ≡ sets out.old pos (entry_bytes (cut (fields_at words.now w at))) }
{
    out[pos] = (words[w] % 256) as u8;
    out[pos + 1] = (words[w + 1] % 256) as u8;
    put(out, pos + 2, words[w + 2].to_be_bytes());
    put(out, pos + 6, ((words[w + 3] % 65536) as u16).to_be_bytes());
    put(out, pos + 8, words[w + 4].to_be_bytes());
    out[pos + 12] = (words[w + 5] % 256) as u8;
    put(out, pos + 13, ((at % 65536) as u16).to_be_bytes());
    out[pos + 15] = (words[w + 6] % 256) as u8;
}

// The entries of the first `count` messages.
fn put_contents(out: &mut [u8], words: &[u32], count: usize)
    requires { (count ≤ 64) × (7 * count ≤ length words.now) × (entry_place count ≤ length out.old) }
    ensures { out.new ≡ sets out.old 4 (table count 0 (entry_place count) words.now) }
{
    let mut at = HEADER_BYTES + ENTRY_BYTES * count;
    for j in 0..count {
        let w = WORDS * j;
        put_entry(out, HEADER_BYTES + ENTRY_BYTES * j, words, w, at);
        at += words[w + 6] as usize;
    }
}

// All that stands before the bodies in a packet of a group of this rule, where question 25 lets it pass; else nothing is stored.
pub fn put_front(rule: Rule, words: &[u32], bodies: &[u8], out: &mut [u8])
    ensures { out.new ≡ fronted rule words.now bodies.now out.old }
{
    let count = packet_words::count_in(words.len());
    let total = HEADER_BYTES + ENTRY_BYTES * count + bodies.len();
    if TOTAL_MAX < total || out.len() < total {
        return;
    }
    out[0] = u8::from(rule);
    out[1] = count as u8;
    put(out, 2, (total as u16).to_be_bytes());
    put_contents(out, words, count);
}

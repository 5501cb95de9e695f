// The writer.
ghost use Rattle.std.specs.Prelude.{◌≡◌, length};
ghost use Rattle.packet_format.specs.Writing.{output_of};
ghost use Rattle.packet_words.specs.Words.{word_messages, packed};

use hermes::{Refused, Rule};
use packet_contents::put_front;
use packet_format::{ENTRY_BYTES, HEADER_BYTES, TOTAL_MAX, Written};

// A packet of the messages that the words hold, whose bodies stand end to end, written to the front of `out` in a group of this rule.
pub fn write(rule: Rule, words: &[u32], bodies: &[u8], out: &mut [u8]) -> Written
    ensures answer { result ≡ packed words.now bodies.now (length out.old) }
    ensures output { out.new ≡ output_of rule result (word_messages words.now) bodies.now out.old }
{
    let count = packet_words::count_in(words.len());
    if count < 1 {
        return Err(Refused(24));
    }
    let Some(sum) = packet_question::ask(words) else {
        return Err(Refused(24));
    };
    if sum != bodies.len() {
        return Err(Refused(24));
    }
    let start = HEADER_BYTES + ENTRY_BYTES * count;
    let total = start + sum;
    if TOTAL_MAX < total || out.len() < total {
        return Err(Refused(25));
    }
    put_front(rule, words, bodies, out);
    hermes_record::copy(bodies, &mut out[start..total]);
    Ok(total)
}

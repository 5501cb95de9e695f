// The questions that a fetch and an acceptance begin with.
ghost use Rattle.std.specs.Prelude.{◌≡◌};
ghost use Rattle.packet_format.specs.Reading.{question20};
ghost use Rattle.packet_reader.specs.Opening.{Opened};

use hermes::{Refused, Rule};
use packet_format::{COUNT_MAX, ENTRY_BYTES, HEADER_BYTES, TOTAL_MAX};

// Question 20.
fn header_good(packet: &[u8]) -> bool
    ensures { result ≡ (question20 packet.now).yes }
{
    let [first, count, high, low, ..] = *packet else {
        return false;
    };
    let total = usize::from(u16::from_be_bytes([high, low]));
    Rule::try_from(first).is_ok()
        && (1..=COUNT_MAX).contains(&(count as usize))
        && total == packet.len()
        && total <= TOTAL_MAX
}

// Questions 20, 27 and 21 of a packet in a group of this rule, and the count of its messages.
pub(crate) fn open(rule: Rule, packet: &[u8]) -> Result<u8, Refused>
    ensures { Opened rule packet.now result }
{
    if !header_good(packet) {
        return Err(Refused(20));
    }
    if packet[0] != u8::from(rule) {
        return Err(Refused(27));
    }
    let count = packet[1];
    if packet.len() < HEADER_BYTES + ENTRY_BYTES * count as usize {
        return Err(Refused(21));
    }
    Ok(count)
}

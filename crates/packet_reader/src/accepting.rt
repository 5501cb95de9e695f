// A packet accepted once, and its messages taken.
ghost use Rattle.std.specs.Prelude.{◌≡◌};
ghost use Rattle.packet_format.specs.Reading.{body_of};
ghost use Rattle.packet_format.specs.Accepting.{accepted, taken, fetched_of};
ghost use Rattle.packet_reader.specs.Opening.{Judged};

use crate::entry::fields_of;
use crate::opening::open;
use crate::reader::part;
use crate::walk::walk_on;
use hermes::{Refused, Rule};
use packet_format::{Accepted, ENTRY_BYTES, HEADER_BYTES, Taken};

// Questions 20, 27, 21 and 22 of a packet in a group of this rule, and the count of its messages.
fn judge(rule: Rule, packet: &[u8]) -> Result<u8, Refused>
    ensures { Judged rule packet.now result }
{
    let count = open(rule, packet)?;
    let entries = count as usize;
    walk_on(packet, 0, entries, HEADER_BYTES + ENTRY_BYTES * entries)?;
    Ok(count)
}

// The facts of a packet in a group of this rule, once for all of its messages.
pub fn accept(rule: Rule, packet: &[u8]) -> Accepted
    ensures { result ≡ accepted rule packet.now }
{
    match judge(rule, packet) {
        Ok(count) => Accepted { number: 0, count },
        Err(Refused(number)) => Accepted { number, count: 0 },
    }
}

// Message i of a packet, by facts that may be those of another: its entry is read at its place, and nothing outside the packet.
pub fn take(packet: &[u8], facts: Accepted, i: usize) -> Taken
    ensures { result ≡ taken packet.now facts i }
{
    if facts.count as usize <= i {
        let number = match facts.number {
            0 => 23,
            refused => refused,
        };
        return Err(Refused(number));
    }
    let pos = HEADER_BYTES + ENTRY_BYTES * i;
    if packet.len() < pos + ENTRY_BYTES {
        return Err(Refused(21));
    }
    let f = fields_of(&packet[pos..]);
    if packet.len() < f.offset + f.len as usize {
        return Err(Refused(22));
    }
    Ok(f)
}

// The body that goes with an answer to a taking from this packet.
pub fn body_taken(packet: &[u8], taken: Taken) -> &[u8]
    ensures { result.now ≡ body_of packet.now (fetched_of taken) }
{
    match taken {
        Ok(f) => part(packet, f.offset, f.len as usize),
        Err(_) => &packet[..0],
    }
}

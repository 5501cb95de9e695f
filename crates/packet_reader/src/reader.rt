// The reader.
ghost use Rattle.std.specs.Prelude.{◌≡◌, take, drop};
ghost use Rattle.packet_format.specs.Reading.{fetched, body_of};

use crate::entry::fields_of;
use crate::opening::open;
use crate::walk::{fits, walk, walk_on};
use hermes::{Refused, Rule};
use packet_format::{ENTRY_BYTES, Entry, Fetched, HEADER_BYTES};

// Message i of a packet in a group of this rule, for every byte string and every i, in one walk of the contents table: the entries before it, its own,
// those behind it. No entry is read twice.
pub fn fetch(rule: Rule, packet: &[u8], i: usize) -> Fetched
    ensures { result ≡ fetched rule packet.now i }
{
    let count = open(rule, packet)? as usize;
    let first = HEADER_BYTES + ENTRY_BYTES * count;
    if count <= i {
        walk_on(packet, 0, count, first)?;
        return Err(Refused(23));
    }
    let at = walk(packet, 0, i, first)?;
    let f = fields_of(&packet[HEADER_BYTES + ENTRY_BYTES * i..]);
    if !fits(f, at) {
        return Err(Refused(22));
    }
    walk_on(packet, i + 1, count, at + f.len as usize)?;
    Ok((Entry::from(f), f.offset))
}

// The body that goes with an answer to a fetch from this packet.
pub fn body(packet: &[u8], fetched: Fetched) -> &[u8]
    ensures { result.now ≡ body_of packet.now fetched }
{
    match fetched {
        Ok((entry, at)) => part(packet, at, entry.len as usize),
        Err(_) => &packet[..0],
    }
}

// The `len` bytes from `start` on, or as many of them as there are.
pub(crate) fn part(packet: &[u8], start: usize, len: usize) -> &[u8]
    ensures { result.now ≡ take len (drop start packet.now) }
{
    let rest = packet.get(start..).unwrap_or(&packet[..0]);
    rest.get(..len).unwrap_or(rest)
}

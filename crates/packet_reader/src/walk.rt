// The walk of the contents table: question 22, entry by entry.
ghost use Rattle.std.specs.Prelude.{◌≡◌, ◌&&◌, ◌≤◌, eqb};
ghost use Rattle.packet_format.specs.Entry.{good};
ghost use Rattle.packet_format.specs.Reading.{count_of};
ghost use Rattle.packet_reader.specs.Walking.{Table, Walked, Went, Came, Whole};

use crate::entry::fields_of;
use hermes::Refused;
use packet_format::{ENTRY_BYTES, Fields, HEADER_BYTES};

// Where a walk ended: the number of the entry that comes next, and where its body is to begin.
#[derive(Clone, Copy)]
struct Reached {
    next: usize,
    at: usize,
}

// Is an entry as question 22 asks, where its body is to begin at `at`?
pub(crate) fn fits(f: Fields, at: usize) -> bool
    ensures { result ≡ (good f && eqb f.offset at) }
{
    f.offset == at && f.good()
}

// The entries from number `from` on up to `to`, or up to the first that is not as question 22 asks. Both ends give the loop's own variables:
// of a constant that only one of them has, as of the no, the compiler would set it at every turn.
fn reach(packet: &[u8], from: usize, to: usize, start: usize) -> Reached
    requires { Table packet.now × Walked packet.now from start × (from ≤ to) × (to ≤ count_of packet.now) }
    ensures { Went packet.now to result }
{
    let mut at = start;
    for next in from..to {
        let f = fields_of(&packet[HEADER_BYTES + ENTRY_BYTES * next..]);
        if !fits(f, at) {
            return Reached { next, at };
        }
        at += f.len as usize;
    }
    Reached { next: to, at }
}

// Question 22 of the entries from number `from` on up to `to`, and where the body of entry `to` is to begin.
pub(crate) fn walk(packet: &[u8], from: usize, to: usize, start: usize) -> Result<usize, Refused>
    requires { Table packet.now × Walked packet.now from start × (from ≤ to) × (to ≤ count_of packet.now) }
    ensures { Came packet.now to result }
{
    let end = reach(packet, from, to, start);
    if end.next == to {
        Ok(end.at)
    } else {
        Err(Refused(22))
    }
}

// Question 22 of all entries from number `from` on.
pub(crate) fn walk_on(packet: &[u8], from: usize, count: usize, start: usize) -> Result<(), Refused>
    requires { Table packet.now × Walked packet.now from start × (from ≤ count) × (count ≡ count_of packet.now) }
    ensures { Whole packet.now result }
{
    if walk(packet, from, count, start)? == packet.len() {
        Ok(())
    } else {
        Err(Refused(22))
    }
}

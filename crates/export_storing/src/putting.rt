// Records put into their bytes.
ghost use Rattle.std.specs.Prelude.{◌≡◌, length, ◌+◌, ◌*◌, ◌≤◌};
ghost use Rattle.std.proofs.lemmas.List.Edits.{sets};
ghost use Rattle.export_records.specs.Layout.{table_of};
ghost use Rattle.export_storing.specs.Storing.{put, bytes_after, table_after};

use export_records::{SIZE, count};
use hermes::{Moved, Record};

// These bytes, from `at` on.
fn put<const N: usize>(bytes: &mut [u8], at: usize, part: [u8; N])
    requires { at + N ≤ length bytes.old }
    ensures { bytes.new ≡ sets bytes.old at part.entry }
{
    bytes[at..at + N].copy_from_slice(&part);
}

// Record i's bytes are replaced, number by number: as one array of them all the compiler stores also what stays as it was, and a replay takes a
// third more instructions.
pub(crate) fn put_record(bytes: &mut [u8], i: usize, r: Record)
    requires { 16 * i + 16 ≤ length bytes.old }
    ensures { bytes.new ≡ put bytes.old i r }
{
    let at = SIZE * i;
    bytes[at] = r.state.into();
    bytes[at + 1] = r.timestamp.tie;
    bytes[at + 2] = r.writer;
    bytes[at + 3] = r.written.tie;
    put(bytes, at + 4, r.timestamp.version.to_le_bytes());
    put(bytes, at + 8, r.written.version.to_le_bytes());
    put(bytes, at + 12, r.acks.to_le_bytes());
    bytes[at + 14] = r.len;
}

// An event's end: an accepted one puts its record back, a refused one leaves every byte.
#[tactic(auto, using(crate::proofs::Table::table_settled))]
pub fn settle(bytes: &mut [u8], i: usize, m: Moved)
    ensures bytes { bytes.new ≡ bytes_after m bytes.old i }
    ensures table { table_of bytes.new ≡ table_after m (table_of bytes.old) i }
{
    if m.answer.is_ok() && i < count(bytes.len()) {
        put_record(bytes, i, m.after);
    }
}

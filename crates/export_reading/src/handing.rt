// What a read and an ask begin with: questions 1 to 4, and the record out of its bytes.
ghost use Rattle.std.specs.Prelude.{◌≡◌, length, IfOk};
ghost use Rattle.export_numbers.specs.Crossing.{replica_of};
ghost use Rattle.export_records.specs.Layout.{count_of};
ghost use Rattle.export_calls.specs.Calls.{beginning};
ghost use Rattle.export_reading.specs.Reading.{found_by};

use export_calls::begin;
use export_numbers::CetskobiReplica;
use export_records::count;
use hermes::{Refused, Replica, Subject};

// Record i as its event finds it, with so many bytes of store.
#[inline(always)]
pub(crate) fn subject(
    me: CetskobiReplica,
    table: &[u8],
    bytes: usize,
    i: usize,
) -> Result<Subject, Refused>
    ensures begins { found_by result ≡ beginning (replica_of me) table.now bytes i }
    ensures whole { IfOk result (λ s. s ≡ record { me = replica_of me; count = count_of (length table.now); index = i; found = s.found }) }
{
    let me = Replica::from(me);
    let found = begin(me, table, bytes, i)?;
    Ok(Subject {
        me,
        count: count(table.len()),
        index: i,
        found,
    })
}

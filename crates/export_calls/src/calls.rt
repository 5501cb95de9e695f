// What every exported event on a record begins and ends with.
ghost use Rattle.std.specs.Prelude.{◌≡◌};
ghost use Rattle.replica_asking.specs.Cascade.{asked, beforehand};
ghost use Rattle.export_records.specs.Layout.{count_of};
ghost use Rattle.export_calls.specs.Calls.{beginning, Finished};

use export_decoding::SIZE;
use export_numbers::CetskobiAnswer;
use hermes::{Moved, Record, Refused, Replica, Subject};
use replica_asking::Asked;

// Questions 1 to 4 for a table of so many bytes: two calls, so that the count is one value in each, and no choice of two.
#[inline(always)]
fn beforehand(me: Replica, len: usize, bytes: usize, i: usize, found: Record) -> Asked
    ensures { result ≡ asked (beforehand me (count_of len) bytes i) found }
{
    let none = Subject {
        me,
        count: 0,
        index: i,
        found,
    };
    if len % SIZE == 0 {
        let count = len / SIZE;
        replica_asking::beforehand(Subject { count, ..none }, bytes)
    } else {
        replica_asking::beforehand(none, bytes)
    }
}

// The beginning of an event on record i, with so many bytes of store: questions 1 to 4, and only then the record out of its bytes: with the
// record first there are two ways to each of these questions, and every call saves registers for the second.
#[inline(always)]
pub fn begin(me: Replica, table: &[u8], bytes: usize, i: usize) -> Asked
    ensures { result ≡ beginning me table.now bytes i }
{
    beforehand(me, table.len(), bytes, i, export_decoding::none())?;
    export_records::found_at(table, i).ok_or(Refused(5))
}

// The end of an event on record i: its answer, and the bytes of the table.
pub fn finish(table: &mut [u8], i: usize, m: Moved) -> CetskobiAnswer
    ensures { Finished table.old i m result table.new }
{
    export_storing::settle(table, i, m);
    m.answer.into()
}

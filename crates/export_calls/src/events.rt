// The exported events on a record, but for the step that moves it: what an event begins and ends with stands here once.
ghost use Rattle.export_calls.specs.Steps.{Quietly, Storing};

use crate::calls::{begin, finish};
use export_numbers::{CetskobiAnswer, CetskobiReplica};
use export_records::count;
use hermes::{Answer, Moved, Replica, Subject};

// An event on record i that leaves the store, of so many bytes, as it is. The step gets the event's subject and how many bytes of store there are.
#[inline(always)]
pub fn quiet<F: FnOnce(Subject, usize) -> Moved>(
    me: CetskobiReplica,
    table: &mut [u8],
    bytes: usize,
    i: usize,
    step: F,
) -> CetskobiAnswer
    requires { F.IsAlwaysCallable step }
    ensures { Quietly (F.post step) me table.old bytes i result table.new }
{
    let me = Replica::from(me);
    match begin(me, table, bytes, i) {
        Ok(found) => {
            let count = count(table.len());
            let s = Subject {
                me,
                count,
                index: i,
                found,
            };
            let m = step(s, bytes);
            finish(table, i, m)
        }
        Err(no) => Answer::Err(no).into(),
    }
}

// An event on record i that stores its value, where `takes` says so of the subject. That is asked first, and the record's
// bytes go back before the value goes into its place: then the compiler stores no byte of the record that stays as it was.
#[inline(always)]
pub fn storing<T: FnOnce(Subject) -> bool, F: FnOnce(Subject, usize) -> Moved>(
    me: CetskobiReplica,
    table: &mut [u8],
    store: &mut [u8],
    i: usize,
    value: &[u8],
    takes: T,
    step: F,
) -> CetskobiAnswer
    requires takes { T.IsAlwaysCallable takes }
    requires step { F.IsAlwaysCallable step }
    ensures { Storing (T.post takes) (F.post step) me table.old store.old i value.now result table.new store.new }
{
    let me = Replica::from(me);
    match begin(me, table, store.len(), i) {
        Ok(found) => {
            let count = count(table.len());
            let s = Subject {
                me,
                count,
                index: i,
                found,
            };
            let taken = takes(s);
            let m = step(s, store.len());
            if taken {
                let answer = finish(table, i, m);
                replica_outcome::stored(store, count, i, m.answer, value);
                return answer;
            }
            finish(table, i, m)
        }
        Err(no) => Answer::Err(no).into(),
    }
}

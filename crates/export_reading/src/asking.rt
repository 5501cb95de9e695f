// Ask. It takes the identity, the table as bytes, sixteen for each record, and the store.
ghost use Rattle.export_calls.specs.Calls.{node_of};
ghost use Rattle.export_reading.specs.Reading.{asked_of, AskDone};

use crate::handing::subject;
use export_numbers::{CetskobiAsked, CetskobiReplica};
use hermes::{Record, Refused, Timestamp};

// Record i and its timestamp, if an ask hands them out.
#[inline(always)]
fn handed_out(
    me: CetskobiReplica,
    table: &[u8],
    store: &[u8],
    i: usize,
) -> Result<(Record, Timestamp), Refused>
    ensures { AskDone (node_of me table.now store.now) i (asked_of result) }
{
    let s = subject(me, table, store.len(), i)?;
    let t = replica_reading::ask(s, store.len())?;
    Ok((s.found, t))
}

// Ask for record i: its number, the length of its part, which begins at 192 times i, and its timestamp.
#[unsafe(no_mangle)]
pub extern "C" fn cetskobi_ask(
    me: CetskobiReplica,
    table: &[u8],
    store: &[u8],
    i: usize,
) -> CetskobiAsked
    ensures { AskDone (node_of me table.now store.now) i result }
{
    match handed_out(me, table, store, i) {
        Ok((r, t)) => CetskobiAsked {
            number: 0,
            tie: t.tie,
            version: t.version,
            len: r.len as usize,
        },
        Err(Refused(number)) => CetskobiAsked {
            number,
            tie: 0,
            version: 0,
            len: 0,
        },
    }
}

// Read. It takes the identity, the table as bytes, sixteen for each record, and the store.
ghost use Rattle.export_calls.specs.Calls.{node_of};
ghost use Rattle.export_reading.specs.Reading.{reading_of, ReadDone};

use crate::handing::subject;
use export_numbers::{CetskobiReading, CetskobiReplica};
use hermes::{Record, Refused};

// Record i, if a read hands it out.
#[inline(always)]
fn handed_out(me: CetskobiReplica, table: &[u8], store: &[u8], i: usize) -> Result<Record, Refused>
    ensures { ReadDone (node_of me table.now store.now) i (reading_of result) }
{
    let s = subject(me, table, store.len(), i)?;
    replica_reading::read_number(s, store.len())?;
    Ok(s.found)
}

// Read of record i: its number, and the length of its part, which begins at 192 times i.
#[unsafe(no_mangle)]
pub extern "C" fn cetskobi_read(
    me: CetskobiReplica,
    table: &[u8],
    store: &[u8],
    i: usize,
) -> CetskobiReading
    ensures { ReadDone (node_of me table.now store.now) i result }
{
    match handed_out(me, table, store, i) {
        Ok(r) => CetskobiReading {
            number: 0,
            len: r.len as usize,
        },
        Err(Refused(number)) => CetskobiReading { number, len: 0 },
    }
}

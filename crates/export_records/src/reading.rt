// The records that bytes hold.
ghost use Rattle.std.specs.Prelude.{◌≡◌, ◌*◌, ◌<◌, ◌≤◌, length, take, drop, MatchOption};
ghost use Rattle.hermes.specs.Node.{record_at};
ghost use Rattle.export_records.specs.Layout.{count_of, table_of, found_at};

use export_decoding::{SIZE, decoded, found_in};
use hermes::Record;

// How many records so many bytes hold.
pub fn count(n: usize) -> usize
    ensures { result ≡ count_of n }
{
    if n % SIZE == 0 { n / SIZE } else { 0 }
}

// The bytes of record i of the table, if they are there.
fn bytes_of(table: &[u8], i: usize) -> Option<&[u8; SIZE]>
    ensures { MatchOption result (count_of (length table.now) ≤ i) (λ b. (i < count_of (length table.now)) × (b.now ≡ take 16 (drop (16 * i) table.now))) }
{
    let (records, []) = table.as_chunks() else {
        return None;
    };
    records.get(i)
}

// Record i of the table; past its end a fresh one.
#[tactic(auto, using(crate::proofs::Lent::reads))]
pub fn record_at(bytes: &[u8], i: usize) -> Record
    ensures { result ≡ record_at (table_of bytes.now) i }
{
    match bytes_of(bytes, i) {
        Some(record) => decoded(record),
        None => Record::fresh(0),
    }
}

// Record i of the table, if its bytes are there and are a record.
#[tactic(auto, using(crate::proofs::Lent::reads))]
pub fn found_at(bytes: &[u8], i: usize) -> Option<Record>
    ensures { result ≡ found_at bytes.now i }
{
    found_in(bytes_of(bytes, i)?)
}

// What a fresh start makes of the lent bytes.
ghost use Rattle.std.specs.Prelude.{◌≡◌, length, replicate};
ghost use Rattle.export_records.specs.Layout.{count_of, table_of};
ghost use Rattle.export_storing.specs.Storing.{fill};

use crate::putting::put_record;
use export_records::count;
use hermes::Record;

// Every record that the bytes hold becomes r.
#[tactic(auto, using(crate::proofs::Table::filled_table))]
pub fn fill(bytes: &mut [u8], r: Record)
    ensures bytes { bytes.new ≡ fill (count_of (length bytes.old)) bytes.old r }
    ensures table { table_of bytes.new ≡ replicate (length (table_of bytes.old)) r }
{
    for i in 0..count(bytes.len()) {
        put_record(bytes, i, r);
    }
}

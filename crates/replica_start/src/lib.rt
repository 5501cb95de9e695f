// The fresh start of a replica on the lent table and store.
#![tactic(auto)]

ghost use Rattle.std.specs.Prelude.{◌≡◌, length, replicate};
ghost use Rattle.hermes.specs.Node.{start};

use hermes::{Admission, Record, Settings};
use replica_membership::{admit, fresh_record};

// Every byte of the store becomes zero.
pub fn zero(store: &mut [u8])
    ensures { store.new ≡ replicate (length store.old) 0 }
{
    store.fill(0);
}

// A fresh start in a group with these settings: every record of the table becomes fresh, and the store zero. A refused one changes nothing.
pub fn start(
    number: u8,
    view: u16,
    settings: Settings,
    table: &mut [Record],
    store: &mut [u8],
) -> Admission
    ensures { (result ≡ (start number view settings table.old store.old).admission)
        × ((table.new ≡ (start number view settings table.old store.old).table)
        × (store.new ≡ (start number view settings table.old store.old).store)) }
{
    let me = admit(number, view, settings, table.len(), store.len())?;
    table.fill(fresh_record(view));
    zero(store);
    Ok(me)
}

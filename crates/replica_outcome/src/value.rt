// The bytes of the values, 192 of the store for each record.
ghost use Rattle.std.specs.Prelude.{◌≡◌, ◌≤◌, ◌+◌, ◌*◌, length};
ghost use Rattle.hermes.specs.Store.{place};
ghost use Rattle.replica_outcome.specs.Placing.{room, placed, stored_for};

use hermes::{Answer, Record};
use hermes_record::copy;

// The comparisons of questions 2, 4, and 8 or 12. After them the compiler drops these.
fn has_room(count: usize, bytes: usize, i: usize, n: usize) -> bool
    ensures { result ≡ room count bytes i n }
{
    count <= Record::COUNT_MAX
        && bytes == Record::VALUE_MAX * count
        && i < count
        && n <= Record::VALUE_MAX
}

// Zeros in all of the 192 bytes of record i, then the value over them: the compiler does the first without a loop or a call.
#[tactic(auto, using(crate::proofs::Bytes::fill_place))]
fn put(store: &mut [u8], i: usize, value: &[u8])
    requires { (192 * i + 192 ≤ length store.old) × (length value.now ≤ 192) }
    ensures { store.new ≡ place i value.now store.old }
{
    let at = Record::VALUE_MAX * i;
    store[at..at + Record::VALUE_MAX].fill(0);
    copy(value, &mut store[at..at + value.len()]);
}

// The value goes into the 192 bytes of record i of count, and zeros after it. Without room for it the store stays as it is.
fn place(store: &mut [u8], count: usize, i: usize, value: &[u8])
    ensures { store.new ≡ placed count i value.now store.old }
{
    if has_room(count, store.len(), i, value.len()) {
        put(store, i, value);
    }
}

// The store of an event that stores its value, by its answer: an accepted one's value goes into its place.
pub fn stored(store: &mut [u8], count: usize, i: usize, a: Answer, value: &[u8])
    ensures { store.new ≡ stored_for a count i value.now store.old }
{
    if a.is_ok() {
        place(store, count, i, value);
    }
}

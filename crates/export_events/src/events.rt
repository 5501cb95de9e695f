// The events on one record but read and delivery, for C and Rust. Each takes the identity, the table as bytes, sixteen for each record, and the store.
#![tactic(auto, using(export_calls::proofs::Steps::quiet_done, crate::proofs::Saved::write_done))]

ghost use Rattle.std.specs.Prelude.{[]};
ghost use Rattle.hermes.specs.declared.event.Event.TheVariants.{Write, Commit, Replay, Validate, Resend};
ghost use Rattle.export_calls.specs.Calls.{node_of, Done};

use export_calls::{quiet, storing};
use export_numbers::{CetskobiAnswer, CetskobiReplica};
use hermes::Timestamp;
use replica_saving::move_save;

// Write of a value to record i. A commit shares all but `opened`, and yet each has its own step: one with two callers would not be inlined.
#[unsafe(no_mangle)]
pub extern "C" fn cetskobi_write(
    me: CetskobiReplica,
    table: &mut [u8],
    store: &mut [u8],
    i: usize,
    value: &[u8],
) -> CetskobiAnswer
    ensures { Done (node_of me table.old store.old) table.old i Write value.now result table.new store.new }
{
    storing(
        me,
        table,
        store,
        i,
        value,
        |_| true,
        |s, bytes| { move_save(s, bytes, None, value) },
    )
}

// Commit of a value to record i, on the timestamp of this version and tie-breaker, which an ask gave.
#[unsafe(no_mangle)]
pub extern "C" fn cetskobi_commit(
    me: CetskobiReplica,
    table: &mut [u8],
    store: &mut [u8],
    i: usize,
    version: u32,
    tie: u8,
    value: &[u8],
) -> CetskobiAnswer
    ensures { Done (node_of me table.old store.old) table.old i (Commit (record { version = version; tie = tie })) value.now result table.new store.new }
{
    let t = Timestamp { version, tie };
    storing(
        me,
        table,
        store,
        i,
        value,
        |_| true,
        |s, bytes| { move_save(s, bytes, Some(t), value) },
    )
}

// Replay of record i.
#[unsafe(no_mangle)]
pub extern "C" fn cetskobi_replay(
    me: CetskobiReplica,
    table: &mut [u8],
    store: &[u8],
    i: usize,
) -> CetskobiAnswer
    ensures { Done (node_of me table.old store.now) table.old i Replay [] result table.new store.now }
{
    quiet(me, table, store.len(), i, |s, bytes| {
        replica_settling::replay(s, bytes)
    })
}

// Validation of record i.
#[unsafe(no_mangle)]
pub extern "C" fn cetskobi_validate(
    me: CetskobiReplica,
    table: &mut [u8],
    store: &[u8],
    i: usize,
) -> CetskobiAnswer
    ensures { Done (node_of me table.old store.now) table.old i Validate [] result table.new store.now }
{
    quiet(me, table, store.len(), i, |s, bytes| {
        replica_settling::validate(s, bytes)
    })
}

// Resend of what record i last sent.
#[unsafe(no_mangle)]
pub extern "C" fn cetskobi_resend(
    me: CetskobiReplica,
    table: &mut [u8],
    store: &[u8],
    i: usize,
) -> CetskobiAnswer
    ensures { Done (node_of me table.old store.now) table.old i Resend [] result table.new store.now }
{
    quiet(me, table, store.len(), i, |s, bytes| {
        replica_settling::resend(s, bytes)
    })
}

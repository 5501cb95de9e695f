// Each exported call on a laptop, as a turn of a list of calls. Demand 3 of such lists (`CalledDemand3` of check_air) knows of a call only
// `Returns`, and of a laptop's start only `Begun`: that the exported functions do as these say is proved here.
ghost use Rattle.check_air.specs.Callers as callers;
ghost use Rattle.check_air.specs.Callers.{Returns};
ghost use Rattle.check_calls.specs.Held.{held, ReturnsView, Begins};

use export_accepted::CetskobiArrival;
use export_fields::CetskobiAccepted;
use export_numbers::{
    CetskobiAdmission, CetskobiAnswer, CetskobiAsked, CetskobiMessage, CetskobiReading,
    CetskobiReplica, CetskobiSettings,
};

// Start: what a list of calls begins with.
fn start(
    number: u8,
    first: u16,
    settings: CetskobiSettings,
    table: &mut [u8],
    store: &mut [u8],
) -> CetskobiAdmission
    ensures { Begins number first settings table.old result (held result.replica table.new store.new) }
{
    export_membership::cetskobi_start(number, first, settings, table, store)
}

// View.
fn view(me: CetskobiReplica, epoch: u32, set: u16) -> CetskobiAdmission
    ensures { ReturnsView epoch set me result }
{
    export_membership::cetskobi_view(me, epoch, set)
}

// Read.
fn read(me: CetskobiReplica, table: &[u8], store: &[u8], i: usize) -> CetskobiReading
    ensures { Returns (callers.read i) (held me table.now store.now) result.number (held me table.now store.now) }
{
    export_reading::cetskobi_read(me, table, store, i)
}

// Ask.
fn ask(me: CetskobiReplica, table: &[u8], store: &[u8], i: usize) -> CetskobiAsked
    ensures { Returns (callers.ask i) (held me table.now store.now) result.number (held me table.now store.now) }
{
    export_reading::cetskobi_ask(me, table, store, i)
}

// Write.
fn write(
    me: CetskobiReplica,
    table: &mut [u8],
    store: &mut [u8],
    i: usize,
    value: &[u8],
) -> CetskobiAnswer
    ensures { Returns (callers.write i value.now) (held me table.old store.old) result.number (held me table.new store.new) }
{
    export_events::cetskobi_write(me, table, store, i, value)
}

// Commit.
fn commit(
    me: CetskobiReplica,
    table: &mut [u8],
    store: &mut [u8],
    i: usize,
    version: u32,
    tie: u8,
    value: &[u8],
) -> CetskobiAnswer
    ensures { Returns (callers.commit i version tie value.now) (held me table.old store.old) result.number (held me table.new store.new) }
{
    export_events::cetskobi_commit(me, table, store, i, version, tie, value)
}

// Replay.
fn replay(me: CetskobiReplica, table: &mut [u8], store: &[u8], i: usize) -> CetskobiAnswer
    ensures { Returns (callers.replay i) (held me table.old store.now) result.number (held me table.new store.now) }
{
    export_events::cetskobi_replay(me, table, store, i)
}

// Delivery of a message as numbers.
fn deliver(
    me: CetskobiReplica,
    table: &mut [u8],
    store: &mut [u8],
    i: usize,
    message: CetskobiMessage,
    value: &[u8],
) -> CetskobiAnswer
    ensures { Returns (callers.deliver i message value.now) (held me table.old store.old) result.number (held me table.new store.new) }
{
    export_delivery::cetskobi_deliver(me, table, store, i, message, value)
}

// Delivery of message i of a packet.
fn deliver_packet(
    me: CetskobiReplica,
    table: &mut [u8],
    store: &mut [u8],
    packet: &[u8],
    i: usize,
) -> CetskobiAnswer
    ensures { Returns (callers.deliver_packet packet.now i) (held me table.old store.old) result.number (held me table.new store.new) }
{
    export_arrival::cetskobi_deliver_packet(me, table, store, packet, i)
}

// Delivery of message i of a packet by facts.
fn deliver_accepted(
    me: CetskobiReplica,
    table: &mut [u8],
    store: &mut [u8],
    packet: &[u8],
    accepted: CetskobiAccepted,
    i: usize,
) -> CetskobiArrival
    ensures { Returns (callers.deliver_accepted packet.now accepted i) (held me table.old store.old) result.answer.number (held me table.new store.new) }
{
    export_accepted::cetskobi_deliver_accepted(me, table, store, packet, accepted, i)
}

// Validation.
fn validate(me: CetskobiReplica, table: &mut [u8], store: &[u8], i: usize) -> CetskobiAnswer
    ensures { Returns (callers.validate i) (held me table.old store.now) result.number (held me table.new store.now) }
{
    export_events::cetskobi_validate(me, table, store, i)
}

// Resend.
fn resend(me: CetskobiReplica, table: &mut [u8], store: &[u8], i: usize) -> CetskobiAnswer
    ensures { Returns (callers.resend i) (held me table.old store.now) result.number (held me table.new store.now) }
{
    export_events::cetskobi_resend(me, table, store, i)
}

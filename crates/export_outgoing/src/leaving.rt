// What leaves an event, for C and Rust: who gets it, and the bytes that it takes along.
ghost use Rattle.std.specs.Prelude.{◌≡◌};
ghost use Rattle.export_numbers.specs.Crossing.{replica_of};
ghost use Rattle.export_outgoing.specs.Leaving.{recipients_of, has_text, along_of, AlongAt};

use export_numbers::{CetskobiAnswer, CetskobiReplica};
use hermes::{Message, Record, Timestamp};

// The length of a text that is gone. No value has it, and no packet takes it.
const GONE: usize = usize::MAX;

// Who gets a message of this kind: bit n for replica n. Only an ACK asks the sender of the message that was delivered; of an unknown kind it is nobody.
#[unsafe(no_mangle)]
pub extern "C" fn cetskobi_recipients(me: CetskobiReplica, kind: u8, sender: u8) -> u16
    ensures { result ≡ recipients_of (replica_of me) kind sender }
{
    match kind {
        Message::INV | Message::VAL => replica_members::without(me.view, me.number),
        Message::ACK => replica_members::with(0, sender),
        _ => 0,
    }
}

// Does the record still have this timestamp, and so its text, and are all the bytes of that there, as record i's in a store of so many?
#[tactic(auto, unfolding(hermes_record::specs::Order::same_timestamp))]
fn has_text(r: Record, timestamp: Timestamp, bytes: usize, i: usize) -> bool
    ensures { result ≡ has_text r timestamp bytes i }
{
    timestamp == r.timestamp && r.len as usize <= Record::VALUE_MAX && i < bytes / Record::VALUE_MAX
}

// How many bytes at 192 times i the message that left an event on record i takes along; GONE where the record holds that text no longer.
#[tactic(auto, using(crate::proofs::Sent::body_answers))]
#[unsafe(no_mangle)]
pub extern "C" fn cetskobi_body(table: &[u8], store: &[u8], i: usize, left: CetskobiAnswer) -> usize
    ensures { AlongAt store.now i (along_of table.now store.now i left) result }
{
    if left.kind != Message::INV {
        return 0;
    }
    let Some(r) = export_records::found_at(table, i) else {
        return GONE;
    };
    let timestamp = Timestamp {
        version: left.version,
        tie: left.tie,
    };
    if has_text(r, timestamp, store.len(), i) {
        r.len as usize
    } else {
        GONE
    }
}

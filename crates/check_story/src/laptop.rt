// A laptop of the story: its identity, one record and its bytes of store, lent to the engine for a call, or for as long as a part of them is used.
ghost use Rattle.std.specs.Prelude.{◌≡◌, [], ◌∷◌, replicate};
ghost use Rattle.hermes_record.specs.Order.{ties};
ghost use Rattle.hermes_record.specs.Record.{fresh_record};
ghost use Rattle.hermes.specs.declared.event.Event.TheVariants.{Read};
ghost use Rattle.hermes.specs.Node.{start, apply, leaving};
ghost use Rattle.check_story.specs.Laptop.{node_of, started};

use crate::telling::text;
use hermes::{Answer, Event, Outgoing, Record, Refused, Replica, Settings};
use std::io;

#[derive(Drop)]
pub(crate) struct Laptop {
    me: Replica,
    records: [Record; 1],
    bytes: [u8; 192],
}

impl Laptop {
    // A fresh start.
    pub(crate) fn start(number: u8, view: u16, settings: Settings) -> Result<Laptop, Refused>
        ensures { result ≡ started (start number view settings (fresh_record 0 ∷ []) (replicate 192 0)) }
    {
        let mut records = [Record::fresh(0)];
        let mut bytes = [0; 192];
        let me = replica_start::start(number, view, settings, &mut records, &mut bytes)?;
        Ok(Laptop { me, records, bytes })
    }

    // An event on the record.
    pub(crate) fn turn(&mut self, e: Event, value: &[u8]) -> Answer
        ensures { (result ≡ (apply ties (node_of self.old) 0 e value.now).answer) × (node_of self.new ≡ (apply ties (node_of self.old) 0 e value.now).node) }
    {
        replica_table::apply(self.me, &mut self.records, &mut self.bytes, 0, e, value)
    }

    // The number of a read of the record.
    pub(crate) fn read_number(&self) -> Answer
        ensures { result ≡ (apply ties (node_of self.now) 0 Read []).answer }
    {
        replica_table::read_number(self.me, &self.records, &self.bytes, 0)
    }

    // What is read, told out of the store itself: the part that the engine hands out, while the arrays are lent.
    pub(crate) fn tell(&self, rt: &impl Print) -> io::Result<()> {
        text(
            rt,
            replica_table::read(self.me, &self.records, &self.bytes, 0),
        )
    }

    // What left another laptop as event e, with the bytes that it takes along out of that laptop's arrays.
    pub(crate) fn deliver(&mut self, out: Outgoing, from: &Laptop, e: Event) -> Answer
        ensures { (result ≡ (apply ties (node_of self.old) 0 e (leaving out from.now.records from.now.bytes)).answer)
            × (node_of self.new ≡ (apply ties (node_of self.old) 0 e (leaving out from.now.records from.now.bytes)).node) }
    {
        self.turn(e, replica_table::body(out, &from.records, &from.bytes))
    }
}

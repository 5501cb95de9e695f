// A short story: two laptops start, one writes, the other takes the write and acknowledges it, that acknowledgement settles the write, and both
// read.
#![tactic(auto)]

mod laptop;
mod telling;

use crate::laptop::Laptop;
use hermes::{Event, Outgoing, Received, Rule, Settings};
use std::io;

// The message that left, as an event where it arrives. Where none left nothing is delivered, and a read stands for it.
fn delivery(out: Outgoing) -> Event {
    out.map_or(Event::Read, |(message, header)| {
        Event::Deliver(Received {
            sender: header.sender,
            epoch: header.epoch,
            message,
        })
    })
}

// A write of a laptop, with a line of the story: what left.
fn writes(rt: &impl Print, laptop: &mut Laptop, what: &str, value: &[u8]) -> io::Result<Outgoing> {
    let a = laptop.turn(Event::Write, value);
    telling::line(rt, what, a)?;
    Ok(a.unwrap_or(None))
}

// The same of a delivery of what left another laptop, which still has the bytes that go with it.
fn takes(
    rt: &impl Print,
    laptop: &mut Laptop,
    what: &str,
    out: Outgoing,
    from: &Laptop,
) -> io::Result<Outgoing> {
    let a = laptop.deliver(out, from, delivery(out));
    telling::line(rt, what, a)?;
    Ok(a.unwrap_or(None))
}

// A read, which leaves the laptop as it is: the value between quotes, and the read's number.
fn reads(rt: &impl Print, laptop: &Laptop, what: &str) -> io::Result<()> {
    print!(rt; "{what}")?;
    laptop.tell(rt)?;
    telling::answer(rt, laptop.read_number())
}

fn main(rt: HostRuntime) -> io::Result<()> {
    let settings = Settings { rule: Rule::Lower };
    let Ok(mut zero) = Laptop::start(0, 3, settings) else {
        return Ok(());
    };
    let Ok(mut one) = Laptop::start(1, 3, settings) else {
        return Ok(());
    };
    println!(rt; "laptops 0 and 1 start with one empty record")?;
    let inv = writes(&rt, &mut zero, "laptop 0 writes A1", b"A1")?;
    let ack = takes(
        &rt,
        &mut one,
        "laptop 1 takes the INV and its bytes",
        inv,
        &zero,
    )?;
    reads(&rt, &one, "laptop 1 reads ")?;
    let val = takes(&rt, &mut zero, "laptop 0 takes the ACK", ack, &one)?;
    takes(&rt, &mut one, "laptop 1 takes the VAL", val, &zero)?;
    reads(&rt, &zero, "laptop 0 reads ")?;
    reads(&rt, &one, "laptop 1 reads ")
}

// A line for each event: what happens, whether it is accepted, and what leaves.
use hermes::{Answer, Message};
use std::io;

fn kind(message: Message) -> &'static str {
    match message {
        Message::Inv(_) => "INV",
        Message::Ack(_) => "ACK",
        Message::Val(_) => "VAL",
    }
}

// The end of a line: the answer, by its number.
pub(crate) fn answer(rt: &impl Print, a: Answer) -> io::Result<()> {
    match a {
        Ok(None) => println!(rt; ": accepted"),
        Ok(Some((message, _))) => println!(rt; ": accepted, sends {}", kind(message)),
        Err(no) => println!(rt; ": {no}"),
    }
}

pub(crate) fn line(rt: &impl Print, what: &str, a: Answer) -> io::Result<()> {
    print!(rt; "{what}")?;
    answer(rt, a)
}

// A value, between quotes.
pub(crate) fn text(rt: &impl Print, value: &[u8]) -> io::Result<()> {
    print!(rt; "\"")?;
    rt.write_all(value)?;
    print!(rt; "\"")
}

// A replica, its events and their answers.
use crate::message::{Outgoing, Received};
use hermes_record::{Record, Rule, Timestamp};
use std::error::Error;
use std::fmt;

// What is fixed at a group's start, the same for all of its replicas (document 02): the rule of ties.
#[derive(Clone, Copy)]
pub struct Settings {
    pub rule: Rule,
}

// The identity of a replica (document 01's laptop): its number, its epoch, its view, a set of numbers in 16 bits, and its group's settings.
#[derive(Clone, Copy)]
pub struct Replica {
    pub number: u8,
    pub epoch: u32,
    pub view: u16,
    pub settings: Settings,
}

// What an event is about: record `index` of replica `me`, which has `count` records; `found` is that record as the event finds it.
#[derive(Clone, Copy)]
pub struct Subject {
    pub me: Replica,
    pub count: usize,
    pub index: usize,
    pub found: Record,
}

// An event on one record. A write, a commit and an invalidation bring a value with them, beside the event; a commit also the
// timestamp that an ask handed out.
#[derive(Clone, Copy)]
pub enum Event {
    Read,
    Ask,
    Write,
    Commit(Timestamp),
    Replay,
    Deliver(Received),
    Validate,
    Resend,
}

// A question said no: its number.
#[derive(Clone, Copy, Debug, PartialEq, Eq)]
pub struct Refused(pub u8);

impl fmt::Display for Refused {
    fn fmt<W: fmt::Write>(&self, f: &mut fmt::Formatter<W>) -> fmt::Result {
        let number = self.0;
        write!(f, "refused by question {number}")
    }
}

impl Error for Refused {}

// The answer to an event: accepted, with what leaves; or the question that said no.
pub type Answer = Result<Outgoing, Refused>;

// The answer, and the record as the event leaves it.
#[derive(Clone, Copy)]
pub struct Moved {
    pub answer: Answer,
    pub after: Record,
}

// The answer to a fresh start and to a view: the identity from then on, or the question that said no.
pub type Admission = Result<Replica, Refused>;

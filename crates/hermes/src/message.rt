// Messages between replicas.
ghost use Rattle.std.specs.Prelude.{◌≡◌};
ghost use Rattle.hermes.specs.Kind.{kind_of, timestamp_of, message_of};

use hermes_record::Timestamp;

// An invalidation (INV), an acknowledgement (ACK) or a validation (VAL), each with its timestamp.
#[derive(Clone, Copy)]
pub enum Message {
    Inv(Timestamp),
    Ack(Timestamp),
    Val(Timestamp),
}

impl Message {
    // The kinds by their numbers: INV is the first, VAL the last.
    pub const INV: u8 = 1;

    pub const ACK: u8 = 2;

    pub const VAL: u8 = 3;

    // The message of this kind; of a number that no kind has, a validation.
    pub fn of_kind(kind: u8, timestamp: Timestamp) -> Message
        ensures { result ≡ message_of kind timestamp }
    {
        match kind {
            Self::INV => Message::Inv(timestamp),
            Self::ACK => Message::Ack(timestamp),
            _ => Message::Val(timestamp),
        }
    }

    // The number of its kind.
    pub fn kind(self) -> u8
        ensures { result ≡ kind_of self }
    {
        match self {
            Message::Inv(_) => Self::INV,
            Message::Ack(_) => Self::ACK,
            Message::Val(_) => Self::VAL,
        }
    }

    pub fn timestamp(self) -> Timestamp
        ensures { result ≡ timestamp_of self }
    {
        match self {
            Message::Inv(t) | Message::Ack(t) | Message::Val(t) => t,
        }
    }
}

// Whose message it is, in which epoch it left, and the number of the record that it is about.
#[derive(Clone, Copy)]
pub struct Header {
    pub sender: u8,
    pub epoch: u32,
    pub index: usize,
}

// What leaves an event: nothing, or a message with its header.
pub type Outgoing = Option<(Message, Header)>;

// A message as it is delivered. The record that it is about is the one that the delivery names.
#[derive(Clone, Copy)]
pub struct Received {
    pub sender: u8,
    pub epoch: u32,
    pub message: Message,
}

// The entries of a packet's contents table.
ghost use Rattle.std.specs.Prelude.{◌≡◌};
ghost use Rattle.packet_format.specs.Entry.{entry_of, fields_for, good};

use hermes::{Header, Message, Record, Timestamp};

// A message in a packet, and the length of its body.
#[derive(Clone, Copy)]
pub struct Entry {
    pub header: Header,
    pub message: Message,
    pub len: u8,
}

impl Entry {
    // Its fields, where its body begins at `at`.
    pub fn fields(self, at: usize) -> Fields
        ensures { result ≡ fields_for self at }
    {
        let Entry {
            header,
            message,
            len,
        } = self;
        let timestamp = message.timestamp();
        Fields {
            kind: message.kind(),
            sender: header.sender,
            epoch: header.epoch,
            index: header.index,
            version: timestamp.version,
            tie: timestamp.tie,
            offset: at,
            len,
        }
    }
}

// An entry's fields as numbers, in the order of their bytes.
#[derive(Clone, Copy)]
pub struct Fields {
    pub kind: u8,
    pub sender: u8,
    pub epoch: u32,
    pub index: usize,
    pub version: u32,
    pub tie: u8,
    pub offset: usize,
    pub len: u8,
}

impl Fields {
    // The greatest number of a record.
    pub const INDEX_MAX: usize = 4095;

    // Are the fields as question 22 asks, the offset aside? It ends at the first that is not.
    #[tactic(auto, unfolding(crate::specs::Entry::good))]
    pub fn good(self) -> bool
        ensures { result ≡ good self }
    {
        self.sender <= Record::NUMBER_MAX
            && self.tie <= Record::NUMBER_MAX
            && self.index <= Self::INDEX_MAX
            && self.len as usize <= Record::VALUE_MAX
            && match self.kind {
                Message::INV => true,
                Message::ACK | Message::VAL => self.len == 0,
                _ => false,
            }
    }
}

// The entry that fields stand for.
impl From<Fields> for Entry {
    ghost from_gives = { λ f e. e ≡ entry_of f };

    fn from(f: Fields) -> Entry {
        let header = Header {
            sender: f.sender,
            epoch: f.epoch,
            index: f.index,
        };
        let timestamp = Timestamp {
            version: f.version,
            tie: f.tie,
        };
        Entry {
            header,
            message: Message::of_kind(f.kind, timestamp),
            len: f.len,
        }
    }
}

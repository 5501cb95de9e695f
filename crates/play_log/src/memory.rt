// The log: up to 256 messages that left, each with up to 192 bytes of its body.
ghost use Rattle.std.specs.Prelude.{◌≤◌, length};

use hermes::{Header, Message, Received, Record, Timestamp};

// A message that left, and its body: the first `len` of the bytes. It is about record 0.
#[derive(Clone, Copy)]
pub struct Envelope {
    sender: u8,
    epoch: u32,
    message: Message,
    len: u8,
    bytes: [u8; 192],
    ghost fits: { len ≤ 192 },
}

impl Envelope {
    ghost use Rattle.std.specs.Prelude.{◌≡◌};
    ghost use Rattle.hermes.specs.Run.{received};
    ghost use Rattle.play_log.specs.Log.{logged_as, logged_of};

    // What a slot holds before a message is logged there: zeros, so that a whole log is zeroed where it stands.
    const NONE: Envelope = Envelope {
        sender: 0,
        epoch: 0,
        message: Message::Inv(Timestamp { version: 0, tie: 0 }),
        len: 0,
        bytes: [0; 192],
    };

    fn new(message: Message, header: Header, body: &[u8]) -> Envelope
        requires { length body.now ≤ 192 }
        ensures { logged_of result ≡ logged_as message header body.now }
    {
        let mut bytes = [0; 192];
        hermes_record::copy(body, &mut bytes[..body.len()]);
        Envelope {
            sender: header.sender,
            epoch: header.epoch,
            message,
            len: body.len() as u8,
            bytes,
        }
    }

    // The message as it is delivered.
    pub fn received(&self) -> Received
        ensures { result ≡ received (logged_of self.now) }
    {
        Received {
            sender: self.sender,
            epoch: self.epoch,
            message: self.message,
        }
    }

    pub fn body(&self) -> &[u8]
        ensures { result.now ≡ (logged_of self.now).body }
    {
        &self.bytes[..self.len as usize]
    }
}

// The log: the first `sent` of the slots.
#[derive(Drop)]
pub struct Log {
    slots: [Envelope; 256],
    sent: usize,
    ghost short: { sent ≤ 256 },
}

impl Log {
    ghost use Rattle.std.specs.Prelude.{◌≡◌, [], MatchOption};
    ghost use Rattle.hermes.specs.Run.{missing, found, find};
    ghost use Rattle.play_log.specs.Log.{logged_as, logged_of, log_of, has_place, Appended};

    // The most messages of a log.
    const MESSAGES_MAX: usize = 256;

    // No message yet.
    #[tactic(auto, unfolding(crate::specs::Log::log_of))]
    pub fn new() -> Log
        ensures { log_of result ≡ [] }
    {
        Log {
            slots: [Envelope::NONE; 256],
            sent: 0,
        }
    }

    // How many messages left.
    pub fn sent(&self) -> usize
        ensures { result ≡ length (log_of self.now) }
    {
        self.sent
    }

    // The message with this log number, if there is one.
    pub fn get(&self, k: usize) -> Option<&Envelope>
        ensures { MatchOption result (find (log_of self.now) k ≡ missing) (λ e. find (log_of self.now) k ≡ found (logged_of e.now)) }
    {
        if self.sent <= k {
            return None;
        }
        Some(&self.slots[k])
    }

    // A message is logged, if it has its place; otherwise nothing. The answer is its log number.
    pub fn append(&mut self, message: Message, header: Header, body: &[u8]) -> Option<usize>
        ensures { Appended (has_place (length (log_of self.old)) (length body.now)) self.old (logged_as message header body.now) result self.new }
    {
        let n = self.sent;
        if Self::MESSAGES_MAX <= n || Record::VALUE_MAX < body.len() {
            return None;
        }
        self.slots[n] = Envelope::new(message, header, body);
        self.sent = n + 1;
        Some(n)
    }
}

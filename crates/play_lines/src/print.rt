// The lines of an answer and of `?`, printed into a lent output.
ghost use Rattle.std.specs.Prelude.{◌≡◌, ◌+◌, ◌≤◌, [], ◌∷◌, ◌++◌, leb, length};
ghost use Rattle.play_numbers.specs.Number.{decimal};
ghost use Rattle.play_lines.specs.Print.{Prints, fitting, letter_of, left_of, answer_line, unknown_line};

use hermes::{Record, State};

// The most bytes of a line.
pub const LINE_MAX: usize = 25;

const UNKNOWN_LEN: usize = 2;

fn letter(state: State) -> u8
    ensures { result ≡ letter_of state }
{
    match state {
        State::Valid => b'V',
        State::Invalid => b'I',
        State::InvalidWrite => b'X',
        State::Write => b'W',
        State::Replay => b'R',
    }
}

// A lent output, and the index in it after what is printed.
#[derive(Drop)]
pub struct Printer<'a> {
    pub out: &'a mut [u8],
    pub at: usize,
}

impl Printer<'_> {
    // Whether so many bytes have room.
    fn has_room(&self, need: usize) -> bool
        ensures { result ≡ leb (self.now.at + need) (length self.now.out.now) }
    {
        self.at <= self.out.len() && need <= self.out.len() - self.at
    }

    fn put_byte(&mut self, b: u8)
        requires { self.old.at + 1 ≤ length self.old.out.now }
        ensures { Prints (b ∷ []) self.old self.new }
    {
        self.out[self.at] = b;
        self.at += 1;
    }

    // A number in decimal.
    fn put_decimal(&mut self, n: u32)
        requires { self.old.at + length (decimal n) ≤ length self.old.out.now }
        ensures { Prints (decimal n) self.old self.new }
    {
        if n < 10 {
            return self.put_byte(b'0' + n as u8);
        }
        self.put_decimal(n / 10);
        self.put_byte(b'0' + (n % 10) as u8);
    }

    // A number in decimal, and a space.
    fn put_number(&mut self, n: u32)
        requires { self.old.at + length (decimal n ++ (32 ∷ [])) ≤ length self.old.out.now }
        ensures { Prints (decimal n ++ (32 ∷ [])) self.old self.new }
    {
        self.put_decimal(n);
        self.put_byte(b' ');
    }

    // A state's letter, and a space.
    fn put_state(&mut self, state: State)
        requires { self.old.at + 2 ≤ length self.old.out.now }
        ensures { Prints (letter_of state ∷ 32 ∷ []) self.old self.new }
    {
        self.put_byte(letter(state));
        self.put_byte(b' ');
    }

    // The log number of the message that left, or `-`, and a line feed.
    fn put_left(&mut self, left: Option<u8>)
        requires { self.old.at + length (left_of left ++ (10 ∷ [])) ≤ length self.old.out.now }
        ensures { Prints (left_of left ++ (10 ∷ [])) self.old self.new }
    {
        match left {
            Some(k) => self.put_decimal(k as u32),
            None => self.put_byte(b'-'),
        }
        self.put_byte(b'\n');
    }

    // An answer line, where any has room; otherwise nothing. A log has at most 256 messages.
    pub fn put_answer(&mut self, number: u8, r: Record, left: Option<u8>)
        ensures { (Prints (fitting 25 self.old.at (length self.old.out.now) (answer_line number r left)) self.old self.new)
            × (length (answer_line number r left) ≤ 25) }
    {
        if !self.has_room(LINE_MAX) {
            return;
        }
        self.put_number(number as u32);
        self.put_state(r.state);
        self.put_number(r.timestamp.version);
        self.put_number(r.timestamp.tie as u32);
        self.put_left(left);
    }

    // The line `?`, where it has room; otherwise nothing.
    pub fn put_unknown(&mut self)
        ensures { Prints (fitting 2 self.old.at (length self.old.out.now) unknown_line) self.old self.new }
    {
        if !self.has_room(UNKNOWN_LEN) {
            return;
        }
        self.put_byte(b'?');
        self.put_byte(b'\n');
    }
}

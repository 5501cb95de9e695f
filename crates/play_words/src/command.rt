// Commands, and the words that spell them.
ghost use Rattle.std.specs.Prelude.{◌≡◌};
ghost use Rattle.play_words.specs.Words.{same, keyword_of};

// What a laptop is to do. A write's text is the rest of its line.
#[derive(Clone, Copy)]
pub enum Command {
    Read,
    Write,
    Replay,
    // The log number of a message.
    Deliver(usize),
    Validate,
    Resend,
    // An epoch and its view.
    View(u32, u16),
}

// A first word: a command that takes no more than the laptop, or one that takes more.
#[derive(Clone, Copy)]
pub enum Keyword {
    Bare(Command),
    Write,
    Deliver,
    View,
}

// Are the two words the same?
#[tactic(auto, using(crate::proofs::Words::same_is))]
pub fn is_word(a: &[u8], b: &[u8]) -> bool
    ensures { result ≡ same a.now b.now }
{
    a == b
}

// The command that a first word spells.
#[tactic(auto, unfolding(crate::specs::Words::keyword_of))]
pub fn lookup(word: &[u8]) -> Option<Keyword>
    ensures { result ≡ keyword_of word.now }
{
    if is_word(word, b"read") {
        Some(Keyword::Bare(Command::Read))
    } else if is_word(word, b"validate") {
        Some(Keyword::Bare(Command::Validate))
    } else if is_word(word, b"replay") {
        Some(Keyword::Bare(Command::Replay))
    } else if is_word(word, b"resend") {
        Some(Keyword::Bare(Command::Resend))
    } else if is_word(word, b"write") {
        Some(Keyword::Write)
    } else if is_word(word, b"deliver") {
        Some(Keyword::Deliver)
    } else if is_word(word, b"view") {
        Some(Keyword::View)
    } else {
        None
    }
}

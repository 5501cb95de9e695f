// Lines.
ghost use Rattle.std.specs.Prelude.{◌≡◌};
ghost use Rattle.play_script.specs.Command.{rest_of, operands_of, line_of, text_of, size_of};

use crate::seek::split;
use play_words::{Command, Keyword};

// The greatest number of a laptop, log number, epoch, view, and size of a group.
const LAPTOP_MAX: u32 = 15;

const MESSAGE_MAX: u32 = 255;

const EPOCH_MAX: u32 = 4294967295;

const VIEW_MAX: u32 = 65535;

const SIZE_MAX: u32 = 4;

// What a line asks for: the number of a laptop, and the command for it.
#[derive(Clone, Copy)]
pub struct Entry {
    pub laptop: usize,
    pub command: Command,
}

// What stands behind the laptop of a command that takes more.
#[tactic(auto, unfolding(crate::specs::Command::operands_of))]
fn operands(keyword: Keyword, rest: &[u8]) -> Option<Command>
    ensures { result ≡ operands_of keyword rest.now }
{
    match keyword {
        Keyword::Bare(_) => None,
        Keyword::Write => Some(Command::Write),
        Keyword::Deliver => Some(Command::Deliver(play_numbers::read(rest, MESSAGE_MAX)?)),
        Keyword::View => {
            let (epoch, view) = split(rest)?;
            let epoch = play_numbers::read(epoch, EPOCH_MAX)? as u32;
            let view = play_numbers::read(view, VIEW_MAX)? as u16;
            Some(Command::View(epoch, view))
        }
    }
}

// What a line asks for.
#[tactic(auto, unfolding(crate::specs::Command::line_of, crate::specs::Command::arguments_of, crate::specs::Command::longer_of))]
pub fn parse(line: &[u8]) -> Option<Entry>
    ensures { result ≡ line_of line.now }
{
    let (word, rest) = split(line)?;
    match play_words::lookup(word)? {
        Keyword::Bare(command) => {
            let laptop = play_numbers::read(rest, LAPTOP_MAX)?;
            Some(Entry { laptop, command })
        }
        keyword => {
            let (laptop, rest) = split(rest)?;
            let laptop = play_numbers::read(laptop, LAPTOP_MAX)?;
            let command = operands(keyword, rest)?;
            Some(Entry { laptop, command })
        }
    }
}

// The text of a `write` line: what stands behind its second space.
#[tactic(auto, unfolding(crate::specs::Command::text_of))]
pub fn text(line: &[u8]) -> &[u8]
    ensures { result.now ≡ text_of line.now }
{
    rest(rest(line))
}

// What stands behind the first space; nothing where there is no space.
fn rest(s: &[u8]) -> &[u8]
    ensures { result.now ≡ rest_of s.now }
{
    match split(s) {
        Some((_, rest)) => rest,
        None => &s[s.len()..],
    }
}

// The number of laptops that line one gives: `group` and 2 to 4.
#[tactic(auto, unfolding(crate::specs::Command::size_of))]
pub fn group_size(line: &[u8]) -> Option<usize>
    ensures { result ≡ size_of line.now }
{
    let (word, rest) = split(line)?;
    if !play_words::is_word(word, b"group") {
        return None;
    }
    play_numbers::read(rest, SIZE_MAX).filter(|n| 2 <= *n)
}

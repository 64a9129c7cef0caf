//! The six lines above the lines of calls.

ghost use Rattle.std.specs.Prelude.{◌≡◌, ◌+◌, ◌<◌, ◌≤◌, IfNone, IfSome, IsTrue, OnOk};
ghost use Rattle.call_log.specs.Listing.{BeginsWith, head_word};
ghost use Rattle.call_log.specs.HeadLines.{line_word};

use crate::wrong::{Flaw, HeadFault, Wrong};
use foundation::NoMemory;
use memchr::memchr;
use std::fmt;
use uffd_log::token::{Token, read_tokens};

/// The number of lines of a head.
pub(crate) const HEAD_LINES: usize = 6;

/// The least size of a page.
const LEAST_PAGE: u64 = 512;

/// A line of the head.
#[derive(Clone, Copy)]
pub(crate) enum HeadLine {
    UffdLog,
    Recorder,
    Kernel,
    Page,
    Clock,
    Command,
}

impl HeadLine {
    /// Its first word.
    fn word(self) -> &'static str
        ensures { result.now ≡ line_word self }
    {
        match self {
            HeadLine::UffdLog => "uffdlog",
            HeadLine::Recorder => "recorder",
            HeadLine::Kernel => "kernel",
            HeadLine::Page => "page",
            HeadLine::Clock => "clock",
            HeadLine::Command => "command",
        }
    }

    /// The number of its words after the first; 0 if there may be any.
    fn count(self) -> usize {
        match self {
            HeadLine::Recorder => 2,
            HeadLine::Kernel => 3,
            HeadLine::Command => 0,
            _ => 1,
        }
    }
}

impl fmt::Display for HeadLine {
    fn fmt<W: fmt::Write>(&self, f: &mut fmt::Formatter<W>) -> fmt::Result {
        f.write_str(self.word())
    }
}

/// What a head says that a reader needs.
#[derive(Clone, Copy)]
pub(crate) struct Head {
    /// How many of its lines were read.
    pub(crate) read: usize,
    /// The size of a page, in bytes.
    pub(crate) page: u64,
    /// Whether times do not run back in the whole log.
    pub(crate) one_clock: bool,
}

impl Head {
    /// A head of which nothing was read.
    pub(crate) fn new() -> Head
        ensures { result.read ≡ 0 }
    {
        Head {
            read: 0,
            page: 4096,
            one_clock: false,
        }
    }

    /// The next line, if the head is not over.
    pub(crate) fn next_line(&self) -> Option<HeadLine>
        ensures none { IfNone result (6 ≤ self.now.read) }
        ensures some { IfSome result (λ line.
            (self.now.read < 6) × (line_word line ≡ head_word self.now.read)) }
    {
        match self.read {
            0 => Some(HeadLine::UffdLog),
            1 => Some(HeadLine::Recorder),
            2 => Some(HeadLine::Kernel),
            3 => Some(HeadLine::Page),
            4 => Some(HeadLine::Clock),
            5 => Some(HeadLine::Command),
            _ => None,
        }
    }

    /// Whether the next line is the last one of the head.
    pub(crate) fn is_last(&self) -> bool {
        self.read == HEAD_LINES - 1
    }

    /// Whether a line is the next of the head. It is one then, and may still be wrong.
    pub(crate) fn is_next(&self, line: &[u8]) -> bool
        ensures { IsTrue result →
            (self.now.read < 6) × BeginsWith (head_word self.now.read) line.now }
    {
        match self.next_line() {
            Some(next) => first_word(line) == next.word().as_bytes(),
            None => false,
        }
    }

    /// The head is over, though not all of its lines were there.
    pub(crate) fn end(&mut self)
        ensures { self.new.read ≡ 6 }
    {
        self.read = HEAD_LINES;
    }

    /// Takes the next line of the head, of which there is one. What is wrong with it, if anything.
    pub(crate) fn take(
        &mut self,
        tokens: &mut Vec<Token>,
        line: &[u8],
    ) -> Result<Option<Wrong>, NoMemory>
        requires { self.old.read < 6 }
        ensures { OnOk result (self.new.read ≡ self.old.read + 1) }
    {
        let next = self.next_line().unwrap_or(HeadLine::Command);
        let count = next.count();
        self.read += 1;
        if !read_tokens(tokens, line)? {
            return Ok(Some(Wrong::Plain(Flaw::Blanks)));
        }
        let found = tokens.len().saturating_sub(1);
        if found == 0 || (count > 0 && found != count) {
            return Ok(Some(Wrong::Head(HeadFault::Words(next))));
        }
        Ok(self.take_value(next, line, tokens))
    }

    /// The value of a line of the head.
    fn take_value(&mut self, next: HeadLine, line: &[u8], tokens: &[Token]) -> Option<Wrong>
        ensures { self.new.read ≡ self.old.read }
    {
        match next {
            HeadLine::Recorder => recorder_fault(tokens),
            HeadLine::Page => self.take_page(tokens),
            HeadLine::Clock => self.take_clock(line),
            _ => None,
        }
    }

    fn take_page(&mut self, tokens: &[Token]) -> Option<Wrong>
        ensures { self.new.read ≡ self.old.read }
    {
        match tokens {
            [_, Token::Number(size)] if *size >= LEAST_PAGE && size.is_power_of_two() => {
                self.page = *size;
                None
            }
            _ => Some(Wrong::Plain(Flaw::PageSize)),
        }
    }

    fn take_clock(&mut self, line: &[u8]) -> Option<Wrong>
        ensures { self.new.read ≡ self.old.read }
    {
        self.one_clock = line == b"clock log".as_slice();
        if self.one_clock || line == b"clock thread".as_slice() {
            None
        } else {
            Some(Wrong::Plain(Flaw::Clock))
        }
    }
}

/// What is wrong with the name and the version of a recorder, if anything.
fn recorder_fault(tokens: &[Token]) -> Option<Wrong> {
    match tokens {
        [_, _, Token::Number(_)] => None,
        _ => Some(Wrong::Plain(Flaw::Version)),
    }
}

/// The bytes before the first blank.
fn first_word(line: &[u8]) -> &[u8]
    ensures { BeginsWith result.now line.now }
{
    match memchr(b' ', line) {
        Some(end) => &line[..end],
        None => line,
    }
}

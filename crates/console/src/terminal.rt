//! A script that is typed at a terminal.

use crate::reasons::write_reason;
use engine::script_reader::MAX_LINE;
use expected::order_part;
use grammar::parse::parse;
use grammar::{Language, Line, Token};
use lines::{Lines, without_return};
use lint::reason_of;
use std::alloc::Global;
use std::io;
use std::io::{ErrorKind, Read, Stderr, Stdin, Write};

/// The most bytes that are read at once. A terminal hands over one line at a time, of at most 4,095 bytes and a line feed.
const PIECE: usize = 4096;

/// Standard input at a terminal. A line that is none of a script is named on standard error, with what is wrong with it, and is not passed
/// on: a typo leaves the session as it is.
#[derive(Drop)]
pub struct Terminal {
    stdin: Stdin,
    stderr: Stderr,
    /// Whether an order may have an answer.
    has_answers: bool,
    /// The tokens of the last line, kept for their room.
    tokens: Vec<Token>,
    /// What was read and is to be passed on.
    ready: Vec<u8>,
    /// How many of these bytes were passed on.
    passed: usize,
    /// How many lines were read.
    lines: u64,
}

impl Terminal {
    pub(crate) fn new(alloc: Global, stdin: Stdin, stderr: Stderr, has_answers: bool) -> Terminal {
        Terminal {
            stdin,
            stderr,
            has_answers,
            tokens: Vec::new(alloc),
            ready: Vec::new(alloc),
            passed: 0,
            lines: 0,
        }
    }

    /// What a text says, if it is a line of a script.
    fn parsed(&mut self, text: &[u8]) -> io::Result<Option<Line>> {
        match parse(Language::Script, &mut self.tokens, text) {
            Ok(found) => Ok(found),
            Err(_) => Err(io::Error::from(ErrorKind::OutOfMemory)),
        }
    }

    /// Whether a line is one of a script, or, where these are taken, an order with its answer.
    fn is_right(&mut self, line: &[u8]) -> io::Result<bool> {
        if line.len() > MAX_LINE {
            return Ok(false);
        }
        if self.parsed(line)?.is_some() {
            return Ok(true);
        }
        let is_order = self.has_answers
            && matches!(self.parsed(order_part(line))?, Some(Line::Do(_)));
        Ok(is_order)
    }

    /// Keeps a line that is to be passed on, or says what is wrong with it.
    fn take_line(&mut self, raw: &[u8]) -> io::Result<()> {
        self.lines = self.lines.saturating_add(1);
        let line = without_return(raw);
        if self.is_right(line)? {
            self.ready.extend_from_slice(raw)?;
            self.ready.push(b'\n')?;
            return Ok(());
        }
        let number = self.lines;
        if self.has_answers {
            return write_reason(&mut self.stderr, &mut self.tokens, "-", number, line);
        }
        let reason = reason_of(line, Language::Script);
        let column = reason.column;
        write!(self.stderr, "-:{number}:{column}: {reason}\n")?;
        Ok(())
    }

    /// Reads what was typed, and keeps what is to be passed on. Returns how many bytes were read.
    fn fill(&mut self) -> io::Result<usize> {
        let mut piece = [0u8; PIECE];
        let count = self.stdin.read(&mut piece)?;
        self.ready.clear();
        self.passed = 0;
        for line in Lines::new(piece.get(..count).unwrap_or(&[])) {
            if line.ended {
                self.take_line(line.raw)?;
            } else {
                self.ready.extend_from_slice(line.raw)?;
            }
        }
        Ok(count)
    }

    /// What is to be passed on. It is empty at the end of the input.
    fn waiting(&mut self) -> io::Result<&[u8]> {
        for _ in 0..u32::MAX {
            if self.passed < self.ready.len() || self.fill()? == 0 {
                break;
            }
        }
        Ok(self.ready.get(self.passed..).unwrap_or(&[]))
    }
}

impl Read for Terminal {
    fn read(&mut self, buf: &mut [u8]) -> io::Result<usize> {
        let waiting = self.waiting()?;
        let count = waiting.len().min(buf.len());
        buf[..count].copy_from_slice(&waiting[..count]);
        self.passed = self.passed.saturating_add(count);
        Ok(count)
    }
}

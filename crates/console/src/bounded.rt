//! Input whose lines are bounded.

use std::io;
use std::io::Read;

/// The longest line of which is said what is wrong with it, in bytes: nothing is read after it.
pub const LONGEST_LISTED: usize = 65_536;

/// A reader of lines that ends at one that is too long, after the first byte too many: who keeps a line, or the whole input, keeps no line
/// without end. It counts the lines that say something, which are neither empty nor comments, up to the last that its reader looks at.
#[derive(Drop)]
pub struct Bounded<R> {
    input: R,
    /// The most bytes of a line, its line feed not counted.
    longest: usize,
    /// How many bytes the last line has.
    len: usize,
    /// Whether it has nothing but spaces yet.
    is_blank: bool,
    /// How many lines have ended.
    ended: u64,
    /// Whether a line says something.
    has_lines: bool,
    /// How many of the lines that are looked at say something, and the number of the last that is.
    looked_at: u64,
    last: u64,
    is_too_long: bool,
    /// Whether the input has ended. It is not read again: a terminal would wait for more.
    has_ended: bool,
}

impl<R> Bounded<R> {
    /// A reader of this input, whose lines have at most this many bytes without their line feeds.
    pub fn new(input: R, longest: usize) -> Bounded<R> {
        Bounded {
            input,
            longest,
            len: 0,
            is_blank: true,
            ended: 0,
            has_lines: false,
            looked_at: 0,
            last: u64::MAX,
            is_too_long: false,
            has_ended: false,
        }
    }

    /// The input itself.
    pub fn input(&self) -> &R {
        &self.input
    }

    /// Has the lines after this one left out of the count.
    pub fn count_up_to(&mut self, last: u64) {
        self.last = last;
    }

    /// Whether a line was read that says something.
    pub fn has_lines(&self) -> bool {
        self.has_lines
    }

    /// How many of the lines that say something were read and are looked at.
    pub fn looked_at(&self) -> u64 {
        self.looked_at
    }

    /// The number of the line that is too long, counted from 1, if one was reached.
    pub fn too_long(&self) -> Option<u64> {
        if self.is_too_long {
            return Some(self.ended.saturating_add(1));
        }
        None
    }

    /// Notes a byte of a line that is not its end.
    fn note_byte(&mut self, byte: u8) {
        self.len = self.len.saturating_add(1);
        if self.len > self.longest {
            self.is_too_long = true;
        }
        if self.is_blank && byte != b' ' && byte != b'\r' {
            self.is_blank = false;
            if byte != b'#' {
                self.has_lines = true;
                if self.ended < self.last {
                    self.looked_at = self.looked_at.saturating_add(1);
                }
            }
        }
    }

    /// Notes bytes that were read, and returns how many there are up to the first that makes a line too long.
    fn note(&mut self, read: &[u8]) -> usize {
        let mut count = 0usize;
        for byte in read {
            count = count.saturating_add(1);
            if *byte == b'\n' {
                self.len = 0;
                self.is_blank = true;
                self.ended = self.ended.saturating_add(1);
                continue;
            }
            self.note_byte(*byte);
            if self.is_too_long {
                break;
            }
        }
        count
    }
}

impl<R: Read> Read for Bounded<R> {
    fn read(&mut self, buf: &mut [u8]) -> io::Result<usize> {
        if self.is_too_long || self.has_ended {
            return Ok(0);
        }
        let count = self.input.read(buf)?;
        self.has_ended = count == 0 && !buf.is_empty();
        let noted = self.note(&buf[..count]);
        Ok(noted.min(count))
    }
}

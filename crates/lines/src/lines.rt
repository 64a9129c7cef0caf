//! The lines of some bytes.

ghost use Rattle.std.specs.Prelude.{◌≡◌, ◌++◌, ◌∷◌, IfSome, IfNone, length};
ghost use Rattle.std.specs.Str.Lines.{strip_carriage_return};
ghost use Rattle.std.specs.Iterator.{at_most};
ghost use Rattle.lines.specs.Lines.{HasNoFeed, Left, TakesLine, line_text};

use memchr::memchr;
use std::marker::Model;

/// A line of an input.
#[derive(Clone, Copy)]
pub struct Line<'a> {
    /// Its number, counted from 1.
    pub number: u64,
    /// Its bytes, with its line feed.
    pub whole: &'a [u8],
    /// Its bytes, without its line feed.
    pub raw: &'a [u8],
    /// Whether a line feed ends it. The last line of an input may lack it.
    pub ended: bool,
}

impl<'a> Line<'a> {
    /// Its text: a carriage return at its end is no part of it where a line feed follows.
    pub fn text(self) -> &'a [u8]
        ensures { result.now ≡ line_text self.entry.ended self.entry.raw.now }
    {
        text_of(self.raw, self.ended)
    }
}

/// The text of a line: a carriage return at its end is no part of it where a line feed follows.
pub fn text_of(raw: &[u8], ended: bool) -> &[u8]
    ensures { result.now ≡ line_text ended raw.now }
{
    if ended { without_return(raw) } else { raw }
}

/// A line before its line feed, without a carriage return at its end.
pub fn without_return(raw: &[u8]) -> &[u8]
    ensures { result.now ≡ strip_carriage_return raw.now }
{
    match raw {
        [text @ .., b'\r'] => text,
        _ => raw,
    }
}

/// The bytes before the first line feed, and those after it.
fn split_line(bytes: &[u8]) -> Option<(&[u8], &[u8])>
    ensures front { IfSome result (λ parts. HasNoFeed parts.0.now) }
    ensures whole { IfSome result (λ parts. bytes.now ≡ parts.0.now ++ 10 ∷ parts.1.now) }
    ensures none { IfNone result (HasNoFeed bytes.now) }
{
    let end = memchr(b'\n', bytes)?;
    Some((&bytes[..end], &bytes[end + 1..]))
}

/// The bytes before the first line feed.
pub fn first_line(bytes: &[u8]) -> &[u8]
    ensures { HasNoFeed result.now }
{
    match split_line(bytes) {
        Some((front, _)) => front,
        None => bytes,
    }
}

/// The lines of some bytes that are left. What comes after the last line feed is a line too, unless nothing does.
#[derive(Drop)]
pub struct Lines<'a> {
    /// The number of lines before them.
    number: u64,
    bytes: &'a [u8],
}

impl<'a> Model for Lines<'a> {
    ghost use Rattle.std.specs.Prelude.{◌+◌, ◌<◌, ◌^◌, length};
    ghost use Rattle.lines.specs.Lines.{Left, coded_left};

    ghost Value = { Left };

    ghost coded = { coded_left };

    ghost view = { λ s. record { number = s.number; bytes = s.bytes.now } };

    ghost invariant = { λ s. s.number + length s.bytes.now < 2 ^ 64 };
}

impl<'a> Lines<'a> {
    /// All lines of these bytes.
    pub fn new(bytes: &'a [u8]) -> Lines<'a>
        ensures { result ≡ record { number = 0; bytes = bytes.now } }
    {
        Lines { number: 0, bytes }
    }

    /// The bytes of the lines that are left.
    pub fn rest(&self) -> &'a [u8]
        ensures { result.now ≡ self.now.bytes }
    {
        self.bytes
    }
}

impl<'a> Iterator for Lines<'a> {
    type Item = Line<'a>;

    ghost next_gives = { TakesLine };

    ghost remaining = { λ left. at_most (length left.bytes) };

    fn next(&mut self) -> Option<Line<'a>> {
        if self.bytes.is_empty() {
            return None;
        }
        let (raw, rest, ended) = match split_line(self.bytes) {
            Some((raw, rest)) => (raw, rest, true),
            None => (self.bytes, b"".as_slice(), false),
        };
        let whole = &self.bytes[..self.bytes.len() - rest.len()];
        self.number += 1;
        self.bytes = rest;
        Some(Line {
            number: self.number,
            whole,
            raw,
            ended,
        })
    }
}

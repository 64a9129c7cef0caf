//! What is wrong with a line, and the text of each reason.

use crate::form::Usage;
use crate::number::NumberFault;
use crate::wanted::Wanted;
use std::fmt;

/// The most bytes of a word that a reason shows.
const SHOWN: usize = 40;

/// What is wrong with a line, or with a word of it.
#[derive(Clone, Copy)]
pub(crate) enum Problem {
    /// What this says.
    Plain(&'static str),
    /// The line has this number of bytes.
    TooLong(u64),
    /// This byte is not printable ASCII.
    Byte(u8),
    Number(NumberFault),
    /// The word differs from this one in capitals alone.
    Case(&'static str),
    /// The word is not what is wanted.
    Unexpected(Wanted),
    /// The word is not what is wanted, and may be meant to be another, after these words.
    Near {
        wanted: Wanted,
        front: &'static str,
        near: &'static str,
    },
    /// What is wanted is not there.
    Missing {
        wanted: Wanted,
        usage: Usage,
    },
    /// The word is one too many.
    Extra(Usage),
    /// What this says of how the line is written.
    Order {
        text: &'static str,
        usage: Usage,
    },
}

/// A word, or its first bytes.
#[derive(Clone, Copy)]
pub(crate) struct Shown<'a>(pub(crate) &'a [u8]);

impl fmt::Display for Shown<'_> {
    fn fmt<W: fmt::Write>(&self, f: &mut fmt::Formatter<W>) -> fmt::Result {
        let whole = self.0;
        let front = match whole.get(..SHOWN) {
            Some(front) => front,
            None => whole,
        };
        let dots = if whole.len() > SHOWN { ".." } else { "" };
        match str::from_utf8(front) {
            Ok(text) => write!(f, "`{text}{dots}`"),
            Err(_) => write!(f, "a word"),
        }
    }
}

/// The range of a number.
fn range_of(wanted: Wanted) -> &'static str {
    match wanted {
        Wanted::Cpu => "0 to 255",
        Wanted::Width => "at most 255, and 1, 2, 4 or 8 to take effect",
        Wanted::Count => "1 to 64",
        Wanted::Epoch => "below 2^32",
        _ => "below 2^64",
    }
}

/// What a digit of a radix is called, and how many a number may have.
fn texts_of(radix: u32) -> (&'static str, &'static str) {
    match radix {
        16 => ("a hexadecimal digit", "at most 16 after `0x`"),
        _ => ("a decimal digit", "at most 20"),
    }
}

/// What one may have meant who wrote this byte in a number.
fn hint_of(byte: u8, radix: u32) -> &'static str {
    match (byte, radix) {
        (b'a'..=b'f' | b'A'..=b'F', 10) => "; a hexadecimal number begins with `0x`",
        (b'k' | b'K' | b'M' | b'G', 10) => "; lengths are in bytes",
        _ => "",
    }
}

impl fmt::Display for NumberFault {
    fn fmt<W: fmt::Write>(&self, f: &mut fmt::Formatter<W>) -> fmt::Result {
        match *self {
            NumberFault::Plain(text) => write!(f, "{text}"),
            NumberFault::Digit { byte, radix } => {
                let shown = char::from(byte);
                let (digit, _) = texts_of(radix);
                let hint = hint_of(byte, radix);
                write!(f, "is not a number: `{shown}` is not {digit}{hint}")
            }
            NumberFault::Digits { count, radix } => {
                let (_, most) = texts_of(radix);
                write!(f, "has {count} digits: {most} are read")
            }
            NumberFault::Range(wanted) => {
                let name = wanted.name();
                let range = range_of(wanted);
                write!(f, "is out of range: {name} is {range}")
            }
        }
    }
}

/// The rule for capitals that a word follows.
pub(crate) fn case_of(right: &str) -> &'static str {
    match right.as_bytes() {
        [b'A'..=b'Z', ..] => "an errno is in capitals",
        _ => "words are in lower case",
    }
}

//! Pieces of the bytes of a line.

ghost use Rattle.std.specs.Prelude.{◌≤◌, length};

use memchr::{memchr, memmem};

/// Sets of bytes.
#[derive(Clone, Copy)]
pub(crate) enum Class {
    /// The decimal digits.
    Digit,
    /// The hexadecimal digits, in small letters.
    Hex,
    /// A letter or a digit of Latin-1, or `_`.
    Word,
    Small,
    /// What the value of a field has: a number, or flags.
    Value,
    /// A capital letter or a digit.
    Errno,
    /// What the events of a poll have.
    Events,
    Blank,
    /// A blank in the wide sense: tabs and their like too.
    Space,
    /// All others.
    NoSpace,
}

impl Class {
    pub(crate) fn has(self, byte: u8) -> bool {
        match self {
            Class::Digit => byte.is_ascii_digit(),
            Class::Hex => matches!(byte, b'0'..=b'9' | b'a'..=b'f'),
            Class::Word => is_word(byte),
            Class::Small => matches!(byte, b'a'..=b'z'),
            Class::Value => {
                matches!(byte, b'0'..=b'9' | b'A'..=b'Z' | b'a'..=b'z' | b'_' | b'<' | b'|' | b'-')
            }
            Class::Errno => matches!(byte, b'0'..=b'9' | b'A'..=b'Z'),
            Class::Events => matches!(byte, b'A'..=b'Z' | b'0'..=b'9' | b'|' | b'x'),
            Class::Blank => byte == b' ',
            Class::Space => is_space(byte),
            Class::NoSpace => !is_space(byte),
        }
    }

    pub(crate) fn has_all(self, text: &[u8]) -> bool {
        text.iter().all(|byte| self.has(*byte))
    }
}

fn is_word(byte: u8) -> bool {
    matches!(
        byte,
        b'0'..=b'9'
            | b'A'..=b'Z'
            | b'a'..=b'z'
            | b'_'
            | 0xaa
            | 0xb2
            | 0xb3
            | 0xb5
            | 0xb9
            | 0xba
            | 0xbc..=0xbe
            | 0xc0..=0xd6
            | 0xd8..=0xf6
            | 0xf8..=0xff
    )
}

fn is_space(byte: u8) -> bool {
    matches!(byte, 9..=13 | 28..=32 | 0x85 | 0xa0)
}

/// How many bytes of a class are at the front.
pub(crate) fn span(text: &[u8], class: Class) -> usize
    ensures { result ≤ length text.now }
{
    for (at, byte) in text.iter().enumerate() {
        if !class.has(*byte) {
            return at;
        }
    }
    text.len()
}

/// The bytes of a class at the front, and those after them.
pub(crate) fn front(text: &[u8], class: Class) -> (&[u8], &[u8]) {
    text.split_at(span(text, class))
}

/// The bytes before the first of these bytes, and those after it.
pub(crate) fn split_at_byte(text: &[u8], byte: u8) -> Option<(&[u8], &[u8])> {
    let at = memchr(byte, text)?;
    Some((&text[..at], &text[at + 1..]))
}

/// The bytes before a mark that is at a place, and those after it.
fn around<'a>(text: &'a [u8], at: usize, mark: &[u8]) -> Option<(&'a [u8], &'a [u8])> {
    let (before, rest) = text.split_at_checked(at)?;
    Some((before, rest.strip_prefix(mark)?))
}

/// The bytes before the first occurrence of a mark, and those after it.
pub(crate) fn split_once<'a>(text: &'a [u8], mark: &[u8]) -> Option<(&'a [u8], &'a [u8])> {
    around(text, memmem::find(text, mark)?, mark)
}

/// The bytes before the last occurrence of a mark, and those after it.
pub(crate) fn rsplit_once<'a>(text: &'a [u8], mark: &[u8]) -> Option<(&'a [u8], &'a [u8])> {
    around(text, memmem::rfind(text, mark)?, mark)
}

pub(crate) fn has(text: &[u8], mark: &[u8]) -> bool {
    memmem::find(text, mark).is_some()
}

/// Whether two words are the same. A pattern for each word would be compared, and proved, byte by byte.
pub(crate) fn is_same(word: &[u8], other: &[u8]) -> bool {
    word == other
}

/// What a table has for a word.
pub(crate) fn look_up<T: Copy>(table: &[(&str, T)], word: &[u8]) -> Option<T> {
    for (name, value) in table {
        if is_same(name.as_bytes(), word) {
            return Some(*value);
        }
    }
    None
}

/// Without the blanks at both ends.
pub(crate) fn trimmed(text: &[u8]) -> &[u8] {
    let (_, text) = front(text, Class::Space);
    let mut end = 0;
    for (at, byte) in text.iter().enumerate() {
        if !is_space(*byte) {
            end = at + 1;
        }
    }
    text.get(..end).unwrap_or(text)
}

/// The first word.
pub(crate) fn first_word(text: &[u8]) -> &[u8] {
    let (_, text) = front(text, Class::Space);
    front(text, Class::NoSpace).0
}

/// How many arguments a call has: a comma and a blank are between two.
pub(crate) fn count_of_arguments(text: &[u8]) -> usize {
    let mut count: usize = 1;
    let mut rest = text;
    for _ in 0..text.len() {
        let Some((_, after)) = split_once(rest, b", ") else {
            break;
        };
        count = count.saturating_add(1);
        rest = after;
    }
    count
}

/// The argument at this place from 0; nothing if there is none.
pub(crate) fn argument(text: &[u8], place: usize) -> &[u8] {
    let mut rest = text;
    for _ in 0..place {
        rest = match split_once(rest, b", ") {
            Some((_, after)) => after,
            None => b"".as_slice(),
        };
    }
    match split_once(rest, b", ") {
        Some((found, _)) => found,
        None => rest,
    }
}

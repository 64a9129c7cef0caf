//! A call of a trace.

use crate::kind::Kind;
use crate::text::{Class, front, has, span};

/// A call, or the end of a thread. Times are nanoseconds.
#[derive(Drop)]
pub(crate) struct Traced {
    pub(crate) thread: u64,
    pub(crate) name: Vec<u8>,
    pub(crate) kind: Kind,
    /// The line at which it entered the kernel.
    pub(crate) entered: u64,
    pub(crate) entered_at: u64,
    pub(crate) arguments: Vec<u8>,
    /// The line at which it left the kernel, if it did.
    pub(crate) left: Option<u64>,
    pub(crate) left_at: u64,
    /// What it returned, as strace prints it.
    pub(crate) returned: Vec<u8>,
    /// The bytes that strace prints below it.
    pub(crate) dump: Vec<u8>,
}

/// The name of an error at the front of a result.
fn errno_of(returned: &[u8]) -> Option<&[u8]> {
    let (name, _) = front(returned.strip_prefix(b"-1 ")?, Class::Errno);
    if name.len() > 1 && name.starts_with(b"E") {
        return Some(name);
    }
    None
}

/// Whether a text begins with no letter, digit or `_`.
fn ends_word(text: &[u8]) -> bool {
    span(text, Class::Word) == 0
}

/// Whether a text begins with digits of a class, and they are a word.
fn is_word_of(text: &[u8], class: Class) -> bool {
    let (digits, rest) = front(text, class);
    !digits.is_empty() && ends_word(rest)
}

/// Whether a text is the result of a call: a number, `?` or an error.
pub(crate) fn is_result(text: &[u8]) -> bool {
    if let Some(rest) = text.strip_prefix(b"?") {
        return ends_word(rest);
    }
    if let Some(rest) = text.strip_prefix(b"-1 E") {
        return is_word_of(rest, Class::Errno);
    }
    if let Some(rest) = text.strip_prefix(b"0x") {
        return is_word_of(rest, Class::Hex);
    }
    is_word_of(text, Class::Digit)
}

impl Traced {
    pub(crate) fn is_end(&self) -> bool {
        matches!(self.kind, Kind::End)
    }

    pub(crate) fn errno(&self) -> Option<&[u8]> {
        errno_of(&self.returned)
    }

    /// Whether a signal ended the call before it did anything.
    pub(crate) fn was_interrupted(&self) -> bool {
        self.returned.starts_with(b"? ERESTART")
    }

    pub(crate) fn has_returned(&self) -> bool {
        let has_result = self.left.is_some() && !self.returned.starts_with(b"?");
        has_result || self.was_interrupted()
    }

    pub(crate) fn has_succeeded(&self) -> bool {
        self.has_returned() && !self.was_interrupted() && self.errno().is_none()
    }

    pub(crate) fn has_argument(&self, word: &[u8]) -> bool {
        has(&self.arguments, word)
    }
}

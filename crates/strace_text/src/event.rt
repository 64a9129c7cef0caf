//! What a single line of a trace says.

ghost use Rattle.std.specs.Prelude.{IsTrue};
ghost use Rattle.strace_text.specs.Traces.{IsNoLog};

use crate::number::{decimal, hex_byte};
use crate::text::{Class, front, is_same, rsplit_once, split_at_byte};
use std::alloc::{AllocError, Global};

/// The time of a line, in nanoseconds.
#[derive(Clone, Copy)]
pub(crate) enum Time {
    /// Since the epoch, as `-ttt` prints it.
    Whole(u64),
    /// Since midnight, as `-tt` prints it.
    OfDay(u64),
}

/// A line of a thread.
#[derive(Clone, Copy)]
pub(crate) struct Start<'a> {
    pub(crate) thread: u64,
    pub(crate) time: Time,
    /// What comes after the time.
    pub(crate) rest: &'a [u8],
}

const SECOND: u64 = 1_000_000_000;

/// The nanoseconds that the digits after a point write, of which there are at most nine.
fn nanoseconds(digits: &[u8]) -> Option<u64> {
    if digits.len() > 9 {
        return None;
    }
    let mut value = decimal(digits)?;
    for _ in digits.len()..9 {
        value = value.saturating_mul(10);
    }
    Some(value)
}

/// The number that two digits at a place write.
fn two_digits(text: &[u8], at: usize) -> Option<u64> {
    decimal(text.get(at..at.saturating_add(2))?)
}

/// The seconds of a time of the day, `07:15:30`.
fn seconds_of_day(text: &[u8]) -> Option<u64> {
    if text.len() != 8 || text.get(2) != Some(&b':') || text.get(5) != Some(&b':') {
        return None;
    }
    let hours = two_digits(text, 0)?;
    let minutes = two_digits(text, 3)?.saturating_add(hours.saturating_mul(60));
    let seconds = two_digits(text, 6)?;
    Some(minutes.saturating_mul(60).saturating_add(seconds))
}

/// The time that a word spells: seconds with a fraction of three to nine digits, or a time of the day, which may have one.
fn time_of(word: &[u8]) -> Option<Time> {
    let Some((whole, fraction)) = split_at_byte(word, b'.') else {
        return Some(Time::OfDay(seconds_of_day(word)?.saturating_mul(SECOND)));
    };
    if fraction.len() < 3 {
        return None;
    }
    let part = nanoseconds(fraction)?;
    if let Some(seconds) = seconds_of_day(whole) {
        let time = seconds.saturating_mul(SECOND).saturating_add(part);
        return Some(Time::OfDay(time));
    }
    let time = decimal(whole)?.checked_mul(SECOND)?.checked_add(part)?;
    Some(Time::Whole(time))
}

/// The digits of a thread's number, `71` or `[pid    71]`, and what comes after it.
fn thread_of(line: &[u8]) -> Option<(&[u8], &[u8])> {
    let Some(rest) = line.strip_prefix(b"[pid ") else {
        return Some(front(line, Class::Digit));
    };
    let (number, rest) = split_at_byte(rest, b']')?;
    Some((front(number, Class::Blank).1, rest))
}

/// The thread and the time at the front of a line.
pub(crate) fn start_of(line: &[u8]) -> Option<Start<'_>> {
    let (digits, rest) = thread_of(line)?;
    let thread = decimal(digits)?;
    let (blanks, rest) = front(rest, Class::Blank);
    if blanks.is_empty() {
        return None;
    }
    let (word, rest) = split_at_byte(rest, b' ')?;
    let time = time_of(word)?;
    Some(Start { thread, time, rest })
}

/// Whether a line says that strace follows a process from now on, or no longer.
pub(crate) fn is_attached(line: &[u8]) -> bool {
    let Some(rest) = line.strip_prefix(b"strace: Process ") else {
        return false;
    };
    let (digits, rest) = front(rest, Class::Digit);
    !digits.is_empty() && (is_same(rest, b" attached") || is_same(rest, b" detached"))
}

/// Whether this first line is one of a trace with the threads and the times that [`crate::convert`] needs: `PID TIME CALL(..`, with a time as
/// `-ttt` or `-tt` prints it. The first line of a log is none.
pub fn is_trace(line: &[u8]) -> bool
    ensures { IsTrue result → IsNoLog line.now }
{
    match line.split_first() {
        Some((first, _)) if *first != b'u' => start_of(line).is_some() || is_attached(line),
        _ => false,
    }
}

/// A byte of a dump, after one blank or two, and what comes after it.
fn dump_byte(text: &[u8]) -> Option<(u8, &[u8])> {
    let text = text.strip_prefix(b" ")?;
    let digits = text.strip_prefix(b" ").unwrap_or(text);
    Some((hex_byte(digits)?, digits.get(2..)?))
}

/// What comes after the place of a dump's bytes, if a line has them.
fn after_place(line: &[u8]) -> Option<&[u8]> {
    let (place, rest) = line.strip_prefix(b" | ")?.split_at_checked(5)?;
    if !Class::Hex.has_all(place) {
        return None;
    }
    rest.strip_prefix(b" ")
}

/// The bytes that a line below a call has, with the place of the first of them, if it is such a line.
pub(crate) fn dump_of(alloc: Global, line: &[u8]) -> Result<Option<Vec<u8>>, AllocError> {
    let Some(mut rest) = after_place(line) else {
        return Ok(None);
    };
    let mut found = Vec::new(alloc);
    for _ in 0..16 {
        let Some((byte, after)) = dump_byte(rest) else {
            break;
        };
        found.push(byte)?;
        rest = after;
    }
    if !rest.starts_with(b" ") {
        found.pop();
    }
    Ok(if found.is_empty() { None } else { Some(found) })
}

/// The name that is before the parenthesis of a call.
pub(crate) fn name_of(text: &[u8]) -> Option<&[u8]> {
    let (name, rest) = front(text, Class::Word);
    if name.is_empty() || !rest.starts_with(b"(") {
        return None;
    }
    Some(name)
}

/// The call that is resumed: its name, and what comes after it.
pub(crate) fn resumed(text: &[u8]) -> Option<(&[u8], &[u8])> {
    let (name, rest) = front(text.strip_prefix(b"<... ")?, Class::Word);
    if name.is_empty() {
        return None;
    }
    let rest = rest.strip_prefix(b" resumed>")?;
    Some((name, rest.strip_prefix(b" ").unwrap_or(rest)))
}

/// What a call that is not finished has printed.
pub(crate) fn unfinished(text: &[u8]) -> Option<&[u8]> {
    let text = match text.strip_suffix(b"<unfinished ...>") {
        Some(text) => text,
        None => text.strip_suffix(b"<detached ...>")?,
    };
    Some(text.strip_suffix(b" ").unwrap_or(text))
}

/// What is between the first parenthesis and the end.
pub(crate) fn after_parenthesis(text: &[u8]) -> &[u8] {
    match split_at_byte(text, b'(') {
        Some((_, rest)) => rest,
        None => text,
    }
}

/// Where the last mark between the arguments and the result, `) = ` with any number of blanks before the sign, begins, and where it ends.
fn last_mark(text: &[u8]) -> Option<(usize, usize)> {
    let mut last = None;
    // The parenthesis after which only blanks, and then a sign, have come.
    let mut begin = None;
    let mut before = b'(';
    for (at, byte) in text.iter().enumerate() {
        match (before, *byte) {
            (_, b')') => begin = Some(at),
            (b'=', b' ') => {
                if let Some(begin) = begin.take() {
                    last = Some((begin, at + 1));
                }
            }
            (_, b' ') | (b' ', b'=') => {}
            _ => begin = None,
        }
        before = *byte;
    }
    last
}

/// The nanoseconds of a duration `1.000020`.
fn duration(text: &[u8]) -> Option<u64> {
    let (seconds, part) = split_at_byte(text, b'.')?;
    if seconds.is_empty() || !Class::Digit.has_all(seconds) {
        return None;
    }
    let part = nanoseconds(part)?;
    let seconds = decimal(seconds).unwrap_or(u64::MAX);
    Some(seconds.saturating_mul(SECOND).saturating_add(part))
}

/// How many bytes are before the duration ` <0.000020>` at the end, and the nanoseconds of that.
fn lasted(text: &[u8]) -> Option<(usize, u64)> {
    let (before, rest) = rsplit_once(text, b" <")?;
    Some((before.len(), duration(rest.strip_suffix(b">")?)?))
}

/// The parts of a whole call.
#[derive(Clone, Copy)]
pub(crate) struct Parts<'a> {
    pub(crate) arguments: &'a [u8],
    pub(crate) returned: &'a [u8],
    /// The nanoseconds that it took, or 0.
    pub(crate) lasted: u64,
}

/// The parts of a whole call, if it has a result.
pub(crate) fn parts_of(text: &[u8]) -> Option<Parts<'_>> {
    let (begin, end) = last_mark(text)?;
    let (until, lasted) = lasted(text).unwrap_or((text.len(), 0));
    Some(Parts {
        arguments: after_parenthesis(text.get(..begin)?),
        returned: text.get(end..until).unwrap_or(b"".as_slice()),
        lasted,
    })
}

/// Whether a line is about a signal.
pub(crate) fn is_signal(text: &[u8]) -> bool {
    text.starts_with(b"--- ") && text.ends_with(b" ---")
}

/// Whether a line is the end of a thread.
pub(crate) fn is_end(text: &[u8]) -> bool {
    text.starts_with(b"+++ ") && text.ends_with(b" +++")
}

//! Numbers and descriptors, as strace prints them.

use crate::stop::{Stop, refuse_bytes};
use crate::text::{Class, front, is_same, split_at_byte};
use memchr::memchr2;
use std::alloc::Global;

/// What strace prints after the number of a userfault object's descriptor.
pub(crate) const OBJECT: &[u8] = b"anon_inode:[userfaultfd]";

/// The value of a hexadecimal digit, in small letters.
fn nibble(byte: u8) -> Option<u8> {
    match byte {
        b'0'..=b'9' => Some(byte - b'0'),
        b'a'..=b'f' => Some(byte - b'a' + 10),
        _ => None,
    }
}

/// The byte that two hexadecimal digits at the front write.
pub(crate) fn hex_byte(text: &[u8]) -> Option<u8> {
    let high = nibble(*text.first()?)?;
    let low = nibble(*text.get(1)?)?;
    Some((high << 4) | low)
}

/// The number that digits in a radix write, if it is below 2^64.
fn digits(text: &[u8], radix: u64) -> Option<u64> {
    let mut value: u64 = 0;
    for byte in text {
        let digit = nibble(*byte)?;
        value = value.checked_mul(radix)?.checked_add(u64::from(digit))?;
    }
    Some(value)
}

/// The number of decimal digits, which may begin with zeros. None if it is 2^64 or more, or there are no digits.
pub(crate) fn decimal(text: &[u8]) -> Option<u64> {
    if text.is_empty() || !Class::Digit.has_all(text) {
        return None;
    }
    digits(text, 10)
}

/// The number of hexadecimal digits, or the greatest one if it is 2^64 or more.
pub(crate) fn hexadecimal(text: &[u8]) -> u64 {
    digits(text, 16).unwrap_or(u64::MAX)
}

/// The number that a word spells, if it is one without leading zeros.
fn spelled(word: &[u8]) -> Option<u64> {
    match word.strip_prefix(b"0x") {
        Some(text) if text.is_empty() || text.len() > 16 => None,
        Some(text) => digits(text, 16),
        None if word.len() > 19 || word.len() > 1 && word.starts_with(b"0") => None,
        None => decimal(word),
    }
}

fn not_a_number(alloc: Global, word: &[u8]) -> Stop {
    refuse_bytes(alloc, word, "is not a number")
}

pub(crate) fn number(alloc: Global, word: &[u8]) -> Result<u64, Stop> {
    match spelled(word) {
        Some(value) => Ok(value),
        None => Err(not_a_number(alloc, word)),
    }
}

/// A number, or NULL.
pub(crate) fn address(alloc: Global, word: &[u8]) -> Result<u64, Stop> {
    if is_same(word, b"NULL") {
        return Ok(0);
    }
    number(alloc, word)
}

/// A descriptor at the front of a text.
#[derive(Clone, Copy)]
pub(crate) struct Printed<'a> {
    /// Its number, which may be negative, or AT_FDCWD.
    pub(crate) word: &'a [u8],
    /// Whether it is a userfault object, where strace says what it is.
    pub(crate) is_object: Option<bool>,
    pub(crate) rest: &'a [u8],
}

/// The number of a descriptor, and what comes after it.
fn descriptor_word(text: &[u8]) -> Option<(&[u8], &[u8])> {
    if text.starts_with(b"AT_FDCWD") {
        return text.split_at_checked(8);
    }
    let unsigned = text.strip_prefix(b"-").unwrap_or(text);
    let (digits, rest) = front(unsigned, Class::Digit);
    if digits.is_empty() {
        return None;
    }
    text.split_at_checked(text.len().saturating_sub(rest.len()))
}

/// A path up to the bracket that ends it, without such brackets in it, and what comes after it.
fn path_of(text: &[u8]) -> Option<(&[u8], &[u8])> {
    let end = memchr2(b'<', b'>', text)?;
    let (path, rest) = text.split_at_checked(end)?;
    Some((path, rest.strip_prefix(b">")?))
}

/// What is between angle brackets at the front, without such brackets in it, and what comes after it.
pub(crate) fn bracketed(text: &[u8]) -> Option<(&[u8], &[u8])> {
    path_of(text.strip_prefix(b"<")?)
}

/// The descriptor at the front of a text, if there is one.
pub(crate) fn descriptor_at(text: &[u8]) -> Option<Printed<'_>> {
    let (word, rest) = descriptor_word(text)?;
    let (is_object, rest) = match bracketed(rest) {
        Some((path, after)) => (Some(is_same(path, OBJECT)), after),
        None => (None, rest),
    };
    Some(Printed {
        word,
        is_object,
        rest,
    })
}

/// A descriptor's number, and whether it is an object, where strace says what it is.
#[derive(Clone, Copy)]
pub(crate) struct Fd {
    pub(crate) number: u64,
    pub(crate) is_object: Option<bool>,
}

/// The descriptor at the front of a text, if its number is there and is not negative.
pub(crate) fn fd_at(alloc: Global, text: &[u8]) -> Result<Option<Fd>, Stop> {
    let Some(found) = descriptor_at(text) else {
        return Ok(None);
    };
    if let Some(number) = decimal(found.word) {
        let is_object = found.is_object;
        return Ok(Some(Fd { number, is_object }));
    }
    if text.first().is_some_and(u8::is_ascii_digit) {
        return Err(not_a_number(alloc, found.word));
    }
    Ok(None)
}

/// The number of a descriptor.
pub(crate) fn descriptor(alloc: Global, text: &[u8]) -> Result<u64, Stop> {
    match descriptor_at(text) {
        Some(found) => number(alloc, found.word),
        None => Err(refuse_bytes(alloc, text, "is not a descriptor")),
    }
}

/// The arguments after the first, which is a descriptor.
pub(crate) fn after_descriptor(arguments: &[u8]) -> &[u8] {
    match descriptor_at(arguments) {
        Some(found) => found.rest.strip_prefix(b", ").unwrap_or(found.rest),
        None => b"".as_slice(),
    }
}

/// Without what is between angle brackets.
pub(crate) fn without_paths(alloc: Global, text: &[u8]) -> Result<Vec<u8>, Stop> {
    let mut out = Vec::new(alloc);
    let mut rest = text;
    for _ in 0..text.len() {
        let Some((before, path)) = split_at_byte(rest, b'<') else {
            break;
        };
        out.extend_from_slice(before)?;
        rest = match path_of(path) {
            Some((_, after)) => after,
            None => {
                out.push(b'<')?;
                path
            }
        };
    }
    out.extend_from_slice(rest)?;
    Ok(out)
}

//! Strings and paths, as strace prints them.

use crate::number::hex_byte;
use crate::stop::{Stop, refuse_bytes};
use crate::text::split_at_byte;
use std::alloc::{AllocError, Global};

/// The byte that one to three octal digits write, and what comes after them.
fn octal(text: &[u8]) -> (u8, &[u8]) {
    let mut value: u8 = 0;
    for (at, byte) in text.iter().enumerate() {
        if at == 3 || !matches!(*byte, b'0'..=b'7') {
            return (value, text.split_at(at).1);
        }
        value = (value << 3) | (*byte & 7);
    }
    (value, b"".as_slice())
}

/// The byte of a letter that is after a backslash.
fn meant(letter: u8) -> Option<u8> {
    match letter {
        b'n' => Some(b'\n'),
        b't' => Some(b'\t'),
        b'r' => Some(b'\r'),
        b'v' => Some(11),
        b'f' => Some(12),
        b'\\' | b'"' => Some(letter),
        _ => None,
    }
}

/// The first byte of a string, and the rest of it.
fn string_byte(text: &[u8]) -> Option<(u8, &[u8])> {
    let (first, rest) = text.split_first()?;
    if *first != b'\\' {
        return Some((*first, rest));
    }
    let (letter, after) = rest.split_first()?;
    match *letter {
        b'0'..=b'7' => Some(octal(rest)),
        b'x' => Some((hex_byte(after)?, after.get(2..)?)),
        letter => Some((meant(letter)?, after)),
    }
}

/// Adds the bytes of a string, which is given without its quotes.
pub(crate) fn unescape(alloc: Global, out: &mut Vec<u8>, text: &[u8]) -> Result<(), Stop> {
    let mut rest = text;
    for _ in 0..text.len() {
        if rest.is_empty() {
            break;
        }
        let Some((byte, after)) = string_byte(rest) else {
            let wrong = rest.get(..2).unwrap_or(rest);
            return Err(refuse_bytes(alloc, wrong, "in a string"));
        };
        out.push(byte)?;
        rest = after;
    }
    Ok(())
}

/// A string up to the quote that ends it, and what comes after that.
pub(crate) fn closed(text: &[u8]) -> Option<(&[u8], &[u8])> {
    let mut is_escaped = false;
    for (at, byte) in text.iter().enumerate() {
        match *byte {
            _ if is_escaped => is_escaped = false,
            b'\\' => is_escaped = true,
            b'"' => return Some((&text[..at], &text[at + 1..])),
            _ => {}
        }
    }
    None
}

/// The next string of a text, without its quotes, and what comes after it.
pub(crate) fn next_string(text: &[u8]) -> Option<(&[u8], &[u8])> {
    let mut rest = text;
    for _ in 0..text.len() {
        let (_, after) = split_at_byte(rest, b'"')?;
        rest = after;
        if let Some(found) = closed(rest) {
            return Some(found);
        }
    }
    None
}

/// The bytes of all strings of a text, one after the other.
pub(crate) fn all_strings(alloc: Global, text: &[u8]) -> Result<Vec<u8>, Stop> {
    let mut out = Vec::new(alloc);
    let mut rest = text;
    for _ in 0..text.len() {
        let Some((string, after)) = next_string(rest) else {
            break;
        };
        unescape(alloc, &mut out, string)?;
        rest = after;
    }
    Ok(out)
}

/// The byte that `\x61` writes.
fn hex_escape(text: &[u8]) -> Option<u8> {
    hex_byte(text.strip_prefix(b"\\x")?)
}

/// Adds the bytes of a path in hexadecimal, and its `>`. How many bytes of the text write them: 0, and none is added, if there is no such path.
fn decode_path(out: &mut Vec<u8>, text: &[u8]) -> Result<usize, AllocError> {
    let before = out.len();
    let mut count: usize = 0;
    for escape in text.chunks(4) {
        let Some(byte) = hex_escape(escape) else {
            break;
        };
        out.push(byte)?;
        count = count.saturating_add(4);
    }
    if count > 0 && text.get(count) == Some(&b'>') {
        out.push(b'>')?;
        return Ok(count.saturating_add(1));
    }
    out.truncate(before);
    Ok(0)
}

/// A text in which each `<\x61..>` is `<a..>`.
pub(crate) fn decode_paths(alloc: Global, text: &[u8]) -> Result<Vec<u8>, AllocError> {
    let mut out = Vec::with_capacity(alloc, text.len())?;
    let mut rest = text;
    for _ in 0..text.len() {
        let Some((before, path)) = split_at_byte(rest, b'<') else {
            break;
        };
        out.extend_from_slice(before)?;
        out.push(b'<')?;
        let count = decode_path(&mut out, path)?;
        rest = path.get(count..).unwrap_or(path);
    }
    out.extend_from_slice(rest)?;
    Ok(out)
}

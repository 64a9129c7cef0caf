//! Frames, prefixes, changes and cuts.

use super::faults::FAULTS;
use super::reading::{completes, feed, is_front, is_whole, read_again, text, texts, waits, write};
use super::vectors::{BOTH, PAGE, RUN};
use crate::parts::{append, same_bytes, same_number};
use frame_decoder::{Decoder, front_len};
use mig_base::{NoMemory, PAGE_BYTES};
use std::alloc::Global;
use std::process::Abort;

/// The text of the frame that is read from all these bytes: none where they are not one text.
fn read(rt: &impl Abort, alloc: Global, bytes: &[u8]) -> Vec<u8> {
    let mut text = Vec::new(alloc);
    match read_again(alloc, bytes) {
        Ok(Some((epoch, frame))) => assert!(rt; write(rt, &frame, epoch, &mut text).is_ok()),
        Ok(None) => {}
        Err(NoMemory) => assert!(rt; false),
    }
    text
}

/// Stops if these bytes are read as a text.
fn is_no_text(rt: &impl Abort, alloc: Global, bytes: &[u8]) {
    let text = read(rt, alloc, bytes);
    assert!(rt; text.is_empty());
}

/// Reads a text whole.
fn alone(rt: &impl Abort, alloc: Global, bytes: &[u8]) {
    same_number(rt, front_len(bytes), bytes.len());
    let text = read(rt, alloc, bytes);
    is_whole(rt, &text, bytes);
}

/// Feeds the front of a text byte by byte: nothing is answered, and bytes are missing.
fn drips(rt: &impl Abort, alloc: Global, decoder: &mut Decoder, front: &[u8]) {
    for byte in front {
        waits(rt, alloc, decoder, &[*byte]);
        assert!(rt; decoder.missing() != 0);
    }
}

/// Feeds a text byte by byte: it is answered with the last.
fn by_bytes(rt: &impl Abort, alloc: Global, bytes: &[u8], front: &[u8], last: u8) {
    let mut decoder = Decoder::new(alloc);
    drips(rt, alloc, &mut decoder, front);
    completes(rt, alloc, &mut decoder, &[last], bytes);
    same_number(rt, decoder.missing(), 12);
}

/// Feeds a text whole, and with one byte too few.
fn by_pieces(rt: &impl Abort, alloc: Global, bytes: &[u8], front: &[u8], last: u8) {
    let mut decoder = Decoder::new(alloc);
    completes(rt, alloc, &mut decoder, bytes, bytes);
    waits(rt, alloc, &mut decoder, front);
    same_number(rt, decoder.missing(), 1);
    completes(rt, alloc, &mut decoder, &[last], bytes);
}

/// Feeds a text, and reads it alone, also with one byte too few.
fn one_text(rt: &impl Abort, alloc: Global, bytes: &[u8]) {
    if let [front @ .., last] = bytes {
        by_pieces(rt, alloc, bytes, front, *last);
        by_bytes(rt, alloc, bytes, front, *last);
        is_no_text(rt, alloc, front);
    }
    alone(rt, alloc, bytes);
}

/// Reads a text in a version, with as many bytes of 7 after it.
fn one_of(rt: &impl Abort, alloc: Global, version: u8, front: &[u8], sevens: usize) {
    let bytes = text(rt, alloc, version, front, sevens, 0);
    one_text(rt, alloc, &bytes);
}

#[test]
fn texts_are_read(rt: HostRuntime) {
    for vector in &BOTH {
        one_of(&rt, rt.alloc(), 1, *vector, 0);
        one_of(&rt, rt.alloc(), 2, *vector, 0);
    }
}

#[test]
fn pages_are_read(rt: HostRuntime) {
    one_of(&rt, rt.alloc(), 1, PAGE, PAGE_BYTES);
    one_of(&rt, rt.alloc(), 2, PAGE, PAGE_BYTES);
    let bytes = text(&rt, rt.alloc(), 2, RUN, PAGE_BYTES, PAGE_BYTES);
    one_text(&rt, rt.alloc(), &bytes);
}

/// Feeds bytes: what is answered is written as the bytes that it took up.
fn is_written(rt: &impl Abort, alloc: Global, decoder: &mut Decoder, bytes: &[u8]) {
    let texts = texts(rt, alloc, decoder, bytes);
    is_front(rt, &texts, bytes);
}

/// Feeds bytes with one of them changed to each value.
fn changes(rt: &impl Abort, alloc: Global, bytes: &mut [u8], at: usize) {
    let mut decoder = Decoder::new(alloc);
    for value in 0..=255 {
        if let Some(byte) = bytes.get_mut(at) {
            *byte = value;
        }
        is_written(rt, alloc, &mut decoder, bytes);
        decoder.reset();
    }
}

/// Changes each byte of a text in a version.
fn each_byte(rt: &impl Abort, alloc: Global, version: u8, front: &[u8]) {
    for at in 0..=front.len() {
        let mut bytes = text(rt, alloc, version, front, 0, 0);
        changes(rt, alloc, &mut bytes, at);
    }
}

#[test]
fn changed_texts_are_read_as_they_are_written(rt: HostRuntime) {
    for vector in &BOTH {
        each_byte(&rt, rt.alloc(), 1, *vector);
        each_byte(&rt, rt.alloc(), 2, *vector);
    }
}

/// Each byte in front of the pages, and the first and the last of each page.
const OF_A_PAGE: [usize; 18] = [
    0, 1, 2, 3, 4, 5, 6, 7, 8, 9, 10, 11, 12, 13, 14, 15, 16, 4111,
];

/// So of two pages.
const OF_A_RUN: [usize; 24] = [
    0, 1, 2, 3, 4, 5, 6, 7, 8, 9, 10, 11, 12, 13, 14, 15, 16, 17, 18, 19, 20, 4115, 4116, 8211,
];

/// Changes the bytes at these places of a text of pages in a version.
fn at_places(
    rt: &impl Abort,
    alloc: Global,
    version: u8,
    (front, nines): (&[u8], usize),
    places: &[usize],
) {
    for at in places {
        let mut bytes = text(rt, alloc, version, front, PAGE_BYTES, nines);
        changes(rt, alloc, &mut bytes, *at);
    }
}

#[test]
fn changed_pages_are_read_as_they_are_written(rt: HostRuntime) {
    at_places(&rt, rt.alloc(), 1, (PAGE, 0), &OF_A_PAGE);
    at_places(&rt, rt.alloc(), 2, (PAGE, 0), &OF_A_PAGE);
    at_places(&rt, rt.alloc(), 1, (RUN, PAGE_BYTES), &OF_A_RUN);
    at_places(&rt, rt.alloc(), 2, (RUN, PAGE_BYTES), &OF_A_RUN);
}

/// The first bytes of a text.
const PART: &[u8] = b"\x02\x03\x00\x00\x00";

/// All texts one after the other.
fn joined(rt: &impl Abort, alloc: Global) -> Vec<u8> {
    let mut stream = Vec::new(alloc);
    for vector in &BOTH {
        append(rt, &mut stream, b"\x02");
        append(rt, &mut stream, *vector);
    }
    stream
}

/// Feeds these texts and the first bytes of one more, in two pieces.
fn one_cut(rt: &impl Abort, alloc: Global, stream: &[u8], at: usize, wanted: &[u8]) {
    if let Some((front, back)) = stream.split_at_checked(at) {
        let mut decoder = Decoder::new(alloc);
        let mut texts = Vec::new(alloc);
        assert!(rt; feed(rt, &mut decoder, front, &mut texts).is_ok());
        assert!(rt; feed(rt, &mut decoder, back, &mut texts).is_ok());
        same_bytes(rt, &texts, wanted);
    }
}

#[test]
fn cuts_agree(rt: HostRuntime) {
    let wanted = joined(&rt, rt.alloc());
    let mut stream = joined(&rt, rt.alloc());
    append(&rt, &mut stream, PART);
    for at in 0..400 {
        one_cut(&rt, rt.alloc(), &stream, at, &wanted);
    }
}

/// More than one text is not the text of a frame, and none is where a fault stands.
#[test]
fn bytes_that_are_no_text(rt: HostRuntime) {
    let mut stream = joined(&rt, rt.alloc());
    append(&rt, &mut stream, PART);
    is_no_text(&rt, rt.alloc(), &stream);
    for (bytes, _) in &FAULTS {
        is_no_text(&rt, rt.alloc(), *bytes);
    }
}

/// Frames of one piece are answered together.
#[test]
fn frames_of_one_piece(rt: HostRuntime) {
    let wanted = joined(&rt, rt.alloc());
    let mut stream = joined(&rt, rt.alloc());
    append(&rt, &mut stream, PART);
    let mut decoder = Decoder::new(rt.alloc());
    let mut texts = Vec::new(rt.alloc());
    let answer = feed(&rt, &mut decoder, &stream, &mut texts);
    assert!(&rt; answer == Ok(BOTH.len()));
    same_bytes(&rt, &texts, &wanted);
    same_number(&rt, decoder.missing(), 7);
}

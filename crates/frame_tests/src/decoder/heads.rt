//! Heads: a frame at the front, with the bytes of its pages left where they lie.

use super::faults::FAULTS;
use super::reading::{is_whole, text, write};
use super::vectors::{BOTH, PAGE, RUN};
use crate::parts::same_number;
use frame_decoder::{FrameHead, Head, StreamFault, Version, lacking, read_head};
use mig_base::{PAGE_BYTES, PageNo};
use std::alloc::Global;
use std::process::Abort;

/// What is at the front.
#[derive(Clone, Copy, PartialEq, Eq)]
enum Front {
    /// Less than a frame.
    Part,
    Page(PageNo),
    /// The first page, and how many they are.
    Run(PageNo, u32),
    /// A frame without pages.
    Other,
}

use Front::{Other, Page, Part, Run};

/// A head with its version and epoch, where its pages begin and how long the frame is.
type Found = (Front, Version, u32, usize, usize);

/// Less than a frame.
const NOTHING: Found = (Part, Version::Two, 0, 0, 0);

/// Reads the head at the front, and once more where memory was refused.
fn read(
    alloc: Global,
    fixed: Option<Version>,
    bytes: &[u8],
) -> Result<Option<FrameHead>, StreamFault> {
    match read_head(alloc, fixed, bytes) {
        Err(StreamFault::NoMemory) => read_head(alloc, fixed, bytes),
        found => found,
    }
}

/// What a head says of its frame. The text of one without pages is written.
fn summary(rt: &impl Abort, head: &Head, epoch: u32, text: &mut Vec<u8>) -> Front {
    match head {
        Head::Page { page } => Page(*page),
        Head::Run { first, count } => Run(*first, *count),
        Head::Other(frame) => {
            assert!(rt; write(rt, frame, epoch, text).is_ok());
            Other
        }
    }
}

/// What is at the front of some bytes. The text of a frame without pages is written.
fn found(
    rt: &impl Abort,
    alloc: Global,
    fixed: Option<Version>,
    bytes: &[u8],
    text: &mut Vec<u8>,
) -> Result<Found, StreamFault> {
    match read(alloc, fixed, bytes) {
        Ok(Some(found)) => {
            let front = summary(rt, &found.head, found.epoch, text);
            Ok((front, found.version, found.epoch, found.at, found.len))
        }
        Ok(None) => Ok(NOTHING),
        Err(fault) => Err(fault),
    }
}

/// Stops unless this is at the front, and no frame without pages.
fn finds(
    rt: &impl Abort,
    alloc: Global,
    fixed: Option<Version>,
    bytes: &[u8],
    wanted: Result<Found, StreamFault>,
) {
    let mut text = Vec::new(alloc);
    assert!(rt; found(rt, alloc, fixed, bytes, &mut text) == wanted);
    assert!(rt; text.is_empty());
}

/// Stops unless less than a frame stands at the front, which lacks this number of bytes.
fn part(rt: &impl Abort, alloc: Global, bytes: &[u8], lacks: usize) {
    finds(rt, alloc, None, bytes, Ok(NOTHING));
    same_number(rt, lacking(None, bytes), lacks);
}

/// The same of the first `count` of these bytes.
fn cut(rt: &impl Abort, alloc: Global, bytes: &[u8], count: usize, lacks: usize) {
    match bytes.get(..count) {
        Some(front) => part(rt, alloc, front, lacks),
        None => assert!(rt; false),
    }
}

/// The same of all bytes but the last, which they lack.
fn all_but_one(rt: &impl Abort, alloc: Global, bytes: &[u8]) {
    if let [front @ .., _] = bytes {
        part(rt, alloc, front, 1);
    }
}

/// Reads a frame without pages, and not with one byte too few.
fn one_text(rt: &impl Abort, alloc: Global, bytes: &[u8]) {
    all_but_one(rt, alloc, bytes);
    let mut text = Vec::new(alloc);
    let Ok((front, _, _, at, len)) = found(rt, alloc, None, bytes, &mut text) else {
        assert!(rt; false);
        return;
    };
    assert!(rt; front == Other);
    same_number(rt, at, bytes.len());
    same_number(rt, len, bytes.len());
    is_whole(rt, &text, bytes);
}

/// Reads a frame without pages in a version.
fn one_of(rt: &impl Abort, alloc: Global, version: u8, front: &[u8]) {
    let bytes = text(rt, alloc, version, front, 0, 0);
    one_text(rt, alloc, &bytes);
}

#[test]
fn frames_without_pages(rt: HostRuntime) {
    for vector in &BOTH {
        one_of(&rt, rt.alloc(), 1, *vector);
        one_of(&rt, rt.alloc(), 2, *vector);
    }
}

/// A Page has its bytes from 16 to 4112; bytes after it are not read.
fn page_left(rt: &impl Abort, alloc: Global, bytes: &[u8], version: Version) {
    cut(rt, alloc, bytes, 11, 1);
    cut(rt, alloc, bytes, 12, 4100);
    cut(rt, alloc, bytes, 4111, 1);
    let wanted = Ok((Page(0x10), version, 1, 16, 4112));
    finds(rt, alloc, None, bytes, wanted);
    finds(rt, alloc, Some(version), bytes, wanted);
}

/// So in either version.
#[test]
fn a_page_is_left_where_it_lies(rt: HostRuntime) {
    let one = text(&rt, rt.alloc(), 1, PAGE, PAGE_BYTES, 3);
    page_left(&rt, rt.alloc(), &one, Version::One);
    let two = text(&rt, rt.alloc(), 2, PAGE, PAGE_BYTES, 3);
    page_left(&rt, rt.alloc(), &two, Version::Two);
}

/// A Run of two pages has their bytes from 20 to 8212.
#[test]
fn a_run_is_left_where_it_lies(rt: HostRuntime) {
    let bytes = text(&rt, rt.alloc(), 2, RUN, PAGE_BYTES, PAGE_BYTES);
    cut(&rt, rt.alloc(), &bytes, 8211, 1);
    let wanted = Ok((Run(0x10, 2), Version::Two, 1, 20, 8212));
    finds(&rt, rt.alloc(), None, &bytes, wanted);
}

/// The fault is found with the last byte, and not before.
fn one_fault(rt: &impl Abort, alloc: Global, bytes: &[u8], fault: StreamFault) {
    all_but_one(rt, alloc, bytes);
    finds(rt, alloc, None, bytes, Err(fault));
    same_number(rt, lacking(None, bytes), 0);
}

#[test]
fn faults_are_those_of_the_decoder(rt: HostRuntime) {
    for (bytes, fault) in &FAULTS {
        one_fault(&rt, rt.alloc(), *bytes, *fault);
    }
}

/// A page below the lowest, a Run with another count than its bytes, and a Run of no page.
const BAD_HEADS: [&[u8]; 3] = [
    b"\x02\x00\x00\x00\x00\x00\x01\x00\x00\x10\x04\x00\x00\x00\x0f",
    b"\x08\x00\x00\x00\x00\x00\x01\x00\x00\x10\x08\x00\x00\x00\x10\x00\x00\x00\x02",
    b"\x08\x00\x00\x00\x00\x00\x01\x00\x00\x10\x08\x00\x00\x00\x10\x00\x00\x00\x00",
];

/// A fault of a page's head, and a frame of another version than the fixed one.
#[test]
fn bad_heads_of_pages(rt: HostRuntime) {
    for front in BAD_HEADS {
        let bytes = text(&rt, rt.alloc(), 2, front, PAGE_BYTES, 0);
        finds(&rt, rt.alloc(), None, &bytes, Err(StreamFault::BadField));
    }
    let page = text(&rt, rt.alloc(), 2, PAGE, PAGE_BYTES, 0);
    let wanted = Err(StreamFault::BadTag);
    finds(&rt, rt.alloc(), Some(Version::One), &page, wanted);
}

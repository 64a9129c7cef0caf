//! Frames and their texts.

use crate::parts::{Areas, NONE, Ranges, append, fill, package, same_bytes, same_number, set};
use mig_base::phase::Received;
use mig_base::{Command, NoMemory, PAGE_BYTES, PageBytes, PageNo, Prot};
use page_stream::{
    Frame, Pages, Waiting, encode, encode_into, encode_page_into, page_head, run_head,
};
use std::alloc::Global;
use std::process::Abort;

/// A frame to be made.
#[derive(Clone, Copy)]
enum Sample {
    Advise,
    Zero(PageNo),
    Discard(Ranges),
    End(u32),
    Resume,
    Request(PageNo),
    Recv(Received, Ranges),
    Done,
}

use Sample::{Advise, Discard, Done, End, Recv, Request, Resume, Zero};

fn made(rt: &impl Abort, alloc: Global, sample: Sample) -> Result<Frame, NoMemory> {
    Ok(match sample {
        Advise => Frame::Advise,
        Zero(page) => Frame::Zero { page },
        Discard(ranges) => Frame::Discard {
            pages: set(rt, alloc, ranges)?,
        },
        End(urgent) => Frame::End { urgent },
        Resume => Frame::Resume,
        Request(page) => Frame::Request { page },
        Recv(state, ranges) => Frame::Recv {
            state,
            owed: set(rt, alloc, ranges)?,
        },
        Done => Frame::Done,
    })
}

/// Writes a frame after what the vector has.
fn write(rt: &impl Abort, frame: &Frame, epoch: u32, bytes: &mut Vec<u8>) -> Result<(), NoMemory> {
    assert!(rt; frame.is_well_formed());
    encode_into(frame, epoch, bytes)
}

/// Stops unless bytes are one of 0xee and those that are wanted.
fn is_behind(rt: &impl Abort, bytes: &[u8], wanted: &[u8]) {
    if let [first, text @ ..] = bytes {
        assert!(rt; *first == 0xee);
        same_bytes(rt, text, wanted);
    } else {
        assert!(rt; false);
    }
}

/// Looks at what is written of a frame after a byte.
fn look_behind(rt: &impl Abort, alloc: Global, frame: &Frame, epoch: u32, wanted: &[u8]) {
    let mut bytes = Vec::new(alloc);
    append(rt, &mut bytes, &[0xee]);
    if write(rt, frame, epoch, &mut bytes).is_err() {
        is_behind(rt, &bytes, &[]);
        write(rt, frame, epoch, &mut bytes).expect(rt, "a second time");
    }
    is_behind(rt, &bytes, wanted);
}

/// The text of a frame, once more where memory was refused.
fn text(rt: &impl Abort, alloc: Global, frame: &Frame, epoch: u32) -> Vec<u8> {
    assert!(rt; frame.is_well_formed());
    match encode(alloc, frame, epoch) {
        Ok(text) => text,
        Err(_) => encode(alloc, frame, epoch).expect(rt, "a second time"),
    }
}

/// Looks at what is written of a frame after a byte, and at the text alone.
fn look(rt: &impl Abort, alloc: Global, frame: &Frame, epoch: u32, wanted: &[u8]) {
    look_behind(rt, alloc, frame, epoch, wanted);
    let text = text(rt, alloc, frame, epoch);
    same_bytes(rt, &text, wanted);
}

static TEXTS: [(Sample, u32, &[u8]); 16] = [
    (
        Advise,
        1,
        b"\x02\x01\x00\x00\x00\x00\x00\x01\x00\x00\x00\x00",
    ),
    (
        Zero(0x10),
        1,
        b"\x02\x03\x00\x00\x00\x00\x00\x01\x00\x00\x00\x04\x00\x00\x00\x10",
    ),
    (
        Discard(((0x11, 1), (0, 0))),
        1,
        b"\x02\x04\x00\x00\x00\x00\x00\x01\x00\x00\x00\x0c\x00\x00\x00\x01\x00\x00\x00\x11\x00\x00\x00\x01",
    ),
    (
        End(0),
        1,
        b"\x02\x06\x00\x00\x00\x00\x00\x01\x00\x00\x00\x04\x00\x00\x00\x00",
    ),
    (
        Request(0x10),
        2,
        b"\x02\x81\x00\x00\x00\x00\x00\x02\x00\x00\x00\x04\x00\x00\x00\x10",
    ),
    (
        Recv(Received::Running, NONE),
        2,
        b"\x02\x82\x00\x00\x00\x00\x00\x02\x00\x00\x00\x05\x01\x00\x00\x00\x00",
    ),
    (Done, 1, b"\x02\x83\x00\x00\x00\x00\x00\x01\x00\x00\x00\x00"),
    (
        Resume,
        2,
        b"\x02\x07\x00\x00\x00\x00\x00\x02\x00\x00\x00\x00",
    ),
    (
        Zero(0xf_ffff),
        0xffff_ffff,
        b"\x02\x03\x00\x00\xff\xff\xff\xff\x00\x00\x00\x04\x00\x0f\xff\xff",
    ),
    (
        End(0x0102_0304),
        0x0a0b_0c0d,
        b"\x02\x06\x00\x00\x0a\x0b\x0c\x0d\x00\x00\x00\x04\x01\x02\x03\x04",
    ),
    (
        Discard(NONE),
        1,
        b"\x02\x04\x00\x00\x00\x00\x00\x01\x00\x00\x00\x04\x00\x00\x00\x00",
    ),
    (
        Discard(((0x10, 1), (0xf_fffe, 2))),
        1,
        b"\x02\x04\x00\x00\x00\x00\x00\x01\x00\x00\x00\x14\x00\x00\x00\x02\x00\x00\x00\x10\x00\x00\x00\x01\x00\x0f\xff\xfe\x00\x00\x00\x02",
    ),
    (
        Discard(((0x10, 2), (0x12, 1))),
        1,
        b"\x02\x04\x00\x00\x00\x00\x00\x01\x00\x00\x00\x0c\x00\x00\x00\x01\x00\x00\x00\x10\x00\x00\x00\x03",
    ),
    (
        Discard(((0x3ff, 0x102), (0x502, 1))),
        1,
        b"\x02\x04\x00\x00\x00\x00\x00\x01\x00\x00\x00\x14\x00\x00\x00\x02\x00\x00\x03\xff\x00\x00\x01\x02\x00\x00\x05\x02\x00\x00\x00\x01",
    ),
    (
        Recv(Received::NotRun, NONE),
        2,
        b"\x02\x82\x00\x00\x00\x00\x00\x02\x00\x00\x00\x05\x00\x00\x00\x00\x00",
    ),
    (
        Recv(Received::Ended, ((0x20, 3), (0, 0))),
        2,
        b"\x02\x82\x00\x00\x00\x00\x00\x02\x00\x00\x00\x0d\x02\x00\x00\x00\x01\x00\x00\x00\x20\x00\x00\x00\x03",
    ),
];

/// A frame, made again where memory was refused.
fn made_again(rt: &impl Abort, alloc: Global, sample: Sample) -> Frame {
    match made(rt, alloc, sample) {
        Ok(frame) => frame,
        Err(_) => made(rt, alloc, sample).expect(rt, "a second time"),
    }
}

/// Looks at the text of a row.
fn one_text(rt: &impl Abort, alloc: Global, sample: Sample, epoch: u32, wanted: &[u8]) {
    let frame = made_again(rt, alloc, sample);
    look(rt, alloc, &frame, epoch, wanted);
}

#[test]
fn small_frames(rt: HostRuntime) {
    for (sample, epoch, wanted) in &TEXTS {
        one_text(&rt, rt.alloc(), *sample, *epoch, *wanted);
    }
}

const NO_ACCESS: Prot = Prot::NoAccess;

const READ: Prot = Prot::Read;

const WRITE: Prot = Prot::ReadWrite;

const LOAD: Command = Command::Load {
    addr: 0x11000,
    width: 8,
};

const STORE: Command = Command::Store {
    addr: 0xabcd_ef04,
    width: 4,
    value: 0x89ab_cdef,
};

/// What is mapped and owed, and what two processors wait for.
type Parts = (Areas, Ranges, (Option<Command>, Option<Command>));

static PACKAGES: [(Parts, &[u8]); 4] = [
    (
        (
            ((0x10, 2, WRITE), (0, 0, READ)),
            ((0x11, 1), (0, 0)),
            (None, Some(LOAD)),
        ),
        b"\x02\x05\x00\x00\x00\x00\x00\x01\x00\x00\x00\x25\x00\x00\x00\x01\x00\x00\x00\x10\x00\x00\x00\x02\x02\x00\x00\x00\x01\x00\x00\x00\x11\x00\x00\x00\x01\x02\x00\x01\x00\x00\x00\x00\x00\x01\x10\x00\x08",
    ),
    (
        (((0x10, 1, READ), (0x11, 3, NO_ACCESS)), NONE, (None, None)),
        b"\x02\x05\x00\x00\x00\x00\x00\x01\x00\x00\x00\x1d\x00\x00\x00\x02\x00\x00\x00\x10\x00\x00\x00\x01\x01\x00\x00\x00\x11\x00\x00\x00\x03\x00\x00\x00\x00\x00\x02\x00\x00",
    ),
    (
        (
            ((0x10, 1, READ), (0x11, 3, READ)),
            NONE,
            (Some(STORE), None),
        ),
        b"\x02\x05\x00\x00\x00\x00\x00\x01\x00\x00\x00\x25\x00\x00\x00\x01\x00\x00\x00\x10\x00\x00\x00\x04\x01\x00\x00\x00\x00\x02\x02\x00\x00\x00\x00\xab\xcd\xef\x04\x04\x00\x00\x00\x00\x89\xab\xcd\xef\x00",
    ),
    (
        (
            ((0x10, 5, READ), (0x12, 1, WRITE)),
            ((0x10, 1), (0x12, 1)),
            (None, None),
        ),
        b"\x02\x05\x00\x00\x00\x00\x00\x01\x00\x00\x00\x36\x00\x00\x00\x03\x00\x00\x00\x10\x00\x00\x00\x02\x01\x00\x00\x00\x12\x00\x00\x00\x01\x02\x00\x00\x00\x13\x00\x00\x00\x02\x01\x00\x00\x00\x02\x00\x00\x00\x10\x00\x00\x00\x01\x00\x00\x00\x12\x00\x00\x00\x01\x02\x00\x00",
    ),
];

fn package_of(rt: &impl Abort, alloc: Global, parts: Parts) -> Result<Frame, NoMemory> {
    let (mapped, owed, (first, second)) = parts;
    let commands = Waiting::new(Vec::from_slice(alloc, &[first, second])?);
    package(rt, alloc, mapped, owed, commands)
}

/// A Package, made again where memory was refused.
fn package_again(rt: &impl Abort, alloc: Global, parts: Parts) -> Frame {
    match package_of(rt, alloc, parts) {
        Ok(frame) => frame,
        Err(_) => package_of(rt, alloc, parts).expect(rt, "a second time"),
    }
}

/// Looks at the text of a Package.
fn one_package(rt: &impl Abort, alloc: Global, parts: Parts, wanted: &[u8]) {
    let frame = package_again(rt, alloc, parts);
    look(rt, alloc, &frame, 1, wanted);
}

#[test]
fn packages(rt: HostRuntime) {
    for (parts, wanted) in &PACKAGES {
        one_package(&rt, rt.alloc(), *parts, *wanted);
    }
}

fn page(alloc: Global) -> Result<Frame, NoMemory> {
    Ok(Frame::Page {
        page: 0x10,
        bytes: PageBytes::copy_of(alloc, &[7; PAGE_BYTES])?,
    })
}

/// Two neighbouring pages, of one byte each.
fn run(alloc: Global) -> Result<Frame, NoMemory> {
    let mut pages = Vec::new(alloc);
    pages.push(PageBytes::copy_of(alloc, &[7; PAGE_BYTES])?)?;
    pages.push(PageBytes::copy_of(alloc, &[9; PAGE_BYTES])?)?;
    Ok(Frame::Run {
        first: 0x10,
        pages: Pages::new(pages),
    })
}

/// The page, made again where memory was refused.
fn page_again(rt: &impl Abort, alloc: Global) -> Frame {
    match page(alloc) {
        Ok(frame) => frame,
        Err(_) => page(alloc).expect(rt, "a second time"),
    }
}

/// The two pages, made again where memory was refused.
fn run_again(rt: &impl Abort, alloc: Global) -> Frame {
    match run(alloc) {
        Ok(frame) => frame,
        Err(_) => run(alloc).expect(rt, "a second time"),
    }
}

/// The front of a text, and as many bytes of 7 and then of 9.
fn text_of_pages(
    rt: &impl Abort,
    alloc: Global,
    front: &[u8],
    sevens: usize,
    nines: usize,
) -> Vec<u8> {
    let mut text = Vec::new(alloc);
    append(rt, &mut text, front);
    fill(rt, &mut text, 7, sevens);
    fill(rt, &mut text, 9, nines);
    text
}

static PAGE_FRONT: &[u8] = b"\x02\x02\x00\x00\x00\x00\x00\x01\x00\x00\x10\x04\x00\x00\x00\x10";

static RUN_FRONT: &[u8] =
    b"\x02\x08\x00\x00\x00\x00\x00\x01\x00\x00\x20\x08\x00\x00\x00\x10\x00\x00\x00\x02";

#[test]
fn a_page(rt: HostRuntime) {
    let frame = page_again(&rt, rt.alloc());
    let wanted = text_of_pages(&rt, rt.alloc(), PAGE_FRONT, PAGE_BYTES, 0);
    look(&rt, rt.alloc(), &frame, 1, &wanted);
}

#[test]
fn a_run_of_pages(rt: HostRuntime) {
    let frame = run_again(&rt, rt.alloc());
    let wanted = text_of_pages(&rt, rt.alloc(), RUN_FRONT, PAGE_BYTES, PAGE_BYTES);
    look(&rt, rt.alloc(), &frame, 1, &wanted);
}

/// Writes a page after a byte from where its bytes are.
fn page_behind(rt: &impl Abort, page: &[u8; PAGE_BYTES], bytes: &mut Vec<u8>) {
    append(rt, bytes, &[0xee]);
    if encode_page_into(0x10, page, 1, bytes).is_err() {
        is_behind(rt, bytes, &[]);
        encode_page_into(0x10, page, 1, bytes).expect(rt, "a second time");
    }
}

/// A page whose bytes are written from where they are, is written as its frame.
#[test]
fn a_page_from_its_place(rt: HostRuntime) {
    let mut bytes = Vec::new(rt.alloc());
    page_behind(&rt, &[7; PAGE_BYTES], &mut bytes);
    let wanted = text_of_pages(&rt, rt.alloc(), PAGE_FRONT, PAGE_BYTES, 0);
    is_behind(&rt, &bytes, &wanted);
}

/// The text in front of the bytes of pages, of which each number has bytes of its own.
#[test]
fn heads_of_pages(rt: HostRuntime) {
    same_bytes(&rt, &page_head(1, 0x10), PAGE_FRONT);
    same_bytes(&rt, &run_head(1, 0x10, 2), RUN_FRONT);
    same_bytes(
        &rt,
        &page_head(0x0102_0304, 0x000f_fffe),
        b"\x02\x02\x00\x00\x01\x02\x03\x04\x00\x00\x10\x04\x00\x0f\xff\xfe",
    );
    same_bytes(
        &rt,
        &run_head(0xffff_ffff, 0x000f_ffc0, 64),
        b"\x02\x08\x00\x00\xff\xff\xff\xff\x00\x04\x00\x08\x00\x0f\xff\xc0\x00\x00\x00\x40",
    );
}

/// A vector with room for bytes, once more where memory was refused.
fn room(rt: &impl Abort, alloc: Global, count: usize) -> Vec<u8> {
    match Vec::with_capacity(alloc, count) {
        Ok(bytes) => bytes,
        Err(_) => Vec::with_capacity(alloc, count).expect(rt, "a second time"),
    }
}

/// Writes a frame, for which no memory is taken.
fn write_in_room(rt: &impl Abort, frame: &Frame, bytes: &mut Vec<u8>, len: usize) {
    assert!(rt; write(rt, frame, 1, bytes).is_ok());
    same_number(rt, bytes.len(), len);
    same_number(rt, bytes.capacity(), 28);
}

/// Where there is room no memory is taken.
#[test]
fn in_the_room_that_is_there(rt: HostRuntime) {
    let mut bytes = room(&rt, rt.alloc(), 28);
    write_in_room(&rt, &Frame::Advise, &mut bytes, 12);
    write_in_room(&rt, &Frame::End { urgent: 0 }, &mut bytes, 28);
}

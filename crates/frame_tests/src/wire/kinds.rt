//! Each kind of frame, byte by byte.

use crate::decoder::reading::{read_again, write};
use crate::parts::{append, fill, same_bytes};
use mig_base::{NoMemory, PAGE_BYTES};
use page_stream::Frame;
use std::alloc::Global;
use std::process::Abort;
use wires::{Sent, Wire};

/// Texts of frames, and how many bytes of 7 are after each.
pub(crate) static TEXTS: [(&[u8], usize); 11] = [
    (b"\x02\x01\x00\x00\x00\x00\x00\x01\x00\x00\x00\x00", 0),
    (
        b"\x02\x02\x00\x00\x00\x00\x00\x01\x00\x00\x10\x04\x00\x00\x00\x10",
        PAGE_BYTES,
    ),
    (
        b"\x02\x03\x00\x00\xff\xff\xff\xff\x00\x00\x00\x04\x00\x0f\xff\xff",
        0,
    ),
    (
        b"\x02\x08\x00\x00\x00\x00\x00\x01\x00\x00\x20\x08\x00\x00\x00\x10\x00\x00\x00\x02",
        2 * PAGE_BYTES,
    ),
    (
        b"\x02\x04\x00\x00\x00\x00\x00\x01\x00\x00\x00\x14\x00\x00\x00\x02\x00\x00\x03\xff\x00\x00\x01\x02\x00\x00\x05\x02\x00\x00\x00\x01",
        0,
    ),
    (
        b"\x02\x05\x00\x00\x00\x00\x00\x01\x00\x00\x00\x25\x00\x00\x00\x01\x00\x00\x00\x10\x00\x00\x00\x02\x02\x00\x00\x00\x01\x00\x00\x00\x11\x00\x00\x00\x01\x02\x00\x01\x00\x00\x00\x00\x00\x01\x10\x00\x08",
        0,
    ),
    (
        b"\x02\x06\x00\x00\x0a\x0b\x0c\x0d\x00\x00\x00\x04\x01\x02\x03\x04",
        0,
    ),
    (b"\x02\x07\x00\x00\x00\x00\x00\x02\x00\x00\x00\x00", 0),
    (
        b"\x02\x81\x00\x00\x00\x00\x00\x02\x00\x00\x00\x04\x00\x00\x00\x10",
        0,
    ),
    (
        b"\x02\x82\x00\x00\x00\x00\x00\x02\x00\x00\x00\x0d\x02\x00\x00\x00\x01\x00\x00\x00\x20\x00\x00\x00\x03",
        0,
    ),
    (b"\x02\x83\x00\x00\x00\x00\x00\x01\x00\x00\x00\x00", 0),
];

/// The text of a row.
pub(crate) fn text(rt: &impl Abort, alloc: Global, front: &[u8], sevens: usize) -> Vec<u8> {
    let mut bytes = Vec::new(alloc);
    append(rt, &mut bytes, front);
    fill(rt, &mut bytes, 7, sevens);
    bytes
}

/// Makes room for a frame, and sends it.
fn send(rt: &impl Abort, wire: &mut Wire, epoch: u32, frame: Frame) {
    assert!(rt; frame.is_well_formed());
    if wire.reserve(1).is_err() {
        wire.reserve(1).expect(rt, "a second time");
    }
    wire.push(epoch, frame);
}

/// Sends the frame that some bytes spell, in its epoch or in another.
pub(crate) fn send_text(
    rt: &impl Abort,
    alloc: Global,
    wire: &mut Wire,
    bytes: &[u8],
    epoch: Option<u32>,
) {
    match read_again(alloc, bytes) {
        Ok(Some((own, frame))) => send(rt, wire, epoch.unwrap_or(own), frame),
        _ => assert!(rt; false),
    }
}

/// `n` bytes come, and once more if memory was refused.
fn arrive(wire: &mut Wire, n: u64) -> Result<Option<Sent>, NoMemory> {
    match wire.arrive(n) {
        Ok(arrived) => Ok(arrived),
        Err(_) => wire.arrive(n),
    }
}

/// Whether a frame is complete once another byte has arrived. Its text is written.
fn came(rt: &impl Abort, wire: &mut Wire, text: &mut Vec<u8>) -> bool {
    match arrive(wire, 1) {
        Ok(Some(sent)) => {
            assert!(rt; write(rt, &sent.frame, sent.epoch, text).is_ok());
            true
        }
        Ok(None) => false,
        Err(NoMemory) => {
            assert!(rt; false);
            false
        }
    }
}

/// The epoch of the first frame, if one is in flight, all of whose bytes come.
fn first_epoch(wire: &mut Wire) -> Option<u32> {
    match arrive(wire, u64::MAX) {
        Ok(Some(sent)) => Some(sent.epoch),
        _ => None,
    }
}

/// Each of these bytes but the last leaves the frame waiting.
fn waits(rt: &impl Abort, wire: &mut Wire, bytes: &[u8], text: &mut Vec<u8>) {
    for _ in 1..bytes.len() {
        assert!(rt; !came(rt, wire, text));
    }
}

/// With one byte more the frame has arrived whose text these bytes are.
fn comes(rt: &impl Abort, alloc: Global, wire: &mut Wire, bytes: &[u8]) {
    let mut text = Vec::new(alloc);
    assert!(rt; came(rt, wire, &mut text));
    same_bytes(rt, &text, bytes);
}

/// A frame comes byte by byte, and its last byte twice.
fn by_bytes(rt: &impl Abort, alloc: Global, wire: &mut Wire, bytes: &[u8]) {
    waits(rt, wire, bytes, &mut Vec::new(alloc));
    comes(rt, alloc, wire, bytes);
    comes(rt, alloc, wire, bytes);
    wire.drop_first();
}

/// The frame of a row is sent and comes.
fn one_kind(rt: &impl Abort, alloc: Global, wire: &mut Wire, front: &[u8], sevens: usize) {
    let bytes = text(rt, alloc, front, sevens);
    send_text(rt, alloc, wire, &bytes, None);
    by_bytes(rt, alloc, wire, &bytes);
    assert!(rt; wire.is_empty());
}

#[test]
fn each_kind_of_frame(rt: HostRuntime) {
    let mut wire = Wire::new(rt.alloc());
    for (front, sevens) in &TEXTS {
        one_kind(&rt, rt.alloc(), &mut wire, *front, *sevens);
    }
}

/// The first frame is taken off, if it was sent in that epoch.
fn take(rt: &impl Abort, wire: &mut Wire, epoch: u32) {
    assert!(rt; !wire.is_empty());
    assert!(rt; first_epoch(wire) == Some(epoch));
    wire.drop_first();
}

/// Makes room for a page, and sends it from where its bytes are.
fn send_page(rt: &impl Abort, wire: &mut Wire, page: &[u8; PAGE_BYTES]) {
    if wire.reserve(1).is_err() {
        wire.reserve(1).expect(rt, "a second time");
    }
    wire.push_page(1, 0x10, page);
}

/// A page that is sent from where its bytes stand comes as any other.
#[test]
fn a_page_from_its_place(rt: HostRuntime) {
    let mut wire = Wire::new(rt.alloc());
    send_page(&rt, &mut wire, &[7; PAGE_BYTES]);
    send(&rt, &mut wire, 1, Frame::End { urgent: 0 });
    let (front, sevens) = TEXTS[1];
    let bytes = text(&rt, rt.alloc(), front, sevens);
    by_bytes(&rt, rt.alloc(), &mut wire, &bytes);
    take(&rt, &mut wire, 1);
    assert!(&rt; wire.is_empty());
}

/// The front of a run of 64 pages.
static LONG_RUN: &[u8] =
    b"\x02\x08\x00\x00\x00\x00\x00\x01\x00\x04\x00\x08\x00\x00\x00\x10\x00\x00\x00\x40";

/// Sends 120 frames, one in each epoch from 0 on.
fn send_many(rt: &impl Abort, alloc: Global, wire: &mut Wire, bytes: &[u8]) {
    for epoch in 0..120 {
        send_text(rt, alloc, wire, bytes, Some(epoch));
    }
}

/// Takes them off, and sends another 120.
fn turn_many(rt: &impl Abort, alloc: Global, wire: &mut Wire, bytes: &[u8]) {
    for epoch in 0..120 {
        take(rt, wire, epoch);
        send_text(rt, alloc, wire, bytes, Some(120 + epoch));
    }
}

/// Takes those off.
fn take_many(rt: &impl Abort, wire: &mut Wire) {
    for epoch in 120..240 {
        take(rt, wire, epoch);
    }
}

/// 30 MB are in flight, more than a wire holds in one piece; frames come in the order in which they were sent, while others are sent.
#[test]
fn many_frames_in_flight(rt: HostRuntime) {
    let mut wire = Wire::new(rt.alloc());
    let bytes = text(&rt, rt.alloc(), LONG_RUN, 64 * PAGE_BYTES);
    send_many(&rt, rt.alloc(), &mut wire, &bytes);
    turn_many(&rt, rt.alloc(), &mut wire, &bytes);
    take_many(&rt, &mut wire);
    assert!(&rt; wire.is_empty());
}

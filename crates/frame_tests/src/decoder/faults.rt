//! Faults: each where it first stands, and again until the decoder is reset.

use super::reading::{completes, feed, text, waits};
use crate::parts::same_number;
use frame_decoder::{Decoder, StreamFault};
use mig_base::PAGE_BYTES;
use std::alloc::Global;
use std::process::Abort;

const TAG: StreamFault = StreamFault::BadTag;

const LENGTH: StreamFault = StreamFault::BadLength;

const FIELD: StreamFault = StreamFault::BadField;

/// Bytes with one fault each.
pub static FAULTS: [(&[u8], StreamFault); 23] = [
    // A tag that is not known, a version that is not, and a run in version 1.
    (b"\x01\x09\x00\x00\x00\x00\x00\x01\x00\x00\x00\x00", TAG),
    (b"\x03\x01\x00\x00\x00\x00\x00\x01\x00\x00\x00\x00", TAG),
    (b"\x00\x01\x00\x00\x00\x00\x00\x01\x00\x00\x00\x00", TAG),
    (b"\x01\x08\x00\x00\x00\x00\x00\x01\x00\x00\x10\x08", TAG),
    // The tag comes before the length and the spare bytes.
    (b"\x02\x84\x01\x00\x00\x00\x00\x01\x00\x00\x00\x01", TAG),
    // Lengths: of a Zero, of a Page, of a Discard, of a Recv and of a Package; the last two fit version 2.
    (b"\x01\x03\x00\x00\x00\x00\x00\x01\x00\x00\x00\x03", LENGTH),
    (b"\x02\x02\x00\x00\x00\x00\x00\x01\x00\x00\x10\x05", LENGTH),
    (b"\x02\x04\x00\x00\x00\x00\x00\x01\x00\x40\x00\x0c", LENGTH),
    (b"\x01\x82\x00\x00\x00\x00\x00\x01\x00\x02\x00\x0d", LENGTH),
    (b"\x01\x05\x00\x00\x00\x00\x00\x01\x00\x04\x41\x2a", LENGTH),
    // The length comes before the spare bytes.
    (b"\x01\x03\x01\x00\x00\x00\x00\x01\x00\x00\x00\x03", LENGTH),
    (b"\x01\x03\x00\x01\x00\x00\x00\x01\x00\x00\x00\x04", FIELD),
    (b"\x01\x03\x01\x00\x00\x00\x00\x01\x00\x00\x00\x04", FIELD),
    // Pages below and above the address space.
    (
        b"\x02\x03\x00\x00\x00\x00\x00\x01\x00\x00\x00\x04\x00\x00\x00\x0f",
        FIELD,
    ),
    (
        b"\x02\x81\x00\x00\x00\x00\x00\x01\x00\x00\x00\x04\x00\x10\x00\x00",
        FIELD,
    ),
    // Runs that touch, an empty run, and a count that is less than the body has.
    (
        b"\x02\x04\x00\x00\x00\x00\x00\x01\x00\x00\x00\x14\x00\x00\x00\x02\x00\x00\x00\x10\x00\x00\x00\x01\x00\x00\x00\x11\x00\x00\x00\x01",
        FIELD,
    ),
    (
        b"\x02\x04\x00\x00\x00\x00\x00\x01\x00\x00\x00\x0c\x00\x00\x00\x01\x00\x00\x00\x10\x00\x00\x00\x00",
        FIELD,
    ),
    (
        b"\x02\x04\x00\x00\x00\x00\x00\x01\x00\x00\x00\x0c\x00\x00\x00\x00\x00\x00\x00\x10\x00\x00\x00\x01",
        FIELD,
    ),
    // More pages than version 1 has.
    (
        b"\x01\x82\x00\x00\x00\x00\x00\x01\x00\x00\x00\x0d\x01\x00\x00\x00\x01\x00\x00\x00\x10\x00\x00\x40\x01",
        FIELD,
    ),
    // A state that is not known.
    (
        b"\x02\x82\x00\x00\x00\x00\x00\x01\x00\x00\x00\x05\x03\x00\x00\x00\x00",
        FIELD,
    ),
    // Areas of one protection that touch, a load of 3 bytes, and no processors.
    (
        b"\x02\x05\x00\x00\x00\x00\x00\x01\x00\x00\x00\x1c\x00\x00\x00\x02\x00\x00\x00\x10\x00\x00\x00\x01\x01\x00\x00\x00\x11\x00\x00\x00\x01\x01\x00\x00\x00\x00\x01\x00",
        FIELD,
    ),
    (
        b"\x02\x05\x00\x00\x00\x00\x00\x01\x00\x00\x00\x13\x00\x00\x00\x00\x00\x00\x00\x00\x01\x01\x00\x00\x00\x00\x00\x01\x10\x00\x03",
        FIELD,
    ),
    (
        b"\x02\x05\x00\x00\x00\x00\x00\x01\x00\x00\x00\x0a\x00\x00\x00\x00\x00\x00\x00\x00\x00\x00",
        FIELD,
    ),
];

static ADVISE_ONE: &[u8] = b"\x01\x01\x00\x00\x00\x00\x00\x01\x00\x00\x00\x00";

static ADVISE_TWO: &[u8] = b"\x02\x01\x00\x00\x00\x00\x00\x01\x00\x00\x00\x00";

/// Stops unless the piece is answered by the fault.
fn fails(rt: &impl Abort, alloc: Global, decoder: &mut Decoder, piece: &[u8], wanted: StreamFault) {
    let mut texts = Vec::new(alloc);
    assert!(rt; feed(rt, decoder, piece, &mut texts) == Err(wanted));
}

/// A copy of a decoder, at the second try where memory is refused.
fn copied(rt: &impl Abort, decoder: &Decoder) -> Decoder {
    match decoder.copy() {
        Ok(copy) => copy,
        Err(_) => decoder.copy().expect(rt, "a second time"),
    }
}

/// Stops unless the piece is answered by the fault, if it is fed to a copy.
fn copy_fails(
    rt: &impl Abort,
    alloc: Global,
    decoder: &Decoder,
    piece: &[u8],
    wanted: StreamFault,
) {
    let mut copy = copied(rt, decoder);
    fails(rt, alloc, &mut copy, piece, wanted);
}

/// The fault is answered again, also by a copy, until the decoder is reset.
fn stays(rt: &impl Abort, alloc: Global, decoder: &mut Decoder, wanted: StreamFault) {
    same_number(rt, decoder.missing(), 0);
    fails(rt, alloc, decoder, &[], wanted);
    copy_fails(rt, alloc, decoder, ADVISE_ONE, wanted);
    decoder.reset();
    completes(rt, alloc, decoder, ADVISE_ONE, ADVISE_ONE);
}

/// The fault is not answered before the last byte, and then again.
fn one_fault(rt: &impl Abort, alloc: Global, bytes: &[u8], wanted: StreamFault) {
    let mut decoder = Decoder::new(alloc);
    if let [front @ .., last] = bytes {
        waits(rt, alloc, &mut decoder, front);
        same_number(rt, decoder.missing(), 1);
        fails(rt, alloc, &mut decoder, &[*last], wanted);
    }
    stays(rt, alloc, &mut decoder, wanted);
}

#[test]
fn faults_stand_where_they_are(rt: HostRuntime) {
    for (bytes, fault) in &FAULTS {
        one_fault(&rt, rt.alloc(), *bytes, *fault);
    }
}

/// A run whose count is more than its bytes.
#[test]
fn a_run_is_as_long_as_it_says(rt: HostRuntime) {
    let front = b"\x08\x00\x00\x00\x00\x00\x01\x00\x00\x10\x08\x00\x00\x00\x10\x00\x00\x00\x02";
    let bytes = text(&rt, rt.alloc(), 2, front, PAGE_BYTES, 0);
    one_fault(&rt, rt.alloc(), &bytes, FIELD);
}

/// An Advise, the header of a frame with a tag that is not known, and a byte more.
static ADVISE_AND_FAULT: &[u8] =
    b"\x02\x01\x00\x00\x00\x00\x00\x01\x00\x00\x00\x00\x02\x09\x00\x00\x00\x00\x00\x01\x00\x00\x00\x00\x02";

/// The frames before a fault are answered first.
#[test]
fn frames_before_a_fault(rt: HostRuntime) {
    let mut decoder = Decoder::new(rt.alloc());
    completes(&rt, rt.alloc(), &mut decoder, ADVISE_AND_FAULT, ADVISE_TWO);
    fails(&rt, rt.alloc(), &mut decoder, &[], TAG);
    fails(&rt, rt.alloc(), &mut decoder, ADVISE_TWO, TAG);
}

/// The first frame fixes the version, also of a copy, until the decoder is reset.
fn fixes(rt: &impl Abort, alloc: Global, first: &[u8], other: &[u8]) {
    let mut decoder = Decoder::new(alloc);
    completes(rt, alloc, &mut decoder, first, first);
    copy_fails(rt, alloc, &decoder, other, TAG);
    fails(rt, alloc, &mut decoder, other, TAG);
    decoder.reset();
    completes(rt, alloc, &mut decoder, other, other);
}

#[test]
fn one_version(rt: HostRuntime) {
    fixes(&rt, rt.alloc(), ADVISE_ONE, ADVISE_TWO);
    fixes(&rt, rt.alloc(), ADVISE_TWO, ADVISE_ONE);
}

//! The bytes of a wire, piece by piece.

use super::kinds::{TEXTS, send_text, text};
use crate::decoder::reading::feed;
use crate::parts::{append, fill, same_bytes, same_number};
use frame_decoder::Decoder;
use std::alloc::Global;
use std::process::Abort;
use wires::Wire;

/// The frames that one chunk has room for at the least, however long they are: where any byte was written, the next chunk is begun.
const CHUNK_FRAMES: usize = 4;

/// Sends the frame of a row, which is the first of its chunk.
fn send_apart(rt: &impl Abort, alloc: Global, wire: &mut Wire, front: &[u8], sevens: usize) {
    if wire.reserve(CHUNK_FRAMES).is_err() {
        wire.reserve(CHUNK_FRAMES).expect(rt, "a second time");
    }
    let bytes = text(rt, alloc, front, sevens);
    send_text(rt, alloc, wire, &bytes, None);
}

fn send_all(rt: &impl Abort, alloc: Global, wire: &mut Wire) {
    for (front, sevens) in &TEXTS {
        send_apart(rt, alloc, wire, *front, *sevens);
    }
}

/// The bytes of a wire.
fn joined(rt: &impl Abort, alloc: Global, wire: &Wire) -> Vec<u8> {
    let mut all = Vec::new(alloc);
    for index in 0..wire.pieces() {
        append(rt, &mut all, wire.piece(index));
    }
    all
}

/// The texts of the frames from one on, joined.
fn texts_from(rt: &impl Abort, alloc: Global, first: usize) -> Vec<u8> {
    let mut all = Vec::new(alloc);
    for (front, sevens) in TEXTS.iter().skip(first) {
        append(rt, &mut all, *front);
        fill(rt, &mut all, 7, *sevens);
    }
    all
}

/// Feeds the pieces of a wire to a decoder, and writes the frames that it returns.
fn feed_pieces(rt: &impl Abort, wire: &Wire, decoder: &mut Decoder, texts: &mut Vec<u8>) {
    for index in 0..wire.pieces() {
        assert!(rt; feed(rt, decoder, wire.piece(index), texts).is_ok());
    }
}

/// Stops unless a decoder reads the frames of these texts from the pieces of a wire.
fn is_read(rt: &impl Abort, alloc: Global, wire: &Wire, wanted: &[u8]) {
    let mut decoder = Decoder::new(alloc);
    let mut texts = Vec::new(alloc);
    feed_pieces(rt, wire, &mut decoder, &mut texts);
    same_number(rt, decoder.missing(), 12);
    same_bytes(rt, &texts, wanted);
}

/// Stops unless the wire has the texts of the frames from one on, in pieces that a decoder reads.
fn look(rt: &impl Abort, alloc: Global, wire: &Wire, first: usize) {
    let wanted = texts_from(rt, alloc, first);
    let bytes = joined(rt, alloc, wire);
    same_bytes(rt, &bytes, &wanted);
    is_read(rt, alloc, wire, &wanted);
}

/// Some bytes come, which complete no frame.
fn arrive(rt: &impl Abort, wire: &mut Wire) {
    match wire.arrive(5) {
        Ok(None) => {}
        _ => assert!(rt; false),
    }
}

/// One of each kind is in flight, each in a chunk of its own. The bytes of the wire are their texts, until they are taken off or lost.
#[test]
fn the_bytes_of_a_wire(rt: HostRuntime) {
    let mut wire = Wire::new(rt.alloc());
    send_all(&rt, rt.alloc(), &mut wire);
    assert!(&rt; wire.pieces() > TEXTS.len());
    look(&rt, rt.alloc(), &wire, 0);
    arrive(&rt, &mut wire);
    assert!(&rt; wire.held() == 5);
    look(&rt, rt.alloc(), &wire, 0);
    wire.drop_first();
    assert!(&rt; wire.held() == 0);
    look(&rt, rt.alloc(), &wire, 1);
    wire.drop_first();
    look(&rt, rt.alloc(), &wire, 2);
    wire.clear();
    look(&rt, rt.alloc(), &wire, TEXTS.len());
}

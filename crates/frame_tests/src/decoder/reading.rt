//! Feeding a decoder. The frames that it returns are written again, so that the tests compare bytes.

use crate::parts::{append, fill, same_bytes};
use frame_decoder::{Decoder, StreamFault, read_text};
use mig_base::NoMemory;
use page_stream::{Frame, encode_into};
use std::alloc::Global;
use std::process::Abort;

/// Puts the text of a frame after others, at the second try where memory is refused.
pub fn write(
    rt: &impl Abort,
    frame: &Frame,
    epoch: u32,
    texts: &mut Vec<u8>,
) -> Result<(), NoMemory> {
    assert!(rt; frame.is_well_formed());
    match encode_into(frame, epoch, texts) {
        Ok(()) => Ok(()),
        Err(_) => encode_into(frame, epoch, texts),
    }
}

/// Puts the texts of frames after others, and returns how many they are.
fn write_all(
    rt: &impl Abort,
    frames: &[(u32, Frame)],
    texts: &mut Vec<u8>,
) -> Result<usize, StreamFault> {
    for (epoch, frame) in frames {
        if write(rt, frame, *epoch, texts).is_err() {
            return Err(StreamFault::NoMemory);
        }
    }
    Ok(frames.len())
}

/// Reads the bytes of one text, and once more where memory was refused.
pub fn read_again(alloc: Global, bytes: &[u8]) -> Result<Option<(u32, Frame)>, NoMemory> {
    match read_text(alloc, bytes) {
        Ok(read) => Ok(read),
        Err(_) => read_text(alloc, bytes),
    }
}

/// Feeds a piece, and once more where memory was refused.
fn fed(decoder: &mut Decoder, piece: &[u8]) -> Result<Vec<(u32, Frame)>, StreamFault> {
    match decoder.feed(piece) {
        Err(StreamFault::NoMemory) => decoder.feed(piece),
        answer => answer,
    }
}

/// Feeds a piece, and puts the texts of the frames that it returns after others. Returns how many frames they are.
pub fn feed(
    rt: &impl Abort,
    decoder: &mut Decoder,
    piece: &[u8],
    texts: &mut Vec<u8>,
) -> Result<usize, StreamFault> {
    match fed(decoder, piece) {
        Ok(frames) => write_all(rt, &frames, texts),
        Err(fault) => Err(fault),
    }
}

/// The texts of the frames that are answered to a piece: none at a fault.
pub fn texts(rt: &impl Abort, alloc: Global, decoder: &mut Decoder, piece: &[u8]) -> Vec<u8> {
    let mut texts = Vec::new(alloc);
    let answer = feed(rt, decoder, piece, &mut texts);
    assert!(rt; answer != Err(StreamFault::NoMemory));
    texts
}

/// Stops unless bytes begin with the texts that were written of them, the version of the first aside.
pub fn is_front(rt: &impl Abort, texts: &[u8], bytes: &[u8]) {
    assert!(rt; texts.get(1..) == bytes.get(1..texts.len()));
}

/// Stops unless a text was written of all these bytes, the version aside.
pub fn is_whole(rt: &impl Abort, text: &[u8], bytes: &[u8]) {
    if let ([_, text @ ..], [_, bytes @ ..]) = (text, bytes) {
        same_bytes(rt, text, bytes);
    } else {
        assert!(rt; false);
    }
}

/// Stops unless nothing is answered to a piece.
pub fn waits(rt: &impl Abort, alloc: Global, decoder: &mut Decoder, piece: &[u8]) {
    let texts = texts(rt, alloc, decoder, piece);
    assert!(rt; texts.is_empty());
}

/// Stops unless a piece completes the text that is these bytes.
pub fn completes(
    rt: &impl Abort,
    alloc: Global,
    decoder: &mut Decoder,
    piece: &[u8],
    bytes: &[u8],
) {
    let text = texts(rt, alloc, decoder, piece);
    is_whole(rt, &text, bytes);
}

/// A text in a version: its bytes, and as many more of 7 and then of 9.
pub fn text(
    rt: &impl Abort,
    alloc: Global,
    version: u8,
    front: &[u8],
    sevens: usize,
    nines: usize,
) -> Vec<u8> {
    let mut bytes = Vec::new(alloc);
    append(rt, &mut bytes, &[version]);
    append(rt, &mut bytes, front);
    fill(rt, &mut bytes, 7, sevens);
    fill(rt, &mut bytes, 9, nines);
    bytes
}

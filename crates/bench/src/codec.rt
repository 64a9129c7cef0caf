//! Page frames that are written and read again.

use crate::failure::Failed;
use frame_decoder::Decoder;
use mig_base::{LOW_PAGE, PAGE_BYTES, PageBytes};
use page_stream::{Frame, encode_into};
use std::alloc::Global;

/// The epoch of all frames.
const EPOCH: u32 = 1;

/// The frame of a page with something on it.
fn frame(alloc: Global, index: u32) -> Result<Frame, Failed> {
    let Ok(bytes) = PageBytes::copy_of(alloc, &[1; PAGE_BYTES]) else {
        return Err(Failed);
    };
    Ok(Frame::Page {
        page: LOW_PAGE.wrapping_add(index),
        bytes,
    })
}

/// The frames of this many pages.
pub fn frames(alloc: Global, pages: u32) -> Result<Vec<Frame>, Failed> {
    let mut frames = Vec::new(alloc);
    for index in 0..pages {
        let Ok(()) = frames.push(frame(alloc, index)?) else {
            return Err(Failed);
        };
    }
    Ok(frames)
}

/// Writes the frames one after the other.
pub fn write_all(frames: &[Frame], stream: &mut Vec<u8>) -> Result<(), Failed> {
    for frame in frames {
        if !frame.is_well_formed() {
            return Err(Failed);
        }
        let Ok(()) = encode_into(frame, EPOCH, stream) else {
            return Err(Failed);
        };
    }
    Ok(())
}

/// Feeds a piece, drops its frames, and gives their number.
fn feed(decoder: &mut Decoder, piece: &[u8]) -> Result<usize, Failed> {
    match decoder.feed(piece) {
        Ok(frames) => Ok(frames.len()),
        Err(_) => Err(Failed),
    }
}

/// Feeds a stream in pieces of `piece` bytes, and returns the number of its frames.
pub fn feed_all(decoder: &mut Decoder, stream: &[u8], piece: usize) -> Result<usize, Failed> {
    let mut count = 0_usize;
    for bytes in stream.chunks(piece.max(1)) {
        count = count.saturating_add(feed(decoder, bytes)?);
    }
    Ok(count)
}

/// Writes the frames over the stream and reads them, `rounds` times.
pub fn write_and_read(
    decoder: &mut Decoder,
    frames: &[Frame],
    stream: &mut Vec<u8>,
    piece: usize,
    rounds: u32,
) -> Result<(), Failed> {
    for _ in 0..rounds {
        stream.clear();
        write_all(frames, stream)?;
        if feed_all(decoder, stream, piece)? != frames.len() {
            return Err(Failed);
        }
    }
    Ok(())
}

/// Reads the stream of `frames` frames, `rounds` times.
pub fn read_again(
    decoder: &mut Decoder,
    stream: &[u8],
    piece: usize,
    frames: usize,
    rounds: u32,
) -> Result<(), Failed> {
    for _ in 0..rounds {
        if feed_all(decoder, stream, piece)? != frames {
            return Err(Failed);
        }
    }
    Ok(())
}

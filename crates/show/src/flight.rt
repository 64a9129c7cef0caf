//! The frames in flight on a wire, read from its bytes.

use frame_decoder::Decoder;
use mig_base::{HIGH_PAGE, NoMemory, PageSet};
use page_stream::Frame;
use std::alloc::Global;
use wires::Wire;

/// The frames on a wire, each with its epoch, in the order in which they are taken.
pub(crate) fn frames_on(alloc: Global, wire: &Wire) -> Result<Vec<(u32, Frame)>, NoMemory> {
    let mut decoder = Decoder::new(alloc);
    let mut frames = Vec::new(alloc);
    for index in 0..wire.pieces() {
        // The bytes on a wire are texts of frames, so that only memory can be lacking.
        let Ok(sent) = decoder.feed(wire.piece(index)) else {
            return Err(NoMemory);
        };
        for one in sent {
            frames.push(one)?;
        }
    }
    Ok(frames)
}

/// The pages that the frames on a wire have or ask for, one in each frame.
pub(crate) fn pages_on(alloc: Global, wire: &Wire) -> Result<PageSet, NoMemory> {
    let mut pages = PageSet::new(alloc);
    for (_, frame) in &frames_on(alloc, wire)? {
        match frame {
            Frame::Page { page, .. } | Frame::Zero { page } | Frame::Request { page }
                if *page < HIGH_PAGE => {
                pages.insert(*page)?;
            }
            _ => {}
        }
    }
    Ok(pages)
}

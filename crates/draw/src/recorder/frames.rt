//! The frames on a wire, read from its bytes.

use frame_decoder::{Decoder, StreamFault};
use page_stream::Frame;
use std::alloc::Global;
use wires::Wire;
use world::World;

/// How many bytes are in flight on each wire.
#[derive(Clone, Copy)]
pub(super) struct InFlight {
    pub(super) forward: u64,
    pub(super) urgent: u64,
    pub(super) back: u64,
}

impl InFlight {
    /// The counts of a world.
    pub(super) fn of(world: &World) -> InFlight {
        InFlight {
            forward: world.forward_bytes(),
            urgent: world.urgent_bytes(),
            back: world.back_bytes(),
        }
    }
}

/// The frames on a wire after its first `known` bytes, which are whole frames, each with its epoch.
pub(super) fn frames_after(
    alloc: Global,
    wire: &Wire,
    known: u64,
) -> Result<Vec<(u32, Frame)>, StreamFault> {
    let mut decoder = Decoder::new(alloc);
    let mut frames = Vec::new(alloc);
    let mut left = known;
    for index in 0..wire.pieces() {
        let piece = wire.piece(index);
        let skipped = left.min(piece.len() as u64);
        left -= skipped;
        for sent in decoder.feed(&piece[skipped as usize..])? {
            frames.push(sent)?;
        }
    }
    Ok(frames)
}

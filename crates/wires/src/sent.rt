//! Frames in flight.

use page_stream::Frame;

/// A frame, and the epoch in which it was sent.
#[derive(Drop)]
pub struct Sent {
    pub epoch: u32,
    pub frame: Frame,
}

//! Frames that were decoded, and wait to be handed out.

ghost use Rattle.std.specs.Prelude.{◌≡◌, ◌≢◌, ◌≤◌, ◌<◌, [], length, drop, IfOk, OnOk, OnErr, IfErr, IfSome, IfNone, IsTrue, ◌↔◌, Err};
ghost use Rattle.frame_decoder.specs.Streams.{sents};
ghost use Rattle.postmig_c.specs.Queues.{Queue, coded_queue, empty_queue, AreWellFormed, Feeds, Refills, Shows, IsFedUp, QueueStops, DropsFirst};

use crate::numbers::{FrameNumbers, numbers_of};
use frame_decoder::{Decoder, StreamFault};
use mig_base::NoMemory;
use page_stream::{Frame, encode_into};
use std::alloc::Global;
use std::marker::Model;

/// Why a piece is not taken. Nothing changes then.
#[derive(Clone, Copy)]
pub(crate) enum FeedFault {
    /// Frames of the pieces before it wait.
    Waiting,
    /// An allocation failed.
    NoMemory,
}

/// A decoder, and the frames that it returned and that were not handed out yet.
#[derive(Drop)]
pub(crate) struct FrameQueue {
    decoder: Decoder,
    /// The frames that the decoder returned last.
    frames: Vec<(u32, Frame)>,
    /// The number of those that were handed out.
    handed: usize,
    /// The text of the frame that was shown last.
    text: Vec<u8>,
}

impl Model for FrameQueue {
    ghost Value = { Queue };

    ghost coded = { coded_queue };

    ghost view = { λ q. record { decoder = q.decoder; waiting = sents (drop q.handed q.frames.items); text = q.text.items } };

    ghost invariant = { λ q. (q.handed ≤ length q.frames.items) × AreWellFormed (sents q.frames.items) };
}

/// Whether a piece was taken at which a decoder returned a fault: all but `NoMemory` are those of the stream.
fn taken_despite(fault: StreamFault) -> Result<(), FeedFault>
    ensures ok { OnOk result (fault ≢ StreamFault.NoMemory) }
    ensures err { IfErr result (λ refusal.
        (refusal ≡ FeedFault.NoMemory) × (fault ≡ StreamFault.NoMemory)) }
{
    match fault {
        StreamFault::NoMemory => Err(FeedFault::NoMemory),
        StreamFault::BadTag | StreamFault::BadLength | StreamFault::BadField => Ok(()),
    }
}

impl FrameQueue {
    /// A queue of a stream of which nothing has come. It takes no memory.
    pub(crate) fn new(alloc: Global) -> FrameQueue
        ensures { result ≡ empty_queue }
    {
        FrameQueue {
            decoder: Decoder::new(alloc),
            frames: Vec::new(alloc),
            handed: 0,
            text: Vec::new(alloc),
        }
    }

    /// Whether a frame waits.
    fn has_frame(&self) -> bool
        ensures { IsTrue result ↔ (0 < length self.now.waiting) }
    {
        self.handed < self.frames.len()
    }

    /// Takes the next piece, if no frame waits. A fault of the stream is not returned here, but by [`show`](FrameQueue::show).
    pub(crate) fn feed(&mut self, piece: &[u8]) -> Result<(), FeedFault>
        ensures ok { OnOk result (Feeds self.old piece.now self.new) }
        ensures err { OnErr result (self.new ≡ self.old) }
        ensures waiting { result ≡ Err FeedFault.Waiting → 0 < length self.old.waiting }
    {
        if self.has_frame() {
            return Err(FeedFault::Waiting);
        }
        match self.decoder.feed(piece) {
            Ok(frames) => {
                self.frames = frames;
                self.handed = 0;
                Ok(())
            }
            Err(fault) => taken_despite(fault),
        }
    }

    /// Feeds the decoder nothing if no frame waits: it then returns the fault after the last frame.
    fn refill(&mut self) -> Result<(), StreamFault>
        ensures ok { OnOk result (Refills self.old self.new) }
        ensures fault { IfErr result (λ fault. QueueStops self.old fault self.new) }
    {
        if self.has_frame() {
            return Ok(());
        }
        let frames = self.decoder.feed(&[])?;
        self.frames = frames;
        self.handed = 0;
        Ok(())
    }

    /// Shows the first frame that waits: its numbers, and its text in [`text`](FrameQueue::text). `None` is returned if no frame waits and the
    /// stream has no fault there.
    pub(crate) fn show(&mut self) -> Result<Option<FrameNumbers>, StreamFault>
        ensures some { IfOk result (λ shown.
            IfSome shown (λ numbers. Shows self.old numbers self.new)) }
        ensures none { IfOk result (λ shown. IfNone shown (IsFedUp self.old self.new)) }
        ensures fault { IfErr result (λ fault. QueueStops self.old fault self.new) }
    {
        self.refill()?;
        if !self.has_frame() {
            return Ok(None);
        }
        let (epoch, frame) = &self.frames[self.handed];
        self.text.clear();
        encode_into(frame, *epoch, &mut self.text)?;
        Ok(Some(numbers_of(*epoch, frame)))
    }

    /// The text of the frame that was shown last, in version 2 of the format.
    pub(crate) fn text(&self) -> &[u8]
        ensures { result.now ≡ self.now.text }
    {
        &self.text
    }

    /// Drops the first frame that waits, if any.
    pub(crate) fn drop_first(&mut self)
        ensures { DropsFirst self.old self.new }
    {
        if self.has_frame() {
            self.handed += 1;
        }
    }
}

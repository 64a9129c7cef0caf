//! The calls on a decoder of frames.

ghost use Rattle.std.specs.Prelude.{◌≡◌, ◌≢◌, ◌<◌, ◌⊎◌};
ghost use Rattle.std.specs.declared.option.Option.TheVariants.{Some as Just};
ghost use Rattle.postmig_c.specs.Queues.{empty_queue, Feeds};
ghost use Rattle.postmig_c.specs.declared.handle.Content.TheVariants.{Frames};
ghost use Rattle.postmig_c.specs.Frames.{HasNoDecoder, HasQueues, Takes, Waits, IsUp, IsFaulty, fault_number};

use crate::handle::{Content, Handle};
use crate::numbers::FrameNumbers;
use crate::queue::{FeedFault, FrameQueue};
use crate::room::hand_over;
use crate::status::{
    BAD_FIELD, BAD_LENGTH, BAD_TAG, DONE, FRAMES_WAIT, NO_FRAME, NO_MEMORY, NO_ROOM, NOT_OPEN,
};
use crate::worlds::open;
use frame_decoder::StreamFault;
use std::alloc::Global;

/// Puts a new decoder into a handle. What it had is freed. It keeps that if the answer is not 0.
#[unsafe(no_mangle)]
pub extern "C" fn postmig_frames_new(alloc: Global, handle: &mut Handle) -> u32
    ensures ok { result ≡ 0 → handle.new.content ≡ Just (Frames empty_queue) }
    ensures refused { result ≢ 0 → handle.new.content ≡ handle.old.content }
{
    open(alloc, Content::Frames(FrameQueue::new(alloc)), handle)
}

/// Feeds a queue, and answers a status.
fn feed_queue(queue: &mut FrameQueue, bytes: &[u8]) -> u32
    ensures range { (result ≡ 0) ⊎ (result ≡ 4) ⊎ (result ≡ 7) }
    ensures ok { result ≡ 0 → Feeds queue.old bytes.now queue.new }
    ensures refused { result ≢ 0 → queue.new ≡ queue.old }
{
    match queue.feed(bytes) {
        Ok(()) => DONE,
        Err(FeedFault::Waiting) => FRAMES_WAIT,
        Err(FeedFault::NoMemory) => NO_MEMORY,
    }
}

/// Feeds a decoder the next bytes of its stream. Frames of the bytes before them must be taken first.
#[unsafe(no_mangle)]
pub extern "C" fn postmig_frames_feed(alloc: Global, handle: &mut Handle, bytes: &[u8]) -> u32
    ensures ok { result ≡ 0 →
        HasQueues handle.old.content handle.new.content (λ old new. Feeds old bytes.now new) }
    ensures refused { result ≢ 0 → handle.new.content ≡ handle.old.content }
    ensures not_open { result ≡ 2 → HasNoDecoder handle.old.content }
{
    let Some(mut content) = handle.take(alloc) else {
        return NOT_OPEN;
    };
    let status = match &mut *content {
        Content::Frames(queue) => feed_queue(queue, bytes),
        _ => NOT_OPEN,
    };
    *handle = Handle::of(content);
    status
}

/// The status of a fault.
fn fault_number(fault: StreamFault) -> u32
    ensures { result ≡ fault_number fault }
{
    match fault {
        StreamFault::NoMemory => NO_MEMORY,
        StreamFault::BadTag => BAD_TAG,
        StreamFault::BadLength => BAD_LENGTH,
        StreamFault::BadField => BAD_FIELD,
    }
}

/// Takes the first frame that waits in a queue, if its text fits.
fn take_frame(
    queue: &mut FrameQueue,
    frame: &mut FrameNumbers,
    out: &mut [u8],
    written: &mut usize,
) -> u32
    ensures taken { result ≡ 0 → Takes queue.old frame.new written.new out.new queue.new }
    ensures long { result ≡ 1 → Waits queue.old frame.new written.new out.new queue.new }
    ensures open { result ≢ 2 }
    ensures none { result ≡ 6 → IsUp queue.old queue.new }
    ensures fault { 6 < result → IsFaulty queue.old result queue.new }
{
    let numbers = match queue.show() {
        Ok(Some(numbers)) => numbers,
        Ok(None) => return NO_FRAME,
        Err(fault) => return fault_number(fault),
    };
    *frame = numbers;
    if hand_over(queue.text(), out, written) != DONE {
        return NO_ROOM;
    }
    queue.drop_first();
    DONE
}

/// Takes the first frame that waits: its numbers, and the bytes of its text. If they do not fit, the frame still waits, and `written` is
/// the length that is needed. If none waits, the answer is the fault of the stream that stands there, or that more bytes are needed.
#[unsafe(no_mangle)]
pub extern "C" fn postmig_frames_next(
    alloc: Global,
    handle: &mut Handle,
    frame: &mut FrameNumbers,
    out: &mut [u8],
    written: &mut usize,
) -> u32
    ensures taken { result ≡ 0 →
        HasQueues handle.old.content handle.new.content (λ old new.
        Takes old frame.new written.new out.new new) }
    ensures long { result ≡ 1 →
        HasQueues handle.old.content handle.new.content (λ old new.
        Waits old frame.new written.new out.new new) }
    ensures not_open { result ≡ 2 →
        HasNoDecoder handle.old.content × (handle.new.content ≡ handle.old.content) }
    ensures none { result ≡ 6 →
        HasQueues handle.old.content handle.new.content (λ old new. IsUp old new) }
    ensures fault { 6 < result →
        HasQueues handle.old.content handle.new.content (λ old new. IsFaulty old result new) }
{
    let Some(mut content) = handle.take(alloc) else {
        return NOT_OPEN;
    };
    let status = match &mut *content {
        Content::Frames(queue) => take_frame(queue, frame, out, written),
        _ => NOT_OPEN,
    };
    *handle = Handle::of(content);
    status
}

//! A frame in numbers.

ghost use Rattle.std.specs.Prelude.{◌≡◌};
ghost use Rattle.page_stream.specs.Texts.{tag_code};
ghost use Rattle.page_stream.specs.Frames.{frame_of};
ghost use Rattle.frame_decoder.specs.Streams.{decoded_sent};
ghost use Rattle.postmig_c.specs.Numbers.{address_in, count_in, numbers_of};

use mig_base::page_address;
use page_stream::Frame;

/// A frame in numbers, without the bytes and the lists that it carries.
#[repr(C)]
#[derive(Clone, Copy)]
pub struct FrameNumbers {
    /// The second byte of its header.
    pub tag: u32,
    /// The epoch in which it was sent.
    pub epoch: u32,
    /// The address of its page, or of the first of its run; 0 if it names none.
    pub addr: u64,
    /// The number of its pages: those of a run, of a Discard, or owed ones; of an End the number of urgent frames.
    pub count: u64,
}

/// The tag of a frame.
fn tag_of(frame: &Frame) -> u32
    ensures { result ≡ tag_code (frame_of frame.now) }
{
    match frame {
        Frame::Advise => 0x01,
        Frame::Page { .. } => 0x02,
        Frame::Zero { .. } => 0x03,
        Frame::Discard { .. } => 0x04,
        Frame::Package { .. } => 0x05,
        Frame::End { .. } => 0x06,
        Frame::Resume => 0x07,
        Frame::Run { .. } => 0x08,
        Frame::Request { .. } => 0x81,
        Frame::Recv { .. } => 0x82,
        Frame::Done => 0x83,
    }
}

/// The address that a frame names.
fn addr_of(frame: &Frame) -> u64
    ensures { result ≡ address_in (frame_of frame.now) }
{
    match frame {
        Frame::Page { page, .. } | Frame::Zero { page } | Frame::Request { page } => page_address(
            *page,
        ),
        Frame::Run { first, .. } => page_address(*first),
        Frame::Advise
        | Frame::Discard { .. }
        | Frame::Package { .. }
        | Frame::End { .. }
        | Frame::Resume
        | Frame::Recv { .. }
        | Frame::Done => 0,
    }
}

/// The number of pages that a frame names.
fn count_of(frame: &Frame) -> u64
    ensures { result ≡ count_in (frame_of frame.now) }
{
    match frame {
        Frame::Page { .. } | Frame::Zero { .. } | Frame::Request { .. } => 1,
        Frame::Run { pages, .. } => pages.len() as u64,
        Frame::Discard { pages } => u64::from(pages.len()),
        Frame::Package { owed, .. } | Frame::Recv { owed, .. } => u64::from(owed.len()),
        Frame::End { urgent } => u64::from(*urgent),
        Frame::Advise | Frame::Resume | Frame::Done => 0,
    }
}

/// The numbers of a frame that was sent in an epoch.
pub fn numbers_of(epoch: u32, frame: &Frame) -> FrameNumbers
    ensures { result ≡ numbers_of (decoded_sent (epoch, frame.now)) }
{
    FrameNumbers {
        tag: tag_of(frame),
        epoch,
        addr: addr_of(frame),
        count: count_of(frame),
    }
}

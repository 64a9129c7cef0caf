//! The heads of frames.

ghost use Rattle.std.specs.Prelude.{◌≡◌, ◌+◌, ◌⊎◌, ◌<◌, ◌++◌, ℕ, List, length};
ghost use Rattle.frame_decoder.specs.Streams.{IsSent};
ghost use Rattle.frame_decoder.specs.Versions.{version_of};
ghost use Rattle.frame_decoder.specs.declared.version.Version.{Version};
ghost use Rattle.page_stream.specs.Texts.{text};
ghost use Rattle.page_stream.specs.Texts.Version.{Two};
ghost use Rattle.mig_model.specs.Lengths.{text_len};
ghost use Rattle.mig_model.specs.Wire as machine;
ghost use Rattle.postmig_c.specs.Heads.{BeginsPage, BeginsRun};
ghost use Rattle.postmig_c.specs.Room.{Fills, IsTooLong};

use crate::room::hand_over;
use crate::status::{DONE, NO_FRAME, NO_MEMORY, NOT_A_FRAME};
use frame_decoder::front_len;
use mig_base::{HIGH_PAGE, LOW_PAGE, MAX_RUN, PageNo};
use page_stream::{Frame, encode, page_head, run_head};
use std::alloc::Global;

/// Writes the bytes in front of those of a Page.
#[unsafe(no_mangle)]
pub extern "C" fn postmig_page_head(
    epoch: u32,
    page: PageNo,
    out: &mut [u8],
    written: &mut usize,
) -> u32
    ensures all { result ≡ 0 → BeginsPage epoch page written.new out.new }
    ensures long { result ≡ 1 → (written.new ≡ 16) × (length out.new < 16) }
    ensures range { (result ≡ 0) ⊎ (result ≡ 1) }
{
    hand_over(page_head(epoch, page).as_slice(), out, written)
}

/// Writes the bytes in front of those of a Run of 1 to 64 pages.
#[unsafe(no_mangle)]
pub extern "C" fn postmig_run_head(
    epoch: u32,
    first: PageNo,
    count: u32,
    out: &mut [u8],
    written: &mut usize,
) -> u32
    ensures all { result ≡ 0 → BeginsRun epoch first count written.new out.new }
    ensures long { result ≡ 1 → (written.new ≡ 20) × (length out.new < 20) }
    ensures no_run { result ≡ 11 → (count ≡ 0) ⊎ (64 < count) }
    ensures range { (result ≡ 0) ⊎ (result ≡ 1) ⊎ (result ≡ 11) }
{
    if count < 1 || u32::from(MAX_RUN) < count {
        return NOT_A_FRAME;
    }
    hand_over(run_head(epoch, first, count).as_slice(), out, written)
}

/// Writes a Zero.
#[unsafe(no_mangle)]
pub extern "C" fn postmig_zero_frame(
    alloc: Global,
    epoch: u32,
    page: PageNo,
    out: &mut [u8],
    written: &mut usize,
) -> u32
    ensures all { result ≡ 0 →
        Fills (text Two epoch (machine.Frame.Zero page)) written.new out.new }
    ensures long { result ≡ 1 →
        IsTooLong (text Two epoch (machine.Frame.Zero page)) written.new out.new }
    ensures no_page { result ≡ 11 → (page < 16) ⊎ (1048575 < page) }
    ensures range { (result ≡ 0) ⊎ (result ≡ 1) ⊎ (result ≡ 4) ⊎ (result ≡ 11) }
{
    if page < LOW_PAGE || HIGH_PAGE <= page {
        return NOT_A_FRAME;
    }
    match encode(alloc, &Frame::Zero { page }, epoch) {
        Ok(text) => hand_over(&text, out, written),
        Err(_) => NO_MEMORY,
    }
}

/// Says how many bytes the frame at the front has without those of its pages, and how many those of its pages are.
#[unsafe(no_mangle)]
pub extern "C" fn postmig_frame_lengths(bytes: &[u8], head: &mut usize, pages: &mut usize) -> u32
    ensures sum { result ≡ 0 →
        (version : Version) (sent : machine.Sent) (rest : List ℕ) → IsSent version sent →
        bytes.now ≡ text (version_of version) sent.epoch sent.frame ++ rest →
        head.new + pages.new ≡ text_len sent.frame }
    ensures short { result ≡ 6 → length bytes.now < 12 }
    ensures range { (result ≡ 0) ⊎ (result ≡ 6) }
{
    if bytes.len() < 12 {
        return NO_FRAME;
    }
    let len = front_len(bytes);
    let front = match bytes[1] {
        0x02 => 16,
        0x08 => 20,
        _ => len,
    };
    *head = front.min(len);
    *pages = len - front.min(len);
    DONE
}

//! Reading single fields: each reader returns the field and the bytes after it, or `BadField`.

ghost use Rattle.std.specs.Int.{w32, w64};
ghost use Rattle.std.specs.Prelude.{◌≡◌, IfErr};
ghost use Rattle.frame_decoder.specs.Reading.{Gives, byte_at, number_in, page_in, content_at, prot_at, state_at};

use crate::fault::StreamFault;
use mig_base::phase::Received;
use mig_base::{HIGH_PAGE, LOW_PAGE, PAGE_BYTES, PageBytes, PageNo, Prot};
use std::alloc::Global;

pub(crate) fn read_byte(bytes: &[u8]) -> Result<(u8, &[u8]), StreamFault>
    ensures { Gives (λ x. (x.0, x.1.now)) result (byte_at bytes.now) }
{
    match bytes {
        [first, rest @ ..] => Ok((*first, rest)),
        [] => Err(StreamFault::BadField),
    }
}

pub(crate) fn read_u32(bytes: &[u8]) -> Result<(u32, &[u8]), StreamFault>
    ensures gives { Gives (λ x. (x.0, x.1.now)) result (number_in w32 bytes.now) }
    ensures fault { IfErr result (λ fault. fault ≡ StreamFault.BadField) }
{
    if bytes.len() < 4 {
        return Err(StreamFault::BadField);
    }
    let (front, rest) = bytes.split_at(4);
    let number = u32::from_be_bytes([front[0], front[1], front[2], front[3]]);
    Ok((number, rest))
}

pub(crate) fn read_u64(bytes: &[u8]) -> Result<(u64, &[u8]), StreamFault>
    ensures { Gives (λ x. (x.0, x.1.now)) result (number_in w64 bytes.now) }
{
    if bytes.len() < 8 {
        return Err(StreamFault::BadField);
    }
    let (front, rest) = bytes.split_at(8);
    let number = u64::from_be_bytes([
        front[0], front[1], front[2], front[3], front[4], front[5], front[6], front[7],
    ]);
    Ok((number, rest))
}

/// The number of a page that may be mapped.
#[tactic(auto, unfolding(crate::specs::Reading::page_in))]
pub(crate) fn read_page(bytes: &[u8]) -> Result<(PageNo, &[u8]), StreamFault>
    ensures gives { Gives (λ x. (x.0, x.1.now)) result (page_in bytes.now) }
    ensures fault { IfErr result (λ fault. fault ≡ StreamFault.BadField) }
{
    let (page, rest) = read_u32(bytes)?;
    if page < LOW_PAGE || HIGH_PAGE <= page {
        return Err(StreamFault::BadField);
    }
    Ok((page, rest))
}

/// The 4096 bytes of a page, copied.
#[tactic(auto, unfolding(crate::specs::Reading::content_at))]
pub(crate) fn read_content(alloc: Global, bytes: &[u8]) -> Result<(PageBytes, &[u8]), StreamFault>
    ensures { Gives (λ x. (x.0, x.1.now)) result (content_at bytes.now) }
{
    let Some((front, rest)) = bytes.split_first_chunk::<PAGE_BYTES>() else {
        return Err(StreamFault::BadField);
    };
    Ok((PageBytes::copy_of(alloc, front)?, rest))
}

#[tactic(auto, unfolding(crate::specs::Reading::prot_at))]
pub(crate) fn read_prot(bytes: &[u8]) -> Result<(Prot, &[u8]), StreamFault>
    ensures { Gives (λ x. (x.0, x.1.now)) result (prot_at bytes.now) }
{
    match bytes {
        [] => Err(StreamFault::BadField),
        [0, rest @ ..] => Ok((Prot::NoAccess, rest)),
        [1, rest @ ..] => Ok((Prot::Read, rest)),
        [2, rest @ ..] => Ok((Prot::ReadWrite, rest)),
        [_, ..] => Err(StreamFault::BadField),
    }
}

#[tactic(auto, unfolding(crate::specs::Reading::state_at))]
pub(crate) fn read_state(bytes: &[u8]) -> Result<(Received, &[u8]), StreamFault>
    ensures { Gives (λ x. (x.0, x.1.now)) result (state_at bytes.now) }
{
    match bytes {
        [] => Err(StreamFault::BadField),
        [0, rest @ ..] => Ok((Received::NotRun, rest)),
        [1, rest @ ..] => Ok((Received::Running, rest)),
        [2, rest @ ..] => Ok((Received::Ended, rest)),
        [_, ..] => Err(StreamFault::BadField),
    }
}

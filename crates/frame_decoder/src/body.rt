//! Reading the bodies of frames.

ghost use Rattle.std.specs.Prelude.{◌≡◌};
ghost use Rattle.page_stream.specs.Frames.{frame_of};
ghost use Rattle.frame_decoder.specs.Reading.{Gives, is_page_run, page_frame_at, discard_at, package_at, run_frame_at, recv_at, payload_at, body_at};

use crate::commands::read_commands;
use crate::fault::StreamFault;
use crate::fields::{read_content, read_page, read_state, read_u32};
use crate::lists::{is_run, read_areas, read_contents, read_few_pages, read_pages};
use crate::tag::Tag;
use crate::version::Version;
use mig_base::{LOW_PAGE, MAX_RUN, PageNo};
use page_stream::{Frame, Pages, Waiting};
use std::alloc::Global;

#[tactic(auto, unfolding(crate::specs::Reading::page_frame_at))]
fn read_page_frame(alloc: Global, bytes: &[u8]) -> Result<(Frame, &[u8]), StreamFault>
    ensures { Gives (λ x. (frame_of x.0, x.1.now)) result (page_frame_at bytes.now) }
{
    let (page, rest) = read_page(bytes)?;
    let (bytes, rest) = read_content(alloc, rest)?;
    Ok((Frame::Page { page, bytes }, rest))
}

#[tactic(auto, unfolding(crate::specs::Reading::discard_at))]
fn read_discard(alloc: Global, bytes: &[u8]) -> Result<(Frame, &[u8]), StreamFault>
    ensures { Gives (λ x. (frame_of x.0, x.1.now)) result (discard_at bytes.now) }
{
    let (pages, rest) = read_pages(alloc, bytes)?;
    Ok((Frame::Discard { pages }, rest))
}

#[tactic(auto, unfolding(crate::specs::Reading::package_at))]
fn read_package(
    alloc: Global,
    version: Version,
    bytes: &[u8],
) -> Result<(Frame, &[u8]), StreamFault>
    ensures { Gives (λ x. (frame_of x.0, x.1.now)) result (package_at version bytes.now) }
{
    let (areas, rest) = read_areas(alloc, version, bytes)?;
    let (owed, rest) = read_few_pages(alloc, version, rest)?;
    let (commands, rest) = read_commands(alloc, rest)?;
    let commands = Waiting::new(commands);
    Ok((
        Frame::Package {
            areas,
            owed,
            commands,
        },
        rest,
    ))
}

/// Whether `count` pages may be sent as one run.
pub(crate) fn is_page_run(version: Version, first: PageNo, count: usize) -> bool
    ensures { result ≡ is_page_run version first count }
{
    version.has_runs() && count <= usize::from(MAX_RUN) && is_run(LOW_PAGE, first, count as u32)
}

#[tactic(auto, unfolding(crate::specs::Reading::run_frame_at))]
fn read_run_frame(
    alloc: Global,
    version: Version,
    bytes: &[u8],
) -> Result<(Frame, &[u8]), StreamFault>
    ensures { Gives (λ x. (frame_of x.0, x.1.now)) result (run_frame_at version bytes.now) }
{
    let (first, rest) = read_u32(bytes)?;
    let (contents, rest) = read_contents(alloc, rest)?;
    let pages = Pages::new(contents);
    if !is_page_run(version, first, pages.len()) {
        return Err(StreamFault::BadField);
    }
    Ok((Frame::Run { first, pages }, rest))
}

#[tactic(auto, unfolding(crate::specs::Reading::recv_at))]
fn read_recv(alloc: Global, version: Version, bytes: &[u8]) -> Result<(Frame, &[u8]), StreamFault>
    ensures { Gives (λ x. (frame_of x.0, x.1.now)) result (recv_at version bytes.now) }
{
    let (state, rest) = read_state(bytes)?;
    let (owed, rest) = read_few_pages(alloc, version, rest)?;
    Ok((Frame::Recv { state, owed }, rest))
}

/// The frame at the front of a body, and the bytes after it.
#[tactic(auto, unfolding(crate::specs::Reading::payload_at))]
fn read_payload(
    alloc: Global,
    version: Version,
    tag: Tag,
    bytes: &[u8],
) -> Result<(Frame, &[u8]), StreamFault>
    ensures { Gives (λ x. (frame_of x.0, x.1.now)) result (payload_at version tag bytes.now) }
{
    match tag {
        Tag::Advise => Ok((Frame::Advise, bytes)),
        Tag::Page => read_page_frame(alloc, bytes),
        Tag::Zero => {
            let (page, rest) = read_page(bytes)?;
            Ok((Frame::Zero { page }, rest))
        }
        Tag::Discard => read_discard(alloc, bytes),
        Tag::Package => read_package(alloc, version, bytes),
        Tag::End => {
            let (urgent, rest) = read_u32(bytes)?;
            Ok((Frame::End { urgent }, rest))
        }
        Tag::Resume => Ok((Frame::Resume, bytes)),
        Tag::Run => read_run_frame(alloc, version, bytes),
        Tag::Request => {
            let (page, rest) = read_page(bytes)?;
            Ok((Frame::Request { page }, rest))
        }
        Tag::Recv => read_recv(alloc, version, bytes),
        Tag::Done => Ok((Frame::Done, bytes)),
    }
}

/// The frame that a body spells with all of its bytes. `BadField` is returned if bytes are left.
#[tactic(auto, unfolding(crate::specs::Reading::body_at))]
pub(crate) fn read_body(
    alloc: Global,
    version: Version,
    tag: Tag,
    body: &[u8],
) -> Result<Frame, StreamFault>
    ensures { Gives (λ x. frame_of x) result (body_at version tag body.now) }
{
    let (frame, rest) = read_payload(alloc, version, tag, body)?;
    if !rest.is_empty() {
        return Err(StreamFault::BadField);
    }
    Ok(frame)
}

//! A frame at the front of a stream, without copying the bytes of its pages.

ghost use Rattle.std.specs.Prelude.{◌≡◌, ◌+◌, length, false, Err, IfOk, IfErr};
ghost use Rattle.std.specs.Option.{IfSome};
ghost use Rattle.frame_decoder.specs.Heads.{HasNoPages, IsHeadOf, IsWhole, StandsAt, body_fault, content_len, frame_in, front_of, has_pages};
ghost use Rattle.frame_decoder.specs.Reading.{Gives, body_at};
ghost use Rattle.frame_decoder.specs.Taking.{Stands};

use crate::body::{is_page_run, read_body};
use crate::fault::StreamFault;
use crate::fields::{read_page, read_u32};
use crate::header::HEADER_LEN;
use crate::stream::{body_behind, whole_header};
use crate::tag::Tag;
use crate::version::Version;
use mig_base::{PAGE_BYTES, PageNo};
use page_stream::Frame;
use std::alloc::Global;

/// A frame without the bytes of its pages.
#[derive(Drop)]
pub enum Head {
    /// A Page.
    Page { page: PageNo },
    /// A Run: `count` pages from `first` on.
    Run { first: PageNo, count: u32 },
    /// Any other frame. It has no bytes of pages.
    Other(Frame),
}

/// A frame at the front of a stream, and where the bytes of its pages lie: in the stream from `at` to `len`, in the order of the pages.
#[derive(Drop)]
pub struct FrameHead {
    /// The version of its text.
    pub version: Version,
    /// The epoch in which it was sent.
    pub epoch: u32,
    pub head: Head,
    /// Where the bytes of its pages begin, 4096 for each page; `len` if it has none.
    pub at: usize,
    /// The length of its text in bytes.
    pub len: usize,
}

/// The head of a Page, by its body: its number, and after it the bytes.
fn read_page_head(version: Version, body: &[u8]) -> Result<Head, StreamFault>
    ensures head { IsHeadOf 4 body.now result (body_at version Tag.Page body.now) }
    ensures len { IfOk result (λ head. 4 + content_len head ≡ length body.now) }
    ensures fault { IfErr result (λ fault. fault ≡ StreamFault.BadField) }
{
    let _ = version;
    let (page, bytes) = read_page(body)?;
    if bytes.len() != PAGE_BYTES {
        return Err(StreamFault::BadField);
    }
    Ok(Head::Page { page })
}

/// The head of a Run, by its body: its first page, the number of pages, and after them the bytes.
fn read_run_head(version: Version, body: &[u8]) -> Result<Head, StreamFault>
    ensures head { IsHeadOf 8 body.now result (body_at version Tag.Run body.now) }
    ensures len { IfOk result (λ head. 8 + content_len head ≡ length body.now) }
    ensures fault { IfErr result (λ fault. fault ≡ StreamFault.BadField) }
{
    let (first, rest) = read_u32(body)?;
    let (count, bytes) = read_u32(rest)?;
    if !is_page_run(version, first, count as usize) || bytes.len() != PAGE_BYTES * count as usize {
        return Err(StreamFault::BadField);
    }
    Ok(Head::Run { first, count })
}

/// The head of the frame that a body spells, and where in the body the bytes of its pages begin.
fn read_body_head(
    alloc: Global,
    version: Version,
    tag: Tag,
    body: &[u8],
) -> Result<(Head, usize), StreamFault>
    ensures head { Gives (frame_in body.now) result (body_at version tag body.now) }
    ensures len { IfOk result (λ x. x.1 + content_len x.0 ≡ length body.now) }
    ensures memory { result ≡ Err StreamFault.NoMemory → has_pages tag ≡ false }
{
    match tag {
        Tag::Page => Ok((read_page_head(version, body)?, 4)),
        Tag::Run => Ok((read_run_head(version, body)?, 8)),
        _ => {
            let frame = read_body(alloc, version, tag, body)?;
            Ok((Head::Other(frame), body.len()))
        }
    }
}

/// Reads the frame at the front of a stream, in the fixed version if one is fixed, and leaves the bytes of its pages where they lie.
/// `None` if the bytes are less than a frame: [`lacking`](crate::lacking) says how many more it needs.
///
/// It reads what a [`Decoder`](crate::Decoder) reads, and refuses what that refuses, for the same fault: `BadTag`, `BadLength` and
/// `BadField`, each where it first stands, whatever the bytes are. `NoMemory` is returned if the frame's memory is refused, and never for a Page
/// or a Run, which take none. A stream has one version, so the caller fixes that of the first frame for the next ones.
pub fn read_head(
    alloc: Global,
    fixed: Option<Version>,
    bytes: &[u8],
) -> Result<Option<FrameHead>, StreamFault>
    ensures found { IfOk result (λ found. Stands fixed bytes.now (front_of bytes.now found)) }
    ensures bytes { IfOk result (λ found. IfSome found (λ found. IsWhole found)) }
    ensures fault { IfErr result (λ fault. StandsAt fixed bytes.now fault) }
    ensures memory { result ≡ Err StreamFault.NoMemory → HasNoPages fixed bytes.now }
{
    let Some(header) = whole_header(fixed, bytes)? else {
        return Ok(None);
    };
    let body = body_behind(bytes, header.len);
    match read_body_head(alloc, header.version, header.tag, body) {
        Ok((head, at)) => Ok(Some(FrameHead {
            version: header.version,
            epoch: header.epoch,
            head,
            at: HEADER_LEN + at,
            len: HEADER_LEN + header.len as usize,
        })),
        Err(fault) => Err(body_fault(fault)),
    }
}

/// The fault of a stream whose body has this one.
fn body_fault(fault: StreamFault) -> StreamFault
    ensures { result ≡ body_fault fault }
{
    match fault {
        StreamFault::NoMemory => StreamFault::NoMemory,
        StreamFault::BadTag | StreamFault::BadLength | StreamFault::BadField =>
            StreamFault::BadField,
    }
}

//! Frames one after the other.

ghost use Rattle.std.specs.Prelude.{◌≡◌, ◌+◌, ◌≤◌, ◌++◌, ℕ, drop, length, take, List, Err, IfErr, IfOk, Some};
ghost use Rattle.std.specs.Option.{IfSome, option_map};
ghost use Rattle.mig_model.specs.Lengths.{text_len};
ghost use Rattle.mig_model.specs.Wire.{Sent};
ghost use Rattle.page_stream.specs.Texts.{text};
ghost use Rattle.frame_decoder.specs.Headers.{header_at};
ghost use Rattle.frame_decoder.specs.Heads.{IsAtFront, front_by};
ghost use Rattle.frame_decoder.specs.Reading.{front_of, next_at};
ghost use Rattle.frame_decoder.specs.Streams.{IsSent, IsTextOf, lacks, decoded_sent, sents};
ghost use Rattle.frame_decoder.specs.Taking.{Stands, IsTaken};
ghost use Rattle.frame_decoder.specs.Versions.{version_of};

use crate::body::read_body;
use crate::fault::StreamFault;
use crate::header::{HEADER_LEN, Header, read_header};
use crate::version::Version;
use mig_base::NoMemory;
use page_stream::Frame;
use std::alloc::Global;

/// What stands at the front of some bytes.
#[derive(Drop)]
pub(crate) enum Next {
    /// Less than a frame, and no fault so far.
    Part,
    /// A frame, and the length of its text in bytes.
    Whole {
        version: Version,
        epoch: u32,
        frame: Frame,
        len: usize,
    },
    /// Bytes that begin no frame.
    Fault(StreamFault),
}

/// The header at the front, in the fixed version if one is fixed, once its body is whole too; `None` before. It takes no memory.
#[tactic(auto, unfolding(crate::specs::Reading::next_at))]
pub(crate) fn whole_header(
    fixed: Option<Version>,
    bytes: &[u8],
) -> Result<Option<Header>, StreamFault>
    ensures front { next_at fixed bytes.now ≡ front_by bytes.now result }
    ensures header { IfOk result (λ found. IfSome found (λ h. IsAtFront fixed bytes.now h)) }
    ensures fault { IfErr result (λ fault. header_at fixed bytes.now ≡ Err fault) }
{
    if bytes.len() < HEADER_LEN {
        return Ok(None);
    }
    let header = match read_header(fixed, bytes) {
        Ok(header) => header,
        Err(fault) => return Err(fault),
    };
    if bytes.len() - HEADER_LEN < header.len as usize {
        return Ok(None);
    }
    Ok(Some(header))
}

/// The `len` bytes after a header.
pub(crate) fn body_behind(bytes: &[u8], len: u32) -> &[u8]
    requires { 12 + len ≤ length bytes.now }
    ensures { result.now ≡ take len (drop 12 bytes.now) }
{
    let (_, rest) = bytes.split_at(HEADER_LEN);
    rest.split_at(len as usize).0
}

fn next_frame(alloc: Global, fixed: Option<Version>, bytes: &[u8]) -> Result<Next, NoMemory>
    ensures { IfOk result (λ next. front_of next ≡ next_at fixed bytes.now) }
{
    let header = match whole_header(fixed, bytes) {
        Ok(Some(header)) => header,
        Ok(None) => return Ok(Next::Part),
        Err(fault) => return Ok(Next::Fault(fault)),
    };
    match read_body(
        alloc,
        header.version,
        header.tag,
        body_behind(bytes, header.len),
    ) {
        Ok(frame) => Ok(Next::Whole {
            version: header.version,
            epoch: header.epoch,
            frame,
            len: HEADER_LEN + header.len as usize,
        }),
        Err(StreamFault::NoMemory) => Err(NoMemory),
        Err(_) => Ok(Next::Fault(StreamFault::BadField)),
    }
}

/// What stands at the front, in the fixed version if one is fixed.
pub(crate) fn front(alloc: Global, fixed: Option<Version>, bytes: &[u8]) -> Result<Next, NoMemory>
    ensures { IfOk result (λ next. Stands fixed bytes.now (front_of next)) }
{
    next_frame(alloc, fixed, bytes)
}

/// Reads the text of one frame, of either version: the epoch and the frame, or `None` if the bytes are not exactly one text. A
/// [`Decoder`](crate::Decoder) says which fault they have.
///
/// The bytes are read in place. `NoMemory` comes if the frame's memory is refused.
pub fn read_text(alloc: Global, bytes: &[u8]) -> Result<Option<(u32, Frame)>, NoMemory>
    ensures read { IfOk result (λ read.
        IfSome read (λ sent.
        (version : Version) × IsTextOf version bytes.now (decoded_sent sent))) }
    ensures whole { (version : Version) (sent : Sent) → IsTextOf version bytes.now sent →
        IfOk result (λ read. option_map decoded_sent read ≡ Some sent) }
{
    match front(alloc, None, bytes)? {
        Next::Whole {
            epoch,
            frame,
            len,
            ..
        } if len == bytes.len() => Ok(Some((epoch, frame))),
        _ => Ok(None),
    }
}

/// The length in bytes of the text at the front of a stream, as its header says. If the bytes begin with no text, the result means
/// nothing. It takes no memory.
pub fn front_len(bytes: &[u8]) -> usize
    ensures { (version : Version) (sent : Sent) (rest : List ℕ) → IsSent version sent →
        bytes.now ≡ text (version_of version) sent.epoch sent.frame ++ rest →
        result ≡ text_len sent.frame }
{
    if bytes.len() < HEADER_LEN {
        return bytes.len();
    }
    match read_header(None, bytes) {
        Ok(header) => HEADER_LEN + header.len as usize,
        Err(_) => bytes.len(),
    }
}

/// The number of bytes that a header still lacks, or once it is there its frame; 0 where a fault stands. It takes no memory.
#[tactic(auto, unfolding(crate::specs::Streams::lacks))]
pub fn lacking(fixed: Option<Version>, bytes: &[u8]) -> usize
    ensures { result ≡ lacks fixed bytes.now }
{
    if bytes.len() < HEADER_LEN {
        return HEADER_LEN - bytes.len();
    }
    match read_header(fixed, bytes) {
        Ok(header) => (HEADER_LEN + header.len as usize).saturating_sub(bytes.len()),
        Err(_) => 0,
    }
}

/// The frames at the front of a stream.
#[derive(Drop)]
pub(crate) struct Taken {
    pub frames: Vec<(u32, Frame)>,
    /// The number of bytes that they take.
    pub read: usize,
    /// The fault that stands after them, if any.
    pub fault: Option<StreamFault>,
    /// The version that is fixed then.
    pub version: Option<Version>,
}

/// Reads whole frames up to a fault, or to a rest that is less than a frame.
pub(crate) fn take_frames(
    alloc: Global,
    fixed: Option<Version>,
    bytes: &[u8],
) -> Result<Taken, NoMemory>
    ensures { IfOk result (λ taken.
        IsTaken fixed bytes.now (sents taken.frames.items) taken.read taken.fault taken.version) }
{
    let mut frames = Vec::new(alloc);
    let mut rest = bytes;
    let mut version = fixed;
    let fault = 'frames: loop {
        match front(alloc, version, rest)? {
            Next::Whole {
                version: found,
                epoch,
                frame,
                len,
            } => {
                frames.push((epoch, frame))?;
                let (_, after) = rest.split_at(len);
                rest = after;
                version = Some(found);
            }
            Next::Part => break 'frames None,
            Next::Fault(fault) => break 'frames Some(fault),
        }
    };
    Ok(Taken {
        frames,
        read: bytes.len() - rest.len(),
        fault,
        version,
    })
}

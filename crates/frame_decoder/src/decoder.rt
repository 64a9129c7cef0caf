//! Reading frames from the pieces of a stream.

ghost use Rattle.std.specs.Prelude.{◌≡◌, ◌+◌, ◌*◌, ◌<◌, ◌++◌, ◌≤◌, [], length, drop, take, Option, Err, IfOk, OnOk, OnErr};
ghost use Rattle.mig_base.specs.declared.TheConstants.{MAX_CPUS, MAX_PAGES};
ghost use Rattle.frame_decoder.specs.Streams.{Splits, IsPart, IsStreamFault, IsTextOf, May, lacks, missing, decoded_sent, sents};
ghost use Rattle.frame_decoder.specs.Feeding.{Fed, feed_answer_of, answered, fresh};
ghost use Rattle.frame_decoder.specs.Taking.{IsFilled, IsFilledUp, left_of};

use crate::fault::StreamFault;
use crate::header::HEADER_LEN;
use crate::stream::{Next, Taken, front, lacking, take_frames};
use crate::version::Version;
use mig_base::{NoMemory, PAGE_BYTES};
use page_stream::Frame;
use std::alloc::Global;
use std::marker::Model;

/// The length of the text of a Page, in bytes.
const PAGE_FRAME_LEN: usize = HEADER_LEN + 4 + PAGE_BYTES;

/// The bytes to hold once frames were taken from the front: those after the frames, and none if a fault stands there.
fn left_of<'a>(taken: &Taken, bytes: &'a [u8]) -> &'a [u8]
    requires { taken.now.read ≤ length bytes.now }
    ensures { result.now ≡ left_of taken.now.read taken.now.fault bytes.now }
{
    match taken.fault {
        Some(_) => &[],
        None => bytes.split_at(taken.read).1,
    }
}

/// Reads a piece in place if nothing is held, and holds the rest of it, with room for the text of a Page.
fn read_in_place(
    alloc: Global,
    fixed: Option<Version>,
    held: &mut Vec<u8>,
    piece: &[u8],
) -> Result<Taken, NoMemory>
    requires { held.old.items ≡ [] }
    ensures ok { IfOk result (λ taken.
        Splits fixed piece.now (sents taken.frames.items) held.new.items taken.fault
        taken.version) }
    ensures err { OnErr result (held.new.items ≡ held.old.items) }
{
    let taken = take_frames(alloc, fixed, piece)?;
    // Its room lies after the frames, so that they are not the last of the heap: otherwise glibc returns the memory of a long piece's
    // frames to the kernel each time that they are dropped.
    held.try_reserve(PAGE_FRAME_LEN)?;
    held.extend_from_slice(left_of(&taken, piece))?;
    Ok(taken)
}

/// Holds the missing bytes from the front of a piece, and returns the rest of the piece.
fn fill<'a>(
    fixed: Option<Version>,
    held: &mut Vec<u8>,
    piece: &'a [u8],
) -> Result<&'a [u8], NoMemory>
    ensures ok { IfOk result (λ rest.
        IsFilled fixed held.old.items piece.now held.new.items rest.now) }
    ensures err { OnErr result (held.new.items ≡ held.old.items) }
{
    let missing = lacking(fixed, held);
    if piece.len() < missing {
        held.extend_from_slice(piece)?;
        return Ok(&[]);
    }
    let (front, rest) = piece.split_at(missing);
    held.extend_from_slice(front)?;
    Ok(rest)
}

/// Holds the bytes that the header lacks, then those that its frame lacks, from the front of a piece, and returns the rest of the piece.
fn fill_frame<'a>(
    fixed: Option<Version>,
    held: &mut Vec<u8>,
    piece: &'a [u8],
) -> Result<&'a [u8], NoMemory>
    requires part { IsPart fixed held.old.items }
    ensures ok { IfOk result (λ rest.
        IsFilledUp fixed held.old.items piece.now held.new.items rest.now) }
    ensures begins { take (length held.old.items) held.new.items ≡ held.old.items }
{
    let rest = fill(fixed, held, piece)?;
    fill(fixed, held, rest)
}

/// Replaces the held bytes by the rest of a piece.
fn hold(held: &mut Vec<u8>, left: &[u8]) -> Result<(), NoMemory>
    ensures ok { OnOk result (held.new.items ≡ left.now) }
    ensures err { OnErr result (held.new.items ≡ held.old.items) }
{
    let count = held.len();
    held.extend_from_slice(left)?;
    drop_front(held, count);
    Ok(())
}

/// Reads the rest of a piece in place after a frame that is held whole, and holds what is left then.
fn read_behind(
    alloc: Global,
    version: Version,
    sent: (u32, Frame),
    held: &mut Vec<u8>,
    rest: &[u8],
) -> Result<Taken, NoMemory>
    requires { IsTextOf version held.old.items (decoded_sent sent) }
    ensures ok { IfOk result (λ taken. (fixed : Option Version) → May fixed version →
        Splits fixed (held.old.items ++
        rest.now) (sents taken.frames.items) held.new.items taken.fault taken.version) }
    ensures err { OnErr result (held.new.items ≡ held.old.items) }
{
    let mut taken = take_frames(alloc, Some(version), rest)?;
    taken.frames.insert(0, sent)?;
    hold(held, left_of(&taken, rest))?;
    Ok(taken)
}

/// Fills the frame that is held in part up from a piece, reads it, and then reads the rest of the piece. If that fails, bytes of the
/// piece may be held.
fn read_filled(
    alloc: Global,
    fixed: Option<Version>,
    held: &mut Vec<u8>,
    piece: &[u8],
) -> Result<Taken, NoMemory>
    requires part { IsPart fixed held.old.items }
    ensures ok { IfOk result (λ taken.
        Splits fixed (held.old.items ++
        piece.now) (sents taken.frames.items) held.new.items taken.fault taken.version) }
    ensures err { OnErr result (take (length held.old.items) held.new.items ≡ held.old.items) }
{
    let rest = fill_frame(fixed, held, piece)?;
    let fault = match front(alloc, fixed, held)? {
        Next::Whole {
            version,
            epoch,
            frame,
            ..
        } => return read_behind(alloc, version, (epoch, frame), held, rest),
        Next::Part => None,
        Next::Fault(fault) => {
            held.clear();
            Some(fault)
        }
    };
    Ok(Taken {
        frames: Vec::new(alloc),
        read: 0,
        fault,
        version: fixed,
    })
}

/// Reads the held bytes and a piece after them, and holds what is left. `NoMemory` leaves the held bytes as they were.
fn read_joined(
    alloc: Global,
    fixed: Option<Version>,
    held: &mut Vec<u8>,
    piece: &[u8],
) -> Result<Taken, NoMemory>
    requires part { IsPart fixed held.old.items }
    ensures ok { IfOk result (λ taken.
        Splits fixed (held.old.items ++
        piece.now) (sents taken.frames.items) held.new.items taken.fault taken.version) }
    ensures err { OnErr result (held.new.items ≡ held.old.items) }
{
    let len = held.len();
    let read = read_filled(alloc, fixed, held, piece);
    if read.is_err() {
        held.truncate(len);
    }
    read
}

/// Drops the first `count` bytes.
fn drop_front(held: &mut Vec<u8>, count: usize)
    requires { count ≤ length held.old.items }
    ensures { held.new.items ≡ drop count held.old.items }
{
    let left = held.len() - count;
    held.copy_within(count.., 0);
    held.truncate(left);
}

/// Reads the held bytes and a piece, and holds what is left. `NoMemory` leaves the held bytes as they were.
fn read_piece(
    alloc: Global,
    fixed: Option<Version>,
    held: &mut Vec<u8>,
    piece: &[u8],
) -> Result<Taken, NoMemory>
    requires part { IsPart fixed held.old.items }
    ensures ok { IfOk result (λ taken.
        Splits fixed (held.old.items ++
        piece.now) (sents taken.frames.items) held.new.items taken.fault taken.version) }
    ensures part { IfOk result (λ taken. IsPart taken.version held.new.items) }
    ensures real { IfOk result (λ taken. IsStreamFault taken.fault) }
    ensures err { OnErr result (held.new.items ≡ held.old.items) }
{
    if held.is_empty() {
        return read_in_place(alloc, fixed, held, piece);
    }
    read_joined(alloc, fixed, held, piece)
}

/// Holds a piece that completes neither the header nor the frame. `NoMemory`, which no empty piece gets, leaves the held bytes as they
/// were.
fn wait_for_more(fixed: Option<Version>, held: &mut Vec<u8>, piece: &[u8]) -> Result<(), NoMemory>
    requires part { IsPart fixed held.old.items }
    requires less { length piece.now < lacks fixed held.old.items }
    ensures ok { OnOk result (held.new.items ≡ held.old.items ++ piece.now) }
    ensures part { IsPart fixed held.new.items }
    ensures some { OnErr result (0 < length piece.now) }
    ensures err { OnErr result (held.new.items ≡ held.old.items) }
{
    held.extend_from_slice(piece)?;
    Ok(())
}

/// Reads frames from the pieces of a stream, all of the version of the first frame.
///
/// It holds less than one frame. The next piece completes that frame, and the rest of the piece is read in place: the bytes of its whole
/// frames are copied only into the frames.
#[derive(Drop)]
pub struct Decoder {
    alloc: Global,
    held: Vec<u8>,
    fault: Option<StreamFault>,
    version: Option<Version>,
}

impl Model for Decoder {
    ghost use Rattle.frame_decoder.specs.Streams.{Held, IsPart, IsStreamFault};

    ghost Value = { Held };

    ghost view = { λ d. record { bytes = d.held.items; fault = d.fault; version = d.version } };

    ghost invariant = { λ d. IsPart d.version d.held.items × IsStreamFault d.fault };
}

impl Decoder {
    /// A decoder that has read nothing. It takes no memory.
    pub fn new(alloc: Global) -> Self
        ensures { result ≡ fresh }
    {
        Decoder {
            alloc,
            held: Vec::new(alloc),
            fault: None,
            version: None,
        }
    }

    /// Takes the next piece, which may be empty, and returns the frames that are whole now, each with its epoch.
    ///
    /// A fault is returned at once if the piece completes no frame before it, and by the next call otherwise; then by every later call
    /// until [`reset`](Decoder::reset). `NoMemory` is returned if an allocation fails, and never for an empty piece: it takes nothing of the
    /// piece, which may be fed again.
    pub fn feed(&mut self, piece: &[u8]) -> Result<Vec<(u32, Frame)>, StreamFault>
        ensures fed { Fed self.old piece.now (feed_answer_of result) self.new }
        ensures bounded { length self.new.bytes < 12 + (9 + 17 * MAX_PAGES + 18 * MAX_CPUS) }
        ensures memory { result ≡ Err StreamFault.NoMemory → 0 < length piece.now }
    {
        match self.fault {
            Some(fault) => return Err(fault),
            None => {}
        }
        if piece.len() < lacking(self.version, &self.held) {
            return match wait_for_more(self.version, &mut self.held, piece) {
                Ok(()) => Ok(Vec::new(self.alloc)),
                Err(_) => Err(StreamFault::NoMemory),
            };
        }
        let Ok(taken) = read_piece(self.alloc, self.version, &mut self.held, piece) else {
            return Err(StreamFault::NoMemory);
        };
        let Taken {
            frames,
            fault,
            version,
            ..
        } = taken;
        self.fault = fault;
        self.version = version;
        answer(frames, fault)
    }

    /// The number of bytes that a header still lacks, or once it is there its frame; 0 after a fault. It takes no memory.
    pub fn missing(&self) -> usize
        ensures { result ≡ missing self.now }
    {
        match self.fault {
            None => lacking(self.version, &self.held),
            Some(_) => 0,
        }
    }

    /// Drops the held bytes, the fault and the version. It takes no memory.
    pub fn reset(&mut self)
        ensures { self.new ≡ fresh }
    {
        self.held = Vec::new(self.alloc);
        self.fault = None;
        self.version = None;
    }

    /// A decoder that returns what this one returns from here on, with memory of its own. `NoMemory` is returned only if that memory is refused.
    pub fn copy(&self) -> Result<Self, NoMemory>
        ensures { IfOk result (λ decoder. decoder ≡ self.now) }
    {
        Ok(Decoder {
            alloc: self.alloc,
            held: Vec::from_slice(self.alloc, &self.held)?,
            fault: self.fault,
            version: self.version,
        })
    }
}

/// The frames if there are any or there is no fault, and otherwise the fault.
fn answer(
    frames: Vec<(u32, Frame)>,
    fault: Option<StreamFault>,
) -> Result<Vec<(u32, Frame)>, StreamFault>
    ensures { answered (sents frames.items) fault (feed_answer_of result) }
{
    match fault {
        Some(fault) if frames.is_empty() => Err(fault),
        _ => Ok(frames),
    }
}

//! Reading a stream of frames from a reader, and writing a line for each frame to a writer.

ghost use Rattle.std.specs.Prelude.{◌≡◌, ◌≤◌, [], IfOk, IfSome};
ghost use Rattle.mig_model.specs.Destination.{first_destination};
ghost use Rattle.engine.specs.Lines.{FaultsAs};
ghost use Rattle.frame_decoder.specs.Feeding.{fresh};
ghost use Rattle.frames.specs.Endings.{IsWhole, FramesStop};
ghost use Rattle.frames.specs.Parts.{IsCounted};

use crate::fault::FramesFault;
use crate::reader::FrameReader;
use std::alloc::Global;
use std::io::{Read, Write};

/// The most bytes that are read at once.
const PIECE: usize = 16_384;

/// Hands each frame of a stream to a new destination of `cpus` processors, 1 to 16, and writes a line for each: what the destination
/// took, or `refused` and why. A frame that is refused changes nothing, and reading continues after it. Frames that the destination sends
/// back are dropped. Returns how many frames were refused.
///
/// At most 4,294,967,295 reads are made; a stream that needs more ends with a read fault. This bounds the loop: no clause counts reads.
/// The lines of the frames that one read completes are gathered, and written before the next read and before any fault is returned. An
/// interrupted read or write is a fault.
pub fn run_frames<R: Read, W: Write>(
    alloc: Global,
    reader: &mut R,
    writer: &mut W,
    cpus: u8,
) -> Result<u64, FramesFault>
    requires low { 1 ≤ cpus }
    requires high { cpus ≤ 16 }
    ensures ok { IfOk result (λ refused. IfSome (R.remaining reader.old) (λ input.
        IsWhole (first_destination cpus) input refused (W.contents writer.old)
        (W.contents writer.new))) }
    ensures fault { FaultsAs result (FramesStop (first_destination cpus)) (R.remaining reader.old)
        (R.remaining reader.new) (W.contents writer.old) (W.contents writer.new) }
{
    let mut frames = FrameReader::new(alloc, cpus)?;
    read_frames(reader, writer, &mut frames)
}

/// Reads all frames to the end of the input, hands each to the destination, and writes the lines.
fn read_frames<R: Read, W: Write>(
    reader: &mut R,
    writer: &mut W,
    frames: &mut FrameReader,
) -> Result<u64, FramesFault>
    requires start { frames.old.decoder ≡ fresh }
    requires counted { IsCounted frames.old.decoder frames.old.held }
    requires clean { frames.old.taker.output.items ≡ [] }
    requires none { frames.old.taker.refused ≡ 0 }
    ensures ok { IfOk result (λ refused. IfSome (R.remaining reader.old) (λ input.
        IsWhole frames.old.taker.destination input refused (W.contents writer.old)
        (W.contents writer.new))) }
    ensures fault { FaultsAs result (FramesStop frames.old.taker.destination)
        (R.remaining reader.old) (R.remaining reader.new) (W.contents writer.old)
        (W.contents writer.new) }
{
    let mut buffer = [0u8; PIECE];
    for _ in 0..u32::MAX {
        match reader.read(&mut buffer) {
            Ok(0) => return frames.finish(writer),
            Ok(count) => frames.run_piece(writer, &buffer[..count])?,
            Err(_) => return Err(FramesFault::ReadFault),
        }
    }
    Err(FramesFault::ReadFault)
}

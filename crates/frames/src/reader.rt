//! Reading a stream of frames.

ghost use Rattle.std.specs.Prelude.{◌≡◌, ◌<◌, ◌≤◌, ◌+◌, ◌^◌, [], None, length, OnOk, IfErr, IfOk};
ghost use Rattle.mig_model.specs.Destination.{first_destination};
ghost use Rattle.frame_decoder.specs.Feeding.{fresh};
ghost use Rattle.frame_decoder.specs.Streams.{sents};
ghost use Rattle.frames.specs.declared.fault.FramesFault.TheVariants.{NoMemory as OutOfMemory};
ghost use Rattle.frames.specs.Parts.{AreWellFormed, EndsBy, EndsWhole, FedUntil, Gathers, HaltsInPiece, IsCounted, Passes, texts_len};

use crate::fault::FramesFault;
use crate::taker::FrameTaker;
use frame_decoder::Decoder;
use page_stream::Frame;
use std::alloc::Global;
use std::io::Write;

/// The length of the frames' texts in bytes.
fn len_of(frames: &[(u32, Frame)]) -> u64
    requires { texts_len (sents frames.now) < 2 ^ 64 }
    ensures { result ≡ texts_len (sents frames.now) }
{
    let mut len = 0;
    for (_, frame) in frames {
        len += frame.text_len();
    }
    len
}

/// A stream of frames that is being read.
#[derive(Drop)]
pub(crate) struct FrameReader {
    decoder: Decoder,
    /// The number of bytes that the decoder holds of a frame that is not whole.
    held: u64,
    taker: FrameTaker,
}

impl FrameReader {
    /// A reader that has read nothing.
    pub(crate) fn new(alloc: Global, cpus: u8) -> Result<FrameReader, FramesFault>
        requires low { 1 ≤ cpus }
        requires high { cpus ≤ 16 }
        ensures decoder { IfOk result (λ reader. reader.decoder ≡ fresh) }
        ensures counted { IfOk result (λ reader. IsCounted reader.decoder reader.held) }
        ensures destination { IfOk result (λ reader.
            reader.taker.destination ≡ first_destination cpus) }
        ensures clean { IfOk result (λ reader. reader.taker.output.items ≡ []) }
        ensures refused { IfOk result (λ reader. reader.taker.refused ≡ 0) }
        ensures err { IfErr result (λ fault. fault ≡ OutOfMemory) }
    {
        let taker = FrameTaker::new(alloc, cpus)?;
        Ok(FrameReader {
            decoder: Decoder::new(alloc),
            held: 0,
            taker,
        })
    }

    /// Takes the next bytes, hands each frame that ends in them to the destination, and gathers the lines.
    fn feed(&mut self, piece: &[u8]) -> Result<(), FramesFault>
        requires counted { IsCounted self.old.decoder self.old.held }
        requires short { length piece.now < 2 ^ 32 }
        ensures ok { OnOk result (Gathers self.old piece.now self.new) }
        ensures counted { OnOk result (IsCounted self.new.decoder self.new.held) }
        ensures fault { IfErr result (λ fault.
            FedUntil self.old piece.now fault self.new.taker.output.items) }
    {
        let frames = self.decoder.feed(piece)?;
        self.held = self.held + piece.len() as u64 - len_of(&frames);
        self.taker.take_all(frames)?;
        Ok(())
    }

    /// Takes the next bytes, hands each frame that ends in them to the destination, and writes the lines.
    pub(crate) fn run_piece<W: Write>(
        &mut self,
        writer: &mut W,
        piece: &[u8],
    ) -> Result<(), FramesFault>
        requires counted { IsCounted self.old.decoder self.old.held }
        requires clean { self.old.taker.output.items ≡ [] }
        requires short { length piece.now < 2 ^ 32 }
        ensures ok { OnOk result
            (Passes self.old piece.now self.new (W.contents writer.old) (W.contents writer.new)) }
        ensures counted { OnOk result (IsCounted self.new.decoder self.new.held) }
        ensures clean { OnOk result (self.new.taker.output.items ≡ []) }
        ensures fault { IfErr result (λ fault.
            HaltsInPiece self.old piece.now fault (W.contents writer.old) (W.contents writer.new)) }
    {
        let fed = self.feed(piece);
        self.taker.write_output(writer)?;
        fed
    }

    /// Ends the stream. Returns how many of its frames were refused, or the fault that follows its last frame, or `Truncated` if
    /// less than a frame does.
    pub(crate) fn finish<W: Write>(&mut self, writer: &mut W) -> Result<u64, FramesFault>
        requires counted { IsCounted self.old.decoder self.old.held }
        requires clean { self.old.taker.output.items ≡ [] }
        ensures ok { OnOk result
            (EndsWhole self.old self.new (W.contents writer.old) (W.contents writer.new)) }
        ensures refused { IfOk result (λ refused. refused ≡ self.new.taker.refused) }
        ensures fault { IfErr result (λ fault.
            EndsBy self.old fault self.new (W.contents writer.old) (W.contents writer.new)) }
    {
        // A feed that returns frames keeps the fault after them for the next.
        self.run_piece(writer, &[])?;
        if self.held > 0 {
            return Err(FramesFault::Truncated);
        }
        Ok(self.taker.refused)
    }
}

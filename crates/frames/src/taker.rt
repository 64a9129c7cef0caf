//! The destination to which frames are handed, and the lines of its answers.

ghost use Rattle.std.specs.Prelude.{◌≡◌, ◌≤◌, ◌++◌, [], cond, OnOk, OnErr, IfErr, IfOk, string_bytes};
ghost use Rattle.std.specs.Io.KnownBytes.{Appends};
ghost use Rattle.mig_model.specs.Bounds.{IsFrame};
ghost use Rattle.mig_model.specs.Destination.{first_destination};
ghost use Rattle.page_stream.specs.Frames.{frame_of};
ghost use Rattle.frame_decoder.specs.Streams.{decoded_sent, sents};
ghost use Rattle.engine.specs.Engine.{Front};
ghost use Rattle.frames.specs.declared.fault.FramesFault.TheVariants.{WriteFault, NoMemory as OutOfMemory};
ghost use Rattle.frames.specs.Answers.{after_frame, answer_line, answer_lines, after_frames, refusals, refusals_of, Adds};
ghost use Rattle.frames.specs.Parts.{AreWellFormed, TakesSome};

use crate::fault::FramesFault;
use crate::print::print_refusal;
use engine::line_runner::write_out;
use fault_handler::Destination;
use grammar::print_line;
use mig_base::NoMemory;
use page_stream::Frame;
use std::alloc::Global;
use std::io::Write;

/// Hands a frame to a destination, and replaces a text by the line of the answer. Whether the frame was taken.
fn answer(
    destination: &mut Destination,
    epoch: u32,
    frame: Frame,
    line: &mut String,
) -> Result<bool, NoMemory>
    requires { IsFrame (frame_of frame) }
    ensures taken { IfOk result (λ taken.
        refusals_of destination.old (decoded_sent (epoch, frame)) ≡ cond taken 0 1) }
    ensures destination { OnOk result (destination.new ≡
        after_frame destination.old (decoded_sent (epoch, frame))) }
    ensures line { OnOk result (string_bytes line.new ≡
        answer_line destination.old (decoded_sent (epoch, frame))) }
{
    line.clear();
    let effect = frame.effect();
    if let Err(fault) = destination.take(epoch, frame) {
        print_refusal(line, fault)?;
        return Ok(false);
    }
    print_line(line, &Ok(effect))?;
    Ok(true)
}

/// How many frames were refused, once one more was taken or refused. The count stops at its greatest value.
fn counted(refused: u64, taken: bool) -> u64
    ensures { Adds refused (cond taken 0 1) result }
{
    if taken {
        return refused;
    }
    refused.saturating_add(1)
}

/// A destination that is handed frames, and gathers the lines of its answers.
#[derive(Drop)]
pub(crate) struct FrameTaker {
    destination: Destination,
    /// The line that was printed last, kept for its room.
    line: String,
    /// The lines that are not written yet.
    output: Vec<u8>,
    /// How many frames the destination has refused.
    pub(crate) refused: u64,
}

impl FrameTaker {
    /// A new destination of `cpus` processors, without lines. `NoMemory` is returned if it cannot be made.
    pub(crate) fn new(alloc: Global, cpus: u8) -> Result<FrameTaker, FramesFault>
        requires low { 1 ≤ cpus }
        requires high { cpus ≤ 16 }
        ensures destination { IfOk result (λ taker. taker.destination ≡ first_destination cpus) }
        ensures output { IfOk result (λ taker. taker.output.items ≡ []) }
        ensures refused { IfOk result (λ taker. taker.refused ≡ 0) }
        ensures err { IfErr result (λ fault. fault ≡ OutOfMemory) }
    {
        let Ok(destination) = Destination::new(alloc, cpus) else {
            return Err(FramesFault::NoMemory);
        };
        Ok(FrameTaker {
            destination,
            line: String::new(alloc),
            output: Vec::new(alloc),
            refused: 0,
        })
    }

    /// Hands over a frame, and gathers the line of the answer.
    fn take(&mut self, epoch: u32, frame: Frame) -> Result<(), NoMemory>
        requires { IsFrame (frame_of frame) }
        ensures destination { OnOk result (self.new.destination ≡
            after_frame self.old.destination (decoded_sent (epoch, frame))) }
        ensures line { OnOk result (self.new.output.items ≡
            self.old.output.items ++
            answer_line self.old.destination (decoded_sent (epoch, frame))) }
        ensures count { OnOk result
            (Adds self.old.refused (refusals_of self.old.destination (decoded_sent (epoch, frame)))
            self.new.refused) }
        ensures err { OnErr result (self.new.output.items ≡ self.old.output.items) }
    {
        let taken = answer(&mut self.destination, epoch, frame, &mut self.line)?;
        self.refused = counted(self.refused, taken);
        self.output.extend_from_slice(self.line.as_bytes())?;
        Ok(())
    }

    /// Hands over frames in turn, and gathers the lines of the answers. `NoMemory` leaves the lines of the frames before it.
    pub(crate) fn take_all(&mut self, frames: Vec<(u32, Frame)>) -> Result<(), NoMemory>
        requires { AreWellFormed (sents frames.items) }
        ensures destination { OnOk result (self.new.destination ≡
            after_frames self.old.destination (sents frames.items)) }
        ensures lines { OnOk result (self.new.output.items ≡
            self.old.output.items ++ answer_lines self.old.destination (sents frames.items)) }
        ensures count { OnOk result
            (Adds self.old.refused (refusals self.old.destination (sents frames.items))
            self.new.refused) }
        ensures err { OnErr result
            (TakesSome self.old.destination (sents frames.items) self.old.output.items
            self.new.output.items) }
    {
        for (epoch, frame) in frames {
            self.take(epoch, frame)?;
        }
        Ok(())
    }

    /// Writes the gathered lines. After a fault the first part of them was written.
    pub(crate) fn write_output<W: Write>(&mut self, writer: &mut W) -> Result<(), FramesFault>
        ensures ok { OnOk result
            (Appends (W.contents writer.old) (W.contents writer.new) self.old.output.items) }
        ensures clean { OnOk result (self.new.output.items ≡ []) }
        ensures same { self.new.destination ≡ self.old.destination }
        ensures refused { self.new.refused ≡ self.old.refused }
        ensures fault { IfErr result (λ fault. fault ≡ WriteFault) }
        ensures front { OnErr result
            (Front self.old.output.items (W.contents writer.old) (W.contents writer.new)) }
    {
        if write_out(writer, &self.output).is_err() {
            return Err(FramesFault::WriteFault);
        }
        self.output.clear();
        Ok(())
    }
}

//! Frames that come back to a source.

ghost use Rattle.std.specs.Prelude.{◌≡◌, ◌⊎◌, Some, None, Err, IfOk, IfErr, OnOk, OnErr};
ghost use Rattle.mig_model.specs.Bounds.{IsFrame};
ghost use Rattle.mig_model.specs.NodeSteps.{acted};
ghost use Rattle.mig_model.specs.SourceSteps.{take};
ghost use Rattle.page_stream.specs.Frames.{frame_of};
ghost use Rattle.nodes.specs.Faults.{returning_fault};
ghost use Rattle.nodes.specs.SourceCalls.{IsReturned, MayNotReturn, posts};
ghost use Rattle.nodes.specs.declared.fault.FrameFault as faults;

use crate::fault::{FrameFault, of_source};
use crate::source::SourceNode;
use frame_decoder::read_text;
use mig_base::effect::Effect;
use page_stream::Frame;

impl SourceNode {
    /// Takes a frame that came back, by the bytes of its text: a Request, a Recv or Done. To a Recv of a destination that has not run, a
    /// source that has switched sends a Discard and a Package, which wait. `NotAFrame` if the bytes are not exactly one text; then
    /// `OutOfPlace`, `StaleEpoch` and `BadOwed`. `NoMemory` may come at any time. A refusal changes nothing.
    pub fn back(&mut self, bytes: &[u8]) -> Result<Effect, FrameFault>
        ensures taken { IfOk result (λ effect. IsReturned bytes.now self.old effect self.new) }
        ensures refused { IfErr result (λ fault. MayNotReturn bytes.now self.old fault) }
        ensures err { OnErr result (self.new ≡ self.old) }
    {
        let Ok(read) = read_text(self.alloc, bytes) else {
            return Err(FrameFault::NoMemory);
        };
        let Some((epoch, frame)) = read else {
            return Err(FrameFault::NotAFrame);
        };
        self.take_frame(epoch, &frame)
    }

    /// Takes a frame that came back. Its answers wait.
    fn take_frame(&mut self, epoch: u32, frame: &Frame) -> Result<Effect, FrameFault>
        requires { IsFrame (frame_of frame.now) }
        ensures accepted { OnOk result (returning_fault self.old.node epoch (frame_of frame.now) ≡
            None) }
        ensures taken { IfOk result (λ effect.
            posts self.old (take self.old.node (frame_of frame.now)) ≡ acted effect self.new) }
        ensures refused { IfErr result (λ fault.
            (fault ≡ faults.FrameFault.NoMemory) ⊎
            (returning_fault self.old.node epoch (frame_of frame.now) ≡ Some fault)) }
        ensures err { OnErr result (self.new ≡ self.old) }
    {
        let Ok(answers) = self.node.answers(frame) else {
            return Err(FrameFault::NoMemory);
        };
        if self.wire.reserve(answers.len()).is_err() {
            return Err(FrameFault::NoMemory);
        }
        match self.node.take(epoch, frame) {
            Ok(()) => {
                self.wire.push_all(self.node.epoch(), answers);
                Ok(frame.effect())
            }
            Err(fault) => Err(of_source(fault)),
        }
    }
}

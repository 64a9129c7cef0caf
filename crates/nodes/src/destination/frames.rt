//! Frames that a destination takes.

ghost use Rattle.std.specs.Prelude.{◌≡◌, ◌≢◌, ◌⊎◌, ◌+◌, ◌*◌, ◌≤◌, ℕ, Some, None, Err, [], length, IfOk, IfErr, OnOk, OnErr};
ghost use Rattle.foundation.specs.declared.TheConstants.{PAGE_SIZE};
ghost use Rattle.mig_base.specs.declared.TheConstants.{HIGH_PAGE};
ghost use Rattle.mig_base.specs.declared.effect.Effect.{Effect};
ghost use Rattle.mig_model.specs.Bounds.{IsFrame, IsPage};
ghost use Rattle.mig_model.specs.Effects.{frame_effect};
ghost use Rattle.mig_model.specs.Wire as machine;
ghost use Rattle.page_stream.specs.Frames.{frame_of};
ghost use Rattle.nodes.specs.Faults.{taking_fault, urgent_taking_fault};
ghost use Rattle.nodes.specs.DestinationCalls.{Handed, IsAnswer, IsLeft, IsTaken, IsTakenUrgently, MayNotTake, MayNotTakeUrgently, Says, after, effect_said, fault_of, taken, urgent_after, urgent_fault_of, urgently_taken, zeros_taken};
ghost use Rattle.nodes.specs.declared.fault.FrameFault as faults;

use crate::destination::DestinationNode;
use crate::fault::{FrameFault, of_take};
use crate::heads::{page_of, run_of};
use frame_decoder::read_text;
use mig_base::effect::Effect;
use mig_base::{PageNo, page_address};
use page_stream::{Frame, Pages};

impl DestinationNode {
    /// Takes a frame of the wire from the source, by its text without the bytes of pages: of a Page its first 16, of a Run its first 20. A
    /// page is taken as one of zeros. To an End, Done waits then; to a Resume, a Recv and the Requests once more.
    ///
    /// `NotAFrame` if the bytes are neither the text of a frame nor a head in version 2; then the refusals of
    /// [`Destination::take`](fault_handler::Destination::take). A refusal changes nothing, but that `NoMemory` of a Run may leave the first
    /// of its pages kept: taking it again keeps all.
    pub fn take(&mut self, bytes: &[u8]) -> Result<Effect, FrameFault>
        ensures taken { IfOk result (λ effect. IsTaken bytes.now self.old effect self.new) }
        ensures refused { IfErr result (λ fault. MayNotTake bytes.now self.old fault) }
        ensures answer { (handed : Handed) → Says bytes.now handed →
            IsAnswer (fault_of self.old.node handed) (effect_said handed) (after self.old handed)
            result self.new }
        ensures err { IfErr result (λ fault. fault ≢ faults.FrameFault.NoMemory →
            self.new ≡ self.old) }
        ensures left { OnErr result (IsLeft bytes.now self.old self.new) }
    {
        self.take_what_is_said(bytes)
    }

    /// Takes what the bytes say.
    fn take_what_is_said(&mut self, bytes: &[u8]) -> Result<Effect, FrameFault>
        ensures taken { IfOk result (λ effect. IsTaken bytes.now self.old effect self.new) }
        ensures refused { IfErr result (λ fault. MayNotTake bytes.now self.old fault) }
        ensures err { IfErr result (λ fault. fault ≢ faults.FrameFault.NoMemory →
            self.new ≡ self.old) }
        ensures left { OnErr result (IsLeft bytes.now self.old self.new) }
    {
        if let Some((epoch, page)) = page_of(bytes) {
            return self.take_zero(epoch, page);
        }
        if let Some(run) = run_of(bytes) {
            return self.take_run(run.epoch, run.first, run.count);
        }
        let Ok(read) = read_text(self.alloc, bytes) else {
            return Err(FrameFault::NoMemory);
        };
        let Some((epoch, frame)) = read else {
            return Err(FrameFault::NotAFrame);
        };
        self.take_frame(epoch, frame)
    }

    /// Takes a frame of the urgent wire, by its text, or the first 16 bytes of a Page. `NotAFrame` as above; then the refusals of
    /// [`Destination::take_urgent`](fault_handler::Destination::take_urgent). A refusal changes nothing.
    pub fn take_urgent(&mut self, bytes: &[u8]) -> Result<Effect, FrameFault>
        ensures taken { IfOk result (λ effect. IsTakenUrgently bytes.now self.old effect self.new) }
        ensures refused { IfErr result (λ fault. MayNotTakeUrgently bytes.now self.old fault) }
        ensures answer { (handed : Handed) → Says bytes.now handed →
            IsAnswer (urgent_fault_of self.old.node handed) (effect_said handed)
            (urgent_after self.old handed) result self.new }
        ensures err { OnErr result (self.new ≡ self.old) }
    {
        self.take_aside(bytes)
    }

    /// Takes the frame of the urgent wire that the bytes say.
    fn take_aside(&mut self, bytes: &[u8]) -> Result<Effect, FrameFault>
        ensures taken { IfOk result (λ effect. IsTakenUrgently bytes.now self.old effect self.new) }
        ensures refused { IfErr result (λ fault. MayNotTakeUrgently bytes.now self.old fault) }
        ensures err { OnErr result (self.new ≡ self.old) }
    {
        if let Some((epoch, page)) = page_of(bytes) {
            return self.take_urgent_frame(epoch, Frame::Zero { page });
        }
        let Ok(read) = read_text(self.alloc, bytes) else {
            return Err(FrameFault::NoMemory);
        };
        let Some((epoch, frame)) = read else {
            return Err(FrameFault::NotAFrame);
        };
        self.take_urgent_frame(epoch, frame)
    }

    /// Takes a frame of the urgent wire.
    fn take_urgent_frame(&mut self, epoch: u32, frame: Frame) -> Result<Effect, FrameFault>
        requires { IsFrame (frame_of frame) }
        ensures accepted { OnOk result (urgent_taking_fault self.old.node epoch (frame_of frame) ≡
            None) }
        ensures effect { IfOk result (λ effect. effect ≡ frame_effect (frame_of frame)) }
        ensures taken { OnOk result (self.new ≡ urgently_taken self.old (frame_of frame)) }
        ensures refused { IfErr result (λ fault.
            (fault ≡ faults.FrameFault.NoMemory) ⊎
            (urgent_taking_fault self.old.node epoch (frame_of frame) ≡ Some fault)) }
        ensures err { OnErr result (self.new ≡ self.old) }
    {
        let effect = frame.effect();
        match self.node.take_urgent(epoch, frame) {
            Ok(()) => Ok(effect),
            Err(fault) => Err(of_take(fault)),
        }
    }

    /// Takes a frame of the wire from the source. Its answers wait.
    fn take_frame(&mut self, epoch: u32, frame: Frame) -> Result<Effect, FrameFault>
        requires { IsFrame (frame_of frame) }
        ensures accepted { OnOk result (taking_fault self.old.node epoch (frame_of frame) ≡ None) }
        ensures effect { IfOk result (λ effect. effect ≡ frame_effect (frame_of frame)) }
        ensures taken { OnOk result (self.new ≡ taken self.old epoch (frame_of frame)) }
        ensures refused { IfErr result (λ fault.
            (fault ≡ faults.FrameFault.NoMemory) ⊎
            (taking_fault self.old.node epoch (frame_of frame) ≡ Some fault)) }
        ensures err { OnErr result (self.new ≡ self.old) }
    {
        let effect = frame.effect();
        let Ok(answers) = self.node.answers(&frame) else {
            return Err(FrameFault::NoMemory);
        };
        if self.wire.reserve(answers.len()).is_err() {
            return Err(FrameFault::NoMemory);
        }
        match self.node.take(epoch, frame) {
            Ok(()) => {
                self.wire.push_all(self.node.epoch(), answers);
                Ok(effect)
            }
            Err(fault) => Err(of_take(fault)),
        }
    }

    /// Takes a page as one of zeros, to which nothing is answered.
    fn take_zero(&mut self, epoch: u32, page: PageNo) -> Result<Effect, FrameFault>
        requires { IsPage page }
        ensures accepted { OnOk result
            (taking_fault self.old.node epoch (machine.Frame.Zero page) ≡ None) }
        ensures effect { IfOk result (λ effect. effect ≡ frame_effect (machine.Frame.Zero page)) }
        ensures taken { OnOk result (self.new ≡ taken self.old epoch (machine.Frame.Zero page)) }
        ensures refused { IfErr result (λ fault.
            (fault ≡ faults.FrameFault.NoMemory) ⊎
            (taking_fault self.old.node epoch (machine.Frame.Zero page) ≡ Some fault)) }
        ensures err { OnErr result (self.new ≡ self.old) }
    {
        match self.node.take(epoch, Frame::Zero { page }) {
            Ok(()) => Ok(Effect::TookZero {
                addr: page_address(page),
            }),
            Err(fault) => Err(of_take(fault)),
        }
    }

    /// Takes the pages of a Run as pages of zeros, one after the other.
    fn take_run(&mut self, epoch: u32, first: PageNo, count: u32) -> Result<Effect, FrameFault>
        requires first { IsPage first }
        requires last { first + count ≤ HIGH_PAGE }
        ensures accepted { OnOk result
            (taking_fault self.old.node epoch (machine.Frame.Run first []) ≡ None) }
        ensures effect { IfOk result (λ effect. effect ≡ Effect.TookRun (PAGE_SIZE * first) count) }
        ensures taken { OnOk result (self.new ≡ zeros_taken self.old epoch first count) }
        ensures refused { IfErr result (λ fault.
            (fault ≡ faults.FrameFault.NoMemory) ⊎
            (taking_fault self.old.node epoch (machine.Frame.Run first []) ≡ Some fault)) }
        ensures err { IfErr result (λ fault. fault ≢ faults.FrameFault.NoMemory →
            self.new ≡ self.old) }
        ensures left { OnErr result
            ((kept : ℕ) × (kept ≤ count) × (self.new ≡ zeros_taken self.old epoch first kept)) }
    {
        let run = Frame::Run {
            first,
            pages: Pages::new(Vec::new(self.alloc)),
        };
        if let Some(fault) = self.node.take_fault(epoch, &run) {
            return Err(of_take(fault));
        }
        for i in 0..count {
            let zero = Frame::Zero { page: first + i };
            if self.node.take(epoch, zero).is_err() {
                return Err(FrameFault::NoMemory);
            }
        }
        Ok(Effect::TookRun {
            addr: page_address(first),
            pages: count,
        })
    }
}

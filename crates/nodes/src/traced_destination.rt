//! A destination of its own, with its trace.

ghost use Rattle.std.specs.Prelude.{◌≡◌, ◌≢◌, ◌⊎◌, IfOk, IfErr, OnErr};
ghost use Rattle.mig_base.specs.declared.refusal.Refusal as refusals;
ghost use Rattle.mig_base.specs.declared.schedule.Step as machine;
ghost use Rattle.mig_laws.specs.Sides.{Line};
ghost use Rattle.mig_model.specs.NodeSteps.{IsRefusedFor, acted};
ghost use Rattle.nodes.specs.DestinationCalls.{IsLeft, IsTaken, IsTakenUrgently, MayNotTake, MayNotTakeUrgently, answer};
ghost use Rattle.nodes.specs.Lines.{IsDestinationLine, IsLoggedTake, IsLoggedUrgently, RanByPhase};
ghost use Rattle.nodes.specs.Traces.{and_line, destination_step, whole_frame};
ghost use Rattle.nodes.specs.declared.fault.FrameFault as faults;

use crate::destination::DestinationNode;
use crate::fault::FrameFault;
use crate::steps::DestinationStep;
use crate::traced::Traced;
use mig_base::effect::Effect;
use mig_base::refusal::Refusal;
use mig_base::schedule::{Side, Step};

/// A destination, and the steps that it has made since its trace was begun, until they are taken.
pub type TracedDestination = Traced<DestinationNode>;

/// The step of a world that a call of a destination makes.
fn step_of(step: DestinationStep) -> Step
    ensures { result ≡ destination_step step }
{
    match step {
        DestinationStep::Issue { cpu, command } => Step::Issue { cpu, command },
        DestinationStep::Retry { cpu } => Step::Retry { cpu },
        DestinationStep::Read => Step::DestRead,
        DestinationStep::Act => Step::DestAct,
        DestinationStep::Install => Step::Install,
        DestinationStep::Notice => Step::Notice(Side::Destination),
    }
}

impl TracedDestination {
    /// Makes a step, as [`DestinationNode::step`]. Its line waits then, if there is a trace. In the log of the destination it is the step of
    /// a world of the same name.
    pub fn step(&mut self, step: DestinationStep) -> Result<Effect, Refusal>
        ensures made { IfOk result (λ effect.
            answer step self.old.node ≡ acted effect self.new.node) }
        ensures line { IfOk result (λ effect.
            self.new.trace ≡ and_line self.old.trace (destination_step step) effect) }
        ensures logged { IfOk result (λ effect.
            IsDestinationLine self.old.node (Line.Made (destination_step step)) effect
            self.new.node) }
        ensures phase { RanByPhase self.old.node.node → RanByPhase self.new.node.node }
        ensures refused { IfErr result (λ refusal.
            (refusal ≡ refusals.Refusal.NoMemory) ⊎
            IsRefusedFor (answer step self.old.node) refusal) }
        ensures err { OnErr result (self.new ≡ self.old) }
    {
        self.trace.reserve()?;
        let effect = self.node.step(step)?;
        self.trace.add(step_of(step), effect);
        Ok(effect)
    }

    /// Takes a frame of the wire from the source, as [`DestinationNode::take`]. The line of that delivery waits then, if there is a trace. In
    /// the log of the destination it is the taking of that frame; a run, whose pages are kept one by one, is one of pages of zeros.
    pub fn take(&mut self, bytes: &[u8]) -> Result<Effect, FrameFault>
        ensures taken { IfOk result (λ effect.
            IsTaken bytes.now self.old.node effect self.new.node) }
        ensures line { IfOk result (λ effect.
            self.new.trace ≡ and_line self.old.trace (machine.Step.Deliver whole_frame) effect) }
        ensures logged { IfOk result (λ effect.
            IsLoggedTake bytes.now self.old.node effect self.new.node) }
        ensures phase { RanByPhase self.old.node.node → RanByPhase self.new.node.node }
        ensures refused { IfErr result (λ fault. MayNotTake bytes.now self.old.node fault) }
        ensures err { IfErr result (λ fault. fault ≢ faults.FrameFault.NoMemory →
            self.new ≡ self.old) }
        ensures left { OnErr result (IsLeft bytes.now self.old.node self.new.node) }
        ensures no_line { OnErr result (self.new.trace ≡ self.old.trace) }
    {
        if self.trace.reserve().is_err() {
            return Err(FrameFault::NoMemory);
        }
        let effect = self.node.take(bytes)?;
        self.trace.add(Step::Deliver { n: u64::MAX }, effect);
        Ok(effect)
    }

    /// Takes a frame of the urgent wire, as [`DestinationNode::take_urgent`]. The line of that delivery waits then, if there is a trace. In
    /// the log of the destination it is the taking of that frame.
    pub fn take_urgent(&mut self, bytes: &[u8]) -> Result<Effect, FrameFault>
        ensures taken { IfOk result (λ effect.
            IsTakenUrgently bytes.now self.old.node effect self.new.node) }
        ensures line { IfOk result (λ effect.
            self.new.trace ≡
            and_line self.old.trace (machine.Step.DeliverUrgent whole_frame) effect) }
        ensures logged { IfOk result (λ effect.
            IsLoggedUrgently bytes.now self.old.node effect self.new.node) }
        ensures phase { RanByPhase self.old.node.node → RanByPhase self.new.node.node }
        ensures refused { IfErr result (λ fault.
            MayNotTakeUrgently bytes.now self.old.node fault) }
        ensures err { OnErr result (self.new ≡ self.old) }
    {
        if self.trace.reserve().is_err() {
            return Err(FrameFault::NoMemory);
        }
        let effect = self.node.take_urgent(bytes)?;
        self.trace.add(Step::DeliverUrgent { n: u64::MAX }, effect);
        Ok(effect)
    }
}

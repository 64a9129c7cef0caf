//! A source of its own, with its trace.

ghost use Rattle.std.specs.Prelude.{◌≡◌, ◌⊎◌, IfOk, IfErr, OnErr};
ghost use Rattle.mig_base.specs.declared.refusal.Refusal as refusals;
ghost use Rattle.mig_base.specs.declared.schedule.Step as machine;
ghost use Rattle.mig_laws.specs.Sides.{Line};
ghost use Rattle.mig_model.specs.NodeSteps.{acted};
ghost use Rattle.nodes.specs.Lines.{IsLoggedBack, IsSourceLine};
ghost use Rattle.nodes.specs.SourceCalls.{IsReturned, MayBeRefused, MayNotReturn, answer};
ghost use Rattle.nodes.specs.Traces.{and_line, source_step, whole_frame};

use crate::fault::FrameFault;
use crate::source::SourceNode;
use crate::steps::SourceStep;
use crate::traced::Traced;
use mig_base::MAX_RUN;
use mig_base::effect::Effect;
use mig_base::refusal::Refusal;
use mig_base::schedule::{Side, Step};

/// A source, and the steps that it has made since its trace was begun, until they are taken.
pub type TracedSource = Traced<SourceNode>;

/// The step of a world that a call of a source makes.
fn step_of(step: SourceStep) -> Step
    ensures { result ≡ source_step step }
{
    match step {
        SourceStep::Issue { cpu, command } => Step::Issue { cpu, command },
        SourceStep::Retry { cpu } => Step::Retry { cpu },
        SourceStep::Start => Step::Start,
        SourceStep::Round => Step::Round,
        SourceStep::Send => Step::Send,
        SourceStep::RunSent { most } => Step::SendRun {
            count: most.max(1).min(MAX_RUN),
        },
        SourceStep::Read => Step::SourceRead,
        SourceStep::Act => Step::SourceAct,
        SourceStep::Switch => Step::Switch,
        SourceStep::Push(ticket) => Step::Push(ticket),
        SourceStep::PushUrgent(ticket) => Step::PushUrgent(ticket),
        SourceStep::Serve => Step::Serve,
        SourceStep::End => Step::End,
        SourceStep::Notice => Step::Notice(Side::Source),
        SourceStep::Resume => Step::Resume,
    }
}

impl TracedSource {
    /// Makes a step, as [`SourceNode::step`]. Its line waits then, if there is a trace. In the log of the source it is the step of a world of
    /// the same name, with 1 to MAX_RUN pages of a run.
    pub fn step(&mut self, step: SourceStep) -> Result<Effect, Refusal>
        ensures made { IfOk result (λ effect.
            answer step self.old.node ≡ acted effect self.new.node) }
        ensures line { IfOk result (λ effect.
            self.new.trace ≡ and_line self.old.trace (source_step step) effect) }
        ensures logged { IfOk result (λ effect.
            IsSourceLine self.old.node (Line.Made (source_step step)) effect self.new.node) }
        ensures refused { IfErr result (λ refusal.
            (refusal ≡ refusals.Refusal.NoMemory) ⊎ MayBeRefused step self.old.node refusal) }
        ensures err { OnErr result (self.new ≡ self.old) }
    {
        self.trace.reserve()?;
        let effect = self.node.step(step)?;
        self.trace.add(step_of(step), effect);
        Ok(effect)
    }

    /// Takes a frame that came back, as [`SourceNode::back`]. The line of that delivery waits then, if there is a trace. In the log of the
    /// source it is the taking of that frame.
    pub fn back(&mut self, bytes: &[u8]) -> Result<Effect, FrameFault>
        ensures taken { IfOk result (λ effect.
            IsReturned bytes.now self.old.node effect self.new.node) }
        ensures line { IfOk result (λ effect.
            self.new.trace ≡
            and_line self.old.trace (machine.Step.DeliverBack whole_frame) effect) }
        ensures logged { IfOk result (λ effect.
            IsLoggedBack bytes.now self.old.node effect self.new.node) }
        ensures refused { IfErr result (λ fault. MayNotReturn bytes.now self.old.node fault) }
        ensures err { OnErr result (self.new ≡ self.old) }
    {
        if self.trace.reserve().is_err() {
            return Err(FrameFault::NoMemory);
        }
        let effect = self.node.back(bytes)?;
        self.trace.add(Step::DeliverBack { n: u64::MAX }, effect);
        Ok(effect)
    }
}

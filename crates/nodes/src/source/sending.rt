//! The steps of a source that send frames without page bytes. Each makes room for them first, so that no frame is lost.

ghost use Rattle.std.specs.Prelude.{◌≡◌, IfOk, IfErr, OnErr};
ghost use Rattle.mig_model.specs.NodeSteps.{IsRefusedFor, acted};
ghost use Rattle.nodes.specs.SourceCalls.{MayBeRefused, answer};
ghost use Rattle.nodes.specs.declared.steps.SourceStep as steps;

use crate::source::SourceNode;
use mig_base::effect::Effect;
use mig_base::refusal::Refusal;

impl SourceNode {
    /// A migration begins: Advise waits.
    pub(super) fn start(&mut self) -> Result<Effect, Refusal>
        ensures made { IfOk result (λ effect.
            answer steps.SourceStep.Start self.old ≡ acted effect self.new) }
        ensures refused { IfErr result (λ refusal.
            MayBeRefused steps.SourceStep.Start self.old refusal) }
        ensures err { OnErr result (self.new ≡ self.old) }
    {
        if self.wire.reserve(1).is_err() {
            self.node.check_start()?;
            return Err(Refusal::NoMemory);
        }
        let (effect, frame) = self.node.start()?;
        self.wire.push(self.node.epoch(), frame);
        Ok(effect)
    }

    /// The processors stop for good: Discard and Package wait.
    pub(super) fn switch(&mut self) -> Result<Effect, Refusal>
        ensures made { IfOk result (λ effect.
            answer steps.SourceStep.Switch self.old ≡ acted effect self.new) }
        ensures refused { IfErr result (λ refusal.
            MayBeRefused steps.SourceStep.Switch self.old refusal) }
        ensures err { OnErr result (self.new ≡ self.old) }
    {
        if self.wire.reserve(2).is_err() {
            self.node.check_switch()?;
            return Err(Refusal::NoMemory);
        }
        let (effect, discard, package) = self.node.switch()?;
        let epoch = self.node.epoch();
        self.wire.push(epoch, discard);
        self.wire.push(epoch, package);
        Ok(effect)
    }

    /// Nothing more is sent: End waits.
    pub(super) fn end(&mut self) -> Result<Effect, Refusal>
        ensures made { IfOk result (λ effect.
            answer steps.SourceStep.End self.old ≡ acted effect self.new) }
        ensures refused { IfErr result (λ refusal.
            MayBeRefused steps.SourceStep.End self.old refusal) }
        ensures err { OnErr result (self.new ≡ self.old) }
    {
        if self.wire.reserve(1).is_err() {
            self.node.check_end()?;
            return Err(Refusal::NoMemory);
        }
        let (effect, frame) = self.node.end()?;
        self.wire.push(self.node.epoch(), frame);
        Ok(effect)
    }

    /// The next epoch begins, over a new channel: Resume waits.
    pub(super) fn resume(&mut self) -> Result<Effect, Refusal>
        ensures made { IfOk result (λ effect.
            answer steps.SourceStep.Resume self.old ≡ acted effect self.new) }
        ensures refused { IfErr result (λ refusal.
            MayBeRefused steps.SourceStep.Resume self.old refusal) }
        ensures err { OnErr result (self.new ≡ self.old) }
    {
        if self.wire.reserve(1).is_err() {
            self.node.check_resume()?;
            return Err(Refusal::NoMemory);
        }
        let (effect, frame) = self.node.resume()?;
        self.wire.push(self.node.epoch(), frame);
        Ok(effect)
    }
}

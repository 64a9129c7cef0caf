//! The steps of a destination.

ghost use Rattle.std.specs.Prelude.{◌≡◌, IfOk, IfErr, OnErr};
ghost use Rattle.mig_base.specs.declared.command.Command.{Command};
ghost use Rattle.mig_model.specs.NodeSteps.{IsRefusedFor, acted};
ghost use Rattle.nodes.specs.DestinationCalls.{answer};
ghost use Rattle.nodes.specs.declared.steps.DestinationStep as steps;

use crate::destination::DestinationNode;
use mig_base::Command;
use mig_base::effect::Effect;
use mig_base::refusal::Refusal;

impl DestinationNode {
    /// A processor makes a command.
    pub(super) fn issue(&mut self, cpu: u8, command: Command) -> Result<Effect, Refusal>
        ensures made { IfOk result (λ effect.
            answer (steps.DestinationStep.Issue cpu command) self.old ≡ acted effect self.new) }
        ensures refused { IfErr result (λ refusal.
            IsRefusedFor (answer (steps.DestinationStep.Issue cpu command) self.old) refusal) }
        ensures err { OnErr result (self.new ≡ self.old) }
    {
        let tried = self.node.issue(cpu, command)?;
        Ok(tried.effect)
    }

    /// A processor that was woken makes its load or store again.
    pub(super) fn retry(&mut self, cpu: u8) -> Result<Effect, Refusal>
        ensures made { IfOk result (λ effect.
            answer (steps.DestinationStep.Retry cpu) self.old ≡ acted effect self.new) }
        ensures refused { IfErr result (λ refusal.
            IsRefusedFor (answer (steps.DestinationStep.Retry cpu) self.old) refusal) }
        ensures err { OnErr result (self.new ≡ self.old) }
    {
        let tried = self.node.retry(cpu)?;
        Ok(tried.effect)
    }

    /// The handler reads a message.
    pub(super) fn read(&mut self) -> Result<Effect, Refusal>
        ensures made { IfOk result (λ effect.
            answer steps.DestinationStep.Read self.old ≡ acted effect self.new) }
        ensures refused { IfErr result (λ refusal.
            IsRefusedFor (answer steps.DestinationStep.Read self.old) refusal) }
        ensures err { OnErr result (self.new ≡ self.old) }
    {
        self.node.read()
    }

    /// The handler resolves the first fault that it has read. A Request that it sends waits.
    pub(super) fn act(&mut self) -> Result<Effect, Refusal>
        ensures made { IfOk result (λ effect.
            answer steps.DestinationStep.Act self.old ≡ acted effect self.new) }
        ensures refused { IfErr result (λ refusal.
            IsRefusedFor (answer steps.DestinationStep.Act self.old) refusal) }
        ensures err { OnErr result (self.new ≡ self.old) }
    {
        if self.wire.reserve(1).is_err() {
            self.node.check_act()?;
            return Err(Refusal::NoMemory);
        }
        let (effect, request) = self.node.act()?;
        if let Some(frame) = request {
            self.wire.push(self.node.epoch(), frame);
        }
        Ok(effect)
    }

    /// The first copy that has arrived is installed or dropped: the caller has its bytes.
    pub(super) fn install(&mut self) -> Result<Effect, Refusal>
        ensures made { IfOk result (λ effect.
            answer steps.DestinationStep.Install self.old ≡ acted effect self.new) }
        ensures refused { IfErr result (λ refusal.
            IsRefusedFor (answer steps.DestinationStep.Install self.old) refusal) }
        ensures err { OnErr result (self.new ≡ self.old) }
    {
        self.node.install()
    }

    /// The destination notices that the channel is broken.
    pub(super) fn notice(&mut self) -> Result<Effect, Refusal>
        ensures made { IfOk result (λ effect.
            answer steps.DestinationStep.Notice self.old ≡ acted effect self.new) }
        ensures refused { IfErr result (λ refusal.
            IsRefusedFor (answer steps.DestinationStep.Notice self.old) refusal) }
        ensures err { OnErr result (self.new ≡ self.old) }
    {
        self.node.notice()
    }
}

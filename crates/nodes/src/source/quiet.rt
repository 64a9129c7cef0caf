//! The steps of a source of which no frame waits: those that send nothing, and those whose page the caller sends.

ghost use Rattle.std.specs.Prelude.{◌≡◌, IfOk, IfErr, OnErr};
ghost use Rattle.mig_base.specs.declared.command.Command.{Command};
ghost use Rattle.mig_model.specs.NodeSteps.{IsRefusedFor, acted};
ghost use Rattle.nodes.specs.SourceCalls.{MayBeRefused, answer};
ghost use Rattle.nodes.specs.declared.steps.SourceStep as steps;

use crate::source::SourceNode;
use mig_base::Command;
use mig_base::effect::Effect;
use mig_base::refusal::Refusal;
use mig_base::schedule::Ticket;

impl SourceNode {
    /// A processor makes a command.
    pub(super) fn issue(&mut self, cpu: u8, command: Command) -> Result<Effect, Refusal>
        ensures made { IfOk result (λ effect.
            answer (steps.SourceStep.Issue cpu command) self.old ≡ acted effect self.new) }
        ensures refused { IfErr result (λ refusal.
            MayBeRefused (steps.SourceStep.Issue cpu command) self.old refusal) }
        ensures err { OnErr result (self.new ≡ self.old) }
    {
        let tried = self.node.issue(cpu, command)?;
        Ok(tried.effect)
    }

    /// A processor that was woken makes its load or store again.
    pub(super) fn retry(&mut self, cpu: u8) -> Result<Effect, Refusal>
        ensures made { IfOk result (λ effect.
            answer (steps.SourceStep.Retry cpu) self.old ≡ acted effect self.new) }
        ensures refused { IfErr result (λ refusal.
            MayBeRefused (steps.SourceStep.Retry cpu) self.old refusal) }
        ensures err { OnErr result (self.new ≡ self.old) }
    {
        let tried = self.node.retry(cpu)?;
        Ok(tried.effect)
    }

    /// A round of pre-copy begins.
    pub(super) fn round(&mut self) -> Result<Effect, Refusal>
        ensures made { IfOk result (λ effect.
            answer steps.SourceStep.Round self.old ≡ acted effect self.new) }
        ensures refused { IfErr result (λ refusal.
            MayBeRefused steps.SourceStep.Round self.old refusal) }
        ensures err { OnErr result (self.new ≡ self.old) }
    {
        self.node.round()
    }

    /// The least page of the round is sent: the caller has its bytes.
    pub(super) fn send(&mut self) -> Result<Effect, Refusal>
        ensures made { IfOk result (λ effect.
            answer steps.SourceStep.Send self.old ≡ acted effect self.new) }
        ensures refused { IfErr result (λ refusal.
            MayBeRefused steps.SourceStep.Send self.old refusal) }
        ensures err { OnErr result (self.new ≡ self.old) }
    {
        let (effect, _page, _sent) = self.node.send_next()?;
        Ok(effect)
    }

    /// A run of pages is sent: the caller has their bytes.
    pub(super) fn run_sent(&mut self, most: u8) -> Result<Effect, Refusal>
        ensures made { IfOk result (λ effect.
            answer (steps.SourceStep.RunSent most) self.old ≡ acted effect self.new) }
        ensures refused { IfErr result (λ refusal.
            MayBeRefused (steps.SourceStep.RunSent most) self.old refusal) }
        ensures err { OnErr result (self.new ≡ self.old) }
    {
        let (effect, _first, _count) = self.node.run_sent(most)?;
        Ok(effect)
    }

    /// The handler reads a message.
    pub(super) fn read(&mut self) -> Result<Effect, Refusal>
        ensures made { IfOk result (λ effect.
            answer steps.SourceStep.Read self.old ≡ acted effect self.new) }
        ensures refused { IfErr result (λ refusal.
            MayBeRefused steps.SourceStep.Read self.old refusal) }
        ensures err { OnErr result (self.new ≡ self.old) }
    {
        self.node.read()
    }

    /// The handler resolves the first fault that it has read.
    pub(super) fn act(&mut self) -> Result<Effect, Refusal>
        ensures made { IfOk result (λ effect.
            answer steps.SourceStep.Act self.old ≡ acted effect self.new) }
        ensures refused { IfErr result (λ refusal.
            MayBeRefused steps.SourceStep.Act self.old refusal) }
        ensures err { OnErr result (self.new ≡ self.old) }
    {
        self.node.act()
    }

    /// An owed page is sent: the caller has its bytes.
    pub(super) fn push(&mut self, ticket: Ticket) -> Result<Effect, Refusal>
        ensures made { IfOk result (λ effect.
            answer (steps.SourceStep.Push ticket) self.old ≡ acted effect self.new) }
        ensures refused { IfErr result (λ refusal.
            MayBeRefused (steps.SourceStep.Push ticket) self.old refusal) }
        ensures err { OnErr result (self.new ≡ self.old) }
    {
        let (effect, _sent) = self.node.push(ticket)?;
        Ok(effect)
    }

    /// An owed page is sent on the urgent wire: the caller has its bytes.
    pub(super) fn push_urgent(&mut self, ticket: Ticket) -> Result<Effect, Refusal>
        ensures made { IfOk result (λ effect.
            answer (steps.SourceStep.PushUrgent ticket) self.old ≡ acted effect self.new) }
        ensures refused { IfErr result (λ refusal.
            MayBeRefused (steps.SourceStep.PushUrgent ticket) self.old refusal) }
        ensures err { OnErr result (self.new ≡ self.old) }
    {
        let (effect, _sent) = self.node.push_urgent(ticket)?;
        Ok(effect)
    }

    /// The oldest request is dequeued.
    pub(super) fn serve(&mut self) -> Result<Effect, Refusal>
        ensures made { IfOk result (λ effect.
            answer steps.SourceStep.Serve self.old ≡ acted effect self.new) }
        ensures refused { IfErr result (λ refusal.
            MayBeRefused steps.SourceStep.Serve self.old refusal) }
        ensures err { OnErr result (self.new ≡ self.old) }
    {
        self.node.serve()
    }

    /// The source notices that the channel is broken.
    pub(super) fn notice(&mut self) -> Result<Effect, Refusal>
        ensures made { IfOk result (λ effect.
            answer steps.SourceStep.Notice self.old ≡ acted effect self.new) }
        ensures refused { IfErr result (λ refusal.
            MayBeRefused steps.SourceStep.Notice self.old refusal) }
        ensures err { OnErr result (self.new ≡ self.old) }
    {
        self.node.notice()
    }
}

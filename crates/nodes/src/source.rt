//! A source of its own.

ghost use Rattle.std.specs.Prelude.{◌≡◌, ◌↔◌, false, IfOk, IfErr, OnErr, Err};
ghost use Rattle.mig_model.specs.NodeSteps.{IsRefusedFor, acted};
ghost use Rattle.mig_model.specs.Source.{first_source};
ghost use Rattle.mig_model.specs.Wire.{empty_wire};
ghost use Rattle.vcpu.specs.Answers.{is_count};
ghost use Rattle.nodes.specs.SourceCalls.{MayBeRefused, answer};
ghost use Rattle.nodes.specs.declared.steps.SourceStep as steps;

mod back;
mod quiet;
mod sending;

use crate::posting::Posting;
use crate::steps::SourceStep;
use mig_base::effect::Effect;
use mig_base::refusal::Refusal;
use precopy::Source;
use std::alloc::Global;
use vcpu::NewFault;
use wires::Wire;

/// A source, and the frames that it has sent and that were not collected yet.
pub type SourceNode = Posting<Source>;

impl SourceNode {
    /// A source of `cpus` idle processors, on which nothing is mapped and no migration has begun. Its counts of epochs and of rounds begin
    /// at the numbers given. `NoCpu` unless there are 1 to 16 processors; `NoMemory` if they cannot be allocated.
    pub fn new(alloc: Global, cpus: u8, epoch: u32, rounds: u32) -> Result<Self, NewFault>
        ensures ok { IfOk result (λ made.
            made ≡ record { node = first_source cpus epoch rounds; wire = empty_wire }) }
        ensures no_cpu { (result ≡ Err NewFault.NoCpu) ↔ (is_count cpus ≡ false) }
    {
        let node = Source::new(alloc, cpus, epoch, rounds)?;
        Ok(SourceNode {
            alloc,
            node,
            wire: Wire::new(alloc),
        })
    }

    /// Makes a step. If several refusals apply, the first in the order of [`Refusal`] is returned, and `NoMemory` comes after all others.
    pub fn step(&mut self, step: SourceStep) -> Result<Effect, Refusal>
        ensures made { IfOk result (λ effect. answer step self.old ≡ acted effect self.new) }
        ensures refused { IfErr result (λ refusal. MayBeRefused step self.old refusal) }
        ensures err { OnErr result (self.new ≡ self.old) }
    {
        match step {
            SourceStep::Issue { cpu, command } => self.issue(cpu, command),
            SourceStep::Retry { cpu } => self.retry(cpu),
            SourceStep::Start => self.start(),
            SourceStep::Round => self.round(),
            SourceStep::Send => self.send(),
            SourceStep::RunSent { most } => self.run_sent(most),
            SourceStep::Read => self.read(),
            SourceStep::Act => self.act(),
            SourceStep::Switch => self.switch(),
            SourceStep::Push(ticket) => self.push(ticket),
            SourceStep::PushUrgent(ticket) => self.push_urgent(ticket),
            SourceStep::Serve => self.serve(),
            SourceStep::End => self.end(),
            SourceStep::Notice => self.notice(),
            SourceStep::Resume => self.resume(),
        }
    }
}

//! A destination of its own.

ghost use Rattle.std.specs.Prelude.{◌≡◌, ◌↔◌, false, IfOk, IfErr, OnErr, Err};
ghost use Rattle.mig_model.specs.Destination.{first_destination};
ghost use Rattle.mig_model.specs.NodeSteps.{IsRefusedFor, acted};
ghost use Rattle.mig_model.specs.Wire.{empty_wire};
ghost use Rattle.vcpu.specs.Answers.{is_count};
ghost use Rattle.nodes.specs.DestinationCalls.{answer};
ghost use Rattle.nodes.specs.Lines.{RanByPhase};

mod frames;
mod steps;

use crate::posting::Posting;
use crate::steps::DestinationStep;
use fault_handler::Destination;
use mig_base::effect::Effect;
use mig_base::refusal::Refusal;
use std::alloc::Global;
use vcpu::NewFault;
use wires::Wire;

/// A destination, and the frames that it has sent back and that were not collected yet.
pub type DestinationNode = Posting<Destination>;

impl DestinationNode {
    /// A destination of `cpus` idle processors, which knows of no migration. `NoCpu` unless there are 1 to 16 processors; `NoMemory` if
    /// they cannot be allocated.
    pub fn new(alloc: Global, cpus: u8) -> Result<Self, NewFault>
        ensures ok { IfOk result (λ made.
            made ≡ record { node = first_destination cpus; wire = empty_wire }) }
        ensures phase { IfOk result (λ made. RanByPhase made.node) }
        ensures no_cpu { (result ≡ Err NewFault.NoCpu) ↔ (is_count cpus ≡ false) }
    {
        let node = Destination::new(alloc, cpus)?;
        Ok(DestinationNode {
            alloc,
            node,
            wire: Wire::new(alloc),
        })
    }

    /// Makes a step. If several refusals apply, the first in the order of [`Refusal`] is returned, and `NoMemory` comes after all others.
    pub fn step(&mut self, step: DestinationStep) -> Result<Effect, Refusal>
        ensures made { IfOk result (λ effect. answer step self.old ≡ acted effect self.new) }
        ensures refused { IfErr result (λ refusal. IsRefusedFor (answer step self.old) refusal) }
        ensures err { OnErr result (self.new ≡ self.old) }
    {
        match step {
            DestinationStep::Issue { cpu, command } => self.issue(cpu, command),
            DestinationStep::Retry { cpu } => self.retry(cpu),
            DestinationStep::Read => self.read(),
            DestinationStep::Act => self.act(),
            DestinationStep::Install => self.install(),
            DestinationStep::Notice => self.notice(),
        }
    }
}

//! The parts of a world, and their steps.

ghost use Rattle.std.specs.Prelude.{◌≡◌, ◌↔◌, true, IfOk};
ghost use Rattle.mig_model.specs.Migration.{guest_of, runs};
ghost use Rattle.mig_model.specs.Runs.{Happens};
ghost use Rattle.world.specs.Worlds.{IsWorld, world_of};

mod breaks;
mod commands;
mod deliveries;
mod handlers;
mod pushes;
mod rounds;
mod would;

pub(crate) use self::would::bytes_on;
use fault_handler::Destination;
use mig_base::effect::Effect;
use mig_base::refusal::Refusal;
use mig_base::schedule::Step;
use mig_base::{Entry, NoMemory};
use precopy::Source;
use std::alloc::Global;
use vcpu::Cpus;
use wires::Wire;

/// The parts of a world. Their invariant is the world's: each step requires it, and keeps it because the step is the machine's.
#[derive(Drop)]
pub(crate) struct Parts {
    pub(crate) alloc: Global,
    pub(crate) source: Source,
    pub(crate) destination: Destination,
    pub(crate) forward: Wire,
    pub(crate) back: Wire,
    pub(crate) urgent: Wire,
    pub(crate) up: bool,
    pub(crate) transcript: Vec<Entry>,
}

impl Parts {
    /// Makes one step. A refusal changes nothing.
    pub(crate) fn step(&mut self, step: Step) -> Result<Effect, Refusal>
        requires { IsWorld (world_of self.old) }
        ensures { Happens (world_of self.old) step result (world_of self.new) }
    {
        match step {
            Step::Issue { cpu, command } => self.issue(cpu, command),
            Step::Retry { cpu } => self.retry(cpu),
            Step::Start => self.start(),
            Step::Round => self.round(),
            Step::Send => self.send(),
            Step::SendRun { count } => self.send_run(count),
            Step::SourceRead => self.source_read(),
            Step::SourceAct => self.source_act(),
            Step::Switch => self.switch(),
            Step::Deliver { n } => self.deliver(n),
            Step::DeliverBack { n } => self.deliver_back(n),
            Step::DestRead => self.destination_read(),
            Step::DestAct => self.destination_act(),
            Step::Install => self.install(),
            Step::Push(ticket) => self.push(ticket),
            Step::PushUrgent(ticket) => self.push_urgent(ticket),
            Step::DeliverUrgent { n } => self.deliver_urgent(n),
            Step::Serve => self.serve(),
            Step::End => self.end(),
            Step::Break => self.break_link(),
            Step::Notice(side) => self.notice(side),
            Step::Resume => self.resume(),
        }
    }

    /// Parts of an equal world, in memory of their own. `NoMemory` if that cannot be allocated.
    pub(crate) fn copy(&self) -> Result<Self, NoMemory>
        ensures { IfOk result (λ copy. world_of copy ≡ world_of self.now) }
    {
        let transcript = Vec::from_slice(self.alloc, &self.transcript)?;
        let forward = self.forward.copy()?;
        let back = self.back.copy()?;
        let urgent = self.urgent.copy()?;
        let source = self.source.copy()?;
        Ok(Parts {
            alloc: self.alloc,
            source,
            destination: self.destination.copy()?,
            forward,
            back,
            urgent,
            up: self.up,
            transcript,
        })
    }

    /// Whether both are the parts of the same world.
    pub(crate) fn is_same(&self, other: &Self) -> bool
        ensures { (result ≡ true) ↔ (world_of self.now ≡ world_of other.now) }
    {
        self.up == other.up
            && self.forward.is_same(&other.forward)
            && self.back.is_same(&other.back)
            && self.urgent.is_same(&other.urgent)
            && are_same_entries(&self.transcript, &other.transcript)
            && self.source.is_same(&other.source)
            && self.destination.is_same(&other.destination)
    }

    /// The processors of the guest: at the destination once that has run, and at the source before.
    pub(crate) fn cpus(&self) -> &Cpus
        ensures { result.now ≡ (guest_of (world_of self.now)).cpus }
    {
        if self.destination.has_run() {
            self.destination.cpus()
        } else {
            self.source.cpus()
        }
    }

    /// Whether a node runs the processors.
    fn runs(&self) -> bool
        ensures { result ≡ runs (world_of self.now) }
    {
        !self.source.has_switched() || self.destination.has_run()
    }
}

/// Whether two transcripts have the same entries.
fn are_same_entries(entries: &Vec<Entry>, others: &Vec<Entry>) -> bool
    ensures { (result ≡ true) ↔ (entries.now.items ≡ others.now.items) }
{
    entries == others
}

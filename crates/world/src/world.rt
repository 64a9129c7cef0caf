//! A world: the type that callers see.

ghost use Rattle.std.specs.Prelude.{◌≡◌, ◌↔◌, true, false, Ok, Err, ◌⊎◌, IfOk, IfErr, OnErr, All, ◌<◌, length};
ghost use Rattle.mig_base.specs.Flat.{IsFlatRun};
ghost use Rattle.mig_model.specs.Migration.{answer};
ghost use Rattle.mig_model.specs.NodeSteps.{checked};
ghost use Rattle.mig_model.specs.Runs.{Happens, IsRun};
ghost use Rattle.mig_model.specs.Views.{new_world_with};
ghost use Rattle.vcpu.specs.Answers.{is_count};
ghost use Rattle.world.specs.Answers.{new_refusal};
ghost use Rattle.world.specs.Core.{CoreFirst, CoreRun, CoreStep};
ghost use Rattle.world.specs.Headline.{Headline};

mod views;

use crate::parts::Parts;
use fault_handler::Destination;
use mig_base::effect::Effect;
use mig_base::refusal::Refusal;
use mig_base::schedule::Step;
use mig_base::{Entry, NoMemory};
use precopy::Source;
use std::alloc::Global;
use std::marker::Model;
use vcpu::NewFault;
use wires::Wire;

/// The world of a migration: a guest of 1 to 16 processors, a source and a destination, the wire to the destination, the wire back, the
/// urgent wire for pages that were requested, and the transcript.
///
/// After every list of steps the transcript is the run of one flat memory on the same commands, in the order in which they took effect; no
/// page is installed over one that is present; and once the migration is complete, the destination alone holds that flat memory, and no
/// page is owed.
pub struct World {
    parts: Parts,
}

// Written by hand, so that each exit of a function that owns a world has one call instead of the drops of all parts.
impl Drop for World {
    fn drop(self) {
        let World { parts: _parts } = self;
    }
}

impl Model for World {
    ghost use Rattle.mig_model.specs.Migration.{World as Machine};
    ghost use Rattle.world.specs.Codes.{coded_world};
    ghost use Rattle.world.specs.Worlds.{IsWorld, world_of};

    ghost Value = { Machine };

    ghost coded = { coded_world };

    ghost view = { λ w. world_of w.parts };

    ghost invariant = { λ w. IsWorld (world_of w.parts) };
}

impl World {
    /// A world of `cpus` idle processors in which nothing has happened. `NoCpu` comes exactly if `cpus` is not 1 to 16; the only other
    /// refusal is `NoMemory`.
    pub fn new(alloc: Global, cpus: u8) -> Result<World, Refusal>
        ensures ok { IfOk result (λ world. new_world_with cpus 0 0 ≡ Ok world) }
        ensures refused { IfErr result (λ refusal.
            (refusal ≡ Refusal.NoMemory) ⊎ (new_world_with cpus 0 0 ≡ Err refusal)) }
        ensures no_cpu { (result ≡ Err Refusal.NoCpu) ↔ (is_count cpus ≡ false) }
        ensures core { IfOk result (λ world. CoreFirst cpus world) }
        ensures headline { IfOk result Headline }
    {
        World::with_counts(alloc, cpus, 0, 0)
    }

    /// The same, with these counts as the epoch and the number of rounds.
    pub fn with_counts(alloc: Global, cpus: u8, epoch: u32, rounds: u32) -> Result<World, Refusal>
        ensures ok { IfOk result (λ world. new_world_with cpus epoch rounds ≡ Ok world) }
        ensures refused { IfErr result (λ refusal.
            (refusal ≡ Refusal.NoMemory) ⊎ (new_world_with cpus epoch rounds ≡ Err refusal)) }
        ensures no_cpu { (result ≡ Err Refusal.NoCpu) ↔ (is_count cpus ≡ false) }
        ensures core { IfOk result (λ world. CoreFirst cpus world) }
        ensures headline { IfOk result Headline }
    {
        let source = match Source::new(alloc, cpus, epoch, rounds) {
            Ok(source) => source,
            Err(fault) => return Err(refusal_of(fault)),
        };
        let destination = match Destination::new(alloc, cpus) {
            Ok(destination) => destination,
            Err(fault) => return Err(refusal_of(fault)),
        };
        Ok(World {
            parts: Parts {
                alloc,
                source,
                destination,
                forward: Wire::new(alloc),
                back: Wire::new(alloc),
                urgent: Wire::new(alloc),
                up: true,
                transcript: Vec::new(alloc),
            },
        })
    }

    /// An equal world, in memory of its own, so that two schedules can continue from here: a step of one world changes nothing of the
    /// other. The copy takes as much memory as this world holds: the bytes of every present page, every kept or waiting copy, and all bytes
    /// in flight. The only refusal is `NoMemory`, and no copy is left then.
    pub fn copy(&self) -> Result<Self, NoMemory>
        ensures { IfOk result (λ copy. copy ≡ self.now) }
    {
        Ok(World {
            parts: self.parts.copy()?,
        })
    }

    /// Whether two worlds are the same: their nodes, the frames in flight with the bytes of the first that have come, the link, and the
    /// transcripts. From then on the same steps have the same outcomes in both, memory aside. How a world came about does not count, nor
    /// does its room: two schedules that lead to one state give the same world. It changes nothing and takes no memory. The time grows with
    /// all that the worlds hold.
    pub fn is_same(&self, other: &World) -> bool
        ensures { (result ≡ true) ↔ (self.now ≡ other.now) }
    {
        self.parts.is_same(&other.parts)
    }

    /// Makes one step, and returns its effect. A step that is refused changes nothing, and may be made again. If several refusals apply,
    /// the first in the order of [`Refusal`] counts. `NoMemory` comes after all others, with one exception: a Deliver whose frame would
    /// must wait may return it. Break, Notice and Serve never return it.
    pub fn step(&mut self, step: Step) -> Result<Effect, Refusal>
        ensures core { CoreStep self.old step result self.new }
        ensures happens { Happens self.old step result self.new }
        ensures headline { Headline self.new }
    {
        self.parts.step(step)
    }

    /// How [`World::step`] would refuse a step, memory aside: the refusal exactly where the machine refuses the step with it, and `Ok`
    /// else. It changes nothing, takes no memory, and takes constant time, whatever the number of pages and of frames in flight.
    pub fn would(&self, step: Step) -> Result<(), Refusal>
        ensures { result ≡ checked (answer self.now step) }
    {
        self.parts.would(step)
    }

    /// Makes steps in turn, and returns the outcome of each. It continues after a step that is refused. If the call itself returns
    /// `NoMemory`, no step was made.
    pub fn run(
        &mut self,
        alloc: Global,
        steps: &[Step],
    ) -> Result<Vec<Result<Effect, Refusal>>, NoMemory>
        ensures core { IfOk result (λ outcomes.
            CoreRun self.old steps.now outcomes.items self.new) }
        ensures run { IfOk result (λ outcomes. IsRun self.old steps.now outcomes.items self.new) }
        ensures headline { Headline self.new }
        ensures err { OnErr result (self.new ≡ self.old) }
    {
        self.headline();
        let mut outcomes = Vec::with_capacity(alloc, steps.len())?;
        for step in steps {
            let outcome = self.step(*step);
            outcomes.push_reserved(outcome);
        }
        Ok(outcomes)
    }

    /// A law: the promises for every world. The call does nothing.
    pub fn headline(&self)
        ensures { Headline self.now }
    {
        let _ = &self.parts;
    }

    /// The commands that took effect, in that order, with their replies. Each is a command of one of the guest's processors.
    pub fn transcript(&self) -> &[Entry]
        ensures entries { result.now ≡ self.now.transcript }
        ensures flat { IsFlatRun result.now }
        ensures within { All (λ e. e.cpu < length self.now.source.guest.cpus) result.now }
    {
        self.parts.transcript.as_slice()
    }
}

/// The refusal of a new world whose source or destination cannot be made.
fn refusal_of(fault: NewFault) -> Refusal
    ensures { result ≡ new_refusal fault }
{
    match fault {
        NewFault::NoCpu => Refusal::NoCpu,
        NewFault::NoMemory => Refusal::NoMemory,
    }
}

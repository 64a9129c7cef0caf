//! The walk of all schedules.

ghost use Rattle.std.specs.Prelude.{◌≡◌, ◌≤◌, IfOk};
ghost use Rattle.schedules.specs.Walks.{AreAllWorlds, start_of};

use crate::small::Small;
use crate::turn::Turn;
use crate::worlds::Worlds;
use mig_base::NoMemory;
use reachable::{Found, ReachFault, reach};
use std::alloc::Global;
use world::World;

/// The worlds that the schedules of a small world lead to.
#[derive(Drop)]
pub struct Walked {
    /// The turns that the schedules choose from.
    pub turns: Vec<Turn>,
    /// Each world once, with a schedule that leads to it, in the order of a walk that is breadth first.
    pub worlds: Vec<Found<World, Turn>>,
}

/// Why a walk of all schedules ends early.
#[derive(Clone, Copy, Debug, PartialEq, Eq)]
pub enum WalkFault {
    /// There are more worlds than the greatest number that was asked for.
    Full,
    /// An allocation failed.
    NoMemory,
}

impl From<NoMemory> for WalkFault {
    fn from(_refused: NoMemory) -> Self {
        WalkFault::NoMemory
    }
}

impl From<ReachFault> for WalkFault {
    fn from(fault: ReachFault) -> Self {
        match fault {
            ReachFault::Full => WalkFault::Full,
            ReachFault::NoMemory => WalkFault::NoMemory,
        }
    }
}

/// The world in which the schedules begin: the pages are mapped.
#[tactic(auto, unfolding(crate::specs::Walks::start_of))]
fn start(alloc: Global, small: &Small) -> Result<World, WalkFault>
    ensures { IfOk result (λ world. world ≡ start_of small.now) }
{
    let Ok(mut world) = World::new(alloc, small.cpus) else {
        return Err(WalkFault::NoMemory);
    };
    match world.step(small.first_step()) {
        Ok(_) => Ok(world),
        // An idle processor maps pages unless memory runs out.
        Err(_) => Err(WalkFault::NoMemory),
    }
}

/// All worlds that the schedules of a small world lead to, at most `most` of them.
///
/// `Full` is returned where there are more, `NoMemory` where an allocation fails.
pub fn walk_schedules(alloc: Global, small: &Small, most: usize) -> Result<Walked, WalkFault>
    requires low { 1 ≤ small.now.cpus }
    requires high { small.now.cpus ≤ 16 }
    ensures { IfOk result (λ walked.
        AreAllWorlds (start_of small.now) walked.turns.items walked.worlds.items) }
{
    let turns = small.turns(alloc)?;
    let first = start(alloc, small)?;
    let reached = reach(alloc, &Worlds, &turns, first, most)?;
    Ok(Walked {
        turns,
        worlds: reached.found,
    })
}

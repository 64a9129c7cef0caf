//! The sweep: loads of what the lines of a script have left in memory.

ghost use Rattle.std.specs.Prelude.{IfSome};
ghost use Rattle.grammar.specs.Fits.{IsSayable};

use crate::commands::SLOTS;
use crate::sheet::page_at;
use mig_base::{Addr, HIGH_PAGE, NoMemory, PAGE_SIZE, PageSet, Reply};
use world::prelude::*;

/// Steps that are made at most between two loads.
const MOST: u8 = 64;

/// The loads that are left of a sweep.
#[derive(Drop)]
pub(crate) struct Sweep {
    /// The pages whose slots are not all loaded yet.
    pages: PageSet,
    /// How many slots of the least of them are loaded.
    slot: u8,
    /// How many steps may still be made before the next load.
    steps: u8,
}

impl Sweep {
    /// The sweep of a world: each slot of the pages that are present where the guest runs, and of those that were stored to, which may be
    /// cleared or unmapped by now. Pages that the destination is owed are left out: a load of one sleeps until it is sent.
    pub(crate) fn new(world: &World) -> Result<Sweep, NoMemory> {
        let mut pages = match world.phase() {
            WorldPhase::Postcopy | WorldPhase::Complete => world.destination_space().present()?,
            _ => world.source_space().present()?,
        };
        add_stored(&mut pages, world)?;
        Ok(Sweep {
            pages,
            slot: 0,
            steps: MOST,
        })
    }

    /// The next step of the sweep: a load by a processor that is idle, or one that answers the commands before. `None` at the end, or
    /// where no processor can load.
    pub(crate) fn next(&mut self, world: &World) -> Option<Step>
        ensures { IfSome result (λ step. IsSayable step) }
    {
        if self.steps > 0 {
            if let Some(step) = answering_step(world) {
                self.steps -= 1;
                return Some(step);
            }
        }
        self.steps = MOST;
        match self.next_slot() {
            Some(addr) => load_of(world, addr),
            None => None,
        }
    }

    /// The next slot that is loaded.
    fn next_slot(&mut self) -> Option<Addr> {
        let page = self.pages.next_member(0);
        if page >= HIGH_PAGE {
            return None;
        }
        let slot = self.slot % 4;
        self.slot = slot + 1;
        if slot == 3 {
            self.pages.remove(page);
        }
        let first = u64::from(page) * PAGE_SIZE;
        Some(first.saturating_add(SLOTS[slot as usize]))
    }
}

/// Adds the pages that were stored to, and that the destination is not owed.
fn add_stored(pages: &mut PageSet, world: &World) -> Result<(), NoMemory> {
    for entry in world.transcript() {
        if let (Command::Store { addr, .. }, Reply::Done) = (entry.command, entry.reply) {
            let page = page_at(addr);
            if world.owed().origin(page).is_none() {
                pages.insert(page)?;
            }
        }
    }
    Ok(())
}

/// A step towards the replies of commands that sleep or wait: a retry, or one of a handler.
fn answering_step(world: &World) -> Option<Step>
    ensures { IfSome result (λ step. IsSayable step) }
{
    for cpu in 0..world.cpus() {
        let retry = Step::Retry { cpu };
        if world.would(retry).is_ok() {
            return Some(retry);
        }
    }
    handler_step(world)
}

/// A step of a handler.
fn handler_step(world: &World) -> Option<Step>
    ensures { IfSome result (λ step. IsSayable step) }
{
    if world.would(Step::SourceRead).is_ok() {
        return Some(Step::SourceRead);
    }
    if world.would(Step::SourceAct).is_ok() {
        return Some(Step::SourceAct);
    }
    if world.would(Step::DestRead).is_ok() {
        return Some(Step::DestRead);
    }
    if world.would(Step::DestAct).is_ok() {
        return Some(Step::DestAct);
    }
    None
}

/// A load of 8 bytes by the first processor that is idle.
fn load_of(world: &World, addr: Addr) -> Option<Step>
    ensures { IfSome result (λ step. IsSayable step) }
{
    for cpu in 0..world.cpus() {
        let load = Step::Issue {
            cpu,
            command: Command::Load { addr, width: 8 },
        };
        if world.would(load).is_ok() {
            return Some(load);
        }
    }
    None
}

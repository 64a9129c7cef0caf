//! What waits in a world: in its queues, and on its wires.

use crate::flight::pages_on;
use mig_base::effect::Effect;
use mig_base::refusal::Refusal;
use mig_base::schedule::Step;
use mig_base::{Addr, HIGH_PAGE, NoMemory, PAGE_SIZE, PageNo, PageSet};
use std::alloc::Global;
use world::World;

/// Makes a step as often as it is not refused, and returns its effects.
fn effects_of(alloc: Global, world: &mut World, step: Step) -> Result<Vec<Effect>, NoMemory> {
    let mut effects = Vec::new(alloc);
    for _ in 0..u32::MAX {
        match world.step(step) {
            Ok(effect) => effects.push(effect)?,
            Err(Refusal::NoMemory) => return Err(NoMemory),
            Err(_) => break,
        }
    }
    Ok(effects)
}

/// The handler of one node: what it has not read, and which faults it has read and not resolved.
#[derive(Drop)]
pub(crate) struct Handler {
    /// What its next reads return.
    pub(crate) reads: Vec<Effect>,
    /// What it then does about the faults that it holds now.
    pub(crate) acts: Vec<Effect>,
}

impl Handler {
    /// What a handler does next, on a world that is changed.
    fn of(alloc: Global, world: &mut World, read: Step, act: Step) -> Result<Handler, NoMemory> {
        let reads = effects_of(alloc, world, read)?;
        let mut acts = effects_of(alloc, world, act)?;
        let mut faults = 0usize;
        for effect in &reads {
            if matches!(effect, Effect::ReadFault { .. }) {
                faults = faults.saturating_add(1);
            }
        }
        acts.truncate(acts.len().saturating_sub(faults));
        Ok(Handler { reads, acts })
    }

    /// Whether a fault at a page is unread.
    pub(crate) fn has_unread(&self, page: PageNo) -> bool {
        self.reads.iter().any(|effect| match effect {
            Effect::ReadFault { addr, .. } => is_at(*addr, page),
            _ => false,
        })
    }

    /// Whether it holds a fault at a page.
    pub(crate) fn holds(&self, page: PageNo) -> bool {
        self.acts.iter().any(|effect| match effect {
            Effect::Unprotected { addr }
            | Effect::Zeroed { addr }
            | Effect::Woke { addr }
            | Effect::Forgot { addr }
            | Effect::Requested { addr, .. } => is_at(*addr, page),
            _ => false,
        })
    }
}

/// Whether an address is the first of a page.
fn is_at(addr: Addr, page: PageNo) -> bool {
    addr / PAGE_SIZE == u64::from(page)
}

/// What waits in a world.
#[derive(Drop)]
pub(crate) struct Survey {
    pub(crate) source: Handler,
    pub(crate) destination: Handler,
    /// What the next installs do.
    pub(crate) installs: Vec<Effect>,
    /// The requests in the queue of the source. None are known while the channel is lost.
    pub(crate) serves: Vec<Effect>,
    /// The pages of the source of which a copy waits to be installed.
    pub(crate) arrived: PageSet,
    /// The pages of the source in flight on the wire and on the urgent wire, and those asked for on the wire back.
    pub(crate) flying: PageSet,
    pub(crate) urgent: PageSet,
    pub(crate) asking: PageSet,
}

impl Survey {
    /// What waits in a world. Each queue is emptied on a copy of the world, the reads first.
    pub(crate) fn of(alloc: Global, world: &World) -> Result<Survey, NoMemory> {
        let mut copy = world.copy()?;
        let source = Handler::of(alloc, &mut copy, Step::SourceRead, Step::SourceAct)?;
        let destination = Handler::of(alloc, &mut copy, Step::DestRead, Step::DestAct)?;
        let installs = effects_of(alloc, &mut copy, Step::Install)?;
        let serves = effects_of(alloc, &mut copy, Step::Serve)?;
        let arrived = origins_of(alloc, &installs)?;
        Ok(Survey {
            source,
            destination,
            installs,
            serves,
            arrived,
            flying: pages_on(alloc, world.forward())?,
            urgent: pages_on(alloc, world.urgent())?,
            asking: pages_on(alloc, world.back())?,
        })
    }

    /// Whether the source has a request for a page in its queue.
    pub(crate) fn is_asked(&self, page: PageNo) -> bool {
        self.serves.iter().any(|effect| match effect {
            Effect::Asked { addr } => is_at(*addr, page),
            _ => false,
        })
    }
}

/// The pages of the source whose copies were installed or dropped.
fn origins_of(alloc: Global, installs: &[Effect]) -> Result<PageSet, NoMemory> {
    let mut pages = PageSet::new(alloc);
    for effect in installs {
        match effect {
            Effect::Installed { origin, .. } | Effect::Dropped { origin }
                if *origin / PAGE_SIZE < u64::from(HIGH_PAGE) => {
                pages.insert((*origin / PAGE_SIZE) as PageNo)?;
            }
            _ => {}
        }
    }
    Ok(pages)
}

//! Steps that lead to worlds in the middle of a migration, with the outcome that is wanted of each.

use super::setup::{new_world, rig_of};
use mig_base::effect::Effect;
use mig_base::refusal::Refusal;
use mig_base::schedule::Step;
use mig_base::{Command, Place, Prot, Reply};
use rig::Rig;
use std::alloc::Global;
use world::World;

/// A step, and what comes of it.
pub type Row = (Step, Result<Effect, Refusal>);

const DELIVER: Step = Step::Deliver { n: u64::MAX };

const MAPPED: Step = Step::Issue {
    cpu: 0,
    command: Command::Mmap {
        addr_len: 4096,
        prot: Prot::ReadWrite,
        place: Place::Anywhere,
    },
};

const STORED_ONE: Step = Step::Issue {
    cpu: 0,
    command: Command::Store {
        addr: 0x10000,
        width: 8,
        value: 1,
    },
};

const STORED_NINE: Step = Step::Issue {
    cpu: 0,
    command: Command::Store {
        addr: 0x10000,
        width: 8,
        value: 9,
    },
};

const LOADED: Step = Step::Issue {
    cpu: 1,
    command: Command::Load {
        addr: 0x10000,
        width: 8,
    },
};

const DONE: Result<Effect, Refusal> = Ok(Effect::Answered {
    cpu: 0,
    reply: Reply::Done,
});

const AT: Result<Effect, Refusal> = Ok(Effect::Answered {
    cpu: 0,
    reply: Reply::At(0x10000),
});

const VALUE_ONE: Result<Effect, Refusal> = Ok(Effect::Answered {
    cpu: 1,
    reply: Reply::Value(1),
});

/// One page with a one, and a migration that has begun.
pub static STARTED: [Row; 3] = [
    (MAPPED, AT),
    (STORED_ONE, DONE),
    (Step::Start, Ok(Effect::Started { epoch: 1 })),
];

/// The destination runs, and is owed the page.
pub static OWED: [Row; 4] = [
    (
        Step::Switch,
        Ok(Effect::Switched {
            discard: 0,
            owed: 1,
        }),
    ),
    (DELIVER, Ok(Effect::TookAdvise)),
    (DELIVER, Ok(Effect::TookDiscard { pages: 0 })),
    (DELIVER, Ok(Effect::TookPackage { owed: 1 })),
];

/// The page is sent, and processor 0 sleeps on a store to it until the handler has removed the protection.
pub static UNPROTECTED: [Row; 7] = [
    (Step::Round, Ok(Effect::RoundMade { round: 1, todo: 1 })),
    (Step::Send, Ok(Effect::SentPage { addr: 0x10000 })),
    (STORED_NINE, Ok(Effect::Asleep { cpu: 0 })),
    (LOADED, VALUE_ONE),
    (Step::Retry { cpu: 0 }, Err(Refusal::NotWoken)),
    (
        Step::SourceRead,
        Ok(Effect::ReadFault {
            addr: 0x10000,
            wp: true,
        }),
    ),
    (Step::SourceAct, Ok(Effect::Unprotected { addr: 0x10000 })),
];

/// Then the destination runs, and has asked for the page.
pub static ASKED_FOR: [Row; 10] = [
    (Step::Retry { cpu: 0 }, DONE),
    (
        Step::Switch,
        Ok(Effect::Switched {
            discard: 1,
            owed: 1,
        }),
    ),
    (DELIVER, Ok(Effect::TookAdvise)),
    (DELIVER, Ok(Effect::TookPage { addr: 0x10000 })),
    (DELIVER, Ok(Effect::TookDiscard { pages: 1 })),
    (DELIVER, Ok(Effect::TookPackage { owed: 1 })),
    (LOADED, Ok(Effect::Asleep { cpu: 1 })),
    (
        Step::DestRead,
        Ok(Effect::ReadFault {
            addr: 0x10000,
            wp: false,
        }),
    ),
    (
        Step::DestAct,
        Ok(Effect::Requested {
            origin: 0x10000,
            addr: 0x10000,
        }),
    ),
    (
        Step::DeliverBack { n: u64::MAX },
        Ok(Effect::TookRequest { addr: 0x10000 }),
    ),
];

/// Makes a step, once more where memory was refused.
fn made(world: &mut World, step: Step) -> Result<Effect, Refusal> {
    match world.step(step) {
        Err(Refusal::NoMemory) => world.step(step),
        outcome => outcome,
    }
}

/// Whether each step has its outcome.
fn play(world: &mut World, rows: &[Row]) -> bool {
    for (step, wanted) in rows {
        if made(world, *step) != *wanted {
            return false;
        }
    }
    true
}

/// A rig of a new world of two processors in which each step had its outcome.
pub fn rig_with(alloc: Global, first: &[Row], second: &[Row], third: &[Row]) -> Option<Rig> {
    let mut world = new_world(alloc, 2)?;
    if play(&mut world, first) && play(&mut world, second) && play(&mut world, third) {
        rig_of(alloc, world)
    } else {
        None
    }
}

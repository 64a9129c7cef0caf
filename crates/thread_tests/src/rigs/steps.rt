//! The steps that no worker makes.

use super::gates::{MAP, StopAt, issue, store};
use super::outcomes::Row;
use super::setup::{close, made, rig_after, rig_of};
use mig_base::WorldPhase;
use mig_base::effect::Effect;
use mig_base::refusal::Refusal;
use mig_base::schedule::Step;
use rig::Rig;
use std::alloc::Global;
use std::sync::Wait;
use std::test::Fail;
use world::World;

static SWITCHED: [Row; 3] = [
    (Step::Switch, Err(Refusal::Phase)),
    (Step::Start, Ok(Effect::Started { epoch: 1 })),
    (
        Step::Switch,
        Ok(Effect::Switched {
            discard: 0,
            owed: 1,
        }),
    ),
];

static CUT: [Row; 2] = [
    (Step::Break, Ok(Effect::Broken)),
    (Step::Resume, Err(Refusal::Phase)),
];

static RESUMED: [Row; 1] = [(Step::Resume, Ok(Effect::Resumed { epoch: 2 }))];

static STARTED_AGAIN: [Row; 1] = [(Step::Start, Ok(Effect::Started { epoch: 7 }))];

/// Whether each step has its outcome.
fn play<R: Wait>(rt: &R, rig: &Rig, rows: &[Row]) -> bool {
    for (step, wanted) in rows {
        if made(rt, rig, *step) != *wanted {
            return false;
        }
    }
    true
}

/// Start, Switch, Break and Resume are accepted in turn, the last once both sides have noticed the break.
fn is_resumed<R: Wait>(rt: &R, rig: &Rig) -> bool {
    let is_switched = play(rt, rig, &SWITCHED) && rig.phase(rt) == WorldPhase::Switching;
    if !is_switched || !play(rt, rig, &CUT) {
        return false;
    }
    rig.source_worker(rt, &StopAt(7));
    rig.dest_worker(rt, &StopAt(6));
    play(rt, rig, &RESUMED)
}

fn is_closed_resumed<R: Wait>(rt: &R, alloc: Global) -> bool {
    match rig_after(alloc, 1, &[issue(MAP), store(0x10000, 9)]) {
        Some(rig) => {
            let held = is_resumed(rt, &rig);
            let closed = close(rig, Vec::new(alloc), None);
            held && closed.is_whole(2)
        }
        None => false,
    }
}

#[test]
fn a_migration_is_switched_cut_and_resumed(rt: HostRuntime) -> Result<(), Fail> {
    assert!(rt; is_closed_resumed(&rt, rt.alloc()));
    Ok(())
}

/// A world whose migration before had epoch 6.
fn world_in_epoch(alloc: Global) -> Option<World> {
    match World::with_counts(alloc, 1, 6, 0) {
        Ok(world) => Some(world),
        Err(_) => World::with_counts(alloc, 1, 6, 0).ok(),
    }
}

/// A Start begins the epoch after that of the migration before.
fn is_started_again<R: Wait>(rt: &R, alloc: Global) -> bool {
    let Some(world) = world_in_epoch(alloc) else {
        return false;
    };
    match rig_of(alloc, world) {
        Some(rig) => play(rt, &rig, &STARTED_AGAIN),
        None => false,
    }
}

#[test]
fn a_start_is_that_of_this_world(rt: HostRuntime) -> Result<(), Fail> {
    assert!(rt; is_started_again(&rt, rt.alloc()));
    Ok(())
}

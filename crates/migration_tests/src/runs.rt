//! Pages that are sent in runs, and steps that are made in one call.

use crate::answers::Answer::{
    Moved, Refused, Replied, RoundMade, SentRun, Stands, Started, Switched, TookAdvise, TookRun,
};
use crate::calls::Call::{
    Deliver, DeliverPart, Load, Map, Progress, Round, SendRun, Start, Store, Switch,
};
use crate::calls::step_of;
use crate::play::{After, Row, play, play_after, play_new, same};
use mig_base::Reply::{At, BadAccess, Done, Value};
use mig_base::effect::Effect;
use mig_base::refusal::Refusal;
use mig_base::schedule::Step;
use mig_base::{Command, Entry, Place, Prot, WorldPhase};
use std::alloc::Global;
use std::process::Abort;
use world::World;

/// A count of 0 is one of 1, and 255 is 64. (No script has such a count.)
static BEYOND: [Row; 7] = [
    (Map(0, 12288), Replied(0, At(0x10000))),
    (Store(0, 0x10000, 8, 1), Replied(0, Done)),
    (Store(0, 0x11000, 8, 2), Replied(0, Done)),
    (Start, Started(1)),
    (Round, RoundMade(1, 2)),
    (SendRun(0), SentRun(0x10000, 1)),
    (SendRun(255), SentRun(0x11000, 1)),
];

/// A page for each of `count` stores, from 0x10000 on.
fn store_to(rt: &impl Abort, world: &mut World, count: u32) {
    for i in 0..count {
        let row = (
            Store(0, 0x10000 + 4096 * u64::from(i), 1, 1),
            Replied(0, Done),
        );
        play(rt, world, "stores", [row].as_slice());
    }
}

/// 66 pages are sent in a run of 64 and one of 2.
static MAPPED: [Row; 1] = [(Map(0, 270_336), Replied(0, At(0x10000)))];

static LONGEST: [Row; 9] = [
    (Start, Started(1)),
    (Round, RoundMade(1, 66)),
    (SendRun(255), SentRun(0x10000, 64)),
    (SendRun(255), SentRun(0x50000, 2)),
    (Deliver, TookAdvise),
    (DeliverPart(262_163), Moved(262_163)),
    (DeliverPart(1), TookRun(0x10000, 64)),
    (Deliver, TookRun(0x50000, 2)),
    (Progress, Stands(WorldPhase::Precopy, [1, 66, 0, 0, 0, 0])),
];

pub fn play_longest(rt: &impl Abort, world: &mut World) {
    play(rt, world, "mapped", &MAPPED);
    store_to(rt, world, 66);
    play(rt, world, "longest", &LONGEST);
}

#[test]
fn pages_in_runs(rt: HostRuntime) {
    play_new(&rt, rt.alloc(), "beyond", &[&BEYOND]);
    let told = play_after(&rt, rt.alloc(), 2, After::Longest);
    assert!(rt; told == Ok(true));
}

const MAP: Command = Command::Mmap {
    addr_len: 4096,
    prot: Prot::ReadWrite,
    place: Place::Anywhere,
};

const STORE: Command = Command::Store {
    addr: 0x10000,
    width: 1,
    value: 7,
};

const MISPLACED: Command = Command::Store {
    addr: 0x10001,
    width: 2,
    value: 7,
};

const LOAD: Command = Command::Load {
    addr: 0x10000,
    width: 8,
};

/// A refused step is passed by.
static IN_ONE_CALL: [Row; 9] = [
    (Map(1, 4096), Replied(1, At(0x10000))),
    (Store(0, 0x10000, 1, 7), Replied(0, Done)),
    (Load(2, 0x10000, 8), Refused(Refusal::NoCpu)),
    (Store(1, 0x10001, 2, 7), Replied(1, BadAccess)),
    (Start, Started(1)),
    (Round, RoundMade(1, 1)),
    (Start, Refused(Refusal::Phase)),
    (Load(1, 0x10000, 8), Replied(1, Value(7))),
    (Switch, Switched(0, 1)),
];

static ENTRIES: [Entry; 4] = [
    Entry {
        cpu: 1,
        command: MAP,
        reply: At(0x10000),
    },
    Entry {
        cpu: 0,
        command: STORE,
        reply: Done,
    },
    Entry {
        cpu: 1,
        command: MISPLACED,
        reply: BadAccess,
    },
    Entry {
        cpu: 1,
        command: LOAD,
        reply: Value(7),
    },
];

/// The steps of a table that has no look.
fn steps_of(rows: &[Row; 9]) -> [Step; 9] {
    let mut steps = [Step::End; 9];
    for (place, row) in steps.iter_mut().zip(rows) {
        if let Some(step) = step_of(row.0, 0) {
            *place = step;
        }
    }
    steps
}

/// Stops unless each step has the outcome of its row.
fn are_told(rt: &impl Abort, outcomes: &[Result<Effect, Refusal>], rows: &[Row]) {
    assert!(rt; outcomes.len() == rows.len());
    for (i, (outcome, row)) in outcomes.iter().zip(rows).enumerate() {
        same(rt, *outcome, row.1, "in one call", i);
    }
}

/// Whether memory was there for each step of one call; if so all is as wanted.
fn is_told(rt: &impl Abort, world: &World, outcomes: &[Result<Effect, Refusal>]) -> bool {
    if outcomes.contains(&Err(Refusal::NoMemory)) {
        return false;
    }
    are_told(rt, outcomes, &IN_ONE_CALL);
    assert!(rt; world.transcript() == ENTRIES.as_slice());
    true
}

/// Makes all steps in one call. Whether memory was there for each.
pub fn run_all(rt: &impl Abort, alloc: Global, world: &mut World) -> bool {
    let steps = steps_of(&IN_ONE_CALL);
    match world.run(alloc, steps.as_slice()) {
        Ok(outcomes) => is_told(rt, world, &outcomes),
        Err(_) => {
            assert_eq!(rt; world.phase(), WorldPhase::Idle);
            false
        }
    }
}

/// The first round of a guest that has no page, and a second start.
const THREE: [Step; 3] = [Step::Start, Step::Round, Step::Start];

/// Whether memory was there for each of these steps; if so all is as wanted.
fn are_three(rt: &impl Abort, outcomes: &[Result<Effect, Refusal>]) -> bool {
    let wanted = [
        Ok(Effect::Started { epoch: 1 }),
        Ok(Effect::RoundMade { round: 1, todo: 0 }),
        Err(Refusal::Phase),
    ];
    let is_refused = outcomes.contains(&Err(Refusal::NoMemory));
    assert!(rt; is_refused || outcomes == wanted.as_slice());
    !is_refused
}

/// Makes these steps in one call. Whether memory was there for each.
pub fn run_three(rt: &impl Abort, alloc: Global, world: &mut World) -> bool {
    match world.run(alloc, THREE.as_slice()) {
        Ok(outcomes) => are_three(rt, &outcomes),
        Err(_) => false,
    }
}

fn is_run(rt: &impl Abort, alloc: Global, cpus: u8, after: After) -> bool {
    play_after(rt, alloc, cpus, after) == Ok(true)
}

/// One call for all steps, which continues after a refusal. Where memory was refused a second world is run.
#[test]
fn steps_in_one_call(rt: HostRuntime) {
    for (cpus, after) in [(2, After::OneCall), (1, After::Three)] {
        if !is_run(&rt, rt.alloc(), cpus, after) {
            assert!(rt; is_run(&rt, rt.alloc(), cpus, after));
        }
    }
}

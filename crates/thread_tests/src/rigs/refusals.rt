//! Scenes in one thread in which `bench/compare/refused.py` refuses each growth in turn. A call that answers `NoMemory` has entered nothing,
//! or its command waits as before; a worker makes the step again at its next turn. So each scene ends as it does with enough memory.
ghost use Rattle.pusher.specs.Seats.{IsSeatOf};

use super::gates::{MAP, STORE, STORED, StopAt, issue, store};
use super::setup::{asked_steps, call, claims, close, close_one, finished, made, rig_after};
use mig_base::refusal::Refusal;
use mig_base::schedule::Step;
use mig_base::{Reply, WorldPhase};
use rig::{CpuSeat, Rig};
use std::alloc::Global;
use std::sync::Wait;
use std::test::Fail;

const DELIVER: Step = Step::Deliver { n: u64::MAX };

/// A map, a store and a load by calls, and a migration that starts and is switched.
fn calls<R: Wait>(rt: &R, alloc: Global) -> Option<bool> {
    let mut rig = rig_after(alloc, 1, &[])?;
    let mut seat = rig.seat(0).ok()?;
    let held = call(rt, &rig, &mut seat, MAP) == Ok(Reply::At(0x10000))
        && call(rt, &rig, &mut seat, STORE) == Ok(Reply::Done)
        && call(rt, &rig, &mut seat, STORED) == Ok(Reply::Value(9))
        && made(rt, &rig, Step::Start).is_ok()
        && made(rt, &rig, Step::Switch).is_ok();
    let closed = close_one(alloc, rig, seat)?;
    let switched = closed.progress.phase == WorldPhase::Switching && closed.progress.left == 1;
    Some(held && switched && closed.is_whole(3))
}

/// A rig whose destination runs the processors. A store to a page that is missing slept there, and was woken once the page was one of
/// zeros: the store needs bytes for it.
fn woken_rig(alloc: Global) -> Option<Rig> {
    let steps = [
        issue(MAP),
        Step::Start,
        Step::Switch,
        DELIVER,
        DELIVER,
        DELIVER,
        issue(STORE),
        Step::DestRead,
        Step::DestAct,
    ];
    rig_after(alloc, 1, &steps)
}

/// Finishes the store. Where its retry is refused for memory it waits as before: the processor is busy, and nothing is entered.
fn stored_late<R: Wait>(rt: &R, rig: &Rig, seat: &mut CpuSeat) -> bool {
    match rig.finish(rt, seat) {
        Err(Refusal::NoMemory) => {
            let again = rig.call(rt, seat, STORED);
            seat.answers().is_empty()
                && again == Err(Refusal::Busy)
                && rig.finish(rt, seat) == Ok(Reply::Done)
        }
        answer => answer == Ok(Reply::Done),
    }
}

/// The store that slept, and a load of what it stored.
fn late<R: Wait>(rt: &R, alloc: Global) -> Option<bool> {
    let mut rig = woken_rig(alloc)?;
    let mut seat = rig.seat(0).ok()?;
    let held = stored_late(rt, &rig, &mut seat)
        && finished(rt, &rig, &mut seat) == Err(Refusal::NotAsleep)
        && call(rt, &rig, &mut seat, STORED) == Ok(Reply::Value(9));
    Some(held && close_one(alloc, rig, seat)?.is_whole(3))
}

/// Both owed pages are pushed in three turns, one of which may lack memory. The fourth finds nothing to push.
fn pushed<R: Wait>(rt: &R, alloc: Global) -> Option<bool> {
    let steps = [
        issue(MAP),
        store(0x10000, 9),
        store(0x11000, 7),
        Step::Start,
        Step::Switch,
    ];
    let rig = rig_after(alloc, 1, &steps)?;
    let (claims, seat) = claims(rt, &rig)?;
    let seat = rig.push_worker(rt, &claims, seat, &StopAt(4));
    let closed = close(rig, Vec::new(alloc), Some((claims, seat)));
    Some(closed.fault.is_none() && closed.progress.sent == 2 && closed.remaining == 0)
}

/// The page that a load has asked for is served and pushed, in three turns of which one may lack memory.
fn served<R: Wait>(rt: &R, alloc: Global) -> Option<bool> {
    let rig = rig_after(alloc, 1, &asked_steps(STORED))?;
    let (claims, seat) = claims(rt, &rig)?;
    let seat = rig.serve_worker(rt, &claims, seat, &StopAt(3));
    let closed = close(rig, Vec::new(alloc), Some((claims, seat)));
    Some(closed.fault.is_none() && closed.progress.sent == 1 && closed.urgent > 0)
}

/// The workers of the two sides, over three rounds of their steps each.
fn worked<R: Wait>(rt: &R, alloc: Global) -> Option<bool> {
    let rig = rig_after(alloc, 1, &[issue(MAP), issue(STORE), Step::Start])?;
    rig.source_worker(rt, &StopAt(21));
    rig.dest_worker(rt, &StopAt(18));
    let closed = close(rig, Vec::new(alloc), None);
    Some(closed.is_whole(2) && closed.progress.sent == 1 && closed.forward == 0)
}

/// The first scene that does not end as wanted.
fn first_failed<'a, R: Wait>(rt: &R, alloc: Global) -> Option<&'a str> {
    if calls(rt, alloc) != Some(true) {
        return Some("calls");
    }
    if late(rt, alloc) != Some(true) {
        return Some("a store that slept");
    }
    if pushed(rt, alloc) != Some(true) {
        return Some("pages in turn");
    }
    if served(rt, alloc) != Some(true) {
        return Some("a page that was asked for");
    }
    if worked(rt, alloc) != Some(true) {
        return Some("the workers of the two sides");
    }
    None
}

#[test]
fn each_scene(rt: HostRuntime) -> Result<(), Fail> {
    match first_failed(&rt, rt.alloc()) {
        None => Ok(()),
        Some(name) => Err(Fail::from(name)),
    }
}

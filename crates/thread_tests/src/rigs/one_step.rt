//! Each section makes one step, of the kind that was asked for: what else could be done waits.
ghost use Rattle.pusher.specs.Seats.{IsSeatOf};

use super::gates::{LOAD, MAP, StopAt, issue, store};
use super::setup::{call, claims, close, close_one, made, rig_after};
use mig_base::schedule::Step;
use mig_base::{Command, Reply};
use rig::Rig;
use std::alloc::Global;
use std::sync::Wait;
use std::test::Fail;

/// What is done while a page fault waits to be read.
#[derive(Clone, Copy)]
enum Act {
    /// One of the steps that no worker makes.
    Make(Step),
    /// A load of another processor, of an address at which nothing is mapped.
    Call,
    /// The first turn of each worker.
    Source,
    Dest,
    Serve,
    Push,
}

const ACTS: [(Act, &str); 9] = [
    (Act::Make(Step::Start), "start"),
    (Act::Make(Step::Switch), "switch"),
    (Act::Make(Step::Break), "cut"),
    (Act::Make(Step::Resume), "resume"),
    (Act::Call, "call"),
    (Act::Source, "a turn of the source"),
    (Act::Dest, "a turn of the destination"),
    (Act::Serve, "a turn of serving"),
    (Act::Push, "a turn of pushing"),
];

/// A rig of two processors. One sleeps, and its fault is not read: on a store to a page that is protected at the source, or on a load of
/// an owed page at the destination.
fn waiting_rig(alloc: Global, at_source: bool) -> Option<Rig> {
    let opening = [issue(MAP), store(0x10000, 9), Step::Start];
    if at_source {
        let [map, first, start] = opening;
        let again = store(0x10000, 5);
        return rig_after(
            alloc,
            2,
            &[map, first, start, Step::Round, Step::Send, again],
        );
    }
    let [map, first, start] = opening;
    let second = store(0x11000, 7);
    let deliver = Step::Deliver { n: u64::MAX };
    let steps = [
        map,
        first,
        second,
        start,
        Step::Switch,
        deliver,
        deliver,
        deliver,
        issue(LOAD),
    ];
    rig_after(alloc, 2, &steps)
}

/// The faults that were read once a rig has done this, in which processor 1 may have made a call.
fn faults_after<R: Wait>(rt: &R, alloc: Global, act: Act, at_source: bool) -> Option<u64> {
    let mut rig = waiting_rig(alloc, at_source)?;
    let mut seat = rig.seat(1).ok()?;
    match act {
        Act::Make(step) => {
            let _ = made(rt, &rig, step);
        }
        Act::Call => {
            let load = Command::Load {
                addr: 0x20000,
                width: 8,
            };
            if call(rt, &rig, &mut seat, load) != Ok(Reply::Segv { mapped: false }) {
                return None;
            }
        }
        Act::Source => rig.source_worker(rt, &StopAt(1)),
        Act::Dest => rig.dest_worker(rt, &StopAt(1)),
        Act::Serve | Act::Push => return faults_of_claims(rt, alloc, rig, act),
    }
    Some(close_one(alloc, rig, seat)?.progress.faults)
}

/// The same of a worker that needs claims: there are none before the switch.
fn faults_of_claims<R: Wait>(rt: &R, alloc: Global, rig: Rig, act: Act) -> Option<u64> {
    let Some((claims, seat)) = claims(rt, &rig) else {
        return Some(close(rig, Vec::new(alloc), None).progress.faults);
    };
    let _seat = match act {
        Act::Serve => rig.serve_worker(rt, &claims, seat, &StopAt(1)),
        _ => rig.push_worker(rt, &claims, seat, &StopAt(1)),
    };
    Some(close(rig, Vec::new(alloc), None).progress.faults)
}

/// The first act after which a fault was read.
fn first_failed<'a, R: Wait>(rt: &R, alloc: Global) -> Option<&'a str> {
    for (act, name) in ACTS {
        let at_source = faults_after(rt, alloc, act, true);
        if at_source != Some(0) || faults_after(rt, alloc, act, false) != Some(0) {
            return Some(name);
        }
    }
    None
}

#[test]
fn a_fault_waits_until_it_is_read(rt: HostRuntime) -> Result<(), Fail> {
    match first_failed(&rt, rt.alloc()) {
        None => Ok(()),
        Some(name) => Err(Fail::from(name)),
    }
}

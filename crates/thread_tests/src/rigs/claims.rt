//! Claims of the pages that remain, and the workers that send them.
ghost use Rattle.pusher.specs.Seats.{IsSeatOf};

use super::gates::{CutAfterFirst, MAP, STORED, StopAt, issue, store};
use super::outcomes::{ASKED_FOR, OWED, STARTED, UNPROTECTED, rig_with};
use super::setup::{Closed, asked_steps, claims, close, rig_after};
use crate::claims::again::split;
use mig_base::refusal::Refusal;
use mig_base::schedule::Step;
use pusher::{ClaimSeat, Claims};
use rig::{CloseFault, Rig};
use std::alloc::Global;
use std::sync::Wait;
use std::sync::atomic::{AtomicU64, Ordering};
use std::test::Fail;

/// What is done with claims.
#[derive(Clone, Copy)]
enum Scene {
    /// Of two pages a second seat claims one, and is dropped.
    Lost,
    /// The same of one page.
    LostAlone,
    /// Both pages are sent in turn, by one seat, and nothing is left for a second.
    InTurn,
    /// The request for a page waits on meanwhile.
    InTurnOnly,
    /// The page that was asked for is sent.
    Asked,
    /// The same for two turns, in a world whose steps had their outcomes.
    Served,
    /// The channel is cut between the request and the push: the worker has its ticket at each turn that follows.
    AskedAgain,
    /// Over a cut channel pushes are refused as `Broken`, and then as `Phase`: each worker claims one page.
    InTurnAgain,
}

const SCENES: [(Scene, &str); 8] = [
    (Scene::Lost, "a seat that was lost is found"),
    (Scene::LostAlone, "a seat of claims is dropped"),
    (Scene::InTurn, "the pages in turn are sent"),
    (Scene::InTurnOnly, "the worker that pushes serves nobody"),
    (Scene::Asked, "a page that was asked for is sent"),
    (Scene::Served, "two turns of serving"),
    (
        Scene::AskedAgain,
        "a page that was asked for is pushed again",
    ),
    (Scene::InTurnAgain, "a page in turn is pushed again"),
];

/// A rig of a world whose destination runs and is owed both pages.
fn owing_rig(alloc: Global) -> Option<Rig> {
    let deliver = Step::Deliver { n: u64::MAX };
    let steps = [
        issue(MAP),
        store(0x10000, 9),
        store(0x11000, 7),
        Step::Start,
        Step::Switch,
        deliver,
        deliver,
        deliver,
    ];
    rig_after(alloc, 1, &steps)
}

fn rig_for(alloc: Global, scene: Scene) -> Option<Rig> {
    match scene {
        Scene::Lost | Scene::InTurn | Scene::InTurnAgain => owing_rig(alloc),
        Scene::InTurnOnly | Scene::Asked | Scene::AskedAgain => {
            rig_after(alloc, 1, &asked_steps(STORED))
        }
        Scene::LostAlone => rig_with(alloc, &STARTED, &OWED, &[]),
        Scene::Served => rig_with(alloc, &STARTED, &UNPROTECTED, &ASKED_FOR),
    }
}

/// Makes claims in the rig of a scene, plays the scene with their seat, and closes the rig with both. Whether all is as wanted.
fn play<R: Wait>(rt: &R, alloc: Global, scene: Scene) -> bool {
    match rig_for(alloc, scene) {
        Some(rig) => play_in(rt, alloc, rig, scene),
        None => false,
    }
}

fn play_in<R: Wait>(rt: &R, alloc: Global, rig: Rig, scene: Scene) -> bool {
    match claims(rt, &rig) {
        Some((claims, seat)) => {
            let (seat, held) = play_with(rt, alloc, &rig, &claims, seat, scene);
            let closed = close(rig, Vec::new(alloc), Some((claims, seat)));
            held && is_wanted(alloc, scene, &closed)
        }
        None => false,
    }
}

fn play_with<R: Wait>(
    rt: &R,
    alloc: Global,
    rig: &Rig,
    claims: &Claims,
    seat: ClaimSeat,
    scene: Scene,
) -> (ClaimSeat, bool)
    requires { IsSeatOf claims.now seat }
    ensures { IsSeatOf claims.now result.0 }
{
    match scene {
        Scene::Lost => lost(rt, alloc, rig, claims, seat, &StopAt(2)),
        Scene::LostAlone => lost(rt, alloc, rig, claims, seat, &StopAt(1)),
        Scene::InTurn | Scene::InTurnOnly => in_turn(rt, alloc, rig, claims, seat),
        Scene::Asked => (rig.serve_worker(rt, claims, seat, &StopAt(4)), true),
        Scene::Served => (rig.serve_worker(rt, claims, seat, &StopAt(2)), true),
        Scene::AskedAgain => asked_again(rt, rig, claims, seat),
        Scene::InTurnAgain => in_turn_again(rt, alloc, rig, claims, seat),
    }
}

/// Whether a rig is closed so after a scene.
fn is_wanted(alloc: Global, scene: Scene, closed: &Closed) -> bool {
    let is_whole = closed.fault.is_none();
    let sent = closed.progress.sent;
    match scene {
        Scene::Lost | Scene::LostAlone => closed.fault == Some(CloseFault::Claims),
        Scene::InTurn => {
            is_whole
                && sent == 2
                && closed.remaining == 0
                && closed.forward > 0
                && closed.urgent == 0
        }
        Scene::InTurnOnly => is_whole && sent == 2 && closed.asked == 1,
        Scene::Asked => {
            is_whole
                && sent == 1
                && closed.remaining == 1
                && closed.forward == 0
                && closed.urgent > 0
        }
        Scene::Served => closed.is_reported(
            alloc,
            "progress phase postcopy rounds 1 sent 2 left 1 installed 0 dropped 0 faults 2\n",
        ),
        Scene::AskedAgain | Scene::InTurnAgain => is_whole && closed.remaining == 2,
    }
}

/// A second seat pushes until its gate stops it.
fn lost<R: Wait>(
    rt: &R,
    alloc: Global,
    rig: &Rig,
    claims: &Claims,
    mut seat: ClaimSeat,
    gate: &StopAt,
) -> (ClaimSeat, bool)
    requires { IsSeatOf claims.now seat }
    ensures { IsSeatOf claims.now result.0 }
{
    match split(alloc, claims, &mut seat) {
        Some(other) => {
            let _lost = rig.push_worker(rt, claims, other, gate);
            (seat, true)
        }
        None => (seat, false),
    }
}

/// Which of two pages a seat holds.
pub fn held(claims: &Claims, seat: &ClaimSeat) -> Option<(bool, bool)>
    requires { IsSeatOf claims.now seat.now }
{
    if claims.len() == 2 {
        Some((claims.holds(seat, 0), claims.holds(seat, 1)))
    } else {
        None
    }
}

/// A new seat pushes until its gate stops it, and is joined. Which of two pages it held.
fn pushed_by_another<R: Wait>(
    rt: &R,
    alloc: Global,
    rig: &Rig,
    claims: &Claims,
    seat: &mut ClaimSeat,
    gate: &StopAt,
) -> Option<(bool, bool)>
    requires { IsSeatOf claims.now seat.old }
    ensures { IsSeatOf claims.now seat.new }
{
    let other = split(alloc, claims, seat)?;
    let other = rig.push_worker(rt, claims, other, gate);
    let held = held(claims, &other);
    claims.join(seat, other);
    held
}

fn in_turn<R: Wait>(
    rt: &R,
    alloc: Global,
    rig: &Rig,
    claims: &Claims,
    seat: ClaimSeat,
) -> (ClaimSeat, bool)
    requires { IsSeatOf claims.now seat }
    ensures { IsSeatOf claims.now result.0 }
{
    let mut seat = rig.push_worker(rt, claims, seat, &StopAt(3));
    let other = pushed_by_another(rt, alloc, rig, claims, &mut seat, &StopAt(1));
    (seat, other == Some((false, false)))
}

fn asked_again<R: Wait>(rt: &R, rig: &Rig, claims: &Claims, seat: ClaimSeat) -> (ClaimSeat, bool)
    requires { IsSeatOf claims.now seat }
    ensures { IsSeatOf claims.now result.0 }
{
    let gate = CutAfterFirst {
        rt,
        rig,
        pushes: AtomicU64::new(0),
    };
    let seat = rig.serve_worker(rt, claims, seat, &gate);
    let held = held(claims, &seat);
    let pushes = gate.pushes.load(Ordering::SeqCst);
    (seat, held == Some((true, false)) && pushes == 3)
}

fn in_turn_again<R: Wait>(
    rt: &R,
    alloc: Global,
    rig: &Rig,
    claims: &Claims,
    seat: ClaimSeat,
) -> (ClaimSeat, bool)
    requires { IsSeatOf claims.now seat }
    ensures { IsSeatOf claims.now result.0 }
{
    let cut = rig.cut(rt).is_ok();
    let mut seat = rig.push_worker(rt, claims, seat, &StopAt(3));
    let first = held(claims, &seat);
    rig.source_worker(rt, &StopAt(7));
    let second = pushed_by_another(rt, alloc, rig, claims, &mut seat, &StopAt(3));
    (
        seat,
        cut && first == Some((true, false)) && second == Some((false, true)),
    )
}

/// There are no claims before the Switch.
fn are_refused<R: Wait>(rt: &R, alloc: Global, cpus: u8) -> bool {
    match rig_after(alloc, cpus, &[]) {
        Some(rig) => matches!(rig.claims(rt), Err(Refusal::Phase)),
        None => false,
    }
}

/// The first scene in which something is not as wanted.
fn first_failed<'a, R: Wait>(rt: &R, alloc: Global) -> Option<&'a str> {
    if !are_refused(rt, alloc, 1) || !are_refused(rt, alloc, 2) {
        return Some("claims before the switch");
    }
    for (scene, name) in SCENES {
        if !play(rt, alloc, scene) {
            return Some(name);
        }
    }
    None
}

#[test]
fn each_scene(rt: HostRuntime) -> Result<(), Fail> {
    match first_failed(&rt, rt.alloc()) {
        None => Ok(()),
        Some(name) => Err(Fail::from(name)),
    }
}

//! Seats, and calls and a worker in the thread of the test; what `close` says of seats that are missing or of another rig.

use super::gates::{MAP, STORE, STORED, SkipTo, StopAt, issue};
use super::outcomes::{STARTED, UNPROTECTED, rig_with};
use super::setup::{Closed, call, close, close_one, finished, listed, made, rig_after};
use mig_base::refusal::Refusal;
use mig_base::schedule::{Step, Ticket};
use mig_base::{Command, Reply, WorldPhase};
use rig::{CloseFault, CpuSeat, Rig};
use std::alloc::Global;
use std::sync::Wait;
use std::test::Fail;

/// What is done in a rig with the seat of its first processor.
#[derive(Clone, Copy)]
enum Scene {
    /// Seats are handed out once. That of processor 1 is missing at the close.
    HandedOut,
    /// A gate stops a worker at its turn.
    Stopped,
    /// A turn that is skipped makes no step.
    Skipped,
    /// A load that slept before the rig was made is finished in it, once its page was installed.
    Opening,
    /// A store that slept is finished, once its page is not protected any more.
    Slept,
}

const SCENES: [(Scene, &str); 5] = [
    (Scene::HandedOut, "seats are handed out once"),
    (Scene::Stopped, "a gate stops a worker at its turn"),
    (Scene::Skipped, "a turn that is skipped makes no step"),
    (Scene::Opening, "an opening command is finished"),
    (Scene::Slept, "a store that slept is finished"),
];

/// A rig in which a load sleeps that was begun before.
fn sleeping_rig(alloc: Global) -> Option<Rig> {
    let deliver = Step::Deliver { n: u64::MAX };
    let steps = [
        issue(MAP),
        issue(STORE),
        Step::Start,
        Step::Switch,
        deliver,
        deliver,
        deliver,
        Step::Push(Ticket { epoch: 1, page: 16 }),
        issue(STORED),
    ];
    rig_after(alloc, 2, &steps)
}

fn rig_for(alloc: Global, scene: Scene) -> Option<Rig> {
    match scene {
        Scene::HandedOut => rig_after(alloc, 2, &[]),
        Scene::Stopped | Scene::Skipped => rig_after(alloc, 1, &[]),
        Scene::Opening => sleeping_rig(alloc),
        Scene::Slept => rig_with(alloc, &STARTED, &UNPROTECTED, &[]),
    }
}

/// Plays a scene in its rig, and closes this with the seat. Whether all is as wanted.
fn play<R: Wait>(rt: &R, alloc: Global, scene: Scene) -> bool {
    let Some(mut rig) = rig_for(alloc, scene) else {
        return false;
    };
    let Some((seat, held)) = play_in(rt, &mut rig, scene) else {
        return false;
    };
    match close_one(alloc, rig, seat) {
        Some(closed) => held && is_wanted(scene, &closed),
        None => false,
    }
}

fn play_in<R: Wait>(rt: &R, rig: &mut Rig, scene: Scene) -> Option<(CpuSeat, bool)> {
    if let Scene::HandedOut = scene {
        return handed_out(rt, rig);
    }
    let mut seat = rig.seat(0).ok()?;
    let held = play_with(rt, rig, &mut seat, scene);
    Some((seat, held))
}

fn play_with<R: Wait>(rt: &R, rig: &Rig, seat: &mut CpuSeat, scene: Scene) -> bool {
    match scene {
        Scene::HandedOut => false,
        Scene::Stopped => is_stopped(rt, rig, seat),
        Scene::Skipped => is_skipped(rt, rig, seat),
        Scene::Opening => is_opening(rt, rig, seat),
        Scene::Slept => finished(rt, rig, seat) == Ok(Reply::Done),
    }
}

fn handed_out<R: Wait>(rt: &R, rig: &mut Rig) -> Option<(CpuSeat, bool)> {
    let missing = rig.seat(2).err();
    let mut seat = rig.seat(0).ok()?;
    let has_second = rig.seat(1).is_ok();
    let again = rig.seat(0).err();
    let held = missing == Some(Refusal::NoCpu)
        && has_second
        && again == Some(Refusal::Busy)
        && is_idle(rt, rig, &mut seat);
    Some((seat, held))
}

fn is_idle<R: Wait>(rt: &R, rig: &Rig, seat: &mut CpuSeat) -> bool {
    finished(rt, rig, seat) == Err(Refusal::NotAsleep) && seat.answers().is_empty()
}

/// Maps and stores. Where a call is refused for memory nothing is entered: the mapping has its place when it is made again.
fn is_stored<R: Wait>(rt: &R, rig: &Rig, seat: &mut CpuSeat) -> bool {
    call(rt, rig, seat, MAP) == Ok(Reply::At(0x10000))
        && call(rt, rig, seat, STORE) == Ok(Reply::Done)
}

fn is_stopped<R: Wait>(rt: &R, rig: &Rig, seat: &mut CpuSeat) -> bool {
    if !is_stored(rt, rig, seat) || seat.answers().len() != 2 {
        return false;
    }
    if rig.resume(rt) != Err(Refusal::Phase) || made(rt, rig, Step::Start).is_err() {
        return false;
    }
    rig.source_worker(rt, &StopAt(2));
    rig.phase(rt) == WorldPhase::Precopy
}

fn is_skipped<R: Wait>(rt: &R, rig: &Rig, seat: &mut CpuSeat) -> bool {
    if !is_stored(rt, rig, seat) || made(rt, rig, Step::Start).is_err() {
        return false;
    }
    rig.source_worker(rt, &SkipTo(14));
    rig.dest_worker(rt, &SkipTo(12));
    true
}

/// Whether the seat's processor has a command. It is asked again where the seat has no room for an answer.
fn is_busy<R: Wait>(rt: &R, rig: &Rig, seat: &mut CpuSeat) -> bool {
    let answer = rig.call(rt, seat, STORED);
    answer == Err(Refusal::Busy)
        || answer == Err(Refusal::NoMemory) && rig.call(rt, seat, STORED) == Err(Refusal::Busy)
}

/// The reply to a load whose page was installed. Where memory is refused it sleeps on, and is finished once more.
fn loaded<R: Wait>(rt: &R, rig: &Rig, seat: &mut CpuSeat) -> Result<Reply, Refusal> {
    let answer = rig.finish(rt, seat);
    if answer == Err(Refusal::NoMemory) && is_busy(rt, rig, seat) {
        return rig.finish(rt, seat);
    }
    answer
}

fn is_opening<R: Wait>(rt: &R, rig: &Rig, seat: &mut CpuSeat) -> bool {
    if !is_busy(rt, rig, seat) {
        return false;
    }
    rig.dest_worker(rt, &StopAt(12));
    loaded(rt, rig, seat) == Ok(Reply::Value(9))
}

/// Whether a rig is closed so after a scene.
fn is_wanted(scene: Scene, closed: &Closed) -> bool {
    let progress = closed.progress;
    match scene {
        Scene::HandedOut => {
            closed.fault == Some(CloseFault::Answers(1))
                && closed.entries == 0
                && progress.phase == WorldPhase::Idle
        }
        Scene::Stopped => closed.is_whole(2) && progress.rounds == 1 && progress.sent == 1,
        Scene::Skipped => {
            closed.is_whole(2) && progress.rounds == 0 && progress.sent == 0 && closed.forward > 0
        }
        Scene::Opening => closed.is_whole(3),
        Scene::Slept => closed.fault.is_none(),
    }
}

/// The first scene in which something is not as wanted.
fn first_failed<'a, R: Wait>(rt: &R, alloc: Global) -> Option<&'a str> {
    for (scene, name) in SCENES {
        if !play(rt, alloc, scene) {
            return Some(name);
        }
    }
    None
}

#[test]
fn each_scene(rt: HostRuntime) -> Result<(), Fail> {
    match first_failed(&rt, rt.alloc()) {
        None => Ok(()),
        Some(name) => Err(Fail::from(name)),
    }
}

/// Whether the worker of the source makes a round and sends its page in two turns of a rig with no seats.
fn is_sent<R: Wait>(rt: &R, alloc: Global) -> bool {
    match rig_with(alloc, &STARTED, &[], &[]) {
        Some(rig) => {
            rig.source_worker(rt, &StopAt(2));
            let closed = close(rig, Vec::new(alloc), None);
            closed.is_reported(
                alloc,
                "progress phase precopy rounds 1 sent 1 left 0 installed 0 dropped 0 faults 0\n",
            )
        }
        None => false,
    }
}

#[test]
fn two_turns_of_the_source(rt: HostRuntime) -> Result<(), Fail> {
    assert!(rt; is_sent(&rt, rt.alloc()));
    Ok(())
}

/// A seat of a processor of a rig of three, with the answer to a command.
fn seat_elsewhere<R: Wait>(rt: &R, alloc: Global, cpu: u8, command: Command) -> Option<CpuSeat> {
    let mut rig = rig_after(alloc, 3, &[])?;
    let mut seat = rig.seat(cpu).ok()?;
    match call(rt, &rig, &mut seat, command) {
        Ok(_) => Some(seat),
        Err(_) => None,
    }
}

/// The fault of a rig of one processor that is closed with such a seat.
fn fault_of_one<R: Wait>(rt: &R, alloc: Global, cpu: u8) -> Option<CloseFault> {
    let seat = seat_elsewhere(rt, alloc, cpu, MAP)?;
    let rig = rig_after(alloc, 1, &[])?;
    close_one(alloc, rig, seat)?.fault
}

/// Two seats of processor 1.
fn twin_seats<R: Wait>(rt: &R, alloc: Global) -> Option<Vec<CpuSeat>> {
    let seat = seat_elsewhere(rt, alloc, 1, STORED)?;
    let other = seat_elsewhere(rt, alloc, 1, STORED)?;
    listed(alloc, seat, other)
}

/// The fault of a rig of two processors that is closed with these.
fn fault_of_twins<R: Wait>(rt: &R, alloc: Global) -> Option<CloseFault> {
    let seats = twin_seats(rt, alloc)?;
    let rig = rig_after(alloc, 2, &[])?;
    close(rig, seats, None).fault
}

/// A world of one processor does not have that of the first seat, and has not made the command of the second.
#[test]
fn a_seat_of_another_rig_is_named(rt: HostRuntime) -> Result<(), Fail> {
    for cpu in [2, 0] {
        let fault = fault_of_one(&rt, rt.alloc(), cpu);
        assert!(rt; fault == Some(CloseFault::Answers(cpu)), "{cpu}");
    }
    let fault = fault_of_twins(&rt, rt.alloc());
    assert!(rt; fault == Some(CloseFault::Answers(1)));
    Ok(())
}

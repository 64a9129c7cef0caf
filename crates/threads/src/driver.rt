//! The driver of a run: it starts the threads, switches, cuts and resumes.

use crate::course::Course;
use crate::processor::{calls_with, make_calls};
use crate::sending::{EpochClaims, send_pages};
use mig_base::WorldPhase;
use mig_base::refusal::Refusal;
use rig::{CpuSeat, Rig};
use std::alloc::Global;
use std::sync::Wait;
use std::thread;
use std::thread::Threads;

/// The plan of a run.
#[derive(Clone, Copy)]
pub(crate) struct Plan {
    /// The number of stores of each processor, and of its loads.
    pub stores: u16,
    /// Whether the channel breaks once, and when.
    pub cut: Option<Cut>,
}

/// What the threads of a run share.
#[derive(Clone, Copy)]
pub(crate) struct Shared<'a> {
    pub rig: &'a Rig,
    pub course: &'a Course,
}

/// When the channel breaks.
#[derive(Clone, Copy, PartialEq, Eq)]
pub(crate) enum Cut {
    /// Right after the switch.
    AfterSwitch,
    /// Once the destination runs the processors.
    AfterRun,
}

/// Runs the processors of the seats through a migration. Returns the seats and the claims of the last epoch once all threads have ended,
/// or `None` if a thread could not be started, or memory was refused that no later turn makes up for.
///
/// The workers are started first, so that no processor waits for one that could not be. They end only when all processors have.
pub(crate) fn run_all<R: Threads + Wait + Sync>(
    rt: &R,
    alloc: Global,
    shared: Shared<'_>,
    seats: Vec<CpuSeat>,
    plan: Plan,
) -> Option<(Vec<CpuSeat>, Option<EpochClaims>)> {
    let Shared { rig, course } = shared;
    thread::scope(thread::scope_env(), rt, move |scope| {
        let cpus = seats.len();
        let mut back = Vec::with_capacity(alloc, cpus).ok()?;
        let mut threads = Vec::with_capacity(alloc, cpus).ok()?;
        let source = scope.spawn(move || rig.source_worker(rt, course));
        let dest = scope.spawn(move || rig.dest_worker(rt, course));
        let sender = scope.spawn(move || send_pages(rt, alloc, shared));
        if source.is_err() || dest.is_err() || sender.is_err() || rig.start(rt).is_err() {
            course.end();
            return None;
        }
        for seat in seats {
            match scope.spawn(move || make_calls(rt, rig, course, seat, plan.stores)) {
                Ok(thread) => {
                    if threads.push(thread).is_err() {
                        course.lack();
                    }
                }
                Err(_) => {
                    course.lack();
                    course.count(u64::from(calls_with(plan.stores)));
                }
            }
        }
        let calls = (cpus as u64).wrapping_mul(u64::from(calls_with(plan.stores)));
        let is_moved = migrate(rt, rig, course, plan.cut, calls);
        for thread in threads {
            if back.push(thread.join(rt)).is_err() {
                course.lack();
            }
        }
        if is_moved {
            wait_for_phase(rt, rig, WorldPhase::Complete);
        }
        course.end();
        let sent = match sender {
            Ok(sender) => sender.join(rt),
            Err(_) => None,
        };
        if is_moved && !course.is_lacking() {
            Some((back, sent))
        } else {
            None
        }
    })
}

/// Switches once half of the calls are made, breaks the channel and resumes if the plan says so, and waits for the other calls. False if
/// the switch was refused for lack of memory, or a processor was not started: the source then continues to run the others.
fn migrate<R: Wait>(rt: &R, rig: &Rig, course: &Course, cut: Option<Cut>, calls: u64) -> bool {
    course.wait_for_calls(rt, calls / 2);
    let is_moved = !course.is_lacking() && switch(rt, rig);
    if is_moved {
        if let Some(cut) = cut {
            cut_and_resume(rt, rig, cut);
        }
        course.let_end();
    }
    course.wait_for_calls(rt, calls);
    is_moved
}

/// Switches as soon as no event is unread. False if the switch is refused for lack of memory.
fn switch<R: Wait>(rt: &R, rig: &Rig) -> bool {
    for _ in rt.forever() {
        match rig.switch(rt) {
            Ok(_) => return true,
            Err(Refusal::Changing) => thread::yield_now(),
            Err(_) => return false,
        }
    }
    unreachable!()
}

/// Breaks the channel, and resumes once both sides are paused.
fn cut_and_resume<R: Wait>(rt: &R, rig: &Rig, cut: Cut) {
    if cut == Cut::AfterRun {
        wait_for_phase(rt, rig, WorldPhase::Postcopy);
    }
    if rig.cut(rt).is_err() {
        return;
    }
    for _ in rt.forever() {
        if rig.resume(rt).is_ok() {
            return;
        }
        thread::yield_now();
    }
}

/// Waits until the migration is in a phase.
fn wait_for_phase<R: Wait>(rt: &R, rig: &Rig, phase: WorldPhase) {
    for _ in rt.forever() {
        if rig.phase(rt) == phase {
            return;
        }
        thread::yield_now();
    }
}

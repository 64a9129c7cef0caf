//! What is timed of a rig: the calls of its seats, and the workers that send owed pages.
ghost use Rattle.pusher.specs.Seats.{IsSeatOf};

use mig_base::refusal::Refusal;
use mig_base::schedule::Step;
use mig_base::{Command, LOW, NoMemory, PAGE_SIZE, Place, Prot, WorldPhase};
use pusher::{ClaimSeat, Claims};
use rig::{CpuSeat, Gate, Pass, Rig, StepKind, Worker};
use std::alloc::Global;
use std::sync::Wait;
use std::sync::atomic::{AtomicBool, Ordering};
use std::thread;
use std::thread::Threads;
use std::time::{Clock, Duration};
use world::World;

/// The pages over which the loads and stores of a processor are spread.
const SPREAD: u64 = 8;

/// Maps those pages for each of `cpus` processors.
pub fn map(world: &mut World, cpus: u8) -> Result<(), Refusal> {
    world.step(Step::Issue {
        cpu: 0,
        command: Command::Mmap {
            addr_len: u64::from(cpus) * SPREAD * PAGE_SIZE,
            prot: Prot::ReadWrite,
            place: Place::Anywhere,
        },
    })?;
    Ok(())
}

/// A processor's command of that number: a store and a load in turn, over its pages.
fn command(cpu: u8, number: u32) -> Command {
    let page = u64::from(cpu) * SPREAD + u64::from(number / 2) % SPREAD;
    let addr = LOW + page * PAGE_SIZE;
    if number % 2 == 0 {
        Command::Store {
            addr,
            width: 8,
            value: u64::from(number),
        }
    } else {
        Command::Load { addr, width: 8 }
    }
}

/// Makes `count` commands by `World::step`.
pub fn make_steps(world: &mut World, count: u32) -> Result<(), Refusal> {
    for number in 0..count {
        world.step(Step::Issue {
            cpu: 0,
            command: command(0, number),
        })?;
    }
    Ok(())
}

/// Makes `count` calls of a seat.
pub fn make_calls<R: Wait>(
    rt: &R,
    rig: &Rig,
    seat: &mut CpuSeat,
    count: u32,
) -> Result<(), Refusal> {
    for number in 0..count {
        rig.call(rt, seat, command(seat.cpu(), number))?;
    }
    Ok(())
}

/// The seat after `count` calls. It has fewer answers if one was refused.
fn after_calls<R: Wait>(rt: &R, rig: &Rig, mut seat: CpuSeat, count: u32) -> CpuSeat {
    let _ = make_calls(rt, rig, &mut seat, count);
    seat
}

/// Makes `count` calls of each seat, each seat in a thread of its own. Returns how many were answered.
pub fn make_all_calls<R: Threads + Wait + Sync>(
    rt: &R,
    rig: &Rig,
    seats: Vec<CpuSeat>,
    count: u32,
) -> Result<usize, NoMemory> {
    let seats = thread::map_vec(rt, seats, &|seat| after_calls(rt, rig, seat, count))?;
    Ok(
        seats.iter().fold(
            0,
            |sum: usize, seat| sum.saturating_add(seat.answers().len()),
        ),
    )
}

/// Lets each step be made until all is done.
#[derive(Drop)]
pub struct UntilDone {
    done: AtomicBool,
}

impl UntilDone {
    pub fn new() -> UntilDone {
        UntilDone {
            done: AtomicBool::new(false),
        }
    }
}

impl Gate for UntilDone {
    fn pass(&self, _who: Worker, _next: StepKind, _turn: u64) -> Pass {
        if self.done.load(Ordering::SeqCst) {
            Pass::Stop
        } else {
            Pass::Go
        }
    }
}

/// Sends all owed pages and ends the migration, by three workers in threads of their own. Whether it was completed.
pub fn send_owed<R: Threads + Wait + Clock + Sync>(
    rt: &R,
    rig: &Rig,
    gate: &UntilDone,
    claims: &Claims,
    seat: ClaimSeat,
) -> bool
    requires { IsSeatOf claims.now seat }
{
    thread::scope(
        thread::scope_env(),
        rt,
        |scope|
            requires { IsSeatOf claims.now seat }
        {
            let source = scope.spawn(move || rig.source_worker(rt, gate)).ok();
            let dest = scope.spawn(move || rig.dest_worker(rt, gate)).ok();
            let push = scope
                .spawn(
                    move ||
                        requires { IsSeatOf claims.now seat }
                    { rig.push_worker(rt, claims, seat, gate) },
                )
                .ok();
            let done = source.is_some()
                && dest.is_some()
                && push.is_some()
                && is_completed(rt, rig);
            gate.done.store(true, Ordering::SeqCst);
            if let Some(source) = source {
                source.join(rt);
            }
            if let Some(dest) = dest {
                dest.join(rt);
            }
            if let Some(push) = push {
                let _seat = push.join(rt);
            }
            done
        },
    )
}

/// Waits until the migration is complete, a minute at most.
fn is_completed<R: Wait + Clock>(rt: &R, rig: &Rig) -> bool {
    for _ in 0..600_000 {
        if rig.phase(rt) == WorldPhase::Complete {
            return true;
        }
        thread::sleep(rt, Duration::from_micros(100));
    }
    false
}

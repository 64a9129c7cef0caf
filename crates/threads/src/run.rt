//! One run, from the new world to the report.

ghost use Rattle.std.specs.Prelude.{◌≡◌, ◌≤◌, [], None, length, IfOk, IfErr};
ghost use Rattle.engine.specs.declared.fault.RunFault.TheVariants.{NoMemory as OutOfMemory};
ghost use Rattle.mig_base.specs.Flat.{IsFlatRun};
ghost use Rattle.threads.specs.Report.{AreFrom, IsHistory, Reports, ThreadsStop};

use crate::course::{Asked, Course};
use crate::driver::{Cut, Plan, Shared, run_all};
use crate::summary::{are_whole, claims_in, print_run};
use engine::RunFault;
use engine::line_runner::write_out;
use rig::{CloseFault, CpuSeat, Rig};
use std::alloc::Global;
use std::io::Write;
use std::sync::Wait;
use std::thread::Threads;
use world::World;

/// A run that has ended.
#[derive(Drop)]
pub struct Run {
    /// The seats of the processors, in the order of their numbers, with the answers to their calls.
    pub seats: Vec<CpuSeat>,
    /// The world that the rig was closed with.
    pub world: World,
    /// What `Rig::close` has found wrong, if anything.
    pub fault: Option<CloseFault>,
    /// How often the workers have asked for turns.
    pub asked: Asked,
}

/// What a run does.
#[derive(Clone, Copy)]
pub struct Scenario {
    /// How many processors the guest has, 1 to 16.
    pub cpus: u8,
    /// How many stores each of them makes, and how many loads, after a map call.
    pub calls: u16,
    /// Whether the channel breaks once.
    pub cut: bool,
}

/// Runs a guest through a whole migration, each processor and each worker in a thread of its own. Returns when all threads have ended.
///
/// The only fault is `NoMemory`: memory was refused, or a thread could not be started.
pub fn run_world<R: Threads + Wait + Sync>(
    rt: &R,
    alloc: Global,
    scenario: Scenario,
) -> Result<Run, RunFault>
    requires low { 1 ≤ scenario.cpus }
    requires high { scenario.cpus ≤ 16 }
    ensures all { IfOk result (λ run. length run.seats.items ≡ scenario.cpus) }
    ensures each { IfOk result (λ run. AreFrom 0 scenario.calls run.seats.items) }
    ensures flat { IfOk result (λ run. IsFlatRun run.world.transcript) }
    ensures history { IfOk result (λ run. run.fault ≡ None → IsHistory run.seats.items run.world) }
    ensures err { IfErr result (λ fault. fault ≡ OutOfMemory) }
{
    let (rig, seats) = seated(alloc, scenario.cpus)?;
    let plan = Plan {
        stores: scenario.calls,
        cut: cut_for(scenario),
    };
    let course = Course::new();
    let shared = Shared {
        rig: &rig,
        course: &course,
    };
    let Some((seats, sent)) = run_all(rt, alloc, shared, seats, plan) else {
        return Err(RunFault::NoMemory);
    };
    if !are_whole(&seats, scenario.cpus, scenario.calls) {
        return Err(RunFault::NoMemory);
    }
    let asked = course.asked();
    match rig.close_with(&seats, claims_in(sent)) {
        Ok(world) => Ok(Run {
            seats,
            world,
            fault: None,
            asked,
        }),
        Err((fault, world)) => Ok(Run {
            seats,
            world,
            fault: Some(fault),
            asked,
        }),
    }
}

/// Makes a run, writes its report, and returns the run. Its `fault` is what the tests of `Rig::close` have found, if anything.
///
/// `NoMemory` comes if memory is refused or a thread cannot be started: nothing is written then. `WriteFault` comes if a write fails; the
/// first part of the report may be written then.
pub fn run_threads<R: Threads + Wait + Sync, W: Write>(
    rt: &R,
    alloc: Global,
    writer: &mut W,
    scenario: Scenario,
) -> Result<Run, RunFault>
    requires low { 1 ≤ scenario.cpus }
    requires high { scenario.cpus ≤ 16 }
    ensures ok { IfOk result (λ run. Reports scenario.cpus scenario.calls run.seats.items run.world
        run.fault (W.contents writer.old) (W.contents writer.new)) }
    ensures fault { IfErr result (λ fault. ThreadsStop scenario.cpus scenario.calls fault
        (W.contents writer.old) (W.contents writer.new)) }
{
    let run = run_world(rt, alloc, scenario)?;
    let mut text = String::new(alloc);
    print_run(&mut text, &run)?;
    write_out(writer, text.as_bytes())?;
    Ok(run)
}

/// When a run with a cut breaks the channel: right after the switch if the number of processors is odd, else once the destination runs.
fn cut_for(scenario: Scenario) -> Option<Cut> {
    if !scenario.cut {
        None
    } else if scenario.cpus % 2 == 1 {
        Some(Cut::AfterSwitch)
    } else {
        Some(Cut::AfterRun)
    }
}

/// The rig of a new world, and all of its seats.
fn seated(alloc: Global, cpus: u8) -> Result<(Rig, Vec<CpuSeat>), RunFault>
    requires low { 1 ≤ cpus }
    requires high { cpus ≤ 16 }
    ensures opening { IfOk result (λ r. r.0.opening ≡ []) }
    ensures err { IfErr result (λ fault. fault ≡ OutOfMemory) }
{
    let Ok(world) = World::new(alloc, cpus) else {
        return Err(RunFault::NoMemory);
    };
    let Ok(mut rig) = Rig::new(alloc, world) else {
        return Err(RunFault::NoMemory);
    };
    let mut seats = Vec::new(alloc);
    for cpu in 0..cpus {
        let Ok(seat) = rig.seat(cpu) else {
            return Err(RunFault::NoMemory);
        };
        seats.push(seat)?;
    }
    Ok((rig, seats))
}

//! Runs with and without a cut: what they write, and the world that they have run. One that is refused memory has written nothing; it is
//! made once more, and then has to succeed.
ghost use Rattle.std.specs.Prelude.{◌≤◌};

use engine::RunFault;
use mig_base::{Command, LOW, Place, Prot, WorldPhase};
use rig::{Answer, CpuSeat};
use std::alloc::Global;
use std::sync::Wait;
use std::test::Fail;
use std::thread::Threads;
use threads::{Run, Scenario, run_threads};

/// A run, made once more if it was refused memory and has written nothing.
fn run<R: Threads + Wait + Sync>(
    rt: &R,
    alloc: Global,
    out: &mut Vec<u8>,
    cpus: u8,
    cut: bool,
) -> Result<Run, RunFault>
    requires low { 1 ≤ cpus }
    requires high { cpus ≤ 16 }
{
    let scenario = Scenario {
        cpus,
        calls: 8,
        cut,
    };
    match run_threads(rt, alloc, out, scenario) {
        Err(RunFault::NoMemory) if out.is_empty() => run_threads(rt, alloc, out, scenario),
        ended => ended,
    }
}

/// Whether each worker was asked in a run that writes just this and has the world of a whole migration; none if it does not.
fn is_reported<R: Threads + Wait + Sync>(
    rt: &R,
    alloc: Global,
    cpus: u8,
    cut: bool,
    wanted: &str,
) -> Option<bool> {
    if cpus < 1 || cpus > 16 {
        return None;
    }
    let mut out = Vec::new(alloc);
    let run = run(rt, alloc, &mut out, cpus, cut).ok()?;
    let is_right = out.as_slice() == wanted.as_bytes()
        && is_complete(&run, cpus, if cut { 2 } else { 1 })
        && have_called(&run.seats);
    let asked = run.asked;
    let have_come = asked.source > 0 && asked.dest > 0 && asked.serve > 0 && asked.push > 0;
    if is_right { Some(have_come) } else { None }
}

/// Whether the world is that of a whole migration in this epoch.
fn is_complete(run: &Run, cpus: u8, epoch: u32) -> bool {
    run.fault.is_none()
        && run.world.phase() == WorldPhase::Complete
        && run.world.epoch() == epoch
        && run.world.counts().sent > 0
        && run.world.transcript().len() == 17 * usize::from(cpus)
}

/// The n-th of the calls of a processor with eight stores: it maps eight pages, stores 1 to 8 at their first bytes, and loads these.
fn call(cpu: u8, n: u64) -> Command {
    let first = LOW + 16384 * u64::from(cpu);
    match n {
        0 => Command::Mmap {
            addr_len: 32768,
            prot: Prot::ReadWrite,
            place: Place::Fixed(first),
        },
        1..=8 => Command::Store {
            addr: first + 4096 * (n - 1),
            width: 8,
            value: n,
        },
        _ => Command::Load {
            addr: first.wrapping_add(4096 * (n % 32)).wrapping_sub(4096 * 9),
            width: 8,
        },
    }
}

/// Whether the answers are to those calls, in order.
fn are_to_calls(cpu: u8, answers: &[Answer]) -> bool {
    let mut n = 0;
    for answer in answers {
        if answer.command != call(cpu, n) {
            return false;
        }
        n = n.wrapping_add(1);
    }
    n == 17
}

fn have_called(seats: &[CpuSeat]) -> bool {
    for seat in seats {
        if !are_to_calls(seat.cpu(), seat.answers()) {
            return false;
        }
    }
    true
}

/// The numbers of processors, whether the channel is cut, and what is written.
const REPORTS: [(u8, bool, &str); 5] = [
    (1, false, "cpu 0 calls 17\ntranscript 17\nclose ok\n"),
    (1, true, "cpu 0 calls 17\ntranscript 17\nclose ok\n"),
    (
        2,
        false,
        "cpu 0 calls 17\ncpu 1 calls 17\ntranscript 34\nclose ok\n",
    ),
    (
        2,
        true,
        "cpu 0 calls 17\ncpu 1 calls 17\ntranscript 34\nclose ok\n",
    ),
    (
        3,
        true,
        "cpu 0 calls 17\ncpu 1 calls 17\ncpu 2 calls 17\ntranscript 51\nclose ok\n",
    ),
];

fn are_reported<R: Threads + Wait + Sync>(rt: &R, alloc: Global) -> bool {
    for (cpus, cut, wanted) in REPORTS {
        if !is_reported_in_time(rt, alloc, cpus, cut, wanted) {
            return false;
        }
    }
    true
}

/// Whether each of a few runs is right, and each worker was asked in one of them: on a loaded machine a thread may begin when all is done.
fn is_reported_in_time<R: Threads + Wait + Sync>(
    rt: &R,
    alloc: Global,
    cpus: u8,
    cut: bool,
    wanted: &str,
) -> bool {
    for _ in 0..8 {
        match is_reported(rt, alloc, cpus, cut, wanted) {
            Some(true) => return true,
            Some(false) => {}
            None => return false,
        }
    }
    false
}

/// A cut brings the world into its second epoch.
#[test]
fn each_run_is_reported(rt: HostRuntime) -> Result<(), Fail> {
    assert!(rt; are_reported(&rt, rt.alloc()));
    Ok(())
}

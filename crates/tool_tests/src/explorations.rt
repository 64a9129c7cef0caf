//! The crate `explore`: writes that fail, and memory that is refused.
//!
//! `bench/check/explored.py` judges what is written, by the other commands.

use engine::RunFault;
use explore::{MetByAll, Plan, Profile, Tally, meet_all, run_explore};
use schedules::{Small, WalkFault, walk_schedules};
use std::alloc::{AllocError, Global};
use std::io;
use std::io::Write;
use std::process::Abort;
use std::test::Fail;

/// No script of these tests has more bytes.
const MOST: usize = 200_000;

/// A short script with all kinds of steps.
const PLAN: Plan = Plan {
    seed: 7,
    steps: 100,
    cpus: 2,
    profile: Profile::All,
    pages: 8,
    finish: false,
    sweep: false,
    answers: false,
};

/// Takes at most `size` bytes at a time, and fails at one of its writes.
#[derive(Drop)]
struct Slow {
    bytes: Vec<u8>,
    size: usize,
    fails_at: u32,
    writes: u32,
}

impl Write for Slow {
    fn write(&mut self, buf: &[u8]) -> io::Result<usize> {
        self.writes = self.writes.wrapping_add(1);
        if self.writes == self.fails_at {
            return Err(io::Error::from(io::ErrorKind::Other));
        }
        let count = self.size.min(buf.len());
        self.bytes.extend_from_slice(&buf[..count])?;
        Ok(count)
    }

    fn flush(&mut self) -> io::Result<()> {
        Ok(())
    }
}

/// Room for what is written, on the second try if the first is refused memory: then no write is refused any.
fn room(alloc: Global) -> Result<Vec<u8>, AllocError> {
    match Vec::with_capacity(alloc, MOST) {
        Ok(room) => Ok(room),
        Err(AllocError) => Vec::with_capacity(alloc, MOST),
    }
}

/// What an exploration of this many steps writes. One that is refused memory is made again.
fn explored(rt: &impl Abort, alloc: Global, steps: u32) -> Result<Vec<u8>, Fail> {
    let plan = Plan { steps, ..PLAN };
    let mut text = room(alloc)?;
    let mut outcome = run_explore(alloc, &mut text, &plan);
    if outcome == Err(RunFault::NoMemory) {
        text.clear();
        outcome = run_explore(alloc, &mut text, &plan);
    }
    assert!(rt; outcome.is_ok());
    Ok(text)
}

/// A write that fails ends an exploration, and the bytes before it are written.
#[test]
fn each_write_fails(rt: HostRuntime) -> Result<(), Fail> {
    let plan = Plan {
        steps: 1500,
        ..PLAN
    };
    let text = explored(&rt, rt.alloc(), 1500)?;
    for before in 0u32..8 {
        let mut writer = Slow {
            bytes: room(rt.alloc())?,
            size: 5000,
            fails_at: before + 1,
            writes: 0,
        };
        let mut outcome = run_explore(rt.alloc(), &mut writer, &plan);
        if outcome == Err(RunFault::NoMemory) {
            writer.bytes.clear();
            writer.writes = 0;
            outcome = run_explore(rt.alloc(), &mut writer, &plan);
        }
        assert!(rt; outcome == Err(RunFault::WriteFault), "{before}");
        assert_eq!(rt; writer.writes, before + 1);
        assert!(rt; text.starts_with(&writer.bytes));
        assert!(rt; writer.bytes.len() <= 5000 * before as usize);
    }
    Ok(())
}

/// A text that is refused memory has whole lines.
#[test]
fn out_of_memory_leaves_whole_lines(rt: HostRuntime) -> Result<(), Fail> {
    let mut writer = room(rt.alloc())?;
    let outcome = run_explore(rt.alloc(), &mut writer, &PLAN);
    if outcome == Err(RunFault::NoMemory) {
        let text = explored(&rt, rt.alloc(), 100)?;
        assert!(rt; text.starts_with(&writer));
        assert!(rt; writer.is_empty() || writer.ends_with(b"\n"));
    } else {
        assert!(rt; outcome.is_ok());
    }
    Ok(())
}

/// What all schedules of a small world meet, where it has at most this number of states.
fn meet(alloc: Global, most: usize) -> Result<MetByAll, WalkFault> {
    let small = Small {
        cpus: 1,
        pages: 1,
        breaks: 0,
        rounds: 0,
        commands: 1,
    };
    let walked = walk_schedules(alloc, &small, most)?;
    meet_all(alloc, &small, &walked).map_err(|_| WalkFault::NoMemory)
}

/// A small world has the states that `bench/check/explored_all.py` counts without this crate, and no more are found than are asked for.
#[test]
fn a_small_world(rt: HostRuntime) -> Result<(), Fail> {
    match meet(rt.alloc(), 313) {
        Ok(met) => {
            let tally = Tally {
                states: 313,
                steps: 567,
                refusals: 6194,
                complete: 35,
                dead_ends: 0,
            };
            assert!(rt; met.tally == tally);
            assert_eq!(rt; met.meetings.len(), 42);
        }
        Err(fault) => assert!(rt; fault == WalkFault::NoMemory),
    }
    assert!(rt; meet(rt.alloc(), 312).is_err());
    Ok(())
}

//! The crate `expected`: reads and writes that fail.
//!
//! `bench/programs` has tests with answers that are met and that differ, in the cases whose names begin with `test`, and those that are
//! written for scripts in `run-answers`.

use engine::{NamedScript, RunFault};
use expected::{Outcome, answer_script, test_script};
use std::alloc::{AllocError, Global};
use std::process::Abort;
use std::test::Fail;
use test_kit::{OneByte, Pieces};

/// No case writes more bytes.
const MOST: usize = 4_000;

/// How a test is read and written.
#[derive(Clone, Copy)]
struct How {
    /// The bytes of one read.
    size: usize,
    /// The read that fails, counted from 1, if one does.
    read_fails_at: u32,
    write_fails_at: u32,
}

/// In one read, where none fails.
const WHOLE: How = How {
    size: MOST,
    read_fails_at: 0,
    write_fails_at: 0,
};

/// Room for what is written, on the second try if the first is refused memory: then no write is refused any.
fn room(alloc: Global) -> Result<Vec<u8>, AllocError> {
    match Vec::with_capacity(alloc, MOST) {
        Ok(room) => Ok(room),
        Err(AllocError) => Vec::with_capacity(alloc, MOST),
    }
}

/// How a test ends, and what it wrote.
#[derive(Drop)]
struct Ended {
    outcome: Result<Outcome, RunFault>,
    written: Vec<u8>,
}

/// How a test named `t` of two processors ends.
fn tested_once(alloc: Global, script: &[u8], how: How) -> Result<Ended, AllocError> {
    let mut reader = Pieces {
        bytes: script,
        size: how.size,
        fails_at: how.read_fails_at,
        reads: 0,
    };
    let mut writer = OneByte {
        bytes: room(alloc)?,
        fails_at: how.write_fails_at,
        writes: 0,
        most: MOST,
    };
    let test = NamedScript { name: "t", cpus: 2 };
    let outcome = match test_script(alloc, &mut reader, &mut writer, test) {
        Ok(tested) => Ok(tested.outcome),
        Err(fault) => Err(fault),
    };
    Ok(Ended {
        outcome,
        written: writer.bytes,
    })
}

/// The same. It is played again if memory is refused; nothing was written then.
fn tested(rt: &impl Abort, alloc: Global, script: &[u8], how: How) -> Result<Ended, Fail> {
    let ended = tested_once(alloc, script, how)?;
    if ended.outcome == Err(RunFault::NoMemory) {
        assert!(rt; ended.written.is_empty());
        return Ok(tested_once(alloc, script, how)?);
    }
    Ok(ended)
}

/// How the making of a test ends, and what it wrote. It is made again if memory is refused.
fn answered(
    alloc: Global,
    script: &[u8],
    how: How,
) -> Result<(Result<(), RunFault>, Vec<u8>), AllocError> {
    let mut writer = OneByte {
        bytes: room(alloc)?,
        fails_at: how.write_fails_at,
        writes: 0,
        most: MOST,
    };
    let mut reader = Pieces {
        bytes: script,
        size: how.size,
        fails_at: how.read_fails_at,
        reads: 0,
    };
    let mut outcome = answer_script(alloc, &mut reader, &mut writer, 2);
    if outcome == Err(RunFault::NoMemory) {
        reader.bytes = script;
        reader.reads = 0;
        outcome = answer_script(alloc, &mut reader, &mut writer, 2);
    }
    Ok((outcome, writer.bytes))
}

const TEST: &[u8] = b"# two lines\nstart => started epoch 1\nround => round 1\n";

const REPORT: &[u8] = b"t:3: expected round 1, got round 1 todo 0\n";

/// A read that fails ends a test, whichever it is, and nothing is written.
#[test]
fn failing_reads(rt: HostRuntime) -> Result<(), Fail> {
    for read_fails_at in 1..=54u32 {
        let how = How {
            size: 1,
            read_fails_at,
            ..WHOLE
        };
        let ended = tested(&rt, rt.alloc(), TEST, how)?;
        assert_eq!(rt; ended.outcome, Err(RunFault::ReadFault));
        assert!(rt; ended.written.is_empty());
        let (made, text) = answered(rt.alloc(), TEST, how)?;
        assert_eq!(rt; made, Err(RunFault::ReadFault));
        assert!(rt; text.is_empty());
    }
    let how = How {
        size: 1,
        read_fails_at: 55,
        ..WHOLE
    };
    let ended = tested(&rt, rt.alloc(), TEST, how)?;
    assert_eq!(rt; ended.outcome, Ok(Outcome::Differs));
    assert_eq!(rt; ended.written.as_slice(), REPORT);
    Ok(())
}

/// A write that fails leaves a front of the report.
#[test]
fn failing_writes(rt: HostRuntime) -> Result<(), Fail> {
    let mut front = 0usize;
    for write_fails_at in 1..=42u32 {
        let how = How {
            write_fails_at,
            ..WHOLE
        };
        let ended = tested(&rt, rt.alloc(), TEST, how)?;
        assert_eq!(rt; ended.outcome, Err(RunFault::WriteFault));
        assert_eq!(rt; ended.written.len(), front);
        assert!(rt; REPORT.starts_with(&ended.written));
        front = ended.written.len().saturating_add(1);
    }
    Ok(())
}

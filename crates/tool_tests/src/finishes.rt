//! The crate `finishing`: reads and writes that fail.
//!
//! `bench/programs/finish-lines` has scripts with the lines that finish them.

use engine::RunFault;
use finishing::{Ending, finish_script};
use std::alloc::{AllocError, Global};
use std::io;
use std::io::{Read, Write};
use std::process::Abort;
use std::test::Fail;

/// No text of these tests has more bytes.
const MOST: usize = 4_000;

/// Room for what is written, on the second try if the first is refused memory: then no write is refused any.
fn room(alloc: Global) -> Result<Vec<u8>, AllocError> {
    match Vec::with_capacity(alloc, MOST) {
        Ok(room) => Ok(room),
        Err(AllocError) => Vec::with_capacity(alloc, MOST),
    }
}

/// A reader of some bytes, which then fails, if it is to.
#[derive(Drop)]
struct Bytes<'a> {
    rest: &'a [u8],
    fails: bool,
}

impl Read for Bytes<'_> {
    fn read(&mut self, buf: &mut [u8]) -> io::Result<usize> {
        let count = self.rest.len().min(buf.len());
        if count == 0 && self.fails {
            return Err(io::Error::from(io::ErrorKind::Other));
        }
        let (front, rest) = self.rest.split_at(count);
        buf[..count].copy_from_slice(front);
        self.rest = rest;
        Ok(count)
    }
}

/// A writer that takes a few bytes, and then no more.
#[derive(Drop)]
struct Few {
    bytes: Vec<u8>,
    most: usize,
}

impl Write for Few {
    fn write(&mut self, buf: &[u8]) -> io::Result<usize> {
        let left = self.most.saturating_sub(self.bytes.len());
        let count = left.min(buf.len()).min(3);
        self.bytes.extend_from_slice(&buf[..count])?;
        Ok(count)
    }

    fn flush(&mut self) -> io::Result<()> {
        Ok(())
    }
}

/// How a script is finished, and what is written for it: at most `most` bytes. It is finished again if memory is refused.
fn finished(
    rt: &impl Abort,
    alloc: Global,
    script: &[u8],
    fails: bool,
    most: usize,
) -> Result<(Result<Ending, RunFault>, Vec<u8>), Fail> {
    let mut writer = Few {
        bytes: room(alloc)?,
        most,
    };
    let mut reader = Bytes {
        rest: script,
        fails,
    };
    let mut outcome = finish_script(alloc, &mut reader, &mut writer, 2);
    if outcome == Err(RunFault::NoMemory) {
        assert!(rt; writer.bytes.is_empty());
        reader.rest = script;
        outcome = finish_script(alloc, &mut reader, &mut writer, 2);
    }
    Ok((outcome, writer.bytes))
}

/// Nothing is written where the script is not read to its end.
#[test]
fn a_fault_writes_nothing(rt: HostRuntime) -> Result<(), Fail> {
    for (script, fails, fault) in [
        ("start\nstrat\n", false, RunFault::Line(2)),
        ("start\n", true, RunFault::ReadFault),
    ] {
        let (outcome, written) = finished(&rt, rt.alloc(), script.as_bytes(), fails, MOST)?;
        assert_eq!(&rt; outcome, Err(fault));
        assert!(&rt; written.is_empty());
    }
    Ok(())
}

/// A write that fails ends it, and the bytes before it are written.
#[test]
fn a_write_fails(rt: HostRuntime) -> Result<(), Fail> {
    for most in [0, 1, 7] {
        let (outcome, written) = finished(&rt, rt.alloc(), b"start\n", false, most)?;
        assert_eq!(&rt; outcome, Err(RunFault::WriteFault));
        assert_eq!(&rt; written.len(), most);
        assert!(&rt; b"switch\nend\n".starts_with(&written));
    }
    Ok(())
}

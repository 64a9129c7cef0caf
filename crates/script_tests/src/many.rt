//! Scripts, transcripts and streams of frames in a hundred thousand reads.

use engine::{Mode, RunFault, Setup, check_script, run_script};
use frames::{FramesFault, run_frames};
use std::alloc::{AllocError, Global};
use std::io;
use std::io::Read;
use std::process::Abort;
use std::test::Fail;
use test_kit::OneByte;

/// A comment of ten bytes, which prints nothing.
const COMMENT: &[u8] = b"# a line.\n";

/// A Zero of sixteen bytes, which no destination takes before an Advise.
const ZERO: &[u8] = b"\x01\x03\x00\x00\x00\x00\x00\x01\x00\x00\x00\x04\x00\x00\x00\x10";

const REFUSED: &[u8] = b"refused OutOfPlace\n";

/// The reads of each run: ten thousand comments, or 6,250 frames.
const READS: u32 = 100_000;

const FRAMES: usize = 6_250;

/// Gives the same text over and over, a byte with each read, and ends after [`READS`] reads.
#[derive(Drop)]
struct Repeated {
    text: &'static [u8],
    at: usize,
    reads: u32,
}

impl Read for Repeated {
    fn read(&mut self, buf: &mut [u8]) -> io::Result<usize> {
        if self.reads >= READS || buf.is_empty() || self.text.is_empty() {
            return Ok(0);
        }
        if self.at >= self.text.len() {
            self.at = 0;
        }
        buf[0] = self.text[self.at];
        self.at += 1;
        self.reads += 1;
        Ok(1)
    }
}

fn over_and_over(text: &'static [u8]) -> Repeated {
    Repeated {
        text,
        at: 0,
        reads: 0,
    }
}

/// A writer with room for `most` bytes, on the second try if the first is refused memory.
fn writer(alloc: Global, most: usize) -> Result<OneByte, AllocError> {
    let bytes = match Vec::with_capacity(alloc, most) {
        Ok(room) => room,
        Err(AllocError) => Vec::with_capacity(alloc, most)?,
    };
    Ok(OneByte {
        bytes,
        fails_at: 0,
        writes: 0,
        most,
    })
}

/// How a run of a script of comments ends, or a check if there is no mode, and what it has written.
fn run(alloc: Global, mode: Option<Mode>) -> Result<(Option<RunFault>, Vec<u8>), AllocError> {
    let mut reader = over_and_over(COMMENT);
    let mut writer = writer(alloc, 100)?;
    let fault = match mode {
        Some(mode) => run_script(alloc, &mut reader, &mut writer, Setup { cpus: 2, mode }).err(),
        None => check_script(alloc, &mut reader, &mut writer).err(),
    };
    Ok((fault, writer.bytes))
}

/// A run that is refused memory is made again.
fn runs_through(
    rt: &impl Abort,
    alloc: Global,
    mode: Option<Mode>,
    expected: &[u8],
) -> Result<(), Fail> {
    let (mut fault, mut written) = run(alloc, mode)?;
    if fault == Some(RunFault::NoMemory) {
        (fault, written) = run(alloc, mode)?;
    }
    assert_eq!(rt; fault, None);
    assert_eq!(rt; written.as_slice(), expected);
    Ok(())
}

#[test]
fn a_script_in_many_reads(rt: HostRuntime) -> Result<(), Fail> {
    runs_through(&rt, rt.alloc(), Some(Mode::Lines), b"")?;
    runs_through(&rt, rt.alloc(), Some(Mode::Transcript), b"")
}

#[test]
fn a_transcript_in_many_reads(rt: HostRuntime) -> Result<(), Fail> {
    runs_through(&rt, rt.alloc(), None, b"ok 0\n")
}

/// How the stream of frames ends, and what was written.
fn take_frames(alloc: Global) -> Result<(Option<FramesFault>, Vec<u8>), AllocError> {
    let mut reader = over_and_over(ZERO);
    let mut writer = writer(alloc, FRAMES * REFUSED.len())?;
    let fault = run_frames(alloc, &mut reader, &mut writer, 2).err();
    Ok((fault, writer.bytes))
}

#[test]
fn a_stream_in_many_reads(rt: HostRuntime) -> Result<(), Fail> {
    let (mut fault, mut written) = take_frames(rt.alloc())?;
    if fault == Some(FramesFault::NoMemory) {
        (fault, written) = take_frames(rt.alloc())?;
    }
    assert_eq!(rt; fault, None);
    assert_eq!(rt; written.len(), FRAMES * REFUSED.len());
    assert!(rt; written.starts_with(REFUSED) && written.ends_with(REFUSED));
    Ok(())
}

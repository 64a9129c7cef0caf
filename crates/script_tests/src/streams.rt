//! Frames that are read in pieces and written byte by byte, where each read and each write fails once.

use crate::pieces::{MOST, room};
use frame_decoder::StreamFault;
use frames::{FramesFault, run_frames};
use std::alloc::{AllocError, Global};
use std::process::Abort;
use std::test::Fail;
use test_kit::{OneByte, Pieces};

/// Advise, Zero, End, Discard, Package, End, Zero, End, and an Advise of version 3: 12, 16, 16, 24, 49, 16, 16, 16 and 12 bytes.
const STREAM: &[u8] =
    b"\x01\x01\x00\x00\x00\x00\x00\x01\x00\x00\x00\x00\x01\x03\x00\x00\x00\x00\x00\x01\x00\x00\x00\x04\x00\x00\x00\x10\x01\x06\x00\x00\x00\x00\x00\x01\x00\x00\x00\x04\x00\x00\x00\x00\x01\x04\x00\x00\x00\x00\x00\x01\x00\x00\x00\x0c\x00\x00\x00\x01\x00\x00\x00\x11\x00\x00\x00\x01\x01\x05\x00\x00\x00\x00\x00\x01\x00\x00\x00\x25\x00\x00\x00\x01\x00\x00\x00\x10\x00\x00\x00\x02\x02\x00\x00\x00\x01\x00\x00\x00\x11\x00\x00\x00\x01\x02\x00\x01\x00\x00\x00\x00\x00\x01\x10\x00\x08\x01\x06\x00\x00\x00\x00\x00\x01\x00\x00\x00\x04\x00\x00\x00\x00\x01\x03\x00\x00\x00\x00\x00\x01\x00\x00\x00\x04\x00\x00\x00\x11\x01\x06\x00\x00\x00\x00\x00\x01\x00\x00\x00\x04\x00\x00\x00\x00\x03\x01\x00\x00\x00\x00\x00\x01\x00\x00\x00\x00";

const LINES: &[u8] =
    b"took advise\ntook zero 0x10000\nrefused OutOfPlace\ntook discard 1\ntook package owed 1\nrefused OutOfPlace\ntook zero 0x11000\nrefused InstallFirst\n";

/// The number of bytes in front of those that are not a frame.
const FRAMES: usize = 165;

const BAD_TAG: FramesFault = FramesFault::Stream(StreamFault::BadTag);

/// The front of the stream that is read, in pieces of a size, and written one by one.
#[derive(Clone, Copy)]
struct Case {
    len: usize,
    size: usize,
    /// The read that fails, counted from 1, if one does.
    read_fails_at: u32,
    write_fails_at: u32,
    fault: Option<FramesFault>,
    /// How many bytes of the lines are written.
    written: usize,
}

/// No read and no write fails.
fn whole(len: usize, size: usize, fault: Option<FramesFault>, written: usize) -> Case {
    Case {
        len,
        size,
        read_fails_at: 0,
        write_fails_at: 0,
        fault,
        written,
    }
}

/// How a stream ends in a case, and what was written.
fn played(alloc: Global, case: &Case) -> Result<(Option<FramesFault>, Vec<u8>), AllocError> {
    let mut reader = Pieces {
        bytes: &STREAM[..case.len.min(STREAM.len())],
        size: case.size,
        fails_at: case.read_fails_at,
        reads: 0,
    };
    let mut writer = OneByte {
        bytes: room(alloc)?,
        fails_at: case.write_fails_at,
        writes: 0,
        most: MOST,
    };
    let fault = run_frames(alloc, &mut reader, &mut writer, 2).err();
    Ok((fault, writer.bytes))
}

/// Plays a case. One that is refused memory has written whole lines; it is played again.
fn play(rt: &impl Abort, alloc: Global, case: &Case) -> Result<(), Fail> {
    let (mut fault, mut written) = played(alloc, case)?;
    if fault == Some(FramesFault::NoMemory) {
        assert!(rt; LINES.starts_with(&written));
        assert!(rt; written.is_empty() || written.ends_with(b"\n"));
        (fault, written) = played(alloc, case)?;
    }
    assert_eq!(rt;
        fault,
        case.fault,
        "{} bytes in pieces of {}",
        case.len, case.size
    );
    assert!(rt; written.len() == case.written && LINES.starts_with(&written));
    Ok(())
}

#[test]
fn frames_read_and_write_in_pieces(rt: HostRuntime) -> Result<(), Fail> {
    let all = LINES.len();
    for size in [1, 2, 7, 12, 63, 50_000] {
        // The fault, the frames alone, a part of the last one and a part of its header, and nothing.
        play(&rt, rt.alloc(), &whole(177, size, Some(BAD_TAG), all))?;
        play(&rt, rt.alloc(), &whole(FRAMES, size, None, all))?;
        play(
            &rt,
            rt.alloc(),
            &whole(FRAMES - 1, size, Some(FramesFault::Truncated), all - 21),
        )?;
        play(
            &rt,
            rt.alloc(),
            &whole(FRAMES + 1, size, Some(FramesFault::Truncated), all),
        )?;
        play(&rt, rt.alloc(), &whole(0, size, None, 0))?;
    }
    Ok(())
}

#[test]
fn each_read_fails_once(rt: HostRuntime) -> Result<(), Fail> {
    // The first piece has one whole frame, and the two together have three.
    for (read_fails_at, written) in [(1, 0), (2, 12), (3, 49)] {
        let case = Case {
            read_fails_at,
            fault: Some(FramesFault::ReadFault),
            ..whole(49, 25, None, written)
        };
        play(&rt, rt.alloc(), &case)?;
    }
    Ok(())
}

#[test]
fn each_write_fails_once(rt: HostRuntime) -> Result<(), Fail> {
    for write in 1..=LINES.len() {
        let case = Case {
            write_fails_at: write as u32,
            fault: Some(FramesFault::WriteFault),
            ..whole(177, 50_000, None, write - 1)
        };
        play(&rt, rt.alloc(), &case)?;
    }
    Ok(())
}

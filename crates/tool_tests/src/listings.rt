//! The crate `lint`: readers and writers that take pieces or fail, and lines of any length.
//!
//! `bench/programs/lint-listings` has what is listed of wrong lines of each kind.

use engine::RunFault;
use grammar::Language;
use lint::{Listed, lint_lines};
use std::alloc::{AllocError, Global};
use std::process::Abort;
use std::test::Fail;
use test_kit::{OneByte, Pieces};

/// No case writes more bytes.
const MOST: usize = 1_000;

const SCRIPT: &[u8] =
    b"# first\r\nlod\r\n\nstart\nstart # go\ncpu 0 load 0x10000\r\r\nprogress\nsendrun 65";

const LISTING: &[u8] =
    b"s:2:1: `lod` is not the first word of a script line: did you mean `cpu K load`?\ns:5:7: a comment stands on a line of its own\ns:6:19: a carriage return that is not right before a line feed\ns:8:9: `65` is out of range: N is 1 to 64\n";

/// A script in pieces, with what `lint_lines` returns and writes, byte by byte.
#[derive(Clone, Copy)]
struct Case<'a> {
    script: &'a [u8],
    /// The most bytes of a read.
    size: usize,
    /// The read that fails, counted from 1, if one does.
    read_fails_at: u32,
    write_fails_at: u32,
    /// How many bytes are taken.
    most: usize,
    answer: Result<bool, RunFault>,
    written: &'a [u8],
}

/// The listing of the script, which is read in pieces of this size. No read and no write fails.
fn whole(size: usize) -> Case<'static> {
    Case {
        script: SCRIPT,
        size,
        read_fails_at: 0,
        write_fails_at: 0,
        most: MOST,
        answer: Ok(false),
        written: LISTING,
    }
}

/// Room for what is written, on the second try if the first is refused memory: then no write is refused any.
fn room(alloc: Global) -> Result<Vec<u8>, AllocError> {
    match Vec::with_capacity(alloc, MOST) {
        Ok(room) => Ok(room),
        Err(AllocError) => Vec::with_capacity(alloc, MOST),
    }
}

/// What is returned in a case, the writer, and the number of reads.
fn played(
    alloc: Global,
    case: &Case<'_>,
) -> Result<(Result<bool, RunFault>, OneByte, u32), AllocError> {
    let mut reader = Pieces {
        bytes: case.script,
        size: case.size,
        fails_at: case.read_fails_at,
        reads: 0,
    };
    let mut writer = OneByte {
        bytes: room(alloc)?,
        fails_at: case.write_fails_at,
        writes: 0,
        most: case.most,
    };
    let listed = Listed {
        name: "s",
        language: Language::Script,
    };
    let answer = lint_lines(alloc, &mut reader, &mut writer, listed);
    Ok((answer, writer, reader.reads))
}

/// Plays a case, and again if it is refused memory: then whole lines of the listing were written. Nothing is read or written after a read or
/// a write that failed.
fn play(rt: &impl Abort, alloc: Global, case: &Case<'_>) -> Result<(), Fail> {
    let (mut answer, mut writer, mut reads) = played(alloc, case)?;
    if answer == Err(RunFault::NoMemory) {
        assert!(rt; case.written.starts_with(&writer.bytes));
        assert!(rt; writer.bytes.is_empty() || writer.bytes.ends_with(b"\n"));
        (answer, writer, reads) = played(alloc, case)?;
    }
    let written = str::from_utf8(&writer.bytes)?;
    let wanted = str::from_utf8(case.written)?;
    assert!(rt; written == wanted, "{written}");
    assert_eq!(rt; answer, case.answer, "{written}");
    assert!(rt; case.read_fails_at == 0 || reads == case.read_fails_at);
    assert!(rt; case.write_fails_at == 0 || writer.writes == case.write_fails_at);
    Ok(())
}

#[test]
fn pieces_of_each_size(rt: HostRuntime) -> Result<(), Fail> {
    for size in [1, 2, 3, 7, 10, 63, 50_000] {
        play(&rt, rt.alloc(), &whole(size))?;
    }
    Ok(())
}

/// What is listed of the lines that end in the first `read` bytes.
fn listed_of(read: usize) -> &'static [u8] {
    let len = match read {
        0..=13 => 0,
        14..=31 => 80,
        32..=52 => 125,
        _ => 188,
    };
    &LISTING[..len]
}

#[test]
fn each_read_fails(rt: HostRuntime) -> Result<(), Fail> {
    for (size, reads) in [(1usize, 73u32), (16, 6), (61, 2)] {
        for before in 0..reads {
            let case = Case {
                read_fails_at: before + 1,
                answer: Err(RunFault::ReadFault),
                written: listed_of(size.saturating_mul(before as usize)),
                ..whole(size)
            };
            play(&rt, rt.alloc(), &case)?;
        }
    }
    Ok(())
}

/// Each write fails once, or the writer takes no byte from there on.
#[test]
fn each_write_fails(rt: HostRuntime) -> Result<(), Fail> {
    for before in 0..LISTING.len() {
        let full = Case {
            most: before,
            answer: Err(RunFault::WriteFault),
            written: &LISTING[..before],
            ..whole(40)
        };
        play(&rt, rt.alloc(), &full)?;
        let failing = Case {
            write_fails_at: before as u32 + 1,
            most: MOST,
            ..full
        };
        play(&rt, rt.alloc(), &failing)?;
    }
    Ok(())
}

/// A line of this many bytes after another, and what comes after it.
fn with_line(alloc: Global, size: usize, end: &[u8]) -> Result<Vec<u8>, AllocError> {
    let mut script = Vec::new(alloc);
    script.extend_from_slice(b"start\n")?;
    script.resize(size.saturating_add(6), b'#')?;
    script.extend_from_slice(end)?;
    Ok(script)
}

/// The number of bytes of a line, what comes after it, and the listing.
static LONG: &[(usize, &[u8], &[u8])] = &[
    (
        256,
        b"\nlod 1",
        b"s:3:1: `lod` is not the first word of a script line: did you mean `cpu K load`?\n",
    ),
    (256, b"", b""),
    (
        256,
        b"\r\n",
        b"s:2:257: a line has at most 256 bytes, and this one has 257\n",
    ),
    (
        257,
        b"",
        b"s:2:257: a line has at most 256 bytes, and this one has 257\n",
    ),
    (
        257,
        b"\nsend 2",
        b"s:2:257: a line has at most 256 bytes, and this one has 257\ns:3:6: `2` is a word too many: the line is `send`\n",
    ),
    (
        3_000_000,
        b"\n\nnow\n",
        b"s:2:257: a line has at most 256 bytes, and this one has 3000000\ns:4:1: `now` is not the first word of a script line\n",
    ),
];

#[test]
fn a_long_line_is_listed_once(rt: HostRuntime) -> Result<(), Fail> {
    for (size, end, listing) in LONG {
        let script = match with_line(rt.alloc(), *size, end) {
            Ok(script) => script,
            Err(AllocError) => with_line(rt.alloc(), *size, end)?,
        };
        let case = Case {
            script: &script,
            answer: Ok(listing.is_empty()),
            written: listing,
            ..whole(50_000)
        };
        play(&rt, rt.alloc(), &case)?;
    }
    Ok(())
}

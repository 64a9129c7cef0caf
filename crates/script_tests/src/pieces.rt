//! Scripts and transcripts that are read in pieces and written byte by byte, where each read and each write fails once; and lines at the
//! limit of their length.

use engine::{Mode, RunFault, Setup, check_script, run_script};
use std::alloc::{AllocError, Global};
use std::process::Abort;
use std::test::Fail;
use test_kit::{Endless, OneByte, Pieces};

const SCRIPT: &[u8] =
    b"# first\r\ncpu 0 mmap 8192 rw\n\ncpu 0 store 0x10ff8 8 0x1122334455667788\r\ncpu 1 load 0x10ffc 4\ncpu 1 load 0x10ffc 8\nstart\nround\nprogress\ncpu 9 load 0 8";

const OUTPUT: &[u8] =
    b"cpu 0 at 0x10000\ncpu 0 done\ncpu 1 value 0x11223344\ncpu 1 bad access\nstarted epoch 1\nround 1 todo 1\nprogress phase precopy rounds 1 sent 0 left 0 installed 0 dropped 0 faults 0\nrefused NoCpu\n";

/// The commands of the script that took effect.
const TRANSCRIPT: &[u8] =
    b"0 mmap 8192 rw => at 0x10000\n0 store 0x10ff8 8 0x1122334455667788 => done\n1 load 0x10ffc 4 => value 0x11223344\n1 load 0x10ffc 8 => bad access\n";

const VERDICT: &[u8] = b"ok 4\n";

const LINES: Setup = Setup {
    cpus: 2,
    mode: Mode::Lines,
};

const ENTRIES: Setup = Setup {
    cpus: 2,
    mode: Mode::Transcript,
};

/// No case writes more bytes.
pub const MOST: usize = 1_000;

/// What is done with the bytes that are read.
#[derive(Clone, Copy, Debug, PartialEq, Eq)]
enum Job {
    /// The script is run, and writes its lines.
    Lines,
    /// The script is run, and writes its transcript.
    Transcript,
    /// The transcript is checked.
    Check,
}

impl Job {
    /// All that is written.
    fn output(self) -> &'static [u8] {
        match self {
            Job::Lines => OUTPUT,
            Job::Transcript => TRANSCRIPT,
            Job::Check => VERDICT,
        }
    }

    /// All that is read.
    fn input(self) -> &'static [u8] {
        match self {
            Job::Lines | Job::Transcript => SCRIPT,
            Job::Check => TRANSCRIPT,
        }
    }
}

/// Bytes that are read in pieces of a size, and written one by one.
#[derive(Clone, Copy)]
struct Case {
    size: usize,
    /// The read that fails, counted from 1, if one does.
    read_fails_at: u32,
    write_fails_at: u32,
    /// How many bytes are taken.
    most: usize,
    fault: Option<RunFault>,
    written: &'static [u8],
}

/// No read and no write fails.
fn whole(size: usize, written: &'static [u8]) -> Case {
    Case {
        size,
        read_fails_at: 0,
        write_fails_at: 0,
        most: MOST,
        fault: None,
        written,
    }
}

/// Room for what is written, on the second try if the first is refused memory: then no write is refused any.
pub fn room(alloc: Global) -> Result<Vec<u8>, AllocError> {
    match Vec::with_capacity(alloc, MOST) {
        Ok(room) => Ok(room),
        Err(AllocError) => Vec::with_capacity(alloc, MOST),
    }
}

/// How a job ends in a case, what it has written, and the number of its reads and writes.
fn played(
    alloc: Global,
    job: Job,
    case: &Case,
) -> Result<(Option<RunFault>, Vec<u8>, u32, u32), AllocError> {
    let mut reader = Pieces {
        bytes: job.input(),
        size: case.size,
        fails_at: case.read_fails_at,
        reads: 0,
    };
    let mut writer = OneByte {
        bytes: room(alloc)?,
        fails_at: case.write_fails_at,
        writes: 0,
        most: case.most,
    };
    let fault = match job {
        Job::Lines => run_script(alloc, &mut reader, &mut writer, LINES).err(),
        Job::Transcript => run_script(alloc, &mut reader, &mut writer, ENTRIES).err(),
        Job::Check => check_script(alloc, &mut reader, &mut writer).err(),
    };
    Ok((fault, writer.bytes, reader.reads, writer.writes))
}

/// Plays a case. One that is refused memory has written whole lines, and none if it is a check; it is played again. Nothing is read or
/// written after a read or a write that failed.
fn play(rt: &impl Abort, alloc: Global, job: Job, case: &Case, at: usize) -> Result<(), Fail> {
    let (mut fault, mut written, mut reads, mut writes) = played(alloc, job, case)?;
    if fault == Some(RunFault::NoMemory) {
        assert!(rt; case.written.starts_with(&written), "{job:?} {at}");
        assert!(rt;
            written.is_empty() || job != Job::Check && written.ends_with(b"\n"),
            "{job:?} {at}"
        );
        (fault, written, reads, writes) = played(alloc, job, case)?;
    }
    assert_eq!(rt; fault, case.fault, "{job:?} {at}");
    assert_eq!(rt; written.as_slice(), case.written, "{job:?} {at}");
    assert!(rt;
        case.read_fails_at == 0 || reads == case.read_fails_at,
        "{job:?} {at}"
    );
    assert!(rt;
        case.write_fails_at == 0 || writes == case.write_fails_at,
        "{job:?} {at}"
    );
    Ok(())
}

#[test]
fn pieces_of_each_size(rt: HostRuntime) -> Result<(), Fail> {
    for size in [1, 2, 7, 63, 50_000] {
        for job in [Job::Lines, Job::Transcript, Job::Check] {
            play(&rt, rt.alloc(), job, &whole(size, job.output()), size)?;
        }
    }
    Ok(())
}

/// Where each line of the script ends, and the output of the lines up to there. The last line has no end.
const ENDS: [(usize, usize); 9] = [
    (9, 0),
    (28, 17),
    (29, 17),
    (71, 28),
    (92, 51),
    (113, 68),
    (119, 84),
    (125, 99),
    (134, 176),
];

/// How many bytes are written of the script's lines that end in the first `read` bytes.
fn written_of(read: usize) -> usize {
    let mut written = 0;
    for (end, output) in ENDS {
        if end <= read {
            written = output;
        }
    }
    written
}

/// Each read of a script fails once, whether it gives one byte or more.
#[test]
fn each_read_fails(rt: HostRuntime) -> Result<(), Fail> {
    for (size, reads) in [(1usize, 149u32), (16, 11), (61, 4)] {
        for before in 0..reads {
            let read = size.saturating_mul(before as usize);
            let written = written_of(read);
            assert!(rt; written <= OUTPUT.len());
            let case = Case {
                read_fails_at: before + 1,
                fault: Some(RunFault::ReadFault),
                ..whole(size, &OUTPUT[..written])
            };
            play(&rt, rt.alloc(), Job::Lines, &case, read)?;
        }
    }
    Ok(())
}

/// A check writes nothing before all is read.
#[test]
fn each_read_of_a_check_fails(rt: HostRuntime) -> Result<(), Fail> {
    for before in 0..=TRANSCRIPT.len() {
        let case = Case {
            read_fails_at: before as u32 + 1,
            fault: Some(RunFault::ReadFault),
            ..whole(1, b"")
        };
        play(&rt, rt.alloc(), Job::Check, &case, before)?;
    }
    Ok(())
}

/// Each write fails once, or the writer takes no byte from there on. The bytes before it are written.
#[test]
fn each_write_fails(rt: HostRuntime) -> Result<(), Fail> {
    for job in [Job::Lines, Job::Transcript, Job::Check] {
        let output = job.output();
        assert!(rt; output.len() < MOST);
        for before in 0..output.len() {
            let failing = Case {
                write_fails_at: before as u32 + 1,
                fault: Some(RunFault::WriteFault),
                ..whole(40, &output[..before])
            };
            play(&rt, rt.alloc(), job, &failing, before)?;
            let full = Case {
                write_fails_at: 0,
                most: before,
                ..failing
            };
            play(&rt, rt.alloc(), job, &full, before)?;
        }
    }
    Ok(())
}

/// A run that is refused memory has written whole lines.
#[test]
fn out_of_memory_leaves_whole_lines(rt: HostRuntime) -> Result<(), Fail> {
    let mut reader = SCRIPT;
    let mut writer = OneByte {
        bytes: room(rt.alloc())?,
        fails_at: 0,
        writes: 0,
        most: MOST,
    };
    let outcome = run_script(rt.alloc(), &mut reader, &mut writer, LINES);
    let written = writer.bytes.as_slice();
    if outcome == Err(RunFault::NoMemory) {
        assert!(rt; OUTPUT.starts_with(written));
        assert!(rt; written.is_empty() || written.ends_with(b"\n"));
    } else {
        assert_eq!(rt; (outcome, written), (Ok(()), OUTPUT));
    }
    Ok(())
}

/// Runs a line of this many bytes.
fn run_line(alloc: Global, front: &[u8], size: usize, end: &[u8]) -> Result<(), RunFault> {
    let mut script = Vec::new(alloc);
    script.extend_from_slice(front)?;
    script.resize(size, b' ')?;
    script.extend_from_slice(end)?;
    let mut reader = script.as_slice();
    let mut writer = room(alloc)?;
    run_script(alloc, &mut reader, &mut writer, LINES)
}

#[test]
fn lines_have_at_most_256_bytes(rt: HostRuntime) {
    let wrong = Err(RunFault::Line(1));
    for front in [
        b"cpu 0 load 0 1".as_slice(),
        b"#".as_slice(),
        b"".as_slice(),
    ] {
        for (size, end, wanted) in [
            (256, b"\n".as_slice(), Ok(())),
            (256, b"".as_slice(), Ok(())),
            (257, b"\n".as_slice(), wrong),
            (257, b"".as_slice(), wrong),
            (255, b"\r\n".as_slice(), Ok(())),
            (256, b"\r\n".as_slice(), wrong),
            (4_000_000, b"".as_slice(), wrong),
        ] {
            let mut outcome = run_line(rt.alloc(), front, size, end);
            if outcome == Err(RunFault::NoMemory) {
                outcome = run_line(rt.alloc(), front, size, end);
            }
            assert_eq!(rt; outcome, wanted, "{size} bytes");
        }
    }
}

/// How a run or a check of a line without an end stops, and after how many reads.
fn endless(
    alloc: Global,
    byte: u8,
    size: usize,
    job: Job,
) -> Result<(Option<RunFault>, u32), AllocError> {
    let mut reader = Endless {
        byte,
        size,
        reads: 0,
    };
    let mut writer = room(alloc)?;
    let fault = match job {
        Job::Lines => run_script(alloc, &mut reader, &mut writer, LINES).err(),
        Job::Transcript => run_script(alloc, &mut reader, &mut writer, ENTRIES).err(),
        Job::Check => check_script(alloc, &mut reader, &mut writer).err(),
    };
    Ok((fault, reader.reads))
}

/// A line is refused at its 257th byte: nothing is read after the piece that has it.
#[test]
fn a_line_without_an_end(rt: HostRuntime) -> Result<(), Fail> {
    for byte in [b'#', b' ', b'x', 0, 255] {
        for (size, reads) in [(1, 257), (128, 3), (256, 2), (257, 1), (1_000_000, 1)] {
            for job in [Job::Lines, Job::Transcript, Job::Check] {
                let mut ended = endless(rt.alloc(), byte, size, job)?;
                if ended.0 == Some(RunFault::NoMemory) {
                    ended = endless(rt.alloc(), byte, size, job)?;
                }
                assert_eq!(rt; ended, (Some(RunFault::Line(1)), reads), "{byte} {size}");
            }
        }
    }
    Ok(())
}

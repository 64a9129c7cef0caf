//! What is said of what strace has written, and of logs, where an input may be either.

use audit::{Asked, Form, Verdict};
use call_log::LogFault;
use std::alloc::{AllocError, Global};
use std::process::Abort;
use std::test::Fail;
use test_kit::{OneByte, Pieces};
use trace_audit::audit_input;

/// A name with a number that is none of a line.
const NAME: &str = "a line 5.txt";

/// A userfault object is opened, its two pages at 0x10000 are registered, and a thread is made.
const OPENED: &[u8] =
    b"7 100.000001 execve(\"./monitor\", [\"./monitor\"], 0x7ffc /* 20 vars */) = 0\n7 100.000100 userfaultfd(O_CLOEXEC|O_NONBLOCK) = 5<anon_inode:[userfaultfd]> <0.000010>\n7 100.000200 ioctl(5<anon_inode:[userfaultfd]>, UFFDIO_API, {api=0xaa, features=UFFD_FEATURE_THREAD_ID => features=0x1ffff, ioctls=0x8000000000000003}) = 0 <0.000010>\n7 100.000300 ioctl(5<anon_inode:[userfaultfd]>, UFFDIO_REGISTER, {range={start=0x10000, len=0x2000}, mode=UFFDIO_REGISTER_MODE_MISSING, ioctls=0x13c}) = 0 <0.000010>\n7 100.000400 clone3({flags=CLONE_VM|CLONE_FS|CLONE_FILES|CLONE_SIGHAND|CLONE_THREAD|CLONE_SYSVSEM}, 88) = 8 <0.000010>\n";

/// No case writes more bytes.
const MOST: usize = 1_000;

/// The lines of a trace below those, what is said of it, and what is written.
static TRACES: [(&'static [u8], Verdict, &'static [u8]); 10] = [
    // Nothing is put, and nobody asks.
    (
        b"",
        Verdict::Nothing,
        b"3 calls: 3 with the only answer that the rules allow, 0 that an access explains which the log does not show, 0 for which no run was found, 0 not judged\nnot certified: nothing was judged: no message was read, and no page was put\n",
    ),
    // A fault is read, and its page put later than after the microsecond that the tests allow.
    (
        b"8 100.000500 read(5<anon_inode:[userfaultfd]>, \"\\x12\\x00\\x00\\x00\\x00\\x00\\x00\\x00\\x00\\x00\\x00\\x00\\x00\\x00\\x00\\x00\\x00\\x00\\x01\\x00\\x00\\x00\\x00\\x00\\x09\\x00\\x00\\x00\\x00\\x00\\x00\\x00\", 32) = 32 <0.000010>\n8 100.000600 ioctl(5<anon_inode:[userfaultfd]>, UFFDIO_COPY, {dst=0x10000, src=0x50000, len=0x1000, mode=0, copy=0x1000}) = 0 <0.000020>\n8 100.000700 ioctl(5<anon_inode:[userfaultfd]>, UFFDIO_COPY, {dst=0x11000, src=0x50000, len=0x1000, mode=0, copy=0x1000}) = 0 <0.000020>\n",
        Verdict::Found,
        b"a line 5.txt:6: fault: object 1: the page fault waited too long: fault at 0x10000 (read, missing), thread 9 of process 7, since 100000510000 at line 6, until 100000620000 at line 7 [late]\n6 calls: 4 with the only answer that the rules allow, 2 that an access explains which the log does not show, 0 for which no run was found, 0 not judged\ncertified: the kernel's answers, which a kernel of the rules may have given; pages known to be missing 0, put twice 0, of which nothing is known 0\npage faults that waited until a call woke their thread: 1, the longest 110.0 us, read at line 6, woken at line 7\n",
    ),
    // It is never put.
    (
        b"8 100.000500 read(5<anon_inode:[userfaultfd]>, \"\\x12\\x00\\x00\\x00\\x00\\x00\\x00\\x00\\x00\\x00\\x00\\x00\\x00\\x00\\x00\\x00\\x00\\x00\\x01\\x00\\x00\\x00\\x00\\x00\\x09\\x00\\x00\\x00\\x00\\x00\\x00\\x00\", 32) = 32 <0.000010>\n8 100.000700 ioctl(5<anon_inode:[userfaultfd]>, UFFDIO_COPY, {dst=0x11000, src=0x50000, len=0x1000, mode=0, copy=0x1000}) = 0 <0.000020>\n",
        Verdict::Found,
        b"a line 5.txt:6: fault: object 1: the page fault was not resolved: fault at 0x10000 (read, missing), thread 9 of process 7, since 100000510000 at line 6 [fault-not-resolved]\na line 5.txt:7: note: object 1: registered pages are still missing: end of the log at 0x10000, process 7 [page-owed]\n5 calls: 3 with the only answer that the rules allow, 2 that an access explains which the log does not show, 0 for which no run was found, 0 not judged\ncertified: the kernel's answers, which a kernel of the rules may have given; pages known to be missing 1, put twice 0, of which nothing is known 0\n",
    ),
    // A page is put twice.
    (
        b"8 100.000600 ioctl(5<anon_inode:[userfaultfd]>, UFFDIO_COPY, {dst=0x10000, src=0x50000, len=0x1000, mode=0, copy=0x1000}) = 0 <0.000020>\n8 100.000800 ioctl(5<anon_inode:[userfaultfd]>, UFFDIO_COPY, {dst=0x10000, src=0x50000, len=0x1000, mode=0, copy=-17}) = -1 EEXIST (File exists) <0.000020>\n",
        Verdict::Certified,
        b"a line 5.txt:7: note: object 1: the page was put before by this log: copy at 0x10000, thread 8 of process 7, until 100000820000 at line 7 [put-again]\n5 calls: 4 with the only answer that the rules allow, 1 that an access explains which the log does not show, 0 for which no run was found, 0 not judged\ncertified: the kernel's answers, which a kernel of the rules may have given; pages known to be missing 0, put twice 1, of which nothing is known 1\n",
    ),
    // A page outside is said to be put.
    (
        b"8 100.000500 ioctl(5<anon_inode:[userfaultfd]>, UFFDIO_COPY, {dst=0x12000, src=0x50000, len=0x1000, mode=0, copy=0x1000}) = 0 <0.000020>\n",
        Verdict::Unexplained,
        b"a line 5.txt:6: unexplained: object 1: no run was found that gives this answer: copy at 0x12000, thread 8 of process 7, until 100000520000 at line 6: not registered, or wrong arguments [unexplained-answer]\n4 calls: 3 with the only answer that the rules allow, 0 that an access explains which the log does not show, 1 for which no run was found, 0 not judged\nnot certified: no run was found\n",
    ),
    // A process that shares the memory of the first one gives a page back, which is put again.
    (
        b"7 100.000500 vfork() = 9 <0.000010>\n8 100.000600 ioctl(5<anon_inode:[userfaultfd]>, UFFDIO_COPY, {dst=0x10000, src=0x50000, len=0x2000, mode=0, copy=0x2000}) = 0 <0.000020>\n9 100.000700 madvise(0x10000, 4096, MADV_DONTNEED) = 0 <0.000020>\n8 100.000800 ioctl(5<anon_inode:[userfaultfd]>, UFFDIO_COPY, {dst=0x10000, src=0x50000, len=0x1000, mode=0, copy=0x1000}) = 0 <0.000020>\n9 100.000900 execve(\"./b\", [\"./b\"], 0x7ffc /* 20 vars */) = 0\n9 100.001000 madvise(0x10000, 4096, MADV_DONTNEED) = 0 <0.000020>\n",
        Verdict::Certified,
        b"7 calls: 6 with the only answer that the rules allow, 1 that an access explains which the log does not show, 0 for which no run was found, 0 not judged\ncertified: the kernel's answers, which a kernel of the rules may have given; pages known to be missing 0, put twice 0, of which nothing is known 0\n",
    ),
    // One that has a copy of the memory.
    (
        b"7 100.000500 fork() = 9 <0.000010>\n8 100.000600 ioctl(5<anon_inode:[userfaultfd]>, UFFDIO_COPY, {dst=0x10000, src=0x50000, len=0x2000, mode=0, copy=0x2000}) = 0 <0.000020>\n9 100.000700 madvise(0x10000, 4096, MADV_DONTNEED) = 0 <0.000020>\n8 100.000800 ioctl(5<anon_inode:[userfaultfd]>, UFFDIO_COPY, {dst=0x10000, src=0x50000, len=0x1000, mode=0, copy=0x1000}) = 0 <0.000020>\n",
        Verdict::Unexplained,
        b"a line 5.txt:9: unexplained: object 1: no run was found that gives this answer: copy at 0x10000, thread 8 of process 7, until 100000820000 at line 9: the page is present [unexplained-answer]\n7 calls: 5 with the only answer that the rules allow, 1 that an access explains which the log does not show, 1 for which no run was found, 0 not judged\nnot certified: no run was found\n",
    ),
    // A call never returns.
    (
        b"8 100.000500 ioctl(5<anon_inode:[userfaultfd]>, UFFDIO_WAKE, {start=0x10000, len=0x1000} <unfinished ...>\n",
        Verdict::Nothing,
        b"4 calls: 3 with the only answer that the rules allow, 0 that an access explains which the log does not show, 0 for which no run was found, 1 not judged\nnot certified: nothing was judged: no message was read, and no page was put\n",
    ),
    // A call on an object whose handshake is not in the trace.
    (
        b"8 100.000500 ioctl(6<anon_inode:[userfaultfd]>, UFFDIO_WAKE, {start=0x10000, len=0x1000}) = 0 <0.000010>\n",
        Verdict::Nothing,
        b"4 calls: 3 with the only answer that the rules allow, 0 that an access explains which the log does not show, 0 for which no run was found, 1 not judged\nnot certified: nothing was judged: no message was read, and no page was put\n",
    ),
    // A line without a call, one without a field, and one without its line feed.
    (
        b"8 100.000500 wrong\n8 100.000600 ioctl(5<anon_inode:[userfaultfd]>, UFFDIO_COPY, {dst=) = 0\n8 100.00",
        Verdict::Wrong,
        b"a line 5.txt:6: not a call\na line 5.txt:7: UFFDIO_COPY without 'dst'\na line 5.txt:8: no line feed: the file was cut here\n",
    ),
];

/// Whole inputs: a log, one that is wrong, the refusals, and a trace of one line without its line feed.
static OTHERS: [(&'static [u8], Result<Verdict, LogFault>, &'static [u8]); 8] = [
    (
        b"uffdlog 1\nrecorder preload 1\nkernel Linux 6.18.44 x86_64\npage 4096\nclock thread\ncommand ./monitor\n1 7 7 started 1 ./monitor\n2 7 7 exit\n",
        Ok(Verdict::Nothing),
        b"0 calls: 0 with the only answer that the rules allow, 0 that an access explains which the log does not show, 0 for which no run was found, 0 not judged\nnot certified: nothing was judged: the log has no call\n",
    ),
    (
        b"uffdlog 1\nrecorder preload 1\nkernel Linux 6.18.44 x86_64\npage 4096\nclock thread\ncommand ./monitor\n1 7 7 end 6 ok\n",
        Ok(Verdict::Wrong),
        b"a line 5.txt:7: there is no open call 6 in this process\n",
    ),
    (b"", Err(LogFault::Empty), b""),
    // What strace writes without -f or without times.
    (
        b"execve(\"./monitor\", [], 0x7ffc /* 20 vars */) = 0\n",
        Err(LogFault::StraceOutput),
        b"",
    ),
    (
        b"71 execve(\"./monitor\", [], 0x7ffc /* 20 vars */) = 0\n",
        Err(LogFault::StraceOutput),
        b"",
    ),
    (b"int main(void)\n", Err(LogFault::NotALog), b""),
    (b"uffdlog 2\n", Err(LogFault::NotALog), b""),
    (
        b"71 100.000001 userfaultfd(0) = 5",
        Ok(Verdict::Wrong),
        b"a line 5.txt:1: no line feed: the file was cut here\n",
    ),
];

/// A read or a write that fails, the fault, and what is written: before the first line has ended, below it, and in the verdict.
static FAULTS: [(u32, u32, LogFault, &'static [u8]); 4] = [
    (1, 0, LogFault::ReadFault, b""),
    (3, 0, LogFault::ReadFault, b""),
    (40, 0, LogFault::ReadFault, b""),
    (0, 3, LogFault::WriteFault, b"3 "),
];

/// An input in pieces, with what is said of it.
#[derive(Clone, Copy)]
struct Case<'a> {
    input: &'a [u8],
    /// The read that fails, counted from 1, if one does.
    read_fails_at: u32,
    write_fails_at: u32,
    answer: Result<Verdict, LogFault>,
    written: &'a [u8],
}

/// What is said of an input, and what is written.
fn judged(
    alloc: Global,
    case: &Case<'_>,
) -> Result<(Result<Verdict, LogFault>, OneByte), AllocError> {
    let mut reader = Pieces {
        bytes: case.input,
        size: 7,
        fails_at: case.read_fails_at,
        reads: 0,
    };
    let mut writer = OneByte {
        bytes: Vec::with_capacity(alloc, MOST)?,
        fails_at: case.write_fails_at,
        writes: 0,
        most: MOST,
    };
    let asked = Asked {
        explains: false,
        late_after: Some(1),
        strict: false,
        expects_all: false,
        page: None,
        traces: false,
        form: Form::Text,
    };
    let mut events = Vec::new(alloc);
    let answer = audit_input(alloc, &mut reader, &mut writer, NAME, asked, &mut events);
    Ok((answer, writer))
}

/// Plays a case, and again if it is refused memory: then nothing was written.
fn play(rt: &impl Abort, alloc: Global, case: &Case<'_>) -> Result<(), Fail> {
    let (mut answer, mut writer) = judged(alloc, case)?;
    if answer == Err(LogFault::NoMemory) {
        assert!(rt; writer.bytes.is_empty());
        (answer, writer) = judged(alloc, case)?;
    }
    let written = str::from_utf8(&writer.bytes)?;
    let wanted = str::from_utf8(case.written)?;
    assert!(rt; written == wanted, "{written}");
    assert_eq!(rt; answer, case.answer, "{written}");
    Ok(())
}

/// The trace with these lines below the first ones.
fn trace_of(alloc: Global, lines: &[u8]) -> Result<Vec<u8>, AllocError> {
    let mut trace = Vec::new(alloc);
    trace.extend_from_slice(OPENED)?;
    trace.extend_from_slice(lines)?;
    Ok(trace)
}

#[test]
fn whole_traces(rt: HostRuntime) -> Result<(), Fail> {
    let alloc = rt.alloc();
    for (lines, verdict, written) in &TRACES {
        let trace = trace_of(alloc, lines)?;
        let case = Case {
            input: &trace,
            read_fails_at: 0,
            write_fails_at: 0,
            answer: Ok(*verdict),
            written,
        };
        play(&rt, alloc, &case)?;
    }
    Ok(())
}

#[test]
fn other_inputs(rt: HostRuntime) -> Result<(), Fail> {
    for (input, answer, written) in &OTHERS {
        let case = Case {
            input,
            read_fails_at: 0,
            write_fails_at: 0,
            answer: *answer,
            written,
        };
        play(&rt, rt.alloc(), &case)?;
    }
    Ok(())
}

#[test]
fn faults_of_traces(rt: HostRuntime) -> Result<(), Fail> {
    for (read_fails_at, write_fails_at, fault, written) in &FAULTS {
        let case = Case {
            input: OPENED,
            read_fails_at: *read_fails_at,
            write_fails_at: *write_fails_at,
            answer: Err(*fault),
            written,
        };
        play(&rt, rt.alloc(), &case)?;
    }
    Ok(())
}

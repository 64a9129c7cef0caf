//! What is said of whole logs, which come in pieces.

use audit::{Asked, Form, Verdict, audit_log};
use call_log::LogFault;
use std::alloc::{AllocError, Global};
use std::process::Abort;
use std::test::Fail;
use test_kit::{OneByte, Pieces};

const HEAD: &[u8] =
    b"uffdlog 1\nrecorder preload 1\nkernel Linux 6.18.44 x86_64\npage 4096\nclock thread\ncommand ./monitor\n";

/// An object is opened, and its two pages at 0x10000 are registered, neither of them present.
const OPENED: &[u8] =
    b"1 7 7 started 1 ./monitor\n1 7 7 begin 1 open syscall 0x80800\n2 7 7 end 1 ok 8:5\n3 7 7 begin 2 api 8:5 0xaa 0x100\n4 7 7 end 2 ok 0x1ffff 0x8000000000000003\n5 7 7 begin 3 register 8:5 0x10000 0x2000 0x1\n6 7 7 end 3 ok 0x13c\n7 7 7 begin 4 scan 8:5 0x10000 0x2000\n8 7 7 end 4 ok 0\n";

/// No case writes more bytes.
const MOST: usize = 1_000;

/// Two parts below the head, what is said of the log, and what is written.
static LOGS: [(&'static [u8], &'static [u8], Verdict, &'static [u8]); 14] = [
    (
        OPENED,
        b"",
        Verdict::Nothing,
        b"4 calls: 4 with the only answer that the rules allow, 0 that an access explains which the log does not show, 0 for which no run was found, 0 not judged\nnot certified: nothing was judged: no message was read, and no page was put\n",
    ),
    // A fault is read, and its page put.
    (
        OPENED,
        b"9 7 8 begin 5 read 8:5 32\n10 7 8 message 5 fault 0x10000 1 9\n11 7 8 end 5 ok 1\n12 7 8 begin 6 copy 8:5 0x10000 0x50000 0x1000 0\n13 7 8 end 6 ok 4096\n14 7 8 begin 7 copy 8:5 0x11000 0x51000 0x1000 0\n15 7 8 end 7 ok 4096\n",
        Verdict::Certified,
        b"7 calls: 6 with the only answer that the rules allow, 1 that an access explains which the log does not show, 0 for which no run was found, 0 not judged\ncertified: the kernel's answers, which a kernel of the rules may have given; pages known to be missing 0, put twice 0, of which nothing is known 0\npage faults that waited until a call woke their thread: 1, the longest 0.0 us, read at line 16, woken at line 20\n",
    ),
    // It is put later than after the microsecond that the tests allow.
    (
        OPENED,
        b"9 7 8 begin 5 read 8:5 32\n10 7 8 message 5 fault 0x10000 1 9\n11 7 8 end 5 ok 1\n12 7 8 begin 6 copy 8:5 0x10000 0x50000 0x1000 0\n1911 7 8 end 6 ok 4096\n2000 7 8 begin 7 copy 8:5 0x11000 0x51000 0x1000 0\n2001 7 8 end 7 ok 4096\n",
        Verdict::Found,
        b"log:16: fault: object 8: the page fault waited too long: fault at 0x10000 (write, missing), thread 9 of process 7, since 11 at line 18, until 1911 at line 20 [late]\n7 calls: 6 with the only answer that the rules allow, 1 that an access explains which the log does not show, 0 for which no run was found, 0 not judged\ncertified: the kernel's answers, which a kernel of the rules may have given; pages known to be missing 0, put twice 0, of which nothing is known 0\npage faults that waited until a call woke their thread: 1, the longest 1.9 us, read at line 16, woken at line 20\n",
    ),
    // Its object asks for UFFD_EVENT_REMOVE. It is closed while a page is removed, and another one was to be put.
    (
        b"1 7 7 begin 1 open syscall 0x80800\n2 7 7 end 1 ok 8:5\n3 7 7 begin 2 api 8:5 0xaa 0x8\n4 7 7 end 2 ok 0x1ffff 0x8000000000000003\n5 7 7 begin 3 register 8:5 0x10000 0x2000 0x1\n6 7 7 end 3 ok 0x13c\n7 7 7 begin 4 scan 8:5 0x10000 0x2000\n8 7 7 end 4 ok 0\n9 7 7 begin 5 copy 8:5 0x11000 0x51000 0x1000 0\n10 7 7 end 5 ok 4096\n",
        b"11 7 8 begin 6 madvise 0x11000 0x1000 4\n12 7 7 begin 7 copy 8:5 0x10000 0x50000 0x1000 0\n13 7 7 end 7 EAGAIN -11\n14 7 7 begin 8 close 8:5\n15 7 7 end 8 ok\n16 7 8 end 6 ok\n",
        Verdict::Found,
        b"log:17: fault: object 8: an event of this call was never read: madvise at 0x11000, thread 8 of process 7, until 16 at line 22 [event-not-read]\nlog:18: fault: object 8: EAGAIN, and the page was not tried again: copy at 0x10000, thread 7 of process 7, until 13 at line 19 [not-tried-again]\nlog:20: note: object 8: registered pages are still missing: close at 0x10000, process 7, until 15 at line 21 [page-owed]\n8 calls: 8 with the only answer that the rules allow, 0 that an access explains which the log does not show, 0 for which no run was found, 0 not judged\ncertified: the kernel's answers, which a kernel of the rules may have given; pages known to be missing 1, put twice 0, of which nothing is known 0\n",
    ),
    // It is never put, nor is the other page.
    (
        OPENED,
        b"9 7 8 begin 5 read 8:5 32\n10 7 8 message 5 fault 0x10000 1 9\n11 7 8 end 5 ok 1\n",
        Verdict::Found,
        b"log:16: fault: object 8: the page fault was not resolved: fault at 0x10000 (write, missing), thread 9 of process 7, since 11 at line 18 [fault-not-resolved]\n5 calls: 4 with the only answer that the rules allow, 1 that an access explains which the log does not show, 0 for which no run was found, 0 not judged\ncertified: the kernel's answers, which a kernel of the rules may have given; pages known to be missing 0, put twice 0, of which nothing is known 0\n",
    ),
    // A page is put twice, and the other one never.
    (
        OPENED,
        b"9 7 8 begin 5 copy 8:5 0x10000 0x50000 0x1000 0\n10 7 8 end 5 ok 4096\n11 7 8 begin 6 copy 8:5 0x10000 0x50000 0x1000 0\n12 7 8 end 6 EEXIST -17\n",
        Verdict::Certified,
        b"log:18: note: object 8: the page was put before by this log: copy at 0x10000, thread 8 of process 7, until 12 at line 19 [put-again]\nlog:19: note: object 8: registered pages are still missing: end of the log at 0x11000, process 7 [page-owed]\n6 calls: 6 with the only answer that the rules allow, 0 that an access explains which the log does not show, 0 for which no run was found, 0 not judged\ncertified: the kernel's answers, which a kernel of the rules may have given; pages known to be missing 1, put twice 1, of which nothing is known 0\n",
    ),
    // A page that is missing is said to be there.
    (
        OPENED,
        b"9 7 8 begin 5 copy 8:5 0x10000 0x50000 0x1000 0\n10 7 8 end 5 EEXIST -17\n",
        Verdict::Unexplained,
        b"log:16: unexplained: object 8: no run was found that gives this answer: copy at 0x10000, thread 8 of process 7, until 10 at line 17: the page is missing [unexplained-answer]\n5 calls: 4 with the only answer that the rules allow, 0 that an access explains which the log does not show, 1 for which no run was found, 0 not judged\nnot certified: no run was found\n",
    ),
    // Lines were lost: the copy of the page that is said to be there may be among them.
    (
        OPENED,
        b"9 7 8 begin 5 copy 8:5 0x10000 0x50000 0x1000 0\n10 7 8 end 5 EEXIST -17\nlost 2\n",
        Verdict::Doubtful,
        b"log:16: unexplained, or a lost line: object 8: no run was found that gives this answer: copy at 0x10000, thread 8 of process 7, until 10 at line 17: the page is missing [unexplained-answer]\n5 calls: 4 with the only answer that the rules allow, 0 that an access explains which the log does not show, 1 for which no run was found, 0 not judged\nnot certified: no run was found\nlines of the log were lost: they may explain each finding, and hide others\n",
    ),
    // The same of the copy for a fault that was read.
    (
        OPENED,
        b"9 7 8 begin 5 read 8:5 32\n10 7 8 message 5 fault 0x10000 1 9\n11 7 8 end 5 ok 1\nlost 2\n",
        Verdict::Doubtful,
        b"log:16: fault, or a lost line: object 8: the page fault was not resolved: fault at 0x10000 (write, missing), thread 9 of process 7, since 11 at line 18 [fault-not-resolved]\n5 calls: 4 with the only answer that the rules allow, 1 that an access explains which the log does not show, 0 for which no run was found, 0 not judged\nnot certified: lines of the log were lost\nlines of the log were lost: they may explain each finding, and hide others\n",
    ),
    // A call ends whose begin was lost, and nothing is found.
    (
        OPENED,
        b"lost 1\n9 7 8 end 5 ok 4096\n",
        Verdict::Undecided,
        b"4 calls: 4 with the only answer that the rules allow, 0 that an access explains which the log does not show, 0 for which no run was found, 0 not judged\nnot certified: lines of the log were lost\nlines of the log were lost: they may explain each finding, and hide others\n",
    ),
    // The handshake is not in the log.
    (
        b"1 7 7 found 8:5\n",
        b"2 7 8 begin 1 wake 8:5 0x10000 0x1000\n3 7 8 end 1 ok\n",
        Verdict::Nothing,
        b"1 calls: 0 with the only answer that the rules allow, 0 that an access explains which the log does not show, 0 for which no run was found, 1 not judged\nnot certified: nothing was judged: no message was read, and no page was put\n",
    ),
    // A line that is none of the language, one whose call is not open, and one without its line feed.
    (
        OPENED,
        b"9 7 8 begin 5 copy 8:5 0x10000\n10 7 8 end 6 ok\n11 7 8 exi",
        Verdict::Wrong,
        b"log:16: not a line of the language\nlog:18: no line feed: the log was cut here\n",
    ),
    (
        b"1 7 7 started 1 x\n2 7 8 end 6 ok\n",
        b"",
        Verdict::Wrong,
        b"log:8: there is no open call 6 in this process\n",
    ),
    // The head twice.
    (
        HEAD,
        b"",
        Verdict::Wrong,
        b"log:7: not a line of the language\nlog:8: not a line of the language\nlog:9: not a line of the language\nlog:10: not a line of the language\nlog:11: not a line of the language\nlog:12: not a line of the language\n",
    ),
];

/// A read or a write that fails, with the lines after the registration, the fault, and what is written.
static FAULTS: [(&'static [u8], u32, u32, LogFault, &'static [u8]); 3] = [
    (
        b"9 7 8 exi\n",
        56,
        0,
        LogFault::ReadFault,
        b"log:16: not a line of the language\n",
    ),
    (b"", 1, 0, LogFault::ReadFault, b""),
    (b"", 0, 3, LogFault::WriteFault, b"4 "),
];

/// Inputs that are not logs.
static NO_LOGS: [(&'static [u8], LogFault); 6] = [
    (b"", LogFault::Empty),
    // What strace writes, in two forms, and what it does not.
    (
        b"71 1764282000.000001 execve(\"./monitor\", [], 0x7ffc /* 20 vars */) = 0\n",
        LogFault::StraceOutput,
    ),
    (
        b"[pid  71] userfaultfd(O_CLOEXEC <unfinished ...>\n",
        LogFault::StraceOutput,
    ),
    (b"int main(void)\n", LogFault::NotALog),
    (b"uffdlog 2\n", LogFault::NotALog),
    (b"uffdlog 1", LogFault::NotALog),
];

/// A log in pieces, with what is said of it.
#[derive(Clone, Copy)]
struct Case<'a> {
    input: &'a [u8],
    /// The read that fails, counted from 1, if one does.
    read_fails_at: u32,
    write_fails_at: u32,
    answer: Result<Verdict, LogFault>,
    written: &'a [u8],
}

/// What is said of a log, and what is written.
fn judged(
    alloc: Global,
    case: &Case<'_>,
) -> Result<(Result<Verdict, LogFault>, OneByte), AllocError> {
    let mut reader = Pieces {
        bytes: case.input,
        size: 7,
        fails_at: case.read_fails_at,
        reads: 0,
    };
    let mut writer = OneByte {
        bytes: Vec::with_capacity(alloc, MOST)?,
        fails_at: case.write_fails_at,
        writes: 0,
        most: MOST,
    };
    let asked = Asked {
        explains: false,
        late_after: Some(1),
        strict: false,
        expects_all: false,
        page: None,
        traces: false,
        form: Form::Text,
    };
    let mut events = Vec::new(alloc);
    let answer = audit_log(alloc, &mut reader, &mut writer, "log", asked, &mut events);
    Ok((answer, writer))
}

/// Plays a case, and again if it is refused memory.
fn play(rt: &impl Abort, alloc: Global, case: &Case<'_>) -> Result<(), Fail> {
    let (mut answer, mut writer) = judged(alloc, case)?;
    if answer == Err(LogFault::NoMemory) {
        (answer, writer) = judged(alloc, case)?;
    }
    let written = str::from_utf8(&writer.bytes)?;
    let wanted = str::from_utf8(case.written)?;
    assert!(rt; written == wanted, "{written}");
    assert_eq!(rt; answer, case.answer, "{written}");
    Ok(())
}

/// A log with a head, and two parts below it.
fn log_of(alloc: Global, front: &[u8], lines: &[u8]) -> Result<Vec<u8>, AllocError> {
    let mut log = Vec::new(alloc);
    log.extend_from_slice(HEAD)?;
    log.extend_from_slice(front)?;
    log.extend_from_slice(lines)?;
    Ok(log)
}

/// Plays a log that can be read whole.
pub(crate) fn play_whole(
    rt: &impl Abort,
    alloc: Global,
    front: &[u8],
    lines: &[u8],
    verdict: Verdict,
    written: &[u8],
) -> Result<(), Fail> {
    let log = log_of(alloc, front, lines)?;
    let case = Case {
        input: &log,
        read_fails_at: 0,
        write_fails_at: 0,
        answer: Ok(verdict),
        written,
    };
    play(rt, alloc, &case)
}

#[test]
fn whole_logs(rt: HostRuntime) -> Result<(), Fail> {
    for (front, lines, verdict, written) in &LOGS {
        play_whole(&rt, rt.alloc(), front, lines, *verdict, written)?;
    }
    Ok(())
}

#[test]
fn faults(rt: HostRuntime) -> Result<(), Fail> {
    let alloc = rt.alloc();
    for (lines, read_fails_at, write_fails_at, fault, written) in &FAULTS {
        let log = log_of(alloc, OPENED, lines)?;
        let case = Case {
            input: &log,
            read_fails_at: *read_fails_at,
            write_fails_at: *write_fails_at,
            answer: Err(*fault),
            written,
        };
        play(&rt, alloc, &case)?;
    }
    Ok(())
}

#[test]
fn no_logs(rt: HostRuntime) -> Result<(), Fail> {
    for (input, fault) in &NO_LOGS {
        let case = Case {
            input,
            read_fails_at: 0,
            write_fails_at: 0,
            answer: Err(*fault),
            written: b"",
        };
        play(&rt, rt.alloc(), &case)?;
    }
    Ok(())
}

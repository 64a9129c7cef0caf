//! Runs that real programs have made and that are not found at the first look: small logs, with nothing wrong in them or with one change.

use crate::verdicts::play_whole;
use audit::Verdict;
use std::test::Fail;

/// An object that asks for no thread's number, and two pages of it, of which none is present.
const PLAIN: &[u8] =
    b"1 70 70 started 69 ./monitor\n1 70 70 begin 1 open syscall 0x800\n1 70 70 end 1 ok 8:5\n1 70 70 begin 2 api 8:5 0xaa 0x0\n1 70 70 end 2 ok 0x1ffff 0x8000000000000003\n1 70 70 begin 3 register 8:5 0x10000 0x2000 0x1\n1 70 70 end 3 ok 0x13c\n1 70 70 begin 4 scan 8:5 0x10000 0x2000\n1 70 70 end 4 ok 0\n";

/// The same, and it asks for events.
const EVENTS: &[u8] =
    b"1 70 70 started 69 ./monitor\n1 70 70 begin 1 open syscall 0x800\n1 70 70 end 1 ok 8:5\n1 70 70 begin 2 api 8:5 0xaa 0x4c\n1 70 70 end 2 ok 0x1ffff 0x8000000000000003\n1 70 70 begin 3 register 8:5 0x10000 0x2000 0x1\n1 70 70 end 3 ok 0x13c\n1 70 70 begin 4 scan 8:5 0x10000 0x2000\n1 70 70 end 4 ok 0\n";

/// The same, and it asks for faults of write-protected pages.
const PROTECTS: &[u8] =
    b"1 70 70 started 69 ./monitor\n1 70 70 begin 1 open syscall 0x800\n1 70 70 end 1 ok 8:5\n1 70 70 begin 2 api 8:5 0xaa 0x1\n1 70 70 end 2 ok 0x1ffff 0x8000000000000003\n1 70 70 begin 3 register 8:5 0x10000 0x2000 0x3\n1 70 70 end 3 ok 0x17c\n1 70 70 begin 4 scan 8:5 0x10000 0x2000\n1 70 70 end 4 ok 0\n";

/// The same, and for UFFD_EVENT_REMAP.
const MOVES: &[u8] =
    b"1 70 70 started 69 ./monitor\n1 70 70 begin 1 open syscall 0x800\n1 70 70 end 1 ok 8:5\n1 70 70 begin 2 api 8:5 0xaa 0x5\n1 70 70 end 2 ok 0x1ffff 0x8000000000000003\n1 70 70 begin 3 register 8:5 0x10000 0x2000 0x3\n1 70 70 end 3 ok 0x17c\n1 70 70 begin 4 scan 8:5 0x10000 0x2000\n1 70 70 end 4 ok 0\n";

/// The same, and it asks for UFFD_EVENT_REMOVE.
const REMOVES: &[u8] =
    b"1 70 70 started 69 ./monitor\n1 70 70 begin 1 open syscall 0x800\n1 70 70 end 1 ok 8:5\n1 70 70 begin 2 api 8:5 0xaa 0x8\n1 70 70 end 2 ok 0x1ffff 0x8000000000000003\n1 70 70 begin 3 register 8:5 0x10000 0x2000 0x1\n1 70 70 end 3 ok 0x13c\n1 70 70 begin 4 scan 8:5 0x10000 0x2000\n1 70 70 end 4 ok 0\n";

/// What an object is registered for, the calls after it, what is said of the log, and what is written.
static LOGS: [(&'static [u8], &'static [u8], Verdict, &'static [u8]); 32] = [
    // A madvise of the thread that the copy has woken: it ends before the copy does.
    (
        PLAIN,
        b"1 70 70 begin 5 read 8:5 32\n1 70 70 message 5 fault 0x10000 0 0\n1 70 70 end 5 ok 1\n1 70 70 begin 6 copy 8:5 0x10000 0x7000 0x1000 0x0\n1 70 71 begin 7 madvise 0x10000 0x1000 0x4\n1 70 71 end 7 ok\n1 70 70 end 6 ok 4096\n1 70 70 begin 8 read 8:5 32\n1 70 70 message 8 fault 0x10000 0 0\n1 70 70 end 8 ok 1\n1 70 70 begin 9 copy 8:5 0x10000 0x7000 0x1000 0x0\n1 70 70 end 9 ok 4096\n1 70 70 begin 10 copy 8:5 0x11000 0x7000 0x1000 0x0\n1 70 70 end 10 ok 4096\n",
        Verdict::Certified,
        b"10 calls: 8 with the only answer that the rules allow, 2 that an access explains which the log does not show, 0 for which no run was found, 0 not judged\ncertified: the kernel's answers, which a kernel of the rules may have given; pages known to be missing 0, put twice 0, of which nothing is known 0\npage faults that waited until a call woke their thread: 2, the longest 0.0 us, read at line 16, woken at line 22\n",
    ),
    // It fails: nothing has cleared the page that is read and put again.
    (
        PLAIN,
        b"1 70 70 begin 5 read 8:5 32\n1 70 70 message 5 fault 0x10000 0 0\n1 70 70 end 5 ok 1\n1 70 70 begin 6 copy 8:5 0x10000 0x7000 0x1000 0x0\n1 70 71 begin 7 madvise 0x10000 0x1000 0x4\n1 70 70 end 6 ok 4096\n1 70 71 end 7 EINVAL\n1 70 70 begin 8 read 8:5 32\n1 70 70 message 8 fault 0x10000 0 0\n1 70 70 end 8 ok 1\n1 70 70 begin 9 copy 8:5 0x10000 0x7000 0x1000 0x0\n1 70 70 end 9 ok 4096\n1 70 70 begin 10 copy 8:5 0x11000 0x7000 0x1000 0x0\n1 70 70 end 10 ok 4096\n",
        Verdict::Unexplained,
        b"log:26: unexplained: object 8: no run was found that gives this answer: copy at 0x10000, thread 70 of process 70, until 1 at line 27: the page is present [unexplained-answer]\n10 calls: 6 with the only answer that the rules allow, 3 that an access explains which the log does not show, 1 for which no run was found, 0 not judged\nnot certified: no run was found\npage faults that waited until a call woke their thread: 1, the longest 0.0 us, read at line 16, woken at line 21\n",
    ),
    // A poll has found the message of a thread that a copy let go before it was read. The page of the copy under way is not that thread's: its
    // fault is read before the copy ends.
    (
        PLAIN,
        b"1 70 71 begin 5 poll 8:5\n1 70 70 begin 6 copy 8:5 0x10000 0x7000 0x1000 0x0\n1 70 70 end 6 ok 4096\n1 70 70 begin 7 copy 8:5 0x11000 0x7000 0x1000 0x0\n1 70 71 end 5 ok 0x1\n1 70 71 begin 8 read 8:5 32\n1 70 71 end 8 EAGAIN\n1 70 71 begin 9 poll 8:5\n1 70 71 end 9 ok 0x1\n1 70 71 begin 10 read 8:5 32\n1 70 71 message 10 fault 0x11000 0 0\n1 70 71 end 10 ok 1\n1 70 70 end 7 ok 4096\n",
        Verdict::Certified,
        b"10 calls: 7 with the only answer that the rules allow, 3 that an access explains which the log does not show, 0 for which no run was found, 0 not judged\ncertified: the kernel's answers, which a kernel of the rules may have given; pages known to be missing 0, put twice 0, of which nothing is known 0\n",
    ),
    // Two threads at one page, and a poll that finds the second one's message.
    (
        PLAIN,
        b"1 70 70 begin 5 read 8:5 32\n1 70 70 message 5 fault 0x10000 0 0\n1 70 70 end 5 ok 1\n1 70 70 begin 6 poll 8:5\n1 70 70 end 6 ok 0x1\n1 70 70 begin 7 read 8:5 32\n1 70 70 message 7 fault 0x10000 0 0\n1 70 70 end 7 ok 1\n1 70 70 begin 8 copy 8:5 0x10000 0x7000 0x1000 0x0\n1 70 70 end 8 ok 4096\n1 70 70 begin 9 copy 8:5 0x11000 0x7000 0x1000 0x0\n1 70 70 end 9 ok 4096\n",
        Verdict::Certified,
        b"9 calls: 7 with the only answer that the rules allow, 2 that an access explains which the log does not show, 0 for which no run was found, 0 not judged\ncertified: the kernel's answers, which a kernel of the rules may have given; pages known to be missing 0, put twice 0, of which nothing is known 0\npage faults that waited until a call woke their thread: 2, the longest 0.0 us, read at line 16, woken at line 25\n",
    ),
    // The copy does not wake them.
    (
        PLAIN,
        b"1 70 70 begin 5 read 8:5 32\n1 70 70 message 5 fault 0x10000 0 0\n1 70 70 end 5 ok 1\n1 70 70 begin 6 poll 8:5\n1 70 70 end 6 ok 0x1\n1 70 70 begin 7 read 8:5 32\n1 70 70 message 7 fault 0x10000 0 0\n1 70 70 end 7 ok 1\n1 70 70 begin 8 copy 8:5 0x10000 0x7000 0x1000 0x1\n1 70 70 end 8 ok 4096\n1 70 70 begin 9 copy 8:5 0x11000 0x7000 0x1000 0x0\n1 70 70 end 9 ok 4096\n",
        Verdict::Found,
        b"log:16: fault: object 8: the page fault was not resolved, 2 times: fault at 0x10000 (read, missing), process 70, since 1 at line 18; fault at 0x10000 (read, missing), process 70, since 1 at line 23 [fault-not-resolved]\n9 calls: 7 with the only answer that the rules allow, 2 that an access explains which the log does not show, 0 for which no run was found, 0 not judged\ncertified: the kernel's answers, which a kernel of the rules may have given; pages known to be missing 0, put twice 0, of which nothing is known 0\n",
    ),
    // The monitor ends without a read of the message that its poll has found.
    (
        PLAIN,
        b"1 70 70 begin 5 poll 8:5\n1 70 70 end 5 ok 0x1\n",
        Verdict::Nothing,
        b"5 calls: 4 with the only answer that the rules allow, 1 that an access explains which the log does not show, 0 for which no run was found, 0 not judged\nnot certified: nothing was judged: no message was read, and no page was put\n",
    ),
    // It reads, and nothing waits: the thread has left its fault by a signal.
    (
        PLAIN,
        b"1 70 70 begin 5 poll 8:5\n1 70 70 end 5 ok 0x1\n1 70 70 begin 6 read 8:5 32\n1 70 70 end 6 EAGAIN\n",
        Verdict::Nothing,
        b"6 calls: 4 with the only answer that the rules allow, 2 that an access explains which the log does not show, 0 for which no run was found, 0 not judged\nnot certified: nothing was judged: no message was read, and no page was put\n",
    ),
    // A fault at the new place of a page, read before the messages of the mremap, which has not returned.
    (
        EVENTS,
        b"1 70 70 begin 5 copy 8:5 0x10000 0x7000 0x1000 0x0\n1 70 70 end 5 ok 4096\n1 70 71 begin 6 mremap 0x11000 0x1000 0x1000 0x3 0x20000\n1 70 70 begin 7 poll 8:5\n1 70 70 end 7 ok 0x1\n1 70 70 begin 8 read 8:5 96\n1 70 70 message 8 fault 0x20000 1 0\n1 70 70 message 8 remap 0x11000 0x20000 0x1000\n1 70 70 end 8 ok 2\n1 70 70 begin 9 read 8:5 32\n1 70 70 message 9 unmap 0x11000 0x12000\n1 70 70 end 9 ok 1\n1 70 71 end 6 ok 0x20000\n1 70 70 begin 10 copy 8:5 0x20000 0x7000 0x1000 0x0\n1 70 70 end 10 ok 4096\n",
        Verdict::Certified,
        b"10 calls: 8 with the only answer that the rules allow, 2 that an access explains which the log does not show, 0 for which no run was found, 0 not judged\ncertified: the kernel's answers, which a kernel of the rules may have given; pages known to be missing 0, put twice 0, of which nothing is known 0\npage faults that waited until a call woke their thread: 1, the longest 0.0 us, read at line 21, woken at line 30\n",
    ),
    // The message that the second poll finds goes with a wake by UFFDIO_WRITEPROTECT.
    (
        PROTECTS,
        b"1 70 70 begin 5 copy 8:5 0x10000 0x7000 0x1000 0x2\n1 70 70 end 5 ok 4096\n1 70 70 begin 6 copy 8:5 0x11000 0x7000 0x1000 0x0\n1 70 70 end 6 ok 4096\n1 70 70 begin 7 poll 8:5\n1 70 70 end 7 ok 0x1\n1 70 70 begin 8 writeprotect 8:5 0x10000 0x1000 0x0\n1 70 70 end 8 ok\n1 70 70 begin 9 read 8:5 32\n1 70 70 end 9 EAGAIN\n",
        Verdict::Certified,
        b"9 calls: 9 with the only answer that the rules allow, 0 that an access explains which the log does not show, 0 for which no run was found, 0 not judged\ncertified: the kernel's answers, which a kernel of the rules may have given; pages known to be missing 0, put twice 0, of which nothing is known 0\n",
    ),
    // Two objects of two processes, with a thread at one page of each.
    (
        PLAIN,
        b"1 72 72 started 69 ./monitor\n1 72 72 begin 1 open syscall 0x800\n1 72 72 end 1 ok 9:5\n1 72 72 begin 2 api 9:5 0xaa 0x0\n1 72 72 end 2 ok 0x1ffff 0x8000000000000003\n1 72 72 begin 3 register 9:5 0x10000 0x1000 0x1\n1 72 72 end 3 ok 0x13c\n1 70 70 begin 5 read 8:5 32\n1 70 70 message 5 fault 0x10000 0 0\n1 70 70 end 5 ok 1\n1 72 72 begin 4 read 9:5 32\n1 72 72 message 4 fault 0x10000 0 0\n1 72 72 end 4 ok 1\n1 70 70 begin 6 copy 8:5 0x10000 0x7000 0x2000 0x0\n1 70 70 end 6 ok 8192\n1 72 72 begin 5 copy 9:5 0x10000 0x7000 0x1000 0x0\n1 72 72 end 5 ok 4096\n",
        Verdict::Certified,
        b"11 calls: 9 with the only answer that the rules allow, 2 that an access explains which the log does not show, 0 for which no run was found, 0 not judged\ncertified: the kernel's answers, which a kernel of the rules may have given; pages known to be missing 0, put twice 0, of which nothing is known 0\npage faults that waited until a call woke their thread: 2, the longest 0.0 us, read at line 23, woken at line 30\n",
    ),
    // Map calls of more pages than any memory has.
    (
        PLAIN,
        b"1 70 70 begin 5 copy 8:5 0x10000 0x7000 0x1000 0x0\n1 70 70 end 5 ok 4096\n1 70 70 begin 6 copy 8:5 0x11000 0x7000 0x1000 0x0\n1 70 70 end 6 ok 4096\n1 70 70 begin 7 mremap 0x30000 0x400000000000 0x1000 0x0 0x0\n1 70 70 end 7 ok 0x30000\n1 70 70 begin 8 mremap 0x12000 0x1000 0xfffffffffffff000 0x1 0x0\n1 70 70 end 8 EINVAL\n1 70 70 begin 9 madvise 0x30000 0x7ffffff00000 0x4\n1 70 70 end 9 ENOMEM\n",
        Verdict::Certified,
        b"9 calls: 9 with the only answer that the rules allow, 0 that an access explains which the log does not show, 0 for which no run was found, 0 not judged\ncertified: the kernel's answers, which a kernel of the rules may have given; pages known to be missing 0, put twice 0, of which nothing is known 0\n",
    ),
    // What EAGAIN was for has been given back, but for the page that is missing to the end.
    (
        REMOVES,
        b"1 70 71 begin 5 madvise 0x10000 0x1000 0x4\n1 70 70 begin 6 copy 8:5 0x10000 0x7000 0x1000 0x0\n1 70 70 end 6 EAGAIN -11\n1 70 70 begin 7 read 8:5 32\n1 70 70 message 7 remove 0x10000 0x11000\n1 70 70 end 7 ok 1\n1 70 71 end 5 ok\n1 70 70 begin 8 copy 8:5 0x11000 0x7000 0x1000 0x0\n1 70 70 end 8 ok 4096\n",
        Verdict::Certified,
        b"8 calls: 7 with the only answer that the rules allow, 1 that an access explains which the log does not show, 0 for which no run was found, 0 not judged\ncertified: the kernel's answers, which a kernel of the rules may have given; pages known to be missing 1, put twice 0, of which nothing is known 0\n",
    ),
    // It was for that page.
    (
        REMOVES,
        b"1 70 71 begin 5 madvise 0x10000 0x1000 0x4\n1 70 70 begin 6 copy 8:5 0x11000 0x7000 0x1000 0x0\n1 70 70 end 6 EAGAIN -11\n1 70 70 begin 7 read 8:5 32\n1 70 70 message 7 remove 0x10000 0x11000\n1 70 70 end 7 ok 1\n1 70 71 end 5 ok\n1 70 70 begin 8 copy 8:5 0x10000 0x7000 0x1000 0x0\n1 70 70 end 8 ok 4096\n",
        Verdict::Found,
        b"log:17: fault: object 8: EAGAIN, and the page was not tried again: copy at 0x11000, thread 70 of process 70, until 1 at line 18 [not-tried-again]\nlog:24: note: object 8: registered pages are still missing: end of the log at 0x11000, process 70 [page-owed]\n8 calls: 7 with the only answer that the rules allow, 1 that an access explains which the log does not show, 0 for which no run was found, 0 not judged\ncertified: the kernel's answers, which a kernel of the rules may have given; pages known to be missing 1, put twice 0, of which nothing is known 0\n",
    ),
    // A copy that was refused while a madvise was under way ends after that.
    (
        REMOVES,
        b"1 70 70 begin 5 copy 8:5 0x10000 0x7000 0x1000 0x0\n1 70 70 end 5 ok 4096\n1 70 71 begin 6 madvise 0x10000 0x1000 0x4\n1 70 72 begin 7 copy 8:5 0x11000 0x7000 0x1000 0x0\n1 70 70 begin 8 read 8:5 32\n1 70 70 message 8 remove 0x10000 0x11000\n1 70 70 end 8 ok 1\n1 70 71 end 6 ok\n1 70 72 end 7 EAGAIN -11\n1 70 70 begin 9 copy 8:5 0x11000 0x7000 0x1000 0x0\n1 70 70 end 9 ok 4096\n1 70 70 begin 10 copy 8:5 0x10000 0x7000 0x1000 0x0\n1 70 70 end 10 ok 4096\n",
        Verdict::Certified,
        b"10 calls: 9 with the only answer that the rules allow, 1 that an access explains which the log does not show, 0 for which no run was found, 0 not judged\ncertified: the kernel's answers, which a kernel of the rules may have given; pages known to be missing 0, put twice 0, of which nothing is known 0\n",
    ),
    // It begins after the madvise has ended.
    (
        REMOVES,
        b"1 70 70 begin 5 copy 8:5 0x10000 0x7000 0x1000 0x0\n1 70 70 end 5 ok 4096\n1 70 71 begin 6 madvise 0x10000 0x1000 0x4\n1 70 70 begin 8 read 8:5 32\n1 70 70 message 8 remove 0x10000 0x11000\n1 70 70 end 8 ok 1\n1 70 71 end 6 ok\n1 70 72 begin 7 copy 8:5 0x11000 0x7000 0x1000 0x0\n1 70 72 end 7 EAGAIN -11\n1 70 70 begin 9 copy 8:5 0x11000 0x7000 0x1000 0x0\n1 70 70 end 9 ok 4096\n1 70 70 begin 10 copy 8:5 0x10000 0x7000 0x1000 0x0\n1 70 70 end 10 ok 4096\n",
        Verdict::Unexplained,
        b"log:23: unexplained: object 8: no run was found that gives this answer: copy at 0x11000, thread 72 of process 70, until 1 at line 24: no map call is under way that an event tells of [unexplained-answer]\n10 calls: 8 with the only answer that the rules allow, 1 that an access explains which the log does not show, 1 for which no run was found, 0 not judged\nnot certified: no run was found\n",
    ),
    // The event of one madvise is read, and a page is put, while another one has begun that takes effect after that.
    (
        REMOVES,
        b"1 70 70 begin 5 copy 8:5 0x10000 0x7000 0x2000 0x0\n1 70 70 end 5 ok 8192\n1 70 71 begin 6 madvise 0x10000 0x1000 0x4\n1 70 72 begin 7 madvise 0x11000 0x1000 0x4\n1 70 70 begin 8 read 8:5 32\n1 70 70 message 8 remove 0x11000 0x12000\n1 70 70 end 8 ok 1\n1 70 72 end 7 ok\n1 70 70 begin 9 copy 8:5 0x11000 0x7000 0x1000 0x0\n1 70 70 end 9 ok 4096\n1 70 70 begin 10 read 8:5 32\n1 70 70 message 10 remove 0x10000 0x11000\n1 70 70 end 10 ok 1\n1 70 71 end 6 ok\n1 70 70 begin 11 copy 8:5 0x10000 0x7000 0x1000 0x0\n1 70 70 end 11 ok 4096\n",
        Verdict::Certified,
        b"11 calls: 9 with the only answer that the rules allow, 2 that an access explains which the log does not show, 0 for which no run was found, 0 not judged\ncertified: the kernel's answers, which a kernel of the rules may have given; pages known to be missing 0, put twice 0, of which nothing is known 0\n",
    ),
    // The same, of a copy that was refused because of the madvise whose event is read first.
    (
        REMOVES,
        b"1 70 70 begin 5 copy 8:5 0x10000 0x7000 0x2000 0x0\n1 70 70 end 5 ok 8192\n1 70 71 begin 6 madvise 0x10000 0x1000 0x4\n1 70 72 begin 12 madvise 0x11000 0x1000 0x4\n1 70 70 begin 7 copy 8:5 0x11000 0x7000 0x1000 0x0\n1 70 70 end 7 EAGAIN -11\n1 70 70 begin 8 read 8:5 32\n1 70 70 message 8 remove 0x11000 0x12000\n1 70 70 end 8 ok 1\n1 70 72 end 12 ok\n1 70 70 begin 9 copy 8:5 0x11000 0x7000 0x1000 0x0\n1 70 70 end 9 ok 4096\n1 70 70 begin 10 read 8:5 32\n1 70 70 message 10 remove 0x10000 0x11000\n1 70 70 end 10 ok 1\n1 70 71 end 6 ok\n1 70 70 begin 11 copy 8:5 0x10000 0x7000 0x1000 0x0\n1 70 70 end 11 ok 4096\n",
        Verdict::Certified,
        b"12 calls: 10 with the only answer that the rules allow, 2 that an access explains which the log does not show, 0 for which no run was found, 0 not judged\ncertified: the kernel's answers, which a kernel of the rules may have given; pages known to be missing 0, put twice 0, of which nothing is known 0\n",
    ),
    // The same, and the page is put before an event is read: the madvise clears it after that.
    (
        REMOVES,
        b"1 70 70 begin 5 copy 8:5 0x10000 0x7000 0x2000 0x0\n1 70 70 end 5 ok 8192\n1 70 71 begin 6 madvise 0x10000 0x1000 0x4\n1 70 72 begin 12 madvise 0x11000 0x1000 0x4\n1 70 70 begin 7 copy 8:5 0x11000 0x7000 0x1000 0x0\n1 70 70 end 7 EAGAIN -11\n1 70 70 begin 8 copy 8:5 0x11000 0x7000 0x1000 0x0\n1 70 70 end 8 ok 4096\n1 70 70 begin 9 read 8:5 32\n1 70 70 message 9 remove 0x11000 0x12000\n1 70 70 end 9 ok 1\n1 70 72 end 12 ok\n1 70 70 begin 10 read 8:5 32\n1 70 70 message 10 remove 0x10000 0x11000\n1 70 70 end 10 ok 1\n1 70 71 end 6 ok\n1 70 70 begin 11 copy 8:5 0x10000 0x7000 0x1000 0x0\n1 70 70 end 11 ok 4096\n",
        Verdict::Unexplained,
        b"log:22: unexplained: object 8: no run was found that gives this answer: copy at 0x11000, thread 70 of process 70, until 1 at line 23: the space is changing [unexplained-answer]\n12 calls: 9 with the only answer that the rules allow, 2 that an access explains which the log does not show, 1 for which no run was found, 0 not judged\nnot certified: no run was found\n",
    ),
    // A page that one madvise has cleared faults, and then one that another madvise has not cleared yet.
    (
        PROTECTS,
        b"1 70 70 begin 5 copy 8:5 0x10000 0x7000 0x2000 0x2\n1 70 70 end 5 ok 8192\n1 70 71 begin 6 madvise 0x10000 0x1000 0x4\n1 70 72 begin 7 madvise 0x11000 0x1000 0x4\n1 70 70 begin 8 read 8:5 32\n1 70 70 message 8 fault 0x10000 0 0\n1 70 70 end 8 ok 1\n1 70 70 begin 9 read 8:5 32\n1 70 70 message 9 fault 0x11000 3 0\n1 70 70 end 9 ok 1\n1 70 70 begin 10 writeprotect 8:5 0x11000 0x1000 0x0\n1 70 70 end 10 ok\n1 70 71 end 6 ok\n1 70 72 end 7 ok\n1 70 70 begin 11 copy 8:5 0x10000 0x7000 0x2000 0x0\n1 70 70 end 11 ok 8192\n",
        Verdict::Certified,
        b"11 calls: 9 with the only answer that the rules allow, 2 that an access explains which the log does not show, 0 for which no run was found, 0 not judged\ncertified: the kernel's answers, which a kernel of the rules may have given; pages known to be missing 0, put twice 0, of which nothing is known 0\npage faults that waited until a call woke their thread: 2, the longest 0.0 us, read at line 20, woken at line 31\n",
    ),
    // The message that two threads' polls have found is read by one before the other's poll ends.
    (
        PLAIN,
        b"1 70 71 begin 5 poll 8:5\n1 70 70 begin 6 read 8:5 32\n1 70 70 message 6 fault 0x10000 0 0\n1 70 70 end 6 ok 1\n1 70 71 end 5 ok 0x1\n1 70 71 begin 7 read 8:5 32\n1 70 71 end 7 EAGAIN\n1 70 70 begin 8 copy 8:5 0x10000 0x7000 0x2000 0x0\n1 70 70 end 8 ok 8192\n",
        Verdict::Certified,
        b"8 calls: 7 with the only answer that the rules allow, 1 that an access explains which the log does not show, 0 for which no run was found, 0 not judged\ncertified: the kernel's answers, which a kernel of the rules may have given; pages known to be missing 0, put twice 0, of which nothing is known 0\npage faults that waited until a call woke their thread: 1, the longest 0.0 us, read at line 17, woken at line 24\n",
    ),
    // The poll begins when the message is read: it has found that of a thread which a signal took away.
    (
        PLAIN,
        b"1 70 70 begin 6 read 8:5 32\n1 70 70 message 6 fault 0x10000 0 0\n1 70 70 end 6 ok 1\n1 70 71 begin 5 poll 8:5\n1 70 71 end 5 ok 0x1\n1 70 71 begin 7 read 8:5 32\n1 70 71 end 7 EAGAIN\n1 70 70 begin 8 copy 8:5 0x10000 0x7000 0x2000 0x0\n1 70 70 end 8 ok 8192\n",
        Verdict::Certified,
        b"8 calls: 5 with the only answer that the rules allow, 3 that an access explains which the log does not show, 0 for which no run was found, 0 not judged\ncertified: the kernel's answers, which a kernel of the rules may have given; pages known to be missing 0, put twice 0, of which nothing is known 0\npage faults that waited until a call woke their thread: 1, the longest 0.0 us, read at line 16, woken at line 24\n",
    ),
    // No thread could have waited: both pages are present.
    (
        PLAIN,
        b"1 70 70 begin 5 copy 8:5 0x10000 0x7000 0x2000 0x0\n1 70 70 end 5 ok 8192\n1 70 71 begin 6 poll 8:5\n1 70 71 end 6 ok 0x1\n1 70 71 begin 7 read 8:5 32\n1 70 71 end 7 EAGAIN\n",
        Verdict::Unexplained,
        b"log:18: unexplained: object 8: no run was found that gives this answer: poll, thread 71 of process 70, until 1 at line 19: no message waits [unexplained-answer]\n7 calls: 6 with the only answer that the rules allow, 0 that an access explains which the log does not show, 1 for which no run was found, 0 not judged\nnot certified: no run was found\n",
    ),
    // A page is put again before the message of its madvise is read, which no kernel allows.
    (
        REMOVES,
        b"1 70 70 begin 5 copy 8:5 0x10000 0x7000 0x2000 0x0\n1 70 70 end 5 ok 8192\n1 70 71 begin 6 madvise 0x10000 0x1000 0x4\n1 70 70 begin 7 copy 8:5 0x10000 0x7000 0x1000 0x0\n1 70 70 end 7 ok 4096\n1 70 70 begin 8 read 8:5 32\n1 70 70 message 8 remove 0x10000 0x11000\n1 70 70 end 8 ok 1\n1 70 71 end 6 ok\n",
        Verdict::Unexplained,
        b"log:19: unexplained: object 8: no run was found that gives this answer: copy at 0x10000, thread 70 of process 70, until 1 at line 20: the space is changing [unexplained-answer]\n8 calls: 6 with the only answer that the rules allow, 1 that an access explains which the log does not show, 1 for which no run was found, 0 not judged\nnot certified: no run was found\n",
    ),
    // A read of an event and then of a fault, which was queued meanwhile.
    (
        REMOVES,
        b"1 70 70 begin 5 copy 8:5 0x10000 0x7000 0x1000 0x0\n1 70 70 end 5 ok 4096\n1 70 71 begin 6 madvise 0x10000 0x1000 0x4\n1 70 70 begin 7 read 8:5 64\n1 70 70 message 7 remove 0x10000 0x11000\n1 70 70 message 7 fault 0x11000 0 0\n1 70 70 end 7 ok 2\n1 70 71 end 6 ok\n1 70 70 begin 8 copy 8:5 0x11000 0x7000 0x1000 0x0\n1 70 70 end 8 ok 4096\n1 70 70 begin 9 copy 8:5 0x10000 0x7000 0x1000 0x0\n1 70 70 end 9 ok 4096\n",
        Verdict::Certified,
        b"9 calls: 8 with the only answer that the rules allow, 1 that an access explains which the log does not show, 0 for which no run was found, 0 not judged\ncertified: the kernel's answers, which a kernel of the rules may have given; pages known to be missing 0, put twice 0, of which nothing is known 0\npage faults that waited until a call woke their thread: 1, the longest 0.0 us, read at line 19, woken at line 25\n",
    ),
    // Two processes with one address, and a child that shares the memory of the one whose object it has found.
    (
        PLAIN,
        b"1 72 72 forked 70\n1 72 72 begin 1 open syscall 0x800\n1 72 72 end 1 ok 9:6\n1 72 72 begin 2 api 9:6 0xaa 0x0\n1 72 72 end 2 ok 0x1ffff 0x8000000000000003\n1 72 72 begin 3 register 9:6 0x10000 0x2000 0x1\n1 72 72 end 3 ok 0x13c\n1 72 72 begin 4 copy 9:6 0x10000 0x7000 0x2000 0x0\n1 72 72 end 4 ok 8192\n1 70 70 begin 5 copy 8:5 0x10000 0x7000 0x2000 0x0\n1 70 70 end 5 ok 8192\n1 73 73 found 9:6\n1 73 73 begin 6 madvise 0x10000 0x1000 0x4\n1 73 73 end 6 ok\n1 72 72 begin 7 copy 9:6 0x10000 0x7000 0x1000 0x0\n1 72 72 end 7 ok 4096\n",
        Verdict::Certified,
        b"11 calls: 10 with the only answer that the rules allow, 1 that an access explains which the log does not show, 0 for which no run was found, 0 not judged\ncertified: the kernel's answers, which a kernel of the rules may have given; pages known to be missing 0, put twice 0, of which nothing is known 0\n",
    ),
    // It has found the other's.
    (
        PLAIN,
        b"1 72 72 forked 70\n1 72 72 begin 1 open syscall 0x800\n1 72 72 end 1 ok 9:6\n1 72 72 begin 2 api 9:6 0xaa 0x0\n1 72 72 end 2 ok 0x1ffff 0x8000000000000003\n1 72 72 begin 3 register 9:6 0x10000 0x2000 0x1\n1 72 72 end 3 ok 0x13c\n1 72 72 begin 4 copy 9:6 0x10000 0x7000 0x2000 0x0\n1 72 72 end 4 ok 8192\n1 70 70 begin 5 copy 8:5 0x10000 0x7000 0x2000 0x0\n1 70 70 end 5 ok 8192\n1 73 73 found 8:5\n1 73 73 begin 6 madvise 0x10000 0x1000 0x4\n1 73 73 end 6 ok\n1 72 72 begin 7 copy 9:6 0x10000 0x7000 0x1000 0x0\n1 72 72 end 7 ok 4096\n",
        Verdict::Unexplained,
        b"log:30: unexplained: object 9: no run was found that gives this answer: copy at 0x10000, thread 72 of process 72, until 1 at line 31: the page is present [unexplained-answer]\n11 calls: 9 with the only answer that the rules allow, 1 that an access explains which the log does not show, 1 for which no run was found, 0 not judged\nnot certified: no run was found\n",
    ),
    // A read that begins before the fault of a missing page is read, and returns the fault of the page that the copy has write-protected.
    (
        PROTECTS,
        b"1 70 71 begin 5 read 8:5 32\n1 70 70 begin 6 read 8:5 32\n1 70 70 message 6 fault 0x10000 0 0\n1 70 70 end 6 ok 1\n1 70 70 begin 7 copy 8:5 0x10000 0x7000 0x1000 0x2\n1 70 70 end 7 ok 4096\n1 70 71 message 5 fault 0x10000 3 0\n1 70 71 end 5 ok 1\n1 70 71 begin 8 writeprotect 8:5 0x10000 0x1000 0x0\n1 70 71 end 8 ok\n1 70 70 begin 9 copy 8:5 0x11000 0x7000 0x1000 0x0\n1 70 70 end 9 ok 4096\n",
        Verdict::Certified,
        b"9 calls: 7 with the only answer that the rules allow, 2 that an access explains which the log does not show, 0 for which no run was found, 0 not judged\ncertified: the kernel's answers, which a kernel of the rules may have given; pages known to be missing 0, put twice 0, of which nothing is known 0\npage faults that waited until a call woke their thread: 2, the longest 0.0 us, read at line 16, woken at line 25\n",
    ),
    // The copy does not protect it.
    (
        PROTECTS,
        b"1 70 71 begin 5 read 8:5 32\n1 70 70 begin 6 read 8:5 32\n1 70 70 message 6 fault 0x10000 0 0\n1 70 70 end 6 ok 1\n1 70 70 begin 7 copy 8:5 0x10000 0x7000 0x1000 0x0\n1 70 70 end 7 ok 4096\n1 70 71 message 5 fault 0x10000 3 0\n1 70 71 end 5 ok 1\n1 70 71 begin 8 writeprotect 8:5 0x10000 0x1000 0x0\n1 70 71 end 8 ok\n1 70 70 begin 9 copy 8:5 0x11000 0x7000 0x1000 0x0\n1 70 70 end 9 ok 4096\n",
        Verdict::Unexplained,
        b"log:16: unexplained: object 8: no run was found that gives this answer: read, thread 71 of process 70, until 1 at line 23: no thread has queued a fault [unexplained-answer]\n9 calls: 7 with the only answer that the rules allow, 1 that an access explains which the log does not show, 1 for which no run was found, 0 not judged\nnot certified: no run was found\npage faults that waited until a call woke their thread: 1, the longest 0.0 us, read at line 17, woken at line 21\n",
    ),
    // A read and an unprotection that end before the copy does.
    (
        PROTECTS,
        b"1 70 70 begin 5 read 8:5 32\n1 70 70 message 5 fault 0x10000 0 0\n1 70 70 end 5 ok 1\n1 70 70 begin 6 copy 8:5 0x10000 0x7000 0x1000 0x2\n1 70 71 begin 7 read 8:5 32\n1 70 71 message 7 fault 0x10000 3 0\n1 70 71 end 7 ok 1\n1 70 71 begin 8 writeprotect 8:5 0x10000 0x1000 0x0\n1 70 71 end 8 ok\n1 70 70 end 6 ok 4096\n1 70 70 begin 9 copy 8:5 0x11000 0x7000 0x1000 0x0\n1 70 70 end 9 ok 4096\n",
        Verdict::Certified,
        b"9 calls: 7 with the only answer that the rules allow, 2 that an access explains which the log does not show, 0 for which no run was found, 0 not judged\ncertified: the kernel's answers, which a kernel of the rules may have given; pages known to be missing 0, put twice 0, of which nothing is known 0\npage faults that waited until a call woke their thread: 2, the longest 0.0 us, read at line 16, woken at line 25\n",
    ),
    // An unprotection that ends after the protection of a range which came after it.
    (
        PROTECTS,
        b"1 70 70 begin 5 copy 8:5 0x10000 0x7000 0x2000 0x2\n1 70 70 end 5 ok 8192\n1 70 70 begin 6 read 8:5 32\n1 70 70 message 6 fault 0x10000 3 0\n1 70 70 end 6 ok 1\n1 70 70 begin 7 writeprotect 8:5 0x10000 0x1000 0x0\n1 70 71 begin 8 writeprotect 8:5 0x10000 0x2000 0x1\n1 70 71 end 8 ok\n1 70 70 end 7 ok\n1 70 70 begin 9 read 8:5 32\n1 70 70 message 9 fault 0x10000 3 0\n1 70 70 end 9 ok 1\n1 70 70 begin 10 writeprotect 8:5 0x10000 0x2000 0x0\n1 70 70 end 10 ok\n",
        Verdict::Certified,
        b"10 calls: 8 with the only answer that the rules allow, 2 that an access explains which the log does not show, 0 for which no run was found, 0 not judged\ncertified: the kernel's answers, which a kernel of the rules may have given; pages known to be missing 0, put twice 0, of which nothing is known 0\npage faults that waited until a call woke their thread: 2, the longest 0.0 us, read at line 18, woken at line 24\n",
    ),
    // The message that a poll has found is read by another thread, whose read ends later than that which found nothing.
    (
        PLAIN,
        b"1 70 70 begin 5 poll 8:5\n1 70 71 begin 6 read 8:5 32\n1 70 70 end 5 ok 0x1\n1 70 70 begin 7 read 8:5 32\n1 70 71 message 6 fault 0x10000 0 0\n1 70 70 end 7 EAGAIN\n1 70 71 end 6 ok 1\n1 70 71 begin 8 copy 8:5 0x10000 0x7000 0x2000 0x0\n1 70 71 end 8 ok 8192\n",
        Verdict::Certified,
        b"8 calls: 7 with the only answer that the rules allow, 1 that an access explains which the log does not show, 0 for which no run was found, 0 not judged\ncertified: the kernel's answers, which a kernel of the rules may have given; pages known to be missing 0, put twice 0, of which nothing is known 0\npage faults that waited until a call woke their thread: 1, the longest 0.0 us, read at line 17, woken at line 24\n",
    ),
    // An object for minor faults beside another one.
    (
        PLAIN,
        b"1 70 70 begin 5 open syscall 0x800\n1 70 70 end 5 ok 9:6\n1 70 70 begin 6 api 9:6 0xaa 0x400\n1 70 70 end 6 ok 0x1ffff 0x8000000000000003\n1 70 70 begin 7 register 9:6 0x20000 0x1000 0x4\n1 70 70 end 7 ok 0x1bc\n1 70 70 begin 8 poll 9:6\n1 70 70 end 8 ok 0x1\n1 70 70 begin 9 read 9:6 32\n1 70 70 message 9 fault 0x20000 4 0\n1 70 70 end 9 ok 1\n1 70 70 begin 10 continue 9:6 0x20000 0x1000 0x0\n1 70 70 end 10 ok 4096\n1 70 70 begin 11 copy 8:5 0x10000 0x7000 0x2000 0x0\n1 70 70 end 11 ok 8192\n",
        Verdict::Certified,
        b"11 calls: 9 with the only answer that the rules allow, 2 that an access explains which the log does not show, 0 for which no run was found, 0 not judged\ncertified: the kernel's answers, which a kernel of the rules may have given; pages known to be missing 0, put twice 0, of which nothing is known 0\npage faults that waited until a call woke their thread: 1, the longest 0.0 us, read at line 24, woken at line 28\n",
    ),
];

/// Protections of several pages, which a kernel changes one after another while other calls come in between.
static PROTECTIONS: [(&'static [u8], &'static [u8], Verdict, &'static [u8]); 12] = [
    // Two pages are being protected. One has been: it faults. The other's protection is taken away, and then the protection reaches it.
    (
        PROTECTS,
        b"1 70 70 begin 5 copy 8:5 0x10000 0x7000 0x2000 0x0\n1 70 70 end 5 ok 8192\n1 70 71 begin 6 writeprotect 8:5 0x10000 0x2000 0x1\n1 70 70 begin 7 read 8:5 32\n1 70 70 message 7 fault 0x10000 3 0\n1 70 70 end 7 ok 1\n1 70 70 begin 8 writeprotect 8:5 0x11000 0x1000 0x0\n1 70 70 end 8 ok\n1 70 70 begin 9 read 8:5 32\n1 70 70 message 9 fault 0x11000 3 0\n1 70 70 end 9 ok 1\n1 70 71 end 6 ok\n1 70 70 begin 10 writeprotect 8:5 0x10000 0x2000 0x0\n1 70 70 end 10 ok\n",
        Verdict::Certified,
        b"10 calls: 8 with the only answer that the rules allow, 2 that an access explains which the log does not show, 0 for which no run was found, 0 not judged\ncertified: the kernel's answers, which a kernel of the rules may have given; pages known to be missing 0, put twice 0, of which nothing is known 0\npage faults that waited until a call woke their thread: 2, the longest 0.0 us, read at line 19, woken at line 29\n",
    ),
    // The protection has ended before the second page's is taken away: a thread has found it before.
    (
        PROTECTS,
        b"1 70 70 begin 5 copy 8:5 0x10000 0x7000 0x2000 0x0\n1 70 70 end 5 ok 8192\n1 70 71 begin 6 writeprotect 8:5 0x10000 0x2000 0x1\n1 70 70 begin 7 read 8:5 32\n1 70 70 message 7 fault 0x10000 3 0\n1 70 70 end 7 ok 1\n1 70 71 end 6 ok\n1 70 70 begin 8 writeprotect 8:5 0x11000 0x1000 0x0\n1 70 70 end 8 ok\n1 70 70 begin 9 read 8:5 32\n1 70 70 message 9 fault 0x11000 3 0\n1 70 70 end 9 ok 1\n1 70 70 begin 10 writeprotect 8:5 0x10000 0x2000 0x0\n1 70 70 end 10 ok\n",
        Verdict::Certified,
        b"10 calls: 7 with the only answer that the rules allow, 3 that an access explains which the log does not show, 0 for which no run was found, 0 not judged\ncertified: the kernel's answers, which a kernel of the rules may have given; pages known to be missing 0, put twice 0, of which nothing is known 0\npage faults that waited until a call woke their thread: 1, the longest 0.0 us, read at line 19, woken at line 29\n",
    ),
    // The second page is not among those which are being protected.
    (
        PROTECTS,
        b"1 70 73 begin 5 register 8:5 0x12000 0x1000 0x3\n1 70 73 end 5 ok 0x17c\n1 70 70 begin 5 copy 8:5 0x10000 0x7000 0x3000 0x0\n1 70 70 end 5 ok 12288\n1 70 71 begin 6 writeprotect 8:5 0x10000 0x2000 0x1\n1 70 70 begin 7 read 8:5 32\n1 70 70 message 7 fault 0x10000 3 0\n1 70 70 end 7 ok 1\n1 70 70 begin 8 writeprotect 8:5 0x12000 0x1000 0x0\n1 70 70 end 8 ok\n1 70 70 begin 9 read 8:5 32\n1 70 70 message 9 fault 0x12000 3 0\n1 70 70 end 9 ok 1\n1 70 71 end 6 ok\n1 70 70 begin 10 writeprotect 8:5 0x10000 0x2000 0x0\n1 70 70 end 10 ok\n",
        Verdict::Unexplained,
        b"log:26: unexplained: object 8: no run was found that gives this answer: read, thread 70 of process 70, until 1 at line 28: no thread has queued a fault [unexplained-answer]\n11 calls: 8 with the only answer that the rules allow, 2 that an access explains which the log does not show, 1 for which no run was found, 0 not judged\nnot certified: no run was found\npage faults that waited until a call woke their thread: 1, the longest 0.0 us, read at line 21, woken at line 31\n",
    ),
    // It is the first page once more, which is protected once: another thread has found it so too.
    (
        PROTECTS,
        b"1 70 70 begin 5 copy 8:5 0x10000 0x7000 0x2000 0x0\n1 70 70 end 5 ok 8192\n1 70 71 begin 6 writeprotect 8:5 0x10000 0x2000 0x1\n1 70 70 begin 7 read 8:5 32\n1 70 70 message 7 fault 0x10000 3 0\n1 70 70 end 7 ok 1\n1 70 70 begin 8 writeprotect 8:5 0x10000 0x1000 0x0\n1 70 70 end 8 ok\n1 70 70 begin 9 read 8:5 32\n1 70 70 message 9 fault 0x10000 3 0\n1 70 70 end 9 ok 1\n1 70 71 end 6 ok\n1 70 70 begin 10 writeprotect 8:5 0x10000 0x2000 0x0\n1 70 70 end 10 ok\n",
        Verdict::Certified,
        b"10 calls: 7 with the only answer that the rules allow, 3 that an access explains which the log does not show, 0 for which no run was found, 0 not judged\ncertified: the kernel's answers, which a kernel of the rules may have given; pages known to be missing 0, put twice 0, of which nothing is known 0\npage faults that waited until a call woke their thread: 1, the longest 0.0 us, read at line 19, woken at line 23\n",
    ),
    // The same where only that page is being protected.
    (
        PROTECTS,
        b"1 70 70 begin 5 copy 8:5 0x10000 0x7000 0x2000 0x0\n1 70 70 end 5 ok 8192\n1 70 71 begin 6 writeprotect 8:5 0x10000 0x1000 0x1\n1 70 70 begin 7 read 8:5 32\n1 70 70 message 7 fault 0x10000 3 0\n1 70 70 end 7 ok 1\n1 70 70 begin 8 writeprotect 8:5 0x10000 0x1000 0x0\n1 70 70 end 8 ok\n1 70 70 begin 9 read 8:5 32\n1 70 70 message 9 fault 0x10000 3 0\n1 70 70 end 9 ok 1\n1 70 71 end 6 ok\n1 70 70 begin 10 writeprotect 8:5 0x10000 0x2000 0x0\n1 70 70 end 10 ok\n",
        Verdict::Certified,
        b"10 calls: 7 with the only answer that the rules allow, 3 that an access explains which the log does not show, 0 for which no run was found, 0 not judged\ncertified: the kernel's answers, which a kernel of the rules may have given; pages known to be missing 0, put twice 0, of which nothing is known 0\npage faults that waited until a call woke their thread: 1, the longest 0.0 us, read at line 19, woken at line 23\n",
    ),
    // It faults once.
    (
        PROTECTS,
        b"1 70 70 begin 5 copy 8:5 0x10000 0x7000 0x2000 0x0\n1 70 70 end 5 ok 8192\n1 70 71 begin 6 writeprotect 8:5 0x10000 0x1000 0x1\n1 70 70 begin 7 read 8:5 32\n1 70 70 message 7 fault 0x10000 3 0\n1 70 70 end 7 ok 1\n1 70 70 begin 8 writeprotect 8:5 0x10000 0x1000 0x0\n1 70 70 end 8 ok\n1 70 71 end 6 ok\n",
        Verdict::Certified,
        b"8 calls: 7 with the only answer that the rules allow, 1 that an access explains which the log does not show, 0 for which no run was found, 0 not judged\ncertified: the kernel's answers, which a kernel of the rules may have given; pages known to be missing 0, put twice 0, of which nothing is known 0\npage faults that waited until a call woke their thread: 1, the longest 0.0 us, read at line 19, woken at line 23\n",
    ),
    // Two protections of two pages at a time: each protects the page that faults, in turn.
    (
        PROTECTS,
        b"1 70 70 begin 5 copy 8:5 0x10000 0x7000 0x2000 0x0\n1 70 70 end 5 ok 8192\n1 70 71 begin 6 writeprotect 8:5 0x10000 0x2000 0x1\n1 70 72 begin 11 writeprotect 8:5 0x10000 0x2000 0x1\n1 70 70 begin 7 read 8:5 32\n1 70 70 message 7 fault 0x10000 3 0\n1 70 70 end 7 ok 1\n1 70 70 begin 8 writeprotect 8:5 0x10000 0x1000 0x0\n1 70 70 end 8 ok\n1 70 70 begin 9 read 8:5 32\n1 70 70 message 9 fault 0x10000 3 0\n1 70 70 end 9 ok 1\n1 70 71 end 6 ok\n1 70 72 end 11 ok\n1 70 70 begin 10 writeprotect 8:5 0x10000 0x2000 0x0\n1 70 70 end 10 ok\n",
        Verdict::Certified,
        b"11 calls: 9 with the only answer that the rules allow, 2 that an access explains which the log does not show, 0 for which no run was found, 0 not judged\ncertified: the kernel's answers, which a kernel of the rules may have given; pages known to be missing 0, put twice 0, of which nothing is known 0\npage faults that waited until a call woke their thread: 2, the longest 0.0 us, read at line 20, woken at line 24\n",
    ),
    // The protection that began last ends before the second fault.
    (
        PROTECTS,
        b"1 70 70 begin 5 copy 8:5 0x10000 0x7000 0x2000 0x0\n1 70 70 end 5 ok 8192\n1 70 71 begin 6 writeprotect 8:5 0x10000 0x2000 0x1\n1 70 72 begin 11 writeprotect 8:5 0x10000 0x2000 0x1\n1 70 70 begin 7 read 8:5 32\n1 70 70 message 7 fault 0x10000 3 0\n1 70 70 end 7 ok 1\n1 70 72 end 11 ok\n1 70 70 begin 8 writeprotect 8:5 0x10000 0x1000 0x0\n1 70 70 end 8 ok\n1 70 70 begin 9 read 8:5 32\n1 70 70 message 9 fault 0x10000 3 0\n1 70 70 end 9 ok 1\n1 70 71 end 6 ok\n1 70 70 begin 10 writeprotect 8:5 0x10000 0x2000 0x0\n1 70 70 end 10 ok\n",
        Verdict::Certified,
        b"11 calls: 9 with the only answer that the rules allow, 2 that an access explains which the log does not show, 0 for which no run was found, 0 not judged\ncertified: the kernel's answers, which a kernel of the rules may have given; pages known to be missing 0, put twice 0, of which nothing is known 0\npage faults that waited until a call woke their thread: 2, the longest 0.0 us, read at line 20, woken at line 25\n",
    ),
    // A page is put while it is being protected with another, and faults before the copy ends.
    (
        PROTECTS,
        b"1 70 71 begin 5 copy 8:5 0x10000 0x7000 0x1000 0x0\n1 70 72 begin 6 writeprotect 8:5 0x10000 0x2000 0x1\n1 70 70 begin 7 read 8:5 32\n1 70 70 message 7 fault 0x10000 3 0\n1 70 70 end 7 ok 1\n1 70 71 end 5 ok 4096\n1 70 72 end 6 ok\n1 70 70 begin 8 writeprotect 8:5 0x10000 0x1000 0x0\n1 70 70 end 8 ok\n1 70 70 begin 9 copy 8:5 0x11000 0x7000 0x1000 0x0\n1 70 70 end 9 ok 4096\n",
        Verdict::Certified,
        b"9 calls: 8 with the only answer that the rules allow, 1 that an access explains which the log does not show, 0 for which no run was found, 0 not judged\ncertified: the kernel's answers, which a kernel of the rules may have given; pages known to be missing 0, put twice 0, of which nothing is known 0\npage faults that waited until a call woke their thread: 1, the longest 0.0 us, read at line 18, woken at line 24\n",
    ),
    // Two unprotections of a page, one of which ends after the protection has reached it: a second thread faults there after that.
    (
        PROTECTS,
        b"1 70 70 begin 5 copy 8:5 0x10000 0x7000 0x2000 0x2\n1 70 70 end 5 ok 8192\n1 70 70 begin 6 writeprotect 8:5 0x10000 0x1000 0x0\n1 70 71 begin 7 writeprotect 8:5 0x10000 0x1000 0x0\n1 70 70 end 6 ok\n1 70 72 begin 8 writeprotect 8:5 0x10000 0x2000 0x1\n1 70 70 begin 9 read 8:5 32\n1 70 70 message 9 fault 0x10000 3 0\n1 70 70 end 9 ok 1\n1 70 71 end 7 ok\n1 70 70 begin 10 read 8:5 32\n1 70 70 message 10 fault 0x10000 3 0\n1 70 70 end 10 ok 1\n1 70 72 end 8 ok\n1 70 70 begin 11 writeprotect 8:5 0x10000 0x2000 0x0\n1 70 70 end 11 ok\n",
        Verdict::Certified,
        b"11 calls: 9 with the only answer that the rules allow, 2 that an access explains which the log does not show, 0 for which no run was found, 0 not judged\ncertified: the kernel's answers, which a kernel of the rules may have given; pages known to be missing 0, put twice 0, of which nothing is known 0\npage faults that waited until a call woke their thread: 2, the longest 0.0 us, read at line 22, woken at line 31\n",
    ),
    // A protection that a fault shows to be under way has changed all its pages before one of them is moved.
    (
        MOVES,
        b"1 70 70 begin 5 copy 8:5 0x10000 0x7000 0x2000 0x0\n1 70 70 end 5 ok 8192\n1 70 71 begin 6 writeprotect 8:5 0x10000 0x2000 0x1\n1 70 70 begin 7 read 8:5 32\n1 70 70 message 7 fault 0x10000 3 0\n1 70 70 end 7 ok 1\n1 70 72 begin 8 mremap 0x11000 0x1000 0x1000 0x3 0x20000\n1 70 70 begin 9 read 8:5 32\n1 70 70 message 9 remap 0x11000 0x20000 0x1000\n1 70 70 end 9 ok 1\n1 70 72 end 8 ok 0x20000\n1 70 71 end 6 ok\n1 70 70 begin 10 read 8:5 32\n1 70 70 message 10 fault 0x20000 3 0\n1 70 70 end 10 ok 1\n1 70 70 begin 11 writeprotect 8:5 0x10000 0x1000 0x0\n1 70 70 end 11 ok\n1 70 70 begin 12 writeprotect 8:5 0x20000 0x1000 0x0\n1 70 70 end 12 ok\n",
        Verdict::Certified,
        b"12 calls: 9 with the only answer that the rules allow, 3 that an access explains which the log does not show, 0 for which no run was found, 0 not judged\ncertified: the kernel's answers, which a kernel of the rules may have given; pages known to be missing 0, put twice 0, of which nothing is known 0\npage faults that waited until a call woke their thread: 2, the longest 0.0 us, read at line 19, woken at line 32\n",
    ),
    // A read that begins before a wake of a page, and returns a fault of it that the protection after the wake has brought about.
    (
        PROTECTS,
        b"1 70 70 begin 5 copy 8:5 0x10000 0x7000 0x2000 0x0\n1 70 70 end 5 ok 8192\n1 70 71 begin 6 read 8:5 32\n1 70 70 begin 7 wake 8:5 0x10000 0x1000\n1 70 70 end 7 ok\n1 70 70 begin 8 writeprotect 8:5 0x10000 0x1000 0x1\n1 70 70 end 8 ok\n1 70 71 message 6 fault 0x10000 3 0\n1 70 71 end 6 ok 1\n1 70 70 begin 9 writeprotect 8:5 0x10000 0x1000 0x0\n1 70 70 end 9 ok\n",
        Verdict::Certified,
        b"9 calls: 8 with the only answer that the rules allow, 1 that an access explains which the log does not show, 0 for which no run was found, 0 not judged\ncertified: the kernel's answers, which a kernel of the rules may have given; pages known to be missing 0, put twice 0, of which nothing is known 0\npage faults that waited until a call woke their thread: 1, the longest 0.0 us, read at line 18, woken at line 26\n",
    ),
];

#[test]
fn searches(rt: HostRuntime) -> Result<(), Fail> {
    for (front, lines, verdict, written) in &LOGS {
        play_whole(&rt, rt.alloc(), front, lines, *verdict, written)?;
    }
    Ok(())
}

#[test]
fn protections(rt: HostRuntime) -> Result<(), Fail> {
    for (front, lines, verdict, written) in &PROTECTIONS {
        play_whole(&rt, rt.alloc(), front, lines, *verdict, written)?;
    }
    Ok(())
}

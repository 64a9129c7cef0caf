//! Runs of logs: what `certify` finds of a log and a run, and of the same with a line or a step changed.

use kernel_rules::certify::certify;
use kernel_rules::{Ending, Entry, Made, Move, Run};
use mig_base::NoMemory;
use std::alloc::Global;
use std::mem;
use std::test::Fail;
use uffd_log::parse::parse;
use uffd_log::{Line, Message};

/// What a run has at its end: how many differences, pages that are owed, calls that stopped at a page that the log has put, and reads that
/// nobody answered.
type Found = (usize, usize, usize, usize);

/// A line or a step in place of another, by its number.
type Changed<T> = Option<(usize, T)>;

/// A handler that puts a page twice, and leaves another one out.
static TWICE: [&'static [u8]; 19] = [
    b"1100 70 70 begin 1 open syscall 0x80800",
    b"1200 70 70 end 1 ok 8:5",
    b"1300 70 70 begin 2 api 8:5 0xaa 0x100",
    b"1400 70 70 end 2 ok 0x1ffff 0x8000000000000003",
    b"1500 70 70 begin 3 register 8:5 0x7f0000000000 0x2000 0x1",
    b"1600 70 70 end 3 ok 0x13c",
    b"1700 70 70 begin 4 scan 8:5 0x7f0000000000 0x2000",
    b"1900 70 70 end 4 ok 0",
    b"2000 70 71 begin 5 read 8:5 32",
    b"2100 70 71 message 5 fault 0x7f0000000000 1 72",
    b"2200 70 71 end 5 ok 1",
    b"2300 70 71 begin 6 copy 8:5 0x7f0000000000 0x1000 0x1000 0x0",
    b"2400 70 70 begin 7 copy 8:5 0x7f0000000000 0x1000 0x1000 0x0",
    b"2500 70 70 end 7 EEXIST",
    b"2600 70 71 end 6 ok 4096",
    b"2700 70 70 begin 8 unregister 8:5 0x7f0000000000 0x2000",
    b"2800 70 70 end 8 ok",
    b"2900 70 70 begin 9 close 8:5",
    b"3000 70 70 end 9 ok",
];

/// The run of `TWICE`: the thread faults while the read waits, and the copy of line 11 takes effect first.
static TWICE_RUN: [Move; 29] = [
    Move::Line,
    Move::Effect { key: 1, at: 1 },
    Move::Line,
    Move::Line,
    Move::Effect { key: 2, at: 3 },
    Move::Line,
    Move::Line,
    Move::Effect { key: 3, at: 5 },
    Move::Line,
    Move::Line,
    Move::Effect { key: 4, at: 7 },
    Move::Line,
    Move::Line,
    Move::Sees {
        thread: 72,
        object: 8,
        page: 0x7f0000000,
        flags: 1,
    },
    Move::Queues { thread: 72 },
    Move::Effect { key: 5, at: 9 },
    Move::Line,
    Move::Line,
    Move::Line,
    Move::Effect { key: 6, at: 13 },
    Move::Effect { key: 7, at: 12 },
    Move::Line,
    Move::Line,
    Move::Line,
    Move::Effect { key: 8, at: 15 },
    Move::Line,
    Move::Line,
    Move::Effect { key: 9, at: 17 },
    Move::Line,
];

/// The first lines of a run of stress-ng on Linux 6.18 (audit/logs/stress-ng.log.gz), once its third object is open: it has polled and read
/// the first two faults, put their pages, and is about to poll again.
static STRESS: [&'static [u8]; 30] = [
    b"5525008401595 11607 11607 begin 8 open syscall 0x0",
    b"5525008414107 11607 11607 end 8 ok 818919:3",
    b"5525008423718 11607 11607 begin 9 nonblock 818919:3 1",
    b"5525008429340 11607 11607 end 9 ok",
    b"5525008443836 11607 11607 begin 10 api 818919:3 0xaa 0x0",
    b"5525008453578 11607 11607 end 10 ok 0x1ffff 0x8000000000000003",
    b"5525008463832 11607 11607 begin 11 register 818919:3 0x7f7ddb5b6000 0x100000 0x1",
    b"5525008473437 11607 11607 end 11 ok 0x13c",
    b"5525008504600 11607 11607 begin 12 scan 818919:3 0x7f7ddb5b6000 0x100000",
    b"5525008596424 11607 11607 end 12 ok 0",
    b"5525008690399 11607 11607 begin 13 poll 818919:3",
    b"5525008695156 11608 11608 begin 14 madvise 0x7f7ddb5b6000 0x100000 0x4",
    b"5525008707352 11608 11608 end 14 ok",
    b"5525008730527 11607 11607 end 13 ok 0x1",
    b"5525008740339 11607 11607 begin 15 read 818919:3 32",
    b"5525008747016 11607 11607 message 15 fault 0x7f7ddb5b6000 1 0",
    b"5525008751831 11607 11607 end 15 ok 1",
    b"5525008773447 11607 11607 begin 16 zeropage 818919:3 0x7f7ddb5b6000 0x1000 0x0",
    b"5525008798438 11607 11607 end 16 ok 4096",
    b"5525008811257 11607 11607 begin 17 wake 818919:3 0x7f7ddb5b6000 0x1000",
    b"5525008819635 11607 11607 end 17 ok",
    b"5525008830108 11607 11607 begin 18 poll 818919:3",
    b"5525008836724 11607 11607 end 18 ok 0x1",
    b"5525008844612 11607 11607 begin 19 read 818919:3 32",
    b"5525008850359 11607 11607 message 19 fault 0x7f7ddb5b7000 1 0",
    b"5525008855077 11607 11607 end 19 ok 1",
    b"5525008865171 11607 11607 begin 20 copy 818919:3 0x7f7ddb5b7000 0x55d65eb0a000 0x1000 0x0",
    b"5525008883944 11607 11607 end 20 ok 4096",
    b"5525008894634 11607 11607 begin 21 wake 818919:3 0x7f7ddb5b6000 0x1000",
    b"5525008902710 11607 11607 end 21 ok",
];

/// A run of `STRESS`. The object names no threads, so these have numbers of their own.
static STRESS_RUN: [Move; 46] = [
    Move::Line,
    Move::Effect { key: 8, at: 1 },
    Move::Line,
    Move::Line,
    Move::Effect { key: 9, at: 3 },
    Move::Line,
    Move::Line,
    Move::Effect { key: 10, at: 5 },
    Move::Line,
    Move::Line,
    Move::Effect { key: 11, at: 7 },
    Move::Line,
    Move::Line,
    Move::Effect { key: 12, at: 9 },
    Move::Line,
    Move::Line,
    Move::Line,
    Move::Effect { key: 14, at: 12 },
    Move::Line,
    Move::Sees {
        thread: 0x8000_0000,
        object: 818919,
        page: 0x7f7ddb5b6,
        flags: 1,
    },
    Move::Queues {
        thread: 0x8000_0000,
    },
    Move::Effect { key: 13, at: 13 },
    Move::Line,
    Move::Line,
    Move::Effect { key: 15, at: 15 },
    Move::Line,
    Move::Line,
    Move::Effect { key: 16, at: 17 },
    Move::Line,
    Move::Line,
    Move::Effect { key: 17, at: 19 },
    Move::Line,
    Move::Line,
    Move::Sees {
        thread: 0x8000_0001,
        object: 818919,
        page: 0x7f7ddb5b7,
        flags: 1,
    },
    Move::Queues {
        thread: 0x8000_0001,
    },
    Move::Effect { key: 18, at: 21 },
    Move::Line,
    Move::Line,
    Move::Effect { key: 19, at: 23 },
    Move::Line,
    Move::Line,
    Move::Effect { key: 20, at: 25 },
    Move::Line,
    Move::Line,
    Move::Effect { key: 21, at: 27 },
    Move::Line,
];

/// A MADV_FREE over two ranges, and a read that takes the REMOVE of each.
static FREED: [&'static [u8]; 16] = [
    b"1100 70 70 begin 1 open syscall 0x80800",
    b"1200 70 70 end 1 ok 8:5",
    b"1300 70 70 begin 2 api 8:5 0xaa 0x4c",
    b"1400 70 70 end 2 ok 0x1ffff 0x8000000000000003",
    b"1500 70 70 begin 3 register 8:5 0x7f0000000000 0x1000 0x1",
    b"1600 70 70 end 3 ok 0x13c",
    b"1700 70 70 begin 4 register 8:5 0x7f0000002000 0x1000 0x1",
    b"1800 70 70 end 4 ok 0x13c",
    b"1900 70 70 begin 5 madvise 0x7f0000000000 0x3000 8",
    b"2000 70 71 begin 6 read 8:5 64",
    b"2100 70 71 message 6 remove 0x7f0000000000 0x7f0000001000",
    b"2200 70 71 message 6 remove 0x7f0000002000 0x7f0000003000",
    b"2300 70 71 end 6 ok 2",
    b"2400 70 70 end 5 ok",
    b"2500 70 70 begin 7 zeropage 8:5 0x7f0000000000 0x1000 0x0",
    b"2600 70 70 end 7 ok 4096",
];

/// The run of `FREED`: the second REMOVE is queued once the read has taken the first.
static FREED_RUN: [Move; 26] = [
    Move::Line,
    Move::Effect { key: 1, at: 1 },
    Move::Line,
    Move::Line,
    Move::Effect { key: 2, at: 3 },
    Move::Line,
    Move::Line,
    Move::Effect { key: 3, at: 5 },
    Move::Line,
    Move::Line,
    Move::Effect { key: 4, at: 7 },
    Move::Line,
    Move::Line,
    Move::Line,
    Move::Effect { key: 5, at: 11 },
    Move::Tells { key: 5 },
    Move::Starts { key: 6, at: 10 },
    Move::Reads { key: 6, at: 10 },
    Move::Tells { key: 5 },
    Move::Reads { key: 6, at: 10 },
    Move::Line,
    Move::Clears { key: 5 },
    Move::Line,
    Move::Line,
    Move::Effect { key: 7, at: 13 },
    Move::Line,
];

/// A change of a line of a log, one of a step of its run, and what is found then.
type Case = (Changed<&'static [u8]>, Changed<Move>, Option<Found>);

static CASES: [Case; 18] = [
    // one difference, a page that was never put, and a copy of a page that is there
    (None, None, Some((1, 1, 1, 0))),
    // with the three events nothing differs
    (
        Some((2, b"1300 70 70 begin 2 api 8:5 0xaa 0x14c")),
        None,
        Some((0, 1, 1, 0)),
    ),
    // what is unmapped is not owed
    (
        Some((15, b"2700 70 70 begin 8 munmap 0x7f0000000000 0x2000")),
        None,
        Some((1, 0, 1, 0)),
    ),
    // what is cleared is missing again, and the object is closed with its pages
    (
        Some((15, b"2700 70 70 begin 8 madvise 0x7f0000000000 0x2000 4")),
        None,
        Some((2, 2, 1, 0)),
    ),
    // a call that a signal ended has no effect
    (Some((16, b"2800 70 70 end 8 interrupted")), None, None),
    // EEXIST of a page that is missing
    (Some((14, b"2600 70 71 end 6 EEXIST")), None, None),
    // more bytes than were asked for
    (Some((14, b"2600 70 71 end 6 ok 8192")), None, None),
    // a message of another page
    (
        Some((9, b"2100 70 71 message 5 fault 0x7f0000001000 1 72")),
        None,
        None,
    ),
    // a thread reads its own page fault
    (Some((8, b"2000 70 72 begin 5 read 8:5 32")), None, None),
    // the memory of the process that makes the call is gone
    (Some((13, b"2500 70 70 end 7 ESRCH")), None, None),
    // a feature that is not offered
    (Some((3, b"1400 70 70 end 2 ok 0xff 0x0")), None, None),
    // UFFD_FEATURE_EVENT_FORK, which the model does not have
    (
        Some((2, b"1300 70 70 begin 2 api 8:5 0xaa 0x102")),
        None,
        Some((2, 1, 1, 0)),
    ),
    // mremap that returns no address
    (
        Some((15, b"2700 70 70 begin 8 mremap 0x10000 4096 4096 0x0 0x0")),
        None,
        None,
    ),
    // EAGAIN, and no map call is under way
    (Some((13, b"2500 70 70 end 7 EAGAIN")), None, None),
    // a call ends before it takes effect
    (None, Some((19, Move::Leaves { thread: 72 })), None),
    // the second copy takes effect first
    (None, Some((19, Move::Effect { key: 7, at: 12 })), None),
    // a call takes effect with the answer of another
    (None, Some((20, Move::Effect { key: 7, at: 15 })), None),
    // a thread faults on a page that is not registered
    (
        None,
        Some((
            13,
            Move::Sees {
                thread: 72,
                object: 8,
                page: 0x7f0000002,
                flags: 1,
            },
        )),
        None,
    ),
];

/// Cases of `FREED`.
static FREED_CASES: [Case; 9] = [
    // two REMOVEs in place of one, and pages that may be taken back are not owed
    (None, None, Some((2, 0, 0, 0))),
    // one that is cleared is, and the other is put
    (
        Some((8, b"1900 70 70 begin 5 madvise 0x7f0000000000 0x3000 4")),
        None,
        Some((2, 1, 0, 0)),
    ),
    // nobody asked for REMOVE
    (
        Some((2, b"1300 70 70 begin 2 api 8:5 0xaa 0x44")),
        None,
        None,
    ),
    // the room of one message
    (Some((9, b"2000 70 71 begin 6 read 8:5 32")), None, None),
    // one message fewer than were read
    (Some((12, b"2300 70 71 end 6 ok 1")), None, None),
    // the read takes both at one time
    (None, Some((16, Move::Effect { key: 6, at: 10 })), None),
    // it takes the message of another call
    (None, Some((17, Move::Reads { key: 6, at: 11 })), None),
    // it ends before its last message
    (None, Some((18, Move::Line)), None),
    // the call returns before its pages may be taken back
    (
        None,
        Some((
            21,
            Move::Drops {
                object: 8,
                page: 0x7f0000000,
            },
        )),
        None,
    ),
];

/// Adds a value to a list.
fn add<T: Drop>(list: &mut Vec<T>, value: T) -> Result<(), NoMemory> {
    match list.push(value) {
        Ok(()) => Ok(()),
        Err(_) => Err(NoMemory),
    }
}

/// The entries of a log in which calls that read messages or pages do not overlap. All calls are of one space, and the last descriptor of
/// the object is closed.
fn entries(alloc: Global, texts: &[&'static [u8]]) -> Result<Vec<Entry>, NoMemory> {
    let (mut log, mut tokens) = (Vec::new(alloc), Vec::new(alloc));
    let (mut messages, mut runs): (Vec<Message>, Vec<Run>) = (Vec::new(alloc), Vec::new(alloc));
    for text in texts {
        match parse(&mut tokens, text)? {
            Some(
                Line::Begin {
                    stamp,
                    number,
                    call,
                },
            ) => add(
                &mut log,
                Entry::Begins(Made {
                    key: u32::try_from(number).unwrap_or(0),
                    space: 1,
                    thread: stamp.tid,
                    program: 1,
                    call,
                    last: true,
                }),
            )?,
            Some(Line::Read { message, .. }) => add(&mut messages, message)?,
            Some(
                Line::Have {
                    start,
                    len,
                    bits,
                    ..
                },
            ) => add(&mut runs, Run { start, len, bits })?,
            Some(Line::End { number, answer, .. }) => add(
                &mut log,
                Entry::Ends {
                    key: u32::try_from(number).unwrap_or(0),
                    ending: Ending {
                        answer,
                        messages: mem::replace(&mut messages, Vec::new(alloc)),
                        runs: mem::replace(&mut runs, Vec::new(alloc)),
                    },
                },
            )?,
            _ => (),
        }
    }
    Ok(log)
}

/// The list with one item in place of another.
fn changed<T: Copy + Drop>(
    alloc: Global,
    items: &[T],
    change: Changed<T>,
) -> Result<Vec<T>, NoMemory> {
    let Ok(mut list) = Vec::from_slice(alloc, items) else {
        return Err(NoMemory);
    };
    if let Some((at, other)) = change {
        if at < list.len() {
            list[at] = other;
        }
    }
    Ok(list)
}

/// What is found of a log and a run.
fn found(alloc: Global, texts: &[&'static [u8]], run: &[Move]) -> Result<Option<Found>, NoMemory> {
    let log = entries(alloc, texts)?;
    let Some(mut table) = certify(alloc, &log, run)? else {
        return Ok(None);
    };
    table.finish()?;
    Ok(Some((
        table.differs.len(),
        table.owed.len(),
        table.twice.len(),
        table.unanswered.len(),
    )))
}

/// What is found of a case of a log and its run.
fn found_of(
    alloc: Global,
    texts: &[&'static [u8]],
    run: &[Move],
    case: Case,
) -> Result<Option<Found>, NoMemory> {
    let texts = changed(alloc, texts, case.0)?;
    let run = changed(alloc, run, case.1)?;
    found(alloc, &texts, &run)
}

#[test]
fn runs_of_logs(rt: HostRuntime) -> Result<(), Fail> {
    for (i, case) in CASES.iter().enumerate() {
        let mut is = found_of(rt.alloc(), &TWICE, &TWICE_RUN, *case);
        if is.is_err() {
            is = found_of(rt.alloc(), &TWICE, &TWICE_RUN, *case);
        }
        assert_eq!(&rt; is, Ok(case.2), "case {i}");
    }
    Ok(())
}

#[test]
fn a_read_in_turn(rt: HostRuntime) -> Result<(), Fail> {
    for (i, case) in FREED_CASES.iter().enumerate() {
        let mut is = found_of(rt.alloc(), &FREED, &FREED_RUN, *case);
        if is.is_err() {
            is = found_of(rt.alloc(), &FREED, &FREED_RUN, *case);
        }
        assert_eq!(&rt; is, Ok(case.2), "case {i}");
    }
    Ok(())
}

#[test]
fn a_run_of_stress_ng(rt: HostRuntime) -> Result<(), Fail> {
    let mut is = found(rt.alloc(), &STRESS, &STRESS_RUN);
    if is.is_err() {
        is = found(rt.alloc(), &STRESS, &STRESS_RUN);
    }
    assert_eq!(&rt; is, Ok(Some((1, 254, 0, 0))));
    Ok(())
}

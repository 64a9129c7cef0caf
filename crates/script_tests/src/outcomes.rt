//! What is printed for outcomes, and for progress.

use Effect::{
    Answered, Asked, Asleep, Dropped, Forgot, InCall, Installed, Moved, Noticed, ReadEvent,
    ReadFault, ReadLast, Requested, Resumed, RoundMade, SentPage, SentRun, SentZero, Started,
    Switched, TookDiscard, TookPackage, TookPage, TookRecv, TookRequest, TookRun, TookZero,
    Unprotected, Woke, Zeroed,
};
use Message::{Remap, Remove, Unmap};
use grammar::{Progress, print_line, print_progress};
use mig_base::effect::Effect;
use mig_base::phase::Received;
use mig_base::refusal::Refusal;
use mig_base::schedule::Side;
use mig_base::{Errno, Message, Reply, WorldPhase};
use std::alloc::{AllocError, Global};
use std::process::Abort;
use std::test::Fail;

static OUTCOMES: [(Result<Effect, Refusal>, &'static [u8]); 67] = [
    (
        Ok(Answered {
            cpu: 0,
            reply: Reply::Value(0xdead),
        }),
        b"cpu 0 value 0xdead\n",
    ),
    (
        Ok(Answered {
            cpu: 255,
            reply: Reply::Done,
        }),
        b"cpu 255 done\n",
    ),
    (
        Ok(Answered {
            cpu: 1,
            reply: Reply::At(0x1_0000),
        }),
        b"cpu 1 at 0x10000\n",
    ),
    (
        Ok(Answered {
            cpu: 1,
            reply: Reply::Segv { mapped: false },
        }),
        b"cpu 1 segv unmapped\n",
    ),
    (
        Ok(Answered {
            cpu: 1,
            reply: Reply::Segv { mapped: true },
        }),
        b"cpu 1 segv protected\n",
    ),
    (
        Ok(Answered {
            cpu: 1,
            reply: Reply::BadAccess,
        }),
        b"cpu 1 bad access\n",
    ),
    (
        Ok(Answered {
            cpu: 1,
            reply: Reply::Refused(Errno::Eexist),
        }),
        b"cpu 1 refused EEXIST\n",
    ),
    (Ok(Asleep { cpu: 3 }), b"cpu 3 asleep\n"),
    (
        Ok(InCall {
            cpu: 3,
            messages: 2,
        }),
        b"cpu 3 in call 2\n",
    ),
    (
        Ok(Started { epoch: u32::MAX }),
        b"started epoch 4294967295\n",
    ),
    (
        Ok(RoundMade {
            round: 1,
            todo: 262_144,
        }),
        b"round 1 todo 262144\n",
    ),
    (Ok(SentPage { addr: 0x1_0000 }), b"sent page 0x10000\n"),
    (
        Ok(SentZero { addr: 0xffff_f000 }),
        b"sent zero 0xfffff000\n",
    ),
    (
        Ok(SentRun {
            addr: 0x1_0000,
            pages: 64,
        }),
        b"sent run 0x10000 64\n",
    ),
    (
        Ok(ReadFault {
            addr: 0x1_1000,
            wp: false,
        }),
        b"read fault 0x11000 missing\n",
    ),
    (
        Ok(ReadFault {
            addr: 0x1_1000,
            wp: true,
        }),
        b"read fault 0x11000 write-protect\n",
    ),
    (
        Ok(ReadEvent {
            event: Remove {
                start: 0x1_0000,
                end: 0x1_1000,
            },
        }),
        b"read remove 0x10000 0x11000\n",
    ),
    (
        Ok(ReadEvent {
            event: Unmap {
                start: 0x1_0000,
                end: 0x1_1000,
            },
        }),
        b"read unmap 0x10000 0x11000\n",
    ),
    (
        Ok(ReadEvent {
            event: Remap {
                from: 0x1_0000,
                to: 0x2_0000,
                len: 8192,
            },
        }),
        b"read remap 0x10000 0x20000 8192\n",
    ),
    (
        Ok(ReadLast {
            event: Remove {
                start: 0x1_0000,
                end: 0x1_1000,
            },
            cpu: 0,
            reply: Reply::Done,
        }),
        b"read remove 0x10000 0x11000, cpu 0 done\n",
    ),
    (
        Ok(ReadLast {
            event: Unmap {
                start: 0x1_0000,
                end: 0x1_1000,
            },
            cpu: 2,
            reply: Reply::At(0x1_0000),
        }),
        b"read unmap 0x10000 0x11000, cpu 2 at 0x10000\n",
    ),
    (
        Ok(ReadLast {
            event: Remap {
                from: 0x1_0000,
                to: 0x2_0000,
                len: 4096,
            },
            cpu: 2,
            reply: Reply::Refused(Errno::Enomem),
        }),
        b"read remap 0x10000 0x20000 4096, cpu 2 refused ENOMEM\n",
    ),
    (Ok(Unprotected { addr: 0x1_0000 }), b"unprotected 0x10000\n"),
    (Ok(Zeroed { addr: 0x1_0000 }), b"zeroed 0x10000\n"),
    (Ok(Woke { addr: 0x1_0000 }), b"woke 0x10000\n"),
    (Ok(Forgot { addr: 0x1_0000 }), b"forgot 0x10000\n"),
    (
        Ok(Requested {
            origin: 0x1_0000,
            addr: 0x2_0000,
        }),
        b"requested 0x10000 for 0x20000\n",
    ),
    (
        Ok(Switched {
            discard: 1,
            owed: 2,
        }),
        b"switched discard 1 owed 2\n",
    ),
    (
        Ok(Moved { bytes: u64::MAX }),
        b"moved 18446744073709551615\n",
    ),
    (Ok(Effect::TookAdvise), b"took advise\n"),
    (Ok(TookPage { addr: 0x1_0000 }), b"took page 0x10000\n"),
    (Ok(TookZero { addr: 0x1_0000 }), b"took zero 0x10000\n"),
    (
        Ok(TookRun {
            addr: 0x1_0000,
            pages: 2,
        }),
        b"took run 0x10000 2\n",
    ),
    (Ok(TookDiscard { pages: 3 }), b"took discard 3\n"),
    (Ok(TookPackage { owed: 4 }), b"took package owed 4\n"),
    (Ok(Effect::TookEnd), b"took end\n"),
    (Ok(Effect::TookResume), b"took resume\n"),
    (
        Ok(TookRequest { addr: 0x1_0000 }),
        b"took request 0x10000\n",
    ),
    (
        Ok(TookRecv {
            state: Received::NotRun,
            pages: 0,
        }),
        b"took recv notrun 0\n",
    ),
    (
        Ok(TookRecv {
            state: Received::Running,
            pages: 3,
        }),
        b"took recv running 3\n",
    ),
    (
        Ok(TookRecv {
            state: Received::Ended,
            pages: 0,
        }),
        b"took recv ended 0\n",
    ),
    (Ok(Effect::TookDone), b"took done\n"),
    (
        Ok(Installed {
            addr: 0x2_0000,
            origin: 0x1_0000,
        }),
        b"installed 0x20000 from 0x10000\n",
    ),
    (Ok(Dropped { origin: 0x1_0000 }), b"dropped 0x10000\n"),
    (Ok(Asked { addr: 0x1_0000 }), b"asked 0x10000\n"),
    (Ok(Effect::EndSent), b"end sent\n"),
    (Ok(Effect::Broken), b"broken\n"),
    (Ok(Noticed { side: Side::Source }), b"paused source\n"),
    (
        Ok(Noticed {
            side: Side::Destination,
        }),
        b"paused dest\n",
    ),
    (Ok(Resumed { epoch: 2 }), b"resumed epoch 2\n"),
    (Err(Refusal::NoCpu), b"refused NoCpu\n"),
    (Err(Refusal::Busy), b"refused Busy\n"),
    (Err(Refusal::NotAsleep), b"refused NotAsleep\n"),
    (Err(Refusal::NotWoken), b"refused NotWoken\n"),
    (Err(Refusal::Phase), b"refused Phase\n"),
    (Err(Refusal::Broken), b"refused Broken\n"),
    (Err(Refusal::NotBroken), b"refused NotBroken\n"),
    (Err(Refusal::StaleEpoch), b"refused StaleEpoch\n"),
    (Err(Refusal::NothingThere), b"refused NothingThere\n"),
    (Err(Refusal::Changing), b"refused Changing\n"),
    (Err(Refusal::InstallFirst), b"refused InstallFirst\n"),
    (Err(Refusal::UrgentFirst), b"refused UrgentFirst\n"),
    (Err(Refusal::PageNotSendable), b"refused PageNotSendable\n"),
    (Err(Refusal::NotRemaining), b"refused NotRemaining\n"),
    (Err(Refusal::PagesLeft), b"refused PagesLeft\n"),
    (Err(Refusal::CountUsed), b"refused CountUsed\n"),
    (Err(Refusal::NoMemory), b"refused NoMemory\n"),
];

#[test]
fn lines_of_outcomes(rt: HostRuntime) -> Result<(), Fail> {
    let mut text = String::new(rt.alloc());
    for (i, (outcome, wanted)) in OUTCOMES.iter().enumerate() {
        text.clear();
        if print_line(&mut text, outcome).is_err() {
            assert!(&rt; text.is_empty());
            print_line(&mut text, outcome)?;
        }
        assert_eq!(&rt; text.as_bytes(), *wanted, "outcome {i}");
    }
    Ok(())
}

/// A text with room for a line. Where memory is refused it is asked for again.
fn with_room(alloc: Global) -> Result<String, AllocError> {
    match String::with_capacity(alloc, 128) {
        Ok(text) => Ok(text),
        Err(_) => String::with_capacity(alloc, 128),
    }
}

#[test]
fn texts_of_outcomes(rt: HostRuntime) -> Result<(), Fail> {
    let mut text = with_room(rt.alloc())?;
    for (i, (outcome, wanted)) in OUTCOMES.iter().enumerate() {
        text.clear();
        match outcome {
            Ok(effect) => write!(text, "{effect}\n")?,
            Err(refusal) => write!(text, "refused {refusal}\n")?,
        }
        assert_eq!(&rt; text.as_bytes(), *wanted, "outcome {i}");
    }
    Ok(())
}

static FAULTS: [(Message, &'static [u8]); 2] = [
    (
        Message::PageFault {
            addr: 0x1_0000,
            write: true,
            wp: false,
            tid: 7,
        },
        b"fault 0x10000 missing",
    ),
    (
        Message::PageFault {
            addr: 0xffff_f000,
            write: true,
            wp: true,
            tid: 0,
        },
        b"fault 0xfffff000 write-protect",
    ),
];

#[test]
fn texts_of_faults(rt: HostRuntime) -> Result<(), Fail> {
    let mut text = with_room(rt.alloc())?;
    for (i, (fault, wanted)) in FAULTS.iter().enumerate() {
        text.clear();
        write!(text, "{fault}")?;
        assert_eq!(&rt; text.as_bytes(), *wanted, "fault {i}");
    }
    Ok(())
}

static ERRORS: [(Errno, &'static [u8]); 7] = [
    (Errno::Eperm, b"EPERM"),
    (Errno::Enoent, b"ENOENT"),
    (Errno::Eagain, b"EAGAIN"),
    (Errno::Enomem, b"ENOMEM"),
    (Errno::Efault, b"EFAULT"),
    (Errno::Eexist, b"EEXIST"),
    (Errno::Einval, b"EINVAL"),
];

#[test]
fn texts_of_errors(rt: HostRuntime) -> Result<(), Fail> {
    let mut text = with_room(rt.alloc())?;
    for (i, (errno, wanted)) in ERRORS.iter().enumerate() {
        text.clear();
        write!(text, "{errno}")?;
        assert_eq!(&rt; text.as_bytes(), *wanted, "error {i}");
    }
    Ok(())
}

static REPORTS: [(Progress, &'static [u8]); 5] = [
    (
        Progress {
            phase: WorldPhase::Idle,
            rounds: 0,
            sent: 0,
            left: 0,
            installed: 0,
            dropped: 0,
            faults: 0,
        },
        b"progress phase idle rounds 0 sent 0 left 0 installed 0 dropped 0 faults 0\n",
    ),
    (
        Progress {
            phase: WorldPhase::Precopy,
            rounds: 1,
            sent: 2,
            left: 0,
            installed: 0,
            dropped: 0,
            faults: 1,
        },
        b"progress phase precopy rounds 1 sent 2 left 0 installed 0 dropped 0 faults 1\n",
    ),
    (
        Progress {
            phase: WorldPhase::Switching,
            rounds: 4294967295,
            sent: 3,
            left: 4,
            installed: 0,
            dropped: 0,
            faults: 5,
        },
        b"progress phase switching rounds 4294967295 sent 3 left 4 installed 0 dropped 0 faults 5\n",
    ),
    (
        Progress {
            phase: WorldPhase::Postcopy,
            rounds: 2,
            sent: 18446744073709551615,
            left: 262144,
            installed: 18446744073709551614,
            dropped: 18446744073709551613,
            faults: 18446744073709551612,
        },
        b"progress phase postcopy rounds 2 sent 18446744073709551615 left 262144 installed 18446744073709551614 dropped 18446744073709551613 faults 18446744073709551612\n",
    ),
    (
        Progress {
            phase: WorldPhase::Complete,
            rounds: 6,
            sent: 5,
            left: 0,
            installed: 4,
            dropped: 3,
            faults: 2,
        },
        b"progress phase complete rounds 6 sent 5 left 0 installed 4 dropped 3 faults 2\n",
    ),
];

#[test]
fn lines_of_progress(rt: HostRuntime) -> Result<(), Fail> {
    let mut text = String::new(rt.alloc());
    for (i, (progress, wanted)) in REPORTS.iter().enumerate() {
        text.clear();
        if print_progress(&mut text, *progress).is_err() {
            assert!(&rt; text.is_empty());
            print_progress(&mut text, *progress)?;
        }
        assert_eq!(&rt; text.as_bytes(), *wanted, "report {i}");
    }
    Ok(())
}

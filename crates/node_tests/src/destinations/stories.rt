//! What a destination does once it runs, from the copies that come before to the End.

use super::calls::Answer::{
    Acts, Asleep, At, Counted, InCall, Is, Replied, Sends, Stands, Told, Took, WouldAct,
    WouldInstall,
};
use super::calls::Call::{
    Act, Counts, Cpu, DontNeed, Home, Install, Load, Map, Move, NextAct, NextInstall, Phase, Read,
    Report, Rerequest, Retry, Store, Take, TakeUrgent, Unmap,
};
use super::calls::{Answer, Step};
use super::play::{
    ALL_DONE, FAULT_10, FAULT_12, INSTALLED_10, INSTALLED_11, INSTALLED_12, REQUESTED_10,
    REQUESTED_12, TOOK, play,
};
use crate::frames::Sending::{Advise, Discard, End, Package, Page, Run, Zero};
use crate::frames::{Brief, NONE};
use mig_base::act::Act as Resolving;
use mig_base::cpu_state::CpuState;
use mig_base::effect::Effect;
use mig_base::phase::{DestPhase, Received};
use mig_base::refusal::Refusal;
use mig_base::{Command, Message, Reply};

const LOAD_12: Command = Command::Load {
    addr: 0x12000,
    width: 1,
};

/// The newest copy of a page is kept, and a discarded one is not. A page that is owed is asked for once, and comes.
static ASKED_FOR: [Step; 49] = [
    (NextAct, Err(Refusal::Phase)),
    (Take(1, Advise), TOOK),
    (Take(1, Page(0x10, 1)), TOOK),
    (Take(1, Page(0x10, 2)), TOOK),
    (Take(1, Zero(0x11)), TOOK),
    (Take(1, Discard((0x11, 1))), TOOK),
    (Take(1, Package((0x10, 3), (0x12, 1), 2, None)), TOOK),
    (Phase, Ok(Stands(DestPhase::Running, true, 1))),
    (Load(0, 0x10000), Ok(Replied(0, Reply::Value(2)))),
    (Load(0, 0x10fff), Ok(Replied(0, Reply::Value(2)))),
    (Load(0, 0x12000), Ok(Asleep(0))),
    (Load(0, 0x10000), Err(Refusal::Busy)),
    (Act, Err(Refusal::NothingThere)),
    (Read, Ok(FAULT_12)),
    (Read, Err(Refusal::NothingThere)),
    (NextAct, Ok(WouldAct(Resolving::Requested(0x12), 0x12000))),
    (Act, Ok(Acts(REQUESTED_12, Some(Brief::Request(0x12))))),
    (Cpu(0), Ok(Is(CpuState::Asleep(LOAD_12)))),
    (Load(1, 0x12fff), Ok(Asleep(1))),
    (Read, Ok(FAULT_12)),
    (Act, Ok(Acts(REQUESTED_12, None))),
    (
        Rerequest,
        Ok(Sends((Some(Brief::Request(0x12)), None, None))),
    ),
    (NextAct, Err(Refusal::NothingThere)),
    (Act, Err(Refusal::NothingThere)),
    (NextInstall, Err(Refusal::NothingThere)),
    (Install, Err(Refusal::NothingThere)),
    (Take(1, Page(0x12, 7)), TOOK),
    (Counts, Ok(Counted([0, 0, 2], 1, 1))),
    (Retry(0), Err(Refusal::NotWoken)),
    (NextInstall, Ok(WouldInstall(0x12, Some(0x12)))),
    (Install, Ok(INSTALLED_12)),
    (Counts, Ok(Counted([1, 0, 2], 0, 0))),
    (Cpu(0), Ok(Is(CpuState::Woken(LOAD_12)))),
    (Retry(0), Ok(Replied(0, Reply::Value(7)))),
    (Retry(1), Ok(Replied(1, Reply::Value(7)))),
    (Cpu(0), Ok(Is(CpuState::Idle))),
    (Rerequest, Ok(Sends((None, None, None)))),
    (Take(1, End(0)), ALL_DONE),
    (Phase, Ok(Stands(DestPhase::Ended, true, 1))),
    (Report, Ok(Took(Some(Brief::Recv(Received::Ended, NONE))))),
    (Load(1, 0x11000), Ok(Asleep(1))),
    (
        Read,
        Ok(Told(Effect::ReadFault {
            addr: 0x11000,
            wp: false,
        })),
    ),
    (NextAct, Ok(WouldAct(Resolving::Zeroed, 0x11000))),
    (Act, Ok(Acts(Effect::Zeroed { addr: 0x11000 }, None))),
    (Retry(1), Ok(Replied(1, Reply::Value(0)))),
    (Store(1, 0x11000, 9), Ok(Replied(1, Reply::Done))),
    (Load(0, 0x11000), Ok(Replied(0, Reply::Value(9)))),
    (Counts, Ok(Counted([1, 0, 3], 0, 0))),
    (Phase, Ok(Stands(DestPhase::Ended, true, 1))),
];

/// A page moves while its copy is in flight, and is installed where it belongs then.
static MOVED: [Step; 23] = [
    (Take(1, Advise), TOOK),
    (Take(1, Discard(NONE)), TOOK),
    (Take(1, Package((0x10, 1), (0x10, 1), 2, None)), TOOK),
    (
        Move(0, 0x10000, 0x20000),
        Ok(InCall(0, 1, Reply::At(0x20000))),
    ),
    (Load(1, 0x20000), Ok(Asleep(1))),
    (
        Read,
        Ok(Told(Effect::ReadFault {
            addr: 0x20000,
            wp: false,
        })),
    ),
    (NextAct, Err(Refusal::Changing)),
    (Act, Err(Refusal::Changing)),
    (Home(0x10), Ok(At(Some(0x10)))),
    (
        Read,
        Ok(Told(Effect::ReadLast {
            event: Message::Remap {
                from: 0x10000,
                to: 0x20000,
                len: 0x1000,
            },
            cpu: 0,
            reply: Reply::At(0x20000),
        })),
    ),
    (Home(0x10), Ok(At(Some(0x20)))),
    (
        Report,
        Ok(Took(Some(Brief::Recv(Received::Running, (0x10, 1))))),
    ),
    (NextAct, Ok(WouldAct(Resolving::Requested(0x10), 0x20000))),
    (
        Act,
        Ok(Acts(
            Effect::Requested {
                origin: 0x10000,
                addr: 0x20000,
            },
            Some(Brief::Request(0x10)),
        )),
    ),
    (Take(1, Page(0x10, 5)), TOOK),
    (Retry(1), Err(Refusal::NotWoken)),
    (NextInstall, Ok(WouldInstall(0x10, Some(0x20)))),
    (
        Install,
        Ok(Told(Effect::Installed {
            addr: 0x20000,
            origin: 0x10000,
        })),
    ),
    (Home(0x10), Ok(At(None))),
    (Retry(1), Ok(Replied(1, Reply::Value(5)))),
    (Rerequest, Ok(Sends((None, None, None)))),
    (
        Load(0, 0x10000),
        Ok(Replied(0, Reply::Segv { mapped: false })),
    ),
    (Take(1, End(0)), ALL_DONE),
];

const UNMAPPED: Effect = Effect::ReadLast {
    event: Message::Unmap {
        start: 0x10000,
        end: 0x11000,
    },
    cpu: 0,
    reply: Reply::Done,
};

/// A page is unmapped while its copy is in flight. The copy is not put over the page that is mapped there later.
static GONE: [Step; 16] = [
    (Take(1, Advise), TOOK),
    (Take(1, Discard(NONE)), TOOK),
    (Take(1, Package((0x10, 1), (0x10, 1), 2, None)), TOOK),
    (Unmap(0, 0x10000), Ok(InCall(0, 1, Reply::Done))),
    (Take(1, Page(0x10, 5)), TOOK),
    (NextInstall, Err(Refusal::Changing)),
    (Install, Err(Refusal::Changing)),
    (Counts, Ok(Counted([0, 0, 0], 1, 1))),
    (Read, Ok(Told(UNMAPPED))),
    (Counts, Ok(Counted([0, 0, 0], 1, 0))),
    (Map(0, 0x10000), Ok(Replied(0, Reply::At(0x10000)))),
    (Store(0, 0x10000, 9), Ok(Replied(0, Reply::Done))),
    (NextInstall, Ok(WouldInstall(0x10, None))),
    (Install, Ok(Told(Effect::Dropped { origin: 0x10000 }))),
    (Load(0, 0x10000), Ok(Replied(0, Reply::Value(9)))),
    (Counts, Ok(Counted([0, 1, 0], 0, 0))),
];

/// The guest discards an owed page, which is zeros from then on. Its copy comes late, and is dropped.
static GIVEN_UP: [Step; 14] = [
    (Take(1, Advise), TOOK),
    (Take(1, Discard(NONE)), TOOK),
    (Take(1, Package((0x10, 1), (0x10, 1), 2, None)), TOOK),
    (DontNeed(0, 0x10000), Ok(InCall(0, 1, Reply::Done))),
    (
        Read,
        Ok(Told(Effect::ReadLast {
            event: Message::Remove {
                start: 0x10000,
                end: 0x11000,
            },
            cpu: 0,
            reply: Reply::Done,
        })),
    ),
    (Home(0x10), Ok(At(None))),
    (Load(0, 0x10000), Ok(Asleep(0))),
    (Read, Ok(FAULT_10)),
    (Act, Ok(Acts(Effect::Zeroed { addr: 0x10000 }, None))),
    (Retry(0), Ok(Replied(0, Reply::Value(0)))),
    (Take(1, Page(0x10, 5)), TOOK),
    (Install, Ok(Told(Effect::Dropped { origin: 0x10000 }))),
    (Load(0, 0x10000), Ok(Replied(0, Reply::Value(0)))),
    (Take(1, End(0)), ALL_DONE),
];

/// The pages of a run are kept, in place of older copies, and give way to newer ones.
static KEPT_RUN: [Step; 12] = [
    (Take(1, Advise), TOOK),
    (Take(1, Page(0x11, 9)), TOOK),
    (Take(1, Run(0x10, 4, 5)), TOOK),
    (Take(1, Page(0x12, 1)), TOOK),
    (Take(1, Zero(0x13)), TOOK),
    (Take(1, Discard(NONE)), TOOK),
    (Take(1, Package((0x10, 4), (0x10, 0), 2, None)), TOOK),
    (Load(0, 0x10000), Ok(Replied(0, Reply::Value(5)))),
    (Load(0, 0x11fff), Ok(Replied(0, Reply::Value(6)))),
    (Load(0, 0x12000), Ok(Replied(0, Reply::Value(1)))),
    (Load(0, 0x13000), Ok(Replied(0, Reply::Value(0)))),
    (Take(1, End(0)), ALL_DONE),
];

/// Copies of both wires are installed in the order in which they came.
static BOTH_WIRES: [Step; 17] = [
    (Take(1, Advise), TOOK),
    (Take(1, Discard(NONE)), TOOK),
    (Take(1, Package((0x10, 3), (0x10, 3), 2, None)), TOOK),
    (TakeUrgent(1, Page(0x12, 3)), TOOK),
    (Take(1, Page(0x10, 1)), TOOK),
    (TakeUrgent(1, Zero(0x11)), TOOK),
    (Counts, Ok(Counted([0, 0, 0], 3, 3))),
    (Install, Ok(INSTALLED_12)),
    (Install, Ok(INSTALLED_10)),
    (Install, Ok(INSTALLED_11)),
    (Install, Err(Refusal::NothingThere)),
    (Counts, Ok(Counted([3, 0, 0], 0, 0))),
    (Load(0, 0x10000), Ok(Replied(0, Reply::Value(1)))),
    (Load(0, 0x11000), Ok(Replied(0, Reply::Value(0)))),
    (Load(0, 0x12fff), Ok(Replied(0, Reply::Value(3)))),
    (Take(1, End(2)), ALL_DONE),
    (Phase, Ok(Stands(DestPhase::Ended, true, 1))),
];

/// A processor continues with the load for which it waited at the source.
static HANDED_OVER: [Step; 13] = [
    (Take(1, Advise), TOOK),
    (Take(1, Discard(NONE)), TOOK),
    (
        Take(1, Package((0x10, 3), (0x12, 1), 2, Some(LOAD_12))),
        TOOK,
    ),
    (Cpu(0), Ok(Is(CpuState::Woken(LOAD_12)))),
    (Cpu(1), Ok(Is(CpuState::Idle))),
    (Load(0, 0x10000), Err(Refusal::Busy)),
    (Retry(0), Ok(Asleep(0))),
    (Read, Ok(FAULT_12)),
    (Act, Ok(Acts(REQUESTED_12, Some(Brief::Request(0x12))))),
    (Take(1, Page(0x12, 4)), TOOK),
    (Install, Ok(INSTALLED_12)),
    (Retry(0), Ok(Replied(0, Reply::Value(4)))),
    (Retry(0), Err(Refusal::NotAsleep)),
];

/// Two faults of a page are held. The page comes before the second is resolved, and is unmapped before a third.
static LATE: [Step; 20] = [
    (Take(1, Advise), TOOK),
    (Take(1, Discard(NONE)), TOOK),
    (Take(1, Package((0x10, 2), (0x10, 2), 2, None)), TOOK),
    (Load(0, 0x10000), Ok(Asleep(0))),
    (Read, Ok(FAULT_10)),
    (Load(1, 0x10000), Ok(Asleep(1))),
    (Read, Ok(FAULT_10)),
    (Act, Ok(Acts(REQUESTED_10, Some(Brief::Request(0x10))))),
    (Take(1, Page(0x10, 5)), TOOK),
    (Install, Ok(INSTALLED_10)),
    (Act, Ok(Acts(Effect::Woke { addr: 0x10000 }, None))),
    (Retry(0), Ok(Replied(0, Reply::Value(5)))),
    (Retry(1), Ok(Replied(1, Reply::Value(5)))),
    (Load(1, 0x11000), Ok(Asleep(1))),
    (
        Read,
        Ok(Told(Effect::ReadFault {
            addr: 0x11000,
            wp: false,
        })),
    ),
    (Unmap(0, 0x11000), Ok(InCall(0, 1, Reply::Done))),
    (Act, Err(Refusal::Changing)),
    (
        Read,
        Ok(Told(Effect::ReadLast {
            event: Message::Unmap {
                start: 0x11000,
                end: 0x12000,
            },
            cpu: 0,
            reply: Reply::Done,
        })),
    ),
    (Act, Ok(Acts(Effect::Forgot { addr: 0x11000 }, None))),
    (Retry(1), Ok(Replied(1, Reply::Segv { mapped: false }))),
];

/// A page moves over another that is owed, whose copy is dropped. Two events of one call are read in turn.
static REPLACED: [Step; 17] = [
    (Take(1, Advise), TOOK),
    (Take(1, Discard(NONE)), TOOK),
    (Take(1, Package((0x10, 3), (0x10, 3), 2, None)), TOOK),
    (
        Move(0, 0x10000, 0x12000),
        Ok(InCall(0, 2, Reply::At(0x12000))),
    ),
    (
        Read,
        Ok(Told(Effect::ReadEvent {
            event: Message::Unmap {
                start: 0x12000,
                end: 0x13000,
            },
        })),
    ),
    (Counts, Ok(Counted([0, 0, 0], 0, 2))),
    (Take(1, Page(0x12, 3)), TOOK),
    (Take(1, Page(0x10, 1)), TOOK),
    (Install, Err(Refusal::Changing)),
    (
        Read,
        Ok(Told(Effect::ReadLast {
            event: Message::Remap {
                from: 0x10000,
                to: 0x12000,
                len: 0x1000,
            },
            cpu: 0,
            reply: Reply::At(0x12000),
        })),
    ),
    (Home(0x10), Ok(At(Some(0x12)))),
    (Home(0x12), Ok(At(None))),
    (Install, Ok(Told(Effect::Dropped { origin: 0x12000 }))),
    (
        Install,
        Ok(Told(Effect::Installed {
            addr: 0x12000,
            origin: 0x10000,
        })),
    ),
    (Load(0, 0x12000), Ok(Replied(0, Reply::Value(1)))),
    (Counts, Ok(Counted([1, 1, 0], 0, 1))),
    (Home(0x11), Ok(At(Some(0x11)))),
];

#[test]
fn pages_come(rt: HostRuntime) {
    let alloc = rt.alloc();
    play(&rt, alloc, "a page is asked for and comes", &ASKED_FOR);
    play(&rt, alloc, "a page moves in flight", &MOVED);
    play(&rt, alloc, "a page is unmapped in flight", &GONE);
    play(&rt, alloc, "an owed page is given up", &GIVEN_UP);
    play(&rt, alloc, "a page moves over another", &REPLACED);
}

#[test]
fn copies_and_faults(rt: HostRuntime) {
    let alloc = rt.alloc();
    play(&rt, alloc, "a run of pages is kept", &KEPT_RUN);
    play(&rt, alloc, "copies come on both wires", &BOTH_WIRES);
    play(&rt, alloc, "a load is handed over", &HANDED_OVER);
    play(&rt, alloc, "faults are resolved late", &LATE);
}

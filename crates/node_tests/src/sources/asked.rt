//! What a source would do next, before it does it, and runs without their frames.

use super::calls::Answer::{Counted, Finds, Hands, Marks, Remains, Sends, Told, Tries, WouldAct};
use super::calls::Brief;
use super::calls::Call::{
    Act, Counts, DontNeed, Load, Map, NextAct, NextRemaining, NextRun, Push, Read, Retry, Round,
    RunSent, Send, Start, Store, Switch,
};
use super::play::{AT_10, DONE_0, PAGE_10, STARTED, Steps, play};
use mig_base::act::Act::{Unprotected, Woke, Zeroed};
use mig_base::effect::Effect;
use mig_base::refusal::Refusal;
use mig_base::{Command, Message, Reply};
use std::test::Fail;

const SLEEP_0: Effect = Effect::Asleep { cpu: 0 };

const SLEEP_1: Effect = Effect::Asleep { cpu: 1 };

const FAULT_10: Effect = Effect::ReadFault {
    addr: 0x10000,
    wp: true,
};

const FAULT_12: Effect = Effect::ReadFault {
    addr: 0x12000,
    wp: false,
};

const DROPPED_12: Message = Message::Remove {
    start: 0x12000,
    end: 0x13000,
};

const LOAD_12: Command = Command::Load {
    addr: 0x12000,
    width: 8,
};

/// Three pages, of which two are neighbours: a run is asked for, and then marked as sent.
static ASKED_RUNS: Steps<25> = [
    (NextRun(64), Err(Refusal::Phase)),
    (RunSent(64), Err(Refusal::Phase)),
    (Map(0, 0x4000), Ok(Tries(AT_10))),
    (Store(0, 0x10000, 1), Ok(Tries(DONE_0))),
    (Store(0, 0x11000, 2), Ok(Tries(DONE_0))),
    (Store(0, 0x13000, 4), Ok(Tries(DONE_0))),
    (Start, Ok(Sends(STARTED, Brief::Advise))),
    (NextRun(64), Err(Refusal::NothingThere)),
    (RunSent(64), Err(Refusal::NothingThere)),
    (Round, Ok(Told(Effect::RoundMade { round: 1, todo: 3 }))),
    (NextRun(0), Ok(Finds(0x10, 1))),
    (NextRun(1), Ok(Finds(0x10, 1))),
    (NextRun(255), Ok(Finds(0x10, 2))),
    (
        RunSent(255),
        Ok(Marks(
            Effect::SentRun {
                addr: 0x10000,
                pages: 2,
            },
            0x10,
            2,
        )),
    ),
    (Counts, Ok(Counted([3, 0, 2, 1, 2, 0], 0))),
    (
        DontNeed(1, 0x12000),
        Ok(Tries(Effect::InCall {
            cpu: 1,
            messages: 1,
        })),
    ),
    (NextRun(64), Err(Refusal::Changing)),
    (RunSent(64), Err(Refusal::Changing)),
    (
        Read,
        Ok(Told(Effect::ReadLast {
            event: DROPPED_12,
            cpu: 1,
            reply: Reply::Done,
        })),
    ),
    (NextRun(64), Ok(Finds(0x13, 1))),
    (
        Send,
        Ok(Sends(Effect::SentPage { addr: 0x13000 }, Brief::Page(0x13, 4))),
    ),
    (NextRun(64), Err(Refusal::NothingThere)),
    (Store(0, 0x11000, 5), Ok(Tries(SLEEP_0))),
    (
        Read,
        Ok(Told(Effect::ReadFault {
            addr: 0x11000,
            wp: true,
        })),
    ),
    (Counts, Ok(Counted([3, 0, 3, 0, 3, 0], 1))),
];

#[test]
fn a_run_is_asked_for_and_then_sent(rt: HostRuntime) -> Result<(), Fail> {
    play(&rt, rt.alloc(), (0, 0), &ASKED_RUNS)
}

/// How faults would be resolved, before and after an event; and what remains after the switch.
static ASKED_ACTS: Steps<41> = [
    (NextAct, Err(Refusal::Phase)),
    (NextRemaining(0), Ok(Remains(None))),
    (Map(0, 0x3000), Ok(Tries(AT_10))),
    (Store(0, 0x10000, 1), Ok(Tries(DONE_0))),
    (Start, Ok(Sends(STARTED, Brief::Advise))),
    (NextAct, Err(Refusal::NothingThere)),
    (Round, Ok(Told(Effect::RoundMade { round: 1, todo: 1 }))),
    (Send, Ok(Sends(PAGE_10, Brief::Page(0x10, 1)))),
    (Store(0, 0x10000, 9), Ok(Tries(SLEEP_0))),
    (Read, Ok(Told(FAULT_10))),
    (Store(1, 0x10000, 7), Ok(Tries(SLEEP_1))),
    (Read, Ok(Told(FAULT_10))),
    (NextAct, Ok(WouldAct(Unprotected, 0x10000))),
    (NextAct, Ok(WouldAct(Unprotected, 0x10000))),
    (Act, Ok(Told(Effect::Unprotected { addr: 0x10000 }))),
    (NextAct, Ok(WouldAct(Woke, 0x10000))),
    (Act, Ok(Told(Effect::Woke { addr: 0x10000 }))),
    (NextAct, Err(Refusal::NothingThere)),
    (Retry(0), Ok(Tries(DONE_0))),
    (
        Retry(1),
        Ok(Tries(Effect::Answered {
            cpu: 1,
            reply: Reply::Done,
        })),
    ),
    (Load(1, 0x12000), Ok(Tries(SLEEP_1))),
    (Read, Ok(Told(FAULT_12))),
    (NextAct, Ok(WouldAct(Zeroed, 0x12000))),
    (
        DontNeed(0, 0x12000),
        Ok(Tries(Effect::InCall {
            cpu: 0,
            messages: 1,
        })),
    ),
    (NextAct, Err(Refusal::Changing)),
    (Act, Err(Refusal::Changing)),
    (
        Read,
        Ok(Told(Effect::ReadLast {
            event: DROPPED_12,
            cpu: 0,
            reply: Reply::Done,
        })),
    ),
    (NextAct, Ok(WouldAct(Zeroed, 0x12000))),
    (Act, Ok(Told(Effect::Zeroed { addr: 0x12000 }))),
    (NextRemaining(0), Ok(Remains(None))),
    (
        Switch,
        Ok(Hands(
            Effect::Switched {
                discard: 1,
                owed: 2,
            },
            (
                Brief::Discard(0x10, 1),
                Brief::Package(3, 0x10, 2, (None, Some(LOAD_12))),
            ),
        )),
    ),
    (NextAct, Err(Refusal::Phase)),
    (NextRun(64), Err(Refusal::Phase)),
    (NextRemaining(0), Ok(Remains(Some(0x10)))),
    (NextRemaining(0x10), Ok(Remains(Some(0x10)))),
    (NextRemaining(0x11), Ok(Remains(Some(0x12)))),
    (NextRemaining(0x13), Ok(Remains(None))),
    (NextRemaining(0xffff_ffff), Ok(Remains(None))),
    (Push(1, 0x10), Ok(Sends(PAGE_10, Brief::Page(0x10, 7)))),
    (NextRemaining(0), Ok(Remains(Some(0x12)))),
    (Counts, Ok(Counted([2, 1, 0, 0, 1, 2], 0))),
];

#[test]
fn an_act_is_asked_for_and_then_made(rt: HostRuntime) -> Result<(), Fail> {
    play(&rt, rt.alloc(), (0, 0), &ASKED_ACTS)
}

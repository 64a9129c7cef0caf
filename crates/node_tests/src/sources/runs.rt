//! Runs of pages.

use super::calls::Answer::{Counted, Sends, Told, Tries};
use super::calls::Brief;
use super::calls::Call::{Counts, DontNeed, Map, Read, Round, SendRun, Start, Store};
use super::play::{AT_10, DONE_0, STARTED, Steps, play};
use mig_base::effect::Effect;
use mig_base::refusal::Refusal;
use mig_base::{Message, Reply};
use std::test::Fail;

/// Three pages, of which two are neighbours.
static RUNS: Steps<9> = [
    (Map(0, 0x4000), Ok(Tries(AT_10))),
    (Store(0, 0x10000, 1), Ok(Tries(DONE_0))),
    (Store(0, 0x11000, 2), Ok(Tries(DONE_0))),
    (Store(0, 0x13000, 4), Ok(Tries(DONE_0))),
    (Start, Ok(Sends(STARTED, Brief::Advise))),
    (Round, Ok(Told(Effect::RoundMade { round: 1, todo: 3 }))),
    (
        SendRun(64),
        Ok(Sends(
            Effect::SentRun {
                addr: 0x10000,
                pages: 2,
            },
            Brief::Run(0x10, 2, 2),
        )),
    ),
    (
        SendRun(255),
        Ok(Sends(
            Effect::SentRun {
                addr: 0x13000,
                pages: 1,
            },
            Brief::Run(0x13, 1, 4),
        )),
    ),
    (SendRun(64), Err(Refusal::NothingThere)),
];

#[test]
fn neighbours_are_sent_in_one_frame(rt: HostRuntime) -> Result<(), Fail> {
    play(&rt, rt.alloc(), (0, 0), &RUNS)
}

/// The same pages, of which at most one, none (which is taken as one) and two are asked for.
static SHORT_RUNS: Steps<15> = [
    (Map(0, 0x4000), Ok(Tries(AT_10))),
    (Store(0, 0x10000, 1), Ok(Tries(DONE_0))),
    (Store(0, 0x11000, 2), Ok(Tries(DONE_0))),
    (Store(0, 0x13000, 0), Ok(Tries(DONE_0))),
    (Start, Ok(Sends(STARTED, Brief::Advise))),
    (SendRun(1), Err(Refusal::NothingThere)),
    (Round, Ok(Told(Effect::RoundMade { round: 1, todo: 3 }))),
    (
        SendRun(1),
        Ok(Sends(
            Effect::SentRun {
                addr: 0x10000,
                pages: 1,
            },
            Brief::Run(0x10, 1, 1),
        )),
    ),
    (
        SendRun(0),
        Ok(Sends(
            Effect::SentRun {
                addr: 0x11000,
                pages: 1,
            },
            Brief::Run(0x11, 1, 2),
        )),
    ),
    (Counts, Ok(Counted([3, 0, 2, 1, 2, 0], 0))),
    (
        DontNeed(1, 0x12000),
        Ok(Tries(Effect::InCall {
            cpu: 1,
            messages: 1,
        })),
    ),
    (SendRun(2), Err(Refusal::Changing)),
    (
        Read,
        Ok(Told(Effect::ReadLast {
            event: Message::Remove {
                start: 0x12000,
                end: 0x13000,
            },
            cpu: 1,
            reply: Reply::Done,
        })),
    ),
    (
        SendRun(2),
        Ok(Sends(
            Effect::SentRun {
                addr: 0x13000,
                pages: 1,
            },
            Brief::Run(0x13, 1, 0),
        )),
    ),
    (Counts, Ok(Counted([3, 0, 3, 0, 3, 0], 0))),
];

#[test]
fn a_run_has_at_least_one_page(rt: HostRuntime) -> Result<(), Fail> {
    play(&rt, rt.alloc(), (0, 0), &SHORT_RUNS)
}

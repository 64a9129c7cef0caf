//! Rounds, the switch, and what is owed then.

use super::calls::Answer::{Counted, Done, Hands, Is, NotTaken, Sends, Stands, Told, Tries};
use super::calls::Call::{
    Act, Back, Counts, Cpu, DontNeed, End, Load, Map, Phase, Push, PushUrgent, Read, Retry, Round,
    Send, Serve, Start, Store, Switch,
};
use super::calls::{Brief, HAS_NOT_RUN, Heard};
use super::play::{AT_10, DONE_0, IDLE, PAGE_10, PAGE_11, STARTED, Steps, play};
use crate::frames::NOWHERE;
use mig_base::cpu_state::CpuState;
use mig_base::effect::Effect;
use mig_base::phase::SourcePhase;
use mig_base::refusal::Refusal;
use mig_base::{Command, Message, Reply};
use precopy::SourceFault;
use std::test::Fail;

const STORE_7: Command = Command::Store {
    addr: 0x11008,
    width: 8,
    value: 7,
};

/// A page is sent and dropped: its copy is out of date, and nothing is owed.
static DROPPED: Steps<22> = [
    (Map(0, 0x2000), Ok(Tries(AT_10))),
    (Store(0, 0x10000, 1), Ok(Tries(DONE_0))),
    (Store(0, 0x11000, 2), Ok(Tries(DONE_0))),
    (Start, Ok(Sends(STARTED, Brief::Advise))),
    (Send, Err(Refusal::NothingThere)),
    (Round, Ok(Told(Effect::RoundMade { round: 1, todo: 2 }))),
    (Counts, Ok(Counted([2, 0, 0, 2, 0, 0], 0))),
    (Send, Ok(Sends(PAGE_10, Brief::Page(0x10, 1)))),
    (Send, Ok(Sends(PAGE_11, Brief::Page(0x11, 2)))),
    (Counts, Ok(Counted([2, 0, 2, 0, 2, 0], 0))),
    (Send, Err(Refusal::NothingThere)),
    (
        DontNeed(0, 0x10000),
        Ok(Tries(Effect::InCall {
            cpu: 0,
            messages: 1,
        })),
    ),
    (Switch, Err(Refusal::Changing)),
    (Round, Err(Refusal::Changing)),
    (Load(0, 0x11000), Err(Refusal::Busy)),
    (
        Read,
        Ok(Told(Effect::ReadLast {
            event: Message::Remove {
                start: 0x10000,
                end: 0x11000,
            },
            cpu: 0,
            reply: Reply::Done,
        })),
    ),
    (Counts, Ok(Counted([1, 0, 1, 0, 2, 0], 0))),
    (
        Switch,
        Ok(Hands(
            Effect::Switched {
                discard: 1,
                owed: 0,
            },
            (Brief::Discard(0x10, 1), Brief::Package(2, NOWHERE, 0, IDLE)),
        )),
    ),
    (Phase, Ok(Stands(SourcePhase::Stopped, true, 1))),
    (End, Ok(Sends(Effect::EndSent, Brief::End(0)))),
    (End, Err(Refusal::Phase)),
    (Counts, Ok(Counted([1, 0, 1, 0, 2, 0], 0))),
];

#[test]
fn a_page_is_sent_and_dropped(rt: HostRuntime) -> Result<(), Fail> {
    play(&rt, rt.alloc(), (0, 0), &DROPPED)
}

/// A page is written again after it was sent, and is owed: it is pushed once.
static WRITTEN_AGAIN: Steps<29> = [
    (Map(0, 0x1000), Ok(Tries(AT_10))),
    (Store(0, 0x10000, 1), Ok(Tries(DONE_0))),
    (Start, Ok(Sends(STARTED, Brief::Advise))),
    (Round, Ok(Told(Effect::RoundMade { round: 1, todo: 1 }))),
    (Send, Ok(Sends(PAGE_10, Brief::Page(0x10, 1)))),
    (Store(0, 0x10000, 9), Ok(Tries(Effect::Asleep { cpu: 0 }))),
    (
        Load(1, 0x10000),
        Ok(Tries(Effect::Answered {
            cpu: 1,
            reply: Reply::Value(1),
        })),
    ),
    (Retry(0), Err(Refusal::NotWoken)),
    (Retry(1), Err(Refusal::NotAsleep)),
    (Retry(2), Err(Refusal::NoCpu)),
    (Act, Err(Refusal::NothingThere)),
    (
        Read,
        Ok(Told(Effect::ReadFault {
            addr: 0x10000,
            wp: true,
        })),
    ),
    (Read, Err(Refusal::NothingThere)),
    (Counts, Ok(Counted([1, 0, 1, 0, 1, 0], 1))),
    (Act, Ok(Told(Effect::Unprotected { addr: 0x10000 }))),
    (Retry(0), Ok(Tries(DONE_0))),
    (Cpu(0), Ok(Is(CpuState::Idle))),
    (Round, Ok(Told(Effect::RoundMade { round: 2, todo: 1 }))),
    (
        Switch,
        Ok(Hands(
            Effect::Switched {
                discard: 1,
                owed: 1,
            },
            (Brief::Discard(0x10, 1), Brief::Package(1, 0x10, 1, IDLE)),
        )),
    ),
    (Push(2, 0x10), Err(Refusal::StaleEpoch)),
    (Push(0, 0x12), Err(Refusal::StaleEpoch)),
    (End, Err(Refusal::PagesLeft)),
    (Counts, Ok(Counted([1, 1, 0, 1, 1, 1], 0))),
    (Push(1, 0x10), Ok(Sends(PAGE_10, Brief::Page(0x10, 9)))),
    (Push(1, 0x10), Err(Refusal::NotRemaining)),
    (PushUrgent(1, 0x10), Err(Refusal::NotRemaining)),
    (Push(1, 0x12), Err(Refusal::PageNotSendable)),
    (PushUrgent(1, 0xffff_ffff), Err(Refusal::PageNotSendable)),
    (End, Ok(Sends(Effect::EndSent, Brief::End(0)))),
];

#[test]
fn a_page_is_written_again_and_pushed(rt: HostRuntime) -> Result<(), Fail> {
    play(&rt, rt.alloc(), (0, 0), &WRITTEN_AGAIN)
}

/// A page of zeros, a missing page, and a command that goes over with the switch. The urgent push is counted, and Done
/// releases the source.
static ZEROS: Steps<40> = [
    (Map(0, 0x3000), Ok(Tries(AT_10))),
    (Store(0, 0x10000, 0), Ok(Tries(DONE_0))),
    (Store(0, 0x11000, 5), Ok(Tries(DONE_0))),
    (Start, Ok(Sends(STARTED, Brief::Advise))),
    (Round, Ok(Told(Effect::RoundMade { round: 1, todo: 2 }))),
    (
        Send,
        Ok(Sends(Effect::SentZero { addr: 0x10000 }, Brief::Zero(0x10))),
    ),
    (Send, Ok(Sends(PAGE_11, Brief::Page(0x11, 5)))),
    (Load(1, 0x12000), Ok(Tries(Effect::Asleep { cpu: 1 }))),
    (
        Read,
        Ok(Told(Effect::ReadFault {
            addr: 0x12000,
            wp: false,
        })),
    ),
    (Act, Ok(Told(Effect::Zeroed { addr: 0x12000 }))),
    (
        Retry(1),
        Ok(Tries(Effect::Answered {
            cpu: 1,
            reply: Reply::Value(0),
        })),
    ),
    (Store(0, 0x11000, 6), Ok(Tries(Effect::Asleep { cpu: 0 }))),
    (Store(1, 0x11008, 7), Ok(Tries(Effect::Asleep { cpu: 1 }))),
    (
        Read,
        Ok(Told(Effect::ReadFault {
            addr: 0x11000,
            wp: true,
        })),
    ),
    (Act, Ok(Told(Effect::Unprotected { addr: 0x11000 }))),
    (Retry(0), Ok(Tries(DONE_0))),
    (Cpu(1), Ok(Is(CpuState::Woken(STORE_7)))),
    (
        Back(1, Heard::Request(0x11)),
        Ok(NotTaken(SourceFault::OutOfPlace)),
    ),
    (
        Switch,
        Ok(Hands(
            Effect::Switched {
                discard: 1,
                owed: 2,
            },
            (
                Brief::Discard(0x11, 1),
                Brief::Package(3, 0x11, 2, (None, Some(STORE_7))),
            ),
        )),
    ),
    (Retry(1), Err(Refusal::Phase)),
    (Load(0, 0x10000), Err(Refusal::Phase)),
    (Load(1, 0x10000), Err(Refusal::Busy)),
    (Counts, Ok(Counted([3, 2, 1, 0, 2, 2], 0))),
    (Serve, Err(Refusal::NothingThere)),
    (
        Back(2, Heard::Request(0x11)),
        Ok(NotTaken(SourceFault::StaleEpoch)),
    ),
    (Back(1, Heard::Request(0x11)), Ok(Done)),
    (Back(1, Heard::Request(0x12)), Ok(Done)),
    (Serve, Ok(Told(Effect::Asked { addr: 0x11000 }))),
    (
        PushUrgent(1, 0x11),
        Ok(Sends(PAGE_11, Brief::Page(0x11, 6))),
    ),
    (
        Push(1, 0x12),
        Ok(Sends(Effect::SentZero { addr: 0x12000 }, Brief::Zero(0x12))),
    ),
    (Push(1, 0x10), Err(Refusal::NotRemaining)),
    (Back(1, Heard::Done), Ok(NotTaken(SourceFault::OutOfPlace))),
    (End, Ok(Sends(Effect::EndSent, Brief::End(1)))),
    (Back(1, HAS_NOT_RUN), Ok(NotTaken(SourceFault::OutOfPlace))),
    (
        Back(1, Heard::Advise),
        Ok(NotTaken(SourceFault::OutOfPlace)),
    ),
    (Back(2, Heard::Done), Ok(NotTaken(SourceFault::StaleEpoch))),
    (Serve, Ok(Told(Effect::Asked { addr: 0x12000 }))),
    (Back(1, Heard::Done), Ok(Done)),
    (Phase, Ok(Stands(SourcePhase::Released, true, 1))),
    (Counts, Ok(Counted([0, 0, 0, 0, 0, 2], 0))),
];

#[test]
fn zeros_and_the_urgent_wire(rt: HostRuntime) -> Result<(), Fail> {
    play(&rt, rt.alloc(), (0, 0), &ZEROS)
}

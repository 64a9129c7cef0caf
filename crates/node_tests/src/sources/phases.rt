//! Which calls a phase, a count and a number of processors refuse.

use super::calls::Answer::{Counted, Done, Hands, NotTaken, Sends, Stands, Told, Tries};
use super::calls::Call::{
    Act, Back, Counts, End, Load, Map, Notice, Phase, Push, PushUrgent, Read, Resume, Round, Send,
    SendRun, Serve, Start, Store, Switch,
};
use super::calls::{Brief, HAS_ENDED, HAS_NOT_RUN, Heard};
use super::play::{AT_10, DONE_0, IDLE, NOTICED, STARTED, Steps, new_source, play};
use crate::frames::NOWHERE;
use mig_base::Reply;
use mig_base::effect::Effect;
use mig_base::phase::SourcePhase;
use mig_base::refusal::Refusal;
use precopy::SourceFault;
use std::test::Fail;
use vcpu::NewFault;

/// Each call in each phase that refuses it.
static PHASES: Steps<67> = [
    (Map(0, 0x1000), Ok(Tries(AT_10))),
    (Store(0, 0x10000, 1), Ok(Tries(DONE_0))),
    (Phase, Ok(Stands(SourcePhase::Idle, false, 0))),
    (Round, Err(Refusal::Phase)),
    (Send, Err(Refusal::Phase)),
    (SendRun(1), Err(Refusal::Phase)),
    (Read, Err(Refusal::Phase)),
    (Act, Err(Refusal::Phase)),
    (Switch, Err(Refusal::Phase)),
    (Push(0, 0x10), Err(Refusal::Phase)),
    (PushUrgent(0, 0x10), Err(Refusal::Phase)),
    (Serve, Err(Refusal::Phase)),
    (End, Err(Refusal::Phase)),
    (Notice, Err(Refusal::Phase)),
    (Resume, Err(Refusal::Phase)),
    (Start, Ok(Sends(STARTED, Brief::Advise))),
    (Phase, Ok(Stands(SourcePhase::Precopy, false, 1))),
    (Start, Err(Refusal::Phase)),
    (Push(1, 0x10), Err(Refusal::Phase)),
    (PushUrgent(1, 0x10), Err(Refusal::Phase)),
    (Serve, Err(Refusal::Phase)),
    (End, Err(Refusal::Phase)),
    (Back(1, Heard::Done), Ok(NotTaken(SourceFault::OutOfPlace))),
    (Round, Ok(Told(Effect::RoundMade { round: 1, todo: 1 }))),
    (Resume, Err(Refusal::Phase)),
    (Notice, Ok(Told(NOTICED))),
    (Notice, Err(Refusal::Phase)),
    (Phase, Ok(Stands(SourcePhase::Paused, false, 1))),
    (Start, Err(Refusal::Phase)),
    (Round, Err(Refusal::Phase)),
    (Send, Err(Refusal::Phase)),
    (SendRun(2), Err(Refusal::Phase)),
    (Switch, Err(Refusal::Phase)),
    (Push(1, 0x10), Err(Refusal::Phase)),
    (Serve, Err(Refusal::Phase)),
    (End, Err(Refusal::Phase)),
    (Read, Err(Refusal::NothingThere)),
    (Act, Err(Refusal::NothingThere)),
    (
        Load(1, 0x10000),
        Ok(Tries(Effect::Answered {
            cpu: 1,
            reply: Reply::Value(1),
        })),
    ),
    (Back(1, HAS_NOT_RUN), Ok(Done)),
    (
        Switch,
        Ok(Hands(
            Effect::Switched {
                discard: 0,
                owed: 1,
            },
            (Brief::Discard(NOWHERE, 0), Brief::Package(1, 0x10, 1, IDLE)),
        )),
    ),
    (Start, Err(Refusal::Phase)),
    (Round, Err(Refusal::Phase)),
    (Send, Err(Refusal::Phase)),
    (SendRun(0), Err(Refusal::Phase)),
    (Read, Err(Refusal::Phase)),
    (Act, Err(Refusal::Phase)),
    (Switch, Err(Refusal::Phase)),
    (Resume, Err(Refusal::Phase)),
    (Notice, Ok(Told(NOTICED))),
    (Back(1, HAS_ENDED), Ok(Done)),
    (Phase, Ok(Stands(SourcePhase::Released, true, 1))),
    (Start, Err(Refusal::Phase)),
    (Round, Err(Refusal::Phase)),
    (Send, Err(Refusal::Phase)),
    (SendRun(1), Err(Refusal::Phase)),
    (Read, Err(Refusal::Phase)),
    (Act, Err(Refusal::Phase)),
    (Switch, Err(Refusal::Phase)),
    (Push(1, 0x10), Err(Refusal::Phase)),
    (PushUrgent(1, 0x10), Err(Refusal::Phase)),
    (Serve, Err(Refusal::Phase)),
    (End, Err(Refusal::Phase)),
    (Back(1, Heard::Done), Ok(NotTaken(SourceFault::OutOfPlace))),
    (Notice, Err(Refusal::Phase)),
    (Resume, Err(Refusal::Phase)),
    (Load(0, 0x10000), Err(Refusal::Phase)),
];

#[test]
fn each_call_has_its_phases(rt: HostRuntime) -> Result<(), Fail> {
    play(&rt, rt.alloc(), (0, 0), &PHASES)
}

/// No number is left for an epoch.
static LAST_EPOCH: Steps<3> = [
    (Map(0, 0x1000), Ok(Tries(AT_10))),
    (Start, Err(Refusal::CountUsed)),
    (Phase, Ok(Stands(SourcePhase::Idle, false, u32::MAX))),
];

/// The last number for an epoch is taken, and none is left for a round or for the next epoch.
static LAST_ROUND: Steps<6> = [
    (
        Start,
        Ok(Sends(Effect::Started { epoch: u32::MAX }, Brief::Advise)),
    ),
    (Round, Err(Refusal::CountUsed)),
    (Phase, Ok(Stands(SourcePhase::Precopy, false, u32::MAX))),
    (Counts, Ok(Counted([0, 0, 0, 0, 0, 0], 0))),
    (Notice, Ok(Told(NOTICED))),
    (Resume, Err(Refusal::CountUsed)),
];

#[test]
fn counts_are_used(rt: HostRuntime) -> Result<(), Fail> {
    play(&rt, rt.alloc(), (u32::MAX, 0), &LAST_EPOCH)?;
    play(&rt, rt.alloc(), (u32::MAX - 1, u32::MAX), &LAST_ROUND)
}

/// A number of processors, and the error of a source with that number, if any.
const PROCESSORS: [(u8, Option<NewFault>); 4] = [
    (0, Some(NewFault::NoCpu)),
    (1, None),
    (16, None),
    (17, Some(NewFault::NoCpu)),
];

#[test]
fn a_source_has_processors(rt: HostRuntime) -> Result<(), Fail> {
    for (cpus, fault) in PROCESSORS {
        let answer = new_source(rt.alloc(), cpus, 0, 0);
        assert_eq!(&rt; answer.err(), fault, "{cpus} processors");
    }
    Ok(())
}

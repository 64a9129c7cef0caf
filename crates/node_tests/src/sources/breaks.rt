//! Breaks, and the recovery from them.

use super::calls::Answer::{Counted, Done, Hands, NotTaken, Sends, Stands, Told, Tries};
use super::calls::Call::{
    Back, Counts, End, Map, Notice, Phase, Push, PushUrgent, Resume, Round, Send, Serve, Start,
    Store, Switch,
};
use super::calls::{Brief, HAS_ENDED, HAS_NOT_RUN, Heard};
use super::play::{AT_10, DONE_0, IDLE, NOTICED, PAGE_10, PAGE_11, STARTED, Steps, play};
use crate::frames::NOWHERE;
use mig_base::effect::Effect;
use mig_base::phase::{Received, SourcePhase};
use mig_base::refusal::Refusal;
use precopy::SourceFault;
use std::test::Fail;

/// A break before the switch: what was sent is forgotten. Then one after it: what remains is set anew, and requests are
/// dropped.
static BROKEN: Steps<41> = [
    (Map(0, 0x2000), Ok(Tries(AT_10))),
    (Store(0, 0x10000, 1), Ok(Tries(DONE_0))),
    (Store(0, 0x11000, 2), Ok(Tries(DONE_0))),
    (Start, Ok(Sends(STARTED, Brief::Advise))),
    (Round, Ok(Told(Effect::RoundMade { round: 1, todo: 2 }))),
    (Send, Ok(Sends(PAGE_10, Brief::Page(0x10, 1)))),
    (Counts, Ok(Counted([2, 0, 1, 1, 1, 0], 0))),
    (Notice, Ok(Told(NOTICED))),
    (Counts, Ok(Counted([2, 0, 1, 1, 1, 0], 0))),
    (
        Back(1, Heard::Request(0x10)),
        Ok(NotTaken(SourceFault::OutOfPlace)),
    ),
    (Back(2, HAS_NOT_RUN), Ok(NotTaken(SourceFault::StaleEpoch))),
    (Back(1, HAS_ENDED), Ok(NotTaken(SourceFault::BadOwed))),
    (Phase, Ok(Stands(SourcePhase::Paused, false, 1))),
    (
        Resume,
        Ok(Sends(Effect::Resumed { epoch: 2 }, Brief::Resume)),
    ),
    (Back(2, HAS_NOT_RUN), Ok(Done)),
    (Phase, Ok(Stands(SourcePhase::Precopy, false, 2))),
    (Counts, Ok(Counted([2, 0, 0, 0, 0, 0], 0))),
    (Send, Err(Refusal::NothingThere)),
    (Round, Ok(Told(Effect::RoundMade { round: 2, todo: 2 }))),
    (Send, Ok(Sends(PAGE_10, Brief::Page(0x10, 1)))),
    (
        Switch,
        Ok(Hands(
            Effect::Switched {
                discard: 0,
                owed: 1,
            },
            (Brief::Discard(NOWHERE, 0), Brief::Package(2, 0x11, 1, IDLE)),
        )),
    ),
    (Back(2, Heard::Request(0x11)), Ok(Done)),
    (
        PushUrgent(2, 0x11),
        Ok(Sends(PAGE_11, Brief::Page(0x11, 2))),
    ),
    (Counts, Ok(Counted([2, 0, 1, 1, 1, 1], 0))),
    (Notice, Ok(Told(NOTICED))),
    (Push(2, 0x11), Err(Refusal::Phase)),
    (PushUrgent(2, 0x11), Err(Refusal::Phase)),
    (
        Back(2, Heard::Request(0x11)),
        Ok(NotTaken(SourceFault::OutOfPlace)),
    ),
    (
        Resume,
        Ok(Sends(Effect::Resumed { epoch: 3 }, Brief::Resume)),
    ),
    (Back(3, Heard::Recv(Received::Running, (0x10, 2))), Ok(Done)),
    (Phase, Ok(Stands(SourcePhase::Stopped, true, 3))),
    (Counts, Ok(Counted([2, 2, 1, 1, 1, 1], 0))),
    (Serve, Err(Refusal::NothingThere)),
    (Push(2, 0x11), Err(Refusal::StaleEpoch)),
    (Push(3, 0x11), Ok(Sends(PAGE_11, Brief::Page(0x11, 2)))),
    (End, Err(Refusal::PagesLeft)),
    (Push(3, 0x10), Ok(Sends(PAGE_10, Brief::Page(0x10, 1)))),
    (End, Ok(Sends(Effect::EndSent, Brief::End(0)))),
    (Back(3, Heard::Done), Ok(Done)),
    (Phase, Ok(Stands(SourcePhase::Released, true, 3))),
    (Counts, Ok(Counted([0, 0, 0, 0, 0, 1], 0))),
];

#[test]
fn the_source_goes_on_after_a_break(rt: HostRuntime) -> Result<(), Fail> {
    play(&rt, rt.alloc(), (0, 0), &BROKEN)
}

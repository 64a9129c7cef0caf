//! Breaks that a destination notices, and how it continues.

use super::calls::Answer::{Acts, Asleep, Counted, Done, Replied, Sends, Stands, Told, Took};
use super::calls::Call::{
    Act, Counts, Install, Load, Notice, Pause, Phase, Read, Report, Rerequest, Retry, Take,
    TakeUrgent,
};
use super::calls::{Answer, Step};
use super::play::{
    ALL_DONE, FAULT_10, FAULT_12, INSTALLED_10, INSTALLED_11, INSTALLED_12, OUT_OF_PLACE,
    REQUESTED_10, REQUESTED_12, STALE, TOOK, play,
};
use crate::frames::Sending::{Advise, Discard, End, Package, Page, Resume, Zero};
use crate::frames::{Brief, NONE};
use mig_base::Reply;
use mig_base::effect::Effect;
use mig_base::phase::{DestPhase, Received};
use mig_base::refusal::Refusal;
use mig_base::schedule::Side;

const NOTICED: Answer = Told(Effect::Noticed {
    side: Side::Destination,
});

const HAS_NOT_RUN: Answer = Took(Some(Brief::Recv(Received::NotRun, NONE)));

/// A destination that has not run discards its kept copies: page 0x10 does not contradict a Package that owes it.
static BEFORE_THE_RUN: [Step; 23] = [
    (Report, Ok(HAS_NOT_RUN)),
    (Take(1, Advise), TOOK),
    (Take(1, Page(0x10, 1)), TOOK),
    (Pause, Ok(Done)),
    (Phase, Ok(Stands(DestPhase::Paused, false, 1))),
    (Report, Ok(HAS_NOT_RUN)),
    (Rerequest, Ok(Sends((None, None, None)))),
    (Take(1, Resume), STALE),
    (Take(2, Resume), Ok(HAS_NOT_RUN)),
    (Phase, Ok(Stands(DestPhase::Advised, false, 2))),
    (Take(1, Page(0x11, 2)), STALE),
    (Take(2, Page(0x11, 2)), TOOK),
    (Take(2, Discard(NONE)), TOOK),
    (Pause, Ok(Done)),
    (Report, Ok(HAS_NOT_RUN)),
    (Take(4, Resume), Ok(HAS_NOT_RUN)),
    (Phase, Ok(Stands(DestPhase::Advised, false, 4))),
    (Take(4, Page(0x12, 3)), TOOK),
    (Take(4, Discard(NONE)), TOOK),
    (Take(4, Package((0x10, 3), (0x10, 2), 2, None)), TOOK),
    (Phase, Ok(Stands(DestPhase::Running, true, 4))),
    (Load(0, 0x12000), Ok(Replied(0, Reply::Value(3)))),
    (Counts, Ok(Counted([0, 0, 0], 0, 2))),
];

/// The break is noticed once, until a Resume is taken.
static NOTICED_ONCE: [Step; 8] = [
    (Take(1, Advise), TOOK),
    (Notice, Ok(NOTICED)),
    (Phase, Ok(Stands(DestPhase::Paused, false, 1))),
    (Notice, Err(Refusal::Phase)),
    (Take(2, Resume), Ok(HAS_NOT_RUN)),
    (Phase, Ok(Stands(DestPhase::Advised, false, 2))),
    (Notice, Ok(NOTICED)),
    (Phase, Ok(Stands(DestPhase::Paused, false, 2))),
];

/// A destination that was never advised continues as one that was.
static NEVER_ADVISED: [Step; 5] = [
    (Pause, Ok(Done)),
    (Take(0, Resume), STALE),
    (Take(1, Resume), Ok(HAS_NOT_RUN)),
    (Phase, Ok(Stands(DestPhase::Advised, false, 1))),
    (Take(1, Zero(0x10)), TOOK),
];

const ASKED_FOR_12: Answer = Sends((Some(Brief::Request(0x12)), None, None));

const ASKED_FOR_BOTH: Answer = Sends((
    Some(Brief::Request(0x12)),
    Some(Brief::Request(0x10)),
    None,
));

/// The processors continue while the channel is broken. What they need then is asked for once it is up again, in the order in which it
/// was needed.
static WHILE_IT_RUNS: [Step; 34] = [
    (Take(1, Advise), TOOK),
    (Take(1, Page(0x13, 6)), TOOK),
    (Take(1, Discard(NONE)), TOOK),
    (Take(1, Package((0x10, 4), (0x10, 3), 2, None)), TOOK),
    (Load(0, 0x12000), Ok(Asleep(0))),
    (Load(1, 0x10000), Ok(Asleep(1))),
    (Read, Ok(FAULT_12)),
    (Act, Ok(Acts(REQUESTED_12, Some(Brief::Request(0x12))))),
    (Take(1, Page(0x10, 4)), TOOK),
    (Pause, Ok(Done)),
    (Phase, Ok(Stands(DestPhase::Paused, true, 1))),
    (Read, Ok(FAULT_10)),
    (Act, Ok(Acts(REQUESTED_10, None))),
    (
        Report,
        Ok(Took(Some(Brief::Recv(Received::Running, (0x10, 3))))),
    ),
    (Rerequest, Ok(ASKED_FOR_BOTH)),
    (Take(1, Page(0x11, 5)), OUT_OF_PLACE),
    (Install, Ok(INSTALLED_10)),
    (Retry(1), Ok(Replied(1, Reply::Value(4)))),
    (Load(1, 0x13000), Ok(Replied(1, Reply::Value(6)))),
    (
        Report,
        Ok(Took(Some(Brief::Recv(Received::Running, (0x11, 2))))),
    ),
    (Rerequest, Ok(ASKED_FOR_12)),
    (
        Take(2, Resume),
        Ok(Took(Some(Brief::Recv(Received::Running, (0x11, 2))))),
    ),
    (Phase, Ok(Stands(DestPhase::Running, true, 2))),
    (Rerequest, Ok(ASKED_FOR_12)),
    (Take(1, Page(0x12, 7)), STALE),
    (TakeUrgent(1, Page(0x12, 7)), STALE),
    (Take(2, Page(0x12, 7)), TOOK),
    (Install, Ok(INSTALLED_12)),
    (Retry(0), Ok(Replied(0, Reply::Value(7)))),
    (Rerequest, Ok(Sends((None, None, None)))),
    (
        Report,
        Ok(Took(Some(Brief::Recv(Received::Running, (0x11, 1))))),
    ),
    (Take(2, Zero(0x11)), TOOK),
    (Install, Ok(INSTALLED_11)),
    (Take(2, End(0)), ALL_DONE),
];

/// A destination that has ended stays so, and needs nothing.
static AFTER_THE_END: [Step; 11] = [
    (Take(1, Advise), TOOK),
    (Take(1, Discard(NONE)), TOOK),
    (Take(1, Package((0x10, 1), (0x10, 0), 2, None)), TOOK),
    (Take(1, End(0)), ALL_DONE),
    (Pause, Ok(Done)),
    (Phase, Ok(Stands(DestPhase::Paused, true, 1))),
    (Report, Ok(Took(Some(Brief::Recv(Received::Ended, NONE))))),
    (Rerequest, Ok(Sends((None, None, None)))),
    (
        Take(2, Resume),
        Ok(Took(Some(Brief::Recv(Received::Ended, NONE)))),
    ),
    (Phase, Ok(Stands(DestPhase::Ended, true, 2))),
    (Take(2, End(0)), OUT_OF_PLACE),
];

#[test]
fn breaks_and_resumptions(rt: HostRuntime) {
    let alloc = rt.alloc();
    play(&rt, alloc, "a break before the run", &BEFORE_THE_RUN);
    play(&rt, alloc, "a break before the advise", &NEVER_ADVISED);
    play(&rt, alloc, "a break is noticed once", &NOTICED_ONCE);
    play(&rt, alloc, "a break while it runs", &WHILE_IT_RUNS);
    play(&rt, alloc, "a break after the end", &AFTER_THE_END);
}

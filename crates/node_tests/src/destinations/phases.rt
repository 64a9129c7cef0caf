//! Each frame in each phase.

use super::calls::Answer::{Counted, Done, Stands, Told, Took};
use super::calls::Call::{Act, Counts, Install, Load, Pause, Phase, Read, Retry, Take, TakeUrgent};
use super::calls::{Answer, Step};
use super::play::{ALL_DONE, OUT_OF_PLACE, STALE, TOOK, play};
use crate::frames::Sending::{
    Advise, Discard, End, Package, Page, Recv, Request, Resume, Run, Zero,
};
use crate::frames::{Brief, NONE, Sending};
use mig_base::effect::Effect;
use mig_base::phase::{DestPhase, Received};
use mig_base::refusal::Refusal;

/// Pages 0x10 to 0x13 are mapped, and none is owed.
const NONE_OWED: Sending = Package((0x10, 4), (0x10, 0), 2, None);

/// A destination that knows of no migration takes an Advise of any epoch, and nothing else. Nothing runs.
static IDLE: [Step; 20] = [
    (Phase, Ok(Stands(DestPhase::Idle, false, 0))),
    (Take(0, Page(0x10, 1)), OUT_OF_PLACE),
    (Take(0, Zero(0x10)), OUT_OF_PLACE),
    (Take(0, Run(0x10, 2, 1)), OUT_OF_PLACE),
    (Take(0, Discard((0x10, 1))), OUT_OF_PLACE),
    (Take(0, NONE_OWED), OUT_OF_PLACE),
    (Take(0, End(0)), OUT_OF_PLACE),
    (Take(1, Resume), OUT_OF_PLACE),
    (Take(0, Request(0x10)), OUT_OF_PLACE),
    (Take(0, Recv), OUT_OF_PLACE),
    (Take(0, Sending::Done), OUT_OF_PLACE),
    (TakeUrgent(0, Page(0x10, 1)), OUT_OF_PLACE),
    (Load(0, 0x10000), Err(Refusal::Phase)),
    (Load(2, 0x10000), Err(Refusal::NoCpu)),
    (Retry(0), Err(Refusal::NotAsleep)),
    (Read, Err(Refusal::Phase)),
    (Act, Err(Refusal::Phase)),
    (Install, Err(Refusal::Phase)),
    (Take(7, Advise), TOOK),
    (Phase, Ok(Stands(DestPhase::Advised, false, 7))),
];

/// A destination that was advised takes copies, and a Discard after them.
static ADVISED: [Step; 20] = [
    (Take(1, Advise), TOOK),
    (Take(1, Advise), OUT_OF_PLACE),
    (Take(2, Advise), OUT_OF_PLACE),
    (Take(2, Zero(0x10)), STALE),
    (Take(1, NONE_OWED), OUT_OF_PLACE),
    (Take(1, End(0)), OUT_OF_PLACE),
    (Take(2, Resume), OUT_OF_PLACE),
    (Take(1, Request(0x10)), OUT_OF_PLACE),
    (Take(1, Recv), OUT_OF_PLACE),
    (Take(1, Sending::Done), OUT_OF_PLACE),
    (TakeUrgent(1, Page(0x10, 1)), OUT_OF_PLACE),
    (Load(0, 0x10000), Err(Refusal::Phase)),
    (Read, Err(Refusal::Phase)),
    (Act, Err(Refusal::Phase)),
    (Install, Err(Refusal::Phase)),
    (Take(1, Page(0x10, 1)), TOOK),
    (Take(1, Zero(0x11)), TOOK),
    (Take(1, Run(0x12, 2, 1)), TOOK),
    (Take(1, Discard((0x10, 1))), TOOK),
    (Phase, Ok(Stands(DestPhase::Discarding, false, 1))),
];

/// After a Discard comes a Package.
static DISCARDING: [Step; 19] = [
    (Take(1, Advise), TOOK),
    (Take(1, Discard(NONE)), TOOK),
    (Take(1, Advise), OUT_OF_PLACE),
    (Take(1, Page(0x10, 1)), OUT_OF_PLACE),
    (Take(1, Zero(0x10)), OUT_OF_PLACE),
    (Take(1, Run(0x10, 2, 1)), OUT_OF_PLACE),
    (Take(1, Discard((0x10, 1))), OUT_OF_PLACE),
    (Take(1, End(0)), OUT_OF_PLACE),
    (Take(2, Resume), OUT_OF_PLACE),
    (Take(1, Request(0x10)), OUT_OF_PLACE),
    (Take(1, Recv), OUT_OF_PLACE),
    (Take(1, Sending::Done), OUT_OF_PLACE),
    (TakeUrgent(1, Page(0x10, 1)), OUT_OF_PLACE),
    (Load(0, 0x10000), Err(Refusal::Phase)),
    (Read, Err(Refusal::Phase)),
    (Act, Err(Refusal::Phase)),
    (Install, Err(Refusal::Phase)),
    (Take(1, NONE_OWED), TOOK),
    (Phase, Ok(Stands(DestPhase::Running, true, 1))),
];

const DROPPED_10: Answer = Told(Effect::Dropped { origin: 0x10000 });

/// A destination that runs takes copies of single pages, and an End.
static RUNNING: [Step; 25] = [
    (Take(1, Advise), TOOK),
    (Take(1, Discard(NONE)), TOOK),
    (Take(1, NONE_OWED), TOOK),
    (Take(1, Advise), OUT_OF_PLACE),
    (Take(1, Run(0x10, 2, 1)), OUT_OF_PLACE),
    (Take(1, Discard((0x10, 1))), OUT_OF_PLACE),
    (Take(1, NONE_OWED), OUT_OF_PLACE),
    (Take(2, Resume), OUT_OF_PLACE),
    (Take(1, Request(0x10)), OUT_OF_PLACE),
    (Take(1, Recv), OUT_OF_PLACE),
    (Take(1, Sending::Done), OUT_OF_PLACE),
    (Read, Err(Refusal::NothingThere)),
    (Act, Err(Refusal::NothingThere)),
    (Install, Err(Refusal::NothingThere)),
    (Take(1, Page(0x10, 1)), TOOK),
    (Take(1, Zero(0x10)), TOOK),
    (Counts, Ok(Counted([0, 0, 0], 2, 0))),
    (Install, Ok(DROPPED_10)),
    (Install, Ok(DROPPED_10)),
    (Counts, Ok(Counted([0, 2, 0], 0, 0))),
    (Take(1, End(0)), ALL_DONE),
    (Phase, Ok(Stands(DestPhase::Ended, true, 1))),
    (Read, Err(Refusal::NothingThere)),
    (Act, Err(Refusal::NothingThere)),
    (Install, Err(Refusal::NothingThere)),
];

/// The urgent wire brings copies of single pages, and nothing else.
static URGENT: [Step; 15] = [
    (Take(1, Advise), TOOK),
    (Take(1, Discard(NONE)), TOOK),
    (Take(1, NONE_OWED), TOOK),
    (TakeUrgent(1, Advise), OUT_OF_PLACE),
    (TakeUrgent(1, Run(0x10, 2, 1)), OUT_OF_PLACE),
    (TakeUrgent(1, Discard((0x10, 1))), OUT_OF_PLACE),
    (TakeUrgent(1, NONE_OWED), OUT_OF_PLACE),
    (TakeUrgent(1, End(0)), OUT_OF_PLACE),
    (TakeUrgent(2, Resume), OUT_OF_PLACE),
    (TakeUrgent(1, Request(0x10)), OUT_OF_PLACE),
    (TakeUrgent(1, Recv), OUT_OF_PLACE),
    (TakeUrgent(1, Sending::Done), OUT_OF_PLACE),
    (TakeUrgent(1, Page(0x10, 1)), TOOK),
    (TakeUrgent(1, Zero(0x10)), TOOK),
    (Counts, Ok(Counted([0, 0, 0], 2, 0))),
];

/// A destination that has noticed a break takes a Resume of a later epoch, and nothing else.
static PAUSED: [Step; 21] = [
    (Take(1, Advise), TOOK),
    (Take(1, Discard(NONE)), TOOK),
    (Take(1, NONE_OWED), TOOK),
    (Pause, Ok(Done)),
    (Phase, Ok(Stands(DestPhase::Paused, true, 1))),
    (Take(1, Advise), OUT_OF_PLACE),
    (Take(1, Page(0x10, 1)), OUT_OF_PLACE),
    (Take(1, Zero(0x10)), OUT_OF_PLACE),
    (Take(1, Run(0x10, 2, 1)), OUT_OF_PLACE),
    (Take(1, Discard((0x10, 1))), OUT_OF_PLACE),
    (Take(1, NONE_OWED), OUT_OF_PLACE),
    (Take(1, End(0)), OUT_OF_PLACE),
    (Take(1, Request(0x10)), OUT_OF_PLACE),
    (Take(1, Recv), OUT_OF_PLACE),
    (Take(1, Sending::Done), OUT_OF_PLACE),
    (TakeUrgent(1, Page(0x10, 1)), OUT_OF_PLACE),
    (Take(0, Resume), STALE),
    (Take(1, Resume), STALE),
    (
        Take(5, Resume),
        Ok(Took(Some(Brief::Recv(Received::Running, NONE)))),
    ),
    (Phase, Ok(Stands(DestPhase::Running, true, 5))),
    (Take(5, Resume), OUT_OF_PLACE),
];

/// A destination that has ended takes nothing.
static ENDED: [Step; 17] = [
    (Take(1, Advise), TOOK),
    (Take(1, Discard(NONE)), TOOK),
    (Take(1, NONE_OWED), TOOK),
    (Take(1, End(0)), ALL_DONE),
    (Take(1, Advise), OUT_OF_PLACE),
    (Take(1, Page(0x10, 1)), OUT_OF_PLACE),
    (Take(1, Zero(0x10)), OUT_OF_PLACE),
    (Take(1, Run(0x10, 2, 1)), OUT_OF_PLACE),
    (Take(1, Discard((0x10, 1))), OUT_OF_PLACE),
    (Take(1, NONE_OWED), OUT_OF_PLACE),
    (Take(1, End(0)), OUT_OF_PLACE),
    (Take(2, Resume), OUT_OF_PLACE),
    (Take(1, Request(0x10)), OUT_OF_PLACE),
    (Take(1, Recv), OUT_OF_PLACE),
    (Take(1, Sending::Done), OUT_OF_PLACE),
    (TakeUrgent(1, Page(0x10, 1)), OUT_OF_PLACE),
    (Phase, Ok(Stands(DestPhase::Ended, true, 1))),
];

#[test]
fn each_frame_in_each_phase(rt: HostRuntime) {
    let alloc = rt.alloc();
    play(&rt, alloc, "an idle destination takes an advise", &IDLE);
    play(&rt, alloc, "an advised destination takes copies", &ADVISED);
    play(&rt, alloc, "a package comes behind a discard", &DISCARDING);
    play(
        &rt,
        alloc,
        "a running destination takes single copies",
        &RUNNING,
    );
    play(&rt, alloc, "the urgent wire brings copies", &URGENT);
    play(&rt, alloc, "a paused destination takes a resume", &PAUSED);
    play(
        &rt,
        alloc,
        "a destination that has ended takes nothing",
        &ENDED,
    );
}

//! Frames of another epoch, frames that do not fit what the destination has, and Ends that come too soon.

use super::calls::Answer::{Counted, NotTaken, Stands, Told, Took};
use super::calls::Call::{Counts, Install, Pause, Phase, Take, TakeUrgent};
use super::calls::{Answer, Step};
use super::play::{ALL_DONE, BAD, INSTALLED_10, INSTALLED_11, OUT_OF_PLACE, STALE, TOOK, play};
use crate::frames::Sending::{Advise, Discard, End, Package, Page, Resume, Run, Zero};
use crate::frames::{Brief, NONE, Sending};
use mig_base::effect::Effect;
use mig_base::fault::TakeFault;
use mig_base::phase::{DestPhase, Received};
use mig_base::refusal::Refusal;

/// Pages 0x10 to 0x13 are mapped, and 0x12 is owed.
const OWES_12: Sending = Package((0x10, 4), (0x12, 1), 2, None);

/// Pages 0x10 to 0x13 are mapped, and all are owed.
const OWES_ALL: Sending = Package((0x10, 4), (0x10, 4), 2, None);

/// Each frame of an epoch before the destination's and of one after it. What is out of place is so first, and what is bad is so last.
static EPOCHS: [Step; 25] = [
    (Take(3, Advise), TOOK),
    (Take(2, Page(0x10, 1)), STALE),
    (Take(4, Page(0x10, 1)), STALE),
    (Take(2, Zero(0x10)), STALE),
    (Take(4, Zero(0x10)), STALE),
    (Take(2, Run(0x10, 2, 1)), STALE),
    (Take(4, Run(0x10, 2, 1)), STALE),
    (Take(2, Discard(NONE)), STALE),
    (Take(4, Discard(NONE)), STALE),
    (Take(4, OWES_12), OUT_OF_PLACE),
    (Take(3, Page(0x10, 1)), TOOK),
    (Take(3, Discard(NONE)), TOOK),
    (Take(2, OWES_12), STALE),
    (Take(4, OWES_12), STALE),
    (Take(4, OWES_ALL), STALE),
    (Take(3, OWES_ALL), BAD),
    (Take(3, OWES_12), TOOK),
    (Take(2, Page(0x12, 1)), STALE),
    (Take(4, Zero(0x12)), STALE),
    (TakeUrgent(2, Page(0x12, 1)), STALE),
    (TakeUrgent(4, Zero(0x12)), STALE),
    (Take(4, End(1)), STALE),
    (Take(4, End(0)), OUT_OF_PLACE),
    (Counts, Ok(Counted([0, 0, 0], 0, 1))),
    (Phase, Ok(Stands(DestPhase::Running, true, 3))),
];

/// Pages 0x11 and 0x12 are kept. A Package may not owe one of them, nor one that it does not map, and must map both. It is of as
/// many processors as the destination.
static TORN: [Step; 14] = [
    (Take(1, OWES_12), OUT_OF_PLACE),
    (Take(1, Advise), TOOK),
    (Take(1, Run(0x10, 3, 1)), TOOK),
    (Take(1, Discard((0x10, 1))), TOOK),
    (Take(1, OWES_12), BAD),
    (Take(1, Package((0x10, 4), (0x10, 2), 2, None)), BAD),
    (Take(1, Package((0x10, 3), (0x13, 1), 2, None)), BAD),
    (Take(1, Package((0x11, 2), (0x10, 1), 2, None)), BAD),
    (Take(1, Package((0x12, 2), (0x13, 1), 2, None)), BAD),
    (Take(1, Package((0x10, 2), (0x10, 1), 2, None)), BAD),
    (Take(1, Package((0x10, 4), (0x10, 1), 1, None)), BAD),
    (Take(1, Package((0x10, 4), (0x10, 1), 3, None)), BAD),
    (Phase, Ok(Stands(DestPhase::Discarding, false, 1))),
    (Take(1, Package((0x10, 4), (0x10, 1), 2, None)), TOOK),
];

const INSTALL_FIRST: Result<Answer, Refusal> = Ok(NotTaken(TakeFault::InstallFirst));

const URGENT_FIRST: Result<Answer, Refusal> = Ok(NotTaken(TakeFault::UrgentFirst));

/// An End while pages are owed is out of place, unless a copy waits or urgent frames are still to come.
static ENDS: [Step; 20] = [
    (Take(1, Advise), TOOK),
    (Take(1, Discard(NONE)), TOOK),
    (Take(1, Package((0x10, 4), (0x10, 2), 2, None)), TOOK),
    (Take(1, End(0)), OUT_OF_PLACE),
    (Take(1, End(1)), URGENT_FIRST),
    (Take(1, Page(0x10, 1)), TOOK),
    (Take(1, End(0)), INSTALL_FIRST),
    (Take(1, End(2)), INSTALL_FIRST),
    (Install, Ok(INSTALLED_10)),
    (Take(1, End(0)), OUT_OF_PLACE),
    (TakeUrgent(1, Zero(0x11)), TOOK),
    (Take(1, End(0)), BAD),
    (Take(1, End(1)), INSTALL_FIRST),
    (Install, Ok(INSTALLED_11)),
    (Take(1, End(0)), BAD),
    (Take(1, End(2)), URGENT_FIRST),
    (Phase, Ok(Stands(DestPhase::Running, true, 1))),
    (Take(1, End(1)), ALL_DONE),
    (Phase, Ok(Stands(DestPhase::Ended, true, 1))),
    (Counts, Ok(Counted([2, 0, 0], 0, 0))),
];

/// A new epoch counts its urgent frames anew. Those of the one before may still wait to be installed.
static COUNTED_ANEW: [Step; 13] = [
    (Take(1, Advise), TOOK),
    (Take(1, Discard(NONE)), TOOK),
    (Take(1, Package((0x10, 4), (0x10, 1), 2, None)), TOOK),
    (TakeUrgent(1, Page(0x10, 1)), TOOK),
    (TakeUrgent(1, Page(0x10, 1)), TOOK),
    (Pause, Ok(Answer::Done)),
    (
        Take(2, Resume),
        Ok(Took(Some(Brief::Recv(Received::Running, (0x10, 1))))),
    ),
    (Take(2, End(0)), INSTALL_FIRST),
    (Install, Ok(INSTALLED_10)),
    (Take(2, End(0)), INSTALL_FIRST),
    (Install, Ok(Told(Effect::Dropped { origin: 0x10000 }))),
    (Take(2, End(1)), URGENT_FIRST),
    (Take(2, End(0)), ALL_DONE),
];

#[test]
fn frames_that_are_not_taken(rt: HostRuntime) {
    let alloc = rt.alloc();
    play(&rt, alloc, "frames of another epoch", &EPOCHS);
    play(&rt, alloc, "packages that do not fit", &TORN);
    play(&rt, alloc, "ends that come too soon", &ENDS);
    play(&rt, alloc, "a new epoch counts anew", &COUNTED_ANEW);
}

//! Scenes of a migration that tests play up to each of their rows, or with each of their growths refused.

use crate::answers::Answer::{
    Asked, Asleep, Broken, CpuIs, Dropped, EndSent, Entered, InCall, Installed, ReadMissing,
    ReadProtected, ReadRemap, ReadRemove, ReadUnmap, Refused, Remain, Replied, Requested,
    RoundMade, SentPage, SourceIs, Stands, Started, Switched, TookAdvise, TookDiscard, TookDone,
    TookEnd, TookPackage, TookPage, TookRecv, TookRequest, Unprotected, Zeroed,
};
use crate::calls::Call::{
    Back, Break, Cpu, Deliver, DeliverUrgent, DestAct, DestRead, DontNeed, End, Install, Load, Map,
    Move, Munmap, Progress, Push, PushFor, PushUrgent, Remaining, Retry, Round, Send, Serve,
    Source, SourceAct, SourceRead, Start, Store, Switch, Transcript,
};
use crate::play::Row;
use mig_base::Reply::{At, BadAccess, Done, Segv, Value};
use mig_base::WorldPhase;
use mig_base::cpu_state::CpuState;
use mig_base::phase::{Received, SourcePhase};
use mig_base::refusal::Refusal;

/// Loads and stores of a guest that does not move.
pub static ACCESSES: [Row; 11] = [
    (Progress, Stands(WorldPhase::Idle, [0, 0, 0, 0, 0, 0])),
    (Map(0, 8192), Replied(0, At(0x10000))),
    (
        Store(0, 0x10ff8, 8, 0x1122_3344_5566_7788),
        Replied(0, Done),
    ),
    (
        Load(1, 0x10ff8, 8),
        Replied(1, Value(0x1122_3344_5566_7788)),
    ),
    (Load(1, 0x10ffc, 4), Replied(1, Value(0x1122_3344))),
    (Load(1, 0x10ffc, 8), Replied(1, BadAccess)),
    (Store(0, 0x10000, 1, 256), Replied(0, BadAccess)),
    (Load(0, 0x11000, 4), Replied(0, Value(0))),
    (Load(0, 0x12000, 1), Replied(0, Segv { mapped: false })),
    (Load(2, 0x10000, 1), Refused(Refusal::NoCpu)),
    (Transcript, Entered(8, Some(Segv { mapped: false }))),
];

/// A page that is made zeros again after it was sent is discarded, and is zeros at the destination too.
pub static DISCARDED: [Row; 30] = [
    (Map(0, 8192), Replied(0, At(0x10000))),
    (Store(0, 0x10000, 8, 1), Replied(0, Done)),
    (Store(0, 0x11000, 8, 2), Replied(0, Done)),
    (Start, Started(1)),
    (Round, RoundMade(1, 2)),
    (Send, SentPage(0x10000)),
    (Send, SentPage(0x11000)),
    (Send, Refused(Refusal::NothingThere)),
    (DontNeed(0, 0x10000, 4096), InCall(0, 1)),
    (Switch, Refused(Refusal::Changing)),
    (SourceRead, ReadRemove(0x10000, 0x11000, Some((0, Done)))),
    (Switch, Switched(1, 0)),
    (Deliver, TookAdvise),
    (Deliver, TookPage(0x10000)),
    (Deliver, TookPage(0x11000)),
    (Deliver, TookDiscard(1)),
    (Deliver, TookPackage(0)),
    (Load(0, 0x10000, 8), Asleep(0)),
    (DestRead, ReadMissing(0x10000)),
    (DestAct, Zeroed(0x10000)),
    (Retry(0), Replied(0, Value(0))),
    (Load(0, 0x11000, 8), Replied(0, Value(2))),
    (End, EndSent),
    (Deliver, TookEnd),
    (Back, TookDone),
    (Progress, Stands(WorldPhase::Complete, [1, 2, 0, 0, 0, 1])),
    (Source, SourceIs(SourcePhase::Released, 1)),
    (Remaining, Remain(0, 0x10_0000)),
    (Load(1, 0x11000, 8), Replied(1, Value(2))),
    (Transcript, Entered(7, Some(Value(2)))),
];

/// A page that is stored to after it was sent is owed. It is asked for, pushed and installed, and only then the End is taken.
pub static ASKED_FOR: [Row; 26] = [
    (Store(0, 0x10000, 8, 9), Asleep(0)),
    (Load(1, 0x10000, 8), Replied(1, Value(1))),
    (Retry(0), Refused(Refusal::NotWoken)),
    (SourceRead, ReadProtected(0x10000)),
    (SourceAct, Unprotected(0x10000)),
    (Retry(0), Replied(0, Done)),
    (Switch, Switched(1, 1)),
    (Deliver, TookAdvise),
    (Deliver, TookPage(0x10000)),
    (Deliver, TookDiscard(1)),
    (Deliver, TookPackage(1)),
    (Load(1, 0x10000, 8), Asleep(1)),
    (DestRead, ReadMissing(0x10000)),
    (DestAct, Requested(0x10000, 0x10000)),
    (Back, TookRequest(0x10000)),
    (Serve, Asked(0x10000)),
    (Push(0x10), SentPage(0x10000)),
    (Push(0x10), Refused(Refusal::NotRemaining)),
    (Deliver, TookPage(0x10000)),
    (End, EndSent),
    (Deliver, Refused(Refusal::InstallFirst)),
    (Install, Installed(0x10000, 0x10000)),
    (Retry(1), Replied(1, Value(9))),
    (Deliver, TookEnd),
    (Back, TookDone),
    (Progress, Stands(WorldPhase::Complete, [1, 2, 0, 1, 0, 2])),
];

/// A page is unmapped while its copy is in flight, and the copy is dropped.
pub static UNMAPPED: [Row; 10] = [
    (Push(0x10), SentPage(0x10000)),
    (Munmap(0, 0x10000, 4096), InCall(0, 1)),
    (Deliver, TookPage(0x10000)),
    (Install, Refused(Refusal::Changing)),
    (DestRead, ReadUnmap(0x10000, 0x11000, Some((0, Done)))),
    (Map(0, 4096), Replied(0, At(0x10000))),
    (Store(0, 0x10000, 8, 5), Replied(0, Done)),
    (Install, Dropped(0x10000)),
    (Load(0, 0x10000, 8), Replied(0, Value(5))),
    (Progress, Stands(WorldPhase::Postcopy, [0, 1, 0, 0, 1, 0])),
];

const MOVING: CpuState = CpuState::InCall {
    reply: At(0x20000),
    left: 1,
};

/// A page is moved before it is asked for: what is asked for is the page of the source, and its copy goes to the new place.
pub static MOVED: [Row; 14] = [
    (Move(0, 0x10000, 4096, 4096, 0x20000), InCall(0, 1)),
    (Cpu(0), CpuIs(MOVING)),
    (Load(1, 0x20000, 8), Asleep(1)),
    (DestRead, ReadMissing(0x20000)),
    (DestAct, Refused(Refusal::Changing)),
    (
        DestRead,
        ReadRemap(0x10000, 0x20000, 4096, Some((0, At(0x20000)))),
    ),
    (DestAct, Requested(0x10000, 0x20000)),
    (Back, TookRequest(0x10000)),
    (Serve, Asked(0x10000)),
    (Push(0x10), SentPage(0x10000)),
    (Deliver, TookPage(0x10000)),
    (Install, Installed(0x20000, 0x10000)),
    (Retry(1), Replied(1, Value(1))),
    (Progress, Stands(WorldPhase::Postcopy, [0, 1, 0, 1, 0, 1])),
];

/// The End waits for the urgent frames of its epoch.
pub static URGENT: [Row; 17] = [
    (DeliverUrgent, Refused(Refusal::NothingThere)),
    (Push(0x10), SentPage(0x10000)),
    (PushUrgent(0x12), SentPage(0x12000)),
    (Push(0x12), Refused(Refusal::NotRemaining)),
    (PushUrgent(0x11), SentPage(0x11000)),
    (End, EndSent),
    (Deliver, TookPage(0x10000)),
    (Deliver, Refused(Refusal::InstallFirst)),
    (Install, Installed(0x10000, 0x10000)),
    (Deliver, Refused(Refusal::UrgentFirst)),
    (DeliverUrgent, TookPage(0x12000)),
    (Install, Installed(0x12000, 0x12000)),
    (DeliverUrgent, TookPage(0x11000)),
    (Install, Installed(0x11000, 0x11000)),
    (Deliver, TookEnd),
    (Back, TookDone),
    (Progress, Stands(WorldPhase::Complete, [0, 3, 0, 3, 0, 0])),
];

/// Between the switch and the run, where all that is present is owed then.
pub static SWITCHED: [Row; 3] = [
    (Switch, Switched(0, 0)),
    (Break, Broken),
    (Load(0, 0x10000, 8), Refused(Refusal::Phase)),
];

pub static ALL_IS_OWED: [Row; 8] = [
    (Back, TookRecv(Received::NotRun, 0)),
    (Remaining, Remain(1, 0x10)),
    (Deliver, TookDiscard(0)),
    (Deliver, TookPackage(1)),
    (Push(0x10), SentPage(0x10000)),
    (Deliver, TookPage(0x10000)),
    (Install, Installed(0x10000, 0x10000)),
    (Load(0, 0x10000, 8), Replied(0, Value(1))),
];

/// While all copies are in flight.
pub static IN_FLIGHT: [Row; 5] = [
    (Push(0x10), SentPage(0x10000)),
    (Push(0x11), SentPage(0x11000)),
    (Push(0x12), SentPage(0x12000)),
    (Break, Broken),
    (End, Refused(Refusal::Broken)),
];

pub static PUSHED_ANEW: [Row; 14] = [
    (Back, TookRecv(Received::Running, 3)),
    (PushFor(1, 0x10), Refused(Refusal::StaleEpoch)),
    (Push(0x10), SentPage(0x10000)),
    (Push(0x11), SentPage(0x11000)),
    (Push(0x12), SentPage(0x12000)),
    (Deliver, TookPage(0x10000)),
    (Deliver, TookPage(0x11000)),
    (Deliver, TookPage(0x12000)),
    (Install, Installed(0x10000, 0x10000)),
    (Install, Installed(0x11000, 0x11000)),
    (Install, Installed(0x12000, 0x12000)),
    (Install, Refused(Refusal::NothingThere)),
    (Load(0, 0x12000, 8), Replied(0, Value(3))),
    (Progress, Stands(WorldPhase::Postcopy, [0, 6, 0, 3, 0, 0])),
];

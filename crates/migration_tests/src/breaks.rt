//! Breaks of the channel after which a test looks at more than the outcomes of steps, and how the migration continues.

use crate::answers::Answer::{
    Asleep, Broken, CpuIs, EndSent, Installed, Noticed, ReadMissing, ReadProtected, Refused,
    Remain, Replied, Resumed, RoundMade, SentPage, SourceIs, Stands, Started, Switched, TookAdvise,
    TookDiscard, TookDone, TookEnd, TookPackage, TookPage, TookRecv, TookResume, Unprotected,
    Zeroed,
};
use crate::calls::Call::{
    Back, Break, Cpu, Deliver, DeliverUrgent, DestAct, DestRead, End, Install, Load, Map, Notice,
    Progress, Push, PushFor, Remaining, Resume, Retry, Round, Send, SendRun, Source, SourceAct,
    SourceRead, Start, Store, Switch,
};
use crate::openings::{OWED, RESUMED, SENT};
use crate::play::{Row, play_new};
use mig_base::Reply::{At, Done, Value};
use mig_base::cpu_state::CpuState;
use mig_base::phase::{Received, SourcePhase};
use mig_base::refusal::Refusal;
use mig_base::schedule::Side;
use mig_base::{Command, WorldPhase};

/// While a round is sent. The guest runs on, and a page that was sent stays protected.
static IN_A_ROUND: [Row; 8] = [
    (Break, Broken),
    (Send, Refused(Refusal::Broken)),
    (SendRun(2), Refused(Refusal::Broken)),
    (Switch, Refused(Refusal::Broken)),
    (Deliver, Refused(Refusal::Broken)),
    (Back, Refused(Refusal::Broken)),
    (DeliverUrgent, Refused(Refusal::Phase)),
    (Store(0, 0x10000, 8, 9), Asleep(0)),
];

static A_NEW_ROUND: [Row; 13] = [
    (Back, TookRecv(Received::NotRun, 0)),
    (SourceRead, ReadProtected(0x10000)),
    (SourceAct, Unprotected(0x10000)),
    (Retry(0), Replied(0, Done)),
    (Round, RoundMade(2, 1)),
    (Send, SentPage(0x10000)),
    (Switch, Switched(0, 0)),
    (Deliver, TookPage(0x10000)),
    (Deliver, TookDiscard(0)),
    (Deliver, TookPackage(0)),
    (Load(0, 0x10000, 8), Replied(0, Value(9))),
    (Source, SourceIs(SourcePhase::Stopped, 2)),
    (Progress, Stands(WorldPhase::Postcopy, [2, 2, 0, 0, 0, 1])),
];

const STORE: Command = Command::Store {
    addr: 0x11000,
    width: 8,
    value: 4,
};

/// Between the switch and the run, once the Discard was taken, while a processor sleeps at the source.
static DISCARDED: [Row; 14] = [
    (Map(0, 8192), Replied(0, At(0x10000))),
    (Store(0, 0x10000, 8, 1), Replied(0, Done)),
    (Start, Started(1)),
    (Store(1, 0x11000, 8, 4), Asleep(1)),
    (Switch, Switched(0, 1)),
    (Deliver, TookAdvise),
    (Deliver, TookDiscard(0)),
    (Break, Broken),
    (SourceRead, Refused(Refusal::Phase)),
    (Load(0, 0x10000, 8), Refused(Refusal::Phase)),
    (Load(1, 0x10000, 8), Refused(Refusal::Busy)),
    (Retry(1), Refused(Refusal::NotWoken)),
    (Cpu(1), CpuIs(CpuState::Asleep(STORE))),
    (Progress, Stands(WorldPhase::Switching, [0, 0, 1, 0, 0, 0])),
];

static WOKEN: [Row; 20] = [
    (Back, TookRecv(Received::NotRun, 0)),
    (Deliver, TookDiscard(0)),
    (Deliver, TookPackage(1)),
    (Cpu(1), CpuIs(CpuState::Woken(STORE))),
    (Retry(1), Asleep(1)),
    (DestRead, ReadMissing(0x11000)),
    (DestAct, Zeroed(0x11000)),
    (Retry(1), Replied(1, Done)),
    (Load(1, 0x11000, 8), Replied(1, Value(4))),
    (Push(0x11), Refused(Refusal::PageNotSendable)),
    (PushFor(1, 0x10), Refused(Refusal::StaleEpoch)),
    (Push(0x10), SentPage(0x10000)),
    (Deliver, TookPage(0x10000)),
    (End, EndSent),
    (Deliver, Refused(Refusal::InstallFirst)),
    (Install, Installed(0x10000, 0x10000)),
    (Deliver, TookEnd),
    (Back, TookDone),
    (Load(0, 0x10000, 8), Replied(0, Value(1))),
    (Progress, Stands(WorldPhase::Complete, [0, 1, 0, 1, 0, 1])),
];

/// Nothing is in flight.
static BREAKS: [Row; 1] = [(Break, Broken)];

/// A second break before the source knows of the first resumption.
static TWICE: [Row; 8] = [
    (Break, Broken),
    (Notice(Side::Source), Refused(Refusal::Phase)),
    (Notice(Side::Destination), Noticed(Side::Destination)),
    (Resume, Resumed(3)),
    (Deliver, TookResume),
    (Back, TookRecv(Received::Running, 1)),
    (Source, SourceIs(SourcePhase::Stopped, 3)),
    (Remaining, Remain(1, 0x10)),
];

#[test]
fn breaks_of_the_channel(rt: HostRuntime) {
    let in_a_round: [&[Row]; 4] = [&SENT, &IN_A_ROUND, &RESUMED, &A_NEW_ROUND];
    play_new(&rt, rt.alloc(), "in a round", &in_a_round);
    let discarded: [&[Row]; 3] = [&DISCARDED, &RESUMED, &WOKEN];
    play_new(&rt, rt.alloc(), "discarded", &discarded);
    let twice: [&[Row]; 4] = [&OWED, &BREAKS, &RESUMED, &TWICE];
    play_new(&rt, rt.alloc(), "twice", &twice);
}

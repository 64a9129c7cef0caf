//! What a caller sees of a world besides the outcomes of steps: its source, its processors, and the pages that remain.

use crate::answers::Answer::{
    Asleep, Broken, CpuIs, Noticed, ReadMissing, Refused, Remain, Replied, RoundMade, SentPage,
    SentZero, SourceIs, Stands, Started, Switched, TookAdvise, TookDiscard, TookPackage, TookZero,
    Zeroed,
};
use crate::calls::Call::{
    Break, Cpu, Deliver, DeliverUrgent, DestAct, DestRead, Load, Map, Notice, Progress, Push,
    PushUrgent, Remaining, Retry, Round, Send, Source, Start, Store, Switch,
};
use crate::openings::{OWED, OWED_THREE, STARTED};
use crate::play::{Row, play_new};
use mig_base::Reply::{At, Done, Value};
use mig_base::cpu_state::CpuState;
use mig_base::phase::SourcePhase;
use mig_base::refusal::Refusal;
use mig_base::schedule::Side;
use mig_base::{Command, WorldPhase};

/// Before the start.
static AT_FIRST: [Row; 2] = [
    (Cpu(2), Refused(Refusal::NoCpu)),
    (Source, SourceIs(SourcePhase::Idle, 0)),
];

/// After the switch, and once the source has noticed a break.
static STOPPED: [Row; 5] = [
    (Source, SourceIs(SourcePhase::Stopped, 1)),
    (Load(0, 0x10000, 8), Asleep(0)),
    (Break, Broken),
    (Notice(Side::Source), Noticed(Side::Source)),
    (Source, SourceIs(SourcePhase::Paused, 1)),
];

/// Each page was pushed.
static PUSHED: [Row; 4] = [
    (Push(0x10), SentPage(0x10000)),
    (PushUrgent(0x11), SentPage(0x11000)),
    (Push(0x12), SentPage(0x12000)),
    (Remaining, Remain(0, 0x10_0000)),
];

const LOAD: Command = Command::Load {
    addr: 0x10000,
    width: 8,
};

/// A processor that sleeps at the source must try again at the destination, and sleeps there again.
static ASLEEP: [Row; 15] = [
    (Map(0, 4096), Replied(0, At(0x10000))),
    (Start, Started(1)),
    (Load(1, 0x10000, 8), Asleep(1)),
    (Switch, Switched(0, 0)),
    (Retry(1), Refused(Refusal::NotWoken)),
    (Cpu(1), CpuIs(CpuState::Asleep(LOAD))),
    (Deliver, TookAdvise),
    (Deliver, TookDiscard(0)),
    (Deliver, TookPackage(0)),
    (Cpu(1), CpuIs(CpuState::Woken(LOAD))),
    (Retry(1), Asleep(1)),
    (DestRead, ReadMissing(0x10000)),
    (DestAct, Zeroed(0x10000)),
    (Retry(1), Replied(1, Value(0))),
    (Cpu(1), CpuIs(CpuState::Idle)),
];

/// A page of zeros is sent as such, and what no round sent is owed.
static ZEROS: [Row; 16] = [
    (Store(1, 0x10000, 8, 0), Replied(1, Done)),
    (Map(1, 4096), Replied(1, At(0x11000))),
    (Store(1, 0x11000, 8, 7), Replied(1, Done)),
    (Round, RoundMade(1, 2)),
    (Send, SentZero(0x10000)),
    (Switch, Switched(0, 1)),
    (Remaining, Remain(1, 0x11)),
    (Progress, Stands(WorldPhase::Switching, [1, 1, 1, 0, 0, 0])),
    (Load(0, 0x10000, 8), Refused(Refusal::Phase)),
    (Deliver, TookAdvise),
    (Deliver, TookZero(0x10000)),
    (Deliver, TookDiscard(0)),
    (DeliverUrgent, Refused(Refusal::Phase)),
    (Deliver, TookPackage(1)),
    (Load(0, 0x10000, 8), Replied(0, Value(0))),
    (Progress, Stands(WorldPhase::Postcopy, [1, 1, 1, 0, 0, 0])),
];

#[test]
fn what_a_caller_sees(rt: HostRuntime) {
    play_new(&rt, rt.alloc(), "at first", &[&AT_FIRST]);
    play_new(&rt, rt.alloc(), "stopped", &[&OWED, &STOPPED]);
    play_new(&rt, rt.alloc(), "pushed", &[&OWED_THREE, &PUSHED]);
    play_new(&rt, rt.alloc(), "asleep", &[&ASLEEP]);
    play_new(&rt, rt.alloc(), "zeros", &[&STARTED, &ZEROS]);
}

//! The greatest counts, and the most processors.

use crate::answers::Answer::{
    Asleep, Broken, CpuIs, EndSent, Entered, Installed, Noticed, ReadMissing, Refused, Replied,
    Requested, RoundMade, SentPage, SourceIs, Stands, Started, Switched, TookAdvise, TookDiscard,
    TookDone, TookEnd, TookPackage, TookPage, TookRequest, Zeroed,
};
use crate::calls::Call::{
    Back, Break, Cpu, Deliver, DestAct, DestRead, End, Install, Load, Map, Notice, Progress, Push,
    Resume, Retry, Round, Send, Source, Start, Store, Switch, Transcript,
};
use crate::play::{After, Row, on_world, play, play_after};
use mig_base::Reply::{At, Done, Value};
use mig_base::cpu_state::CpuState;
use mig_base::phase::SourcePhase;
use mig_base::refusal::Refusal;
use mig_base::schedule::Side;
use mig_base::{Addr, WorldPhase};
use std::alloc::Global;
use std::process::Abort;
use world::World;

/// Plays a table on a world of one processor whose counts of epochs and of rounds stand at these.
fn play_at(rt: &impl Abort, alloc: Global, counts: (u32, u32), rows: &[Row]) {
    let new = (1, counts.0, counts.1);
    let told = on_world(rt, alloc, new, "counts", &[rows], After::Nothing);
    assert!(rt; told == Ok(true));
}

static NO_EPOCH: [Row; 3] = [
    (Start, Refused(Refusal::CountUsed)),
    (Round, Refused(Refusal::Phase)),
    (Source, SourceIs(SourcePhase::Idle, u32::MAX)),
];

static NO_ROUND: [Row; 5] = [
    (Start, Started(1)),
    (Round, Refused(Refusal::CountUsed)),
    (Send, Refused(Refusal::NothingThere)),
    (Switch, Switched(0, 0)),
    (
        Progress,
        Stands(WorldPhase::Switching, [4_294_967_295, 0, 0, 0, 0, 0]),
    ),
];

/// The last epoch and the last round; no further epoch can begin.
static THE_LAST: [Row; 11] = [
    (Start, Started(u32::MAX)),
    (Round, RoundMade(u32::MAX, 0)),
    (Round, Refused(Refusal::CountUsed)),
    (Resume, Refused(Refusal::Phase)),
    (Break, Broken),
    (Round, Refused(Refusal::CountUsed)),
    (Notice(Side::Destination), Noticed(Side::Destination)),
    (Notice(Side::Source), Noticed(Side::Source)),
    (Resume, Refused(Refusal::CountUsed)),
    (Source, SourceIs(SourcePhase::Paused, u32::MAX)),
    (
        Progress,
        Stands(WorldPhase::Precopy, [4_294_967_295, 0, 0, 0, 0, 0]),
    ),
];

static FURTHER: [Row; 2] = [(Start, Started(7)), (Round, RoundMade(6, 0))];

#[test]
fn the_greatest_counts(rt: HostRuntime) {
    play_at(&rt, rt.alloc(), (u32::MAX, 0), &NO_EPOCH);
    play_at(&rt, rt.alloc(), (0, u32::MAX), &NO_ROUND);
    play_at(&rt, rt.alloc(), (u32::MAX - 1, u32::MAX - 1), &THE_LAST);
    play_at(&rt, rt.alloc(), (6, 5), &FURTHER);
}

/// A world has this number of processors, or it is not made.
fn has_processors(rt: &impl Abort, alloc: Global, cpus: u8, wanted: Result<bool, Refusal>) {
    let told = play_after(rt, alloc, cpus, After::Nothing);
    assert!(rt; told == wanted, "{cpus} processors");
}

#[test]
fn counts_of_processors(rt: HostRuntime) {
    has_processors(&rt, rt.alloc(), 0, Err(Refusal::NoCpu));
    has_processors(&rt, rt.alloc(), 1, Ok(true));
    has_processors(&rt, rt.alloc(), 16, Ok(true));
    has_processors(&rt, rt.alloc(), 17, Err(Refusal::NoCpu));
    has_processors(&rt, rt.alloc(), 255, Err(Refusal::NoCpu));
}

/// Each of 16 processors loads from a page, and sleeps.
fn all_load(rt: &impl Abort, world: &mut World, addr: Addr) {
    for cpu in 0..16 {
        let row = (Load(cpu, addr, 8), Asleep(cpu));
        play(rt, world, "load", [row].as_slice());
    }
}

/// Each of them sleeps again.
fn all_sleep(rt: &impl Abort, world: &mut World) {
    for cpu in 0..16 {
        let row = (Retry(cpu), Asleep(cpu));
        play(rt, world, "sleep", [row].as_slice());
    }
}

/// Each of them reads this value.
fn all_read(rt: &impl Abort, world: &mut World, value: u64) {
    for cpu in 0..16 {
        let row = (Retry(cpu), Replied(cpu, Value(value)));
        play(rt, world, "read", [row].as_slice());
    }
}

static MANY: [Row; 6] = [
    (Map(15, 8192), Replied(15, At(0x10000))),
    (Store(14, 0x11000, 8, 9), Replied(14, Done)),
    (Load(16, 0x11000, 8), Refused(Refusal::NoCpu)),
    (Cpu(16), Refused(Refusal::NoCpu)),
    (Cpu(15), CpuIs(CpuState::Idle)),
    (Start, Started(1)),
];

static MANY_SWITCHED: [Row; 7] = [
    (Load(15, 0x11000, 8), Refused(Refusal::Busy)),
    (Switch, Switched(0, 1)),
    (Load(15, 0x11000, 8), Refused(Refusal::Busy)),
    (Retry(15), Refused(Refusal::NotWoken)),
    (Deliver, TookAdvise),
    (Deliver, TookDiscard(0)),
    (Deliver, TookPackage(1)),
];

/// One message tells of all of them.
static WOKEN: [Row; 4] = [
    (DestRead, ReadMissing(0x10000)),
    (DestRead, Refused(Refusal::NothingThere)),
    (DestAct, Zeroed(0x10000)),
    (DestAct, Refused(Refusal::NothingThere)),
];

/// So does one request.
static ANSWERED: [Row; 8] = [
    (DestRead, ReadMissing(0x11000)),
    (DestAct, Requested(0x11000, 0x11000)),
    (DestRead, Refused(Refusal::NothingThere)),
    (Back, TookRequest(0x11000)),
    (Push(0x11), SentPage(0x11000)),
    (Deliver, TookPage(0x11000)),
    (Retry(7), Refused(Refusal::NotWoken)),
    (Install, Installed(0x11000, 0x11000)),
];

static MANY_ENDED: [Row; 5] = [
    (Transcript, Entered(34, Some(Value(9)))),
    (End, EndSent),
    (Deliver, TookEnd),
    (Back, TookDone),
    (Progress, Stands(WorldPhase::Complete, [0, 1, 0, 1, 0, 2])),
];

pub fn play_many(rt: &impl Abort, world: &mut World) {
    play(rt, world, "many", &MANY);
    all_load(rt, world, 0x10000);
    play(rt, world, "switched", &MANY_SWITCHED);
    all_sleep(rt, world);
    play(rt, world, "woken", &WOKEN);
    all_read(rt, world, 0);
    all_load(rt, world, 0x11000);
    play(rt, world, "answered", &ANSWERED);
    all_read(rt, world, 9);
    play(rt, world, "ended", &MANY_ENDED);
}

#[test]
fn the_most_processors(rt: HostRuntime) {
    let told = play_after(&rt, rt.alloc(), 16, After::Many);
    assert!(rt; told == Ok(true));
}

//! Worlds that are copied in mid-migration. The copy and the world continue in two ways, and neither touches the other.

use crate::answers::Answer::{
    Asked, Asleep, Broken, CpuIs, EndSent, Entered, Installed, Noticed, ReadMissing, ReadProtected,
    Remain, Replied, Requested, Resumed, SentPage, SourceIs, Stands, Switched, TookAdvise,
    TookDiscard, TookDone, TookEnd, TookPackage, TookPage, TookRecv, TookRequest, TookResume,
    Unprotected,
};
use crate::calls::Call::{
    Back, Break, Cpu, Deliver, DeliverUrgent, DestAct, DestRead, End, Install, Load, Notice,
    Progress, Push, PushUrgent, Remaining, Resume, Retry, Serve, Source, SourceAct, SourceRead,
    Store, Switch, Transcript,
};
use crate::openings::{OWED_THREE, SENT};
use crate::play::{After, Parts, Row, Ways, on_world, play};
use mig_base::Reply::{Done, Value};
use mig_base::cpu_state::CpuState;
use mig_base::phase::{Received, SourcePhase};
use mig_base::schedule::Side;
use mig_base::{Command, NoMemory, WorldPhase};
use std::alloc::Global;
use std::process::Abort;
use world::World;

/// Copies a world. If memory is refused, it tries once more.
fn copy_of(world: &World) -> Result<World, NoMemory> {
    match world.copy() {
        Err(NoMemory) => world.copy(),
        answer => answer,
    }
}

/// Whether two worlds are the same, asked both ways.
fn are_same(rt: &impl Abort, world: &World, other: &World) -> bool {
    let is_same = world.is_same(other);
    assert!(rt; other.is_same(world) == is_same, "the two ways differ");
    is_same
}

/// Plays what both show at first, how the copy continues, how the world continues, and what the copy shows then. Both are the same world
/// until one of them makes a step.
fn play_both(rt: &impl Abort, world: &mut World, copy: &mut World, ways: Ways) {
    assert!(rt; are_same(rt, world, copy), "a copy is another world");
    play(rt, copy, "the copy at first", ways.0);
    assert!(rt; are_same(rt, world, copy), "questions make another world");
    play(rt, copy, "the copy goes on", ways.1);
    assert!(rt; !are_same(rt, world, copy), "steps leave the same world");
    play(rt, world, "the world at first", ways.0);
    play(rt, world, "the world goes on", ways.2);
    assert!(rt;
        !are_same(rt, world, copy),
        "two ways lead to the same world"
    );
    play(rt, copy, "the copy then", ways.3);
}

/// Copies a world, and plays on both. Whether memory was found for the copy.
pub fn play_copied(rt: &impl Abort, world: &mut World, ways: Ways) -> bool {
    let Ok(mut copy) = copy_of(world) else {
        return false;
    };
    play_both(rt, world, &mut copy, ways);
    true
}

const LOAD: Command = Command::Load {
    addr: 0x10000,
    width: 8,
};

/// Three pages are owed: one is asked for, one is in flight, and the copy of one waits to be installed.
static MIDWAY: [Row; 6] = [
    (Load(1, 0x10000, 8), Asleep(1)),
    (DestRead, ReadMissing(0x10000)),
    (DestAct, Requested(0x10000, 0x10000)),
    (Push(0x11), SentPage(0x11000)),
    (PushUrgent(0x12), SentPage(0x12000)),
    (DeliverUrgent, TookPage(0x12000)),
];

static AT_FIRST: [Row; 4] = [
    (Progress, Stands(WorldPhase::Postcopy, [0, 2, 3, 0, 0, 1])),
    (Remaining, Remain(1, 0x10)),
    (Cpu(1), CpuIs(CpuState::Asleep(LOAD))),
    (Transcript, Entered(4, Some(Done))),
];

/// The channel of the copy breaks: the request and the page in flight are lost.
static BROKEN: [Row; 15] = [
    (Break, Broken),
    (Notice(Side::Source), Noticed(Side::Source)),
    (Notice(Side::Destination), Noticed(Side::Destination)),
    (Resume, Resumed(2)),
    (Deliver, TookResume),
    (Back, TookRecv(Received::Running, 3)),
    (Back, TookRequest(0x10000)),
    (Remaining, Remain(3, 0x10)),
    (Install, Installed(0x12000, 0x12000)),
    (Load(0, 0x12000, 8), Replied(0, Value(3))),
    (Push(0x10), SentPage(0x10000)),
    (Deliver, TookPage(0x10000)),
    (Install, Installed(0x10000, 0x10000)),
    (Retry(1), Replied(1, Value(1))),
    (Progress, Stands(WorldPhase::Postcopy, [0, 3, 1, 2, 0, 1])),
];

/// The world itself continues to its completion.
static COMPLETED: [Row; 15] = [
    (Back, TookRequest(0x10000)),
    (Serve, Asked(0x10000)),
    (Push(0x10), SentPage(0x10000)),
    (Deliver, TookPage(0x11000)),
    (Deliver, TookPage(0x10000)),
    (Install, Installed(0x12000, 0x12000)),
    (Install, Installed(0x11000, 0x11000)),
    (Install, Installed(0x10000, 0x10000)),
    (Retry(1), Replied(1, Value(1))),
    (Store(0, 0x11000, 8, 7), Replied(0, Done)),
    (End, EndSent),
    (Deliver, TookEnd),
    (Back, TookDone),
    (Source, SourceIs(SourcePhase::Released, 1)),
    (Progress, Stands(WorldPhase::Complete, [0, 3, 0, 3, 0, 1])),
];

/// The page that the world stored to is still owed in the copy.
static STILL_OWED: [Row; 4] = [
    (Progress, Stands(WorldPhase::Postcopy, [0, 3, 1, 2, 0, 1])),
    (Source, SourceIs(SourcePhase::Stopped, 2)),
    (Transcript, Entered(6, Some(Value(1)))),
    (Load(0, 0x11000, 8), Asleep(0)),
];

const STORE: Command = Command::Store {
    addr: 0x10000,
    width: 8,
    value: 9,
};

/// The destination keeps the copy of a page, and the source's handler holds a fault on it.
static HELD: [Row; 4] = [
    (Deliver, TookAdvise),
    (Deliver, TookPage(0x10000)),
    (Store(0, 0x10000, 8, 9), Asleep(0)),
    (SourceRead, ReadProtected(0x10000)),
];

static HELD_AT_FIRST: [Row; 2] = [
    (Cpu(0), CpuIs(CpuState::Asleep(STORE))),
    (Progress, Stands(WorldPhase::Precopy, [1, 1, 0, 0, 0, 1])),
];

/// In the copy the processors move before the store.
static MOVED_FIRST: [Row; 6] = [
    (Switch, Switched(0, 0)),
    (Deliver, TookDiscard(0)),
    (Deliver, TookPackage(0)),
    (Cpu(0), CpuIs(CpuState::Woken(STORE))),
    (Load(1, 0x10000, 8), Replied(1, Value(1))),
    (Retry(0), Replied(0, Done)),
];

/// In the world the store comes first, and its page is owed.
static STORED_FIRST: [Row; 7] = [
    (SourceAct, Unprotected(0x10000)),
    (Retry(0), Replied(0, Done)),
    (Load(1, 0x10000, 8), Replied(1, Value(9))),
    (Switch, Switched(1, 1)),
    (Deliver, TookDiscard(1)),
    (Deliver, TookPackage(1)),
    (Load(0, 0x10000, 8), Asleep(0)),
];

static STORED_THERE: [Row; 2] = [
    (Load(0, 0x10000, 8), Replied(0, Value(9))),
    (Transcript, Entered(5, Some(Value(9)))),
];

/// Plays on a world up to its copy, and then on both.
fn copy_after(rt: &impl Abort, alloc: Global, table: &str, parts: Parts, ways: Ways<'static>) {
    let told = on_world(rt, alloc, (2, 0, 0), table, parts, After::Copied(ways));
    assert!(rt; told == Ok(true), "no world for {table}");
}

#[test]
fn copies_go_on_in_two_ways(rt: HostRuntime) {
    let parts: [&[Row]; 2] = [&OWED_THREE, &MIDWAY];
    let ways: Ways = (&AT_FIRST, &BROKEN, &COMPLETED, &STILL_OWED);
    copy_after(&rt, rt.alloc(), "midway", &parts, ways);
    let parts: [&[Row]; 2] = [&SENT, &HELD];
    let ways: Ways = (&HELD_AT_FIRST, &MOVED_FIRST, &STORED_FIRST, &STORED_THERE);
    copy_after(&rt, rt.alloc(), "held", &parts, ways);
}

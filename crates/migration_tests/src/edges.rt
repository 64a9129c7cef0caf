//! What no script reaches: the last epoch, an allocation that is refused, and what waits in a world.

use crate::answers::Answer::{
    Asleep, Broken, Noticed, ReadProtected, Replied, RoundMade, SentPage, Started, Switched,
    Unprotected,
};
use crate::calls::Call::{
    Break, Map, Notice, Round, Send, SourceAct, SourceRead, Start, Store, Switch,
};
use crate::play::{After, Row, on_world, play};
use finish::{finish, next_to_finish};
use mig_base::Reply::{At, Done};
use mig_base::WorldPhase;
use mig_base::phase::{DestPhase, SourcePhase};
use mig_base::refusal::Refusal;
use mig_base::schedule::{Side, Step};
use std::alloc::Global;
use std::process::Abort;
use world::World;

/// The last epoch.
const LAST: u32 = u32::MAX;

/// What is looked at by itself.
#[derive(Clone, Copy)]
pub enum Edge {
    /// A start in the last epoch is not due.
    Start,
    /// Nor is a resumption.
    Resume,
    /// A migration is finished after memory was refused.
    Finish,
    /// What waits in a world.
    Waits,
}

static BREAK: [Row; 2] = [(Start, Started(LAST)), (Break, Broken)];

static NOTICED: [Row; 2] = [
    (Notice(Side::Source), Noticed(Side::Source)),
    (Notice(Side::Destination), Noticed(Side::Destination)),
];

/// One page is mapped, stored to and sent, and stored to again.
static STORED_TWICE: [Row; 6] = [
    (Map(0, 4096), Replied(0, At(0x10000))),
    (Store(0, 0x10000, 8, 7), Replied(0, Done)),
    (Start, Started(1)),
    (Round, RoundMade(1, 1)),
    (Send, SentPage(0x10000)),
    (Store(0, 0x10000, 8, 7), Asleep(0)),
];

static READ: [Row; 1] = [(SourceRead, ReadProtected(0x10000))];

static ACTED: [Row; 1] = [(SourceAct, Unprotected(0x10000))];

static SWITCHED: [Row; 1] = [(Switch, Switched(1, 1))];

/// How many pages are dirty, asked once more where memory was refused.
fn dirty(world: &World) -> Option<u32> {
    match world.dirty_pages() {
        Ok(pages) => Some(pages.len()),
        Err(_) => world.dirty_pages().ok().map(|pages| pages.len()),
    }
}

/// Stops unless the count of epochs is used where a migration is finished.
fn is_used(rt: &impl Abort, alloc: Global, world: &mut World) {
    let is_used = finish(world, alloc).err() == Some(Refusal::CountUsed);
    assert!(rt; is_used, "finished");
}

fn none_is_due(rt: &impl Abort, world: &World) {
    assert!(rt; next_to_finish(world).is_none(), "a step is due");
}

fn no_start(rt: &impl Abort, alloc: Global, world: &mut World) {
    none_is_due(rt, world);
    is_used(rt, alloc, world);
    let refused = world.would(Step::Start);
    assert!(rt; refused == Err(Refusal::CountUsed), "would start");
    assert!(rt; world.phase() == WorldPhase::Idle, "changed");
}

fn no_resume(rt: &impl Abort, alloc: Global, world: &mut World) {
    play(rt, world, "break", &BREAK);
    let due = next_to_finish(world);
    assert!(rt; due == Some(Step::Notice(Side::Source)), "not noticed");
    is_used(rt, alloc, world);
    let is_up = world.source_phase() == SourcePhase::Precopy;
    assert!(rt; is_up, "the source has noticed");
    play(rt, world, "noticed", &NOTICED);
    let is_paused = world.destination_phase() == DestPhase::Paused && !world.is_up();
    assert!(rt; is_paused, "not paused");
    none_is_due(rt, world);
}

fn finish_again(rt: &impl Abort, alloc: Global, world: &mut World) {
    play(rt, world, "stored twice", &STORED_TWICE);
    let is_finished = finish(world, alloc).is_ok() || finish(world, alloc).is_ok();
    assert!(rt;
        is_finished && world.phase() == WorldPhase::Complete,
        "not finished"
    );
    none_is_due(rt, world);
}

/// What waits once the store sleeps.
fn fault_waits(rt: &impl Abort, world: &World) {
    assert!(rt; dirty(world) == Some(0), "the sent page is dirty");
    let waits = world.source_message().is_some() && world.source_events() == 0;
    assert!(rt; waits, "no fault waits");
}

/// What waits after the switch.
fn pages_wait(rt: &impl Abort, world: &World) {
    let waits = !world.has_sent_end() && world.would(Step::End) == Err(Refusal::PagesLeft);
    assert!(rt; waits, "End");
    let none = world.arrivals() == 0 && world.asked() == 0 && world.requests().is_empty();
    assert!(rt; none, "waits");
}

fn what_waits(rt: &impl Abort, world: &mut World) {
    play(rt, world, "stored twice", &STORED_TWICE);
    fault_waits(rt, world);
    play(rt, world, "read", &READ);
    assert!(rt; world.source_held() == 1, "no fault is held");
    play(rt, world, "acted", &ACTED);
    assert!(rt;
        dirty(world) == Some(1),
        "the page that may be written is clean"
    );
    play(rt, world, "switched", &SWITCHED);
    pages_wait(rt, world);
}

pub fn play_edge(rt: &impl Abort, alloc: Global, world: &mut World, edge: Edge) {
    match edge {
        Edge::Start => no_start(rt, alloc, world),
        Edge::Resume => no_resume(rt, alloc, world),
        Edge::Finish => finish_again(rt, alloc, world),
        Edge::Waits => what_waits(rt, world),
    }
}

/// Looks at a world of one processor, whose epoch is this number.
fn look(rt: &impl Abort, alloc: Global, epoch: u32, edge: Edge) {
    let told = on_world(rt, alloc, (1, epoch, 0), "edge", &[], After::Edge(edge));
    assert!(rt; told == Ok(true), "no world");
}

#[test]
fn a_start_in_the_last_epoch_is_not_due(rt: HostRuntime) {
    look(&rt, rt.alloc(), LAST, Edge::Start);
}

#[test]
fn a_resume_in_the_last_epoch_is_not_due(rt: HostRuntime) {
    look(&rt, rt.alloc(), LAST - 1, Edge::Resume);
}

#[test]
fn finish_goes_on_after_memory_was_refused(rt: HostRuntime) {
    look(&rt, rt.alloc(), 0, Edge::Finish);
}

#[test]
fn what_waits_is_told(rt: HostRuntime) {
    look(&rt, rt.alloc(), 0, Edge::Waits);
}

//! How a table of steps is played on a world.

use crate::answers::Answer;
use crate::calls::{Call, step_of};
use crate::copies::play_copied;
use crate::counts::play_many;
use crate::edges::{Edge, play_edge};
use crate::everywhere::{Again, break_and_complete};
use crate::runs::{play_longest, run_all, run_three};
use mig_base::WorldPhase;
use mig_base::counts::Counts;
use mig_base::cpu_state::CpuState;
use mig_base::effect::Effect;
use mig_base::phase::SourcePhase;
use mig_base::refusal::Refusal;
use mig_base::schedule::Step;
use std::alloc::Global;
use std::process::Abort;
use world::World;

/// A step or a look, and the answer that is wanted.
pub type Row = (Call, Answer);

/// Tables that are played one after the other.
pub type Parts<'a> = &'a [&'a [Row]];

/// What both show at first, what happens to a copy, what happens to the world, and what the copy shows then.
pub type Ways<'a> = (&'a [Row], &'a [Row], &'a [Row], &'a [Row]);

/// What a refused step must leave.
#[derive(Clone, Copy, PartialEq, Eq)]
pub struct Picture {
    phase: WorldPhase,
    source: SourcePhase,
    epoch: u32,
    entries: usize,
    owed: u32,
    remaining: u32,
    counts: Counts,
    cpus: [Result<CpuState, Refusal>; 2],
}

impl Picture {
    pub fn of(world: &World) -> Self {
        Picture {
            phase: world.phase(),
            source: world.source_phase(),
            epoch: world.epoch(),
            entries: world.transcript().len(),
            owed: world.owed_left(),
            remaining: world.remaining().len(),
            counts: world.counts(),
            cpus: [world.cpu_state(0), world.cpu_state(1)],
        }
    }
}

/// Makes a step, and again where memory was refused. What comes of it, and how often memory was refused. A step that is refused changes
/// nothing.
pub fn make(
    rt: &impl Abort,
    world: &mut World,
    step: Step,
    i: usize,
) -> (Result<Effect, Refusal>, u32) {
    let before = Picture::of(world);
    let outcome = world.step(step);
    if outcome.is_err() {
        assert!(rt; Picture::of(world) == before, "refused step {i}");
    }
    if outcome != Err(Refusal::NoMemory) {
        return (outcome, 0);
    }
    (world.step(step), 1)
}

fn counts(world: &World) -> [u64; 6] {
    let counts = world.counts();
    [
        u64::from(counts.rounds),
        counts.sent,
        u64::from(world.owed_left()),
        counts.installed,
        counts.dropped,
        counts.faults,
    ]
}

/// Whether a look shows this.
fn shows(world: &World, call: Call, wanted: Answer) -> bool {
    match (call, wanted) {
        (Call::Progress, Answer::Stands(phase, six)) => world.phase() == phase
            && counts(world) == six,
        (Call::Source, Answer::SourceIs(phase, epoch)) => world.source_phase() == phase
            && world.epoch() == epoch,
        (Call::Remaining, Answer::Remain(len, first)) => world.remaining().len() == len
            && world.remaining().next_member(0) == first,
        (Call::Cpu(cpu), Answer::CpuIs(state)) => world.cpu_state(cpu) == Ok(state),
        (Call::Cpu(cpu), Answer::Refused(refusal)) => world.cpu_state(cpu) == Err(refusal),
        (Call::Transcript, Answer::Entered(len, last)) => {
            let entries = world.transcript();
            entries.len() == len && entries.last().map(|entry| entry.reply) == last
        }
        _ => false,
    }
}

/// Stops unless a step has the outcome of a row, and prints both.
pub fn same(
    rt: &impl Abort,
    outcome: Result<Effect, Refusal>,
    wanted: Answer,
    table: &str,
    i: usize,
) {
    assert_eq!(rt; Some(outcome), wanted.outcome(), "{table} {i}");
}

/// Plays a row of a table. How often memory was refused.
fn play_row(
    rt: &impl Abort,
    world: &mut World,
    table: &str,
    i: usize,
    (call, wanted): &Row,
) -> u32 {
    let Some(step) = step_of(*call, world.epoch()) else {
        assert!(rt; shows(world, *call, *wanted), "{table} {i}");
        return 0;
    };
    let (outcome, refused) = make(rt, world, step, i);
    same(rt, outcome, *wanted, table, i);
    refused
}

/// Plays a table on a world. How often memory was refused.
pub fn play(rt: &impl Abort, world: &mut World, table: &str, rows: &[Row]) -> u32 {
    let mut refused = 0u32;
    for (i, row) in rows.iter().enumerate() {
        refused = refused.saturating_add(play_row(rt, world, table, i, row));
    }
    refused
}

/// What is played after the tables, that no table can say.
#[derive(Clone, Copy)]
pub enum After {
    Nothing,
    /// A guest of 16 processors.
    Many,
    /// As many pages as a run can have, and two more.
    Longest,
    /// All steps in one call.
    OneCall,
    /// Three steps in one call.
    Three,
    /// The world is copied, and both continue.
    Copied(Ways<'static>),
    /// The channel breaks, and the migration continues to its completion.
    Broken(Again),
    /// What is looked at by itself.
    Edge(Edge),
}

/// Plays tables on a world, and what comes after them. Whether memory was found for it.
fn tell(
    rt: &impl Abort,
    alloc: Global,
    world: &mut World,
    table: &str,
    parts: Parts,
    after: After,
) -> bool {
    for rows in parts {
        play(rt, world, table, rows);
    }
    match after {
        After::Nothing => {}
        After::Many => play_many(rt, world),
        After::Longest => play_longest(rt, world),
        After::OneCall => return run_all(rt, alloc, world),
        After::Three => return run_three(rt, alloc, world),
        After::Copied(ways) => return play_copied(rt, world, ways),
        After::Broken(again) => break_and_complete(rt, alloc, world, again),
        After::Edge(edge) => play_edge(rt, alloc, world, edge),
    }
    true
}

/// Makes a world, and plays on it. The only function that owns one, since its proof drops all that a world owns.
fn tell_of_one(
    rt: &impl Abort,
    alloc: Global,
    new: (u8, u32, u32),
    table: &str,
    parts: Parts,
    after: After,
) -> Result<bool, Refusal> {
    let mut world = World::with_counts(alloc, new.0, new.1, new.2)?;
    Ok(tell(rt, alloc, &mut world, table, parts, after))
}

/// Plays on a new world of this number of processors, with the given counts of epochs and rounds. If memory for the world is refused,
/// it tries once more.
pub fn on_world(
    rt: &impl Abort,
    alloc: Global,
    new: (u8, u32, u32),
    table: &str,
    parts: Parts,
    after: After,
) -> Result<bool, Refusal> {
    let told = tell_of_one(rt, alloc, new, table, parts, after);
    if told == Err(Refusal::NoMemory) {
        return tell_of_one(rt, alloc, new, table, parts, after);
    }
    told
}

/// Plays tables on a new world of two processors.
pub fn play_new(rt: &impl Abort, alloc: Global, table: &str, parts: Parts) {
    let told = on_world(rt, alloc, (2, 0, 0), table, parts, After::Nothing);
    assert!(rt; told == Ok(true), "no world for {table}");
}

/// Plays what no table can say on a new world.
pub fn play_after(rt: &impl Abort, alloc: Global, cpus: u8, after: After) -> Result<bool, Refusal> {
    on_world(rt, alloc, (cpus, 0, 0), "none", &[], after)
}

//! The calls on a world.

ghost use Rattle.std.specs.Prelude.{◌≡◌, ◌≢◌, ◌≤◌, ◌⊎◌, [], Ok};
ghost use Rattle.std.specs.declared.option.Option.TheVariants.{None as Nothing, Some as Just};
ghost use Rattle.engine.specs.Engine.{Running, tested_mode};
ghost use Rattle.mig_model.specs.Migration.{World as Machine, first_world};
ghost use Rattle.mig_model.specs.Views.{new_world_with};
ghost use Rattle.postmig_c.specs.Calls.{a_world, counts_in, phase_number, CountsAre, HasNoWorld, IsDone, IsNoLine, IsCutShort, Has, OfWorld};
ghost use Rattle.postmig_c.specs.Room.{Fills, IsTooLong};

use crate::handle::{Content, Handle};
use crate::room::hand_over;
use crate::status::{DONE, NO_CPU, NO_MEMORY, NOT_A_LINE, NOT_OPEN};
use engine::{LineRunner, Mode, RunFault, progress};
use mig_base::WorldPhase;
use std::alloc::Global;
use world::World;

/// How far the migration of a world has come, in numbers.
#[repr(C)]
#[derive(Clone, Copy, PartialEq, Eq, Drop)]
pub struct Counts {
    /// 0 idle, 1 pre-copy, 2 switching, 3 post-copy, 4 complete.
    pub phase: u32,
    /// The epoch of the source.
    pub epoch: u32,
    /// Rounds of pre-copy made.
    pub rounds: u32,
    /// Pages that the destination is still owed.
    pub left: u32,
    /// Pages that the source has sent.
    pub sent: u64,
    /// Copies that the destination has installed.
    pub installed: u64,
    /// Copies that it has dropped.
    pub dropped: u64,
    /// Page faults that the handler of either node has read.
    pub faults: u64,
}

/// What a run writes: the entries of the transcript, or a line for each order.
pub fn mode_of(is_transcript: bool) -> Mode
    ensures { result ≡ tested_mode is_transcript }
{
    if is_transcript {
        Mode::Transcript
    } else {
        Mode::Lines
    }
}

/// Puts a content into a handle. What it had is freed.
pub fn open(alloc: Global, content: Content, handle: &mut Handle) -> u32
    ensures ok { result ≡ 0 → handle.new.content ≡ Just content }
    ensures refused { result ≢ 0 → (result ≡ 4) × (handle.new.content ≡ handle.old.content) }
{
    let Ok(content) = Box::new(alloc, content) else {
        return NO_MEMORY;
    };
    *handle = Handle::of(content);
    DONE
}

/// Puts a new world of `cpus` processors into a handle. What it had is freed. It keeps that if the answer is not 0.
#[unsafe(no_mangle)]
pub extern "C" fn postmig_world_new(
    alloc: Global,
    cpus: u8,
    is_transcript: bool,
    handle: &mut Handle,
) -> u32
    ensures ok { result ≡ 0 →
        handle.new.content ≡
        Just (a_world (Running (tested_mode is_transcript) (first_world cpus))) }
    ensures refused { result ≢ 0 → handle.new.content ≡ handle.old.content }
{
    if cpus < 1 || cpus > 16 {
        return NO_CPU;
    }
    let Ok(runner) = LineRunner::on_world(alloc, cpus, mode_of(is_transcript)) else {
        return NO_MEMORY;
    };
    open(alloc, Content::World(runner), handle)
}

/// The same, with these counts as the epoch and the number of rounds.
#[unsafe(no_mangle)]
pub extern "C" fn postmig_world_new_with_counts(
    alloc: Global,
    cpus: u8,
    is_transcript: bool,
    epoch: u32,
    rounds: u32,
    handle: &mut Handle,
) -> u32
    ensures ok { result ≡ 0 →
        (state : Machine) × (new_world_with cpus epoch rounds ≡ Ok state) ×
        (handle.new.content ≡ Just (a_world (Running (tested_mode is_transcript) state))) }
    ensures refused { result ≢ 0 → handle.new.content ≡ handle.old.content }
{
    if cpus < 1 || cpus > 16 {
        return NO_CPU;
    }
    let Ok(world) = World::with_counts(alloc, cpus, epoch, rounds) else {
        return NO_MEMORY;
    };
    let runner = LineRunner::over(alloc, world, mode_of(is_transcript));
    open(alloc, Content::World(runner), handle)
}

/// Frees the world or the decoder of a handle, if it has one.
#[unsafe(no_mangle)]
pub extern "C" fn postmig_free(alloc: Global, handle: &mut Handle)
    ensures { handle.new.content ≡ Nothing }
{
    *handle = Handle::empty(alloc);
}

/// Does a line on a runner, and hands its output over.
fn do_line(runner: &mut LineRunner, line: &[u8], out: &mut [u8], written: &mut usize) -> u32
    ensures range { (result ≤ 4) × (result ≢ 2) }
    ensures done { result ≤ 1 → IsDone runner.old line.now runner.new }
    ensures told { result ≡ 0 → Fills runner.new.output written.new out.new }
    ensures untold { result ≡ 1 → IsTooLong runner.new.output written.new out.new }
    ensures no_line { result ≡ 3 → IsNoLine runner.old line.now runner.new }
    ensures no_memory { result ≡ 4 → IsCutShort runner.old line.now runner.new }
{
    runner.drop_output();
    match runner.run_line(1, line) {
        Ok(()) => hand_over(runner.output(), out, written),
        Err(RunFault::Line(_)) => NOT_A_LINE,
        Err(RunFault::ReadFault | RunFault::WriteFault | RunFault::NoMemory) => NO_MEMORY,
    }
}

/// Does a line of a script, without its line feed, and writes what it prints to `out`. If `out` is too short the line was done all the
/// same, and `written` is the length that is needed: [`postmig_world_answer`] writes it. A line that is not one changes nothing of the
/// world. If memory ran out, either nothing changed, or the line was done and what it printed is lost.
#[unsafe(no_mangle)]
pub extern "C" fn postmig_world_line(
    alloc: Global,
    handle: &mut Handle,
    line: &[u8],
    out: &mut [u8],
    written: &mut usize,
) -> u32
    ensures told { result ≡ 0 →
        Has handle.old.content handle.new.content (λ old new.
        IsDone old line.now new × Fills new.output written.new out.new) }
    ensures untold { result ≡ 1 →
        Has handle.old.content handle.new.content (λ old new.
        IsDone old line.now new × IsTooLong new.output written.new out.new) }
    ensures not_open { result ≡ 2 →
        HasNoWorld handle.old.content × (handle.new.content ≡ handle.old.content) }
    ensures no_line { result ≡ 3 →
        Has handle.old.content handle.new.content (λ old new. IsNoLine old line.now new) }
    ensures no_memory { result ≡ 4 →
        Has handle.old.content handle.new.content (λ old new. IsCutShort old line.now new) }
    ensures range { result ≤ 4 }
{
    let Some(mut content) = handle.take(alloc) else {
        return NOT_OPEN;
    };
    let status = match &mut *content {
        Content::World(runner) => do_line(runner, line, out, written),
        _ => NOT_OPEN,
    };
    *handle = Handle::of(content);
    status
}

/// Writes again what the last line printed.
#[unsafe(no_mangle)]
pub extern "C" fn postmig_world_answer(
    alloc: Global,
    handle: &mut Handle,
    out: &mut [u8],
    written: &mut usize,
) -> u32
    ensures same { handle.new.content ≡ handle.old.content }
    ensures answer { result ≡ 0 →
        OfWorld handle.old.content (λ runner. Fills runner.output written.new out.new) }
    ensures long { result ≡ 1 →
        OfWorld handle.old.content (λ runner. IsTooLong runner.output written.new out.new) }
    ensures not_open { result ≡ 2 → HasNoWorld handle.old.content }
    ensures range { result ≤ 2 }
{
    let Some(content) = handle.take(alloc) else {
        return NOT_OPEN;
    };
    let status = match &*content {
        Content::World(runner) => hand_over(runner.output(), out, written),
        _ => NOT_OPEN,
    };
    *handle = Handle::of(content);
    status
}

/// The number of a phase.
fn phase_number(phase: WorldPhase) -> u32
    ensures { result ≡ phase_number phase }
{
    match phase {
        WorldPhase::Idle => 0,
        WorldPhase::Precopy => 1,
        WorldPhase::Switching => 2,
        WorldPhase::Postcopy => 3,
        WorldPhase::Complete => 4,
    }
}

/// How far the migration of a world has come.
fn counts_of(world: &World) -> Counts
    ensures { result ≡ counts_in world.now }
{
    let progress = progress(world);
    Counts {
        phase: phase_number(progress.phase),
        epoch: world.epoch(),
        rounds: progress.rounds,
        left: progress.left,
        sent: progress.sent,
        installed: progress.installed,
        dropped: progress.dropped,
        faults: progress.faults,
    }
}

/// Says how far the migration has come.
#[unsafe(no_mangle)]
pub extern "C" fn postmig_world_counts(
    alloc: Global,
    handle: &mut Handle,
    counts: &mut Counts,
) -> u32
    ensures same { handle.new.content ≡ handle.old.content }
    ensures counts { result ≡ 0 →
        OfWorld handle.old.content (λ runner. CountsAre runner counts.new) }
    ensures range { (result ≡ 0) ⊎ (result ≡ 2) }
{
    let Some(content) = handle.take(alloc) else {
        return NOT_OPEN;
    };
    let status = match &*content {
        Content::World(runner) => count_into(runner, counts),
        _ => NOT_OPEN,
    };
    *handle = Handle::of(content);
    status
}

/// Says how far the migration of a runner's world has come.
fn count_into(runner: &LineRunner, counts: &mut Counts) -> u32
    ensures counts { result ≡ 0 → CountsAre runner.now counts.new }
    ensures range { (result ≡ 0) ⊎ (result ≡ 2) }
{
    let Some(world) = runner.world() else {
        return NOT_OPEN;
    };
    *counts = counts_of(world);
    DONE
}

//! The copy of a world, and whether two worlds are the same.

ghost use Rattle.std.specs.Prelude.{◌≡◌, ◌≢◌, ◌⊎◌};
ghost use Rattle.std.specs.declared.option.Option.TheVariants.{None as Nothing};
ghost use Rattle.engine.specs.Engine.{run_world};
ghost use Rattle.postmig_c.specs.Calls.{AreCompared, HasCopy, HasNoRun, OfWorld};

use crate::handle::{Content, Handle};
use crate::status::{DONE, NO_MEMORY, NOT_OPEN};
use crate::worlds::{mode_of, open};
use engine::LineRunner;
use std::alloc::Global;

/// Puts a copy of the world of a runner into a handle. What it had is freed.
fn copy_into(alloc: Global, runner: &LineRunner, is_transcript: bool, copy: &mut Handle) -> u32
    ensures copied { result ≡ 0 → HasCopy runner.now is_transcript copy.new.content }
    ensures not_run { result ≡ 2 → run_world runner.now.work ≡ Nothing }
    ensures kept { result ≢ 0 → copy.new.content ≡ copy.old.content }
    ensures range { (result ≡ 0) ⊎ (result ≡ 2) ⊎ (result ≡ 4) }
{
    let Some(found) = runner.world() else {
        return NOT_OPEN;
    };
    let Ok(made) = found.copy() else {
        return NO_MEMORY;
    };
    let twin = LineRunner::over(alloc, made, mode_of(is_transcript));
    open(alloc, Content::World(twin), copy)
}

/// Puts a copy of the world of a handle into another handle, as a world of which no line has printed anything. What that had is freed; it
/// keeps that if the answer is not 0.
#[unsafe(no_mangle)]
pub extern "C" fn postmig_world_copy(
    alloc: Global,
    handle: &mut Handle,
    is_transcript: bool,
    copy: &mut Handle,
) -> u32
    ensures copied { result ≡ 0 →
        OfWorld handle.old.content (λ runner. HasCopy runner is_transcript copy.new.content) }
    ensures not_open { result ≡ 2 → HasNoRun handle.old.content }
    ensures kept { result ≢ 0 → copy.new.content ≡ copy.old.content }
    ensures same { handle.new.content ≡ handle.old.content }
    ensures range { (result ≡ 0) ⊎ (result ≡ 2) ⊎ (result ≡ 4) }
{
    let Some(content) = handle.take(alloc) else {
        return NOT_OPEN;
    };
    let status = match &*content {
        Content::World(runner) => copy_into(alloc, runner, is_transcript, copy),
        _ => NOT_OPEN,
    };
    *handle = Handle::of(content);
    status
}

/// Whether the worlds of two runners are the same.
fn compare(runner: &LineRunner, other: &LineRunner, is_same: &mut bool) -> u32
    ensures compared { result ≡ 0 → AreCompared runner.now other.now is_same.new }
    ensures not_run { result ≡ 2 →
        (run_world runner.now.work ≡ Nothing) ⊎ (run_world other.now.work ≡ Nothing) }
    ensures range { (result ≡ 0) ⊎ (result ≡ 2) }
{
    let Some(world) = runner.world() else {
        return NOT_OPEN;
    };
    let Some(found) = other.world() else {
        return NOT_OPEN;
    };
    *is_same = world.is_same(found);
    DONE
}

/// Whether the worlds of two handles are the same. What their lines have printed does not count, nor does how the worlds came about.
#[unsafe(no_mangle)]
pub extern "C" fn postmig_world_is_same(
    alloc: Global,
    handle: &mut Handle,
    other: &mut Handle,
    is_same: &mut bool,
) -> u32
    ensures compared { result ≡ 0 → OfWorld handle.old.content (λ runner.
        OfWorld other.old.content (λ twin. AreCompared runner twin is_same.new)) }
    ensures not_open { result ≡ 2 →
        HasNoRun handle.old.content ⊎ HasNoRun other.old.content }
    ensures same { handle.new.content ≡ handle.old.content }
    ensures same_other { other.new.content ≡ other.old.content }
    ensures range { (result ≡ 0) ⊎ (result ≡ 2) }
{
    let Some(content) = handle.take(alloc) else {
        return NOT_OPEN;
    };
    let Some(found) = other.take(alloc) else {
        *handle = Handle::of(content);
        return NOT_OPEN;
    };
    let status = match (&*content, &*found) {
        (Content::World(runner), Content::World(twin)) => compare(runner, twin, is_same),
        _ => NOT_OPEN,
    };
    *handle = Handle::of(content);
    *other = Handle::of(found);
    status
}

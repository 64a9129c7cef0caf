//! What a line would do to a world.

ghost use Rattle.std.specs.Prelude.{◌≡◌, ◌≢◌};
ghost use Rattle.std.specs.declared.option.Option.TheVariants.{None as Nothing};
ghost use Rattle.engine.specs.Engine.{run_world};
ghost use Rattle.engine.specs.Worlds.{epoch_in};
ghost use Rattle.grammar.specs.Orders.{step_of};
ghost use Rattle.grammar.specs.Spelling.{Spells};
ghost use Rattle.grammar.specs.declared.line.Language.TheVariants.{Script as AScript};
ghost use Rattle.mig_model.specs.Migration.{answer};
ghost use Rattle.mig_model.specs.NodeSteps.{checked};
ghost use Rattle.postmig_c.specs.Calls.{HasNoRun, OfWorld};
ghost use Rattle.postmig_c.specs.Lines.{ChecksLine, ChecksStep, IsNoLineOf, Would};
ghost use Rattle.postmig_c.specs.NodeCalls.{Checks};

use crate::handle::{Content, Handle};
use crate::refusals::refusal_status;
use crate::status::{DONE, NO_MEMORY, NOT_A_LINE, NOT_OPEN};
use engine::LineRunner;
use grammar::parse::parse;
use grammar::{Language, Line, Order};
use mig_base::NoMemory;
use mig_base::schedule::Step;
use std::alloc::Global;
use world::World;

/// What a step would do to a world, as a status.
fn step_status(world: &World, step: Step) -> u32
    ensures checks { Checks (checked (answer world.now step)) result }
    ensures open { result ≢ 2 }
    ensures line { result ≢ 3 }
{
    match world.would(step) {
        Ok(()) => DONE,
        Err(refusal) => refusal_status(refusal),
    }
}

/// What an order would do to a world, as a status.
fn order_status(world: &World, order: Order) -> u32
    ensures checks { ChecksStep world.now (step_of order (epoch_in world.now)) result }
    ensures open { result ≢ 2 }
    ensures line { result ≢ 3 }
{
    match order.step(world.epoch()) {
        Some(step) => step_status(world, step),
        None => DONE,
    }
}

/// What the line with a text would do to the world of a runner, as a status.
fn line_status(alloc: Global, runner: &LineRunner, text: &[u8]) -> u32
    ensures would { result ≢ 2 → result ≢ 3 → result ≢ 4 → Would runner.now text.now result }
    ensures not_run { result ≡ 2 → run_world runner.now.work ≡ Nothing }
    ensures no_line { result ≡ 3 → IsNoLineOf AScript text.now }
{
    let Some(world) = runner.world() else {
        return NOT_OPEN;
    };
    let mut tokens = Vec::new(alloc);
    match parse(Language::Script, &mut tokens, text) {
        Ok(Some(Line::Do(order))) => order_status(world, order),
        Ok(Some(Line::Skipped)) => DONE,
        // A script has no entries.
        Ok(Some(Line::Enter(_))) => unreachable!(),
        Ok(None) => NOT_A_LINE,
        Err(NoMemory) => NO_MEMORY,
    }
}

/// Says what a line of a script would do to a world, without doing it: 0, or the status of the refusal of its step. Lack of memory is not
/// considered. What makes no step is never refused.
#[unsafe(no_mangle)]
pub extern "C" fn postmig_world_would(alloc: Global, handle: &mut Handle, line: &[u8]) -> u32
    ensures would { result ≢ 2 → result ≢ 3 → result ≢ 4 →
        OfWorld handle.old.content (λ runner. Would runner line.now result) }
    ensures not_open { result ≡ 2 → HasNoRun handle.old.content }
    ensures no_line { result ≡ 3 →
        OfWorld handle.old.content (λ runner. IsNoLineOf AScript line.now) }
    ensures same { handle.new.content ≡ handle.old.content }
{
    let Some(content) = handle.take(alloc) else {
        return NOT_OPEN;
    };
    let status = match &*content {
        Content::World(runner) => line_status(alloc, runner, line),
        _ => NOT_OPEN,
    };
    *handle = Handle::of(content);
    status
}

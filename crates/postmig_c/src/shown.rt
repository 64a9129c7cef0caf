//! What a world holds, in the words of `postmig show`.

ghost use Rattle.std.specs.Prelude.{◌≡◌, ◌⊎◌, ℕ, List};
ghost use Rattle.std.specs.declared.option.Option.TheVariants.{None as Nothing};
ghost use Rattle.engine.specs.Engine.{run_world};
ghost use Rattle.postmig_c.specs.Calls.{HasNoRun, OfWorld};
ghost use Rattle.postmig_c.specs.Room.{Fills, IsTooLong};
ghost use Rattle.postmig_c.specs.Shown.{IsShown, what_of};

use crate::handle::{Content, Handle};
use crate::room::hand_over;
use crate::status::{NO_MEMORY, NO_QUESTION, NOT_OPEN};
use engine::LineRunner;
use mig_base::{Addr, NoMemory};
use show::{Asked, Form, Span, What, facts_of};
use std::alloc::Global;

/// What is asked for, by its number.
fn what_of(number: u32) -> Option<What>
    ensures { result ≡ what_of number }
{
    match number {
        0 => Some(What::Cpus),
        1 => Some(What::Queues),
        2 => Some(What::Owed),
        3 => Some(What::Wires),
        4 => Some(What::Pages),
        5 => Some(What::All),
        _ => None,
    }
}

/// Writes what the question with this number asks for of the world of a runner.
fn show_world(
    alloc: Global,
    runner: &LineRunner,
    number: u32,
    range: Span,
    out: &mut [u8],
    written: &mut usize,
) -> u32
    ensures shown { result ≡ 0 →
        (text : List ℕ) × IsShown runner.now number text × Fills text written.new out.new }
    ensures long { result ≡ 1 →
        (text : List ℕ) × IsShown runner.now number text × IsTooLong text written.new out.new }
    ensures not_run { result ≡ 2 → run_world runner.now.work ≡ Nothing }
    ensures no_question { result ≡ 15 → what_of number ≡ Nothing }
    ensures range { (result ≡ 0) ⊎ (result ≡ 1) ⊎ (result ≡ 2) ⊎ (result ≡ 4) ⊎ (result ≡ 15) }
{
    let Some(world) = runner.world() else {
        return NOT_OPEN;
    };
    let Some(what) = what_of(number) else {
        return NO_QUESTION;
    };
    let asked = Asked {
        what,
        form: Form::Lines,
        at: None,
        range: Some(range),
    };
    match facts_of(alloc, world, asked) {
        Ok(text) => hand_over(text.as_bytes(), out, written),
        Err(NoMemory) => NO_MEMORY,
    }
}

/// Writes what a world holds as it is now: what `postmig show` writes of the question with this number. The pages that it lists are those
/// that have a byte from the address `start` up to, and without, `end`. If `out` is too short `written` is the length that is needed.
#[unsafe(no_mangle)]
pub extern "C" fn postmig_world_show(
    alloc: Global,
    handle: &mut Handle,
    what: u32,
    start: Addr,
    end: Addr,
    out: &mut [u8],
    written: &mut usize,
) -> u32
    ensures shown { result ≡ 0 →
        OfWorld handle.old.content (λ runner.
        (text : List ℕ) × IsShown runner what text × Fills text written.new out.new) }
    ensures long { result ≡ 1 →
        OfWorld handle.old.content (λ runner.
        (text : List ℕ) × IsShown runner what text × IsTooLong text written.new out.new) }
    ensures not_open { result ≡ 2 → HasNoRun handle.old.content }
    ensures no_question { result ≡ 15 → what_of what ≡ Nothing }
    ensures same { handle.new.content ≡ handle.old.content }
    ensures range { (result ≡ 0) ⊎ (result ≡ 1) ⊎ (result ≡ 2) ⊎ (result ≡ 4) ⊎ (result ≡ 15) }
{
    let Some(content) = handle.take(alloc) else {
        return NOT_OPEN;
    };
    let status = match &*content {
        Content::World(runner) => {
            show_world(alloc, runner, what, Span { start, end }, out, written)
        }
        _ => NOT_OPEN,
    };
    *handle = Handle::of(content);
    status
}

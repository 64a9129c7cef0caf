//! Writing a whole script.

ghost use Rattle.std.specs.Prelude.{◌≡◌, ◌≤◌, ◌⊎◌, [], true, OnOk, OnErr};
ghost use Rattle.std.specs.Io.KnownBytes.{Appends};
ghost use Rattle.engine.specs.Engine.{Front};
ghost use Rattle.mig_model.specs.Migration.{first_world};
ghost use Rattle.mig_model.specs.Promises.{IsComplete};
ghost use Rattle.finish.specs.Finishing.{needs_epoch};
ghost use Rattle.explore.specs.Explorations.{CompletesPlan, CutsPlan, Explored, Gone, GoesOn, StopsOn, StopsPlan, WritesPlan};

use crate::course::{Memo, draw_course};
use crate::plan::Plan;
use crate::sheet::Sheet;
use crate::steps::draw_order;
use crate::sweep::Sweep;
use engine::RunFault;
use engine::line_runner::write_out;
use finish::next_to_finish;
use grammar::Order;
use rand_pcg::Pcg32;
use std::alloc::Global;
use std::io::Write;
use world::World;

/// The stream of the generator, one of the 2^63 that each seed has.
const STREAM: u64 = 1;

/// Gathered lines are written once they have this many bytes.
const PIECE: usize = 16_384;

/// Writes a random script: a comment that says how it was made, and one line for each of the plan's steps. About nine lines of ten are
/// steps that the world of that script makes, and the others are steps that it refuses. Where the plan says so, lines that complete the
/// migration follow; they end before that only where a Start or a Resume is needed and the epoch is the last. After those, or where the
/// plan has a sweep, come loads of what was stored. The same plan has the same text.
///
/// `WriteFault` comes if a write fails or takes no byte; the first part of the text is written then. `NoMemory` comes if an allocation
/// fails; some lines from the first on are written then, each in full.
pub fn run_explore<W: Write>(alloc: Global, writer: &mut W, plan: &Plan) -> Result<(), RunFault>
    requires low { 1 ≤ plan.now.cpus }
    requires high { plan.now.cpus ≤ 16 }
    requires some { 1 ≤ plan.now.pages }
    requires few { plan.now.pages ≤ 4096 }
    ensures ok { OnOk result (WritesPlan plan.now (first_world plan.now.cpus)
        (W.contents writer.old) (W.contents writer.new)) }
    ensures fault { OnErr result (StopsPlan plan.now (first_world plan.now.cpus)
        (W.contents writer.old) (W.contents writer.new)) }
{
    let Ok(mut world) = World::new(alloc, plan.cpus) else {
        return Err(RunFault::NoMemory);
    };
    let mut sheet = Sheet::new(alloc);
    sheet.add_comment(plan)?;
    write_script(writer, &mut world, &mut sheet, plan)
}

/// Draws the course of a script, and writes its lines after the comment.
fn write_script<W: Write>(
    writer: &mut W,
    world: &mut World,
    sheet: &mut Sheet,
    plan: &Plan,
) -> Result<(), RunFault>
    requires cpus { 1 ≤ plan.now.cpus }
    requires some { 1 ≤ plan.now.pages }
    requires few { plan.now.pages ≤ 4096 }
    requires start { Explored plan.now.answers world.old 0 world.old sheet.old.output.items }
    ensures ok { OnOk result
        (WritesPlan plan.now world.old (W.contents writer.old) (W.contents writer.new)) }
    ensures fault { OnErr result
        (StopsPlan plan.now world.old (W.contents writer.old) (W.contents writer.new)) }
{
    let mut rng = Pcg32::new(plan.seed, STREAM);
    let course = draw_course(&mut rng, plan);
    let mut memo = Memo::new();
    for _ in 0..plan.steps {
        let order = draw_order(&mut rng, &course, &memo, world);
        sheet.add_order(world, &mut memo, order, plan.answers)?;
        flush_much(writer, sheet)?;
    }
    write_end(writer, world, &mut memo, sheet, plan)
}

/// Writes what was gathered.
fn flush<W: Write>(writer: &mut W, sheet: &mut Sheet) -> Result<(), RunFault>
    ensures ok { OnOk result
        (Appends (W.contents writer.old) (W.contents writer.new) sheet.old.output.items) }
    ensures none { OnOk result (sheet.new.output.items ≡ []) }
    ensures front { OnErr result
        (Front sheet.old.output.items (W.contents writer.old) (W.contents writer.new)) }
{
    write_out(writer, &sheet.output)?;
    sheet.output.clear();
    Ok(())
}

/// Writes what was gathered if that is much.
fn flush_much<W: Write>(writer: &mut W, sheet: &mut Sheet) -> Result<(), RunFault>
    ensures ok { OnOk result
        (Gone sheet.old.output.items sheet.new.output.items (W.contents writer.old)
        (W.contents writer.new)) }
    ensures front { OnErr result
        (Front sheet.old.output.items (W.contents writer.old) (W.contents writer.new)) }
{
    if sheet.output.len() < PIECE {
        return Ok(());
    }
    flush(writer, sheet)
}

/// Writes what follows the steps: what was gathered, and where the plan has them the lines that complete the migration, and a sweep.
fn write_end<W: Write>(
    writer: &mut W,
    world: &mut World,
    memo: &mut Memo,
    sheet: &mut Sheet,
    plan: &Plan,
) -> Result<(), RunFault>
    ensures ok { OnOk result (CompletesPlan plan.now world.old (W.contents writer.old)
        sheet.old.output.items (W.contents writer.new)) }
    ensures fault { OnErr result (CutsPlan plan.now world.old (W.contents writer.old)
        sheet.old.output.items (W.contents writer.new)) }
{
    if plan.finish {
        write_whole(writer, world, memo, sheet, plan.answers)?;
        return flush(writer, sheet);
    }
    if plan.sweep {
        write_sweep(writer, world, memo, sheet, plan.answers)?;
        return flush(writer, sheet);
    }
    flush(writer, sheet)
}

/// Writes the lines that complete the migration, and a sweep. A sweep moves no frame, so no step is due after it.
fn write_whole<W: Write>(
    writer: &mut W,
    world: &mut World,
    memo: &mut Memo,
    sheet: &mut Sheet,
    answers: bool,
) -> Result<(), RunFault>
    ensures ok { OnOk result
        (GoesOn answers world.old (W.contents writer.old) sheet.old.output.items world.new
        (W.contents writer.new) sheet.new.output.items) }
    ensures ended { OnOk result (IsComplete world.new ⊎ (needs_epoch world.new ≡ true)) }
    ensures fault { OnErr result
        (StopsOn answers world.old (W.contents writer.old) sheet.old.output.items
        (W.contents writer.new)) }
{
    write_finish(writer, world, sheet, answers)?;
    write_sweep(writer, world, memo, sheet, answers)?;
    write_finish(writer, world, sheet, answers)
}

/// Writes the lines that complete the migration.
fn write_finish<W: Write>(
    writer: &mut W,
    world: &mut World,
    sheet: &mut Sheet,
    answers: bool,
) -> Result<(), RunFault>
    ensures ok { OnOk result
        (GoesOn answers world.old (W.contents writer.old) sheet.old.output.items world.new
        (W.contents writer.new) sheet.new.output.items) }
    ensures ended { OnOk result (IsComplete world.new ⊎ (needs_epoch world.new ≡ true)) }
    ensures fault { OnErr result
        (StopsOn answers world.old (W.contents writer.old) sheet.old.output.items
        (W.contents writer.new)) }
{
    while let Some(step) = next_to_finish(world) {
        sheet.add_step(world, step, answers)?;
        flush_much(writer, sheet)?;
    }
    Ok(())
}

/// Writes a sweep, to its end or to the greatest number of steps.
fn write_sweep<W: Write>(
    writer: &mut W,
    world: &mut World,
    memo: &mut Memo,
    sheet: &mut Sheet,
    answers: bool,
) -> Result<(), RunFault>
    ensures ok { OnOk result
        (GoesOn answers world.old (W.contents writer.old) sheet.old.output.items world.new
        (W.contents writer.new) sheet.new.output.items) }
    ensures fault { OnErr result
        (StopsOn answers world.old (W.contents writer.old) sheet.old.output.items
        (W.contents writer.new)) }
{
    let mut sweep = Sweep::new(world)?;
    for _ in 0..u32::MAX {
        let Some(step) = sweep.next(world) else {
            break;
        };
        sheet.add_order(world, memo, Order::Make(step), answers)?;
        flush_much(writer, sheet)?;
    }
    Ok(())
}

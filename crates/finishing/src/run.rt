//! Running a script, and writing what finishes it.

ghost use Rattle.std.specs.Prelude.{◌≡◌, ◌≤◌, IfOk, IfErr, IfSome, OnOk};
ghost use Rattle.mig_model.specs.Migration.{first_world};
ghost use Rattle.finishing.specs.Finished.{Adds, AreBehind, EndsScript, FinishesScript, FailsAfterScript, HaveLines, FinishStops};

use crate::ending::Ending;
use engine::line_runner::write_out;
use engine::run::read_lines;
use engine::{LineRunner, Mode, RunFault, ScriptReader, spell};
use finish::finish;
use mig_base::NoMemory;
use mig_base::refusal::Refusal;
use mig_base::schedule::Step;
use std::alloc::Global;
use std::io::{Read, Write, sink};
use world::World;

/// Runs a script on a new world of `cpus` processors, 1 to 16, without writing its output; completes the migration of the world in which
/// the run ends; and writes a line of a script for each step that was made for it. If the last line of the script has no line feed, a line
/// feed is written first. So the script with these lines after it is a script whose run ends with a complete migration. None of the steps
/// is refused.
///
/// A wrong line of the script ends it as it ends [`run_script`](engine::run_script), and nothing is written; so does a read fault, and lack
/// of memory. At a write fault a first part of the lines is written.
pub fn finish_script<R: Read, W: Write>(
    alloc: Global,
    reader: &mut R,
    writer: &mut W,
    cpus: u8,
) -> Result<Ending, RunFault>
    requires low { 1 ≤ cpus }
    requires high { cpus ≤ 16 }
    ensures ok { IfOk result (λ ending. IfSome (R.remaining reader.old) (λ input.
        FinishesScript ending (first_world cpus) input (W.contents writer.old)
        (W.contents writer.new))) }
    ensures fault { IfErr result (λ fault. IfSome (R.remaining reader.old) (λ input.
        FinishStops (first_world cpus) input fault (W.contents writer.old)
        (W.contents writer.new))) }
{
    let runner = LineRunner::on_world(alloc, cpus, Mode::Transcript)?;
    let mut script = ScriptReader::new(alloc, runner);
    read_lines(reader, &mut sink(), &mut script)?;
    let is_open = script.is_open();
    match script.into_world() {
        Some(mut world) => finish_world(alloc, writer, &mut world, is_open),
        // A reader that runs a world has it to the end.
        None => Err(RunFault::ReadFault),
    }
}

/// Completes the migration of a world, and writes the lines of the steps that were made for it.
fn finish_world<W: Write>(
    alloc: Global,
    writer: &mut W,
    world: &mut World,
    is_open: bool,
) -> Result<Ending, RunFault>
    ensures ok { IfOk result (λ ending.
        EndsScript ending world.old (W.contents writer.old) (W.contents writer.new)) }
    ensures fault { IfErr result (λ fault.
        FailsAfterScript world.old fault (W.contents writer.old) (W.contents writer.new)) }
{
    match finish(world, alloc) {
        Ok(steps) => {
            let text = lines_of(alloc, &steps, is_open)?;
            write_out(writer, &text)?;
            Ok(Ending::Complete)
        }
        Err(Refusal::CountUsed) => Ok(Ending::NoEpoch),
        Err(_) => Err(RunFault::NoMemory),
    }
}

/// The lines of steps, each with its line feed; before them a line feed, if the line before is open.
fn lines_of(alloc: Global, steps: &[Step], is_open: bool) -> Result<Vec<u8>, NoMemory>
    requires { HaveLines steps.now }
    ensures { IfOk result (λ text. AreBehind steps.now text.items) }
{
    let mut text = Vec::new(alloc);
    if is_open {
        text.push(b'\n')?;
    }
    add_lines(alloc, &mut text, steps)?;
    Ok(text)
}

/// Appends the lines of steps, each with its line feed.
fn add_lines(alloc: Global, text: &mut Vec<u8>, steps: &[Step]) -> Result<(), NoMemory>
    requires { HaveLines steps.now }
    ensures { OnOk result (Adds steps.now text.old.items text.new.items) }
{
    let mut line = String::new(alloc);
    for step in steps {
        spell(*step, &mut line)?;
        text.extend_from_slice(line.as_bytes())?;
        text.push(b'\n')?;
    }
    Ok(())
}

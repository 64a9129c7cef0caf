//! Running a script up to a line, and writing the facts of its world.

ghost use Rattle.std.specs.Prelude.{◌≡◌, ◌≤◌, ◌++◌, IfOk, IfErr, IfSome, OnOk};
ghost use Rattle.mig_model.specs.Migration.{first_world};
ghost use Rattle.show.specs.Shown.{IsStop, LeadsTo, Shows, ShowStops, Writes, WriteStops};

use crate::cut::run_lines;
use crate::facts::facts_of;
use crate::what::Asked;
use engine::line_runner::write_out;
use engine::run::read_lines;
use engine::whole_input::read_whole;
use engine::{LineRunner, Mode, RunFault, ScriptReader};
use std::alloc::Global;
use std::io::{Read, Write, sink};
use world::World;

/// The world in which the run of a script ends.
fn world_of(alloc: Global, script: &[u8], cpus: u8) -> Result<World, RunFault>
    requires low { 1 ≤ cpus }
    requires high { cpus ≤ 16 }
    ensures ok { IfOk result (LeadsTo (first_world cpus) script.now) }
    ensures fault { IfErr result (IsStop script.now) }
{
    let runner = LineRunner::on_world(alloc, cpus, Mode::Lines)?;
    let mut script_reader = ScriptReader::new(alloc, runner);
    let mut reader = script;
    read_lines(&mut reader, &mut sink(), &mut script_reader)?;
    match script_reader.into_world() {
        Some(world) => Ok(world),
        // A reader that runs a world has it to the end.
        None => Err(RunFault::ReadFault),
    }
}

/// Writes the facts of a world that are asked for.
fn write_facts<W: Write>(
    alloc: Global,
    writer: &mut W,
    world: &World,
    asked: Asked,
) -> Result<(), RunFault>
    ensures ok { OnOk result (Writes world.now asked (W.contents writer.old)
        (W.contents writer.new)) }
    ensures fault { IfErr result (λ fault. WriteStops world.now asked fault
        (W.contents writer.old) (W.contents writer.new)) }
{
    let text = facts_of(alloc, world, asked)?;
    write_out(writer, text.as_bytes())
}

/// Runs the lines of an input that are asked for, and writes the facts of their world.
fn show_input<W: Write>(
    alloc: Global,
    input: &[u8],
    writer: &mut W,
    cpus: u8,
    asked: Asked,
) -> Result<bool, RunFault>
    requires low { 1 ≤ cpus }
    requires high { cpus ≤ 16 }
    ensures ok { IfOk result (λ found. Shows found (first_world cpus) asked input.now
        (W.contents writer.old) (W.contents writer.new)) }
    ensures fault { IfErr result (λ fault. ShowStops (first_world cpus) asked input.now fault
        (W.contents writer.old) (W.contents writer.new)) }
{
    let Some(script) = run_lines(input, asked.at) else {
        return Ok(false);
    };
    let world = world_of(alloc, script, cpus)?;
    write_facts(alloc, writer, &world, asked)?;
    Ok(true)
}

impl Asked {
    /// Reads a script, makes the steps of its lines up to the one that is asked for on a new world of `cpus` processors, 1 to 16, and
    /// writes facts of that world, each in a line of its own or all in one JSON object: its progress, and then those that are asked for.
    /// Lines after it are not run, right or wrong. False, and nothing is written, if the script has fewer lines.
    ///
    /// A wrong line ends it as it ends [`run_script`](engine::run_script). The whole input is read before the first step, and nothing is
    /// written before all facts are known: at any fault but a write fault nothing is written.
    pub fn show_script<R: Read, W: Write>(
        self,
        alloc: Global,
        reader: &mut R,
        writer: &mut W,
        cpus: u8,
    ) -> Result<bool, RunFault>
        requires low { 1 ≤ cpus }
        requires high { cpus ≤ 16 }
        ensures ok { IfOk result (λ found. IfSome (R.remaining reader.old) (λ input.
            Shows found (first_world cpus) self input (W.contents writer.old)
            (W.contents writer.new))) }
        ensures fault { IfErr result (λ fault. IfSome (R.remaining reader.old) (λ input.
            ShowStops (first_world cpus) self input fault (W.contents writer.old)
            (W.contents writer.new))) }
    {
        let mut input = Vec::new(alloc);
        read_whole(reader, &mut input)?;
        show_input(alloc, &input, writer, cpus, self)
    }
}

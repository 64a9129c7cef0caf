//! Reading a script from a reader and writing its output to a writer.

ghost use Rattle.std.specs.Prelude.{◌≡◌, ◌≤◌, OnOk, IfSome};
ghost use Rattle.engine.specs.Script.{new_world, Writes, ScriptStops};
ghost use Rattle.engine.specs.Engine.{start_of, ReadsAll, WorkStops};
ghost use Rattle.engine.specs.Lines.{FaultsAs};

use crate::fault::RunFault;
use crate::line_runner::LineRunner;
use crate::script_reader::ScriptReader;
use crate::setup::Setup;
use std::alloc::Global;
use std::io::{Read, Write};

/// The most bytes that are read at once.
const PIECE: usize = 16_384;

/// Runs a script on a new world, and writes the mode's output for each order. The promises of `world` hold for the world in which the run
/// ends: its transcript is the run of one flat memory, and once the migration is complete, the destination alone holds that memory.
///
/// At most 4,294,967,295 reads are made; a script that needs more ends with a read fault. This bounds the loop: no clause counts reads.
/// The output of the lines of one read is gathered, and written before the next read and before any fault is returned. An interrupted
/// read or write is a fault.
pub fn run_script<R: Read, W: Write>(
    alloc: Global,
    reader: &mut R,
    writer: &mut W,
    setup: Setup,
) -> Result<(), RunFault>
    requires low { 1 ≤ setup.cpus }
    requires high { setup.cpus ≤ 16 }
    ensures ok { OnOk result (IfSome (R.remaining reader.old) (λ input.
        Writes setup.mode (new_world setup) input (W.contents writer.old)
        (W.contents writer.new))) }
    ensures fault { FaultsAs result (ScriptStops setup.mode (new_world setup))
        (R.remaining reader.old) (R.remaining reader.new) (W.contents writer.old)
        (W.contents writer.new) }
{
    let runner = LineRunner::on_world(alloc, setup.cpus, setup.mode)?;
    let mut script = ScriptReader::new(alloc, runner);
    read_lines(reader, writer, &mut script)
}

/// Reads all lines to the end of the input, does each, and writes their output.
pub fn read_lines<R: Read, W: Write>(
    reader: &mut R,
    writer: &mut W,
    script: &mut ScriptReader,
) -> Result<(), RunFault>
    requires { script.old ≡ start_of script.old.work }
    ensures ok { OnOk result (IfSome (R.remaining reader.old) (λ input.
        ReadsAll script.old.work input script.new.work (R.remaining reader.new)
        (W.contents writer.old) (W.contents writer.new))) }
    ensures fault { FaultsAs result (WorkStops script.old.work) (R.remaining reader.old)
        (R.remaining reader.new) (W.contents writer.old) (W.contents writer.new) }
{
    let mut buffer = [0u8; PIECE];
    for _ in 0..u32::MAX {
        match reader.read(&mut buffer) {
            Ok(0) => return script.finish(writer),
            Ok(count) => script.run_piece(writer, &buffer[..count])?,
            Err(_) => return Err(RunFault::ReadFault),
        }
    }
    Err(RunFault::ReadFault)
}

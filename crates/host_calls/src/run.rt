//! Reading a script, and writing its output with the calls after each line.

ghost use Rattle.std.specs.Prelude.{◌≤◌, OnOk, IfSome};
ghost use Rattle.mig_model.specs.Migration.{first_world};
ghost use Rattle.host_calls.specs.Stepped.{WritesCalls};

use crate::stepper::Stepper;
use engine::RunFault;
use engine::line_reader::read_lines;
use std::alloc::Global;
use std::io::{Read, Write};

/// Runs a script as `engine::run_script` does with `Mode::Lines`, on a world of `cpus` processors, and writes after the line of each step
/// the calls of a host that it stands for: `> NODE COMMAND` for each, in their order, where NODE is `source` or `dest` and COMMAND one
/// of the host protocol.
///
/// The output of the lines that end in one read is gathered, and written before the next read and before any fault is returned. At most
/// 4,294,967,295 reads are made; a script that needs more ends with a read fault. An interrupted read or write is a fault.
pub fn run_steps<R: Read, W: Write>(
    alloc: Global,
    reader: &mut R,
    writer: &mut W,
    cpus: u8,
) -> Result<(), RunFault>
    requires low { 1 ≤ cpus }
    requires high { cpus ≤ 16 }
    ensures { OnOk result (IfSome (R.remaining reader.old) (λ input.
        WritesCalls (first_world cpus) input (W.contents writer.old) (W.contents writer.new))) }
{
    let mut stepper = Stepper::new(alloc, cpus)?;
    read_lines(alloc, reader, writer, &mut stepper)
}

//! Checking a transcript against one flat memory.

ghost use Rattle.std.specs.Prelude.{◌≡◌, [], IfOk, IfErr, IfSome, string_bytes};
ghost use Rattle.engine.specs.declared.fault.RunFault.TheVariants.{NoMemory};
ghost use Rattle.engine.specs.Checking.{IsVerdict, Checks, CheckStops};
ghost use Rattle.engine.specs.Lines.{FaultsAs};

use crate::fault::RunFault;
use crate::line_runner::{LineRunner, write_out};
use crate::run::read_lines;
use crate::script_reader::ScriptReader;
use mig_base::Entry;
use report::CheckFault;
use report::check::check;
use std::alloc::Global;
use std::io::{Read, Write};

/// Reads a whole transcript, and writes whether it is that of one flat memory. If so, it writes `ok N` for N entries and returns true. If
/// not, it writes `wrong I expected REPLY` and returns false: the entry at index I, counted from 0, is the first whose reply is not
/// REPLY, the flat memory's.
///
/// Nothing is written before the whole input is read. At most 4,294,967,295 reads are made; a transcript that needs more ends
/// with a read fault. An interrupted read or write is a fault.
pub fn check_script<R: Read, W: Write>(
    alloc: Global,
    reader: &mut R,
    writer: &mut W,
) -> Result<bool, RunFault>
    ensures ok { IfOk result (λ answer. IfSome (R.remaining reader.old) (λ input.
        Checks input answer (W.contents writer.old) (W.contents writer.new))) }
    ensures fault { FaultsAs result CheckStops (R.remaining reader.old) (R.remaining reader.new)
        (W.contents writer.old) (W.contents writer.new) }
{
    let mut script = ScriptReader::new(alloc, LineRunner::keeping(alloc));
    read_lines(reader, writer, &mut script)?;
    let mut verdict = String::new(alloc);
    let answer = judge(alloc, script.entries(), &mut verdict)?;
    write_out(writer, verdict.as_bytes())?;
    Ok(answer)
}

/// Whether entries are a flat run. Appends the line of the verdict to the text.
fn judge(alloc: Global, entries: &[Entry], text: &mut String) -> Result<bool, RunFault>
    requires { string_bytes text.old ≡ [] }
    ensures ok { IfOk result (λ answer. IsVerdict entries.now answer (string_bytes text.new)) }
    ensures err { IfErr result (λ fault. fault ≡ NoMemory) }
{
    match check(alloc, entries) {
        Ok(()) => {
            let count = entries.len();
            write!(text, "ok {count}\n")?;
            Ok(true)
        }
        Err(CheckFault::Wrong { index, expected }) => {
            write!(text, "wrong {index} expected {expected}\n")?;
            Ok(false)
        }
        Err(CheckFault::NoMemory) => Err(RunFault::NoMemory),
    }
}

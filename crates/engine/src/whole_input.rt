//! Reading a whole input before its first line.

ghost use Rattle.std.specs.Prelude.{◌≡◌, ◌≤◌, ◌<◌, ◌++◌, length, IfOk, IfErr, IfSome, OnOk};
ghost use Rattle.lines.specs.Lines.{line_text};
ghost use Rattle.engine.specs.declared.fault.RunFault.TheVariants.{Line as WrongLine};
ghost use Rattle.engine.specs.Lines.{IsReadFault};

use crate::fault::RunFault;
use crate::script_reader::MAX_LINE;
use lines::Line;
use std::io::{ErrorKind, Read};

/// Appends all that a reader has to the bytes. `ReadFault` or `NoMemory` is returned if that fails.
pub fn read_whole<R: Read>(reader: &mut R, bytes: &mut Vec<u8>) -> Result<(), RunFault>
    ensures ok { OnOk result (IfSome (R.remaining reader.old) (λ input.
        bytes.new.items ≡ bytes.old.items ++ input)) }
    ensures fault { IfErr result IsReadFault }
{
    match reader.read_to_end(bytes) {
        Ok(_) => Ok(()),
        Err(error) if error.kind() == ErrorKind::OutOfMemory => Err(RunFault::NoMemory),
        Err(_) => Err(RunFault::ReadFault),
    }
}

/// The text of a line of a script or a transcript. `Line` is returned if the line has more than 256 bytes.
pub fn short_text<'a>(line: Line<'a>) -> Result<&'a [u8], RunFault>
    ensures short { OnOk result (length line.entry.raw.now ≤ 256) }
    ensures ok { IfOk result (λ text. text.now ≡ line_text line.entry.ended line.entry.raw.now) }
    ensures fault { IfErr result (λ fault.
        (fault ≡ WrongLine line.entry.number) × (256 < length line.entry.raw.now)) }
{
    if line.raw.len() > MAX_LINE {
        return Err(RunFault::Line(line.number));
    }
    Ok(line.text())
}

//! Reading a script or a transcript from a reader, and writing the listing of its wrong lines to a writer.

ghost use Rattle.std.specs.Prelude.{◌≡◌, IfOk, IfSome};
ghost use Rattle.engine.specs.Lines.{FaultsAs};
ghost use Rattle.lint.specs.Listing.{ListsAll, ListingStops};

use crate::linter::Linter;
use engine::RunFault;
use engine::line_reader::read_lines;
use grammar::Language;
use std::alloc::Global;
use std::io::{Read, Write};

/// An input whose wrong lines are listed.
#[derive(Clone, Copy)]
pub struct Listed<'a> {
    /// How the listing names it.
    pub name: &'a str,
    /// Whether it is a script or a transcript.
    pub language: Language,
}

/// Reads a whole script or transcript, and lists its wrong lines: for each, in order, it writes
/// `NAME:LINE:COLUMN: reason` and a line feed. LINE is the number of the line and COLUMN that of the byte where the reason is,
/// both counted from 1. True where no line is wrong.
///
/// Of a line of more than 256 bytes no more than these are kept, and it is listed once. The listing of the lines that end in one read is
/// gathered, and is written before the next read and before any fault is answered. At most 4,294,967,295 reads are made; an input that
/// needs more ends with a read fault. That is the bound of the loop: no clause counts reads. An interrupted read or write is a fault. No
/// fault is [`RunFault::Line`].
pub fn lint_lines<R: Read, W: Write>(
    alloc: Global,
    reader: &mut R,
    writer: &mut W,
    listed: Listed<'_>,
) -> Result<bool, RunFault>
    ensures ok { IfOk result (λ answer. IfSome (R.remaining reader.old) (λ input.
        ListsAll listed.entry.language listed.entry.name.now input answer (W.contents writer.old)
        (W.contents writer.new))) }
    ensures fault { FaultsAs result (ListingStops listed.entry.language listed.entry.name.now)
        (R.remaining reader.old) (R.remaining reader.new) (W.contents writer.old)
        (W.contents writer.new) }
{
    let mut linter = Linter::new(alloc, listed.name, listed.language);
    read_lines(alloc, reader, writer, &mut linter)?;
    Ok(linter.clean)
}

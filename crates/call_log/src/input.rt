//! Reading a log line by line.

ghost use Rattle.std.specs.Prelude.{◌≡◌, ◌∷◌, ◌↔◌, ℕ, List, [], Option, IsTrue, OnOk, IfOk, IfErr, IfSome, IsSome};
ghost use Rattle.std.specs.Io.KnownBytes.{Appends};
ghost use Rattle.call_log.specs.declared.fault.LogFault.TheVariants.{WriteFault};
ghost use Rattle.call_log.specs.Listing.{HasNoFeed, ReadsLog};
ghost use Rattle.call_log.specs.Reading.{At, Completes, EndsLine, Finished, IsWhole, Leads, Ran, Runs, Writes};

use crate::complete::ReadLog;
use crate::fault::LogFault;
use crate::log_reader::{LONGEST_LINE, LogReader};
use foundation::NoMemory;
use lines::Lines;
use std::alloc::Global;
use std::io::{Read, Write};

/// The most bytes that are read at once.
const PIECE: usize = 16_384;

/// The lines of a log that is being read.
#[derive(Drop)]
pub(crate) struct LineReader {
    pub(crate) lines: LogReader,
    /// The bytes of the line that has no end yet, at most one more than a line may have.
    held: Vec<u8>,
}

impl LineReader {
    /// One that has read nothing.
    fn new(alloc: Global, name: &str) -> Result<LineReader, NoMemory>
        ensures { IfOk result (λ reader. (before : Option (List ℕ)) →
            At name.now [] before reader before) }
    {
        let lines = LogReader::new(alloc, name)?;
        Ok(LineReader {
            lines,
            held: Vec::new(alloc),
        })
    }

    /// Adds bytes to the open line.
    fn hold(&mut self, bytes: &[u8]) -> Result<(), LogFault>
        requires { HasNoFeed bytes.now }
        ensures { OnOk result ((w : Option (List ℕ)) → Leads self.old w bytes.now self.new w) }
    {
        let room = (LONGEST_LINE + 1)
            .saturating_sub(self.held.len())
            .min(bytes.len());
        self.held.extend_from_slice(&bytes[..room])?;
        Ok(())
    }

    /// Takes the open line.
    fn end_line(&mut self, ended: bool) -> Result<(), LogFault>
        ensures { OnOk result (EndsLine self.old ended self.new) }
    {
        self.lines.take_line(&self.held, ended)?;
        self.held.clear();
        Ok(())
    }

    /// Takes the next bytes, and each line that ends in them.
    fn feed(&mut self, bytes: &[u8]) -> Result<(), LogFault>
        ensures { OnOk result ((w : Option (List ℕ)) → Leads self.old w bytes.now self.new w) }
    {
        for line in Lines::new(bytes) {
            self.hold(line.raw)?;
            if line.ended {
                self.end_line(true)?;
            }
        }
        Ok(())
    }

    /// Takes the last line, if it lacks its line feed.
    fn finish(&mut self) -> Result<(), LogFault>
        ensures { OnOk result ((name input : List ℕ) (before w : Option (List ℕ)) →
            At name input before self.old w → Finished name input before self.new w) }
    {
        if self.held.is_empty() {
            return self.lines.finish();
        }
        self.end_line(false)?;
        self.lines.finish()
    }

    /// Writes the listing of the lines that were taken.
    fn write<W: Write>(&mut self, writer: &mut W) -> Result<(), LogFault>
        ensures { OnOk result
            (Writes self.old (W.contents writer.old) self.new (W.contents writer.new)) }
    {
        write_out(writer, &self.lines.output)?;
        self.lines.output.clear();
        Ok(())
    }

    /// Takes the next bytes, and writes the listing of the lines that end in them.
    fn take_piece<W: Write>(&mut self, piece: &[u8], writer: &mut W) -> Result<(), LogFault>
        ensures { OnOk result
            (Leads self.old (W.contents writer.old) piece.now self.new (W.contents writer.new)) }
    {
        self.feed(piece)?;
        self.write(writer)
    }

    /// Takes the end of the log, and writes the listing of what is wrong there.
    fn take_end<W: Write>(&mut self, writer: &mut W) -> Result<(), LogFault>
        ensures { OnOk result
            (Completes self.old (W.contents writer.old) self.new (W.contents writer.new)) }
    {
        self.finish()?;
        self.write(writer)
    }

    /// The log that was read, if no line of it is wrong.
    fn into_log(self) -> Option<ReadLog>
        ensures found { IsSome result ↔ IsTrue self.lines.is_right }
        ensures entries { IfSome result (λ log. log.entries ≡ self.lines.entries) }
    {
        let LineReader { lines, held: _ } = self;
        if lines.is_right {
            Some(lines.into_log())
        } else {
            None
        }
    }
}

/// Reads the next piece of a log, and writes the listing of the lines that end in it. False at the end of the log.
fn read_piece<R: Read, W: Write>(
    reader: &mut LineReader,
    input: &mut R,
    writer: &mut W,
) -> Result<bool, LogFault>
    ensures { IfOk result (λ more. (name : List ℕ) (start before : Option (List ℕ)) →
        Ran name start (R.remaining input.old) reader.old before (W.contents writer.old) →
        Runs more name start (R.remaining input.new) reader.new before (W.contents writer.new)) }
{
    let mut buffer = [0u8; PIECE];
    match input.read(&mut buffer) {
        Ok(0) => {
            reader.take_end(writer)?;
            Ok(false)
        }
        Ok(count) => {
            reader.take_piece(&buffer[..count], writer)?;
            Ok(true)
        }
        Err(_) => Err(LogFault::ReadFault),
    }
}

/// Reads all lines of a log, and writes the listing of those that are wrong.
fn read_lines<R: Read, W: Write>(
    reader: &mut LineReader,
    input: &mut R,
    writer: &mut W,
) -> Result<(), LogFault>
    ensures { OnOk result ((name : List ℕ) →
        At name [] (W.contents writer.old) reader.old (W.contents writer.old) →
        IsWhole name (R.remaining input.old) reader.new (W.contents writer.old)
        (W.contents writer.new)) }
{
    for _ in 0..u32::MAX {
        let more = read_piece(reader, input, writer)?;
        if !more {
            return Ok(());
        }
    }
    Err(LogFault::ReadFault)
}

/// Reads a whole log, and writes `NAME:LINE: reason` for each line that is wrong. Some log where none is.
///
/// Its entries are kept, some 100 bytes for each call. Of a line no more than 4,097 bytes are. At most 4,294,967,295 reads are made, and as many
/// lines are read; an input that needs more ends with `ReadFault`. An interrupted read or write is a fault. After a fault the wrong lines
/// before it may have been written.
pub fn read_log<R: Read, W: Write>(
    alloc: Global,
    input: &mut R,
    writer: &mut W,
    name: &str,
) -> Result<Option<ReadLog>, LogFault>
    ensures { IfOk result (λ found. IfSome (R.remaining input.old) (λ bytes.
        ReadsLog name.now bytes found (W.contents writer.old) (W.contents writer.new))) }
{
    let mut reader = LineReader::new(alloc, name)?;
    read_lines(&mut reader, input, writer)?;
    Ok(reader.into_log())
}

/// Writes all of the bytes. `WriteFault` comes if a write fails or takes no byte; the first of the bytes may be written then.
pub fn write_out<W: Write>(writer: &mut W, bytes: &[u8]) -> Result<(), LogFault>
    ensures ok { OnOk result (Appends (W.contents writer.old) (W.contents writer.new) bytes.now) }
    ensures fault { IfErr result (λ fault. fault ≡ WriteFault) }
{
    let mut rest = bytes;
    while !rest.is_empty() {
        match writer.write(rest) {
            Ok(0) | Err(_) => return Err(LogFault::WriteFault),
            Ok(taken) => rest = &rest[taken..],
        }
    }
    Ok(())
}

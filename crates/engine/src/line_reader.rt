//! Reading an input line by line: each line is handed to a sink, and the output of the sink is written.

ghost use Rattle.std.specs.Prelude.{◌≡◌, ◌+◌, ◌<◌, ◌≤◌, ◌^◌, ◌++◌, ◌∷◌, ℕ, List, [], length, Option, true, OnOk, OnErr, IfErr, IfSome};
ghost use Rattle.grammar.specs.Lines.{HasNoFeed};
ghost use Rattle.engine.specs.Lines.{RawLine, held_line, LineFault, FaultsAs, Finishes, Stops};
ghost use Rattle.engine.specs.Reading.{open_line, Adds, Ended, Leads, BreaksIn, StopsIn, EndsIn, BreaksAtEnd, StopsAtEnd};

use crate::fault::RunFault;
use crate::line_runner::write_out;
use crate::script_reader::MAX_LINE;
use lines::Lines;
use mig_base::NoMemory;
use std::alloc::Global;
use std::io::{Read, Write};

/// The most bytes that are read at once.
const PIECE: usize = 16_384;

/// What the lines of an input are handed to, one after the other.
pub trait LineSink {
    // From the first state the line with this number is taken, which leaves the second state and has this output.
    ghost takes: { Self → ℕ → RawLine → Self → List ℕ → Type 0 };

    // In this state the line with this number is wrong.
    ghost refuses: { Self → ℕ → RawLine → Type 0 };

    /// Takes the line with this number, counted from 1, and appends its output. `front` has the first 256 bytes of the line, and `len` is
    /// the number of all its bytes. `ended` says whether a line feed follows: the last line of an input may lack it.
    ///
    /// `Line(number)` comes if the line is wrong, and `NoMemory` if memory runs out. The output is then as it was.
    fn take_line(
        &mut self,
        number: u64,
        front: &[u8],
        len: u64,
        ended: bool,
        output: &mut Vec<u8>,
    ) -> Result<(), RunFault>
        ensures ok { OnOk result ((text : List ℕ) ×
            takes self.old number (held_line front.now len ended) self.new text ×
            (output.new.items ≡ output.old.items ++ text)) }
        ensures fault { IfErr result (λ fault.
            LineFault (refuses self.old number (held_line front.now len ended)) number fault) }
        ensures kept { OnErr result (output.new.items ≡ output.old.items) };

    /// Called where more than 256 bytes of the line with this number were read, and not its end. A fault ends the reading, so that a line
    /// without end does not continue for ever; Ok reads on, and the rest of the line is not kept.
    fn overrun(&self, number: u64) -> Result<(), RunFault>
        ensures { IfErr result (λ fault. (raw : RawLine) → 256 < raw.len →
            LineFault (refuses self.now number raw) number fault) };
}

/// The lines of an input that is being read: where they end, and their numbers.
#[derive(Drop)]
struct LineReader {
    /// The bytes of the line that has no end yet, up to its 256th.
    line: Vec<u8>,
    /// How many bytes it has.
    len: u64,
    /// The number of lines before it.
    number: u64,
    /// The output that is not written yet.
    output: Vec<u8>,
}

impl LineReader {
    /// A reader that has read nothing.
    fn new(alloc: Global) -> LineReader
        ensures line { result.line.items ≡ [] }
        ensures len { result.len ≡ 0 }
        ensures number { result.number ≡ 0 }
        ensures output { result.output.items ≡ [] }
    {
        LineReader {
            line: Vec::new(alloc),
            len: 0,
            number: 0,
            output: Vec::new(alloc),
        }
    }

    /// Adds bytes to the open line.
    fn hold(&mut self, bytes: &[u8]) -> Result<(), NoMemory>
        requires { self.old.len + length bytes.now < 2 ^ 64 }
        ensures ok { OnOk result (Adds self.old bytes.now self.new) }
        ensures kept { self.new.output.items ≡ self.old.output.items }
    {
        let room = MAX_LINE.saturating_sub(self.line.len()).min(bytes.len());
        self.line.extend_from_slice(&bytes[..room])?;
        self.len += bytes.len() as u64;
        Ok(())
    }

    /// Hands over the open line, and gathers its output.
    fn end_line<S: LineSink>(&mut self, sink: &mut S, ended: bool) -> Result<(), RunFault>
        requires { self.old.number + 1 < 2 ^ 64 }
        ensures ok { OnOk result (Ended S.takes sink.old self.old ended sink.new self.new) }
        ensures fault { IfErr result (λ fault. LineFault
            (S.refuses sink.old (self.old.number + 1) (open_line self.old ended))
            (self.old.number + 1) fault) }
        ensures kept { OnErr result (self.new.output.items ≡ self.old.output.items) }
    {
        let number = self.number + 1;
        sink.take_line(number, &self.line, self.len, ended, &mut self.output)?;
        self.line.clear();
        self.len = 0;
        self.number = number;
        Ok(())
    }

    /// Hands over the line that ends with these bytes and a line feed.
    fn end_whole<S: LineSink>(&mut self, sink: &mut S, bytes: &[u8]) -> Result<(), RunFault>
        requires feed { HasNoFeed bytes.now }
        requires number { self.old.number + 1 < 2 ^ 64 }
        requires len { self.old.len + length bytes.now < 2 ^ 64 }
        ensures ok { OnOk result ((w : Option (List ℕ)) →
            Leads S.takes sink.old self.old w (bytes.now ++ 10 ∷ []) sink.new self.new w) }
        ensures number { OnOk result (self.new.number ≡ self.old.number + 1) }
        ensures len { OnOk result (self.new.len ≡ 0) }
        ensures fault { IfErr result (λ fault. (w : Option (List ℕ)) (behind : List ℕ) →
            BreaksIn S.takes S.refuses sink.old self.old (bytes.now ++
            10 ∷ behind) self.new.output.items fault w) }
    {
        self.hold(bytes)?;
        self.end_line(sink, true)
    }

    /// Adds bytes to the open line, none of which is a line feed.
    fn keep_open<S: LineSink>(&mut self, sink: &S, bytes: &[u8]) -> Result<(), RunFault>
        requires feed { HasNoFeed bytes.now }
        requires number { self.old.number + 1 < 2 ^ 64 }
        requires len { self.old.len + length bytes.now < 2 ^ 64 }
        ensures ok { OnOk result ((w : Option (List ℕ)) →
            Leads S.takes sink.now self.old w bytes.now sink.now self.new w) }
        ensures number { OnOk result (self.new.number ≡ self.old.number) }
        ensures len { OnOk result (self.new.len ≡ self.old.len + length bytes.now) }
        ensures fault { IfErr result (λ fault. (w : Option (List ℕ)) →
            BreaksIn S.takes S.refuses sink.now self.old bytes.now self.new.output.items fault w) }
    {
        self.hold(bytes)?;
        if self.len > MAX_LINE as u64 {
            sink.overrun(self.number + 1)?;
        }
        Ok(())
    }

    /// Takes the next bytes, hands over each line that ends in them, and gathers the output.
    fn feed<S: LineSink>(&mut self, sink: &mut S, bytes: &[u8]) -> Result<(), RunFault>
        requires { self.old.number + self.old.len + length bytes.now + 1 < 2 ^ 64 }
        ensures ok { OnOk result ((w : Option (List ℕ)) →
            Leads S.takes sink.old self.old w bytes.now sink.new self.new w) }
        ensures number { OnOk result
            (self.new.number + self.new.len ≤ self.old.number + self.old.len + length bytes.now) }
        ensures fault { IfErr result (λ fault. (w : Option (List ℕ)) →
            BreaksIn S.takes S.refuses sink.old self.old bytes.now self.new.output.items fault w) }
    {
        for line in Lines::new(bytes) {
            if line.ended {
                self.end_whole(sink, line.raw)?;
            } else {
                self.keep_open(sink, line.raw)?;
            }
        }
        Ok(())
    }

    /// Hands over the last line, if it lacks its line feed, and gathers its output.
    fn end_last<S: LineSink>(&mut self, sink: &mut S) -> Result<(), RunFault>
        requires { self.old.number + 1 < 2 ^ 64 }
        ensures ok { OnOk result ((w : Option (List ℕ)) →
            EndsIn S.takes sink.old self.old w sink.new self.new.output.items w) }
        ensures fault { IfErr result (λ fault. (w : Option (List ℕ)) →
            BreaksAtEnd S.takes S.refuses sink.old self.old self.new.output.items fault w) }
    {
        if self.len == 0 {
            return Ok(());
        }
        self.end_line(sink, false)
    }

    /// Takes the next bytes, and writes the output of the lines that end in them.
    fn run_piece<S: LineSink, W: Write>(
        &mut self,
        sink: &mut S,
        writer: &mut W,
        bytes: &[u8],
    ) -> Result<(), RunFault>
        requires { self.old.number + self.old.len + length bytes.now + 1 < 2 ^ 64 }
        ensures ok { OnOk result (Leads S.takes sink.old self.old (W.contents writer.old) bytes.now
            sink.new self.new (W.contents writer.new)) }
        ensures clean { OnOk result (self.new.output.items ≡ []) }
        ensures number { OnOk result
            (self.new.number + self.new.len ≤ self.old.number + self.old.len + length bytes.now) }
        ensures fault { IfErr result (λ fault. StopsIn S.takes S.refuses sink.old self.old
            (W.contents writer.old) bytes.now fault (W.contents writer.new)) }
    {
        let fed = self.feed(sink, bytes);
        write_out(writer, &self.output)?;
        self.output.clear();
        fed
    }

    /// Hands over the last line, if it lacks its line feed, and writes its output.
    fn finish<S: LineSink, W: Write>(
        &mut self,
        sink: &mut S,
        writer: &mut W,
    ) -> Result<(), RunFault>
        requires { self.old.number + 1 < 2 ^ 64 }
        ensures ok { OnOk result (EndsIn S.takes sink.old self.old (W.contents writer.old)
            sink.new [] (W.contents writer.new)) }
        ensures fault { IfErr result (λ fault. StopsAtEnd S.takes S.refuses sink.old self.old
            (W.contents writer.old) fault (W.contents writer.new)) }
    {
        let ended = self.end_last(sink);
        write_out(writer, &self.output)?;
        ended
    }
}

/// Reads a whole input and hands each of its lines to a sink, in order: what comes before each line feed, and last what comes after the
/// last of them, unless nothing does. Writes the output of the sink.
///
/// Of a line no more than 256 bytes are kept. The output of the lines that end in one read is gathered, and written before the next read
/// and before any fault is returned. At most 4,294,967,295 reads are made; an input that needs more ends with a read fault. That bounds
/// the loop: no clause counts reads. An interrupted read or write is a fault.
pub fn read_lines<R: Read, W: Write, S: LineSink>(
    alloc: Global,
    reader: &mut R,
    writer: &mut W,
    sink: &mut S,
) -> Result<(), RunFault>
    ensures ok { OnOk result (IfSome (R.remaining reader.old) (λ input.
        Finishes S.takes sink.old input sink.new [] (W.contents writer.old)
        (W.contents writer.new))) }
    ensures fault { FaultsAs result (Stops S.takes S.refuses sink.old) (R.remaining reader.old)
        (R.remaining reader.new) (W.contents writer.old) (W.contents writer.new) }
{
    let mut lines = LineReader::new(alloc);
    let mut buffer = [0u8; PIECE];
    for _ in 0..u32::MAX {
        match reader.read(&mut buffer) {
            Ok(0) => return lines.finish(sink, writer),
            Ok(count) => lines.run_piece(sink, writer, &buffer[..count])?,
            Err(_) => return Err(RunFault::ReadFault),
        }
    }
    Err(RunFault::ReadFault)
}

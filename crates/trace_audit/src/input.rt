//! Reading an input that is a log or a trace.

ghost use Rattle.std.specs.Prelude.{◌≡◌, ◌++◌, List, ℕ, OnOk, IfOk, IfSome, IsTrue};
ghost use Rattle.std.specs.Io.KnownBytes.{Consumes};
ghost use Rattle.strace_text.specs.Traces.{IsNoLog};
ghost use Rattle.trace_audit.specs.Traces.{AuditsInput, TracesInput};

use crate::shown::split_at_byte;
use crate::trace::judge_converted;
use audit::{Asked, Verdict, audit_log};
use call_log::LogFault;
use std::alloc::Global;
use std::io;
use std::io::{Read, Write};
use strace_text::{convert, is_trace};

/// The most bytes that are read at once.
const PIECE: usize = 16_384;

/// What a first line is, this number of its bytes shows: no line of a log has as many.
const KNOWN: usize = 4096;

/// Reads an input, and judges its calls. Of a log it writes what [`audit_log`] writes. What strace has written is converted to a log: where
/// lines of it cannot be read it writes `NAME:LINE: reason` for each of them, and else what `audit_log` writes of the log, with the numbers
/// of the lines of the trace in place of the log's.
///
/// Of a log, its calls, its entries and the run that was found are kept until it ends; of a trace, its text too until it is converted, and
/// then the log and what is said of it. At most 4,294,967,295 lines are read; an input that needs more ends with a read fault. An
/// interrupted read is a fault in a log, and so is an interrupted write. After a fault some of the text was written. Trace events are added
/// to `events` as `audit_log` adds them.
pub fn audit_input<R: Read, W: Write>(
    alloc: Global,
    reader: &mut R,
    writer: &mut W,
    name: &str,
    asked: Asked,
    events: &mut Vec<u8>,
) -> Result<Verdict, LogFault>
    ensures audits { IfOk result (λ verdict. IfSome (R.remaining reader.old) (λ input.
        AuditsInput asked name.now input verdict (W.contents writer.old) (W.contents writer.new))) }
    ensures traces { IfOk result (λ verdict.
        TracesInput asked verdict events.old.items events.new.items) }
{
    let front = read_front(alloc, reader)?;
    if begins_a_trace(&front) {
        let text = read_rest(reader, front)?;
        let converted = convert(alloc, &text)?;
        drop(text);
        return judge_converted(writer, name, &converted, asked, events);
    }
    if front.len() >= KNOWN && !front.contains(&b'\n') {
        return Err(LogFault::NotALog);
    }
    let mut whole = front.as_slice().chain(reader);
    audit_log(alloc, &mut whole, writer, name, asked, events)
}

/// Reads until the first line has ended, or is known.
fn read_front<R: Read>(alloc: Global, reader: &mut R) -> Result<Vec<u8>, LogFault>
    ensures { IfOk result (λ front.
        Consumes (R.remaining reader.old) (R.remaining reader.new) front.items) }
{
    let mut front = Vec::new(alloc);
    let mut piece = [0u8; PIECE];
    for _ in 0..KNOWN {
        let Ok(count) = reader.read(&mut piece) else {
            return Err(LogFault::ReadFault);
        };
        front.extend_from_slice(&piece[..count])?;
        if count == 0 || front.len() >= KNOWN || front.contains(&b'\n') {
            return Ok(front);
        }
    }
    Ok(front)
}

/// Whether an input that begins with these bytes is what strace has written.
fn begins_a_trace(front: &[u8]) -> bool
    ensures { IsTrue result → IsNoLog front.now }
{
    match split_at_byte(front, b'\n') {
        Some((line, _)) => is_trace(line),
        None => is_trace(front),
    }
}

/// Adds all that is left to what was read.
fn read_rest<R: Read>(reader: &mut R, front: Vec<u8>) -> Result<Vec<u8>, LogFault>
    ensures { IfOk result (λ text. IfSome (R.remaining reader.old) (λ rest.
        text.items ≡ front.items ++ rest)) }
{
    let mut text = front;
    match reader.read_to_end(&mut text) {
        Ok(_) => Ok(text),
        Err(error) if error.kind() == io::ErrorKind::OutOfMemory => Err(LogFault::NoMemory),
        Err(_) => Err(LogFault::ReadFault),
    }
}

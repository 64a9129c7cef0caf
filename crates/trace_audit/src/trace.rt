//! Judging a trace that was converted.

ghost use Rattle.std.specs.Prelude.{IfOk};
ghost use Rattle.trace_audit.specs.Traces.{JudgesConverted, TracesConverted};

use crate::listing::list_refused;
use crate::shown::show;
use audit::{Asked, Verdict, audit_log};
use call_log::LogFault;
use call_log::input::write_out;
use std::io::Write;
use strace_text::Converted;

/// Judges the log that a trace was converted to. Where lines of the trace cannot be read it writes `NAME:LINE: reason` for each of them, and
/// the log is not judged. Else it writes what [`audit_log`] writes of the log, with the numbers of the lines of the trace.
///
/// What is written is made first. A `NoMemory` has written nothing; after a `WriteFault` some of it was written. Trace events are added to
/// `events` as `audit_log` adds them, with the numbers of the lines of the trace.
pub fn judge_converted<W: Write>(
    writer: &mut W,
    name: &str,
    converted: &Converted,
    asked: Asked,
    events: &mut Vec<u8>,
) -> Result<Verdict, LogFault>
    ensures judges { IfOk result (λ verdict.
        JudgesConverted asked name.now converted.now verdict (W.contents writer.old)
        (W.contents writer.new)) }
    ensures traces { IfOk result (λ verdict. TracesConverted asked name.now converted.now verdict
        events.old.items events.new.items) }
{
    let alloc = *events.allocator();
    if !converted.wrong.is_empty() {
        let listed = list_refused(alloc, name, &converted.wrong)?;
        write_out(writer, &listed)?;
        return Ok(Verdict::Wrong);
    }
    let mut log = converted.log.as_bytes();
    let mut said = Vec::new(alloc);
    let mut traced = Vec::new(alloc);
    let verdict = match audit_log(alloc, &mut log, &mut said, "", asked, &mut traced) {
        Ok(verdict) => verdict,
        // A vector takes all bytes unless memory runs out.
        Err(LogFault::WriteFault) => return Err(LogFault::NoMemory),
        Err(fault) => return Err(fault),
    };
    let shown = show(alloc, name, &said, &converted.lines)?;
    events.extend_from_slice(&show(alloc, name, &traced, &converted.lines)?)?;
    write_out(writer, &shown)?;
    Ok(verdict)
}

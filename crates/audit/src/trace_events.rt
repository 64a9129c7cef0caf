//! Waits and findings as an array of JSON in the Trace Event format, which chrome://tracing and Perfetto read.

ghost use Rattle.std.specs.Prelude.{◌≡◌, ◌++◌, codes, length, OnOk, IfOk, string_bytes};
ghost use Rattle.audit.specs.TraceEvents.{AddsEvents, IsAnyTrace, IsTrace, event_line, microseconds};

use crate::cases::{Case, Moment, call_at, list_cases};
use crate::judging::{JudgedLog, PAGE};
use crate::notes::FaultWait;
use crate::texts::{add_place_fields, kind_of};
use crate::threads::named_thread;
use foundation::NoMemory;
use std::alloc::Global;

/// The first thread of the format of those that the log does not name: its own end below it.
const UNNAMED: u64 = 1 << 31;

/// A wait, with the thread of the format that it is of. Times are nanoseconds.
#[derive(Clone, Copy)]
struct Span {
    slept: FaultWait,
    object: Option<u64>,
    thread: u64,
    since: Moment,
    until: Moment,
}

/// A wait that a call has ended.
fn span_of(judged: &JudgedLog, slept: &FaultWait) -> Option<Span> {
    let read = call_at(&judged.log, slept.read)?;
    let by = judged.log.call(slept.by?)?;
    Some(Span {
        slept: *slept,
        object: read.object(),
        thread: match named_thread(slept.fault.thread) {
            Some(thread) => u64::from(thread),
            None => UNNAMED,
        },
        since: Moment {
            line: read.begin,
            time: read.until,
        },
        until: Moment {
            line: by.end,
            time: by.until.max(read.until),
        },
    })
}

/// The first place of these at which nobody waits from this time on, which are the ends of the last waits there.
fn free_place(lanes: &[u64], since: u64) -> Option<usize> {
    lanes.iter().position(|until| *until <= since)
}

/// The waits of a log, in the order in which they begin. Those of threads that it does not name are of as few threads as do not overlap.
fn spans_of(alloc: Global, judged: &JudgedLog) -> Result<Vec<Span>, NoMemory> {
    let mut spans = Vec::new(alloc);
    for slept in &judged.notes.waits {
        if let Some(span) = span_of(judged, slept) {
            spans.push(span)?;
        }
    }
    spans.sort_by_key(|span| (span.since.time, span.since.line))?;
    let mut lanes: Vec<u64> = Vec::new(alloc);
    for span in spans.iter_mut() {
        if span.thread < UNNAMED {
            continue;
        }
        let place = free_place(&lanes, span.since.time);
        let lane = place.unwrap_or(lanes.len());
        match lanes.get_mut(lane) {
            Some(until) => *until = span.until.time,
            None => lanes.push(span.until.time)?,
        }
        span.thread = UNNAMED.saturating_add(lane as u64);
    }
    Ok(spans)
}

/// Adds nanoseconds as microseconds with three decimals.
fn add_microseconds(text: &mut String, time: u64) -> Result<(), NoMemory>
    ensures { OnOk result (string_bytes text.new ≡ string_bytes text.old ++ microseconds time) }
{
    let whole = time / 1000;
    let (first, second, third) = (time / 100 % 10, time / 10 % 10, time % 10);
    write!(text, "{whole}.{first}{second}{third}")?;
    Ok(())
}

/// Adds the fields of a wait.
fn add_span(text: &mut String, span: &Span) -> Result<(), NoMemory> {
    let kind = kind_of(span.slept.fault.flags);
    let (process, thread) = (span.slept.space, span.thread);
    write!(
        text,
        "\"name\": \"{kind}\", \"cat\": \"wait\", \"ph\": \"X\", \"pid\": {process}, \"tid\": {thread}"
    )?;
    text.push_str(", \"ts\": ")?;
    add_microseconds(text, span.since.time)?;
    text.push_str(", \"dur\": ")?;
    add_microseconds(text, span.until.time.saturating_sub(span.since.time))?;
    let addr = PAGE.address(span.slept.fault.page);
    let (line, woken) = (span.since.line, span.until.line);
    write!(
        text,
        ", \"args\": {{\"address\": \"0x{addr:x}\", \"read\": {{\"line\": {line}}}, \"woken\": {{\"line\": {woken}}}"
    )?;
    if let Some(object) = span.object {
        write!(text, ", \"object\": {object}")?;
    }
    text.push_str("}")?;
    Ok(())
}

/// Adds the fields of a finding, which is shown where it begins, or at this time, in nanoseconds, if no line says when.
fn add_mark(text: &mut String, judged: &JudgedLog, case: &Case, last: u64) -> Result<(), NoMemory> {
    let (name, process) = (case.rule.name(), case.process);
    let thread = case.thread.unwrap_or(0);
    write!(
        text,
        "\"name\": \"{name}\", \"cat\": \"finding\", \"ph\": \"i\", \"s\": \"t\", \"pid\": {process}, \"tid\": {thread}"
    )?;
    text.push_str(", \"ts\": ")?;
    let at = match (case.since, case.until) {
        (Some(moment), _) | (None, Some(moment)) => moment.time,
        (None, None) => last,
    };
    add_microseconds(text, at)?;
    let (line, word) = (case.line, case.word);
    write!(text, ", \"args\": {{\"line\": {line}, \"of\": \"{word}\"")?;
    add_place_fields(text, judged.size, case)?;
    text.push_str("}")?;
    Ok(())
}

/// Adds an event of these fields.
fn add_event(output: &mut Vec<u8>, fields: &str) -> Result<(), NoMemory>
    ensures { OnOk result (output.new.items ≡ output.old.items ++ event_line fields.now) }
{
    output.extend_from_slice(b"{")?;
    output.extend_from_slice(fields.as_bytes())?;
    output.extend_from_slice(b"},\n")?;
    Ok(())
}

/// Adds an event for each wait.
fn add_spans(output: &mut Vec<u8>, alloc: Global, spans: &[Span]) -> Result<(), NoMemory>
    ensures { OnOk result (AddsEvents (length spans.now) output.old.items output.new.items) }
{
    let mut text = String::new(alloc);
    for span in spans {
        text.clear();
        add_span(&mut text, span)?;
        add_event(output, &text)?;
    }
    Ok(())
}

/// Adds an event for each finding.
fn add_marks(
    output: &mut Vec<u8>,
    alloc: Global,
    judged: &JudgedLog,
    cases: &[Case],
    last: u64,
) -> Result<(), NoMemory>
    ensures { OnOk result (AddsEvents (length cases.now) output.old.items output.new.items) }
{
    let mut text = String::new(alloc);
    for case in cases {
        text.clear();
        add_mark(&mut text, judged, case, last)?;
        add_event(output, &text)?;
    }
    Ok(())
}

/// When the last call of a log returned.
fn last_time(judged: &JudgedLog) -> u64 {
    let mut last = 0u64;
    for place in &judged.log.ends {
        if let Some(call) = judged.log.call(*place) {
            last = last.max(call.until);
        }
    }
    last
}

/// Puts the end of a log at this time in place of a text.
fn print_end(text: &mut String, last: u64) -> Result<(), NoMemory> {
    text.clear();
    text.push_str(
        "\"name\": \"end of the log\", \"cat\": \"log\", \"ph\": \"i\", \"s\": \"g\", \"pid\": 0, \"tid\": 0, \"ts\": ",
    )?;
    add_microseconds(text, last)
}

/// The array of these waits and findings, and of the end of the log.
fn trace(
    alloc: Global,
    judged: &JudgedLog,
    spans: &[Span],
    cases: &[Case],
) -> Result<Vec<u8>, NoMemory>
    ensures { IfOk result (λ text.
        IsTrace (length spans.now) (length cases.now) text.items) }
{
    let last = last_time(judged);
    let mut end = String::new(alloc);
    print_end(&mut end, last)?;
    let mut output = Vec::new(alloc);
    output.extend_from_slice(b"[\n")?;
    add_spans(&mut output, alloc, spans)?;
    add_marks(&mut output, alloc, judged, cases, last)?;
    output.extend_from_slice(b"{")?;
    output.extend_from_slice(end.as_bytes())?;
    output.extend_from_slice(b"}\n]\n")?;
    Ok(output)
}

/// The waits of a log and what was found in it, as events. A page fault is late after these microseconds, if any is to be.
pub(crate) fn trace_of(
    alloc: Global,
    judged: &JudgedLog,
    late_after: Option<u64>,
) -> Result<Vec<u8>, NoMemory>
    ensures { IfOk result (λ text. IsAnyTrace text.items) }
{
    let mut cases = list_cases(alloc, judged, late_after)?;
    cases.sort_by_key(|case| (case.line, case.rule))?;
    let spans = spans_of(alloc, judged)?;
    trace(alloc, judged, &spans, &cases)
}

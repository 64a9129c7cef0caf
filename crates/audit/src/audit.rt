//! Reading a log from a reader, and writing what was found to a writer.

ghost use Rattle.std.specs.Prelude.{◌≡◌, false, OnOk, IfOk, IfSome, string_bytes};
ghost use Rattle.audit.specs.Severities.{any_fails};
ghost use Rattle.audit.specs.TraceEvents.{AreEvents, IsTraced};
ghost use Rattle.audit.specs.Verdicts.{
  Audits,
  FitsLog,
  FitsWork,
  HasVerdict,
  IsFinding,
  IsReport,
  Prints,
  certified_verdict,
  finding_front,
  is_certified,
};

use crate::certificate::{Certificate, Missing, certificate_of};
use crate::findings::{Finding, list_findings};
use crate::judging::{JudgedLog, judge};
use crate::summary::{front_of, summary};
use crate::trace_events::trace_of;
use call_log::fault::LogFault;
use call_log::input::{read_log, write_out};
use call_log::split::first_line;
use call_log::{CompleteLog, ReadLog};
use foundation::NoMemory;
use std::alloc::Global;
use std::io::{Read, Write};

/// What is said of a log as a whole.
#[derive(Clone, Copy, Debug, PartialEq, Eq)]
pub enum Verdict {
    /// Nothing was found that fails it, and the run is certified.
    Certified,
    /// Nothing was found that fails it, and the run is not certified.
    Clean,
    /// Something was found that fails it.
    Found,
    /// A line is wrong, and the log was not judged.
    Wrong,
    /// No run was found that gives some answer.
    Unexplained,
    /// A call cannot be judged, or lines of the log were lost, and nothing was found that fails it.
    Undecided,
    /// Nothing was found that fails it, since the log has nothing to judge.
    Nothing,
    /// Something was found that fails it, and lines of the log were lost, which may explain that.
    Doubtful,
}

/// The form in which findings and the summary are written.
#[derive(Clone, Copy, Debug, PartialEq, Eq)]
pub enum Form {
    /// `NAME:LINE: SEVERITY: finding` for the cases of each rule and object, and a summary.
    Text,
    /// An object of JSON on a line of its own for each case, and one for the summary.
    Json,
}

/// What a caller asks for.
#[derive(Clone, Copy, Debug, PartialEq, Eq)]
pub struct Asked {
    /// A longer summary, where its form is a text.
    pub explains: bool,
    /// The microseconds after which a page fault is late, if any is to be.
    pub late_after: Option<u64>,
    /// Whether a note fails a log too.
    pub strict: bool,
    /// Whether pages that are still missing when their registration ends are a fault, and not a note.
    pub expects_all: bool,
    /// The number of the page whose history is written after the findings, if any is to be: its address divided by 4,096.
    pub page: Option<u64>,
    /// Whether waits and findings are put out as trace events too.
    pub traces: bool,
    pub form: Form,
}

/// Reads a log and judges its calls. Of a log with wrong lines it writes `NAME:LINE: reason` for each of them, in either form. Else it
/// writes the findings, in the order of lines, and a summary.
///
/// The calls of a log, its entries and the run that was found are kept until it ends. At most 4,294,967,295 reads are made, and as many lines are read; an
/// input that needs more ends with a read fault. An interrupted read or write is a fault. After a fault some of the text was written.
///
/// Where trace events are asked for these are added to `events`, unless a line is wrong: the waits and the findings as an array of JSON.
pub fn audit_log<R: Read, W: Write>(
    alloc: Global,
    reader: &mut R,
    writer: &mut W,
    name: &str,
    asked: Asked,
    events: &mut Vec<u8>,
) -> Result<Verdict, LogFault>
    ensures audits { IfOk result (λ verdict. IfSome (R.remaining reader.old) (λ input.
        Audits asked name.now input verdict (W.contents writer.old) (W.contents writer.new))) }
    ensures traces { IfOk result (λ verdict.
        IsTraced asked verdict events.old.items events.new.items) }
{
    let read = match read_log(alloc, reader, writer, name)? {
        Some(read) => read,
        None => return Ok(Verdict::Wrong),
    };
    let report = report_of(alloc, name, read, asked)?;
    write_out(writer, &report.findings)?;
    write_out(writer, &report.summary)?;
    events.extend_from_slice(&report.events)?;
    Ok(report.verdict)
}

/// What is written of a log without wrong lines, and what is said of it.
#[derive(Drop)]
struct Report {
    findings: Vec<u8>,
    summary: Vec<u8>,
    /// Trace events, where they are asked for.
    events: Vec<u8>,
    verdict: Verdict,
}

/// Judges the calls of a log, and has the run that was found checked.
fn report_of(alloc: Global, name: &str, read: ReadLog, asked: Asked) -> Result<Report, NoMemory>
    ensures report { IfOk result (λ report. IsReport asked name.now read report) }
    ensures events { IfOk result (λ report. AreEvents asked report.events.items) }
{
    let CompleteLog { log, entries } = read.complete(alloc)?;
    let whole = entries.whole;
    let judged = judge(alloc, log, asked.page)?;
    let found = list_findings(alloc, &judged, asked)?;
    let findings = print_findings(alloc, name, asked, &found)?;
    let judgement = verdict_of(&judged, any_fails(asked, &found), whole);
    let front = front_of(alloc, &judged, &found, asked)?;
    let events = events_of(alloc, &judged, asked)?;
    let certificate = certificate_of(alloc, judged, &entries)?;
    let summary = summary(alloc, asked.form, &front, certificate)?;
    let verdict = certified_verdict(judgement, certificate);
    Ok(Report {
        findings,
        summary,
        events,
        verdict,
    })
}

/// The trace events of a log, where they are asked for.
fn events_of(alloc: Global, judged: &JudgedLog, asked: Asked) -> Result<Vec<u8>, NoMemory>
    ensures { IfOk result (λ events. AreEvents asked events.items) }
{
    if asked.traces {
        trace_of(alloc, judged, asked.late_after)
    } else {
        Ok(Vec::new(alloc))
    }
}

/// Whether a log fails in which this was found.
fn any_fails(asked: Asked, found: &[Finding]) -> bool
    ensures { result ≡ any_fails asked found.now }
{
    for finding in found {
        if finding.rule.fails(asked) {
            return true;
        }
    }
    false
}

/// Puts what a finding begins with in place of a text.
fn print_front(text: &mut String, form: Form, name: &str, line: u32) -> Result<(), NoMemory>
    ensures { OnOk result (string_bytes text.new ≡ finding_front form name.now line) }
{
    text.clear();
    match form {
        Form::Text => write!(text, "{name}:{line}: ")?,
        Form::Json => text.push_str("{\"severity\": \"")?,
    }
    Ok(())
}

/// Puts the line of a finding in place of these bytes. The text is replaced.
fn print_finding(
    line: &mut Vec<u8>,
    text: &mut String,
    name: &str,
    asked: Asked,
    finding: &Finding,
) -> Result<(), NoMemory>
    ensures { OnOk result (IsFinding asked name.now finding.now line.new.items) }
{
    print_front(text, asked.form, name, finding.line)?;
    line.clear();
    line.extend_from_slice(text.as_bytes())?;
    let severity = finding.rule.severity(asked);
    line.extend_from_slice(severity.word().as_bytes())?;
    line.extend_from_slice(first_line(finding.text.as_bytes()))?;
    line.extend_from_slice(b"\n")?;
    Ok(())
}

/// The lines of all findings.
fn print_findings(
    alloc: Global,
    name: &str,
    asked: Asked,
    found: &[Finding],
) -> Result<Vec<u8>, NoMemory>
    ensures { IfOk result (λ output. Prints asked name.now found.now output.items) }
{
    let mut output = Vec::new(alloc);
    let mut line = Vec::new(alloc);
    let mut text = String::new(alloc);
    for finding in found {
        print_finding(&mut line, &mut text, name, asked, finding)?;
        output.extend_from_slice(&line)?;
    }
    Ok(output)
}

/// What is said of a log, by whether a finding fails it. `whole` says that no line of it was lost.
fn verdict_of(judged: &JudgedLog, fails: bool, whole: bool) -> Verdict
    ensures verdict { HasVerdict result fails }
    ensures log { FitsLog result whole }
    ensures plain { is_certified result ≡ false }
    ensures work { FitsWork result judged.now.nothing }
{
    if !whole {
        return if fails {
            Verdict::Doubtful
        } else {
            Verdict::Undecided
        };
    }
    if fails {
        return if judged.unexplained.is_empty() {
            Verdict::Found
        } else {
            Verdict::Unexplained
        };
    }
    if judged.nothing.is_some() {
        return Verdict::Nothing;
    }
    if judged.log.are_all_judged() && judged.unexplained.is_empty() {
        Verdict::Clean
    } else {
        Verdict::Undecided
    }
}

/// The same, where a run of the log is certified, or the checker does not take the run that was found.
fn certified_verdict(verdict: Verdict, certificate: Certificate) -> Verdict
    ensures { result ≡ certified_verdict verdict certificate }
{
    match (verdict, certificate) {
        (Verdict::Clean, Certificate::Certified(_)) => Verdict::Certified,
        (Verdict::Clean, Certificate::Missing(Missing::Refused | Missing::Differs)) => {
            Verdict::Undecided
        }
        (verdict, _) => verdict,
    }
}

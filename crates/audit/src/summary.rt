//! What is said of a whole log.

ghost use Rattle.std.specs.Prelude.{◌≡◌, ◌++◌, ℕ, List, IfOk, OnOk, string_bytes};
ghost use Rattle.std.specs.Fmt.{decimal};
ghost use Rattle.call_log.specs.Listing.{HasNoFeed};
ghost use Rattle.audit.specs.Verdicts.{
  IsCertificateLine,
  IsSummary,
  certified_line,
  json_summary,
  missing_line,
  missing_word,
  text_summary,
  twice_word,
  unknown_word,
};

use crate::audit::{Asked, Form};
use crate::certificate::{Certificate, Missing, Totals};
use crate::findings::Finding;
use crate::judging::JudgedLog;
use crate::rule_names::Rule;
use crate::waits::{KINDS, Microseconds, waits_of};
use call_log::log_call::Kind;
use call_log::split::first_line;
use foundation::NoMemory;
use kernel_rules::Difference;
use std::alloc::Global;

/// The differences from the model, in the order of their names.
const DIFFERENCES: &[(Difference, &str)] = &[
    (Difference::Areas, "areas"),
    (Difference::ChangingLonger, "changing-longer"),
    (Difference::Close, "close"),
    (Difference::FaultOfEachThread, "fault-of-each-thread"),
    (Difference::FaultOnItsWay, "fault-on-its-way"),
    (Difference::FaultTakenAway, "fault-taken-away"),
    (Difference::LeftByASignal, "left-by-a-signal"),
    (Difference::MessagesOfMremap, "messages-of-mremap"),
    (Difference::OrderOfTwoCalls, "order-of-two-calls"),
    (Difference::OtherFeatures, "other-features"),
    (Difference::RegisterWithoutEvents, "register-without-events"),
    (Difference::RemoveOfEachArea, "remove-of-each-area"),
    (
        Difference::WriteProtectOverAHole,
        "writeprotect-over-a-hole",
    ),
];

/// How often a difference from the model was noted.
fn count_difference(judged: &JudgedLog, wanted: Difference) -> u64 {
    let mut count = 0u64;
    for difference in &judged.notes.differs {
        if *difference == wanted {
            count = count.saturating_add(1);
        }
    }
    count
}

/// Adds how many faults waited, and which the longest.
fn add_waits(text: &mut String, alloc: Global, judged: &JudgedLog) -> Result<(), NoMemory> {
    let waits = waits_of(alloc, judged, None)?;
    if let Some(longest) = waits.last() {
        let count = waits.len();
        write!(
            text,
            "page faults that waited until a call woke their thread: {count}, the longest {longest}\n"
        )?;
    }
    Ok(())
}

/// Adds the waits for one kind of faults.
fn add_kind(
    text: &mut String,
    alloc: Global,
    judged: &JudgedLog,
    flags: u64,
    name: &str,
) -> Result<(), NoMemory> {
    let waits = waits_of(alloc, judged, Some(flags))?;
    if let (Some(longest), Some(middle)) = (waits.last(), waits.get(waits.len() / 2)) {
        let count = waits.len();
        let median = Microseconds(middle.time);
        write!(
            text,
            "waits, {name}: {count}, the median {median}, the longest {longest}\n"
        )?;
    }
    Ok(())
}

/// Adds what `--explain` asks for.
fn add_explanation(
    text: &mut String,
    alloc: Global,
    judged: &JudgedLog,
    found: &[Finding],
) -> Result<(), NoMemory> {
    let command = str::from_utf8(&judged.log.command).unwrap_or("command");
    write!(text, "{command}\n")?;
    for (flags, name) in KINDS {
        add_kind(text, alloc, judged, *flags, name)?;
    }
    for rule in Rule::ALL {
        if found.iter().any(|finding| finding.rule == rule) {
            let name = rule.name();
            let meaning = rule.meaning();
            write!(text, "{name}: {meaning}\n")?;
        }
    }
    if !judged.has_run() {
        return Ok(());
    }
    for (difference, name) in DIFFERENCES {
        let count = count_difference(judged, *difference);
        if count > 0 {
            write!(
                text,
                "otherwise than the model: {name} {count} (LINUX.md, The userfault object)\n"
            )?;
        }
    }
    Ok(())
}

/// What a summary says of a log that was judged, but for its certificate.
#[derive(Drop)]
pub(crate) struct Front {
    calls: usize,
    counts: String,
    /// How many pages were registered of which nothing was known when that ended, as the search has found.
    unknown: usize,
    rest: String,
}

/// The parts of a summary before a certificate is made.
pub(crate) fn front_of(
    alloc: Global,
    judged: &JudgedLog,
    found: &[Finding],
    asked: Asked,
) -> Result<Front, NoMemory> {
    let mut rest = String::new(alloc);
    let counts = match asked.form {
        Form::Text => {
            add_details(&mut rest, alloc, judged, found, asked.explains)?;
            counts(alloc, judged)?
        }
        Form::Json => json_counts(alloc, judged)?,
    };
    Ok(Front {
        calls: judged.log.count(),
        counts,
        unknown: judged.notes.unknown as usize,
        rest,
    })
}

/// The same as fields of an object, with how long faults waited, and whether lines of the log were lost.
fn json_counts(alloc: Global, judged: &JudgedLog) -> Result<String, NoMemory> {
    let mut text = String::new(alloc);
    let must = judged.log.count_of(Kind::Must);
    let may = judged.log.count_of(Kind::May);
    let unexplained = judged.log.count_of(Kind::Unexplained);
    let unjudged = judged.log.count_of(Kind::Unjudged);
    let lost = !judged.log.is_whole();
    write!(
        text,
        "\"only\": {must}, \"accesses\": {may}, \"unexplained\": {unexplained}, \"unjudged\": {unjudged}, \"lost\": {lost}"
    )?;
    let waits = waits_of(alloc, judged, None)?;
    if let Some(longest) = waits.last() {
        let count = waits.len();
        let time = longest.time;
        write!(text, ", \"waits\": {count}, \"longest\": {time}")?;
    }
    Ok(text)
}

/// How many calls there are of each kind.
fn counts(alloc: Global, judged: &JudgedLog) -> Result<String, NoMemory> {
    let mut text = String::new(alloc);
    let must = judged.log.count_of(Kind::Must);
    let may = judged.log.count_of(Kind::May);
    let unexplained = judged.log.count_of(Kind::Unexplained);
    let unjudged = judged.log.count_of(Kind::Unjudged);
    write!(
        text,
        "{must} with the only answer that the rules allow, {may} that an access explains which the log does not show, "
    )?;
    write!(
        text,
        "{unexplained} for which no run was found, {unjudged} not judged"
    )?;
    Ok(text)
}

/// Adds what a summary says after its first lines.
fn add_details(
    text: &mut String,
    alloc: Global,
    judged: &JudgedLog,
    found: &[Finding],
    explains: bool,
) -> Result<(), NoMemory> {
    if !judged.log.is_whole() {
        text.push_str(
            "lines of the log were lost: they may explain each finding, and hide others\n",
        )?;
    }
    add_waits(text, alloc, judged)?;
    if explains {
        add_explanation(text, alloc, judged, found)?;
    }
    Ok(())
}

/// What comes before the number of pages that are known to be missing.
fn missing_word(form: Form) -> &'static str
    ensures { result.now ≡ missing_word form }
{
    match form {
        Form::Text => {
            "certified: the kernel's answers, which a kernel of the rules may have given; pages known to be missing "
        }
        Form::Json => "\"certified\": true, \"missing\": ",
    }
}

/// What comes before the number of calls that have put a page twice.
fn twice_word(form: Form) -> &'static str
    ensures { result.now ≡ twice_word form }
{
    match form {
        Form::Text => ", put twice ",
        Form::Json => ", \"twice\": ",
    }
}

/// What comes before the number of pages of which nothing is known.
fn unknown_word(form: Form) -> &'static str
    ensures { result.now ≡ unknown_word form }
{
    match form {
        Form::Text => ", of which nothing is known ",
        Form::Json => ", \"unknown\": ",
    }
}

/// Adds a word and a number.
fn add_number(text: &mut String, word: &str, number: usize) -> Result<(), NoMemory>
    ensures { OnOk result (string_bytes text.new ≡
        string_bytes text.old ++ (word.now ++ decimal number)) }
{
    write!(text, "{word}{number}")?;
    Ok(())
}

/// The line of a run that is certified.
fn certified_line(
    alloc: Global,
    form: Form,
    totals: Totals,
    unknown: usize,
) -> Result<String, NoMemory>
    ensures { IfOk result (λ text. string_bytes text ≡ certified_line form totals unknown) }
{
    let mut text = String::new(alloc);
    add_number(&mut text, missing_word(form), totals.owed)?;
    add_number(&mut text, twice_word(form), totals.twice)?;
    add_number(&mut text, unknown_word(form), unknown)?;
    Ok(text)
}

/// Why a run is not certified.
fn reason_of(alloc: Global, missing: Missing) -> Result<String, NoMemory> {
    let mut text = String::new(alloc);
    write!(text, "{missing}")?;
    Ok(text)
}

/// Adds that a run is not certified.
fn add_missing(line: &mut Vec<u8>, form: Form, reason: &[u8]) -> Result<(), NoMemory>
    ensures { OnOk result (line.new.items ≡ line.old.items ++ missing_line form reason.now) }
{
    match form {
        Form::Text => {
            line.extend_from_slice(b"not certified: ")?;
            line.extend_from_slice(reason)?;
        }
        Form::Json => {
            line.extend_from_slice(b"\"certified\": false, \"reason\": \"")?;
            line.extend_from_slice(reason)?;
            line.push(b'"')?;
        }
    }
    Ok(())
}

/// What says whether a run is certified.
fn certificate_line(
    alloc: Global,
    form: Form,
    certificate: Certificate,
    unknown: usize,
) -> Result<Vec<u8>, NoMemory>
    ensures { IfOk result (λ line. IsCertificateLine form certificate line.items) }
{
    let mut line = Vec::new(alloc);
    match certificate {
        Certificate::Certified(totals) => {
            let text = certified_line(alloc, form, totals, unknown)?;
            line.extend_from_slice(text.as_bytes())?;
        }
        Certificate::Missing(missing) => {
            let text = reason_of(alloc, missing)?;
            add_missing(&mut line, form, first_line(text.as_bytes()))?;
        }
    }
    Ok(line)
}

/// The summary of these parts, as a text.
fn text_summary(alloc: Global, front: &Front, line: &[u8]) -> Result<Vec<u8>, NoMemory>
    ensures { IfOk result (λ text. (counts : List ℕ) × HasNoFeed counts × (rest : List ℕ) ×
        (text.items ≡ text_summary front.now.calls counts line.now rest)) }
{
    let calls = front.calls;
    let first = format!(in alloc; "{calls} calls: ")?;
    let mut text = Vec::new(alloc);
    text.extend_from_slice(first.as_bytes())?;
    text.extend_from_slice(first_line(front.counts.as_bytes()))?;
    text.extend_from_slice(b"\n")?;
    text.extend_from_slice(line)?;
    text.extend_from_slice(b"\n")?;
    text.extend_from_slice(front.rest.as_bytes())?;
    Ok(text)
}

/// The summary of these parts, as an object on a line of its own.
fn json_summary(alloc: Global, front: &Front, line: &[u8]) -> Result<Vec<u8>, NoMemory>
    ensures { IfOk result (λ text. (counts : List ℕ) × HasNoFeed counts ×
        (text.items ≡ json_summary front.now.calls counts line.now)) }
{
    let calls = front.calls;
    let first = format!(in alloc; "{{\"calls\": {calls}, ")?;
    let mut text = Vec::new(alloc);
    text.extend_from_slice(first.as_bytes())?;
    text.extend_from_slice(first_line(front.counts.as_bytes()))?;
    text.extend_from_slice(b", ")?;
    text.extend_from_slice(line)?;
    text.extend_from_slice(b"}\n")?;
    Ok(text)
}

/// What is said of a log in the end.
pub(crate) fn summary(
    alloc: Global,
    form: Form,
    front: &Front,
    certificate: Certificate,
) -> Result<Vec<u8>, NoMemory>
    ensures { IfOk result (λ text. IsSummary form certificate text.items) }
{
    let line = certificate_line(alloc, form, certificate, front.unknown)?;
    match form {
        Form::Text => text_summary(alloc, front, &line),
        Form::Json => json_summary(alloc, front, &line),
    }
}

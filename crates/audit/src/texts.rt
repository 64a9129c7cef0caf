//! The texts of findings, after their severities.

use crate::cases::{Case, Moment};
use crate::judging::{JudgedLog, PAGE};
use crate::waits::KINDS;
use call_log::pages::{PageSize, Range};
use foundation::NoMemory;
use std::alloc::Global;

/// How many cases of a finding are said.
const SAID: usize = 3;

/// What faults with these flags are called.
pub(crate) fn kind_of(flags: u64) -> &'static str {
    for (kind, name) in KINDS {
        if *kind == flags {
            return name;
        }
    }
    "of another kind"
}

/// How many pages of this size a range of the rules' pages has, with one that it has a part of.
fn count_pages(size: PageSize, range: Range) -> u64 {
    size.number(PAGE.address(range.count)).max(1)
}

/// Adds where a case is.
fn add_place(text: &mut String, size: PageSize, case: &Case) -> Result<(), NoMemory> {
    if let Some(range) = case.range {
        let addr = PAGE.address(range.first);
        let count = count_pages(size, range);
        if count == 1 {
            write!(text, " at 0x{addr:x}")?;
        } else {
            write!(text, " of {count} pages from 0x{addr:x} on")?;
        }
    }
    if let Some(flags) = case.flags {
        let kind = kind_of(flags);
        write!(text, " ({kind})")?;
    }
    Ok(())
}

/// Adds whose it is.
fn add_owner(text: &mut String, case: &Case) -> Result<(), NoMemory> {
    let process = case.process;
    match case.thread {
        Some(thread) => write!(text, ", thread {thread} of process {process}")?,
        None => write!(text, ", process {process}")?,
    }
    Ok(())
}

/// Adds when it was.
fn add_times(text: &mut String, case: &Case) -> Result<(), NoMemory> {
    if let Some(Moment { line, time }) = case.since {
        write!(text, ", since {time} at line {line}")?;
    }
    if let Some(Moment { line, time }) = case.until {
        write!(text, ", until {time} at line {line}")?;
    }
    Ok(())
}

/// Adds a case.
fn add_case(text: &mut String, size: PageSize, case: &Case) -> Result<(), NoMemory> {
    text.push_str(case.word)?;
    add_place(text, size, case)?;
    add_owner(text, case)?;
    add_times(text, case)?;
    if let Some(reason) = case.reason {
        write!(text, ": {reason}")?;
    }
    if let Some(change) = case.change {
        write!(text, ": {change}")?;
    }
    Ok(())
}

/// What happened to a page.
pub(crate) fn page_text(alloc: Global, size: PageSize, case: &Case) -> Result<String, NoMemory> {
    let mut text = String::new(alloc);
    text.push_str(": ")?;
    add_case(&mut text, size, case)?;
    Ok(text)
}

/// Adds what some cases have in common, of which this is the first.
fn add_headline(
    text: &mut String,
    judged: &JudgedLog,
    case: &Case,
    count: usize,
) -> Result<(), NoMemory> {
    text.push_str(if judged.log.is_whole() {
        ": "
    } else {
        ", or a lost line: "
    })?;
    if let Some(object) = case.object {
        write!(text, "object {object}: ")?;
    }
    text.push_str(case.rule.headline())?;
    if count > 1 {
        write!(text, ", {count} times")?;
    }
    Ok(())
}

/// The finding of these cases, which begin with this one.
pub(crate) fn text_of(
    alloc: Global,
    judged: &JudgedLog,
    first: &Case,
    cases: &[Case],
) -> Result<String, NoMemory> {
    let mut text = String::new(alloc);
    let count = cases.len();
    add_headline(&mut text, judged, first, count)?;
    for (place, case) in cases.iter().take(SAID).enumerate() {
        text.push_str(if place == 0 { ": " } else { "; " })?;
        add_case(&mut text, judged.size, case)?;
    }
    let more = count.saturating_sub(SAID);
    if more > 0 {
        write!(text, "; and {more} more")?;
    }
    let name = first.rule.name();
    write!(text, " [{name}]")?;
    Ok(text)
}

/// Adds a moment as a field of this name.
fn add_moment(text: &mut String, name: &str, moment: Option<Moment>) -> Result<(), NoMemory> {
    if let Some(Moment { line, time }) = moment {
        write!(text, ", \"{name}\": {{\"time\": {time}, \"line\": {line}}}")?;
    }
    Ok(())
}

/// Adds the fields of a case that say where it is.
pub(crate) fn add_place_fields(
    text: &mut String,
    size: PageSize,
    case: &Case,
) -> Result<(), NoMemory> {
    if let Some(object) = case.object {
        write!(text, ", \"object\": {object}")?;
    }
    let process = case.process;
    write!(text, ", \"process\": {process}")?;
    if let Some(thread) = case.thread {
        write!(text, ", \"thread\": {thread}")?;
    }
    if let Some(range) = case.range {
        let addr = PAGE.address(range.first);
        let count = count_pages(size, range);
        write!(text, ", \"address\": \"0x{addr:x}\", \"pages\": {count}")?;
    }
    if let Some(flags) = case.flags {
        let kind = kind_of(flags);
        write!(text, ", \"kind\": \"{kind}\"")?;
    }
    Ok(())
}

/// A case as the rest of an object of JSON that begins with a severity.
pub(crate) fn json_text(alloc: Global, size: PageSize, case: &Case) -> Result<String, NoMemory> {
    let mut text = String::new(alloc);
    let rule = case.rule.name();
    let line = case.line;
    let word = case.word;
    write!(
        text,
        "\", \"rule\": \"{rule}\", \"line\": {line}, \"of\": \"{word}\""
    )?;
    add_place_fields(&mut text, size, case)?;
    add_moment(&mut text, "since", case.since)?;
    add_moment(&mut text, "until", case.until)?;
    if let Some(reason) = case.reason {
        write!(text, ", \"reason\": \"{reason}\"")?;
    }
    if let Some(change) = case.change {
        let (before, after) = (change.before, change.after);
        write!(text, ", \"before\": \"{before}\", \"after\": \"{after}\"")?;
        if let Some(answer) = change.answer {
            write!(text, ", \"answer\": \"{answer}\"")?;
        }
    }
    text.push_str("}")?;
    Ok(text)
}

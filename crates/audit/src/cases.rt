//! The cases of broken rules, from what was noted of a run.

use crate::history::Change;
use crate::judging::JudgedLog;
use crate::notes::{Area, FaultWait, OwedPages, UnretriedCall, Untold};
use crate::rule_names::Rule;
use crate::search::Unexplained;
use crate::threads::named_thread;
use crate::waits::wait_of;
use crate::wakes::{SecondInstall, find_wakes};
use call_log::log::Log;
use call_log::log_call::LogCall;
use call_log::pages::Range;
use foundation::NoMemory;
use std::alloc::Global;
use uffd_log::{Answer, Errno};

/// A line of a log, with its time in nanoseconds of the log's clock.
#[derive(Clone, Copy)]
pub(crate) struct Moment {
    pub(crate) line: u32,
    pub(crate) time: u64,
}

/// A case of a broken rule.
#[derive(Clone, Copy)]
pub(crate) struct Case {
    pub(crate) rule: Rule,
    /// The line where its call begins, or the last one of the log.
    pub(crate) line: u32,
    /// What the pages are of: a call, by its name, a fault, or the end of the log.
    pub(crate) word: &'static str,
    pub(crate) object: Option<u64>,
    pub(crate) process: u32,
    pub(crate) thread: Option<u32>,
    pub(crate) range: Option<Range>,
    /// The kind of a fault, by its flags.
    pub(crate) flags: Option<u64>,
    pub(crate) since: Option<Moment>,
    pub(crate) until: Option<Moment>,
    pub(crate) reason: Option<&'static str>,
    /// What was done to the page that is asked for.
    pub(crate) change: Option<Change>,
}

impl Case {
    /// The object and the rule.
    pub(crate) fn whose(&self) -> (u64, Rule) {
        (self.object.unwrap_or(u64::MAX), self.rule)
    }
}

/// When a call returned, if it did.
pub(crate) fn end_of(call: &LogCall) -> Option<Moment> {
    if call.end == 0 {
        return None;
    }
    Some(Moment {
        line: call.end,
        time: call.until,
    })
}

/// A page, as a range.
pub(crate) fn one_page(first: u64) -> Range {
    Range { first, count: 1 }
}

/// A call, by its place in the log.
pub(crate) fn call_at(log: &Log, place: u64) -> Option<LogCall> {
    log.call(u32::try_from(place).ok()?)
}

/// The page at which a call has stopped: its first one, or the one after those that it has put.
pub(crate) fn stopped_at(log: &Log, call: &LogCall) -> u64 {
    let Some(range) = log.pages_of(call) else {
        return 0;
    };
    match call.answer {
        Some(
            Answer::Failed {
                errno: Errno::Eagain,
                bytes: Some(done),
            },
        ) => range.first.saturating_add(log.size.number(done)),
        _ => range.first,
    }
}

/// A case of a call, with its pages.
pub(crate) fn call_case(log: &Log, rule: Rule, call: &LogCall) -> Case {
    Case {
        rule,
        line: call.begin,
        word: call.word(),
        object: call.object(),
        process: call.process,
        thread: Some(call.thread),
        range: log.pages_of(call),
        flags: None,
        since: None,
        until: end_of(call),
        reason: None,
        change: None,
    }
}

/// A call for whose answer no run was found.
fn unexplained_case(log: &Log, found: &Unexplained) -> Option<Case> {
    let call = log.call(found.call)?;
    Some(Case {
        reason: Some(found.reason),
        ..call_case(log, Rule::Unexplained, &call)
    })
}

/// A page that was there before when a call was to put it.
fn before_case(log: &Log, place: u64) -> Option<Case> {
    let call = call_at(log, place)?;
    Some(Case {
        range: Some(one_page(stopped_at(log, &call))),
        ..call_case(log, Rule::PresentBefore, &call)
    })
}

/// A page that the log had put when a call was to put it.
fn twice_case(log: &Log, twice: &SecondInstall) -> Option<Case> {
    let call = log.call(twice.call)?;
    let rule = if twice.is_left_asleep() {
        Rule::PutTwice
    } else {
        Rule::PutAgain
    };
    Some(Case {
        range: Some(one_page(stopped_at(log, &call))),
        ..call_case(log, rule, &call)
    })
}

/// A fault that a call has read.
fn fault_case(log: &Log, rule: Rule, slept: &FaultWait) -> Option<Case> {
    let read = call_at(log, slept.read)?;
    let until = match slept.by.and_then(|place| log.call(place)) {
        Some(by) => end_of(&by),
        None => None,
    };
    Some(Case {
        word: "fault",
        process: slept.space,
        thread: named_thread(slept.fault.thread),
        range: Some(one_page(slept.fault.page)),
        flags: Some(slept.fault.flags),
        since: end_of(&read),
        until,
        ..call_case(log, rule, &read)
    })
}

/// A map call an event of which nobody has read.
fn untold_case(log: &Log, untold: &Untold) -> Option<Case> {
    let call = call_at(log, untold.call)?;
    Some(Case {
        object: untold.object,
        ..call_case(log, Rule::EventNotRead, &call)
    })
}

/// A call that was refused, and not tried again for a page that is owed.
fn again_case(log: &Log, again: &UnretriedCall) -> Option<Case> {
    let call = log.call(again.call)?;
    Some(Case {
        range: Some(one_page(again.page)),
        ..call_case(log, Rule::NotTriedAgain, &call)
    })
}

/// Whether an address space was gone before a call, or the end of the log: its process had said that it ends.
fn was_gone(log: &Log, space: u32, call: Option<&LogCall>) -> bool {
    match (log.exits.get(&space), call) {
        (Some(exit), Some(call)) => *exit < call.begin,
        (exit, _) => exit.is_some(),
    }
}

/// The object with which pages were registered when the log ended.
fn area_of(areas: &[Area], owed: &OwedPages) -> Option<u64> {
    for area in areas.iter().rev() {
        if area.space == owed.space && area.range.contains(owed.range.first) {
            return Some(area.object);
        }
    }
    None
}

/// Pages that were still missing when their registration ended, of an address space that was there.
fn owed_case(judged: &JudgedLog, owed: &OwedPages) -> Option<Case> {
    let log = &judged.log;
    let space = u32::try_from(owed.space).ok()?;
    let call = owed.call.and_then(|place| log.call(place));
    if was_gone(log, space, call.as_ref()) {
        return None;
    }
    let (line, word, object) = match &call {
        Some(call) => (call.begin, call.word(), call.object()),
        None => (
            log.last_line,
            "end of the log",
            area_of(&judged.notes.areas, owed),
        ),
    };
    Some(Case {
        rule: Rule::PageOwed,
        line,
        word,
        object,
        process: space,
        thread: None,
        range: Some(owed.range),
        flags: None,
        since: None,
        until: call.as_ref().and_then(end_of),
        reason: None,
        change: None,
    })
}

/// Whether the page of a call that was refused is among these, which are owed.
fn is_owed(owed: &OwedPages, again: &UnretriedCall) -> bool {
    owed.space == u64::from(again.space) && owed.range.contains(again.page)
}

/// Where owed pages are among others.
fn order_of(owed: &OwedPages) -> (u32, u64, u64) {
    (owed.call.unwrap_or(u32::MAX), owed.space, owed.range.first)
}

/// Whether one range of owed pages follows another.
fn follows(owed: &OwedPages, last: &OwedPages) -> bool {
    owed.call == last.call && owed.space == last.space && owed.range.first == last.range.end()
}

/// Ranges of owed pages, with neighbours joined.
fn joined(alloc: Global, owed: &[OwedPages]) -> Result<Vec<OwedPages>, NoMemory> {
    let mut sorted = Vec::new(alloc);
    sorted.extend_from_slice(owed)?;
    sorted.sort_by_key(order_of)?;
    let mut joined: Vec<OwedPages> = Vec::new(alloc);
    for owed in &sorted {
        if let Some(last) = joined.last_mut() {
            if follows(owed, last) {
                last.range.count = last.range.count.saturating_add(owed.range.count);
                continue;
            }
        }
        joined.push(*owed)?;
    }
    Ok(joined)
}

/// Adds a case, if there is one.
fn add(cases: &mut Vec<Case>, case: Option<Case>) -> Result<(), NoMemory> {
    if let Some(case) = case {
        cases.push(case)?;
    }
    Ok(())
}

/// Adds the calls that found a page, or none.
fn add_calls(cases: &mut Vec<Case>, alloc: Global, judged: &JudgedLog) -> Result<(), NoMemory> {
    let log = &judged.log;
    for place in &judged.notes.outside {
        if let Some(call) = call_at(log, *place) {
            cases.push(call_case(log, Rule::NotRegistered, &call))?;
        }
    }
    for place in &judged.notes.before {
        add(cases, before_case(log, *place))?;
    }
    for twice in &find_wakes(alloc, log, &judged.notes.twice)? {
        add(cases, twice_case(log, twice))?;
    }
    Ok(())
}

/// Adds the faults that nobody has resolved, and those that waited longer than these microseconds, if any are too many.
fn add_faults(
    cases: &mut Vec<Case>,
    judged: &JudgedLog,
    late_after: Option<u64>,
) -> Result<(), NoMemory> {
    for slept in &judged.notes.unanswered {
        add(
            cases,
            fault_case(&judged.log, Rule::FaultNotResolved, slept),
        )?;
    }
    let Some(limit) = late_after else {
        return Ok(());
    };
    for slept in &judged.notes.waits {
        if let Some(wait) = wait_of(judged, slept) {
            if wait.time > limit.saturating_mul(1000) {
                add(cases, fault_case(&judged.log, Rule::Late, slept))?;
            }
        }
    }
    Ok(())
}

/// Adds the pages that were left missing, and the calls that were refused for one of them.
fn add_owed(cases: &mut Vec<Case>, alloc: Global, judged: &JudgedLog) -> Result<(), NoMemory> {
    let owed = joined(alloc, &judged.notes.owed)?;
    for again in &judged.notes.again {
        if owed.iter().any(|owed| is_owed(owed, again)) {
            add(cases, again_case(&judged.log, again))?;
        }
    }
    for owed in &owed {
        add(cases, owed_case(judged, owed))?;
    }
    Ok(())
}

/// The cases of a log, in no order. A page fault is late after these microseconds, if any is to be.
pub(crate) fn list_cases(
    alloc: Global,
    judged: &JudgedLog,
    late_after: Option<u64>,
) -> Result<Vec<Case>, NoMemory> {
    let mut cases = Vec::new(alloc);
    for found in &judged.unexplained {
        add(&mut cases, unexplained_case(&judged.log, found))?;
    }
    add_calls(&mut cases, alloc, judged)?;
    add_faults(&mut cases, judged, late_after)?;
    for untold in &judged.notes.untold {
        add(&mut cases, untold_case(&judged.log, untold))?;
    }
    add_owed(&mut cases, alloc, judged)?;
    Ok(cases)
}

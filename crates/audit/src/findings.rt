//! What was found: the cases of broken rules, and the findings that say them.

use crate::audit::{Asked, Form};
use crate::cases::{Case, list_cases};
use crate::judging::JudgedLog;
use crate::rule_names::Rule;
use crate::texts::{json_text, page_text, text_of};
use foundation::NoMemory;
use std::alloc::Global;

/// A finding: the line of its first case, and what it says after its severity.
#[derive(Drop)]
pub(crate) struct Finding {
    pub(crate) line: u32,
    pub(crate) text: String,
    pub(crate) rule: Rule,
}

/// The findings of a log, in the order of their lines, and what happened to the page that is asked for, in the order of the run.
pub(crate) fn list_findings(
    alloc: Global,
    judged: &JudgedLog,
    asked: Asked,
) -> Result<Vec<Finding>, NoMemory> {
    let mut cases = list_cases(alloc, judged, asked.late_after)?;
    match asked.form {
        Form::Text => {
            cases.sort_by_key(|case| (case.whose(), case.line))?;
            let mut found = group(alloc, judged, &cases)?;
            found.sort_by_key(|finding| finding.line)?;
            add_history(&mut found, alloc, judged)?;
            Ok(found)
        }
        Form::Json => {
            cases.sort_by_key(|case| (case.line, case.rule))?;
            cases.extend_from_slice(&judged.history.cases(alloc, &judged.log)?)?;
            list_each(alloc, judged, &cases)
        }
    }
}

/// Adds what happened to the page that is asked for, in its order.
fn add_history(
    found: &mut Vec<Finding>,
    alloc: Global,
    judged: &JudgedLog,
) -> Result<(), NoMemory> {
    for case in &judged.history.cases(alloc, &judged.log)? {
        found.push(Finding {
            line: case.line,
            text: page_text(alloc, judged.size, case)?,
            rule: case.rule,
        })?;
    }
    Ok(())
}

/// A finding for all cases of a rule and an object, which follow each other.
fn group(alloc: Global, judged: &JudgedLog, cases: &[Case]) -> Result<Vec<Finding>, NoMemory> {
    let mut found = Vec::new(alloc);
    let mut end = 0usize;
    for (place, case) in cases.iter().enumerate() {
        if place >= end {
            let same = leading(cases.get(place..).unwrap_or(&[]), case);
            end = place.saturating_add(same.len());
            found.push(Finding {
                line: case.line,
                text: text_of(alloc, judged, case, same)?,
                rule: case.rule,
            })?;
        }
    }
    Ok(found)
}

/// The cases of the same rule and object as one, up to the first that is not.
fn leading<'a>(cases: &'a [Case], first: &Case) -> &'a [Case] {
    let end = cases.iter().position(|case| case.whose() != first.whose());
    match end {
        Some(end) => cases.get(..end).unwrap_or(&[]),
        None => cases,
    }
}

/// A finding for each case.
fn list_each(alloc: Global, judged: &JudgedLog, cases: &[Case]) -> Result<Vec<Finding>, NoMemory> {
    let mut found = Vec::new(alloc);
    for case in cases {
        found.push(Finding {
            line: case.line,
            text: json_text(alloc, judged.size, case)?,
            rule: case.rule,
        })?;
    }
    Ok(found)
}

//! The name of a picture, and what it says in sentences.

use crate::class::Class;
use crate::pen::Pen;
use crate::plan::Plan;
use crate::record::{Event, Record};
use crate::text::Part::{Count, Number, Sum, Words};
use crate::waits::Total;

/// The line at which the migration is complete, if it is, and how many steps nobody ran the processors.
fn outcome_of(record: &Record) -> (Option<u32>, u32) {
    let mut complete = None;
    let mut switched = None;
    let mut nobody = 0u32;
    for mark in &record.marks {
        match (mark.event, switched) {
            (Event::Switch, None) => switched = Some(mark.line),
            (Event::Package, Some(line)) if nobody == 0 => {
                nobody = mark.line.saturating_sub(line);
            }
            (Event::Complete, _) if complete.is_none() => {
                complete = Some(record.line_at(mark.line));
            }
            _ => {}
        }
    }
    (complete, nobody)
}

/// Writes how the run ends, and how long nobody ran the processors.
fn outcome(pen: &mut Pen, plan: &Plan, record: &Record) {
    let (complete, nobody) = outcome_of(record);
    let steps = plan.columns.lines;
    let mut words = match complete {
        Some(line) => pen
            .memory
            .text(&[Words("Complete at line "), Number(line), Words(".")]),
        None if record.marks.is_empty() => pen.memory.text(&[Words("No migration.")]),
        None => pen.memory.text(&[
            Words("Not complete after "),
            Number(steps),
            Words(" steps."),
        ]),
    };
    if nobody > 0 {
        let more = [
            Words(" Nobody ran the processors for "),
            Number(nobody),
            Words(" steps."),
        ];
        pen.memory.write(&mut words, &more);
    }
    pen.word(Class::Sentence, (100, 350), &words);
}

/// Writes how often and how long processors waited, and for whom.
fn waits(pen: &mut Pen, plan: &Plan) {
    let place = (100, 485);
    let total = Total::of(&plan.waits, 0, u32::MAX);
    if total.waits == 0 {
        return pen.word(Class::Sentence, place, "No processor waited.");
    }
    let words = [
        Count(total.waits, "wait"),
        Words(" of processors, "),
        Number(total.steps),
        Words(" steps in all"),
        Sum(&total.parts),
        Words("."),
    ];
    pen.words(Class::Sentence, place, &words);
}

/// Writes the name of the picture, and what it says in sentences: also what is merged, if anything is.
pub(super) fn head(pen: &mut Pen, plan: &Plan, record: &Record, name: &str) {
    pen.word(Class::Title, (100, 200), name);
    outcome(pen, plan, record);
    waits(pen, plan);
    let per = plan.columns.per;
    if per > 1 {
        let words = [
            Words("Each column is "),
            Number(per),
            Words(" steps. Where they differ, the state that matters most is shown."),
        ];
        pen.words(Class::Sentence, (100, 620), &words);
    }
}

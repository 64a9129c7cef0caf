//! The numbers of the lines, and in a small picture the lines themselves.

use crate::class::Class;
use crate::memory::Memory;
use crate::pen::Pen;
use crate::plan::Plan;
use crate::record::Record;
use crate::text::Part::{Number, Refused, Words};
use crate::text::width_of;
use mig_base::refusal::Refusal;

/// The turn of what stands below the columns: it is read downwards.
const TURN: &str = "rotate(90)";

/// A line of the script as it stands below its column: its number, and after that what it is.
#[derive(Drop)]
pub(super) struct Text {
    line: u32,
    words: String,
    class: Class,
}

/// The refusal of a line, if it was refused.
fn refusal(record: &Record, column: u32) -> Option<Refusal> {
    for refused in &record.refused {
        if refused.0 == column {
            return Some(refused.1);
        }
    }
    None
}

/// What stands below a column: its line, and why that was refused.
fn text_of(memory: &mut Memory, record: &Record, column: u32, line: u32, text: &str) -> Text {
    match refusal(record, column) {
        Some(reason) => Text {
            line,
            words: memory.text(&[Words(text), Words(": "), Refused(reason)]),
            class: Class::Gray,
        },
        None => Text {
            line,
            words: memory.text(&[Words(text)]),
            class: Class::Fixed,
        },
    }
}

/// The lines of the script, as they stand below their columns in a picture with words.
pub(super) fn find_texts(memory: &mut Memory, plan: &Plan, record: &Record) -> Vec<Text> {
    let mut texts = Vec::new(memory.alloc);
    if !plan.is_small() {
        return texts;
    }
    let mut column = 0u32;
    for text in &record.texts {
        let line = plan.line_of(record, column);
        let text = text_of(memory, record, column, line, text);
        memory.note(texts.push(text).is_ok());
        column = column.saturating_add(1);
    }
    texts
}

/// The height of what stands below the bands.
pub(super) fn height(texts: &[Text]) -> u64 {
    let mut longest = 0usize;
    for text in texts {
        longest = longest.max(text.words.len());
    }
    width_of(longest, 90)
        .saturating_add(numbers_width(texts))
        .saturating_add(200)
}

/// How much room the numbers of lines take, with a gap after them.
fn numbers_width(texts: &[Text]) -> u64 {
    let digits = match texts.last() {
        Some(Text { line: 1000.., .. }) => 6,
        Some(Text { line: 100.., .. }) => 3,
        _ => 2,
    };
    width_of(digits, 85).saturating_add(60)
}

/// Whether two numbers have room beside each other, if `lines` lie between the two.
fn is_wide(plan: &Plan, lines: u32) -> bool {
    let all = u64::from(plan.columns.lines);
    plan.width.saturating_mul(u64::from(lines)) >= all.saturating_mul(400)
}

/// The distance of two numbers: 5, 10 or 20, or one of these with zeros after it.
fn distance(plan: &Plan) -> u32 {
    let mut at = 5u32;
    for _ in 0..8 {
        for times in [1, 2, 4] {
            let lines = at.saturating_mul(times);
            if is_wide(plan, lines) {
                return lines;
            }
        }
        at = at.saturating_mul(10);
    }
    at.saturating_mul(4)
}

/// Writes the numbers of lines below the bands.
fn numbers(pen: &mut Pen, plan: &Plan, record: &Record) {
    let y = plan.bottom;
    let apart = distance(plan);
    pen.word(
        Class::SmallEnding,
        (plan.names_end(), y.saturating_add(150)),
        "line",
    );
    let mut next = apart;
    let mut at = 0u32;
    for line in &record.lines {
        if *line >= next {
            let x = plan.x_at(at);
            pen.line(Class::Axle, (x, y), (x, y.saturating_add(50)));
            let place = (x, y.saturating_add(150));
            pen.words(Class::SmallMiddle, place, &[Number(*line)]);
            let steps = line.checked_div(apart).unwrap_or(0).saturating_add(1);
            next = steps.saturating_mul(apart);
        }
        at = at.saturating_add(1);
    }
}

/// Draws what stands below the bands.
pub(super) fn ruler(pen: &mut Pen, plan: &Plan, record: &Record, texts: &[Text]) {
    let y = plan.bottom;
    pen.line(Class::Mark, (plan.left, y), (plan.right(), y));
    if !plan.is_small() {
        return numbers(pen, plan, record);
    }
    let mut column = 0u32;
    let room = numbers_width(texts);
    for text in texts {
        let x = plan.x_of(column).saturating_sub(30);
        let top = y.saturating_add(60);
        let line = pen.memory.text(&[Number(text.line)]);
        pen.turned(Class::Gray, (x, top), TURN, &line);
        pen.turned(text.class, (x, top.saturating_add(room)), TURN, &text.words);
        column = column.saturating_add(1);
    }
}

//! The longest waits of processors: how long each was, and who had to act.

use crate::class::Class;
use crate::memory::Memory;
use crate::pen::Pen;
use crate::plan::Plan;
use crate::record::Record;
use crate::text::Part::{Number, Page, Sum, Words};
use crate::waits::Wait;

/// The most waits that are listed.
const MOST: usize = 6;

/// The height of a line.
const LINE: u64 = 140;

/// Puts a wait among the longest, after those that are as long.
fn put(memory: &mut Memory, longest: &mut Vec<Wait>, wait: Wait) {
    let mut next = wait;
    let mut is_placed = false;
    for place in longest.iter_mut() {
        if is_placed || place.steps() < next.steps() {
            let behind = *place;
            *place = next;
            next = behind;
            is_placed = true;
        }
    }
    if longest.len() < MOST {
        memory.push(longest, next);
    }
}

/// The longest waits, the longest first.
pub(super) fn longest_of(memory: &mut Memory, plan: &Plan) -> Vec<Wait> {
    let mut longest = Vec::new(memory.alloc);
    for wait in &plan.waits {
        put(memory, &mut longest, *wait);
    }
    longest
}

/// The height of the list.
pub(super) fn height(waits: &[Wait]) -> u64 {
    (waits.len() as u64).saturating_add(2).saturating_mul(LINE)
}

/// Writes the list of the longest waits.
pub(super) fn longest(pen: &mut Pen, record: &Record, waits: &[Wait], top: u64) {
    if waits.is_empty() {
        return;
    }
    pen.word(Class::Heading, (100, top), "longest waits, in steps");
    let mut y = top;
    for wait in waits {
        y = y.saturating_add(LINE);
        let words = [
            Words("cpu "),
            Number(wait.cpu),
            Words(", "),
            Page(wait.page),
            Words(", lines "),
            Number(record.line_at(wait.from)),
            Words(" to "),
            Number(record.line_at(wait.to)),
            Words(": "),
            Number(wait.steps()),
            Sum(&wait.parts),
        ];
        pen.words(Class::Fixed, (100, y), &words);
    }
}

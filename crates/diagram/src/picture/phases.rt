//! The lengths of the parts of a migration, above the bands.

use super::marks::Labels;
use crate::class::Class;
use crate::pen::Pen;
use crate::plan::Plan;
use crate::record::{Event, Record};
use crate::text::Part;
use crate::text::Part::{Nothing, Number, Words};

/// Room for words, from one place to another.
#[derive(Clone, Copy)]
struct Room {
    left: u64,
    right: u64,
}

impl Room {
    fn width(self) -> u64 {
        self.right.saturating_sub(self.left)
    }

    /// The wider of two.
    fn wider(self, other: Room) -> Room {
        if other.width() > self.width() {
            other
        } else {
            self
        }
    }
}

/// The most room between two places that the line of no mark with words crosses.
fn clear_room(labels: &Labels, left: u64, right: u64) -> Room {
    let mut widest = Room { left, right: left };
    let mut next = right;
    for label in &labels.labels {
        if label.row.is_some() && left < label.x && label.x < next {
            let room = Room {
                left: label.x,
                right: next,
            };
            widest = widest.wider(room);
            next = label.x;
        }
    }
    widest.wider(Room { left, right: next })
}

/// The words of a part of the migration, and where they stand: its name and its steps where no mark crosses them, or else where one does;
/// its steps alone; or nothing.
fn phase_words<'a>(
    pen: &mut Pen,
    word: &'a str,
    steps: Part<'a>,
    clear: Room,
    whole: Room,
) -> ([Part<'a>; 4], Room) {
    let all = [Words(word), Words(": "), steps, Words(" steps")];
    let lone = [steps, Nothing, Nothing, Nothing];
    for (words, room) in [(all, clear), (all, whole), (lone, clear), (lone, whole)] {
        if pen.width(&words, 85).saturating_add(80) <= room.width() {
            return (words, room);
        }
    }
    ([Nothing; 4], whole)
}

/// Writes how long a part of the migration took, where there is room.
fn phase(pen: &mut Pen, plan: &Plan, labels: &Labels, word: &str, lines: (u32, u32)) {
    let steps = Number(lines.1.saturating_sub(lines.0));
    let (left, right) = (plan.x_at(lines.0), plan.x_at(lines.1));
    let clear = clear_room(labels, left, right);
    let (words, room) = phase_words(pen, word, steps, clear, Room { left, right });
    let half = pen.width(&words, 85).saturating_add(40) / 2;
    let middle = room.left.saturating_add(room.width() / 2);
    let y = plan.top.saturating_add(150);
    pen.line(Class::Mark, (left, y), (middle.saturating_sub(half), y));
    pen.line(Class::Mark, (middle.saturating_add(half), y), (right, y));
    pen.words(Class::MiddleEdged, (middle, y.saturating_add(35)), &words);
}

/// What follows a mark, if the migration is in another part then.
fn part_behind(event: Event) -> Option<&'static str> {
    match event {
        Event::Start => Some("pre-copy"),
        Event::Switch => Some("nobody runs"),
        Event::Package => Some("post-copy"),
        Event::Complete => Some("after"),
        _ => None,
    }
}

/// Writes how long each part of a migration took.
pub(super) fn phases(pen: &mut Pen, plan: &Plan, record: &Record, labels: &Labels) {
    let mut from = 0u32;
    let mut word = "guest at the source";
    for mark in &record.marks {
        if let Some(next) = part_behind(mark.event) {
            phase(pen, plan, labels, word, (from, mark.line));
            from = mark.line;
            word = next;
        }
    }
    let last = plan.columns.lines.saturating_sub(1);
    if !record.marks.is_empty() && from < last {
        phase(pen, plan, labels, word, (from, last));
    }
}

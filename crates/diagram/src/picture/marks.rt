//! Marks: lines through all bands, with words above them.

use crate::class::Class;
use crate::memory::Memory;
use crate::pen::{Frame, Pen};
use crate::plan::Plan;
use crate::record::{Event, Mark, Record};
use crate::text::Part::{Count, Nothing, Number, Words};
use crate::text::{Part, width_of};

/// The most rows of words.
const MOST_ROWS: u64 = 9;

/// The height of a row of words.
const ROW: u64 = 120;

/// The room above the bands for the lengths of the parts of the migration.
const PARTS: u64 = 200;

/// The most marks that have words.
const MOST_WORDS: usize = 120;

/// A mark as it is drawn.
#[derive(Clone, Copy)]
pub(super) struct Label {
    pub x: u64,
    mark: Mark,
    /// Its row above the bands, if it has words.
    pub row: Option<u64>,
}

/// The marks as they are drawn, from the last to the first.
#[derive(Drop)]
pub(super) struct Labels {
    pub labels: Vec<Label>,
    wording: Wording,
    pub height: u64,
    /// Where the words end.
    pub right: u64,
}

/// How much a mark matters.
fn rank_of(event: Event) -> u8 {
    match event {
        Event::Switch | Event::Package | Event::Complete => 5,
        Event::Break => 4,
        Event::Start | Event::Resume => 3,
        Event::Round | Event::End => 2,
        Event::SourceNotice | Event::DestinationNotice => 1,
    }
}

/// The words of a break: how many pages and how many requests it has lost.
fn break_words(pages: u32, requests: u32) -> [Part<'static>; 4] {
    let lost = Words("break: lost ");
    let (pages_lost, requests_lost) = (Count(pages, "page"), Count(requests, "request"));
    match (pages, requests) {
        (0, 0) => [Words("break: no page lost"), Nothing, Nothing, Nothing],
        (_, 0) => [lost, pages_lost, Nothing, Nothing],
        (0, _) => [lost, requests_lost, Nothing, Nothing],
        _ => [lost, pages_lost, Words(", "), requests_lost],
    }
}

/// The word of a mark that has no number.
fn word_of(event: Event) -> &'static str {
    match event {
        Event::Start => "start",
        Event::End => "end sent",
        Event::Complete => "complete",
        Event::Package => "package: the destination runs",
        Event::SourceNotice => "source pauses",
        _ => "destination pauses",
    }
}

/// Which words there are: those of marks of at least a rank, and of a break all or the first alone.
#[derive(Clone, Copy)]
struct Wording {
    least: u8,
    is_short: bool,
}

impl Wording {
    /// The words that are always there: of the switch, the package and the completion.
    const FEWEST: Wording = Wording {
        least: 5,
        is_short: false,
    };

    /// The `number`th that is tried: words are left out where they would need too many rows, those that matter least first.
    fn tried(number: u8) -> Wording {
        Wording {
            least: number.min(4),
            is_short: number > 4,
        }
    }

    /// The words above a mark.
    fn words_of(self, mark: &Mark) -> [Part<'static>; 4] {
        match mark.event {
            Event::Break if self.is_short => [Words("break"), Nothing, Nothing, Nothing],
            _ => words_of(mark),
        }
    }
}

/// The words of a mark.
fn words_of(mark: &Mark) -> [Part<'static>; 4] {
    let first = Number(mark.first);
    match mark.event {
        Event::Break => break_words(mark.first, mark.second),
        Event::Round => {
            let pages = Count(mark.second, "page");
            [Words("round "), first, Words(": "), pages]
        }
        Event::Switch => [Words("switch: "), first, Words(" owed"), Nothing],
        Event::Resume => [Words("resume, epoch "), first, Nothing, Nothing],
        event => [Words(word_of(event)), Nothing, Nothing, Nothing],
    }
}

/// The row of words that begin at a place and are so wide: one above each of those on the right that begin under them.
fn row_above(labels: &[Label], x: u64, width: u64) -> u64 {
    let end = x.saturating_add(width);
    let mut row = 0u64;
    for other in labels {
        if let Some(below) = other.row
            && other.x <= end
        {
            row = row.max(below.saturating_add(1));
        }
    }
    row
}

/// The marks that have words with their rows, and the others.
fn staircase(memory: &mut Memory, plan: &Plan, record: &Record, wording: Wording) -> Labels {
    let mut labels = Vec::new(memory.alloc);
    let mut rows = 0u64;
    let mut right = 0u64;
    for mark in record.marks.iter().rev() {
        let x = plan.x_at(mark.line);
        let mut row = None;
        if rank_of(mark.event) >= wording.least {
            let words = memory.text(&wording.words_of(mark));
            let width = width_of(words.len(), 100).saturating_add(60);
            let above = row_above(&labels, x, width);
            rows = rows.max(above.saturating_add(1));
            right = right.max(x.saturating_add(width));
            row = Some(above);
        }
        let mark = *mark;
        memory.push(&mut labels, Label { x, mark, row });
    }
    Labels {
        labels,
        wording,
        height: rows.saturating_mul(ROW),
        right,
    }
}

/// How many marks have words.
fn words_in(record: &Record, wording: Wording) -> usize {
    let mut count = 0usize;
    for mark in &record.marks {
        if rank_of(mark.event) >= wording.least {
            count = count.saturating_add(1);
        }
    }
    count
}

/// The marks as they are drawn: words that would need too many rows are left out, those that matter least first. Those of the switch, the
/// package and the completion stay.
pub(super) fn find_labels(memory: &mut Memory, plan: &Plan, record: &Record) -> Labels {
    for number in 1..6 {
        let wording = Wording::tried(number);
        if words_in(record, wording) <= MOST_WORDS {
            let labels = staircase(memory, plan, record, wording);
            if labels.height <= MOST_ROWS * ROW {
                return labels;
            }
        }
    }
    staircase(memory, plan, record, Wording::FEWEST)
}

/// The class of the line of a mark, and of its words.
fn classes_of(event: Event) -> (Class, Class) {
    match event {
        Event::Break => (Class::BreakMark, Class::BoldEdged),
        Event::Switch | Event::Package | Event::Complete => (Class::Mark, Class::BoldEdged),
        Event::Start | Event::Resume => (Class::Mark, Class::Edged),
        _ => (Class::Rail, Class::SmallEdged),
    }
}

/// The class of the line of a mark without words.
fn wordless_class(event: Event) -> Class {
    match event {
        Event::Break => Class::BreakMark,
        _ => Class::Rail,
    }
}

/// Draws the marks, each with its words if they have a row. Those without words begin below the lengths of the parts of the migration, and
/// of those at one place the last is drawn.
pub(super) fn marks(pen: &mut Pen, plan: &Plan, labels: &Labels) {
    let mut before = u64::MAX;
    for label in &labels.labels {
        let words = words_of(&label.mark);
        let foot = (label.x, plan.bottom);
        if let Some(row) = label.row {
            let (line, class) = classes_of(label.mark.event);
            let y = plan.top.saturating_sub(row.saturating_mul(ROW));
            pen.name(&words);
            pen.line(line, (label.x, y.saturating_sub(90)), foot);
            let above = labels.wording.words_of(&label.mark);
            pen.words(class, (label.x.saturating_add(30), y), &above);
        } else if label.x != before {
            pen.name(&words);
            let head = (label.x, plan.top.saturating_add(PARTS));
            pen.line(wordless_class(label.mark.event), head, foot);
        }
        before = label.x;
    }
}

/// Draws a ground from one line to another.
fn ground(pen: &mut Pen, plan: &Plan, class: Class, lines: (u32, u32), rows: (u64, u64)) {
    let x = plan.x_at(lines.0);
    let frame = Frame {
        x,
        y: rows.0,
        width: plan.x_at(lines.1).saturating_sub(x),
        height: rows.1.saturating_sub(rows.0),
    };
    pen.rectangle(class, frame);
}

/// Whether an event ends what a switch or a break began: that nobody runs the processors, or that there is no link.
fn ends(begin: Event, event: Event) -> bool {
    match begin {
        Event::Switch => matches!(event, Event::Package | Event::Complete),
        _ => matches!(event, Event::Resume | Event::Break),
    }
}

/// The lines from a mark to the one that ends what it began, or to the end of the columns.
fn lines_from(record: &Record, begin: &Mark) -> (u32, u32) {
    for mark in &record.marks {
        if mark.line > begin.line && ends(begin.event, mark.event) {
            return (begin.line, mark.line);
        }
    }
    (begin.line, u32::MAX)
}

/// Draws the ground while nobody runs the processors, and while there is no link.
pub(super) fn grounds(pen: &mut Pen, plan: &Plan, record: &Record) {
    for mark in &record.marks {
        match mark.event {
            Event::Switch => {
                let lines = lines_from(record, mark);
                let rows = (plan.top.saturating_add(60), plan.bottom);
                ground(pen, plan, Class::NobodyRuns, lines, rows);
            }
            Event::Break => {
                let lines = lines_from(record, mark);
                let rows = (plan.forward.0, plan.back.0);
                ground(pen, plan, Class::NoLink, lines, rows);
            }
            _ => {}
        }
    }
}

//! The bands of pages.

use super::strands::{Label, is_free};
use crate::band::Stretch;
use crate::class::Class;
use crate::pen::{Frame, Pen};
use crate::plan::{Band, Plan};
use crate::record::{Event, Move, Record};
use crate::state::State;
use crate::text::Part::{Nothing, Number, Words};
use crate::text::{Part, width_of};
use mig_base::schedule::Side;

/// The most dots and the most crosses that are drawn.
const MOST_DOTS: usize = 3000;

/// As many items as are drawn.
pub(super) fn drawn<T>(items: &[T]) -> &[T] {
    items.get(..MOST_DOTS).unwrap_or(items)
}

/// What is said of a stretch: whose it is, and what it shows.
#[derive(Clone, Copy)]
pub(super) struct Caption<'a> {
    pub whose: [Part<'a>; 4],
    pub words: &'a str,
}

/// Draws a stretch in a row that begins and is high so, with its caption. Returns its rectangle.
pub(super) fn cell(
    pen: &mut Pen,
    plan: &Plan,
    record: &Record,
    stretch: &Stretch,
    extent: (u64, u64),
    caption: Caption<'_>,
) -> Frame {
    let frame = plan.frame_of(stretch, extent.0, extent.1);
    let [one, two, three, four] = caption.whose;
    pen.name(&[
        one,
        two,
        three,
        four,
        Words(": "),
        Words(caption.words),
        Words(", lines "),
        Number(plan.line_of(record, stretch.from)),
        Words(" to "),
        Number(plan.line_of(record, stretch.to)),
    ]);
    pen.rectangle(stretch.state.look().class, frame);
    frame
}

/// Draws the arrows of the moves of mappings in a band.
fn moves(pen: &mut Pen, plan: &Plan, record: &Record, band: &Band, side: Side) {
    for one in drawn(&record.moves) {
        if one.side == side {
            moved(pen, plan, band, one);
        }
    }
}

/// Draws what the pages of a node are, and writes the names of the rows where there is room.
fn pages(pen: &mut Pen, plan: &Plan, record: &Record, band: &Band) {
    for stretch in &band.stretches {
        if let Some(row) = band.rows.rows.get(stretch.row as usize) {
            let [first, more] = row.name();
            let whose = [first, more, Nothing, Nothing];
            let words = stretch.state.look().words;
            let extent = (row.top, band.height);
            cell(pen, plan, record, stretch, extent, Caption { whose, words });
        }
    }
    let mut free = 0u64;
    for row in &band.rows.rows {
        let y = row.top.saturating_add(band.height / 2).saturating_add(30);
        if y >= free {
            pen.words(Class::FixedEnding, (plan.names_end(), y), &row.name());
            free = y.saturating_add(98);
        }
    }
}

/// Draws where a mapping moves to.
fn moved(pen: &mut Pen, plan: &Plan, band: &Band, one: &Move) {
    let (Some(from), Some(to)) = (band.middle_of(one.from), band.middle_of(one.to)) else {
        return;
    };
    let x = plan.x_at(one.line);
    pen.arrow(Class::Move, (x, from), (x, to));
}

/// Writes beside the arrow of a move what it is, where there is room.
fn move_label(pen: &mut Pen, plan: &Plan, band: &Band, one: &Move, written: &mut Vec<Label>) {
    let (Some(from), Some(to)) = (band.middle_of(one.from), band.middle_of(one.to)) else {
        return;
    };
    let left = plan.x_at(one.line).saturating_add(40);
    let label = Label {
        left,
        right: left
            .saturating_add(width_of("moved".len(), 85))
            .saturating_add(50),
        y: from.saturating_add(to) / 2,
    };
    if is_free(label, written) {
        pen.word(Class::SmallEdged, (left, label.y), "moved");
        pen.memory.push(written, label);
    }
}

/// Writes beside the arrows of moves what they are, in a picture with words and where there is room.
pub(super) fn move_labels(pen: &mut Pen, plan: &Plan, record: &Record) {
    let mut written = Vec::new(pen.memory.alloc);
    if !plan.is_small() {
        return;
    }
    for one in &record.moves {
        let band = match one.side {
            Side::Source => &plan.source,
            Side::Destination => &plan.destination,
        };
        move_label(pen, plan, band, one, &mut written);
    }
}

/// The line from which the destination runs, if the bars of installed pages are to be counted from there.
pub(super) fn run_of(plan: &Plan, record: &Record) -> Option<u32> {
    if !plan.is_small() || plan.destination.height < 110 {
        return None;
    }
    for mark in &record.marks {
        if matches!(mark.event, Event::Package) {
            return Some(mark.line);
        }
    }
    None
}

/// How many steps after the run a page was installed, if this is the bar of such a page and has room for the number.
pub(super) fn age_of(plan: &Plan, run: u32, stretch: &Stretch) -> Option<u32> {
    if !matches!(stretch.state, State::Installed) {
        return None;
    }
    let age = stretch.from.saturating_sub(run);
    let digits = if age < 10 { 1 } else { 2 };
    let width = width_of(digits + 1, 80).saturating_add(30);
    let room = plan
        .x_of(stretch.to)
        .saturating_sub(plan.x_of(stretch.from));
    (width <= room).then_some(age)
}

/// Writes how many steps after the run each page was installed, in a picture with words and where there is room.
pub(super) fn ages(pen: &mut Pen, plan: &Plan, record: &Record) {
    let Some(run) = run_of(plan, record) else {
        return;
    };
    let band = &plan.destination;
    for stretch in &band.stretches {
        if let Some(age) = age_of(plan, run, stretch) {
            let x = plan.x_of(stretch.from).saturating_add(30);
            let middle = band.top_of(stretch.row).saturating_add(band.height / 2);
            let words = [Words("+"), Number(age)];
            pen.words(Class::White, (x, middle.saturating_add(22)), &words);
        }
    }
}

/// Draws the copies that the destination dropped.
fn drops(pen: &mut Pen, plan: &Plan, record: &Record) {
    let band = &plan.destination;
    let reach = (band.height / 2).min(35);
    for drop in drawn(&record.drops) {
        if let Some(y) = band.middle_of(drop.1) {
            pen.cross(Class::Cross, (plan.x_at(drop.0), y), reach);
        }
    }
}

/// Writes the name of a band of pages.
fn title(pen: &mut Pen, band: &Band, name: &str) {
    let place = (100, band.top.saturating_sub(50));
    let together = band.rows.together;
    if together > 1 {
        let words = [
            Words(name),
            Words(", "),
            Number(together),
            Words(" in a row"),
        ];
        return pen.words(Class::Heading, place, &words);
    }
    pen.word(Class::Heading, place, name);
}

/// Draws the bands of the pages of both nodes.
pub(super) fn nodes(pen: &mut Pen, plan: &Plan, record: &Record) {
    title(pen, &plan.source, "source pages");
    pages(pen, plan, record, &plan.source);
    moves(pen, plan, record, &plan.source, Side::Source);
    title(pen, &plan.destination, "destination pages");
    pages(pen, plan, record, &plan.destination);
    moves(pen, plan, record, &plan.destination, Side::Destination);
    drops(pen, plan, record);
}

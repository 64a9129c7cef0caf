//! Counts, on the right of the bands.

use crate::class::Class;
use crate::memory::Memory;
use crate::pen::Pen;
use crate::plan::Plan;
use crate::record::{End, Flight, Kind, Record};
use crate::state::{Counts, State};
use crate::text::Part::{Number, Words};
use mig_base::{HIGH_PAGE, PageSet};

/// Writes those counts that are not 0, on the right of a band that begins here.
fn list(pen: &mut Pen, plan: &Plan, top: u64, counts: &[(&str, u32)]) {
    let x = plan.right().saturating_add(100);
    let mut y = top.saturating_add(90);
    for (words, count) in counts {
        if *count > 0 {
            pen.words(Class::Plain, (x, y), &[Words(words), Number(*count)]);
            y = y.saturating_add(125);
        }
    }
}

/// The number of pages that frames have, or name: of all, and of those that were lost.
fn pages_of(flights: &[Flight]) -> (u32, u32) {
    let mut pages = 0u32;
    let mut lost = 0u32;
    for one in flights {
        if one.kind.has_page() {
            pages = pages.saturating_add(one.pages);
            if matches!(one.end, End::Lost) {
                lost = lost.saturating_add(one.pages);
            }
        }
    }
    (pages, lost)
}

/// Puts the pages of frames into a set.
fn gather(memory: &mut Memory, pages: &mut PageSet, flights: &[Flight]) {
    for one in flights {
        if matches!(one.kind, Kind::Page | Kind::Zero) {
            for page in one.page..one.page.saturating_add(one.pages).min(HIGH_PAGE) {
                memory.note(pages.insert(page).is_ok());
            }
        }
    }
}

/// Writes how many pages were sent, and how many of them again, by which wire, and in vain.
fn forward_notes(pen: &mut Pen, plan: &Plan, record: &Record) {
    let (sent, lost) = pages_of(&record.forward.flights);
    let (overtaking, urgent_lost) = pages_of(&record.urgent.flights);
    let mut different = PageSet::new(pen.memory.alloc);
    gather(&mut pen.memory, &mut different, &record.forward.flights);
    gather(&mut pen.memory, &mut different, &record.urgent.flights);
    let sent = sent.saturating_add(overtaking);
    let counts = [
        ("pages sent: ", sent),
        ("sent again: ", sent.saturating_sub(different.len())),
        ("on the urgent wire: ", overtaking),
        ("lost: ", lost.saturating_add(urgent_lost)),
    ];
    list(pen, plan, plan.forward.0, &counts);
}

/// Writes what the pages of the destination are at the end.
fn destination_notes(pen: &mut Pen, plan: &Plan, record: &Record) {
    let mut now = Counts::NONE;
    for state in &record.destination.now {
        now.add(*state, 1);
    }
    let counts = [
        ("from pre-copy: ", now.of(State::InPlace)),
        ("installed: ", now.of(State::Installed)),
        ("zeros of its own: ", now.of(State::Made)),
        ("still owed: ", now.of(State::Owed)),
        (
            "copies dropped: ",
            record.drops.len().min(u32::MAX as usize) as u32,
        ),
    ];
    list(pen, plan, plan.destination.top, &counts);
}

/// Writes the counts of pages.
pub(super) fn write_notes(pen: &mut Pen, plan: &Plan, record: &Record) {
    let mut touched = 0u32;
    for row in &plan.source.rows.rows {
        if !row.dull {
            touched = touched.saturating_add(row.pages);
        }
    }
    list(pen, plan, plan.source.top, &[("with contents: ", touched)]);
    let (requests, lost) = pages_of(&record.back.flights);
    let counts = [("requests: ", requests), ("lost: ", lost)];
    list(pen, plan, plan.back.1, &counts);
    destination_notes(pen, plan, record);
    forward_notes(pen, plan, record);
}

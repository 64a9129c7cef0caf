//! Which pages are in which row.

use crate::memory::Memory;
use crate::record::{Dot, Track};
use crate::state::State;
use crate::text::Part;
use mig_base::HIGH_PAGE;
use mig_base::schedule::Side;

/// The most rows of a band.
const MOST_ROWS: usize = 256;

/// A row of a band: a page, or several side by side.
#[derive(Clone, Copy)]
pub(crate) struct Row {
    /// The first page, or the processor.
    pub first: u32,
    /// From the first page to the last.
    pub pages: u32,
    /// Whether the page before it is in no row.
    pub gap: bool,
    /// Whether nothing has happened to its pages but that they were mapped.
    pub dull: bool,
    /// The number of its last group of pages.
    group: u32,
    /// Where it begins, once the band is placed.
    pub top: u64,
}

impl Row {
    /// Its first page, and how many follow.
    pub(crate) fn name(&self) -> [Part<'static>; 2] {
        [Part::Page(self.first), Part::More(self.pages)]
    }
}

/// The rows of a band, and the row of each page.
pub(crate) struct Rows {
    pub rows: Vec<Row>,
    pub of: Vec<u32>,
    /// How many neighbours share a row.
    pub together: u32,
}

// Written by hand, so that each exit of a function that owns rows has one call instead of the drops of all parts.
impl Drop for Rows {
    fn drop(self) {
        let Rows {
            rows: _rows,
            of: _of,
            together: _together,
        } = self;
    }
}

impl Rows {
    /// The row of a page, if it has one.
    pub(crate) fn row_of(&self, page: u32) -> Option<u32> {
        match self.of.get(page as usize) {
            Some(row) if *row != u32::MAX => Some(*row),
            _ => None,
        }
    }

    /// Puts a page into the last row if it belongs there, and else into a new one.
    fn put(&mut self, memory: &mut Memory, page: u32, dull: bool) {
        let group = page.checked_div(self.together).unwrap_or(page);
        let mut gap = false;
        if let Some(last) = self.rows.last_mut() {
            let follows = last.first.saturating_add(last.pages) == page;
            let grouped = self.together > 1 && last.group == group;
            if grouped || (dull && last.dull && follows) {
                last.pages = page.saturating_sub(last.first).saturating_add(1);
                last.dull = last.dull && dull;
                last.group = group;
                return;
            }
            gap = !follows;
        }
        let row = Row {
            first: page,
            pages: 1,
            gap,
            dull,
            group,
            top: 0,
        };
        memory.push(&mut self.rows, row);
    }

    /// Puts the pages into rows, with that many neighbours together.
    fn fill(&mut self, memory: &mut Memory, stirs: &[Stir]) {
        self.rows.clear();
        let mut page = 0u32;
        for stir in stirs {
            if !matches!(*stir, Stir::Never) {
                self.put(memory, page, matches!(*stir, Stir::Mapped));
                if let Some(row) = self.of.get_mut(page as usize) {
                    *row = self.rows.len().saturating_sub(1).min(HIGH_PAGE as usize) as u32;
                }
            }
            page = page.saturating_add(1);
        }
    }

    /// The rows of a band: each page by itself, or enough neighbours together that there are not too many rows.
    pub(crate) fn new(memory: &mut Memory, stirs: &[Stir], least: u32) -> Rows {
        let mut rows = Rows {
            rows: Vec::new(memory.alloc),
            of: memory.filled(u32::MAX, stirs.len()),
            together: least,
        };
        for _ in 0..24 {
            rows.fill(memory, stirs);
            if rows.rows.len() <= MOST_ROWS {
                break;
            }
            rows.together = rows.together.saturating_mul(2);
        }
        rows
    }
}

/// What has happened to a page.
#[derive(Clone, Copy)]
pub(crate) enum Stir {
    /// It was never there.
    Never,
    /// It was mapped, and no more.
    Mapped,
    /// It had contents, was owed, or was slept on; or it is a processor.
    Touched,
}

/// What has happened to each page of a node.
pub(crate) fn stirs_of(memory: &mut Memory, track: &Track, dots: &[Dot], side: Side) -> Vec<Stir> {
    let mut stirs = memory.filled(Stir::Never, track.now.len());
    for change in &track.changes {
        if let Some(stir) = stirs.get_mut(change.row as usize) {
            match change.state {
                State::Blank => {}
                State::Empty if matches!(*stir, Stir::Never) => *stir = Stir::Mapped,
                State::Empty => {}
                _ => *stir = Stir::Touched,
            }
        }
    }
    for dot in dots {
        if dot.side == side
            && let Some(stir) = stirs.get_mut(dot.page as usize)
        {
            *stir = Stir::Touched;
        }
    }
    stirs
}

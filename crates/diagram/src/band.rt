//! The stretches of columns in which a row stays the same.

use crate::memory::Memory;
use crate::record::Change;
use crate::rows::Rows;
use crate::state::{Counts, State};

/// The lines of a run, in columns of some lines each.
#[derive(Clone, Copy)]
pub(crate) struct Columns {
    /// The number of lines.
    pub lines: u32,
    /// The lines of a column.
    pub per: u32,
}

impl Columns {
    /// The number of columns.
    pub(crate) fn count(self) -> u32 {
        self.lines.div_ceil(self.per.max(1))
    }

    /// The column of a line.
    pub(crate) fn of(self, line: u32) -> u32 {
        line.checked_div(self.per).unwrap_or(line)
    }
}

/// A stretch of columns in which a row stays the same.
#[derive(Clone, Copy)]
pub(crate) struct Stretch {
    pub row: u32,
    /// The first column, and the one after the last.
    pub from: u32,
    pub to: u32,
    pub state: State,
    pub about: u32,
}

/// A row while its stretches are found.
#[derive(Clone, Copy)]
struct Thread {
    /// How many of its pages are in each state.
    counts: Counts,
    /// The last state of [`State::ALL`] that a page has now, and that one had in this column.
    now: State,
    peak: State,
    /// What each of the two is about.
    about: u32,
    peak_about: u32,
    /// The stretch that continues.
    open: Stretch,
}

/// A row in which nothing has happened.
const STILL: Thread = Thread {
    counts: Counts::NONE,
    now: State::Blank,
    peak: State::Blank,
    about: 0,
    peak_about: 0,
    open: Stretch {
        row: 0,
        from: 0,
        to: 0,
        state: State::Blank,
        about: 0,
    },
};

impl Thread {
    /// Ends the open stretch before a column if another state is shown there. Returns it if it is drawn.
    fn cut(&mut self, column: u32, shown: State) -> Option<Stretch> {
        let about = if shown == self.now {
            self.about
        } else {
            self.peak_about
        };
        self.peak = self.now;
        self.peak_about = self.about;
        if self.open.state == shown {
            return None;
        }
        let mut ended = self.open;
        ended.to = column;
        self.open.from = column;
        self.open.state = shown;
        self.open.about = about;
        match ended.state {
            State::Blank => None,
            _ => Some(ended),
        }
    }
}

/// The rows of a band while their stretches are found.
#[derive(Drop)]
struct Band {
    threads: Vec<Thread>,
    /// The state of each page.
    now: Vec<State>,
    stretches: Vec<Stretch>,
}

impl Band {
    /// Makes a change.
    fn change(&mut self, change: &Change, rows: &Rows) {
        let Some(row) = rows.row_of(change.row) else {
            return;
        };
        if let Some(now) = self.now.get_mut(change.row as usize)
            && let Some(thread) = self.threads.get_mut(row as usize)
        {
            thread.counts.take(*now);
            thread.counts.add(change.state, 1);
            *now = change.state;
            thread.open.row = row;
            thread.about = change.about;
            thread.now = thread.counts.highest();
            if thread.now as usize > thread.peak as usize {
                thread.peak = thread.now;
                thread.peak_about = thread.about;
            }
        }
    }

    /// Ends the stretches that do not continue in a column: all of them after the last.
    fn cut(&mut self, memory: &mut Memory, column: u32, columns: Columns) {
        let last = column >= columns.count();
        for thread in self.threads.iter_mut() {
            let shown = match columns.per {
                _ if last => State::Blank,
                1 => thread.now,
                _ => thread.peak,
            };
            if let Some(ended) = thread.cut(column, shown) {
                memory.push(&mut self.stretches, ended);
            }
        }
    }
}

/// The stretches of a band, in the order of the columns in which they end.
pub(crate) fn stretches_of(
    memory: &mut Memory,
    changes: &[Change],
    rows: &Rows,
    columns: Columns,
) -> Vec<Stretch> {
    let mut band = Band {
        threads: memory.filled(STILL, rows.rows.len()),
        now: memory.filled(State::Blank, rows.of.len()),
        stretches: Vec::new(memory.alloc),
    };
    let mut column = 0u32;
    for change in changes {
        for ended in column..columns.of(change.line) {
            band.cut(memory, ended, columns);
        }
        column = column.max(columns.of(change.line));
        band.change(change, rows);
    }
    for ended in column..columns.count().saturating_add(1) {
        band.cut(memory, ended, columns);
    }
    band.stretches
}

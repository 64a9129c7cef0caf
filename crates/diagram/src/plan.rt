//! Where everything stands in a picture.

use crate::band::{Columns, Stretch, stretches_of};
use crate::memory::Memory;
use crate::pen::{Frame, share};
use crate::record::{Change, FEW, Record};
use crate::rows::{Rows, Stir, stirs_of};
use crate::text::width_of;
use crate::waits::{Wait, find_waits};
use mig_base::schedule::Side;

/// Where the columns begin, in tenths of a pixel: here, or farther to the right where a name of a row is long.
const LEFT: u64 = 840;

/// The room on the right of the columns.
pub(crate) const RIGHT: u64 = 1480;

/// The most lines of which each has a column of its own.
const MOST_COLUMNS: u32 = 2000;

/// The most shapes of a picture.
const MOST_SHAPES: usize = 20_000;

/// A band of rows: its rows, what is drawn in them, and where they stand.
pub(crate) struct Band {
    pub rows: Rows,
    pub stretches: Vec<Stretch>,
    /// The height of a row.
    pub height: u64,
    /// Where the band begins.
    pub top: u64,
}

// Written by hand, so that each exit of a function that owns a band has one call instead of the drops of all parts.
impl Drop for Band {
    fn drop(self) {
        let Band {
            rows: _rows,
            stretches: _stretches,
            height: _height,
            top: _top,
        } = self;
    }
}

/// A picture: its columns, its bands, and its size.
pub(crate) struct Plan {
    pub columns: Columns,
    /// Where the columns begin, and how wide they are together.
    pub left: u64,
    pub width: u64,
    pub source: Band,
    pub destination: Band,
    pub processors: Band,
    pub waits: Vec<Wait>,
    /// Where the marks end and the bands begin.
    pub top: u64,
    /// Where the wires stand: the source's side and the destination's of those that lead there, and the same of the wire back.
    pub forward: (u64, u64),
    pub back: (u64, u64),
    /// Where the bands end.
    pub bottom: u64,
}

// As that of a band.
impl Drop for Plan {
    fn drop(self) {
        let Plan {
            columns: _columns,
            left: _left,
            width: _width,
            source: _source,
            destination: _destination,
            processors: _processors,
            waits: _waits,
            top: _top,
            forward: _forward,
            back: _back,
            bottom: _bottom,
        } = self;
    }
}

/// The height of a row, if there are this many.
fn row_height(rows: usize) -> u64 {
    match rows {
        0..=10 => 150,
        11..=24 => 110,
        25..=80 => 75,
        81..=140 => 50,
        _ => 35,
    }
}

impl Band {
    /// A band of pages or processors to which this has happened.
    fn new(
        memory: &mut Memory,
        changes: &[Change],
        stirs: &[Stir],
        together: u32,
        columns: Columns,
    ) -> Band {
        let rows = Rows::new(memory, stirs, together);
        let stretches = stretches_of(memory, changes, &rows, columns);
        let height = row_height(rows.rows.len());
        Band {
            rows,
            stretches,
            height,
            top: 0,
        }
    }

    /// Places the rows from here on downwards, with a gap where pages between two are missing. Returns where they end.
    fn place(&mut self, top: u64, gap: u64) -> u64 {
        let mut y = top;
        self.top = top;
        for row in self.rows.rows.iter_mut() {
            if row.gap {
                y = y.saturating_add(gap);
            }
            row.top = y;
            y = y.saturating_add(self.height);
        }
        y
    }

    /// How wide the names of the rows are.
    fn names_width(&self, memory: &mut Memory) -> u64 {
        let mut longest = 0usize;
        for row in &self.rows.rows {
            longest = longest.max(memory.text(&row.name()).len());
        }
        width_of(longest, 90)
    }

    /// Where a row begins.
    pub(crate) fn top_of(&self, row: u32) -> u64 {
        match self.rows.rows.get(row as usize) {
            Some(row) => row.top,
            None => self.top,
        }
    }

    /// The middle of the row of a page.
    pub(crate) fn middle_of(&self, page: u32) -> Option<u64> {
        let row = self.rows.row_of(page)?;
        Some(self.top_of(row).saturating_add(self.height / 2))
    }
}

/// The width of the columns.
fn columns_width(lines: u32) -> u64 {
    let lines = u64::from(lines);
    let small = lines.saturating_mul(260).clamp(6500, 8400);
    let more = lines.saturating_sub(400).saturating_mul(5);
    small.saturating_add(more).min(16000)
}

/// The number of shapes for the frames of the wires: one for each pair of columns.
fn frame_shapes(record: &Record, columns: Columns) -> usize {
    let mut shapes = 0usize;
    for flights in [
        &record.forward.flights,
        &record.urgent.flights,
        &record.back.flights,
    ] {
        let mut before = (u32::MAX, u32::MAX);
        for flight in flights {
            let place = (columns.of(flight.sent), columns.of(flight.ended));
            if place != before {
                shapes = shapes.saturating_add(1);
            }
            before = place;
        }
    }
    shapes
}

impl Plan {
    /// The columns and the bands of a record, with `per` lines in a column and `together` pages in a row, without its waits.
    fn of(memory: &mut Memory, record: &Record, per: u32, together: u32) -> Plan {
        let lines = record.lines.len().clamp(1, u32::MAX as usize) as u32;
        let columns = Columns { lines, per };
        let stirs = stirs_of(memory, &record.source, &record.dots, Side::Source);
        let source = Band::new(memory, &record.source.changes, &stirs, together, columns);
        let stirs = stirs_of(memory, &record.destination, &record.dots, Side::Destination);
        let changes = &record.destination.changes;
        let destination = Band::new(memory, changes, &stirs, together, columns);
        let stirs = memory.filled(Stir::Touched, record.cpus as usize);
        let changes = &record.processors.changes;
        let processors = Band::new(memory, changes, &stirs, 1, columns);
        let names = source
            .names_width(memory)
            .max(destination.names_width(memory));
        Plan {
            columns,
            left: LEFT.max(names.saturating_add(160)),
            width: columns_width(lines),
            source,
            destination,
            processors,
            waits: Vec::new(memory.alloc),
            top: 0,
            forward: (0, 0),
            back: (0, 0),
            bottom: 0,
        }
    }

    /// The columns and the bands of a record: as few lines in a column and pages in a row as leave the picture small.
    pub(crate) fn new(memory: &mut Memory, record: &Record) -> Plan {
        let lines = record.lines.len().min(u32::MAX as usize) as u32;
        let mut per = lines.div_ceil(MOST_COLUMNS).max(1);
        let mut together = 1u32;
        let mut plan = Plan::of(memory, record, per, together);
        for _ in 0..16 {
            let stretches = plan
                .source
                .stretches
                .len()
                .saturating_add(plan.destination.stretches.len())
                .saturating_add(plan.processors.stretches.len());
            if stretches.saturating_add(frame_shapes(record, plan.columns)) <= MOST_SHAPES {
                break;
            }
            per = per.saturating_mul(2);
            together = together.saturating_mul(2);
            plan = Plan::of(memory, record, per, together);
        }
        // Waits are counted in lines, also where a column has several.
        let lone = Columns {
            lines: plan.columns.lines,
            per: 1,
        };
        let changes = &record.processors.changes;
        let stretches = stretches_of(memory, changes, &plan.processors.rows, lone);
        plan.waits = find_waits(memory, &stretches, record.cpus);
        plan
    }

    /// Places the bands below the marks.
    pub(crate) fn place(&mut self, top: u64) {
        self.top = top;
        self.processors.height = 270;
        let y = self.processors.place(top.saturating_add(420), 0);
        let y = self.source.place(y.saturating_add(280), 50);
        let y = y.saturating_add(300);
        self.forward = (y, y.saturating_add(840));
        let y = y.saturating_add(1000);
        self.back = (y.saturating_add(400), y);
        let y = self.destination.place(y.saturating_add(660), 50);
        self.bottom = y.saturating_add(60);
    }

    /// The middle of a column; the end of the columns for the one after the last.
    pub(crate) fn x_of(&self, column: u32) -> u64 {
        let count = self.columns.count();
        if column >= count {
            return self.right();
        }
        let halves = u64::from(column).saturating_mul(2).saturating_add(1);
        let across = share(self.width, halves, u64::from(count).saturating_mul(2));
        self.left.saturating_add(across)
    }

    /// The middle of the column of a line.
    pub(crate) fn x_at(&self, line: u32) -> u64 {
        self.x_of(self.columns.of(line))
    }

    /// Where the names on the left of the columns end.
    pub(crate) fn names_end(&self) -> u64 {
        self.left.saturating_sub(60)
    }

    /// Where the columns end.
    pub(crate) fn right(&self) -> u64 {
        self.left.saturating_add(self.width)
    }

    /// Whether each line has a column that is wide enough for words.
    pub(crate) fn is_small(&self) -> bool {
        self.columns.lines <= FEW
    }

    /// The line of the file at which a column begins.
    pub(crate) fn line_of(&self, record: &Record, column: u32) -> u32 {
        record.line_at(column.saturating_mul(self.columns.per))
    }

    /// The rectangle of a stretch in a row that begins and is high so.
    pub(crate) fn frame_of(&self, stretch: &Stretch, top: u64, height: u64) -> Frame {
        let look = stretch.state.look();
        let x = self.x_of(stretch.from);
        Frame {
            x,
            y: top.saturating_add(height.saturating_mul(look.top) / 16),
            width: self.x_of(stretch.to).saturating_sub(x).max(4),
            height: (height.saturating_mul(look.height) / 16).max(6),
        }
    }
}

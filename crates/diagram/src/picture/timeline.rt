//! The picture of operations, each of which took effect between two ticks.

ghost use Rattle.std.specs.Prelude.{IfOk};
ghost use Rattle.diagram.specs.Trees.{IsPicture};

use super::{ground, new_sheet};
use crate::class::Class;
use crate::memory::Memory;
use crate::pen::{Frame, Pen};
use crate::text::Part::{Number, Tick, Words};
use crate::text::width_of;
use mig_base::NoMemory;
use std::alloc::Global;

/// The room at the sides, and where the first tick is, in tenths of a pixel.
const MARGIN: u64 = 100;

const LEFT: u64 = 840;

/// Where the first row begins, and the height of a row.
const TOP: u64 = 500;

const ROW: u64 = 300;

/// An operation that took effect between two ticks.
#[derive(Drop)]
pub struct Bar {
    /// The thread that made it.
    pub thread: u8,
    pub begin: u64,
    /// None if it is not known.
    pub end: Option<u64>,
    pub text: String,
    /// Whether it is drawn in the colour of a fault.
    pub is_fault: bool,
}

/// Operations over one line of ticks.
#[derive(Drop)]
pub struct Timeline {
    pub title: String,
    /// What is said of the operations.
    pub sentence: &'static str,
    /// Those of a thread are next to each other.
    pub bars: Vec<Bar>,
}

/// The ticks at which bars begin and end, in their order, and how far one is from the next.
#[derive(Drop)]
struct Scale {
    ticks: Vec<u64>,
    apart: u64,
}

impl Scale {
    /// The scale of bars.
    fn new(memory: &mut Memory, bars: &[Bar]) -> Scale {
        let mut ticks = Vec::new(memory.alloc);
        for bar in bars {
            memory.push(&mut ticks, bar.begin);
            memory.push(&mut ticks, bar.end.unwrap_or(bar.begin));
        }
        ticks.sort_unstable();
        ticks.dedup();
        let last = ticks.last().copied().unwrap_or(0);
        let digits = memory.text(&[Tick(last)]).len();
        let apart = width_of(digits, 85).saturating_add(100).max(500);
        Scale { ticks, apart }
    }

    /// Where the tick at an index is.
    fn x_at(&self, index: usize) -> u64 {
        LEFT.saturating_add(self.apart.saturating_mul(index as u64))
    }

    /// Where a tick is.
    fn x_of(&self, tick: u64) -> u64 {
        match self.ticks.binary_search(&tick) {
            Ok(index) | Err(index) => self.x_at(index),
        }
    }

    /// Where the line of ticks ends, and bars that have no end.
    fn right(&self) -> u64 {
        self.x_at(self.ticks.len())
    }
}

/// The width of a picture.
fn width_of_all(scale: &Scale, timeline: &Timeline) -> u64 {
    let mut width = scale
        .right()
        .max(width_of(timeline.title.len(), 140))
        .max(width_of(timeline.sentence.len(), 110));
    for bar in &timeline.bars {
        let text = width_of(bar.text.len(), 90);
        width = width.max(scale.x_of(bar.begin).saturating_add(text));
    }
    width.saturating_add(2 * MARGIN)
}

/// Draws the ticks as lines from the first row to the end of the last, with their numbers below.
fn draw_ticks(pen: &mut Pen, scale: &Scale, bottom: u64) {
    let y = bottom.saturating_add(130);
    pen.word(Class::Small, (MARGIN, y), "tick");
    for tick in &scale.ticks {
        let x = scale.x_of(*tick);
        pen.line(Class::Rail, (x, TOP), (x, bottom));
        pen.words(Class::SmallMiddle, (x, y), &[Tick(*tick)]);
    }
}

/// Draws an operation in a row that begins here.
fn draw_bar(pen: &mut Pen, scale: &Scale, bar: &Bar, top: u64) {
    let begin = scale.x_of(bar.begin);
    let end = match bar.end {
        Some(end) => scale.x_of(end),
        None => scale.right(),
    };
    let class = if bar.is_fault {
        Class::Waiting
    } else {
        Class::Clean
    };
    // The end comes first where a clock went back.
    let frame = Frame {
        x: begin.min(end),
        y: top.saturating_add(140),
        width: begin.abs_diff(end),
        height: 110,
    };
    pen.rectangle(class, frame);
    let place = (begin, top.saturating_add(110));
    pen.word(Class::FixedEdged, place, &bar.text);
}

/// Draws the operations, each in a row, and the names of the threads, whose lanes end here on the right.
fn draw_bars(pen: &mut Pen, scale: &Scale, bars: &[Bar], right: u64) {
    let mut top = TOP;
    let mut before = None;
    for bar in bars {
        if before != Some(bar.thread) {
            pen.line(Class::Axle, (MARGIN, top), (right, top));
            let name = [Words("thread "), Number(u32::from(bar.thread))];
            let place = (LEFT - 60, top.saturating_add(230));
            pen.words(Class::FixedEnding, place, &name);
        }
        before = Some(bar.thread);
        draw_bar(pen, scale, bar, top);
        top = top.saturating_add(ROW);
    }
}

/// Paints the picture of operations: a lane for each thread, and over the ticks in their order a bar for each operation, with its text.
pub fn paint_timeline(alloc: Global, timeline: &Timeline) -> Result<Vec<u8>, NoMemory>
    ensures { IfOk result (λ picture. IsPicture picture.items) }
{
    let mut memory = Memory { alloc, whole: true };
    let scale = Scale::new(&mut memory, &timeline.bars);
    let rows = timeline.bars.len() as u64;
    let bottom = TOP.saturating_add(ROW.saturating_mul(rows));
    let width = width_of_all(&scale, timeline);
    let height = bottom.saturating_add(230);
    let sheet = new_sheet(&mut memory, width, height)?;
    let mut pen = Pen::new(memory, sheet);
    ground(&mut pen, &timeline.title, width, height);
    pen.word(Class::Title, (MARGIN, 200), &timeline.title);
    pen.word(Class::Sentence, (MARGIN, 350), timeline.sentence);
    draw_ticks(&mut pen, &scale, bottom);
    let right = width.saturating_sub(MARGIN);
    draw_bars(&mut pen, &scale, &timeline.bars, right);
    pen.finish()
}

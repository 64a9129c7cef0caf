//! What the colours and the signs mean: those that the picture has.

use super::bands::{age_of, run_of};
use super::sleeps::Sleep;
use crate::class::Class;
use crate::memory::Memory;
use crate::pen::{Frame, Pen};
use crate::plan::{Band, Plan};
use crate::record::{End, Event, Flight, Record};
use crate::state::State;
use crate::text::Place;

/// The height of an item, and the width of a column of items.
const ITEM: u64 = 140;

const COLUMN: u64 = 2150;

/// A column of items.
#[derive(Clone, Copy)]
enum Column {
    Source,
    Destination,
    Processors,
    Signs,
}

/// A line of a picture.
#[derive(Clone, Copy)]
enum Line {
    Page,
    Urgent,
    Other,
    Lost,
    Break,
}

/// What an item shows.
#[derive(Clone, Copy)]
enum Sign {
    /// The name of a column of items.
    Name(Column),
    /// A state.
    Box(State),
    Line(Line),
    /// A dot with the number of a processor, and one without, a cross, an arrow, and a number in the bar of a page that is installed.
    Dot,
    SmallDot,
    Cross,
    Move,
    Age,
    /// The ground while nobody runs the processors, and while there is no link.
    NobodyRuns,
    NoLink,
}

/// The name of a column.
fn name_of(column: Column) -> &'static str {
    match column {
        Column::Source => "source pages",
        Column::Destination => "destination pages",
        Column::Processors => "processors",
        Column::Signs => "signs",
    }
}

/// The class of a line, and what it means.
fn line_of(line: Line) -> (Class, &'static str) {
    match line {
        Line::Page => (Class::PageFrame, "page or request, sent to taken"),
        Line::Urgent => (Class::UrgentFrame, "a page on the urgent wire"),
        Line::Other => (Class::OtherFrame, "another frame"),
        Line::Lost => (Class::LostFrame, "lost in a break"),
        Line::Break => (Class::BreakMark, "a break"),
    }
}

/// The items of a legend, in columns.
#[derive(Drop)]
pub(super) struct Items {
    /// Each with its place in the legend.
    items: Vec<(Sign, Place)>,
    /// Whether the next item begins a column.
    is_first: bool,
    pub width: u64,
    pub height: u64,
}

impl Items {
    /// Adds an item to a column, below the last one.
    fn add(&mut self, memory: &mut Memory, column: Column, sign: Sign) {
        if self.is_first {
            self.is_first = false;
            let x = self.width.saturating_sub(100);
            memory.push(&mut self.items, (Sign::Name(column), (x, 100)));
            self.width = self.width.saturating_add(COLUMN);
        }
        let (x, y) = match self.items.last() {
            Some((_, place)) => *place,
            None => (0, 0),
        };
        let y = y.saturating_add(ITEM);
        memory.push(&mut self.items, (sign, (x, y)));
        self.height = self.height.max(y.saturating_add(300));
    }

    /// Adds the states that a band has, in a column.
    fn add_states(&mut self, memory: &mut Memory, column: Column, band: &Band) {
        self.is_first = true;
        for state in State::IN_TURN {
            if has_state(band, state) {
                self.add(memory, column, Sign::Box(state));
            }
        }
    }
}

/// Whether a band has a state.
fn has_state(band: &Band, state: State) -> bool {
    for stretch in &band.stretches {
        if stretch.state == state {
            return true;
        }
    }
    false
}

/// Which lines of frames a wire has.
#[derive(Clone, Copy)]
struct Kinds {
    pages: bool,
    others: bool,
    lost: bool,
}

impl Kinds {
    /// Those of frames.
    fn of(flights: &[Flight]) -> Kinds {
        let mut kinds = Kinds {
            pages: false,
            others: false,
            lost: false,
        };
        for flight in flights {
            match flight.end {
                End::Lost => kinds.lost = true,
                _ if flight.kind.has_page() => kinds.pages = true,
                _ => kinds.others = true,
            }
        }
        kinds
    }
}

/// Whether a switch, and whether a break, is among the marks.
fn grounds_in(record: &Record) -> (bool, bool) {
    let mut switches = false;
    let mut breaks = false;
    for mark in &record.marks {
        match mark.event {
            Event::Switch => switches = true,
            Event::Break => breaks = true,
            _ => {}
        }
    }
    (switches, breaks)
}

/// Whether a bar has the number of steps after which its page was installed.
fn has_age(plan: &Plan, record: &Record) -> bool {
    let Some(run) = run_of(plan, record) else {
        return false;
    };
    for stretch in &plan.destination.stretches {
        if age_of(plan, run, stretch).is_some() {
            return true;
        }
    }
    false
}

/// Whether there are dots with numbers, and whether there are dots without.
fn dots_in(sleeps: &[Sleep]) -> (bool, bool) {
    let mut numbered = false;
    let mut others = false;
    for sleep in sleeps {
        if sleep.has_number() {
            numbered = true;
        } else {
            others = true;
        }
    }
    (numbered, others)
}

/// The items of a picture.
pub(super) fn find_items(
    memory: &mut Memory,
    plan: &Plan,
    record: &Record,
    sleeps: &[Sleep],
) -> Items {
    let mut items = Items {
        items: Vec::new(memory.alloc),
        is_first: true,
        width: 200,
        height: 400,
    };
    items.add_states(memory, Column::Source, &plan.source);
    items.add_states(memory, Column::Destination, &plan.destination);
    items.add_states(memory, Column::Processors, &plan.processors);
    items.is_first = true;
    let forward = Kinds::of(&record.forward.flights);
    let urgent = Kinds::of(&record.urgent.flights);
    let back = Kinds::of(&record.back.flights);
    let lost = forward.lost || urgent.lost || back.lost;
    let (switches, breaks) = grounds_in(record);
    let (numbered, others) = dots_in(sleeps);
    let signs = [
        (Sign::NobodyRuns, switches),
        (Sign::NoLink, breaks),
        (Sign::Line(Line::Break), breaks),
        (Sign::Line(Line::Page), forward.pages || back.pages),
        (Sign::Line(Line::Urgent), urgent.pages),
        (Sign::Line(Line::Other), forward.others || back.others),
        (Sign::Line(Line::Lost), lost),
        (Sign::Dot, numbered),
        (Sign::SmallDot, others),
        (Sign::Cross, !record.drops.is_empty()),
        (Sign::Move, !record.moves.is_empty()),
        (Sign::Age, has_age(plan, record)),
    ];
    for (sign, is_there) in signs {
        if is_there {
            items.add(memory, Column::Signs, sign);
        }
    }
    items
}

/// Draws an item.
fn draw_item(pen: &mut Pen, sign: Sign, x: u64, y: u64) {
    let top = y.saturating_sub(80);
    let middle = (x.saturating_add(80), top.saturating_add(45));
    let end = (x.saturating_add(160), y);
    let mut frame = Frame {
        x,
        y: top,
        width: 160,
        height: 100,
    };
    let words = match sign {
        Sign::Name(column) => return pen.word(Class::Heading, (x, y), name_of(column)),
        Sign::Box(state) => {
            let look = state.look();
            frame.y = top.saturating_add(look.top.saturating_mul(6));
            frame.height = look.height.saturating_mul(6).max(8);
            pen.rectangle(look.class, frame);
            look.words
        }
        Sign::Line(line) => {
            let (class, words) = line_of(line);
            pen.line(class, (x, top), end);
            words
        }
        Sign::Dot => {
            pen.disk(Class::Sleep, middle, 50);
            let place = (middle.0, middle.1.saturating_add(30));
            pen.word(Class::BlackMiddle, place, "1");
            "cpu 1 goes to sleep"
        }
        Sign::SmallDot => {
            pen.disk(Class::SmallSleep, middle, 24);
            "a processor goes to sleep"
        }
        Sign::Move => {
            let foot = (middle.0, y.saturating_add(20));
            pen.arrow(Class::Move, (middle.0, top), foot);
            "a mapping moves"
        }
        Sign::Cross => {
            pen.cross(Class::Cross, middle, 32);
            "a copy is dropped"
        }
        Sign::NobodyRuns => {
            pen.rectangle(Class::NobodyRuns, frame);
            "nobody runs the processors"
        }
        Sign::NoLink => {
            pen.rectangle(Class::NoLink, frame);
            "no link"
        }
        Sign::Age => {
            pen.rectangle(Class::Installed, frame);
            pen.word(
                Class::White,
                (x.saturating_add(30), y.saturating_sub(10)),
                "+9",
            );
            "installed 9 steps after the run"
        }
    };
    pen.word(Class::Plain, (x.saturating_add(220), y), words);
}

/// Draws the legend from here on downwards.
pub(super) fn legend(pen: &mut Pen, items: &Items, top: u64) {
    for (sign, place) in &items.items {
        draw_item(pen, *sign, place.0, place.1.saturating_add(top));
    }
}

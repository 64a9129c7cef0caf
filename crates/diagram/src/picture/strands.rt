//! The wires: each frame from the line that sent it to the line that took or lost it.

use crate::class::Class;
use crate::memory::Memory;
use crate::pen::{Pen, share};
use crate::plan::Plan;
use crate::record::{End, Flight, Kind, Record};
use crate::state::State;
use crate::text::Part::{More, Nothing, Number, Page, Words};
use crate::text::{Part, Place};

/// Where words stand on the line of a frame, in tenths of its way.
const HEIGHTS: [u64; 5] = [5, 3, 7, 2, 8];

/// The most words, and the most frames with pages of a wire that have words in a picture of many lines.
const MOST_WORDS: usize = 400;

const MOST_FRAMES: usize = 16;

/// A wire as it is drawn: where its frames begin and end, and the class of their pages.
#[derive(Clone, Copy)]
struct Strand {
    from: u64,
    to: u64,
    class: Class,
}

/// The place on a way from one height to another, after a part of the whole.
fn part_of(from: u64, to: u64, part: u64, whole: u64) -> u64 {
    let along = share(from.abs_diff(to), part, whole);
    if from < to {
        from.saturating_add(along)
    } else {
        from.saturating_sub(along)
    }
}

/// The place where a frame ends: a lost one where the break found it, the oldest farthest.
fn end_of(plan: &Plan, strand: Strand, flight: &Flight, oldest: u32) -> Place {
    match flight.end {
        End::Taken => (plan.x_at(flight.ended), strand.to),
        End::Lost => {
            let age = u64::from(flight.ended.saturating_sub(flight.sent));
            let most = u64::from(flight.ended.saturating_sub(oldest)).saturating_add(1);
            let part = age.saturating_mul(8).saturating_add(most);
            let whole = most.saturating_mul(10);
            let y = part_of(strand.from, strand.to, part, whole);
            (plan.x_at(flight.ended), y)
        }
        End::Open => (plan.right(), part_of(strand.from, strand.to, 1, 2)),
    }
}

/// A frame with the place where it was sent, and where it ended.
#[derive(Clone, Copy)]
struct Route {
    flight: Flight,
    from: Place,
    to: Place,
}

/// The frames of a wire. Of those that have the same columns, the first is there.
fn routes_of(memory: &mut Memory, plan: &Plan, strand: Strand, flights: &[Flight]) -> Vec<Route> {
    let mut routes = Vec::new(memory.alloc);
    let mut before = (u32::MAX, u32::MAX);
    let mut lost = (u32::MAX, 0u32);
    for one in flights {
        if matches!(one.end, End::Lost) && lost.0 != one.ended {
            lost = (one.ended, one.sent);
        }
        let place = (plan.columns.of(one.sent), plan.columns.of(one.ended));
        if place != before {
            let route = Route {
                flight: *one,
                from: (plan.x_of(place.0), strand.from),
                to: end_of(plan, strand, one, lost.1),
            };
            memory.push(&mut routes, route);
        }
        before = place;
    }
    routes
}

/// What a frame is: its word, and its pages if it has any.
fn frame_of(flight: &Flight) -> [Part<'static>; 3] {
    let word = match flight.kind {
        Kind::Page => "page ",
        Kind::Zero => "zeros ",
        Kind::Request => "request ",
        Kind::Advise => "advise",
        Kind::Discard => "discard",
        Kind::Package => "package",
        Kind::Finish => "end",
        Kind::Resume => "resume",
        Kind::Received => "recv",
        Kind::Done => "done",
    };
    if flight.kind.has_page() {
        [Words(word), Page(flight.page), More(flight.pages)]
    } else {
        [Words(word), Nothing, Nothing]
    }
}

/// Draws a frame, named by when it was sent and how it ended: as an arrow if it was taken and there is room, with a cross at its end if it
/// was lost.
fn draw_frame(pen: &mut Pen, plan: &Plan, record: &Record, class: Class, route: &Route) {
    let flight = &route.flight;
    let [word, page, more] = frame_of(flight);
    let ended = match flight.end {
        End::Open => ", in flight at the end, line ",
        End::Taken => ", taken at line ",
        End::Lost => ", lost at line ",
    };
    pen.name(&[
        word,
        page,
        more,
        Words(": sent at line "),
        Number(record.line_at(flight.sent)),
        Words(ended),
        Number(record.line_at(flight.ended)),
    ]);
    let class = if flight.kind.has_page() {
        class
    } else {
        Class::OtherFrame
    };
    match flight.end {
        End::Taken if plan.is_small() => pen.arrow(class, route.from, route.to),
        End::Taken | End::Open => pen.line(class, route.from, route.to),
        End::Lost => {
            pen.line(Class::LostFrame, route.from, route.to);
            pen.cross(Class::Cross, route.to, 30);
        }
    }
}

/// Draws the frames of a wire.
fn frames(pen: &mut Pen, plan: &Plan, record: &Record, strand: Strand, routes: &[Route]) {
    for route in routes {
        draw_frame(pen, plan, record, strand.class, route);
    }
}

/// Words in a band: where they begin and end, and how far down they stand.
#[derive(Clone, Copy)]
pub(super) struct Label {
    pub(super) left: u64,
    pub(super) right: u64,
    pub(super) y: u64,
}

/// Whether words touch no others.
pub(super) fn is_free(label: Label, others: &[Label]) -> bool {
    for other in others {
        let beside = label.left > other.right || other.left > label.right;
        if !beside && label.y.abs_diff(other.y) < 85 {
            return false;
        }
    }
    true
}

/// A place for words that are so wide on the line of a frame: the first of some heights where there is room.
fn place_of(route: &Route, width: u64, written: &[Label]) -> Option<Label> {
    let half = (width / 2).saturating_add(50);
    let reach = route.to.0.saturating_sub(route.from.0);
    for height in HEIGHTS {
        let x = route.from.0.saturating_add(share(reach, height, 10));
        let place = Label {
            left: x.saturating_sub(half),
            right: x.saturating_add(half),
            y: part_of(route.from.1, route.to.1, height, 10).saturating_add(30),
        };
        if is_free(place, written) {
            return Some(place);
        }
    }
    None
}

/// Keeps words off the crosses of lost frames.
fn keep_crosses(memory: &mut Memory, routes: &[Route], written: &mut Vec<Label>) {
    for route in routes {
        if matches!(route.flight.end, End::Lost) && written.len() < MOST_WORDS {
            let cross = Label {
                left: route.to.0.saturating_sub(40),
                right: route.to.0.saturating_add(40),
                y: route.to.1.saturating_add(30),
            };
            memory.push(written, cross);
        }
    }
}

/// Writes what the frames of a wire are on their lines, where there is room: if their pages are named, also on the lines of those that
/// have pages.
fn frame_labels(pen: &mut Pen, routes: &[Route], pages: bool, written: &mut Vec<Label>) {
    for route in routes {
        if (pages || !route.flight.kind.has_page()) && written.len() < MOST_WORDS {
            let mut words = frame_of(&route.flight);
            if matches!(route.flight.kind, Kind::Page | Kind::Request) {
                words[0] = Nothing;
            }
            let width = pen.width(&words, 90);
            if let Some(place) = place_of(route, width, written) {
                let x = place.left.saturating_add(place.right) / 2;
                pen.words(Class::FixedMiddleEdged, (x, place.y), &words);
                pen.memory.push(written, place);
            }
        }
    }
}

/// Draws thin lines from the rows of pages at the source to where they are sent.
fn departures(pen: &mut Pen, plan: &Plan, routes: &[Route]) {
    for route in routes {
        if route.flight.kind.has_page()
            && let Some(y) = plan.source.middle_of(route.flight.page)
        {
            pen.line(Class::Lead, (route.from.0, y), route.from);
        }
    }
}

/// Draws thin lines from where pages are taken to their rows at the destination.
fn arrivals(pen: &mut Pen, plan: &Plan, record: &Record) {
    for change in &record.destination.changes {
        if matches!(change.state, State::Came | State::Kept)
            && let Some(y) = plan.destination.middle_of(change.row)
        {
            let x = plan.x_at(change.line);
            pen.line(Class::Lead, (x, plan.forward.1), (x, y));
        }
    }
}

/// Draws a rail, with its name.
fn rail(pen: &mut Pen, plan: &Plan, y: u64, name: &str) {
    pen.line(Class::Rail, (plan.left, y), (plan.right(), y));
    let place = (plan.names_end(), y.saturating_add(30));
    pen.word(Class::SmallEnding, place, name);
}

/// Draws the rails between which frames travel, with their names and those of the wires.
fn rails(pen: &mut Pen, plan: &Plan) {
    let (source, destination) = plan.forward;
    rail(pen, plan, source, "source");
    rail(pen, plan, destination, "destination");
    pen.word(Class::Heading, (100, source.saturating_sub(50)), "wires");
    let middle = source.saturating_add(450);
    pen.word(Class::Ending, (plan.names_end(), middle), "forward");
    let (destination, source) = plan.back;
    rail(pen, plan, source, "source");
    rail(pen, plan, destination, "destination");
    let middle = source.saturating_add(230);
    pen.word(Class::Ending, (plan.names_end(), middle), "back");
}

/// The three wires as they are drawn: that to the destination, the urgent one, and that back.
fn strands_of(plan: &Plan) -> [Strand; 3] {
    let (from, to) = plan.forward;
    let down = Strand {
        from,
        to,
        class: Class::PageFrame,
    };
    let urgent = Strand {
        from,
        to,
        class: Class::UrgentFrame,
    };
    let (from, to) = plan.back;
    let up = Strand {
        from,
        to,
        class: Class::RequestFrame,
    };
    [down, urgent, up]
}

/// Draws the wires.
pub(super) fn wires(pen: &mut Pen, plan: &Plan, record: &Record) {
    rails(pen, plan);
    let [down, urgent, up] = strands_of(plan);
    let slow = routes_of(&mut pen.memory, plan, down, &record.forward.flights);
    let fast = routes_of(&mut pen.memory, plan, urgent, &record.urgent.flights);
    let returns = routes_of(&mut pen.memory, plan, up, &record.back.flights);
    if plan.is_small() {
        departures(pen, plan, &slow);
        departures(pen, plan, &fast);
        arrivals(pen, plan, record);
    }
    frames(pen, plan, record, down, &slow);
    frames(pen, plan, record, urgent, &fast);
    frames(pen, plan, record, up, &returns);
}

/// Writes what the frames are.
pub(super) fn wire_labels(pen: &mut Pen, plan: &Plan, record: &Record) {
    let small = plan.is_small();
    let [down, urgent, up] = strands_of(plan);
    let slow = routes_of(&mut pen.memory, plan, down, &record.forward.flights);
    let fast = routes_of(&mut pen.memory, plan, urgent, &record.urgent.flights);
    let mut written = Vec::new(pen.memory.alloc);
    keep_crosses(&mut pen.memory, &slow, &mut written);
    keep_crosses(&mut pen.memory, &fast, &mut written);
    frame_labels(pen, &fast, small || fast.len() <= MOST_FRAMES, &mut written);
    frame_labels(pen, &slow, small, &mut written);
    let returns = routes_of(&mut pen.memory, plan, up, &record.back.flights);
    let few = small || returns.len() <= MOST_FRAMES;
    let mut written = Vec::new(pen.memory.alloc);
    keep_crosses(&mut pen.memory, &returns, &mut written);
    frame_labels(pen, &returns, few, &mut written);
}

//! Where loads and stores go to sleep.

use super::bands::drawn;
use crate::class::Class;
use crate::memory::Memory;
use crate::pen::Pen;
use crate::plan::{Band, Plan};
use crate::record::{Dot, Record};
use crate::text::Part::{Number, Words};
use crate::text::Place;
use mig_base::schedule::Side;

/// The radius of a dot with the number of its processor.
const RADIUS: u64 = 50;

/// How many dots before and after another are looked at for one that it would touch.
const NEAR: usize = 8;

/// A load or a store that goes to sleep, as it is drawn.
#[derive(Clone, Copy)]
pub(super) struct Sleep {
    place: Place,
    cpu: u8,
    radius: u64,
}

impl Sleep {
    /// Whether there is room in the dot for the number of its processor.
    pub(super) fn has_number(&self) -> bool {
        self.radius == RADIUS
    }
}

/// Whether two dots of a band would touch if both had numbers.
fn touch(plan: &Plan, band: &Band, one: &Dot, other: &Dot) -> bool {
    let apart = plan.x_at(one.line).abs_diff(plan.x_at(other.line));
    one.line != other.line
        && one.side == other.side
        && band.rows.row_of(one.page) == band.rows.row_of(other.page)
        && apart < RADIUS * 2
}

/// Whether a dot would touch one before or after it.
fn is_crowded(plan: &Plan, band: &Band, dots: &[Dot], at: usize, one: &Dot) -> bool {
    let end = at.saturating_add(NEAR).min(dots.len());
    let near = dots.get(at.saturating_sub(NEAR)..end).unwrap_or(dots);
    for other in near {
        if touch(plan, band, one, other) {
            return true;
        }
    }
    false
}

/// The dots as they are drawn: with a number where a row is high enough and no other dot of the row is near.
pub(super) fn find_sleeps(memory: &mut Memory, plan: &Plan, record: &Record) -> Vec<Sleep> {
    let mut sleeps = Vec::new(memory.alloc);
    let dots = drawn(&record.dots);
    let mut at = 0usize;
    for one in dots {
        let band = match one.side {
            Side::Source => &plan.source,
            Side::Destination => &plan.destination,
        };
        if let Some(y) = band.middle_of(one.page) {
            let has_room = band.height >= 90 && !is_crowded(plan, band, dots, at, one);
            let small = (band.height / 2).min(24);
            let sleep = Sleep {
                place: (plan.x_at(one.line), y),
                cpu: one.cpu,
                radius: if has_room { RADIUS } else { small },
            };
            memory.push(&mut sleeps, sleep);
        }
        at = at.saturating_add(1);
    }
    sleeps
}

/// Draws a dot.
pub(super) fn draw_sleep(pen: &mut Pen, sleep: &Sleep) {
    let cpu = Number(u32::from(sleep.cpu));
    pen.name(&[Words("cpu "), cpu, Words(" sleeps")]);
    if !sleep.has_number() {
        return pen.disk(Class::SmallSleep, sleep.place, sleep.radius);
    }
    pen.disk(Class::Sleep, sleep.place, sleep.radius);
    let (x, y) = sleep.place;
    pen.words(Class::BlackMiddle, (x, y.saturating_add(30)), &[cpu]);
}

//! The band of the processors: what each waits for, and how long.

use super::bands::{Caption, cell};
use crate::band::Stretch;
use crate::class::Class;
use crate::pen::Pen;
use crate::plan::Plan;
use crate::record::Record;
use crate::state::State;
use crate::text::Part::{Count, Nothing, Number, Page, Words};
use crate::text::{Part, width_of};
use crate::waits::{Total, Wait};

/// The height of a processor's bar, and where its line stands in its lane.
const BAR: u64 = 110;

const AXLE: u64 = 200;

/// The class of the words in a part of a wait.
fn word_class(state: State) -> Class {
    match state {
        State::Woken | State::OnWire | State::Request => Class::BlackMiddleEdged,
        State::Install | State::InCall => Class::BlackMiddle,
        _ => Class::WhiteMiddle,
    }
}

/// The page for which a processor waits, after a comma; nothing of a map call, which waits for none.
fn about(page: u32) -> [Part<'static>; 2] {
    match page {
        0 => [Nothing, Nothing],
        page => [Words(", page "), Page(page)],
    }
}

/// Draws a part of a wait.
fn bar(pen: &mut Pen, plan: &Plan, record: &Record, stretch: &Stretch) {
    let top = plan.processors.top_of(stretch.row);
    let extent = (top.saturating_add(AXLE - BAR / 2), BAR);
    let [before, page] = about(stretch.about);
    let whose = [Words("cpu "), Number(stretch.row), before, page];
    let word = stretch.state.look().part;
    let caption = Caption { whose, words: word };
    let frame = cell(pen, plan, record, stretch, extent, caption);
    if width_of(word.len(), 80).saturating_add(20) <= frame.width {
        let x = frame.x.saturating_add(frame.width / 2);
        let y = top.saturating_add(AXLE + 28);
        pen.word(word_class(stretch.state), (x, y), word);
    }
}

/// Whether words above a wait that end here would stand on a longer wait of the processor, among the next ones.
fn hides(plan: &Plan, wait: &Wait, later: &[Wait], end: u64) -> bool {
    for next in later.get(..8).unwrap_or(later) {
        let longer = next.cpu == wait.cpu && next.steps() > wait.steps();
        if longer && plan.x_at(next.from) < end {
            return true;
        }
    }
    false
}

/// Writes for which page and for how many steps a processor waits, above the wait, unless that is taken, a longer one needs it, or the
/// counts on the right have no room for it. Returns where the words end.
fn wait_label(pen: &mut Pen, plan: &Plan, wait: &Wait, later: &[Wait], free: u64) -> u64 {
    let words = [Page(wait.page), Words(": "), Number(wait.steps())];
    let width = pen.width(&words, 90).saturating_add(40);
    let x = plan.x_at(wait.from);
    let end = x.saturating_add(width);
    let last = plan.right().saturating_add(80);
    if x < free || end > last || hides(plan, wait, later, end) {
        return free;
    }
    let top = plan.processors.top_of(wait.cpu);
    pen.words(
        Class::FixedEdged,
        (x, top.saturating_add(AXLE - 75)),
        &words,
    );
    end
}

/// Writes for which pages and how long the processors wait, where there is room.
pub(super) fn wait_labels(pen: &mut Pen, plan: &Plan) {
    let mut free = 0u64;
    let mut cpu = 0u32;
    let mut at = 0usize;
    for wait in &plan.waits {
        at = at.saturating_add(1);
        let later = plan.waits.get(at..).unwrap_or(&[]);
        if wait.cpu != cpu {
            free = 0;
        }
        cpu = wait.cpu;
        free = wait_label(pen, plan, wait, later, free);
    }
}

/// Draws the lane of a processor, and writes how often and how long it waited, and for whom most.
fn lane(pen: &mut Pen, plan: &Plan, cpu: u32) {
    let top = plan.processors.top_of(cpu);
    let axle = top.saturating_add(AXLE);
    pen.line(Class::Axle, (plan.left, axle), (plan.right(), axle));
    let place = (plan.names_end(), axle.saturating_add(30));
    pen.words(Class::FixedEnding, place, &[Words("cpu "), Number(cpu)]);
    let total = Total::of(&plan.waits, cpu, cpu);
    let x = plan.right().saturating_add(100);
    let y = top.saturating_add(AXLE - 10);
    if total.waits == 0 {
        return pen.word(Class::Small, (x, y), "never waited");
    }
    let (state, most) = total.most();
    let sum = [
        Count(total.waits, "wait"),
        Words(", "),
        Count(total.steps, "step"),
    ];
    pen.words(Class::Plain, (x, y), &sum);
    let most = [
        Words("mostly "),
        Words(state.look().part),
        Words(": "),
        Count(most, "step"),
    ];
    pen.words(Class::Small, (x, y.saturating_add(105)), &most);
}

/// Draws the lanes of the processors.
pub(super) fn lanes(pen: &mut Pen, plan: &Plan, record: &Record) {
    let top = plan.processors.top.saturating_sub(20);
    pen.word(Class::Heading, (100, top), "processors");
    for cpu in 0..record.cpus {
        lane(pen, plan, cpu);
    }
}

/// Draws the parts of all waits.
pub(super) fn bars(pen: &mut Pen, plan: &Plan, record: &Record) {
    for stretch in &plan.processors.stretches {
        bar(pen, plan, record, stretch);
    }
}

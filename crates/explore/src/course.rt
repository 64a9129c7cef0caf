//! What is fixed for one script, and what its draws remember.

ghost use Rattle.std.specs.Prelude.{◌≡◌, ◌<◌, ◌≤◌};
ghost use Rattle.std.specs.Option.{ForSome};

use crate::plan::Plan;
use crate::random::below;
use crate::weights::Weights;
use mig_base::{Addr, LOW, LOW_PAGE, PageNo};
use rand_core::Rng;

/// What is fixed for one script.
#[derive(Clone, Copy)]
pub(crate) struct Course {
    pub weights: Weights,
    /// The processors of the guest.
    pub cpus: u8,
    /// The pages from which commands draw.
    pub pages: u16,
    /// The line from which on the migration may start.
    pub start: u64,
    /// The line up to which the guest stores to its pages in turn.
    pub fill: u64,
    /// The line from which on the source sends nothing more before it switches, and that from which on it switches as soon as it can. In
    /// between it does so once it would owe some pages.
    pub switch: u64,
    pub switch_by: u64,
    /// How many pages these are.
    pub owes: u32,
    /// The line from which on the source pushes what is left, and ends.
    pub rest: u64,
    ghost some_cpus: { 0 < cpus },
    ghost some_pages: { 0 < pages },
}

/// What the draws remember of the lines before.
#[derive(Clone, Copy)]
pub(crate) struct Memo {
    /// The number of lines before.
    pub line: u64,
    /// The page that was sent last.
    pub sent: PageNo,
    /// The page that was dequeued last, until it is pushed.
    pub asked: Option<PageNo>,
    /// The page that was installed last.
    pub installed: Option<PageNo>,
    /// Slots that were stored to lately, each where the number of its line puts it.
    pub stored: [Addr; 8],
    ghost sent_below: { sent < 0x10_0000 },
    ghost asked_below: { ForSome asked (λ page. page < 0x10_0000) },
}

/// The line at which `parts` sixteenths of a script are over.
fn sixteenths(steps: u32, parts: u32) -> u64 {
    u64::from(steps).saturating_mul(u64::from(parts)) / 16
}

/// A line of a script that lies between two sixteenths of it.
fn draw_line<R: Rng>(rng: &mut R, steps: u32, from: u8, to: u8) -> u64 {
    let from = u32::from(from);
    let over = u32::from(to).saturating_sub(from);
    sixteenths(steps, from + below(rng, over + 1))
}

/// Draws the course of a script.
pub(crate) fn draw_course<R: Rng>(rng: &mut R, plan: &Plan) -> Course
    requires cpus { 0 < plan.now.cpus }
    requires pages { 0 < plan.now.pages }
{
    let weights = plan.profile.weights();
    let switch = draw_line(rng, plan.steps, weights.switch_from, weights.switch_to);
    Course {
        weights,
        cpus: plan.cpus,
        pages: plan.pages,
        start: sixteenths(plan.steps, u32::from(weights.start)),
        fill: sixteenths(plan.steps, 2).min(u64::from(plan.pages)),
        switch,
        switch_by: switch.saturating_add(sixteenths(plan.steps, 4)),
        owes: u32::from(plan.pages).div_ceil(2).min(4),
        rest: draw_line(rng, plan.steps, weights.rest_from, weights.rest_to),
    }
}

impl Memo {
    /// What is remembered before the first line.
    pub(crate) fn new() -> Memo {
        Memo {
            line: 0,
            sent: LOW_PAGE,
            asked: None,
            installed: None,
            stored: [LOW; 8],
        }
    }

    /// The number of the next line in the file, whose first line is a comment.
    pub(crate) fn number(&self) -> u64 {
        self.line.saturating_add(2)
    }
}

//! How long processors waited, and for whom.

use crate::band::Stretch;
use crate::memory::Memory;
use crate::state::{Counts, State};

/// A wait of a processor for one page.
#[derive(Clone, Copy)]
pub(crate) struct Wait {
    pub cpu: u32,
    pub page: u32,
    /// The first line, and the one after the last.
    pub from: u32,
    pub to: u32,
    /// The steps of each state.
    pub parts: Counts,
}

impl Wait {
    /// The number of its steps.
    pub(crate) fn steps(&self) -> u32 {
        self.to.saturating_sub(self.from)
    }
}

/// Adds a stretch to the last wait if that continues with it, or a wait that begins with it.
fn add(memory: &mut Memory, waits: &mut Vec<Wait>, stretch: &Stretch) {
    let steps = stretch.to.saturating_sub(stretch.from);
    if let Some(last) = waits.last_mut()
        && last.cpu == stretch.row
        && last.page == stretch.about
        && last.to == stretch.from
    {
        last.to = stretch.to;
        last.parts.add(stretch.state, steps);
        return;
    }
    let mut parts = Counts::NONE;
    parts.add(stretch.state, steps);
    let wait = Wait {
        cpu: stretch.row,
        page: stretch.about,
        from: stretch.from,
        to: stretch.to,
        parts,
    };
    memory.push(waits, wait);
}

/// The waits of all processors, from stretches of lines: those of the first in turn, then those of the second.
pub(crate) fn find_waits(memory: &mut Memory, stretches: &[Stretch], cpus: u32) -> Vec<Wait> {
    let mut waits = Vec::new(memory.alloc);
    for cpu in 0..cpus {
        for stretch in stretches {
            if stretch.row == cpu && !matches!(stretch.state, State::InCall) {
                add(memory, &mut waits, stretch);
            }
        }
    }
    waits
}

/// Waits together.
#[derive(Clone, Copy)]
pub(crate) struct Total {
    pub waits: u32,
    pub steps: u32,
    pub parts: Counts,
}

impl Total {
    /// The waits of some processors, from one to another.
    pub(crate) fn of(waits: &[Wait], first: u32, last: u32) -> Total {
        let mut total = Total {
            waits: 0,
            steps: 0,
            parts: Counts::NONE,
        };
        for wait in waits {
            if first <= wait.cpu && wait.cpu <= last {
                total.waits = total.waits.saturating_add(1);
                total.steps = total.steps.saturating_add(wait.steps());
                for state in State::WAITS {
                    total.parts.add(state, wait.parts.of(state));
                }
            }
        }
        total
    }

    /// The state with the most steps, and how many it has.
    pub(crate) fn most(&self) -> (State, u32) {
        let mut most = (State::Blank, 0);
        for state in State::WAITS {
            let steps = self.parts.of(state);
            if steps > most.1 {
                most = (state, steps);
            }
        }
        most
    }
}

//! Which parts of a range are mapped, and by which entries.

use crate::span::{Span, mapped_range, unmapped_range};
use mig_base::{Entry, NoMemory};
use std::alloc::Global;

/// What became of a range.
#[derive(Clone, Copy)]
pub(crate) enum RangeOutcome {
    /// The entry at this index mapped it, or moved it here.
    Mapped { by: usize },
    /// The entry at this index unmapped it, or moved it away.
    Unmapped { by: usize },
    NeverMapped,
}

/// A part of a range, all of which has the same fate.
#[derive(Clone, Copy)]
pub(crate) struct Stretch {
    pub span: Span,
    pub fate: RangeOutcome,
}

/// Parts of a range, and those whose fate is not known yet.
#[derive(Drop)]
struct Search {
    found: Vec<Stretch>,
    open: Vec<Span>,
}

impl Search {
    /// Gives this fate to what is open of a range.
    fn close(&mut self, alloc: Global, range: Span, fate: RangeOutcome) -> Result<(), NoMemory> {
        let mut open = Vec::new(alloc);
        for span in self.open.iter() {
            let Some(common) = span.common(range) else {
                open.push(*span)?;
                continue;
            };
            self.found.push(Stretch { span: common, fate })?;
            if span.start < common.start {
                open.push(Span {
                    start: span.start,
                    end: common.start,
                })?;
            }
            if common.end < span.end {
                open.push(Span {
                    start: common.end,
                    end: span.end,
                })?;
            }
        }
        self.open = open;
        Ok(())
    }
}

/// The parts of a range by what became of them, in the order of their addresses.
pub(crate) fn stretches(
    alloc: Global,
    past: &[Entry],
    span: Span,
) -> Result<Vec<Stretch>, NoMemory> {
    let mut search = Search {
        found: Vec::new(alloc),
        open: Vec::new(alloc),
    };
    search.open.push(span)?;
    for (index, entry) in past.iter().enumerate().rev() {
        if let Some(range) = mapped_range(entry) {
            search.close(alloc, range, RangeOutcome::Mapped { by: index })?;
        }
        if let Some(range) = unmapped_range(entry) {
            search.close(alloc, range, RangeOutcome::Unmapped { by: index })?;
        }
        if search.open.is_empty() {
            break;
        }
    }
    search.close(alloc, span, RangeOutcome::NeverMapped)?;
    search
        .found
        .sort_unstable_by_key(|stretch| stretch.span.start);
    Ok(search.found)
}

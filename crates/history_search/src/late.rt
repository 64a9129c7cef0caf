//! Operations at a location that found an old value.

use crate::chains::{Kind, Member};
use crate::clocks::MOST;
use history::Contradiction;
use mig_base::NoMemory;
use std::alloc::Global;

/// Of the operations that had ended, the one that began last, and of those that show another value than it the one that began last.
#[derive(Clone, Copy)]
struct Latest {
    first: Option<Member>,
    other: Option<Member>,
}

impl Latest {
    /// Takes one more.
    fn take(&mut self, member: Member) {
        match self.first {
            Some(first) if first.shows == member.shows => {
                if first.begin < member.begin {
                    self.first = Some(member);
                }
            }
            Some(first) if first.begin < member.begin => {
                self.other = Some(first);
                self.first = Some(member);
            }
            Some(_) => {
                if is_later(self.other, member) {
                    self.other = Some(member);
                }
            }
            None => self.first = Some(member),
        }
    }

    /// The one that began last of those that show another value.
    fn showing_other(&self, value: u64) -> Option<Member> {
        match self.first {
            Some(first) if first.shows != value => Some(first),
            _ => self.other,
        }
    }
}

/// Whether a member began later than another, if there is one.
fn is_later(other: Option<Member>, member: Member) -> bool {
    match other {
        Some(other) => other.begin < member.begin,
        None => true,
    }
}

/// Adds a contradiction for each operation that found a value although one that shows another came between its source and it.
pub(crate) fn push_late(
    alloc: Global,
    found: &mut Vec<Contradiction>,
    members: &mut [Member],
) -> Result<(), NoMemory> {
    let mut by_end: Vec<Member> = Vec::from_slice(alloc, members)?;
    by_end.sort_unstable_by_key(|member| member.end);
    members.sort_unstable_by_key(|member| member.begin);
    let mut latest = Latest {
        first: None,
        other: None,
    };
    let mut at = 0usize;
    for reader in members.iter() {
        for member in by_end.iter().skip(at) {
            if member.end >= reader.begin {
                break;
            }
            latest.take(*member);
            at = at.saturating_add(1);
        }
        if reader.kind <= Kind::Store || found.len() >= MOST {
            continue;
        }
        if let Some(between) = latest.showing_other(reader.finds)
            && reader.source_end < between.begin
        {
            found.push(Contradiction::NoSource {
                reader: reader.index as usize,
                between: Some(between.index as usize),
            })?;
        }
    }
    Ok(())
}

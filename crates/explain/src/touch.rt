//! Which entries decide what an address holds, and whether it is mapped.

use crate::span::{Span, mapped_range, unmapped_range};
use mig_base::{Addr, Command, Entry, Errno, NoMemory, Reply};
use std::alloc::Global;

/// The most entries that are named for an address: the last ones.
const MAX_HOLDERS: usize = 8;

/// What an entry does to one address.
#[derive(Clone, Copy)]
enum Touch {
    Stored,
    /// It reads as zeros again.
    Cleared,
    /// It is mapped, with zeros.
    Mapped,
    Unmapped,
    /// An mremap has moved here what `from` held.
    Moved { from: Addr },
    /// An mremap has added it, with zeros, to the range that began at `from`.
    Grown { from: Addr },
}

/// What an mremap of a range that is now at another one does to an address.
fn touch_of_move(old: Span, new: Span, addr: Addr) -> Option<Touch> {
    if !new.contains(addr) {
        return old.contains(addr).then_some(Touch::Unmapped);
    }
    let from = old.start.saturating_add(addr.saturating_sub(new.start));
    if !old.contains(from) {
        return Some(Touch::Grown { from: old.start });
    }
    (from != addr).then_some(Touch::Moved { from })
}

/// What an entry does to what an address holds, if it leaves the mappings as they are.
fn touch_of_access(entry: &Entry, addr: Addr) -> Option<Touch> {
    match (entry.command, entry.reply) {
        (
            Command::Store {
                addr: start,
                width,
                ..
            },
            Reply::Done,
        ) => {
            Span::bytes(start, u64::from(width))
                .contains(addr)
                .then_some(Touch::Stored)
        }
        (Command::DontNeed { addr: start, len }, Reply::Done | Reply::Refused(Errno::Enomem)) => {
            Span::pages(start, len)
                .contains(addr)
                .then_some(Touch::Cleared)
        }
        _ => None,
    }
}

/// What an entry that was answered so does to an address, if anything.
fn touch_of(entry: &Entry, addr: Addr) -> Option<Touch> {
    match (mapped_range(entry), unmapped_range(entry)) {
        (Some(new), Some(old)) => touch_of_move(old, new, addr),
        (Some(new), None) => new.contains(addr).then_some(Touch::Mapped),
        (None, Some(old)) => old.contains(addr).then_some(Touch::Unmapped),
        (None, None) => touch_of_access(entry, addr),
    }
}

/// The indexes of the entries that decide what an address holds, in order: the last store to it, and those that cleared, mapped, unmapped
/// or moved it since.
pub(crate) fn holders(alloc: Global, past: &[Entry], addr: Addr) -> Result<Vec<usize>, NoMemory> {
    let mut found = Vec::new(alloc);
    let mut addr = addr;
    for (index, entry) in past.iter().enumerate().rev() {
        let Some(touch) = touch_of(entry, addr) else {
            continue;
        };
        found.push(index)?;
        match touch {
            Touch::Moved { from } => addr = from,
            Touch::Stored => break,
            _ => {}
        }
        if found.len() == MAX_HOLDERS {
            break;
        }
    }
    found.reverse();
    Ok(found)
}

/// The indexes of the entries that decide whether an address is mapped, and with which protection, in order: the one that mapped or
/// unmapped it, and those that moved it since.
pub(crate) fn mappers(alloc: Global, past: &[Entry], addr: Addr) -> Result<Vec<usize>, NoMemory> {
    let mut found = Vec::new(alloc);
    let mut addr = addr;
    for (index, entry) in past.iter().enumerate().rev() {
        match touch_of(entry, addr) {
            None | Some(Touch::Stored | Touch::Cleared) => continue,
            Some(Touch::Moved { from } | Touch::Grown { from }) => {
                found.push(index)?;
                addr = from;
            }
            Some(Touch::Mapped | Touch::Unmapped) => {
                found.push(index)?;
                break;
            }
        }
        if found.len() == MAX_HOLDERS {
            break;
        }
    }
    found.reverse();
    Ok(found)
}

/// Whether an entry that decides whether an address is mapped has unmapped it.
pub(crate) fn has_unmapped(entry: &Entry, addr: Addr) -> bool {
    match touch_of(entry, addr) {
        Some(Touch::Unmapped) => true,
        _ => false,
    }
}

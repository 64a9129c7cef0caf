//! Ranges of addresses.

use mig_base::{Addr, Command, Entry, PAGE_SIZE, Reply};

/// The addresses from `start` up to, and without, `end`.
#[derive(Clone, Copy)]
pub(crate) struct Span {
    pub start: Addr,
    pub end: Addr,
}

impl Span {
    /// `len` bytes from an address on.
    pub(crate) fn bytes(start: Addr, len: u64) -> Span {
        Span {
            start,
            end: start.saturating_add(len),
        }
    }

    /// `len` bytes from an address on, rounded up to whole pages.
    pub(crate) fn pages(start: Addr, len: u64) -> Span {
        Span::bytes(start, len.saturating_add(PAGE_SIZE - 1) & !(PAGE_SIZE - 1))
    }

    pub(crate) fn contains(self, addr: Addr) -> bool {
        self.start <= addr && addr < self.end
    }

    /// The addresses of both, if there are any.
    pub(crate) fn common(self, other: Span) -> Option<Span> {
        let start = self.start.max(other.start);
        let end = self.end.min(other.end);
        (start < end).then_some(Span { start, end })
    }

    /// How many bytes it has.
    pub(crate) fn len(self) -> u64 {
        self.end.saturating_sub(self.start)
    }
}

/// The range that an entry has mapped, or moved to.
pub(crate) fn mapped_range(entry: &Entry) -> Option<Span> {
    match (entry.command, entry.reply) {
        (Command::Mmap { addr_len, .. }, Reply::At(start)) => Some(Span::pages(start, addr_len)),
        (Command::Mremap { new_len, .. }, Reply::At(start)) => Some(Span::pages(start, new_len)),
        _ => None,
    }
}

/// The range that an entry has unmapped, or moved away.
pub(crate) fn unmapped_range(entry: &Entry) -> Option<Span> {
    match (entry.command, entry.reply) {
        (Command::Munmap { addr, len }, Reply::Done) => Some(Span::pages(addr, len)),
        (Command::Mremap { addr, old_len, .. }, Reply::At(_)) => Some(Span::pages(addr, old_len)),
        _ => None,
    }
}

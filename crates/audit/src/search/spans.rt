//! Calls by the bytes that they change, in the order of their ends.

use call_log::log_call::LogCall;
use foundation::NoMemory;
use std::alloc::Global;

/// Whose bytes.
#[derive(Clone, Copy, PartialEq, Eq)]
pub(crate) enum Owner {
    Space(u32),
    Object(u64),
}

/// A page by its first byte, with its object and that one's address space.
#[derive(Clone, Copy)]
pub(crate) struct ObjectPage {
    pub(crate) object: u64,
    pub(crate) space: u32,
    pub(crate) addr: u64,
}

/// The bytes of a call, by its place in the log.
#[derive(Clone, Copy)]
struct Span {
    call: u32,
    end: u32,
    begin: u32,
    /// The first line at which it or one after it begins.
    first_begin: u32,
    of: Owner,
    start: u64,
    len: u64,
}

/// Those of calls that returned.
#[derive(Drop)]
pub(crate) struct Spans(Vec<Span>);

impl Spans {
    pub(crate) fn new(alloc: Global) -> Spans {
        Spans(Vec::new(alloc))
    }

    /// Adds a call that ends after all that were added, by its first byte and their number.
    pub(crate) fn add(
        &mut self,
        place: u32,
        call: &LogCall,
        of: Owner,
        bytes: (u64, u64),
    ) -> Result<(), NoMemory> {
        let (start, len) = bytes;
        self.0.push(Span {
            call: place,
            end: call.end,
            begin: call.begin,
            first_begin: call.begin,
            of,
            start,
            len,
        })?;
        Ok(())
    }

    /// Notes with each call the first line at which it or one after it begins.
    pub(crate) fn note_begins(&mut self) {
        let mut first = u32::MAX;
        for span in self.0.iter_mut().rev() {
            first = first.min(span.begin);
            span.first_begin = first;
        }
    }

    /// Whether a byte may have been changed by a call that ends at a line or after it, and begins before another line.
    pub(crate) fn has(&self, of: Owner, addr: u64, from: u32, until: u32) -> bool {
        self.next(of, addr, until, self.first(from)).is_some()
    }

    /// The place of the first call that ends at a line or after it.
    pub(crate) fn first(&self, from: u32) -> usize {
        self.0.partition_point(|span| span.end < from)
    }

    /// The first of these calls from a place of the list on, with the place after it.
    pub(crate) fn next(
        &self,
        of: Owner,
        addr: u64,
        until: u32,
        first: usize,
    ) -> Option<(u32, usize)> {
        for place in first..self.0.len() {
            let span = self.0.get(place)?;
            if span.first_begin >= until {
                return None;
            }
            let is_in = span.of == of && span.start <= addr && addr - span.start < span.len;
            if span.begin < until && is_in {
                return Some((span.call, place.saturating_add(1)));
            }
        }
        None
    }

    /// The same of a page, by calls on its object or of its space.
    pub(crate) fn has_any(&self, at: ObjectPage, from: u32, until: u32) -> bool {
        self.has(Owner::Object(at.object), at.addr, from, until)
            || self.has(Owner::Space(at.space), at.addr, from, until)
    }
}

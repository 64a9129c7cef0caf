//! Which map call under way an event is of, and which one an object has refused calls for.

use crate::needs::CallFilter;
use crate::polls::NEAR;
use crate::search::Search;
use crate::tasks::{Task, others};
use call_log::log_call::LogCall;
use call_log::pages::{PageSize, Range};
use foundation::NoMemory;
use uffd_log::{Call, Message};

/// MAP_FIXED.
const FIXED: u64 = 0x10;

/// Whether an address is that of the pages that a call moves.
fn moves_from(call: &LogCall, from: u64) -> bool {
    match call.call {
        Call::Mremap { addr, .. } => addr == from,
        _ => false,
    }
}

/// Whether a call may unmap registered pages: an mmap does with MAP_FIXED alone.
fn may_unmap(call: &LogCall) -> bool {
    match call.call {
        Call::Mmap { flags, .. } => flags & FIXED != 0,
        Call::Munmap { .. } | Call::Mremap { .. } => true,
        _ => false,
    }
}

/// Where an mremap has moved pages.
pub(crate) fn moved_to(size: PageSize, call: &LogCall) -> Option<Range> {
    match (call.call, call.value()) {
        (Call::Mremap { new_len, .. }, Some(target)) => Some(size.rounded(target, new_len)),
        _ => None,
    }
}

/// Whether a map call changes a page of a range.
pub(crate) fn changes(size: PageSize, call: &LogCall, range: Range) -> bool {
    if let Some((start, len)) = call.bytes() {
        if size.rounded(start, len).common(range).count > 0 {
            return true;
        }
    }
    moved_to(size, call).is_some_and(|target| target.common(range).count > 0)
}

/// The line where a call ends; one that never returned ends after all others.
fn end_of(call: &LogCall) -> u32 {
    if call.end == 0 { u32::MAX } else { call.end }
}

impl Search {
    /// A map call under way has told an object: that whose event is read next, or else any. (One that takes effect too early forbids installs until its
    /// event is read.)
    pub(crate) fn make_changing(&mut self, object: u64) -> Result<(), NoMemory> {
        if self.kernel.rules.may_be_changing(object) {
            return Ok(());
        }
        self.plan(Task::ChangeByAny(object))?;
        match self.awaited(object) {
            Some(call) => self.plan(Task::Settle(call)),
            None => Ok(()),
        }
    }

    /// The map calls under way take effect, unless one has told the object.
    pub(crate) fn change_by_any(&mut self, object: u64) -> Result<(), NoMemory> {
        if self.kernel.rules.may_be_changing(object) {
            Ok(())
        } else {
            self.plan(others(CallFilter::Tellers))
        }
    }

    /// The map call under way whose event is the next that is read.
    fn awaited(&self, object: u64) -> Option<u32> {
        let first = self.index.first_read(object, self.line);
        for place in first..first.saturating_add(NEAR as usize) {
            let read = self.read_at(object, place)?;
            if read.done {
                continue;
            }
            for message in self.log.messages_of(&read) {
                if let Some(teller) = self.next_teller(object, *message) {
                    return Some(teller);
                }
            }
        }
        None
    }

    /// The line where a read begins that returns an event of a map call, if one does soon.
    pub(crate) fn told_from(&self, call: &LogCall, range: Range) -> Result<Option<u32>, NoMemory> {
        for area in &self.kernel.areas()? {
            let is_changed = area.space == u64::from(call.space)
                && area.range.common(range).count > 0;
            if is_changed {
                if let Some(line) = self.told_to_from(call, area.object) {
                    return Ok(Some(line));
                }
            }
        }
        Ok(None)
    }

    /// The same of an object.
    pub(crate) fn told_to_from(&self, call: &LogCall, object: u64) -> Option<u32> {
        let first = self.index.first_read(object, self.line);
        for place in first..first.saturating_add(NEAR as usize) {
            let read = self.read_at(object, place)?;
            let messages = self.log.messages_of(&read);
            if !read.done
                && messages
                    .iter()
                    .any(|message| self.may_tell(call, object, *message))
            {
                return Some(read.begin);
            }
        }
        None
    }

    /// The read at a place of the index, if it is of this object.
    fn read_at(&self, object: u64, place: usize) -> Option<LogCall> {
        let read = self.index.reads.get(place)?;
        if read.object == object {
            self.log.call(read.call)
        } else {
            None
        }
    }

    /// Of the map calls under way that may tell an object this the one that ends first.
    pub(crate) fn next_teller(&self, object: u64, message: Message) -> Option<u32> {
        let mut first = None;
        let mut until = u32::MAX;
        for open in &self.open {
            if self.settling.contains(&open.call) {
                continue;
            }
            if let Some(call) = self.log.call(open.call) {
                let is_before = first.is_none() || end_of(&call) < until;
                if is_before && self.may_tell(&call, object, message) {
                    first = Some(open.call);
                    until = end_of(&call);
                }
            }
        }
        first
    }

    /// Whether an event may be of a call, by its kind and its pages.
    pub(crate) fn may_tell(&self, call: &LogCall, object: u64, message: Message) -> bool {
        if self.kernel.space_of(object) != Some(call.space) {
            return false;
        }
        match message {
            Message::Fault { .. } => false,
            Message::Fork { .. } => matches!(call.call, Call::Fork),
            Message::Remap { from, .. } => moves_from(call, from),
            Message::Remove { start, end } => {
                matches!(call.call, Call::Madvise { .. }) && self.changes_within(call, start, end)
            }
            Message::Unmap { start, end } => {
                may_unmap(call) && self.changes_within(call, start, end)
            }
        }
    }

    /// Whether a map call changes a page between two addresses.
    fn changes_within(&self, call: &LogCall, start: u64, end: u64) -> bool {
        let size = self.log.size;
        changes(size, call, size.range(start, end.saturating_sub(start)))
    }
}

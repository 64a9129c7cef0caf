//! Faults that are read after a call has ended what they are of: their threads have found it before.

use crate::search::Search;
use crate::search::index::{FaultRead, message_of};
use crate::search::spans::{ObjectPage, Owner};
use call_log::log_call::{LogCall, PROTECTS};
use call_log::pages::Range;
use foundation::NoMemory;
use kernel_rules::answers::is_clearing;
use kernel_rules::fault::{find, is_protection};
use uffd_log::{Call, Message};

/// What pages no longer are after a call.
#[derive(Clone, Copy)]
enum PageCondition {
    Missing,
    Protected,
    Registered,
}

/// What the pages of a call no longer are after it.
fn ended_by(call: &LogCall) -> Option<PageCondition> {
    match call.call {
        Call::WriteProtect { mode, .. } if mode & PROTECTS == 0 => Some(PageCondition::Protected),
        Call::Madvise { advice, .. } if is_clearing(advice) => Some(PageCondition::Protected),
        Call::Mmap { .. } | Call::Munmap { .. } | Call::Mremap { .. } => Some(
            PageCondition::Registered,
        ),
        _ if call.install_mode().is_some() => Some(PageCondition::Missing),
        _ => None,
    }
}

/// Whether a fault with these flags is of what was ended.
fn is_of(ended: PageCondition, flags: u64) -> bool {
    match ended {
        PageCondition::Missing => !is_protection(flags),
        PageCondition::Protected => is_protection(flags),
        PageCondition::Registered => true,
    }
}

impl Search {
    /// A call is about to take effect: who waits at its pages for a fault that is read later has found it.
    pub(crate) fn foresee(&mut self, place: u32) -> Result<(), NoMemory> {
        let Some(call) = self.log.call(place) else {
            return Ok(());
        };
        let (Some(ended), Some(range)) = (ended_by(&call), self.log.pages_of(&call)) else {
            return Ok(());
        };
        if let Some(object) = call.object() {
            return self.foresee_range(&call, ended, object, range);
        }
        for area in &self.kernel.areas()? {
            if area.space == u64::from(call.space) {
                self.foresee_range(&call, ended, area.object, area.range.common(range))?;
            }
        }
        Ok(())
    }

    /// The same of the faults of a range of an object.
    fn foresee_range(
        &mut self,
        call: &LogCall,
        ended: PageCondition,
        object: u64,
        range: Range,
    ) -> Result<(), NoMemory> {
        let mut place = self.index.first_fault(object, range.first, self.line);
        for _ in 0..self.index.faults.len() {
            let Some(read) = self.index.faults.get(place).copied() else {
                return Ok(());
            };
            if read.object != object || !range.contains(read.page) {
                return Ok(());
            }
            place = if self.foresee_read(call, ended, read)? {
                place.saturating_add(1)
            } else {
                let next = read.page.saturating_add(1);
                self.index.first_fault(object, next, self.line)
            };
        }
        Ok(())
    }

    /// The same of one read. Whether those of the page that are read after it are to be looked at.
    fn foresee_read(
        &mut self,
        call: &LogCall,
        ended: PageCondition,
        fault: FaultRead,
    ) -> Result<bool, NoMemory> {
        let Some(read) = self.log.call(fault.call) else {
            return Ok(false);
        };
        if read.done || read.begin < self.line {
            return Ok(true);
        }
        if self.may_be_anew(call, ended, fault) {
            return Ok(false);
        }
        let Some(
            Message::Fault {
                addr,
                flags,
                thread,
            },
        ) = message_of(&self.log, fault)
        else {
            return Ok(true);
        };
        if !is_of(ended, flags) {
            return Ok(matches!(ended, PageCondition::Missing));
        }
        let access = self.access_of(fault.object, addr, flags, thread, None);
        if find(self.kernel.rules.faults(), access.thread).is_none() {
            self.step(access.seen())?;
        }
        Ok(true)
    }

    /// Whether the page of a fault may be as it was before a call, by another call that begins before the fault is read.
    fn may_be_anew(&self, call: &LogCall, ended: PageCondition, fault: FaultRead) -> bool {
        let Some(space) = self.kernel.space_of(fault.object) else {
            return true;
        };
        let at = ObjectPage {
            object: fault.object,
            space,
            addr: self.log.size.address(fault.page),
        };
        let (from, until) = (call.begin, fault.end);
        match ended {
            PageCondition::Missing => self.may_be_cleared(at, from, until),
            PageCondition::Protected => self.may_be_protected(at, fault.page, from, until),
            PageCondition::Registered => self.index.is_registered(at, from, until),
        }
    }

    /// Whether a page may be write-protected by a call that ends at a line or after it, begins before another line, and has not done so.
    fn may_be_protected(&self, at: ObjectPage, page: u64, from: u32, until: u32) -> bool {
        let protections = &self.index.protected;
        let mut first = protections.first(from);
        for _ in 0..self.log.count() {
            let of = Owner::Object(at.object);
            let Some((place, next)) = protections.next(of, at.addr, until, first) else {
                return false;
            };
            let is_done = match self.log.call(place) {
                Some(call) => call.done,
                None => true,
            };
            if !is_done && !self.kernel.rules.has_protected(u64::from(place), page) {
                return true;
            }
            first = next;
        }
        false
    }

    /// Whether a page may be missing anew by a call that ends at a line or after it, and begins before another line: a madvise clears it once its event
    /// is read.
    fn may_be_cleared(&self, at: ObjectPage, from: u32, until: u32) -> bool {
        let madvises = &self.index.cleared;
        let mut first = madvises.first(from);
        for _ in 0..self.log.count() {
            let of = Owner::Space(at.space);
            let Some((place, next)) = madvises.next(of, at.addr, until, first) else {
                return self.index.is_registered_anew(at, from, until);
            };
            let told = match self.log.call(place) {
                Some(call) => self.told_to_from(&call, at.object),
                None => None,
            };
            if told.is_none_or(|line| line < until) {
                return true;
            }
            first = next;
        }
        false
    }
}

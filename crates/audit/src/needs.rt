//! Open calls that take effect before another one, for its answer.

use crate::cases::one_page;
use crate::polls::PROTECTED_STORE;
use crate::search::index::{FaultRead, message_of};
use crate::search::spans::ObjectPage;
use crate::search::{Open, Search};
use crate::tellers::{changes, moved_to};
use call_log::log_call::{COPY_PROTECTS, LogCall, PROTECTS, has_put, is_event};
use call_log::pages::{PageSize, Range};
use kernel_rules::fault::{find, is_protection, stops};
use kernel_rules::{Fault, Phase};
use uffd_log::{Call, Errno, Message};

/// Which open calls are looked for.
#[derive(Clone, Copy)]
pub(crate) enum CallFilter {
    /// Those that wake the threads at a page of an object.
    Wakers {
        object: u64,
        page: u64,
    },
    /// Reads that return a fault of some pages of an object.
    Faults {
        object: u64,
        range: Range,
    },
    /// The same, but for those of a page that is to be protected first.
    FaultsNow {
        object: u64,
        range: Range,
    },
    /// Reads that return a fault of some pages of an object, which says that the page is missing.
    MissingFaults {
        object: u64,
        range: Range,
    },
    /// Reads that return a fault of an object, or an event, which waits to be read.
    Waiting(u64),
    /// Reads that find nothing.
    Empty(u64),
    /// Reads that return a fault of some pages of an address space, but for those that return an event of this map call, which must tell of it first.
    FaultsOfSpace {
        space: u32,
        range: Range,
        by: u32,
    },
    /// Reads that return an event.
    Events,
    /// Those that events tell of.
    Tellers,
    /// Those that were refused with EAGAIN by an object which this map call has told.
    RefusedDuring(u32),
    /// Those that may clear a page.
    Clears {
        space: u32,
        page: u64,
    },
    /// mremap, which moves pages to this one.
    MovesTo {
        space: u32,
        page: u64,
    },
    /// Those on an object.
    OfObject(u64),
    /// Registrations with an object of a page of a range.
    Registers {
        object: u64,
        range: Range,
    },
    /// Those that take the registration of a page of a range away.
    Unregisters {
        space: u32,
        range: Range,
    },
    /// Those that put a page of an object, or were to.
    Installs {
        object: u64,
        page: u64,
    },
    /// Those that put all their pages, one of an object among them.
    Puts {
        object: u64,
        page: u64,
    },
    /// Those that write-protect a page of an object, but for protections of several pages, until it is write-protected.
    Protects {
        object: u64,
        page: u64,
    },
    /// Those that put a page of a range, or take its protection away, which is protected by a call after that, as a fault shows that is read after
    /// this line.
    Protected {
        object: u64,
        range: Range,
        line: u32,
        by: u32,
    },
    /// Protections of several pages of an address space, one of them in a range, which have changed a page already.
    Protecting {
        space: u32,
        range: Range,
    },
    /// Those that put a page which loses its registration.
    PutIn {
        space: u32,
        range: Range,
    },
    /// Those that put a page of an object, or take its protection away.
    Bares {
        object: u64,
        page: u64,
    },
    /// Those that put pages of an address space, and end before this line, where the event of a map call is read: until then that forbids them.
    PutUntil {
        space: u32,
        line: u32,
    },
    /// Those that put a page which is cleared by a call that ends at this line, and is missing after it.
    PutBefore {
        space: u32,
        range: Range,
        line: u32,
    },
}

/// The calls that wake the thread of a fault.
pub(crate) fn wakers_of(fault: Fault) -> CallFilter {
    CallFilter::Wakers {
        object: fault.object,
        page: fault.page,
    }
}

/// Whether a call write-protects several pages.
fn protects_several(size: PageSize, call: &LogCall) -> bool {
    match call.call {
        Call::WriteProtect {
            start,
            len,
            mode,
            ..
        } => mode == PROTECTS && call.is_ok() && size.range(start, len).count > 1,
        _ => false,
    }
}

/// Whether a call write-protects its pages.
pub(crate) fn protects(call: &LogCall) -> bool {
    let protects = match call.call {
        Call::Copy { mode, .. } => mode & COPY_PROTECTS != 0,
        Call::WriteProtect { mode, .. } => mode == PROTECTS,
        _ => false,
    };
    protects && call.is_ok()
}

/// Whether a call puts its pages, or takes their protection away.
fn bares(call: &LogCall) -> bool {
    match call.call {
        Call::WriteProtect { mode, .. } => mode & PROTECTS == 0 && call.is_ok(),
        _ => call.install_mode().is_some() && call.is_ok(),
    }
}

/// Whether a call was refused with EAGAIN and has changed no page.
pub(crate) fn is_refused_for_now(call: &LogCall) -> bool {
    let changes = call.install_mode().is_some() || matches!(call.call, Call::WriteProtect { .. });
    changes && matches!(call.errno(), Some(Errno::Eagain)) && !has_put(call)
}

impl Search {
    /// The first open call from this place of the log on that is looked for.
    pub(crate) fn next_open(&self, wanted: CallFilter, from: u32) -> Option<u32> {
        for open in &self.open {
            if open.call < from {
                continue;
            }
            if let Some(call) = self.log.call(open.call) {
                if self.is_wanted(wanted, *open, &call) {
                    return Some(open.call);
                }
            }
        }
        None
    }

    /// Of the open protections of several pages that have not changed this one of them yet, the one that ends first.
    pub(crate) fn next_protecting(&self, object: u64, page: u64) -> Option<u32> {
        let mut first = None;
        let mut until = u32::MAX;
        for open in &self.open {
            if let Some(call) = self.log.call(open.call) {
                let is_wide = protects_several(self.log.size, &call);
                let is_one = is_wide && self.may_protect(open.call, &call, object, page);
                if is_one && call.end < until {
                    first = Some(open.call);
                    until = call.end;
                }
            }
        }
        first
    }

    /// Whether the call at a place of the log write-protects a page of an object, and has not changed it yet.
    fn may_protect(&self, place: u32, call: &LogCall, object: u64, page: u64) -> bool {
        let is_there = call.object() == Some(object) && call.covers(self.log.size, page);
        protects(call) && is_there && !self.kernel.rules.has_protected(u64::from(place), page)
    }

    /// Whether each fault that a read returns is of a thread that does not sleep there, and waits already, or its page is protected, if it is one of a
    /// write-protected page.
    fn may_be_read(&self, object: u64, messages: &[Message]) -> bool {
        for message in messages {
            if let Message::Fault {
                addr,
                flags,
                thread,
            } = *message
            {
                let page = self.log.size.number(addr);
                let is_early = is_protection(flags) && self.is_bare(object, page);
                let is_missed = is_early && !self.is_waiting(object, page, flags);
                if is_missed || self.is_asleep(object, page, thread) {
                    return false;
                }
            }
        }
        true
    }

    /// Whether a thread that the log names sleeps at a page.
    fn is_asleep(&self, object: u64, page: u64, thread: u32) -> bool {
        match find(self.kernel.rules.faults(), u64::from(thread)) {
            Some(fault) => {
                let is_there = fault.object == object && fault.page == page;
                is_there && matches!(fault.phase, Phase::Asleep)
            }
            None => false,
        }
    }

    /// The messages of an open call that are not taken.
    fn rest_of(&self, open: Open, call: &LogCall) -> &[Message] {
        let messages = self.log.messages_of(call);
        messages.get(open.taken as usize..).unwrap_or(&[])
    }

    /// Whether an open call is what is looked for.
    fn is_wanted(&self, wanted: CallFilter, open: Open, call: &LogCall) -> bool {
        let size = self.log.size;
        let place = open.call;
        match wanted {
            CallFilter::Protecting { space, range } => {
                self.kernel.rules.has_begun(u64::from(place))
                    && self.has_page_in(call, space, range)
            }
            CallFilter::Wakers { object, page } => call.wakes(size, object, page),
            CallFilter::Tellers => call.is_map_call() || matches!(call.call, Call::Fork),
            CallFilter::RefusedDuring(key) => self.is_refused_during(key, call),
            CallFilter::Clears { space, page } => self.may_clear(call, space, page),
            CallFilter::MovesTo { space, page } => call.space == space
                && moved_to(self.log.size, call).is_some_and(|to| to.contains(page)),
            CallFilter::OfObject(object) => call.object() == Some(object),
            CallFilter::Registers { object, range } => {
                call.object() == Some(object) && self.registers(call, range)
            }
            CallFilter::Unregisters { space, range } => self.unregisters(call, space, range),
            CallFilter::Protects { object, page } => {
                let may_be = self.is_bare(object, page) && !protects_several(size, call);
                may_be && self.may_protect(place, call, object, page)
            }
            CallFilter::Bares { object, page } => {
                bares(call) && call.object() == Some(object) && call.covers(size, page)
            }
            CallFilter::Protected {
                object,
                range,
                line,
                by,
            } => self.is_bared_before(call, object, range, line, by),
            _ => match call.call {
                Call::Read { .. } => self.is_wanted_read(wanted, call, self.rest_of(open, call)),
                _ => self.is_wanted_install(wanted, place, call),
            },
        }
    }

    /// The same of one that reads, with the messages that it still has to take.
    fn is_wanted_read(&self, wanted: CallFilter, call: &LogCall, messages: &[Message]) -> bool {
        let Some(object) = call.object() else {
            return false;
        };
        match wanted {
            CallFilter::Faults { object: on, range } => {
                object == on && self.has_fault(messages, range)
            }
            CallFilter::FaultsNow { object: on, range } => {
                object == on
                    && self.has_fault(messages, range)
                    && self.may_be_read(object, messages)
            }
            CallFilter::MissingFaults { object: on, range } => {
                object == on && self.has_missing_fault(messages, range)
            }
            CallFilter::Waiting(on) => object == on && self.has_waiting(object, messages),
            CallFilter::Empty(on) => object == on && call.errno() == Some(Errno::Eagain),
            CallFilter::FaultsOfSpace { space, range, by } => {
                self.kernel.space_of(object) == Some(space)
                    && self.has_fault(messages, range)
                    && !self.has_event_of(object, messages, by)
                    && !self.needs_clearing(object, messages, range, by)
            }
            CallFilter::Events => messages.iter().any(is_event),
            _ => false,
        }
    }

    /// The same of one that puts pages.
    fn is_wanted_install(&self, wanted: CallFilter, place: u32, call: &LogCall) -> bool {
        let size = self.log.size;
        if call.install_mode().is_none() {
            return false;
        }
        match wanted {
            CallFilter::Installs { object, page } => {
                call.object() == Some(object) && call.covers(size, page)
            }
            CallFilter::Puts { object, page } => {
                call.object() == Some(object) && call.is_ok() && call.covers(size, page)
            }
            CallFilter::PutIn { space, range } => self.is_put_in(call, space, range),
            CallFilter::PutUntil { space, line } => {
                call.is_ok() && self.watches_space(call, space) && 0 < call.end && call.end < line
            }
            CallFilter::PutBefore { space, range, line } => {
                self.is_put_in(call, space, range)
                    && self.is_missing_after(place, call, space, line)
            }
            _ => false,
        }
    }

    /// Whether a call registers a page of a range.
    fn registers(&self, call: &LogCall, range: Range) -> bool {
        let is_of = matches!(call.call, Call::Register { .. }) && call.is_ok();
        let pages = self.log.pages_of(call);
        is_of && pages.is_some_and(|pages| pages.common(range).count > 0)
    }

    /// Whether a call takes the registration of a page of a range away.
    fn unregisters(&self, call: &LogCall, space: u32, range: Range) -> bool {
        let is_of = match call.call {
            Call::Unregister { .. } => self.watches_space(call, space),
            Call::Mmap { .. } | Call::Munmap { .. } | Call::Mremap { .. } => call.space == space,
            _ => false,
        };
        is_of && call.is_ok() && changes(self.log.size, call, range)
    }

    /// Whether each page of a range is registered.
    pub(crate) fn are_registered(&self, space: u32, range: Range) -> bool {
        for number in range.first..range.end() {
            if self.kernel.page(space, number).is_none() {
                return false;
            }
        }
        true
    }

    /// Whether a page of a call is in a range of an address space.
    fn has_page_in(&self, call: &LogCall, space: u32, range: Range) -> bool {
        let pages = self.log.pages_of(call);
        self.watches_space(call, space) && pages.is_some_and(|pages| pages.common(range).count > 0)
    }

    fn watches_space(&self, call: &LogCall, space: u32) -> bool {
        match call.object() {
            Some(object) => self.kernel.space_of(object) == Some(space),
            None => false,
        }
    }

    /// Whether a message is a fault of some pages.
    fn has_fault(&self, messages: &[Message], range: Range) -> bool {
        let size = self.log.size;
        messages.iter().any(|message| match *message {
            Message::Fault { addr, .. } => range.contains(size.number(addr)),
            _ => false,
        })
    }

    /// Whether one is a fault of some pages which says that the page is missing.
    fn has_missing_fault(&self, messages: &[Message], range: Range) -> bool {
        let size = self.log.size;
        messages.iter().any(|message| match *message {
            Message::Fault { addr, flags, .. } => {
                !is_protection(flags) && range.contains(size.number(addr))
            }
            _ => false,
        })
    }

    /// Whether one is a fault that waits to be read, or an event that may.
    fn has_waiting(&self, object: u64, messages: &[Message]) -> bool {
        let has_unread = self.kernel.rules.has_unread(object);
        messages.iter().any(|message| match *message {
            Message::Fault { addr, flags, .. } => {
                self.is_waiting(object, self.log.size.number(addr), flags)
            }
            _ => has_unread && self.kernel.teller(object, *message).is_some(),
        })
    }

    /// Whether a fault waits to be read.
    fn is_waiting(&self, object: u64, page: u64, flags: u64) -> bool {
        self.kernel.rules.faults().iter().any(|fault| {
            let is_there = fault.object == object && fault.page == page && fault.flags == flags;
            is_there && matches!(fault.phase, Phase::Unread)
        })
    }

    /// Whether one is an event that may be of a map call.
    fn has_event_of(&self, object: u64, messages: &[Message], by: u32) -> bool {
        match self.log.call(by) {
            Some(teller) => messages
                .iter()
                .any(|message| self.may_tell(&teller, object, *message)),
            None => false,
        }
    }

    /// Whether one is a fault of a page which is there until this call clears it.
    fn needs_clearing(&self, object: u64, messages: &[Message], range: Range, by: u32) -> bool {
        let (Some(space), Some(call)) = (self.kernel.space_of(object), self.log.call(by)) else {
            return false;
        };
        let clears = matches!(call.call, Call::Madvise { .. });
        clears
            && messages.iter().any(|message| match *message {
                Message::Fault { addr, flags, .. } => {
                    let page = self.log.size.number(addr);
                    let is_missing = !is_protection(flags) && range.contains(page);
                    is_missing
                        && self.is_there(space, page)
                        && !self.is_waiting(object, page, flags)
                }
                _ => false,
            })
    }

    /// Whether a call was refused with EAGAIN by an object which a map call has told.
    fn is_refused_during(&self, key: u32, call: &LogCall) -> bool {
        match call.object() {
            Some(object) => is_refused_for_now(call)
                && self.kernel.rules.tells_object(u64::from(key), object),
            None => false,
        }
    }

    /// Whether a call is a madvise of this page.
    fn may_clear(&self, call: &LogCall, space: u32, page: u64) -> bool {
        let is_of = matches!(call.call, Call::Madvise { .. }) && call.space == space;
        is_of && changes(self.log.size, call, one_page(page))
    }

    /// The first page that a call of an open object puts, with its address space.
    pub(crate) fn first_page(&self, call: &LogCall) -> Option<(u32, u64)> {
        let space = self.kernel.space_of(call.object()?)?;
        Some((space, self.log.pages_of(call)?.first))
    }

    /// Whether a call puts pages, or takes their protection away, and another one protects one of these after it, in a range: the next fault of that
    /// page that is read says so.
    fn is_bared_before(
        &self,
        call: &LogCall,
        object: u64,
        range: Range,
        line: u32,
        by: u32,
    ) -> bool {
        let (Some(pages), true) = (
            self.log.pages_of(call),
            bares(call) && call.object() == Some(object),
        ) else {
            return false;
        };
        let common = pages.common(range);
        for page in common.first..common.end() {
            let is_next = self.is_next_protected(object, page, line) == Some(true);
            if is_next && !self.kernel.rules.has_protected(u64::from(by), page) {
                return true;
            }
        }
        false
    }

    /// Whether the next fault of a page that is read after a line says that it is write-protected, if one is read.
    fn is_next_protected(&self, object: u64, page: u64, line: u32) -> Option<bool> {
        let fault = self.next_fault(object, page, line)?;
        match message_of(&self.log, fault) {
            Some(Message::Fault { flags, .. }) => Some(is_protection(flags)),
            _ => None,
        }
    }

    /// Whether a call puts a page of a range that loses its registration, or its bytes, by another call: it may only have been put before.
    fn is_put_in(&self, call: &LogCall, space: u32, range: Range) -> bool {
        match self.first_page(call) {
            Some((of, page)) => has_put(call) && of == space && range.contains(page),
            None => false,
        }
    }

    /// Whether the page of a call was missing after a line, by the next fault that is read or the next call that puts it, and nothing took it away
    /// meanwhile.
    fn is_missing_after(&self, place: u32, call: &LogCall, space: u32, line: u32) -> bool {
        let (Some(object), Some((_, page))) = (call.object(), self.first_page(call)) else {
            return false;
        };
        let at = ObjectPage {
            object,
            space,
            addr: self.log.size.address(page),
        };
        let from = line.saturating_add(1);
        let fault = self.next_fault(object, page, line);
        let put = self.index.next_put(place, object, page, line);
        match (fault, put) {
            (_, Some(put)) if fault.is_none_or(|fault| put.end < fault.end) => {
                !self.index.is_cleared(at, from, put.end)
            }
            (Some(fault), _) => {
                let is_missing = self.is_next_protected(object, page, line) == Some(false);
                is_missing && !self.index.is_cleared(at, from, fault.end)
            }
            _ => false,
        }
    }

    /// The next read of a fault of a page after a line.
    fn next_fault(&self, object: u64, page: u64, line: u32) -> Option<FaultRead> {
        let first = self.index.first_fault(object, page, line);
        let fault = self.index.faults.get(first).copied()?;
        if fault.object == object && fault.page == page {
            Some(fault)
        } else {
            None
        }
    }

    /// Whether a page is registered, and no store there finds it write-protected.
    pub(crate) fn is_bare(&self, object: u64, number: u64) -> bool {
        match self.kernel.space_of(object) {
            Some(space) => match self.kernel.page(space, number) {
                Some(page) => !stops(object, PROTECTED_STORE, page),
                None => false,
            },
            None => false,
        }
    }
}

//! What a search looks up in a log: reads by their objects and pages, and what takes registered pages away.

use crate::needs::protects;
use crate::search::spans::{ObjectPage, Owner, Spans};
use call_log::log::Log;
use call_log::log_call::LogCall;
use foundation::NoMemory;
use std::alloc::Global;
use uffd_log::{Call, Message};

/// A read that returns a fault of a page, or a call that puts one.
#[derive(Clone, Copy, PartialEq, Eq, PartialOrd, Ord)]
pub(crate) struct FaultRead {
    pub(crate) object: u64,
    pub(crate) page: u64,
    /// The line where it ends.
    pub(crate) end: u32,
    pub(crate) call: u32,
    /// Of a read: the place of its message among its others.
    pub(crate) message: u32,
}

/// A read of an object.
#[derive(Clone, Copy, PartialEq, Eq, PartialOrd, Ord)]
pub(crate) struct ObjectRead {
    pub(crate) object: u64,
    /// The line where it ends.
    pub(crate) end: u32,
    pub(crate) call: u32,
}

/// Each list in its order.
#[derive(Drop)]
pub(crate) struct Index {
    pub(crate) faults: Vec<FaultRead>,
    /// The calls that put pages, by the first of these.
    puts: Vec<FaultRead>,
    pub(crate) reads: Vec<ObjectRead>,
    /// The calls that may clear pages of an address space.
    pub(crate) cleared: Spans,
    /// Those that take their registration away.
    gone: Spans,
    /// Those that register pages with an object, or move registered pages in an address space.
    registered: Spans,
    /// Those that write-protect pages of an object.
    pub(crate) protected: Spans,
}

/// The bytes that an mremap maps or unmaps beside its old place: its target, or what it adds or cuts off where it moves nothing.
fn changed_by_mremap(call: &LogCall) -> Option<(u64, u64)> {
    let Call::Mremap {
        addr,
        old_len,
        new_len,
        ..
    } = call.call
    else {
        return None;
    };
    let target = call.value()?;
    if target != addr {
        return Some((target, new_len));
    }
    let end = old_len.min(new_len);
    Some((
        addr.saturating_add(end),
        old_len.max(new_len).saturating_sub(end),
    ))
}

impl Index {
    pub(crate) fn new(alloc: Global, log: &Log) -> Result<Index, NoMemory> {
        let mut index = Index {
            faults: Vec::new(alloc),
            puts: Vec::new(alloc),
            reads: Vec::new(alloc),
            cleared: Spans::new(alloc),
            gone: Spans::new(alloc),
            registered: Spans::new(alloc),
            protected: Spans::new(alloc),
        };
        for place in &log.ends {
            if let Some(call) = log.call(*place) {
                index.add(log, *place, &call)?;
            }
        }
        index.faults.sort()?;
        index.puts.sort()?;
        index.reads.sort()?;
        index.cleared.note_begins();
        index.gone.note_begins();
        index.registered.note_begins();
        index.protected.note_begins();
        Ok(index)
    }

    /// Adds a call that returned.
    fn add(&mut self, log: &Log, place: u32, call: &LogCall) -> Result<(), NoMemory> {
        self.add_span(place, call)?;
        self.add_put(log, place, call)?;
        let Call::Read { on, .. } = call.call else {
            return Ok(());
        };
        self.reads.push(ObjectRead {
            object: on.object,
            end: call.end,
            call: place,
        })?;
        let mut message = 0u32;
        for found in log.messages_of(call) {
            if let Message::Fault { addr, .. } = *found {
                self.faults.push(FaultRead {
                    object: on.object,
                    page: log.size.number(addr),
                    end: call.end,
                    call: place,
                    message,
                })?;
            }
            message = message.saturating_add(1);
        }
        Ok(())
    }

    /// Adds a call that has put pages.
    fn add_put(&mut self, log: &Log, place: u32, call: &LogCall) -> Result<(), NoMemory> {
        let (Some(object), Some(put)) = (call.object(), call.done_pages(log.size)) else {
            return Ok(());
        };
        if call.install_mode().is_some() {
            self.puts.push(FaultRead {
                object,
                page: put.first,
                end: call.end,
                call: place,
                message: 0,
            })?;
        }
        Ok(())
    }

    /// Adds the pages that a call has changed.
    fn add_span(&mut self, place: u32, call: &LogCall) -> Result<(), NoMemory> {
        let (Some(bytes), true) = (call.bytes(), call.is_ok()) else {
            return Ok(());
        };
        let space = Owner::Space(call.space);
        if let Some(changed) = changed_by_mremap(call) {
            self.registered.add(place, call, space, changed)?;
            self.gone.add(place, call, space, changed)?;
            if call.value() == Some(bytes.0) {
                return Ok(());
            }
        }
        let Some(object) = call.object() else {
            return match call.call {
                Call::Madvise { .. } => self.cleared.add(place, call, space, bytes),
                _ => self.gone.add(place, call, space, bytes),
            };
        };
        match call.call {
            Call::Unregister { .. } => self.gone.add(place, call, Owner::Object(object), bytes),
            Call::Register { .. } => self
                .registered
                .add(place, call, Owner::Object(object), bytes),
            _ if protects(call) => self
                .protected
                .add(place, call, Owner::Object(object), bytes),
            _ => Ok(()),
        }
    }

    /// The place of the first read of an object that ends at a line or after it.
    pub(crate) fn first_read(&self, object: u64, line: u32) -> usize {
        self.reads
            .partition_point(|read| is_read_before(read, object, line))
    }

    /// The place of the first read of a page's fault that ends after a line.
    pub(crate) fn first_fault(&self, object: u64, page: u64, line: u32) -> usize {
        self.faults
            .partition_point(|read| is_fault_before(read, object, page, line))
    }

    /// The first call other than one that puts a page, and ends after a line.
    pub(crate) fn next_put(
        &self,
        call: u32,
        object: u64,
        page: u64,
        line: u32,
    ) -> Option<FaultRead> {
        let first = self
            .puts
            .partition_point(|put| is_fault_before(put, object, page, line));
        for put in self.puts.get(first..).unwrap_or(&[]) {
            if put.object != object || put.page != page {
                return None;
            }
            if put.call != call {
                return Some(*put);
            }
        }
        None
    }

    /// Whether a page may be registered by a call that ends at a line or after it, and begins before another line.
    pub(crate) fn is_registered(&self, at: ObjectPage, from: u32, until: u32) -> bool {
        self.registered.has_any(at, from, until)
    }

    /// The same of calls that take its registration away.
    pub(crate) fn is_gone(&self, at: ObjectPage, from: u32, until: u32) -> bool {
        self.gone.has_any(at, from, until)
    }

    /// The same of calls that take its registration away, and of others that register it.
    pub(crate) fn is_registered_anew(&self, at: ObjectPage, from: u32, until: u32) -> bool {
        self.is_gone(at, from, until) && self.is_registered(at, from, until)
    }

    /// The same of calls that make it missing: it is cleared, or registered anew.
    pub(crate) fn is_cleared(&self, at: ObjectPage, from: u32, until: u32) -> bool {
        self.cleared
            .has(Owner::Space(at.space), at.addr, from, until)
            || self.is_registered_anew(at, from, until)
    }
}

/// The message of a read that returns a fault.
pub(crate) fn message_of(log: &Log, fault: FaultRead) -> Option<Message> {
    let read = log.call(fault.call)?;
    log.messages_of(&read).get(fault.message as usize).copied()
}

fn is_read_before(read: &ObjectRead, object: u64, line: u32) -> bool {
    read.object < object || (read.object == object && read.end < line)
}

fn is_fault_before(read: &FaultRead, object: u64, page: u64, line: u32) -> bool {
    if read.object != object {
        return read.object < object;
    }
    read.page < page || (read.page == page && read.end <= line)
}

//! What a log has said of its processes so far: calls that have not returned, times, and descriptors.

use crate::wrong::CallFault;
use foundation::NoMemory;
use indexmap::{IndexMap, IndexSet};
use std::alloc::Global;
use uffd_log::{Call, Descriptor};

/// A call of a process, by its number there.
#[derive(Clone, Copy, PartialEq, Eq, Hash)]
struct Numbered {
    pid: u32,
    number: u64,
}

/// A thread, as the log names it.
#[derive(Clone, Copy, PartialEq, Eq, Hash)]
struct Thread {
    pid: u32,
    tid: u32,
}

/// A descriptor of a process, as an object's.
#[derive(Clone, Copy, PartialEq, Eq, Hash)]
struct Bound {
    pid: u32,
    fd: u32,
    object: u64,
}

/// A call that has not returned.
#[derive(Clone, Copy)]
pub(crate) struct OpenCall {
    pub(crate) call: Call,
    /// Its place in the log.
    pub(crate) place: u32,
    pub(crate) line: u32,
    pub(crate) tid: u32,
    /// How many messages or runs of pages it has so far.
    pub(crate) found: u32,
    /// The end of its last run of pages.
    pub(crate) above: u64,
}

#[derive(Drop)]
pub(crate) struct ProcessTable {
    open: IndexMap<Numbered, OpenCall>,
    /// The number of each thread's last call.
    last: IndexMap<Thread, u64>,
    /// How often each descriptor was bound to an object.
    bound: IndexMap<Bound, u64>,
    /// The objects that were in the log.
    objects: IndexSet<u64>,
    times: IndexMap<u32, u64>,
}

impl ProcessTable {
    pub(crate) fn new(alloc: Global) -> ProcessTable {
        ProcessTable {
            open: IndexMap::new(alloc),
            last: IndexMap::new(alloc),
            bound: IndexMap::new(alloc),
            objects: IndexSet::new(alloc),
            times: IndexMap::new(alloc),
        }
    }

    /// Notes the time of a line of a thread, or of the whole log, which is 0. What is wrong with it, if anything.
    pub(crate) fn note_time(
        &mut self,
        whose: u32,
        time: u64,
    ) -> Result<Option<CallFault>, NoMemory> {
        let last = self.times.get(&whose).copied().unwrap_or(0);
        if time < last {
            return Ok(Some(CallFault::TimeBack { last, time }));
        }
        self.times.insert(whose, time)?;
        Ok(None)
    }

    // Calls

    /// A call begins. What is wrong with its number, if anything.
    pub(crate) fn begin(
        &mut self,
        pid: u32,
        number: u64,
        call: OpenCall,
    ) -> Result<Option<CallFault>, NoMemory> {
        let key = Numbered { pid, number };
        if let Some(open) = self.open.get(&key) {
            return Ok(Some(CallFault::StillOpen {
                number,
                line: open.line,
            }));
        }
        self.open.insert(key, call)?;
        let thread = Thread { pid, tid: call.tid };
        let last = self.last.get(&thread).copied();
        if let Some(last) = last {
            if number <= last {
                return Ok(Some(CallFault::NotAbove { number, last }));
            }
        }
        self.last.insert(thread, number)?;
        Ok(None)
    }

    /// An open call of a thread.
    pub(crate) fn open_call(&self, pid: u32, tid: u32, number: u64) -> Result<OpenCall, CallFault> {
        match self.open.get(&Numbered { pid, number }) {
            Some(call) if call.tid == tid => Ok(*call),
            Some(call) => Err(CallFault::OtherThread {
                number,
                line: call.line,
            }),
            None => Err(CallFault::NoCall(number)),
        }
    }

    /// An open call has a message more, or a run of pages that ends at this address.
    pub(crate) fn note_found(&mut self, pid: u32, number: u64, above: u64) {
        if let Some(open) = self.open.get_mut(&Numbered { pid, number }) {
            open.found = open.found.saturating_add(1);
            open.above = above;
        }
    }

    /// A call has returned.
    pub(crate) fn end(&mut self, pid: u32, number: u64) {
        self.open.swap_remove(&Numbered { pid, number });
    }

    /// A process begins anew.
    pub(crate) fn renew(&mut self, pid: u32) {
        self.open.retain(|key, _| key.pid != pid);
        self.last.retain(|key, _| key.pid != pid);
        self.bound.retain(|key, _| key.pid != pid);
    }

    // Descriptors

    pub(crate) fn is_bound(&self, pid: u32, on: Descriptor) -> bool {
        self.bound.contains_key(&binding(pid, on))
    }

    pub(crate) fn bind(&mut self, pid: u32, on: Descriptor) -> Result<(), NoMemory> {
        let key = binding(pid, on);
        let times = self.bound.get(&key).copied().unwrap_or(0);
        self.bound.insert(key, times.saturating_add(1))?;
        self.objects.insert(on.object)?;
        Ok(())
    }

    /// A descriptor is no longer an object's.
    pub(crate) fn release(&mut self, pid: u32, on: Descriptor) -> Result<(), NoMemory> {
        let key = binding(pid, on);
        let times = self.bound.get(&key).copied().unwrap_or(0);
        if times > 1 {
            self.bound.insert(key, times - 1)?;
        } else {
            self.bound.swap_remove(&key);
        }
        Ok(())
    }

    /// The same, however often it was bound.
    pub(crate) fn drop_all(&mut self, pid: u32, on: Descriptor) {
        self.bound.swap_remove(&binding(pid, on));
    }

    /// A descriptor is an object's, and of nothing else.
    pub(crate) fn replace(&mut self, pid: u32, on: Descriptor) -> Result<(), NoMemory> {
        self.bound
            .retain(|key, _| key.pid != pid || key.fd != on.fd);
        self.bind(pid, on)
    }

    /// An object of a descriptor.
    pub(crate) fn held(&self, pid: u32, fd: u32) -> Option<u64> {
        for (key, _) in self.bound.iter() {
            if key.pid == pid && key.fd == fd {
                return Some(key.object);
            }
        }
        None
    }

    /// Whether an object has a descriptor.
    pub(crate) fn has_descriptor(&self, object: u64) -> bool {
        for (key, _) in self.bound.iter() {
            if key.object == object {
                return true;
            }
        }
        false
    }

    /// Whether an object was in the log.
    pub(crate) fn is_known(&self, object: u64) -> bool {
        self.objects.contains(&object)
    }

    /// Whether a close of a descriptor of a process is under way.
    pub(crate) fn is_closing(&self, pid: u32, fd: u32) -> bool {
        for (key, open) in self.open.iter() {
            if let Call::Close { on } = open.call {
                if key.pid == pid && on.fd == fd {
                    return true;
                }
            }
        }
        false
    }
}

fn binding(pid: u32, on: Descriptor) -> Bound {
    Bound {
        pid,
        fd: on.fd,
        object: on.object,
    }
}

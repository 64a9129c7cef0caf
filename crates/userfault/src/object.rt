//! The type that callers see: one userfault object.

ghost use Rattle.std.specs.Prelude.{◌≡◌, true, false, ℕ, ◌+◌, ◌-◌, ◌≤◌, ◌↔◌, if◌then◌else◌, Some, None, [], take, OnOk, OnErr, IfOk};
ghost use Rattle.std.specs.Option.{option_map};
ghost use Rattle.foundation.specs.Ranges.{in_range};
ghost use Rattle.mig_base.specs.declared.TheConstants.{HIGH_PAGE};
ghost use Rattle.mig_base.specs.Userfault as machine;
ghost use Rattle.foundation.specs.Tests.{is_every};
ghost use Rattle.userfault.specs.Modes.{mode_of, has_mode_of};
ghost use Rattle.mig_base.specs.Userfault.{is_watched};

pub mod moves;
mod runs;

use crate::modes::{Mode, has_all, is_one_run, registered};
use crate::noted::{Noted, copy_queue, is_same_queue, waits};
use mig_base::flags::{THREAD_ID_BIT, has_bit};
use mig_base::{Addr, Message, NoMemory, PageNo, PageSet};
use std::alloc::Global;
use std::collections::VecDeque;
use std::marker::Model;

/// A userfault object. Pages lie below `HIGH_PAGE`, and a processor is named by its number.
///
/// A call that returns `NoMemory` leaves the object as it was, and may succeed when it is called again. The calls that cannot
/// return it take no memory.
#[derive(Drop)]
pub struct Userfault {
    alloc: Global,
    enabled: bool,
    features: u64,
    missing: PageSet,
    protect: PageSet,
    faults: VecDeque<Noted>,
    events: VecDeque<Noted>,
}

impl Model for Userfault {
    ghost use Rattle.mig_base.specs.Userfault.{Object};
    ghost use Rattle.userfault.specs.Codes.{coded_object};

    ghost Value = { Object };

    ghost coded = { coded_object };

    ghost view = { λ a. record { enabled = a.enabled; features = a.features; missing = a.missing; protect = a.protect; faults = a.faults.items; events = a.events.items } };
}

impl Userfault {
    /// An object that is not enabled, has no registered page and no message. It takes no memory.
    pub fn new(alloc: Global) -> Self
        ensures { result ≡ machine.fresh_object }
    {
        Userfault {
            alloc,
            enabled: false,
            features: 0,
            missing: PageSet::new(alloc),
            protect: PageSet::new(alloc),
            faults: VecDeque::new(alloc),
            events: VecDeque::new(alloc),
        }
    }

    /// Makes the handshake of UFFDIO_API. `features` has one bit for each feature that is asked for.
    pub fn enable(&mut self, features: u64)
        ensures { self.new ≡ machine.enabled_with self.old features }
    {
        self.enabled = true;
        self.features = features;
    }

    /// The features that were asked for in the handshake, if it was made.
    pub fn features(&self) -> Option<u64>
        ensures { result ≡ (if self.now.enabled then Some self.now.features else None) }
    {
        self.enabled.then_some(self.features)
    }

    /// Registers the `count` pages from `first` on, as UFFDIO_REGISTER: a page that already has all modes of `mode` keeps what it
    /// has, any other page gets exactly `mode`. If `mode` has neither mode, nothing changes. `NoMemory` changes nothing.
    pub fn register(&mut self, first: PageNo, count: u32, mode: Mode) -> Result<(), NoMemory>
        requires { first + count ≤ HIGH_PAGE }
        ensures ok { OnOk result (self.new ≡
            machine.registered_where self.old (in_range first count) (mode_of mode)) }
        ensures err { OnErr result (self.new ≡ self.old) }
    {
        let missing = registered(
            &self.missing,
            &self.protect,
            first,
            count,
            mode.missing,
            mode.protect,
        )?;
        let protect = registered(
            &self.protect,
            &self.missing,
            first,
            count,
            mode.protect,
            mode.missing,
        )?;
        self.missing = missing;
        self.protect = protect;
        Ok(())
    }

    /// Ends the registration of the `count` pages from `first` on, as UFFDIO_UNREGISTER.
    pub fn unregister(&mut self, first: PageNo, count: u32)
        requires { first + count ≤ HIGH_PAGE }
        ensures { self.new ≡ machine.unregistered self.old first count }
    {
        self.missing.remove_range(first, count);
        self.protect.remove_range(first, count);
    }

    /// Forgets the registration of the `count` pages from `first` on, because they were unmapped or replaced.
    pub fn forget_range(&mut self, first: PageNo, count: u32)
        requires { first + count ≤ HIGH_PAGE }
        ensures { self.new ≡ machine.unregistered self.old first count }
    {
        self.unregister(first, count);
    }

    /// The mode of a page. Any page number is allowed.
    pub fn mode_at(&self, page: PageNo) -> Mode
        ensures { mode_of result ≡ machine.mode_at self.now page }
    {
        Mode {
            missing: self.missing.contains(page),
            protect: self.protect.contains(page),
        }
    }

    /// Whether any of the `count` pages from `first` on is registered.
    pub fn is_any_registered(&self, first: PageNo, count: u32) -> bool
        requires { first + count ≤ HIGH_PAGE }
        ensures { result ≡ is_watched self.now first count }
    {
        let end = first + count;
        self.missing.next_before(first, true, end) < end
            || self.protect.next_before(first, true, end) < end
    }

    /// Whether each of the `count` pages from `first` on has all modes of `mode`.
    pub fn has_modes(&self, first: PageNo, count: u32, mode: Mode) -> bool
        requires { first + count ≤ HIGH_PAGE }
        ensures { result ≡ is_every (λ page.
            machine.has_modes self.now page (mode_of mode)) first count }
    {
        let missing = has_all(&self.missing, first, count, mode.missing);
        let protect = has_all(&self.protect, first, count, mode.protect);
        missing && protect
    }

    /// Whether the `count` pages from `first` on all have the mode of the first, which may be no mode.
    pub fn has_one_mode(&self, first: PageNo, count: u32) -> bool
        requires { first + count ≤ HIGH_PAGE }
        ensures { result ≡ is_every (has_mode_of self.now first) first count }
    {
        let missing = is_one_run(&self.missing, first, count);
        let protect = is_one_run(&self.protect, first, count);
        missing && protect
    }

    /// Queues the page fault of processor `cpu` at `addr` of a missing page: a store if `write`, else a load. If such a fault at this
    /// address is already unread, it stays the only one and keeps its thread, whichever processor caused it. The call searches all
    /// unread faults. `NoMemory` only if there is no such fault; it changes nothing.
    pub fn queue_fault(&mut self, addr: Addr, write: bool, cpu: u8) -> Result<(), NoMemory>
        ensures ok { OnOk result (self.new ≡ machine.fault_queued self.old addr write false cpu) }
        ensures memory { OnErr result (machine.waits_fault self.old.faults addr false ≡ false) }
        ensures err { OnErr result (self.new ≡ self.old) }
    {
        if waits(&self.faults, addr, false) {
            return Ok(());
        }
        let message = Message::PageFault {
            addr,
            write,
            wp: false,
            tid: self.thread_id(cpu),
        };
        self.faults.push_back(Noted::new(message, cpu))?;
        Ok(())
    }

    /// Queues the page fault of a store of processor `cpu` at `addr` to a write-protected page. An unread fault of the same kind and
    /// address stays the only one, as with [`queue_fault`](Userfault::queue_fault). The call searches all unread faults. `NoMemory`
    /// only if there is no such fault; it changes nothing.
    pub fn queue_protect_fault(&mut self, addr: Addr, cpu: u8) -> Result<(), NoMemory>
        ensures ok { OnOk result (self.new ≡ machine.fault_queued self.old addr true true cpu) }
        ensures memory { OnErr result (machine.waits_fault self.old.faults addr true ≡ false) }
        ensures err { OnErr result (self.new ≡ self.old) }
    {
        if waits(&self.faults, addr, true) {
            return Ok(());
        }
        let message = Message::PageFault {
            addr,
            write: true,
            wp: true,
            tid: self.thread_id(cpu),
        };
        self.faults.push_back(Noted::new(message, cpu))?;
        Ok(())
    }

    /// The thread that a page fault of a processor names: 0 unless UFFD_FEATURE_THREAD_ID was asked for.
    fn thread_id(&self, cpu: u8) -> u32
        ensures { result ≡ machine.thread_id self.now cpu }
    {
        if has_bit(self.features, THREAD_ID_BIT) {
            u32::from(cpu) + 1
        } else {
            0
        }
    }

    /// Queues an event that a processor caused. `message` should not be a page fault, which belongs to
    /// [`queue_fault`](Userfault::queue_fault): it would be queued among the events. `NoMemory` changes nothing.
    pub fn queue_event(&mut self, message: Message, cpu: u8) -> Result<(), NoMemory>
        ensures ok { OnOk result (self.new ≡ machine.event_queued self.old message cpu) }
        ensures err { OnErr result (self.new ≡ self.old) }
    {
        self.events.push_back(Noted::new(message, cpu))?;
        Ok(())
    }

    /// Removes the last `count` events, as if they had not been queued.
    pub fn take_back_events(&mut self, count: u8)
        requires { count ≤ machine.changing self.old }
        ensures { self.new ≡
            record self.old { events = take (machine.changing self.old - count) self.old.events } }
    {
        let kept = self.events.len() - usize::from(count);
        self.events.truncate(kept);
    }

    /// The message that is read next, if there is one. It stays unread.
    pub fn next_message(&self) -> Option<Message>
        ensures { result ≡ option_map (λ noted. noted.message) (machine.next_message self.now) }
    {
        match self.faults.front() {
            Some(noted) => Some(noted.message()),
            None => Some(self.events.front()?.message()),
        }
    }

    /// Reads a message, page faults before events and each kind in the order of its queue, and the processor that caused it. If
    /// there is no message, nothing changes.
    pub fn read_message(&mut self) -> Option<(Message, u8)>
        ensures message { result ≡
            option_map (λ noted. (noted.message, noted.cpu)) (machine.next_message self.old) }
        ensures rest { self.new ≡ machine.message_read self.old }
    {
        let noted = match self.faults.pop_front() {
            Some(noted) => noted,
            None => self.events.pop_front()?,
        };
        Some((noted.message(), noted.cpu()))
    }

    /// Drops the unread page faults. Unread events stay.
    pub fn drop_faults(&mut self)
        ensures { self.new ≡ record self.old { faults = [] } }
    {
        self.faults.clear();
    }

    /// The number of unread events. While there are any, the address space is changing.
    pub fn changing(&self) -> usize
        ensures { result ≡ machine.changing self.now }
    {
        self.events.len()
    }

    /// An equal object, in memory of its own.
    pub fn copy(&self) -> Result<Self, NoMemory>
        ensures { IfOk result (λ copy. copy ≡ self.now) }
    {
        Ok(Userfault {
            alloc: self.alloc,
            enabled: self.enabled,
            features: self.features,
            missing: self.missing.copy()?,
            protect: self.protect.copy()?,
            faults: copy_queue(self.alloc, &self.faults)?,
            events: copy_queue(self.alloc, &self.events)?,
        })
    }

    /// Whether the two objects are equal, with their unread messages.
    pub fn is_same(&self, other: &Self) -> bool
        ensures { (result ≡ true) ↔ (self.now ≡ other.now) }
    {
        self.enabled == other.enabled
            && self.features == other.features
            && self.missing.is_same(&other.missing)
            && self.protect.is_same(&other.protect)
            && is_same_queue(&self.faults, &other.faults)
            && is_same_queue(&self.events, &other.events)
    }
}

//! What reads say of threads and of map calls, and no line shows: a thread touches a page, or leaves its fault; an event is queued.

use crate::cases::one_page;
use crate::needs::{CallFilter, wakers_of};
use crate::search::Search;
use crate::tasks::{Task, others};
use crate::threads::{is_unnamed, unnamed};
use call_log::log_call::{LogCall, is_event};
use foundation::NoMemory;
use kernel_rules::fault::{find, is_protection};
use kernel_rules::{Fault, Move, Phase};
use uffd_log::{Errno, Message};

const THREAD_ID: u64 = 0x100;

/// A thread that no fault has.
const NOBODY: u64 = u64::MAX;

/// A thread that touches a page, with the flags of its fault.
#[derive(Clone, Copy)]
pub(crate) struct Access {
    pub(crate) object: u64,
    pub(crate) thread: u64,
    pub(crate) page: u64,
    pub(crate) flags: u64,
}

/// A thread whose message a read returns.
#[derive(Clone, Copy)]
pub(crate) struct Shown {
    pub(crate) read: u32,
    pub(crate) thread: u64,
}

/// What is to be done for a message, or for its absence.
#[derive(Clone, Copy)]
pub(crate) enum ThreadTask {
    /// The messages of a read are the next that it returns, from this one on.
    Show { read: u32, next: u32 },
    /// The unread faults of an object go, but that of this thread and those that a read has shown.
    Pass { object: u64, thread: u64, read: u32 },
    /// A thread leaves its fault, unless that was read or answered meanwhile.
    LeaveUnread(Fault),
    /// The thread of an access does not wait at another page, or since an earlier read.
    WaitNoMore(Access),
    /// A thread leaves its fault, unless that was answered meanwhile.
    Leave(Fault),
    /// The fault that a thread has left need not be answered: it has the same one again.
    Forget(Fault),
    /// A thread sees its page, if it has not yet, and queues its fault.
    Touch(Access),
    /// The same, once its page may be missing.
    Queue(Access),
    /// An event of a map call is queued: of those under way that may tell it the one that ends first takes effect, or the next, or all.
    Announce { object: u64, message: Message },
    /// The same, once the map call took effect.
    Tell { object: u64, message: Message },
}

impl Access {
    pub(crate) fn seen(self) -> Move {
        Move::Sees {
            thread: self.thread,
            object: self.object,
            page: self.page,
            flags: self.flags,
        }
    }
}

/// Whether a thread still has the fault that it had.
fn is_still(held: Fault, now: Fault) -> bool {
    let is_same = held.object == now.object && held.page == now.page && held.flags == now.flags;
    let had_slept = matches!(held.phase, Phase::Asleep);
    let sleeps = matches!(now.phase, Phase::Asleep);
    is_same && (!had_slept || (sleeps && held.read_by == now.read_by))
}

impl Search {
    pub(crate) fn turn_thread(&mut self, task: ThreadTask) -> Result<(), NoMemory> {
        match task {
            ThreadTask::Show { read, next } => self.show(read, next),
            ThreadTask::Pass {
                object,
                thread,
                read,
            } => self.pass(object, thread, read),
            ThreadTask::LeaveUnread(fault) => self.leave_unread(fault),
            ThreadTask::WaitNoMore(access) => self.wait_no_more(access),
            ThreadTask::Leave(fault) => self.leave(fault),
            ThreadTask::Forget(fault) => {
                self.kernel.notes.forget_fault(fault);
                Ok(())
            }
            ThreadTask::Touch(access) => self.touch(access),
            ThreadTask::Queue(access) => {
                self.touched = self.queue(access)?;
                Ok(())
            }
            ThreadTask::Announce { object, message } => self.announce(object, message),
            ThreadTask::Tell { object, message } => self.tell(object, message),
        }
    }

    pub(crate) fn plan_thread(&mut self, task: ThreadTask) -> Result<(), NoMemory> {
        self.plan(Task::Thread(task))
    }

    /// The thread of a fault and what it touches. Where the object names no thread it is one whose fault waits to be read and was not shown by
    /// this read, or one that the log has not seen.
    pub(crate) fn access_of(
        &mut self,
        object: u64,
        addr: u64,
        flags: u64,
        thread: u32,
        read: Option<u32>,
    ) -> Access {
        let page = self.log.size.number(addr);
        let features = match self.kernel.object(object) {
            Some(found) => found.features.unwrap_or(0),
            None => 0,
        };
        let thread = if features & THREAD_ID != 0 {
            u64::from(thread)
        } else {
            match self.unread_thread(object, page, flags, read) {
                Some(thread) => thread,
                None => self.new_thread(),
            }
        };
        Access {
            object,
            thread,
            page,
            flags,
        }
    }

    fn new_thread(&mut self) -> u64 {
        self.unnamed = self.unnamed.wrapping_add(1);
        unnamed(self.unnamed)
    }

    /// A thread without a name whose fault of a page was not read: the first that is queued, or else the first that has seen the page.
    fn unread_thread(&self, object: u64, page: u64, flags: u64, read: Option<u32>) -> Option<u64> {
        let mut seen = None;
        for fault in self.kernel.rules.faults() {
            let is_there = fault.object == object && fault.page == page && fault.flags == flags;
            if !is_there || !is_unnamed(fault.thread) || self.has_shown(read, fault.thread) {
                continue;
            }
            match fault.phase {
                Phase::Unread => return Some(fault.thread),
                Phase::Seen if seen.is_none() => seen = Some(fault.thread),
                _ => {}
            }
        }
        seen
    }

    /// Whether a read has shown the fault of a thread.
    fn has_shown(&self, read: Option<u32>, thread: u64) -> bool {
        self.shown
            .iter()
            .any(|shown| shown.thread == thread && read == Some(shown.read))
    }

    pub(crate) fn prepare_read(&mut self, read: u32, call: &LogCall) -> Result<(), NoMemory> {
        let Some(object) = call.object() else {
            return Ok(());
        };
        if matches!(call.errno(), Some(Errno::Eagain)) {
            self.drain(object, read)?;
            return self.plan(others(CallFilter::Waiting(object)));
        }
        if !call.is_ok() {
            return Ok(());
        }
        let next = self.taken(read);
        self.plan_thread(ThreadTask::Show { read, next })
    }

    /// The unread faults of an object go, but those that a call has shown.
    pub(crate) fn drain(&mut self, object: u64, read: u32) -> Result<(), NoMemory> {
        let thread = NOBODY;
        self.plan_thread(ThreadTask::Pass {
            object,
            thread,
            read,
        })
    }

    fn show(&mut self, read: u32, next: u32) -> Result<(), NoMemory> {
        let Some(call) = self.log.call(read) else {
            return Ok(());
        };
        let message = self.log.messages_of(&call).get(next as usize).copied();
        let (Some(object), Some(message)) = (call.object(), message) else {
            return Ok(());
        };
        if !self.may_follow(object, message)? {
            if self.take_part(read, next)? {
                return self.plan_thread(ThreadTask::Show { read, next });
            }
            if is_event(&message) && call.end != self.line {
                // It waits for a call that has not begun.
                self.settling.retain(|other| *other != read);
                return Ok(());
            }
        }
        let after = next.saturating_add(1);
        self.plan_thread(ThreadTask::Show { read, next: after })?;
        if let Message::Fault {
            addr,
            flags,
            thread,
        } = message
        {
            let access = self.access_of(object, addr, flags, thread, Some(read));
            return self.show_fault(read, access);
        }
        self.plan_thread(ThreadTask::Announce { object, message })?;
        self.drain(object, read)
    }

    /// Whether a message may be queued before those that come before it in a read are taken: an event of a map call under way that has no other to
    /// tell first, or a fault of a page that a map call clears once its event is read.
    fn may_follow(&self, object: u64, message: Message) -> Result<bool, NoMemory> {
        match message {
            Message::Fault { addr, flags, .. } => {
                self.may_fault(object, self.log.size.number(addr), flags)
            }
            _ => {
                let is_told = self.kernel.teller(object, message).is_some();
                Ok(is_told || self.next_teller(object, message).is_some())
            }
        }
    }

    /// Whether no map call is to clear a page that has first to tell of it, or a fault of it needs none.
    fn may_fault(&self, object: u64, page: u64, flags: u64) -> Result<bool, NoMemory> {
        let Some(space) = self.kernel.space_of(object) else {
            return Ok(true);
        };
        if is_protection(flags) || !self.is_there(space, page) {
            return Ok(true);
        }
        let clearers = self.kernel.clearers(space, page)?;
        Ok(
            clearers
                .iter()
                .all(|key| self.kernel.rules.is_told_all(u64::from(*key))),
        )
    }

    /// A fault is the first that is read, after those that the read has shown.
    fn show_fault(&mut self, read: u32, access: Access) -> Result<(), NoMemory> {
        let thread = access.thread;
        let object = access.object;
        self.shown.push(Shown { read, thread })?;
        self.plan_thread(ThreadTask::Touch(access))?;
        self.plan_thread(ThreadTask::WaitNoMore(access))?;
        self.plan_thread(ThreadTask::Pass {
            object,
            thread,
            read,
        })
    }

    /// A fault that is in the way goes with a wake that is under way, or for no reason that the log has; then the next.
    fn pass(&mut self, object: u64, thread: u64, read: u32) -> Result<(), NoMemory> {
        let Some(fault) = self.in_the_way(object, thread, read) else {
            return Ok(());
        };
        self.plan_thread(ThreadTask::Pass {
            object,
            thread,
            read,
        })?;
        self.plan_thread(ThreadTask::LeaveUnread(fault))?;
        self.plan(others(wakers_of(fault)))
    }

    fn in_the_way(&self, object: u64, thread: u64, read: u32) -> Option<Fault> {
        for fault in self.kernel.rules.faults() {
            let is_unread = fault.object == object && matches!(fault.phase, Phase::Unread);
            let is_other = fault.thread != thread && !self.has_shown(Some(read), fault.thread);
            if is_unread && is_other {
                return Some(*fault);
            }
        }
        None
    }

    fn leave_unread(&mut self, fault: Fault) -> Result<(), NoMemory> {
        let thread = fault.thread;
        match find(self.kernel.rules.faults(), thread) {
            Some(now) if is_still(fault, now) && matches!(now.phase, Phase::Unread) => {
                self.step(Move::Leaves { thread })?;
                Ok(())
            }
            _ => Ok(()),
        }
    }

    /// The thread waits at another page, or anew: a call that is under way has woken it, or a signal came.
    fn wait_no_more(&mut self, access: Access) -> Result<(), NoMemory> {
        let Some(held) = find(self.kernel.rules.faults(), access.thread) else {
            return Ok(());
        };
        let is_elsewhere = held.page != access.page || held.object != access.object;
        if is_elsewhere || matches!(held.phase, Phase::Asleep) {
            if !is_elsewhere {
                self.plan_thread(ThreadTask::Forget(held))?;
            }
            self.plan_thread(ThreadTask::Leave(held))?;
            self.plan(others(wakers_of(held)))?;
        }
        Ok(())
    }

    fn leave(&mut self, held: Fault) -> Result<(), NoMemory> {
        let thread = held.thread;
        if let Some(now) = find(self.kernel.rules.faults(), thread)
            && is_still(held, now)
        {
            self.step(Move::Leaves { thread })?;
        }
        Ok(())
    }

    fn touch(&mut self, access: Access) -> Result<(), NoMemory> {
        self.plan_thread(ThreadTask::Queue(access))?;
        let Some(space) = self.kernel.space_of(access.object) else {
            return Ok(());
        };
        if find(self.kernel.rules.faults(), access.thread).is_some() {
            return Ok(());
        }
        let (object, page) = (access.object, access.page);
        if is_protection(access.flags) {
            self.plan(Task::MakeProtected { object, page })?;
        } else {
            let range = one_page(page);
            self.plan(Task::MakeMissing { space, range })?;
        }
        let is_registered = self.kernel.page(space, page).is_some();
        if !is_registered || self.is_there(space, page) && !is_protection(access.flags) {
            self.plan(others(CallFilter::MovesTo { space, page }))?;
        }
        if !is_registered {
            let range = one_page(page);
            self.plan(others(CallFilter::Registers { object, range }))?;
        }
        Ok(())
    }

    /// Whether a thread could see its page, or had seen it, and has queued its fault.
    pub(crate) fn queue(&mut self, access: Access) -> Result<bool, NoMemory> {
        let thread = access.thread;
        if find(self.kernel.rules.faults(), thread).is_none() && !self.step(access.seen())? {
            return Ok(false);
        }
        match find(self.kernel.rules.faults(), thread) {
            Some(fault) if matches!(fault.phase, Phase::Seen) => self.step(Move::Queues { thread }),
            _ => Ok(false),
        }
    }

    fn announce(&mut self, object: u64, message: Message) -> Result<(), NoMemory> {
        if self.kernel.teller(object, message).is_some() {
            return self.plan_thread(ThreadTask::Tell { object, message });
        }
        if let Some(call) = self.next_teller(object, message) {
            self.plan_thread(ThreadTask::Announce { object, message })?;
            return self.plan(Task::Settle(call));
        }
        self.plan_thread(ThreadTask::Tell { object, message })?;
        self.plan(others(CallFilter::Tellers))
    }

    fn tell(&mut self, object: u64, message: Message) -> Result<(), NoMemory> {
        if let Some(key) = self.kernel.teller(object, message) {
            self.step(Move::Tells { key })?;
        }
        Ok(())
    }
}

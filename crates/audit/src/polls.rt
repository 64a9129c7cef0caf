//! poll(2): a message that waited was returned by another thread's read, or is by the next one, or went with a wake, before or after the poll ended;
//! or nobody reads it.

use crate::accesses::{Access, ThreadTask};
use crate::needs::{CallFilter, wakers_of};
use crate::search::{Put, Search};
use crate::tasks::{Task, others};
use crate::threads::stranger;
use call_log::log_call::{DONTWAKE, Kind, LogCall, POLLIN, is_event};
use call_log::pages::Range;
use foundation::NoMemory;
use kernel_rules::fault::{find, stops};
use kernel_rules::{Fault, Move, Phase};
use uffd_log::{Answer, Errno, Message};

/// How many calls after a poll are looked at, and reads after a call.
pub(crate) const NEAR: u32 = 200;

/// UFFD_PAGEFAULT_FLAG_MINOR.
const MINOR: u64 = 4;

/// UFFD_PAGEFAULT_FLAG_WP and UFFD_PAGEFAULT_FLAG_WRITE.
pub(crate) const PROTECTED_STORE: u64 = 3;

/// What is to be done for a poll.
#[derive(Clone, Copy)]
pub(crate) enum PollTask {
    /// What the answer of a poll needs.
    Look(u32),
    /// A message for it.
    Find(u32),
    /// The first message of a read waits already. Where it `leaves` its thread may have left another fault by a signal.
    Early {
        object: u64,
        read: u32,
        leaves: bool,
    },
    /// A thread leaves its fault, if that is of another page than this or was read.
    EarlyLeave {
        held: Fault,
        page: u64,
    },
    /// Whether an event waits.
    EarlyEvent(u64),
    /// Those who wait at the page of a call are about to be woken, from this place of the log on.
    Vanish {
        poll: u32,
        read: Option<u32>,
        next: u32,
    },
}

impl Search {
    pub(crate) fn turn_poll(&mut self, task: PollTask) -> Result<(), NoMemory> {
        match task {
            PollTask::Look(poll) => self.prepare_poll(poll),
            PollTask::Find(poll) => self.find_message(poll),
            PollTask::Early {
                object,
                read,
                leaves,
            } => self.show_early(object, read, leaves),
            PollTask::EarlyLeave { held, page } => self.leave_early(held, page),
            PollTask::EarlyEvent(object) => {
                self.touched = self.kernel.rules.has_unread(object);
                Ok(())
            }
            PollTask::Vanish { poll, read, next } => self.vanish(poll, read, next),
        }
    }

    fn plan_poll(&mut self, task: PollTask) -> Result<(), NoMemory> {
        self.plan(Task::Poll(task))
    }

    fn prepare_poll(&mut self, poll: u32) -> Result<(), NoMemory> {
        let Some(call) = self.log.call(poll) else {
            return Ok(());
        };
        let (Some(object), Some(Answer::Value(events))) = (call.object(), call.answer) else {
            return Ok(());
        };
        if events == 0 {
            return self.drain(object, poll);
        }
        if events != POLLIN || self.kernel.rules.has_unread(object) {
            return Ok(());
        }
        if self.was_read(poll, object)? {
            self.placed = Some(poll);
            return Ok(());
        }
        self.plan_poll(PollTask::Find(poll))?;
        self.plan(others(CallFilter::Empty(object)))
    }

    /// A message comes before the answer of a poll, and after the reads under way that find nothing.
    fn find_message(&mut self, poll: u32) -> Result<(), NoMemory> {
        let Some(call) = self.log.call(poll) else {
            return Ok(());
        };
        let Some(object) = call.object() else {
            return Ok(());
        };
        self.touched = false;
        let read = self.read_after(&call);
        let next = 0;
        self.plan_poll(PollTask::Vanish { poll, read, next })?;
        match read {
            Some(read) => self.plan_poll(PollTask::Early {
                object,
                read,
                leaves: false,
            }),
            None => Ok(()),
        }
    }

    /// Another thread's read has returned a message while the poll lasted: the poll took effect before that. Whether there is one.
    fn was_read(&mut self, poll: u32, object: u64) -> Result<bool, NoMemory> {
        let (Some(open), Some(read)) = (self.find_open(poll), self.took.get(&object).copied())
        else {
            return Ok(false);
        };
        if read < open.begun {
            return Ok(false);
        }
        self.run.put_effect_before(read, poll)?;
        self.set_kind(poll, Kind::Must);
        Ok(true)
    }

    /// The next read of a poll's object that has not taken effect. Where that found nothing, a read that lasts beside it may have returned the
    /// message before.
    fn read_after(&self, call: &LogCall) -> Option<u32> {
        let object = call.object()?;
        let first = self.index.first_read(object, call.end);
        for place in first..self.index.reads.len() {
            let read = self.index.reads.get(place)?;
            if read.object != object {
                return None;
            }
            if let Some(call) = self.log.call(read.call) {
                if !call.done && !self.is_of_later(object, read.call) {
                    let beside = self.read_beside(&call, place.saturating_add(1));
                    return Some(beside.unwrap_or(read.call));
                }
            }
        }
        None
    }

    /// Whether the first message of a read is an event of a map call that has not begun.
    fn is_of_later(&self, object: u64, read: u32) -> bool {
        match self.first_message(read) {
            Some(message) if is_event(&message) => {
                self.kernel.teller(object, message).is_none()
                    && self.next_teller(object, message).is_none()
            }
            _ => false,
        }
    }

    /// Where a read found nothing: another one, from this place of the index on, that returned a message and began before it ended.
    fn read_beside(&self, call: &LogCall, from: usize) -> Option<u32> {
        if !matches!(call.errno(), Some(Errno::Eagain)) {
            return None;
        }
        for place in from..from.saturating_add(NEAR as usize) {
            let other = self.index.reads.get(place)?;
            let found = self.log.call(other.call)?;
            if Some(other.object) != call.object() {
                return None;
            }
            if found.is_ok() && !found.done && found.begin < call.end {
                return Some(other.call);
            }
        }
        None
    }

    /// The first message that a read still has to take, if it succeeds.
    fn first_message(&self, read: u32) -> Option<Message> {
        let call = self.log.call(read)?;
        let messages = self.log.messages_of(&call);
        messages.get(self.taken(read) as usize).copied()
    }

    fn show_early(&mut self, object: u64, read: u32, leaves: bool) -> Result<(), NoMemory> {
        let Some(message) = self.first_message(read) else {
            return Ok(());
        };
        let Message::Fault {
            addr,
            flags,
            thread,
        } = message
        else {
            self.plan_poll(PollTask::EarlyEvent(object))?;
            return self.plan_thread(ThreadTask::Announce { object, message });
        };
        let access = self.access_of(object, addr, flags, thread, None);
        self.plan_thread(ThreadTask::Touch(access))?;
        let Some(held) = find(self.kernel.rules.faults(), access.thread) else {
            return Ok(());
        };
        if leaves {
            let page = access.page;
            self.plan_poll(PollTask::EarlyLeave { held, page })?;
        }
        if matches!(held.phase, Phase::Asleep) {
            self.plan(others(wakers_of(held)))?;
        }
        Ok(())
    }

    fn leave_early(&mut self, held: Fault, page: u64) -> Result<(), NoMemory> {
        let is_read = match find(self.kernel.rules.faults(), held.thread) {
            Some(now) => matches!(now.phase, Phase::Asleep),
            None => false,
        };
        if held.page != page || is_read {
            self.plan_thread(ThreadTask::Leave(held))?;
        }
        Ok(())
    }

    /// Unless the poll has its message by now: one of those who wait at the page of the next call that wakes them had queued its fault.
    fn vanish(&mut self, poll: u32, read: Option<u32>, next: u32) -> Result<(), NoMemory> {
        if self.touched {
            self.set_kind(poll, Kind::Must);
            return Ok(());
        }
        let Some(call) = self.log.call(poll) else {
            return Ok(());
        };
        let Some(object) = call.object() else {
            return Ok(());
        };
        let Some(waker) = self.next_waker(&call, object, read, next) else {
            return self.prepare_late(poll, object, read);
        };
        let next = waker.saturating_add(1);
        self.plan_poll(PollTask::Vanish { poll, read, next })?;
        match self.woken_first(waker, object) {
            Some(access) => self.plan_thread(ThreadTask::Touch(access)),
            None => Ok(()),
        }
    }

    /// The next call from this place of the log on that wakes threads of an object, while a poll or the read after it lasts.
    fn next_waker(&self, poll: &LogCall, object: u64, read: Option<u32>, next: u32) -> Option<u32> {
        for open in &self.open {
            if open.call >= next && self.is_waker(open.call, object) {
                return Some(open.call);
            }
        }
        let until = match read.and_then(|read| self.log.call(read)) {
            Some(read) => read.end,
            None => u32::MAX,
        };
        let first = self.first_begun_after(poll.end);
        for place in first.max(next)..first.saturating_add(NEAR) {
            match self.log.call(place) {
                Some(call) if call.begin <= until => {}
                _ => return None,
            }
            if self.is_waker(place, object) {
                return Some(place);
            }
        }
        None
    }

    /// Whether a call wakes threads of an object.
    fn is_waker(&self, place: u32, object: u64) -> bool {
        match self.log.call(place) {
            Some(call) => call.judged && call.object() == Some(object) && call.is_waking(),
            None => false,
        }
    }

    /// The place of the first call that begins after a line.
    fn first_begun_after(&self, line: u32) -> u32 {
        u32::try_from(self.log.first_below(line)).unwrap_or(u32::MAX)
    }

    /// A thread that waits at the first page of a call which wakes it.
    fn woken_first(&mut self, waker: u32, object: u64) -> Option<Access> {
        let call = self.log.call(waker)?;
        let (space, page) = self.first_page(&call)?;
        Some(Access {
            object,
            thread: self.stranger(),
            page,
            flags: self.flags_at(space, page),
        })
    }

    /// The flags of a fault at a page: of a store where it is present, and else of a load.
    fn flags_at(&self, space: u32, number: u64) -> u64 {
        if self.is_there(space, number) {
            return PROTECTED_STORE;
        }
        match self.kernel.page(space, number) {
            Some(page) if page.minor && !page.missing => MINOR,
            _ => 0,
        }
    }

    fn stranger(&mut self) -> u64 {
        self.strangers = self.strangers.wrapping_add(1);
        stranger(self.strangers)
    }

    /// No call is about to take the message away: it went before the poll ended, or waits until its thread was let go, or to the end.
    fn prepare_late(&mut self, poll: u32, object: u64, read: Option<u32>) -> Result<(), NoMemory> {
        if self.has_vanished(poll, object)? {
            self.placed = Some(poll);
            return Ok(());
        }
        match read {
            Some(read) if self.first_message(read).is_some() => self.plan_poll(PollTask::Early {
                object,
                read,
                leaves: true,
            }),
            _ => self.wait_unread(object),
        }
    }

    /// A page was put while the poll lasted: the poll took effect before that. Whether there is one.
    fn has_vanished(&mut self, poll: u32, object: u64) -> Result<bool, NoMemory> {
        let Some(open) = self.find_open(poll) else {
            return Ok(false);
        };
        for back in 0..self.put.len() {
            let Some(put) = self.put_from_end(back) else {
                return Ok(false);
            };
            if put.step < open.begun {
                return Ok(false);
            }
            if let Some(page) = self.woken_page(put.call, object) {
                if self.place_before(put, poll, object, page)? {
                    return Ok(true);
                }
            }
        }
        Ok(false)
    }

    /// The install that took effect last, or the one this far before it.
    fn put_from_end(&self, back: usize) -> Option<Put> {
        let place = self.put.len().checked_sub(back.saturating_add(1))?;
        self.put.get(place).copied()
    }

    /// The first page that a call puts, if it wakes those that sleep there.
    fn woken_page(&self, place: u32, object: u64) -> Option<u64> {
        let call = self.log.call(place)?;
        let mode = call.install_mode()?;
        let wakes = call.is_ok() && mode & DONTWAKE == 0;
        if wakes && call.object() == Some(object) {
            Some(self.log.pages_of(&call)?.first)
        } else {
            None
        }
    }

    /// A poll takes effect before an install, when a thread has queued a fault of its page. False where none of it is announced.
    fn place_before(
        &mut self,
        put: Put,
        poll: u32,
        object: u64,
        page: u64,
    ) -> Result<bool, NoMemory> {
        let found = match self.kernel.space_of(object) {
            Some(space) => self.kernel.page(space, page),
            None => None,
        };
        let flags = match found {
            Some(found) if !found.missing && found.minor => MINOR,
            Some(found) if !found.missing => return Ok(false),
            _ => 0,
        };
        let thread = self.stranger();
        let access = Access {
            object,
            thread,
            page,
            flags,
        };
        self.run.put_unseen_before(put.step, access.seen())?;
        self.run
            .put_unseen_before(put.step, Move::Queues { thread })?;
        self.run.put_effect_before(put.step, poll)?;
        self.set_kind(poll, Kind::Must);
        Ok(true)
    }

    /// No read returns it: a thread waits at a page that is missing or protected, and its fault is unread to the end, or until a signal comes.
    fn wait_unread(&mut self, object: u64) -> Result<(), NoMemory> {
        let Some(space) = self.kernel.space_of(object) else {
            return Ok(());
        };
        for area in &self.kernel.areas()? {
            if area.object == object && self.waits_within(object, space, area.range)? {
                return Ok(());
            }
        }
        Ok(())
    }

    /// The same at a page of a range. Whether there is one.
    fn waits_within(&mut self, object: u64, space: u32, range: Range) -> Result<bool, NoMemory> {
        for number in range.first..range.end() {
            let Some(page) = self.kernel.page(space, number) else {
                continue;
            };
            let flags = self.flags_at(space, number);
            if stops(object, flags, page) {
                let access = Access {
                    object,
                    thread: self.stranger(),
                    page: number,
                    flags,
                };
                return self.queue(access);
            }
        }
        Ok(false)
    }
}

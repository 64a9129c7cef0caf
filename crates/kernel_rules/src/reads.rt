//! read(2) and poll(2) of a userfault object, by the rules of `specs/Reads.antt`. After `NoMemory`, or where no rule allows the answer, a
//! table is not to be used.

ghost use Rattle.std.specs.Prelude.{◌≡◌, ◌-◌, ◌==◌, ◌&&◌, ◌++◌, count_by, drop, filter, length, not, option_to_list, false, None, Some, IfOk, OnOk};
ghost use Rattle.std.specs.List.{list_any};
ghost use Rattle.kernel_rules.specs.State.{allowed};
ghost use Rattle.kernel_rules.specs.Ioctls as ioctl;
ghost use Rattle.kernel_rules.specs.Ioctls.{span_of};
ghost use Rattle.kernel_rules.specs.MapCalls.{numbers_without, spans_without};
ghost use Rattle.kernel_rules.specs.Reads as reads;
ghost use Rattle.kernel_rules.specs.Held.{kernel_of, AreTables};

use crate::answers::{has_room_for, is_poll_error};
use crate::arguments::{asked_for, is_enabled};
use crate::calling::{Span, Untold};
use crate::difference::Difference;
use crate::fault::{Fault, find_unread};
use crate::kernel_table::KernelTable;
use crate::known::Phase;
use crate::object::Object;
use crate::telling::{remove_number, remove_spans};
use foundation::{NoMemory, PAGE_SIZE};
use uffd_log::{Answer, Errno, Message};

/// A read of an object: its number in the log, and its thread, where page faults name that by the same number.
#[derive(Clone, Copy)]
pub(crate) struct Reading {
    pub(crate) key: u64,
    pub(crate) reader: Option<u64>,
    pub(crate) name: u64,
    pub(crate) object: Object,
}

/// Whether a fault has the fields of its message.
fn is_message(object: Object, fault: Fault, addr: u64, flags: u64, thread: u32) -> bool
    ensures { result ≡ reads.is_message object fault addr flags thread }
{
    let named = if asked_for(object, 8) {
        fault.thread == u64::from(thread) && 0 < thread
    } else {
        thread == 0
    };
    let exact = asked_for(object, 11) || addr % PAGE_SIZE == 0;
    fault.page == addr / PAGE_SIZE && exact && fault.flags == flags && named
}

/// Whether a message names the thread that reads it.
fn is_own_fault(reader: Option<u64>, thread: u32) -> bool
    ensures { result ≡ reads.is_own_fault reader thread }
{
    match reader {
        Some(reader) => reader == u64::from(thread),
        None => false,
    }
}

/// The next event of a call, if it has any.
fn find_event(events: &[Untold], key: u64) -> Option<Untold>
    ensures { result ≡ reads.first_event events.now key }
{
    for one in events {
        if one.key == key {
            return Some(*one);
        }
    }
    None
}

/// Takes an event of a call away.
fn remove_event(events: &mut Vec<Untold>, key: u64, rank: usize)
    ensures { events.new.items ≡
        filter (λ other. not (other.key == key && other.rank == rank)) events.old.items }
{
    events.retain(|other| !(other.key == key && other.rank == rank));
}

/// Whether two messages are the same event.
fn is_same_event(event: Message, other: Message) -> bool
    ensures { result ≡ reads.is_same_event event other }
{
    match (event, other) {
        (
            Message::Remap { from, to, len },
            Message::Remap {
                from: other_from,
                to: other_to,
                len: other_len,
            },
        ) => from == other_from && to == other_to && len == other_len,
        (
            Message::Unmap { start, end },
            Message::Unmap {
                start: other_start,
                end: other_end,
            },
        ) => start == other_start && end == other_end,
        (Message::Fork { .. }, Message::Fork { .. }) => true,
        _ => false,
    }
}

/// Whether a REMOVE is of the whole range of its call.
fn is_whole(event: Message, span: Option<Span>) -> bool
    ensures { result ≡ reads.is_whole event span }
{
    match (span, event) {
        (Some(span), Message::Remove { start, end }) => {
            start / PAGE_SIZE == span.first && end / PAGE_SIZE == span.end
        }
        _ => true,
    }
}

/// Whether a message is of a page fault.
fn is_fault(message: Message) -> bool
    ensures { result ≡ reads.is_fault message }
{
    matches!(message, Message::Fault { .. })
}

/// How many messages are of page faults.
fn count_faults(messages: &[Message]) -> usize
    ensures { result ≡ count_by reads.is_fault messages.now }
{
    messages
        .iter()
        .filter(|message| is_fault(**message))
        .count()
}

/// Whether read(2) may say that it returns these messages.
pub(crate) fn may_return(
    object: Object,
    room: Option<u64>,
    messages: &[Message],
    answer: Answer,
) -> bool
    ensures { result ≡ reads.may_return_messages object room messages.now answer }
{
    match answer {
        Answer::Value(count) => {
            let is_of = count == messages.len() as u64 && count > 0;
            is_enabled(object) && is_of && has_room_for(count, room)
        }
        _ => false,
    }
}

impl KernelTable {
    /// The unread fault of an object that was queued first.
    #[tactic(auto, unfolding(crate::specs::Held::kernel_of))]
    pub(crate) fn first_unread(&self, name: u64) -> Option<Fault>
        ensures { result ≡ reads.first_unread (kernel_of self.now).faults name }
    {
        find_unread(&self.faults, name)
    }

    /// Whether the event that a call has queued is for the object.
    fn is_queued_for(&self, name: u64, key: u64) -> bool
        ensures { result ≡ reads.is_queued_for (kernel_of self.now) name key }
    {
        match self.first_event(key) {
            Some(one) => one.object == name,
            None => self.has_removes(key, name),
        }
    }

    /// The calls whose next event is queued.
    #[tactic(auto, unfolding(crate::specs::Held::kernel_of))]
    fn queued_calls(&self) -> &[u64]
        ensures { result.now ≡ (kernel_of self.now).queued }
    {
        &self.queued
    }

    /// Whether an event waits to be read.
    fn has_queued(&self, name: u64) -> bool
        ensures { result ≡
            list_any (reads.is_queued_for (kernel_of self.now) name)
            (kernel_of self.now).queued }
    {
        for key in self.queued_calls() {
            if self.is_queued_for(name, *key) {
                return true;
            }
        }
        false
    }

    /// Whether anything waits to be read.
    pub fn has_unread(&self, name: u64) -> bool
        ensures { result ≡ reads.has_unread (kernel_of self.now) name }
    {
        self.first_unread(name).is_some() || self.has_queued(name)
    }

    /// The next event of a call.
    #[tactic(auto, unfolding(crate::specs::Held::kernel_of))]
    fn first_event(&self, key: u64) -> Option<Untold>
        ensures { result ≡ reads.first_event (kernel_of self.now).events key }
    {
        find_event(&self.events, key)
    }

    /// Whether a page from one on and below another is registered with an object that a call tells.
    fn tells_within(&self, key: u64, space: u64, first: u64, end: u64) -> bool
        requires { AreTables self.now }
        ensures { result ≡ reads.tells_within (kernel_of self.now) key space first end }
    {
        for range in self.ranges() {
            if self.tells_object(key, range.object) && self.watches_in(space, first, end, *range) {
                return true;
            }
        }
        false
    }

    /// Whether such a page is registered with this object.
    fn watches_within(&self, name: u64, space: u64, first: u64, end: u64) -> bool
        requires { AreTables self.now }
        ensures { result ≡ reads.watches_within (kernel_of self.now) name space first end }
    {
        for range in self.ranges() {
            if range.object == name && self.watches_in(space, first, end, *range) {
                return true;
            }
        }
        false
    }

    /// Whether the pages from one on to another are those of the next REMOVE to an object.
    fn is_remove_of(&self, name: u64, key: u64, first: u64, last: u64, span: Span) -> bool
        requires { AreTables self.now }
        ensures { result ≡
            reads.is_remove_of (kernel_of self.now) name key first last span }
    {
        span.first <= first
            && first < last
            && last <= span.end
            && self.tells_object(key, name)
            && !self.tells_within(key, span.space, span.first, first)
            && self.watches_within(name, span.space, first, last)
    }

    /// Whether a message is the next REMOVE of a call.
    fn is_next_remove(&self, name: u64, key: u64, event: Message) -> bool
        requires { AreTables self.now }
        ensures { result ≡ reads.is_next_remove (kernel_of self.now) name key event
            (span_of (kernel_of self.now).untold key) }
    {
        let Some(span) = self.untold_span(key) else {
            return false;
        };
        match event {
            Message::Remove { start, end } => {
                self.is_remove_of(name, key, start / PAGE_SIZE, end / PAGE_SIZE, span)
            }
            _ => false,
        }
    }

    /// Whether the next event of a call is this message to the object.
    pub fn is_next_of(&self, name: u64, key: u64, event: Message) -> bool
        requires { AreTables self.now }
        ensures { result ≡ reads.is_next_of (kernel_of self.now) name key event
            (reads.first_event (kernel_of self.now).events key) }
    {
        match self.first_event(key) {
            Some(one) => one.object == name && is_same_event(one.message, event),
            None => self.is_next_remove(name, key, event),
        }
    }

    /// Whether that is queued.
    fn is_queued_as(&self, name: u64, event: Message, key: u64) -> bool
        requires { AreTables self.now }
        ensures { result ≡ reads.is_queued_as (kernel_of self.now) name event key }
    {
        self.is_queued(key) && self.is_next_of(name, key, event)
    }

    /// The call whose next event is this message, and whether another one with an event for the object is before it.
    fn teller(&self, name: u64, event: Message) -> Option<(u64, bool)>
        requires { AreTables self.now }
        ensures { result ≡ reads.teller (kernel_of self.now) name event
            (kernel_of self.now).calls false }
    {
        let mut late = false;
        for key in self.calls_under_way() {
            if self.is_queued_as(name, event, *key) {
                return Some((*key, late));
            }
            late = late || self.has_untold(name, *key);
        }
        None
    }

    /// A list event of a call is read.
    #[tactic(auto, unfolding(crate::specs::Held::kernel_of))]
    fn drop_event(&mut self, key: u64, rank: usize)
        requires { AreTables self.old }
        ensures tables { AreTables self.new }
        ensures read { kernel_of self.new ≡ record (kernel_of self.old) {
          queued = numbers_without (kernel_of self.old).queued key;
          events = filter (λ other. not (other.key == key && other.rank == rank))
              (kernel_of self.old).events;
        } }
    {
        remove_number(&mut self.queued, key);
        remove_event(&mut self.events, key, rank);
    }

    /// A call has only these pages left to announce, if any.
    #[tactic(auto, unfolding(crate::specs::Held::kernel_of))]
    fn leave_removes(&mut self, key: u64, rest: Option<Span>) -> Result<(), NoMemory>
        requires { AreTables self.old }
        ensures tables { AreTables self.new }
        ensures left { OnOk result (kernel_of self.new ≡ record (kernel_of self.old) {
          queued = numbers_without (kernel_of self.old).queued key;
          untold = spans_without (kernel_of self.old).untold key ++ option_to_list rest;
        }) }
    {
        remove_number(&mut self.queued, key);
        remove_spans(&mut self.untold, key);
        let Some(span) = rest else {
            return Ok(());
        };
        match self.untold.push(span) {
            Ok(()) => Ok(()),
            Err(_) => Err(NoMemory),
        }
    }

    /// The range that a call has still to announce after a page.
    fn rest_of(&self, key: u64, last: u64, span: Span) -> Option<Span>
        requires { AreTables self.now }
        ensures { option_to_list result ≡ reads.rest_of (kernel_of self.now) key last span }
    {
        if self.tells_within(key, span.space, last, span.end) {
            Some(Span {
                first: last,
                ..span
            })
        } else {
            None
        }
    }

    /// The next event of a call is a REMOVE, and is read.
    fn read_remove(&mut self, key: u64, event: Message) -> Result<(), NoMemory>
        requires { AreTables self.old }
        ensures tables { AreTables self.new }
        ensures read { OnOk result (kernel_of self.new ≡
            reads.event_read (kernel_of self.old) key event None) }
    {
        let (Some(span), Message::Remove { end, .. }) = (self.untold_span(key), event) else {
            self.unqueue(key);
            return Ok(());
        };
        let rest = self.rest_of(key, end / PAGE_SIZE, span);
        self.leave_removes(key, rest)
    }

    /// A call has queued nothing.
    #[tactic(auto, unfolding(crate::specs::Held::kernel_of))]
    fn unqueue(&mut self, key: u64)
        requires { AreTables self.old }
        ensures tables { AreTables self.new }
        ensures gone { kernel_of self.new ≡ record (kernel_of self.old) {
          queued = numbers_without (kernel_of self.old).queued key;
        } }
    {
        remove_number(&mut self.queued, key);
    }

    /// The next event of a call is read.
    fn read_next(&mut self, key: u64, event: Message) -> Result<(), NoMemory>
        requires { AreTables self.old }
        ensures tables { AreTables self.new }
        ensures read { OnOk result (kernel_of self.new ≡
            reads.event_read (kernel_of self.old) key event
            (reads.first_event (kernel_of self.old).events key)) }
    {
        match self.first_event(key) {
            Some(one) => {
                self.drop_event(key, one.rank);
                Ok(())
            }
            None => self.read_remove(key, event),
        }
    }

    /// An event is read, of the map call that has it next.
    fn read_event(&mut self, name: u64, event: Message) -> Result<bool, NoMemory>
        requires { AreTables self.old }
        ensures tables { AreTables self.new }
        ensures step { IfOk result (λ made.
            reads.event_taken (kernel_of self.old) event
            (reads.teller (kernel_of self.old) name event (kernel_of self.old).calls false) ≡
            allowed made (kernel_of self.new)) }
    {
        let Some((key, late)) = self.teller(name, event) else {
            return Ok(false);
        };
        let whole = is_whole(event, self.clear_span(key));
        self.read_next(key, event)?;
        self.note_if(!whole, Difference::RemoveOfEachArea)?;
        self.note_if(late, Difference::OrderOfTwoCalls)?;
        Ok(true)
    }

    /// How many faults of an object are unread.
    #[tactic(auto, unfolding(crate::specs::Held::kernel_of))]
    fn unread_faults(&self, name: u64) -> usize
        ensures { result ≡ reads.unread_faults (kernel_of self.now).faults name }
    {
        self.faults
            .iter()
            .filter(|fault| fault.object == name && matches!(fault.phase, Phase::Unread))
            .count()
    }

    /// A fault is read, if it is the first.
    fn read_fault(
        &mut self,
        by: Reading,
        addr: u64,
        flags: u64,
        thread: u32,
    ) -> Result<bool, NoMemory>
        requires { AreTables self.old }
        ensures tables { AreTables self.new }
        ensures step { IfOk result (λ made.
            reads.fault_taken (kernel_of self.old) by.key by.reader by.name by.object
            addr flags thread ≡
            allowed made (kernel_of self.new)) }
    {
        let Some(fault) = self.first_unread(by.name) else {
            return Ok(false);
        };
        if !is_message(by.object, fault, addr, flags, thread) || is_own_fault(by.reader, thread) {
            return Ok(false);
        }
        let waits = self.must_wait(by.object.space, fault);
        self.put_fault(Fault {
            phase: Phase::Asleep,
            read_by: if waits { Some(by.key) } else { None },
            ..fault
        })?;
        Ok(true)
    }

    /// A message is read, and this many page faults after it.
    fn read_message(
        &mut self,
        by: Reading,
        message: Message,
        later: usize,
    ) -> Result<bool, NoMemory>
        requires { AreTables self.old }
        ensures tables { AreTables self.new }
        ensures step { IfOk result (λ made.
            reads.message_taken (kernel_of self.old) by.key by.reader by.name by.object
            message later ≡
            allowed made (kernel_of self.new)) }
    {
        if let Message::Fault {
            addr,
            flags,
            thread,
        } = message
        {
            return self.read_fault(by, addr, flags, thread);
        }
        if self.unread_faults(by.name) > later {
            return Ok(false);
        }
        self.read_event(by.name, message)
    }

    /// Messages are read in turn.
    fn read_messages(&mut self, by: Reading, messages: &[Message]) -> Result<bool, NoMemory>
        requires { AreTables self.old }
        ensures tables { AreTables self.new }
        ensures step { IfOk result (λ made.
            reads.messages_taken (kernel_of self.old) by.key by.reader by.name by.object
            messages.now ≡
            allowed made (kernel_of self.new)) }
    {
        for i in 0..messages.len() {
            let later = count_faults(&messages[i + 1..]);
            if !self.read_message(by, messages[i], later)? {
                return Ok(false);
            }
        }
        Ok(true)
    }

    /// The first of the last `left` messages is read, if there is one.
    pub(crate) fn read_one(
        &mut self,
        by: Reading,
        messages: &[Message],
        left: usize,
    ) -> Result<bool, NoMemory>
        requires { AreTables self.old }
        ensures tables { AreTables self.new }
        ensures step { IfOk result (λ made.
            reads.first_taken (kernel_of self.old) by.key by.reader by.name by.object
            (drop (length messages.now - left) messages.now) ≡
            allowed made (kernel_of self.new)) }
    {
        let i = messages.len().saturating_sub(left);
        if i >= messages.len() {
            return Ok(false);
        }
        let later = count_faults(&messages[i + 1..]);
        self.read_message(by, messages[i], later)
    }

    /// Whether read(2) may fail so.
    fn may_fail_to_read(&self, name: u64, object: Object, room: Option<u64>, errno: Errno) -> bool
        ensures { result ≡ reads.read_failed (kernel_of self.now) name object room errno }
    {
        match errno {
            Errno::Eagain => is_enabled(object) && !object.waits && !self.has_unread(name),
            Errno::Einval => !is_enabled(object) || !has_room_for(1, room),
            Errno::Eintr | Errno::Efault => is_enabled(object),
            _ => false,
        }
    }

    /// read(2).
    pub(crate) fn reads(
        &mut self,
        by: Reading,
        room: Option<u64>,
        messages: &[Message],
        answer: Answer,
    ) -> Result<bool, NoMemory>
        requires { AreTables self.old }
        ensures tables { AreTables self.new }
        ensures step { IfOk result (λ made.
            reads.read (kernel_of self.old) by.key by.reader by.name by.object
            room messages.now answer ≡
            allowed made (kernel_of self.new)) }
    {
        match answer {
            Answer::Value(_) => {
                if !may_return(by.object, room, messages, answer) {
                    return Ok(false);
                }
                self.read_messages(by, messages)
            }
            Answer::Failed { errno, .. } => {
                Ok(messages.is_empty() && self.may_fail_to_read(by.name, by.object, room, errno))
            }
            _ => Ok(false),
        }
    }

    /// Whether poll(2) may have found these events.
    fn may_poll(&self, name: u64, object: Object, events: u64) -> bool
        ensures { result ≡ reads.may_poll (kernel_of self.now) name object events }
    {
        if events == 0x20 {
            return true;
        }
        if events == 8 {
            return !is_enabled(object) || object.waits;
        }
        let waits = self.has_unread(name);
        let may_be = if events == 1 {
            waits
        } else {
            events == 0 && !waits
        };
        is_enabled(object) && !object.waits && may_be
    }

    /// Whether poll(2) may answer so. It changes nothing.
    pub(crate) fn polls(&self, name: u64, object: Object, answer: Answer) -> bool
        ensures { reads.polled (kernel_of self.now) name object answer ≡
            allowed result (kernel_of self.now) }
    {
        match answer {
            Answer::Value(events) => self.may_poll(name, object, events),
            Answer::Failed { errno, .. } => is_poll_error(errno),
            _ => false,
        }
    }
}

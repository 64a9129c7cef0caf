//! What map calls under way tell objects, by the rules of `specs/MapCalls.antt` and `specs/Ioctls.antt`. After `NoMemory` a table is not to be
//! used.

ghost use Rattle.std.specs.Prelude.{◌≡◌, ◌<◌, ◌≤◌, ◌+◌, ◌*◌, ◌^◌, ◌==◌, ◌++◌, ◌∷◌, [], filter, length, not, IfOk, OnOk};
ghost use Rattle.std.specs.List.{list_any};
ghost use Rattle.foundation.specs.declared.TheConstants.{PAGE_SIZE};
ghost use Rattle.kernel_rules.specs.State.{allowed};
ghost use Rattle.kernel_rules.specs.Ioctls as ioctl;
ghost use Rattle.kernel_rules.specs.Ioctls.{span_of};
ghost use Rattle.kernel_rules.specs.MapCalls as maps;
ghost use Rattle.kernel_rules.specs.MapCalls.{is_told, numbers_without, objects_in, spans_without, told_in, with_name};
ghost use Rattle.kernel_rules.specs.Held.{kernel_of, AreTables};

use crate::arguments::asked_for;
use crate::calling::{Span, Told, Untold};
use crate::closes::is_own;
use crate::kernel_table::KernelTable;
use crate::object::Registration;
use crate::page_test::PageTest;
use foundation::{NoMemory, PAGE_SIZE};
use std::alloc::Global;
use uffd_log::Message;

/// The range of a call, if it has one.
pub(crate) fn find_span(spans: &[Span], key: u64) -> Option<Span>
    ensures { result ≡ span_of spans.now key }
{
    for span in spans {
        if span.key == key {
            return Some(*span);
        }
    }
    None
}

/// Takes the ranges of a call away.
pub(crate) fn remove_spans(spans: &mut Vec<Span>, key: u64)
    ensures { spans.new.items ≡ spans_without spans.old.items key }
{
    spans.retain(|one| one.key != key);
}

/// Takes a number away.
pub(crate) fn remove_number(numbers: &mut Vec<u64>, key: u64)
    ensures { numbers.new.items ≡ numbers_without numbers.old.items key }
{
    numbers.retain(|other| *other != key);
}

/// Whether a list has a number.
pub(crate) fn has_number(numbers: &[u64], key: u64) -> bool
    ensures { result ≡ list_any (λ other. other == key) numbers.now }
{
    numbers.iter().any(|other| *other == key)
}

/// Adds a number that a list does not have.
pub(crate) fn add_name(names: &mut Vec<u64>, name: u64) -> Result<(), NoMemory>
    ensures { OnOk result (names.new.items ≡ with_name names.old.items name) }
{
    if has_number(names, name) {
        return Ok(());
    }
    match names.push(name) {
        Ok(()) => Ok(()),
        Err(_) => Err(NoMemory),
    }
}

impl KernelTable {
    /// Whether a map call has anything to tell an object.
    #[tactic(auto, unfolding(crate::specs::Held::kernel_of))]
    pub fn tells_object(&self, key: u64, name: u64) -> bool
        ensures { result ≡ ioctl.tells_object (kernel_of self.now) key name }
    {
        self.told
            .iter()
            .any(|one| one.key == key && one.object == name)
    }

    /// Whether a map call has anything to tell anybody.
    #[tactic(auto, unfolding(crate::specs::Held::kernel_of))]
    pub(crate) fn tells_anybody(&self, key: u64) -> bool
        ensures { result ≡ maps.tells_anybody (kernel_of self.now) key }
    {
        self.told.iter().any(|one| one.key == key)
    }

    /// Whether a map call has an event for an object which is not read.
    #[tactic(auto, unfolding(crate::specs::Held::kernel_of))]
    fn has_event(&self, key: u64, name: u64) -> bool
        ensures { result ≡ ioctl.has_event (kernel_of self.now) key name }
    {
        self.events
            .iter()
            .any(|one| one.key == key && one.object == name)
    }

    /// Whether a map call has an event which is not read.
    #[tactic(auto, unfolding(crate::specs::Held::kernel_of))]
    fn has_events(&self, key: u64) -> bool
        ensures { result ≡ maps.has_events (kernel_of self.now) key }
    {
        self.events.iter().any(|one| one.key == key)
    }

    /// The pages of which a map call has to tell by REMOVE.
    #[tactic(auto, unfolding(crate::specs::Held::kernel_of))]
    pub(crate) fn untold_span(&self, key: u64) -> Option<Span>
        ensures { result ≡ span_of (kernel_of self.now).untold key }
    {
        find_span(&self.untold, key)
    }

    /// The pages that a map call has to clear.
    #[tactic(auto, unfolding(crate::specs::Held::kernel_of))]
    pub fn clear_span(&self, key: u64) -> Option<Span>
        ensures { result ≡ span_of (kernel_of self.now).clears key }
    {
        find_span(&self.clears, key)
    }

    /// Whether a map call has pages of which it has to tell an object by REMOVE.
    pub(crate) fn has_removes(&self, key: u64, name: u64) -> bool
        ensures { result ≡ ioctl.has_removes (kernel_of self.now) key name }
    {
        self.untold_span(key).is_some() && self.tells_object(key, name)
    }

    /// Whether a map call has something to tell an object which is not read.
    pub fn has_untold(&self, name: u64, key: u64) -> bool
        ensures { result ≡ ioctl.has_untold (kernel_of self.now) name key }
    {
        self.has_event(key, name) || self.has_removes(key, name)
    }

    /// The map calls under way.
    #[tactic(auto, unfolding(crate::specs::Held::kernel_of))]
    pub fn calls_under_way(&self) -> &[u64]
        ensures { result.now ≡ (kernel_of self.now).calls }
    {
        &self.calls
    }

    /// Whether an event of a map call is unread: calls that put or protect pages are EAGAIN.
    pub fn is_changing(&self, name: u64) -> bool
        ensures { result ≡ ioctl.is_changing (kernel_of self.now) name }
    {
        for key in self.calls_under_way() {
            if self.has_untold(name, *key) {
                return true;
            }
        }
        false
    }

    /// Whether a map call under way has told an object of itself: they may be.
    #[tactic(auto, unfolding(crate::specs::Held::kernel_of))]
    pub fn may_be_changing(&self, name: u64) -> bool
        ensures { result ≡ ioctl.may_be_changing (kernel_of self.now) name }
    {
        self.told.iter().any(|one| one.object == name)
    }

    /// Whether all events of a call are read.
    pub fn is_told_all(&self, key: u64) -> bool
        ensures { result ≡ maps.is_told_all (kernel_of self.now) key }
    {
        !self.has_events(key) && !(self.untold_span(key).is_some() && self.tells_anybody(key))
    }

    /// Whether the next event of a call is queued.
    #[tactic(auto, unfolding(crate::specs::Held::kernel_of))]
    pub fn is_queued(&self, key: u64) -> bool
        ensures { result ≡ maps.is_queued (kernel_of self.now) key }
    {
        has_number(&self.queued, key)
    }

    /// Whether a call may return.
    pub fn may_return(&self, key: u64) -> bool
        ensures { result ≡ maps.may_return (kernel_of self.now) key }
    {
        self.is_told_all(key) && self.clear_span(key).is_none()
    }

    /// Whether an object is open, and asked for events, by the bit of the feature.
    pub(crate) fn is_told(&self, bit: u32, name: u64) -> bool
        requires { bit < 64 }
        ensures { result ≡ is_told (kernel_of self.now) bit name }
    {
        match self.object(name) {
            Some(object) => asked_for(object, bit),
            None => false,
        }
    }

    /// Whether a page from one on and below another is registered with the object of a range, in it.
    pub(crate) fn watches_in(&self, space: u64, first: u64, end: u64, range: Registration) -> bool
        requires { AreTables self.now }
        ensures { result ≡ maps.watches_in (kernel_of self.now) space first end range }
    {
        if !is_own(range.object, range) {
            return false;
        }
        let from = range.first.max(first);
        let until = (range.first + range.count).min(end);
        let count = until.saturating_sub(from);
        self.some_page(space, from, count, PageTest::Of(range.object))
    }

    /// The objects with which pages from one on and below another are registered, each once.
    pub(crate) fn objects_in(&self, space: u64, first: u64, end: u64) -> Result<Vec<u64>, NoMemory>
        requires { AreTables self.now }
        ensures { IfOk result (λ names.
            names.items ≡ objects_in (kernel_of self.now) space first end) }
    {
        let mut names = Vec::new(self.allocator());
        for range in self.ranges() {
            if self.watches_in(space, first, end, *range) {
                add_name(&mut names, range.object)?;
            }
        }
        Ok(names)
    }

    /// Those of them that asked for events.
    pub(crate) fn told_in(
        &self,
        bit: u32,
        space: u64,
        first: u64,
        end: u64,
    ) -> Result<Vec<u64>, NoMemory>
        requires tables { AreTables self.now }
        requires bit { bit < 64 }
        ensures { IfOk result (λ names.
            names.items ≡ told_in (kernel_of self.now) bit space first end) }
    {
        let mut names = self.objects_in(space, first, end)?;
        self.keep_told(bit, &mut names);
        Ok(names)
    }

    /// Of these objects those stay that asked for events.
    fn keep_told(&self, bit: u32, names: &mut Vec<u64>)
        requires { bit < 64 }
        ensures { names.new.items ≡ filter (is_told (kernel_of self.now) bit) names.old.items }
    {
        names.retain(|name| self.is_told(bit, *name));
    }

    /// The allocator of the tables.
    pub(crate) fn allocator(&self) -> Global {
        *self.faults.allocator()
    }

    /// A call has something to tell an object.
    #[tactic(auto, unfolding(crate::specs::Held::kernel_of))]
    fn add_told(&mut self, key: u64, object: u64) -> Result<(), NoMemory>
        requires { AreTables self.old }
        ensures tables { AreTables self.new }
        ensures added { OnOk result (kernel_of self.new ≡
            maps.with_told (kernel_of self.old) key object) }
    {
        match self.told.push(Told { key, object }) {
            Ok(()) => Ok(()),
            Err(_) => Err(NoMemory),
        }
    }

    /// A call has something to tell each of these objects.
    pub(crate) fn add_all_told(&mut self, key: u64, names: &[u64]) -> Result<(), NoMemory>
        requires { AreTables self.old }
        ensures tables { AreTables self.new }
        ensures added { OnOk result (kernel_of self.new ≡
            maps.with_all_told (kernel_of self.old) key names.now) }
    {
        for name in names {
            self.add_told(key, *name)?;
        }
        Ok(())
    }

    /// Adds an event to those that are not read.
    #[tactic(auto, unfolding(crate::specs::Held::kernel_of))]
    fn push_event(&mut self, event: Untold) -> Result<(), NoMemory>
        requires { AreTables self.old }
        ensures tables { AreTables self.new }
        ensures added { OnOk result (kernel_of self.new ≡
            record (kernel_of self.old) { events = (kernel_of self.old).events ++ event ∷ [] }) }
    {
        match self.events.push(event) {
            Ok(()) => Ok(()),
            Err(_) => Err(NoMemory),
        }
    }

    /// How many times a call has had something to tell.
    #[tactic(auto, unfolding(crate::specs::Held::kernel_of))]
    fn next_rank(&self) -> usize
        ensures { result ≡ length (kernel_of self.now).told }
    {
        self.told.len()
    }

    /// A call has an event for an object.
    fn add_event(&mut self, key: u64, message: Message, object: u64) -> Result<(), NoMemory>
        requires { AreTables self.old }
        ensures tables { AreTables self.new }
        ensures added { OnOk result (kernel_of self.new ≡
            maps.with_event (kernel_of self.old) key message object) }
    {
        let rank = self.next_rank();
        self.push_event(Untold {
            key,
            rank,
            object,
            message,
        })?;
        self.add_told(key, object)
    }

    /// A call has an event for each of these objects.
    pub(crate) fn add_events(
        &mut self,
        key: u64,
        message: Message,
        names: &[u64],
    ) -> Result<(), NoMemory>
        requires { AreTables self.old }
        ensures tables { AreTables self.new }
        ensures added { OnOk result (kernel_of self.new ≡
            maps.with_events (kernel_of self.old) key message names.now) }
    {
        for name in names {
            self.add_event(key, message, *name)?;
        }
        Ok(())
    }

    /// A call has an UNMAP of a range for each object that is to get one.
    pub(crate) fn tell_unmap(
        &mut self,
        key: u64,
        space: u64,
        first: u64,
        count: u64,
    ) -> Result<(), NoMemory>
        requires tables { AreTables self.old }
        requires room { first + count < 2 ^ 52 }
        ensures tables { AreTables self.new }
        ensures told { OnOk result (kernel_of self.new ≡
            maps.unmap_told (kernel_of self.old) key space first count) }
    {
        let names = self.told_in(6, space, first, first + count)?;
        let start = first * PAGE_SIZE;
        let end = (first + count) * PAGE_SIZE;
        self.add_events(key, Message::Unmap { start, end }, &names)
    }

    /// A map call has changed the map.
    #[tactic(auto, unfolding(crate::specs::Held::kernel_of))]
    pub(crate) fn add_calling(&mut self, key: u64) -> Result<(), NoMemory>
        requires { AreTables self.old }
        ensures tables { AreTables self.new }
        ensures added { OnOk result (kernel_of self.new ≡
            maps.with_calling (kernel_of self.old) key) }
    {
        match self.calls.push(key) {
            Ok(()) => Ok(()),
            Err(_) => Err(NoMemory),
        }
    }

    /// The next event of a call is queued.
    #[tactic(auto, unfolding(crate::specs::Held::kernel_of))]
    fn queue_event(&mut self, key: u64) -> Result<(), NoMemory>
        requires { AreTables self.old }
        ensures tables { AreTables self.new }
        ensures queued { OnOk result (kernel_of self.new ≡ record (kernel_of self.old) {
          queued = (kernel_of self.old).queued ++ key ∷ [];
        }) }
    {
        match self.queued.push(key) {
            Ok(()) => Ok(()),
            Err(_) => Err(NoMemory),
        }
    }

    /// The next event of a call is queued, if it has one. False where no rule allows that, and nothing has changed then.
    pub fn tells(&mut self, key: u64) -> Result<bool, NoMemory>
        requires { AreTables self.old }
        ensures tables { AreTables self.new }
        ensures step { IfOk result (λ made.
            maps.tells (kernel_of self.old) key ≡ allowed made (kernel_of self.new)) }
    {
        if self.is_queued(key) || self.is_told_all(key) {
            return Ok(false);
        }
        self.queue_event(key)?;
        Ok(true)
    }

    /// A call has no range to clear any more.
    #[tactic(auto, unfolding(crate::specs::Held::kernel_of))]
    fn drop_clears(&mut self, key: u64)
        requires { AreTables self.old }
        ensures tables { AreTables self.new }
        ensures dropped { kernel_of self.new ≡ record (kernel_of self.old) {
          clears = spans_without (kernel_of self.old).clears key;
        } }
    {
        remove_spans(&mut self.clears, key);
    }

    /// A call clears its pages, or frees them, once its events are read. False where no rule allows that, and nothing has changed then.
    pub fn clears(&mut self, key: u64) -> Result<bool, NoMemory>
        requires { AreTables self.old }
        ensures tables { AreTables self.new }
        ensures step { IfOk result (λ made.
            maps.clears (kernel_of self.old) key ≡ allowed made (kernel_of self.new)) }
    {
        let Some(span) = self.clear_span(key) else {
            return Ok(false);
        };
        if !self.is_told_all(key) {
            return Ok(false);
        }
        self.drop_clears(key);
        let count = span.end.saturating_sub(span.first);
        self.clear(span.space, span.first, count, span.frees)?;
        Ok(true)
    }

    /// A call has returned.
    #[tactic(auto, unfolding(crate::specs::Held::kernel_of))]
    pub(crate) fn returned(&mut self, key: u64)
        requires { AreTables self.old }
        ensures tables { AreTables self.new }
        ensures over { kernel_of self.new ≡ maps.returned (kernel_of self.old) key }
    {
        remove_number(&mut self.calls, key);
        remove_told(&mut self.told, key);
        remove_number(&mut self.queued, key);
        remove_spans(&mut self.untold, key);
    }
}

/// Takes away what a call has to tell.
fn remove_told(told: &mut Vec<Told>, key: u64)
    ensures { told.new.items ≡ filter (λ one. not (one.key == key)) told.old.items }
{
    told.retain(|one| one.key != key);
}

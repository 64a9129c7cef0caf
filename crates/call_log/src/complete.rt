//! What no single line of a log says: whose address space a map call changes, and which calls the rules speak of.

ghost use Rattle.std.specs.Prelude.{◌≡◌, List, IfOk};
ghost use Rattle.log_entries.specs.declared.log_line.LogLine.{LogLine};
ghost use Rattle.log_entries.specs.Readers.{HasRead};

use crate::call_table::CallTable;
use crate::log::Log;
use crate::log_call::LogCall;
use crate::pages::MOST_PAGES;
use foundation::NoMemory;
use indexmap::{IndexMap, IndexSet};
use log_entries::{EntryReader, EntryStore};
use std::alloc::Global;
use std::rc::Rc;
use uffd_log::{Answer, Call};

/// A log that was read: where its calls are among its entries, and these.
#[derive(Drop)]
pub struct ReadLog {
    pub table: CallTable,
    pub entries: EntryReader,
}

/// A log as it is judged: its calls, and the entries from which they are read.
#[derive(Drop)]
pub struct CompleteLog {
    pub log: Log,
    pub entries: Rc<EntryReader>,
}

/// A range of registered bytes of an address space.
#[derive(Clone, Copy, PartialEq, Eq, Hash)]
struct Registered {
    space: u32,
    start: u64,
    len: u64,
}

impl Registered {
    /// Whether it has a byte of another range.
    fn meets(self, start: u64, len: u64) -> bool {
        self.start < start.saturating_add(len) && start < self.start.saturating_add(self.len)
    }
}

/// The address spaces that were met.
#[derive(Clone, Copy)]
enum Met {
    Nobody,
    One(u32),
    Several,
}

impl Met {
    /// Those, and this one.
    fn and(self, space: u32) -> Met {
        match self {
            Met::Nobody => Met::One(space),
            Met::One(other) if other == space => self,
            _ => Met::Several,
        }
    }
}

/// What the calls of a log say of its objects and of the pages that they watch.
#[derive(Drop)]
struct Known {
    /// The ranges that were registered.
    ranges: IndexSet<Registered>,
    /// The objects that the log has seen open, and those whose handshake it has.
    opened: IndexSet<u64>,
    shaken: IndexSet<u64>,
    /// The objects that were open before the log begins, with the address space of the first call on each.
    found: IndexMap<u64, u32>,
    /// The objects that calls are made on, with the line where the last of these begins.
    used: IndexMap<u64, u32>,
}

impl Known {
    /// No call was read.
    fn new(alloc: Global) -> Known {
        Known {
            ranges: IndexSet::new(alloc),
            opened: IndexSet::new(alloc),
            shaken: IndexSet::new(alloc),
            found: IndexMap::new(alloc),
            used: IndexMap::new(alloc),
        }
    }

    /// What all calls of a log say.
    fn read(&mut self, table: &CallTable, entries: &EntryStore) -> Result<(), NoMemory> {
        self.add_all(table, entries)?;
        self.find_all(table, entries)
    }

    /// Adds what each call of a log says.
    fn add_all(&mut self, table: &CallTable, entries: &EntryStore) -> Result<(), NoMemory> {
        for place in 0..table.places.len() {
            if let Some(call) = table.call(entries, place) {
                self.add(&call)?;
            }
        }
        Ok(())
    }

    /// What one call says.
    fn add(&mut self, call: &LogCall) -> Result<(), NoMemory> {
        if let Some(object) = call.object() {
            self.used.insert(object, call.begin)?;
        }
        match (call.call, call.answer) {
            (Call::Register { start, len, .. }, _) if call.is_ok() => {
                self.ranges.insert(Registered {
                    space: call.space,
                    start,
                    len,
                })?;
            }
            (Call::Open { .. }, Some(Answer::Opened(on))) => {
                self.opened.insert(on.object)?;
            }
            (Call::Api { on, .. }, Some(Answer::Features { .. })) => {
                self.shaken.insert(on.object)?;
            }
            _ => {}
        }
        Ok(())
    }

    /// The address space that a call changes. A process that the log has not seen begin may share that whose registered pages it meets, and
    /// where there are several, that of an object that it has found.
    fn space_of(&self, table: &CallTable, call: &LogCall) -> u32 {
        if !call.is_map_call() || has_own_space(table, call) {
            return call.space;
        }
        let Some((start, len)) = call.bytes() else {
            return call.space;
        };
        let mut met = Met::Nobody;
        let mut found = Met::Nobody;
        for range in self.ranges.iter() {
            if range.meets(start, len) {
                met = met.and(range.space);
                if has_found(table, call.space, range.space) {
                    found = found.and(range.space);
                }
            }
        }
        match (met, found) {
            (Met::One(space), _) | (Met::Several, Met::One(space)) => space,
            _ => call.space,
        }
    }

    /// Whether the rules speak of a call: not where the log has seen its object neither open nor make its handshake, or its address space is gone,
    /// and not where its range is too long. A map call takes no more pages away than there are, and only mremap makes any registered.
    fn is_judged(&self, table: &CallTable, call: &LogCall) -> bool {
        if call.is_map_call() {
            return match call.call {
                Call::Mremap { new_len, .. } => {
                    !call.is_ok() || table.size.number(new_len) <= MOST_PAGES
                }
                _ => true,
            };
        }
        if let Some((_, len)) = call.bytes() {
            if table.size.number(len) > MOST_PAGES {
                return false;
            }
        }
        match call.object() {
            Some(object) if call.bytes().is_some() && table.is_gone(object, call.begin) => false,
            Some(object) => self.opened.contains(&object) || self.shaken.contains(&object),
            None => true,
        }
    }

    /// Whether a call has closed its object for good: the log has seen no other descriptor of it, and no call on it begins below that. A process
    /// that got one by a socket may use it before the log says so.
    fn is_last(&self, call: &LogCall) -> bool {
        let used = match call.object() {
            Some(object) => self.used.get(&object).copied(),
            None => None,
        };
        match used {
            Some(line) => call.last && line <= call.end,
            None => call.last,
        }
    }

    /// The object of a call, if it was open before the log begins.
    fn found_by(&self, call: &LogCall) -> Option<u64> {
        let object = call.object()?;
        if self.shaken.contains(&object) && !self.opened.contains(&object) {
            Some(object)
        } else {
            None
        }
    }

    /// Notes the objects of all calls that were open before the log begins.
    fn find_all(&mut self, table: &CallTable, entries: &EntryStore) -> Result<(), NoMemory> {
        for place in 0..table.places.len() {
            if let Some(call) = table.call(entries, place) {
                self.find(&call)?;
            }
        }
        Ok(())
    }

    /// Notes the object of a call, if it was open before the log begins.
    fn find(&mut self, call: &LogCall) -> Result<(), NoMemory> {
        if let Some(object) = self.found_by(call) {
            if !self.found.contains_key(&object) {
                self.found.insert(object, call.space)?;
            }
        }
        Ok(())
    }
}

/// Whether a process has found an object that was opened in an address space.
fn has_found(table: &CallTable, process: u32, space: u32) -> bool {
    for (met, object) in table.met.iter() {
        if *met == process && table.openers.get(object) == Some(&space) {
            return true;
        }
    }
    false
}

/// Whether the log has seen the process of a call begin above it.
fn has_own_space(table: &CallTable, call: &LogCall) -> bool {
    match table.own.get(&call.space) {
        Some(line) => *line < call.begin,
        None => false,
    }
}

/// Puts into the entries and into the table what no line says of a call.
fn settle(known: &Known, table: &mut CallTable, entries: &mut EntryReader) -> Result<(), NoMemory>
    ensures whole { entries.new.whole ≡ entries.old.whole }
    ensures read { (lines : List LogLine) → HasRead lines entries.old → HasRead lines entries.new }
{
    for place in 0..table.places.len() {
        let Some(call) = table.call(&entries.entries, place) else {
            continue;
        };
        let space = known.space_of(table, &call);
        let judged = known.is_judged(table, &call);
        let last = known.is_last(&call);
        if let Some(kept) = table.places.get_mut(place) {
            kept.judged = judged;
            kept.last = last;
            entries.settle(kept.begin as usize, space, kept.last)?;
        }
    }
    Ok(())
}

impl ReadLog {
    /// Reads what the calls say, and puts what no line says into the entries and the table.
    fn settle(&mut self, known: &mut Known) -> Result<(), NoMemory>
        ensures whole { self.new.entries.whole ≡ self.old.entries.whole }
        ensures read { (lines : List LogLine) →
            HasRead lines self.old.entries → HasRead lines self.new.entries }
    {
        known.read(&self.table, &self.entries.entries)?;
        settle(known, &mut self.table, &mut self.entries)
    }

    /// The same, for calls of which nothing was read. The objects that were open before the log begins.
    fn settled(&mut self, alloc: Global) -> Result<IndexMap<u64, u32>, NoMemory>
        ensures whole { self.new.entries.whole ≡ self.old.entries.whole }
        ensures read { (lines : List LogLine) →
            HasRead lines self.old.entries → HasRead lines self.new.entries }
    {
        let mut known = Known::new(alloc);
        self.settle(&mut known)?;
        let Known { found, .. } = known;
        Ok(found)
    }

    /// Finds out what no single line says, and puts it into the entries.
    pub fn complete(self, alloc: Global) -> Result<CompleteLog, NoMemory>
        ensures whole { IfOk result (λ done.
            done.entries.value.whole ≡ self.entries.whole) }
        ensures read { IfOk result (λ done. (lines : List LogLine) →
            HasRead lines self.entries → HasRead lines done.entries.value) }
    {
        let mut read = self;
        let found = read.settled(alloc)?;
        let ReadLog { table, entries } = read;
        let Ok(entries) = Rc::new(alloc, entries) else {
            return Err(NoMemory);
        };
        let Ok(shared) = entries.clone() else {
            return Err(NoMemory);
        };
        let log = Log::new(table, found, shared);
        Ok(CompleteLog { log, entries })
    }
}

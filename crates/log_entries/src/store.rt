//! The events of a log, in little memory: what calls say alike is kept once.

ghost use Rattle.std.specs.Prelude.{◌≡◌, ◌++◌, ◌∷◌, [], length, option_map, slice_get, IfOk, OnErr, OnOk};
ghost use Rattle.kernel_rules.specs.Certified.{outcome_in};
ghost use Rattle.kernel_rules.specs.Runs.{begins, ends, event_of};
ghost use Rattle.log_entries.specs.Stores.{made_in, messages_at, runs_at, settled_at};

use crate::slot::Slot;
use crate::tables::Tables;
use foundation::NoMemory;
use kernel_rules::{Entry, Made, Run};
use std::alloc::Global;
use std::marker::Model;
use uffd_log::{Answer, Message};

/// The events of a log, in their order. An event takes 32 bytes, and each message and run of pages its own size.
#[derive(Drop)]
pub struct EntryStore {
    slots: Vec<Slot>,
    tables: Tables,
}

impl Model for EntryStore {
    ghost use Rattle.std.specs.Prelude.{List};
    ghost use Rattle.kernel_rules.specs.Runs.{Event};
    ghost use Rattle.log_entries.specs.Stores.{events_in, AreIn};

    ghost Value = { List Event };

    ghost view = { λ a. events_in a.tables a.slots.items };

    ghost invariant = { λ a. AreIn a.tables a.slots.items };
}

/// The slot at an index, if there is one.
fn slot_at(slots: &[Slot], at: usize) -> Option<Slot>
    ensures { result ≡ slice_get slots.now at }
{
    slots.get(at).copied()
}

/// Adds a slot.
fn add_slot(slots: &mut Vec<Slot>, slot: Slot) -> Result<(), NoMemory>
    ensures ok { OnOk result (slots.new.items ≡ slots.old.items ++ slot ∷ []) }
    ensures err { OnErr result (slots.new.items ≡ slots.old.items) }
{
    match slots.push(slot) {
        Ok(()) => Ok(()),
        Err(_) => Err(NoMemory),
    }
}

impl EntryStore {
    /// No event.
    pub fn new(alloc: Global) -> EntryStore
        ensures { result ≡ [] }
    {
        EntryStore {
            slots: Vec::new(alloc),
            tables: Tables::new(alloc),
        }
    }

    /// The number of events.
    pub fn len(&self) -> usize
        ensures { result ≡ length self.now }
    {
        self.slots.len()
    }

    /// Adds a call that begins. `NoMemory` changes nothing.
    pub fn push_begin(&mut self, made: Made) -> Result<(), NoMemory>
        ensures ok { OnOk result (self.new ≡ self.old ++ begins made ∷ []) }
        ensures err { OnErr result (self.new ≡ self.old) }
    {
        let slot = self.tables.begin_slot(made)?;
        add_slot(&mut self.slots, slot)
    }

    /// Adds the end of a call. `NoMemory` changes nothing.
    pub fn push_end(
        &mut self,
        key: u32,
        answer: Answer,
        messages: &[Message],
        runs: &[Run],
    ) -> Result<(), NoMemory>
        ensures ok { OnOk result (self.new ≡ self.old ++ ends key
            (record { answer = answer; messages = messages.now; runs = runs.now }) ∷ []) }
        ensures err { OnErr result (self.new ≡ self.old) }
    {
        let slot = self.tables.end_slot(key, answer, messages, runs)?;
        add_slot(&mut self.slots, slot)
    }

    /// The event at an index, from 0 on, if there is one.
    pub fn get(&self, at: usize) -> Result<Option<Entry>, NoMemory>
        ensures { IfOk result (λ found. option_map event_of found ≡ slice_get self.now at) }
    {
        match slot_at(&self.slots, at) {
            Some(slot) => {
                let entry = self.tables.entry_of(slot)?;
                Ok(Some(entry))
            }
            None => Ok(None),
        }
    }

    /// The call that begins in an event, if one does.
    pub fn made(&self, at: usize) -> Option<Made>
        ensures { result ≡ made_in (slice_get self.now at) }
    {
        let slot = slot_at(&self.slots, at)?;
        self.tables.made_of(slot)
    }

    /// The answer of the call that ends in an event, if one does.
    pub fn answer(&self, at: usize) -> Option<Answer>
        ensures { result ≡ option_map (λ out. out.answer) (outcome_in (slice_get self.now at)) }
    {
        let slot = slot_at(&self.slots, at)?;
        self.tables.answer_of(slot)
    }

    /// The messages that the call has read which ends in an event; none if no call ends there.
    pub fn messages(&self, at: usize) -> &[Message]
        ensures { result.now ≡ messages_at (slice_get self.now at) }
    {
        match slot_at(&self.slots, at) {
            Some(slot) => self.tables.messages_of(slot),
            None => &[],
        }
    }

    /// The runs of pages that the call has found which ends in an event; none if no call ends there.
    pub fn runs(&self, at: usize) -> &[Run]
        ensures { result.now ≡ runs_at (slice_get self.now at) }
    {
        match slot_at(&self.slots, at) {
            Some(slot) => self.tables.runs_of(slot),
            None => &[],
        }
    }

    /// Puts in what no line says of the call that begins in an event: the address space that it changes, if it is a map call, and whether
    /// it closes the last descriptor of its object. `NoMemory` changes nothing.
    pub fn settle(&mut self, at: usize, space: u32, last: bool) -> Result<(), NoMemory>
        ensures ok { OnOk result (self.new ≡ settled_at self.old at space last) }
        ensures err { OnErr result (self.new ≡ self.old) }
    {
        let Some(slot) = slot_at(&self.slots, at) else {
            return Ok(());
        };
        let settled = self.tables.settled_slot(slot, space, last)?;
        self.slots[at] = settled;
        Ok(())
    }
}

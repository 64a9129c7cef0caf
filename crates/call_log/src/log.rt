//! The calls of a log, in the order in which they begin.

use crate::call_table::{CallPlace, CallTable};
use crate::log_call::{Kind, LogCall};
use crate::pages::{PageSize, Range};
use indexmap::IndexMap;
use kernel_rules::Run;
use log_entries::EntryReader;
use std::rc::Rc;
use uffd_log::{Call, Message};

/// The calls of a log. Each is read from its entries whenever it is asked for: a log keeps 32 bytes of a call beside these.
#[derive(Drop)]
pub struct Log {
    pub size: PageSize,
    pub(crate) entries: Rc<EntryReader>,
    pub(crate) places: Vec<CallPlace>,
    /// The calls that returned, in the order of their ends.
    pub ends: Vec<u32>,
    /// The objects whose handshake is in the log and whose opening is not, with the address space of the first call on each.
    pub found: IndexMap<u64, u32>,
    /// The processes that were about to end, with the number of the line that says so.
    pub exits: IndexMap<u32, u32>,
    /// The number of the last line of a call.
    pub last_line: u32,
    /// The line of the head that begins with `command`.
    pub command: Vec<u8>,
}

impl Log {
    /// The log of these calls, with the objects that were open before it begins, and the entries from which its calls are read.
    pub(crate) fn new(
        table: CallTable,
        found: IndexMap<u64, u32>,
        entries: Rc<EntryReader>,
    ) -> Log {
        let CallTable {
            size,
            places,
            ends,
            exits,
            last_line,
            command,
            ..
        } = table;
        Log {
            size,
            entries,
            places,
            ends,
            found,
            exits,
            last_line,
            command,
        }
    }

    /// Whether no line of it was lost.
    pub fn is_whole(&self) -> bool {
        self.entries.whole
    }

    /// The number of calls.
    pub fn count(&self) -> usize {
        self.places.len()
    }

    /// A call, by its place.
    pub fn call(&self, place: u32) -> Option<LogCall> {
        let kept = self.places.get(place as usize)?;
        kept.call(&self.entries.entries)
    }

    /// The messages that a call has read.
    pub fn messages_of(&self, call: &LogCall) -> &[Message] {
        match (call.call, call.ending) {
            (Call::Read { .. }, Some(entry)) => self.entries.entries.messages(entry as usize),
            _ => &[],
        }
    }

    /// The runs that a scan has found.
    pub fn runs_of(&self, call: &LogCall) -> &[Run] {
        match (call.call, call.ending) {
            (Call::Scan { .. }, Some(entry)) => self.entries.entries.runs(entry as usize),
            _ => &[],
        }
    }

    /// The pages of a call.
    pub fn pages_of(&self, call: &LogCall) -> Option<Range> {
        let (start, len) = call.bytes()?;
        Some(self.size.range(start, len))
    }

    /// The place of the first call that begins below a line.
    pub fn first_below(&self, line: u32) -> usize {
        let entries = &self.entries.entries;
        self.places.partition_point(|kept| match entries.made(kept.begin as usize) {
            Some(made) => made.key <= line,
            None => false,
        })
    }

    /// How many calls are of a kind.
    pub fn count_of(&self, kind: Kind) -> u64 {
        let mut count = 0u64;
        for kept in &self.places {
            if kept.kind == kind {
                count = count.saturating_add(1);
            }
        }
        count
    }

    /// Whether the rules speak of each call.
    pub fn are_all_judged(&self) -> bool {
        self.places.iter().all(|kept| kept.judged)
    }

    /// Notes how sure the answer of a call is.
    pub fn set_kind(&mut self, place: u32, kind: Kind) {
        if let Some(kept) = self.places.get_mut(place as usize) {
            kept.kind = kind;
        }
    }

    /// Notes that a call has taken effect.
    pub fn set_done(&mut self, place: u32) {
        if let Some(kept) = self.places.get_mut(place as usize) {
            kept.done = true;
        }
    }
}

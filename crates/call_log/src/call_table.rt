//! Where the entries of each call are, and what the lines of a log say beside its entries.

use crate::log_call::{Kind, LogCall};
use crate::pages::PageSize;
use foundation::NoMemory;
use indexmap::{IndexMap, IndexSet};
use log_entries::EntryStore;
use std::alloc::Global;
use uffd_log::{Answer, Call, Stamp};

/// A call: its entries, and what a judge notes of it.
#[derive(Clone, Copy)]
pub(crate) struct CallPlace {
    /// When it ended, in nanoseconds of the log's clock.
    until: u64,
    /// The entry where it begins.
    pub(crate) begin: u32,
    /// The process that made it.
    process: u32,
    /// The entry where it ends; 0, where no call ends, if it never returned.
    end: u32,
    /// The number of the line where it ends; 0 if it never returned.
    line: u32,
    /// Of close: no descriptor of the object is left.
    pub(crate) last: bool,
    pub(crate) judged: bool,
    pub(crate) done: bool,
    pub(crate) kind: Kind,
}

/// The calls of a log, in the order in which they begin. What they are is in the entries of the log.
#[derive(Drop)]
pub struct CallTable {
    pub(crate) size: PageSize,
    pub(crate) places: Vec<CallPlace>,
    /// The calls that returned, in the order of their ends.
    pub(crate) ends: Vec<u32>,
    /// The processes that the log has seen begin, with the line of each.
    pub(crate) own: IndexMap<u32, u32>,
    /// Processes, each with an object that it has found.
    pub(crate) met: IndexSet<(u32, u64)>,
    /// The objects that the log has seen open, each with the process that opened it; and those of these whose process then began another program,
    /// with the line of that: their address space is gone.
    pub(crate) openers: IndexMap<u64, u32>,
    pub(crate) gone: IndexMap<u64, u32>,
    /// The processes that were about to end, with the line of each.
    pub(crate) exits: IndexMap<u32, u32>,
    /// The number of the last line of a call.
    pub(crate) last_line: u32,
    /// The line of the head that begins with `command`.
    pub(crate) command: Vec<u8>,
}

/// The place of a thing among as many before it, as a log keeps it.
pub fn narrow(place: usize) -> Result<u32, NoMemory> {
    match u32::try_from(place) {
        Ok(place) => Ok(place),
        Err(_) => Err(NoMemory),
    }
}

/// The answer of a call. A munmap or madvise that never returned may have taken effect: its thread was killed while its events waited.
fn answer_or_done(call: Call, answer: Option<Answer>) -> Option<Answer> {
    match (answer, call) {
        (None, Call::Munmap { .. } | Call::Madvise { .. }) => Some(Answer::Done),
        _ => answer,
    }
}

impl CallPlace {
    /// The entry where it ends, if it returned.
    fn ending(&self) -> Option<u32> {
        if self.end > 0 { Some(self.end) } else { None }
    }

    /// The call, of a log with these entries.
    pub(crate) fn call(&self, entries: &EntryStore) -> Option<LogCall> {
        let made = entries.made(self.begin as usize)?;
        let ending = self.ending();
        let answer = match ending {
            Some(end) => entries.answer(end as usize),
            None => None,
        };
        Some(LogCall {
            call: made.call,
            answer: answer_or_done(made.call, answer),
            begin: made.key,
            end: self.line,
            until: self.until,
            process: self.process,
            thread: made.thread,
            space: made.space,
            program: made.program,
            ending,
            last: self.last,
            judged: self.judged,
            done: self.done,
            kind: self.kind,
        })
    }
}

impl CallTable {
    /// No call was read.
    pub(crate) fn new(alloc: Global) -> CallTable {
        CallTable {
            size: PageSize(4096),
            places: Vec::new(alloc),
            ends: Vec::new(alloc),
            own: IndexMap::new(alloc),
            met: IndexSet::new(alloc),
            openers: IndexMap::new(alloc),
            gone: IndexMap::new(alloc),
            exits: IndexMap::new(alloc),
            last_line: 1,
            command: Vec::new(alloc),
        }
    }

    /// A call begins in this entry, with this stamp. No line of the language that begins a call has no entry.
    pub(crate) fn add(&mut self, entry: Option<u32>, stamp: Stamp) -> Result<(), NoMemory> {
        self.places.push(CallPlace {
            until: 0,
            begin: entry.unwrap_or(u32::MAX),
            process: stamp.pid,
            end: 0,
            line: 0,
            last: false,
            judged: false,
            done: false,
            kind: Kind::Unjudged,
        })?;
        Ok(())
    }

    /// The call at a place has ended, if the log has an entry of its end.
    pub(crate) fn end(&mut self, place: u32, ended: &LogCall) -> Result<(), NoMemory> {
        let Some(entry) = ended.ending else {
            return Ok(());
        };
        self.ends.push(place)?;
        if let Some(kept) = self.places.get_mut(place as usize) {
            kept.end = entry;
            kept.line = ended.end;
            kept.until = ended.until;
            kept.last = ended.last;
        }
        Ok(())
    }

    /// A process has opened an object.
    pub(crate) fn note_opener(&mut self, object: u64, process: u32) -> Result<(), NoMemory> {
        self.openers.insert(object, process)?;
        Ok(())
    }

    /// A process begins another program at a line: the address space that its objects watch is gone.
    pub(crate) fn lose_space(&mut self, process: u32, line: u32) -> Result<(), NoMemory> {
        for (object, opener) in self.openers.iter() {
            if *opener == process && !self.gone.contains_key(object) {
                self.gone.insert(*object, line)?;
            }
        }
        Ok(())
    }

    /// Whether the address space of an object was gone above a line.
    pub(crate) fn is_gone(&self, object: u64, line: u32) -> bool {
        match self.gone.get(&object) {
            Some(gone) => *gone < line,
            None => false,
        }
    }

    /// The call at a place, of a log with these entries.
    pub(crate) fn call(&self, entries: &EntryStore, place: usize) -> Option<LogCall> {
        self.places.get(place)?.call(entries)
    }
}

//! A run that was found, as the moves that the checker of `kernel_rules` takes, one after another.

use crate::judging::JudgedLog;
use crate::run::{InsertedStep, Run, RunStep};
use call_log::call_table::narrow;
use call_log::log::Log;
use foundation::NoMemory;
use kernel_rules::Move;
use log_entries::EntryStore;
use std::alloc::Global;
use uffd_log::Answer;

/// How far the opening of an object that was found has come, whose two entries are no lines of calls.
#[derive(Clone, Copy)]
enum Opening {
    Nothing,
    Begun(u32),
    Opened,
}

/// A call, by the number of the line where it begins, and the entry where it ends.
#[derive(Clone, Copy)]
struct Lines {
    begin: u32,
    ending: Option<u32>,
}

/// The moves of a run from its next one on.
#[derive(Drop)]
pub(crate) struct Moves {
    calls: Vec<Lines>,
    run: Run,
    late: Vec<InsertedStep>,
    /// The ending that a call is given which never returned: that of a call that was done.
    done: usize,
    /// The next step, and the next one that was put in later.
    next: usize,
    next_late: usize,
    /// The next entry.
    at: usize,
    /// How many calls have begun, and how many of their lines were passed.
    begun: u32,
    lines: u32,
    opening: Opening,
}

impl Moves {
    /// The moves of the run that was found, of a log with these entries.
    pub(crate) fn new(
        alloc: Global,
        judged: JudgedLog,
        entries: &EntryStore,
    ) -> Result<Moves, NoMemory> {
        let (log, run) = parts_of(judged);
        let late = run.sorted_late(alloc)?;
        Ok(Moves {
            calls: lines_of(alloc, &log)?,
            run,
            late,
            done: done_entry(entries),
            next: 0,
            next_late: 0,
            at: 0,
            begun: 0,
            lines: 0,
            opening: Opening::Nothing,
        })
    }

    /// No more moves than this are left.
    pub(crate) fn most(&self, entries: &EntryStore) -> usize {
        entries
            .len()
            .saturating_mul(2)
            .saturating_add(self.run.steps.len())
            .saturating_add(self.late.len())
    }

    /// The next move. `None` at the end.
    pub(crate) fn next(&mut self, entries: &EntryStore) -> Option<Move> {
        match self.opening {
            Opening::Begun(key) => {
                self.opening = Opening::Opened;
                let at = self.at;
                Some(Move::Effect { key, at })
            }
            Opening::Opened => {
                self.opening = Opening::Nothing;
                self.at = self.at.saturating_add(1);
                Some(Move::Line)
            }
            Opening::Nothing => self.next_before(entries),
        }
    }

    /// The next move before an entry or at it: the beginning of an opening, a step, or the line of a call.
    fn next_before(&mut self, entries: &EntryStore) -> Option<Move> {
        let made = entries.made(self.at);
        if let Some(made) = made {
            if !self.is_begin(made.key) {
                self.opening = Opening::Begun(made.key);
                self.at = self.at.saturating_add(1);
                return Some(Move::Line);
            }
        }
        if let Some(what) = self.next_step() {
            return self.move_of(what);
        }
        if self.at >= entries.len() {
            return None;
        }
        if made.is_some() {
            self.begun = self.begun.saturating_add(1);
        }
        self.pass_line();
        Some(Move::Line)
    }

    /// The line of an entry of a call is passed.
    fn pass_line(&mut self) {
        self.at = self.at.saturating_add(1);
        self.lines = self.lines.saturating_add(1);
    }

    /// The next step before the next line.
    fn next_step(&mut self) -> Option<RunStep> {
        let step = self.run.steps.get(self.next).copied()?;
        if step.lines != self.lines {
            return None;
        }
        if let Some(late) = self.late.get(self.next_late).copied() {
            if late.before as usize <= self.next {
                self.next_late = self.next_late.saturating_add(1);
                return Some(late.what);
            }
        }
        self.next = self.next.saturating_add(1);
        Some(step.what)
    }

    /// Whether the next call begins with the line of this number.
    fn is_begin(&self, key: u32) -> bool {
        match self.calls.get(self.begun as usize) {
            Some(call) => call.begin == key,
            None => false,
        }
    }

    /// The line where a call begins.
    fn begin_of(&self, place: u32) -> Option<u32> {
        Some(self.calls.get(place as usize)?.begin)
    }

    /// The move of a step, with calls by their lines.
    fn move_of(&self, what: RunStep) -> Option<Move> {
        match what {
            RunStep::Effect(place) => {
                let (key, at) = self.ending_of(place)?;
                Some(Move::Effect { key, at })
            }
            RunStep::Refuses(place) => {
                let (key, at) = self.ending_of(place)?;
                Some(Move::Refuses { key, at })
            }
            RunStep::Starts(place) => {
                let (key, at) = self.ending_of(place)?;
                Some(Move::Starts { key, at })
            }
            RunStep::Reads(place) => {
                let (key, at) = self.ending_of(place)?;
                Some(Move::Reads { key, at })
            }
            _ => self.move_of_unseen(what),
        }
    }

    /// The line where a call begins, and the entry with its ending.
    fn ending_of(&self, place: u32) -> Option<(u32, usize)> {
        let call = self.calls.get(place as usize)?;
        let at = match call.ending {
            Some(entry) => entry as usize,
            None => self.done,
        };
        Some((call.begin, at))
    }

    /// The same of a step that no line shows.
    fn move_of_unseen(&self, what: RunStep) -> Option<Move> {
        Some(match self.run.unseen(what)? {
            Move::Tells { key } => Move::Tells {
                key: self.begin_of(key)?,
            },
            Move::Clears { key } => Move::Clears {
                key: self.begin_of(key)?,
            },
            Move::Protects { key, page } => Move::Protects {
                key: self.begin_of(key)?,
                page,
            },
            other => other,
        })
    }
}

/// The log and its run. The kernel is gone, with its pages.
fn parts_of(judged: JudgedLog) -> (Log, Run) {
    let JudgedLog { log, run, .. } = judged;
    (log, run)
}

/// Where the calls of a log begin and end.
fn lines_of(alloc: Global, log: &Log) -> Result<Vec<Lines>, NoMemory> {
    let mut lines = Vec::with_capacity(alloc, log.count())?;
    for place in 0..narrow(log.count())? {
        if let Some(call) = log.call(place) {
            lines.push(Lines {
                begin: call.begin,
                ending: call.ending,
            })?;
        }
    }
    Ok(lines)
}

/// An entry where a call ends that did what it was asked to and returned nothing else.
fn done_entry(entries: &EntryStore) -> usize {
    for at in 0..entries.len() {
        if entries.answer(at) == Some(Answer::Done) {
            return at;
        }
    }
    usize::MAX
}

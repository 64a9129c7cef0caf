//! Looking for a run of the rules that has exactly the answers of a log.
//!
//! Each call takes effect somewhere between its begin and its end: as late as that, unless another call's answer needs it earlier.

pub(crate) mod index;
pub(crate) mod spans;

use crate::accesses::Shown;
use crate::cases::one_page;
use crate::history::{Action, History};
use crate::kernel::Kernel;
use crate::needs::CallFilter;
use crate::run::{Run, RunStep};
use crate::search::index::Index;
use crate::search::spans::ObjectPage;
use crate::tasks::{Frame, Task, others};
use call_log::log::Log;
use call_log::log_call::{Kind, LogCall, has_put};
use foundation::NoMemory;
use indexmap::IndexMap;
use kernel_rules::{Move, Presence};
use std::alloc::Global;
use uffd_log::{Answer, Errno};

/// A call that has begun and has not taken effect.
#[derive(Clone, Copy)]
pub(crate) struct Open {
    pub(crate) call: u32,
    /// The number of steps before its begin.
    pub(crate) begun: u32,
    /// Of a read: how many of its messages were taken before the others.
    pub(crate) taken: u32,
}

/// An install that took effect, by the place of its step.
#[derive(Clone, Copy)]
pub(crate) struct Put {
    pub(crate) call: u32,
    pub(crate) step: u32,
}

/// A call for whose answer no run was found, and why.
#[derive(Clone, Copy)]
pub(crate) struct Unexplained {
    pub(crate) call: u32,
    pub(crate) reason: &'static str,
}

#[derive(Drop)]
pub(crate) struct Search {
    pub(crate) log: Log,
    pub(crate) kernel: Kernel,
    pub(crate) run: Run,
    /// In the order in which they began.
    pub(crate) open: Vec<Open>,
    /// What is to be done, the next at the end.
    pub(crate) agenda: Vec<Task>,
    /// The calls that are to take effect once what they need is done.
    pub(crate) settling: Vec<u32>,
    /// Whether there was too much to do for them.
    pub(crate) gave_up: bool,
    pub(crate) index: Index,
    pub(crate) put: Vec<Put>,
    /// For each object, the step of the read with messages that took effect last.
    pub(crate) took: IndexMap<u64, u32>,
    /// Of the reads among them: the threads of their messages so far.
    pub(crate) shown: Vec<Shown>,
    /// Whether the thread that touched a page last has queued its fault.
    pub(crate) touched: bool,
    /// A poll whose effect was put in before an install.
    pub(crate) placed: Option<u32>,
    /// How many threads were made up for messages that name none, and for messages that nobody reads.
    pub(crate) unnamed: u64,
    pub(crate) strangers: u64,
    pub(crate) unexplained: Vec<Unexplained>,
    /// The line of the log that is looked at.
    pub(crate) line: u32,
    pub(crate) history: History,
}

impl Search {
    /// Nothing is done yet. `page` is that whose history is noted, if any.
    pub(crate) fn new(alloc: Global, log: Log, page: Option<u64>) -> Result<Search, NoMemory> {
        let index = Index::new(alloc, &log)?;
        let kernel = Kernel::new(alloc, &log)?;
        Ok(Search {
            log,
            kernel,
            run: Run::new(alloc),
            open: Vec::new(alloc),
            agenda: Vec::new(alloc),
            settling: Vec::new(alloc),
            gave_up: false,
            index,
            put: Vec::new(alloc),
            took: IndexMap::new(alloc),
            shown: Vec::new(alloc),
            touched: false,
            placed: None,
            unnamed: 0,
            strangers: 0,
            unexplained: Vec::new(alloc),
            line: 0,
            history: History::new(alloc, page),
        })
    }

    /// Goes through the lines of the log.
    pub(crate) fn search(&mut self) -> Result<(), NoMemory> {
        let mut begun = 0u32;
        for place in 0..self.log.ends.len() {
            let Some(end) = self.log.ends.get(place).copied() else {
                break;
            };
            begun = self.begin_before(begun, end)?;
            self.end(end)?;
            self.run.add_line();
        }
        self.begin_before(begun, u32::MAX)?;
        Ok(())
    }

    /// The calls from a place on begin whose lines are above the end of another call. Returns the place of the first that does not.
    fn begin_before(&mut self, first: u32, end: u32) -> Result<u32, NoMemory> {
        let until = match self.log.call(end) {
            Some(call) => call.end,
            None => u32::MAX,
        };
        for place in first..u32::MAX {
            match self.log.call(place) {
                Some(call) if call.begin < until => {}
                _ => return Ok(place),
            }
            self.begin(place)?;
            self.run.add_line();
        }
        Ok(first)
    }

    fn begin(&mut self, place: u32) -> Result<(), NoMemory> {
        let Some(call) = self.log.call(place) else {
            return Ok(());
        };
        if call.has_effect() {
            let begun = self.run.len()?;
            self.open.push(Open {
                call: place,
                begun,
                taken: 0,
            })?;
        }
        Ok(())
    }

    fn end(&mut self, place: u32) -> Result<(), NoMemory> {
        let Some(call) = self.log.call(place) else {
            return Ok(());
        };
        self.line = call.end;
        if call.answer == Some(Answer::Interrupted) && !self.log.messages_of(&call).is_empty() {
            self.refuse(place, "it was interrupted, and read messages")?;
        }
        if call.has_effect() && !call.done {
            self.carry_out(Task::Settle(place))?;
        }
        let key = u64::from(place);
        if !self.kernel.rules.is_told_all(key) {
            self.carry_out(others(CallFilter::Events))?;
        }
        if !self.kernel.rules.is_told_all(key) {
            self.refuse(place, "an event of the call is unread")?;
        } else if self.kernel.rules.clear_span(key).is_some() {
            self.step(Move::Clears { key: place })?;
        }
        self.end_telling(place)
    }

    /// A call has returned. Where it is a map call that has told objects, it is the last moment for those which these refused with EAGAIN because of it.
    fn end_telling(&mut self, place: u32) -> Result<(), NoMemory> {
        if self.kernel.rules.calls().contains(&u64::from(place)) {
            self.carry_out(others(CallFilter::RefusedDuring(place)))?;
            self.kernel.rules.returned(u64::from(place));
        }
        Ok(())
    }

    /// A step that the log does not show. Whether the rules allow it.
    pub(crate) fn step(&mut self, step: Move) -> Result<bool, NoMemory> {
        let seen = self.seen_by_step(step);
        let made = self.kernel.make(&self.log, step)?;
        if made {
            self.run.add_unseen(step)?;
            self.note_action(Action::Step(step), seen)?;
        }
        Ok(made)
    }

    /// No rule allows the answer of a call.
    fn refuse(&mut self, place: u32, reason: &'static str) -> Result<(), NoMemory> {
        self.unexplained.push(Unexplained {
            call: place,
            reason,
        })?;
        self.set_kind(place, Kind::Unexplained);
        Ok(())
    }

    pub(crate) fn set_kind(&mut self, place: u32, kind: Kind) {
        self.log.set_kind(place, kind);
    }

    /// A call takes effect, and its answer is judged.
    pub(crate) fn take_effect(&mut self, frame: Frame) -> Result<(), NoMemory> {
        let place = frame.call;
        let Some(call) = self.log.call(place) else {
            return Ok(());
        };
        if !self.settling.contains(&place) {
            return Ok(());
        }
        let step = self.run.len()?;
        if self.placed == Some(place) {
            self.placed = None;
        } else {
            let seen = self.seen_by_call(&call);
            match self.taken(place) {
                0 => {
                    let what = self.judge(frame, &call)?;
                    self.run.add(what)?;
                }
                _ => self.take_rest(frame, &call)?,
            }
            self.note_action(Action::Call(place), seen)?;
        }
        self.finish(place, &call, step)
    }

    /// The messages of a read are taken which are not yet.
    fn take_rest(&mut self, frame: Frame, call: &LogCall) -> Result<(), NoMemory> {
        let all = u32::try_from(self.log.messages_of(call).len()).unwrap_or(u32::MAX);
        if self.taken(frame.call) == all || self.take_part(frame.call, all)? {
            self.note_kind(frame, call);
            return Ok(());
        }
        let reason = self.kernel.why(&self.log, call);
        self.refuse(frame.call, reason)
    }

    /// Whether a call that says that it has put pages was refused with EAGAIN, and its field has what the program had there: one of these was there before.
    pub(crate) fn is_refused(&self, call: &LogCall) -> bool {
        let (Some(object), Some(put)) = (call.object(), call.done_pages(self.log.size)) else {
            return false;
        };
        match self.kernel.space_of(object) {
            Some(space) => {
                call.errno() == Some(Errno::Eagain)
                    && self.kernel.has(space, put, Presence::Present)
            }
            None => false,
        }
    }

    /// Judges the answer of a call, which takes effect so.
    fn judge(&mut self, frame: Frame, call: &LogCall) -> Result<RunStep, NoMemory> {
        if self.is_refused(call) && self.kernel.refuse(&self.log, frame.call, call)? {
            self.note_kind(frame, call);
            return Ok(RunStep::Refuses(frame.call));
        }
        let outside = self.kernel.rules.outside().len();
        if self.kernel.take(&self.log, frame.call, call)? {
            if self.kernel.rules.outside().len() > outside && !self.is_overtaken(call) {
                self.kernel.notes.outside.push(u64::from(frame.call))?;
            }
            self.note_kind(frame, call);
            return Ok(RunStep::Effect(frame.call));
        }
        let reason = if self.gave_up {
            "the search was given up"
        } else {
            self.kernel.why(&self.log, call)
        };
        self.refuse(frame.call, reason)?;
        self.kernel.force(&self.log, frame.call, call)?;
        Ok(RunStep::Effect(frame.call))
    }

    /// Whether a page of a call may have lost its registration while the call lasted: its monitor could not know that.
    fn is_overtaken(&self, call: &LogCall) -> bool {
        let (Some(object), Some(range)) = (call.object(), self.log.pages_of(call)) else {
            return false;
        };
        let Some(space) = self.kernel.space_of(object) else {
            return false;
        };
        for number in range.first..range.end() {
            let at = ObjectPage {
                object,
                space,
                addr: self.log.size.address(number),
            };
            let is_outside = self.kernel.page(space, number).is_none();
            if is_outside && self.index.is_gone(at, call.begin, call.end) {
                return true;
            }
        }
        false
    }

    /// Notes how sure the answer of a call is, unless that is known.
    fn note_kind(&mut self, frame: Frame, call: &LogCall) {
        let is_noted = match self.log.call(frame.call) {
            Some(call) => call.kind != Kind::Unjudged,
            None => true,
        };
        if is_noted {
            return;
        }
        let has_messages = !self.log.messages_of(call).is_empty();
        let may = has_messages || self.kernel.resolved || self.run.has_access_from(frame.first);
        self.set_kind(frame.call, if may { Kind::May } else { Kind::Must });
    }

    /// How many messages of a read were taken before its others.
    pub(crate) fn taken(&self, place: u32) -> u32 {
        match self.find_open(place) {
            Some(open) => open.taken,
            None => 0,
        }
    }

    /// A call that has not taken effect.
    pub(crate) fn find_open(&self, place: u32) -> Option<Open> {
        for open in &self.open {
            if open.call == place {
                return Some(*open);
            }
        }
        None
    }

    /// The messages of a read that are not yet taken and come before the one at this place are taken, and the others later. False where there is none, or no rule
    /// allows it.
    pub(crate) fn take_part(&mut self, read: u32, until: u32) -> Result<bool, NoMemory> {
        let taken = self.taken(read);
        let Some(call) = self.log.call(read) else {
            return Ok(false);
        };
        if taken >= until || !self.kernel.may_start(&self.log, read, &call)? {
            return Ok(false);
        }
        let step = self.run.len()?;
        if taken == 0 {
            self.run.add(RunStep::Starts(read))?;
        }
        for at in taken..until {
            if !self.kernel.take_message(&self.log, read, &call, at)? {
                return Ok(false);
            }
            self.run.add(RunStep::Reads(read))?;
            self.note_part(read, at.saturating_add(1));
        }
        self.note_taken(&call, step)?;
        Ok(true)
    }

    /// How many messages of a read are taken.
    fn note_part(&mut self, read: u32, taken: u32) {
        for open in &mut self.open {
            if open.call == read {
                open.taken = taken;
            }
        }
    }

    /// A call has taken effect, by this step.
    fn finish(&mut self, place: u32, call: &LogCall, step: u32) -> Result<(), NoMemory> {
        self.log.set_done(place);
        self.open.retain(|open| open.call != place);
        self.settling.retain(|other| *other != place);
        self.shown.retain(|shown| shown.read != place);
        if call.install_mode().is_some() && has_put(call) {
            self.put.push(Put { call: place, step })?;
        }
        if !self.log.messages_of(call).is_empty() {
            self.note_taken(call, step)?;
        }
        Ok(())
    }

    /// A read has taken messages, before or by this step.
    fn note_taken(&mut self, call: &LogCall, step: u32) -> Result<(), NoMemory> {
        if let Some(object) = call.object() {
            self.took.insert(object, step)?;
        }
        Ok(())
    }

    /// Whether a page is registered, and known to be present.
    pub(crate) fn is_there(&self, space: u32, number: u64) -> bool {
        self.kernel.has(space, one_page(number), Presence::Present)
    }
}

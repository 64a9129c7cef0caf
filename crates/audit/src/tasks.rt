//! What is to be done for the answer of a call, before it takes effect: other calls that take effect earlier, and steps that no line shows.

use crate::accesses::ThreadTask;
use crate::cases::one_page;
use crate::needs::{CallFilter, is_refused_for_now};
use crate::polls::PollTask;
use crate::search::Search;
use crate::tellers::moved_to;
use call_log::log_call::{LogCall, PROTECTS};
use call_log::pages::Range;
use foundation::NoMemory;
use kernel_rules::{Move, Presence};
use uffd_log::{Call, Errno};

/// The most tasks for a call that ends: each open call takes effect once, and needs few for each of its pages and messages.
const MOST_TASKS: u32 = 1 << 20;

/// A call that takes effect, with the number of steps before those that it needs.
#[derive(Clone, Copy)]
pub(crate) struct Frame {
    pub(crate) call: u32,
    pub(crate) first: u32,
}

/// What is to be done. The agenda has the next at its end.
#[derive(Clone, Copy)]
pub(crate) enum Task {
    /// A call takes effect, after what its answer needs.
    Settle(u32),
    /// It takes effect now.
    Take(Frame),
    /// The open calls that are looked for take effect, from this place of the log on.
    Others { wanted: CallFilter, from: u32 },
    /// What an install needs, once the reads of its pages' faults took effect.
    Install(u32),
    /// The pages of a range that are present are cleared by a MADV_DONTNEED that is under way, where there is one.
    MakeMissing { space: u32, range: Range },
    /// The same, once each such madvise took effect.
    Clear { space: u32, page: u64 },
    /// Events are read where such a madvise has to tell of the page first.
    TellOf { space: u32, page: u64 },
    /// A page that is not write-protected is put or protected by a call that is under way, where there is one.
    MakeProtected { object: u64, page: u64 },
    /// The same by a protection of several pages, which changes the others later.
    ProtectAlone { object: u64, page: u64 },
    /// The same by this one.
    ProtectBy { call: u32, page: u64 },
    /// The events of an object are read.
    ReadEvents(u64),
    /// The map calls under way take effect, unless one has told the object.
    ChangeByAny(u64),
    /// Threads saw the pages of a call as they were before, whose faults are read after it.
    Foresee(u32),
    Thread(ThreadTask),
    Poll(PollTask),
}

/// The calls that are looked for take effect.
pub(crate) fn others(wanted: CallFilter) -> Task {
    Task::Others { wanted, from: 0 }
}

impl Search {
    /// Puts a task before those of the agenda.
    pub(crate) fn plan(&mut self, task: Task) -> Result<(), NoMemory> {
        self.agenda.push(task)?;
        Ok(())
    }

    /// Does a task, and what it needs.
    pub(crate) fn carry_out(&mut self, task: Task) -> Result<(), NoMemory> {
        self.agenda.clear();
        self.plan(task)?;
        for _ in 0..MOST_TASKS {
            let Some(task) = self.agenda.pop() else {
                return Ok(());
            };
            self.turn(task)?;
        }
        self.give_up()
    }

    /// The calls that are about to take effect do, without what is left to do for them.
    fn give_up(&mut self) -> Result<(), NoMemory> {
        self.gave_up = true;
        for _ in 0..self.agenda.len() {
            if let Some(Task::Take(frame)) = self.agenda.pop() {
                self.take_effect(frame)?;
            }
        }
        self.gave_up = false;
        Ok(())
    }

    fn turn(&mut self, task: Task) -> Result<(), NoMemory> {
        match task {
            Task::Settle(call) => self.begin_settling(call),
            Task::Take(frame) => self.take_effect(frame),
            Task::Others { wanted, from } => self.settle_others(wanted, from),
            Task::Install(call) => self.prepare_install(call),
            Task::MakeMissing { space, range } => self.make_missing(space, range),
            Task::MakeProtected { object, page } => self.make_protected(object, page),
            Task::ProtectAlone { object, page } => self.protect_alone(object, page),
            Task::ProtectBy { call, page } => self.protect_by(call, page),
            Task::Clear { space, page } => self.clear_page(space, page),
            Task::TellOf { space, page } => self.tell_of(space, page),
            Task::ReadEvents(object) => self.read_events(object),
            Task::ChangeByAny(object) => self.change_by_any(object),
            Task::Foresee(call) => self.foresee(call),
            Task::Thread(task) => self.turn_thread(task),
            Task::Poll(task) => self.turn_poll(task),
        }
    }

    /// A call is to take effect, unless it has, or is about to.
    fn begin_settling(&mut self, place: u32) -> Result<(), NoMemory> {
        let Some(call) = self.log.call(place) else {
            return Ok(());
        };
        if call.done || self.settling.contains(&place) {
            return Ok(());
        }
        self.settling.push(place)?;
        let first = self.run.len()?;
        self.plan(Task::Take(Frame { call: place, first }))?;
        self.prepare(place, &call)
    }

    /// The next open call that is looked for takes effect, and then the others.
    fn settle_others(&mut self, wanted: CallFilter, from: u32) -> Result<(), NoMemory> {
        let Some(next) = self.next_open(wanted, from) else {
            return Ok(());
        };
        let from = next.saturating_add(1);
        self.plan(Task::Others { wanted, from })?;
        self.plan(Task::Settle(next))
    }

    /// Plans what the answer of a call needs.
    fn prepare(&mut self, place: u32, call: &LogCall) -> Result<(), NoMemory> {
        match call.call {
            Call::Mmap { .. } | Call::Munmap { .. } | Call::Mremap { .. } | Call::Madvise { .. } =>
                self.prepare_map_call(place, call),
            Call::WriteProtect { mode, .. } => self.prepare_protect(place, call, mode),
            Call::Wake { .. } => self.plan_reads_of(call),
            Call::Unregister { .. } => self.prepare_unregister(call),
            Call::Close { on } if call.last => self.plan(others(CallFilter::OfObject(on.object))),
            Call::Read { .. } => self.prepare_read(place, call),
            Call::Poll { .. } => self.plan(Task::Poll(PollTask::Look(place))),
            _ if call.install_mode().is_some() => {
                self.plan(Task::Install(place))?;
                self.plan_reads_before(call)
            }
            _ => Ok(()),
        }
    }

    /// The open reads that return a fault of the pages of a call take effect before these change, but for those of a page that is to be protected
    /// first.
    fn plan_reads_of(&mut self, call: &LogCall) -> Result<(), NoMemory> {
        let (Some(object), Some(range)) = (call.object(), self.log.pages_of(call)) else {
            return Ok(());
        };
        self.plan(others(CallFilter::FaultsNow { object, range }))
    }

    /// The same of an install: a fault which says that a page that it puts is write-protected comes after it. One that changes no page needs none.
    fn plan_reads_before(&mut self, call: &LogCall) -> Result<(), NoMemory> {
        if is_refused_for_now(call) {
            return Ok(());
        }
        let (Some(object), Some(range), true) = (
            call.object(),
            self.log.pages_of(call),
            call.is_ok(),
        ) else {
            return self.plan_reads_of(call);
        };
        self.plan(others(CallFilter::MissingFaults { object, range }))
    }

    fn prepare_map_call(&mut self, place: u32, call: &LogCall) -> Result<(), NoMemory> {
        let Some(range) = self.log.pages_of(call) else {
            return Ok(());
        };
        if !call.is_ok() {
            return self.plan_unmapped(call, range);
        }
        let space = call.space;
        let line = call.end;
        if call.populates() {
            return self.prepare_populate(space, range);
        }
        self.plan(Task::Foresee(place))?;
        if !matches!(call.call, Call::Madvise { .. }) {
            self.plan(others(CallFilter::Protecting { space, range }))?;
            self.plan(others(CallFilter::PutIn { space, range }))?;
        } else if line > 0 {
            self.plan(others(CallFilter::PutBefore { space, range, line }))?;
        }
        if let Some(line) = self.told_from(call, range)? {
            self.plan(others(CallFilter::PutUntil { space, line }))?;
        }
        self.plan(others(CallFilter::FaultsOfSpace {
            space,
            range,
            by: place,
        }))?;
        self.plan_unmapped(call, range)
    }

    /// Where a call ends before its own event could be read, another call has unmapped or moved what it maps, unmaps or moves. A madvise(2) then fails
    /// with ENOMEM.
    fn plan_unmapped(&mut self, call: &LogCall, range: Range) -> Result<(), NoMemory> {
        let finds_none = match call.call {
            Call::Madvise { .. } => matches!(call.errno(), Some(Errno::Enomem)),
            _ => call.is_ok(),
        };
        if !finds_none || call.end != self.line {
            return Ok(());
        }
        let space = call.space;
        self.plan(others(CallFilter::Unregisters { space, range }))?;
        match moved_to(self.log.size, call) {
            Some(range) => self.plan(others(CallFilter::Unregisters { space, range })),
            None => Ok(()),
        }
    }

    /// The pages that a madvise touches are there, and nothing forbids it to.
    fn prepare_populate(&mut self, space: u32, range: Range) -> Result<(), NoMemory> {
        for area in &self.kernel.areas()? {
            let object = area.object;
            let pages = area.range.common(range);
            if area.space != u64::from(space) {
                continue;
            }
            for page in pages.first..pages.end() {
                if self.kernel.has(space, one_page(page), Presence::Missing) {
                    self.plan(others(CallFilter::Installs { object, page }))?;
                } else if !self.is_bare(object, page) {
                    self.plan(others(CallFilter::Bares { object, page }))?;
                }
            }
        }
        Ok(())
    }

    fn prepare_unregister(&mut self, call: &LogCall) -> Result<(), NoMemory> {
        let space = call
            .object()
            .and_then(|object| self.kernel.space_of(object));
        if let (Some(space), Some(range), true) = (space, self.log.pages_of(call), call.is_ok()) {
            self.plan(others(CallFilter::PutIn { space, range }))?;
        }
        match (call.object(), self.log.pages_of(call)) {
            (Some(object), Some(range)) => self.plan(others(CallFilter::Faults { object, range })),
            _ => Ok(()),
        }
    }

    fn prepare_protect(&mut self, place: u32, call: &LogCall, mode: u64) -> Result<(), NoMemory> {
        let (Some(object), Some(range)) = (call.object(), self.log.pages_of(call)) else {
            return Ok(());
        };
        if matches!(call.errno(), Some(Errno::Eagain)) {
            return self.make_changing(object);
        }
        if !call.is_ok() {
            return Ok(());
        }
        if mode != PROTECTS {
            self.plan(Task::Foresee(place))?;
            return self.plan_reads_of(call);
        }
        self.plan(others(CallFilter::Protected {
            object,
            range,
            line: call.end,
            by: place,
        }))
    }

    // UFFDIO_COPY, ZEROPAGE, CONTINUE, POISON and MOVE

    fn prepare_install(&mut self, place: u32) -> Result<(), NoMemory> {
        let Some(call) = self.log.call(place) else {
            return Ok(());
        };
        let (Some(object), Some(range)) = (call.object(), self.log.pages_of(&call)) else {
            return Ok(());
        };
        match call.errno() {
            None => {
                self.prepare_put(place, object, range)?;
                self.make_source(&call, object)?;
                self.make_registered(object, range)
            }
            Some(Errno::Eexist) => {
                self.make_there(object, range.first)?;
                self.make_registered(object, one_page(range.first))
            }
            Some(Errno::Enoent) => self.make_unregistered(object, range),
            Some(Errno::Eagain) => match call.done_pages(self.log.size) {
                Some(put) if !self.is_refused(&call) => self.prepare_part(place, object, put),
                _ => self.make_changing(object),
            },
            _ => Ok(()),
        }
    }

    /// The pages of a range are registered by calls that are under way, where they are not.
    fn make_registered(&mut self, object: u64, range: Range) -> Result<(), NoMemory> {
        match self.kernel.space_of(object) {
            Some(space) if !self.are_registered(space, range) => {
                self.plan(others(CallFilter::Registers { object, range }))
            }
            _ => Ok(()),
        }
    }

    /// A page of a range is no longer registered by calls that are under way, where each is.
    fn make_unregistered(&mut self, object: u64, range: Range) -> Result<(), NoMemory> {
        match self.kernel.space_of(object) {
            Some(space) if self.are_registered(space, range) => {
                self.plan(others(CallFilter::Unregisters { space, range }))
            }
            _ => Ok(()),
        }
    }

    /// The pages of a call are missing, and all events of its object are read.
    fn prepare_put(&mut self, place: u32, object: u64, range: Range) -> Result<(), NoMemory> {
        let Some(space) = self.kernel.space_of(object) else {
            return Ok(());
        };
        self.plan(Task::Foresee(place))?;
        self.plan(Task::ReadEvents(object))?;
        self.plan(Task::MakeMissing { space, range })
    }

    /// The pages that UFFDIO_MOVE takes are put by calls that are under way, where they are missing.
    fn make_source(&mut self, call: &LogCall, object: u64) -> Result<(), NoMemory> {
        let Call::Move { from, len, .. } = call.call else {
            return Ok(());
        };
        let range = self.log.size.range(from, len);
        for page in range.first..range.end() {
            self.make_there(object, page)?;
        }
        Ok(())
    }

    /// The pages that a call has put before it stopped are missing, and registered.
    fn prepare_part(&mut self, place: u32, object: u64, put: Range) -> Result<(), NoMemory> {
        if let Some(space) = self.kernel.space_of(object) {
            self.plan(Task::Foresee(place))?;
            self.plan(Task::MakeMissing { space, range: put })?;
        }
        self.make_registered(object, put)
    }

    /// A page that is missing is put by a call that is under way, where there is one; and one of which nothing is known by a call that puts all
    /// its pages.
    fn make_there(&mut self, object: u64, page: u64) -> Result<(), NoMemory> {
        match self.kernel.space_of(object) {
            Some(space) if self.kernel.has(space, one_page(page), Presence::Missing) => {
                self.plan(others(CallFilter::Installs { object, page }))
            }
            Some(space) if !self.is_there(space, page) => {
                self.plan(others(CallFilter::Puts { object, page }))
            }
            _ => Ok(()),
        }
    }

    fn make_missing(&mut self, space: u32, range: Range) -> Result<(), NoMemory> {
        for page in range.first..range.end() {
            if self.is_there(space, page) && !self.drop(space, page)? {
                let first = page.saturating_add(1);
                let count = range.end().saturating_sub(first);
                self.plan(Task::MakeMissing {
                    space,
                    range: Range { first, count },
                })?;
                self.plan(Task::Clear { space, page })?;
                self.plan(Task::TellOf { space, page })?;
                return self.plan(others(CallFilter::Clears { space, page }));
            }
        }
        Ok(())
    }

    /// The kernel takes back a page, if MADV_FREE allows that. Whether it did.
    fn drop(&mut self, space: u32, page: u64) -> Result<bool, NoMemory> {
        match self.kernel.page(space, page) {
            Some(found) if found.freed => {
                let object = found.object;
                self.step(Move::Drops { object, page })
            }
            _ => Ok(false),
        }
    }

    fn make_protected(&mut self, object: u64, page: u64) -> Result<(), NoMemory> {
        if self.is_bare(object, page) {
            self.plan(Task::ProtectAlone { object, page })?;
            self.plan(others(CallFilter::Protects { object, page }))?;
        }
        self.make_there(object, page)
    }

    /// A page that is still not write-protected is by a protection of several pages, after the calls under way that put it or take its protection away.
    fn protect_alone(&mut self, object: u64, page: u64) -> Result<(), NoMemory> {
        let (true, Some(by)) = (
            self.is_bare(object, page),
            self.next_protecting(object, page),
        ) else {
            return Ok(());
        };
        self.plan(Task::ProtectBy { call: by, page })?;
        self.plan(others(CallFilter::Protected {
            object,
            range: one_page(page),
            line: self.line,
            by,
        }))
    }

    /// A protection of several pages that is under way protects this one.
    fn protect_by(&mut self, key: u32, page: u64) -> Result<(), NoMemory> {
        if let Some(call) = self.log.call(key)
            && !call.done
        {
            self.step(Move::Protects { key, page })?;
        }
        Ok(())
    }

    /// The map calls clear a page that are about to, once their events are read.
    fn clear_page(&mut self, space: u32, number: u64) -> Result<(), NoMemory> {
        for key in &self.kernel.clearers(space, number)? {
            self.step(Move::Clears { key: *key })?;
        }
        Ok(())
    }

    fn tell_of(&mut self, space: u32, number: u64) -> Result<(), NoMemory> {
        for key in &self.kernel.clearers(space, number)? {
            if !self.kernel.rules.is_told_all(u64::from(*key)) {
                return self.plan(others(CallFilter::Events));
            }
        }
        Ok(())
    }

    fn read_events(&mut self, object: u64) -> Result<(), NoMemory> {
        if self.kernel.rules.is_changing(object) {
            self.plan(others(CallFilter::Events))
        } else {
            Ok(())
        }
    }
}

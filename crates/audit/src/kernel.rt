//! The kernel of a run that is being looked for, which `kernel_rules` moves, and what is noted of its calls for findings.

use crate::cases::{one_page, stopped_at};
use crate::notes::{Area, FaultWait, Notes, StoppedCall, UnretriedCall, Untold};
use call_log::log::Log;
use call_log::log_call::{LogCall, has_put};
use call_log::pages::Range;
use foundation::NoMemory;
use indexmap::IndexSet;
use kernel_rules::answers::is_clearing;
use kernel_rules::fault::{find, is_protection};
use kernel_rules::{Ending, Made, Move, Object, Page, Phase, Presence};
use std::alloc::Global;
use uffd_log::{Answer, Call, Descriptor, Errno, Message};

/// O_NONBLOCK.
const NONBLOCK: u64 = 0x800;

#[derive(Drop)]
pub(crate) struct Kernel {
    alloc: Global,
    pub(crate) rules: kernel_rules::Kernel,
    pub(crate) notes: Notes,
    /// Whether the step taken last has shown a page of which nothing was known.
    pub(crate) resolved: bool,
}

/// The pages of a range, by its first one and the one after its last.
pub(crate) fn between(first: u64, end: u64) -> Range {
    Range {
        first,
        count: end.saturating_sub(first),
    }
}

/// A call as the rules take it, by its place in the log.
pub(crate) fn made_of(place: u32, call: &LogCall) -> Made {
    Made {
        key: place,
        space: call.space,
        thread: call.thread,
        program: call.program,
        call: call.call,
        last: call.last,
    }
}

/// How a call of a log ended, with this answer and these messages.
pub(crate) fn ending_of(
    alloc: Global,
    log: &Log,
    call: &LogCall,
    answer: Answer,
    read: &[Message],
) -> Result<Ending, NoMemory> {
    let mut messages = Vec::new(alloc);
    messages.extend_from_slice(read)?;
    let mut runs = Vec::new(alloc);
    runs.extend_from_slice(log.runs_of(call))?;
    Ok(Ending {
        answer,
        messages,
        runs,
    })
}

/// Whether the handler answers threads that sleep at the pages of a call.
fn answers_threads(call: &LogCall) -> bool {
    match call.call {
        Call::Unregister { .. } => false,
        _ => call.is_waking(),
    }
}

impl Kernel {
    /// A kernel with the objects that were open before the log begins, each with the address space that it watches.
    pub(crate) fn new(alloc: Global, log: &Log) -> Result<Kernel, NoMemory> {
        let mut rules = kernel_rules::Kernel::new(alloc);
        for (object, space) in log.found.iter() {
            let on = Descriptor {
                object: *object,
                fd: 0,
            };
            let call = Call::Open {
                device: false,
                flags: NONBLOCK,
            };
            let made = Made {
                key: u32::MAX,
                space: *space,
                thread: 0,
                program: 0,
                call,
                last: false,
            };
            let ending = Ending {
                answer: Answer::Opened(on),
                messages: Vec::new(alloc),
                runs: Vec::new(alloc),
            };
            rules.takes(made, &ending)?;
        }
        Ok(Kernel {
            alloc,
            rules,
            notes: Notes::new(alloc),
            resolved: false,
        })
    }

    /// An object that is open.
    pub(crate) fn object(&self, object: u64) -> Option<Object> {
        self.rules.object(object)
    }

    /// The address space that an open object watches.
    pub(crate) fn space_of(&self, object: u64) -> Option<u32> {
        u32::try_from(self.rules.object(object)?.space).ok()
    }

    /// A page, if it is registered.
    pub(crate) fn page(&self, space: u32, page: u64) -> Option<Page> {
        self.rules.page(u64::from(space), page)
    }

    /// Whether a page of a range is registered, and this is known of its presence.
    pub(crate) fn has(&self, space: u32, range: Range, presence: Presence) -> bool {
        for number in range.first..range.end() {
            if let Some(page) = self.page(space, number)
                && is_as(page, presence)
            {
                return true;
            }
        }
        false
    }

    /// Makes a step of a run that no line shows. False where no rule allows it.
    pub(crate) fn make(&mut self, log: &Log, step: Move) -> Result<bool, NoMemory> {
        let slept = self.sleepers()?;
        let count = self.rules.unanswered().len();
        let made = self.move_on(log, step)?;
        self.note_unanswered(&slept, count, None)?;
        Ok(made)
    }

    fn move_on(&mut self, log: &Log, step: Move) -> Result<bool, NoMemory> {
        match step {
            Move::Sees {
                thread,
                object,
                page,
                flags,
            } => {
                if let Some(space) = self.space_of(object) {
                    let unknown = self.has(space, one_page(page), Presence::Unknown);
                    self.resolved = self.resolved || unknown;
                }
                self.rules.sees(thread, object, page, flags)
            }
            Move::Queues { thread } => self.rules.queues(thread),
            Move::Leaves { thread } => self.rules.leaves(thread),
            Move::Tells { key } => self.rules.tells(u64::from(key)),
            Move::Clears { key } => self.clears(u64::from(key)),
            Move::Drops { object, page } => self.rules.drops(object, page),
            Move::Protects { key, page } => match log.call(key) {
                Some(call) => self.rules.protects_page(made_of(key, &call), page),
                None => Ok(false),
            },
            Move::Line
            | Move::Effect { .. }
            | Move::Refuses { .. }
            | Move::Starts { .. }
            | Move::Reads { .. } => Ok(false),
        }
    }

    /// A map call clears its pages: those that a call was refused for need not be put.
    fn clears(&mut self, key: u64) -> Result<bool, NoMemory> {
        if let Some(span) = self.rules.clear_span(key) {
            let range = between(span.first, span.end);
            self.note_given_back(u32::try_from(span.space).unwrap_or(u32::MAX), range)?;
        }
        self.rules.clears(key)
    }

    /// A call of a log takes effect with its answer. False where no rule allows it; then a part may be done.
    pub(crate) fn take(&mut self, log: &Log, place: u32, call: &LogCall) -> Result<bool, NoMemory> {
        let Some(answer) = call.answer else {
            return Ok(true);
        };
        self.resolved = self.shows_unknown(log, call);
        let ending = ending_of(self.alloc, log, call, answer, log.messages_of(call))?;
        self.take_ending(log, place, call, &ending)
    }

    /// A call of a log is refused with EAGAIN, since the address space is changing. False where no rule allows it, and nothing is done then.
    pub(crate) fn refuse(
        &mut self,
        log: &Log,
        place: u32,
        call: &LogCall,
    ) -> Result<bool, NoMemory> {
        let (Some(answer), Some(range)) = (call.answer, log.pages_of(call)) else {
            return Ok(false);
        };
        let ending = ending_of(self.alloc, log, call, answer, &[])?;
        if !self.rules.refuses(made_of(place, call), &ending)? {
            return Ok(false);
        }
        if let Some(space) = call.object().and_then(|object| self.space_of(object)) {
            self.note_refused(place, space, range)?;
        }
        Ok(true)
    }

    /// Notes that a call was refused with EAGAIN.
    fn note_refused(&mut self, place: u32, space: u32, range: Range) -> Result<(), NoMemory> {
        self.notes.note_tried(space, range);
        self.notes.again.push(UnretriedCall {
            call: place,
            space,
            page: range.first,
        })?;
        Ok(())
    }

    /// Whether a read may take its messages one after another.
    pub(crate) fn may_start(
        &self,
        log: &Log,
        place: u32,
        call: &LogCall,
    ) -> Result<bool, NoMemory> {
        let Some(answer) = call.answer else {
            return Ok(false);
        };
        let ending = ending_of(self.alloc, log, call, answer, log.messages_of(call))?;
        Ok(self.rules.may_start(made_of(place, call), &ending))
    }

    /// Such a read takes the message at a place. False where no rule allows it.
    pub(crate) fn take_message(
        &mut self,
        log: &Log,
        place: u32,
        call: &LogCall,
        at: u32,
    ) -> Result<bool, NoMemory> {
        let messages = log.messages_of(call);
        let Some(answer) = call.answer else {
            return Ok(false);
        };
        let left = messages.len().saturating_sub(at as usize);
        let ending = ending_of(self.alloc, log, call, answer, messages)?;
        self.rules.takes_next(made_of(place, call), left, &ending)
    }

    /// The same with an ending, which is noted.
    fn take_ending(
        &mut self,
        log: &Log,
        place: u32,
        call: &LogCall,
        ending: &Ending,
    ) -> Result<bool, NoMemory> {
        let slept = self.sleepers()?;
        let count = self.rules.unanswered().len();
        let owed = self.rules.owed().len();
        let twice = self.rules.twice().len();
        let unknown = self.unknown_at(log, call)?;
        self.note_silenced(call)?;
        self.note_range(log, place, call)?;
        let made = self.rules.takes(made_of(place, call), ending)?;
        if !self.note_unanswered(&slept, count, Some(place))? && answers_threads(call) {
            let over = self.over(&slept, Some(place))?;
            self.notes.waits.extend_from_slice(&over)?;
        }
        self.notes.unknown = self.notes.unknown.saturating_add(unknown);
        if self.rules.owed().len() > owed {
            self.notes.ended.push((owed, Some(place)))?;
        }
        if self.rules.twice().len() > twice {
            let waits = self.sleeps_at(call.object(), stopped_at(log, call));
            self.notes.twice.push(StoppedCall { call: place, waits })?;
        }
        Ok(made)
    }

    /// Whether a thread has found a page of an object missing, and its fault is read.
    fn sleeps_at(&self, object: Option<u64>, page: u64) -> bool {
        self.rules.faults().iter().any(|fault| {
            let is_there = Some(fault.object) == object && fault.page == page;
            is_there && !is_protection(fault.flags) && matches!(fault.phase, Phase::Asleep)
        })
    }

    /// Whether a call shows a page of which nothing is known.
    fn shows_unknown(&self, log: &Log, call: &LogCall) -> bool {
        let (Some(object), Some(range)) = (call.object(), log.pages_of(call)) else {
            return false;
        };
        let (Some(space), true) = (self.space_of(object), call.install_mode().is_some()) else {
            return false;
        };
        match call.answer {
            Some(Answer::Value(_)) => self.has(space, range, Presence::Unknown),
            Some(
                Answer::Failed {
                    errno: Errno::Eexist,
                    ..
                },
            ) => self.has(space, one_page(range.first), Presence::Unknown),
            Some(
                Answer::Failed {
                    errno: Errno::Eagain,
                    bytes: Some(done),
                },
            ) => {
                let end = range
                    .first
                    .saturating_add(log.size.number(done))
                    .saturating_add(1);
                self.has(
                    space,
                    between(range.first, end.min(range.end())),
                    Presence::Unknown,
                )
            }
            _ => false,
        }
    }

    /// The faults that were read, of threads that sleep.
    fn sleepers(&self) -> Result<Vec<FaultWait>, NoMemory> {
        let mut slept = Vec::new(self.alloc);
        for fault in self.rules.faults() {
            if let (Some(read), Some(space)) = (fault.read_by, self.space_of(fault.object)) {
                slept.push(FaultWait {
                    read,
                    space,
                    fault: *fault,
                    by: None,
                })?;
            }
        }
        Ok(slept)
    }

    /// Those whose threads no longer sleep, after a call, if it was one.
    fn over(&self, slept: &[FaultWait], by: Option<u32>) -> Result<Vec<FaultWait>, NoMemory> {
        let mut over = Vec::new(self.alloc);
        for slept in slept {
            if find(self.rules.faults(), slept.fault.thread).is_none() {
                over.push(FaultWait { by, ..*slept })?;
            }
        }
        Ok(over)
    }

    /// Notes the faults that a step has ended, where it leaves reads unanswered, of which there were this many. Whether it does.
    fn note_unanswered(
        &mut self,
        slept: &[FaultWait],
        count: usize,
        by: Option<u32>,
    ) -> Result<bool, NoMemory> {
        if self.rules.unanswered().len() == count {
            return Ok(false);
        }
        let over = self.over(slept, by)?;
        self.notes.unanswered.extend_from_slice(&over)?;
        Ok(true)
    }

    /// How many pages a call takes from its object of which nothing is known.
    fn unknown_at(&self, log: &Log, call: &LogCall) -> Result<u64, NoMemory> {
        let (Some(object), true) = (call.object(), call.is_ok()) else {
            return Ok(0);
        };
        match call.call {
            Call::Unregister { .. } => match log.pages_of(call) {
                Some(range) => Ok(self.unknown_in(object, range)),
                None => Ok(0),
            },
            Call::Close { .. } if call.last => self.unknown_of(object),
            _ => Ok(0),
        }
    }

    /// How many pages are registered with an object of which nothing is known.
    fn unknown_of(&self, object: u64) -> Result<u64, NoMemory> {
        let mut count = 0u64;
        let mut end = 0u64;
        for area in &self.areas()? {
            if area.object == object {
                let rest = between(area.range.first.max(end), area.range.end());
                count = count.saturating_add(self.unknown_in(object, rest));
                end = end.max(rest.end());
            }
        }
        Ok(count)
    }

    /// How many of these are; none of an object that has put no page.
    fn unknown_in(&self, object: u64, range: Range) -> u64 {
        let (Some(space), Some(watching)) = (self.space_of(object), self.object(object)) else {
            return 0;
        };
        if !watching.puts {
            return 0;
        }
        let mut count = 0u64;
        for number in range.first..range.end() {
            if let Some(page) = self.page(space, number) {
                let is_unknown = matches!(page.presence, Presence::Unknown);
                if is_unknown && page.missing && page.object == object {
                    count = count.saturating_add(1);
                }
            }
        }
        count
    }

    /// Notes the map calls that have something to tell an object which is closed for good.
    fn note_silenced(&mut self, call: &LogCall) -> Result<(), NoMemory> {
        let (Call::Close { on }, true, true) = (call.call, call.last, call.is_ok()) else {
            return Ok(());
        };
        for key in self.rules.calls() {
            if self.rules.has_untold(on.object, *key) && !self.notes.is_untold(*key) {
                self.notes.untold.push(Untold {
                    call: *key,
                    object: Some(on.object),
                })?;
            }
        }
        Ok(())
    }

    /// Notes which pages a call has tried to put, or was refused for, and which their owner gives back.
    fn note_range(&mut self, log: &Log, place: u32, call: &LogCall) -> Result<(), NoMemory> {
        if let Call::Madvise { advice, addr, len } = call.call {
            if is_clearing(advice)
                && call.answer.is_some()
                && !matches!(call.errno(), Some(Errno::Efault))
            {
                self.note_given_back(call.space, log.size.rounded(addr, len))?;
            }
            return Ok(());
        }
        let (Some(object), Some(range)) = (call.object(), log.pages_of(call)) else {
            return Ok(());
        };
        let (Some(space), true) = (self.space_of(object), call.install_mode().is_some()) else {
            return Ok(());
        };
        if matches!(call.errno(), Some(Errno::Eagain)) && !has_put(call) {
            return self.note_refused(place, space, range);
        }
        if !matches!(call.errno(), Some(Errno::Einval)) {
            self.notes.note_tried(space, range);
        }
        Ok(())
    }

    /// The owner of registered pages gives them back: they need not be put.
    fn note_given_back(&mut self, space: u32, range: Range) -> Result<(), NoMemory> {
        self.forget_refused(space, range);
        let mut first = range.first;
        for area in &self.areas()? {
            if area.space == u64::from(space) {
                let rest = area.range.common(between(first, range.end()));
                self.note_given(space, rest)?;
                first = first.max(rest.end());
            }
        }
        Ok(())
    }

    /// Notes that those of these pages are given back which are registered.
    fn note_given(&mut self, space: u32, range: Range) -> Result<(), NoMemory> {
        for number in range.first..range.end() {
            if self.page(space, number).is_some() {
                self.notes.given.insert((u64::from(space), number))?;
            }
        }
        Ok(())
    }

    /// Forgets the calls that were refused for these pages, where they are registered.
    fn forget_refused(&mut self, space: u32, range: Range) {
        for place in (0..self.notes.again.len()).rev() {
            let Some(again) = self.notes.again.get(place).copied() else {
                return;
            };
            let is_in = again.space == space && range.contains(again.page);
            if is_in && self.page(space, again.page).is_some() {
                self.notes.again.remove(place);
            }
        }
    }

    /// After a call that no rule allows: what it says is taken for true, so that later calls are judged on their own.
    pub(crate) fn force(&mut self, log: &Log, place: u32, call: &LogCall) -> Result<(), NoMemory> {
        let (Some(forced), Some(answer)) = (forced_call(call), forced_answer(call)) else {
            return self.force_pages(log, call);
        };
        let ending = ending_of(self.alloc, log, call, answer, &[])?;
        self.take_ending(log, place, &forced, &ending)?;
        Ok(())
    }

    fn force_pages(&mut self, log: &Log, call: &LogCall) -> Result<(), NoMemory> {
        let is_there = call.is_ok() || matches!(call.errno(), Some(Errno::Eexist));
        let (Some(object), Some(range)) = (call.object(), log.pages_of(call)) else {
            return Ok(());
        };
        let (Some(space), true) = (
            self.space_of(object),
            call.install_mode().is_some() && is_there,
        ) else {
            return Ok(());
        };
        let count = if call.is_ok() { range.count } else { 1 };
        for number in range.first..range.first.saturating_add(count) {
            if let Some(page) = self.page(space, number) {
                let presence = Presence::Present;
                let found = Some(Page { presence, ..page });
                self.rules.assume(u64::from(space), number, found)?;
            }
        }
        Ok(())
    }

    /// The map call whose next event is this message.
    pub(crate) fn teller(&self, object: u64, message: Message) -> Option<u32> {
        for key in self.rules.calls() {
            if self.rules.is_next_of(object, *key, message) {
                return u32::try_from(*key).ok();
            }
        }
        None
    }

    /// The map calls that are to clear a page.
    pub(crate) fn clearers(&self, space: u32, number: u64) -> Result<Vec<u32>, NoMemory> {
        let mut keys = Vec::new(self.alloc);
        for key in self.rules.calls() {
            if let (Some(span), Ok(place)) = (self.rules.clear_span(*key), u32::try_from(*key)) {
                let is_in = span.first <= number && number < span.end;
                if is_in && span.space == u64::from(space) {
                    keys.push(place)?;
                }
            }
        }
        Ok(keys)
    }

    /// Notes the map calls whose events are not read when the log ends.
    fn note_untold(&mut self) -> Result<(), NoMemory> {
        for key in self.rules.calls() {
            if !self.rules.is_told_all(*key) && !self.notes.is_untold(*key) {
                let object = untold_object(&self.rules, *key);
                self.notes.untold.push(Untold { call: *key, object })?;
            }
        }
        Ok(())
    }

    /// The ranges that were registered with open objects, in the order of their addresses; they may overlap.
    pub(crate) fn areas(&self) -> Result<Vec<Area>, NoMemory> {
        let mut areas = Vec::new(self.alloc);
        for range in self.rules.ranges() {
            if let Some(object) = self.rules.object(range.object) {
                areas.push(Area {
                    object: range.object,
                    space: object.space,
                    range: between(range.first, range.first.saturating_add(range.count)),
                })?;
            }
        }
        areas.sort_by_key(|area| area.range.first)?;
        Ok(areas)
    }

    /// Notes what is registered when the log ends, and of how many of these pages nothing is known.
    fn note_areas(&mut self) -> Result<(), NoMemory> {
        let areas = self.areas()?;
        let mut objects = IndexSet::new(self.alloc);
        for area in &areas {
            if objects.insert(area.object)? {
                let unknown = self.unknown_of(area.object)?;
                self.notes.unknown = self.notes.unknown.saturating_add(unknown);
            }
        }
        self.notes.areas = areas;
        Ok(())
    }

    /// The log ends. What was noted, and what the kernel has then.
    pub(crate) fn finish(self) -> Result<Notes, NoMemory> {
        let mut kernel = self;
        kernel.note_untold()?;
        kernel.note_areas()?;
        let slept = kernel.sleepers()?;
        kernel.notes.unanswered.extend_from_slice(&slept)?;
        let Kernel {
            mut rules,
            mut notes,
            ..
        } = kernel;
        notes.ended.push((rules.owed().len(), None))?;
        rules.finish()?;
        notes.add_last(&rules)?;
        Ok(notes)
    }
}

/// An object that a call has something to tell which is not read.
fn untold_object(rules: &kernel_rules::Kernel, key: u64) -> Option<u64> {
    for range in rules.ranges() {
        if rules.has_untold(range.object, key) {
            return Some(range.object);
        }
    }
    None
}

/// A call in place of one that no rule allows, with the arguments that it has to have.
fn forced_call(call: &LogCall) -> Option<LogCall> {
    let forced = match call.call {
        Call::Open { device, flags } => Call::Open {
            device,
            flags: flags & 0x80801,
        },
        Call::Api { .. } | Call::Register { .. } => call.call,
        _ => return None,
    };
    Some(LogCall {
        call: forced,
        ..*call
    })
}

/// The answer in place of one that no rule allows: a register returns the calls of its modes, WP is bit 1 and MINOR bit 2, among all others.
fn forced_answer(call: &LogCall) -> Option<Answer> {
    match (call.answer?, call.call) {
        (Answer::Features { .. }, _) => Some(Answer::Features {
            features: u64::MAX,
            ioctls: u64::MAX,
        }),
        (Answer::Value(_), Call::Register { mode, .. }) => {
            Some(Answer::Value(u64::MAX & !0xc0 | (mode / 2 % 4) << 6))
        }
        (Answer::Opened(on), _) => Some(Answer::Opened(on)),
        _ => None,
    }
}

/// Whether this is known of the presence of a page.
fn is_as(page: Page, presence: Presence) -> bool {
    match presence {
        Presence::Unknown => matches!(page.presence, Presence::Unknown),
        Presence::Missing => matches!(page.presence, Presence::Missing),
        Presence::Present => matches!(page.presence, Presence::Present),
        Presence::Poisoned => matches!(page.presence, Presence::Poisoned),
    }
}

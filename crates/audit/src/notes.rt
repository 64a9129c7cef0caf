//! What is noted of a run for findings.

use call_log::pages::Range;
use foundation::NoMemory;
use indexmap::IndexSet;
use kernel_rules::{Difference, Fault};
use std::alloc::Global;

/// Pages that were registered, and still missing when that ended: by a call, or by the end of the log.
#[derive(Clone, Copy)]
pub(crate) struct OwedPages {
    pub(crate) call: Option<u32>,
    pub(crate) space: u64,
    pub(crate) range: Range,
}

/// A call that was refused with EAGAIN, the first page of which no later call was to put.
#[derive(Clone, Copy)]
pub(crate) struct UnretriedCall {
    pub(crate) call: u32,
    pub(crate) space: u32,
    pub(crate) page: u64,
}

/// A fault that a call has read.
#[derive(Clone, Copy)]
pub(crate) struct FaultWait {
    pub(crate) read: u64,
    /// The address space of its page.
    pub(crate) space: u32,
    pub(crate) fault: Fault,
    /// The call after which its thread no longer slept, if it was one.
    pub(crate) by: Option<u32>,
}

/// A map call an event of which was never read, and the object that it was to tell.
#[derive(Clone, Copy)]
pub(crate) struct Untold {
    pub(crate) call: u64,
    pub(crate) object: Option<u64>,
}

/// A call that has stopped at a page which the log had put.
#[derive(Clone, Copy)]
pub(crate) struct StoppedCall {
    pub(crate) call: u32,
    /// Whether a thread has found this page missing, and sleeps there.
    pub(crate) waits: bool,
}

/// A range that was registered with an object when the log ended.
#[derive(Clone, Copy)]
pub(crate) struct Area {
    pub(crate) object: u64,
    pub(crate) space: u64,
    pub(crate) range: Range,
}

/// Calls are named by their places in the log.
#[derive(Drop)]
pub(crate) struct Notes {
    /// The faults that calls have resolved.
    pub(crate) waits: Vec<FaultWait>,
    pub(crate) again: Vec<UnretriedCall>,
    pub(crate) untold: Vec<Untold>,
    /// The calls by which registrations of owed pages ended, or the end of the log, each with the number of pages that were owed before.
    pub(crate) ended: Vec<(usize, Option<u32>)>,
    /// The pages that are owed, but those that were given back.
    pub(crate) owed: Vec<OwedPages>,
    /// How many are owed with those.
    pub(crate) owed_count: usize,
    /// The registered pages, each with its space, that their owner gave back.
    pub(crate) given: IndexSet<(u64, u64)>,
    pub(crate) areas: Vec<Area>,
    /// How many pages were registered of which nothing was known when that ended.
    pub(crate) unknown: u64,
    /// The faults that nobody has resolved.
    pub(crate) unanswered: Vec<FaultWait>,
    /// The calls that stopped at a page which the log had put, and at another one that was there.
    pub(crate) twice: Vec<StoppedCall>,
    pub(crate) before: Vec<u64>,
    /// The calls on pages that were not registered before they began.
    pub(crate) outside: Vec<u64>,
    pub(crate) differs: Vec<Difference>,
}

impl Notes {
    pub(crate) fn new(alloc: Global) -> Notes {
        Notes {
            waits: Vec::new(alloc),
            again: Vec::new(alloc),
            untold: Vec::new(alloc),
            ended: Vec::new(alloc),
            owed: Vec::new(alloc),
            owed_count: 0,
            given: IndexSet::new(alloc),
            areas: Vec::new(alloc),
            unknown: 0,
            unanswered: Vec::new(alloc),
            twice: Vec::new(alloc),
            before: Vec::new(alloc),
            outside: Vec::new(alloc),
            differs: Vec::new(alloc),
        }
    }

    /// A call is to put the pages of a range: those that were refused with EAGAIN are tried again.
    pub(crate) fn note_tried(&mut self, space: u32, range: Range) {
        self.again.retain(|again| again.space != space || !range.contains(again.page));
    }

    /// A thread has left its fault by a signal, and has the same one again: that is to be resolved.
    pub(crate) fn forget_fault(&mut self, fault: Fault) {
        self.unanswered.retain(|slept| slept.fault.thread != fault.thread
            || Some(slept.read) != fault.read_by);
    }

    /// Whether an event of a call was not read.
    pub(crate) fn is_untold(&self, call: u64) -> bool {
        self.untold.iter().any(|untold| untold.call == call)
    }

    /// Adds what a kernel has at the end of a log.
    pub(crate) fn add_last(&mut self, rules: &kernel_rules::Kernel) -> Result<(), NoMemory> {
        self.before.extend_from_slice(rules.there_before())?;
        self.differs.extend_from_slice(rules.differs())?;
        self.owed_count = rules.owed().len();
        for (place, (space, page)) in rules.owed().iter().enumerate() {
            if !self.given.contains(&(*space, *page)) {
                let call = self.ender(place);
                self.owe(call, *space, *page)?;
            }
        }
        Ok(())
    }

    /// The call by which the registration of the owed page at a place ended.
    fn ender(&self, place: usize) -> Option<u32> {
        let after = self.ended.partition_point(|one| one.0 <= place);
        self.ended.get(after.checked_sub(1)?)?.1
    }

    /// Notes that a page is owed, by a call or by the end of the log.
    fn owe(&mut self, call: Option<u32>, space: u64, page: u64) -> Result<(), NoMemory> {
        if let Some(last) = self.owed.last_mut() {
            if last.call == call && last.space == space && last.range.end() == page {
                last.range.count = last.range.count.saturating_add(1);
                return Ok(());
            }
        }
        let range = Range {
            first: page,
            count: 1,
        };
        self.owed.push(OwedPages { call, space, range })?;
        Ok(())
    }
}

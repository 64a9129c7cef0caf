//! A kernel as a search sees it: what it has, and the steps that its rules allow, each of which is that of its table. After `NoMemory` it is not to be used.

ghost use Rattle.std.specs.Prelude.{◌≡◌};

use crate::calling::Span;
use crate::difference::Difference;
use crate::fault::Fault;
use crate::kernel_table::KernelTable;
use crate::known::Page;
use crate::object::{Object, Registration};
use crate::run::{Ending, Made};
use foundation::NoMemory;
use std::alloc::Global;
use std::marker::Model;
use uffd_log::Message;

/// A kernel, as far as the steps that it took have shown it.
#[derive(Drop)]
pub struct Kernel {
    table: KernelTable,
}

impl Model for Kernel {
    ghost use Rattle.std.specs.Prelude.{List};
    ghost use Rattle.kernel_rules.specs.declared.fault.Fault.{Fault as FaultOf};
    ghost use Rattle.kernel_rules.specs.Held.{AreTables};

    ghost Value = { List FaultOf };

    ghost view = { λ a. a.table.faults.items };

    ghost invariant = { λ a. AreTables a.table };
}

impl Kernel {
    /// Nothing has happened.
    pub fn new(alloc: Global) -> Kernel {
        Kernel {
            table: KernelTable::new(alloc),
        }
    }

    /// A page of an address space, if it is registered.
    pub fn page(&self, space: u64, page: u64) -> Option<Page> {
        self.table.page(space, page)
    }

    /// An object, if it is open.
    pub fn object(&self, name: u64) -> Option<Object> {
        self.table.object(name)
    }

    /// The threads that wait, those whose fault is unread in the order in which they queued it.
    pub fn faults(&self) -> &[Fault]
        ensures { result.now ≡ self.now }
    {
        self.table.waiting()
    }

    /// The ranges that were registered, also those that no longer are.
    pub fn ranges(&self) -> &[Registration] {
        self.table.ranges()
    }

    /// The map calls under way, the oldest first.
    pub fn calls(&self) -> &[u64] {
        self.table.calls_under_way()
    }

    /// Whether a map call under way has anything to tell an object.
    pub fn tells_object(&self, key: u64, name: u64) -> bool {
        self.table.tells_object(key, name)
    }

    /// Whether a map call has something to tell an object which is not read.
    pub fn has_untold(&self, name: u64, key: u64) -> bool {
        self.table.has_untold(name, key)
    }

    /// Whether all events of a call are read.
    pub fn is_told_all(&self, key: u64) -> bool {
        self.table.is_told_all(key)
    }

    /// Whether the next event of a call is queued.
    pub fn is_queued(&self, key: u64) -> bool {
        self.table.is_queued(key)
    }

    /// The pages that a map call has to clear.
    pub fn clear_span(&self, key: u64) -> Option<Span> {
        self.table.clear_span(key)
    }

    /// Whether calls that put or protect pages of an object have to be EAGAIN.
    pub fn is_changing(&self, name: u64) -> bool {
        self.table.is_changing(name)
    }

    /// Whether they may be.
    pub fn may_be_changing(&self, name: u64) -> bool {
        self.table.may_be_changing(name)
    }

    /// Whether the next event of a call is this message to an object.
    pub fn is_next_of(&self, name: u64, key: u64, event: Message) -> bool {
        self.table.is_next_of(name, key, event)
    }

    /// Whether anything waits to be read.
    pub fn has_unread(&self, name: u64) -> bool {
        self.table.has_unread(name)
    }

    /// Whether a call has protected a page before its others.
    pub fn has_begun(&self, key: u64) -> bool {
        self.table.has_begun(key)
    }

    /// Whether a call has protected this page before its others.
    pub fn has_protected(&self, key: u64, page: u64) -> bool {
        self.table.has_protected(key, page)
    }

    /// A call of a log takes effect. False where no rule allows its answer; a part may be done then.
    pub fn takes(&mut self, made: Made, ending: &Ending) -> Result<bool, NoMemory> {
        self.table.takes(made, ending)
    }

    /// A call of a log takes effect as one that was refused since the address space is changing. False where no rule allows it.
    pub fn refuses(&mut self, made: Made, ending: &Ending) -> Result<bool, NoMemory> {
        self.table.refuses(made, ending)
    }

    /// Whether a read may begin to take the messages of an ending one after another.
    pub fn may_start(&self, made: Made, ending: &Ending) -> bool {
        self.table.may_start(made, ending)
    }

    /// A read takes the first of the last `left` messages of an ending. False where no rule allows it; a part may be done then.
    pub fn takes_next(
        &mut self,
        made: Made,
        left: usize,
        ending: &Ending,
    ) -> Result<bool, NoMemory> {
        self.table.takes_next(made, left, ending)
    }

    /// A thread finds that it has to wait at a page. False where no rule allows it.
    pub fn sees(
        &mut self,
        thread: u64,
        object: u64,
        page: u64,
        flags: u64,
    ) -> Result<bool, NoMemory> {
        self.table.sees(thread, object, page, flags)
    }

    /// A thread that has seen its page queues its fault. False where no rule allows it.
    pub fn queues(&mut self, thread: u64) -> Result<bool, NoMemory> {
        self.table.queues(thread)
    }

    /// A thread leaves its fault. False where it has none.
    pub fn leaves(&mut self, thread: u64) -> Result<bool, NoMemory> {
        self.table.leaves(thread)
    }

    /// The next event of a map call is queued. False where no rule allows it.
    pub fn tells(&mut self, key: u64) -> Result<bool, NoMemory> {
        self.table.tells(key)
    }

    /// A map call clears its pages. False where no rule allows it.
    pub fn clears(&mut self, key: u64) -> Result<bool, NoMemory> {
        self.table.clears(key)
    }

    /// The kernel takes back a page of an object, for which MADV_FREE was called. False where no rule allows it.
    pub fn drops(&mut self, object: u64, page: u64) -> Result<bool, NoMemory> {
        self.table.drops(object, page)
    }

    /// A UFFDIO_WRITEPROTECT under way protects a page of its range, and the others later. False where no rule allows it.
    pub fn protects_page(&mut self, made: Made, page: u64) -> Result<bool, NoMemory> {
        self.table.protects_page(made, false, page)
    }

    /// A call has returned.
    pub fn returned(&mut self, key: u64) {
        self.table.returned(key);
    }

    /// What a log says of a page is taken for true, though no rule allows it.
    pub fn assume(&mut self, space: u64, page: u64, found: Option<Page>) -> Result<(), NoMemory> {
        self.table.set_page(space, page, found)
    }

    /// The log ends: what is registered then is judged as it is, and who sleeps then was not answered.
    pub fn finish(&mut self) -> Result<(), NoMemory> {
        self.table.finish()
    }

    /// The reads whose fault nobody has answered.
    pub fn unanswered(&self) -> &[u64] {
        &self.table.unanswered
    }

    /// The pages, each with its space, that were registered for missing faults and missing when that ended.
    pub fn owed(&self) -> &[(u64, u64)] {
        &self.table.owed
    }

    /// The calls that stopped at a page which the log has put.
    pub fn twice(&self) -> &[u64] {
        &self.table.twice
    }

    /// Those that stopped at another page that was there.
    pub fn there_before(&self) -> &[u64] {
        &self.table.there_before
    }

    /// The calls on pages that are not registered.
    pub fn outside(&self) -> &[u64] {
        &self.table.outside
    }

    /// What was done otherwise than by the model, the oldest first.
    pub fn differs(&self) -> &[Difference] {
        &self.table.differs
    }
}

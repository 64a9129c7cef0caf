//! A kernel, in tables: what is looked up in them, and the changes of which the rules are made.

ghost use Rattle.std.specs.Prelude.{◌≡◌, ◌≤◌, ◌+◌, ◌^◌, ◌++◌, ◌∷◌, ◌==◌, ◌<◌, [], ℕ, false, if◌then◌else◌, nat_eq, IfOk, OnOk};
ghost use Rattle.std.specs.Bool.{OnFalse};
ghost use Rattle.std.specs.List.{list_any};
ghost use Rattle.kernel_rules.specs.State.{allowed, each_page, fresh_kernel, noted_if, page_is, set_pages, some_page, with_object};
ghost use Rattle.kernel_rules.specs.Changes.{changed};
ghost use Rattle.kernel_rules.specs.Faults.{fault_of, faults_over, faults_without, is_of_thread, is_twin, is_unread_in, must_wait, queues, leaves, sees, sleeps, woken};
ghost use Rattle.kernel_rules.specs.Ioctls.{with_range};
ghost use Rattle.kernel_rules.specs.Tests.{passes};
ghost use Rattle.indexmap.specs.IndexMap.{get};
ghost use Rattle.kernel_rules.specs.Tables.{pages_of, IsTable};
ghost use Rattle.kernel_rules.specs.Held.{kernel_of, pages_by, AreTables};

use crate::calling::{Protecting, Span, Told, Untold};
use crate::change::Change;
use crate::difference::Difference;
use crate::fault::{
    Fault, Reach, are_flags, find, has_seen, has_twin, has_unread_in, is_protection, note_left,
    note_thread, remove, stops, wake_in,
};
use crate::known::{Page, Phase};
use crate::object::{Object, Registration};
use crate::page_table::PageTable;
use crate::page_test::PageTest;
use foundation::NoMemory;
use indexmap::IndexMap;
use std::alloc::Global;

/// What is known of a kernel.
#[derive(Drop)]
pub struct KernelTable {
    pub objects: IndexMap<u64, Object>,
    /// The ranges that were registered, also those that no longer are.
    pub ranges: Vec<Registration>,
    pub spaces: IndexMap<u64, PageTable>,
    pub faults: Vec<Fault>,
    /// The map calls under way, the oldest first.
    pub calls: Vec<u64>,
    /// What they have to tell, and the events of it that are not read.
    pub told: Vec<Told>,
    pub events: Vec<Untold>,
    /// Those whose next event is queued.
    pub queued: Vec<u64>,
    /// The pages that they have to announce by REMOVE, and to clear.
    pub untold: Vec<Span>,
    pub clears: Vec<Span>,
    /// The pages that a UFFDIO_WRITEPROTECT under way has protected before its others.
    pub protected: Vec<Protecting>,
    /// What was done otherwise than by the model, the oldest first.
    pub differs: Vec<Difference>,
    /// The reads whose fault nobody has answered.
    pub unanswered: Vec<u64>,
    /// The pages, each with its space, that were registered for missing faults and missing when that ended.
    pub owed: Vec<(u64, u64)>,
    /// The calls that stopped at a page that was there: one that the log has put, or another.
    pub twice: Vec<u64>,
    pub there_before: Vec<u64>,
    /// The calls on pages that are not registered.
    pub outside: Vec<u64>,
}

impl KernelTable {
    /// Nothing has happened.
    #[tactic(auto, unfolding(crate::specs::Held::kernel_of))]
    pub fn new(alloc: Global) -> KernelTable
        ensures tables { AreTables result }
        ensures fresh { kernel_of result ≡ fresh_kernel }
    {
        KernelTable {
            objects: IndexMap::new(alloc),
            ranges: Vec::new(alloc),
            spaces: IndexMap::new(alloc),
            faults: Vec::new(alloc),
            calls: Vec::new(alloc),
            told: Vec::new(alloc),
            events: Vec::new(alloc),
            queued: Vec::new(alloc),
            untold: Vec::new(alloc),
            clears: Vec::new(alloc),
            protected: Vec::new(alloc),
            differs: Vec::new(alloc),
            unanswered: Vec::new(alloc),
            owed: Vec::new(alloc),
            twice: Vec::new(alloc),
            there_before: Vec::new(alloc),
            outside: Vec::new(alloc),
        }
    }

    /// A page of an address space, if it is registered.
    #[tactic(auto, unfolding(crate::specs::Held::kernel_of))]
    pub fn page(&self, space: u64, page: u64) -> Option<Page>
        requires { AreTables self.now }
        ensures { result ≡ (kernel_of self.now).pages space page }
    {
        match self.spaces.get(&space) {
            Some(pages) => pages.look(page),
            None => None,
        }
    }

    /// An object, if it is open.
    #[tactic(auto, unfolding(crate::specs::Held::kernel_of))]
    pub fn object(&self, name: u64) -> Option<Object>
        ensures { result ≡ (kernel_of self.now).objects name }
    {
        self.objects.get(&name).copied()
    }

    /// The threads that wait.
    pub(crate) fn waiting(&self) -> &[Fault]
        ensures { result.now ≡ self.now.faults.items }
    {
        &self.faults
    }

    /// Whether a thread still has to wait. Its object watches this space.
    pub(crate) fn must_wait(&self, space: u64, fault: Fault) -> bool
        requires { AreTables self.now }
        ensures { result ≡ must_wait (kernel_of self.now) space fault }
    {
        match self.page(space, fault.page) {
            Some(page) => stops(fault.object, fault.flags, page),
            None => false,
        }
    }

    /// Whether a page is registered, and passes a test.
    pub(crate) fn page_passes(&self, space: u64, page: u64, test: PageTest) -> bool
        requires { AreTables self.now }
        ensures { result ≡ page_is (passes test) ((kernel_of self.now).pages space page) }
    {
        match self.page(space, page) {
            Some(page) => test.holds(page),
            None => false,
        }
    }

    /// How many pages of a space from one on, `most` at most, are the same.
    fn run(&self, space: u64, page: u64, most: u64) -> u64
        requires tables { AreTables self.now }
        requires some { 0 < most }
        requires room { page + most ≤ 2 ^ 64 }
        ensures some { 0 < result }
        ensures within { result ≤ most }
        ensures same { (n : ℕ) → page ≤ n → n < page + result →
            (kernel_of self.now).pages space n ≡ (kernel_of self.now).pages space page }
    {
        match self.spaces.get(&space) {
            Some(pages) => pages.run(page, most),
            None => most,
        }
    }

    /// Whether each page of a range is registered, and passes a test.
    pub(crate) fn each_page(&self, space: u64, first: u64, count: u64, test: PageTest) -> bool
        requires tables { AreTables self.now }
        requires room { first + count ≤ 2 ^ 64 }
        ensures { result ≡ each_page (kernel_of self.now) space first count (passes test) }
    {
        let mut done = 0;
        while done < count {
            if !self.page_passes(space, first + done, test) {
                return false;
            }
            done += self.run(space, first + done, count - done);
        }
        true
    }

    /// Whether a page of a range is registered, and passes a test.
    pub(crate) fn some_page(&self, space: u64, first: u64, count: u64, test: PageTest) -> bool
        requires tables { AreTables self.now }
        requires room { first + count ≤ 2 ^ 64 }
        ensures { result ≡ some_page (kernel_of self.now) space first count (passes test) }
    {
        let mut done = 0;
        while done < count {
            if self.page_passes(space, first + done, test) {
                return true;
            }
            done += self.run(space, first + done, count - done);
        }
        false
    }

    /// Notes a difference, if there is one.
    #[tactic(auto, unfolding(crate::specs::Held::kernel_of))]
    pub(crate) fn note_if(&mut self, differs: bool, difference: Difference) -> Result<(), NoMemory>
        requires { AreTables self.old }
        ensures tables { AreTables self.new }
        ensures noted { OnOk result (kernel_of self.new ≡
            noted_if differs difference (kernel_of self.old)) }
    {
        if !differs {
            return Ok(());
        }
        match self.differs.push(difference) {
            Ok(()) => Ok(()),
            Err(_) => Err(NoMemory),
        }
    }

    /// An object is opened, or changes.
    #[tactic(auto, unfolding(crate::specs::Held::kernel_of))]
    pub(crate) fn set_object(&mut self, name: u64, object: Object) -> Result<(), NoMemory>
        requires { AreTables self.old }
        ensures tables { AreTables self.new }
        ensures set { OnOk result (kernel_of self.new ≡
            with_object (kernel_of self.old) name object) }
    {
        match self.objects.insert(name, object) {
            Ok(_) => Ok(()),
            Err(_) => Err(NoMemory),
        }
    }

    /// Takes the table of a space out.
    fn take_pages(&mut self, space: u64) -> PageTable
        requires { AreTables self.old }
        ensures tables { AreTables self.new }
        ensures table { IsTable result }
        ensures pages { (n : ℕ) →
            pages_of result n ≡ pages_by (get nat_eq self.old.spaces space) n }
        ensures others { (other : ℕ) → (space == other) ≡ false →
            get nat_eq self.new.spaces other ≡ get nat_eq self.old.spaces other }
        ensures same { self.new ≡ record self.old { spaces = self.new.spaces } }
    {
        match self.spaces.swap_remove(&space) {
            Some(pages) => pages,
            None => PageTable::new(*self.faults.allocator()),
        }
    }

    /// Puts the table of a space back.
    fn put_pages(&mut self, space: u64, pages: PageTable) -> Result<(), NoMemory>
        requires tables { AreTables self.old }
        requires table { IsTable pages }
        ensures tables { AreTables self.new }
        ensures put { OnOk result ((other : ℕ) → get nat_eq self.new.spaces other ≡
            (if space == other then Some pages else get nat_eq self.old.spaces other)) }
        ensures same { self.new ≡ record self.old { spaces = self.new.spaces } }
    {
        match self.spaces.insert(space, pages) {
            Ok(_) => Ok(()),
            Err(_) => Err(NoMemory),
        }
    }

    /// Changes `count` pages of a space from `first` on.
    pub(crate) fn change(
        &mut self,
        space: u64,
        first: u64,
        count: u64,
        change: Change,
    ) -> Result<(), NoMemory>
        requires tables { AreTables self.old }
        requires room { first + count ≤ 2 ^ 64 }
        ensures tables { AreTables self.new }
        ensures changed { OnOk result (kernel_of self.new ≡
            record (kernel_of self.old) {
              pages =
                  set_pages (kernel_of self.old).pages space first count
                  (λ page. changed change ((kernel_of self.old).pages space page));
            }) }
    {
        let mut pages = self.take_pages(space);
        pages.change(first, count, change)?;
        self.put_pages(space, pages)?;
        Ok(())
    }

    /// Notes a range that an object has registered.
    #[tactic(auto, unfolding(crate::specs::Held::kernel_of))]
    pub(crate) fn note_range(&mut self, object: u64, first: u64, count: u64) -> Result<(), NoMemory>
        requires { AreTables self.old }
        ensures tables { AreTables self.new }
        ensures noted { OnOk result (kernel_of self.new ≡
            with_range (kernel_of self.old) object first count) }
    {
        match self.ranges.push(Registration {
            object,
            first,
            count,
        }) {
            Ok(()) => Ok(()),
            Err(_) => Err(NoMemory),
        }
    }

    /// A thread waits.
    #[tactic(auto, unfolding(crate::specs::Held::kernel_of))]
    fn add_fault(&mut self, fault: Fault) -> Result<(), NoMemory>
        requires { AreTables self.old }
        ensures tables { AreTables self.new }
        ensures added { OnOk result (kernel_of self.new ≡
            record (kernel_of self.old) { faults = (kernel_of self.old).faults ++ fault ∷ [] }) }
    {
        match self.faults.push(fault) {
            Ok(()) => Ok(()),
            Err(_) => Err(NoMemory),
        }
    }

    /// A thread waits, in place of what is known of it.
    #[tactic(auto, unfolding(crate::specs::Held::kernel_of))]
    pub(crate) fn put_fault(&mut self, fault: Fault) -> Result<(), NoMemory>
        requires { AreTables self.old }
        ensures tables { AreTables self.new }
        ensures put { OnOk result (kernel_of self.new ≡
            record (kernel_of self.old) {
              faults =
                  faults_without (kernel_of self.old).faults fault.thread ++ fault ∷ [];
            }) }
    {
        remove(&mut self.faults, fault.thread);
        match self.faults.push(fault) {
            Ok(()) => Ok(()),
            Err(_) => Err(NoMemory),
        }
    }

    /// A thread that has seen its page queues its fault. False where no rule allows that, and nothing has changed then. After `NoMemory` the
    /// table is not to be used.
    pub fn queues(&mut self, thread: u64) -> Result<bool, NoMemory>
        requires { AreTables self.old }
        ensures tables { AreTables self.new }
        ensures step { IfOk result (λ made.
            queues (kernel_of self.old) thread ≡ allowed made (kernel_of self.new)) }
        ensures same { IfOk result (λ made. OnFalse made (self.new ≡ self.old)) }
    {
        let Some(fault) = self.fault(thread) else {
            return Ok(false);
        };
        let Some(object) = self.object(fault.object) else {
            return Ok(false);
        };
        if !has_seen(fault) {
            return Ok(false);
        }
        let late = !self.must_wait(object.space, fault);
        let twin = self.has_twin(fault);
        self.put_fault(Fault {
            phase: Phase::Unread,
            ..fault
        })?;
        self.note_if(late, Difference::FaultOnItsWay)?;
        self.note_if(twin, Difference::FaultOfEachThread)?;
        Ok(true)
    }

    /// The fault of a thread, if it waits.
    #[tactic(auto, unfolding(crate::specs::Held::kernel_of))]
    pub fn fault(&self, thread: u64) -> Option<Fault>
        ensures { result ≡ fault_of (kernel_of self.now).faults thread }
    {
        find(&self.faults, thread)
    }

    /// Whether a fault of the same object, page and kind is unread.
    #[tactic(auto, unfolding(crate::specs::Held::kernel_of))]
    fn has_twin(&self, fault: Fault) -> bool
        ensures { result ≡ list_any (is_twin fault) (kernel_of self.now).faults }
    {
        has_twin(&self.faults, fault)
    }

    /// Whether an unread fault sleeps in the object's pages.
    #[tactic(auto, unfolding(crate::specs::Held::kernel_of))]
    fn has_unread_in(&self, object: u64, reach: Reach) -> bool
        ensures { result ≡ list_any (is_unread_in object reach) (kernel_of self.now).faults }
    {
        has_unread_in(&self.faults, object, reach)
    }

    /// The threads that sleep in the object's pages leave their faults.
    #[tactic(auto, unfolding(crate::specs::Held::kernel_of))]
    fn end_faults(&mut self, object: u64, reach: Reach, answered: bool) -> Result<(), NoMemory>
        requires { AreTables self.old }
        ensures tables { AreTables self.new }
        ensures over { OnOk result (kernel_of self.new ≡
            faults_over (kernel_of self.old) (sleeps object reach) answered) }
    {
        note_left(&mut self.unanswered, &self.faults, object, reach, answered)?;
        wake_in(&mut self.faults, object, reach);
        Ok(())
    }

    /// The threads that sleep in the object's pages are woken; `answered` says whether a call of the handler wakes them. After `NoMemory` the
    /// table is not to be used.
    pub(crate) fn wake(&mut self, object: u64, reach: Reach, answered: bool) -> Result<(), NoMemory>
        requires { AreTables self.old }
        ensures tables { AreTables self.new }
        ensures woken { OnOk result (kernel_of self.new ≡
            woken (kernel_of self.old) (sleeps object reach) answered) }
    {
        let unread = self.has_unread_in(object, reach);
        self.end_faults(object, reach, answered)?;
        self.note_if(unread, Difference::FaultTakenAway)
    }

    /// The fault of a thread is over, and no call answers it.
    #[tactic(auto, unfolding(crate::specs::Held::kernel_of))]
    fn end_fault(&mut self, thread: u64) -> Result<(), NoMemory>
        requires { AreTables self.old }
        ensures tables { AreTables self.new }
        ensures over { OnOk result (kernel_of self.new ≡
            faults_over (kernel_of self.old) (is_of_thread thread) false) }
    {
        note_thread(&mut self.unanswered, &self.faults, thread)?;
        remove(&mut self.faults, thread);
        Ok(())
    }

    /// A thread leaves its fault. False where no rule allows that, and nothing has changed then. After `NoMemory` the table is not to be used.
    pub fn leaves(&mut self, thread: u64) -> Result<bool, NoMemory>
        requires { AreTables self.old }
        ensures tables { AreTables self.new }
        ensures step { IfOk result (λ made.
            leaves (kernel_of self.old) thread ≡ allowed made (kernel_of self.new)) }
        ensures same { IfOk result (λ made. OnFalse made (self.new ≡ self.old)) }
    {
        let Some(fault) = self.fault(thread) else {
            return Ok(false);
        };
        let Some(object) = self.object(fault.object) else {
            return Ok(false);
        };
        let waits = self.must_wait(object.space, fault);
        self.end_fault(thread)?;
        self.note_if(waits, Difference::LeftByASignal)?;
        Ok(true)
    }

    /// A thread finds that it has to wait at a page. False where no rule allows that, and nothing has changed then. After `NoMemory` the table
    /// is not to be used.
    pub fn sees(
        &mut self,
        thread: u64,
        object: u64,
        page: u64,
        flags: u64,
    ) -> Result<bool, NoMemory>
        requires { AreTables self.old }
        ensures tables { AreTables self.new }
        ensures step { IfOk result (λ made. sees (kernel_of self.old) thread object page flags ≡
            allowed made (kernel_of self.new)) }
        ensures same { IfOk result (λ made. OnFalse made (self.new ≡ self.old)) }
    {
        let Some(of) = self.object(object) else {
            return Ok(false);
        };
        let fault = Fault {
            thread,
            object,
            page,
            flags,
            phase: Phase::Seen,
            read_by: None,
        };
        if self.fault(thread).is_some() || !are_flags(flags) || !self.must_wait(of.space, fault) {
            return Ok(false);
        }
        let protected = is_protection(flags);
        self.change(of.space, page, 1, Change::Fault { protected })?;
        self.add_fault(fault)?;
        Ok(true)
    }
}

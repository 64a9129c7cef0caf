//! The calls that change an address space, by the rules of `specs/MapCalls.antt`. After `NoMemory`, or
//! where no rule allows the answer, a table is not to be used.

ghost use Rattle.std.specs.Prelude.{◌≡◌, ◌==◌, ◌<◌, ◌≤◌, ◌+◌, ◌^◌, ◌++◌, ◌∷◌, [], IfOk, OnOk};
ghost use Rattle.foundation.specs.Ranges.{pages_of};
ghost use Rattle.kernel_rules.specs.State.{allowed};
ghost use Rattle.kernel_rules.specs.MapCalls as maps;
ghost use Rattle.kernel_rules.specs.Held.{kernel_of, AreTables};

use crate::answers::{
    has_bytes, has_stopped, is_advice, is_clearing, is_munmap_error, is_placed, is_populating,
};
use crate::calling::Span;
use crate::change::Change;
use crate::kernel_table::KernelTable;
use crate::page_test::PageTest;
use foundation::{NoMemory, PAGE_SIZE};
use uffd_log::{Answer, Errno};

/// One more than the greatest page that an address of 64 bits has.
const PAGES: u64 = 1 << 52;

/// How many pages `len` bytes take, rounded up.
pub(crate) fn pages_of(len: u64) -> u64
    ensures value { result ≡ pages_of len }
    ensures bound { result ≤ 2 ^ 52 }
{
    len / PAGE_SIZE + (if len % PAGE_SIZE == 0 { 0 } else { 1 })
}

/// Whether a range may be mapped or unmapped: it ends below the greatest address.
pub(crate) fn is_mappable(first: u64, count: u64) -> bool
    ensures { result ≡ maps.is_mappable first count }
{
    first < PAGES && count < PAGES - first
}

/// Whether a call may have cleared pages.
fn has_cleared(answer: Answer) -> bool
    ensures { result ≡ maps.has_cleared answer }
{
    match answer {
        Answer::Done => true,
        Answer::Failed { errno, .. } => matches!(errno, Errno::Enomem),
        _ => false,
    }
}

impl KernelTable {
    /// Nothing in a range is registered.
    pub(crate) fn forget(&mut self, space: u64, first: u64, count: u64) -> Result<(), NoMemory>
        requires tables { AreTables self.old }
        requires room { first + count ≤ 2 ^ 64 }
        ensures tables { AreTables self.new }
        ensures gone { OnOk result (kernel_of self.new ≡
            maps.forgotten (kernel_of self.old) space first count) }
    {
        self.change(space, first, count, Change::Forget)
    }

    /// A range is unmapped or replaced, if it may be: nothing there is registered, and nothing is owed.
    fn unmap(&mut self, key: u64, space: u64, addr: u64, len: u64) -> Result<bool, NoMemory>
        requires { AreTables self.old }
        ensures tables { AreTables self.new }
        ensures step { IfOk result (λ made.
            maps.unmapped_bytes (kernel_of self.old) key space addr len ≡
            allowed made (kernel_of self.new)) }
    {
        let (first, count) = (addr / PAGE_SIZE, pages_of(len));
        if !has_bytes(len) || !is_mappable(first, count) {
            return Ok(false);
        }
        self.tell_unmap(key, space, first, count)?;
        self.add_calling(key)?;
        self.forget(space, first, count)?;
        Ok(true)
    }

    /// mmap(2): it replaces what was mapped where it maps.
    pub(crate) fn mmaps(
        &mut self,
        key: u64,
        space: u64,
        addr: u64,
        len: u64,
        flags: u64,
        answer: Answer,
    ) -> Result<bool, NoMemory>
        requires { AreTables self.old }
        ensures tables { AreTables self.new }
        ensures step { IfOk result (λ made.
            maps.mmapped (kernel_of self.old) key space addr len flags answer ≡
            allowed made (kernel_of self.new)) }
    {
        match answer {
            Answer::Value(start) => {
                if !is_placed(addr, flags, start) {
                    return Ok(false);
                }
                self.unmap(key, space, start, len)
            }
            Answer::Failed { .. } => Ok(true),
            _ => Ok(false),
        }
    }

    /// munmap(2).
    pub(crate) fn munmaps(
        &mut self,
        key: u64,
        space: u64,
        addr: u64,
        len: u64,
        answer: Answer,
    ) -> Result<bool, NoMemory>
        requires { AreTables self.old }
        ensures tables { AreTables self.new }
        ensures step { IfOk result (λ made.
            maps.munmapped (kernel_of self.old) key space addr len answer ≡
            allowed made (kernel_of self.new)) }
    {
        match answer {
            Answer::Done => self.unmap(key, space, addr, len),
            Answer::Failed { errno, .. } => Ok(is_munmap_error(errno)),
            _ => Ok(false),
        }
    }

    /// Pages are cleared: those that are registered are missing; or the kernel may take them back.
    pub(crate) fn clear(
        &mut self,
        space: u64,
        first: u64,
        count: u64,
        frees: bool,
    ) -> Result<(), NoMemory>
        requires tables { AreTables self.old }
        requires room { first + count ≤ 2 ^ 64 }
        ensures tables { AreTables self.new }
        ensures cleared { OnOk result (kernel_of self.new ≡
            maps.all_cleared (kernel_of self.old) space first count frees) }
    {
        let change = if frees { Change::Free } else { Change::Clear };
        self.change(space, first, count, change)
    }

    /// A call may have cleared pages of a range, or freed them, and has stopped before its last one.
    fn clear_part(
        &mut self,
        space: u64,
        first: u64,
        count: u64,
        advice: u64,
    ) -> Result<(), NoMemory>
        requires tables { AreTables self.old }
        requires room { first + count ≤ 2 ^ 64 }
        ensures tables { AreTables self.new }
        ensures cleared { OnOk result (kernel_of self.new ≡
            maps.cleared_in_part (kernel_of self.old) space first count advice) }
    {
        let change = if advice == 8 {
            Change::Free
        } else {
            Change::PerhapsClear
        };
        self.change(space, first, count.saturating_sub(1), change)
    }

    /// A call has a range to announce, and to clear then.
    #[tactic(auto, unfolding(crate::specs::Held::kernel_of))]
    fn add_spans(&mut self, span: Span) -> Result<(), NoMemory>
        requires { AreTables self.old }
        ensures tables { AreTables self.new }
        ensures added { OnOk result (kernel_of self.new ≡ record (kernel_of self.old) {
          untold = (kernel_of self.old).untold ++ span ∷ [];
          clears = (kernel_of self.old).clears ++ span ∷ [];
        }) }
    {
        let Ok(()) = self.untold.push(span) else {
            return Err(NoMemory);
        };
        match self.clears.push(span) {
            Ok(()) => Ok(()),
            Err(_) => Err(NoMemory),
        }
    }

    /// A call clears a range once it has told these objects of it.
    fn clear_later(
        &mut self,
        key: u64,
        space: u64,
        first: u64,
        count: u64,
        advice: u64,
        told: &[u64],
    ) -> Result<(), NoMemory>
        requires tables { AreTables self.old }
        requires room { first + count < 2 ^ 64 }
        ensures tables { AreTables self.new }
        ensures begun { OnOk result (kernel_of self.new ≡ maps.with_clearing
            (maps.with_all_told (kernel_of self.old) key told.now) key space first count
            (advice == 8)) }
    {
        self.add_all_told(key, told)?;
        self.add_calling(key)?;
        let end = first + count;
        self.add_spans(Span {
            key,
            space,
            first,
            end,
            frees: advice == 8,
        })
    }

    /// A call begins to clear a range, or to free it.
    fn begin_to_clear(
        &mut self,
        key: u64,
        space: u64,
        first: u64,
        count: u64,
        advice: u64,
    ) -> Result<(), NoMemory>
        requires tables { AreTables self.old }
        requires room { first + count < 2 ^ 64 }
        ensures tables { AreTables self.new }
        ensures begun { OnOk result (kernel_of self.new ≡
            maps.clearing (kernel_of self.old) key space first count (advice == 8)) }
    {
        let told = self.told_in(3, space, first, first + count)?;
        if told.is_empty() {
            return self.clear(space, first, count, advice == 8);
        }
        self.clear_later(key, space, first, count, advice, &told)
    }

    /// Each page of a range was there when it was touched, and could be written if it was to be.
    fn populate(
        &mut self,
        space: u64,
        first: u64,
        count: u64,
        advice: u64,
    ) -> Result<bool, NoMemory>
        requires tables { AreTables self.old }
        requires room { first + count ≤ 2 ^ 64 }
        ensures tables { AreTables self.new }
        ensures step { IfOk result (λ made.
            maps.populated (kernel_of self.old) space first count (advice == 23) ≡
            allowed made (kernel_of self.new)) }
    {
        if self.some_page(space, first, count, PageTest::Lacking) {
            return Ok(false);
        }
        let write = advice == 23;
        self.change(space, first, count, Change::Populate { write })?;
        Ok(true)
    }

    /// madvise(2), of the advices that clear pages, or touch them.
    pub(crate) fn madvises(
        &mut self,
        key: u64,
        space: u64,
        addr: u64,
        len: u64,
        advice: u64,
        answer: Answer,
    ) -> Result<bool, NoMemory>
        requires { AreTables self.old }
        ensures tables { AreTables self.new }
        ensures step { IfOk result (λ made.
            maps.madvised (kernel_of self.old) key space addr len advice answer ≡
            allowed made (kernel_of self.new)) }
    {
        if !is_advice(advice, answer) {
            return Ok(false);
        }
        let (first, count) = (addr / PAGE_SIZE, pages_of(len));
        if is_populating(advice, answer) {
            return self.populate(space, first, count, advice);
        }
        if has_stopped(advice, answer) {
            self.clear_part(space, first, count, advice)?;
            return Ok(true);
        }
        if !has_cleared(answer) {
            return Ok(true);
        }
        if is_clearing(advice) {
            self.begin_to_clear(key, space, first, count, advice)?;
        }
        Ok(true)
    }

    /// The kernel takes back a page of an object for which MADV_FREE was called. False where no rule allows that, and nothing has changed then.
    pub fn drops(&mut self, name: u64, page: u64) -> Result<bool, NoMemory>
        requires { AreTables self.old }
        ensures tables { AreTables self.new }
        ensures step { IfOk result (λ made.
            maps.drops (kernel_of self.old) name page ≡ allowed made (kernel_of self.new)) }
    {
        let Some(object) = self.object(name) else {
            return Ok(false);
        };
        if !self.page_passes(object.space, page, PageTest::Freed(name)) {
            return Ok(false);
        }
        self.change(object.space, page, 1, Change::Clear)?;
        Ok(true)
    }
}

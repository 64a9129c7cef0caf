//! The kept copies: the newest copy of each page, until the destination runs.

ghost use Rattle.std.specs.Prelude.{◌≡◌, ◌↔◌, ℕ, ◌+◌, ◌==◌, ◌<◌, ◌≤◌, ◌&&◌, ◌||◌, false, true, not, None, IfOk, OnOk, OnErr, length};
ghost use Rattle.std.specs.FinMap as map;
ghost use Rattle.std.specs.FinSet as set;
ghost use Rattle.mig_base.specs.Bytes.{zero_page};
ghost use Rattle.mig_base.specs.Pages.{remove_range};
ghost use Rattle.foundation.specs.Ranges.{in_range};
ghost use Rattle.mig_base.specs.declared.TheConstants.{HIGH_PAGE};
ghost use Rattle.mig_model.specs.Destination.{assembled};
ghost use Rattle.mig_model.specs.Faults as machine;
ghost use Rattle.mig_model.specs.Wire.{kept_with, run_copies};

use area_map::AreaMap;
use mig_base::flags::REGISTER_MISSING_BIT;
use mig_base::{NoMemory, PageBytes, PageNo, PageSet};
use page_table::PageTable;
use std::alloc::Global;
use std::marker::Model;
use std::mem;
use uffd_ioctl::Space;

/// The mode word of UFFDIO_REGISTER for missing faults.
const MISSING_MODE: u64 = 1 << REGISTER_MISSING_BIT;

/// The newest copy of each page that has come.
///
/// The set of the table's pages is kept beside it, so that runs of pages are found by whole words.
#[derive(Drop)]
pub(crate) struct Kept {
    alloc: Global,
    pages: PageTable,
    set: PageSet,
}

impl Model for Kept {
    ghost use Rattle.std.specs.Prelude.{ℕ, List};
    ghost use Rattle.std.specs.Ordering.{nat_cmp};
    ghost use Rattle.std.specs.FinMap as map;
    ghost use Rattle.std.specs.Coded.{coded_ℕ, coded_list};
    ghost use Rattle.fault_handler.specs.Kept.{IsKept};

    ghost Value = { map.FinMap nat_cmp (List ℕ) };

    ghost coded = { map.code coded_ℕ (coded_list coded_ℕ) };

    ghost view = { λ kept. kept.pages.bytes };

    ghost invariant = { λ kept. IsKept kept.pages kept.set };
}

impl Kept {
    /// Nothing is kept. It takes no memory.
    pub fn new(alloc: Global) -> Self
        ensures { result ≡ map.empty }
    {
        Kept {
            alloc,
            pages: PageTable::new(alloc),
            set: PageSet::new(alloc),
        }
    }

    /// The same kept copies, in memory of their own. `NoMemory` if that cannot be allocated.
    pub fn copy(&self) -> Result<Self, NoMemory>
        ensures { IfOk result (λ copy. copy ≡ self.now) }
    {
        let set = self.set.copy()?;
        Ok(Kept {
            alloc: self.alloc,
            pages: self.pages.copy()?,
            set,
        })
    }

    /// Whether copies of the same pages are kept, with the same bytes.
    pub fn is_same(&self, other: &Self) -> bool
        ensures { (result ≡ true) ↔ (self.now ≡ other.now) }
    {
        self.pages.is_same(&other.pages)
    }

    /// Keeps the copy of a page; it replaces an older one. `NoMemory` changes nothing, and never comes for a page that is kept.
    pub fn keep(&mut self, page: PageNo, bytes: PageBytes) -> Result<(), NoMemory>
        requires { page < HIGH_PAGE }
        ensures ok { OnOk result (self.new ≡ map.insert self.old page bytes) }
        ensures err { OnErr result (self.new ≡ self.old) }
    {
        if self.set.contains(page) {
            self.pages.replace(page, bytes);
            return Ok(());
        }
        self.set.insert(page)?;
        match self.pages.put(page, bytes) {
            Ok(()) => Ok(()),
            Err(_) => {
                self.set.remove(page);
                Err(NoMemory)
            }
        }
    }

    /// Keeps a page of zeros, which takes no memory for its bytes; it replaces an older copy. `NoMemory` changes nothing, and never comes
    /// for a page that is kept.
    pub fn keep_zero(&mut self, page: PageNo) -> Result<(), NoMemory>
        requires { page < HIGH_PAGE }
        ensures ok { OnOk result (self.new ≡ map.insert self.old page zero_page) }
        ensures err { OnErr result (self.new ≡ self.old) }
    {
        if self.set.contains(page) {
            self.pages.replace_by_zeros(page);
            return Ok(());
        }
        self.set.insert(page)?;
        match self.pages.put_zero(page) {
            Ok(()) => Ok(()),
            Err(_) => {
                self.set.remove(page);
                Err(NoMemory)
            }
        }
    }

    /// Keeps the copies of neighbouring pages; they replace older ones. `NoMemory` changes nothing.
    pub fn keep_run(&mut self, first: PageNo, run: Vec<PageBytes>) -> Result<(), NoMemory>
        requires { first + length run.items ≤ HIGH_PAGE }
        ensures ok { OnOk result (self.new ≡ kept_with self.old (run_copies first run.items)) }
        ensures err { OnErr result (self.new ≡ self.old) }
    {
        let count = run.len() as u32;
        self.set.insert_range(first, count)?;
        match self.pages.put_run(first, run) {
            Ok(()) => Ok(()),
            Err(_run) => {
                remove_missing(&mut self.set, &self.pages, first, count);
                Err(NoMemory)
            }
        }
    }

    /// Discards the copies of these pages, run by run.
    pub fn discard(&mut self, pages: &PageSet)
        ensures { self.new ≡ map.retain_keys self.old (λ page. not (set.contains pages.now page)) }
    {
        for run in pages.runs() {
            self.drop_range(run.first, run.count);
        }
    }

    /// Discards the copies of the `count` pages from `first` on.
    fn drop_range(&mut self, first: PageNo, count: u32)
        requires { first + count ≤ HIGH_PAGE }
        ensures { self.new ≡ remove_range self.old first count }
    {
        self.pages.drop_range(first, count);
        self.set.remove_range(first, count);
    }

    /// Whether the kept copies contradict a Package of these areas and owed pages: an owed page is kept, or an owed or kept page is not
    /// mapped. It walks runs of pages, and takes no memory.
    pub fn is_torn(&self, areas: &AreaMap, owed: &PageSet) -> bool
        ensures { result ≡ machine.is_torn self.now areas.now owed.now }
    {
        meet(owed, &self.set) || !are_mapped(areas, owed) || !are_mapped(areas, &self.set)
    }

    /// Builds a space of these areas with the kept pages, in which every mapped page is registered for missing faults. Afterwards nothing
    /// is kept. `NoMemory` changes nothing.
    pub fn assemble(&mut self, areas: AreaMap) -> Result<Space, NoMemory>
        requires { (page : ℕ) → map.get areas page ≡ None → map.get self.old page ≡ None }
        ensures ok { IfOk result (λ space. space ≡ assembled areas self.old) }
        ensures empty { OnOk result (self.new ≡ map.empty) }
        ensures err { OnErr result (self.new ≡ self.old) }
    {
        let pages = mem::replace(&mut self.pages, PageTable::new(self.alloc));
        match Space::assemble(self.alloc, areas, pages, MISSING_MODE) {
            Ok(space) => {
                self.set = PageSet::new(self.alloc);
                Ok(space)
            }
            Err((_, pages)) => {
                self.pages = pages;
                Err(NoMemory)
            }
        }
    }
}

/// Removes from a set the pages of a range that are not present in a table.
fn remove_missing(kept: &mut PageSet, pages: &PageTable, first: PageNo, count: u32)
    requires { first + count ≤ HIGH_PAGE }
    ensures { (q : ℕ) → set.contains kept.new q ≡
        (set.contains kept.old q &&
        (not (in_range first count q) || map.contains_key pages.now.bytes q)) }
{
    for page in first..first + count {
        if pages.get(page).is_none() {
            kept.remove(page);
        }
    }
}

/// Whether two sets have a page in common.
fn meet(one: &PageSet, other: &PageSet) -> bool
    ensures { result ≡ not (set.len (set.retain one.now (λ page.
        set.contains other.now page)) == 0) }
{
    for run in one.runs() {
        let end = run.first + run.count;
        if other.next_before(run.first, true, end) < end {
            return true;
        }
    }
    false
}

/// Whether every page of a set is mapped.
fn are_mapped(areas: &AreaMap, pages: &PageSet) -> bool
    ensures { result ≡ (set.len (set.retain pages.now (λ page.
        not (map.contains_key areas.now page))) == 0) }
{
    for run in pages.runs() {
        if areas.mapped_in(run.first, run.count) < run.count {
            return false;
        }
    }
    true
}

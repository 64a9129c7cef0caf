//! The registered pages of an address space, as runs of equal ones.

ghost use Rattle.std.specs.Prelude.{◌≡◌, ◌≤◌, ◌<◌, ◌+◌, ◌^◌, ◌==◌, ℕ, false, true, None, OnOk, IfOk};
ghost use Rattle.std.specs.Bool.{OnTrue};
ghost use Rattle.std.specs.Ordering.{nat_cmp};
ghost use Rattle.std.specs.BTreeMap.{get};
ghost use Rattle.kernel_rules.specs.Changes.{range_changed};
ghost use Rattle.kernel_rules.specs.Tables.{pages_of, range_set, IsTable};

use crate::change::Change;
use crate::known::Page;
use foundation::NoMemory;
use std::alloc::Global;
use std::collections::BTreeMap;
use std::ops::Bound;

/// The registered pages of an address space. All pages from a key on, up to the next key, are what is kept at the key. Neighbours that become
/// equal are joined, so that pages that are put one by one and then protected as one are few runs.
#[derive(Drop)]
pub struct PageTable {
    pub runs: BTreeMap<u64, Option<Page>>,
}

/// Whether two pages are the same.
fn are_same(page: Option<Page>, other: Option<Page>) -> bool
    ensures { OnTrue result (page ≡ other) }
{
    page == other
}

impl PageTable {
    /// No page is registered.
    pub(crate) fn new(alloc: Global) -> PageTable
        ensures table { IsTable result }
        ensures none { (page : ℕ) → pages_of result page ≡ None }
    {
        PageTable {
            runs: BTreeMap::new(alloc),
        }
    }

    /// The page, if it is registered.
    pub(crate) fn look(&self, page: u64) -> Option<Page>
        requires { IsTable self.now }
        ensures { result ≡ pages_of self.now page }
    {
        match self.runs.range(..=page).next_back() {
            Some((_, found)) => *found,
            None => None,
        }
    }

    /// How many pages from one on, `most` at most, are the same.
    pub(crate) fn run(&self, page: u64, most: u64) -> u64
        requires table { IsTable self.now }
        requires some { 0 < most }
        requires room { page + most ≤ 2 ^ 64 }
        ensures some { 0 < result }
        ensures within { result ≤ most }
        ensures none { (n : ℕ) → page < n → n < page + result →
            get nat_cmp self.now.runs n ≡ None }
    {
        if most == 1 {
            return 1;
        }
        let after = (Bound::Excluded(page), Bound::Unbounded);
        match self.runs.range(after).next() {
            Some((next, _)) => most.min(*next - page),
            None => most,
        }
    }

    /// A run starts at a page, unless the page before it is the same.
    fn start(&mut self, page: u64, found: Option<Page>) -> Result<(), NoMemory>
        requires { IsTable self.old }
        ensures table { IsTable self.new }
        ensures others { OnOk result ((n : ℕ) → (page == n) ≡ false →
            get nat_cmp self.new.runs n ≡ get nat_cmp self.old.runs n) }
        ensures found { OnOk result (pages_of self.new page ≡ found) }
    {
        if page > 0 && are_same(self.look(page - 1), found) {
            self.runs.remove(&page);
            return Ok(());
        }
        match self.runs.insert(page, found) {
            Ok(_) => Ok(()),
            Err(_) => Err(NoMemory),
        }
    }

    /// Sets pages, which are the same. After `NoMemory` others may be changed too.
    fn set(&mut self, first: u64, count: u64, found: Option<Page>) -> Result<(), NoMemory>
        requires table { IsTable self.old }
        requires room { first + count ≤ 2 ^ 64 }
        requires some { 0 < count }
        requires same { (n : ℕ) → first < n → n < first + count →
            get nat_cmp self.old.runs n ≡ None }
        ensures table { IsTable self.new }
        ensures set { OnOk result ((n : ℕ) →
            pages_of self.new n ≡ range_set (pages_of self.old) first count found n) }
    {
        let Some(end) = first.checked_add(count) else {
            return self.start(first, found);
        };
        let next = self.look(end);
        self.start(first, found)?;
        self.start(end, next)
    }

    /// Changes the pages from one on that are the same, `most` at most, and says how many. After `NoMemory` others may be changed too.
    fn change_run(&mut self, first: u64, most: u64, change: Change) -> Result<u64, NoMemory>
        requires table { IsTable self.old }
        requires room { first + most ≤ 2 ^ 64 }
        requires some { 0 < most }
        ensures table { IsTable self.new }
        ensures some { IfOk result (λ count. 0 < count) }
        ensures within { IfOk result (λ count. count ≤ most) }
        ensures changed { IfOk result (λ count. (n : ℕ) →
            pages_of self.new n ≡ range_changed (pages_of self.old) first count change n) }
    {
        let found = self.look(first);
        let count = self.run(first, most);
        self.set(first, count, change.apply(found))?;
        Ok(count)
    }

    /// Changes `count` pages from `first` on. After `NoMemory` the table is not to be used.
    pub(crate) fn change(&mut self, first: u64, count: u64, change: Change) -> Result<(), NoMemory>
        requires table { IsTable self.old }
        requires room { first + count ≤ 2 ^ 64 }
        ensures table { IsTable self.new }
        ensures ok { OnOk result ((n : ℕ) →
            pages_of self.new n ≡ range_changed (pages_of self.old) first count change n) }
    {
        let mut done = 0;
        while done < count {
            done += self.change_run(first + done, count - done, change)?;
        }
        Ok(())
    }
}

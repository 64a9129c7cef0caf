//! The pages that the source still owes, each with the page at the source that is to fill it.
//!
//! `table` has a number, or none, for each page, in places of 1024; `links` has two such tables, one for each direction, with
//! the same pairs.

ghost use Rattle.std.specs.Prelude.{◌≡◌, ◌≢◌, ℕ, ◌+◌, ◌<◌, ◌≤◌, ◌⊎◌, ◌↔◌, ◌==◌, true, Some, None, OnOk, OnErr, IfOk, IfSome};
ghost use Rattle.std.specs.FinMap as map;
ghost use Rattle.mig_base.specs.Pages.{remove_range, moved_range};
ghost use Rattle.mig_base.specs.declared.TheConstants.{HIGH_PAGE};
ghost use Rattle.owed_pages.specs.Owed.{home, origins, own_places};

mod links;
mod table;

use crate::owed::links::Links;
use crate::owed::table::{get_number, numbered};
use mig_base::page_set::PageSet;
use mig_base::{NoMemory, PageNo};
use std::alloc::Global;
use std::marker::Model;

/// The table of owed pages: which page of the source, the *origin*, is to fill which page of the destination.
///
/// No page of the source is owed at two pages. Pages and origins lie below `HIGH_PAGE`. `home`, `origin` and `settle` take the
/// same few steps whatever is owed. The number of pairs is kept, so that `len` and `is_empty` do not count.
#[derive(Drop)]
pub struct Owed {
    alloc: Global,
    links: Links,
}

impl Model for Owed {
    ghost use Rattle.std.specs.Prelude.{ℕ};
    ghost use Rattle.std.specs.Ordering.{nat_cmp};
    ghost use Rattle.std.specs.FinMap as map;
    ghost use Rattle.std.specs.Coded.{coded_ℕ};
    ghost use Rattle.owed_pages.specs.Owed.{pairs_of};

    ghost Value = { map.FinMap nat_cmp ℕ };

    ghost coded = { map.code coded_ℕ coded_ℕ };

    ghost view = { λ a. pairs_of a.links.forth.items };
}

impl Owed {
    /// A table in which nothing is owed. It takes no memory.
    pub fn empty(alloc: Global) -> Self
        ensures { result ≡ map.empty }
    {
        Owed {
            alloc,
            links: Links::new(alloc),
        }
    }

    /// A table in which each page of the set is owed at its own place. `NoMemory` if the room for the pairs cannot be allocated.
    pub fn new(alloc: Global, pages: &PageSet) -> Result<Self, NoMemory>
        ensures { IfOk result (λ owed. owed ≡ own_places pages.now HIGH_PAGE) }
    {
        let mut links = Links::new(alloc);
        for page in pages.iter() {
            links.link_itself(alloc, page)?;
        }
        Ok(Owed { alloc, links })
    }

    /// An equal table, in memory of its own. `NoMemory` if the room for the pairs cannot be allocated.
    pub fn copy(&self) -> Result<Self, NoMemory>
        ensures { IfOk result (λ copy. copy ≡ self.now) }
    {
        Ok(Owed {
            alloc: self.alloc,
            links: self.links.copy(self.alloc)?,
        })
    }

    /// Whether the same pages are owed, each with the same origin.
    pub fn is_same(&self, other: &Self) -> bool
        ensures { (result ≡ true) ↔ (self.now ≡ other.now) }
    {
        self.links.is_same(&other.links)
    }

    /// The page where a page of the source belongs now, or `None` if it is not owed. Any page number is allowed.
    pub fn home(&self, origin: PageNo) -> Option<PageNo>
        ensures answer { result ≡ home self.now origin }
        ensures only { (q : ℕ) → (result ≡ Some q) ↔ (map.get self.now q ≡ Some origin) }
        ensures below { IfSome result (λ page. page < HIGH_PAGE) }
    {
        get_number(&self.links.back, origin)
    }

    /// The page of the source that is owed at a page, or `None`. Any page number is allowed.
    pub fn origin(&self, page: PageNo) -> Option<PageNo>
        ensures answer { result ≡ map.get self.now page }
        ensures below { IfSome result (λ origin. origin < HIGH_PAGE) }
    {
        get_number(&self.links.forth, page)
    }

    /// The pages of the source that are owed, as a new set.
    ///
    /// `NoMemory` only if the set cannot grow.
    pub fn origins(&self, alloc: Global) -> Result<PageSet, NoMemory>
        ensures { IfOk result (λ pages. pages ≡ origins self.now) }
    {
        numbered(alloc, &self.links.back)
    }

    /// The number of owed pages.
    pub fn len(&self) -> u32
        ensures { result ≡ map.len self.now }
    {
        self.links.count
    }

    /// Whether nothing is owed.
    pub fn is_empty(&self) -> bool
        ensures { result ≡ (map.len self.now == 0) }
    {
        self.links.count == 0
    }

    /// Removes the pair of a page of the source, wherever it belongs now. If that page is not owed, nothing changes. It takes no
    /// memory.
    pub fn settle(&mut self, origin: PageNo)
        ensures settled { (q : ℕ) → map.get self.old q ≡ Some origin →
            self.new ≡ map.remove self.old q }
        ensures none { ((q : ℕ) → map.get self.old q ≢ Some origin) → self.new ≡ self.old }
    {
        if let Some(page) = get_number(&self.links.back, origin) {
            self.links.unlink(page);
        }
    }

    /// Removes the pairs of the `count` pages from `first` on. Leaves in which no page was ever owed are skipped. It takes no
    /// memory.
    pub fn remove_range(&mut self, first: PageNo, count: u32)
        requires { first + count ≤ HIGH_PAGE }
        ensures { self.new ≡ remove_range self.old first count }
    {
        self.links.unlink_range(first, count);
    }

    /// Moves what is owed at the `count` pages from `from` on to the pages from `to` on. What was owed at the target is removed, and
    /// nothing is owed at the old pages afterwards. The ranges do not overlap, and both end at or below page 0x100000.
    ///
    /// Leaves in which no page was ever owed are skipped, and need no room at the target. `NoMemory`, for that room, leaves the
    /// table as it was.
    pub fn move_range(&mut self, from: PageNo, to: PageNo, count: u32) -> Result<(), NoMemory>
        requires inside { (from + count ≤ HIGH_PAGE) × (to + count ≤ HIGH_PAGE) }
        requires apart { (from + count ≤ to) ⊎ (to + count ≤ from) }
        ensures ok { OnOk result (self.new ≡ moved_range self.old from count to count None) }
        ensures err { OnErr result (self.new ≡ self.old) }
    {
        self.links.make_room(self.alloc, from, to, count)?;
        self.links.unlink_range(to, count);
        self.links.move_links(from, to, count);
        Ok(())
    }
}

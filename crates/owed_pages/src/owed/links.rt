//! Pairs of a page and its origin, in two tables: the origin of each page, and the page of each origin.
//!
//! `specs/Owed.antt` says when both tables have the same pairs (`AreLinks`). So the contracts here mention only the origins of
//! pages.

ghost use Rattle.std.specs.Prelude.{◌≡◌, ◌≢◌, ◌↔◌, ℕ, ◌+◌, ◌<◌, ◌≤◌, ◌⊎◌, true, nat_eq, if◌then◌else◌, Some, None, OnOk, OnErr, IfOk};
ghost use Rattle.foundation.specs.Ranges.{in_range};
ghost use Rattle.mig_base.specs.declared.TheConstants.{HIGH_PAGE};
ghost use Rattle.owed_pages.specs.Tables.{page_number, has_place, moved_number};
ghost use Rattle.owed_pages.specs.Owed.{AreLinks, HasRoom};

use crate::owed::table::{
    Place, copy_places, get_number, has_leaf, have_same_numbers, make_leaf, make_leaves, next_leaf,
    put_number,
};
use mig_base::{NoMemory, PageNo};
use std::alloc::Global;

/// The pairs, in both directions.
#[derive(Drop)]
pub struct Links {
    /// The origin of each page.
    pub forth: Vec<Place>,
    /// The page of each origin.
    pub back: Vec<Place>,
    /// The number of pairs.
    pub count: u32,
    pub ghost kept: { AreLinks forth.items back.items count },
}

impl Links {
    /// No pairs. It takes no memory.
    pub fn new(alloc: Global) -> Self
        ensures { (q : ℕ) → page_number result.forth.items q ≡ None }
    {
        Links {
            forth: Vec::new(alloc),
            back: Vec::new(alloc),
            count: 0,
        }
    }

    /// The same pairs, in memory of their own. `NoMemory` if that cannot be allocated.
    pub fn copy(&self, alloc: Global) -> Result<Self, NoMemory>
        ensures { IfOk result (λ copy. (q : ℕ) →
            page_number copy.forth.items q ≡ page_number self.now.forth.items q) }
    {
        let forth = copy_places(alloc, &self.forth)?;
        Ok(Links {
            forth,
            back: copy_places(alloc, &self.back)?,
            count: self.count,
        })
    }

    /// Whether the pairs are the same.
    pub fn is_same(&self, other: &Self) -> bool
        ensures { (result ≡ true) ↔ ((q : ℕ) →
            page_number self.now.forth.items q ≡ page_number other.now.forth.items q) }
    {
        have_same_numbers(&self.forth, &other.forth)
    }

    /// Removes the pair of a page, if there is one.
    pub fn unlink(&mut self, page: PageNo)
        ensures pairs { (q : ℕ) →
            page_number self.new.forth.items q ≡
            (if nat_eq q page then None else page_number self.old.forth.items q) }
        ensures free { (s : ℕ) → page_number self.old.forth.items page ≡ Some s →
            page_number self.new.back.items s ≡ None }
        ensures stay { (q : ℕ) →
            has_place self.new.forth.items q ≡ has_place self.old.forth.items q }
        ensures stay_back { (s : ℕ) →
            has_place self.new.back.items s ≡ has_place self.old.back.items s }
    {
        if let Some(origin) = get_number(&self.forth, page) {
            put_number(&mut self.forth, page, None);
            put_number(&mut self.back, origin, None);
            self.count -= 1;
        }
    }

    /// Inserts a pair.
    pub fn link(&mut self, page: PageNo, origin: PageNo)
        requires room { (has_place self.old.forth.items page ≡ true) ×
            (has_place self.old.back.items origin ≡ true) }
        requires free { (page_number self.old.forth.items page ≡ None) ×
            (page_number self.old.back.items origin ≡ None) }
        ensures pairs { (q : ℕ) →
            page_number self.new.forth.items q ≡
            (if nat_eq q page then Some origin else page_number self.old.forth.items q) }
        ensures stay { (q : ℕ) →
            has_place self.new.forth.items q ≡ has_place self.old.forth.items q }
    {
        put_number(&mut self.forth, page, Some(origin));
        put_number(&mut self.back, origin, Some(page));
        self.count += 1;
    }

    /// Inserts the pair of a page with itself. `NoMemory` leaves the pairs as they were.
    pub fn link_itself(&mut self, alloc: Global, page: PageNo) -> Result<(), NoMemory>
        requires page { page < HIGH_PAGE }
        requires free { (page_number self.old.forth.items page ≡ None) ×
            (page_number self.old.back.items page ≡ None) }
        ensures pairs { OnOk result ((q : ℕ) →
            page_number self.new.forth.items q ≡
            (if nat_eq q page then Some page else page_number self.old.forth.items q)) }
    {
        make_leaf(alloc, &mut self.forth, page)?;
        make_leaf(alloc, &mut self.back, page)?;
        self.link(page, page);
        Ok(())
    }

    /// Makes room at another range for the pairs of a range of pages. The pairs stay where they are, also after `NoMemory`. A missing
    /// leaf has no pair to make room for.
    pub fn make_room(
        &mut self,
        alloc: Global,
        from: PageNo,
        to: PageNo,
        count: u32,
    ) -> Result<(), NoMemory>
        requires inside { (from + count ≤ HIGH_PAGE) × (to + count ≤ HIGH_PAGE) }
        ensures same { (q : ℕ) →
            page_number self.new.forth.items q ≡ page_number self.old.forth.items q }
        ensures room { OnOk result
            (HasRoom (page_number self.new.forth.items) (has_place self.new.forth.items) from to
            count) }
    {
        let mut made = 0;
        while made < count {
            let next = next_leaf(from + made, from + count) - from;
            if has_leaf(&self.forth, from + made) {
                make_leaves(alloc, &mut self.forth, to + made, next - made)?;
            }
            made = next;
        }
        Ok(())
    }

    /// Removes the pairs of a range of pages, page by page.
    fn unlink_run(&mut self, first: PageNo, count: u32)
        requires { first + count ≤ HIGH_PAGE }
        ensures pairs { (q : ℕ) →
            page_number self.new.forth.items q ≡
            (if in_range first count q then None else page_number self.old.forth.items q) }
        ensures stay { (q : ℕ) →
            has_place self.new.forth.items q ≡ has_place self.old.forth.items q }
    {
        for i in 0..count {
            self.unlink(first + i);
        }
    }

    /// Removes the pairs of a range of pages, leaf by leaf. Missing leaves are skipped.
    pub fn unlink_range(&mut self, first: PageNo, count: u32)
        requires { first + count ≤ HIGH_PAGE }
        ensures pairs { (q : ℕ) →
            page_number self.new.forth.items q ≡
            (if in_range first count q then None else page_number self.old.forth.items q) }
        ensures stay { (q : ℕ) →
            has_place self.new.forth.items q ≡ has_place self.old.forth.items q }
    {
        let end = first + count;
        let mut page = first;
        while page < end {
            let next = next_leaf(page, end);
            if has_leaf(&self.forth, page) {
                self.unlink_run(page, next - page);
            }
            page = next;
        }
    }

    /// Moves the pair of a page, if there is one, to another page that has none.
    fn move_link(&mut self, from: PageNo, to: PageNo)
        requires room { (s : ℕ) → page_number self.old.forth.items from ≡ Some s →
            has_place self.old.forth.items to ≡ true }
        requires free { page_number self.old.forth.items to ≡ None }
        requires apart { from ≢ to }
        ensures moved { (q : ℕ) →
            page_number self.new.forth.items q ≡
            moved_number (page_number self.old.forth.items) from to 1 q }
        ensures stay { (q : ℕ) →
            has_place self.new.forth.items q ≡ has_place self.old.forth.items q }
    {
        if let Some(origin) = get_number(&self.forth, from) {
            self.unlink(from);
            self.link(to, origin);
        }
    }

    /// Moves the pairs of a range of pages to another that has none, page by page.
    fn move_run(&mut self, from: PageNo, to: PageNo, count: u32)
        requires inside { (from + count ≤ HIGH_PAGE) × (to + count ≤ HIGH_PAGE) }
        requires apart { (from + count ≤ to) ⊎ (to + count ≤ from) }
        requires room { HasRoom (page_number self.old.forth.items) (has_place self.old.forth.items)
            from to count }
        requires free { (q : ℕ) → to ≤ q → q < to + count →
            page_number self.old.forth.items q ≡ None }
        ensures moved { (q : ℕ) →
            page_number self.new.forth.items q ≡
            moved_number (page_number self.old.forth.items) from to count q }
        ensures stay { (q : ℕ) →
            has_place self.new.forth.items q ≡ has_place self.old.forth.items q }
    {
        for i in 0..count {
            self.move_link(from + i, to + i);
        }
    }

    /// Moves the pairs of a range of pages to another that has none, leaf by leaf. Missing leaves are skipped.
    pub fn move_links(&mut self, from: PageNo, to: PageNo, count: u32)
        requires inside { (from + count ≤ HIGH_PAGE) × (to + count ≤ HIGH_PAGE) }
        requires apart { (from + count ≤ to) ⊎ (to + count ≤ from) }
        requires room { HasRoom (page_number self.old.forth.items) (has_place self.old.forth.items)
            from to count }
        requires free { (q : ℕ) → to ≤ q → q < to + count →
            page_number self.old.forth.items q ≡ None }
        ensures moved { (q : ℕ) →
            page_number self.new.forth.items q ≡
            moved_number (page_number self.old.forth.items) from to count q }
    {
        let mut moved = 0;
        while moved < count {
            let next = next_leaf(from + moved, from + count) - from;
            if has_leaf(&self.forth, from + moved) {
                self.move_run(from + moved, to + moved, next - moved);
            }
            moved = next;
        }
    }
}

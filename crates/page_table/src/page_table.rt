//! The type that callers see: the present pages, with their bytes and their protection.

ghost use Rattle.std.specs.Prelude.{◌≡◌, ℕ, ◌+◌, ◌-◌, ◌<◌, ◌≤◌, ◌⊎◌, ◌↔◌, true, false, if◌then◌else◌, List, Some, None, Err, OnOk, OnErr, IfOk, IfErr, IsTrue, length};
ghost use Rattle.std.specs.Option.{option_copied};
ghost use Rattle.std.specs.FinMap as map;
ghost use Rattle.std.specs.FinSet as set;
ghost use Rattle.std.specs.Ordering.{nat_cmp};
ghost use Rattle.foundation.specs.Ranges.{in_range};
ghost use Rattle.mig_base.specs.Pages.{remove_range};
ghost use Rattle.mig_base.specs.Sets.{without};
ghost use Rattle.foundation.specs.declared.TheConstants.{PAGE_SIZE};
ghost use Rattle.mig_base.specs.declared.TheConstants.{HIGH_PAGE};
ghost use Rattle.mig_base.specs.Bytes.{zero_page, contents, overwrite};
ghost use Rattle.page_table.specs.Bytes.{unless_zeros, write_needs_room};

mod ranges;

use crate::leaf::Place;
use crate::page::Page;
use crate::table::{
    are_same, bytes_at, bytes_unless_zeros_at, clear_range, copy_places, is_present_at,
    is_protected_at, make_place, make_places, move_cells, present_of, protect_at, put_at, write_at,
};
use mig_base::page_set::PageSet;
use mig_base::{NoMemory, PAGE_BYTES, PageBytes, PageNo};
use std::alloc::Global;
use std::marker::Model;
use thiserror::Error;

/// Why a page could not be put. The table is as it was before the call.
#[derive(Clone, Copy, Debug, PartialEq, Eq, Error)]
pub enum PutFault {
    /// The page is present already, and it keeps its bytes and its protection.
    #[error("the page is present")]
    Present,
    /// The page is missing and stays so, because an allocation failed. The same call may succeed later.
    #[error("no memory")]
    NoMemory,
}

/// The present pages of a host below `HIGH_PAGE`, their bytes, and which of them are write-protected.
///
/// `get`, `is_protected`, `write`, `protect` and `unprotect` take the same few steps whatever is present, and none but `write` takes
/// memory.
#[derive(Drop)]
pub struct PageTable {
    alloc: Global,
    places: Vec<Place>,
}

impl Model for PageTable {
    ghost use Rattle.page_table.specs.Views.{Pages, coded_pages, shown_pages, IsTable};

    ghost Value = { Pages };

    ghost coded = { coded_pages };

    ghost view = { λ a. shown_pages a.places.items };

    ghost invariant = { λ a. IsTable a.places.items };
}

impl PageTable {
    /// A table with no present page. It takes no memory.
    pub fn new(alloc: Global) -> Self
        ensures { (result.bytes ≡ map.empty) × (result.protected ≡ set.empty) }
    {
        PageTable {
            alloc,
            places: Vec::new(alloc),
        }
    }

    /// The 4096 bytes of a page, or `None` if it is missing. Any page number is allowed.
    pub fn get(&self, page: PageNo) -> Option<&[u8; PAGE_BYTES]>
        ensures { option_copied result ≡ map.get self.now.bytes page }
    {
        bytes_at(&self.places, page)
    }

    /// The 4096 bytes of a page, or `None` if it is missing or all of them are zero. Any page number is allowed. Zeros that have no memory
    /// of their own are not compared.
    pub fn get_unless_zeros(&self, page: PageNo) -> Option<&[u8; PAGE_BYTES]>
        ensures { option_copied result ≡ unless_zeros (map.get self.now.bytes page) }
    {
        bytes_unless_zeros_at(&self.places, page)
    }

    /// Whether a page is present and protected. Any page number is allowed.
    pub fn is_protected(&self, page: PageNo) -> bool
        ensures answer { result ≡ set.contains self.now.protected page }
        ensures present { result ≡ true → IsTrue (map.contains_key self.now.bytes page) }

        // The invariant of every table: protected pages are present.
        ensures law { (q : ℕ) → IsTrue (set.contains self.now.protected q) →
            IsTrue (map.contains_key self.now.bytes q) }
    {
        is_protected_at(&self.places, page)
    }

    /// The present pages, as a new set. The call visits every leaf that was ever made.
    ///
    /// `NoMemory` only if the set cannot grow.
    pub fn present(&self) -> Result<PageSet, NoMemory>
        ensures { IfOk result (λ pages. (q : ℕ) →
            set.contains pages q ≡ map.contains_key self.now.bytes q) }
    {
        present_of(self.alloc, &self.places)
    }

    /// An equal table, in memory of its own: each present page has its bytes twice afterwards. `NoMemory` if these, or the leaves,
    /// cannot be allocated.
    pub fn copy(&self) -> Result<Self, NoMemory>
        ensures { IfOk result (λ copy. copy ≡ self.now) }
    {
        Ok(PageTable {
            alloc: self.alloc,
            places: copy_places(self.alloc, &self.places)?,
        })
    }

    /// Whether the two tables have the same present pages, with the same bytes and the same protection.
    pub fn is_same(&self, other: &Self) -> bool
        ensures { (result ≡ true) ↔ (self.now ≡ other.now) }
    {
        are_same(&self.places, &other.places)
    }

    /// Makes a missing page present, not protected, with these bytes, which are not copied.
    ///
    /// An error leaves the table as it was, and returns the bytes with the reason: `Present` if the page is present, else
    /// `NoMemory` for the room of its leaf.
    pub fn put(&mut self, page: PageNo, bytes: PageBytes) -> Result<(), (PutFault, PageBytes)>
        requires { page < HIGH_PAGE }
        ensures ok { OnOk result (self.new.bytes ≡ map.insert self.old.bytes page bytes) }
        ensures protected { self.new.protected ≡ self.old.protected }
        ensures fault { IfErr result (λ e.
            (e.1 ≡ bytes) × (self.new.bytes ≡ self.old.bytes) ×
            ((e.0 ≡ PutFault.Present) ↔ IsTrue (map.contains_key self.old.bytes page))) }
        ensures missing { OnOk result (map.contains_key self.old.bytes page ≡ false) }
    {
        if is_present_at(&self.places, page) {
            return Err((PutFault::Present, bytes));
        }
        let Ok(()) = make_place(self.alloc, &mut self.places, page) else {
            return Err((PutFault::NoMemory, bytes));
        };
        bytes.are_whole();
        put_at(&mut self.places, page, Page::holding(bytes), false);
        Ok(())
    }

    /// Makes a missing page present, not protected, with 4096 zeros, which take no memory until another byte is written.
    ///
    /// An error leaves the table as it was: `Present` if the page is present, else `NoMemory` for the room of its leaf.
    pub fn put_zero(&mut self, page: PageNo) -> Result<(), PutFault>
        requires { page < HIGH_PAGE }
        ensures ok { OnOk result (self.new.bytes ≡ map.insert self.old.bytes page zero_page) }
        ensures protected { self.new.protected ≡ self.old.protected }
        ensures fault { IfErr result (λ e.
            (self.new.bytes ≡ self.old.bytes) ×
            ((e ≡ PutFault.Present) ↔ IsTrue (map.contains_key self.old.bytes page))) }
        ensures missing { OnOk result (map.contains_key self.old.bytes page ≡ false) }
    {
        if is_present_at(&self.places, page) {
            return Err(PutFault::Present);
        }
        let Ok(()) = make_place(self.alloc, &mut self.places, page) else {
            return Err(PutFault::NoMemory);
        };
        put_at(&mut self.places, page, Page::zeros(), false);
        Ok(())
    }

    /// Replaces the bytes of a present page by these, which are not copied. The page is not protected afterwards.
    ///
    /// It takes no memory.
    pub fn replace(&mut self, page: PageNo, bytes: PageBytes)
        requires present { IsTrue (map.contains_key self.old.bytes page) }
        ensures bytes { self.new.bytes ≡ map.insert self.old.bytes page bytes }
        ensures protected { self.new.protected ≡ set.remove self.old.protected page }
    {
        bytes.are_whole();
        let held = Page::holding(bytes);
        put_at(&mut self.places, page, held, false);
    }

    /// Replaces the bytes of a present page by zeros. The page is not protected afterwards.
    ///
    /// It takes no memory, and frees that of the page.
    pub fn replace_by_zeros(&mut self, page: PageNo)
        requires present { IsTrue (map.contains_key self.old.bytes page) }
        ensures bytes { self.new.bytes ≡ map.insert self.old.bytes page zero_page }
        ensures protected { self.new.protected ≡ set.remove self.old.protected page }
    {
        let zeros = Page::zeros();
        put_at(&mut self.places, page, zeros, false);
    }

    /// Writes bytes into a page, protected or not, from byte `offset` on. A missing page becomes present, not protected, with zeros
    /// elsewhere. The call touches only the bytes written.
    ///
    /// A page of zeros that has no memory of its own gets some, unless all these bytes are zero too; a missing page needs room in its
    /// leaf as well. `NoMemory`, if that cannot be allocated, leaves the table as it was. So it never comes where the page has another
    /// byte than zero, nor where a present page gets zeros alone.
    pub fn write(&mut self, page: PageNo, offset: usize, bytes: &[u8]) -> Result<(), NoMemory>
        requires page { page < HIGH_PAGE }
        requires inside { offset + length bytes.now ≤ PAGE_SIZE }
        ensures bytes { OnOk result (self.new.bytes ≡
            map.insert self.old.bytes page
            (overwrite (contents self.old.bytes page) offset bytes.now)) }
        ensures protected { self.new.protected ≡ self.old.protected }
        ensures err { OnErr result (self.new ≡ self.old) }
        ensures needs { OnErr result
            (write_needs_room (map.get self.old.bytes page) bytes.now ≡ true) }
    {
        make_place(self.alloc, &mut self.places, page)?;
        write_at(self.alloc, &mut self.places, page, offset, bytes)
    }

    /// Makes the `count` pages from `first` on missing: drops their bytes and their protection.
    ///
    /// The room of their leaves stays, so that pages put there later need none.
    pub fn drop_range(&mut self, first: PageNo, count: u32)
        requires { first + count ≤ HIGH_PAGE }
        ensures bytes { self.new.bytes ≡ remove_range self.old.bytes first count }
        ensures protected { self.new.protected ≡ without self.old.protected first count }
    {
        clear_range(&mut self.places, first, count);
    }

    /// Write-protects a present page. A protected page stays so.
    pub fn protect(&mut self, page: PageNo)
        requires { IsTrue (map.contains_key self.old.bytes page) }
        ensures bytes { self.new.bytes ≡ self.old.bytes }
        ensures protected { self.new.protected ≡ set.insert self.old.protected page }
    {
        protect_at(&mut self.places, page, true);
    }

    /// Ends the protection of a present page. A page that is not protected stays so.
    pub fn unprotect(&mut self, page: PageNo)
        requires { IsTrue (map.contains_key self.old.bytes page) }
        ensures bytes { self.new.bytes ≡ self.old.bytes }
        ensures protected { self.new.protected ≡ set.remove self.old.protected page }
    {
        protect_at(&mut self.places, page, false);
    }

    /// The invariant of every table: a present page has `PAGE_SIZE` bytes and lies below `HIGH_PAGE`. The call does nothing.
    pub fn has_whole_pages(&self)
        ensures whole { (q : ℕ) (bytes : List ℕ) → map.get self.now.bytes q ≡ Some bytes →
            length bytes ≡ PAGE_SIZE }
        ensures inside { (q : ℕ) → HIGH_PAGE ≤ q → map.get self.now.bytes q ≡ None }
    {
        let _ = &self.places;
    }

    /// Moves the `count` pages from `from` on, with their protection, to those from `to` on. No byte is copied. The ranges do not
    /// overlap, and both end at or below page 0x100000.
    ///
    /// The target range loses the pages that it had, also where the source page is missing. The source range is missing afterwards.
    /// `NoMemory`, for the room of the target's leaves, leaves the table as it was.
    pub fn move_range(&mut self, from: PageNo, to: PageNo, count: u32) -> Result<(), NoMemory>
        requires inside { (from + count ≤ HIGH_PAGE) × (to + count ≤ HIGH_PAGE) }
        requires apart { (from + count ≤ to) ⊎ (to + count ≤ from) }
        ensures bytes { OnOk result ((q : ℕ) →
            map.get self.new.bytes q ≡
            (if in_range to count q then map.get self.old.bytes (from + (q - to)) else if in_range
            from count q then None else map.get self.old.bytes q)) }
        ensures protected { OnOk result ((q : ℕ) →
            set.contains self.new.protected q ≡
            (if in_range to count q then set.contains self.old.protected (from + (q - to)) else if
            in_range from count q then false else set.contains self.old.protected q)) }
        ensures err { OnErr result (self.new ≡ self.old) }
    {
        make_places(self.alloc, &mut self.places, to, count)?;
        move_cells(&mut self.places, from, to, count);
        Ok(())
    }
}

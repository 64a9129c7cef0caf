//! Leaves, and one place for a leaf: reading, putting, writing, taking out and clearing pages there. A page is named by its number in
//! the leaf.

ghost use Rattle.std.specs.Prelude.{◌≡◌, ℕ, ◌+◌, ◌*◌, ◌%◌, ◌<◌, ◌≤◌, ◌&&◌, ◌||◌, ◌↔◌, Bool, true, false, nat_eq, if◌then◌else◌, None, IfOk, OnOk, OnErr, is_some, length};
ghost use Rattle.std.specs.Option.{option_copied};
ghost use Rattle.std.specs.FinSet.{contains};
ghost use Rattle.foundation.specs.Ranges.{in_range};
ghost use Rattle.foundation.specs.declared.TheConstants.{PAGE_SIZE};
ghost use Rattle.mig_base.specs.declared.chunk.TheConstants.{CHUNK};
ghost use Rattle.page_table.specs.Bytes.{IsWhole, unless_zeros, write_needs_room};
ghost use Rattle.page_table.specs.Leaves.{Cell, cell_in, leaf_cell, is_place, no_cell, with_protection, stored_cell};

use crate::leaf::{
    Leaf, Place, clear_list, missing_pages, put_page, set_member, take_page, write_page,
};
use crate::page::Page;
use mig_base::chunk::{CHUNK, Chunk};
use mig_base::page_set::PageSet;
use mig_base::{NoMemory, PAGE_BYTES};
use std::alloc::Global;

impl Leaf {
    /// A leaf of missing pages. `NoMemory` if it cannot be allocated.
    pub fn new(alloc: Global) -> Result<Self, NoMemory>
        ensures { IfOk result (λ leaf. (i : ℕ) → leaf_cell leaf i ≡ no_cell) }
    {
        Ok(Leaf {
            pages: missing_pages(alloc)?,
            protected: Chunk::new(),
        })
    }

    /// A leaf with the same pages, in memory of its own. `NoMemory` if that cannot be allocated.
    pub fn copy(&self, alloc: Global) -> Result<Self, NoMemory>
        ensures { IfOk result (λ copy. (i : ℕ) → i < CHUNK →
            leaf_cell copy i ≡ leaf_cell self.now i) }
    {
        let mut copy = Leaf::new(alloc)?;
        for i in 0..CHUNK {
            let page = self.pages[i as usize].copy(alloc)?;
            copy.put(i, page, self.protected.contains(i));
        }
        Ok(copy)
    }

    /// Whether a page is present.
    fn has(&self, i: u32) -> bool
        requires { i < CHUNK }
        ensures { result ≡ is_some (leaf_cell self.now i).0 }
    {
        self.pages[i as usize].is_present()
    }

    /// Puts the present pages into a set. The leaf is number `at` of its table. `NoMemory` may leave some of them in the set.
    pub fn gather(&self, at: u32, pages: &mut PageSet) -> Result<(), NoMemory>
        requires { at < CHUNK }
        ensures { OnOk result ((q : ℕ) →
            contains pages.new q ≡
            (contains pages.old q ||
            (in_range (CHUNK * at) CHUNK q && is_some (leaf_cell self.now (q % CHUNK)).0))) }
    {
        for i in 0..CHUNK {
            if self.has(i) {
                pages.insert(at * CHUNK + i)?;
            }
        }
        Ok(())
    }

    /// Takes a page out, and returns whether it was protected.
    pub fn take(&mut self, i: u32) -> (Page, bool)
        requires { i < CHUNK }
        ensures taken { result ≡ leaf_cell self.old i }
        ensures whole { IsWhole result.0 }
        ensures left { (j : ℕ) →
            leaf_cell self.new j ≡ (if nat_eq j i then no_cell else leaf_cell self.old j) }
    {
        let flag = self.protected.contains(i);
        set_member(&mut self.protected, i, false);
        let page = take_page(&mut self.pages, i as usize);
        (page, flag)
    }

    /// Puts a page in, protected or not.
    pub fn put(&mut self, i: u32, page: Page, protected: bool)
        requires inside { i < CHUNK }
        requires whole { IsWhole page }
        ensures { (j : ℕ) → leaf_cell self.new j ≡
            (if nat_eq j i then (page, protected) else leaf_cell self.old j) }
    {
        put_page(&mut self.pages, i as usize, page);
        set_member(&mut self.protected, i, protected);
    }

    /// Writes bytes into a page, from byte `offset` on; a missing page is written as a page of zeros. `NoMemory`, which comes for
    /// these alone, leaves all pages as they were.
    pub fn write(
        &mut self,
        alloc: Global,
        i: u32,
        offset: usize,
        bytes: &[u8],
    ) -> Result<(), NoMemory>
        requires place { i < CHUNK }
        requires inside { offset + length bytes.now ≤ PAGE_SIZE }
        ensures stored { (j : ℕ) →
            leaf_cell self.new j ≡
            (if nat_eq j i then stored_cell result (leaf_cell self.old i) offset bytes.now else
            leaf_cell self.old j) }
        ensures needs { OnErr result
            (write_needs_room (leaf_cell self.old i).0 bytes.now ≡ true) }
    {
        write_page(alloc, &mut self.pages, i as usize, offset, bytes)
    }

    /// Protects a page, or ends its protection.
    pub fn protect(&mut self, i: u32, protected: bool)
        requires { i < CHUNK }
        ensures { (j : ℕ) → leaf_cell self.new j ≡
            (if nat_eq j i then with_protection (leaf_cell self.old i) protected else leaf_cell
            self.old j) }
    {
        set_member(&mut self.protected, i, protected);
    }

    /// Makes the pages of a range missing.
    pub fn clear(&mut self, first: u32, count: u32)
        requires { first + count ≤ CHUNK }
        ensures { (j : ℕ) → leaf_cell self.new j ≡
            (if in_range first count j then no_cell else leaf_cell self.old j) }
    {
        clear_list(&mut self.pages, first, count);
        self.protected.remove_range(first, count);
    }
}

/// The bytes of a page, if it is present.
pub fn place_get(place: &Place, i: u32) -> Option<&[u8; PAGE_BYTES]>
    requires { i < CHUNK }
    ensures { option_copied result ≡ (cell_in place.now i).0 }
{
    match place {
        Some(leaf) => leaf.pages[i as usize].bytes(),
        None => None,
    }
}

/// The bytes of a page, if it is present and not all of them are zero.
pub fn place_get_unless_zeros(place: &Place, i: u32) -> Option<&[u8; PAGE_BYTES]>
    requires { i < CHUNK }
    ensures { option_copied result ≡ unless_zeros (cell_in place.now i).0 }
{
    match place {
        Some(leaf) => leaf.pages[i as usize].bytes_unless_zeros(),
        None => None,
    }
}

/// Whether a page is protected.
pub fn place_is_protected(place: &Place, i: u32) -> bool
    requires { i < CHUNK }
    ensures { result ≡ (cell_in place.now i).1 }
{
    match place {
        Some(leaf) => leaf.protected.contains(i),
        None => false,
    }
}

/// Makes the leaf if there is none. `NoMemory` if it cannot be allocated.
pub fn place_make(alloc: Global, place: &mut Place) -> Result<(), NoMemory>
    ensures same { (i : ℕ) → cell_in place.new i ≡ cell_in place.old i }
    ensures there { OnOk result (is_place place.new ≡ true) }
    ensures missing { OnErr result (is_place place.old ≡ false) }
    ensures stays { is_place place.old ≡ true → is_place place.new ≡ true }
{
    match place {
        Some(_) => Ok(()),
        None => {
            *place = Some(Box::new(alloc, Leaf::new(alloc)?)?);
            Ok(())
        }
    }
}

/// A place with the same pages, in memory of its own. `NoMemory` if that cannot be allocated.
pub fn place_copy(alloc: Global, place: &Place) -> Result<Place, NoMemory>
    ensures { IfOk result (λ copy. (i : ℕ) → i < CHUNK → cell_in copy i ≡ cell_in place.now i) }
{
    match place {
        Some(leaf) => Ok(Some(Box::new(alloc, leaf.copy(alloc)?)?)),
        None => Ok(None),
    }
}

/// Whether two places have the same pages. It compares bytes: zeros without memory of their own are as good as bytes that are zero.
pub fn is_same_place(place: &Place, other: &Place) -> bool
    ensures { (result ≡ true) ↔
        ((i : ℕ) → i < CHUNK → cell_in place.now i ≡ cell_in other.now i) }
{
    if place.is_none() && other.is_none() {
        return true;
    }
    for i in 0..CHUNK {
        if !is_same_page(place, other, i) {
            return false;
        }
    }
    true
}

/// Whether a page has the same bytes and the same protection in two places.
fn is_same_page(place: &Place, other: &Place, i: u32) -> bool
    requires { i < CHUNK }
    ensures { (result ≡ true) ↔ (cell_in place.now i ≡ cell_in other.now i) }
{
    let has_same_bytes = place_get(place, i) == place_get(other, i);
    has_same_bytes && place_is_protected(place, i) == place_is_protected(other, i)
}

/// Puts the present pages of place number `at` into a set. `NoMemory` may leave some of them in the set.
pub fn place_gather(place: &Place, at: u32, pages: &mut PageSet) -> Result<(), NoMemory>
    requires { at < CHUNK }
    ensures { OnOk result ((q : ℕ) →
        contains pages.new q ≡
        (contains pages.old q ||
        (in_range (CHUNK * at) CHUNK q && is_some (cell_in place.now (q % CHUNK)).0))) }
{
    match place {
        Some(leaf) => leaf.gather(at, pages),
        None => Ok(()),
    }
}

/// Takes a page out, and returns whether it was protected.
pub fn place_take(place: &mut Place, i: u32) -> (Page, bool)
    requires { i < CHUNK }
    ensures taken { result ≡ cell_in place.old i }
    ensures whole { IsWhole result.0 }
    ensures left { (j : ℕ) →
        cell_in place.new j ≡ (if nat_eq j i then no_cell else cell_in place.old j) }
    ensures stays { is_place place.new ≡ is_place place.old }
{
    match place {
        Some(leaf) => leaf.take(i),
        None => (Page::missing(), false),
    }
}

/// Puts a page in, protected or not.
pub fn place_put(place: &mut Place, i: u32, page: Page, protected: bool)
    requires inside { i < CHUNK }
    requires whole { IsWhole page }
    requires there { is_place place.old ≡ true }
    ensures put { (j : ℕ) →
        cell_in place.new j ≡ (if nat_eq j i then (page, protected) else cell_in place.old j) }
    ensures stays { is_place place.new ≡ true }
{
    if let Some(leaf) = place {
        leaf.put(i, page, protected);
    }
}

/// Writes bytes into a page, from byte `offset` on; a missing page is written as a page of zeros. `NoMemory`, which comes for these
/// alone, leaves all pages as they were.
pub fn place_write(
    alloc: Global,
    place: &mut Place,
    i: u32,
    offset: usize,
    bytes: &[u8],
) -> Result<(), NoMemory>
    requires place { i < CHUNK }
    requires inside { offset + length bytes.now ≤ PAGE_SIZE }
    requires there { is_place place.old ≡ true }
    ensures stored { (j : ℕ) →
        cell_in place.new j ≡
        (if nat_eq j i then stored_cell result (cell_in place.old i) offset bytes.now else cell_in
        place.old j) }
    ensures needs { OnErr result (write_needs_room (cell_in place.old i).0 bytes.now ≡ true) }
{
    match place {
        Some(leaf) => leaf.write(alloc, i, offset, bytes),
        None => unreachable!(),
    }
}

/// Protects a page, or ends its protection.
pub fn place_protect(place: &mut Place, i: u32, protected: bool)
    requires inside { i < CHUNK }
    requires there { is_place place.old ≡ true }
    ensures put { (j : ℕ) →
        cell_in place.new j ≡
        (if nat_eq j i then with_protection (cell_in place.old i) protected else cell_in place.old
        j) }
    ensures stays { is_place place.new ≡ true }
{
    if let Some(leaf) = place {
        leaf.protect(i, protected);
    }
}

/// Makes the pages of a range missing.
pub fn place_clear(place: &mut Place, first: u32, count: u32)
    requires { first + count ≤ CHUNK }
    ensures cleared { (j : ℕ) →
        cell_in place.new j ≡ (if in_range first count j then no_cell else cell_in place.old j) }
    ensures stays { is_place place.new ≡ is_place place.old }
{
    if let Some(leaf) = place {
        leaf.clear(first, count);
    }
}

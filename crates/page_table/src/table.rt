//! The places of all pages. The leaf of a place is made when it is first needed.

ghost use Rattle.std.specs.Prelude.{◌≡◌, ℕ, ◌+◌, ◌-◌, ◌/◌, ◌%◌, ◌<◌, ◌≤◌, ◌⊎◌, ◌↔◌, Bool, true, false, nat_eq, if◌then◌else◌, None, OnOk, OnErr, IfOk, is_some, length, slice_index_or};
ghost use Rattle.std.specs.FinSet.{contains};
ghost use Rattle.std.specs.Option.{option_copied};
ghost use Rattle.foundation.specs.Ranges.{in_range};
ghost use Rattle.foundation.specs.declared.TheConstants.{PAGE_SIZE};
ghost use Rattle.mig_base.specs.declared.TheConstants.{HIGH_PAGE};
ghost use Rattle.mig_base.specs.declared.chunk.TheConstants.{CHUNK, CHUNKS};
ghost use Rattle.page_table.specs.Bytes.{IsWhole, unless_zeros, write_needs_room};
ghost use Rattle.page_table.specs.Leaves.{Cell, cell_at, cell_in, has_place, no_cell, with_protection, stored_cell, moved_cell, put_cell};

use crate::leaf::Place;
use crate::page::Page;
use crate::place::{
    is_same_place, place_clear, place_copy, place_gather, place_get, place_get_unless_zeros,
    place_is_protected, place_make, place_protect, place_put, place_take, place_write,
};
use mig_base::chunk::CHUNK;
use mig_base::page_set::PageSet;
use mig_base::{NoMemory, PAGE_BYTES, PageBytes, PageNo};
use std::alloc::Global;

/// The bytes of a page, if it is present.
pub fn bytes_at(places: &Vec<Place>, page: PageNo) -> Option<&[u8; PAGE_BYTES]>
    ensures { option_copied result ≡ (cell_at places.now.items page).0 }
{
    let at = (page / CHUNK) as usize;
    if at < places.len() {
        place_get(&places[at], page % CHUNK)
    } else {
        None
    }
}

/// The bytes of a page, if it is present and not all of them are zero.
pub fn bytes_unless_zeros_at(places: &Vec<Place>, page: PageNo) -> Option<&[u8; PAGE_BYTES]>
    ensures { option_copied result ≡ unless_zeros (cell_at places.now.items page).0 }
{
    let at = (page / CHUNK) as usize;
    if at < places.len() {
        place_get_unless_zeros(&places[at], page % CHUNK)
    } else {
        None
    }
}

/// Whether a page is present.
pub fn is_present_at(places: &Vec<Place>, page: PageNo) -> bool
    ensures { result ≡ is_some (cell_at places.now.items page).0 }
{
    match bytes_at(places, page) {
        Some(_) => true,
        None => false,
    }
}

/// Whether a page is protected.
pub fn is_protected_at(places: &Vec<Place>, page: PageNo) -> bool
    ensures { result ≡ (cell_at places.now.items page).1 }
{
    let at = (page / CHUNK) as usize;
    if at < places.len() {
        place_is_protected(&places[at], page % CHUNK)
    } else {
        false
    }
}

/// Makes the leaf of a page if there is none. `NoMemory` leaves all pages as they were.
pub fn make_place(alloc: Global, places: &mut Vec<Place>, page: PageNo) -> Result<(), NoMemory>
    requires { (page < HIGH_PAGE) × (length places.old.items ≤ CHUNKS) }
    ensures same { (q : ℕ) → cell_at places.new.items q ≡ cell_at places.old.items q }
    ensures few { length places.new.items ≤ CHUNKS }
    ensures there { OnOk result (has_place places.new.items page ≡ true) }
    ensures missing { OnErr result ((cell_at places.old.items page).0 ≡ None) }
    ensures stay { (q : ℕ) → has_place places.old.items q ≡ true →
        has_place places.new.items q ≡ true }
{
    let at = (page / CHUNK) as usize;
    while places.len() <= at {
        places.push(None)?;
    }
    place_make(alloc, &mut places[at])
}

/// Takes a page out, and returns whether it was protected.
pub fn take_at(places: &mut Vec<Place>, page: PageNo) -> (Page, bool)
    ensures taken { result ≡ cell_at places.old.items page }
    ensures whole { IsWhole result.0 }
    ensures left { (q : ℕ) →
        cell_at places.new.items q ≡
        (if nat_eq q page then no_cell else cell_at places.old.items q) }
    ensures stay { (q : ℕ) → has_place places.new.items q ≡ has_place places.old.items q }
    ensures size { length places.new.items ≡ length places.old.items }
{
    let at = (page / CHUNK) as usize;
    if at < places.len() {
        place_take(&mut places[at], page % CHUNK)
    } else {
        (Page::missing(), false)
    }
}

/// Puts a page in, protected or not.
pub fn put_at(places: &mut Vec<Place>, page: PageNo, bytes: Page, protected: bool)
    requires whole { IsWhole bytes }
    requires there { has_place places.old.items page ≡ true }
    ensures put { (q : ℕ) →
        cell_at places.new.items q ≡
        (if nat_eq q page then (bytes, protected) else cell_at places.old.items q) }
    ensures stay { (q : ℕ) → has_place places.new.items q ≡ has_place places.old.items q }
    ensures size { length places.new.items ≡ length places.old.items }
{
    place_put(
        &mut places[(page / CHUNK) as usize],
        page % CHUNK,
        bytes,
        protected,
    );
}

/// Writes bytes into a page, from byte `offset` on; a missing page is written as a page of zeros. `NoMemory`, which comes for these
/// alone, leaves all pages as they were.
pub fn write_at(
    alloc: Global,
    places: &mut Vec<Place>,
    page: PageNo,
    offset: usize,
    bytes: &[u8],
) -> Result<(), NoMemory>
    requires inside { offset + length bytes.now ≤ PAGE_SIZE }
    requires there { has_place places.old.items page ≡ true }
    ensures stored { (q : ℕ) →
        cell_at places.new.items q ≡
        (if nat_eq q page then stored_cell result (cell_at places.old.items page) offset bytes.now
        else cell_at places.old.items q) }
    ensures size { length places.new.items ≡ length places.old.items }
    ensures needs { OnErr result
        (write_needs_room (cell_at places.old.items page).0 bytes.now ≡ true) }
{
    let place = &mut places[(page / CHUNK) as usize];
    place_write(alloc, place, page % CHUNK, offset, bytes)
}

/// Protects a page, or ends its protection.
pub fn protect_at(places: &mut Vec<Place>, page: PageNo, protected: bool)
    requires { has_place places.old.items page ≡ true }
    ensures put { (q : ℕ) →
        cell_at places.new.items q ≡
        (if nat_eq q page then with_protection (cell_at places.old.items page) protected else
        cell_at places.old.items q) }
    ensures size { length places.new.items ≡ length places.old.items }
{
    place_protect(
        &mut places[(page / CHUNK) as usize],
        page % CHUNK,
        protected,
    );
}

/// Makes the pages of a range missing.
pub fn clear_range(places: &mut Vec<Place>, first: PageNo, count: u32)
    requires { first + count ≤ HIGH_PAGE }
    ensures cleared { (q : ℕ) →
        cell_at places.new.items q ≡
        (if in_range first count q then no_cell else cell_at places.old.items q) }
    ensures stay { (q : ℕ) → has_place places.new.items q ≡ has_place places.old.items q }
    ensures size { length places.new.items ≡ length places.old.items }
{
    let end = first + count;
    for at in first / CHUNK..(end + (CHUNK - 1)) / CHUNK {
        let start = at * CHUNK;
        let low = first.saturating_sub(start);
        let high = CHUNK.min(end - start);
        if (at as usize) < places.len() {
            place_clear(&mut places[at as usize], low, high - low);
        }
    }
}

/// Makes the leaves of a range. `NoMemory` may leave some of them made; all pages are as they were.
pub fn make_places(
    alloc: Global,
    places: &mut Vec<Place>,
    first: PageNo,
    count: u32,
) -> Result<(), NoMemory>
    requires { (first + count ≤ HIGH_PAGE) × (length places.old.items ≤ CHUNKS) }
    ensures same { (q : ℕ) → cell_at places.new.items q ≡ cell_at places.old.items q }
    ensures few { length places.new.items ≤ CHUNKS }
    ensures there { OnOk result ((q : ℕ) → first ≤ q → q < first + count →
        has_place places.new.items q ≡ true) }
{
    let end = first + count;
    for at in first / CHUNK..(end + (CHUNK - 1)) / CHUNK {
        make_place(alloc, places, at * CHUNK)?;
    }
    Ok(())
}

/// Moves the pages of a range, with their protection, to another range that does not overlap it and has its leaves.
pub fn move_cells(places: &mut Vec<Place>, from: PageNo, to: PageNo, count: u32)
    requires inside { (from + count ≤ HIGH_PAGE) × (to + count ≤ HIGH_PAGE) }
    requires apart { (from + count ≤ to) ⊎ (to + count ≤ from) }
    requires there { (q : ℕ) → to ≤ q → q < to + count → has_place places.old.items q ≡ true }
    ensures moved { (q : ℕ) →
        cell_at places.new.items q ≡ moved_cell (cell_at places.old.items) from to count q }
    ensures size { length places.new.items ≡ length places.old.items }
{
    for i in 0..count {
        let (bytes, protected) = take_at(places, from + i);
        put_at(places, to + i, bytes, protected);
    }
}

/// Puts these bytes at the pages from `first` on, which have their leaves, the last page first. None is protected afterwards.
pub fn put_cells(places: &mut Vec<Place>, first: PageNo, mut run: Vec<PageBytes>)
    requires inside { first + length run.items ≤ HIGH_PAGE }
    requires there { (q : ℕ) → first ≤ q → q < first + length run.items →
        has_place places.old.items q ≡ true }
    ensures put { (q : ℕ) →
        cell_at places.new.items q ≡ put_cell (cell_at places.old.items) first run.items q }
    ensures size { length places.new.items ≡ length places.old.items }
{
    while let Some(bytes) = run.pop() {
        bytes.are_whole();
        let page = first + run.len() as u32;
        put_at(places, page, Page::holding(bytes), false);
    }
}

/// Places with the same pages, in memory of their own. On `NoMemory` there are none.
pub fn copy_places(alloc: Global, places: &Vec<Place>) -> Result<Vec<Place>, NoMemory>
    ensures same { IfOk result (λ copy. (q : ℕ) →
        cell_at copy.items q ≡ cell_at places.now.items q) }
    ensures size { IfOk result (λ copy. length copy.items ≡ length places.now.items) }
{
    let mut copies = Vec::new(alloc);
    for at in 0..places.len() {
        copies.push(place_copy(alloc, &places[at])?)?;
    }
    Ok(copies)
}

/// Whether two lists of places have the same pages. A place without a leaf has missing pages, as one past the end of its list.
pub fn are_same(places: &Vec<Place>, others: &Vec<Place>) -> bool
    ensures { (result ≡ true) ↔
        ((q : ℕ) → cell_at places.now.items q ≡ cell_at others.now.items q) }
{
    for at in 0..places.len().max(others.len()) {
        if !is_same_at(places, others, at) {
            return false;
        }
    }
    true
}

/// Whether two lists of places have the same pages in one place.
fn is_same_at(places: &Vec<Place>, others: &Vec<Place>, at: usize) -> bool
    ensures { (result ≡ true) ↔
        ((i : ℕ) → i < CHUNK → cell_in (slice_index_or places.now.items at None) i ≡
        cell_in (slice_index_or others.now.items at None) i) }
{
    let none = None;
    let place = places.get(at).unwrap_or(&none);
    let other = others.get(at).unwrap_or(&none);
    is_same_place(place, other)
}

/// The present pages, as a set. The call visits only the places that have a leaf. `NoMemory` if the set cannot grow.
pub fn present_of(alloc: Global, places: &Vec<Place>) -> Result<PageSet, NoMemory>
    requires { length places.now.items ≤ CHUNKS }
    ensures { IfOk result (λ pages. (q : ℕ) →
        contains pages q ≡ is_some (cell_at places.now.items q).0) }
{
    let mut pages = PageSet::new(alloc);
    for at in 0..places.len() {
        place_gather(&places[at], at as u32, &mut pages)?;
    }
    Ok(pages)
}

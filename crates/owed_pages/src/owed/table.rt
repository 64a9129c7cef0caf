//! A number, or none, for each page: places for 1024 numbers each, made when one of them is first put.

ghost use Rattle.std.specs.Prelude.{◌≡◌, ◌↔◌, ℕ, ◌+◌, ◌/◌, ◌<◌, ◌≤◌, ◌&&◌, true, nat_eq, nat_lt, if◌then◌else◌, None, OnOk, IfOk, is_some, length, slice_index_or};
ghost use Rattle.std.specs.FinSet.{contains};
ghost use Rattle.mig_base.specs.declared.TheConstants.{HIGH_PAGE};
ghost use Rattle.mig_base.specs.declared.chunk.TheConstants.{CHUNK, CHUNKS};
ghost use Rattle.owed_pages.specs.Tables.{number_in, page_number, is_place, has_place};

use mig_base::chunk::CHUNK;
use mig_base::page_set::PageSet;
use mig_base::{NoMemory, PageNo};
use std::alloc::Global;

/// The numbers of 1024 pages.
pub type Leaf = [Option<PageNo>; CHUNK as usize];

/// A place for a leaf: empty until one of its numbers is put.
pub type Place = Option<Box<Leaf>>;

fn place_get(place: &Place, i: u32) -> Option<PageNo>
    requires { i < CHUNK }
    ensures { result ≡ number_in place.now i }
{
    match place {
        Some(leaf) => leaf[i as usize],
        None => None,
    }
}

fn place_put(place: &mut Place, i: u32, number: Option<PageNo>)
    requires inside { i < CHUNK }
    requires there { is_place place.old ≡ true }
    ensures put { (j : ℕ) →
        number_in place.new j ≡ (if nat_eq j i then number else number_in place.old j) }
    ensures stays { is_place place.new ≡ true }
{
    if let Some(leaf) = place {
        leaf_put(leaf, i, number);
    }
}

fn leaf_put(leaf: &mut Leaf, i: u32, number: Option<PageNo>)
    requires { i < CHUNK }
    ensures { (j : ℕ) → slice_index_or leaf.new j None ≡
        (if nat_eq j i then number else slice_index_or leaf.old j None) }
{
    leaf[i as usize] = number;
}

fn place_make(alloc: Global, place: &mut Place) -> Result<(), NoMemory>
    ensures same { (i : ℕ) → number_in place.new i ≡ number_in place.old i }
    ensures there { OnOk result (is_place place.new ≡ true) }
    ensures stays { is_place place.old ≡ true → is_place place.new ≡ true }
{
    match place {
        Some(_) => Ok(()),
        None => {
            let Ok(leaf) = Box::new(alloc, [None; CHUNK as usize]) else {
                return Err(NoMemory);
            };
            *place = Some(leaf);
            Ok(())
        }
    }
}

/// A place with the same numbers, in memory of its own. `NoMemory` if that cannot be allocated.
fn place_copy(alloc: Global, place: &Place) -> Result<Place, NoMemory>
    ensures { IfOk result (λ copy. (i : ℕ) → number_in copy i ≡ number_in place.now i) }
{
    match place {
        Some(leaf) => {
            let numbers: Leaf = **leaf;
            let Ok(copy) = Box::new(alloc, numbers) else {
                return Err(NoMemory);
            };
            Ok(Some(copy))
        }
        None => Ok(None),
    }
}

/// Places with the same numbers, in memory of their own. On `NoMemory` there are none.
pub fn copy_places(alloc: Global, places: &Vec<Place>) -> Result<Vec<Place>, NoMemory>
    ensures same { IfOk result (λ copy. (q : ℕ) →
        page_number copy.items q ≡ page_number places.now.items q) }
    ensures size { IfOk result (λ copy. length copy.items ≡ length places.now.items) }
{
    let mut copies = Vec::new(alloc);
    for at in 0..places.len() {
        copies.push(place_copy(alloc, &places[at])?)?;
    }
    Ok(copies)
}

/// The number of a page. Any page number is allowed.
pub fn get_number(places: &Vec<Place>, page: PageNo) -> Option<PageNo>
    ensures { result ≡ page_number places.now.items page }
{
    let at = (page / CHUNK) as usize;
    if at < places.len() {
        place_get(&places[at], page % CHUNK)
    } else {
        None
    }
}

/// Whether each page has the same number, or none, in both tables. Leaves that both miss are skipped.
pub fn have_same_numbers(places: &Vec<Place>, others: &Vec<Place>) -> bool
    requires { (length places.now.items ≤ CHUNKS) × (length others.now.items ≤ CHUNKS) }
    ensures { (result ≡ true) ↔ ((q : ℕ) →
        page_number places.now.items q ≡ page_number others.now.items q) }
{
    let end = places.len().max(others.len()) as u32 * CHUNK;
    let mut page = 0;
    while page < end {
        let next = next_leaf(page, end);
        let has_one = has_leaf(places, page) || has_leaf(others, page);
        if has_one && !are_same_in(places, others, page, next) {
            return false;
        }
        page = next;
    }
    true
}

/// Whether each page from `first` up to, but not including, `end` has the same number, or none, in both tables.
fn are_same_in(places: &Vec<Place>, others: &Vec<Place>, first: PageNo, end: PageNo) -> bool
    ensures { (result ≡ true) ↔ ((q : ℕ) → first ≤ q → q < end →
        page_number places.now.items q ≡ page_number others.now.items q) }
{
    for page in first..end {
        if get_number(places, page) != get_number(others, page) {
            return false;
        }
    }
    true
}

/// Whether there is a leaf for a page. If not, none of its 1024 pages has a number.
pub fn has_leaf(places: &Vec<Place>, page: PageNo) -> bool
    ensures { result ≡ has_place places.now.items page }
{
    let at = (page / CHUNK) as usize;
    if at < places.len() {
        places[at].is_some()
    } else {
        false
    }
}

/// Sets the number of a page, or clears it.
pub fn put_number(places: &mut Vec<Place>, page: PageNo, number: Option<PageNo>)
    requires { has_place places.old.items page ≡ true }
    ensures put { (q : ℕ) →
        page_number places.new.items q ≡
        (if nat_eq q page then number else page_number places.old.items q) }
    ensures stay { (q : ℕ) → has_place places.new.items q ≡ has_place places.old.items q }
    ensures size { length places.new.items ≡ length places.old.items }
{
    place_put(&mut places[(page / CHUNK) as usize], page % CHUNK, number);
}

/// Makes the leaf of a page if there is none. `NoMemory` leaves all numbers as they were.
pub fn make_leaf(alloc: Global, places: &mut Vec<Place>, page: PageNo) -> Result<(), NoMemory>
    requires { (page < HIGH_PAGE) × (length places.old.items ≤ CHUNKS) }
    ensures same { (q : ℕ) → page_number places.new.items q ≡ page_number places.old.items q }
    ensures few { length places.new.items ≤ CHUNKS }
    ensures there { OnOk result (has_place places.new.items page ≡ true) }
    ensures stay { (q : ℕ) → has_place places.old.items q ≡ true →
        has_place places.new.items q ≡ true }
{
    let at = (page / CHUNK) as usize;
    while places.len() <= at {
        let Ok(()) = places.push(None) else {
            return Err(NoMemory);
        };
    }
    place_make(alloc, &mut places[at])
}

/// Makes the leaves of a range. `NoMemory` may leave some of them made; all numbers are as they were.
pub fn make_leaves(
    alloc: Global,
    places: &mut Vec<Place>,
    first: PageNo,
    count: u32,
) -> Result<(), NoMemory>
    requires { (first + count ≤ HIGH_PAGE) × (length places.old.items ≤ CHUNKS) }
    ensures same { (q : ℕ) → page_number places.new.items q ≡ page_number places.old.items q }
    ensures few { length places.new.items ≤ CHUNKS }
    ensures there { OnOk result ((q : ℕ) → first ≤ q → q < first + count →
        has_place places.new.items q ≡ true) }
    ensures stay { (q : ℕ) → has_place places.old.items q ≡ true →
        has_place places.new.items q ≡ true }
{
    let end = first + count;
    for at in first / CHUNK..(end + (CHUNK - 1)) / CHUNK {
        let Ok(()) = make_leaf(alloc, places, at * CHUNK) else {
            return Err(NoMemory);
        };
    }
    Ok(())
}

/// Where a walk over a range continues after the leaf of `page`: at the first page of the next leaf, or at the end of the range.
pub fn next_leaf(page: PageNo, end: PageNo) -> PageNo
    requires { (page < end) × (end ≤ HIGH_PAGE) }
    ensures range { (page < result) × (result ≤ end) }
    ensures same { (q : ℕ) → page ≤ q → q < result → q / CHUNK ≡ page / CHUNK }
{
    let next = (page / CHUNK + 1) * CHUNK;
    if next < end { next } else { end }
}

/// The pages that have a number, as a set. The call visits every leaf that was ever made, page by page. `NoMemory` if the set cannot
/// grow.
pub fn numbered(alloc: Global, places: &Vec<Place>) -> Result<PageSet, NoMemory>
    requires { length places.now.items ≤ CHUNKS }
    ensures { IfOk result (λ pages. (q : ℕ) →
        contains pages q ≡ is_some (page_number places.now.items q)) }
{
    let mut pages = PageSet::new(alloc);
    let end = places.len() as u32 * CHUNK;
    let mut page = 0;
    while page < end {
        let next = next_leaf(page, end);
        if has_leaf(places, page) {
            insert_numbered(&mut pages, places, page, next)?;
        }
        page = next;
    }
    Ok(pages)
}

/// Extends the set of the pages that have a number by those from `first` up to, but not including, `end`. `NoMemory` may leave
/// the set changed.
fn insert_numbered(
    pages: &mut PageSet,
    places: &Vec<Place>,
    first: PageNo,
    end: PageNo,
) -> Result<(), NoMemory>
    requires range { (first ≤ end) × (end ≤ HIGH_PAGE) }
    requires first { (q : ℕ) →
        contains pages.old q ≡ (nat_lt q first && is_some (page_number places.now.items q)) }
    ensures { OnOk result ((q : ℕ) →
        contains pages.new q ≡ (nat_lt q end && is_some (page_number places.now.items q))) }
{
    for page in first..end {
        if get_number(places, page).is_some() {
            pages.insert(page)?;
        }
    }
    Ok(())
}

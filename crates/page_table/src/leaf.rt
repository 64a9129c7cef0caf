//! Leaves: `CHUNK` pages each, present or missing, and the set of the protected ones.

ghost use Rattle.std.specs.Prelude.{◌≡◌, ◌≢◌, ℕ, ◌+◌, ◌<◌, ◌≤◌, true, nat_eq, if◌then◌else◌, None, OnErr, IfOk, length, slice_index_or, slice_set};
ghost use Rattle.std.specs.FinSet.{contains};
ghost use Rattle.foundation.specs.Ranges.{in_range};
ghost use Rattle.foundation.specs.declared.TheConstants.{PAGE_SIZE};
ghost use Rattle.mig_base.specs.declared.chunk.TheConstants.{CHUNK};
ghost use Rattle.page_table.specs.Bytes.{AreWhole, stored_page, write_needs_room};

use crate::page::Page;
use mig_base::NoMemory;
use mig_base::chunk::{CHUNK, Chunk};
use std::alloc::Global;

/// A place for a leaf: empty until one of its pages is put.
pub type Place = Option<Box<Leaf>>;

/// `CHUNK` pages, and the numbers of the protected ones.
#[derive(Drop)]
pub struct Leaf {
    pub pages: Vec<Page>,
    pub protected: Chunk,
    pub ghost whole: { length pages.items ≡ CHUNK },
    pub ghost sized: { AreWhole pages.items },
}

/// A list of `CHUNK` missing pages. `NoMemory` if it cannot be allocated.
pub fn missing_pages(alloc: Global) -> Result<Vec<Page>, NoMemory>
    ensures { IfOk result (λ pages.
        (length pages.items ≡ CHUNK) × ((i : ℕ) → slice_index_or pages.items i None ≡ None)) }
{
    let mut pages = Vec::with_capacity(alloc, CHUNK as usize)?;
    for _ in 0..CHUNK {
        pages.push(Page::missing())?;
    }
    Ok(pages)
}

/// Takes a page out of a list: it is missing there afterwards.
pub fn take_page(pages: &mut Vec<Page>, i: usize) -> Page
    requires { i < length pages.old.items }
    ensures page { result ≡ slice_index_or pages.old.items i None }
    ensures pages { pages.new.items ≡ slice_set pages.old.items i None }
{
    pages[i].take()
}

/// Puts a page into a list.
pub fn put_page(pages: &mut Vec<Page>, i: usize, page: Page)
    requires { i < length pages.old.items }
    ensures { pages.new.items ≡ slice_set pages.old.items i page }
{
    pages[i] = page;
}

/// Writes bytes into a page of a list, from byte `offset` on; a missing page is written as a page of zeros. `NoMemory`, which comes for
/// these alone, leaves all pages as they were.
pub fn write_page(
    alloc: Global,
    pages: &mut Vec<Page>,
    i: usize,
    offset: usize,
    bytes: &[u8],
) -> Result<(), NoMemory>
    requires place { i < length pages.old.items }
    requires inside { offset + length bytes.now ≤ PAGE_SIZE }
    ensures here { slice_index_or pages.new.items i None ≡
        stored_page result (slice_index_or pages.old.items i None) offset bytes.now }
    ensures others { (j : ℕ) → j ≢ i →
        slice_index_or pages.new.items j None ≡ slice_index_or pages.old.items j None }
    ensures size { length pages.new.items ≡ length pages.old.items }
    ensures needs { OnErr result
        (write_needs_room (slice_index_or pages.old.items i None) bytes.now ≡ true) }
{
    pages[i].write(alloc, offset, bytes)
}

/// Inserts a number into a set, or removes it.
pub fn set_member(set: &mut Chunk, i: u32, member: bool)
    requires { i < CHUNK }
    ensures { (j : ℕ) → contains set.new j ≡ (if nat_eq j i then member else contains set.old j) }
{
    if member {
        set.insert(i);
    } else {
        set.remove(i);
    }
}

/// Makes the pages of a range missing.
pub fn clear_list(pages: &mut Vec<Page>, first: u32, count: u32)
    requires { (first + count ≤ length pages.old.items) × (first + count ≤ CHUNK) }
    ensures pages { (i : ℕ) →
        slice_index_or pages.new.items i None ≡
        (if in_range first count i then None else slice_index_or pages.old.items i None) }
    ensures size { length pages.new.items ≡ length pages.old.items }
{
    for i in first..first + count {
        pages[i as usize] = Page::missing();
    }
}

// The pages with their indexes, sorted by page, so that a binary search finds a page.
ghost use Rattle.std.specs.Prelude.{ℕ, IfOk, IfSome, IfNone, Contains};
ghost use Rattle.std.specs.List.Sorted.{IsNonDecreasingBy};
ghost use Rattle.pusher.specs.Entries.{IsIndexed};

use mig_base::{NoMemory, PageNo};
use std::alloc::Global;

/// Each page with its index, in ascending order of pages. `NoMemory` if the list cannot be allocated.
pub(crate) fn sorted_entries(
    alloc: Global,
    pages: &[PageNo],
) -> Result<Vec<(PageNo, usize)>, NoMemory>
    ensures { IfOk result (λ v. IsIndexed pages.now v.items) }
{
    let mut entries = Vec::with_capacity(alloc, pages.len())?;
    for (index, page) in pages.iter().enumerate() {
        entries.push_reserved((*page, index));
    }
    entries.sort_unstable_by_key(|entry| entry.0);
    Ok(entries)
}

/// The index of a page, or `None` if the entries do not have it.
pub(crate) fn find(entries: &[(PageNo, usize)], page: PageNo) -> Option<usize>
    requires { IsNonDecreasingBy (λ e. e.0) entries.now }
    ensures some { IfSome result (λ index. Contains entries.now (page, index)) }
    ensures none { IfNone result ((index : ℕ) → Contains entries.now (page, index) → ⊥) }
{
    match entries.binary_search_by_key(&page, |entry| entry.0) {
        Ok(place) => Some(entries[place].1),
        Err(_) => None,
    }
}

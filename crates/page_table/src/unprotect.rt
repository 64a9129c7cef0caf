//! Ending the protection of a range, leaf by leaf.

ghost use Rattle.std.specs.Prelude.{◌≡◌, ℕ, ◌+◌, ◌≤◌, length};
ghost use Rattle.foundation.specs.Ranges.{in_range};
ghost use Rattle.mig_base.specs.declared.TheConstants.{HIGH_PAGE};
ghost use Rattle.page_table.specs.Leaves.{cell_in, leaf_cell, cell_at, opened_cell};

use crate::leaf::{Leaf, Place};
use mig_base::PageNo;
use mig_base::chunk::CHUNK;

/// Ends the protection of the pages of a range.
pub fn unprotect_cells(places: &mut Vec<Place>, first: PageNo, count: u32)
    requires { first + count ≤ HIGH_PAGE }
    ensures opened { (q : ℕ) →
        cell_at places.new.items q ≡
        opened_cell (cell_at places.old.items q) (in_range first count q) }
    ensures size { length places.new.items ≡ length places.old.items }
{
    let end = first + count;
    for at in first / CHUNK..end.div_ceil(CHUNK) {
        let start = at * CHUNK;
        let low = first.saturating_sub(start);
        let high = (end - start).min(CHUNK);
        if (at as usize) < places.len() {
            place_unprotect(&mut places[at as usize], low, high - low);
        }
    }
}

/// Ends the protection of the pages of a range.
fn place_unprotect(place: &mut Place, first: u32, count: u32)
    requires { first + count ≤ 1024 }
    ensures { (j : ℕ) → cell_in place.new j ≡
        opened_cell (cell_in place.old j) (in_range first count j) }
{
    if let Some(leaf) = place {
        leaf_unprotect(leaf, first, count);
    }
}

fn leaf_unprotect(leaf: &mut Leaf, first: u32, count: u32)
    requires { first + count ≤ 1024 }
    ensures { (j : ℕ) → leaf_cell leaf.new j ≡
        opened_cell (leaf_cell leaf.old j) (in_range first count j) }
{
    leaf.protected.remove_range(first, count);
}

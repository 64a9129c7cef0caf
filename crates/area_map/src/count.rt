//! The number of mapped pages in a range.

ghost use Rattle.std.specs.Prelude.{◌≡◌, ◌+◌, ◌≤◌, is_some};
ghost use Rattle.foundation.specs.Ranges.{count_below};
ghost use Rattle.area_map.specs.Areas.{AreRuns, prot_in};

use crate::moves::clipped;
use crate::search::{beginning_by, ending_before};
use mig_base::{Area, HIGH_PAGE, PageNo};

/// The number of mapped pages among the `count` pages from `first` on. It visits only the areas that overlap or touch the range.
pub(crate) fn mapped_between(areas: &[Area], first: PageNo, count: u32) -> u32
    requires runs { AreRuns areas.now }
    requires bound { first + count ≤ HIGH_PAGE }
    ensures { result ≡ count_below (λ i. is_some (prot_in areas.now (first + i))) count }
{
    let low = ending_before(areas, first);
    let reaching = &areas[low..];
    let high = beginning_by(reaching, first + count);
    pages_within(&reaching[..high], first, count)
}

/// The number of mapped pages among the `count` pages from `first` on. It visits all areas.
fn pages_within(areas: &[Area], first: PageNo, count: u32) -> u32
    requires runs { AreRuns areas.now }
    requires bound { first + count ≤ HIGH_PAGE }
    ensures { result ≡ count_below (λ i. is_some (prot_in areas.now (first + i))) count }
{
    let mut mapped = 0;
    for area in areas {
        mapped += clipped(*area, first, first + count).count;
    }
    mapped
}

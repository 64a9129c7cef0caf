//! The areas of a range.

ghost use Rattle.std.specs.Prelude.{◌≡◌, ℕ, ◌+◌, ◌≤◌, true};
ghost use Rattle.std.specs.FinMap as map;
ghost use Rattle.foundation.specs.Ranges.{in_range};
ghost use Rattle.area_map.specs.Areas.{AreRuns, pages_in, prot_in};

use crate::AreaMap;
use crate::search::{beginning_by, ending_before};
use mig_base::{Area, HIGH_PAGE, PageNo};

impl AreaMap {
    /// The areas that overlap or touch the `count` pages from `first` on, in order of their pages, found by binary search. The first and
    /// the last may extend past the range.
    pub fn areas_in(&self, first: PageNo, count: u32) -> &[Area]
        requires { first + count ≤ HIGH_PAGE }
        ensures runs { AreRuns result.now }
        ensures pages { (page : ℕ) → in_range first count page ≡ true →
            map.get (pages_in result.now) page ≡ map.get self.now page }
    {
        areas_between(&self.areas, first, count)
    }
}

/// The areas that overlap or touch a range.
fn areas_between(areas: &[Area], first: PageNo, count: u32) -> &[Area]
    requires runs { AreRuns areas.now }
    requires bound { first + count ≤ HIGH_PAGE }
    ensures runs { AreRuns result.now }
    ensures pages { (page : ℕ) → in_range first count page ≡ true →
        prot_in result.now page ≡ prot_in areas.now page }
{
    let low = ending_before(areas, first);
    let reaching = &areas[low..];
    let high = beginning_by(reaching, first + count);
    &reaching[..high]
}

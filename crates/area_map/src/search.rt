//! The place of a page among sorted areas, by binary search.

ghost use Rattle.std.specs.Prelude.{◌≡◌, ◌+◌, ◌<◌, ◌≤◌, length, take, drop, IfSome, IfNone};
ghost use Rattle.std.specs.List.{All};
ghost use Rattle.area_map.specs.Areas.{AreRuns, BeginsBy, BeginsAfter, EndsBefore, EndsFrom, prot_in};
ghost use Rattle.area_map.specs.Ranges.{HasOneProt};

use mig_base::{Area, HIGH_PAGE, PageNo, Prot};

/// The number of areas that begin at or below the page. They are the first of the list.
pub(crate) fn beginning_by(areas: &[Area], page: PageNo) -> usize
    requires { AreRuns areas.now }
    ensures within { result ≤ length areas.now }
    ensures by { All (BeginsBy page) (take result areas.now) }
    ensures after { All (BeginsAfter page) (drop result areas.now) }
{
    areas.partition_point(|area| area.first <= page)
}

/// The number of areas that end below the page without touching it. They are the first of the list.
pub(crate) fn ending_before(areas: &[Area], page: PageNo) -> usize
    requires { AreRuns areas.now }
    ensures within { result ≤ length areas.now }
    ensures before { All (EndsBefore page) (take result areas.now) }
    ensures from { All (EndsFrom page) (drop result areas.now) }
{
    areas.partition_point(|area| area.count < page.saturating_sub(area.first))
}

/// The protection of the area that contains the page, if there is one.
pub(crate) fn prot_of(areas: &[Area], page: PageNo) -> Option<Prot>
    requires { AreRuns areas.now }
    ensures { result ≡ prot_in areas.now page }
{
    let after = beginning_by(areas, page);
    if after == 0 {
        return None;
    }
    let area = areas[after - 1];
    if page - area.first < area.count {
        Some(area.prot)
    } else {
        None
    }
}

/// The protection of the `count` pages from `first` on, if one area contains them all.
pub(crate) fn one_prot_of(areas: &[Area], first: PageNo, count: u32) -> Option<Prot>
    requires runs { AreRuns areas.now }
    requires bound { first + count ≤ HIGH_PAGE }
    requires some { 0 < count }
    ensures some { IfSome result (HasOneProt (prot_in areas.now) first count) }
    ensures none { IfNone result ((prot : Prot) → HasOneProt (prot_in areas.now) first count prot →
        ⊥) }
{
    let after = beginning_by(areas, first);
    if after == 0 {
        return None;
    }
    let area = areas[after - 1];
    if first - area.first + count <= area.count {
        Some(area.prot)
    } else {
        None
    }
}

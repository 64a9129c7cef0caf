//! Mapping a range of areas at another place.

ghost use Rattle.std.specs.Prelude.{◌≡◌, ℕ, ◌+◌, ◌-◌, ◌≤◌, OnOk, None, true, if◌then◌else◌, min, max};
ghost use Rattle.std.specs.FinMap as map;
ghost use Rattle.foundation.specs.Ranges.{in_range};
ghost use Rattle.area_map.specs.Areas.{AreRuns, prot_in};

use crate::AreaMap;
use mig_base::{Area, HIGH_PAGE, NoMemory, PageNo};

/// Maps the `count` pages from `to` on, where nothing is mapped yet, as the areas map those from `from` on. `NoMemory` may leave some
/// of them mapped.
pub(crate) fn map_moved(
    moved: &mut AreaMap,
    areas: &[Area],
    from: PageNo,
    to: PageNo,
    count: u32,
) -> Result<(), NoMemory>
    requires runs { AreRuns areas.now }
    requires from_bound { from + count ≤ HIGH_PAGE }
    requires to_bound { to + count ≤ HIGH_PAGE }
    requires free { (page : ℕ) → in_range to count page ≡ true → map.get moved.old page ≡ None }
    ensures { OnOk result ((page : ℕ) →
        map.get moved.new page ≡
        (if in_range to count page then prot_in areas.now (from + (page - to)) else map.get
        moved.old page)) }
{
    for area in areas {
        let part = clipped(*area, from, from + count);
        moved.map(part.first - from + to, part.count, part.prot)?;
    }
    Ok(())
}

/// The part of an area from page `low` up to, but not including, page `high`. It may be empty.
pub(crate) fn clipped(area: Area, low: PageNo, high: PageNo) -> Area
    requires area { area.first + area.count ≤ HIGH_PAGE }
    requires order { low ≤ high }
    ensures first { result.first ≡ min high (max low area.first) }
    ensures end { result.first + result.count ≡ min high (max low (area.first + area.count)) }
    ensures prot { result.prot ≡ area.prot }
{
    let first = area.first.max(low).min(high);
    let end = (area.first + area.count).max(low).min(high);
    Area {
        first,
        count: end - first,
        prot: area.prot,
    }
}

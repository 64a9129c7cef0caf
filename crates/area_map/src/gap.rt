//! The search for a free place.

ghost use Rattle.std.specs.Prelude.{ℕ, ◌+◌, ◌*◌, ◌<◌, ◌≤◌, ◌^◌, IfSome, IfNone};
ghost use Rattle.area_map.specs.Areas.{AreRuns};
ghost use Rattle.area_map.specs.Gaps.{IsFreePage, IsFreeRange};

use mig_base::{Area, HIGH_PAGE, LOW_PAGE};

/// The lowest page, from `LOW_PAGE` on, from which `count` pages are free. `None` if there is no such page below `HIGH_PAGE`.
pub(crate) fn free_page(areas: &[Area], count: u64) -> Option<u64>
    requires runs { AreRuns areas.now }
    requires some { 0 < count }
    requires fits { count ≤ 2 ^ 52 }
    ensures found { IfSome result (IsFreePage areas.now count) }
    ensures none { IfNone result ((page : ℕ) → IsFreeRange areas.now count page → ⊥) }
{
    let mut start = u64::from(LOW_PAGE);
    for area in areas {
        if start + count <= u64::from(area.first) {
            return Some(start);
        }
        start = start.max(u64::from(area.first) + u64::from(area.count));
    }
    if start + count <= u64::from(HIGH_PAGE) {
        Some(start)
    } else {
        None
    }
}

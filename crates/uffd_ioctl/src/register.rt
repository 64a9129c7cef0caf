//! Registering the mapped pages of a range.

ghost use Rattle.std.specs.Prelude.{◌≡◌, ℕ, ◌+◌, ◌≤◌, ◌&&◌, false, IfOk};
ghost use Rattle.std.specs.FinMap.{contains_key};
ghost use Rattle.foundation.specs.Ranges.{in_range};
ghost use Rattle.mig_base.specs.declared.TheConstants.{HIGH_PAGE};
ghost use Rattle.mig_base.specs.Userfault.{is_registered, registered_where};
ghost use Rattle.userfault.specs.Modes.{mode_of};

use area_map::AreaMap;
use mig_base::{Area, NoMemory, Run};
use userfault::{Mode, Userfault};

/// A copy of the object in which the mapped pages of a range are registered. It visits only the areas that overlap the range.
/// `NoMemory` if the copy or a registration cannot be allocated.
pub(crate) fn registered(
    object: &Userfault,
    areas: &AreaMap,
    range: Run,
    mode: Mode,
) -> Result<Userfault, NoMemory>
    requires low { (page : ℕ) → HIGH_PAGE ≤ page → is_registered object.now page ≡ false }
    requires range { range.first + range.count ≤ HIGH_PAGE }
    ensures { IfOk result (λ after.
        after ≡ registered_where object.now (λ page.
        in_range range.first range.count page && contains_key areas.now page) (mode_of mode)) }
{
    let mut after = object.copy()?;
    for area in areas.areas_in(range.first, range.count) {
        after = register_area(after, *area, range, mode)?;
    }
    Ok(after)
}

/// The object with those pages of an area registered that lie in the range. `NoMemory` drops the object.
fn register_area(
    object: Userfault,
    area: Area,
    range: Run,
    mode: Mode,
) -> Result<Userfault, NoMemory>
    requires low { (page : ℕ) → HIGH_PAGE ≤ page → is_registered object page ≡ false }
    requires area { area.first + area.count ≤ HIGH_PAGE }
    requires range { range.first + range.count ≤ HIGH_PAGE }
    ensures { IfOk result (λ after.
        after ≡ registered_where object (λ page.
        in_range range.first range.count page && in_range area.first area.count page)
        (mode_of mode)) }
{
    let first = range.first.max(area.first);
    let end = (range.first + range.count).min(area.first + area.count);
    if first < end {
        object.and_registered(first, end - first, mode)
    } else {
        Ok(object)
    }
}

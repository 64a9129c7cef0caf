//! Ranges of pages that grow, shrink or move.

ghost use Rattle.std.specs.Prelude.{◌≡◌, ℕ, ◌+◌, ◌<◌, ◌≤◌, ◌⊎◌, false, OnOk, OnErr, None};
ghost use Rattle.std.specs.FinMap as map;
ghost use Rattle.std.specs.FinSet as set;
ghost use Rattle.mig_base.specs.Pages.{moved_range};
ghost use Rattle.mig_base.specs.Sets.{moved_set};
ghost use Rattle.mig_base.specs.declared.TheConstants.{HIGH_PAGE};
ghost use Rattle.area_map.specs.Ranges.{HasOneProt};
ghost use Rattle.uffd_ioctl.specs.Remaps.{IsRemap, HasProt, room_first, room_count};

use area_map::AreaMap;
use mig_base::{HIGH_PAGE, NoMemory, PageNo, Prot, Run};
use page_table::PageTable;

/// The range of `count` pages from `from`, and the range of `new_count` pages from `to` that it becomes: they begin at the same page,
/// or do not overlap.
#[derive(Clone, Copy, Drop)]
pub(crate) struct Remap {
    pub(crate) from: PageNo,
    pub(crate) count: u32,
    pub(crate) to: PageNo,
    pub(crate) new_count: u32,
}

impl Remap {
    /// The pages that may need room: the whole target if the range moves, else the pages by which it grows, of which there may be none.
    pub(crate) fn room(self) -> Run
        requires { IsRemap self }
        ensures first { result.first ≡ room_first self }
        ensures count { result.count ≡ room_count self }
        ensures inside { result.first + result.count ≤ HIGH_PAGE }
    {
        if self.to != self.from {
            return Run {
                first: self.to,
                count: self.new_count,
            };
        }
        let kept = self.count.min(self.new_count);
        Run {
            first: self.to + kept,
            count: self.new_count - kept,
        }
    }
}

/// Makes the change in the areas and pages of a host. `NoMemory` leaves both as they were.
pub(crate) fn apply(
    areas: &mut AreaMap,
    pages: &mut PageTable,
    range: Remap,
) -> Result<(), NoMemory>
    requires range { IsRemap range }
    requires prot { HasProt areas.old range.from range.count }
    requires protected { (page : ℕ) → HIGH_PAGE ≤ page →
        set.contains pages.old.protected page ≡ false }
    ensures areas { OnOk result (areas.new ≡
        moved_range areas.old range.from range.count range.to range.new_count
        (map.get areas.old range.from)) }
    ensures pages { OnOk result (pages.new.bytes ≡
        moved_range pages.old.bytes range.from range.count range.to range.new_count None) }
    ensures protected { OnOk result (pages.new.protected ≡
        moved_set pages.old.protected range.from range.count range.to range.new_count false) }
    ensures err { OnErr result ((areas.new ≡ areas.old) × (pages.new ≡ pages.old)) }
{
    let Some(prot) = areas.one_prot(range.from, range.count) else {
        unreachable!()
    };
    if range.from != range.to {
        relocate(areas, pages, range, prot)
    } else if range.new_count <= range.count {
        shrink(areas, pages, range)
    } else {
        grow(areas, pages, range, prot)
    }
}

/// Unmaps the end of a range. `NoMemory` changes nothing.
fn shrink(areas: &mut AreaMap, pages: &mut PageTable, range: Remap) -> Result<(), NoMemory>
    requires range { IsRemap range }
    requires prot { HasProt areas.old range.from range.count }
    requires place { range.to ≡ range.from }
    requires shorter { range.new_count ≤ range.count }
    requires protected { (page : ℕ) → HIGH_PAGE ≤ page →
        set.contains pages.old.protected page ≡ false }
    ensures areas { OnOk result (areas.new ≡
        moved_range areas.old range.from range.count range.to range.new_count
        (map.get areas.old range.from)) }
    ensures pages { OnOk result (pages.new.bytes ≡
        moved_range pages.old.bytes range.from range.count range.to range.new_count None) }
    ensures protected { OnOk result (pages.new.protected ≡
        moved_set pages.old.protected range.from range.count range.to range.new_count false) }
    ensures err { OnErr result ((areas.new ≡ areas.old) × (pages.new ≡ pages.old)) }
{
    let end = range.from + range.new_count;
    let tail = range.count - range.new_count;
    areas.unmap(end, tail)?;
    pages.drop_range(end, tail);
    Ok(())
}

/// Adds pages of zeros to the end of a range. `NoMemory` changes nothing.
fn grow(
    areas: &mut AreaMap,
    pages: &mut PageTable,
    range: Remap,
    prot: Prot,
) -> Result<(), NoMemory>
    requires range { IsRemap range }
    requires prot { HasOneProt (λ page. map.get areas.old page) range.from range.count prot }
    requires place { range.to ≡ range.from }
    requires longer { range.count < range.new_count }
    requires protected { (page : ℕ) → HIGH_PAGE ≤ page →
        set.contains pages.old.protected page ≡ false }
    ensures areas { OnOk result (areas.new ≡
        moved_range areas.old range.from range.count range.to range.new_count
        (map.get areas.old range.from)) }
    ensures pages { OnOk result (pages.new.bytes ≡
        moved_range pages.old.bytes range.from range.count range.to range.new_count None) }
    ensures protected { OnOk result (pages.new.protected ≡
        moved_set pages.old.protected range.from range.count range.to range.new_count false) }
    ensures err { OnErr result ((areas.new ≡ areas.old) × (pages.new ≡ pages.old)) }
{
    let end = range.from + range.count;
    let added = range.new_count - range.count;
    areas.map(end, added, prot)?;
    pages.drop_range(end, added);
    Ok(())
}

/// Moves a range. The pages that fit into both ranges move; the rest are dropped. `NoMemory` changes nothing.
fn relocate(
    areas: &mut AreaMap,
    pages: &mut PageTable,
    range: Remap,
    prot: Prot,
) -> Result<(), NoMemory>
    requires range { IsRemap range }
    requires prot { HasOneProt (λ page. map.get areas.old page) range.from range.count prot }
    requires apart { (range.from + range.count ≤ range.to) ⊎
        (range.to + range.new_count ≤ range.from) }
    requires protected { (page : ℕ) → HIGH_PAGE ≤ page →
        set.contains pages.old.protected page ≡ false }
    ensures areas { OnOk result (areas.new ≡
        moved_range areas.old range.from range.count range.to range.new_count
        (map.get areas.old range.from)) }
    ensures pages { OnOk result (pages.new.bytes ≡
        moved_range pages.old.bytes range.from range.count range.to range.new_count None) }
    ensures protected { OnOk result (pages.new.protected ≡
        moved_set pages.old.protected range.from range.count range.to range.new_count false) }
    ensures err { OnErr result ((areas.new ≡ areas.old) × (pages.new ≡ pages.old)) }
{
    let roomy = areas.with_room()?;
    let kept = range.count.min(range.new_count);
    let Ok(()) = pages.move_range(range.from, range.to, kept) else {
        *areas = roomy.into_areas();
        return Err(NoMemory);
    };
    pages.drop_range(range.from + kept, range.count - kept);
    pages.drop_range(range.to + kept, range.new_count - kept);
    *areas = roomy.relocated(range.from, range.count, range.to, range.new_count, prot);
    Ok(())
}

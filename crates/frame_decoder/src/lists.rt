//! Reading sets of pages, mapped pages, and the bytes of neighbouring pages: a count, and then that number of items.

ghost use Rattle.std.specs.Prelude.{◌≡◌, ◌+◌, ◌≤◌, IfOk};
ghost use Rattle.mig_base.specs.declared.TheConstants.{HIGH_PAGE};
ghost use Rattle.mig_model.specs.Ioctls.{same_protection};
ghost use Rattle.frame_decoder.specs.Reading.{Gives, is_run, goes_on_with, content_at, contents_at, many_at, run_in, set_from, pages_at, few_pages_at, area_in, map_in, areas_in};

use crate::fault::StreamFault;
use crate::fields::{read_content, read_prot, read_u32};
use crate::version::Version;
use area_map::AreaMap;
use mig_base::{Area, HIGH_PAGE, LOW_PAGE, PageBytes, PageNo, PageSet, Prot, Run};
use std::alloc::Global;

/// The bytes of `count` pages.
fn read_count_contents(
    alloc: Global,
    count: u32,
    bytes: &[u8],
) -> Result<(Vec<PageBytes>, &[u8]), StreamFault>
    ensures { Gives (λ x. (x.0.items, x.1.now)) result (many_at content_at count bytes.now) }
{
    let mut items = Vec::new(alloc);
    let mut rest = bytes;
    for _ in 0..count {
        let (item, after) = read_content(alloc, rest)?;
        items.push(item)?;
        rest = after;
    }
    Ok((items, rest))
}

/// A count in 4 bytes, and the bytes of that number of pages.
#[tactic(auto, unfolding(crate::specs::Reading::contents_at))]
pub(crate) fn read_contents(
    alloc: Global,
    bytes: &[u8],
) -> Result<(Vec<PageBytes>, &[u8]), StreamFault>
    ensures { Gives (λ x. (x.0.items, x.1.now)) result (contents_at bytes.now) }
{
    let (count, rest) = read_u32(bytes)?;
    let (items, rest) = read_count_contents(alloc, count, rest)?;
    Ok((items, rest))
}

/// Whether a run has at least one page, begins at `low` or later, and ends inside the address space.
pub(crate) fn is_run(low: PageNo, first: PageNo, count: u32) -> bool
    ensures { result ≡ is_run low first count }
{
    low <= first && 0 < count && first <= HIGH_PAGE && count <= HIGH_PAGE - first
}

/// A run of pages that begins at `low` or later.
#[tactic(auto, unfolding(crate::specs::Reading::run_in))]
fn read_run(low: PageNo, bytes: &[u8]) -> Result<(Run, &[u8]), StreamFault>
    ensures gives { Gives (λ x. (x.0, x.1.now)) result (run_in low bytes.now) }
    ensures inside { IfOk result (λ x. x.0.first + x.0.count ≤ HIGH_PAGE) }
{
    let (first, rest) = read_u32(bytes)?;
    let (count, rest) = read_u32(rest)?;
    if !is_run(low, first, count) {
        return Err(StreamFault::BadField);
    }
    Ok((Run { first, count }, rest))
}

/// The pages of `count` runs, which ascend and do not touch.
fn read_runs(alloc: Global, count: u32, bytes: &[u8]) -> Result<(PageSet, &[u8]), StreamFault>
    ensures { Gives (λ x. (x.0, x.1.now)) result (set_from count bytes.now) }
{
    let mut pages = PageSet::new(alloc);
    let mut low = LOW_PAGE;
    let mut rest = bytes;
    for _ in 0..count {
        let (run, after) = read_run(low, rest)?;
        pages.insert_range(run.first, run.count)?;
        low = run.first + run.count + 1;
        rest = after;
    }
    pages.ends_by_high_page();
    Ok((pages, rest))
}

/// A set of pages: a count in 4 bytes, and that number of runs.
#[tactic(auto, unfolding(crate::specs::Reading::pages_at))]
pub(crate) fn read_pages(alloc: Global, bytes: &[u8]) -> Result<(PageSet, &[u8]), StreamFault>
    ensures { Gives (λ x. (x.0, x.1.now)) result (pages_at bytes.now) }
{
    let (count, rest) = read_u32(bytes)?;
    let (pages, rest) = read_runs(alloc, count, rest)?;
    Ok((pages, rest))
}

/// A set of no more pages than the version maps.
#[tactic(auto, unfolding(crate::specs::Reading::few_pages_at))]
pub(crate) fn read_few_pages(
    alloc: Global,
    version: Version,
    bytes: &[u8],
) -> Result<(PageSet, &[u8]), StreamFault>
    ensures { Gives (λ x. (x.0, x.1.now)) result (few_pages_at version bytes.now) }
{
    let (pages, rest) = read_pages(alloc, bytes)?;
    if version.max_pages() < pages.len() {
        return Err(StreamFault::BadField);
    }
    Ok((pages, rest))
}

/// Whether an area may follow, where `last` is the protection of the page before `low`.
fn goes_on_with(low: PageNo, last: Option<Prot>, area: Area) -> bool
    ensures { result ≡ goes_on_with low last area }
{
    is_run(low, area.first, area.count) && !(area.first == low && ends_with(last, area.prot))
}

fn ends_with(last: Option<Prot>, prot: Prot) -> bool
    ensures { result ≡ same_protection last (Some prot) }
{
    match (last, prot) {
        (Some(Prot::NoAccess), Prot::NoAccess) => true,
        (Some(Prot::Read), Prot::Read) => true,
        (Some(Prot::ReadWrite), Prot::ReadWrite) => true,
        _ => false,
    }
}

/// An area that begins at `low` or later, and does not continue with the protection of the page before.
#[tactic(auto, unfolding(crate::specs::Reading::area_in))]
fn read_area(low: PageNo, last: Option<Prot>, bytes: &[u8]) -> Result<(Area, &[u8]), StreamFault>
    ensures gives { Gives (λ x. (x.0, x.1.now)) result (area_in (low, last) bytes.now) }
    ensures past { IfOk result (λ x. low ≤ x.0.first) }
    ensures inside { IfOk result (λ x. x.0.first + x.0.count ≤ HIGH_PAGE) }
{
    let (first, rest) = read_u32(bytes)?;
    let (count, rest) = read_u32(rest)?;
    let (prot, rest) = read_prot(rest)?;
    let area = Area { first, count, prot };
    if !goes_on_with(low, last, area) {
        return Err(StreamFault::BadField);
    }
    Ok((area, rest))
}

/// The pages of `count` areas, which ascend; those that touch differ in protection.
fn read_count_areas(
    alloc: Global,
    count: u32,
    bytes: &[u8],
) -> Result<(AreaMap, &[u8]), StreamFault>
    ensures { Gives (λ x. (x.0, x.1.now)) result (map_in count bytes.now) }
{
    let mut areas = AreaMap::new(alloc);
    let mut low = LOW_PAGE;
    let mut last = None;
    let mut rest = bytes;
    for _ in 0..count {
        let (area, after) = read_area(low, last, rest)?;
        areas.map(area.first, area.count, area.prot)?;
        low = area.first + area.count;
        last = Some(area.prot);
        rest = after;
    }
    Ok((areas, rest))
}

/// The mapped pages, no more than the version maps: a count in 4 bytes, and that number of areas.
#[tactic(auto, unfolding(crate::specs::Reading::areas_in))]
pub(crate) fn read_areas(
    alloc: Global,
    version: Version,
    bytes: &[u8],
) -> Result<(AreaMap, &[u8]), StreamFault>
    ensures { Gives (λ x. (x.0, x.1.now)) result (areas_in version bytes.now) }
{
    let (count, rest) = read_u32(bytes)?;
    let (areas, rest) = read_count_areas(alloc, count, rest)?;
    if version.max_pages() < areas.mapped_pages() {
        return Err(StreamFault::BadField);
    }
    Ok((areas, rest))
}

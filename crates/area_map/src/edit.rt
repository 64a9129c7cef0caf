//! Changing the areas around a range, in place.

ghost use Rattle.std.specs.Prelude.{◌≡◌, ◌+◌, ◌<◌, ◌≤◌, ◌++◌, length, take, drop, OnOk, OnErr, IsOk, IsTrue, ◌↔◌, Some};
ghost use Rattle.std.specs.Option.{option_to_list};
ghost use Rattle.std.specs.Vec.{vec_len, vec_capacity};
ghost use Rattle.area_map.specs.Areas.{AreRuns, AreCounted, page_sum};
ghost use Rattle.area_map.specs.Edits.{IsBelow, IsAbove, IsEdit, IsInside, edited};

use crate::search::{beginning_by, ending_before};
use mig_base::{Area, HIGH_PAGE, PageNo, Prot};
use std::alloc::AllocError;

/// The areas that stay on one side of a range.
#[derive(Clone, Copy, Drop)]
pub(crate) struct Side {
    /// An index: below a range the areas before this index stay whole, above a range those from it on.
    at: usize,
    /// The part of the next area that stays, if any.
    part: Option<Area>,
    /// Where the range begins or ends, extended by the adjacent area if that has the same protection.
    page: PageNo,
}

/// The areas that replace those from index `low` up to `high`.
#[derive(Clone, Copy, Drop)]
pub(crate) struct Edit {
    low: usize,
    high: usize,
    left: Option<Area>,
    middle: Option<Area>,
    right: Option<Area>,
}

/// How the areas change when each page of a range gets the protection `prot`, or is unmapped if `prot` is `None`.
pub(crate) fn plan(areas: &[Area], first: PageNo, count: u32, prot: Option<Prot>) -> Edit
    requires runs { AreRuns areas.now }
    requires some { 0 < count }
    requires bound { first + count ≤ HIGH_PAGE }
    ensures { IsEdit areas.now result first count prot }
{
    let below = below(areas, first, prot);
    let above = above(areas, first + count, prot);
    let middle = match prot {
        Some(prot) => Some(Area {
            first: below.page,
            count: above.page - below.page,
            prot,
        }),
        None => None,
    };
    Edit {
        low: below.at,
        high: above.at,
        left: below.part,
        middle,
        right: above.part,
    }
}

/// Whether a range with this protection is joined with an area at its border.
fn takes_in(prot: Option<Prot>, area: Area) -> bool
    ensures { IsTrue result ↔ (prot ≡ Some area.prot) }
{
    prot == Some(area.prot)
}

/// The areas that stay below `page`, where a range with the protection begins.
fn below(areas: &[Area], page: PageNo, prot: Option<Prot>) -> Side
    requires runs { AreRuns areas.now }
    requires bound { page ≤ HIGH_PAGE }
    ensures { IsBelow areas.now result page prot }
{
    let at = ending_before(areas, page);
    if at == areas.len() {
        return Side {
            at,
            part: None,
            page,
        };
    }
    let area = areas[at];
    if page <= area.first {
        return Side {
            at,
            part: None,
            page,
        };
    }
    if takes_in(prot, area) {
        return Side {
            at,
            part: None,
            page: area.first,
        };
    }
    let part = Area {
        count: page - area.first,
        ..area
    };
    Side {
        at,
        part: Some(part),
        page,
    }
}

/// The areas that stay above `page`, where a range with the protection ends.
fn above(areas: &[Area], page: PageNo, prot: Option<Prot>) -> Side
    requires runs { AreRuns areas.now }
    requires bound { page ≤ HIGH_PAGE }
    ensures { IsAbove areas.now result page prot }
{
    let at = beginning_by(areas, page);
    if at == 0 {
        return Side {
            at,
            part: None,
            page,
        };
    }
    let area = areas[at - 1];
    let end = area.first + area.count;
    if end <= page {
        return Side {
            at,
            part: None,
            page,
        };
    }
    if takes_in(prot, area) {
        return Side {
            at,
            part: None,
            page: end,
        };
    }
    let part = Area {
        first: page,
        count: end - page,
        prot: area.prot,
    };
    Side {
        at,
        part: Some(part),
        page,
    }
}

/// The number of mapped pages after the edit, if `mapped` pages are mapped before it.
pub(crate) fn mapped_after(areas: &[Area], mapped: u32, edit: Edit) -> u32
    requires counted { AreCounted areas.now mapped }
    requires inside { IsInside areas.now edit }
    requires runs { AreRuns (edited areas.now edit) }
    ensures { result ≡ page_sum (edited areas.now edit) }
{
    let replaced = page_count(&areas[edit.low..edit.high]);
    mapped - replaced + pages_of(edit.left) + pages_of(edit.middle) + pages_of(edit.right)
}

/// The number of pages of the areas.
fn page_count(areas: &[Area]) -> u32
    requires { page_sum areas.now ≤ HIGH_PAGE }
    ensures { result ≡ page_sum areas.now }
{
    areas.iter().map(|area| area.count).sum()
}

/// The number of pages of an area, or 0 for `None`.
fn pages_of(area: Option<Area>) -> u32
    ensures { result ≡ page_sum (option_to_list area) }
{
    match area {
        Some(area) => area.count,
        None => 0,
    }
}

/// Makes the edit. It takes memory only if the number of areas grows. If memory runs out, nothing changes.
pub(crate) fn apply(areas: &mut Vec<Area>, edit: Edit) -> Result<(), AllocError>
    requires { IsInside areas.old.items edit }
    ensures ok { OnOk result (areas.new.items ≡ edited areas.old.items edit) }
    ensures err { OnErr result (areas.new.items ≡ areas.old.items) }
    ensures succeeds { vec_len areas.old + 3 ≤ vec_capacity areas.old → IsOk result }
    ensures added { vec_len areas.new ≤ vec_len areas.old + 3 }
    ensures capacity { vec_capacity areas.old ≤ vec_capacity areas.new }
{
    let added = number_of(edit.left) + number_of(edit.middle) + number_of(edit.right);
    areas.try_reserve(added.saturating_sub(edit.high - edit.low))?;
    remove_between(areas, edit.low, edit.high);
    insert_at(areas, edit.low, edit.right);
    insert_at(areas, edit.low, edit.middle);
    insert_at(areas, edit.low, edit.left);
    Ok(())
}

/// Removes the areas from index `low` up to, but not including, `high`.
fn remove_between(areas: &mut Vec<Area>, low: usize, high: usize)
    requires order { low ≤ high }
    requires within { high ≤ vec_len areas.old }
    ensures items { areas.new.items ≡ take low areas.old.items ++ drop high areas.old.items }
    ensures capacity { vec_capacity areas.new ≡ vec_capacity areas.old }
{
    areas.drain(low..high);
}

/// 1 if there is an area, else 0.
fn number_of(area: Option<Area>) -> usize
    ensures value { result ≡ length (option_to_list area) }
    ensures few { result ≤ 1 }
{
    usize::from(area.is_some())
}

/// Inserts an area at an index, if there is one.
fn insert_at(areas: &mut Vec<Area>, at: usize, area: Option<Area>)
    requires within { at ≤ vec_len areas.old }
    requires room { vec_len areas.old + length (option_to_list area) ≤ vec_capacity areas.old }
    ensures items { areas.new.items ≡
        take at areas.old.items ++ (option_to_list area ++ drop at areas.old.items) }
    ensures len { vec_len areas.new ≡ vec_len areas.old + length (option_to_list area) }
    ensures capacity { vec_capacity areas.old ≤ vec_capacity areas.new }
{
    if let Some(area) = area {
        match areas.insert(at, area) {
            Ok(()) => {}
            Err(_) => unreachable!(),
        }
    }
}

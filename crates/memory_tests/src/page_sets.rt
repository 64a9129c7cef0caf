//! `PageSet`, call by call.

use crate::ranges::inside;
use crate::same::same;
use mig_base::{HIGH_PAGE, NoMemory, PageNo, PageSet, Run};
use std::alloc::Global;
use std::process::Abort;
use std::test::Fail;

/// A call with its arguments. A range is a first page and a count.
#[derive(Clone, Copy)]
enum Call {
    Insert(PageNo),
    InsertRange(PageNo, u32),
    /// A range is put in this set and in another, which is new.
    InsertBoth(PageNo, u32),
    Remove(PageNo),
    RemoveRange(PageNo, u32),
    Contains(PageNo),
    Len,
    Next(PageNo, bool),
    /// The same below an end.
    NextBefore(PageNo, bool, PageNo),
    Ranges,
    /// The first pages, one after the other.
    Pages,
}

use Call::{
    Contains, Insert, InsertBoth, InsertRange, Len, Next, NextBefore, Pages, Ranges, Remove,
    RemoveRange,
};

#[derive(Clone, Copy, PartialEq, Eq)]
enum Answer {
    Done,
    Is(bool),
    /// A count, or a page.
    Number(u32),
    /// The first runs, each a first page and a count.
    Runs([Option<(PageNo, u32)>; 4]),
    /// The first pages, and then `HIGH_PAGE`.
    Are([PageNo; 4]),
}

use Answer::{Are, Done, Is, Number, Runs};

/// The ends of the first runs of a set, found without memory.
fn seen(rt: &impl Abort, set: &PageSet) -> [(PageNo, PageNo); 4] {
    let mut seen = [(0, 0); 4];
    let mut from = 0;
    for place in seen.iter_mut() {
        inside(rt, from, 0);
        let first = set.next_member(from);
        let end = set.next_gap(first);
        *place = (first, end);
        from = end;
    }
    seen
}

fn first_pages(set: &PageSet) -> [PageNo; 4] {
    let mut found = [HIGH_PAGE; 4];
    for (place, page) in found.iter_mut().zip(set.iter()) {
        *place = page;
    }
    found
}

fn first_runs(runs: &[Run]) -> [Option<(PageNo, u32)>; 4] {
    let mut found = [None; 4];
    for (place, run) in found.iter_mut().zip(runs) {
        *place = Some((run.first, run.count));
    }
    found
}

/// Puts a range in a set and in a new one, and looks at that.
fn insert_both(
    rt: &impl Abort,
    alloc: Global,
    set: &mut PageSet,
    first: PageNo,
    count: u32,
) -> Result<(), NoMemory> {
    inside(rt, first, count);
    let mut other = PageSet::new(alloc);
    PageSet::insert_range_in_both(set, &mut other, first, count)?;
    same(rt, &other.len(), &count, "pages of the other", 0);
    same(
        rt,
        &other.contains(first),
        &(count > 0),
        "other",
        first as usize,
    );
    Ok(())
}

fn make(rt: &impl Abort, alloc: Global, set: &mut PageSet, call: Call) -> Result<Answer, NoMemory> {
    match call {
        Insert(page) => {
            inside(rt, page, 1);
            set.insert(page)?;
        }
        InsertRange(first, count) => {
            inside(rt, first, count);
            set.insert_range(first, count)?;
        }
        InsertBoth(first, count) => insert_both(rt, alloc, set, first, count)?,
        Remove(page) => {
            inside(rt, page, 1);
            set.remove(page);
        }
        RemoveRange(first, count) => {
            inside(rt, first, count);
            set.remove_range(first, count);
        }
        Contains(page) => return Ok(Is(set.contains(page))),
        Len => return Ok(Number(set.len())),
        Next(from, want) => {
            inside(rt, from, 0);
            return Ok(Number(if want {
                set.next_member(from)
            } else {
                set.next_gap(from)
            }));
        }
        NextBefore(from, want, end) => {
            assert!(rt; from <= end && end <= HIGH_PAGE);
            return Ok(Number(set.next_before(from, want, end)));
        }
        Ranges => return Ok(Runs(first_runs(set.ranges(alloc)?.as_slice()))),
        Pages => return Ok(Are(first_pages(set))),
    }
    Ok(Done)
}

/// Makes the calls of a table.
fn play_on(rt: &impl Abort, alloc: Global, set: &mut PageSet, steps: &[(Call, Answer)]) {
    for (i, (call, wanted)) in steps.iter().enumerate() {
        let before = seen(rt, set);
        let mut answer = make(rt, alloc, set, *call);
        if answer == Err(NoMemory) {
            same(rt, &seen(rt, set), &before, "refused step", i);
            answer = make(rt, alloc, set, *call);
        }
        same(rt, &answer, &Ok(*wanted), "step", i);
    }
}

fn copy_of(set: &PageSet) -> Result<PageSet, NoMemory> {
    match set.copy() {
        Err(NoMemory) => set.copy(),
        answer => answer,
    }
}

/// Looks that a copy is equal, and that the set is not touched when the copy is.
fn copied(rt: &impl Abort, set: &PageSet, copy: &mut PageSet) {
    let before = seen(rt, set);
    same(rt, &seen(rt, copy), &before, "copy", 0);
    copy.remove_range(0, HIGH_PAGE);
    same(rt, &copy.len(), &0, "copy", 1);
    same(rt, &seen(rt, set), &before, "set", 0);
}

/// Plays a table, and then looks at a copy.
fn play(rt: &impl Abort, alloc: Global, steps: &[(Call, Answer)]) -> Result<(), Fail> {
    let mut set = PageSet::new(alloc);
    play_on(rt, alloc, &mut set, steps);
    let mut copy = copy_of(&set)?;
    copied(rt, &set, &mut copy);
    Ok(())
}

const TOUCHING: [(Call, Answer); 13] = [
    (Ranges, Runs([None; 4])),
    (Pages, Are([HIGH_PAGE; 4])),
    (Insert(0x10), Done),
    (Insert(0x11), Done),
    (Insert(0x13), Done),
    (Ranges, Runs([Some((0x10, 2)), Some((0x13, 1)), None, None])),
    (Pages, Are([0x10, 0x11, 0x13, HIGH_PAGE])),
    (Len, Number(3)),
    (RemoveRange(0x11, 2), Done),
    (Ranges, Runs([Some((0x10, 1)), Some((0x13, 1)), None, None])),
    (Remove(0x10), Done),
    (Next(0, true), Number(0x13)),
    (Next(0x13, false), Number(0x14)),
];

#[test]
fn touching_pages_are_one_run(rt: HostRuntime) -> Result<(), Fail> {
    play(&rt, rt.alloc(), &TOUCHING)
}

/// A range across two borders of chunks, and one of no page.
const WHOLE: [(Call, Answer); 6] = [
    (Insert(0x400), Done),
    (Contains(0x400), Is(true)),
    (InsertRange(0x3ff, 0x402), Done),
    (Ranges, Runs([Some((0x3ff, 0x402)), None, None, None])),
    (InsertRange(0x20, 0), Done),
    (Len, Number(0x402)),
];

#[test]
fn a_range_is_put_in_whole(rt: HostRuntime) -> Result<(), Fail> {
    play(&rt, rt.alloc(), &WHOLE)
}

/// A range for two sets, across a border of chunks, and the pages of one of them below an end.
const BELOW_AN_END: [(Call, Answer); 13] = [
    (Insert(0x10), Done),
    (InsertBoth(0x3fe, 4), Done),
    (InsertBoth(0x20, 0), Done),
    (
        Ranges,
        Runs([Some((0x10, 1)), Some((0x3fe, 4)), None, None]),
    ),
    (NextBefore(0, true, 0x10), Number(0x10)),
    (NextBefore(0, true, 0x11), Number(0x10)),
    (NextBefore(0x11, true, 0x3fd), Number(0x3fd)),
    (NextBefore(0x11, true, 0x10_0000), Number(0x3fe)),
    (NextBefore(0x3fe, false, 0x401), Number(0x401)),
    (NextBefore(0x3fe, false, 0x500), Number(0x402)),
    (NextBefore(0x402, true, 0x10_0000), Number(0x10_0000)),
    (NextBefore(0x402, false, 0x402), Number(0x402)),
    (NextBefore(0x10_0000, true, 0x10_0000), Number(0x10_0000)),
];

#[test]
fn pages_below_an_end(rt: HostRuntime) -> Result<(), Fail> {
    play(&rt, rt.alloc(), &BELOW_AN_END)
}

/// Runs across the borders of words and of chunks.
const BORDERS: [(Call, Answer); 9] = [
    (Insert(0x3f), Done),
    (Insert(0x40), Done),
    (Insert(0x3ff), Done),
    (Insert(0x400), Done),
    (
        Ranges,
        Runs([Some((0x3f, 2)), Some((0x3ff, 2)), None, None]),
    ),
    (RemoveRange(0x40, 0x3c0), Done),
    (
        Ranges,
        Runs([Some((0x3f, 1)), Some((0x400, 1)), None, None]),
    ),
    (Contains(0x400), Is(true)),
    (Contains(0x3ff), Is(false)),
];

#[test]
fn runs_cross_borders(rt: HostRuntime) -> Result<(), Fail> {
    play(&rt, rt.alloc(), &BORDERS)
}

/// The first page that may be mapped and the last, so that the list of chunks grows far.
const FAR: [(Call, Answer); 14] = [
    (Insert(0x10), Done),
    (Insert(0xf_ffff), Done),
    (Insert(0x1400), Done),
    (Insert(0x1400), Done),
    (Len, Number(3)),
    (Pages, Are([0x10, 0x1400, 0xf_ffff, HIGH_PAGE])),
    (
        Ranges,
        Runs([
            Some((0x10, 1)),
            Some((0x1400, 1)),
            Some((0xf_ffff, 1)),
            None,
        ]),
    ),
    (Next(0x1401, true), Number(0xf_ffff)),
    (Next(0x10_0000, true), Number(0x10_0000)),
    (Next(0xf_ffff, false), Number(0x10_0000)),
    (Contains(0xffff_ffff), Is(false)),
    (RemoveRange(0, 0x10_0000), Done),
    (Len, Number(0)),
    (Next(0, true), Number(0x10_0000)),
];

#[test]
fn pages_far_apart(rt: HostRuntime) -> Result<(), Fail> {
    play(&rt, rt.alloc(), &FAR)
}

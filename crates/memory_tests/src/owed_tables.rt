//! `Owed`, call by call.

use crate::ranges::{apart, inside};
use crate::same::same;
use mig_base::{NoMemory, PageNo, PageSet, Run};
use owed_pages::Owed;
use std::alloc::Global;
use std::process::Abort;
use std::test::Fail;

/// A call with its arguments. A range is a first page and a count.
#[derive(Clone, Copy)]
enum Call {
    Home(PageNo),
    Origin(PageNo),
    Origins,
    Len,
    Settle(PageNo),
    RemoveRange(PageNo, u32),
    /// Two ranges of as many pages: the first of each, and the count.
    MoveRange(PageNo, PageNo, u32),
}

use Call::{Home, Len, MoveRange, Origin, Origins, RemoveRange, Settle};

#[derive(Clone, Copy, PartialEq, Eq)]
enum Answer {
    Done,
    At(Option<PageNo>),
    Number(u32),
    /// The first runs of a set, each a first page and a count.
    Runs([Option<(PageNo, u32)>; 3]),
}

use Answer::{At, Done, Number, Runs};

/// How many pages are owed, and the origins at pages and the pages of origins near the borders of leaves.
#[derive(Clone, Copy, PartialEq, Eq)]
struct Picture {
    len: u32,
    origins: [Option<PageNo>; 8],
    homes: [Option<PageNo>; 8],
}

const PLACES: [PageNo; 8] = [0x10, 0x11, 0x20, 0x3ff, 0x400, 0x7ff, 0x800, 0xf_ffff];

fn seen(owed: &Owed) -> Picture {
    let mut seen = Picture {
        len: owed.len(),
        origins: [None; 8],
        homes: [None; 8],
    };
    for (place, page) in seen.origins.iter_mut().zip(&PLACES) {
        *place = owed.origin(*page);
    }
    for (place, page) in seen.homes.iter_mut().zip(&PLACES) {
        *place = owed.home(*page);
    }
    seen
}

fn first_runs(runs: &[Run]) -> [Option<(PageNo, u32)>; 3] {
    let mut found = [None; 3];
    for (place, run) in found.iter_mut().zip(runs) {
        *place = Some((run.first, run.count));
    }
    found
}

fn make(rt: &impl Abort, alloc: Global, owed: &mut Owed, call: Call) -> Result<Answer, NoMemory> {
    match call {
        Home(origin) => return Ok(At(owed.home(origin))),
        Origin(page) => return Ok(At(owed.origin(page))),
        Origins => return Ok(Runs(first_runs(owed.origins(alloc)?.ranges(alloc)?.as_slice()))),
        Len => return Ok(Number(owed.len())),
        Settle(origin) => owed.settle(origin),
        RemoveRange(first, count) => {
            inside(rt, first, count);
            owed.remove_range(first, count);
        }
        MoveRange(from, to, count) => {
            inside(rt, from, count);
            inside(rt, to, count);
            apart(rt, from, to, count);
            owed.move_range(from, to, count)?;
        }
    }
    Ok(Done)
}

/// The pages of two ranges, each at its own place.
fn own(rt: &impl Abort, alloc: Global, runs: [(PageNo, u32); 2]) -> Result<Owed, NoMemory> {
    let mut pages = PageSet::new(alloc);
    for (first, count) in runs {
        inside(rt, first, count);
        pages.insert_range(first, count)?;
    }
    Owed::new(alloc, &pages)
}

fn play_on(rt: &impl Abort, alloc: Global, owed: &mut Owed, steps: &[(Call, Answer)]) {
    for (i, (call, wanted)) in steps.iter().enumerate() {
        let before = seen(owed);
        let mut answer = make(rt, alloc, owed, *call);
        if answer == Err(NoMemory) {
            same(rt, &seen(owed), &before, "refused step", i);
            answer = make(rt, alloc, owed, *call);
        }
        same(rt, &answer, &Ok(*wanted), "step", i);
        same(
            rt,
            &owed.is_empty(),
            &(owed.len() == 0),
            "emptiness at step",
            i,
        );
    }
}

fn play(
    rt: &impl Abort,
    alloc: Global,
    runs: [(PageNo, u32); 2],
    steps: &[(Call, Answer)],
) -> Result<(), Fail> {
    let mut owed = match own(rt, alloc, runs) {
        Ok(owed) => owed,
        Err(NoMemory) => own(rt, alloc, runs)?,
    };
    play_on(rt, alloc, &mut owed, steps);
    Ok(())
}

/// Two pages at their own places: one moves away, the other is settled.
const MOVED: [(Call, Answer); 14] = [
    (Len, Number(2)),
    (Origin(0x10), At(Some(0x10))),
    (Home(0x11), At(Some(0x11))),
    (Origins, Runs([Some((0x10, 2)), None, None])),
    (MoveRange(0x10, 0x20, 1), Done),
    (Home(0x10), At(Some(0x20))),
    (Origin(0x20), At(Some(0x10))),
    (Origin(0x10), At(None)),
    (Settle(0x11), Done),
    (Origins, Runs([Some((0x10, 1)), None, None])),
    (Settle(0x20), Done),
    (Len, Number(1)),
    (RemoveRange(0x20, 1), Done),
    (Origins, Runs([None, None, None])),
];

#[test]
fn a_page_moves_and_another_is_settled(rt: HostRuntime) -> Result<(), Fail> {
    play(&rt, rt.alloc(), [(0x10, 2), (0, 0)], &MOVED)
}

/// Ranges across the borders of leaves. What is owed at the target of a move ends.
const BORDERS: [(Call, Answer); 16] = [
    (Len, Number(7)),
    (MoveRange(0x3fe, 0x7fe, 4), Done),
    (Origins, Runs([Some((0x3fe, 4)), Some((0x802, 1)), None])),
    (Home(0x3ff), At(Some(0x7ff))),
    (Home(0x400), At(Some(0x800))),
    (Origin(0x801), At(Some(0x401))),
    (Origin(0x802), At(Some(0x802))),
    (Origin(0x3ff), At(None)),
    (Home(0x7ff), At(None)),
    (RemoveRange(0x7ff, 2), Done),
    (
        Origins,
        Runs([Some((0x3fe, 1)), Some((0x401, 1)), Some((0x802, 1))]),
    ),
    (MoveRange(0x7fe, 0xf_fffc, 4), Done),
    (Home(0x401), At(Some(0xf_ffff))),
    (Origin(0xf_fffc), At(Some(0x3fe))),
    (RemoveRange(0, 0x10_0000), Done),
    (Len, Number(0)),
];

#[test]
fn ranges_cross_borders(rt: HostRuntime) -> Result<(), Fail> {
    play(&rt, rt.alloc(), [(0x3fe, 4), (0x800, 3)], &BORDERS)
}

/// Nothing is owed in the ranges that move or end, and no page number is out of reach of a look-up.
const NOWHERE: [(Call, Answer); 10] = [
    (MoveRange(0x20, 0x8_0000, 0x4_0000), Done),
    (Len, Number(2)),
    (MoveRange(0x8_0000, 0x10, 1), Done),
    (Origins, Runs([Some((0xf_ffff, 1)), None, None])),
    (RemoveRange(0x10, 0xf_ffef), Done),
    (Home(0xf_ffff), At(Some(0xf_ffff))),
    (Home(0xffff_ffff), At(None)),
    (Origin(0xffff_ffff), At(None)),
    (Settle(0xffff_ffff), Done),
    (Len, Number(1)),
];

#[test]
fn ranges_with_nothing_owed(rt: HostRuntime) -> Result<(), Fail> {
    play(&rt, rt.alloc(), [(0x10, 1), (0xf_ffff, 1)], &NOWHERE)
}

/// Looks that a table is empty, before and after calls that find nothing.
fn stays_empty(rt: &impl Abort, owed: &mut Owed) {
    let empty = (0, true, None, None);
    let before = (
        owed.len(),
        owed.is_empty(),
        owed.home(0x10),
        owed.origin(0x10),
    );
    same(rt, &before, &empty, "empty table", 0);
    owed.settle(0x10);
    owed.remove_range(0x10, 0x20);
    same(rt, &owed.move_range(0x10, 0x30, 0x20), &Ok(()), "move", 0);
    let after = (
        owed.len(),
        owed.is_empty(),
        owed.home(0x10),
        owed.origin(0x10),
    );
    same(rt, &after, &empty, "empty table", 1);
}

#[test]
fn an_empty_table(rt: HostRuntime) -> Result<(), Fail> {
    let mut owed = Owed::empty(rt.alloc());
    stays_empty(&rt, &mut owed);
    Ok(())
}

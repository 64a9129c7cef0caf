//! `AreaMap`, call by call.

use crate::ranges::{apart, inside};
use crate::same::same;
use area_map::AreaMap;
use mig_base::{Addr, Area, NoMemory, PageNo, Prot};
use std::alloc::Global;
use std::process::Abort;
use std::test::Fail;

/// A call with its arguments. A range is a first page and a count.
#[derive(Clone, Copy)]
enum Call {
    Map(PageNo, u32, Prot),
    Unmap(PageNo, u32),
    /// Two ranges of as many pages: the first of each, and the count.
    Move(PageNo, PageNo, u32),
    /// The areas are taken out with room for a move, and put back.
    Room,
    /// Two ranges, each a first page and a count, and the protection of the second.
    Relocate(PageNo, u32, PageNo, u32, Prot),
    OneProt(PageNo, u32),
    ProtAt(PageNo),
    MappedPages,
    MappedIn(PageNo, u32),
    Gap(u64),
    /// The area at an index of `areas`.
    Area(usize),
    /// A picture of the 32 pages from 0x10 on.
    Pages,
}

use Call::{Gap, Map, MappedIn, MappedPages, Move, OneProt, Pages, ProtAt, Relocate, Room, Unmap};

#[derive(Clone, Copy, PartialEq, Eq)]
enum Answer {
    Done,
    Prot(Option<Prot>),
    Count(u32),
    At(Option<Addr>),
    Area(Option<Area>),
    /// A page that is not mapped is `.`; one of no access `n`, one for loads `r`, one for loads and stores `w`.
    Picture([u8; 32]),
}

use Answer::{At, Count, Done, Picture};

fn picture(map: &AreaMap) -> [u8; 32] {
    let mut picture = [b'.'; 32];
    for i in 0..32u32 {
        picture[i as usize] = match map.prot_at(0x10 + i) {
            None => b'.',
            Some(Prot::NoAccess) => b'n',
            Some(Prot::Read) => b'r',
            Some(Prot::ReadWrite) => b'w',
        };
    }
    picture
}

/// Makes a change of a map, if the call is one.
fn change(rt: &impl Abort, map: &mut AreaMap, call: Call) -> Result<(), NoMemory> {
    match call {
        Map(first, count, prot) => {
            inside(rt, first, count);
            map.map(first, count, prot)
        }
        Unmap(first, count) => {
            inside(rt, first, count);
            map.unmap(first, count)
        }
        Move(from, to, count) => {
            inside(rt, from, count);
            inside(rt, to, count);
            apart(rt, from, to, count);
            map.move_range(from, to, count)
        }
        Room => {
            *map = map.with_room()?.into_areas();
            Ok(())
        }
        Relocate(from, count, to, new_count, prot) => {
            inside(rt, from, count);
            inside(rt, to, new_count);
            *map = map.with_room()?.relocated(from, count, to, new_count, prot);
            Ok(())
        }
        _ => Ok(()),
    }
}

/// What a map answers to a call once it has made it.
fn answered(rt: &impl Abort, map: &AreaMap, call: Call) -> Answer {
    match call {
        Map(..) | Unmap(..) | Move(..) | Room | Relocate(..) => Done,
        OneProt(first, count) => {
            inside(rt, first, count);
            assert!(rt; count > 0);
            Answer::Prot(map.one_prot(first, count))
        }
        ProtAt(page) => Answer::Prot(map.prot_at(page)),
        MappedPages => Count(map.mapped_pages()),
        MappedIn(first, count) => {
            inside(rt, first, count);
            Count(map.mapped_in(first, count))
        }
        Gap(len) => At(map.gap(len)),
        Call::Area(i) => Answer::Area(map.areas().get(i).copied()),
        Pages => Picture(picture(map)),
    }
}

/// Makes the calls of a table.
fn play_on(rt: &impl Abort, map: &mut AreaMap, steps: &[(Call, Answer)]) -> Result<(), NoMemory> {
    for (i, (call, wanted)) in steps.iter().enumerate() {
        let before = (picture(map), map.mapped_pages());
        if change(rt, map, *call).is_err() {
            same(
                rt,
                &(picture(map), map.mapped_pages()),
                &before,
                "refused step",
                i,
            );
            change(rt, map, *call)?;
        }
        same(rt, &answered(rt, map, *call), wanted, "step", i);
    }
    Ok(())
}

fn copy_of(map: &AreaMap) -> Result<AreaMap, NoMemory> {
    match map.copy() {
        Err(NoMemory) => map.copy(),
        answer => answer,
    }
}

/// Plays a table, and then looks at a copy.
fn play(rt: &impl Abort, alloc: Global, steps: &[(Call, Answer)]) -> Result<(), Fail> {
    let mut map = AreaMap::new(alloc);
    play_on(rt, &mut map, steps)?;
    let copy = copy_of(&map)?;
    same(rt, &copy.areas(), &map.areas(), "copy", 0);
    same(rt, &copy.mapped_pages(), &map.mapped_pages(), "copy", 1);
    Ok(())
}

const READ: Option<Prot> = Some(Prot::Read);

const WRITE: Option<Prot> = Some(Prot::ReadWrite);

type Steps<const N: usize> = [(Call, Answer); N];

const GAPS: Steps<17> = [
    (Gap(4096), At(Some(0x10000))),
    (Map(0x10, 2, Prot::Read), Done),
    (Map(0x12, 1, Prot::Read), Done),
    (MappedPages, Count(3)),
    (Gap(4096), At(Some(0x13000))),
    (Unmap(0x11, 1), Done),
    (MappedPages, Count(2)),
    (Gap(4096), At(Some(0x11000))),
    (Gap(4097), At(Some(0x13000))),
    (Gap(0), At(Some(0x10000))),
    (Gap(0xffff_0000), At(None)),
    (ProtAt(0x10), Answer::Prot(READ)),
    (ProtAt(0x11), Answer::Prot(None)),
    (ProtAt(0x12), Answer::Prot(READ)),
    (Pages, Picture(*b"r.r.............................")),
    (Map(0x10, 0, Prot::ReadWrite), Done),
    (Pages, Picture(*b"r.r.............................")),
];

#[test]
fn gaps_open_where_pages_go(rt: HostRuntime) -> Result<(), Fail> {
    play(&rt, rt.alloc(), &GAPS)
}

const THREE_READ: Area = Area {
    first: 0x10,
    count: 3,
    prot: Prot::Read,
};

const TWO_READ: Area = Area {
    first: 0x10,
    count: 2,
    prot: Prot::Read,
};

const MOVES: Steps<14> = [
    (Map(0x10, 2, Prot::Read), Done),
    (Map(0x12, 1, Prot::Read), Done),
    (Call::Area(0), Answer::Area(Some(THREE_READ))),
    (Call::Area(1), Answer::Area(None)),
    (OneProt(0x10, 3), Answer::Prot(READ)),
    (OneProt(0x10, 4), Answer::Prot(None)),
    (Unmap(0x11, 1), Done),
    (Move(0x12, 0x20, 1), Done),
    (Pages, Picture(*b"r...............r...............")),
    (MappedPages, Count(2)),
    (Move(0x20, 0x11, 1), Done),
    (Pages, Picture(*b"rr..............................")),
    (Call::Area(0), Answer::Area(Some(TWO_READ))),
    (Call::Area(1), Answer::Area(None)),
];

#[test]
fn ranges_move_up_and_down(rt: HostRuntime) -> Result<(), Fail> {
    play(&rt, rt.alloc(), &MOVES)
}

/// Four pages, the last of which is not mapped, go over four others.
const REPLACED: Steps<15> = [
    (Map(0x10, 2, Prot::Read), Done),
    (Map(0x12, 2, Prot::ReadWrite), Done),
    (Map(0x20, 4, Prot::NoAccess), Done),
    (Map(0x24, 1, Prot::ReadWrite), Done),
    (Pages, Picture(*b"rrww............nnnnw...........")),
    (OneProt(0x11, 2), Answer::Prot(None)),
    (Move(0x11, 0x21, 4), Done),
    (Pages, Picture(*b"r...............nrww............")),
    (MappedPages, Count(5)),
    (OneProt(0x10, 1), Answer::Prot(READ)),
    (ProtAt(0x11), Answer::Prot(None)),
    (ProtAt(0x20), Answer::Prot(Some(Prot::NoAccess))),
    (ProtAt(0x21), Answer::Prot(READ)),
    (OneProt(0x22, 2), Answer::Prot(WRITE)),
    (ProtAt(0x24), Answer::Prot(None)),
];

#[test]
fn a_move_replaces_what_it_meets(rt: HostRuntime) -> Result<(), Fail> {
    play(&rt, rt.alloc(), &REPLACED)
}

const FOUR_READ: Area = Area {
    first: 0x10,
    count: 4,
    prot: Prot::Read,
};

/// A range goes over another, back to where it joins its neighbours, to a longer one, and to a page of its own.
const RELOCATED: Steps<20> = [
    (Room, Done),
    (MappedPages, Count(0)),
    (Map(0x10, 4, Prot::Read), Done),
    (Map(0x14, 2, Prot::ReadWrite), Done),
    (Map(0x20, 4, Prot::NoAccess), Done),
    (Room, Done),
    (MappedPages, Count(10)),
    (Pages, Picture(*b"rrrrww..........nnnn............")),
    (Relocate(0x11, 2, 0x21, 2, Prot::Read), Done),
    (Pages, Picture(*b"r..rww..........nrrn............")),
    (MappedPages, Count(8)),
    (Relocate(0x21, 2, 0x11, 2, Prot::Read), Done),
    (Pages, Picture(*b"rrrrww..........n..n............")),
    (Call::Area(0), Answer::Area(Some(FOUR_READ))),
    (Relocate(0x14, 2, 0x28, 4, Prot::ReadWrite), Done),
    (Pages, Picture(*b"rrrr............n..n....wwww....")),
    (MappedPages, Count(10)),
    (Relocate(0x28, 4, 0x2a, 1, Prot::ReadWrite), Done),
    (Pages, Picture(*b"rrrr............n..n......w.....")),
    (MappedPages, Count(7)),
];

#[test]
fn areas_are_relocated_in_their_room(rt: HostRuntime) -> Result<(), Fail> {
    play(&rt, rt.alloc(), &RELOCATED)
}

const COUNTED: Steps<12> = [
    (MappedIn(0, 0x10_0000), Count(0)),
    (Map(0x10, 2, Prot::Read), Done),
    (Map(0x13, 2, Prot::ReadWrite), Done),
    (Map(0x15, 1, Prot::Read), Done),
    (MappedIn(0, 0x10_0000), Count(5)),
    (MappedIn(0x10, 6), Count(5)),
    (MappedIn(0x11, 3), Count(2)),
    (MappedIn(0x14, 16), Count(2)),
    (MappedIn(0x12, 1), Count(0)),
    (MappedIn(0x11, 0), Count(0)),
    (MappedIn(0, 0x10), Count(0)),
    (MappedIn(0x16, 0xf_ffea), Count(0)),
];

#[test]
fn the_mapped_pages_of_a_range_are_counted(rt: HostRuntime) -> Result<(), Fail> {
    play(&rt, rt.alloc(), &COUNTED)
}

const FULL: Steps<7> = [
    (Map(0, 0x10_0000, Prot::ReadWrite), Done),
    (MappedPages, Count(0x10_0000)),
    (Gap(1), At(None)),
    (ProtAt(0xf_ffff), Answer::Prot(WRITE)),
    (ProtAt(0x10_0000), Answer::Prot(None)),
    (Unmap(0xf_ffff, 1), Done),
    (Gap(1), At(Some(0xffff_f000))),
];

#[test]
fn the_address_space_fills(rt: HostRuntime) -> Result<(), Fail> {
    play(&rt, rt.alloc(), &FULL)
}

/// Enough areas for their list to grow more than once.
const SPLIT: Steps<14> = [
    (Map(0x10, 32, Prot::Read), Done),
    (Map(0x12, 1, Prot::ReadWrite), Done),
    (Unmap(0x14, 1), Done),
    (Map(0x16, 1, Prot::ReadWrite), Done),
    (Unmap(0x18, 1), Done),
    (Map(0x1a, 1, Prot::ReadWrite), Done),
    (Unmap(0x1c, 1), Done),
    (Map(0x1e, 1, Prot::ReadWrite), Done),
    (Unmap(0x20, 1), Done),
    (MappedPages, Count(28)),
    (Pages, Picture(*b"rrwr.rwr.rwr.rwr.rrrrrrrrrrrrrrr")),
    (Map(0x11, 16, Prot::ReadWrite), Done),
    (MappedPages, Count(32)),
    (Pages, Picture(*b"rwwwwwwwwwwwwwwwwrrrrrrrrrrrrrrr")),
];

#[test]
fn areas_split_and_join(rt: HostRuntime) -> Result<(), Fail> {
    play(&rt, rt.alloc(), &SPLIT)
}

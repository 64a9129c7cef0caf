//! Draws of commands.

ghost use Rattle.std.specs.Prelude.{◌≡◌, ◌<◌, ◌≤◌, ◌+◌};

use crate::course::{Course, Memo};
use crate::random::{below, in_share};
use mig_base::{Addr, Command, HIGH_PAGE, LOW_PAGE, PAGE_SIZE, PageNo, PageSet, Place, Prot};
use rand_core::Rng;
use world::World;

/// Where the slots of a page begin, each of 8 bytes. Loads and stores are drawn at these places alone, so that they meet.
pub(crate) const SLOTS: [u64; 4] = [0, 0x558, 0xaa8, 0xff8];

/// Of 16 accesses, those that load.
const LOADS: u8 = 8;

/// A page of those from which commands draw.
pub(crate) fn draw_page<R: Rng>(rng: &mut R, course: &Course) -> PageNo
    ensures { result < 0x10_0000 }
{
    LOW_PAGE + below(rng, u32::from(course.pages))
}

/// A page of a set, or any page if it is empty.
pub(crate) fn draw_of<R: Rng>(rng: &mut R, course: &Course, pages: &PageSet) -> PageNo
    ensures { result < 0x10_0000 }
{
    let from = draw_page(rng, course);
    let above = pages.next_member(from);
    if above < HIGH_PAGE {
        return above;
    }
    let first = pages.next_member(0);
    if first < HIGH_PAGE { first } else { from }
}

/// Where a page of the source is owed now, or the page itself if it is not owed.
fn home_of(world: &World, page: PageNo) -> PageNo {
    world.owed().home(page).unwrap_or(page)
}

/// The first address of a page that a command names: often one that is owed or in flight, wherever it was moved, or the one that was
/// installed last.
fn draw_address<R: Rng>(rng: &mut R, course: &Course, memo: &Memo, world: &World) -> Addr {
    let page = match below(rng, 8) {
        0..=1 => home_of(world, memo.sent),
        2..=3 => home_of(world, draw_of(rng, course, world.remaining())),
        4 => memo.installed.unwrap_or(draw_page(rng, course)),
        _ => draw_page(rng, course),
    };
    u64::from(page) * PAGE_SIZE
}

/// Where a range is moved: mostly to one of as many pages after those from which commands draw, so that it replaces little.
fn draw_target<R: Rng>(rng: &mut R, course: &Course, memo: &Memo, world: &World) -> Addr {
    match below(rng, 4) {
        0 => draw_address(rng, course, memo, world),
        _ => u64::from(draw_page(rng, course) + u32::from(course.pages)) * PAGE_SIZE,
    }
}

/// The bytes of a few pages.
fn draw_len<R: Rng>(rng: &mut R) -> u64
    ensures { result < 0x10_0000 }
{
    let pages = match below(rng, 8) {
        0..=3 => 1,
        4..=5 => 2,
        _ => below(rng, 5),
    };
    match below(rng, 32) {
        0 => u64::from(pages) * PAGE_SIZE + 1,
        _ => u64::from(pages) * PAGE_SIZE,
    }
}

/// What a new mapping permits, mostly loads and stores.
fn draw_prot<R: Rng>(rng: &mut R) -> Prot {
    match below(rng, 16) {
        0 => Prot::NoAccess,
        1..=2 => Prot::Read,
        _ => Prot::ReadWrite,
    }
}

/// A slot of a page.
fn draw_slot<R: Rng>(rng: &mut R, page: Addr) -> Addr {
    let slot = below(rng, 4);
    page.saturating_add(SLOTS[slot as usize])
}

/// The bytes that a load or a store touches.
fn draw_width<R: Rng>(rng: &mut R) -> u8 {
    match below(rng, 8) {
        0 => 1,
        1 => 2,
        2..=3 => 4,
        _ => 8,
    }
}

/// A load: mostly of a slot that was stored to lately, or of one of the page that was installed last.
fn draw_load<R: Rng>(rng: &mut R, memo: &Memo, page: Addr) -> Command {
    let addr = match (below(rng, 8), memo.installed) {
        (0..=2, _) => memo.stored[below(rng, 8) as usize],
        (3..=6, Some(installed)) => draw_slot(rng, u64::from(installed) * PAGE_SIZE),
        _ => draw_slot(rng, page),
    };
    Command::Load {
        addr,
        width: draw_width(rng),
    }
}

/// The value of a store: the number of its page above that of its line, each cut to half of the width. A value of one byte has the line
/// alone.
fn value_of(page: Addr, line: u64, width: u8) -> u64 {
    let page = page / PAGE_SIZE;
    match width {
        1 => line % 0x100,
        2 => page % 0x100 * 0x100 + line % 0x100,
        4 => page % 0x1_0000 * 0x1_0000 + line % 0x1_0000,
        _ => page % 0x1_0000_0000 * 0x1_0000_0000 + line % 0x1_0000_0000,
    }
}

/// A store whose value names its page and its line.
fn draw_store<R: Rng>(rng: &mut R, page: Addr, line: u64) -> Command {
    let width = draw_width(rng);
    Command::Store {
        addr: draw_slot(rng, page),
        width,
        value: value_of(page, line, width),
    }
}

/// Whether accesses of a page only load, so that some pages are present with zeros: of eight pages one.
fn is_loaded_only(page: Addr) -> bool {
    page / PAGE_SIZE % 8 == 7
}

/// A load or a store. No byte at the beginning of a slot that was stored to is 0, so a load of any width shows it: the lines whose numbers
/// end in a byte of 0 have no store.
fn draw_access<R: Rng>(rng: &mut R, memo: &Memo, page: Addr, loads: u8) -> Command {
    let line = memo.number();
    if line % 0x100 == 0 || is_loaded_only(page) || in_share(rng, loads) {
        return draw_load(rng, memo, page);
    }
    draw_store(rng, page, line)
}

/// A load or store whose form is wrong, or that goes outside of the address space.
fn draw_bad_access<R: Rng>(rng: &mut R, page: Addr) -> Command {
    match below(rng, 4) {
        0 => Command::Load {
            addr: page.saturating_add(1),
            width: 2,
        },
        1 => Command::Load {
            addr: page,
            width: 3,
        },
        2 => Command::Store {
            addr: page,
            width: 1,
            value: 256,
        },
        _ => Command::Load { addr: 0, width: 8 },
    }
}

/// A place for a new mapping.
fn draw_place<R: Rng>(rng: &mut R, page: Addr) -> Place {
    match below(rng, 8) {
        0 => Place::Anywhere,
        1..=4 => Place::NoReplace(page),
        _ => Place::Fixed(page),
    }
}

/// A move of a range to another page, or its growth.
fn draw_move<R: Rng>(rng: &mut R, page: Addr, other: Addr) -> Command {
    let old_len = match below(rng, 4) {
        0 => draw_len(rng),
        _ => PAGE_SIZE,
    };
    let new_len = match below(rng, 8) {
        0 => draw_len(rng),
        _ => old_len,
    };
    let fixed = match below(rng, 8) {
        0..=1 => None,
        2 => Some(other),
        _ if other == page => None,
        _ => Some(other),
    };
    Command::Mremap {
        addr: page,
        old_len,
        new_len,
        may_move: below(rng, 16) > 0,
        fixed,
    }
}

/// A call that changes mappings, or clears pages.
fn draw_map_call<R: Rng>(rng: &mut R, page: Addr, other: Addr) -> Command {
    match below(rng, 16) {
        0..=7 => draw_move(rng, page, other),
        8 => Command::Munmap {
            addr: page,
            len: draw_len(rng),
        },
        9 => Command::DontNeed {
            addr: page,
            len: draw_len(rng),
        },
        _ => Command::Mmap {
            addr_len: draw_len(rng),
            prot: draw_prot(rng),
            place: draw_place(rng, page),
        },
    }
}

/// What a processor does: in `maps` of 16 draws a map call. The first line of a script maps its pages, and those after it fill them.
pub(crate) fn draw_command<R: Rng>(
    rng: &mut R,
    course: &Course,
    memo: &Memo,
    maps: u8,
    world: &World,
) -> Command {
    if memo.line == 0 {
        return Command::Mmap {
            addr_len: u64::from(course.pages) * PAGE_SIZE,
            prot: Prot::ReadWrite,
            place: Place::Anywhere,
        };
    }
    if memo.line <= course.fill {
        let page = LOW_PAGE + (memo.line % u64::from(course.pages)) as PageNo;
        return draw_access(rng, memo, u64::from(page) * PAGE_SIZE, 0);
    }
    let page = draw_address(rng, course, memo, world);
    if in_share(rng, maps) {
        let other = draw_target(rng, course, memo, world);
        return draw_map_call(rng, page, other);
    }
    match below(rng, 64) {
        0 => draw_bad_access(rng, page),
        _ => draw_access(rng, memo, page, LOADS),
    }
}

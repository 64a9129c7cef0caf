//! Sets of pages and areas for frames, of two ranges each, and Packages of them; and bytes that are put together and compared.

ghost use Rattle.std.specs.Prelude.{◌+◌, ◌≤◌};
ghost use Rattle.mig_base.specs.declared.TheConstants.{HIGH_PAGE as END};

use area_map::AreaMap;
use mig_base::{HIGH_PAGE, NoMemory, PageNo, PageSet, Prot};
use page_stream::{Frame, Waiting};
use std::alloc::Global;
use std::process::Abort;

/// Two ranges of pages, each a first page and a count. It is a pair and no array: the tables are statics, which cannot be borrowed where
/// they hold arrays of these.
pub type Ranges = ((PageNo, u32), (PageNo, u32));

/// The same with the protection of each.
pub type Areas = ((PageNo, u32, Prot), (PageNo, u32, Prot));

pub const NONE: Ranges = ((0, 0), (0, 0));

/// Stops unless a range ends at `HIGH_PAGE` or below, as the calls require.
fn inside(rt: &impl Abort, first: PageNo, count: u32)
    ensures { first + count ≤ END }
{
    assert!(rt; first <= HIGH_PAGE && count <= HIGH_PAGE - first);
}

fn insert(
    rt: &impl Abort,
    pages: &mut PageSet,
    (first, count): (PageNo, u32),
) -> Result<(), NoMemory> {
    inside(rt, first, count);
    pages.insert_range(first, count)
}

pub fn set(rt: &impl Abort, alloc: Global, ranges: Ranges) -> Result<PageSet, NoMemory> {
    let (first, second) = ranges;
    let mut pages = PageSet::new(alloc);
    insert(rt, &mut pages, first)?;
    insert(rt, &mut pages, second)?;
    Ok(pages)
}

fn map(
    rt: &impl Abort,
    areas: &mut AreaMap,
    (first, count, prot): (PageNo, u32, Prot),
) -> Result<(), NoMemory> {
    inside(rt, first, count);
    areas.map(first, count, prot)
}

fn areas(rt: &impl Abort, alloc: Global, mapped: Areas) -> Result<AreaMap, NoMemory> {
    let (first, second) = mapped;
    let mut areas = AreaMap::new(alloc);
    map(rt, &mut areas, first)?;
    map(rt, &mut areas, second)?;
    Ok(areas)
}

/// A Package of what is mapped and owed, and of what the processors wait for.
pub fn package(
    rt: &impl Abort,
    alloc: Global,
    mapped: Areas,
    owed: Ranges,
    commands: Waiting,
) -> Result<Frame, NoMemory> {
    let areas = areas(rt, alloc, mapped)?;
    let owed = set(rt, alloc, owed)?;
    Ok(Frame::Package {
        areas,
        owed,
        commands,
    })
}

/// Puts bytes after others, at the second try where memory is refused.
pub fn append(rt: &impl Abort, bytes: &mut Vec<u8>, more: &[u8]) {
    if bytes.extend_from_slice(more).is_err() {
        bytes.extend_from_slice(more).expect(rt, "a second time");
    }
}

/// Puts a byte after others as many times, at the second try where memory is refused.
pub fn fill(rt: &impl Abort, bytes: &mut Vec<u8>, byte: u8, count: usize) {
    let len = bytes.len().saturating_add(count);
    if bytes.resize(len, byte).is_err() {
        bytes.resize(len, byte).expect(rt, "a second time");
    }
}

/// Stops unless bytes are those that are wanted.
pub fn same_bytes(rt: &impl Abort, bytes: &[u8], wanted: &[u8]) {
    assert_eq!(rt; bytes, wanted);
}

/// Stops unless a number is the one that is wanted.
pub fn same_number(rt: &impl Abort, number: usize, wanted: usize) {
    assert_eq!(rt; number, wanted);
}

/// Stops unless what is wanted of a row of a table holds, and prints which row it is.
pub fn holds(rt: &impl Abort, is_so: bool, what: &str, row: usize) {
    assert!(rt; is_so, "{what} {row}");
}

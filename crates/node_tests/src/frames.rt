//! Frames that a table sends, and what a table says of a frame.

use crate::ranges::inside;
use area_map::AreaMap;
use mig_base::phase::Received;
use mig_base::{Command, NoMemory, PAGE_BYTES, PageBytes, PageNo, PageSet, Prot};
use page_stream::{Frame, Pages, Waiting};
use std::alloc::Global;
use std::process::Abort;

/// A first page, and how many they are.
pub type Range = (PageNo, u32);

/// A frame to be made.
#[derive(Clone, Copy)]
pub enum Sending {
    Advise,
    /// A page, each of whose bytes is this one.
    Page(PageNo, u8),
    Zero(PageNo),
    /// The first page, how many they are, and each byte of the first. Those of the next page are one more, and so on.
    Run(PageNo, u8, u8),
    Discard(Range),
    /// The pages that are mapped, to be read and written, and those that are owed; how many processors there are, and what the first
    /// waits for.
    Package(Range, Range, usize, Option<Command>),
    End(u32),
    Resume,
    Request(PageNo),
    Recv,
    Done,
}

/// A frame, as far as a table says it.
#[derive(Clone, Copy, PartialEq, Eq)]
pub enum Brief {
    Advise,
    /// A page with its first byte.
    Page(PageNo, Option<u8>),
    Zero(PageNo),
    /// The first page, and how many they are.
    Run(PageNo, usize),
    Discard(Range),
    /// How many pages are mapped, those that are owed, and how many processors there are.
    Package(u32, Range, usize),
    End(u32),
    Resume,
    Request(PageNo),
    Recv(Received, Range),
    Done,
}

/// The first page of a set that has none.
pub const NOWHERE: PageNo = 0x10_0000;

/// No page.
pub const NONE: Range = (NOWHERE, 0);

fn page_of(alloc: Global, byte: u8) -> Result<PageBytes, NoMemory> {
    PageBytes::copy_of(alloc, &[byte; PAGE_BYTES])
}

fn pages_of(alloc: Global, count: u8, first: u8) -> Result<Pages, NoMemory> {
    let mut pages = Vec::new(alloc);
    for i in 0..count {
        pages.push(page_of(alloc, first.wrapping_add(i))?)?;
    }
    Ok(Pages::new(pages))
}

/// The pages of a range.
pub fn set_of(rt: &impl Abort, alloc: Global, range: Range) -> Result<PageSet, NoMemory> {
    let (first, count) = range;
    inside(rt, first, count);
    let mut pages = PageSet::new(alloc);
    pages.insert_range(first, count)?;
    Ok(pages)
}

fn areas_of(rt: &impl Abort, alloc: Global, range: Range) -> Result<AreaMap, NoMemory> {
    let (first, count) = range;
    inside(rt, first, count);
    let mut areas = AreaMap::new(alloc);
    areas.map(first, count, Prot::ReadWrite)?;
    Ok(areas)
}

/// `count` processors, of which the first waits for the command, and no other waits.
fn waiting(alloc: Global, count: usize, command: Option<Command>) -> Result<Waiting, NoMemory> {
    let mut commands = vec![in alloc; None; count]?;
    if let Some(first) = commands.first_mut() {
        *first = command;
    }
    Ok(Waiting::new(commands))
}

fn page(alloc: Global, page: PageNo, byte: u8) -> Result<Frame, NoMemory> {
    let bytes = page_of(alloc, byte)?;
    Ok(Frame::Page { page, bytes })
}

fn run(alloc: Global, first: PageNo, count: u8, byte: u8) -> Result<Frame, NoMemory> {
    let pages = pages_of(alloc, count, byte)?;
    Ok(Frame::Run { first, pages })
}

fn discard(rt: &impl Abort, alloc: Global, range: Range) -> Result<Frame, NoMemory> {
    let pages = set_of(rt, alloc, range)?;
    Ok(Frame::Discard { pages })
}

fn package(
    rt: &impl Abort,
    alloc: Global,
    mapped: Range,
    owed: Range,
    (count, command): (usize, Option<Command>),
) -> Result<Frame, NoMemory> {
    let commands = waiting(alloc, count, command)?;
    let owed = set_of(rt, alloc, owed)?;
    let areas = areas_of(rt, alloc, mapped)?;
    Ok(Frame::Package {
        areas,
        owed,
        commands,
    })
}

/// Makes a frame.
pub fn frame_of(rt: &impl Abort, alloc: Global, sending: Sending) -> Result<Frame, NoMemory> {
    match sending {
        Sending::Advise => Ok(Frame::Advise),
        Sending::Page(number, byte) => page(alloc, number, byte),
        Sending::Zero(page) => Ok(Frame::Zero { page }),
        Sending::Run(first, count, byte) => run(alloc, first, count, byte),
        Sending::Discard(range) => discard(rt, alloc, range),
        Sending::Package(mapped, owed, count, command) => {
            package(rt, alloc, mapped, owed, (count, command))
        }
        Sending::End(urgent) => Ok(Frame::End { urgent }),
        Sending::Resume => Ok(Frame::Resume),
        Sending::Request(page) => Ok(Frame::Request { page }),
        Sending::Recv => Ok(Frame::Recv {
            state: Received::NotRun,
            owed: PageSet::new(alloc),
        }),
        Sending::Done => Ok(Frame::Done),
    }
}

fn range_of(pages: &PageSet) -> Range {
    (pages.next_member(0), pages.len())
}

impl Brief {
    pub fn of(frame: &Frame) -> Self {
        match frame {
            Frame::Advise => Brief::Advise,
            Frame::Page { page, bytes } => Brief::Page(*page, bytes.as_array().first().copied()),
            Frame::Zero { page } => Brief::Zero(*page),
            Frame::Run { first, pages } => Brief::Run(*first, pages.len()),
            Frame::Discard { pages } => Brief::Discard(range_of(pages)),
            Frame::Package {
                areas,
                owed,
                commands,
            } => Brief::Package(
                areas.mapped_pages(),
                range_of(owed),
                commands.as_slice().len(),
            ),
            Frame::End { urgent } => Brief::End(*urgent),
            Frame::Resume => Brief::Resume,
            Frame::Request { page } => Brief::Request(*page),
            Frame::Recv { state, owed } => Brief::Recv(*state, range_of(owed)),
            Frame::Done => Brief::Done,
        }
    }

    /// The first three of a list of frames.
    pub fn of_first(frames: &[Frame]) -> (Option<Self>, Option<Self>, Option<Self>) {
        match frames {
            [] => (None, None, None),
            [one] => (Some(Brief::of(one)), None, None),
            [one, two] => (Some(Brief::of(one)), Some(Brief::of(two)), None),
            [one, two, three, ..] => (
                Some(Brief::of(one)),
                Some(Brief::of(two)),
                Some(Brief::of(three)),
            ),
        }
    }
}

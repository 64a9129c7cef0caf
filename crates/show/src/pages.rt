//! The pages of both nodes.

use crate::what::Span;
use mig_base::schedule::Side;
use mig_base::{
    Addr, Area, HIGH_PAGE, NoMemory, PAGE_BYTES, PAGE_SIZE, PageNo, Prot, page_address,
};
use std::alloc::Global;
use uffd_ioctl::Space;
use world::World;

/// The most words of a page that are written.
const MOST_WORDS: usize = 4;

/// The bytes of a word.
const WORD: usize = 8;

/// Some neighbouring pages: from `first` up to, and without, `end`.
#[derive(Clone, Copy)]
struct Pages {
    first: PageNo,
    end: PageNo,
}

impl Pages {
    /// The pages that have a byte in a range; all where none is given.
    fn of(range: Option<Span>) -> Pages {
        let Some(Span { start, end }) = range else {
            return Pages {
                first: 0,
                end: HIGH_PAGE,
            };
        };
        let high = u64::from(HIGH_PAGE);
        Pages {
            first: (start / PAGE_SIZE).min(high) as PageNo,
            end: end.div_ceil(PAGE_SIZE).min(high) as PageNo,
        }
    }

    /// Those of them that an area has.
    fn within(self, area: &Area) -> Pages {
        Pages {
            first: self.first.max(area.first),
            end: self.end.min(area.first.saturating_add(area.count)),
        }
    }
}

/// The words of a page that are not 0, each with its address.
pub(crate) fn words_of(
    alloc: Global,
    page: PageNo,
    bytes: &[u8; PAGE_BYTES],
) -> Result<Vec<(Addr, u64)>, NoMemory> {
    let mut words = Vec::new(alloc);
    for (index, chunk) in bytes.chunks_exact(WORD).enumerate() {
        let mut word = [0u8; WORD];
        word.copy_from_slice(chunk);
        let value = u64::from_le_bytes(word);
        if value != 0 {
            let addr = page_address(page).saturating_add((index as u64).saturating_mul(8));
            words.push((addr, value))?;
        }
    }
    Ok(words)
}

/// Appends the first of the words of a page that are not 0, and how many there are more.
fn write_words(text: &mut String, words: &[(Addr, u64)]) -> Result<(), NoMemory> {
    for (addr, value) in words.iter().take(MOST_WORDS) {
        write!(text, ", 0x{addr:x} has 0x{value:x}")?;
    }
    if words.is_empty() {
        write!(text, ", zeros")?;
    }
    if words.len() > MOST_WORDS {
        let more = words.len().saturating_sub(MOST_WORDS);
        write!(text, ", and {more} words more")?;
    }
    Ok(())
}

/// The word of a protection.
pub(crate) fn word_of(prot: Prot) -> &'static str {
    match prot {
        Prot::NoAccess => "none",
        Prot::Read => "r",
        Prot::ReadWrite => "rw",
    }
}

/// How a page is registered.
fn registration(space: &Space, page: PageNo) -> &'static str {
    let mode = space.mode_at(page);
    match (mode.missing, mode.protect) {
        (true, true) => ", registered missing write-protect",
        (true, false) => ", registered missing",
        (false, true) => ", registered write-protect",
        (false, false) => "",
    }
}

/// What the source knows of a page: it is still to be pushed, was pushed and is owed, or is as it was sent.
pub(crate) fn place_in_source(world: &World, page: PageNo) -> Option<&'static str> {
    if world.remaining().contains(page) {
        Some("to push")
    } else if world.owed().home(page).is_some() {
        Some("pushed")
    } else if world.dirty_log().clean().contains(page) {
        Some("clean")
    } else {
        None
    }
}

/// Appends what only one of the nodes knows of a page.
fn write_of_node(
    text: &mut String,
    world: &World,
    node: Side,
    page: PageNo,
) -> Result<(), NoMemory> {
    match node {
        Side::Source => {
            if let Some(place) = place_in_source(world, page) {
                write!(text, ", {place}")?;
            }
        }
        Side::Destination => {
            if let Some(origin) = world.owed().origin(page) {
                let from = page_address(origin);
                write!(text, ", owed from 0x{from:x}")?;
            }
        }
    }
    Ok(())
}

/// The address space of a node.
pub(crate) fn space_of(world: &World, node: Side) -> &Space {
    match node {
        Side::Source => world.source_space(),
        Side::Destination => world.destination_space(),
    }
}

/// Appends the line of a page that is mapped.
fn write_page(
    text: &mut String,
    world: &World,
    node: Side,
    page: PageNo,
    prot: Prot,
) -> Result<(), NoMemory> {
    let space = space_of(world, node);
    let addr = page_address(page);
    let prot = word_of(prot);
    let registered = registration(space, page);
    write!(text, "{node} page 0x{addr:x}: {prot}{registered}")?;
    write_of_node(text, world, node, page)?;
    match space.page(page) {
        None => write!(text, ", missing")?,
        Some(bytes) => {
            let protected = if space.is_protected(page) {
                ", present, write-protected"
            } else {
                ", present"
            };
            write!(text, "{protected}")?;
            write_words(text, &words_of(*text.allocator(), page, bytes)?)?;
        }
    }
    write!(text, "\n")?;
    Ok(())
}

/// The pages of a range that a node has mapped, each with its protection.
pub(crate) fn mapped_pages(
    alloc: Global,
    world: &World,
    node: Side,
    range: Option<Span>,
) -> Result<Vec<(PageNo, Prot)>, NoMemory> {
    let pages = Pages::of(range);
    let mut mapped = Vec::new(alloc);
    for area in space_of(world, node).areas()?.areas() {
        let within = pages.within(area);
        for page in within.first..within.end {
            mapped.push((page, area.prot))?;
        }
    }
    Ok(mapped)
}

/// Appends the line of each of some pages of a node that are mapped.
fn write_mapped(
    text: &mut String,
    world: &World,
    node: Side,
    mapped: &[(PageNo, Prot)],
) -> Result<(), NoMemory> {
    for (page, prot) in mapped {
        write_page(text, world, node, *page, *prot)?;
    }
    Ok(())
}

/// Appends how many pages of a range each node has mapped, and each of them.
pub(crate) fn write_pages(
    alloc: Global,
    text: &mut String,
    world: &World,
    range: Option<Span>,
) -> Result<(), NoMemory> {
    let source = mapped_pages(alloc, world, Side::Source, range)?;
    let destination = mapped_pages(alloc, world, Side::Destination, range)?;
    let (at_source, at_destination) = (source.len(), destination.len());
    write!(text, "pages source {at_source} dest {at_destination}\n")?;
    write_mapped(text, world, Side::Source, &source)?;
    write_mapped(text, world, Side::Destination, &destination)
}

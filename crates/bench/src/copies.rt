//! The loops beside which the parts are timed: pages that are copied to other pages, which are there or are new.

use mig_base::{NoMemory, PAGE_BYTES, PageBytes};
use std::alloc::Global;

/// This many pages, each with something on it.
pub fn filled(alloc: Global, pages: u32, byte: u8) -> Result<Vec<PageBytes>, NoMemory> {
    let mut filled = Vec::new(alloc);
    for _ in 0..pages {
        filled.push(PageBytes::copy_of(alloc, &[byte; PAGE_BYTES])?)?;
    }
    Ok(filled)
}

/// Copies each page to the page in its place.
pub fn copy(sources: &[PageBytes], targets: &mut [PageBytes]) {
    for (source, target) in sources.iter().zip(targets) {
        target.copy_from(source.as_array());
    }
}

/// Copies each page to the page at its index, and from there to the targets, one batch of them at a time; does so `rounds` times.
pub fn copy_twice(
    sources: &[PageBytes],
    middles: &mut [PageBytes],
    targets: &mut [PageBytes],
    rounds: u32,
) {
    for _ in 0..rounds {
        copy(sources, middles);
        for piece in middles.chunks(targets.len().max(1)) {
            copy(piece, targets);
        }
    }
}

/// Copies each page to a new page. As at a destination, all copies are there in the end.
pub fn copy_to_new(alloc: Global, sources: &[PageBytes]) -> Result<Vec<PageBytes>, NoMemory> {
    let mut copies = Vec::with_capacity(alloc, sources.len())?;
    for source in sources {
        copies.push(PageBytes::copy_of(alloc, source.as_array())?)?;
    }
    Ok(copies)
}

/// Copies each page to a new page that is dropped at once, and counts those that have something then.
pub fn copy_and_drop(alloc: Global, sources: &[PageBytes]) -> Result<u32, NoMemory> {
    let mut count = 0_u32;
    for source in sources {
        let copy = PageBytes::copy_of(alloc, source.as_array())?;
        count = count.saturating_add(u32::from(copy.as_array()[0]));
    }
    Ok(count)
}

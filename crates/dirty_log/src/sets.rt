//! Removing pages from a set.

ghost use Rattle.std.specs.Prelude.{◌≡◌, ◌+◌, not};
ghost use Rattle.std.specs.FinSet as set;
ghost use Rattle.mig_model.specs.Guest.{in_bytes};
ghost use Rattle.mig_model.specs.Log.{less, unchanged};

use mig_base::{Addr, HIGH_PAGE, Message, PAGE_SIZE, PageSet, end_page};

/// Removes the pages of another set, run by run.
pub fn subtract(pages: &mut PageSet, other: &PageSet)
    ensures { pages.new ≡ less pages.old other.now }
{
    for run in other.runs() {
        pages.remove_range(run.first, run.count);
    }
}

/// Removes the pages that an event changed.
pub fn remove_changed(pages: &mut PageSet, event: Message)
    ensures { pages.new ≡ unchanged pages.old event }
{
    match event {
        Message::PageFault { .. } => {}
        Message::Remap { from, to, len } => {
            remove_span(pages, from, len);
            remove_span(pages, to, len);
        }
        Message::Remove { start, end } | Message::Unmap { start, end } => {
            remove_span(pages, start, end.saturating_sub(start));
        }
    }
}

/// Removes the pages from that of address `start` up to, but not including, that of `start + len`, which may lie past the address space.
fn remove_span(pages: &mut PageSet, start: Addr, len: u64)
    ensures { pages.new ≡ set.retain pages.old (λ page. not (in_bytes start (start + len) page)) }
{
    pages.ends_by_high_page();
    let high = u64::from(HIGH_PAGE);
    let first = (start / PAGE_SIZE).min(high);
    let end = end_page(start, len).min(high);
    pages.remove_range(first as u32, (end - first) as u32);
}

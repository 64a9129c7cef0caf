//! The rules of well-formed frames.

ghost use Rattle.std.specs.Prelude.{◌↔◌, length, IsTrue};
ghost use Rattle.mig_model.specs.Bounds.{AreFewPages, ArePages, AreRightAccesses, IsCpuCount, IsFrame, IsMapping, IsPage};
ghost use Rattle.page_stream.specs.Frames.{frame_of};
ghost use Rattle.page_stream.specs.Rules.{IsProperWait, IsRunOf};

use crate::frame::Frame;
use crate::lists::Pages;
use area_map::AreaMap;
use mig_base::command::{fits, is_aligned};
use mig_base::{Command, HIGH_PAGE, LOW_PAGE, MAX_CPUS, MAX_PAGES, MAX_RUN, PageNo, PageSet};

impl Frame {
    /// Whether it may be sent. Its pages lie from `LOW_PAGE` up to `HIGH_PAGE`. No map has more than `MAX_PAGES` pages, and no set but
    /// that of a Discard. A run has 1 to `MAX_RUN` pages. A Package has 1 to `MAX_CPUS` processors, and each of them waits for nothing,
    /// for an aligned load, or for an aligned store whose value fits its width.
    ///
    /// It takes no memory, and tests whole sets and maps, not page by page.
    pub fn is_well_formed(&self) -> bool
        ensures { IsTrue result ↔ IsFrame (frame_of self.now) }
    {
        match self {
            Frame::Advise | Frame::Resume | Frame::Done => true,
            Frame::End { urgent } => {
                // Any number of its type will do.
                let _urgent = *urgent;
                true
            }
            Frame::Page { page, bytes } => {
                bytes.are_whole();
                is_page(*page)
            }
            Frame::Zero { page } | Frame::Request { page } => is_page(*page),
            Frame::Run { first, pages } => is_run(*first, pages),
            Frame::Discard { pages } => are_pages(pages),
            Frame::Package {
                areas,
                owed,
                commands,
            } => { is_mapping(areas) && are_few_pages(owed) && are_commands(commands.as_slice()) }
            Frame::Recv { owed, .. } => are_few_pages(owed),
        }
    }
}

/// Whether a page may be mapped.
fn is_page(page: PageNo) -> bool
    ensures { IsTrue result ↔ IsPage page }
{
    LOW_PAGE <= page && page < HIGH_PAGE
}

/// Whether the pages may be sent as one run: there are 1 to `MAX_RUN`, and each may be mapped.
fn is_run(first: PageNo, pages: &Pages) -> bool
    ensures { IsTrue result ↔ IsRunOf first pages.now }
{
    pages.are_whole();
    let count = pages.len();
    0 < count
        && count <= usize::from(MAX_RUN)
        && LOW_PAGE <= first
        && first < HIGH_PAGE
        && count <= (HIGH_PAGE - first) as usize
}

/// Whether each page of a set may be mapped.
fn are_pages(pages: &PageSet) -> bool
    ensures { IsTrue result ↔ ArePages pages.now }
{
    pages.ends_by_high_page();
    LOW_PAGE <= pages.next_member(0)
}

/// Whether the pages of a set may all be mapped at once.
fn are_few_pages(pages: &PageSet) -> bool
    ensures { IsTrue result ↔ AreFewPages pages.now }
{
    are_pages(pages) && pages.len() <= MAX_PAGES
}

/// Whether each mapped page may be mapped, and there are at most `MAX_PAGES`.
fn is_mapping(areas: &AreaMap) -> bool
    ensures { IsTrue result ↔ IsMapping areas.now }
{
    areas.ends_by_high_page();
    areas.mapped_in(0, LOW_PAGE) == 0 && areas.mapped_pages() <= MAX_PAGES
}

/// Whether the list has an entry for each of 1 to `MAX_CPUS` processors, and each is nothing or a load or store of the right form.
fn are_commands(commands: &[Option<Command>]) -> bool
    ensures { IsTrue result ↔ (AreRightAccesses commands.now × IsCpuCount (length commands.now)) }
{
    !commands.is_empty() && commands.len() <= usize::from(MAX_CPUS) && are_right(commands)
}

/// Whether each entry is nothing or a load or store of the right form.
fn are_right(commands: &[Option<Command>]) -> bool
    ensures { IsTrue result ↔ AreRightAccesses commands.now }
{
    for command in commands {
        if !is_right(*command) {
            return false;
        }
    }
    true
}

/// Whether a processor waits for nothing, or for a load or store of the right form.
fn is_right(command: Option<Command>) -> bool
    ensures { IsTrue result ↔ IsProperWait command }
{
    match command {
        None => true,
        Some(Command::Load { addr, width }) => is_aligned(addr, width),
        Some(Command::Store { addr, width, value }) => is_aligned(addr, width)
            && fits(value, width),
        Some(_) => false,
    }
}

//! What a destination has at its pages: what its driver maps, gives back and puts.

ghost use Rattle.std.specs.Prelude.{◌≡◌, ◌⊎◌, ◌↔◌, ◌<◌, ◌≤◌, ◌≢◌, true};
ghost use Rattle.mig_base.specs.declared.TheConstants.{HIGH_PAGE};
ghost use Rattle.postmig_c.specs.NodeCalls.{HasNoDestination, TellsDestination};
ghost use Rattle.postmig_c.specs.Pages.{IsRunFrom, page_kind, run_kind, state_at};

use crate::commands::prot_number;
use crate::handle::{Content, Handle};
use crate::status::{DONE, NO_MEMORY, NO_PAGE, NOT_OPEN};
use area_map::AreaMap;
use fault_handler::Destination;
use mig_base::{HIGH_PAGE, NoMemory, PageNo};
use std::alloc::Global;

/// Neighbouring pages that are alike, in numbers.
#[repr(C)]
#[derive(Clone, Copy)]
pub struct PageRun {
    /// How many pages.
    pub count: u32,
    /// The protection of each: 0 none, 1 read, 2 read and write. 0 if they are not mapped.
    pub prot: u32,
    /// What they are: 0 not mapped, 1 missing, 2 present, 3 owed.
    pub state: u32,
}

/// The protection and the state of a page, as in a run.
#[derive(Clone, Copy)]
pub struct PageKind {
    pub prot: u32,
    pub state: u32,
}

/// What a mapped page is.
fn state_at(node: &Destination, page: PageNo) -> u32
    ensures { result ≡ state_at node.now page }
{
    if node.space().page(page).is_some() {
        2
    } else if node.owed().origin(page).is_some() {
        3
    } else {
        1
    }
}

/// The protection and the state of a page. The areas are those of the destination.
fn kind_at(node: &Destination, areas: &AreaMap, page: PageNo) -> PageKind
    requires { areas.now ≡ node.now.guest.space.host.areas }
    ensures { result ≡ page_kind node.now page }
{
    match areas.prot_at(page) {
        Some(prot) => PageKind {
            prot: prot_number(prot),
            state: state_at(node, page),
        },
        None => PageKind { prot: 0, state: 0 },
    }
}

/// Whether two pages are alike.
fn are_alike(one: PageKind, other: PageKind) -> bool
    ensures { (result ≡ true) ↔ (one ≡ other) }
{
    one.prot == other.prot && one.state == other.state
}

/// A run of pages of this kind.
fn run_of(count: u32, kind: PageKind) -> PageRun
    ensures count { result.count ≡ count }
    ensures kind { run_kind result ≡ kind }
{
    PageRun {
        count,
        prot: kind.prot,
        state: kind.state,
    }
}

/// The pages from `from` on that are like the first of them. The areas are those of the destination.
fn run_from(node: &Destination, areas: &AreaMap, from: PageNo) -> PageRun
    requires areas { areas.now ≡ node.now.guest.space.host.areas }
    requires page { from < HIGH_PAGE }
    ensures { IsRunFrom node.now from result }
{
    let kind = kind_at(node, areas, from);
    for page in from + 1..HIGH_PAGE {
        if !are_alike(kind_at(node, areas, page), kind) {
            return run_of(page - from, kind);
        }
    }
    run_of(HIGH_PAGE - from, kind)
}

/// The pages from `from` on that are alike, as a status.
fn show_run(node: &Destination, from: PageNo, run: &mut PageRun) -> u32
    ensures run { result ≡ 0 → IsRunFrom node.now from run.new }
    ensures no_page { (result ≡ 13) ↔ (HIGH_PAGE ≤ from) }
    ensures range { (result ≡ 0) ⊎ (result ≡ 4) ⊎ (result ≡ 13) }
{
    if HIGH_PAGE <= from {
        return NO_PAGE;
    }
    match node.space().areas() {
        Ok(areas) => {
            *run = run_from(node, &areas, from);
            DONE
        }
        Err(NoMemory) => NO_MEMORY,
    }
}

/// Says what the page `from` is, and how many pages from it on are alike. 13 from page 0x100000 on.
#[unsafe(no_mangle)]
pub extern "C" fn postmig_destination_pages(
    alloc: Global,
    handle: &mut Handle,
    from: PageNo,
    run: &mut PageRun,
) -> u32
    ensures run { result ≡ 0 →
        TellsDestination handle.old.content (λ old. IsRunFrom old.node from run.new) }
    ensures no_page { result ≢ 2 → (result ≡ 13) ↔ (HIGH_PAGE ≤ from) }
    ensures not_open { result ≡ 2 → HasNoDestination handle.old.content }
    ensures same { handle.new.content ≡ handle.old.content }
    ensures range { (result ≡ 0) ⊎ (result ≡ 2) ⊎ (result ≡ 4) ⊎ (result ≡ 13) }
{
    let Some(content) = handle.take(alloc) else {
        return NOT_OPEN;
    };
    let status = match &*content {
        Content::Destination(node) => show_run(node.node().node(), from, run),
        _ => NOT_OPEN,
    };
    *handle = Handle::of(content);
    status
}

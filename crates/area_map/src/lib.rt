//! Which pages of a host are mapped, and with which protection.
//!
//! [`AreaMap`] owns a finite map from pages to protections, kept as its maximal runs of one protection in order of their pages.
//! A look-up is a binary search, the number of mapped pages is kept, and a change edits the runs around its range in place.
//! [`RoomyAreas`] are the areas of a map with room for a move, which then takes no memory.
//!
//! The crate knows no bytes of a page, no rule of mmap(2), and no limit but the end of the address space: its callers decide
//! which range is mapped, and whether it may be.
#![tactic(auto)]

mod count;
mod edit;
mod gap;
mod moves;
mod room;
mod search;
mod within;

ghost use Rattle.std.specs.Prelude.{◌≡◌, ℕ, ◌+◌, ◌/◌, ◌≤◌, ◌<◌, ◌⊎◌, ◌↔◌, true, OnOk, OnErr, IfOk, IfSome, IfNone, if◌then◌else◌};
ghost use Rattle.std.specs.FinMap as map;
ghost use Rattle.foundation.specs.Ranges.{in_range, count_below};
ghost use Rattle.mig_base.specs.FreePlaces.{free_place};
ghost use Rattle.mig_base.specs.Pages.{set_range, remove_range};
ghost use Rattle.area_map.specs.Areas.{AreRuns, pages_in};
ghost use Rattle.area_map.specs.Ranges.{HasOneProt, moved_protections};
ghost use Rattle.foundation.specs.declared.TheConstants.{PAGE_SIZE};
ghost use Rattle.mig_base.specs.declared.TheConstants.{HIGH_PAGE};

use crate::count::mapped_between;
use crate::edit::{apply, mapped_after, plan};
use crate::gap::free_page;
use crate::moves::map_moved;
pub use crate::room::RoomyAreas;
use crate::search::{one_prot_of, prot_of};
use mig_base::{Addr, Area, HIGH_PAGE, LOW, NoMemory, PAGE_SIZE, PageNo, Prot};
use std::alloc::Global;
use std::marker::Model;

/// A finite map from pages to protections.
#[derive(Debug, Drop)]
pub struct AreaMap {
    alloc: Global,
    areas: Vec<Area>,
    mapped: u32,
}

impl Model for AreaMap {
    ghost use Rattle.std.specs.Ordering.{nat_cmp};
    ghost use Rattle.std.specs.FinMap as map;
    ghost use Rattle.mig_base.specs.declared.Prot.{Prot};
    ghost use Rattle.std.specs.Coded.{coded_ℕ};
    ghost use Rattle.mig_base.specs.Codes.{coded_prot};

    ghost Value = { map.FinMap nat_cmp Prot };

    ghost coded = { map.code coded_ℕ coded_prot };

    ghost use Rattle.area_map.specs.Areas.{pages_in, AreCounted};

    ghost view = { λ a. pages_in a.areas.items };

    ghost invariant = { λ a. AreCounted a.areas.items a.mapped };
}

impl AreaMap {
    /// A map in which no page is mapped. It takes no memory.
    pub fn new(alloc: Global) -> Self
        ensures { result ≡ map.empty }
    {
        AreaMap {
            alloc,
            areas: Vec::new(alloc),
            mapped: 0,
        }
    }

    /// Gives each of the `count` pages from `first` on the protection, whatever it had. The range ends at or below page 0x100000.
    /// `NoMemory` if the number of areas grows and there is no memory for that; it changes nothing.
    pub fn map(&mut self, first: PageNo, count: u32, prot: Prot) -> Result<(), NoMemory>
        requires { first + count ≤ HIGH_PAGE }
        ensures ok { OnOk result (self.new ≡ set_range self.old first count prot) }
        ensures err { OnErr result (self.new ≡ self.old) }
    {
        self.put(first, count, Some(prot))
    }

    /// Unmaps the `count` pages from `first` on. The range ends at or below page 0x100000. `NoMemory` if that splits an area and there
    /// is no memory for one more; it changes nothing.
    pub fn unmap(&mut self, first: PageNo, count: u32) -> Result<(), NoMemory>
        requires { first + count ≤ HIGH_PAGE }
        ensures ok { OnOk result (self.new ≡ remove_range self.old first count) }
        ensures err { OnErr result (self.new ≡ self.old) }
    {
        self.put(first, count, None)
    }

    /// The protection of a page, if it is mapped.
    pub fn prot_at(&self, page: PageNo) -> Option<Prot>
        ensures { result ≡ map.get self.now page }
    {
        prot_of(&self.areas, page)
    }

    /// The number of mapped pages.
    pub fn mapped_pages(&self) -> u32
        ensures { result ≡ map.len self.now }
    {
        self.mapped
    }

    /// The number of mapped pages among the `count` pages from `first` on. The range ends at or below page 0x100000.
    pub fn mapped_in(&self, first: PageNo, count: u32) -> u32
        requires { first + count ≤ HIGH_PAGE }
        ensures { result ≡ count_below (λ i. map.contains_key self.now (first + i)) count }
    {
        mapped_between(&self.areas, first, count)
    }

    /// The lowest page-aligned address, from [`LOW`] on, at which a range of `len` bytes is free and ends inside the address
    /// space. A range of no bytes is free at [`LOW`].
    pub fn gap(&self, len: u64) -> Option<Addr>
        ensures { result ≡ free_place (λ addr. map.contains_key self.now (addr / PAGE_SIZE)) len }
    {
        if len == 0 {
            return Some(LOW);
        }
        match free_page(&self.areas, len.div_ceil(PAGE_SIZE)) {
            Some(page) => Some(page * PAGE_SIZE),
            None => None,
        }
    }

    /// The areas in order of their pages, each as long as possible: areas that touch differ in protection.
    pub fn areas(&self) -> &[Area]
        ensures runs { AreRuns result.now }
        ensures pages { pages_in result.now ≡ self.now }
    {
        self.areas.as_slice()
    }

    /// An equal map, in memory of its own. `NoMemory` if the allocation fails.
    pub fn copy(&self) -> Result<Self, NoMemory>
        ensures { IfOk result (λ copy. copy ≡ self.now) }
    {
        let areas = Vec::from_slice(self.alloc, &self.areas)?;
        Ok(AreaMap {
            alloc: self.alloc,
            areas,
            mapped: self.mapped,
        })
    }

    /// Whether the two maps have the same pages, with the same protections.
    pub fn is_same(&self, other: &Self) -> bool
        ensures { (result ≡ true) ↔ (self.now ≡ other.now) }
    {
        self.areas == other.areas
    }

    /// The protection of the `count` pages from `first` on, if all are mapped with the same one. A range of no pages has none. The
    /// range ends at or below page 0x100000.
    pub fn one_prot(&self, first: PageNo, count: u32) -> Option<Prot>
        requires { first + count ≤ HIGH_PAGE }
        ensures some { IfSome result (HasOneProt (λ page. map.get self.now page) first count) }
        ensures none { 0 < count →
            IfNone result ((prot : Prot) →
            HasOneProt (λ page. map.get self.now page) first count prot → ⊥) }
        ensures empty { count ≡ 0 → result ≡ None }
    {
        if count == 0 {
            return None;
        }
        one_prot_of(&self.areas, first, count)
    }

    /// Moves the `count` pages from `from` on, with their protections, to `to`. What was mapped there is replaced, and nothing stays
    /// mapped in the old range. The ranges do not overlap, and both end at or below page 0x100000. `NoMemory` leaves the map as it was.
    pub fn move_range(&mut self, from: PageNo, to: PageNo, count: u32) -> Result<(), NoMemory>
        requires from_bound { from + count ≤ HIGH_PAGE }
        requires to_bound { to + count ≤ HIGH_PAGE }
        requires apart { (from + count ≤ to) ⊎ (to + count ≤ from) }
        ensures ok { OnOk result ((page : ℕ) →
            map.get self.new page ≡
            moved_protections (λ before. map.get self.old before) from to count page) }
        ensures err { OnErr result (self.new ≡ self.old) }
    {
        let mut moved = self.copy()?;
        moved.unmap(from, count)?;
        moved.unmap(to, count)?;
        map_moved(&mut moved, &self.areas, from, to, count)?;
        *self = moved;
        Ok(())
    }

    /// The invariant of every map: no page at or past `HIGH_PAGE` is mapped. The call does nothing.
    pub fn ends_by_high_page(&self)
        ensures { (page : ℕ) → HIGH_PAGE ≤ page → map.get self.now page ≡ None }
    {
        let _ = &self.areas;
    }

    /// Gives each page of the range the protection, or unmaps it if `prot` is `None`. `NoMemory` leaves the map as it was.
    fn put(&mut self, first: PageNo, count: u32, prot: Option<Prot>) -> Result<(), NoMemory>
        requires { first + count ≤ HIGH_PAGE }
        ensures ok { OnOk result ((page : ℕ) →
            map.get self.new page ≡
            (if in_range first count page then prot else map.get self.old page)) }
        ensures err { OnErr result (self.new ≡ self.old) }
    {
        if count == 0 {
            return Ok(());
        }
        let edit = plan(&self.areas, first, count, prot);
        let mapped = mapped_after(&self.areas, self.mapped, edit);
        apply(&mut self.areas, edit)?;
        self.mapped = mapped;
        Ok(())
    }
}

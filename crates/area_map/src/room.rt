//! Areas with room for a move, so that the move itself takes no memory.

ghost use Rattle.std.specs.Prelude.{◌≡◌, ℕ, ◌+◌, ◌≤◌, if◌then◌else◌, IfOk, OnErr};
ghost use Rattle.std.specs.Vec.{vec_len, vec_capacity};
ghost use Rattle.foundation.specs.Ranges.{in_range};
ghost use Rattle.mig_base.specs.Pages.{set_range, remove_range};
ghost use Rattle.mig_base.specs.declared.TheConstants.{HIGH_PAGE};
ghost use Rattle.area_map.specs.Areas.{AreCounted, prot_in};

use crate::AreaMap;
use crate::edit::{apply, mapped_after, plan};
use mig_base::{Area, HIGH_PAGE, NoMemory, PageNo, Prot};
use std::alloc::Global;
use std::marker::Model;
use std::mem;

/// The largest number of areas that two changes add: three each.
const ADDED_BY_TWO: usize = 6;

/// The areas of an [`AreaMap`], taken out of it with room for a move.
#[derive(Drop)]
pub struct RoomyAreas {
    alloc: Global,
    areas: Vec<Area>,
    mapped: u32,
}

impl Model for RoomyAreas {
    ghost use Rattle.std.specs.Ordering.{nat_cmp};
    ghost use Rattle.std.specs.FinMap as map;
    ghost use Rattle.mig_base.specs.declared.Prot.{Prot};
    ghost use Rattle.std.specs.Coded.{coded_ℕ};
    ghost use Rattle.mig_base.specs.Codes.{coded_prot};

    ghost Value = { map.FinMap nat_cmp Prot };

    ghost coded = { map.code coded_ℕ coded_prot };

    ghost use Rattle.area_map.specs.Areas.{pages_in, AreRoomy};

    ghost view = { λ a. pages_in a.areas.items };

    ghost invariant = { λ a. AreRoomy a.areas a.mapped };
}

impl AreaMap {
    /// Takes the areas out of the map, with room for a move; the caller has to put them back. `NoMemory` if that room cannot be
    /// allocated; it changes nothing.
    pub fn with_room(&mut self) -> Result<RoomyAreas, NoMemory>
        ensures ok { IfOk result (λ roomy. roomy ≡ self.old) }
        ensures err { OnErr result (self.new ≡ self.old) }
    {
        self.areas.try_reserve(ADDED_BY_TWO)?;
        let areas = mem::replace(&mut self.areas, Vec::new(self.alloc));
        let mapped = mem::replace(&mut self.mapped, 0);
        Ok(RoomyAreas {
            alloc: self.alloc,
            areas,
            mapped,
        })
    }
}

impl RoomyAreas {
    /// The map with these areas, unchanged.
    pub fn into_areas(self) -> AreaMap
        ensures { result ≡ self }
    {
        AreaMap {
            alloc: self.alloc,
            areas: self.areas,
            mapped: self.mapped,
        }
    }

    /// The map after the `count` pages from `from` on are unmapped, and then the `new_count` pages from `to` on get the protection,
    /// whatever they had. It takes no memory.
    pub fn relocated(
        self,
        from: PageNo,
        count: u32,
        to: PageNo,
        new_count: u32,
        prot: Prot,
    ) -> AreaMap
        requires from_bound { from + count ≤ HIGH_PAGE }
        requires to_bound { to + new_count ≤ HIGH_PAGE }
        ensures { result ≡ set_range (remove_range self from count) to new_count prot }
    {
        let RoomyAreas {
            alloc,
            mut areas,
            mut mapped,
        } = self;
        put_in_room(&mut areas, &mut mapped, from, count, None);
        put_in_room(&mut areas, &mut mapped, to, new_count, Some(prot));
        AreaMap {
            alloc,
            areas,
            mapped,
        }
    }
}

/// Gives each page of a range the protection, or unmaps it if `prot` is `None`, in areas that have room for that.
fn put_in_room(
    areas: &mut Vec<Area>,
    mapped: &mut u32,
    first: PageNo,
    count: u32,
    prot: Option<Prot>,
)
    requires counted { AreCounted areas.old.items mapped.old }
    requires room { vec_len areas.old + 3 ≤ vec_capacity areas.old }
    requires bound { first + count ≤ HIGH_PAGE }
    ensures counted { AreCounted areas.new.items mapped.new }
    ensures pages { (page : ℕ) →
        prot_in areas.new.items page ≡
        (if in_range first count page then prot else prot_in areas.old.items page) }
    ensures added { vec_len areas.new ≤ vec_len areas.old + 3 }
    ensures capacity { vec_capacity areas.old ≤ vec_capacity areas.new }
{
    if count == 0 {
        return;
    }
    let edit = plan(areas, first, count, prot);
    *mapped = mapped_after(areas, *mapped, edit);
    match apply(areas, edit) {
        Ok(()) => {}
        Err(_) => unreachable!(),
    }
}

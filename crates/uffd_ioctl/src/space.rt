//! The type that callers see: an address space with its userfault object.

ghost use Rattle.std.specs.Prelude.{◌≡◌, ℕ, ◌<◌, ◌≤◌, ◌↔◌, true, IfOk, IfErr, OnErr, None, []};
ghost use Rattle.std.specs.Option.{option_copied, option_map};
ghost use Rattle.std.specs.FinMap as map;
ghost use Rattle.std.specs.FinSet as set;
ghost use Rattle.mig_base.specs.Userfault as object;
ghost use Rattle.mig_model.specs.Space as machine;
ghost use Rattle.userfault.specs.Modes as modes;
ghost use Rattle.page_table.specs.Bytes.{unless_zeros};
ghost use Rattle.uffd_ioctl.specs.Spaces.{assembled_object};

mod access;
mod ioctls;
mod map_calls;

use crate::arguments::mode_of;
use crate::register::registered;
use area_map::AreaMap;
use mig_base::flags::EVENT_FEATURES;
use mig_base::{HIGH_PAGE, Message, NoMemory, PAGE_BYTES, PageNo, PageSet, Run};
use page_table::PageTable;
use std::alloc::Global;
use std::marker::Model;
use userfault::{Mode, Userfault};

/// An address space: the mapped pages with their protections, the present pages with their bytes, which of the present pages are
/// write-protected, and the userfault object. A page that is mapped and not present is missing.
///
/// A call that is refused, or that returns `NoMemory`, changes nothing; after `NoMemory` the same call may succeed later. The
/// exceptions are [`Space::copy`] and [`Space::zeropage`], which keep the pages that they put before they stopped. If several errors
/// apply, a call returns the first in the order in which its comment names them.
#[derive(Drop)]
pub struct Space {
    alloc: Global,
    areas: AreaMap,
    pages: PageTable,
    object: Userfault,
}

impl Model for Space {
    ghost use Rattle.mig_model.specs.Space.{Space as Machine, IsSoundSpace};
    ghost use Rattle.uffd_ioctl.specs.Spaces.{coded_space, machine_space};

    ghost Value = { Machine };

    ghost coded = { coded_space };

    ghost view = { λ s. machine_space s.areas s.pages s.object };

    ghost invariant = { λ s. IsSoundSpace (machine_space s.areas s.pages s.object) };
}

impl Space {
    /// A space in which nothing is mapped, with an object that is not enabled. It takes no memory.
    pub fn new(alloc: Global) -> Self
        ensures { result ≡ machine.fresh_space }
    {
        Space {
            alloc,
            areas: AreaMap::new(alloc),
            pages: PageTable::new(alloc),
            object: Userfault::new(alloc),
        }
    }

    /// A space with these areas and present pages. Each present page must be mapped, and none write-protected. With a mode of 1 to 3, in
    /// the flags of UFFDIO_REGISTER, the object is enabled for the three events and all mapped pages are registered in that mode; with
    /// mode 0 the object is not enabled. No other mode is allowed.
    ///
    /// `NoMemory` returns the page table. With mode 0 the call takes no memory.
    pub fn assemble(
        alloc: Global,
        areas: AreaMap,
        pages: PageTable,
        mode: u64,
    ) -> Result<Self, (NoMemory, PageTable)>
        requires mapped { (page : ℕ) → map.get areas page ≡ None → map.get pages.bytes page ≡ None }
        requires open { pages.protected ≡ set.empty }
        requires mode { mode ≤ 3 }
        ensures ok { IfOk result (λ space.
            space ≡ record {
              host = record { areas = areas; bytes = pages.bytes };
              protected =
                  set.empty;
              object = assembled_object areas mode;
            }) }
        ensures err { IfErr result (λ back. back.1 ≡ pages) }
        ensures takes { OnErr result (0 < mode) }
    {
        areas.ends_by_high_page();
        pages.has_whole_pages();
        let mut object = Userfault::new(alloc);
        if mode != 0 {
            object.enable(EVENT_FEATURES);
            let all = Run {
                first: 0,
                count: HIGH_PAGE,
            };
            let Ok(watching) = registered(&object, &areas, all, mode_of(mode)) else {
                return Err((NoMemory, pages));
            };
            object = watching;
        }
        Ok(Space {
            alloc,
            areas,
            pages,
            object,
        })
    }

    /// The invariant of every space: a registered page is mapped, and a protected page is present and registered for write-protect
    /// faults. The call does nothing.
    pub fn is_in_order(&self)
        ensures { machine.IsSoundSpace self.now }
    {
        let _ = &self.areas;
    }

    /// The bytes of a page, if it is present.
    pub fn page(&self, page: PageNo) -> Option<&[u8; PAGE_BYTES]>
        ensures { option_copied result ≡ map.get self.now.host.bytes page }
    {
        self.pages.get(page)
    }

    /// The bytes of a page, if it is present and not all of them are zero. Zeros that have no memory of their own are not compared.
    pub fn page_unless_zeros(&self, page: PageNo) -> Option<&[u8; PAGE_BYTES]>
        ensures { option_copied result ≡ unless_zeros (map.get self.now.host.bytes page) }
    {
        self.pages.get_unless_zeros(page)
    }

    /// The mode in which a page is registered.
    pub fn mode_at(&self, page: PageNo) -> Mode
        ensures { modes.mode_of result ≡ object.mode_at self.now.object page }
    {
        self.object.mode_at(page)
    }

    /// Whether a page is present and write-protected.
    pub fn is_protected(&self, page: PageNo) -> bool
        ensures { result ≡ set.contains self.now.protected page }
    {
        self.pages.is_protected(page)
    }

    /// The number of unread events.
    pub fn changing(&self) -> usize
        ensures { result ≡ object.changing self.now.object }
    {
        self.object.changing()
    }

    /// The message that is read next, if there is one. It stays unread.
    pub fn next_message(&self) -> Option<Message>
        ensures { result ≡ option_map (λ noted.
            noted.message) (object.next_message self.now.object) }
    {
        self.object.next_message()
    }

    /// Drops the unread page faults. Unread events stay.
    pub fn drop_faults(&mut self)
        ensures { self.new ≡ record self.old { object = record self.old.object { faults = [] } } }
    {
        self.object.drop_faults();
    }

    /// A copy of the mapped pages, with their protections. `NoMemory` if the allocation fails.
    pub fn areas(&self) -> Result<AreaMap, NoMemory>
        ensures { IfOk result (λ areas. areas ≡ self.now.host.areas) }
    {
        self.areas.copy()
    }

    /// An equal space, in memory of its own: areas, pages with their bytes and protection, and the object with its unread messages.
    /// `NoMemory` if that cannot be allocated. ([`Space::copy`] is UFFDIO_COPY.)
    pub fn duplicate(&self) -> Result<Self, NoMemory>
        ensures { IfOk result (λ copy. copy ≡ self.now) }
    {
        let areas = self.areas.copy()?;
        let object = self.object.copy()?;
        Ok(Space {
            alloc: self.alloc,
            areas,
            pages: self.pages.copy()?,
            object,
        })
    }

    /// Whether the two spaces are equal: their areas, their pages with bytes and protection, and their objects.
    pub fn is_same(&self, other: &Self) -> bool
        ensures { (result ≡ true) ↔ (self.now ≡ other.now) }
    {
        self.areas.is_same(&other.areas)
            && self.pages.is_same(&other.pages)
            && self.object.is_same(&other.object)
    }

    /// The set of the present pages. `NoMemory` if the allocation fails.
    pub fn present(&self) -> Result<PageSet, NoMemory>
        ensures { IfOk result (λ pages. (q : ℕ) →
            set.contains pages q ≡ map.contains_key self.now.host.bytes q) }
    {
        self.pages.present()
    }
}

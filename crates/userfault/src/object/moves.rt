//! Moving the modes of a range of pages, in two steps. First the target is opened, which allocates its room and may run out of
//! memory; then the modes are moved there, or the target is closed again, and neither takes memory. The kernel has the same two
//! steps for its events: mremap_userfaultfd_prep and mremap_userfaultfd_complete.

ghost use Rattle.std.specs.Prelude.{◌≡◌, ℕ, ◌+◌, ◌≤◌, ◌⊎◌, OnOk, OnErr, IfOk};
ghost use Rattle.mig_base.specs.declared.TheConstants.{HIGH_PAGE};
ghost use Rattle.mig_base.specs.Userfault as machine;
ghost use Rattle.userfault.specs.Modes.{mode_of, opened, limited, no_mode, AreModesOf, IsOpen};

use super::Userfault;
use crate::modes::{Mode, move_into, part_of, remove_unless_in};
use mig_base::{NoMemory, PageNo, PageSet};

/// The modes that the pages of a range had before it was opened.
#[derive(Drop)]
pub struct RangeModes {
    missing: PageSet,
    protect: PageSet,
}

impl Userfault {
    /// Opens the `count` pages from `first` on: registers them in both modes, so that there is room for any modes, and returns the
    /// modes that they had. `NoMemory` changes nothing.
    pub fn open_range(&mut self, first: PageNo, count: u32) -> Result<RangeModes, NoMemory>
        requires { first + count ≤ HIGH_PAGE }
        ensures ok { OnOk result (self.new ≡ opened self.old first count) }
        ensures modes { IfOk result (λ modes. AreModesOf modes self.old first count) }
        ensures err { OnErr result (self.new ≡ self.old) }
    {
        let modes = RangeModes {
            missing: part_of(self.alloc, &self.missing, first, count)?,
            protect: part_of(self.alloc, &self.protect, first, count)?,
        };
        PageSet::insert_range_in_both(&mut self.missing, &mut self.protect, first, count)?;
        Ok(modes)
    }

    /// Restores the modes that the pages of an open range had before. It takes no memory.
    pub fn close_range(&mut self, first: PageNo, count: u32, modes: &RangeModes)
        requires { first + count ≤ HIGH_PAGE }
        ensures { (before : machine.Object) → self.old ≡ opened before first count →
            AreModesOf modes.now before first count → self.new ≡ before }
    {
        remove_unless_in(&mut self.missing, &modes.missing, first, count);
        remove_unless_in(&mut self.protect, &modes.protect, first, count);
    }

    /// Ends the registration of the `count` pages from `first` on in each mode that `mode` does not have. It takes no memory.
    pub fn limit_range(&mut self, first: PageNo, count: u32, mode: Mode)
        requires { first + count ≤ HIGH_PAGE }
        ensures { self.new ≡ limited self.old first count (mode_of mode) }
    {
        if !mode.missing {
            self.missing.remove_range(first, count);
        }
        if !mode.protect {
            self.protect.remove_range(first, count);
        }
    }

    /// Moves the modes of the `count` pages from `from` on to those from `to` on, which are open; the ranges do not overlap. The
    /// pages from `from` on are not registered afterwards. It takes no memory.
    pub fn move_to_open(&mut self, from: PageNo, to: PageNo, count: u32)
        requires inside { (from + count ≤ HIGH_PAGE) × (to + count ≤ HIGH_PAGE) }
        requires apart { (from + count ≤ to) ⊎ (to + count ≤ from) }
        requires open { IsOpen self.old to count }
        ensures { self.new ≡ machine.moved_modes self.old from count to count no_mode }
    {
        move_into(&mut self.missing, from, to, count);
        move_into(&mut self.protect, from, to, count);
    }

    /// Moves the modes of the `count` pages from `from` on to those from `to` on, which lose their own. The pages from `from` on
    /// are not registered afterwards. The ranges do not overlap, and both end at or below page 0x100000. `NoMemory` changes nothing.
    pub fn move_range(&mut self, from: PageNo, to: PageNo, count: u32) -> Result<(), NoMemory>
        requires inside { (from + count ≤ HIGH_PAGE) × (to + count ≤ HIGH_PAGE) }
        requires apart { (from + count ≤ to) ⊎ (to + count ≤ from) }
        ensures ok { OnOk result (self.new ≡
            machine.moved_modes self.old from count to count no_mode) }
        ensures err { OnErr result (self.new ≡ self.old) }
    {
        self.open_range(to, count)?;
        self.move_to_open(from, to, count);
        Ok(())
    }
}

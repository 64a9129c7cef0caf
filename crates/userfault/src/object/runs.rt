//! Runs of pages: registering one in an object that is lost if that fails, and searching for one.

ghost use Rattle.std.specs.Prelude.{◌≡◌, ℕ, ◌+◌, ◌<◌, ◌≤◌, false, true, OnOk, IfOk};
ghost use Rattle.std.specs.FinSet.{contains};
ghost use Rattle.foundation.specs.Ranges.{in_range};
ghost use Rattle.mig_base.specs.declared.TheConstants.{HIGH_PAGE};
ghost use Rattle.mig_base.specs.Userfault as machine;
ghost use Rattle.userfault.specs.Modes.{mode_of, registered_set};

use super::Userfault;
use crate::modes::{Mode, remove_unless_in, run_of};
use mig_base::{NoMemory, PageNo, PageSet};

impl Userfault {
    /// The object with the `count` pages from `first` on registered, as [`Userfault::register`] does. Nothing is copied, and
    /// `NoMemory` drops the object: call it on a copy.
    pub fn and_registered(self, first: PageNo, count: u32, mode: Mode) -> Result<Self, NoMemory>
        requires bound { first + count ≤ HIGH_PAGE }
        ensures { IfOk result (λ object.
            object ≡ machine.registered_where self (in_range first count) (mode_of mode)) }
    {
        let mut object = self;
        object.missing.ends_by_high_page();
        object.protect.ends_by_high_page();
        register_run(&mut object.missing, &mut object.protect, first, count, mode)?;
        Ok(object)
    }

    /// The first run of pages that are not registered for write-protect faults, from page `from` on and before `end`: its first
    /// page, and the page after its last. Both are `end` if there is no such run.
    pub fn unwatched_run(&self, from: PageNo, end: PageNo) -> (PageNo, PageNo)
        requires { (from < end) × (end ≤ HIGH_PAGE) }
        ensures range { (from ≤ result.0) × (result.0 ≤ result.1) × (result.1 ≤ end) }
        ensures further { from < result.1 }
        ensures before { (q : ℕ) → from ≤ q → q < result.0 → contains self.now.protect q ≡ true }
        ensures inside { (q : ℕ) → result.0 ≤ q → q < result.1 →
            contains self.now.protect q ≡ false }
    {
        run_of(&self.protect, from, end, false)
    }
}

/// Registers a run of pages in the sets of both modes. `NoMemory` may leave the sets changed.
fn register_run(
    missing: &mut PageSet,
    protect: &mut PageSet,
    first: PageNo,
    count: u32,
    mode: Mode,
) -> Result<(), NoMemory>
    requires bound { first + count ≤ HIGH_PAGE }
    requires missing { (q : ℕ) → HIGH_PAGE ≤ q → contains missing.old q ≡ false }
    requires protect { (q : ℕ) → HIGH_PAGE ≤ q → contains protect.old q ≡ false }
    ensures missing { OnOk result (missing.new ≡
        registered_set missing.old protect.old first count mode.missing mode.protect) }
    ensures protect { OnOk result (protect.new ≡
        registered_set protect.old missing.old first count mode.protect mode.missing) }
{
    match (mode.missing, mode.protect) {
        (true, true) => {
            missing.insert_range(first, count)?;
            protect.insert_range(first, count)
        }
        (true, false) => {
            remove_unless_in(protect, missing, first, count);
            missing.insert_range(first, count)
        }
        (false, true) => {
            remove_unless_in(missing, protect, first, count);
            protect.insert_range(first, count)
        }
        (false, false) => Ok(()),
    }
}

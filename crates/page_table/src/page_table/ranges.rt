//! Changing whole ranges.

ghost use Rattle.std.specs.Prelude.{◌≡◌, ℕ, ◌+◌, ◌-◌, ◌≤◌, if◌then◌else◌, Some, [], OnOk, IfErr, length, slice_index_or};
ghost use Rattle.std.specs.FinMap as map;
ghost use Rattle.foundation.specs.Ranges.{in_range};
ghost use Rattle.mig_base.specs.Sets.{without};
ghost use Rattle.mig_base.specs.declared.TheConstants.{HIGH_PAGE};

use super::PageTable;
use crate::table::{make_places, put_cells};
use crate::unprotect::unprotect_cells;
use mig_base::{PageBytes, PageNo};

impl PageTable {
    /// Puts these bytes at the pages from `first` on, without copying them: a missing page becomes present, and a present page loses
    /// its own bytes. None of these pages is protected afterwards.
    ///
    /// The call puts all pages or none: if the room of their leaves cannot be allocated, it returns the bytes and changes nothing.
    pub fn put_run(&mut self, first: PageNo, run: Vec<PageBytes>) -> Result<(), Vec<PageBytes>>
        requires { first + length run.items ≤ HIGH_PAGE }
        ensures bytes { OnOk result ((q : ℕ) →
            map.get self.new.bytes q ≡
            (if in_range first (length run.items) q then Some
            (slice_index_or run.items (q - first) []) else map.get self.old.bytes q)) }
        ensures protected { OnOk result (self.new.protected ≡
            without self.old.protected first (length run.items)) }
        ensures err { IfErr result (λ back. (back ≡ run) × (self.new ≡ self.old)) }
    {
        let count = run.len() as u32;
        let Ok(()) = make_places(self.alloc, &mut self.places, first, count) else {
            return Err(run);
        };
        put_cells(&mut self.places, first, run);
        Ok(())
    }

    /// Ends the protection of the `count` pages from `first` on, by whole words. Missing and unprotected pages stay so.
    pub fn unprotect_range(&mut self, first: PageNo, count: u32)
        requires { first + count ≤ HIGH_PAGE }
        ensures bytes { self.new.bytes ≡ self.old.bytes }
        ensures protected { self.new.protected ≡ without self.old.protected first count }
    {
        unprotect_cells(&mut self.places, first, count);
    }
}

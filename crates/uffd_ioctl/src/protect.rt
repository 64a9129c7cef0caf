//! The write protection of the present pages of a range.

ghost use Rattle.std.specs.Prelude.{◌≡◌, ℕ, ◌+◌, ◌≤◌, ◌&&◌, ◌||◌, not, true, if◌then◌else◌};
ghost use Rattle.std.specs.FinMap as map;
ghost use Rattle.std.specs.FinSet as set;
ghost use Rattle.foundation.specs.Ranges.{in_range};
ghost use Rattle.mig_base.specs.declared.TheConstants.{HIGH_PAGE};

use mig_base::Run;
use page_table::PageTable;
use userfault::Userfault;

/// Write-protects the present pages of a range, or ends their protection.
pub(crate) fn set_protection(pages: &mut PageTable, range: Run, protect: bool)
    requires range { range.first + range.count ≤ HIGH_PAGE }
    requires present { (q : ℕ) → set.contains pages.old.protected q ≡ true →
        map.contains_key pages.old.bytes q ≡ true }
    ensures bytes { pages.new.bytes ≡ pages.old.bytes }
    ensures protected { (q : ℕ) →
        set.contains pages.new.protected q ≡
        (if in_range range.first range.count q then protect && map.contains_key pages.old.bytes q
        else set.contains pages.old.protected q) }
{
    if protect {
        protect_present(pages, range);
    } else {
        pages.unprotect_range(range.first, range.count);
    }
}

/// Write-protects the present pages of a range.
fn protect_present(pages: &mut PageTable, range: Run)
    requires { range.first + range.count ≤ HIGH_PAGE }
    ensures bytes { pages.new.bytes ≡ pages.old.bytes }
    ensures protected { (q : ℕ) →
        set.contains pages.new.protected q ≡
        (in_range range.first range.count q && map.contains_key pages.old.bytes q || set.contains
        pages.old.protected q) }
{
    for page in range.first..range.first + range.count {
        if pages.get(page).is_some() {
            pages.protect(page);
        }
    }
}

/// Ends, run by run, the protection of the pages of a range that are not registered for write-protect faults.
pub(crate) fn open_unwatched(pages: &mut PageTable, object: &Userfault, range: Run)
    requires { range.first + range.count ≤ HIGH_PAGE }
    ensures bytes { pages.new.bytes ≡ pages.old.bytes }
    ensures protected { (q : ℕ) →
        set.contains pages.new.protected q ≡
        (set.contains pages.old.protected q &&
        (not (in_range range.first range.count q) || set.contains object.now.protect q)) }
{
    let end = range.first + range.count;
    let mut at = range.first;
    while at < end {
        let (start, stop) = object.unwatched_run(at, end);
        pages.unprotect_range(start, stop - start);
        at = stop;
    }
}

//! The modes of pages, and sets of pages after a range was registered or moved.

ghost use Rattle.std.specs.Prelude.{◌≡◌, ℕ, ◌+◌, ◌<◌, ◌≤◌, ◌⊎◌, ◌&&◌, ◌||◌, not, true, false, IfOk};
ghost use Rattle.std.specs.FinSet.{contains};
ghost use Rattle.foundation.specs.Ranges.{in_range};
ghost use Rattle.mig_base.specs.Sets.{moved_set};
ghost use Rattle.mig_base.specs.declared.TheConstants.{HIGH_PAGE};
ghost use Rattle.foundation.specs.Tests.{same_bool, is_every};
ghost use Rattle.userfault.specs.Modes.{registered_set};

use mig_base::{NoMemory, PageNo, PageSet};
use std::alloc::Global;

/// The mode in which a page is registered. With both false it is not registered.
#[derive(Clone, Copy, Debug, PartialEq, Eq)]
pub struct Mode {
    /// UFFDIO_REGISTER_MODE_MISSING: an access to the page while it is missing is a page fault.
    pub missing: bool,
    /// UFFDIO_REGISTER_MODE_WP: a store to the page while it is write-protected is a page fault.
    pub protect: bool,
}

/// The pages of one mode after the `count` pages from `first` on are registered: `own` are the pages of this mode so far and
/// `other` those of the other mode; `asked` and `other_asked` are the modes asked for. `NoMemory` if the new set cannot be allocated.
pub fn registered(
    own: &PageSet,
    other: &PageSet,
    first: PageNo,
    count: u32,
    asked: bool,
    other_asked: bool,
) -> Result<PageSet, NoMemory>
    requires { first + count ≤ HIGH_PAGE }
    ensures { IfOk result (λ set.
        set ≡ registered_set own.now other.now first count asked other_asked) }
{
    let mut set = own.copy()?;
    if asked {
        set.insert_range(first, count)?;
    } else if other_asked {
        remove_unless_in(&mut set, other, first, count);
    }
    Ok(set)
}

/// Removes the pages of a range that are not in `other`. It takes no memory.
pub fn remove_unless_in(set: &mut PageSet, other: &PageSet, first: PageNo, count: u32)
    requires { first + count ≤ HIGH_PAGE }
    ensures { (q : ℕ) → contains set.new q ≡
        (contains set.old q && not (in_range first count q && not (contains other.now q))) }
{
    let end = first + count;
    let mut at = first;
    while at < end {
        let (start, stop) = run_of(other, at, end, false);
        set.remove_range(start, stop - start);
        at = stop;
    }
}

/// Moves the pages of a range to another range that does not overlap it. All pages of the target have to be in the set, so it
/// takes no memory.
pub fn move_into(set: &mut PageSet, from: PageNo, to: PageNo, count: u32)
    requires inside { (from + count ≤ HIGH_PAGE) × (to + count ≤ HIGH_PAGE) }
    requires apart { (from + count ≤ to) ⊎ (to + count ≤ from) }
    requires full { (q : ℕ) → in_range to count q ≡ true → contains set.old q ≡ true }
    ensures { set.new ≡ moved_set set.old from count to count false }
{
    set.ends_by_high_page();
    let end = from + count;
    let mut at = from;
    while at < end {
        let (start, stop) = run_of(set, at, end, false);
        set.remove_range(to + (start - from), stop - start);
        at = stop;
    }
    set.remove_range(from, count);
}

/// The pages of a range that are in `set`. `NoMemory` if the new set cannot be allocated.
pub fn part_of(alloc: Global, set: &PageSet, first: PageNo, count: u32) -> Result<PageSet, NoMemory>
    requires { first + count ≤ HIGH_PAGE }
    ensures { IfOk result (λ part. (q : ℕ) →
        contains part q ≡ (in_range first count q && contains set.now q)) }
{
    let mut part = PageSet::new(alloc);
    let end = first + count;
    let mut at = first;
    while at < end {
        let (start, stop) = run_of(set, at, end, true);
        if start < stop {
            part.insert_range(start, stop - start)?;
        }
        at = stop;
    }
    Ok(part)
}

/// The first run of pages that are in the set (or, with `want` false, are not), from `from` on and before `end`: its first
/// page, and the page after its last. Both are `end` if there is no such run.
pub fn run_of(set: &PageSet, from: PageNo, end: PageNo, want: bool) -> (PageNo, PageNo)
    requires { (from < end) × (end ≤ HIGH_PAGE) }
    ensures range { (from ≤ result.0) × (result.0 ≤ result.1) × (result.1 ≤ end) }
    ensures further { from < result.1 }
    ensures before { (q : ℕ) → from ≤ q → q < result.0 → contains set.now q ≡ not want }
    ensures inside { (q : ℕ) → result.0 ≤ q → q < result.1 → contains set.now q ≡ want }
{
    let start = set.next_before(from, want, end);
    let stop = set.next_before(start, !want, end);
    (start, stop)
}

/// Whether a set has all pages of a range. It is true unless `asked`.
pub fn has_all(set: &PageSet, first: PageNo, count: u32, asked: bool) -> bool
    requires { first + count ≤ HIGH_PAGE }
    ensures { result ≡ is_every (λ page. not asked || contains set.now page) first count }
{
    !asked || set.next_before(first, false, first + count) >= first + count
}

/// Whether a set has all pages of a range, or none of them.
pub fn is_one_run(set: &PageSet, first: PageNo, count: u32) -> bool
    requires { first + count ≤ HIGH_PAGE }
    ensures { result ≡ is_every (λ page.
        same_bool (contains set.now first) (contains set.now page)) first count }
{
    set.next_before(first, !set.contains(first), first + count) >= first + count
}

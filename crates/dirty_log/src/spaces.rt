//! The calls that a log makes on the space that it is lent.

ghost use Rattle.std.specs.Prelude.{◌≡◌, ◌+◌, ◌<◌, ◌≤◌, ◌⊎◌, true, false, OnOk, OnErr};
ghost use Rattle.std.specs.FinSet.{contains};
ghost use Rattle.foundation.specs.Tests.{is_every};
ghost use Rattle.mig_base.specs.declared.TheConstants.{HIGH_PAGE};
ghost use Rattle.mig_base.specs.Userfault as object;
ghost use Rattle.mig_model.specs.Ioctls.{protected_in};
ghost use Rattle.mig_model.specs.Source.{all_registered};
ghost use Rattle.uffd_ioctl.specs.Lent.{IsLent};
ghost use Rattle.dirty_log.specs.Spaces.{act_in, is_sendable as sendable};

use mig_base::act::Act;
use mig_base::flags::{REGISTER_MISSING_BIT, REGISTER_WP_BIT, WRITEPROTECT_WP_BIT};
use mig_base::refusal::Refusal;
use mig_base::{HIGH, HIGH_PAGE, LOW, NoMemory, PAGE_SIZE, PageNo, page_address};
use uffd_ioctl::{IoctlFault, PageFault, Space};

/// The mode bits of UFFDIO_REGISTER for both modes.
const BOTH_MODES: u64 = (1 << REGISTER_MISSING_BIT) | (1 << REGISTER_WP_BIT);

/// Registers every mapped page for missing faults and for write-protect faults, area by area. `NoMemory` changes nothing.
pub fn register_mapped(space: &mut Space) -> Result<(), NoMemory>
    requires { IsLent space.old }
    ensures ok { OnOk result (space.new ≡ all_registered space.old) }
    ensures err { OnErr result (space.new ≡ space.old) }
{
    space.is_in_order();
    match space.register(LOW, HIGH - LOW, BOTH_MODES) {
        Ok(()) => Ok(()),
        // EINVAL means that no page is mapped: there is nothing to register.
        Err(IoctlFault::Errno(_)) => Ok(()),
        Err(IoctlFault::NoMemory) => Err(NoMemory),
    }
}

/// Whether all pages of a range can be sent.
pub fn are_sendable(space: &Space, first: PageNo, count: u32) -> bool
    requires { first + count ≤ HIGH_PAGE }
    ensures { result ≡ is_every (sendable space.now) first count }
{
    for page in first..first + count {
        if !is_sendable(space, page) {
            return false;
        }
    }
    true
}

/// Whether a page can be sent: it is present, and registered for write-protect faults.
fn is_sendable(space: &Space, page: PageNo) -> bool
    ensures { result ≡ sendable space.now page }
{
    space.page(page).is_some() && space.mode_at(page).protect
}

/// Write-protects the pages of a range, all of which can be sent.
pub fn protect(space: &mut Space, first: PageNo, count: u32)
    requires lent { IsLent space.old }
    requires some { 0 < count }
    requires inside { first + count ≤ HIGH_PAGE }
    requires quiet { object.changing space.old.object ≡ 0 }
    requires sendable { is_every (sendable space.old) first count ≡ true }
    ensures { space.new ≡ protected_in space.old first count true }
{
    space.is_in_order();
    let len = u64::from(count) * PAGE_SIZE;
    let Ok(_) = space.writeprotect(page_address(first), len, 1 << WRITEPROTECT_WP_BIT) else {
        unreachable!();
    };
}

/// Ends the protection of a page, which is protected.
pub fn unprotect(space: &mut Space, page: PageNo)
    requires lent { IsLent space.old }
    requires quiet { object.changing space.old.object ≡ 0 }
    requires protected { contains space.old.protected page ≡ true }
    ensures { space.new ≡ protected_in space.old page 1 false }
{
    space.is_in_order();
    let Ok(_) = space.writeprotect(page_address(page), PAGE_SIZE, 0) else {
        unreachable!();
    };
}

/// How a fault has to be resolved, according to the present state of its page.
pub fn act_of(space: &Space, fault: &PageFault) -> Act
    ensures low { (result ≡ Act.Forgot) ⊎ (fault.now.page < HIGH_PAGE) }
    ensures act { result ≡ act_in space.now fault.now }
{
    space.is_in_order();
    if fault.page() >= u64::from(HIGH_PAGE) {
        return Act::Forgot;
    }
    let page = fault.page() as PageNo;
    let mode = space.mode_at(page);
    if !mode.missing && !mode.protect {
        Act::Forgot
    } else if space.page(page).is_none() {
        Act::Zeroed
    } else if space.is_protected(page) && fault.is_protected() {
        Act::Unprotected
    } else {
        Act::Woke
    }
}

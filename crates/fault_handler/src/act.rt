//! How the handler of a destination resolves a fault.

ghost use Rattle.std.specs.Prelude.{◌≡◌, ◌<◌, ◌⊎◌};
ghost use Rattle.std.specs.FinMap.{get};
ghost use Rattle.mig_base.specs.declared.TheConstants.{HIGH_PAGE};
ghost use Rattle.mig_model.specs.Destination.{destination_act_by};
ghost use Rattle.mig_model.specs.Guest.{is_forgotten, is_present};

use mig_base::act::Act;
use mig_base::{HIGH_PAGE, PageNo};
use owed_pages::Owed;
use uffd_ioctl::{PageFault, Space};

/// The act on a fault, by the present state of its page. The page may lie past the address space.
pub fn act_of(space: &Space, owed: &Owed, fault: &PageFault) -> Act
    ensures low { (result ≡ Act.Forgot) ⊎ (fault.now.page < HIGH_PAGE) }
    ensures act { result ≡
        destination_act_by (is_forgotten space.now fault.now.page)
        (is_present space.now fault.now.page) (get owed.now fault.now.page) }
{
    space.is_in_order();
    if fault.page() >= u64::from(HIGH_PAGE) {
        return Act::Forgot;
    }
    let page = fault.page() as PageNo;
    let mode = space.mode_at(page);
    if !mode.missing && !mode.protect {
        return Act::Forgot;
    }
    if space.page(page).is_some() {
        return Act::Woke;
    }
    match owed.origin(page) {
        Some(origin) => Act::Requested(origin),
        None => Act::Zeroed,
    }
}

//! Making pages present, in a space that a node of a migration lends.

ghost use Rattle.std.specs.Prelude.{◌≡◌, false, OnOk, OnErr, IfErr};
ghost use Rattle.mig_base.specs.Userfault as object;
ghost use Rattle.mig_model.specs.Guest.{is_forgotten, is_present, zero_installed};
ghost use Rattle.mig_model.specs.Ioctls.{installed};
ghost use Rattle.uffd_ioctl.specs.Lent.{IsLent};

use crate::Space;
use mig_base::{NoMemory, PageBytes, PageNo};

/// Makes a missing page present, with zeros. `NoMemory` changes nothing.
///
/// The object of the space is enabled for the three events, no event is unread, no page below 0x10000 is mapped, and the page is
/// registered.
pub fn make_zeros(space: &mut Space, page: PageNo) -> Result<(), NoMemory>
    requires lent { IsLent space.old }
    requires quiet { object.changing space.old.object ≡ 0 }
    requires watched { is_forgotten space.old page ≡ false }
    requires missing { is_present space.old page ≡ false }
    ensures ok { OnOk result (space.new ≡ zero_installed space.old page) }
    ensures err { OnErr result (space.new ≡ space.old) }
{
    space.is_in_order();
    space.install_zeros(page)
}

/// Makes a missing page present, with these bytes, which are not copied. The only error is that memory runs out; it returns the bytes
/// and changes nothing.
///
/// The object of the space is enabled for the three events, no event is unread, no page below 0x10000 is mapped, and the page is
/// registered.
pub fn install_page(space: &mut Space, page: PageNo, bytes: PageBytes) -> Result<(), PageBytes>
    requires lent { IsLent space.old }
    requires quiet { object.changing space.old.object ≡ 0 }
    requires watched { is_forgotten space.old page ≡ false }
    requires missing { is_present space.old page ≡ false }
    ensures ok { OnOk result (space.new ≡ installed space.old page 1 (λ i. bytes) false) }
    ensures err { IfErr result (λ back. (back ≡ bytes) × (space.new ≡ space.old)) }
{
    space.is_in_order();
    space.install(page, bytes)
}

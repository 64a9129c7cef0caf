//! What holds for every source, as laws: each is a call that does nothing and whose contract is the law.

ghost use Rattle.std.specs.Prelude.{◌≡◌, ℕ, true};
ghost use Rattle.std.specs.FinSet.{contains};
ghost use Rattle.mig_model.specs.Guest.{is_present};
ghost use Rattle.precopy.specs.Order.{IsClean};

use super::Source;

impl Source {
    /// A clean page that no unread event has changed is present, registered for write-protect faults and protected, so that no store can
    /// change it unnoticed. The call does nothing.
    pub fn clean_pages_are_protected(&self)
        ensures present { (page : ℕ) → IsClean self.now page →
            is_present self.now.guest.space page ≡ true }
        ensures registered { (page : ℕ) → IsClean self.now page →
            contains self.now.guest.space.object.protect page ≡ true }
        ensures protected { (page : ℕ) → IsClean self.now page →
            contains self.now.guest.space.protected page ≡ true }
    {
        self.space.is_in_order();
    }
}

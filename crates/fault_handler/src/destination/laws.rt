//! Laws of every destination: each is a call that does nothing, whose contract is the law.

ghost use Rattle.std.specs.Prelude.{◌≡◌, ℕ, true, false, Some};
ghost use Rattle.std.specs.FinSet.{contains};
ghost use Rattle.mig_model.specs.Destination.{settled};
ghost use Rattle.mig_model.specs.Guest.{is_present};

use super::Destination;

impl Destination {
    /// From the run on, each page that is owed once the unread events are applied is registered for missing faults, and missing: the first
    /// access to it is a page fault, and no copy is installed over what the guest has written. The call does nothing.
    pub fn owed_pages_are_missing(&self)
        ensures registered { self.now.has_run ≡ true → (page origin : ℕ) →
            settled self.now page ≡ Some origin →
            contains self.now.guest.space.object.missing page ≡ true }
        ensures missing { self.now.has_run ≡ true → (page origin : ℕ) →
            settled self.now page ≡ Some origin → is_present self.now.guest.space page ≡ false }
    {
        let _ = &self.owed;
    }
}

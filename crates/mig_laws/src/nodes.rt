//! Contents do not matter to a node by itself: each step of a changed guest, source or destination is the changed step. A node that is
//! given the changed frames sends the changed frames. Each law is a function with an empty body, whose contract is the law.

ghost use Rattle.std.specs.Prelude.{ℕ};
ghost use Rattle.mig_model.specs.Destination.{Destination};
ghost use Rattle.mig_model.specs.Guest.{Guest};
ghost use Rattle.mig_model.specs.Source.{Source};
ghost use Rattle.mig_laws.specs.Contents.{Changes, IsByteMap};
ghost use Rattle.mig_laws.specs.Laws.{DestinationPagesAlike, DestinationStepsAlike, SourcePagesAlike, SourceStepsAlike, TriesAlike};

/// A command of a changed guest.
pub fn commands_of_a_changed_guest()
    ensures { (f : ℕ → ℕ) (guest : Guest) → Changes f guest.space.host → TriesAlike f guest }
{}

/// The steps of a changed source. Send, Push and PushUrgent say page or zero by the changed bytes of the page, and a frame that is taken by
/// its own.
pub fn steps_of_a_changed_source()
    ensures steps { (f : ℕ → ℕ) (node : Source) → SourceStepsAlike f node }
    ensures pages { (f : ℕ → ℕ) (node : Source) → IsByteMap f → SourcePagesAlike f node }
{}

/// The steps of a changed destination. A Page that has become a Zero carries the changed copy all the same, since its page is whole.
pub fn steps_of_a_changed_destination()
    ensures steps { (f : ℕ → ℕ) (node : Destination) → DestinationStepsAlike f node }
    ensures pages { (f : ℕ → ℕ) (node : Destination) → IsByteMap f → DestinationPagesAlike f node }
{}

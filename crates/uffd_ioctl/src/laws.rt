//! What holds for a space across all calls, as a law: a function that does nothing and whose contract is the law. Calls appear in it
//! as functions of the machine; the contract of each call equates the two.

ghost use Rattle.std.specs.Prelude.{◌≡◌, ℕ, true, false, List};
ghost use Rattle.mig_base.specs.Commands.{is_access};
ghost use Rattle.mig_base.specs.declared.command.Command.{Command};
ghost use Rattle.mig_base.specs.Userfault.{Noted, enabled_with, fresh_object};
ghost use Rattle.mig_model.specs.Space.{Space, IsSoundSpace, accessed, called, fresh_space};
ghost use Rattle.mig_model.specs.Guest.{Fault, Guest, read_guest};
ghost use Rattle.mig_model.specs.Ioctls.{has_events, installed, protected_in};
ghost use Rattle.mig_model.specs.Source.{Source, all_registered, source_acted, space_of};
ghost use Rattle.uffd_ioctl.specs.Lent.{IsLent};

/// A space that may be lent stays so across each call of a handler and each load, store and map call of a processor: its object stays
/// enabled for the events, and no page below the lowest address is mapped. A space in which nothing is mapped may be lent once its
/// object is enabled for the events.
pub fn a_lent_space_stays_lent()
    ensures new { (features : ℕ) → has_events (enabled_with fresh_object features) ≡ true →
        IsLent (record fresh_space { object = enabled_with fresh_object features }) }
    ensures register_new { (space : Space) → IsLent space → IsLent (all_registered space) }
    ensures send { (space : Space) (first count : ℕ) → IsLent space →
        IsLent (protected_in space first count true) }
    ensures install { (space : Space) (page : ℕ) (bytes : List ℕ) → IsLent space →
        IsLent (installed space page 1 (λ i. bytes) false) }
    ensures read { (guest : Guest) (noted : Noted) → IsLent guest.space →
        IsLent (read_guest guest noted.cpu noted.message).space }
    ensures act { (node : Source) (fault : Fault) → IsLent (space_of node) →
        IsLent (space_of (source_acted node fault)) }
    ensures access { (space : Space) (cpu : ℕ) (command : Command) → is_access command ≡ true →
        IsLent space → IsLent (accessed space cpu command) }
    ensures call { (space : Space) (cpu : ℕ) (command : Command) → is_access command ≡ false →
        IsSoundSpace space → IsLent space → IsLent (called space cpu command) }
{}

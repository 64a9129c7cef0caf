//! A law of all steps of a destination: a function that does nothing, whose contract is the law.

ghost use Rattle.std.specs.Prelude.{◌≡◌, ℕ, true};
ghost use Rattle.mig_base.specs.declared.command.Command.{Command};
ghost use Rattle.mig_base.specs.declared.schedule.Step.{Step};
ghost use Rattle.mig_model.specs.DestinationSteps.{act, install, read};
ghost use Rattle.mig_model.specs.GuestSteps.{issue, retry};
ghost use Rattle.mig_model.specs.Migration.{World, answer, destination_acts, destination_sends, guest_tries};
ghost use Rattle.fault_handler.specs.Asking.{IsBroken, IsOwnNotice};

/// A step of the destination depends on the destination alone. In any world it has the effect, and leaves the destination, that the
/// destination's own step gives; what it sends comes after the frames in flight, or is lost while the link is down. Commands are the
/// destination's once it has run. A Notice is the destination's own while the link is down and a migration is under way: its driver must
/// know both.
pub fn a_step_of_the_destination()
    ensures read { (world : World) →
        answer world Step.DestRead ≡ destination_acts world (read world.destination) }
    ensures act { (world : World) →
        answer world Step.DestAct ≡ destination_sends world (act world.destination) }
    ensures install { (world : World) →
        answer world Step.Install ≡ destination_acts world (install world.destination) }
    ensures notice { (world : World) → IsBroken world → IsOwnNotice world }
    ensures issue { (world : World) (cpu : ℕ) (command : Command) →
        world.destination.has_run ≡ true →
        answer world (Step.Issue cpu command) ≡
        guest_tries world (issue world.destination.guest world.destination.has_run cpu command) }
    ensures retry { (world : World) (cpu : ℕ) → world.destination.has_run ≡ true →
        answer world (Step.Retry cpu) ≡
        guest_tries world (retry world.destination.guest world.destination.has_run cpu) }
{}

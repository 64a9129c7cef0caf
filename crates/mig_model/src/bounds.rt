//! Bounds that hold after every list of steps: of the guest's memory, of its processors and of the urgent wire. Each law is a
//! function with an empty body, whose contract is the law.

ghost use Rattle.std.specs.Prelude.{◌≡◌, List, length};
ghost use Rattle.mig_base.specs.declared.command.Entry.{Entry};
ghost use Rattle.mig_base.specs.Flat.{memory_of};
ghost use Rattle.mig_model.specs.Migration.{World};
ghost use Rattle.mig_model.specs.Promises.{IsReached};
ghost use Rattle.mig_model.specs.Bounds.{AreUrgentFew, HasBoundedMemory, IsWithinBounds};

/// Before the switch nothing was put on the urgent wire. From then on, until the source is released, the frames that were put on it in
/// this epoch and the remaining pages are together at most the present pages of the source.
pub fn urgent_frames_are_few()
    ensures { (world : World) → IsReached world → AreUrgentFew world }
{}

/// The guest's memory lies in the address space and has at most MAX_PAGES pages. That holds of the flat memory of every transcript, and
/// of the mapped pages of both nodes.
pub fn memory_is_bounded()
    ensures flat { (entries : List Entry) → IsWithinBounds (memory_of entries) }
    ensures world { (world : World) → IsReached world → HasBoundedMemory world }
{}

/// Each node has as many processors as the world was made with, after every list of steps.
pub fn processors_stay()
    ensures { (world : World) (reached : IsReached world) →
        (length world.source.guest.cpus ≡ reached.cpus) ×
        (length world.destination.guest.cpus ≡ reached.cpus) }
{}

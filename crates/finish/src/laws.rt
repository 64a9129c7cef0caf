//! What holds of the strategy in every world, as laws: functions that do nothing, whose contracts are the laws.

ghost use Rattle.std.specs.Option.{IfSome};
ghost use Rattle.std.specs.Prelude.{length};
ghost use Rattle.mig_model.specs.Bounds.{IsCpuCount};
ghost use Rattle.mig_model.specs.Migration.{World};
ghost use Rattle.mig_model.specs.Promises.{IsReached};
ghost use Rattle.finish.specs.Finishing.{IsDue, IsOfStrategy, finishing_step};

/// The step that the strategy names is not refused, and fewer steps are left after it: so from every world the strategy ends, after
/// at most as many steps as the definition counts.
pub fn a_step_is_due()
    ensures { (world : World) → IsReached world → IsCpuCount (length world.source.guest.cpus) →
        IfSome (finishing_step world) (IsDue world) }
{}

/// No step of the strategy is a command of a processor, a break, or a part of a round of pre-copy.
pub fn no_command_is_due()
    ensures { (world : World) → IfSome (finishing_step world) IsOfStrategy }
{}

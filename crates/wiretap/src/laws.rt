//! What a step puts on a wire. The function does nothing: its contract is the law.

ghost use Rattle.mig_base.specs.declared.schedule.Step.{Step};
ghost use Rattle.mig_model.specs.Migration.{World, next};
ghost use Rattle.wiretap.specs.Traffic.{IsPut, put_on};

/// A step puts frames at the end of a wire, after all that is in flight, or it puts none there. It puts none on a wire from which it
/// takes frames, as a delivery and a break do.
pub fn what_a_step_puts()
    ensures forward { (world : World) (step : Step) →
        IsPut world.forward (next world step).forward
        (put_on world.forward (next world step).forward) }
    ensures back { (world : World) (step : Step) →
        IsPut world.back (next world step).back (put_on world.back (next world step).back) }
    ensures urgent { (world : World) (step : Step) →
        IsPut world.urgent (next world step).urgent (put_on world.urgent (next world step).urgent) }
{}

//! What the calls of a step do. The function does nothing: its contract is the law.

ghost use Rattle.std.specs.Prelude.{◌≡◌, true, false, List, [], Ok};
ghost use Rattle.mig_base.specs.declared.Area.{Area};
ghost use Rattle.mig_base.specs.declared.effect.Effect.{Effect};
ghost use Rattle.mig_base.specs.declared.schedule.Step.{Step};
ghost use Rattle.mig_model.specs.Migration.{World, outcome};
ghost use Rattle.mig_model.specs.Promises.{IsReached};
ghost use Rattle.host_calls.specs.Calls.{calls_of, is_of_host};
ghost use Rattle.host_calls.specs.Made.{AreMadeIn};

/// The calls of a step, made one after the other, are not refused and lead from the guest of its node to the guest that the step leaves
/// there. A step that does not stand for calls has none.
pub fn calls_are_made()
    ensures made { (world : World) (step : Step) (effect : Effect) → IsReached world →
        is_of_host step ≡ true → outcome world step ≡ Ok effect → AreMadeIn world step effect }
    ensures none { (areas : List Area) (step : Step) (effect : Effect) → is_of_host step ≡ false →
        calls_of areas step effect ≡ [] }
{}

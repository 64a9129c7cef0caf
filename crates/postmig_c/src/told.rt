//! Outcomes as statuses.

ghost use Rattle.std.specs.Prelude.{◌≡◌, ◌≢◌, IfOk, IfErr, OnErr};
ghost use Rattle.postmig_c.specs.Effects.{effect_numbers};
ghost use Rattle.postmig_c.specs.Refusals.{fault_status, refusal_status};

use crate::effects::{EffectNumbers, effect_numbers};
use crate::refusals::{fault_status, refusal_status};
use crate::status::DONE;
use mig_base::effect::Effect;
use mig_base::refusal::Refusal;
use nodes::FrameFault;

/// The status of the outcome of a step. Its effect is written.
pub fn told(outcome: Result<Effect, Refusal>, effect: &mut EffectNumbers) -> u32
    ensures made { IfOk outcome (λ made. (result ≡ 0) × (effect.new ≡ effect_numbers made)) }
    ensures refused { IfErr outcome (λ refusal. result ≡ refusal_status refusal) }
    ensures stays { OnErr outcome (effect.new ≡ effect.old) }
{
    match outcome {
        Ok(made) => {
            *effect = effect_numbers(made);
            DONE
        }
        Err(refusal) => refusal_status(refusal),
    }
}

/// The status of the taking of a frame. Its effect is written.
pub fn told_of_frame(outcome: Result<Effect, FrameFault>, effect: &mut EffectNumbers) -> u32
    ensures made { IfOk outcome (λ made. (result ≡ 0) × (effect.new ≡ effect_numbers made)) }
    ensures refused { IfErr outcome (λ fault. result ≡ fault_status fault) }
    ensures stays { OnErr outcome (effect.new ≡ effect.old) }
{
    match outcome {
        Ok(made) => {
            *effect = effect_numbers(made);
            DONE
        }
        Err(fault) => fault_status(fault),
    }
}

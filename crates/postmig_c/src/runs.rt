//! Several steps of a destination by one call, for pages that arrive one after the other.

ghost use Rattle.std.specs.Prelude.{◌≡◌, ◌≢◌, ◌⊎◌, ◌<◌};
ghost use Rattle.nodes.specs.declared.steps.DestinationStep as steps;
ghost use Rattle.postmig_c.specs.NodeCalls.{DestinationRefuses, HasDestinations, HasNoDestination, TellsDestination};
ghost use Rattle.postmig_c.specs.Runs.{Installs};

use crate::effects::{EffectNumbers, effect_numbers};
use crate::handle::{Content, Handle};
use crate::refusals::refusal_status;
use crate::status::{DONE, NOT_OPEN};
use nodes::{DestinationStep, TracedDestination};
use std::alloc::Global;

/// Makes `count` installs, or those before the first that is refused.
fn do_installs(
    node: &mut TracedDestination,
    count: u32,
    effect: &mut EffectNumbers,
    made: &mut u32,
) -> u32
    ensures made { Installs made.new node.old effect.new node.new }
    ensures all { result ≡ 0 → made.new ≡ count }
    ensures fewer { result ≢ 0 → made.new < count }
    ensures refused { 64 < result →
        DestinationRefuses steps.DestinationStep.Install node.new.node result }
    ensures range { (result ≡ 0) ⊎ (result ≡ 4) ⊎ (64 < result) }
{
    for index in 0..count {
        match node.step(DestinationStep::Install) {
            Ok(done) => *effect = effect_numbers(done),
            Err(refusal) => {
                *made = index;
                return refusal_status(refusal);
            }
        }
    }
    *made = count;
    DONE
}

/// Makes `count` installs in a row, as that many calls of `postmig_destination_install`, and ends before one that is refused. `made` is how
/// many were made, and `effect` that of the last of them. 2 if the handle has no destination: then nothing is made.
#[unsafe(no_mangle)]
pub extern "C" fn postmig_destination_install_run(
    alloc: Global,
    handle: &mut Handle,
    count: u32,
    effect: &mut EffectNumbers,
    made: &mut u32,
) -> u32
    ensures made { result ≢ 2 →
        HasDestinations handle.old.content handle.new.content (λ old new.
        Installs made.new old effect.new new) }
    ensures all { result ≡ 0 → made.new ≡ count }
    ensures fewer { result ≢ 0 → result ≢ 2 → made.new < count }
    ensures refused { 64 < result →
        TellsDestination handle.new.content (λ new.
        DestinationRefuses steps.DestinationStep.Install new result) }
    ensures not_open { result ≡ 2 → HasNoDestination handle.old.content }
    ensures kept { result ≡ 2 → handle.new.content ≡ handle.old.content }
    ensures range { (result ≡ 0) ⊎ (result ≡ 2) ⊎ (result ≡ 4) ⊎ (64 < result) }
{
    let Some(mut content) = handle.take(alloc) else {
        return NOT_OPEN;
    };
    let status = match &mut *content {
        Content::Destination(node) => do_installs(node, count, effect, made),
        _ => NOT_OPEN,
    };
    *handle = Handle::of(content);
    status
}

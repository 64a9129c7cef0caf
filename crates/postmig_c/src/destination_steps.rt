//! The steps of a destination of its own.

ghost use Rattle.std.specs.Prelude.{◌≡◌, ◌≢◌, ◌⊎◌, ◌<◌, ◌↔◌};
ghost use Rattle.std.specs.Option.{IfSome};
ghost use Rattle.std.specs.declared.option.Option.TheVariants.{None as Nothing, Some as Just};
ghost use Rattle.mig_model.specs.Destination.{first_destination};
ghost use Rattle.mig_model.specs.Wire.{empty_wire};
ghost use Rattle.nodes.specs.declared.steps.DestinationStep as steps;
ghost use Rattle.postmig_c.specs.Commands.{command_of};
ghost use Rattle.postmig_c.specs.NodeCalls.{HasNoDestination, HasDestinations, DestinationMakes, DestinationRefuses, TellsDestination};
ghost use Rattle.postmig_c.specs.declared.handle.Content.TheVariants.{Destination};

use crate::commands::{CommandNumbers, command_of};
use crate::effects::EffectNumbers;
use crate::handle::{Content, Handle};
use crate::status::{NO_CPU, NO_MEMORY, NOT_A_COMMAND, NOT_OPEN};
use crate::told::told;
use crate::worlds::open;
use nodes::{DestinationNode, DestinationStep, TracedDestination};
use std::alloc::Global;

/// Puts a new destination of `cpus` processors into a handle. What it had is freed. It keeps that if the answer is not 0.
#[unsafe(no_mangle)]
pub extern "C" fn postmig_destination_new(alloc: Global, cpus: u8, handle: &mut Handle) -> u32
    ensures ok { result ≡ 0 →
        handle.new.content ≡
        Just
        (Destination
        (record {
          node = record { node = first_destination cpus; wire = empty_wire };
          trace = Nothing;
        })) }
    ensures refused { result ≢ 0 → handle.new.content ≡ handle.old.content }
{
    if cpus < 1 || cpus > 16 {
        return NO_CPU;
    }
    let Ok(node) = DestinationNode::new(alloc, cpus) else {
        return NO_MEMORY;
    };
    open(
        alloc,
        Content::Destination(TracedDestination::new(alloc, node)),
        handle,
    )
}

/// Makes a step of a destination, and answers a status.
fn do_step(node: &mut TracedDestination, step: DestinationStep, effect: &mut EffectNumbers) -> u32
    ensures made { result ≡ 0 → DestinationMakes step node.old effect.new node.new }
    ensures refused { 64 < result → DestinationRefuses step node.old.node result }
    ensures kept { result ≢ 0 → node.new ≡ node.old }
    ensures open { result ≢ 2 }
    ensures range { (result ≡ 0) ⊎ (result ≡ 4) ⊎ (64 < result) }
{
    told(node.step(step), effect)
}

/// Makes a step of the destination of a handle.
fn step_destination(
    alloc: Global,
    handle: &mut Handle,
    step: DestinationStep,
    effect: &mut EffectNumbers,
) -> u32
    ensures made { result ≡ 0 →
        HasDestinations handle.old.content handle.new.content (λ old new.
        DestinationMakes step old effect.new new) }
    ensures refused { 64 < result →
        TellsDestination handle.old.content (λ old. DestinationRefuses step old result) }
    ensures not_open { result ≡ 2 → HasNoDestination handle.old.content }
    ensures kept { result ≢ 0 → handle.new.content ≡ handle.old.content }
    ensures range { (result ≡ 0) ⊎ (result ≡ 2) ⊎ (result ≡ 4) ⊎ (64 < result) }
{
    let Some(mut content) = handle.take(alloc) else {
        return NOT_OPEN;
    };
    let status = match &mut *content {
        Content::Destination(node) => do_step(node, step, effect),
        _ => NOT_OPEN,
    };
    *handle = Handle::of(content);
    status
}

/// Has a processor make a command. 12 if the numbers are not those of a command.
#[unsafe(no_mangle)]
pub extern "C" fn postmig_destination_issue(
    alloc: Global,
    handle: &mut Handle,
    cpu: u8,
    command: &CommandNumbers,
    effect: &mut EffectNumbers,
) -> u32
    ensures made { result ≡ 0 →
        IfSome (command_of command.now) (λ command.
        HasDestinations handle.old.content handle.new.content (λ old new.
        DestinationMakes (steps.DestinationStep.Issue cpu command) old effect.new new)) }
    ensures refused { 64 < result →
        IfSome (command_of command.now) (λ command.
        TellsDestination handle.old.content (λ old.
        DestinationRefuses (steps.DestinationStep.Issue cpu command) old result)) }
    ensures no_command { (result ≡ 12) ↔ (command_of command.now ≡ Nothing) }
    ensures not_open { result ≡ 2 → HasNoDestination handle.old.content }
    ensures kept { result ≢ 0 → handle.new.content ≡ handle.old.content }
    ensures range { (result ≡ 0) ⊎ (result ≡ 2) ⊎ (result ≡ 4) ⊎ (result ≡ 12) ⊎ (64 < result) }
{
    match command_of(command) {
        Some(command) => step_destination(
            alloc,
            handle,
            DestinationStep::Issue { cpu, command },
            effect,
        ),
        None => NOT_A_COMMAND,
    }
}

/// Has a woken processor make its load or store again.
#[unsafe(no_mangle)]
pub extern "C" fn postmig_destination_retry(
    alloc: Global,
    handle: &mut Handle,
    cpu: u8,
    effect: &mut EffectNumbers,
) -> u32
    ensures made { result ≡ 0 →
        HasDestinations handle.old.content handle.new.content (λ old new.
        DestinationMakes (steps.DestinationStep.Retry cpu) old effect.new new) }
    ensures refused { 64 < result →
        TellsDestination handle.old.content (λ old.
        DestinationRefuses (steps.DestinationStep.Retry cpu) old result) }
    ensures not_open { result ≡ 2 → HasNoDestination handle.old.content }
    ensures kept { result ≢ 0 → handle.new.content ≡ handle.old.content }
    ensures range { (result ≡ 0) ⊎ (result ≡ 2) ⊎ (result ≡ 4) ⊎ (64 < result) }
{
    step_destination(alloc, handle, DestinationStep::Retry { cpu }, effect)
}

/// Reads the next message.
#[unsafe(no_mangle)]
pub extern "C" fn postmig_destination_read(
    alloc: Global,
    handle: &mut Handle,
    effect: &mut EffectNumbers,
) -> u32
    ensures made { result ≡ 0 →
        HasDestinations handle.old.content handle.new.content (λ old new.
        DestinationMakes steps.DestinationStep.Read old effect.new new) }
    ensures refused { 64 < result →
        TellsDestination handle.old.content (λ old.
        DestinationRefuses steps.DestinationStep.Read old result) }
    ensures not_open { result ≡ 2 → HasNoDestination handle.old.content }
    ensures kept { result ≢ 0 → handle.new.content ≡ handle.old.content }
    ensures range { (result ≡ 0) ⊎ (result ≡ 2) ⊎ (result ≡ 4) ⊎ (64 < result) }
{
    step_destination(alloc, handle, DestinationStep::Read, effect)
}

/// Resolves the first fault that was read. A Request may wait.
#[unsafe(no_mangle)]
pub extern "C" fn postmig_destination_act(
    alloc: Global,
    handle: &mut Handle,
    effect: &mut EffectNumbers,
) -> u32
    ensures made { result ≡ 0 →
        HasDestinations handle.old.content handle.new.content (λ old new.
        DestinationMakes steps.DestinationStep.Act old effect.new new) }
    ensures refused { 64 < result →
        TellsDestination handle.old.content (λ old.
        DestinationRefuses steps.DestinationStep.Act old result) }
    ensures not_open { result ≡ 2 → HasNoDestination handle.old.content }
    ensures kept { result ≢ 0 → handle.new.content ≡ handle.old.content }
    ensures range { (result ≡ 0) ⊎ (result ≡ 2) ⊎ (result ≡ 4) ⊎ (64 < result) }
{
    step_destination(alloc, handle, DestinationStep::Act, effect)
}

/// The first copy that arrived is installed or dropped: the caller puts its bytes.
#[unsafe(no_mangle)]
pub extern "C" fn postmig_destination_install(
    alloc: Global,
    handle: &mut Handle,
    effect: &mut EffectNumbers,
) -> u32
    ensures made { result ≡ 0 →
        HasDestinations handle.old.content handle.new.content (λ old new.
        DestinationMakes steps.DestinationStep.Install old effect.new new) }
    ensures refused { 64 < result →
        TellsDestination handle.old.content (λ old.
        DestinationRefuses steps.DestinationStep.Install old result) }
    ensures not_open { result ≡ 2 → HasNoDestination handle.old.content }
    ensures kept { result ≢ 0 → handle.new.content ≡ handle.old.content }
    ensures range { (result ≡ 0) ⊎ (result ≡ 2) ⊎ (result ≡ 4) ⊎ (64 < result) }
{
    step_destination(alloc, handle, DestinationStep::Install, effect)
}

/// Notices that the channel is broken.
#[unsafe(no_mangle)]
pub extern "C" fn postmig_destination_notice(
    alloc: Global,
    handle: &mut Handle,
    effect: &mut EffectNumbers,
) -> u32
    ensures made { result ≡ 0 →
        HasDestinations handle.old.content handle.new.content (λ old new.
        DestinationMakes steps.DestinationStep.Notice old effect.new new) }
    ensures refused { 64 < result →
        TellsDestination handle.old.content (λ old.
        DestinationRefuses steps.DestinationStep.Notice old result) }
    ensures not_open { result ≡ 2 → HasNoDestination handle.old.content }
    ensures kept { result ≢ 0 → handle.new.content ≡ handle.old.content }
    ensures range { (result ≡ 0) ⊎ (result ≡ 2) ⊎ (result ≡ 4) ⊎ (64 < result) }
{
    step_destination(alloc, handle, DestinationStep::Notice, effect)
}

//! The steps of a source of its own.

ghost use Rattle.std.specs.Prelude.{◌≡◌, ◌≢◌, ◌⊎◌, ◌<◌, ◌↔◌};
ghost use Rattle.std.specs.Option.{IfSome};
ghost use Rattle.std.specs.declared.option.Option.TheVariants.{None as Nothing, Some as Just};
ghost use Rattle.mig_model.specs.Source.{first_source};
ghost use Rattle.mig_model.specs.Wire.{empty_wire};
ghost use Rattle.nodes.specs.declared.steps.SourceStep as steps;
ghost use Rattle.postmig_c.specs.Commands.{command_of};
ghost use Rattle.postmig_c.specs.NodeCalls.{HasNoSource, HasSources, SourceMakes, SourceRefuses, TellsSource};
ghost use Rattle.postmig_c.specs.declared.handle.Content.TheVariants.{Source};

use crate::commands::{CommandNumbers, command_of};
use crate::effects::EffectNumbers;
use crate::handle::{Content, Handle};
use crate::status::{NO_CPU, NO_MEMORY, NOT_A_COMMAND, NOT_OPEN};
use crate::told::told;
use crate::worlds::open;
use mig_base::PageNo;
use mig_base::schedule::Ticket;
use nodes::{SourceNode, SourceStep, TracedSource};
use std::alloc::Global;

/// Puts a new source of `cpus` processors into a handle, with these counts as the epoch and the number of rounds. What it had is freed. It
/// keeps that if the answer is not 0.
#[unsafe(no_mangle)]
pub extern "C" fn postmig_source_new(
    alloc: Global,
    cpus: u8,
    epoch: u32,
    rounds: u32,
    handle: &mut Handle,
) -> u32
    ensures ok { result ≡ 0 →
        handle.new.content ≡
        Just
        (Source
        (record {
          node = record { node = first_source cpus epoch rounds; wire = empty_wire };
          trace = Nothing;
        })) }
    ensures refused { result ≢ 0 → handle.new.content ≡ handle.old.content }
{
    if cpus < 1 || cpus > 16 {
        return NO_CPU;
    }
    let Ok(node) = SourceNode::new(alloc, cpus, epoch, rounds) else {
        return NO_MEMORY;
    };
    open(
        alloc,
        Content::Source(TracedSource::new(alloc, node)),
        handle,
    )
}

/// Makes a step of a source, and answers a status.
fn do_step(node: &mut TracedSource, step: SourceStep, effect: &mut EffectNumbers) -> u32
    ensures made { result ≡ 0 → SourceMakes step node.old effect.new node.new }
    ensures refused { 64 < result → SourceRefuses step node.old.node result }
    ensures kept { result ≢ 0 → node.new ≡ node.old }
    ensures open { result ≢ 2 }
    ensures range { (result ≡ 0) ⊎ (result ≡ 4) ⊎ (64 < result) }
{
    told(node.step(step), effect)
}

/// Makes a step of the source of a handle.
fn step_source(
    alloc: Global,
    handle: &mut Handle,
    step: SourceStep,
    effect: &mut EffectNumbers,
) -> u32
    ensures made { result ≡ 0 →
        HasSources handle.old.content handle.new.content (λ old new.
        SourceMakes step old effect.new new) }
    ensures refused { 64 < result →
        TellsSource handle.old.content (λ old. SourceRefuses step old result) }
    ensures not_open { result ≡ 2 → HasNoSource handle.old.content }
    ensures kept { result ≢ 0 → handle.new.content ≡ handle.old.content }
    ensures range { (result ≡ 0) ⊎ (result ≡ 2) ⊎ (result ≡ 4) ⊎ (64 < result) }
{
    let Some(mut content) = handle.take(alloc) else {
        return NOT_OPEN;
    };
    let status = match &mut *content {
        Content::Source(node) => do_step(node, step, effect),
        _ => NOT_OPEN,
    };
    *handle = Handle::of(content);
    status
}

/// Has a processor make a command. 12 if the numbers are not those of a command.
#[unsafe(no_mangle)]
pub extern "C" fn postmig_source_issue(
    alloc: Global,
    handle: &mut Handle,
    cpu: u8,
    command: &CommandNumbers,
    effect: &mut EffectNumbers,
) -> u32
    ensures made { result ≡ 0 →
        IfSome (command_of command.now) (λ command.
        HasSources handle.old.content handle.new.content (λ old new.
        SourceMakes (steps.SourceStep.Issue cpu command) old effect.new new)) }
    ensures refused { 64 < result →
        IfSome (command_of command.now) (λ command.
        TellsSource handle.old.content (λ old.
        SourceRefuses (steps.SourceStep.Issue cpu command) old result)) }
    ensures no_command { (result ≡ 12) ↔ (command_of command.now ≡ Nothing) }
    ensures not_open { result ≡ 2 → HasNoSource handle.old.content }
    ensures kept { result ≢ 0 → handle.new.content ≡ handle.old.content }
    ensures range { (result ≡ 0) ⊎ (result ≡ 2) ⊎ (result ≡ 4) ⊎ (result ≡ 12) ⊎ (64 < result) }
{
    match command_of(command) {
        Some(command) => step_source(alloc, handle, SourceStep::Issue { cpu, command }, effect),
        None => NOT_A_COMMAND,
    }
}

/// Has a woken processor make its load or store again.
#[unsafe(no_mangle)]
pub extern "C" fn postmig_source_retry(
    alloc: Global,
    handle: &mut Handle,
    cpu: u8,
    effect: &mut EffectNumbers,
) -> u32
    ensures made { result ≡ 0 →
        HasSources handle.old.content handle.new.content (λ old new.
        SourceMakes (steps.SourceStep.Retry cpu) old effect.new new) }
    ensures refused { 64 < result →
        TellsSource handle.old.content (λ old.
        SourceRefuses (steps.SourceStep.Retry cpu) old result) }
    ensures not_open { result ≡ 2 → HasNoSource handle.old.content }
    ensures kept { result ≢ 0 → handle.new.content ≡ handle.old.content }
    ensures range { (result ≡ 0) ⊎ (result ≡ 2) ⊎ (result ≡ 4) ⊎ (64 < result) }
{
    step_source(alloc, handle, SourceStep::Retry { cpu }, effect)
}

/// Begins a migration: Advise waits.
#[unsafe(no_mangle)]
pub extern "C" fn postmig_source_start(
    alloc: Global,
    handle: &mut Handle,
    effect: &mut EffectNumbers,
) -> u32
    ensures made { result ≡ 0 →
        HasSources handle.old.content handle.new.content (λ old new.
        SourceMakes steps.SourceStep.Start old effect.new new) }
    ensures refused { 64 < result →
        TellsSource handle.old.content (λ old. SourceRefuses steps.SourceStep.Start old result) }
    ensures not_open { result ≡ 2 → HasNoSource handle.old.content }
    ensures kept { result ≢ 0 → handle.new.content ≡ handle.old.content }
    ensures range { (result ≡ 0) ⊎ (result ≡ 2) ⊎ (result ≡ 4) ⊎ (64 < result) }
{
    step_source(alloc, handle, SourceStep::Start, effect)
}

/// Begins a round of pre-copy.
#[unsafe(no_mangle)]
pub extern "C" fn postmig_source_round(
    alloc: Global,
    handle: &mut Handle,
    effect: &mut EffectNumbers,
) -> u32
    ensures made { result ≡ 0 →
        HasSources handle.old.content handle.new.content (λ old new.
        SourceMakes steps.SourceStep.Round old effect.new new) }
    ensures refused { 64 < result →
        TellsSource handle.old.content (λ old. SourceRefuses steps.SourceStep.Round old result) }
    ensures not_open { result ≡ 2 → HasNoSource handle.old.content }
    ensures kept { result ≢ 0 → handle.new.content ≡ handle.old.content }
    ensures range { (result ≡ 0) ⊎ (result ≡ 2) ⊎ (result ≡ 4) ⊎ (64 < result) }
{
    step_source(alloc, handle, SourceStep::Round, effect)
}

/// The least page of the round is sent: the caller sends it.
#[unsafe(no_mangle)]
pub extern "C" fn postmig_source_send(
    alloc: Global,
    handle: &mut Handle,
    effect: &mut EffectNumbers,
) -> u32
    ensures made { result ≡ 0 →
        HasSources handle.old.content handle.new.content (λ old new.
        SourceMakes steps.SourceStep.Send old effect.new new) }
    ensures refused { 64 < result →
        TellsSource handle.old.content (λ old. SourceRefuses steps.SourceStep.Send old result) }
    ensures not_open { result ≡ 2 → HasNoSource handle.old.content }
    ensures kept { result ≢ 0 → handle.new.content ≡ handle.old.content }
    ensures range { (result ≡ 0) ⊎ (result ≡ 2) ⊎ (result ≡ 4) ⊎ (64 < result) }
{
    step_source(alloc, handle, SourceStep::Send, effect)
}

/// The least pages of the round, at most `most` without a gap, are sent: the caller sends the run.
#[unsafe(no_mangle)]
pub extern "C" fn postmig_source_run_sent(
    alloc: Global,
    handle: &mut Handle,
    most: u8,
    effect: &mut EffectNumbers,
) -> u32
    ensures made { result ≡ 0 →
        HasSources handle.old.content handle.new.content (λ old new.
        SourceMakes (steps.SourceStep.RunSent most) old effect.new new) }
    ensures refused { 64 < result →
        TellsSource handle.old.content (λ old.
        SourceRefuses (steps.SourceStep.RunSent most) old result) }
    ensures not_open { result ≡ 2 → HasNoSource handle.old.content }
    ensures kept { result ≢ 0 → handle.new.content ≡ handle.old.content }
    ensures range { (result ≡ 0) ⊎ (result ≡ 2) ⊎ (result ≡ 4) ⊎ (64 < result) }
{
    step_source(alloc, handle, SourceStep::RunSent { most }, effect)
}

/// Reads the next message.
#[unsafe(no_mangle)]
pub extern "C" fn postmig_source_read(
    alloc: Global,
    handle: &mut Handle,
    effect: &mut EffectNumbers,
) -> u32
    ensures made { result ≡ 0 →
        HasSources handle.old.content handle.new.content (λ old new.
        SourceMakes steps.SourceStep.Read old effect.new new) }
    ensures refused { 64 < result →
        TellsSource handle.old.content (λ old. SourceRefuses steps.SourceStep.Read old result) }
    ensures not_open { result ≡ 2 → HasNoSource handle.old.content }
    ensures kept { result ≢ 0 → handle.new.content ≡ handle.old.content }
    ensures range { (result ≡ 0) ⊎ (result ≡ 2) ⊎ (result ≡ 4) ⊎ (64 < result) }
{
    step_source(alloc, handle, SourceStep::Read, effect)
}

/// Resolves the first fault that was read.
#[unsafe(no_mangle)]
pub extern "C" fn postmig_source_act(
    alloc: Global,
    handle: &mut Handle,
    effect: &mut EffectNumbers,
) -> u32
    ensures made { result ≡ 0 →
        HasSources handle.old.content handle.new.content (λ old new.
        SourceMakes steps.SourceStep.Act old effect.new new) }
    ensures refused { 64 < result →
        TellsSource handle.old.content (λ old. SourceRefuses steps.SourceStep.Act old result) }
    ensures not_open { result ≡ 2 → HasNoSource handle.old.content }
    ensures kept { result ≢ 0 → handle.new.content ≡ handle.old.content }
    ensures range { (result ≡ 0) ⊎ (result ≡ 2) ⊎ (result ≡ 4) ⊎ (64 < result) }
{
    step_source(alloc, handle, SourceStep::Act, effect)
}

/// Stops the processors for good: Discard and Package wait.
#[unsafe(no_mangle)]
pub extern "C" fn postmig_source_switch(
    alloc: Global,
    handle: &mut Handle,
    effect: &mut EffectNumbers,
) -> u32
    ensures made { result ≡ 0 →
        HasSources handle.old.content handle.new.content (λ old new.
        SourceMakes steps.SourceStep.Switch old effect.new new) }
    ensures refused { 64 < result →
        TellsSource handle.old.content (λ old. SourceRefuses steps.SourceStep.Switch old result) }
    ensures not_open { result ≡ 2 → HasNoSource handle.old.content }
    ensures kept { result ≢ 0 → handle.new.content ≡ handle.old.content }
    ensures range { (result ≡ 0) ⊎ (result ≡ 2) ⊎ (result ≡ 4) ⊎ (64 < result) }
{
    step_source(alloc, handle, SourceStep::Switch, effect)
}

/// An owed page is sent: the caller sends it.
#[unsafe(no_mangle)]
pub extern "C" fn postmig_source_push(
    alloc: Global,
    handle: &mut Handle,
    epoch: u32,
    page: PageNo,
    effect: &mut EffectNumbers,
) -> u32
    ensures made { result ≡ 0 →
        HasSources handle.old.content handle.new.content (λ old new.
        SourceMakes (steps.SourceStep.Push (record { epoch = epoch; page = page })) old effect.new
        new) }
    ensures refused { 64 < result →
        TellsSource handle.old.content (λ old.
        SourceRefuses (steps.SourceStep.Push (record { epoch = epoch; page = page })) old result) }
    ensures not_open { result ≡ 2 → HasNoSource handle.old.content }
    ensures kept { result ≢ 0 → handle.new.content ≡ handle.old.content }
    ensures range { (result ≡ 0) ⊎ (result ≡ 2) ⊎ (result ≡ 4) ⊎ (64 < result) }
{
    step_source(
        alloc,
        handle,
        SourceStep::Push(Ticket { epoch, page }),
        effect,
    )
}

/// An owed page is sent on the urgent wire: the caller sends it.
#[unsafe(no_mangle)]
pub extern "C" fn postmig_source_push_urgent(
    alloc: Global,
    handle: &mut Handle,
    epoch: u32,
    page: PageNo,
    effect: &mut EffectNumbers,
) -> u32
    ensures made { result ≡ 0 →
        HasSources handle.old.content handle.new.content (λ old new.
        SourceMakes (steps.SourceStep.PushUrgent (record { epoch = epoch; page = page })) old
        effect.new new) }
    ensures refused { 64 < result →
        TellsSource handle.old.content (λ old.
        SourceRefuses (steps.SourceStep.PushUrgent (record { epoch = epoch; page = page })) old
        result) }
    ensures not_open { result ≡ 2 → HasNoSource handle.old.content }
    ensures kept { result ≢ 0 → handle.new.content ≡ handle.old.content }
    ensures range { (result ≡ 0) ⊎ (result ≡ 2) ⊎ (result ≡ 4) ⊎ (64 < result) }
{
    step_source(
        alloc,
        handle,
        SourceStep::PushUrgent(Ticket { epoch, page }),
        effect,
    )
}

/// Dequeues the oldest request.
#[unsafe(no_mangle)]
pub extern "C" fn postmig_source_serve(
    alloc: Global,
    handle: &mut Handle,
    effect: &mut EffectNumbers,
) -> u32
    ensures made { result ≡ 0 →
        HasSources handle.old.content handle.new.content (λ old new.
        SourceMakes steps.SourceStep.Serve old effect.new new) }
    ensures refused { 64 < result →
        TellsSource handle.old.content (λ old. SourceRefuses steps.SourceStep.Serve old result) }
    ensures not_open { result ≡ 2 → HasNoSource handle.old.content }
    ensures kept { result ≢ 0 → handle.new.content ≡ handle.old.content }
    ensures range { (result ≡ 0) ⊎ (result ≡ 2) ⊎ (result ≡ 4) ⊎ (64 < result) }
{
    step_source(alloc, handle, SourceStep::Serve, effect)
}

/// Nothing more is sent: End waits.
#[unsafe(no_mangle)]
pub extern "C" fn postmig_source_end(
    alloc: Global,
    handle: &mut Handle,
    effect: &mut EffectNumbers,
) -> u32
    ensures made { result ≡ 0 →
        HasSources handle.old.content handle.new.content (λ old new.
        SourceMakes steps.SourceStep.End old effect.new new) }
    ensures refused { 64 < result →
        TellsSource handle.old.content (λ old. SourceRefuses steps.SourceStep.End old result) }
    ensures not_open { result ≡ 2 → HasNoSource handle.old.content }
    ensures kept { result ≢ 0 → handle.new.content ≡ handle.old.content }
    ensures range { (result ≡ 0) ⊎ (result ≡ 2) ⊎ (result ≡ 4) ⊎ (64 < result) }
{
    step_source(alloc, handle, SourceStep::End, effect)
}

/// Notices that the channel is broken.
#[unsafe(no_mangle)]
pub extern "C" fn postmig_source_notice(
    alloc: Global,
    handle: &mut Handle,
    effect: &mut EffectNumbers,
) -> u32
    ensures made { result ≡ 0 →
        HasSources handle.old.content handle.new.content (λ old new.
        SourceMakes steps.SourceStep.Notice old effect.new new) }
    ensures refused { 64 < result →
        TellsSource handle.old.content (λ old. SourceRefuses steps.SourceStep.Notice old result) }
    ensures not_open { result ≡ 2 → HasNoSource handle.old.content }
    ensures kept { result ≢ 0 → handle.new.content ≡ handle.old.content }
    ensures range { (result ≡ 0) ⊎ (result ≡ 2) ⊎ (result ≡ 4) ⊎ (64 < result) }
{
    step_source(alloc, handle, SourceStep::Notice, effect)
}

/// Begins the next epoch, over a new channel: Resume waits.
#[unsafe(no_mangle)]
pub extern "C" fn postmig_source_resume(
    alloc: Global,
    handle: &mut Handle,
    effect: &mut EffectNumbers,
) -> u32
    ensures made { result ≡ 0 →
        HasSources handle.old.content handle.new.content (λ old new.
        SourceMakes steps.SourceStep.Resume old effect.new new) }
    ensures refused { 64 < result →
        TellsSource handle.old.content (λ old. SourceRefuses steps.SourceStep.Resume old result) }
    ensures not_open { result ≡ 2 → HasNoSource handle.old.content }
    ensures kept { result ≢ 0 → handle.new.content ≡ handle.old.content }
    ensures range { (result ≡ 0) ⊎ (result ≡ 2) ⊎ (result ≡ 4) ⊎ (64 < result) }
{
    step_source(alloc, handle, SourceStep::Resume, effect)
}

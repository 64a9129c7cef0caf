//! What a node would do next: the questions that a driver asks before it does it to real memory.

ghost use Rattle.std.specs.Prelude.{◌≡◌, ◌≢◌, ◌⊎◌, ◌≤◌, ◌<◌, ℕ, false, true, Ok};
ghost use Rattle.std.specs.FinSet.{contains};
ghost use Rattle.mig_model.specs.DestinationSteps as destinations;
ghost use Rattle.mig_model.specs.NodeSteps.{and_then};
ghost use Rattle.mig_model.specs.SourceSteps as sources;
ghost use Rattle.postmig_c.specs.NodeCalls.{HasNoDestination, HasNoSource, TellsDestination, TellsSource};
ghost use Rattle.postmig_c.specs.Questions.{Shows, ShowsRun, effect_of, effect_sent};

use crate::effects::EffectNumbers;
use crate::handle::{Content, Handle};
use crate::refusals::refusal_status;
use crate::status::{DONE, NO_PAGE, NOT_OPEN};
use crate::told::told;
use mig_base::effect::Effect;
use mig_base::refusal::Refusal;
use mig_base::{PageNo, page_address};
use nodes::{DestinationNode, SourceNode};
use std::alloc::Global;

/// The run that a source would send, as a status.
fn show_run(node: &SourceNode, most: u8, first: &mut PageNo, count: &mut u32) -> u32
    ensures { ShowsRun (sources.send_run node.now.node most) result first.new count.new }
{
    match node.node().next_run(most) {
        Ok((page, pages)) => {
            *first = page;
            *count = pages;
            DONE
        }
        Err(refusal) => refusal_status(refusal),
    }
}

/// Says what `postmig_source_run_sent` would send.
#[unsafe(no_mangle)]
pub extern "C" fn postmig_source_next_run(
    alloc: Global,
    handle: &mut Handle,
    most: u8,
    first: &mut PageNo,
    count: &mut u32,
) -> u32
    ensures answer { result ≢ 2 →
        TellsSource handle.old.content (λ old.
        ShowsRun (sources.send_run old.node most) result first.new count.new) }
    ensures not_open { result ≡ 2 → HasNoSource handle.old.content }
    ensures same { handle.new.content ≡ handle.old.content }
{
    let Some(content) = handle.take(alloc) else {
        return NOT_OPEN;
    };
    let status = match &*content {
        Content::Source(node) => show_run(node.node(), most, first, count),
        _ => NOT_OPEN,
    };
    *handle = Handle::of(content);
    status
}

/// The effect that the next act of a source would have.
fn source_act(node: &SourceNode) -> Result<Effect, Refusal>
    ensures { result ≡ effect_of (sources.act node.now.node) }
{
    let (act, addr) = node.node().next_act()?;
    Ok(act.effect(addr))
}

/// Says what effect `postmig_source_act` would have.
#[unsafe(no_mangle)]
pub extern "C" fn postmig_source_next_act(
    alloc: Global,
    handle: &mut Handle,
    effect: &mut EffectNumbers,
) -> u32
    ensures answer { result ≢ 2 →
        TellsSource handle.old.content (λ old.
        Shows (effect_of (sources.act old.node)) result effect.new) }
    ensures not_open { result ≡ 2 → HasNoSource handle.old.content }
    ensures same { handle.new.content ≡ handle.old.content }
{
    let Some(content) = handle.take(alloc) else {
        return NOT_OPEN;
    };
    let status = match &*content {
        Content::Source(node) => told(source_act(node.node()), effect),
        _ => NOT_OPEN,
    };
    *handle = Handle::of(content);
    status
}

/// The first page that remains, as a status.
fn show_remaining(node: &SourceNode, from: PageNo, page: &mut PageNo) -> u32
    ensures page { result ≡ 0 →
        (from ≤ page.new) × (contains node.now.node.remaining page.new ≡ true) }
    ensures first { result ≡ 0 → (other : ℕ) → from ≤ other → other < page.new →
        contains node.now.node.remaining other ≡ false }
    ensures none { result ≡ 13 → (other : ℕ) → from ≤ other →
        contains node.now.node.remaining other ≡ false }
    ensures range { (result ≡ 0) ⊎ (result ≡ 13) }
{
    match node.node().next_remaining(from) {
        Some(found) => {
            *page = found;
            DONE
        }
        None => NO_PAGE,
    }
}

/// Says which page is the first from `from` on that is owed and was not sent in this epoch.
#[unsafe(no_mangle)]
pub extern "C" fn postmig_source_next_remaining(
    alloc: Global,
    handle: &mut Handle,
    from: PageNo,
    page: &mut PageNo,
) -> u32
    ensures page { result ≡ 0 →
        TellsSource handle.old.content (λ old.
        (from ≤ page.new) × (contains old.node.remaining page.new ≡ true)) }
    ensures first { result ≡ 0 →
        TellsSource handle.old.content (λ old. (other : ℕ) → from ≤ other → other < page.new →
        contains old.node.remaining other ≡ false) }
    ensures none { result ≡ 13 →
        TellsSource handle.old.content (λ old. (other : ℕ) → from ≤ other →
        contains old.node.remaining other ≡ false) }
    ensures not_open { result ≡ 2 → HasNoSource handle.old.content }
    ensures same { handle.new.content ≡ handle.old.content }
    ensures range { (result ≡ 0) ⊎ (result ≡ 2) ⊎ (result ≡ 13) }
{
    let Some(content) = handle.take(alloc) else {
        return NOT_OPEN;
    };
    let status = match &*content {
        Content::Source(node) => show_remaining(node.node(), from, page),
        _ => NOT_OPEN,
    };
    *handle = Handle::of(content);
    status
}

/// The effect that the next act of a destination would have.
fn destination_act(node: &DestinationNode) -> Result<Effect, Refusal>
    ensures { result ≡ effect_sent (destinations.act node.now.node) }
{
    let (act, addr) = node.node().next_act()?;
    Ok(act.effect(addr))
}

/// Says what effect `postmig_destination_act` would have.
#[unsafe(no_mangle)]
pub extern "C" fn postmig_destination_next_act(
    alloc: Global,
    handle: &mut Handle,
    effect: &mut EffectNumbers,
) -> u32
    ensures answer { result ≢ 2 →
        TellsDestination handle.old.content (λ old.
        Shows (effect_sent (destinations.act old.node)) result effect.new) }
    ensures not_open { result ≡ 2 → HasNoDestination handle.old.content }
    ensures same { handle.new.content ≡ handle.old.content }
{
    let Some(content) = handle.take(alloc) else {
        return NOT_OPEN;
    };
    let status = match &*content {
        Content::Destination(node) => told(destination_act(node.node()), effect),
        _ => NOT_OPEN,
    };
    *handle = Handle::of(content);
    status
}

/// The effect that the next install of a destination would have.
fn destination_install(node: &DestinationNode) -> Result<Effect, Refusal>
    ensures { result ≡ effect_of (destinations.install node.now.node) }
{
    let (origin, home) = node.node().next_install()?;
    let origin = page_address(origin);
    Ok(match home {
        Some(page) => Effect::Installed {
            addr: page_address(page),
            origin,
        },
        None => Effect::Dropped { origin },
    })
}

/// Says what effect `postmig_destination_install` would have.
#[unsafe(no_mangle)]
pub extern "C" fn postmig_destination_next_install(
    alloc: Global,
    handle: &mut Handle,
    effect: &mut EffectNumbers,
) -> u32
    ensures answer { result ≢ 2 →
        TellsDestination handle.old.content (λ old.
        Shows (effect_of (destinations.install old.node)) result effect.new) }
    ensures not_open { result ≡ 2 → HasNoDestination handle.old.content }
    ensures same { handle.new.content ≡ handle.old.content }
{
    let Some(content) = handle.take(alloc) else {
        return NOT_OPEN;
    };
    let status = match &*content {
        Content::Destination(node) => told(destination_install(node.node()), effect),
        _ => NOT_OPEN,
    };
    *handle = Handle::of(content);
    status
}

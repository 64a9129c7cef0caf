//! The frames that a destination of its own takes, and what it says of itself.

ghost use Rattle.std.specs.Prelude.{◌≡◌, ◌≢◌, ◌⊎◌};
ghost use Rattle.std.specs.declared.option.Option.TheVariants.{None as Nothing, Some as Just};
ghost use Rattle.mig_model.specs.Owed.{home};
ghost use Rattle.nodes.specs.declared.fault.FrameFault.{FrameFault};
ghost use Rattle.postmig_c.specs.Refusals.{fault_status};
ghost use Rattle.postmig_c.specs.NodeCalls.{DestinationIsLeft, DestinationTakes, DestinationTakesNot, DestinationTakesNotUrgently, DestinationTakesUrgently, HasDestinations, HasNoDestination, TellsDestination, destination_counts, destination_phase};

use crate::effects::EffectNumbers;
use crate::handle::{Content, Handle};
use crate::status::{DONE, NO_PAGE, NOT_OPEN};
use crate::told::told_of_frame;
use mig_base::PageNo;
use mig_base::phase::DestPhase;
use nodes::{DestinationNode, TracedDestination};
use std::alloc::Global;

/// How far a destination has come, in numbers.
#[repr(C)]
#[derive(Clone, Copy)]
pub struct DestinationCounts {
    /// 0 idle, 1 advised, 2 discarding, 3 running, 4 paused, 5 ended.
    pub phase: u32,
    /// 1 once it has taken a Package.
    pub has_run: u32,
    pub epoch: u32,
    /// Pages that it still has to get.
    pub owed: u32,
    /// 1 if frames wait.
    pub waiting: u32,
    /// Pages that were requested and not installed.
    pub requests: u64,
    /// Copies that wait to be installed.
    pub arrivals: u64,
    /// Unread events.
    pub changing: u64,
    /// Copies that were installed.
    pub installed: u64,
    /// Copies that were dropped.
    pub dropped: u64,
    /// Faults read.
    pub faults: u64,
}

/// Hands a destination the bytes of a frame, and answers a status.
fn take_forward(node: &mut TracedDestination, bytes: &[u8], effect: &mut EffectNumbers) -> u32
    ensures made { result ≡ 0 → DestinationTakes bytes.now node.old effect.new node.new }
    ensures refused { result ≢ 0 → DestinationTakesNot bytes.now node.old.node result }
    ensures kept { result ≢ 0 → result ≢ 4 → node.new ≡ node.old }
    ensures left { result ≢ 0 → DestinationIsLeft bytes.now node.old node.new }
    ensures open { result ≢ 2 }
{
    told_of_frame(node.take(bytes), effect)
}

/// Takes a frame of the wire from the source, by its text without the bytes of pages.
#[unsafe(no_mangle)]
pub extern "C" fn postmig_destination_take(
    alloc: Global,
    handle: &mut Handle,
    bytes: &[u8],
    effect: &mut EffectNumbers,
) -> u32
    ensures made { result ≡ 0 →
        HasDestinations handle.old.content handle.new.content (λ old new.
        DestinationTakes bytes.now old effect.new new) }
    ensures refused { result ≢ 0 → result ≢ 2 →
        TellsDestination handle.old.content (λ old. DestinationTakesNot bytes.now old result) }
    ensures not_open { result ≡ 2 → HasNoDestination handle.old.content }
    ensures kept { result ≢ 0 → result ≢ 4 → handle.new.content ≡ handle.old.content }
    ensures left { result ≡ 4 →
        HasDestinations handle.old.content handle.new.content (λ old new.
        DestinationIsLeft bytes.now old new) }
{
    let Some(mut content) = handle.take(alloc) else {
        return NOT_OPEN;
    };
    let status = match &mut *content {
        Content::Destination(node) => take_forward(node, bytes, effect),
        _ => NOT_OPEN,
    };
    *handle = Handle::of(content);
    status
}

/// Hands a destination the bytes of a frame of the urgent wire, and answers a status.
fn take_aside(node: &mut TracedDestination, bytes: &[u8], effect: &mut EffectNumbers) -> u32
    ensures made { result ≡ 0 → DestinationTakesUrgently bytes.now node.old effect.new node.new }
    ensures refused { result ≢ 0 → DestinationTakesNotUrgently bytes.now node.old.node result }
    ensures kept { result ≢ 0 → node.new ≡ node.old }
    ensures open { result ≢ 2 }
{
    told_of_frame(node.take_urgent(bytes), effect)
}

/// Takes a frame of the urgent wire, by its text without the bytes of a page.
#[unsafe(no_mangle)]
pub extern "C" fn postmig_destination_take_urgent(
    alloc: Global,
    handle: &mut Handle,
    bytes: &[u8],
    effect: &mut EffectNumbers,
) -> u32
    ensures made { result ≡ 0 →
        HasDestinations handle.old.content handle.new.content (λ old new.
        DestinationTakesUrgently bytes.now old effect.new new) }
    ensures refused { result ≢ 0 → result ≢ 2 →
        TellsDestination handle.old.content (λ old.
        DestinationTakesNotUrgently bytes.now old result) }
    ensures not_open { result ≡ 2 → HasNoDestination handle.old.content }
    ensures kept { result ≢ 0 → handle.new.content ≡ handle.old.content }
{
    let Some(mut content) = handle.take(alloc) else {
        return NOT_OPEN;
    };
    let status = match &mut *content {
        Content::Destination(node) => take_aside(node, bytes, effect),
        _ => NOT_OPEN,
    };
    *handle = Handle::of(content);
    status
}

/// Where a page of the source is owed, as a status.
fn show_home(node: &DestinationNode, origin: PageNo, page: &mut PageNo) -> u32
    ensures home { result ≡ 0 → home node.now.node.owed origin ≡ Just page.new }
    ensures nowhere { result ≡ 13 → home node.now.node.owed origin ≡ Nothing }
    ensures range { (result ≡ 0) ⊎ (result ≡ 13) }
{
    match node.node().owed().home(origin) {
        Some(home) => {
            *page = home;
            DONE
        }
        None => NO_PAGE,
    }
}

/// Says where a page of the source is owed now.
#[unsafe(no_mangle)]
pub extern "C" fn postmig_destination_home(
    alloc: Global,
    handle: &mut Handle,
    origin: PageNo,
    page: &mut PageNo,
) -> u32
    ensures home { result ≡ 0 →
        TellsDestination handle.old.content (λ old. home old.node.owed origin ≡ Just page.new) }
    ensures nowhere { result ≡ 13 →
        TellsDestination handle.old.content (λ old. home old.node.owed origin ≡ Nothing) }
    ensures not_open { result ≡ 2 → HasNoDestination handle.old.content }
    ensures same { handle.new.content ≡ handle.old.content }
    ensures range { (result ≡ 0) ⊎ (result ≡ 2) ⊎ (result ≡ 13) }
{
    let Some(content) = handle.take(alloc) else {
        return NOT_OPEN;
    };
    let status = match &*content {
        Content::Destination(node) => show_home(node.node(), origin, page),
        _ => NOT_OPEN,
    };
    *handle = Handle::of(content);
    status
}

/// The number of a phase.
fn phase_number(phase: DestPhase) -> u32
    ensures { result ≡ destination_phase phase }
{
    match phase {
        DestPhase::Idle => 0,
        DestPhase::Advised => 1,
        DestPhase::Discarding => 2,
        DestPhase::Running => 3,
        DestPhase::Paused => 4,
        DestPhase::Ended => 5,
    }
}

/// How far a destination has come.
fn counts_of(node: &DestinationNode) -> DestinationCounts
    ensures { result ≡ destination_counts node.now }
{
    let destination = node.node();
    DestinationCounts {
        phase: phase_number(destination.phase()),
        has_run: u32::from(destination.has_run()),
        epoch: destination.epoch(),
        owed: destination.owed().len(),
        waiting: u32::from(!node.sent().is_empty()),
        requests: destination.requests().len() as u64,
        arrivals: destination.arrivals() as u64,
        changing: destination.space().changing() as u64,
        installed: destination.installed(),
        dropped: destination.dropped(),
        faults: destination.faults(),
    }
}

/// Says how far the destination has come.
#[unsafe(no_mangle)]
pub extern "C" fn postmig_destination_counts(
    alloc: Global,
    handle: &mut Handle,
    counts: &mut DestinationCounts,
) -> u32
    ensures same { handle.new.content ≡ handle.old.content }
    ensures counts { result ≡ 0 →
        TellsDestination handle.old.content (λ old. counts.new ≡ destination_counts old) }
    ensures not_open { result ≡ 2 → HasNoDestination handle.old.content }
    ensures range { (result ≡ 0) ⊎ (result ≡ 2) }
{
    let Some(content) = handle.take(alloc) else {
        return NOT_OPEN;
    };
    let status = match &*content {
        Content::Destination(node) => {
            *counts = counts_of(node.node());
            DONE
        }
        _ => NOT_OPEN,
    };
    *handle = Handle::of(content);
    status
}

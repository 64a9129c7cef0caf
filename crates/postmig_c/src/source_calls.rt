//! The frames that a source of its own takes back, and what it says of itself.

ghost use Rattle.std.specs.Prelude.{◌≡◌, ◌≢◌, ◌⊎◌};
ghost use Rattle.mig_model.specs.NodeSteps.{checked};
ghost use Rattle.mig_model.specs.SourceSteps.{push};
ghost use Rattle.postmig_c.specs.NodeCalls.{Checks, HasNoSource, HasSources, SourceTakes, SourceTakesNot, TellsSource, source_counts, source_phase};

use crate::effects::EffectNumbers;
use crate::handle::{Content, Handle};
use crate::refusals::refusal_status;
use crate::status::{DONE, NOT_OPEN};
use crate::told::told_of_frame;
use mig_base::PageNo;
use mig_base::phase::SourcePhase;
use mig_base::schedule::Ticket;
use nodes::{SourceNode, TracedSource};
use std::alloc::Global;

/// How far a source has come, in numbers.
#[repr(C)]
#[derive(Clone, Copy)]
pub struct SourceCounts {
    /// 0 idle, 1 pre-copy, 2 stopped, 3 paused, 4 released.
    pub phase: u32,
    /// 1 once it has stopped its processors for good.
    pub switched: u32,
    pub epoch: u32,
    /// Rounds of pre-copy made.
    pub rounds: u32,
    /// Owed pages that were not sent in this epoch.
    pub remaining: u32,
    /// 1 if frames wait.
    pub waiting: u32,
    /// Requests that were not dequeued.
    pub asked: u64,
    /// Faults that were read and not resolved.
    pub held: u64,
    /// Unread events.
    pub changing: u64,
    pub pages_sent: u64,
    /// Faults read.
    pub faults: u64,
}

/// Hands a source the bytes of a frame that came back, and answers a status.
fn take_back(node: &mut TracedSource, bytes: &[u8], effect: &mut EffectNumbers) -> u32
    ensures made { result ≡ 0 → SourceTakes bytes.now node.old effect.new node.new }
    ensures refused { result ≢ 0 → SourceTakesNot bytes.now node.old.node result }
    ensures kept { result ≢ 0 → node.new ≡ node.old }
    ensures open { result ≢ 2 }
{
    told_of_frame(node.back(bytes), effect)
}

/// Takes a frame that came back, by its text.
#[unsafe(no_mangle)]
pub extern "C" fn postmig_source_back(
    alloc: Global,
    handle: &mut Handle,
    bytes: &[u8],
    effect: &mut EffectNumbers,
) -> u32
    ensures made { result ≡ 0 →
        HasSources handle.old.content handle.new.content (λ old new.
        SourceTakes bytes.now old effect.new new) }
    ensures refused { result ≢ 0 → result ≢ 2 →
        TellsSource handle.old.content (λ old. SourceTakesNot bytes.now old result) }
    ensures not_open { result ≡ 2 → HasNoSource handle.old.content }
    ensures kept { result ≢ 0 → handle.new.content ≡ handle.old.content }
{
    let Some(mut content) = handle.take(alloc) else {
        return NOT_OPEN;
    };
    let status = match &mut *content {
        Content::Source(node) => take_back(node, bytes, effect),
        _ => NOT_OPEN,
    };
    *handle = Handle::of(content);
    status
}

/// Whether a source would push a page, as a status.
fn check_push(node: &SourceNode, ticket: Ticket) -> u32
    ensures { Checks (checked (push node.now.node ticket)) result }
{
    match node.node().check_push(ticket) {
        Ok(()) => DONE,
        Err(refusal) => refusal_status(refusal),
    }
}

/// Says whether `postmig_source_push` would send a page.
#[unsafe(no_mangle)]
pub extern "C" fn postmig_source_check_push(
    alloc: Global,
    handle: &mut Handle,
    epoch: u32,
    page: PageNo,
) -> u32
    ensures answer { result ≢ 2 →
        TellsSource handle.old.content (λ old.
        Checks (checked (push old.node (record { epoch = epoch; page = page }))) result) }
    ensures not_open { result ≡ 2 → HasNoSource handle.old.content }
    ensures same { handle.new.content ≡ handle.old.content }
{
    let Some(content) = handle.take(alloc) else {
        return NOT_OPEN;
    };
    let status = match &*content {
        Content::Source(node) => check_push(node.node(), Ticket { epoch, page }),
        _ => NOT_OPEN,
    };
    *handle = Handle::of(content);
    status
}

/// The number of a phase.
fn phase_number(phase: SourcePhase) -> u32
    ensures { result ≡ source_phase phase }
{
    match phase {
        SourcePhase::Idle => 0,
        SourcePhase::Precopy => 1,
        SourcePhase::Stopped => 2,
        SourcePhase::Paused => 3,
        SourcePhase::Released => 4,
    }
}

/// How far a source has come.
fn counts_of(node: &SourceNode) -> SourceCounts
    ensures { result ≡ source_counts node.now }
{
    let source = node.node();
    SourceCounts {
        phase: phase_number(source.phase()),
        switched: u32::from(source.has_switched()),
        epoch: source.epoch(),
        rounds: source.rounds(),
        remaining: source.remaining().len(),
        waiting: u32::from(!node.sent().is_empty()),
        asked: source.asked() as u64,
        held: source.log().held() as u64,
        changing: source.space().changing() as u64,
        pages_sent: source.pages_sent(),
        faults: source.faults(),
    }
}

/// Says how far the source has come.
#[unsafe(no_mangle)]
pub extern "C" fn postmig_source_counts(
    alloc: Global,
    handle: &mut Handle,
    counts: &mut SourceCounts,
) -> u32
    ensures same { handle.new.content ≡ handle.old.content }
    ensures counts { result ≡ 0 →
        TellsSource handle.old.content (λ old. counts.new ≡ source_counts old) }
    ensures not_open { result ≡ 2 → HasNoSource handle.old.content }
    ensures range { (result ≡ 0) ⊎ (result ≡ 2) }
{
    let Some(content) = handle.take(alloc) else {
        return NOT_OPEN;
    };
    let status = match &*content {
        Content::Source(node) => {
            *counts = counts_of(node.node());
            DONE
        }
        _ => NOT_OPEN,
    };
    *handle = Handle::of(content);
    status
}

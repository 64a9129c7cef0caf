//! The step that is due next.

ghost use Rattle.std.specs.Option.{IfSome};
ghost use Rattle.std.specs.Prelude.{◌≡◌, ◌≤◌, ◌↔◌, ◌⊎◌, true, None};
ghost use Rattle.mig_base.specs.declared.TheConstants.{HIGH_PAGE};
ghost use Rattle.mig_model.specs.Log.{least_of};
ghost use Rattle.mig_model.specs.Promises.{IsComplete};
ghost use Rattle.mig_model.specs.Source.{is_stopped};
ghost use Rattle.finish.specs.Finishing as strategy;
ghost use Rattle.finish.specs.Finishing.{HasNoneBelow, HasPushed, IsDue, finishing_step, needs_epoch};

use mig_base::phase::{DestPhase, SourcePhase};
use mig_base::schedule::{Side, Step, Ticket};
use mig_base::{HIGH_PAGE, PageNo, PageSet};
use world::World;

/// All that the first frame of a wire still lacks: no frame has more bytes.
const ALL: u64 = u64::MAX;

/// The step that is due next on the way to the completion. The machine makes it, memory aside, and fewer steps are left after it, as
/// `steps_left` counts them. `None` exactly where the migration is complete, or where a Start or a Resume is due and the epoch is the last,
/// 4,294,967,295.
///
/// It walks over no frames, and looks for the least page that remains by words of 64 pages. [`finish`](crate::finish) looks for each page
/// from the one that it pushed last.
pub fn next_to_finish(world: &World) -> Option<Step>
    ensures step { result ≡ finishing_step world.now }
    ensures due { IfSome result (IsDue world.now) }
    ensures none { (result ≡ None) ↔ (IsComplete world.now ⊎ (needs_epoch world.now ≡ true)) }
{
    next_from(world, 0)
}

/// The same for a world of whose pages none below `from` remains to be pushed: it looks for the next one from there.
pub(crate) fn next_from(world: &World, from: PageNo) -> Option<Step>
    requires range { from ≤ HIGH_PAGE }
    requires pushed { HasPushed world.now from }
    ensures step { result ≡ finishing_step world.now }
    ensures due { IfSome result (IsDue world.now) }
    ensures none { (result ≡ None) ↔ (IsComplete world.now ⊎ (needs_epoch world.now ≡ true)) }
{
    world.headline();
    let _cpus = world.cpus();
    named_step(world, from)
}

/// The step that the strategy names.
fn named_step(world: &World, from: PageNo) -> Option<Step>
    requires range { from ≤ HIGH_PAGE }
    requires pushed { HasPushed world.now from }
    ensures { result ≡ finishing_step world.now }
{
    if !world.is_up() {
        return down_step(world);
    }
    match world.source_phase() {
        SourcePhase::Idle => unless_used(world, Step::Start),
        SourcePhase::Precopy => Some(precopy_step(world)),
        SourcePhase::Stopped => Some(stopped_step(world, from)),
        SourcePhase::Paused => Some(paused_step(world)),
        SourcePhase::Released => None,
    }
}

/// A step that begins an epoch, unless the epoch is the last.
fn unless_used(world: &World, step: Step) -> Option<Step>
    ensures { result ≡ strategy.unless_used world.now step }
{
    if world.epoch() == u32::MAX {
        return None;
    }
    Some(step)
}

/// While the link is down both sides notice it, and then the source resumes.
fn down_step(world: &World) -> Option<Step>
    ensures { result ≡ strategy.down_step world.now }
{
    if world.source_phase() != SourcePhase::Paused {
        return Some(Step::Notice(Side::Source));
    }
    if world.destination_phase() != DestPhase::Paused {
        return Some(Step::Notice(Side::Destination));
    }
    unless_used(world, Step::Resume)
}

/// A source that makes rounds reads its messages until no event is unread, and then switches.
fn precopy_step(world: &World) -> Step
    ensures { result ≡ strategy.precopy_step world.now }
{
    if world.source_events() > 0 {
        return Step::SourceRead;
    }
    Step::Switch
}

/// A source that waits for a report: the destination takes Resume, and the source its answer.
fn paused_step(world: &World) -> Step
    ensures { result ≡ strategy.paused_step world.now }
{
    if world.forward().is_empty() {
        return Step::DeliverBack { n: ALL };
    }
    Step::Deliver { n: ALL }
}

/// A source that has stopped pushes what remains, and then sends End.
fn stopped_step(world: &World, from: PageNo) -> Step
    requires stopped { is_stopped world.now.source.phase ≡ true }
    requires range { from ≤ HIGH_PAGE }
    requires pushed { HasPushed world.now from }
    ensures { result ≡ strategy.stopped_step world.now }
{
    if let Some(page) = least_page(world.remaining(), from) {
        let epoch = world.epoch();
        return Step::Push(Ticket { epoch, page });
    }
    if world.has_sent_end() {
        return delivering_step(world);
    }
    Step::End
}

/// Once End is sent, what is in flight is delivered until the destination has ended, and then its requests and Done.
fn delivering_step(world: &World) -> Step
    ensures { result ≡ strategy.delivering_step world.now.destination.phase world.now }
{
    match world.destination_phase() {
        DestPhase::Ended => Step::DeliverBack { n: ALL },
        DestPhase::Running => running_step(world),
        _ => Step::Deliver { n: ALL },
    }
}

/// A destination that runs takes the urgent frames first, and then installs what has arrived, once no event is unread.
fn running_step(world: &World) -> Step
    ensures { result ≡ strategy.running_step world.now }
{
    if !world.urgent().is_empty() {
        return Step::DeliverUrgent { n: ALL };
    }
    if world.arrivals() == 0 {
        return Step::Deliver { n: ALL };
    }
    if world.destination_events() > 0 {
        return Step::DestRead;
    }
    Step::Install
}

/// The least page of a set that has none below `from`.
fn least_page(pages: &PageSet, from: PageNo) -> Option<PageNo>
    requires range { from ≤ HIGH_PAGE }
    requires below { HasNoneBelow pages.now from }
    ensures { result ≡ least_of pages.now }
{
    let page = pages.next_member(from);
    if page < HIGH_PAGE { Some(page) } else { None }
}

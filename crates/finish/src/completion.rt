//! All steps that are due, in turn.

ghost use Rattle.std.specs.Prelude.{◌≡◌, ◌<◌, ◌≤◌, ◌⊎◌, ◌↔◌, ℕ, Err, true, length, IfOk, IfErr, OnErr, List};
ghost use Rattle.mig_base.specs.declared.TheConstants.{HIGH_PAGE};
ghost use Rattle.mig_base.specs.declared.refusal.Refusal.{Refusal};
ghost use Rattle.mig_base.specs.declared.schedule.Step.{Step};
ghost use Rattle.mig_model.specs.Promises.{IsComplete};
ghost use Rattle.world.specs.Headline.{Headline};
ghost use Rattle.finish.specs.Finishing.{AreDue, IsPast, Leads, lacks_epoch, steps_left};

use crate::next_step::next_from;
use mig_base::phase::SourcePhase;
use mig_base::refusal::Refusal;
use mig_base::schedule::Step;
use mig_base::{HIGH_PAGE, PageNo};
use std::alloc::Global;
use world::World;

/// Completes the migration of a world, and answers the steps that it made for that: made in turn from the old world none of them is
/// refused, and they lead to the world that it leaves. Each is the step of the strategy for its world, so none of them is a command of a
/// processor, and the transcript stays as it was, also at an error. There are at most `steps_left` of them, and each takes constant time to
/// choose.
///
/// `CountUsed` exactly where the migration needs a Start or a Resume and the epoch is the last: nothing is changed then. `NoMemory`
/// where a step, or the list of steps, found no memory: the world is where the steps made so far have led, and `finish` may be called
/// again.
pub fn finish(world: &mut World, alloc: Global) -> Result<Vec<Step>, Refusal>
    ensures complete { IfOk result (λ steps. IsComplete world.new) }
    ensures made { IfOk result (λ steps. Leads world.old steps.items world.new) }
    ensures strategy { IfOk result (λ steps. AreDue world.old steps.items) }
    ensures few { IfOk result (λ steps. length steps.items ≤ steps_left world.old) }
    ensures refused { IfErr result (λ refusal.
        (refusal ≡ Refusal.CountUsed) ⊎ (refusal ≡ Refusal.NoMemory)) }
    ensures used { (result ≡ Err Refusal.CountUsed) ↔ (lacks_epoch world.old ≡ true) }
    ensures stays { result ≡ Err Refusal.CountUsed → world.new ≡ world.old }
    ensures led { OnErr result ((steps : List Step) × Leads world.old steps world.new) }
    ensures transcript { world.new.transcript ≡ world.old.transcript }
    ensures headline { Headline world.new }
{
    world.headline();
    let mut steps = Vec::new(alloc);
    if has_no_epoch(world) {
        return Err(Refusal::CountUsed);
    }
    let mut from = 0;
    while let Some(step) = next_from(world, from) {
        let Ok(()) = steps.try_reserve(1) else {
            return Err(Refusal::NoMemory);
        };
        let Ok(_) = world.step(step) else {
            return Err(Refusal::NoMemory);
        };
        steps.push_reserved(step);
        from = pushed_below(step, from);
    }
    Ok(steps)
}

/// The page from which the next one to push is looked for once this step was made, where none below `from` remained before: a push is of
/// the least page that remains, and the steps after the last push leave the pages that remain as they are.
fn pushed_below(step: Step, from: PageNo) -> PageNo
    requires { from ≤ HIGH_PAGE }
    ensures range { result ≤ HIGH_PAGE }
    ensures below { (page : ℕ) → page < result → IsPast step from page }
{
    match step {
        Step::Push(ticket) => ticket.page.saturating_add(1).min(HIGH_PAGE),
        Step::End
        | Step::Deliver { .. }
        | Step::DeliverUrgent { .. }
        | Step::DestRead
        | Step::Install => from,
        _ => 0,
    }
}

/// Whether no epoch is left for the Start or the Resume that the migration needs.
fn has_no_epoch(world: &World) -> bool
    ensures { result ≡ lacks_epoch world.now }
{
    if world.epoch() != u32::MAX {
        return false;
    }
    !world.is_up() || world.source_phase() == SourcePhase::Idle
}

//! What holds of a migration after every list of steps: of processors, fault handlers, pushers and deliveries, with breaks of the
//! channel and resumptions, in any order and with refused steps among them. Each law is a function with an empty body, whose contract is
//! the law.

ghost use Rattle.std.specs.Prelude.{◌≡◌, ◌≢◌, ℕ, ◌/◌, not, true, false, is_some, Some, Ok, Err, IsOk, List};
ghost use Rattle.std.specs.FinSet.{contains};
ghost use Rattle.mig_base.specs.declared.effect.Effect.{Effect};
ghost use Rattle.mig_base.specs.declared.command.Reply.{Reply};
ghost use Rattle.mig_base.specs.declared.phase.Received.{Received};
ghost use Rattle.mig_base.specs.declared.refusal.Refusal.{Refusal};
ghost use Rattle.mig_base.specs.declared.schedule.Step.{Step};
ghost use Rattle.mig_base.specs.declared.schedule.Ticket.{Ticket};
ghost use Rattle.mig_base.specs.declared.command.Command.{Command};
ghost use Rattle.mig_base.specs.Flat.{IsFlatRun, memory_of};
ghost use Rattle.mig_model.specs.Host.{memory};
ghost use Rattle.mig_model.specs.Cpus.{outstanding, processor_at};
ghost use Rattle.mig_model.specs.Source.{is_released, switch_frames};
ghost use Rattle.mig_model.specs.Destination.{settled};
ghost use Rattle.mig_model.specs.Wire.{Sent, Copy, wire_with};
ghost use Rattle.mig_model.specs.Wire.Frame.{Recv};
ghost use Rattle.mig_model.specs.Migration.{World, guest_of, outcome, next, first_world, after_steps, has_started};
ghost use Rattle.mig_model.specs.NodeSteps.{is_used};
ghost use Rattle.mig_model.specs.Whereabouts.{IsSwitching, IsReceiving, current_host, package_in};
ghost use Rattle.mig_model.specs.Promises.{AreSoundCalls};
ghost use Rattle.mig_model.specs.Invariant.{IsSoundWorld, AreSoundUrgent};
ghost use Rattle.mig_base.specs.declared.phase.WorldPhase.{WorldPhase};
ghost use Rattle.mig_model.specs.Views.{phase_of, new_world_with, owed_left};
ghost use Rattle.mig_model.specs.Laws.{CanEnd, DeliversFirst, HandsReplies, HasCleanCopies, InstallsNothingOver, InstallsWhereOwed, IsCut, IsInstalling, KeepsWaiting, KnowsNeeded, KnowsOwed, SettlesInstalls, SettlesRight, ShrinksRemaining, StaysPushed, TakesArrival, TakesFrames, TriesCommand, ZeroesMissing, is_unsent};
ghost use Rattle.mig_model.specs.Unbroken.{KeepsClean, TakesPackage};
ghost use Rattle.mig_model.specs.Runs.{Happens, IsRun, Outcome, needs_memory, outcomes, results_of, steps_made};
ghost use Rattle.mig_model.specs.Parts.{Grows, ChangesParts};
ghost use Rattle.mig_model.specs.Promises.{AreAccesses, IsReached, IsComplete, IsAlone, ArePaired, AreUnderWay, takes_forward, takes_back, takes_urgent, is_break, Completes, CanComplete, has_recv};

/// The commands in the transcript, made in turn on one flat memory, give the replies in it, and at the end the guest sees that memory.
/// Until the destination runs the guest sees the source's memory; from then on each page is the destination's own, or that of the source
/// from which it is still owed, or zeros.
pub fn every_schedule()
    ensures transcript { (world : World) → IsReached world → IsFlatRun world.transcript }
    ensures current { (world : World) → IsReached world →
        memory (current_host world) ≡ memory_of world.transcript }
{}

/// Completion: the destination's own pages are the flat memory, the source has none, and nothing is owed or waits. A complete migration
/// stays complete. A migration completes exactly when the source takes Done, or the Recv of a destination that has ended.
pub fn completion()
    ensures alone { (world : World) → IsReached world → IsComplete world → IsAlone world }
    ensures stays { (world : World) (steps : List Step) → IsReached world → IsComplete world →
        IsComplete (after_steps world steps) × IsAlone (after_steps world steps) }
    ensures taken { (world : World) (step : Step) → IsOk (outcome world step) →
        Completes world step → IsComplete (next world step) }
    ensures only { (world : World) (step : Step) → is_released world.source.phase ≡ false →
        IsComplete (next world step) → Completes world step }
{}

/// The getters of a world: its phase is Complete exactly if the migration is complete, and then no page is owed. A new world is reached,
/// by the empty list of steps.
pub fn what_a_world_tells()
    ensures complete { (world : World) →
        (phase_of world ≡ WorldPhase.Complete → IsComplete world) ×
        (IsComplete world → phase_of world ≡ WorldPhase.Complete) }
    ensures left { (world : World) → IsReached world → IsComplete world → owed_left world ≡ 0 }
    ensures new { (cpus epoch rounds : ℕ) (world : World) →
        new_world_with cpus epoch rounds ≡ Ok world → IsReached world }
{}

/// A run that may be short of memory: instead of its effect a step may return NoMemory and change nothing, and so may a Deliver whose
/// frame would have to wait. Without its NoMemory steps such a run is a run with enough memory, with the same answers and the same world
/// at the end, so every law about a reached world applies to it. With enough memory each step does what the machine does, which never
/// returns NoMemory. Break, Notice and Serve do so even if memory is short.
pub fn a_run_short_of_memory()
    ensures world { (world new : World) (steps : List Step) (results : List Outcome) →
        IsRun world steps results new → new ≡ after_steps world (steps_made steps results) }
    ensures results { (world new : World) (steps : List Step) (results : List Outcome) →
        IsRun world steps results new →
        results_of results ≡ outcomes world (steps_made steps results) }
    ensures reached { (world new : World) (steps : List Step) (results : List Outcome) →
        IsReached world → IsRun world steps results new → IsReached new }
    ensures enough { (world : World) (steps : List Step) →
        IsRun world steps (outcomes world steps) (after_steps world steps) }
    ensures never { (world : World) (step : Step) → outcome world step ≢ Err Refusal.NoMemory }
    ensures needs_none { (world new : World) (step : Step) (result : Outcome) →
        needs_memory step ≡ false → Happens world step result new →
        (result ≡ outcome world step) × (new ≡ next world step) }
{}

/// A migration can be completed, whatever has happened: from every world some steps, none of which is refused, lead to completion, as
/// long as the epoch of the source is not the last. It may be the last if the migration has begun and the link is up.
pub fn a_migration_can_complete()
    ensures first { (cpus : ℕ) → CanComplete (first_world cpus) }
    ensures epoch_left { (world : World) → IsReached world → is_used world.source.epoch ≡ false →
        CanComplete world }
    ensures link_up { (world : World) → IsReached world → has_started world ≡ true →
        world.up ≡ true → CanComplete world }
{}

/// While the source makes rounds of pre-copy and the link is up, the newest copy of a clean page is the source's page, unless an
/// unread event has changed the page, and each page that has a copy was sent in this epoch.
pub fn clean_copies()
    ensures { (world : World) → IsReached world → HasCleanCopies world }
{}

/// A Package is in flight from Switch until the destination runs, as long as the link is up. While it is, the pages that will be kept when
/// it is taken are those that the source has and does not owe; and each page that it owes is still to be pushed, on the urgent wire, or
/// after the Package with the source's bytes.
pub fn a_package_tells_the_source()
    ensures in_flight { (world : World) → IsReached world →
        is_some (package_in world.forward.frames) ≡ true →
        IsSwitching world.source world.destination.kept world.forward.frames world.urgent.frames }
    ensures before_run { (world : World) → IsReached world → KnowsOwed world }
{}

/// The Recv of a destination that runs is in flight from the taking of Resume until the source takes it, as long as the link is up. It
/// lists each page that the destination still needs, and the source has all pages that it lists.
pub fn a_recv_lists_what_is_needed()
    ensures in_flight { (world : World) → IsReached world → has_recv world.back.frames ≡ true →
        IsReceiving world.source world.destination Received.Running world.back.frames }
    ensures paused { (world : World) → IsReached world → KnowsNeeded world }
{}

/// The pairs of owed pages and their origins are one to one. The origin is present at the source, and a page that is still owed is
/// registered and missing.
pub fn owed_pairs()
    ensures { (world : World) → IsReached world → ArePaired world }
{}

/// A Switch owes exactly the pages that are present and not clean. It puts two frames on the wire: a Discard of the pages that were sent
/// and are not clean now, and a Package with the mapped pages, the owed pages and the outstanding commands of the processors.
pub fn what_a_switch_owes()
    ensures owes { (world : World) (page : ℕ) → IsReached world → IsOk (outcome world Step.Switch) →
        contains (next world Step.Switch).source.remaining page ≡ is_unsent world page }
    ensures sends { (world : World) → IsOk (outcome world Step.Switch) →
        (next world Step.Switch).forward ≡
        wire_with world.forward world.source.epoch (switch_frames world.source) }
{}

/// If the link stays up until the Package of a Switch is taken, the destination then keeps exactly the pages that were clean at the
/// Switch, with the bytes that the source had. After a break the pages are sent again.
pub fn what_a_switch_keeps()
    ensures { (world : World) (steps : List Step) (n owed : ℕ) → IsReached world →
        TakesPackage world steps n owed →
        KeepsClean world (after_steps (next world Step.Switch) steps) }
{}

/// Once the destination has run, each copy in flight or arrived has the bytes that the source holds; and while the link is up and the
/// source is stopped, each owed page is to be pushed, in flight on either wire, or arrived.
pub fn owed_pages_are_under_way()
    ensures { (world : World) → IsReached world → world.destination.has_run ≡ true →
        AreUnderWay world }
{}

/// Once the destination has run, a map call does to the settled relation what it does to the pages: those that it unmaps, replaces or
/// makes zeros are no longer owed, and those that it moves are owed at their new places. An install removes its own pair. A copy that is
/// dropped, a load or store, tried for the first time or again, every other step and every refused step leave the relation as it is.
pub fn the_settled_relation()
    ensures right { (world : World) → IsReached world → SettlesRight world }
    ensures installs { (world : World) → SettlesInstalls world }
{}

/// No page is installed over one that is present: when a copy is installed, or a handler puts a page of zeros, the page is missing. An
/// installed copy is that of the page's origin.
pub fn no_page_is_installed_over_another()
    ensures installs { (world : World) → IsReached world → InstallsNothingOver world }
    ensures zeros { (world : World) → ZeroesMissing world }
{}

/// No frame is refused, after any number of resumptions: while the link is up the first frame of each wire is in place, of the right
/// epoch, and fits. A Deliver that completes it is refused only if it must wait, and then for that reason. A Recv lists only pages
/// that the source has.
pub fn no_frame_is_refused()
    ensures { (world : World) → IsReached world → TakesFrames world }
{}

/// A waiting command is changed by no step but the Retry of its processor: the processor still has to make it, on whichever node the
/// guest then is. A command begins to wait only by an Issue of its own processor that sleeps. An accepted Retry tries it: the processor is
/// idle if the command took effect, and else sleeps with the same command. An Issue leaves its processor likewise, or in its call. A
/// command that takes effect is entered with its processor and its reply, at its first try or at a Retry; one that sleeps is not. No other
/// step enters anything: [`each_step_changes_its_parts`] says so.
pub fn a_waiting_command()
    ensures waits { (world : World) (step : Step) (cpu : ℕ) (command : Command) →
        IsReached world → KeepsWaiting world step cpu command }
    ensures issue { (world : World) (cpu : ℕ) (command : Command) →
        IsOk (outcome world (Step.Issue cpu command)) →
        TriesCommand world cpu command (Step.Issue cpu command) }
    ensures retry { (world : World) (cpu : ℕ) (command : Command) →
        IsOk (outcome world (Step.Retry cpu)) →
        outstanding (processor_at (guest_of world).cpus cpu) ≡ Some command →
        TriesCommand world cpu command (Step.Retry cpu) }
{}

/// A waiting command is a load or a store, on either node. A map call has taken effect, and waits only for its messages to be read.
pub fn waiting_commands_are_accesses()
    ensures { (world : World) → IsReached world → AreAccesses world }
{}

/// A processor is in a map call exactly as long as it has unread events on its node, and counts them, so each event that is read belongs
/// to a processor in a call. The queues of page faults hold page faults alone.
pub fn calls_have_unread_events()
    ensures { (world : World) → IsReached world → AreSoundCalls world }
{}

/// The reply of a map call is fixed when the call is made. A processor in a call has the reply of its last entry, every step but the read
/// of its last message leaves it, and that read hands it over. [`calls_have_unread_events`] says how long the processor is in the call.
pub fn replies_of_map_calls()
    ensures { (world : World) (step : Step) (cpu : ℕ) (reply : Reply) → IsReached world →
        HandsReplies world step cpu reply }
{}

/// A page that is pushed, on either wire, no longer remains, and only Switch and the taking of a Recv add pages that remain. Neither
/// follows a Push or PushUrgent in its epoch: as long as the epoch is that of the push no Switch is accepted, and the next frame of the
/// wire back is not a Recv. An End that is not refused for another reason is accepted exactly if no page remains.
pub fn pages_that_remain()
    ensures shrinks { (world : World) → ShrinksRemaining world }
    ensures push { (world : World) (ticket : Ticket) (steps : List Step) → IsReached world →
        IsOk (outcome world (Step.Push ticket)) →
        StaysPushed world.source.epoch (after_steps (next world (Step.Push ticket)) steps) }
    ensures push_urgent { (world : World) (ticket : Ticket) (steps : List Step) →
        IsReached world → IsOk (outcome world (Step.PushUrgent ticket)) →
        StaysPushed world.source.epoch (after_steps (next world (Step.PushUrgent ticket)) steps) }
    ensures end_left { (world : World) (q : ℕ) → IsReached world → CanEnd world →
        contains world.source.remaining q ≡ true → outcome world Step.End ≡ Err Refusal.PagesLeft }
    ensures end { (world : World) → CanEnd world →
        ((q : ℕ) → contains world.source.remaining q ≡ false) →
        outcome world Step.End ≡ Ok Effect.EndSent }
{}

/// A delivery that completes the first frame of its wire takes exactly that frame. The node that takes it, as it is then, and the frames
/// that it answers are a function of the node as it was and of the frame with its epoch: nothing passes between the nodes but by the
/// wires. A delivery that completes no frame takes none: only the number of bytes that have arrived changes.
pub fn a_delivery_is_a_function()
    ensures { (world : World) (n : ℕ) (sent : Sent) (rest : List Sent) →
        DeliversFirst world n sent rest }
{}

/// The wires keep the order of their frames, and lose frames only by Break: every step but a delivery from the wire and Break only puts
/// frames at its end. Break empties all three wires and takes the link down, and no other step takes it down.
pub fn the_wires()
    ensures forward { (world : World) (step : Step) → takes_forward step ≡ false →
        Grows world.forward (next world step).forward }
    ensures back { (world : World) (step : Step) → takes_back step ≡ false →
        Grows world.back (next world step).back }
    ensures urgent { (world : World) (step : Step) → takes_urgent step ≡ false →
        Grows world.urgent (next world step).urgent }
    ensures broken { (world : World) → IsOk (outcome world Step.Break) →
        IsCut (next world Step.Break) }
    ensures up { (world : World) (step : Step) → is_break step ≡ false → world.up ≡ true →
        (next world step).up ≡ true }
{}

/// An Install takes exactly the first copy that has arrived. The copy is installed where its page is owed now, and dropped exactly if
/// that page is owed nowhere.
pub fn what_is_installed()
    ensures arrival { (world : World) (copy : Copy) (rest : List Copy) →
        IsInstalling world copy rest → TakesArrival world copy rest }
    ensures owed { (world : World) (copy : Copy) (rest : List Copy) → IsReached world →
        IsInstalling world copy rest → InstallsWhereOwed world copy }
{}

/// Each step changes only its own parts. A step of the source reaches the destination only by the wires. A refused step changes nothing.
pub fn each_step_changes_its_parts()
    ensures refused { (world : World) (step : Step) (refusal : Refusal) →
        outcome world step ≡ Err refusal → next world step ≡ world }
    ensures parts { (world : World) (step : Step) → ChangesParts world step (next world step) }
{}

/// What every world keeps, clause by clause.
pub fn the_invariant()
    ensures world { (world : World) → IsReached world → IsSoundWorld world }
    ensures urgent { (world : World) → IsReached world → AreSoundUrgent world }
{}

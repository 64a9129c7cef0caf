//! What holds for all steps of a source, as laws: each is a function that does nothing and whose contract is the law.

ghost use Rattle.std.specs.Prelude.{◌≡◌, ℕ, not, true, false};
ghost use Rattle.mig_base.specs.declared.command.Command.{Command};
ghost use Rattle.mig_base.specs.declared.schedule.Side.{Side};
ghost use Rattle.mig_base.specs.declared.schedule.Step.{Step};
ghost use Rattle.mig_base.specs.declared.schedule.Ticket.{Ticket};
ghost use Rattle.mig_model.specs.Destination.{is_dest_paused};
ghost use Rattle.mig_model.specs.GuestSteps.{issue, retry};
ghost use Rattle.mig_model.specs.Migration.{World, answer, guest_tries, source_acts, source_sends, source_sends_urgently};
ghost use Rattle.mig_model.specs.NodeSteps.{while_down, while_up};
ghost use Rattle.mig_model.specs.SourceSteps as source;

/// A step of the source in a world is the source's own: its frames go to the end of their wire, and a step that sends or serves needs the
/// link. A Notice and a Resume need a broken one, and a Resume also a paused destination. Commands are the source's while the destination
/// has not run.
pub fn a_step_of_the_source()
    ensures start { (world : World) →
        answer world Step.Start ≡ source_sends world (source.start world.source) }
    ensures round { (world : World) →
        answer world Step.Round ≡ source_acts world (source.round world.source) }
    ensures send { (world : World) →
        answer world Step.Send ≡ source_sends world (while_up world.up (source.send world.source)) }
    ensures send_run { (world : World) (count : ℕ) →
        answer world (Step.SendRun count) ≡
        source_sends world (while_up world.up (source.send_run world.source count)) }
    ensures read { (world : World) →
        answer world Step.SourceRead ≡ source_acts world (source.read world.source) }
    ensures act { (world : World) →
        answer world Step.SourceAct ≡ source_acts world (source.act world.source) }
    ensures switch { (world : World) →
        answer world Step.Switch ≡
        source_sends world (while_up world.up (source.switch world.source)) }
    ensures push { (world : World) (ticket : Ticket) →
        answer world (Step.Push ticket) ≡
        source_sends world (while_up world.up (source.push world.source ticket)) }
    ensures push_urgent { (world : World) (ticket : Ticket) →
        answer world (Step.PushUrgent ticket) ≡
        source_sends_urgently world (while_up world.up (source.push_urgent world.source ticket)) }
    ensures serve { (world : World) →
        answer world Step.Serve ≡
        source_acts world (while_up world.up (source.serve world.source)) }
    ensures end { (world : World) →
        answer world Step.End ≡ source_sends world (while_up world.up (source.end world.source)) }
    ensures notice { (world : World) →
        answer world (Step.Notice Side.Source) ≡
        source_acts world (while_down world.up (source.pause world.source)) }
    ensures resume { (world : World) → is_dest_paused world.destination.phase ≡ true →
        answer world Step.Resume ≡
        source_sends (record world { up = true })
        (while_down world.up (source.resume world.source)) }
    ensures issue { (world : World) (cpu : ℕ) (command : Command) →
        world.destination.has_run ≡ false →
        answer world (Step.Issue cpu command) ≡
        guest_tries world (issue world.source.guest (not world.source.switched) cpu command) }
    ensures retry { (world : World) (cpu : ℕ) → world.destination.has_run ≡ false →
        answer world (Step.Retry cpu) ≡
        guest_tries world (retry world.source.guest (not world.source.switched) cpu) }
{}

//! Two nodes are a world: what each node gives by itself, in a process of its own, is what it gives in a world. Each law is a function with
//! an empty body, whose contract is the law.

ghost use Rattle.std.specs.Prelude.{◌≡◌, ◌++◌, ℕ, true, Ok, List, [], map};
ghost use Rattle.mig_base.specs.declared.schedule.Side.{Side};
ghost use Rattle.mig_base.specs.declared.schedule.Step.{Step};
ghost use Rattle.mig_base.specs.Flat.{IsFlatRun, memory_of};
ghost use Rattle.mig_model.specs.Host.{memory};
ghost use Rattle.mig_model.specs.Migration.{after_steps, first_world_with};
ghost use Rattle.mig_model.specs.Runs.{outcomes};
ghost use Rattle.mig_model.specs.Source.{is_released};
ghost use Rattle.mig_laws.specs.Claims.{ChangeRun, HasEvents, HasOrder, HasWorld, LogsHaveOrder, Order, PairRun, ProcessRun, begin_of, entered_in, entered_last, steps_of};
ghost use Rattle.mig_laws.specs.Example.{its_effects, with_a_break, with_a_late_notice, with_another_destination};
ghost use Rattle.mig_laws.specs.Orders.{AreTurns, AreWhole, Pair, destination_lines, first_pair, log_of, source_lines, world_of};
ghost use Rattle.mig_laws.specs.Processes.{AreEvents, IsSettled, Processes, first_processes, log_here, log_there};
ghost use Rattle.mig_laws.specs.Replacements.{AreChanges, last_log, source_log};
ghost use Rattle.mig_laws.specs.Sides.{Line, destination_after, destination_entries, source_after, source_entries};

/// Two logs in an order in which they may have happened are a run of one world. Each line is a step that is accepted there with the effect
/// that the node gives by itself, each loss of the channel is a Break, and each frame that was taken is a delivery of all its bytes. The
/// world ends with the two nodes, and its two sides have exactly these logs.
pub fn two_logs_are_a_run()
    ensures accepted { (run : PairRun) →
        outcomes (begin_of run) (steps_of run) ≡ map Ok run.order.effects }
    ensures world { (run : PairRun) →
        after_steps (begin_of run) (steps_of run) ≡ world_of run.last }
    ensures source_log { (run : PairRun) →
        log_of Side.Source (begin_of run) (steps_of run) ≡ source_lines run.order.turns }
    ensures destination_log { (run : PairRun) →
        log_of Side.Destination (begin_of run) (steps_of run) ≡ destination_lines run.order.turns }
{}

/// The other way round: the two sides of every run of a world whose deliveries are of whole frames are two logs in an order, which leads to
/// that world. So no log is left out that a world can have.
pub fn a_world_is_two_logs()
    ensures { (cpus epoch rounds : ℕ) (steps : List Step) →
        AreWhole (first_world_with cpus epoch rounds) steps → HasOrder cpus epoch rounds steps }
{}

/// The order of two logs does not matter: each node, and the commands that took effect there, are what its own log gives. So any two orders
/// of the same logs lead to the same nodes.
pub fn a_log_decides_its_node()
    ensures source { (old new : Pair) (order : Order old new) →
        new.source ≡ source_after old.source (source_lines order.turns) }
    ensures destination { (old new : Pair) (order : Order old new) →
        new.destination ≡ destination_after old.destination (destination_lines order.turns) }
    ensures at_source { (old new : Pair) (order : Order old new) → new.at_source ≡
        old.at_source ++ source_entries old.source (source_lines order.turns) }
    ensures at_destination { (old new : Pair) (order : Order old new) → new.at_destination ≡
        old.at_destination ++ destination_entries old.destination (destination_lines order.turns) }
{}

/// Two processes, each of which learns by itself that its channel is lost, are a world. One side may notice long before the other, the
/// destination may take frames of a channel that the source has lost, and the source may open new channels before the destination has lost
/// the old one. Where they are settled, their logs have an order all the same. So some steps of a world have exactly these logs as their
/// two sides, and lead to the two nodes. Settled or not, the commands that took effect in the source's log, and after them those in the
/// destination's, are a run of one flat memory. Once the source is released, that memory is the destination's.
pub fn two_processes_are_a_world()
    ensures order { (run : ProcessRun) → IsSettled run.last → LogsHaveOrder run }
    ensures world { (run : ProcessRun) → IsSettled run.last → HasWorld run.cpus run.epoch
        run.rounds (log_here run.events) (log_there run.events) run.last }
    ensures transcript { (run : ProcessRun) → IsFlatRun (entered_in run) }
    ensures alone { (run : ProcessRun) → is_released run.last.source.phase ≡ true →
        memory run.last.destination.guest.space.host ≡ memory_of (entered_in run) }
{}

/// Another destination may take the place of one, until the source has switched: it takes the Resume of a channel that the source has
/// opened, once the first one is gone or cannot be reached. Where the processes are settled, some steps of a world have the source's log as
/// their one side, and their other side ends with the whole log of the last destination; they lead to the two nodes. What comes before that
/// log enters no command. Settled or not, the commands in the source's log, and after them those in the last destination's, are a run of one
/// flat memory, and once the source is released that memory is the destination's.
pub fn a_destination_may_be_replaced()
    ensures events { (run : ChangeRun) → HasEvents run }
    ensures world { (run : ChangeRun) → IsSettled run.last → (earlier : List Line) ×
        HasWorld run.cpus run.epoch run.rounds (source_log run.changes)
        (earlier ++ last_log [] run.changes) run.last }
    ensures transcript { (run : ChangeRun) → IsFlatRun (entered_last run) }
    ensures alone { (run : ChangeRun) → is_released run.last.source.phase ≡ true →
        memory run.last.destination.guest.space.host ≡ memory_of (entered_last run) }
{}

/// There are such orders and such processes: frames are taken on both main wires, the channel is lost, each side notices, and both continue
/// over a new one. The source may open that before the destination takes the last frame of the old one. Then another destination takes the
/// place of the first one, which has answered a Resume and has not noticed that the channel is lost again.
pub fn an_order_with_a_break()
    ensures order { (new : Pair) × AreTurns (first_pair 1 0 0) with_a_break its_effects new }
    ensures processes { (new : Processes) ×
        AreEvents (first_processes 1 0 0) with_a_late_notice new × IsSettled new }
    ensures replaced { (new : Processes) ×
        AreChanges 1 (first_processes 1 0 0) with_another_destination new × IsSettled new }
{}

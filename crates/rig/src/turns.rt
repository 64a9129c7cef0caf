//! The turns of a worker, and the loop of one that makes the steps of a table.

ghost use Rattle.std.specs.Prelude.{◌≡◌, ◌≢◌, ◌⊎◌, ◌<◌, ◌^◌, ◌-◌, ◌||◌, ℕ, Bool, suc, true, Some, None, Err, length, Option, IfSome};
ghost use Rattle.mig_base.specs.declared.refusal.Refusal.{Refusal};
ghost use Rattle.mig_base.specs.declared.schedule.Step.{Step};
ghost use Rattle.mig_base.specs.declared.schedule.Ticket.{Ticket};
ghost use Rattle.rig.specs.declared.gate.Pass.{Pass};
ghost use Rattle.rig.specs.declared.gate.StepKind.{StepKind};
ghost use Rattle.rig.specs.declared.gate.Worker.{Worker};
ghost use Rattle.rig.specs.declared.turns.Leave.{Leave};
ghost use Rattle.rig.specs.declared.turns.TurnOutcome.{TurnOutcome};
ghost use Rattle.rig.specs.Sections.{IsSomeOutcome};
ghost use Rattle.rig.specs.Turns.{Asks, IsStepOf, due_after, is_push, is_stale, kind_of, steps_of, ticket_of};

use crate::gate::{Pass, StepKind, Worker};
use mig_base::effect::Effect;
use mig_base::refusal::Refusal;
use mig_base::schedule::{Side, Step, Ticket};
use std::thread;

/// The most times that a worker yields between two rounds of its steps, which takes some tens of microseconds.
const LONGEST_REST: u32 = 64;

/// What a worker may do before it asks again.
#[derive(Clone, Copy, Debug, PartialEq, Eq)]
pub enum Leave {
    /// Nothing: it has made its step, or may not make it.
    Nothing,
    /// One step of this kind.
    Step(StepKind),
    /// Nothing, for good.
    Over,
}

/// What came of a turn.
enum TurnOutcome {
    /// A step was made.
    Step,
    /// No step was made.
    Nothing,
    /// The worker was stopped.
    Stop,
}

/// What the loop of a worker runs over: in each turn it asks whether it may make a step of the next kind, and then makes at most one, of
/// that kind. Under the lock of a rig the gate decides, and each step is one section. Tests run the same loops over a world and a list of
/// the kinds that were asked for.
pub trait Turns {
    ghost who: { Self → Worker };

    /// The number of turns so far.
    ghost turn: { Self → ℕ };

    ghost leave: { Self → Leave };

    /// The ticket of a push that was refused and may be accepted later, if there is one. It is pushed before anything else is done.
    ghost due: { Self → Option Ticket };

    /// Whether the epoch of the worker's claims was found to be over.
    ghost stale: { Self → Bool };

    /// Asks for a step of this kind, which begins the next turn. A worker that was stopped does not ask again.
    fn pass(&mut self, next: StepKind) -> Pass
        requires asks { Asks (who self.old) (turn self.old) next }
        requires runs { leave self.old ≢ Leave.Over }
        requires few { turn self.old < 2 ^ 64 - 1 }
        requires again { IfSome (due self.old) (λ ticket. is_push next ≡ true) }
        ensures who { who self.new ≡ who self.old }
        ensures due { due self.new ≡ due self.old }
        ensures stale { stale self.new ≡ stale self.old }
        ensures turn { turn self.new ≡ suc (turn self.old) }
        ensures go { result ≡ Pass.Go → leave self.new ≡ Leave.Step next }
        ensures skip { result ≡ Pass.Skip → leave self.new ≡ Leave.Nothing }
        ensures stop { result ≡ Pass.Stop → leave self.new ≡ Leave.Over };

    /// Makes the one step that this turn allows.
    fn make(&mut self, step: Step) -> Result<Effect, Refusal>
        requires step { IsStepOf (who self.old) step }
        requires leave { leave self.old ≡ Leave.Step (kind_of step) }
        requires again { IfSome (due self.old) (λ ticket. ticket_of step ≡ Some ticket) }
        ensures who { who self.new ≡ who self.old }
        ensures turn { turn self.new ≡ turn self.old }
        ensures leave { leave self.new ≡ Leave.Nothing }
        ensures due { due self.new ≡ due_after step result }
        ensures stale { stale self.new ≡ stale self.old || is_stale result }
        ensures outcome { IsSomeOutcome step result };

    /// Makes a Serve, if the world is in this epoch; `StaleEpoch`, and no step, if not.
    fn serve(&mut self, epoch: u32) -> Result<Effect, Refusal>
        requires leave { leave self.old ≡ Leave.Step StepKind.Serve }
        requires again { due self.old ≡ None }
        ensures who { who self.new ≡ who self.old }
        ensures turn { turn self.new ≡ turn self.old }
        ensures leave { leave self.new ≡ Leave.Nothing }
        ensures due { due self.new ≡ None }
        ensures stale { stale self.new ≡ stale self.old || is_stale result }
        ensures outcome { (result ≡ Err Refusal.StaleEpoch) ⊎ IsSomeOutcome Step.Serve result };

    /// Whether the world is in another epoch than this one. No step is made.
    fn is_over(&mut self, epoch: u32) -> bool
        ensures who { who self.new ≡ who self.old }
        ensures turn { turn self.new ≡ turn self.old }
        ensures leave { leave self.new ≡ leave self.old }
        ensures due { due self.new ≡ due self.old }
        ensures stale { stale self.new ≡ stale self.old || result };
}

/// The loop of the source's worker: Round, Send, SourceRead, SourceAct, DeliverBack, End and Notice in turn, over and over, until it is
/// stopped, or to the greatest turn.
pub fn source_turns<T: Turns>(turns: &mut T)
    requires who { T.who turns.old ≡ Worker.Source }
    requires first { T.turn turns.old ≡ 0 }
    requires runs { T.leave turns.old ≢ Leave.Over }
    requires none { T.due turns.old ≡ None }
    ensures ended { (T.leave turns.new ≡ Leave.Over) ⊎ (T.turn turns.new ≡ 2 ^ 64 - 1) }
{
    take_turns(
        turns,
        &[
            Step::Round,
            Step::Send,
            Step::SourceRead,
            Step::SourceAct,
            Step::DeliverBack { n: u64::MAX },
            Step::End,
            Step::Notice(Side::Source),
        ],
    )
}

/// The loop of the destination's worker: Deliver, DeliverUrgent, DestRead, DestAct, Install and Notice in turn, over and over, until it is
/// stopped, or to the greatest turn.
pub fn dest_turns<T: Turns>(turns: &mut T)
    requires who { T.who turns.old ≡ Worker.Dest }
    requires first { T.turn turns.old ≡ 0 }
    requires runs { T.leave turns.old ≢ Leave.Over }
    requires none { T.due turns.old ≡ None }
    ensures ended { (T.leave turns.new ≡ Leave.Over) ⊎ (T.turn turns.new ≡ 2 ^ 64 - 1) }
{
    take_turns(
        turns,
        &[
            Step::Deliver { n: u64::MAX },
            Step::DeliverUrgent { n: u64::MAX },
            Step::DestRead,
            Step::DestAct,
            Step::Install,
            Step::Notice(Side::Destination),
        ],
    )
}

/// Makes the steps of the worker's table over and over. After a round in which it made none it yields once, after the next such round
/// twice, and so on, up to [`LONGEST_REST`] times.
fn take_turns<T: Turns>(turns: &mut T, steps: &[Step])
    requires who { (T.who turns.old ≡ Worker.Source) ⊎ (T.who turns.old ≡ Worker.Dest) }
    requires table { steps.now ≡ steps_of (T.who turns.old) }
    requires first { T.turn turns.old ≡ 0 }
    requires runs { T.leave turns.old ≢ Leave.Over }
    requires none { T.due turns.old ≡ None }
    ensures ended { (T.leave turns.new ≡ Leave.Over) ⊎ (T.turn turns.new ≡ 2 ^ 64 - 1) }
{
    let count = steps.len() as u64;
    let mut is_idle = true;
    let mut rest = 1;
    for turn in 0..u64::MAX {
        match take_turn(turns, steps[(turn % count) as usize]) {
            TurnOutcome::Step => is_idle = false,
            TurnOutcome::Nothing => {}
            TurnOutcome::Stop => return,
        }
        if turn % count == count - 1 {
            rest = if is_idle { rest_after(rest) } else { 1 };
            is_idle = true;
        }
    }
}

/// Asks for a step of the worker's table, and makes it if it may.
#[tactic(auto, using(crate::proofs::TurnLemmas::due_none))]
fn take_turn<T: Turns>(turns: &mut T, step: Step) -> TurnOutcome
    requires step { IsStepOf (T.who turns.old) step }
    requires asks { Asks (T.who turns.old) (T.turn turns.old) (kind_of step) }
    requires runs { T.leave turns.old ≢ Leave.Over }
    requires few { T.turn turns.old < 2 ^ 64 - 1 }
    requires none { T.due turns.old ≡ None }
    requires no_push { ticket_of step ≡ None }
    ensures who { T.who turns.new ≡ T.who turns.old }
    ensures turn { T.turn turns.new ≡ suc (T.turn turns.old) }
    ensures none { T.due turns.new ≡ None }
    ensures runs { result ≢ TurnOutcome.Stop → T.leave turns.new ≢ Leave.Over }
    ensures stop { result ≡ TurnOutcome.Stop → T.leave turns.new ≡ Leave.Over }
{
    match turns.pass(StepKind::of(step)) {
        Pass::Go => {
            if turns.make(step).is_ok() {
                TurnOutcome::Step
            } else {
                TurnOutcome::Nothing
            }
        }
        Pass::Skip => TurnOutcome::Nothing,
        Pass::Stop => TurnOutcome::Stop,
    }
}

/// Yields `rest` times. Returns how often to yield after the next round without a step: twice as often, up to [`LONGEST_REST`].
fn rest_after(rest: u32) -> u32 {
    for _ in 0..rest {
        thread::yield_now();
    }
    rest.saturating_mul(2).min(LONGEST_REST)
}

/// The ticket of a push that was refused and may be accepted later: its worker pushes it again.
pub fn ticket_due(step: Step, outcome: &Result<Effect, Refusal>) -> Option<Ticket>
    ensures { result ≡ due_after step outcome.now }
{
    match (step, outcome) {
        (
            Step::Push(ticket) | Step::PushUrgent(ticket),
            Err(Refusal::NoMemory | Refusal::Broken | Refusal::Phase),
        ) => Some(ticket),
        _ => None,
    }
}

/// Whether an outcome says that the epoch of the claims is over.
pub fn says_stale(outcome: &Result<Effect, Refusal>) -> bool
    ensures { result ≡ is_stale outcome.now }
{
    matches!(outcome, Err(Refusal::StaleEpoch))
}

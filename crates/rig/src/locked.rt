//! The turns of a worker under the lock of a rig.

ghost use Rattle.std.specs.Prelude.{◌≡◌, ◌⊎◌, None, false, Err};
ghost use Rattle.mig_base.specs.declared.schedule.Step.{Step};
ghost use Rattle.rig.specs.declared.turns.Leave.{Leave};
ghost use Rattle.rig.specs.Sections.{IsSomeOutcome};

use crate::gate::{Gate, Pass, StepKind, Worker};
use crate::rig::Rig;
use crate::turns::{Leave, Turns, says_stale, ticket_due};
use mig_base::effect::Effect;
use mig_base::refusal::Refusal;
use mig_base::schedule::{Step, Ticket};
use std::sync::Wait;

/// A worker of a rig, which asks a gate and makes each step in one section of the lock.
#[derive(Drop)]
pub(crate) struct Locked<'a, R, G> {
    rig: &'a Rig,
    rt: &'a R,
    gate: &'a G,
    who: Worker,
    turn: u64,
    leave: Leave,
    due: Option<Ticket>,
    stale: bool,
}

impl<'a, R: Wait, G: Gate> Locked<'a, R, G> {
    /// A worker before its first turn.
    pub(crate) fn new(rig: &'a Rig, rt: &'a R, gate: &'a G, who: Worker) -> Locked<'a, R, G>
        ensures who { result.who ≡ who }
        ensures turn { result.turn ≡ 0 }
        ensures leave { result.leave ≡ Leave.Nothing }
        ensures due { result.due ≡ None }
        ensures stale { result.stale ≡ false }
    {
        Locked {
            rig,
            rt,
            gate,
            who,
            turn: 0,
            leave: Leave::Nothing,
            due: None,
            stale: false,
        }
    }
}

impl<R: Wait, G: Gate> Turns for Locked<'_, R, G> {
    ghost who = { λ s. s.who };

    ghost turn = { λ s. s.turn };

    ghost leave = { λ s. s.leave };

    ghost due = { λ s. s.due };

    ghost stale = { λ s. s.stale };

    fn pass(&mut self, next: StepKind) -> Pass {
        let pass = self.gate.pass(self.who, next, self.turn);
        self.turn += 1;
        self.leave = match pass {
            Pass::Go => Leave::Step(next),
            Pass::Skip => Leave::Nothing,
            Pass::Stop => Leave::Over,
        };
        pass
    }

    fn make(&mut self, step: Step) -> Result<Effect, Refusal> {
        self.leave = Leave::Nothing;
        let (_world, outcome) = self.rig.make(self.rt, step);
        self.due = ticket_due(step, &outcome);
        self.stale |= says_stale(&outcome);
        outcome
    }

    fn serve(&mut self, epoch: u32) -> Result<Effect, Refusal> {
        self.leave = Leave::Nothing;
        let (_world, outcome) = self.rig.serve(self.rt, epoch);
        self.stale |= says_stale(&outcome);
        outcome
    }

    fn is_over(&mut self, epoch: u32) -> bool {
        let (_world, now) = self.rig.epoch(self.rt);
        let is_over = now != epoch;
        self.stale |= is_over;
        is_over
    }
}

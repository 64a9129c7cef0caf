//! Sections, the work under the lock: at most one step of the world. No other code of this crate makes a step.

ghost use Rattle.std.specs.Prelude.{◌≡◌, ◌⊎◌, ◌++◌, List, ℕ, Ok, Err, IfOk, OnErr, true, false};
ghost use Rattle.mig_model.specs.Promises.{IsReached};
ghost use Rattle.mig_model.specs.Runs.{Happens};
ghost use Rattle.mig_model.specs.Views.{cpu_state};
ghost use Rattle.mig_base.specs.declared.command.Command.{Command};
ghost use Rattle.mig_base.specs.declared.command.Entry.{Entry};
ghost use Rattle.mig_base.specs.declared.cpu_state.CpuState.{CpuState};
ghost use Rattle.mig_base.specs.declared.refusal.Refusal.{Refusal};
ghost use Rattle.mig_base.specs.declared.schedule.Step.{Step};
ghost use Rattle.rig.specs.declared.section.Attempt.{Attempt};
ghost use Rattle.rig.specs.Sections.{IsEntered, IsRetry, IsToldOf, IsTriedAs, IsTried, entries_by, is_calling};

use mig_base::cpu_state::CpuState;
use mig_base::effect::Effect;
use mig_base::refusal::Refusal;
use mig_base::schedule::Step;
use mig_base::{Command, Reply};
use world::World;

/// What became of a command that was tried.
#[derive(Clone, Copy, Debug, PartialEq, Eq)]
pub(crate) enum Attempt {
    /// It took effect with this reply. A map call returns it once its messages have been read.
    Replied(Reply),
    /// It sleeps.
    Asleep,
}

/// Makes a step other than a command of a processor.
pub(crate) fn step_in(world: &mut World, step: Step) -> Result<Effect, Refusal>
    ensures { Happens world.old step result world.new }
{
    world.step(step)
}

/// A processor begins a command.
pub(crate) fn issue_in(world: &mut World, cpu: u8, command: Command) -> Result<Attempt, Refusal>
    ensures step { IsTried world.old (Step.Issue cpu command) result world.new }
    ensures entered { IfOk result (λ tried.
        world.new.transcript ≡ world.old.transcript ++ entries_by cpu command tried) }
    ensures told { IsReached world.old → IfOk result (λ tried. IsToldOf cpu command tried) }
    ensures refused { OnErr result (world.new ≡ world.old) }
{
    match world.step(Step::Issue { cpu, command }) {
        Ok(effect) => Ok(tried_as(world, effect)),
        Err(refusal) => Err(refusal),
    }
}

/// A processor that was woken tries its command again. `NotAsleep` if it has no load or store outstanding.
pub(crate) fn retry_in(world: &mut World, cpu: u8) -> Result<(Command, Attempt), Refusal>
    ensures woken { (command : Command) → cpu_state world.old cpu ≡ Ok (CpuState.Woken command) →
        IsRetry world.old cpu command result world.new }
    ensures asleep { (command : Command) → cpu_state world.old cpu ≡ Ok (CpuState.Asleep command) →
        (world.new ≡ world.old) × (result ≡ Ok (command, Attempt.Asleep)) }
    ensures entered { IfOk result (λ r.
        world.new.transcript ≡ world.old.transcript ++ entries_by cpu r.0 r.1) }
    ensures told { IsReached world.old → IfOk result (λ r. IsToldOf cpu r.0 r.1) }
    ensures refused { OnErr result (world.new ≡ world.old) }
{
    match world.cpu_state(cpu) {
        Ok(CpuState::Asleep(command)) => Ok((command, Attempt::Asleep)),
        Ok(CpuState::Woken(command)) => match world.step(Step::Retry { cpu }) {
            Ok(effect) => Ok((command, tried_as(world, effect))),
            Err(refusal) => Err(refusal),
        },
        Ok(CpuState::Idle | CpuState::InCall { .. }) => Err(Refusal::NotAsleep),
        Err(refusal) => Err(refusal),
    }
}

/// Whether a processor is in a map call whose messages are not all read.
pub(crate) fn is_in_call(world: &World, cpu: u8) -> bool
    ensures { result ≡ is_calling (cpu_state world.now cpu) }
{
    matches!(world.cpu_state(cpu), Ok(CpuState::InCall { .. }))
}

/// Dequeues the oldest request of the destination. `StaleEpoch`, and no step, if the world's epoch is another.
pub(crate) fn serve_in(world: &mut World, epoch: u32) -> Result<Effect, Refusal>
    ensures stale { (epoch ≡ world.old.source.epoch → ⊥) →
        (result ≡ Err Refusal.StaleEpoch) × (world.new ≡ world.old) }
    ensures served { epoch ≡ world.old.source.epoch →
        Happens world.old Step.Serve result world.new }
    ensures outcome { (result ≡ Err Refusal.StaleEpoch) ⊎
        Happens world.old Step.Serve result world.new }
{
    if world.epoch() != epoch {
        return Err(Refusal::StaleEpoch);
    }
    world.step(Step::Serve)
}

/// What became of a try, by its effect. A map call that waits has the reply of the last entry, its own.
fn tried_as(world: &World, effect: Effect) -> Attempt
    ensures entered { (old : List Entry) (cpu : ℕ) (command : Command) →
        IsEntered effect old world.now.transcript cpu command →
        world.now.transcript ≡ old ++ entries_by cpu command result }
    ensures by_effect { (old : List Entry) (cpu : ℕ) (command : Command) →
        IsEntered effect old world.now.transcript cpu command → IsTriedAs effect result }
{
    match effect {
        Effect::Answered { reply, .. } => Attempt::Replied(reply),
        Effect::InCall { .. } => match world.transcript().last() {
            Some(entry) => Attempt::Replied(entry.reply),
            None => Attempt::Asleep,
        },
        _ => Attempt::Asleep,
    }
}

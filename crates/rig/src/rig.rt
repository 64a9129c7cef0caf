//! A world under a lock, with processors and workers in threads of their own.

ghost use Rattle.std.specs.Prelude.{◌≡◌, ◌≢◌, ◌⊎◌, ◌++◌, ◌∷◌, [], length, ◌<◌, ◌≤◌, ℕ, IfOk, IfErr, IfSome, OnOk, OnErr, true, false, Some, Err, All, ◌+◌, ◌↔◌, set, Bool, List};
ghost use Rattle.std.specs.List.{slice_get};
ghost use Rattle.mig_base.specs.Flat.{IsFlatRun};
ghost use Rattle.mig_base.specs.declared.command.Command.{Command};
ghost use Rattle.mig_base.specs.declared.schedule.Step.{Step};
ghost use Rattle.pusher.specs.Seats.{IsSeatOf};
ghost use Rattle.rig.specs.Claiming.{AreFound, IsLost};
ghost use Rattle.rig.specs.Seats.{answers_of, list_of, seats_of, AreAnswered, SeatsAreRight, IsLeastWrong, calls_of};
ghost use Rattle.rig.specs.Sections.{IsMade, IsServed, IsSomeOutcome, IsReplyOf, IsReplyTo};
ghost use Rattle.mig_base.specs.declared.refusal.Refusal.{Refusal};
ghost use Rattle.std.specs.Sync.Mutex.{mutex_guard_value};

mod commands;
mod workers;

use crate::check::first_wrong;
use crate::remaining::are_lost;
use crate::seat::{Answer, CpuSeat};
use crate::section::{serve_in, step_in};
use mig_base::effect::Effect;
use mig_base::refusal::Refusal;
use mig_base::schedule::Step;
use mig_base::{Command, Entry, NoMemory, Reply, WorldPhase};
use pusher::{ClaimSeat, Claims};
use std::alloc::Global;
use std::marker::Model;
use std::sync::{Condvar, Mutex, MutexGuard, Wait};
use thiserror::Error;
use world::World;

/// Why the seats or claims with which a rig was closed do not agree with its world.
#[derive(Clone, Copy, Debug, PartialEq, Eq, Error)]
pub enum CloseFault {
    /// The answers of the processor with this number are not those of its seat, or its seat did not come back as it must.
    #[error("the answers of processor {0} are not those of its seat")]
    Answers(u8),
    /// A page of the claims neither remains to be sent nor was claimed by the seat that came with them.
    #[error("a page of the claims is lost")]
    Claims,
}

/// A world that threads share.
pub struct Rig {
    alloc: Global,
    world: Mutex<World>,
    /// Notified after each accepted step but a retry that sleeps again.
    changed: Condvar,
    opening: Vec<Entry>,
    handed: Vec<bool>,
}

// Written by hand, so that each exit of a function that owns a rig has one call instead of the drops of all parts.
impl Drop for Rig {
    fn drop(self) {
        let Rig {
            alloc: _,
            world: _world,
            changed: _changed,
            opening: _opening,
            handed: _handed,
        } = self;
    }
}

impl Model for Rig {
    ghost use Rattle.std.specs.Prelude.{All, ◌<◌, ◌≤◌, length};
    ghost use Rattle.mig_base.specs.declared.TheConstants.{MAX_CPUS};
    ghost use Rattle.rig.specs.Seats.{Handed};

    ghost Value = { Handed };

    ghost view = { λ r. record { opening = r.opening.items; handed = r.handed.items } };

    ghost invariant = { λ r. All (λ e. e.cpu < length r.handed.items) r.opening.items × (length r.handed.items ≤ MAX_CPUS) };
}

impl Rig {
    /// Puts a world under a lock, and keeps a copy of its transcript. If memory is refused, the world comes back.
    pub fn new(alloc: Global, world: World) -> Result<Rig, World>
        ensures opening { IfOk result (λ rig. rig.opening ≡ world.transcript) }
        ensures handed { IfOk result (λ rig.
            (length rig.handed ≡ length world.source.guest.cpus) ×
            All (λ h. h ≡ false) rig.handed) }
        ensures err { IfErr result (λ back. back ≡ world) }
    {
        let Ok(opening) = copied(alloc, world.transcript()) else {
            return Err(world);
        };
        let Ok(handed) = none_handed(alloc, world.cpus()) else {
            return Err(world);
        };
        Ok(Rig {
            alloc,
            world: Mutex::new(world),
            changed: Condvar::new(),
            opening,
            handed,
        })
    }

    /// Hands out the seat of a processor, once. `NoCpu` if there is no such processor, `Busy` if its seat was handed out before.
    pub fn seat(&mut self, cpu: u8) -> Result<CpuSeat, Refusal>
        ensures seat { IfOk result (λ seat. seat ≡ record { cpu = cpu; answers = [] }) }
        ensures first { IfOk result (λ seat. slice_get self.old.handed cpu ≡ Some false) }
        ensures handed { OnOk result (self.new ≡
            record self.old { handed = set self.old.handed cpu true }) }
        ensures no_cpu { (result ≡ Err Refusal.NoCpu) ↔ (length self.old.handed ≤ cpu) }
        ensures busy { (result ≡ Err Refusal.Busy) ↔ (slice_get self.old.handed cpu ≡ Some true) }
        ensures err { OnErr result (self.new ≡ self.old) }
    {
        if usize::from(cpu) >= self.handed.len() {
            return Err(Refusal::NoCpu);
        }
        if self.handed[usize::from(cpu)] {
            return Err(Refusal::Busy);
        }
        self.handed[usize::from(cpu)] = true;
        Ok(CpuSeat {
            cpu,
            answers: Vec::new(self.alloc),
        })
    }

    /// Makes a command as the seat's processor, and returns its reply once there is one: a load or store that sleeps is tried again when
    /// it is woken, and a map call returns when its messages have been read. Waits while neither node runs the processors: `Phase` does
    /// not come.
    ///
    /// `Busy` if the processor still has a command: one from before the rig, or one whose retry was refused for lack of memory; see
    /// [`finish`](Rig::finish). `NoMemory` if the seat has no room for the answer, before any step, or if a step had no memory. Nothing
    /// was entered then. Where the command has slept it stays with the processor, and `finish` waits for its reply; else the processor is
    /// idle.
    pub fn call<R: Wait>(
        &self,
        rt: &R,
        seat: &mut CpuSeat,
        command: Command,
    ) -> Result<Reply, Refusal>
        ensures cpu { seat.new.cpu ≡ seat.old.cpu }
        ensures ok { IfOk result (λ reply.
            seat.new.answers ≡ seat.old.answers ++
            record { command = command; reply = reply } ∷ []) }
        ensures entered { IfOk result (λ reply. IsReplyOf seat.old.cpu reply) }
        ensures waits { result ≢ Err Refusal.Phase }
        ensures err { OnErr result (seat.new ≡ seat.old) }
    {
        if seat.answers.try_reserve(1).is_err() {
            return Err(Refusal::NoMemory);
        }
        let (_world, outcome) = self.reply_to(rt, seat.cpu, command);
        match outcome {
            Ok(reply) => match seat.answers.push(Answer { command, reply }) {
                Ok(()) => Ok(reply),
                Err(_) => unreachable!(),
            },
            Err(refusal) => Err(refusal),
        }
    }

    /// Waits for the reply to the outstanding load or store of the seat's processor. `NotAsleep` if it has none. `NoMemory` as for
    /// [`call`](Rig::call): the command stays with the processor, and `finish` may be called again.
    pub fn finish<R: Wait>(&self, rt: &R, seat: &mut CpuSeat) -> Result<Reply, Refusal>
        ensures cpu { seat.new.cpu ≡ seat.old.cpu }
        ensures ok { IfOk result (λ reply.
            (command : Command) ×
            (seat.new.answers ≡ seat.old.answers ++
            record { command = command; reply = reply } ∷ []) ×
            IsReplyTo seat.old.cpu command reply) }
        ensures waits { result ≢ Err Refusal.Phase }
        ensures err { OnErr result (seat.new ≡ seat.old) }
    {
        if seat.answers.try_reserve(1).is_err() {
            return Err(Refusal::NoMemory);
        }
        let (_world, outcome) = self.late_reply(rt, seat.cpu);
        match outcome {
            Ok(answer) => match seat.answers.push(answer) {
                Ok(()) => Ok(answer.reply),
                Err(_) => unreachable!(),
            },
            Err(refusal) => Err(refusal),
        }
    }

    /// Starts the migration, as [`Step::Start`].
    pub fn start<R: Wait>(&self, rt: &R) -> Result<Effect, Refusal>
        ensures { IsSomeOutcome Step.Start result }
    {
        let (_world, outcome) = self.make(rt, Step::Start);
        outcome
    }

    /// Stops the processors at the source and hands them over, as [`Step::Switch`].
    pub fn switch<R: Wait>(&self, rt: &R) -> Result<Effect, Refusal>
        ensures { IsSomeOutcome Step.Switch result }
    {
        let (_world, outcome) = self.make(rt, Step::Switch);
        outcome
    }

    /// Breaks the channel, as [`Step::Break`].
    pub fn cut<R: Wait>(&self, rt: &R) -> Result<Effect, Refusal>
        ensures { IsSomeOutcome Step.Break result }
    {
        let (_world, outcome) = self.make(rt, Step::Break);
        outcome
    }

    /// Continues over a new channel, as [`Step::Resume`].
    pub fn resume<R: Wait>(&self, rt: &R) -> Result<Effect, Refusal>
        ensures { IsSomeOutcome Step.Resume result }
    {
        let (_world, outcome) = self.make(rt, Step::Resume);
        outcome
    }

    /// How far the migration has come now. No step is made.
    pub fn phase<R: Wait>(&self, rt: &R) -> WorldPhase {
        self.world.lock(rt).phase()
    }

    /// Dequeues a request in one section of the lock. `StaleEpoch`, and no step, if the world's epoch is another. The world that is still
    /// locked is the one that the section has left.
    pub(crate) fn serve<R: Wait>(
        &self,
        rt: &R,
        epoch: u32,
    ) -> (MutexGuard<'_, World>, Result<Effect, Refusal>)
        ensures { IsServed epoch result.1 (mutex_guard_value result.0) }
    {
        let mut world = self.world.lock(rt);
        world.headline();
        let outcome = serve_in(&mut world, epoch);
        if outcome.is_ok() {
            self.changed.notify_all();
        }
        (world, outcome)
    }

    /// The epoch of the world, which is still locked. No step is made.
    pub(crate) fn epoch<R: Wait>(&self, rt: &R) -> (MutexGuard<'_, World>, u32)
        ensures { result.1 ≡ (mutex_guard_value result.0).source.epoch }
    {
        let world = self.world.lock(rt);
        let epoch = world.epoch();
        (world, epoch)
    }

    /// One step, in one section of the lock. The world that is still locked is the one that the step has left.
    pub(crate) fn make<R: Wait>(
        &self,
        rt: &R,
        step: Step,
    ) -> (MutexGuard<'_, World>, Result<Effect, Refusal>)
        ensures { IsMade step result.1 (mutex_guard_value result.0) }
    {
        let mut world = self.world.lock(rt);
        world.headline();
        let outcome = step_in(&mut world, step);
        if outcome.is_ok() {
            self.changed.notify_all();
        }
        (world, outcome)
    }

    /// Returns the world, after two tests; if one fails, the world comes with the fault.
    ///
    /// `Answers` names the least processor that fails the first: its entries are those that it had when the rig was made, and then the
    /// answers of its seat; and its seat is in `seats` at most once, exactly once if it was handed out, and not at all if the world does
    /// not have the processor. The second is for claims of the world's epoch alone: each of their pages remains to be sent, or was claimed
    /// by the seat that comes with them. `Claims` is returned if a page does neither.
    ///
    /// Takes 16 walks over the transcript and one over the claims, and no memory.
    pub fn close(
        self,
        seats: Vec<CpuSeat>,
        claims: Option<(Claims, ClaimSeat)>,
    ) -> Result<World, (CloseFault, World)>
        requires { IfSome claims (λ c. IsSeatOf c.0 c.1) }
        ensures flat { IfOk result (λ world. IsFlatRun world.transcript) }
        ensures right { IfOk result (λ world. SeatsAreRight self seats.items world) }
        ensures answers { IfOk result (λ world. (k : ℕ) → k < length world.source.guest.cpus →
            answers_of k world.transcript ≡ answers_of k self.opening ++ list_of k seats.items) }
        ensures once { IfOk result (λ world. (k : ℕ) → k < length world.source.guest.cpus →
            seats_of k seats.items ≤ 1) }
        ensures count { IfOk result (λ world.
            length world.transcript ≡ length self.opening + calls_of seats.items) }
        ensures kept { IfOk result (λ world. AreFound claims world) }
        ensures fault { IfErr result (λ r. (k : ℕ) → r.0 ≡ CloseFault.Answers k →
            IsLeastWrong self seats.items r.1.transcript (length r.1.source.guest.cpus) k) }
        ensures lost { IfErr result (λ r. r.0 ≡ CloseFault.Claims → IsLost claims r.1) }
        ensures flat_still { IfErr result (λ r. IsFlatRun r.1.transcript) }
    {
        self.close_with(&seats, claims)
    }

    /// The same for seats that the caller keeps.
    pub fn close_with(
        self,
        seats: &[CpuSeat],
        claims: Option<(Claims, ClaimSeat)>,
    ) -> Result<World, (CloseFault, World)>
        requires { IfSome claims (λ c. IsSeatOf c.0 c.1) }
        ensures flat { IfOk result (λ world. IsFlatRun world.transcript) }
        ensures right { IfOk result (λ world. SeatsAreRight self seats.now world) }
        ensures answered { IfOk result (λ world.
            AreAnswered self seats.now world.transcript (length world.source.guest.cpus)) }
        ensures kept { IfOk result (λ world. AreFound claims world) }
        ensures fault { IfErr result (λ r. (k : ℕ) → r.0 ≡ CloseFault.Answers k →
            IsLeastWrong self seats.now r.1.transcript (length r.1.source.guest.cpus) k) }
        ensures lost { IfErr result (λ r. r.0 ≡ CloseFault.Claims → IsLost claims r.1) }
        ensures flat_still { IfErr result (λ r. IsFlatRun r.1.transcript) }
    {
        let world = match self.close_seats(seats) {
            Ok(world) => world,
            Err(fault) => return Err(fault),
        };
        let Some((claims, seat)) = claims else {
            return Ok(world);
        };
        if are_lost(&world, &claims, &seat) {
            return Err((CloseFault::Claims, world));
        }
        Ok(world)
    }

    /// Returns the world, and tests the seats.
    fn close_seats(self, seats: &[CpuSeat]) -> Result<World, (CloseFault, World)>
        ensures flat { IfOk result (λ world. IsFlatRun world.transcript) }
        ensures right { IfOk result (λ world. SeatsAreRight self seats.now world) }
        ensures answered { IfOk result (λ world.
            AreAnswered self seats.now world.transcript (length world.source.guest.cpus)) }
        ensures fault { IfErr result (λ r. (k : ℕ) → r.0 ≡ CloseFault.Answers k →
            IsLeastWrong self seats.now r.1.transcript (length r.1.source.guest.cpus) k) }
        ensures seats { IfErr result (λ r. r.0 ≡ CloseFault.Claims → ⊥) }
        ensures flat_still { IfErr result (λ r. IsFlatRun r.1.transcript) }
    {
        let Rig {
            alloc: _,
            world,
            changed: _,
            opening,
            handed,
        } = self;
        let world = world.into_inner();
        match first_wrong(world.transcript(), &opening, &handed, seats, world.cpus()) {
            None => Ok(world),
            Some(cpu) => Err((CloseFault::Answers(cpu), world)),
        }
    }
}

fn copied(alloc: Global, entries: &[Entry]) -> Result<Vec<Entry>, NoMemory>
    ensures { IfOk result (λ copy. copy.items ≡ entries.now) }
{
    let mut copy = Vec::new(alloc);
    copy.extend_from_slice(entries)?;
    Ok(copy)
}

fn none_handed(alloc: Global, cpus: u8) -> Result<Vec<bool>, NoMemory>
    ensures count { IfOk result (λ handed. length handed.items ≡ cpus) }
    ensures none { IfOk result (λ handed. All (λ h. h ≡ false) handed.items) }
{
    let mut handed = Vec::new(alloc);
    handed.resize(usize::from(cpus), false)?;
    Ok(handed)
}

//! The commands of processors: what is done from the first section of a call to its last. Each of these functions returns with the world
//! locked, so that its contract can say how it left the world.

ghost use Rattle.std.specs.Prelude.{◌≡◌, ◌≢◌, IfOk, Err, false};
ghost use Rattle.mig_base.specs.declared.refusal.Refusal.{Refusal};
ghost use Rattle.std.specs.Sync.Mutex.{mutex_guard_value};
ghost use Rattle.mig_model.specs.Views.{cpu_state};
ghost use Rattle.rig.specs.Sections.{IsReplyOf, IsReplyTo, IsToldOf, is_calling};

use super::Rig;
use crate::seat::Answer;
use crate::section::{Attempt, is_in_call, issue_in, retry_in};
use mig_base::refusal::Refusal;
use mig_base::{Command, Reply};
use std::sync::{MutexGuard, Wait};
use world::World;

impl Rig {
    /// The reply to a command. When it is there, the processor is in no call. A command that sleeps lets go of the lock, and no contract
    /// can say that what is retried later is the same one: `close` tests it.
    pub(super) fn reply_to<R: Wait>(
        &self,
        rt: &R,
        cpu: u8,
        command: Command,
    ) -> (MutexGuard<'_, World>, Result<Reply, Refusal>)
        ensures entered { IfOk result.1 (λ reply. IsReplyOf cpu reply) }
        ensures waits { result.1 ≢ Err Refusal.Phase }
        ensures out { IfOk result.1 (λ reply.
            is_calling (cpu_state (mutex_guard_value result.0) cpu) ≡ false) }
    {
        let (world, tried) = self.issue(rt, cpu, command);
        match tried {
            Ok(Attempt::Replied(reply)) => (self.return_from_call(rt, world, cpu), Ok(reply)),
            Ok(Attempt::Asleep) => {
                drop(world);
                let (world, answer) = self.late_reply(rt, cpu);
                match answer {
                    Ok(answer) => (world, Ok(answer.reply)),
                    Err(refusal) => (world, Err(refusal)),
                }
            }
            Err(refusal) => (world, Err(refusal)),
        }
    }

    /// Issues a command, once a node runs the processors.
    fn issue<R: Wait>(
        &self,
        rt: &R,
        cpu: u8,
        command: Command,
    ) -> (MutexGuard<'_, World>, Result<Attempt, Refusal>)
        ensures told { IfOk result.1 (λ tried. IsToldOf cpu command tried) }
        ensures waits { result.1 ≢ Err Refusal.Phase }
    {
        let mut world = self.world.lock(rt);
        for _ in rt.forever() {
            world.headline();
            match issue_in(&mut world, cpu, command) {
                Err(Refusal::Phase) => world = self.changed.wait(rt, world),
                Ok(tried) => {
                    self.changed.notify_all();
                    return (world, Ok(tried));
                }
                Err(refusal) => return (world, Err(refusal)),
            }
        }
        unreachable!()
    }

    /// Waits until a retry of the processor's command has a reply.
    pub(super) fn late_reply<R: Wait>(
        &self,
        rt: &R,
        cpu: u8,
    ) -> (MutexGuard<'_, World>, Result<Answer, Refusal>)
        ensures entered { IfOk result.1 (λ answer. IsReplyTo cpu answer.command answer.reply) }
        ensures waits { result.1 ≢ Err Refusal.Phase }
        ensures out { IfOk result.1 (λ answer.
            is_calling (cpu_state (mutex_guard_value result.0) cpu) ≡ false) }
    {
        let mut world = self.world.lock(rt);
        for _ in rt.forever() {
            world.headline();
            match retry_in(&mut world, cpu) {
                Ok((_, Attempt::Asleep)) | Err(Refusal::Phase) => {
                    world = self.changed.wait(rt, world)
                }
                Ok((command, Attempt::Replied(reply))) => {
                    self.changed.notify_all();
                    let world = self.return_from_call(rt, world, cpu);
                    return (world, Ok(Answer { command, reply }));
                }
                Err(refusal) => return (world, Err(refusal)),
            }
        }
        unreachable!()
    }

    /// Waits until the processor is in no map call.
    fn return_from_call<'a, R: Wait>(
        &'a self,
        rt: &R,
        mut world: MutexGuard<'a, World>,
        cpu: u8,
    ) -> MutexGuard<'a, World>
        ensures { is_calling (cpu_state (mutex_guard_value result) cpu) ≡ false }
    {
        for _ in rt.forever() {
            if !is_in_call(&world, cpu) {
                return world;
            }
            world = self.changed.wait(rt, world);
        }
        unreachable!()
    }
}

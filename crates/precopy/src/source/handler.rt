//! The handler of the source: it reads messages and resolves faults.

ghost use Rattle.std.specs.Prelude.{◌≡◌, ◌/◌, ℕ, List, ◌∷◌, Some, Err, IfOk, IfErr, OnErr};
ghost use Rattle.mig_base.specs.declared.message.Message.{Message};
ghost use Rattle.mig_base.specs.declared.refusal.Refusal.{Refusal};
ghost use Rattle.mig_base.specs.Acts.{act_effect};
ghost use Rattle.mig_model.specs.Effects.{read_effect};
ghost use Rattle.mig_model.specs.Guest.{Fault, Guest, fault_count};
ghost use Rattle.foundation.specs.declared.TheConstants.{PAGE_SIZE};
ghost use Rattle.mig_model.specs.NodeSteps.{IsRefusedFor, acted, and_then};
ghost use Rattle.mig_model.specs.Source.{is_handling, source_act, source_acted_by};
ghost use Rattle.mig_model.specs.SourceSteps.{act, read};
ghost use Rattle.mig_base.specs.Userfault.{Noted, next_message};

use super::Source;
use mig_base::Addr;
use mig_base::act::Act;
use mig_base::effect::Effect;
use mig_base::phase::SourcePhase;
use mig_base::refusal::Refusal;

impl Source {
    /// Reads the next message. A page fault is held. The pages of an event are neither clean nor still to be sent; processors that
    /// sleep on pages that are gone or have moved away are woken; and with the last message of its map call the calling processor is
    /// handed its reply. Refused with `Phase` before the start and once the processors have stopped, with `NothingThere` if there is
    /// no message, and last with `NoMemory`, for a page fault alone.
    pub fn read(&mut self) -> Result<Effect, Refusal>
        ensures made { IfOk result (λ effect. read self.old ≡ acted effect self.new) }
        ensures refused { IfErr result (λ refusal. IsRefusedFor (read self.old) refusal) }
        ensures memory { (noted : Noted) → next_message self.old.guest.space.object ≡ Some noted →
            result ≡ Err Refusal.NoMemory → fault_count noted.message ≡ 1 }
        ensures err { OnErr result (self.new ≡ self.old) }
    {
        if !self.is_handling() {
            return Err(Refusal::Phase);
        }
        self.space.is_in_order();
        let effect = self.log.read(&mut self.space, &mut self.cpus)?;
        self.faults = self.faults.saturating_add(faults_in(effect));
        Ok(effect)
    }

    /// What [`Source::act`] would do next: how it would resolve the first held fault, and the address of its page. Nothing changes, so a
    /// caller can do it to real memory first, and call [`Source::act`] once that is done. Refused like that call, except `NoMemory`.
    pub fn next_act(&self) -> Result<(Act, Addr), Refusal>
        ensures { act self.now ≡
            and_then result (λ next.
            acted (act_effect next.0 next.1)
            (source_acted_by next.0 self.now (next.1 / PAGE_SIZE))) }
    {
        if !self.is_handling() {
            return Err(Refusal::Phase);
        }
        self.log.next_act(&self.space)
    }

    /// Resolves the first held fault according to the present state of its page, and wakes the processors that sleep on the page.
    /// Refused with `Phase` before the start and once the processors have stopped, with `NothingThere` if no fault is held, with
    /// `Changing` while an event is unread, and last with `NoMemory`, for a page that has to become zeros alone.
    pub fn act(&mut self) -> Result<Effect, Refusal>
        ensures made { IfOk result (λ effect. act self.old ≡ acted effect self.new) }
        ensures refused { IfErr result (λ refusal. IsRefusedFor (act self.old) refusal) }
        ensures memory { (fault : Fault) (rest : List Fault) → self.old.log.held ≡ fault ∷ rest →
            result ≡ Err Refusal.NoMemory → source_act self.old fault ≡ Act.Zeroed }
        ensures err { OnErr result (self.new ≡ self.old) }
    {
        if !self.is_handling() {
            return Err(Refusal::Phase);
        }
        self.space.is_in_order();
        let (act, addr) = self.log.act(&mut self.space, &mut self.cpus)?;
        Ok(act.effect(addr))
    }

    /// Whether the source runs the processors in a migration.
    pub(super) fn is_handling(&self) -> bool
        ensures { result ≡ is_handling self.now }
    {
        self.phase != SourcePhase::Idle && !self.switched
    }
}

/// 1 if a page fault was read, else 0.
fn faults_in(effect: Effect) -> u64
    ensures { (guest : Guest) (cpu : ℕ) (message : Message) →
        effect ≡ read_effect guest.cpus cpu message → result ≡ fault_count message }
{
    match effect {
        Effect::ReadFault { .. } => 1,
        _ => 0,
    }
}

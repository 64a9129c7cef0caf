//! How the source's handler changes a log: it reads messages and resolves faults.

ghost use Rattle.std.specs.Prelude.{◌≡◌, ◌*◌, ◌⊎◌, Some, None, Err, IfOk, IfErr, OnOk, OnErr};
ghost use Rattle.std.specs.Option.{IsSome};
ghost use Rattle.mig_base.specs.Userfault.{Noted, next_message};
ghost use Rattle.mig_model.specs.Guest as guest;
ghost use Rattle.mig_model.specs.NodeSteps.{first_of};
ghost use Rattle.mig_model.specs.Source.{source_acted};
ghost use Rattle.uffd_ioctl.specs.Lent.{IsLent};
ghost use Rattle.dirty_log.specs.Answers.{IsRefusedAs, act_refusal, read_answer};
ghost use Rattle.dirty_log.specs.Spaces.{act_in, handler_read, source_of};

use super::DirtyLog;
use crate::sets::remove_changed;
use crate::spaces::{act_of, unprotect};
use mig_base::act::Act;
use mig_base::effect::Effect;
use mig_base::refusal::Refusal;
use mig_base::{Addr, Message, NoMemory, PageNo};
use uffd_ioctl::{PageFault, Space, make_zeros};
use vcpu::Cpus;

impl DirtyLog {
    /// Reads the next message, and returns the effect. A page fault is held. The pages of an event are neither clean nor still to be sent;
    /// processors that sleep on pages that are gone or have moved away are woken; and with the last message of its map call the calling
    /// processor is handed its reply. Refused with `NothingThere` if there is no message, with `NoMemory` if a page fault cannot be held.
    pub fn read(&mut self, space: &mut Space, cpus: &mut Cpus) -> Result<Effect, Refusal>
        requires { IsLent space.old }
        ensures answer { (result ≡
            read_answer (record { space = space.old; cpus = cpus.old })
            (next_message space.old.object)) ⊎
            ((result ≡ Err Refusal.NoMemory) × IsSome (next_message space.old.object)) }
        ensures read { (noted : Noted) → next_message space.old.object ≡ Some noted →
            OnOk result (source_of self.new space.new cpus.new ≡
            handler_read (source_of self.old space.old cpus.old) noted) }
        ensures memory { (noted : Noted) → next_message space.old.object ≡ Some noted →
            result ≡ Err Refusal.NoMemory → guest.fault_count noted.message ≡ 1 }
        ensures err { OnErr result ((self.new ≡ self.old) × (space.new ≡ space.old) ×
            (cpus.new ≡ cpus.old)) }
        ensures lent { IsLent space.new }
    {
        let Some(message) = space.next_message() else {
            return Err(Refusal::NothingThere);
        };
        self.hold(message)?;
        let Ok((message, cpu)) = space.read_message() else {
            unreachable!();
        };
        let effect = cpus.read(message, cpu);
        remove_changed(&mut self.clean, message);
        remove_changed(&mut self.todo, message);
        Ok(effect)
    }

    /// Holds a message if it is a page fault. `NoMemory` changes nothing.
    fn hold(&mut self, message: Message) -> Result<(), NoMemory>
        ensures ok { OnOk result (self.new ≡
            record self.old { held = guest.held_after self.old.held message }) }
        ensures memory { OnErr result (guest.fault_count message ≡ 1) }
        ensures err { OnErr result (self.new ≡ self.old) }
    {
        if let Message::PageFault { addr, wp, .. } = message {
            self.held.push_back(PageFault::new(addr, wp))?;
        }
        Ok(())
    }

    /// What [`DirtyLog::act`] would do next: how the first held fault must be resolved according to the present state of its page, and
    /// the address of the page. Nothing changes. Refused like that call, except `NoMemory`.
    pub fn next_act(&self, space: &Space) -> Result<(Act, Addr), Refusal>
        ensures accepted { OnOk result (act_refusal self.now space.now ≡ None) }
        ensures refused { IfErr result (λ refusal. act_refusal self.now space.now ≡ Some refusal) }
        ensures act { (fault : guest.Fault) → first_of self.now.held ≡ Some fault →
            IfOk result (λ next.
            (next.0 ≡ act_in space.now fault) × (next.1 ≡ 4096 * fault.page)) }
    {
        let fault = self.next_fault(space)?;
        Ok((act_of(space, &fault), fault.addr()))
    }

    /// The first held fault, if it may be resolved now.
    fn next_fault(&self, space: &Space) -> Result<PageFault, Refusal>
        ensures accepted { OnOk result (act_refusal self.now space.now ≡ None) }
        ensures refused { IfErr result (λ refusal. act_refusal self.now space.now ≡ Some refusal) }
        ensures first { IfOk result (λ fault. first_of self.now.held ≡ Some fault) }
    {
        let Some(fault) = self.held.front() else {
            return Err(Refusal::NothingThere);
        };
        if space.changing() > 0 {
            return Err(Refusal::Changing);
        }
        Ok(fault.copy())
    }

    /// Resolves the first held fault according to the present state of its page, and wakes the processors that sleep on the page.
    /// Returns how it was resolved, and the address of the page. Refused with `NothingThere` if no fault is held, with `Changing`
    /// while an event is unread, and with `NoMemory` if a missing page cannot be made zeros.
    pub fn act(&mut self, space: &mut Space, cpus: &mut Cpus) -> Result<(Act, Addr), Refusal>
        requires lent { IsLent space.old }
        ensures accepted { OnOk result (act_refusal self.old space.old ≡ None) }
        ensures refused { IfErr result (λ refusal.
            IsRefusedAs (act_refusal self.old space.old) refusal) }
        ensures act { (fault : guest.Fault) → first_of self.old.held ≡ Some fault →
            IfOk result (λ done.
            (done.0 ≡ act_in space.old fault) × (done.1 ≡ 4096 * fault.page)) }
        ensures acted { (fault : guest.Fault) → first_of self.old.held ≡ Some fault →
            OnOk result (source_of self.new space.new cpus.new ≡
            source_acted (source_of self.old space.old cpus.old) fault) }
        ensures memory { (fault : guest.Fault) → first_of self.old.held ≡ Some fault →
            result ≡ Err Refusal.NoMemory → act_in space.old fault ≡ Act.Zeroed }
        ensures err { OnErr result ((self.new ≡ self.old) × (space.new ≡ space.old) ×
            (cpus.new ≡ cpus.old)) }
        ensures lent { IsLent space.new }
    {
        let fault = self.next_fault(space)?;
        let act = act_of(space, &fault);
        let (page, addr) = (fault.page(), fault.addr());
        match act {
            Act::Unprotected => {
                unprotect(space, page as PageNo);
                self.clean.remove(page as PageNo);
            }
            Act::Zeroed => make_zeros(space, page as PageNo)?,
            Act::Woke | Act::Forgot | Act::Requested(_) => {}
        }
        self.held.pop_front();
        cpus.wake_page(page);
        Ok((act, addr))
    }
}

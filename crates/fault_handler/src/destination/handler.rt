//! The handler of the destination: it reads messages and resolves faults.

ghost use Rattle.std.specs.Option.{IfSome};
ghost use Rattle.std.specs.Prelude.{◌≡◌, ℕ, ◌*◌, true, false, None, Some, Ok, Err, ◌∷◌, List, map, option_to_list, IfOk, IfErr, OnOk, OnErr};
ghost use Rattle.foundation.specs.declared.TheConstants.{PAGE_SIZE};
ghost use Rattle.mig_base.specs.declared.effect.Effect as effects;
ghost use Rattle.mig_base.specs.declared.refusal.Refusal.{Refusal};
ghost use Rattle.mig_model.specs.Bounds.{IsFrame, IsPage};
ghost use Rattle.mig_model.specs.Destination.{act_frames, destination_act, settled};
ghost use Rattle.mig_model.specs.DestinationSteps.{act, read};
ghost use Rattle.mig_model.specs.Guest as machine;
ghost use Rattle.mig_model.specs.Guest.{is_present};
ghost use Rattle.mig_model.specs.GuestSteps.{when_quiet};
ghost use Rattle.mig_model.specs.NodeSteps.{IsRefusedFor, acted, checked, first_of, in_phase, sent};
ghost use Rattle.mig_model.specs.Owed.{is_requested, owed_table_after, requesting};
ghost use Rattle.mig_base.specs.Userfault.{Noted, next_message};
ghost use Rattle.page_stream.specs.Frames.{frame_of};
ghost use Rattle.fault_handler.specs.Asking.{effect_at, next_act_effect};
ghost use Rattle.fault_handler.specs.Memory.{act_grows, read_grows};
ghost use Rattle.fault_handler.specs.Order.{LiesInside};

use super::Destination;
use crate::act::act_of;
use crate::messages::read;
use mig_base::act::Act;
use mig_base::effect::Effect;
use mig_base::phase::DestPhase;
use mig_base::refusal::Refusal;
use mig_base::{Addr, Message, NoMemory, PAGE_SIZE, PageNo};
use owed_pages::Owed;
use page_stream::Frame;
use std::collections::VecDeque;
use uffd_ioctl::{PageFault, make_zeros};

impl Destination {
    /// Reads the next message. A page fault is held. An event is applied to the owed table: pairs whose pages are gone are removed, and
    /// pairs whose pages moved move with them. Those that sleep on pages that are gone are woken, and the last message of a map call gives
    /// its processor the reply. Refused as `Phase` before it has run, and as `NothingThere` if no message waits; then as `NoMemory`, for a
    /// page fault or a move alone.
    pub fn read(&mut self) -> Result<Effect, Refusal>
        ensures made { IfOk result (λ effect. read self.old ≡ acted effect self.new) }
        ensures refused { IfErr result (λ refusal. IsRefusedFor (read self.old) refusal) }
        ensures memory { (noted : Noted) → next_message self.old.guest.space.object ≡ Some noted →
            result ≡ Err Refusal.NoMemory → read_grows noted.message ≡ true }
        ensures err { OnErr result (self.new ≡ self.old) }

        // For a reader: the settled relation, which page is owed which page of the source once the unread events are applied, stays.
        ensures settled { (page : ℕ) → settled self.new page ≡ settled self.old page }
    {
        self.ensure_run()?;
        // Both growths come before the message is read, so that lack of memory leaves it unread.
        if let Some(message) = self.space.next_message() {
            let Ok(()) = note(&mut self.held, &mut self.owed, message) else {
                return Err(Refusal::NoMemory);
            };
        }
        let Some((message, effect)) = read(&mut self.space, &mut self.cpus) else {
            return Err(Refusal::NothingThere);
        };
        self.faults = self.faults.saturating_add(faults_in(message));
        Ok(effect)
    }

    /// Whether [`Destination::read`] would read a message, or how it would be refused; memory is not considered.
    pub fn check_read(&self) -> Result<(), Refusal>
        ensures { result ≡ checked (read self.now) }
    {
        self.ensure_run()?;
        match self.space.next_message() {
            Some(_) => Ok(()),
            None => Err(Refusal::NothingThere),
        }
    }

    /// Resolves the first held fault, by the present state of its page, and returns the effect and the frame to send, if any.
    ///
    /// An owed page is requested: its page at the source is appended to the requests, and those that sleep on it sleep on. The frame is a
    /// Request, unless the page was requested before, or the destination is paused or has ended. Any other missing page becomes zeros.
    /// Those that sleep on it are woken, also if the page is present, or no longer mapped or registered.
    ///
    /// Refused as `Phase` before it has run, as `NothingThere` if no fault is held, and as `Changing` while an event is unread; then as
    /// `NoMemory`, for a page that becomes zeros or was not requested before.
    pub fn act(&mut self) -> Result<(Effect, Option<Frame>), Refusal>
        ensures made { IfOk result (λ made.
            act self.old ≡ sent made.0 (map frame_of (option_to_list made.1)) self.new) }
        ensures well_formed { IfOk result (λ made.
            IfSome made.1 (λ frame. IsFrame (frame_of frame))) }
        ensures refused { IfErr result (λ refusal. IsRefusedFor (act self.old) refusal) }
        ensures memory { (fault : machine.Fault) (rest : List machine.Fault) →
            self.old.held ≡ fault ∷ rest → result ≡ Err Refusal.NoMemory →
            act_grows (destination_act self.old fault) self.old ≡ true }
        ensures err { OnErr result (self.new ≡ self.old) }

        // For a reader: no page that is owed or present becomes zeros.
        ensures zeroed { IfOk result (λ made. (page : ℕ) →
            made.0 ≡ effects.Effect.Zeroed (PAGE_SIZE * page) →
            (settled self.old page ≡ None) × (is_present self.old.guest.space page ≡ false)) }
    {
        let fault = self.next_fault()?;
        let act = act_of(&self.space, &self.owed, &fault);
        let page = fault.page();
        let addr = fault.addr();
        match act {
            Act::Requested(origin) => {
                let request = self.request(origin)?;
                self.held.pop_front();
                return Ok((act.effect(addr), request));
            }
            Act::Zeroed => {
                let Ok(()) = make_zeros(&mut self.space, page as PageNo) else {
                    return Err(Refusal::NoMemory);
                };
            }
            Act::Woke | Act::Forgot | Act::Unprotected => {}
        }
        self.held.pop_front();
        self.cpus.wake_page(page);
        Ok((act.effect(addr), None))
    }

    /// How [`Destination::act`] would resolve the first held fault, and the address of its page, in bytes: the next act has
    /// [`Act::effect`] of these. Nothing changes, and it takes no memory. So a driver can ask, do the act to real memory, and then make it.
    ///
    /// Refused as an act is: as `Phase` before it has run, as `NothingThere` if no fault is held, and as `Changing` while an event is
    /// unread.
    pub fn next_act(&self) -> Result<(Act, Addr), Refusal>
        ensures { effect_at result ≡ next_act_effect self.now }
    {
        let fault = self.next_fault()?;
        Ok((act_of(&self.space, &self.owed, &fault), fault.addr()))
    }

    /// Whether [`Destination::act`] would resolve a fault, or how it would be refused; memory is not considered.
    pub fn check_act(&self) -> Result<(), Refusal>
        ensures { result ≡ checked (act self.now) }
    {
        let _fault = self.next_fault()?;
        Ok(())
    }

    /// The first held fault, or why none can be resolved.
    #[tactic(auto, unfolding(mig_model::specs::NodeSteps::unless))]
    fn next_fault(&self) -> Result<PageFault, Refusal>
        ensures { result ≡ in_phase self.now.has_run
            (when_quiet self.now.guest (first_of self.now.held)) }
    {
        self.ensure_run()?;
        let Some(fault) = self.held.front() else {
            return Err(Refusal::NothingThere);
        };
        if self.space.changing() > 0 {
            return Err(Refusal::Changing);
        }
        Ok(fault.copy())
    }

    /// Appends a page of the source to the requests, and returns the frame that requests it: none if it was requested before, or the
    /// destination is paused or has ended. `NoMemory` changes nothing.
    fn request(&mut self, origin: PageNo) -> Result<Option<Frame>, Refusal>
        requires page { IsPage origin }
        ensures frame { IfOk result (λ frame.
            map frame_of (option_to_list frame) ≡
            act_frames (Act.Requested origin) self.old) }
        ensures well_formed { IfOk result (λ frame.
            IfSome frame (λ frame. IsFrame (frame_of frame))) }
        ensures ok { OnOk result (self.new ≡
            record self.old { requests = requesting self.old.requests origin }) }
        ensures refused { IfErr result (λ refusal. refusal ≡ Refusal.NoMemory) }
        ensures absent { OnErr result (is_requested self.old.requests origin ≡ false) }
        ensures err { OnErr result (self.new ≡ self.old) }
    {
        let is_new = self.requests.add(origin)?;
        match self.phase {
            DestPhase::Running if is_new => Ok(Some(Frame::Request { page: origin })),
            _ => Ok(None),
        }
    }

    /// `Phase` before it has run.
    pub(super) fn ensure_run(&self) -> Result<(), Refusal>
        ensures { result ≡ in_phase self.now.has_run (Ok tt) }
    {
        if self.has_run {
            Ok(())
        } else {
            Err(Refusal::Phase)
        }
    }
}

/// Holds a page fault, or applies an event to the owed table. `NoMemory` changes nothing.
fn note(held: &mut VecDeque<PageFault>, owed: &mut Owed, message: Message) -> Result<(), NoMemory>
    requires { LiesInside message }
    ensures held { OnOk result (held.new.items ≡ machine.held_after held.old.items message) }
    ensures owed { OnOk result (owed.new ≡ owed_table_after message owed.old) }
    ensures memory { OnErr result (read_grows message ≡ true) }
    ensures err { OnErr result ((held.new.items ≡ held.old.items) × (owed.new ≡ owed.old)) }
{
    match message {
        Message::PageFault { addr, wp, .. } => held.push_back(PageFault::new(addr, wp))?,
        Message::Remap { from, to, len } => {
            let count = (len / PAGE_SIZE) as u32;
            owed.move_range(
                (from / PAGE_SIZE) as PageNo,
                (to / PAGE_SIZE) as PageNo,
                count,
            )?;
        }
        Message::Remove { start, end } | Message::Unmap { start, end } => {
            let first = (start / PAGE_SIZE) as PageNo;
            owed.remove_range(first, (end / PAGE_SIZE) as PageNo - first);
        }
    }
    Ok(())
}

/// 1 for a page fault, and 0 for an event.
fn faults_in(message: Message) -> u64
    ensures { result ≡ machine.fault_count message }
{
    match message {
        Message::PageFault { .. } => 1,
        _ => 0,
    }
}

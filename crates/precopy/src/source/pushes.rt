//! Post-copy: the switch, and the owed pages that a stopped source sends.

ghost use Rattle.std.specs.Prelude.{◌≡◌, ℕ, ◌≤◌, ◌<◌, ◌⊎◌, [], ◌∷◌, true, false, None, Err, IfOk, IfErr, IsOk, OnOk, OnErr};
ghost use Rattle.std.specs.Borrow.{sem};
ghost use Rattle.std.specs.FinSet.{contains};
ghost use Rattle.std.specs.Option.{IfSome};
ghost use Rattle.dirty_log.specs.Sending.{frame_sent};
ghost use Rattle.mig_model.specs.Bounds.{IsFrame};
ghost use Rattle.mig_model.specs.Guest.{is_present};
ghost use Rattle.mig_base.specs.declared.refusal.Refusal.{Refusal};
ghost use Rattle.mig_model.specs.NodeSteps.{IsRefusedFor, acted, is_used, sent};
ghost use Rattle.mig_model.specs.Source.{bytes_of, page_pushed};
ghost use Rattle.mig_model.specs.SourceSteps.{end, push, push_urgent, serve, switch};
ghost use Rattle.mig_model.specs.Wire.{page_frame};
ghost use Rattle.page_stream.specs.Frames.{frame_of};
ghost use Rattle.precopy.specs.Handing.{IsHandedOver};
ghost use Rattle.precopy.specs.Lending.{LeavesSource};
ghost use Rattle.precopy.specs.Sending.{IsPushed, IsPushedUrgently};

use super::Source;
use super::rounds::page_effect;
use dirty_log::PageContent;
use mig_base::effect::Effect;
use mig_base::phase::SourcePhase;
use mig_base::refusal::Refusal;
use mig_base::schedule::Ticket;
use mig_base::{HIGH_PAGE, NoMemory, PageNo, PageSet, page_address};
use page_stream::Frame;

/// What a source hands over when it stops.
#[derive(Drop)]
struct HandedOver {
    discarded: PageSet,
    owed: PageSet,
    package: Frame,
}

impl Source {
    /// Stops the processors for good. Returns the effect, a Discard of the pages that were sent and are not clean, and the Package.
    /// The Package has the mappings, the present pages that are not clean, which are now owed, and the commands that the processors
    /// still have to make. The destination takes these commands over, so unread and held faults are dropped. Refused with `Phase`
    /// outside pre-copy, with `Changing` while an event is unread, and last with `NoMemory`.
    pub fn switch(&mut self) -> Result<(Effect, Frame, Frame), Refusal>
        ensures made { IfOk result (λ made.
            switch self.old ≡ sent made.0 (frame_of made.1 ∷ frame_of made.2 ∷ []) self.new) }
        ensures frames { IfOk result (λ made.
            IsFrame (frame_of made.1) × IsFrame (frame_of made.2)) }
        ensures refused { IfErr result (λ refusal. IsRefusedFor (switch self.old) refusal) }
        ensures err { OnErr result (self.new ≡ self.old) }
    {
        self.check_switch()?;
        let Ok(handed) = self.hand_over() else {
            return Err(Refusal::NoMemory);
        };
        let (discard, owed) = (handed.discarded.len(), handed.owed.len());
        self.space.drop_faults();
        self.log.drop_held();
        self.remaining = handed.owed;
        self.packaged = owed;
        self.switched = true;
        self.phase = SourcePhase::Stopped;
        let discarded = Frame::Discard {
            pages: handed.discarded,
        };
        Ok((
            Effect::Switched { discard, owed },
            discarded,
            handed.package,
        ))
    }

    /// What the source hands over when it stops. `NoMemory` if that cannot be allocated.
    fn hand_over(&self) -> Result<HandedOver, NoMemory>
        ensures { IfOk result (λ handed. IsHandedOver self.now handed) }
    {
        self.space.is_in_order();
        let owed = self.log.dirty(&self.space)?;
        Ok(HandedOver {
            discarded: self.log.discarded()?,
            package: self.package(&owed)?,
            owed,
        })
    }

    /// The first page from `from` on that remains to be pushed, if there is one.
    pub fn next_remaining(&self, from: PageNo) -> Option<PageNo>
        ensures remains { IfSome result (λ page.
            (from ≤ page) × (contains self.now.remaining page ≡ true)) }
        ensures first { IfSome result (λ page. (other : ℕ) → from ≤ other → other < page →
            contains self.now.remaining other ≡ false) }
        ensures none { result ≡ None → (other : ℕ) → from ≤ other →
            contains self.now.remaining other ≡ false }
    {
        self.remaining.ends_by_high_page();
        let page = self.remaining.next_member(from.min(HIGH_PAGE));
        if page < HIGH_PAGE { Some(page) } else { None }
    }

    /// Sends an owed page, which then no longer remains. Its bytes are borrowed, so that nothing changes until they are written.
    /// Refused with `Phase` unless the source is stopped, with `StaleEpoch` if the ticket names another epoch, with `PageNotSendable`
    /// if the page is not present here, and with `NotRemaining` if it is not owed or was sent in this epoch. It takes no memory.
    pub fn push(&mut self, ticket: Ticket) -> Result<(Effect, PageContent<'_>), Refusal>
        ensures* made { sem 𝓛 (LeavesSource self.entry result (λ made last.
            IsPushed self.old ticket made.0 (frame_sent ticket.page made.1) last)) }
        ensures sent { IfOk result (λ made.
            frame_sent ticket.page made.1 ≡
            page_frame ticket.page (bytes_of self.old ticket.page)) }
        ensures frame { IfOk result (λ made. IsFrame (frame_sent ticket.page made.1)) }
        ensures present { OnOk result (is_present self.old.guest.space ticket.page ≡ true) }
        ensures refused { IfErr result (λ refusal. push self.old ticket ≡ Err refusal) }
    {
        self.check_push(ticket)?;
        self.take_owed(ticket.page);
        self.space.is_in_order();
        let sent = PageContent::read(&self.space, ticket.page);
        Ok((page_effect(ticket.page, sent), sent))
    }

    /// Like [`Source::push`], but for the urgent wire: the page goes there, and is counted. Refused like that call, and last with
    /// `CountUsed` if the count of the epoch is at its greatest value. No source of a world reaches that value, because it sends each
    /// page at most once in an epoch.
    pub fn push_urgent(&mut self, ticket: Ticket) -> Result<(Effect, PageContent<'_>), Refusal>
        ensures* made { sem 𝓛 (LeavesSource self.entry result (λ made last.
            IsPushedUrgently self.old ticket made.0 (frame_sent ticket.page made.1) last)) }
        ensures sent { IfOk result (λ made.
            frame_sent ticket.page made.1 ≡
            page_frame ticket.page (bytes_of self.old ticket.page)) }
        ensures frame { IfOk result (λ made. IsFrame (frame_sent ticket.page made.1)) }
        ensures present { OnOk result (is_present self.old.guest.space ticket.page ≡ true) }
        ensures refused { IfErr result (λ refusal.
            (push_urgent self.old ticket ≡ Err refusal) ⊎
            ((refusal ≡ Refusal.CountUsed) × (is_used self.old.urgent_sent ≡ true) ×
            IsOk (push_urgent self.old ticket))) }
    {
        self.check_push(ticket)?;
        if self.urgent_sent == u32::MAX {
            return Err(Refusal::CountUsed);
        }
        self.take_owed(ticket.page);
        self.urgent_sent += 1;
        self.space.is_in_order();
        let sent = PageContent::read(&self.space, ticket.page);
        Ok((page_effect(ticket.page, sent), sent))
    }

    /// Counts an owed page as sent: it no longer remains.
    fn take_owed(&mut self, page: PageNo)
        requires { is_present self.old.guest.space page ≡ true }
        ensures { self.new ≡ page_pushed self.old page }
    {
        self.space.is_in_order();
        self.remaining.remove(page);
        self.pages_sent = self.pages_sent.saturating_add(1);
    }

    /// Dequeues the oldest request of the destination; the effect has the address of the requested page. Refused with `Phase` unless the
    /// source is stopped, and with `NothingThere` if there is no request. It takes no memory.
    pub fn serve(&mut self) -> Result<Effect, Refusal>
        ensures made { IfOk result (λ effect. serve self.old ≡ acted effect self.new) }
        ensures refused { IfErr result (λ refusal. serve self.old ≡ Err refusal) }
        ensures err { OnErr result (self.new ≡ self.old) }
    {
        if self.phase != SourcePhase::Stopped {
            return Err(Refusal::Phase);
        }
        let Some(page) = self.asked.pop_front() else {
            return Err(Refusal::NothingThere);
        };
        Ok(Effect::Asked {
            addr: page_address(page),
        })
    }

    /// Announces to the destination that nothing more is sent in this epoch. The frame has the number of frames that were put on the
    /// urgent wire in this epoch. Refused with `Phase` unless the source is stopped and has sent no End in this epoch, and with
    /// `PagesLeft` while pages remain. It takes no memory.
    pub fn end(&mut self) -> Result<(Effect, Frame), Refusal>
        ensures made { IfOk result (λ made.
            end self.old ≡ sent made.0 (frame_of made.1 ∷ []) self.new) }
        ensures frame { IfOk result (λ made. IsFrame (frame_of made.1)) }
        ensures refused { IfErr result (λ refusal. end self.old ≡ Err refusal) }
        ensures err { OnErr result (self.new ≡ self.old) }
    {
        self.check_end()?;
        self.end_epoch = self.epoch;
        let urgent = self.urgent_sent;
        Ok((Effect::EndSent, Frame::End { urgent }))
    }
}

//! Whether a source would make a step, or why it refuses it: each refusal but `NoMemory`, and nothing changes. The steps test most of it
//! here, and a caller may ask before it makes room for their frames.

ghost use Rattle.std.specs.Prelude.{◌≡◌, true, OnOk};
ghost use Rattle.mig_base.specs.declared.TheConstants.{HIGH_PAGE};
ghost use Rattle.mig_model.specs.Guest.{is_present};
ghost use Rattle.mig_model.specs.Log.{least_of};
ghost use Rattle.mig_model.specs.NodeSteps.{checked};
ghost use Rattle.mig_model.specs.SourceSteps.{act, end, pause, push, push_urgent, read, resume, round, send, send_run, serve, start, switch};

use super::Source;
use mig_base::phase::SourcePhase;
use mig_base::refusal::Refusal;
use mig_base::schedule::Ticket;
use mig_base::{HIGH_PAGE, PageNo, PageSet};

impl Source {
    /// Whether a migration can begin: the refusal of [`Source::start`], except `NoMemory`.
    pub fn check_start(&self) -> Result<(), Refusal>
        ensures { result ≡ checked (start self.now) }
    {
        if self.phase != SourcePhase::Idle {
            return Err(Refusal::Phase);
        }
        if self.epoch == u32::MAX {
            return Err(Refusal::CountUsed);
        }
        Ok(())
    }

    /// Whether a round can begin: the refusal of [`Source::round`], except `NoMemory`.
    pub fn check_round(&self) -> Result<(), Refusal>
        ensures { result ≡ checked (round self.now) }
    {
        self.check_switch()?;
        if self.rounds == u32::MAX {
            return Err(Refusal::CountUsed);
        }
        Ok(())
    }

    /// Whether the round has a page that can be sent: the refusal of [`Source::send_next`], except `NoMemory`.
    pub fn check_send(&self) -> Result<(), Refusal>
        ensures { result ≡ checked (send self.now) }
    {
        match self.next_to_send() {
            Ok(_) => Ok(()),
            Err(refusal) => Err(refusal),
        }
    }

    /// The same for [`Source::send_run`], whatever its count.
    pub fn check_run(&self, _count: u8) -> Result<(), Refusal>
        ensures { result ≡ checked (send_run self.now _count) }
    {
        self.check_send()
    }

    /// Whether a message can be read: the refusal of [`Source::read`], except `NoMemory`.
    pub fn check_read(&self) -> Result<(), Refusal>
        ensures { result ≡ checked (read self.now) }
    {
        if !self.is_handling() {
            return Err(Refusal::Phase);
        }
        match self.space.next_message() {
            Some(_) => Ok(()),
            None => Err(Refusal::NothingThere),
        }
    }

    /// Whether a fault can be resolved: the refusal of [`Source::act`], except `NoMemory`.
    pub fn check_act(&self) -> Result<(), Refusal>
        ensures { result ≡ checked (act self.now) }
    {
        match self.next_act() {
            Ok(_) => Ok(()),
            Err(refusal) => Err(refusal),
        }
    }

    /// Whether the source can stop: the refusal of [`Source::switch`], except `NoMemory`.
    pub fn check_switch(&self) -> Result<(), Refusal>
        ensures { result ≡ checked (switch self.now) }
    {
        if self.phase != SourcePhase::Precopy {
            return Err(Refusal::Phase);
        }
        if self.space.changing() > 0 {
            return Err(Refusal::Changing);
        }
        Ok(())
    }

    /// Whether the page of a ticket can be sent, on either wire: the refusal of [`Source::push`], and that of [`Source::push_urgent`]
    /// except `CountUsed`.
    pub fn check_push(&self, ticket: Ticket) -> Result<(), Refusal>
        ensures push { result ≡ checked (push self.now ticket) }
        ensures urgent { result ≡ checked (push_urgent self.now ticket) }
        ensures present { OnOk result (is_present self.now.guest.space ticket.page ≡ true) }
    {
        if self.phase != SourcePhase::Stopped {
            return Err(Refusal::Phase);
        }
        if ticket.epoch != self.epoch {
            return Err(Refusal::StaleEpoch);
        }
        if self.space.page(ticket.page).is_none() {
            return Err(Refusal::PageNotSendable);
        }
        if !self.remaining.contains(ticket.page) {
            return Err(Refusal::NotRemaining);
        }
        Ok(())
    }

    /// Whether a request can be served: the refusal of [`Source::serve`].
    pub fn check_serve(&self) -> Result<(), Refusal>
        ensures { result ≡ checked (serve self.now) }
    {
        if self.phase != SourcePhase::Stopped {
            return Err(Refusal::Phase);
        }
        if self.asked.is_empty() {
            return Err(Refusal::NothingThere);
        }
        Ok(())
    }

    /// Whether End can be sent: the refusal of [`Source::end`].
    pub fn check_end(&self) -> Result<(), Refusal>
        ensures { result ≡ checked (end self.now) }
    {
        if self.phase != SourcePhase::Stopped || self.end_epoch == self.epoch {
            return Err(Refusal::Phase);
        }
        if least_page(&self.remaining).is_some() {
            return Err(Refusal::PagesLeft);
        }
        Ok(())
    }

    /// Whether the source can notice that the channel is broken: the refusal of [`Source::notice`].
    pub fn check_notice(&self) -> Result<(), Refusal>
        ensures { result ≡ checked (pause self.now) }
    {
        match self.phase {
            SourcePhase::Precopy | SourcePhase::Stopped => Ok(()),
            _ => Err(Refusal::Phase),
        }
    }

    /// Whether the next epoch can begin: the refusal of [`Source::resume`].
    pub fn check_resume(&self) -> Result<(), Refusal>
        ensures { result ≡ checked (resume self.now) }
    {
        if self.phase != SourcePhase::Paused {
            return Err(Refusal::Phase);
        }
        if self.epoch == u32::MAX {
            return Err(Refusal::CountUsed);
        }
        Ok(())
    }
}

/// The lowest page of a set.
fn least_page(pages: &PageSet) -> Option<PageNo>
    ensures { result ≡ least_of pages.now }
{
    let page = pages.next_member(0);
    if page < HIGH_PAGE { Some(page) } else { None }
}

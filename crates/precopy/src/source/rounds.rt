//! Pre-copy: the start of a migration, its rounds, and the pages that a round sends.

ghost use Rattle.std.specs.Prelude.{◌≡◌, ◌↔◌, ◌<◌, ℕ, List, [], ◌∷◌, IfOk, IfErr, OnErr};
ghost use Rattle.std.specs.Borrow.{sem};
ghost use Rattle.mig_base.specs.Bytes.{zero_page};
ghost use Rattle.mig_model.specs.Bounds.{IsFrame};
ghost use Rattle.mig_model.specs.Effects.{page_effect};
ghost use Rattle.mig_model.specs.NodeSteps.{IsRefusedFor, acted, sent};
ghost use Rattle.mig_model.specs.Source.{bytes_of};
ghost use Rattle.mig_model.specs.SourceSteps.{next_to_send, round, send, start};
ghost use Rattle.mig_model.specs.Wire.{page_frame};
ghost use Rattle.dirty_log.specs.Sending.{frame_sent};
ghost use Rattle.dirty_log.specs.declared.page_content.PageContent.{PageContent};
ghost use Rattle.mig_base.specs.declared.TheConstants.{HIGH_PAGE};
ghost use Rattle.page_stream.specs.Frames.{frame_of};
ghost use Rattle.precopy.specs.Lending.{LeavesSource};
ghost use Rattle.precopy.specs.Sending.{IsPageSent};

use super::Source;
use dirty_log::PageContent;
use mig_base::effect::Effect;
use mig_base::phase::SourcePhase;
use mig_base::refusal::Refusal;
use mig_base::{PageNo, page_address};
use page_stream::Frame;

impl Source {
    /// Begins a migration, in the next epoch: registers every mapped page for missing faults and for write-protect faults, area by area,
    /// and returns the frame Advise. Refused with `Phase` if a migration has begun, with `CountUsed` if no epoch is left, and last with
    /// `NoMemory`.
    pub fn start(&mut self) -> Result<(Effect, Frame), Refusal>
        ensures made { IfOk result (λ made.
            start self.old ≡ sent made.0 (frame_of made.1 ∷ []) self.new) }
        ensures frame { IfOk result (λ made. IsFrame (frame_of made.1)) }
        ensures refused { IfErr result (λ refusal. IsRefusedFor (start self.old) refusal) }
        ensures err { OnErr result (self.new ≡ self.old) }
    {
        self.check_start()?;
        self.space.is_in_order();
        self.log.register_new(&mut self.space)?;
        self.phase = SourcePhase::Precopy;
        self.epoch += 1;
        let epoch = self.epoch;
        Ok((Effect::Started { epoch }, Frame::Advise))
    }

    /// Begins the next round of pre-copy: registers the pages that were mapped since the last one, area by area; the round must
    /// send the present pages that are not clean. Refused with `Phase` outside pre-copy, with `Changing` while an event is unread,
    /// with `CountUsed` if no number is left for the round, and last with `NoMemory`.
    pub fn round(&mut self) -> Result<Effect, Refusal>
        ensures made { IfOk result (λ effect. round self.old ≡ acted effect self.new) }
        ensures refused { IfErr result (λ refusal. IsRefusedFor (round self.old) refusal) }
        ensures err { OnErr result (self.new ≡ self.old) }
    {
        self.check_round()?;
        self.space.is_in_order();
        let todo = self.log.dirty(&self.space)?;
        self.log.register_new(&mut self.space)?;
        let pages = todo.len();
        self.log.begin_round(todo);
        self.rounds += 1;
        Ok(Effect::RoundMade {
            round: self.rounds,
            todo: pages,
        })
    }

    /// Sends the lowest page of the round: write-protects it, then reads it; it is clean from then on. A page whose bytes are all
    /// zero is sent as a page of zeros. Its bytes are borrowed, so that nothing changes until they are written. Refused with `Phase`
    /// outside pre-copy, with `NothingThere` if the round has sent all its pages, with `Changing` while an event is unread, and last
    /// with `NoMemory`.
    pub fn send_next(&mut self) -> Result<(Effect, PageNo, PageContent<'_>), Refusal>
        ensures* made { sem 𝓛 (LeavesSource self.entry result (λ made last.
            IsPageSent self.old made.0 made.1 (frame_sent made.1 made.2) last)) }
        ensures sent { IfOk result (λ made.
            frame_sent made.1 made.2 ≡ page_frame made.1 (bytes_of self.old made.1)) }
        ensures frame { IfOk result (λ made. IsFrame (frame_sent made.1 made.2)) }
        ensures refused { IfErr result (λ refusal. IsRefusedFor (send self.old) refusal) }

        // The same for a reader: `Zero` is returned exactly if all bytes of the page are zero.
        ensures zero { IfOk result (λ made.
            (made.2 ≡ PageContent.Zero) ↔ (bytes_of self.old made.1 ≡ zero_page)) }
    {
        let page = self.next_to_send()?;
        self.space.is_in_order();
        self.log.protect_page(&mut self.space, page)?;
        self.pages_sent = self.pages_sent.saturating_add(1);
        let sent = PageContent::read(&self.space, page);
        Ok((page_effect(page, sent), page, sent))
    }

    /// The page that the round would send next.
    pub(super) fn next_to_send(&self) -> Result<PageNo, Refusal>
        ensures answer { result ≡ next_to_send self.now }
        ensures below { IfOk result (λ page. page < HIGH_PAGE) }
    {
        if self.phase != SourcePhase::Precopy {
            return Err(Refusal::Phase);
        }
        let Some(page) = self.log.next_page() else {
            return Err(Refusal::NothingThere);
        };
        if self.space.changing() > 0 {
            return Err(Refusal::Changing);
        }
        Ok(page)
    }
}

/// The effect of sending a page.
pub(super) fn page_effect(page: PageNo, sent: PageContent) -> Effect
    ensures { (bytes : List ℕ) → frame_sent page sent.entry ≡ page_frame page bytes →
        result ≡ page_effect page bytes }
{
    let addr = page_address(page);
    match sent {
        PageContent::Page(_) => Effect::SentPage { addr },
        PageContent::Zero => Effect::SentZero { addr },
    }
}

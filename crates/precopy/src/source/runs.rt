//! Pre-copy: runs of pages in one frame.

ghost use Rattle.std.specs.Prelude.{◌≡◌, ◌+◌, ◌*◌, ◌<◌, ◌≤◌, [], ◌∷◌, Ok, IfOk, IfErr, OnErr};
ghost use Rattle.foundation.specs.declared.TheConstants.{PAGE_SIZE};
ghost use Rattle.mig_base.specs.declared.TheConstants.{HIGH_PAGE, MAX_RUN};
ghost use Rattle.mig_base.specs.declared.effect.Effect.{Effect};
ghost use Rattle.mig_model.specs.Bounds.{ArePageBytes, IsFrame};
ghost use Rattle.mig_model.specs.NodeSteps.{IsRefusedFor, and_then, sent};
ghost use Rattle.mig_model.specs.Source.{run_of};
ghost use Rattle.mig_model.specs.SourceSteps.{next_to_send, run_bound, send_pages, send_run};
ghost use Rattle.mig_model.specs.Wire as wire;
ghost use Rattle.page_stream.specs.Frames.{frame_of};

use super::Source;
use mig_base::effect::Effect;
use mig_base::refusal::Refusal;
use mig_base::{MAX_RUN, PageBytes, PageNo, page_address};
use page_stream::{Frame, Pages};

impl Source {
    /// The run that [`Source::send_run`] would send: its first page, which is the one that [`Source::send_next`] would send, and the number
    /// of its pages. Nothing changes. Refused like these calls, except `NoMemory`.
    pub fn next_run(&self, most: u8) -> Result<(PageNo, u32), Refusal>
        ensures run { send_run self.now most ≡
            and_then result (λ run. send_pages self.now run.0 run.1) }
        ensures first { next_to_send self.now ≡ and_then result (λ run. Ok run.0) }
        ensures pages { IfOk result (λ run.
            (0 < run.1) × (run.1 ≤ MAX_RUN) × (run.0 + run.1 ≤ HIGH_PAGE)) }
    {
        let first = self.next_to_send()?;
        Ok((first, self.log.run_length(first, most_of(most))))
    }

    /// Makes the step of [`Source::send_run`] without its frame, for a caller that sends the bytes itself: the run of
    /// [`Source::next_run`] is write-protected, and clean from then on. Returns the effect, the first page and the number of pages. The
    /// frame that the caller has to send has the bytes of these pages as they were before the call, or are after it. Refused like
    /// [`Source::send_next`].
    pub fn run_sent(&mut self, most: u8) -> Result<(Effect, PageNo, u32), Refusal>
        ensures made { IfOk result (λ made.
            send_run self.old most ≡
            sent made.0 (wire.Frame.Run made.1 (run_of self.old made.1 made.2) ∷ []) self.new) }
        ensures refused { IfErr result (λ refusal. IsRefusedFor (send_run self.old most) refusal) }
        ensures err { OnErr result (self.new ≡ self.old) }
    {
        let (first, count) = self.next_run(most)?;
        self.space.is_in_order();
        self.log.protect_run(&mut self.space, first, count)?;
        self.pages_sent = self.pages_sent.saturating_add(u64::from(count));
        Ok((run_effect(first, count), first, count))
    }

    /// Sends the lowest page of the round and those that follow it in the round without a gap, at most `count` pages, in one frame:
    /// write-protects them, then reads them; they are clean from then on. A count of 0 means 1, and a count above [`MAX_RUN`] means
    /// [`MAX_RUN`]. Refused like [`Source::send_next`].
    pub fn send_run(&mut self, count: u8) -> Result<(Effect, Frame), Refusal>
        ensures made { IfOk result (λ made.
            send_run self.old count ≡ sent made.0 (frame_of made.1 ∷ []) self.new) }
        ensures frame { IfOk result (λ made. IsFrame (frame_of made.1)) }
        ensures refused { IfErr result (λ refusal. IsRefusedFor (send_run self.old count) refusal) }
        ensures err { OnErr result (self.new ≡ self.old) }
    {
        let (first, pages) = self.next_run(count)?;
        self.space.is_in_order();
        let sent = self.log.send_run(&mut self.space, first, pages)?;
        self.pages_sent = self.pages_sent.saturating_add(u64::from(pages));
        Ok(effect_and_run(first, pages, sent))
    }
}

/// The largest number of pages in a run if `count` are asked for.
fn most_of(count: u8) -> u32
    ensures { result ≡ run_bound count }
{
    u32::from(count.clamp(1, MAX_RUN))
}

/// The effect of sending a run, and its frame.
fn effect_and_run(first: PageNo, count: u32, sent: Vec<PageBytes>) -> (Effect, Frame)
    ensures effect { result.0 ≡ Effect.SentRun (PAGE_SIZE * first) count }
    ensures frame { frame_of result.1 ≡ wire.Frame.Run first sent.items }
    ensures whole { ArePageBytes sent.items }
{
    let pages = Pages::new(sent);
    pages.are_whole();
    (run_effect(first, count), Frame::Run { first, pages })
}

/// The effect of sending a run.
fn run_effect(first: PageNo, count: u32) -> Effect
    ensures { result ≡ Effect.SentRun (PAGE_SIZE * first) count }
{
    Effect::SentRun {
        addr: page_address(first),
        pages: count,
    }
}

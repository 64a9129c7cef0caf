//! How a source notices a broken channel, and continues over a new one; and its release.

ghost use Rattle.std.specs.Prelude.{◌≡◌, ◌∷◌, false, true, [], Err, IfOk, IfErr, OnOk, OnErr};
ghost use Rattle.mig_model.specs.Bounds.{IsFrame};
ghost use Rattle.mig_model.specs.Faults.{is_bad_owed};
ghost use Rattle.mig_model.specs.Log.{forgotten};
ghost use Rattle.mig_model.specs.NodeSteps.{acted, sent};
ghost use Rattle.mig_model.specs.Source.{is_released, released, source_rebuilt};
ghost use Rattle.mig_model.specs.SourceSteps.{pause, resume};
ghost use Rattle.mig_model.specs.Wire as machine;
ghost use Rattle.page_stream.specs.Frames.{frame_of};
ghost use Rattle.precopy.specs.Back.{takes_memory};

use super::Source;
use dirty_log::DirtyLog;
use mig_base::effect::Effect;
use mig_base::phase::{Received, SourcePhase};
use mig_base::refusal::Refusal;
use mig_base::schedule::Side;
use mig_base::{NoMemory, PageSet};
use page_stream::Frame;
use std::collections::VecDeque;
use uffd_ioctl::Space;

impl Source {
    /// The number of pages that the last Package owed.
    pub fn packaged(&self) -> u32
        ensures { result ≡ self.now.packaged }
    {
        self.packaged
    }

    /// Pauses the source, which notices that the channel is broken. Refused as `Phase` before the start, once the migration is complete, and
    /// if the source is paused already. It takes no memory. The caller knows that the channel is broken.
    pub fn notice(&mut self) -> Result<Effect, Refusal>
        ensures made { IfOk result (λ effect. pause self.old ≡ acted effect self.new) }
        ensures refused { IfErr result (λ refusal. pause self.old ≡ Err refusal) }
        ensures err { OnErr result (self.new ≡ self.old) }
    {
        self.check_notice()?;
        self.phase = SourcePhase::Paused;
        Ok(Effect::Noticed { side: Side::Source })
    }

    /// Begins the next epoch, over a new channel, and returns the frame to send, a Resume. The source stays paused until it takes the Recv
    /// that answers it. Refused as `Phase` unless it is paused, and as `CountUsed` if no epoch is left. It takes no memory.
    pub fn resume(&mut self) -> Result<(Effect, Frame), Refusal>
        ensures made { IfOk result (λ made.
            resume self.old ≡ sent made.0 (frame_of made.1 ∷ []) self.new) }
        ensures frame { IfOk result (λ made. IsFrame (frame_of made.1)) }
        ensures refused { IfErr result (λ refusal. resume self.old ≡ Err refusal) }
        ensures err { OnErr result (self.new ≡ self.old) }
    {
        self.check_resume()?;
        self.epoch += 1;
        self.urgent_sent = 0;
        let epoch = self.epoch;
        Ok((Effect::Resumed { epoch }, Frame::Resume))
    }

    /// Continues from a Recv that does not contradict the source: it trusts what was received, not what it has sent. `NoMemory` changes
    /// nothing.
    pub(super) fn rebuild(&mut self, state: Received, owed: &PageSet) -> Result<(), NoMemory>
        requires kept { is_released self.old.phase ≡ false }
        requires right { is_bad_owed self.old state owed.now ≡ false }
        ensures rebuilt { OnOk result (self.new ≡ source_rebuilt state owed.now self.old) }
        ensures memory { OnErr result (takes_memory self.old (machine.Frame.Recv state owed.now) ≡
            true) }
        ensures err { OnErr result (self.new ≡ self.old) }
    {
        match state {
            Received::NotRun if self.switched => {
                let present = self.present()?;
                let packaged = present.len();
                self.to_stopped(present, packaged);
            }
            Received::NotRun => self.to_precopy(),
            Received::Running => {
                let packaged = self.packaged;
                self.to_stopped(owed.copy()?, packaged);
            }
            Received::Ended => self.release(),
        }
        Ok(())
    }

    /// A source that has not switched begins pre-copy again, because the destination has kept nothing. Held faults stay.
    fn to_precopy(&mut self)
        requires { self.old.switched ≡ false }
        ensures { self.new ≡
            record self.old {
              phase = SourcePhase.Precopy;
              asked = [];
              log = forgotten
                  self.old.log;
            } }
    {
        self.phase = SourcePhase::Precopy;
        self.asked.clear();
        self.log.forget();
    }

    /// A source that has switched and is not released continues, with these pages left to send. The last Package owed `packaged` pages.
    fn to_stopped(&mut self, remaining: PageSet, packaged: u32)
        requires switched { self.old.switched ≡ true }
        requires kept { is_released self.old.phase ≡ false }
        ensures { self.new ≡
            record self.old {
              phase = SourcePhase.Stopped;
              asked = [];
              remaining = remaining;
              packaged = packaged;
            } }
    {
        self.phase = SourcePhase::Stopped;
        self.asked.clear();
        self.remaining = remaining;
        self.packaged = packaged;
    }

    /// The migration is complete: a source that has switched releases its memory.
    pub(super) fn release(&mut self)
        requires { self.old.switched ≡ true }
        ensures { self.new ≡ released self.old }
    {
        self.phase = SourcePhase::Released;
        self.remaining = PageSet::new(self.alloc);
        self.asked = VecDeque::new(self.alloc);
        self.space = Space::new(self.alloc);
        self.log = DirtyLog::new(self.alloc);
    }
}

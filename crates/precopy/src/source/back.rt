//! Frames from the destination.

ghost use Rattle.std.specs.Prelude.{◌≡◌, ◌==◌, true, None, Err, map, unwrap_or, IfOk, IfErr, OnOk, OnErr};
ghost use Rattle.std.specs.FinSet.{len};
ghost use Rattle.std.specs.List.{AllByRecursion};
ghost use Rattle.mig_model.specs.Bounds.{AreFewPages, IsFrame};
ghost use Rattle.mig_model.specs.Faults.{is_in_place_back};
ghost use Rattle.mig_model.specs.Log as log;
ghost use Rattle.mig_model.specs.Source.{commands_of, source_answers, source_took, space_of};
ghost use Rattle.mig_model.specs.Wire as machine;
ghost use Rattle.page_stream.specs.Frames.{frame_of};
ghost use Rattle.precopy.specs.Back.{is_bad_recv, source_fault, takes_memory};

use super::Source;
use crate::fault::SourceFault;
use mig_base::phase::{Received, SourcePhase};
use mig_base::{NoMemory, PageSet};
use page_stream::{Frame, Waiting};
use uffd_ioctl::Space;

impl Source {
    /// The frames that the source sends when it takes a frame. A caller asks for them first, to make room for them: a taken frame stays
    /// taken. To a Recv of a destination that has not run, a source that has switched answers with an empty Discard and a Package that owes
    /// all its present pages; to any other frame with none. `NoMemory` if these cannot be allocated.
    pub fn answers(&self, frame: &Frame) -> Result<Vec<Frame>, NoMemory>
        ensures frames { IfOk result (λ frames.
            map frame_of frames.items ≡ source_answers self.now (frame_of frame.now)) }
        ensures well_formed { IfOk result (λ frames.
            AllByRecursion IsFrame (map frame_of frames.items)) }
        ensures memory { OnErr result (takes_memory self.now (frame_of frame.now) ≡ true) }
    {
        let mut frames = Vec::new(self.alloc);
        match frame {
            Frame::Recv {
                state: Received::NotRun,
                ..
            } if self.switched => {
                let package = self.package(&self.present()?)?;
                let pages = PageSet::new(self.alloc);
                frames.push(Frame::Discard { pages })?;
                frames.push(package)?;
            }
            _ => {}
        }
        Ok(frames)
    }

    /// Takes a frame that the destination sent in the given epoch. A requested page is queued, Done releases the source, and from a Recv,
    /// which says how far the destination has come and which pages it still needs, a paused source continues: in pre-copy from nothing, if
    /// neither has the source switched nor the destination run; with all its present pages to send, if the source alone has; with the
    /// listed pages, if the destination runs; and it is released, if the destination has ended.
    ///
    /// `OutOfPlace` for a Request unless the source is stopped, for Done unless it is stopped and has sent End in its epoch, for a Recv
    /// unless it is paused, and for any other frame; then `StaleEpoch` for a frame of another epoch, `BadOwed` for a Recv that contradicts
    /// the source, and last `NoMemory`. A refusal changes nothing.
    pub fn take(&mut self, epoch: u32, frame: &Frame) -> Result<(), SourceFault>
        ensures accepted { OnOk result (source_fault self.old epoch (frame_of frame.now) ≡ None) }
        ensures refused { IfErr result (λ fault.
            fault ≡
            unwrap_or (source_fault self.old epoch (frame_of frame.now)) SourceFault.NoMemory) }
        ensures memory { result ≡ Err SourceFault.NoMemory →
            takes_memory self.old (frame_of frame.now) ≡ true }
        ensures took { OnOk result (self.new ≡ source_took self.old (frame_of frame.now)) }
        ensures err { OnErr result (self.new ≡ self.old) }
    {
        if let Some(fault) = self.take_fault(epoch, frame) {
            return Err(fault);
        }
        match frame {
            Frame::Request { page } => {
                let Ok(()) = self.asked.push_back(*page) else {
                    return Err(SourceFault::NoMemory);
                };
            }
            Frame::Recv { state, owed } => self.rebuild(*state, owed)?,
            Frame::Done => self.release(),
            _ => {}
        }
        Ok(())
    }

    /// Why the source refuses a frame, if it does; memory is not considered.
    fn take_fault(&self, epoch: u32, frame: &Frame) -> Option<SourceFault>
        ensures { result ≡ source_fault self.now epoch (frame_of frame.now) }
    {
        if !self.is_in_place(frame) {
            Some(SourceFault::OutOfPlace)
        } else if epoch != self.epoch {
            Some(SourceFault::StaleEpoch)
        } else if self.is_bad(frame) {
            Some(SourceFault::BadOwed)
        } else {
            None
        }
    }

    /// Whether the source takes a frame of this kind now.
    fn is_in_place(&self, frame: &Frame) -> bool
        ensures { result ≡ is_in_place_back self.now (frame_of frame.now) }
    {
        match frame {
            Frame::Request { .. } => self.phase == SourcePhase::Stopped,
            Frame::Done => self.phase == SourcePhase::Stopped && self.end_epoch == self.epoch,
            Frame::Recv { .. } => self.phase == SourcePhase::Paused,
            _ => false,
        }
    }

    /// Whether a frame is a Recv that contradicts the source.
    fn is_bad(&self, frame: &Frame) -> bool
        ensures { result ≡ is_bad_recv self.now (frame_of frame.now) }
    {
        let Frame::Recv { state, owed } = frame else {
            return false;
        };
        match state {
            Received::NotRun => owed.len() > 0,
            Received::Running => !self.switched || !are_present(&self.space, owed),
            Received::Ended => !self.switched || owed.len() > 0,
        }
    }

    /// The Package that owes these pages: with it a destination can run. It has the mapped pages, and the commands that the processors
    /// still have to make. It is well formed if these pages may all be mapped. `NoMemory` if it cannot be allocated.
    pub(super) fn package(&self, owed: &PageSet) -> Result<Frame, NoMemory>
        ensures frame { IfOk result (λ frame.
            frame_of frame ≡
            machine.Frame.Package (space_of self.now).host.areas owed.now
            (commands_of self.now.guest.cpus)) }
        ensures well_formed { AreFewPages owed.now →
            IfOk result (λ frame. IsFrame (frame_of frame)) }
    {
        self.space.is_in_order();
        // Makes the bound on the number of processors known to the proof.
        let _count = self.cpus.count();
        let areas = self.space.areas()?;
        let owed = owed.copy()?;
        let commands = Waiting::new(self.cpus.commands()?);
        Ok(Frame::Package {
            areas,
            owed,
            commands,
        })
    }

    /// The present pages of the source. `NoMemory` if the set cannot be allocated.
    pub(super) fn present(&self) -> Result<PageSet, NoMemory>
        ensures few { IfOk result (λ pages. AreFewPages pages) }
        ensures present { IfOk result (λ pages. pages ≡ log.present (space_of self.now)) }
    {
        self.space.is_in_order();
        self.space.present()
    }
}

/// Whether all pages of a set are present.
fn are_present(space: &Space, pages: &PageSet) -> bool
    ensures { result ≡ (len (log.less pages.now (log.present space.now)) == 0) }
{
    space.is_in_order();
    for page in pages.iter() {
        if space.page(page).is_none() {
            return false;
        }
    }
    true
}

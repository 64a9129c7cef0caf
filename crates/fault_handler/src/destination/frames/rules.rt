//! The frames that a destination takes, and why it refuses another.

ghost use Rattle.std.specs.Prelude.{◌≡◌};
ghost use Rattle.mig_model.specs.Faults as machine;
ghost use Rattle.mig_model.specs.Wire as wire;
ghost use Rattle.page_stream.specs.Frames.{frame_of};

use crate::destination::Destination;
use mig_base::fault::TakeFault;
use mig_base::phase::DestPhase;
use page_stream::Frame;

impl Destination {
    /// Why [`Destination::take`] would refuse a frame of the forward wire, if it would; memory is not considered.
    pub fn take_fault(&self, epoch: u32, frame: &Frame) -> Option<TakeFault>
        ensures { result ≡ machine.take_fault self.now epoch (frame_of frame.now) }
    {
        match self.frame_fault(epoch, frame) {
            Some(fault) => Some(fault),
            None => self.wait_fault(frame),
        }
    }

    /// Why it refuses a frame of the urgent wire, if it does; memory is not considered.
    pub(super) fn urgent_fault(&self, epoch: u32, frame: &Frame) -> Option<TakeFault>
        ensures { result ≡ machine.urgent_fault self.now epoch (frame_of frame.now) }
    {
        if self.phase != DestPhase::Running || !is_copy(frame) {
            Some(TakeFault::OutOfPlace)
        } else if epoch != self.epoch {
            Some(TakeFault::StaleEpoch)
        } else {
            None
        }
    }

    /// Why a frame is at fault, if it is: out of place, of another epoch, or bad.
    fn frame_fault(&self, epoch: u32, frame: &Frame) -> Option<TakeFault>
        ensures { result ≡ machine.frame_fault self.now epoch (frame_of frame.now) }
    {
        if !self.is_in_place(frame) || self.is_too_soon(frame) {
            Some(TakeFault::OutOfPlace)
        } else if !self.is_of_epoch(epoch, frame) {
            Some(TakeFault::StaleEpoch)
        } else if self.is_bad(frame) {
            Some(TakeFault::BadFrame)
        } else {
            None
        }
    }

    /// Why a frame must wait, if so.
    fn wait_fault(&self, frame: &Frame) -> Option<TakeFault>
        ensures { result ≡ machine.wait_fault self.now (frame_of frame.now) }
    {
        match frame {
            Frame::End { .. } if !self.arrivals.is_empty() => Some(TakeFault::InstallFirst),
            Frame::End { urgent } if self.urgent_taken < u64::from(*urgent) => {
                Some(TakeFault::UrgentFirst)
            }
            _ => None,
        }
    }

    /// Whether the phase takes such a frame.
    fn is_in_place(&self, frame: &Frame) -> bool
        ensures { result ≡ machine.is_in_place self.now.phase (frame_of frame.now) }
    {
        match frame {
            Frame::Advise => self.phase == DestPhase::Idle,
            Frame::Page { .. } | Frame::Zero { .. } => {
                self.phase == DestPhase::Advised || self.phase == DestPhase::Running
            }
            Frame::Run { .. } | Frame::Discard { .. } => self.phase == DestPhase::Advised,
            Frame::Package { .. } => self.phase == DestPhase::Discarding,
            Frame::End { .. } => self.phase == DestPhase::Running,
            Frame::Resume => self.phase == DestPhase::Paused,
            Frame::Request { .. } | Frame::Recv { .. } | Frame::Done => false,
        }
    }

    /// Whether it is an End that comes while pages are owed, no copy waits, and no urgent frame is still to come.
    fn is_too_soon(&self, frame: &Frame) -> bool
        ensures { result ≡ machine.is_too_soon self.now (frame_of frame.now) }
    {
        match frame {
            Frame::End { urgent } => {
                !self.owed.is_empty()
                    && self.arrivals.is_empty()
                    && u64::from(*urgent) <= self.urgent_taken
            }
            _ => false,
        }
    }

    /// Whether a frame is of an epoch in which it may come.
    fn is_of_epoch(&self, epoch: u32, frame: &Frame) -> bool
        ensures { result ≡ machine.is_of_epoch self.now.epoch epoch (frame_of frame.now) }
    {
        match frame {
            Frame::Advise => true,
            Frame::Resume => self.epoch < epoch,
            _ => epoch == self.epoch,
        }
    }

    /// Whether the contents of a frame contradict the destination.
    fn is_bad(&self, frame: &Frame) -> bool
        ensures { result ≡ machine.is_bad self.now (frame_of frame.now) }
    {
        match frame {
            Frame::Package {
                areas,
                owed,
                commands,
            } => {
                self.kept.is_torn(areas, owed)
                    || commands.as_slice().len() != usize::from(self.cpus.count())
            }
            Frame::End { urgent } => u64::from(*urgent) < self.urgent_taken,
            _ => false,
        }
    }
}

/// Whether a frame carries the copy of one page.
fn is_copy(frame: &Frame) -> bool
    ensures { result ≡ wire.is_copy (frame_of frame.now) }
{
    match frame {
        Frame::Page { .. } | Frame::Zero { .. } => true,
        _ => false,
    }
}

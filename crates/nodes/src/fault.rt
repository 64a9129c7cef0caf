//! Why a frame is not taken.

ghost use Rattle.std.specs.Prelude.{◌≡◌};
ghost use Rattle.nodes.specs.Faults as machine;

use mig_base::fault::TakeFault;
use precopy::SourceFault;
use thiserror::Error;

/// Why a node does not take a frame. Nothing is changed.
#[derive(Clone, Copy, Debug, PartialEq, Eq, Error)]
pub enum FrameFault {
    /// The bytes are not those of one frame.
    #[error("the bytes are not those of one frame")]
    NotAFrame,
    /// No such frame may come now.
    #[error("no such frame may come now")]
    OutOfPlace,
    /// The frame is of another epoch.
    #[error("the frame is of another epoch")]
    StaleEpoch,
    /// The contents of the frame do not fit what the destination has.
    #[error("the contents of the frame do not fit what the destination has")]
    BadFrame,
    /// A Recv contradicts the source.
    #[error("the Recv contradicts the source")]
    BadOwed,
    /// A copy that has arrived has to be installed first.
    #[error("a copy that has arrived has to be installed first")]
    InstallFirst,
    /// Frames of the urgent wire have to be taken first.
    #[error("frames of the urgent wire have to be taken first")]
    UrgentFirst,
    /// Out of memory.
    #[error("out of memory")]
    NoMemory,
}

/// The fault of a destination.
pub(crate) fn of_take(fault: TakeFault) -> FrameFault
    ensures { result ≡ machine.of_take fault }
{
    match fault {
        TakeFault::OutOfPlace => FrameFault::OutOfPlace,
        TakeFault::StaleEpoch => FrameFault::StaleEpoch,
        TakeFault::BadFrame => FrameFault::BadFrame,
        TakeFault::InstallFirst => FrameFault::InstallFirst,
        TakeFault::UrgentFirst => FrameFault::UrgentFirst,
        TakeFault::NoMemory => FrameFault::NoMemory,
    }
}

/// The fault of a source.
pub(crate) fn of_source(fault: SourceFault) -> FrameFault
    ensures { result ≡ machine.of_source fault }
{
    match fault {
        SourceFault::OutOfPlace => FrameFault::OutOfPlace,
        SourceFault::StaleEpoch => FrameFault::StaleEpoch,
        SourceFault::BadOwed => FrameFault::BadOwed,
        SourceFault::NoMemory => FrameFault::NoMemory,
    }
}

//! Why a node does not take a frame.

ghost use Rattle.std.specs.Prelude.{◌≡◌};

use crate::NoMemory;
use thiserror::Error;

/// Why a destination does not take a frame. If several reasons apply, the first of this list is given. Nothing is changed.
#[derive(Clone, Copy, Debug, PartialEq, Eq, Error)]
pub enum TakeFault {
    /// No such frame may come now.
    #[error("no such frame may come now")]
    OutOfPlace,
    /// The frame is of another epoch.
    #[error("the frame is of another epoch")]
    StaleEpoch,
    /// The contents of the frame do not fit what the destination has.
    #[error("the contents of the frame do not fit what the destination has")]
    BadFrame,
    /// A copy that has arrived has to be installed first.
    #[error("a copy that has arrived has to be installed first")]
    InstallFirst,
    /// Frames of the urgent wire have to be taken first.
    #[error("frames of the urgent wire have to be taken first")]
    UrgentFirst,
    /// Out of memory.
    #[error("out of memory")]
    NoMemory,
}

/// Why a source does not take a frame. If several reasons apply, the first of this list is given. Nothing is changed.
#[derive(Clone, Copy, Debug, PartialEq, Eq, Error)]
pub enum BackFault {
    /// No such frame may come now.
    #[error("no such frame may come now")]
    OutOfPlace,
    /// The frame is of another epoch.
    #[error("the frame is of another epoch")]
    StaleEpoch,
    /// Out of memory.
    #[error("out of memory")]
    NoMemory,
}

/// Why a source does not continue from the Recv of a destination. Nothing is changed.
#[derive(Clone, Copy, Debug, PartialEq, Eq, Error)]
pub enum RebuildFault {
    /// The Recv contradicts the source: it lists pages that the source does not have, lists pages of a destination that does not run, or
    /// says that the destination runs or has ended before the source has switched.
    #[error("the Recv contradicts the source")]
    BadOwed,
    /// Out of memory.
    #[error("out of memory")]
    NoMemory,
}

impl From<NoMemory> for TakeFault {
    ghost use Rattle.mig_base.specs.declared.fault.TakeFault.{TakeFault};

    ghost from_gives = { λ _ fault. fault ≡ TakeFault.NoMemory };

    fn from(_refused: NoMemory) -> Self {
        TakeFault::NoMemory
    }
}

impl From<NoMemory> for BackFault {
    ghost use Rattle.mig_base.specs.declared.fault.BackFault.{BackFault};

    ghost from_gives = { λ _ fault. fault ≡ BackFault.NoMemory };

    fn from(_refused: NoMemory) -> Self {
        BackFault::NoMemory
    }
}

impl From<NoMemory> for RebuildFault {
    ghost use Rattle.mig_base.specs.declared.fault.RebuildFault.{RebuildFault};

    ghost from_gives = { λ _ fault. fault ≡ RebuildFault.NoMemory };

    fn from(_refused: NoMemory) -> Self {
        RebuildFault::NoMemory
    }
}

//! Why a source does not take a frame.

ghost use Rattle.std.specs.Prelude.{◌≡◌};

use mig_base::NoMemory;

/// Why a source does not take a frame. If several reasons apply, the first of this list is given. Nothing is changed.
#[derive(Clone, Copy, Debug, PartialEq, Eq)]
pub enum SourceFault {
    /// No such frame may come now.
    OutOfPlace,
    /// The frame is of another epoch.
    StaleEpoch,
    /// A Recv contradicts the source: it lists pages that the source does not have, lists pages of a destination that does not run, or says
    /// that the destination runs or has ended before the source has switched.
    BadOwed,
    /// Out of memory.
    NoMemory,
}

impl From<NoMemory> for SourceFault {
    ghost use Rattle.precopy.specs.declared.fault.SourceFault.{SourceFault};

    ghost from_gives = { λ _ fault. fault ≡ SourceFault.NoMemory };

    fn from(_refused: NoMemory) -> Self {
        SourceFault::NoMemory
    }
}

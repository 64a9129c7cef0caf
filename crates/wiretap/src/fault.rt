//! Faults that end a run before its script.

ghost use Rattle.std.specs.Prelude.{◌≡◌};
ghost use Rattle.wiretap.specs.declared.fault.TapFault.TheVariants.{Run as OfRun};

use engine::RunFault;
use thiserror::Error;

/// One of the three wires of a world.
#[derive(Clone, Copy, Debug, PartialEq, Eq)]
pub enum Channel {
    /// The wire to the destination.
    Forward,
    /// The wire back to the source.
    Back,
    /// The urgent wire to the destination.
    Urgent,
}

/// Why a run ended before its input.
#[derive(Clone, Copy, Debug, PartialEq, Eq, Error)]
pub enum TapFault {
    /// For a reason for which every run of the script may end. `NoMemory` also comes where 2^64 - 1 bytes or more are in flight on a wire.
    #[error("{0}")]
    Run(RunFault),
    /// The writer of a wire failed, or took no byte. It has the first part of the bytes that were put on the wire.
    #[error("write fault")]
    Wire(Channel),
}

impl From<RunFault> for TapFault {
    ghost from_gives = { λ fault e. e ≡ OfRun fault };

    fn from(fault: RunFault) -> TapFault {
        TapFault::Run(fault)
    }
}

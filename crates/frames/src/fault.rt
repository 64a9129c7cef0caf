//! Faults that end a stream of frames early.

ghost use Rattle.std.specs.Prelude.{◌≡◌};
ghost use Rattle.frames.specs.declared.fault.FramesFault.TheVariants.{NoMemory as OutOfMemory};
ghost use Rattle.frames.specs.Faults.{frames_fault_of};

use frame_decoder::StreamFault;
use mig_base::NoMemory;
use std::alloc::AllocError;
use thiserror::Error;

/// Why a stream of frames was not taken to its end.
#[derive(Clone, Copy, Debug, PartialEq, Eq, Error)]
pub enum FramesFault {
    /// The bytes after the frames are not a frame. The lines of all frames before them were written.
    #[error("stream fault {0:?}")]
    Stream(StreamFault),
    /// The input ends inside a frame. The lines of all frames before it were written.
    #[error("truncated stream")]
    Truncated,
    /// A read failed, or more than 4,294,967,295 were needed. The lines of all frames read were written.
    #[error("read fault")]
    ReadFault,
    /// A write failed, or took no byte. The first part of the lines of the frames read was written.
    #[error("write fault")]
    WriteFault,
    /// An allocation failed. The lines of some frames from the first on were written, each in full.
    #[error("no memory")]
    NoMemory,
}

impl From<StreamFault> for FramesFault {
    ghost from_gives = { λ fault e. e ≡ frames_fault_of fault };

    fn from(fault: StreamFault) -> FramesFault {
        match fault {
            StreamFault::NoMemory => FramesFault::NoMemory,
            StreamFault::BadTag | StreamFault::BadLength | StreamFault::BadField =>
                FramesFault::Stream(fault),
        }
    }
}

impl From<NoMemory> for FramesFault {
    ghost from_gives = { λ _ e. e ≡ OutOfMemory };

    fn from(_e: NoMemory) -> FramesFault {
        FramesFault::NoMemory
    }
}

impl From<AllocError> for FramesFault {
    ghost from_gives = { λ _ e. e ≡ OutOfMemory };

    fn from(_e: AllocError) -> FramesFault {
        FramesFault::NoMemory
    }
}

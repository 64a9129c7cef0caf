//! Why a stream cannot be read.

ghost use Rattle.std.specs.Prelude.{◌≡◌};
ghost use Rattle.frame_decoder.specs.declared.fault.StreamFault.TheVariants.{NoMemory};

use mig_base::NoMemory as OutOfMemory;
use std::alloc::{AllocError, AllocFailed};
use thiserror::Error;

/// Why a decoder returns no frames.
#[derive(Clone, Copy, Debug, PartialEq, Eq, Drop, Error)]
pub enum StreamFault {
    /// A version or tag that is not known, or another version than that of the first frame; or the version does not have the tag.
    #[error("unknown version or tag")]
    BadTag,
    /// A length that no body of such a frame has in that version.
    #[error("bad length of a frame")]
    BadLength,
    /// Any other field with a value that no frame has there.
    #[error("bad field in a frame")]
    BadField,
    /// An allocation failed: the stream is not at fault, and the same call may succeed later.
    #[error("no memory")]
    NoMemory,
}

impl From<OutOfMemory> for StreamFault {
    ghost from_gives = { λ _ fault. fault ≡ NoMemory };

    fn from(_error: OutOfMemory) -> Self {
        StreamFault::NoMemory
    }
}

impl From<AllocError> for StreamFault {
    ghost from_gives = { λ _ fault. fault ≡ NoMemory };

    fn from(_error: AllocError) -> Self {
        StreamFault::NoMemory
    }
}

impl<T: Drop> From<AllocFailed<T>> for StreamFault {
    ghost from_gives = { λ _ fault. fault ≡ NoMemory };

    fn from(_failed: AllocFailed<T>) -> Self {
        StreamFault::NoMemory
    }
}

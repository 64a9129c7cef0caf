//! What the model, the nodes and the judge of logs share, and nothing of a migration: the size of a page, the bits of a word, and the error
//! of an allocation that failed. Its definitions are ranges of numbers, rounding to pages, tests, and the modes of a registration.
#![tactic(auto)]

ghost use Rattle.std.specs.Prelude.{◌≡◌, ◌<◌};
ghost use Rattle.foundation.specs.Bits.{is_one};

use std::alloc::{AllocError, AllocFailed};
use thiserror::Error;

/// The size of a page, in bytes.
pub const PAGE_SIZE: u64 = 4096;

/// An allocation failed.
#[derive(Clone, Copy, Debug, PartialEq, Eq, Error)]
#[error("no memory")]
pub struct NoMemory;

impl From<AllocError> for NoMemory {
    fn from(_error: AllocError) -> Self {
        NoMemory
    }
}

impl<T: Drop> From<AllocFailed<T>> for NoMemory {
    fn from(_failed: AllocFailed<T>) -> Self {
        NoMemory
    }
}

/// Whether a flag is set.
pub fn has_bit(flags: u64, i: u32) -> bool
    requires { i < 64 }
    ensures { result ≡ is_one flags i }
{
    (flags >> i) & 1 == 1
}

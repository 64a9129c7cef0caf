//! The error of making a guest's processors.

use std::alloc::AllocError;
use thiserror::Error;

/// Why a guest's processors could not be made.
#[derive(Clone, Copy, Debug, PartialEq, Eq, Error)]
pub enum NewFault {
    /// A guest has 1 to 16 processors.
    #[error("a guest has 1 to 16 processors")]
    NoCpu,
    /// An allocation failed. The same call may succeed later.
    #[error("no memory")]
    NoMemory,
}

impl From<AllocError> for NewFault {
    ghost use Rattle.std.specs.Prelude.{◌≡◌};
    ghost use Rattle.vcpu.specs.declared.fault.NewFault.TheVariants.{NoMemory};

    ghost from_gives = { λ _ fault. fault ≡ NoMemory };

    fn from(_error: AllocError) -> Self {
        NewFault::NoMemory
    }
}

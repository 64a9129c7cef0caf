//! Faults that end a run before its script.

ghost use Rattle.std.specs.Prelude.{◌≡◌};
ghost use Rattle.engine.specs.declared.fault.RunFault.TheVariants.{NoMemory as OutOfMemory};

use mig_base::NoMemory;
use std::alloc::{AllocError, AllocFailed};
use thiserror::Error;

/// Why a run or a check ended before its input.
#[derive(Clone, Copy, Debug, PartialEq, Eq, Error)]
pub enum RunFault {
    /// The line with this number, counted from 1, is not a line of the language. All output of the lines before it was written.
    #[error("line {0}: not a script line")]
    Line(u64),
    /// A read failed, or more than 4,294,967,295 were needed. All output of the lines read was written.
    #[error("read fault")]
    ReadFault,
    /// A write failed, or took no byte. The first part of the output of the lines read was written.
    #[error("write fault")]
    WriteFault,
    /// An allocation failed. The output of some lines from the first on was written, each in full.
    #[error("no memory")]
    NoMemory,
}

impl From<NoMemory> for RunFault {
    ghost from_gives = { λ _ e. e ≡ OutOfMemory };

    fn from(_e: NoMemory) -> RunFault {
        RunFault::NoMemory
    }
}

impl From<AllocError> for RunFault {
    ghost from_gives = { λ _ e. e ≡ OutOfMemory };

    fn from(_e: AllocError) -> RunFault {
        RunFault::NoMemory
    }
}

impl<T: Drop> From<AllocFailed<T>> for RunFault {
    ghost from_gives = { λ _ e. e ≡ OutOfMemory };

    fn from(_e: AllocFailed<T>) -> RunFault {
        RunFault::NoMemory
    }
}

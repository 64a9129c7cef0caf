//! Faults that end the reading of a log.

use foundation::NoMemory;
use std::alloc::{AllocError, AllocFailed};
use thiserror::Error;

/// Why a log was not judged.
#[derive(Clone, Copy, Debug, PartialEq, Eq, Error)]
pub enum LogFault {
    /// The first line is not `uffdlog 1`. Nothing was written.
    #[error("not a log: the first line is not 'uffdlog 1'")]
    NotALog,
    /// The first line is one of strace's. Nothing was written.
    #[error("not a log, but what strace writes")]
    StraceOutput,
    /// The first bytes are those of a file that gzip has packed. Nothing was written.
    #[error("not a log, but packed: unpack it, as by 'zcat FILE | ./postmig audit'")]
    Packed,
    /// There is no line. Nothing was written.
    #[error("not a log: it is empty")]
    Empty,
    /// A read failed, or more than 4,294,967,295 were needed, or there are as many lines. The wrong lines before it were written.
    #[error("read fault")]
    ReadFault,
    /// A write failed, or took no byte.
    #[error("write fault")]
    WriteFault,
    /// An allocation failed.
    #[error("no memory")]
    NoMemory,
}

impl From<NoMemory> for LogFault {
    fn from(_e: NoMemory) -> LogFault {
        LogFault::NoMemory
    }
}

impl From<AllocError> for LogFault {
    fn from(_e: AllocError) -> LogFault {
        LogFault::NoMemory
    }
}

impl<T: Drop> From<AllocFailed<T>> for LogFault {
    fn from(_e: AllocFailed<T>) -> LogFault {
        LogFault::NoMemory
    }
}

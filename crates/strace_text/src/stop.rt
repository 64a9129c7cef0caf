//! Why a line of a trace was not taken.

use foundation::NoMemory;
use std::alloc::{AllocError, AllocFailed, Global};
use std::fmt;
use std::fmt::Write;

/// Why a line was not taken.
#[derive(Drop)]
pub(crate) enum Stop {
    /// It cannot be read, for this reason.
    Refused(String),
    NoMemory,
}

impl From<NoMemory> for Stop {
    fn from(_e: NoMemory) -> Stop {
        Stop::NoMemory
    }
}

impl From<AllocError> for Stop {
    fn from(_e: AllocError) -> Stop {
        Stop::NoMemory
    }
}

impl<T: Drop> From<AllocFailed<T>> for Stop {
    fn from(_e: AllocFailed<T>) -> Stop {
        Stop::NoMemory
    }
}

/// A line is refused for a reason.
pub(crate) fn refuse(alloc: Global, reason: &str) -> Stop {
    refused(String::from_str(alloc, reason))
}

/// A line is refused for what these bytes of it are.
pub(crate) fn refuse_bytes(alloc: Global, bytes: &[u8], what: &str) -> Stop {
    let bytes = Shown(bytes);
    refused(format!(in alloc; "'{bytes}' {what}"))
}

/// A line is refused for a reason, which was written or was not for lack of memory.
pub(crate) fn refused(reason: Result<String, AllocError>) -> Stop {
    match reason {
        Ok(reason) => Stop::Refused(reason),
        Err(_) => Stop::NoMemory,
    }
}

/// Bytes of a trace in a message: each is the character of its number.
#[derive(Clone, Copy)]
pub(crate) struct Shown<'a>(pub(crate) &'a [u8]);

impl fmt::Display for Shown<'_> {
    fn fmt<W: fmt::Write>(&self, f: &mut fmt::Formatter<W>) -> fmt::Result {
        for byte in self.0 {
            f.write_char(char::from(*byte))?;
        }
        Ok(())
    }
}

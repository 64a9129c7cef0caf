//! The exit statuses of the commands that have faults of their own.

ghost use Rattle.std.specs.Prelude.{◌≡◌, ◌≤◌, IfErr, OnOk};
ghost use Rattle.postmig.specs.Status.{frames_fault_status};

use frames::FramesFault;
use streams::{ALL_DONE, BAD_COMMAND_OR_SCRIPT, NO_MEMORY, READ_OR_WRITE_FAULT};

/// The exit status of frames that were handed to a destination.
pub(crate) fn frames_status_of(outcome: Result<u64, FramesFault>) -> u8
    ensures ok { OnOk outcome (result ≡ 0) }
    ensures fault { IfErr outcome (λ fault. result ≡ frames_fault_status fault) }
    ensures least { result ≤ 4 }
{
    match outcome {
        Ok(_) => ALL_DONE,
        Err(FramesFault::Stream(_) | FramesFault::Truncated) => BAD_COMMAND_OR_SCRIPT,
        Err(FramesFault::ReadFault | FramesFault::WriteFault) => READ_OR_WRITE_FAULT,
        Err(FramesFault::NoMemory) => NO_MEMORY,
    }
}

//! The exit statuses of a command.

ghost use Rattle.std.specs.Prelude.{◌≡◌, ◌≤◌, IfOk, IfErr};
ghost use Rattle.console.specs.Status.{answer_status, fault_status};

use engine::RunFault;
use streams::{ALL_DONE, BAD_COMMAND_OR_SCRIPT, NO_FLAT_RUN, NO_MEMORY, READ_OR_WRITE_FAULT};

/// The exit status of a run or a check: whether all is well, or the fault that ended it.
pub fn status_of(outcome: Result<bool, RunFault>) -> u8
    ensures answer { IfOk outcome (λ answer. result ≡ answer_status answer) }
    ensures fault { IfErr outcome (λ fault. result ≡ fault_status fault) }
    ensures least { result ≤ 4 }
{
    match outcome {
        Ok(true) => ALL_DONE,
        Ok(false) => NO_FLAT_RUN,
        Err(RunFault::Line(_)) => BAD_COMMAND_OR_SCRIPT,
        Err(RunFault::ReadFault | RunFault::WriteFault) => READ_OR_WRITE_FAULT,
        Err(RunFault::NoMemory) => NO_MEMORY,
    }
}

//! The exit statuses of the program.

ghost use Rattle.std.specs.Prelude.{◌≡◌, ◌≤◌, IfOk, IfErr};
ghost use Rattle.uffd_audit.specs.Status.{fault_status, verdict_status};

use audit::Verdict;
use call_log::LogFault;
use streams::{
    ALL_DONE, BAD_COMMAND_OR_SCRIPT, NO_FLAT_RUN, NO_MEMORY, NOTHING_TO_JUDGE, READ_OR_WRITE_FAULT,
    UNDECIDED,
};

/// The exit status of a log that was judged, or was not. Where a certificate is wanted a log without one is undecided at best.
pub(crate) fn status_of(outcome: Result<Verdict, LogFault>, wanted: bool) -> u8
    ensures verdict { IfOk outcome (λ verdict. result ≡ verdict_status wanted verdict) }
    ensures fault { IfErr outcome (λ fault. result ≡ fault_status fault) }
    ensures known { result ≤ 6 }
{
    match outcome {
        Ok(Verdict::Clean) if wanted => UNDECIDED,
        Ok(Verdict::Certified | Verdict::Clean) => ALL_DONE,
        Ok(Verdict::Found) => BAD_COMMAND_OR_SCRIPT,
        Ok(Verdict::Wrong) => READ_OR_WRITE_FAULT,
        Ok(Verdict::Unexplained) => NO_FLAT_RUN,
        Ok(Verdict::Undecided | Verdict::Doubtful) => UNDECIDED,
        Ok(Verdict::Nothing) => NOTHING_TO_JUDGE,
        Err(LogFault::NoMemory) => NO_MEMORY,
        Err(_) => READ_OR_WRITE_FAULT,
    }
}

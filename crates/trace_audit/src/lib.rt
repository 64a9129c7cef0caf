//! Judging a log of a real program's userfaultfd calls, or what strace has written of them.
//!
//! [`audit_input`] finds out by the first line of an input which of the two it is. A log is judged by `audit`. What strace has written is
//! converted to a log by `strace_text`, and that is judged; what is said of its lines then names those of the trace. `specs/Traces.antt` says
//! what is promised.
//!
//! No contract says that a log has the calls of its trace: that is tested.
//!
//! The crate names no file, no command line and no exit status: readers and writers are its callers'.
#![tactic(auto)]

mod input;
mod listing;
mod shown;
mod trace;

pub use crate::input::audit_input;
pub use crate::trace::judge_converted;

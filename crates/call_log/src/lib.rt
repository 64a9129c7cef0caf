//! Reading a log of a real program's userfaultfd calls: its head, its lines, and the calls that they are of.
//!
//! [`read_log`] reads a whole log of the language `uffdlog 1` (docs/UFFDLOG.md) in pieces. It writes `NAME:LINE: reason` for each line that is
//! not one of the language, or contradicts those above it, and returns the calls where there is no such line. `specs/Listing.antt` says what
//! is listed. What a single line means is in `uffd_log`.
//!
//! A [`ReadLog`] has the entries of the lines, and where among them each call is. Completed it is a [`Log`], which reads each call from its
//! entries, with its answer and the address space that it changes. No contract says that these are the calls of the lines.
//!
//! The crate judges no call. It names no file, no command line and no exit status: readers and writers are its callers'.
#![tactic(auto)]

pub mod call_table;
pub mod complete;
pub mod fault;
mod head;
pub mod input;
pub mod log;
pub mod log_call;
mod log_reader;
pub mod pages;
mod process_table;
mod reader;
pub mod split;
mod strace;
mod wrong;

pub use crate::complete::{CompleteLog, ReadLog};
pub use crate::fault::LogFault;
pub use crate::input::{read_log, write_out};
pub use crate::log::Log;
pub use crate::log_call::{Kind, LogCall};
pub use crate::pages::{PageSize, Range};

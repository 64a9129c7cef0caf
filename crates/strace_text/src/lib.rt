//! Converts the text that `strace -f` writes to a log of userfaultfd calls (docs/UFFDLOG.md).
//!
//! [`convert`] joins the halves of calls that were unfinished, knows which threads are of which process and which descriptor is which
//! userfault object, and writes each call on an object as lines of a log. A line of the trace that cannot be read is named with a reason, and
//! the log has `lost` there. docs/AUDIT.md says which options of strace the text needs.
//!
//! No contract says what a line of the trace means: the crate is proved to be safe and to end, and is tested for the rest. It judges nothing.
#![tactic(auto)]

mod converter;
mod event;
mod files;
mod flags;
mod kind;
mod log;
mod number;
mod plan;
mod quoted;
mod reader;
mod stop;
mod text;
mod traced;
mod writer;

pub use crate::event::is_trace;
pub use crate::writer::{Converted, Refused, convert};

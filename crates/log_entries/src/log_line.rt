//! A line of a log, and of which call it is.

ghost use Rattle.std.specs.Prelude.{◌≡◌};
ghost use Rattle.log_entries.specs.Events.{is_of, message_in, run_in};

use kernel_rules::Run;
use uffd_log::{Line, Message};

/// A line below the head of a log, with its number in the log.
#[derive(Clone, Copy)]
pub struct LogLine {
    pub number: u32,
    pub line: Line,
}

/// Whether a line is of the call that a process makes under a number.
pub(crate) fn is_of(pid: u32, call: u64, one: LogLine) -> bool
    ensures { result ≡ is_of pid call one.line }
{
    match one.line {
        Line::Begin { stamp, number, .. } => stamp.pid == pid && number == call,
        Line::End { stamp, number, .. } => stamp.pid == pid && number == call,
        Line::Read { stamp, number, .. } => stamp.pid == pid && number == call,
        Line::Have { stamp, number, .. } => stamp.pid == pid && number == call,
        _ => false,
    }
}

/// The message that a line has, if it is of one.
pub(crate) fn message_in(one: LogLine) -> Option<Message>
    ensures { result ≡ message_in one }
{
    match one.line {
        Line::Read { message, .. } => Some(message),
        _ => None,
    }
}

/// The run of pages that a line has, if it is of one.
pub(crate) fn run_in(one: LogLine) -> Option<Run>
    ensures { result ≡ run_in one }
{
    match one.line {
        Line::Have {
            start,
            len,
            bits,
            ..
        } => Some(Run { start, len, bits }),
        _ => None,
    }
}

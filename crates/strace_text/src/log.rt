//! The log that is written, with the line of the trace for each of its lines.

use std::alloc::{AllocError, Global};
use std::fmt::Write;

/// What comes before the lines of calls.
const HEAD: &str = "uffdlog 1\nrecorder strace 1\nkernel - - -\npage 4096\nclock log\ncommand -\n";

const HEAD_LINES: u32 = 6;

#[derive(Drop)]
pub(crate) struct LogText {
    pub(crate) text: String,
    /// For each line of the text, the line of the trace from which it comes.
    pub(crate) lines: Vec<u64>,
    /// The line of the trace that is converted.
    pub(crate) line: u64,
    last_time: u64,
}

impl LogText {
    /// One that has its head.
    pub(crate) fn new(alloc: Global) -> Result<LogText, AllocError> {
        let mut lines = Vec::new(alloc);
        for _ in 0..HEAD_LINES {
            lines.push(1)?;
        }
        Ok(LogText {
            text: String::from_str(alloc, HEAD)?,
            lines,
            line: 1,
            last_time: 0,
        })
    }

    /// Adds a line of a thread, at a time that does not run back.
    pub(crate) fn write(
        &mut self,
        time: u64,
        process: u64,
        thread: u64,
        said: &str,
    ) -> Result<(), AllocError> {
        self.last_time = self.last_time.max(time);
        let time = self.last_time;
        write!(self.text, "{time} {process} {thread} {said}\n")?;
        self.lines.push(self.line)?;
        Ok(())
    }

    /// Says that lines are missing here.
    pub(crate) fn write_lost(&mut self, count: u64) -> Result<(), AllocError> {
        write!(self.text, "lost {count}\n")?;
        self.lines.push(self.line)?;
        Ok(())
    }
}

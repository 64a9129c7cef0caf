//! How long threads waited, from the read that returned their fault to the call that woke them.

use crate::judging::JudgedLog;
use crate::notes::FaultWait;
use foundation::NoMemory;
use std::alloc::Global;
use std::fmt;

/// A wait.
#[derive(Clone, Copy, PartialEq, Eq, PartialOrd, Ord)]
pub(crate) struct Wait {
    /// Nanoseconds.
    pub(crate) time: u64,
    /// The line of the read, counted from the end, so that the first of the longest is the greatest.
    back: u32,
    /// The line where the call ended that woke the thread.
    pub(crate) woken: u32,
}

impl Wait {
    /// The line of the read.
    pub(crate) fn read(self) -> u32 {
        u32::MAX - self.back
    }
}

/// Kinds of faults by their flags, each with what it is called.
pub(crate) const KINDS: &[(u64, &str)] = &[
    (0, "read, missing"),
    (1, "write, missing"),
    (2, "read, write-protected"),
    (3, "write, write-protected"),
    (4, "read, minor"),
    (5, "write, minor"),
];

impl fmt::Display for Wait {
    fn fmt<W: fmt::Write>(&self, f: &mut fmt::Formatter<W>) -> fmt::Result {
        let time = Microseconds(self.time);
        let read = self.read();
        let woken = self.woken;
        write!(f, "{time}, read at line {read}, woken at line {woken}")
    }
}

/// Nanoseconds, which are printed as microseconds.
#[derive(Clone, Copy)]
pub(crate) struct Microseconds(pub(crate) u64);

impl fmt::Display for Microseconds {
    fn fmt<W: fmt::Write>(&self, f: &mut fmt::Formatter<W>) -> fmt::Result {
        let tenths = self.0.saturating_add(50) / 100;
        let whole = tenths / 10;
        let tenth = tenths % 10;
        write!(f, "{whole}.{tenth} us")
    }
}

/// The waits for faults with these flags, or for all, in their order.
pub(crate) fn waits_of(
    alloc: Global,
    judged: &JudgedLog,
    flags: Option<u64>,
) -> Result<Vec<Wait>, NoMemory> {
    let mut waits = Vec::new(alloc);
    for slept in &judged.notes.waits {
        if flags.is_none() || flags == Some(slept.fault.flags) {
            if let Some(wait) = wait_of(judged, slept) {
                waits.push(wait)?;
            }
        }
    }
    waits.sort()?;
    Ok(waits)
}

/// How long a thread slept that a call has woken.
pub(crate) fn wait_of(judged: &JudgedLog, slept: &FaultWait) -> Option<Wait> {
    let read = judged.log.call(u32::try_from(slept.read).ok()?)?;
    let by = judged.log.call(slept.by?)?;
    Some(Wait {
        time: by.until.saturating_sub(read.until),
        back: u32::MAX - read.begin,
        woken: by.end,
    })
}

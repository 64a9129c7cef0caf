//! The lines of a log below its head.

use crate::call::{Call, Descriptor, Message};
use crate::errno::Errno;

/// What most lines begin with.
#[derive(Clone, Copy, PartialEq, Eq)]
pub struct Stamp {
    /// Nanoseconds of one clock.
    pub time: u64,
    pub pid: u32,
    pub tid: u32,
}

/// How a call ended.
#[derive(Clone, Copy, PartialEq, Eq)]
pub enum Answer {
    /// It returned a descriptor: `open`.
    Opened(Descriptor),
    /// It returned nothing else.
    Done,
    /// It returned one number: a descriptor, a process, an address, bits, or how many bytes or lines.
    Value(u64),
    /// It returned two numbers: `api`.
    Features { features: u64, ioctls: u64 },
    /// A structure's result field is negative though the call succeeded: no kernel does that, but a log may say it.
    Minus(u64),
    /// It failed. `bytes` is the result field of its structure, where the log has it and it is not negative.
    Failed { errno: Errno, bytes: Option<u64> },
    /// A signal ended it before it did anything.
    Interrupted,
}

/// What a line says. `number` names a call in its process.
#[derive(Clone, Copy, PartialEq, Eq)]
pub enum Line {
    Begin {
        stamp: Stamp,
        number: u64,
        call: Call,
    },
    End {
        stamp: Stamp,
        number: u64,
        answer: Answer,
    },
    /// Call `number`, a read, has read a message.
    Read {
        stamp: Stamp,
        number: u64,
        message: Message,
    },
    /// What call `number`, a scan, found in a run of pages. Bits: 1 present, 2 swapped out or a marker, 4 write-protected.
    Have {
        stamp: Stamp,
        number: u64,
        start: u64,
        len: u64,
        bits: u64,
    },
    /// A descriptor that the recorder meets first here.
    Found {
        stamp: Stamp,
        on: Descriptor,
    },
    /// A descriptor that is closed or another file by a call that the recorder does not see.
    Dropped {
        stamp: Stamp,
        on: Descriptor,
    },
    /// The process runs a program. The words of its command are not kept.
    Started {
        stamp: Stamp,
        parent: u32,
    },
    /// The process begins as a copy of its parent.
    Forked {
        stamp: Stamp,
        parent: u32,
    },
    Exit {
        stamp: Stamp,
    },
    /// The number of lines that belong above this one and were not written.
    Lost(u64),
}

//! What a judge reads of a log, and the run that it found.

use uffd_log::{Answer, Call, Message};

/// A call: its number in the log, the address space that it changes, its thread, and whether it closes the last descriptor of its object.
/// `program` is the line where its process began, or began another program; 0 where the log does not have it.
#[derive(Clone, Copy, PartialEq, Eq)]
pub struct Made {
    pub key: u32,
    pub space: u32,
    pub thread: u32,
    pub program: u32,
    pub call: Call,
    pub last: bool,
}

/// A run of pages that a scan found, in bytes. Bits: 1 present, 2 swapped out or a marker, 4 write-protected.
#[derive(Clone, Copy)]
pub struct Run {
    pub start: u64,
    pub len: u64,
    pub bits: u64,
}

/// How a call ended: its answer, the messages that it has read, and the runs of pages that a scan found, in their order.
#[derive(Drop)]
pub struct Ending {
    pub answer: Answer,
    pub messages: Vec<Message>,
    pub runs: Vec<Run>,
}

/// A line of a log: a call begins, or the call with this number ends.
#[derive(Drop)]
pub enum Entry {
    Begins(Made),
    Ends { key: u32, ending: Ending },
}

/// A step of a run.
#[derive(Clone, Copy)]
pub enum Move {
    /// The next line of the log.
    Line,
    /// A call takes effect, with the ending that the log has in entry `at`, from 0 on.
    Effect {
        key: u32,
        at: usize,
    },
    /// A call that fills pages takes effect as one that was refused since the address space is changing, with the ending in entry `at`: EAGAIN,
    /// whatever the result field of that has.
    Refuses {
        key: u32,
        at: usize,
    },
    /// A read begins to take the messages of the ending in entry `at`, one after another.
    Starts {
        key: u32,
        at: usize,
    },
    /// Such a read takes the next of them.
    Reads {
        key: u32,
        at: usize,
    },
    /// A thread finds that it must wait at a page.
    Sees {
        thread: u64,
        object: u64,
        page: u64,
        flags: u64,
    },
    /// A thread queues its fault.
    Queues {
        thread: u64,
    },
    /// A thread leaves its fault.
    Leaves {
        thread: u64,
    },
    /// The next event of a map call is queued.
    Tells {
        key: u32,
    },
    /// A map call clears its pages.
    Clears {
        key: u32,
    },
    /// The kernel takes back a page of an object, for which MADV_FREE was called.
    Drops {
        object: u64,
        page: u64,
    },
    /// A UFFDIO_WRITEPROTECT that is under way protects this page of its range, and the others later.
    Protects {
        key: u32,
        page: u64,
    },
}

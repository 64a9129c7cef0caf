//! Operations.

use mig_base::Addr;

/// The end of an operation whose end is not known: no operation begins after it.
pub const NEVER: u64 = 0xffff_ffff_ffff_ffff;

/// What gives the ticks of a history.
#[derive(Clone, Copy, PartialEq, Eq)]
pub enum Clock {
    /// A counter, which gives no tick twice.
    Counter,
    /// A clock such as the time stamp counter, which may: also for the begin and the end of one operation.
    Time,
}

/// What an operation did, and what it returned. Addresses and lengths are in bytes.
#[derive(Clone, Copy, PartialEq, Eq)]
pub enum Action {
    /// A load returned this value.
    Load {
        addr: Addr,
        width: u8,
        value: u64,
    },
    /// A store was made.
    Store {
        addr: Addr,
        width: u8,
        value: u64,
    },
    /// An atomic exchange found one value, and stored another in its place.
    Swap {
        addr: Addr,
        width: u8,
        value: u64,
        found: u64,
    },
    /// Pages that can be read and written were mapped at this address: mmap(2) with MAP_FIXED.
    Map {
        addr: Addr,
        len: u64,
    },
    /// The pages of a range were unmapped: munmap(2).
    Unmap {
        addr: Addr,
        len: u64,
    },
    /// The pages of a range became zeros: MADV_DONTNEED of madvise(2).
    Discard {
        addr: Addr,
        len: u64,
    },
}

/// An operation of a thread: it took effect after its clock gave the tick `begin`, and before that gave the tick `end`.
#[derive(Clone, Copy, PartialEq, Eq)]
pub struct Operation {
    pub begin: u64,
    /// [`NEVER`] if it is not known.
    pub end: u64,
    pub action: Action,
    /// The number of its line, counted from 1. Of operations of one thread that have one tick for all, the line says which it made first.
    pub line: u32,
    pub thread: u8,
}

//! Numbers for threads that a log does not name: from 2^31 on, where the log's own end.

/// Those whose message names none, by a count of them.
const UNNAMED: u64 = 1 << 63;

/// Those whose fault nobody has read, by a count of them.
const STRANGERS: u64 = 1 << 62;

/// A thread that its fault's message names.
pub(crate) fn named_thread(thread: u64) -> Option<u32> {
    let thread = u32::try_from(thread).ok()?;
    if thread == 0 || thread >= 1 << 31 {
        return None;
    }
    Some(thread)
}

/// A new thread whose message names none.
pub(crate) fn unnamed(count: u64) -> u64 {
    UNNAMED | (count & (STRANGERS - 1))
}

/// Whether a thread is one whose message names none.
pub(crate) fn is_unnamed(thread: u64) -> bool {
    thread & UNNAMED != 0
}

/// A new thread whose fault nobody reads.
pub(crate) fn stranger(count: u64) -> u64 {
    STRANGERS | (count & (STRANGERS - 1))
}

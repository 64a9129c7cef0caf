//! The processors that a call of a userfault object wakes.

use crate::Addr;

/// The processors that a call of a userfault object wakes, given by the range on which they sleep: `struct uffdio_range` of
/// ioctl_userfaultfd(2).
#[derive(Clone, Copy, Debug, PartialEq, Eq)]
pub enum Wake {
    /// None.
    Nobody,
    /// Those that sleep on a page of the `len` bytes from `start` on. Both are in bytes, and multiples of the page size.
    Range { start: Addr, len: u64 },
}

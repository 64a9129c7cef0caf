//! The numbers in the calls of a userfault object, as in `linux/userfaultfd.h`. A constant whose name ends in `_BIT` is the
//! place of a bit, which [`has_bit`] tests; the others are whole words.

pub use foundation::has_bit;

/// UFFD_API, for which a handshake asks.
pub const API: u64 = 0xaa;

/// UFFD_FEATURE_PAGEFAULT_FLAG_WP: faults of write-protected pages.
pub const PAGEFAULT_FLAG_WP_BIT: u32 = 0;

/// UFFD_FEATURE_EVENT_REMAP: a message for a range that mremap moved.
pub const EVENT_REMAP_BIT: u32 = 2;

/// UFFD_FEATURE_EVENT_REMOVE: a message for a range whose pages madvise dropped.
pub const EVENT_REMOVE_BIT: u32 = 3;

/// UFFD_FEATURE_EVENT_UNMAP: a message for a range that is no longer mapped.
pub const EVENT_UNMAP_BIT: u32 = 6;

/// UFFD_FEATURE_THREAD_ID: the message of a page fault names the thread.
pub const THREAD_ID_BIT: u32 = 8;

/// The features of the three events.
pub const EVENT_FEATURES: u64 = (1 << EVENT_REMAP_BIT)
    | (1 << EVENT_REMOVE_BIT)
    | (1 << EVENT_UNMAP_BIT);

/// All features: those of the events, faults of write-protected pages, and the thread of a fault.
pub const ALL_FEATURES: u64 = EVENT_FEATURES | (1 << PAGEFAULT_FLAG_WP_BIT) | (1 << THREAD_ID_BIT);

/// UFFDIO_REGISTER_MODE_MISSING.
pub const REGISTER_MISSING_BIT: u32 = 0;

/// UFFDIO_REGISTER_MODE_WP.
pub const REGISTER_WP_BIT: u32 = 1;

/// UFFDIO_COPY_MODE_DONTWAKE, and UFFDIO_ZEROPAGE_MODE_DONTWAKE.
pub const INSTALL_DONTWAKE_BIT: u32 = 0;

/// UFFDIO_COPY_MODE_WP: the pages are write-protected as they are put.
pub const COPY_WP_BIT: u32 = 1;

/// UFFDIO_WRITEPROTECT_MODE_WP: the pages become write-protected. Without it their write protection is cleared.
pub const WRITEPROTECT_WP_BIT: u32 = 0;

/// UFFDIO_WRITEPROTECT_MODE_DONTWAKE.
pub const WRITEPROTECT_DONTWAKE_BIT: u32 = 1;

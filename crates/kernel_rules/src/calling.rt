//! What map calls under way must tell objects, and have still to do.

use uffd_log::Message;

/// An object to which a call has anything to tell.
#[derive(Clone, Copy)]
pub struct Told {
    pub key: u64,
    pub object: u64,
}

/// An event of a call that is not read. The ranks of a call's events are in their order.
#[derive(Clone, Copy)]
pub struct Untold {
    pub key: u64,
    pub rank: usize,
    pub object: u64,
    pub message: Message,
}

/// Pages of a space that a call must announce or clear: those from `first` on below `end`. `frees` says that the kernel may take them
/// back then, MADV_FREE, in place of clearing them.
#[derive(Clone, Copy)]
pub struct Span {
    pub key: u64,
    pub space: u64,
    pub first: u64,
    pub end: u64,
    pub frees: bool,
}

/// A page that a UFFDIO_WRITEPROTECT under way has protected before its others.
#[derive(Clone, Copy)]
pub struct Protecting {
    pub key: u64,
    pub page: u64,
}

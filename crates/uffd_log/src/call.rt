//! Calls on userfault objects and on the address spaces that they watch, and the messages of the objects. Names and bits are those of
//! userfaultfd(2), ioctl_userfaultfd(2) and of each call's manual page. Addresses and lengths are in bytes.

/// A descriptor of a userfault object, in the process that uses it.
#[derive(Clone, Copy, PartialEq, Eq)]
pub struct Descriptor {
    /// The object, by its number in the log.
    pub object: u64,
    pub fd: u32,
}

/// A call.
#[derive(Clone, Copy, PartialEq, Eq)]
pub enum Call {
    /// userfaultfd(2), or USERFAULTFD_IOC_NEW on the device.
    Open {
        device: bool,
        flags: u64,
    },
    /// UFFDIO_API.
    Api {
        on: Descriptor,
        api: u64,
        features: u64,
    },
    /// UFFDIO_REGISTER.
    Register {
        on: Descriptor,
        start: u64,
        len: u64,
        mode: u64,
    },
    /// UFFDIO_UNREGISTER.
    Unregister {
        on: Descriptor,
        start: u64,
        len: u64,
    },
    /// UFFDIO_WAKE.
    Wake {
        on: Descriptor,
        start: u64,
        len: u64,
    },
    /// UFFDIO_COPY: to the address `to` of the object's space, from `from` of the caller's.
    Copy {
        on: Descriptor,
        to: u64,
        from: u64,
        len: u64,
        mode: u64,
    },
    /// UFFDIO_MOVE.
    Move {
        on: Descriptor,
        to: u64,
        from: u64,
        len: u64,
        mode: u64,
    },
    /// UFFDIO_ZEROPAGE.
    ZeroPage {
        on: Descriptor,
        start: u64,
        len: u64,
        mode: u64,
    },
    /// UFFDIO_CONTINUE.
    Continue {
        on: Descriptor,
        start: u64,
        len: u64,
        mode: u64,
    },
    /// UFFDIO_POISON.
    Poison {
        on: Descriptor,
        start: u64,
        len: u64,
        mode: u64,
    },
    /// UFFDIO_WRITEPROTECT.
    WriteProtect {
        on: Descriptor,
        start: u64,
        len: u64,
        mode: u64,
    },
    /// read(2) of `room` bytes; `None` where the log does not say how many.
    Read {
        on: Descriptor,
        room: Option<u64>,
    },
    /// One descriptor of a poll(2).
    Poll {
        on: Descriptor,
    },
    /// O_NONBLOCK is set or cleared.
    NonBlock {
        on: Descriptor,
        set: bool,
    },
    /// dup(2), or dup2(2) to `target`.
    Dup {
        on: Descriptor,
        target: Option<u32>,
    },
    Close {
        on: Descriptor,
    },
    /// The recorder reads which pages are present. No call of the program.
    Scan {
        on: Descriptor,
        start: u64,
        len: u64,
    },
    Mmap {
        addr: u64,
        len: u64,
        prot: u64,
        flags: u64,
    },
    Munmap {
        addr: u64,
        len: u64,
    },
    Mremap {
        addr: u64,
        old_len: u64,
        new_len: u64,
        flags: u64,
        target: u64,
    },
    Madvise {
        addr: u64,
        len: u64,
        advice: u64,
    },
    Fork,
}

/// A message that read(2) returned.
#[derive(Clone, Copy, PartialEq, Eq)]
pub enum Message {
    /// UFFD_EVENT_PAGEFAULT: `flags` as in `struct uffd_msg`; `thread` is 0 without UFFD_FEATURE_THREAD_ID.
    Fault { addr: u64, flags: u64, thread: u32 },
    /// UFFD_EVENT_FORK: the child's object, with its descriptor in the reader's process.
    Fork { child: Descriptor },
    /// UFFD_EVENT_REMAP.
    Remap { from: u64, to: u64, len: u64 },
    /// UFFD_EVENT_REMOVE: `end` is the first address after the range.
    Remove { start: u64, end: u64 },
    /// UFFD_EVENT_UNMAP: `end` is the first address after the range.
    Unmap { start: u64, end: u64 },
}

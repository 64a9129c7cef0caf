//! The messages of a userfault object.

ghost use Rattle.std.specs.Prelude.{◌≡◌};
ghost use Rattle.mig_base.specs.Messages.{message_bytes, event_bytes, fault_flags};

use crate::Addr;
use byteorder::{ByteOrder, LittleEndian};

/// A message that a reader of a userfault object gets, as `uffd_msg` of userfaultfd(2). Addresses and lengths are in bytes, and multiples
/// of the page size.
#[derive(Clone, Copy, Debug, PartialEq, Eq)]
pub enum Message {
    /// UFFD_EVENT_PAGEFAULT: a processor sleeps on the page at the address.
    PageFault {
        addr: Addr,
        /// UFFD_PAGEFAULT_FLAG_WRITE: a store caused it.
        write: bool,
        /// UFFD_PAGEFAULT_FLAG_WP: the page is write-protected. Otherwise it is missing.
        wp: bool,
        /// `ptid`: the thread that caused it, if UFFD_FEATURE_THREAD_ID was asked for. Otherwise 0.
        tid: u32,
    },
    /// UFFD_EVENT_REMAP: mremap moved a range.
    Remap {
        from: Addr,
        to: Addr,
        len: u64,
    },
    /// UFFD_EVENT_REMOVE: madvise made the pages of a range missing.
    Remove {
        start: Addr,
        end: Addr,
    },
    /// UFFD_EVENT_UNMAP: the pages of a range are no longer mapped, or were replaced.
    Unmap {
        start: Addr,
        end: Addr,
    },
}

impl Message {
    /// The 32 bytes in which a reader of the object gets the message: `struct uffd_msg` of userfaultfd(2). The event is the
    /// first byte, and its numbers follow from the ninth on, 8 bytes each, the lowest byte first. The other bytes are 0.
    pub fn to_bytes(self) -> [u8; 32]
        ensures { result ≡ message_bytes self }
    {
        match self {
            Message::PageFault {
                addr,
                write,
                wp,
                tid,
            } => with_numbers(0x12, flags(write, wp), addr, u64::from(tid)),
            Message::Remap { from, to, len } => with_numbers(0x14, from, to, len),
            Message::Remove { start, end } => with_numbers(0x15, start, end, 0),
            Message::Unmap { start, end } => with_numbers(0x16, start, end, 0),
        }
    }
}

/// The flags of a page fault: UFFD_PAGEFAULT_FLAG_WRITE is bit 0, UFFD_PAGEFAULT_FLAG_WP bit 1.
fn flags(write: bool, wp: bool) -> u64
    ensures { result ≡ fault_flags write wp }
{
    let by_store = if write { 1 } else { 0 };
    let protected = if wp { 2 } else { 0 };
    by_store + protected
}

/// The bytes of an event with its three numbers.
fn with_numbers(event: u8, first: u64, second: u64, third: u64) -> [u8; 32]
    ensures { result ≡ event_bytes event first second third }
{
    let mut bytes = [0; 32];
    bytes[0] = event;
    LittleEndian::write_u64(&mut bytes[8..], first);
    LittleEndian::write_u64(&mut bytes[16..], second);
    LittleEndian::write_u64(&mut bytes[24..], third);
    bytes
}

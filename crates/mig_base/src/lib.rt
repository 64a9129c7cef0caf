//! The types that every crate of the migration shares.
//!
//! Addresses, pages and protections; the commands of processors and the replies to them; the steps of a world and their
//! outcomes, in [`schedule`], [`effect`], [`refusal`], [`fault`], [`phase`], [`cpu_state`] and [`counts`]; [`act::Act`], how a handler
//! resolves a page fault; [`Message`], which a userfault object reports, [`Wake`], the processors that its calls wake, and [`flags`], the
//! numbers of these calls; [`PageSet`], a set of pages, with its iterators in [`iter`], [`PageBytes`], the bytes of one page, and
//! [`zeros`], the test for bytes that are all zero. Refusals, effects, replies and messages are `Display`: `specs/Texts.antt` defines
//! their texts.
//! The definition `specs/Flat.antt` says what the commands do to one flat memory, after mmap(2), munmap(2), mremap(2) and
//! madvise(2). This crate executes no command.
#![tactic(auto)]

ghost use Rattle.std.specs.Prelude.{◌≡◌, ◌+◌, ◌*◌, ◌/◌};
ghost use Rattle.mig_base.specs.Flat as flat;
ghost use Rattle.foundation.specs.declared.TheConstants.{PAGE_SIZE};

pub mod act;
pub mod chunk;
mod chunks;
pub mod command;
pub mod counts;
pub mod cpu_state;
pub mod effect;
pub mod fault;
pub mod flags;
pub mod iter;
pub mod laws;
pub mod message;
pub mod page_bytes;
pub mod page_set;
pub mod phase;
pub mod refusal;
pub mod schedule;
mod slots;
mod texts;
pub mod wake;
mod words;
pub mod zeros;

pub use crate::command::{Access, Command, Entry, Errno, Place, Reply};
pub use crate::message::Message;
pub use crate::page_bytes::PageBytes;
pub use crate::page_set::PageSet;
pub use crate::phase::WorldPhase;
pub use crate::wake::Wake;
pub use foundation::{NoMemory, PAGE_SIZE};

/// An address of the guest, in bytes.
pub type Addr = u64;

/// A page by its number: its first address divided by [`PAGE_SIZE`]. Pages lie below [`HIGH_PAGE`].
pub type PageNo = u32;

/// The size of a page, [`PAGE_SIZE`], as a `usize`, for the length of an array.
pub const PAGE_BYTES: usize = 4096;

/// The lowest address that may be mapped.
pub const LOW: u64 = 0x10000;

/// The end of the address space: no address from here on may be mapped.
pub const HIGH: u64 = 0x1_0000_0000;

/// The page at [`LOW`].
pub const LOW_PAGE: u32 = 0x10;

/// The page at [`HIGH`].
pub const HIGH_PAGE: u32 = 0x10_0000;

/// The greatest number of pages that may be mapped.
pub const MAX_PAGES: u32 = 262_144;

/// The greatest number of processors of a guest.
pub const MAX_CPUS: u8 = 16;

/// The greatest number of pages that are sent in one run.
pub const MAX_RUN: u8 = 64;

/// What a mapping permits, as `prot` of mmap(2).
#[derive(Clone, Copy, Debug, PartialEq, Eq)]
pub enum Prot {
    /// PROT_NONE.
    NoAccess,
    /// PROT_READ: loads.
    Read,
    /// PROT_READ with PROT_WRITE: loads and stores.
    ReadWrite,
}

impl Prot {
    /// Whether the protection permits loads.
    pub fn allows_load(self) -> bool
        ensures { result ≡ flat.allows_load self }
    {
        match self {
            Prot::NoAccess => false,
            Prot::Read | Prot::ReadWrite => true,
        }
    }

    /// Whether the protection permits stores.
    pub fn allows_store(self) -> bool
        ensures { result ≡ flat.allows_store self }
    {
        match self {
            Prot::NoAccess | Prot::Read => false,
            Prot::ReadWrite => true,
        }
    }
}

/// The first address of a page, in bytes.
pub fn page_address(page: PageNo) -> Addr
    ensures { result ≡ PAGE_SIZE * page }
{
    u64::from(page) * PAGE_SIZE
}

/// The number of the page of `start + len`, also if that lies past the greatest address. `len` is in bytes.
pub fn end_page(start: Addr, len: u64) -> u64
    ensures { result ≡ (start + len) / PAGE_SIZE }
{
    start / PAGE_SIZE + len / PAGE_SIZE + (start % PAGE_SIZE + len % PAGE_SIZE) / PAGE_SIZE
}

/// A run of pages with one protection.
#[derive(Clone, Copy, Debug, PartialEq, Eq)]
pub struct Area {
    pub first: PageNo,
    /// Pages, at least 1.
    pub count: u32,
    pub prot: Prot,
}

/// A run of pages.
#[derive(Clone, Copy, Debug, PartialEq, Eq)]
pub struct Run {
    pub first: PageNo,
    /// Pages, at least 1.
    pub count: u32,
}

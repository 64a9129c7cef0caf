//! The commands of processors, and the replies to them.

ghost use Rattle.std.specs.Prelude.{◌≡◌, ◌<◌, ◌^◌, nat_lt, true};
ghost use Rattle.mig_base.specs.Commands as commands;
ghost use Rattle.mig_base.specs.Flat as flat;
ghost use Rattle.mig_base.specs.declared.TheConstants.{HIGH_PAGE};

use crate::{Addr, PAGE_SIZE, PageNo, Prot};

/// An error number of Linux.
#[derive(Clone, Copy, Debug, PartialEq, Eq)]
pub enum Errno {
    Eperm = 1,
    Enoent = 2,
    Eagain = 11,
    Enomem = 12,
    Efault = 14,
    Eexist = 17,
    Einval = 22,
}

/// Where a new mapping goes.
#[derive(Clone, Copy, Debug, PartialEq, Eq)]
pub enum Place {
    /// At the least address where it fits.
    Anywhere,
    /// At this address, replacing what is mapped there: MAP_FIXED of mmap(2).
    Fixed(Addr),
    /// At this address, if nothing is mapped there: MAP_FIXED_NOREPLACE of mmap(2).
    NoReplace(Addr),
}

/// What a processor asks of its address space. Addresses, lengths and widths are in bytes; lengths are rounded up to whole pages.
#[derive(Clone, Copy, Debug, PartialEq, Eq)]
pub enum Command {
    /// Reads the little-endian number of `width` bytes.
    Load {
        addr: Addr,
        width: u8,
    },
    /// Replaces `width` bytes by those of a number, the lowest first.
    Store {
        addr: Addr,
        width: u8,
        value: u64,
    },
    /// Maps pages of zeros, as mmap(2) does for anonymous private memory.
    Mmap {
        addr_len: u64,
        prot: Prot,
        place: Place,
    },
    /// Unmaps the pages of a range, as munmap(2) does.
    Munmap {
        addr: Addr,
        len: u64,
    },
    /// Grows, shrinks or moves a range, as mremap(2) does: `may_move` is MREMAP_MAYMOVE, and a `fixed` target is that of
    /// MREMAP_FIXED.
    Mremap {
        addr: Addr,
        old_len: u64,
        new_len: u64,
        may_move: bool,
        fixed: Option<Addr>,
    },
    /// Makes the pages of a range zeros again, as MADV_DONTNEED of madvise(2) does.
    DontNeed {
        addr: Addr,
        len: u64,
    },
}

impl Command {
    /// Whether it is a load or a store.
    pub fn is_access(self) -> bool
        ensures { result ≡ commands.is_access self }
    {
        matches!(self, Command::Load { .. } | Command::Store { .. })
    }

    /// Whether it is a store.
    pub fn is_store(self) -> bool
        ensures { result ≡ commands.is_store self }
    {
        matches!(self, Command::Store { .. })
    }

    /// The page that a load or store inside the address space touches. 0 for a map call.
    pub fn page(self) -> PageNo
        requires { commands.page_of self < HIGH_PAGE }
        ensures { result ≡ commands.page_of self }
    {
        match self {
            Command::Load { addr, .. } | Command::Store { addr, .. } => (addr
                / PAGE_SIZE) as PageNo,
            _ => 0,
        }
    }
}

/// The reply to a command.
#[derive(Clone, Copy, Debug, PartialEq, Eq)]
pub enum Reply {
    /// The number that a load read.
    Value(u64),
    /// A store or a map call was made.
    Done,
    /// A mapping was made or resized, and begins at this address.
    At(Addr),
    /// An access to a page that is not mapped, or whose protection forbids it: SIGSEGV. `mapped` says whether the page is mapped.
    Segv { mapped: bool },
    /// An access whose form is wrong: its width is not 1, 2, 4 or 8 bytes, its address is not a multiple of the width, or its value does
    /// not fit.
    BadAccess,
    /// A map call failed.
    Refused(Errno),
}

/// How a load or store ends in an address space that a userfault object watches.
#[derive(Clone, Copy, Debug, PartialEq, Eq)]
pub enum Access {
    /// It is answered.
    Answered(Reply),
    /// The page is missing and registered for missing faults: the processor sleeps until it is woken, and tries again.
    Missing,
    /// The page is write-protected and registered for that: the processor sleeps likewise.
    Protected,
}

/// A command that took effect, its processor and its reply.
#[derive(Clone, Copy, Debug, PartialEq, Eq)]
pub struct Entry {
    pub cpu: u8,
    pub command: Command,
    pub reply: Reply,
}

/// Whether an access of that width is aligned at the address: the width is 1, 2, 4 or 8 bytes, and the address is a multiple of it.
pub fn is_aligned(addr: Addr, width: u8) -> bool
    ensures { result ≡ flat.is_aligned addr width }
{
    matches!(width, 1 | 2 | 4 | 8) && addr % u64::from(width) == 0
}

/// Whether a number fits in `width` bytes, which are 1, 2, 4 or 8.
pub fn fits(value: u64, width: u8) -> bool
    ensures { flat.is_width width ≡ true → result ≡ nat_lt value (256 ^ width) }
{
    match width {
        1 => value <= 0xff,
        2 => value <= 0xffff,
        4 => value <= 0xffff_ffff,
        _ => true,
    }
}

//! The results and errors of a userfault object's calls.

ghost use Rattle.std.specs.Prelude.{◌≡◌, ◌*◌, ◌<◌, Some, None};
ghost use Rattle.uffd_ioctl.specs.Puts.{put_result, own_fault};

use mig_base::{Addr, Errno, NoMemory, PAGE_SIZE, Wake};
use page_table::PutFault;
use thiserror::Error;

/// Why a call of a userfault object was refused.
#[derive(Clone, Copy, Debug, PartialEq, Eq, Error)]
pub enum IoctlFault {
    /// The error of ioctl_userfaultfd(2). The same call is refused again until something else changes the space.
    #[error("{}", phrase(*.0))]
    Errno(Errno),
    /// An allocation failed. The same call may succeed later.
    #[error("out of memory")]
    NoMemory,
}

impl From<NoMemory> for IoctlFault {
    ghost use Rattle.uffd_ioctl.specs.declared.fault.IoctlFault.{IoctlFault};

    ghost from_gives = { λ _ fault. fault ≡ IoctlFault.NoMemory };

    fn from(_refused: NoMemory) -> Self {
        IoctlFault::NoMemory
    }
}

/// What an error number of these calls means to their caller.
fn phrase(errno: Errno) -> &'static str {
    match errno {
        Errno::Einval =>
            "the object is not enabled for this call, or its range or mode is not valid",
        Errno::Eagain =>
            "the range is not done: read the waiting events, then go on from the first page left",
        Errno::Enoent => "the range is not registered for this call as one area",
        Errno::Eexist => "the first page of the range is already present",
        Errno::Enomem => "out of memory",
        Errno::Efault => "bad address",
        Errno::Eperm => "operation not permitted",
    }
}

/// The result of UFFDIO_COPY or UFFDIO_ZEROPAGE when it put the whole range.
#[derive(Clone, Copy, Debug, PartialEq, Eq)]
pub struct Copied {
    /// How many bytes were put: the whole range.
    pub bytes: u64,
    /// The processors to be woken.
    pub wake: Wake,
}

/// Why UFFDIO_COPY or UFFDIO_ZEROPAGE stopped, and what it did before: the pages that it put stay, and those who sleep on them
/// must be woken, as `wake` says.
#[derive(Clone, Copy, Debug, PartialEq, Eq, Error)]
#[error("{fault} after {copied} bytes")]
pub struct CopyFault {
    /// How many bytes were put before it stopped: a multiple of the page size.
    pub copied: u64,
    /// Why it stopped. If a page was put before, this is EAGAIN: call again from the first page left to learn the page's own error.
    pub fault: IoctlFault,
    /// The processors to be woken.
    pub wake: Wake,
}

/// The error of a call that was refused before it put any page.
pub(crate) fn refused(errno: Errno) -> CopyFault
    ensures { result ≡ record { copied = 0; fault = IoctlFault.Errno errno; wake = Wake.Nobody } }
{
    CopyFault {
        copied: 0,
        fault: IoctlFault::Errno(errno),
        wake: Wake::Nobody,
    }
}

/// The result of a call that put the first `done` pages from `start` on. `quiet` wakes nobody; `stop` is why it put no more, or
/// `None` if it put all.
pub(crate) fn outcome(
    start: Addr,
    done: u32,
    quiet: bool,
    stop: Option<PutFault>,
) -> Result<Copied, CopyFault>
    ensures { result ≡ put_result start done quiet stop }
{
    let bytes = u64::from(done) * PAGE_SIZE;
    let wake = if done == 0 || quiet {
        Wake::Nobody
    } else {
        Wake::Range { start, len: bytes }
    };
    match stop {
        None => Ok(Copied { bytes, wake }),
        Some(stop) => {
            let fault = if done == 0 {
                own_fault(stop)
            } else {
                IoctlFault::Errno(Errno::Eagain)
            };
            Err(CopyFault {
                copied: bytes,
                fault,
                wake,
            })
        }
    }
}

/// The error of a call whose first page could not be put.
fn own_fault(stop: PutFault) -> IoctlFault
    ensures { result ≡ own_fault stop }
{
    match stop {
        PutFault::Present => IoctlFault::Errno(Errno::Eexist),
        PutFault::NoMemory => IoctlFault::NoMemory,
    }
}

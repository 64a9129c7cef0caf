//! The calls of a host: commands of the host protocol of `conformance/README.md`.

ghost use Rattle.std.specs.Prelude.{Some};
ghost use Rattle.host_calls.specs.Texts.{call_text};

use mig_base::Addr;
use std::fmt;

/// A call of a host: ioctl_userfaultfd(2), and read(2) of the userfaultfd. Addresses and lengths are in bytes, and multiples of the page
/// size. Its `Display` is the command of the host protocol. `HEX` there stands for the bytes of a copy, which the coordinator has.
#[derive(Clone, Copy, Debug, PartialEq, Eq)]
pub enum Call {
    /// userfaultfd(2), and UFFDIO_API with these features.
    Open { features: u64 },
    /// UFFDIO_REGISTER of a range in this mode.
    Register { addr: Addr, len: u64, mode: u64 },
    /// read(2) of one message.
    Read,
    /// UFFDIO_WAKE of a page.
    Wake { addr: Addr },
    /// UFFDIO_WAKE of a range.
    WakeRange { addr: Addr, len: u64 },
    /// UFFDIO_WRITEPROTECT of a range in this mode.
    WriteProtect { addr: Addr, len: u64, mode: u64 },
    /// UFFDIO_ZEROPAGE of a page with mode 0.
    ZeroPage { addr: Addr },
    /// UFFDIO_COPY of a page with mode 0.
    Copy { addr: Addr },
    /// No call of the userfaultfd: the bytes of a page are read.
    Page { addr: Addr },
}

impl fmt::Display for Call {
    ghost output = { λ x. Some (call_text x) };

    fn fmt<W: fmt::Write>(&self, f: &mut fmt::Formatter<W>) -> fmt::Result {
        match *self {
            Call::Open { features } => write!(f, "open 0x{features:x}"),
            Call::Register { addr, len, mode } => write!(f, "register 0x{addr:x} {len} {mode}"),
            Call::Read => write!(f, "read"),
            Call::Wake { addr } => write!(f, "wake 0x{addr:x} 4096"),
            Call::WakeRange { addr, len } => write!(f, "wake 0x{addr:x} {len}"),
            Call::WriteProtect { addr, len, mode } => {
                write!(f, "writeprotect 0x{addr:x} {len} {mode}")
            }
            Call::ZeroPage { addr } => write!(f, "zeropage 0x{addr:x} 4096 0"),
            Call::Copy { addr } => write!(f, "copy 0x{addr:x} 0 HEX"),
            Call::Page { addr } => write!(f, "page 0x{addr:x}"),
        }
    }
}

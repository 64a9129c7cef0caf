//! A page fault that a handler has read and not resolved yet.

ghost use Rattle.std.specs.Prelude.{◌≡◌, ◌*◌, ◌↔◌, true, IfOk};

use mig_base::{Addr, NoMemory, PAGE_SIZE};
use std::alloc::Global;
use std::collections::VecDeque;
use std::marker::Model;

/// A page fault: its page, and whether it is a write-protect fault.
#[derive(Drop, PartialEq, Eq)]
pub struct PageFault {
    page: u64,
    wp: bool,
}

impl Model for PageFault {
    ghost use Rattle.std.specs.Prelude.{◌*◌, ◌<◌, ◌^◌};
    ghost use Rattle.mig_model.specs.Guest as machine;
    ghost use Rattle.uffd_ioctl.specs.PageFaults.{coded_fault};

    ghost Value = { machine.Fault };

    ghost coded = { coded_fault };

    ghost view = { λ fault. record { page = fault.page; wp = fault.wp } };

    ghost inverse = { λ fault. record { page = fault.page; wp = fault.wp } };

    ghost invariant = { λ fault. 4096 * fault.page < 2 ^ 64 };
}

impl PageFault {
    ghost use Rattle.std.specs.Prelude.{◌/◌};

    /// A fault on the page of an address: a write-protect fault if `wp`, else a missing fault.
    pub fn new(addr: Addr, wp: bool) -> Self
        ensures { result ≡ record { page = addr / 4096; wp = wp } }
    {
        PageFault {
            page: addr / PAGE_SIZE,
            wp,
        }
    }

    /// An equal fault.
    pub fn copy(&self) -> Self
        ensures { result ≡ self.now }
    {
        PageFault {
            page: self.page,
            wp: self.wp,
        }
    }

    /// The page number, which may lie past the address space.
    pub fn page(&self) -> u64
        ensures { result ≡ self.now.page }
    {
        self.page
    }

    /// The address at which its page begins.
    pub fn addr(&self) -> Addr
        ensures { result ≡ 4096 * self.now.page }
    {
        self.page * PAGE_SIZE
    }

    /// Whether the page was write-protected. Otherwise it was missing.
    pub fn is_protected(&self) -> bool
        ensures { result ≡ self.now.wp }
    {
        self.wp
    }
}

/// A copy of the faults that a handler holds. `NoMemory` if the allocation fails.
pub fn copy_faults(
    alloc: Global,
    faults: &VecDeque<PageFault>,
) -> Result<VecDeque<PageFault>, NoMemory>
    ensures { IfOk result (λ copy. copy.items ≡ faults.now.items) }
{
    let mut copy = VecDeque::with_capacity(alloc, faults.len())?;
    for i in 0..faults.len() {
        copy.push_back(faults[i].copy())?;
    }
    Ok(copy)
}

/// Whether a handler holds the same faults as another, in the same order.
pub fn are_same_faults(faults: &VecDeque<PageFault>, others: &VecDeque<PageFault>) -> bool
    ensures { (result ≡ true) ↔ (faults.now.items ≡ others.now.items) }
{
    faults == others
}

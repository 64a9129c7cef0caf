//! What a node lends: a space whose object is enabled, and three processors.

ghost use Rattle.uffd_ioctl.specs.Lent.{IsLent};

use mig_base::flags::{ALL_FEATURES, API};
use std::alloc::Global;
use uffd_ioctl::Space;
use vcpu::{Cpus, NewFault};

/// A space on which nothing is mapped, whose object is enabled.
pub fn opened(alloc: Global) -> Space
    ensures { IsLent result }
{
    let mut space = Space::new(alloc);
    let _ = space.handshake(API, ALL_FEATURES);
    space
}

/// Three idle processors, where memory is refused asked for again.
pub fn new_cpus(alloc: Global) -> Result<Cpus, NewFault> {
    match Cpus::new(alloc, 3) {
        Err(NewFault::NoMemory) => Cpus::new(alloc, 3),
        answer => answer,
    }
}

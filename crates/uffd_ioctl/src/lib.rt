//! An address space with its userfault object, and the calls of both.
//!
//! [`Space`] makes the loads, stores and map calls of processors, after mmap(2), munmap(2), mremap(2) and madvise(2), and the calls
//! of userfaultfd(2) and ioctl_userfaultfd(2), API 0xAA, in the missing and the write-protect mode. What each call answers, and how
//! it changes the space, is a row of the tables `specs/Space.antt` and `specs/Ioctls.antt` of the crate `mig_model`; each call of
//! this crate is one row.
//!
//! The crate has no processors: it reports a page fault and queues its message, and it reports whom a call wakes ([`Wake`]); the
//! caller acts on both. It knows no other host.
//!
//! The modules follow: `access` (the number of a load), `map_calls` (what map calls answer), `remap` (moving a range), `events`
//! (how map calls change the object), `arguments` (ranges and flags of the object's calls), `register`, `install` and `protect`
//! (what these calls do over a range), `fault` (their results and errors), `space` (the type that callers see, with its calls in three
//! families), `lent` (making pages present in a space that a node of a migration lends), `page_fault` (a fault that a handler holds), and
//! [`laws`] (what holds of a lent space across all calls).
#![tactic(auto)]

mod access;
mod arguments;
mod events;
mod fault;
mod install;
pub mod laws;
mod lent;
mod map_calls;
mod page_fault;
mod protect;
mod register;
mod remap;
pub mod space;

pub use crate::fault::{Copied, CopyFault, IoctlFault};
pub use crate::lent::{install_page, make_zeros};
pub use crate::page_fault::{PageFault, are_same_faults, copy_faults};
pub use crate::space::Space;
pub use mig_base::{Access, Message, Wake};
pub use userfault::Mode;

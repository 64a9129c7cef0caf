//! A [`Host`]: the mapped and the present pages of one address space. It executes loads, stores and map calls, after mmap(2),
//! munmap(2), mremap(2) and madvise(2), as one flat memory does. Transcripts are checked with it.
//!
//! It is a `uffd_ioctl::Space` whose userfault object is not enabled. Nothing here reads, prints or waits.
#![tactic(auto)]

mod host;

pub use host::Host;

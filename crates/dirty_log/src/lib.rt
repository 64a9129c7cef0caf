//! What the source of a migration knows about its pages: QEMU's dirty bitmap, for a guest with a userfault object.
//!
//! [`DirtyLog`] owns three sets of pages, clean, todo and ever sent, and the faults that the source's handler has read and not
//! resolved yet. A page is clean from the moment at which it is write-protected and sent, until the handler lets a write to it continue or
//! reads an event that changed it; the next round of pre-copy skips it. The source owns the address space and the processors, and lends
//! them to the calls.
//!
//! The crate deliberately knows no frames, no wire and no epoch: a call returns what to send for a page, which is either its bytes,
//! which stay in the space, or that they are zeros; or it returns the bytes of a run. The crate prescribes no order of its own calls.
//!
//! Contracts see a log as the machine's (`mig_model`, `specs/Log.antt`), and each call as what the machine does with log, space and
//! processors, or as a refusal that changes nothing; `specs/Answers.antt` says when each is refused. The modules follow: `log` (the
//! type that callers see, and its calls in two families: `rounds` and `handler`), `page_content` (what is sent for a page), `bytes` (the
//! bytes of pages), `spaces` (the log's calls of a space), and `sets` (removing pages from a set).
#![tactic(auto)]

mod bytes;
pub mod laws;
pub mod log;
mod page_content;
mod sets;
mod spaces;

pub use crate::log::DirtyLog;
pub use crate::page_content::PageContent;

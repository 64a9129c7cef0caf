//! Userfault objects: which pages are registered, and the messages that wait for a reader.
//!
//! [`Userfault`] is one object of userfaultfd(2): whether the handshake was made and for which features, the pages that are
//! registered in each [`Mode`], and two queues of unread [`Message`]s, one for page faults and one for the other events, each
//! message with the processor that caused it. Pages are registered and forgotten as ioctl_userfaultfd(2) says of
//! UFFDIO_REGISTER and UFFDIO_UNREGISTER. Page faults are read before events, and each kind in the order of its queue.
//!
//! The crate deliberately knows no more. It has no mappings and no bytes, so it takes a range on trust; no processors, so it
//! wakes none; and no commands, so its callers decide which message a command causes and whether the features of the
//! handshake ask for it. The one feature that it reads is UFFD_FEATURE_THREAD_ID, for the thread of a page fault.
//!
//! Contracts see an object as the record `Object` of `mig_base`, and each call is one step of its `specs/Userfault.antt`.
//! The modules follow: `noted` (an unread message, and a queue of them), `modes` (sets of pages after a range was
//! registered or moved), and `object` (the type that callers see).
#![tactic(auto)]

mod modes;
mod noted;
pub mod object;

pub use crate::modes::Mode;
pub use crate::object::Userfault;
pub use mig_base::Message;

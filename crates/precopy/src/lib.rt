//! The source of a migration: the node whose memory moves.
//!
//! [`Source`] owns the guest at the source, which is an address space with its userfault object and the processors. It also owns what
//! it knows about its pages, and its progress: pre-copy in rounds, the switch, and the pages that it pushes once it has stopped. It
//! knows no wire: a call returns its effect and the frames to send, or the page to send, whose bytes stay in the space. The caller moves
//! the frames, and knows whether the link is up.
//!
//! Contracts see a source as the machine's (`mig_model`, `specs/Source.antt`), and each call as the source's own step of its name (there,
//! `specs/SourceSteps.antt`; of a command, `specs/GuestSteps.antt`): it has the same effect, the same frames and the same source after it,
//! or the same refusal; or memory runs out and nothing changes. A frame that comes back is taken, and answered, as the machine does.
#![tactic(auto, unfolding(mig_model::specs::NodeSteps::unless))]

mod fault;
pub mod laws;
pub mod source;

pub use crate::fault::SourceFault;
pub use crate::source::Source;

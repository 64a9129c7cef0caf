//! A source and a destination of their own: each in its own process, with the frames that it has sent and that were not collected yet.
//!
//! A [`Posting`] has the node of `precopy` or `fault_handler`, and a wire; a [`Traced`] has also the lines of its steps. Each step is the
//! node's own. The frames that it sends wait on the wire, in version 2 of the format, until [`SourceNode::drop_sent`] or
//! [`DestinationNode::drop_sent`]; but a page or a run is sent by the caller, who has the bytes. Frames come as their texts, without the
//! bytes of pages (`heads`): a node is handed a page as one of zeros, so that it decides in the world whose stores all store 0.
//!
//! `specs/SourceCalls.antt` and `specs/DestinationCalls.antt` define what each call gives.
#![tactic(auto, unfolding(mig_model::specs::NodeSteps::unless))]

mod destination;
mod fault;
mod heads;
pub mod laws;
mod posting;
mod source;
mod steps;
mod trace;
mod traced;
mod traced_destination;
mod traced_source;

pub use crate::destination::DestinationNode;
pub use crate::fault::FrameFault;
pub use crate::posting::Posting;
pub use crate::source::SourceNode;
pub use crate::steps::{DestinationStep, SourceStep};
pub use crate::trace::TraceLine;
pub use crate::traced::Traced;
pub use crate::traced_destination::TracedDestination;
pub use crate::traced_source::TracedSource;

//! The destination of a migration: the node that the memory moves to.
//!
//! [`Destination`] keeps the copies of pages that come before it runs, and builds the guest's address space from the Package. From then
//! on it resolves the page faults of its processors: it requests an owed page, installs a copy that arrives where its page belongs
//! now, and makes zeros of any other missing page. It knows no wire: a call returns its effect and the frames to send. The caller
//! moves the frames, and knows whether the link is up.
//!
//! Contracts see a destination as the machine's (`mig_model`, `specs/Destination.antt`). A frame is taken as the machine takes it, or
//! refused for the machine's reason. Each other call is the destination's step of the same name (`mig_model`,
//! `specs/DestinationSteps.antt` and `specs/GuestSteps.antt`): it is made, or it is refused for the step's reason or lack of memory, and
//! changes nothing.
#![tactic(auto)]

mod act;
mod arrival;
pub mod destination;
mod kept;
pub mod laws;
mod messages;
mod requests;

pub use crate::destination::Destination;

//! The wires between the nodes of a migration.
//!
//! A [`Wire`] goes one way. One node appends frames, each with the epoch in which it was sent; the other takes the first frame once all
//! bytes of its text have come. The wire keeps their order, and loses frames only when it is cleared. A sender reserves room before it
//! changes, so that its frames are never refused afterwards.
//!
//! Contracts see the machine's wire (`mig_model`, `specs/Wire.antt`), its bytes in the pieces in which they are lent, and the room
//! (`specs/Lanes.antt`).
#![tactic(auto)]

mod chunks;
pub mod sent;
pub mod wire;

pub use crate::sent::Sent;
pub use crate::wire::Wire;

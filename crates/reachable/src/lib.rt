//! All states that the moves of a system reach from a first one, breadth first.
//!
//! [`reach`] follows each move from each state that it finds, and keeps the states that differ, each with the moves that lead to it.
//! A [`System`] says what a move does to a state, and whether two states are equal. Where the walk ends without a fault, what it found is
//! every state that some list of moves leads to, each once: `specs/Reachable.antt` says it.
#![tactic(auto)]

mod found;
mod system;
mod walk;

pub use crate::found::{Found, Reached};
pub use crate::system::System;
pub use crate::walk::{ReachFault, reach};

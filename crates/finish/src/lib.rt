//! Completes a migration from any world: which step is due next, and all of them in turn.
//!
//! That a migration can be completed from every world is a law of `mig_model` (`a_migration_can_complete`). This crate has the steps:
//! [`next_to_finish`] names the one that is due, and [`finish`] makes them until the migration is complete. It uses the public calls
//! of [`world::World`] alone. No step is a command of a processor, a break, or a round of pre-copy, and the transcript stays as it was.
//!
//! `specs/Finishing.antt` has the strategy as a function of the world, and how many steps are left at most; [`laws`] says that
//! each step of it is accepted, and leaves fewer, and which steps it never has.
#![tactic(auto)]

mod completion;
pub mod laws;
mod next_step;

pub use crate::completion::finish;
pub use crate::next_step::next_to_finish;

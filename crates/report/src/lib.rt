//! Reporting on runs: checking that a transcript is that of one flat memory.
//!
//! [`check`] replays entries on a `hosts::Host`, and names the first whose reply is wrong; `specs/Checks.antt` defines the answer, over the
//! flat memory of `mig_base`. [`laws`] says that there is only one. The lines of a transcript are those of `grammar`, whose
//! [`print_entry`] and [`EntryText`] have their names here too.
//!
//! The crate owns no state. It runs no world, knows no migration, and does no input or output.
#![tactic(auto)]

pub mod check;
pub mod laws;

pub use crate::check::CheckFault;
pub use grammar::{EntryText, print_entry};

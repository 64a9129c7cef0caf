//! Random scripts of migrations that get far.
//!
//! [`run_explore`] writes a script of as many lines as its [`Plan`] says. It keeps a world, draws orders that this world would make, and
//! about one in ten that it would refuse, prints each as a line of a script, and makes its step. A [`Profile`] says of which steps there
//! are more. The draws come from a generator with a seed: the same plan gives the same script on every machine.
//! `docs/EXPLORE.md` explains it, `specs/Explorations.antt` defines what is written, and [`laws`] says that it is a script.
//!
//! [`meet_all`] draws nothing: it walks all schedules of a small world, and writes a script for each refusal that they meet.
//!
//! The modules: `plan` (what the caller chooses), `weights` (what a profile means), `course` (what is fixed for one script), `commands` and
//! `steps` (the draws), `sweep` (the loads at the end), `sheet` (one line after the other), `run` (the whole script), `meetings` (what all
//! schedules meet).
#![tactic(auto)]

mod commands;
mod course;
pub mod laws;
mod meetings;
mod plan;
mod random;
mod run;
mod sheet;
mod steps;
mod sweep;
mod weights;

pub use crate::meetings::{Meeting, MetByAll, Tally, meet_all};
pub use crate::plan::{Plan, Profile, VERSION};
pub use crate::run::run_explore;

//! Runs a whole migration in threads: one for each processor of the guest, and those of the workers.
//!
//! [`run_world`] makes a world and a rig, and starts the workers and the processors. It switches while the processors make their calls,
//! and breaks the channel and resumes if asked to. Once all threads have ended, it closes the rig. [`run_threads`] writes a report of such
//! a run, which `specs/Report.antt` defines.
//!
//! The modules: `course` (the state of a run, and the workers' gate), `processor` (the calls of a processor), `sending` (the thread that
//! sends the owed pages of each epoch), `driver` (starts the threads, switches, cuts and resumes), `summary` (the report), `run` (all of
//! it in turn).
#![tactic(auto)]

mod course;
mod driver;
mod processor;
mod run;
mod sending;
mod summary;

pub use crate::course::Asked;
pub use crate::run::{Run, Scenario, run_threads, run_world};

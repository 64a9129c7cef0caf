//! Completes the migration of a script: the lines after it that finish it.
//!
//! [`finish_script`] runs a script, completes the migration of its world by the steps of the crate `finish`, and writes a line of a script
//! for each of them. `specs/Finished.antt` defines what is written, and [`laws`] says that the script with these lines after it is one
//! whose run ends with a complete migration.
//!
//! The crate names no file, no command line and no exit status: readers and writers are its callers'.
#![tactic(auto)]

pub mod ending;
pub mod laws;
mod run;

pub use crate::ending::Ending;
pub use crate::run::finish_script;

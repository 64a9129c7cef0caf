//! Scripts as tests: lines of a script, with the answers that they must have.
//!
//! [`test_script`] runs such a script on a world, and compares the output of each line with its answer, if it has one. It writes the
//! first that differs, and counts the answers; [`list_differences`] writes each that differs. [`answer_script`] writes a script with an
//! answer after each of its lines, and [`renew_answers`] replaces the answers of a test. `specs/Cases.antt` defines the lines of a test,
//! and `specs/Tests.antt` how a test ends. `docs/SCRIPT.md` says how a test is written.
//!
//! The crate names no file, no command line and no exit status: readers and writers are its callers'.
#![tactic(auto)]

mod answer;
mod cpus;
mod cut;
mod listing;
pub mod outcome;
mod player;
mod run;
mod tester;

pub use crate::answer::{Renewed, answer_script, echo_script, renew_answers};
pub use crate::cut::order_part;
pub use crate::listing::list_differences;
pub use crate::outcome::{Outcome, Tested};
pub use crate::run::test_script;

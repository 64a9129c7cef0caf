//! Lists every wrong line of a script or of a transcript, without running it.
//!
//! [`lint_lines`] reads a script or a transcript in pieces, and writes `NAME:LINE:COLUMN: reason` for each line that is not one of
//! its language. [`reason_of`] is the reason for one line; it takes no memory. `specs/Listing.antt` says what a listing is,
//! and [`laws`] that nothing is listed of a whole script or transcript, and of no other input.
//! `docs/SCRIPT.md` has the lines of both languages, and examples of reasons.
//!
//! The crate names no file, no command line and no exit status: readers and writers are its callers'.
#![tactic(auto)]

mod bytes;
mod form;
pub mod laws;
mod line_words;
mod linter;
mod near;
mod number;
mod output;
mod problem;
mod reason;
mod run;
mod walk;
mod wanted;

pub use crate::reason::{Reason, reason_of};
pub use crate::run::{Listed, lint_lines};

//! Judging a log of a real program's userfaultfd calls: for which answers no run of a kernel's rules was found, and what the monitor left undone.
//!
//! [`audit_log`] reads a log by `call_log`, looks for a run of the rules with exactly its answers, has that run checked, and writes
//! `NAME:LINE: finding` for all that it found, and a summary, or objects of JSON. docs/AUDIT.md says how to read it, and `specs/Verdicts.antt` what is promised.
//!
//! No contract says that a finding is right: what a line means is proved in `uffd_log`, what each step of a kernel does in `kernel_rules`,
//! and here that the code is safe and ends, and that a run is certified only where the checker of `kernel_rules` took it.
//!
//! The crate names no file, no command line and no exit status: readers and writers are its callers'.
#![tactic(auto)]

mod accesses;
mod audit;
mod cases;
mod certificate;
mod findings;
mod foresight;
mod history;
mod judging;
mod kernel;
mod moves;
mod needs;
mod notes;
mod polls;
mod rule_names;
mod run;
mod search;
mod summary;
mod tasks;
mod tellers;
mod texts;
mod threads;
mod trace_events;
mod waits;
mod wakes;
mod why;
mod work;

pub use crate::audit::{Asked, Form, Verdict, audit_log};

//! What a world holds at a line of a script, one line of text for each fact, or all in one JSON object.
//!
//! [`Asked::show_script`] runs a script up to a line, and writes the facts that it is asked for: what the processors wait for, what the
//! next reads, acts, installs and serves would take, which pages are owed, the frames on the wires, and the pages of both nodes.
//! `specs/Shown.antt` says which world that is, and `specs/Owed.antt` which lines the owed pages have. [`facts_of`] has the same text of a
//! world at hand. The world is only lent to the functions that write the facts, which look at it by its public calls; to see what is queued
//! they make steps on a copy. What the other facts say is promised by no clause.
//!
//! The crate names no file, no command line and no exit status: readers and writers are its callers'.
#![tactic(auto)]

mod channel;
mod cpus;
mod cut;
mod facts;
mod flight;
mod json;
mod owed;
mod pages;
mod queues;
mod run;
mod survey;
mod what;

pub use crate::facts::facts_of;
pub use crate::what::{Asked, Form, Span, What};

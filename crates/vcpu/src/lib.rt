//! The processors of a guest: what each of them does.
//!
//! [`Cpus`] owns the states of 1 to 16 processors. A processor is idle; or it sleeps on the page of a load or a store, as
//! userfaultfd(2) describes, until that page is woken; or it was woken and must try its load or store again; or it is in a
//! map call, which returns once all messages that it caused have been read.
//!
//! The crate deliberately knows no more. It has no memory and no userfault object, and it executes no command: its callers
//! decide the outcome of a command, and say which messages were read and which pages are woken.
//!
//! Contracts see the processors as a list of [`mig_base::cpu_state::CpuState`], and each call as a definition of `mig_model`'s
//! `specs/Cpus.antt`; `specs/Answers.antt` has what the calls answer that no step of the machine asks. The modules follow: `cpus` (the
//! type that callers see), `fault` (why processors could not be made), `messages` (what the reading of a message does to them), and
//! `sleepers` (whom a call wakes).
#![tactic(auto)]

mod cpus;
mod fault;
mod messages;
mod sleepers;

pub use crate::cpus::Cpus;
pub use crate::fault::NewFault;

//! The calls of the two hosts that the steps of a script stand for.
//!
//! [`run_steps`] runs a script as `engine::run_script` does, and writes after each line the calls of a host that its step stands for:
//! commands of the host protocol of `conformance/README.md`. [`list_calls`] lists them for one step. `specs/Calls.antt` defines them,
//! `specs/Texts.antt` their lines, and `specs/Stepped.antt` the output of a run. [`laws`] says that they do what the step does.
//!
//! The modules: `call` (a call), `listing` (the calls of a step), `stepper` (doing a line), `run` (reading a script).
#![tactic(auto)]

pub mod call;
pub mod laws;
pub mod listing;
mod run;
mod stepper;

pub use crate::call::Call;
pub use crate::listing::list_calls;
pub use crate::run::run_steps;

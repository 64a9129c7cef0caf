//! The bytes of a run: scripts that are run, while what each step puts on a wire is written down.
//!
//! [`Taps::run_tapped`] runs a script as `engine::run_script` does, and has three more writers: each gets the bytes that the steps
//! put on one of the three wires, in the order in which they were put, also those that a break then loses. So each gets whole frames.
//! `specs/Traffic.antt` defines these bytes, and [`laws`] says what they are in each step. `docs/FORMATS.md` has the frames.
//!
//! The modules: `marks` (how many bytes are in flight), `taps` (the writers), `run` (reading and running), `fault` (what ends a run early).
#![tactic(auto)]

mod fault;
pub mod laws;
mod marks;
mod run;
mod taps;

pub use crate::fault::{Channel, TapFault};
pub use crate::taps::Taps;

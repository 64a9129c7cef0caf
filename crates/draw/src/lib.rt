//! The picture of a run: one standalone SVG file.
//!
//! [`run_draw`] reads a script, makes its steps on a world, and writes a picture. `recorder` records what each step did, from its effect
//! and from public calls of `World`, so that nothing is inferred. The crate `diagram` paints what was recorded: its text is always that of
//! a tree of elements. `docs/DRAW.md` says what each colour and each mark means.
//!
//! The crate names no file, no command line and no exit status: readers and writers are its callers'.
#![tactic(auto)]

mod recorder;
mod run;

pub use crate::run::run_draw;

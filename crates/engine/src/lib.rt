//! Runs scripts of a migration on a world, and checks transcripts against one flat memory.
//!
//! [`run_script`] reads a script and writes one line for each order, or one for each command that took effect, as its [`Mode`] says.
//! [`check_script`] reads such a transcript, and says whether it is that of one flat memory. Both read and write in pieces.
//! [`Setup`] and [`NamedScript`] say how
//! one is run. A [`RunFault`] says what ended a run early. [`progress`] says how far a world's migration has come. [`ScriptReader`] finds the lines in
//! the bytes that are read, and [`LineRunner`] does each. [`line_reader`] reads the lines of any input, for other tools that work on lines,
//! and [`whole_input`] reads the whole of one first.
//! [`spell`] prints the line of a step. `specs/Script.antt` defines the output of a run, with the promises for the world in which it ends,
//! `specs/Checking.antt` that of a check, and `specs/Lines.antt` what is taken of an input; [`laws`] says that there is no other output.
//! `docs/SCRIPT.md` says what a script is.
//!
//! The crate names no file, no command line and no exit status: readers and writers are its callers'.
#![tactic(auto)]

pub mod check;
pub mod fault;
pub mod laws;
pub mod line_reader;
pub mod line_runner;
pub mod named_script;
pub mod run;
pub mod script_reader;
pub mod setup;
pub mod spelling;
pub mod whole_input;

pub use crate::check::check_script;
pub use crate::fault::RunFault;
pub use crate::line_runner::{LineRunner, Mode, progress};
pub use crate::named_script::NamedScript;
pub use crate::run::run_script;
pub use crate::script_reader::ScriptReader;
pub use crate::setup::Setup;
pub use crate::spelling::spell;

//! `postmig` runs, checks, draws and explores scripts of steps on a model of post-copy live migration.
//!
//! - `postmig run` reads a script and writes one line for each step, or with `--transcript` one for each command that took effect. With
//!   `--answers` it writes the script with these lines after its own, and with `--echo` beside them. With `--wire`, `--back` and `--urgent` files get what is put on
//!   the wires.
//! - `postmig finish` reads a script, and writes the lines that complete its migration.
//! - `postmig check` reads such a transcript, and says whether it is that of one flat memory, or with `--explain` or `--all` what is
//!   wrong with it.
//! - `postmig lint` lists the wrong lines of a script or a transcript.
//! - `postmig history` judges what threads did to a memory at once.
//! - `postmig frames` reads frames, and writes a destination's answer to each.
//! - `postmig draw` runs a script, and writes a picture of the run.
//! - `postmig show` runs a script up to a line, and writes what is there.
//! - `postmig explore` writes a random script, or with `--all` counts the states of a small world.
//! - `postmig test` runs scripts whose lines have answers, and names the answers that differ, or with `--write` replaces them.
//! - `postmig threads` reads nothing, runs a migration in threads, and writes a report.
//! - `postmig completion` writes the script by which a shell completes command lines.
//!
//! `docs/SCRIPT.md` defines scripts and transcripts, `docs/FORMATS.md` frames, `docs/EXPLORE.md` random scripts, `docs/THREADS.md` a run in
//! threads, and `docs/HISTORY.md` histories.
//!
//! `command_line` has the arguments of each, and `console` its files and streams. The exit statuses are those of `specs/Status.antt` here
//! and in `console`. Reading and writing is done by `engine` for scripts and transcripts, and by the crate of the same name for each other
//! command. `bench/check/programs.py` runs the program on arguments, files and input of many kinds.
#![tactic(auto)]

mod commands;
mod endings;
mod histories;
mod showing;
mod status;
mod walks;

use crate::commands::answer;
use std::process::ExitCode;

fn main(rt: HostRuntime) -> ExitCode {
    answer(&rt, &rt)
}

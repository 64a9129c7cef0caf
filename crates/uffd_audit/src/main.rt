//! `uffd-audit` judges the userfaultfd calls of a real program, by a log of them or by what strace has written.
//!
//! `docs/UFFDLOG.md` defines logs, and `docs/AUDIT.md` says what is found in them. The judging is done by `trace_audit` and `audit`, the
//! exit statuses are those of `specs/Status.antt`, and `streams` has files, pipes and what is said of them. `bench/check/programs.py` runs the program on
//! arguments, files and input of many kinds, and `progress.py` beside it on logs that are slow, at a terminal.
#![tactic(auto)]

mod arguments;
mod judging;
mod progress;
mod status;

use crate::judging::answer;
use std::process::ExitCode;

fn main(rt: HostRuntime) -> ExitCode {
    answer(&rt)
}

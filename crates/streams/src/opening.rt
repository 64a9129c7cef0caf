//! What a command opens, and how it says why that failed.

ghost use Rattle.std.specs.Prelude.{IsTrue};

use crate::input::Input;
use crate::watched::{Watched, say_reason};
use std::fs::File;
use std::io::{IsTerminal, Stdout};

/// What a command line says of a command's input.
#[derive(Clone, Copy)]
pub struct Given<'a> {
    /// The FILE that it names. None: standard input.
    pub file: Option<&'a str>,
    /// Whether the reasons of all faults are said, as with `--explain`.
    pub explains: bool,
}

/// Opens the FILE of a command, or standard input. Says on standard error why a file cannot be opened.
pub fn open_input<'a>(rt: &HostRuntime, given: Given<'a>) -> Option<Watched<'a, Input>> {
    match given.file {
        None => Some(standard_input(rt)),
        Some(name) => open_file(rt, name),
    }
}

/// Standard input.
pub fn standard_input(rt: &HostRuntime) -> Watched<'static, Input> {
    Watched::new("standard input", Input::Standard(rt.stdin()))
}

/// Opens a file, or standard input by the name `-`. Says on standard error why a file cannot be opened.
pub fn open_named<'a>(rt: &HostRuntime, name: &'a str) -> Option<Watched<'a, Input>> {
    if name == "-" {
        return Some(standard_input(rt));
    }
    open_file(rt, name)
}

/// Opens a file. Says on standard error why it cannot be opened.
pub fn open_file<'a>(rt: &HostRuntime, name: &'a str) -> Option<Watched<'a, Input>> {
    match File::open(rt, name) {
        Ok(file) => Some(Watched::new(name, Input::File(file))),
        Err(error) => {
            let _ = eprintln!(rt; "read fault");
            let _ = say_reason(rt, name, &error);
            None
        }
    }
}

/// Standard output.
pub fn open_output(rt: &HostRuntime) -> Watched<'static, Stdout> {
    Watched::new("standard output", rt.stdout())
}

/// Why reading ended where no read failed.
pub const TOO_MANY_READS: &str = "more than 4294967295 reads";

/// Whether the reasons of all faults are said: with `--explain`, or at a terminal. Otherwise they are said of a FILE alone, so that a
/// program that names none can compare all of standard error.
pub fn gives_reasons(rt: &HostRuntime, given: Given<'_>) -> bool
    ensures explained { IsTrue given.entry.explains → IsTrue result }
{
    if given.explains {
        return true;
    }
    rt.stderr().is_terminal()
}

/// Says on standard error why no more could be read, always of a FILE.
pub fn say_input<S>(rt: &HostRuntime, given: Given<'_>, input: &Watched<'_, S>) {
    if given.file.is_some() || gives_reasons(rt, given) {
        let _ = input.say_why(rt, TOO_MANY_READS);
    }
}

/// Says on standard error why no more could be written.
pub fn say_output(rt: &HostRuntime, given: Given<'_>, output: &Watched<'_, Stdout>) {
    if gives_reasons(rt, given) {
        let _ = output.say_why(rt, "no byte was taken");
    }
}

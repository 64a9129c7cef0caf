//! The script of a run, and how a command says why it ended early.

ghost use Rattle.std.specs.Prelude.{◌≡◌, ◌≤◌, true, false, IfOk, IfErr, OnOk};
ghost use Rattle.console.specs.Status.{answer_status, ends_tests, fault_status, lint_status, looked_status};

use crate::input::Script;
use crate::reasons::{say_wrong_line, say_wrong_lines};
use crate::status::status_of;
use crate::terminal::Terminal;
use engine::RunFault;
use grammar::Language;
use std::io::{IsTerminal, Stdout};
use streams::{
    ALL_DONE, BAD_COMMAND_OR_SCRIPT, Given, NOTHING_TO_JUDGE, TOO_MANY_READS, Watched,
    gives_reasons, open_input, say_input, say_output,
};

/// Opens the FILE of a run, or standard input. At a terminal a wrong line is named, and the run continues; an order may have an answer there
/// where that is asked for.
pub fn open_script<'a>(
    rt: &HostRuntime,
    given: Given<'a>,
    has_answers: bool,
) -> Option<Watched<'a, Script>> {
    let stdin = rt.stdin();
    if given.file.is_some() || !stdin.is_terminal() {
        let input = open_input(rt, given)?;
        let name = input.name();
        return Some(Watched::new(name, Script::Given(input.into_stream())));
    }
    let typed = Terminal::new(rt.alloc(), stdin, rt.stderr(), has_answers);
    Some(Watched::new("standard input", Script::Typed(typed)))
}

/// Says on standard error why a run or a check ended early, and returns its exit status.
pub fn end<S>(
    rt: &HostRuntime,
    given: Given<'_>,
    input: &Watched<'_, S>,
    output: &Watched<'_, Stdout>,
    outcome: Result<bool, RunFault>,
) -> u8
    ensures answer { IfOk outcome (λ answer. result ≡ answer_status answer) }
    ensures fault { IfErr outcome (λ fault. result ≡ fault_status fault) }
    ensures least { result ≤ 4 }
{
    if let Err(fault) = outcome {
        let _ = eprintln!(rt; "{fault}");
        match fault {
            RunFault::ReadFault => say_input(rt, given, input),
            RunFault::WriteFault => say_output(rt, given, output),
            RunFault::Line(_) | RunFault::NoMemory => {}
        }
    }
    status_of(outcome)
}

/// The same of a command that reads lines of a language: says also what is wrong with the line at which it ended.
pub fn end_at_lines<S>(
    rt: &HostRuntime,
    given: Given<'_>,
    input: &Watched<'_, S>,
    output: &Watched<'_, Stdout>,
    language: Language,
    outcome: Result<bool, RunFault>,
) -> u8
    ensures answer { IfOk outcome (λ answer. result ≡ answer_status answer) }
    ensures fault { IfErr outcome (λ fault. result ≡ fault_status fault) }
    ensures least { result ≤ 4 }
{
    let status = end(rt, given, input, output, outcome);
    if let Err(RunFault::Line(_)) = outcome {
        say_wrong_lines(rt, given, language);
    }
    status
}

/// The same of a listing of wrong lines.
pub fn end_lint<S>(
    rt: &HostRuntime,
    given: Given<'_>,
    input: &Watched<'_, S>,
    output: &Watched<'_, Stdout>,
    outcome: Result<bool, RunFault>,
) -> u8
    ensures answer { IfOk outcome (λ answer. result ≡ lint_status answer) }
    ensures fault { IfErr outcome (λ fault. result ≡ fault_status fault) }
    ensures least { result ≤ 4 }
{
    match outcome {
        Ok(false) => BAD_COMMAND_OR_SCRIPT,
        _ => end(rt, given, input, output, outcome),
    }
}

/// Says on standard error how many lines of the input of this name were looked at, where the reasons of faults are said too.
pub fn say_looked(rt: &HostRuntime, given: Given<'_>, name: &str, lines: u64) {
    if lines > 0 && gives_reasons(rt, given) {
        let _ = eprintln!(rt; "{name}: lines looked at: {lines}");
    }
}

/// Says on standard error that nothing was looked at, and what the input of this name lacks.
pub(crate) fn say_nothing(rt: &HostRuntime, name: &str, what: &str) {
    let _ = eprintln!(rt; "{name}: nothing was looked at: {what}");
}

/// The exit status of a command that must look at something: the one that it has otherwise, or if that is 0 that of one that has looked
/// at nothing, of which standard error then says what the input of this name lacks.
pub fn end_looked(rt: &HostRuntime, name: &str, what: &str, status: u8, has_looked: bool) -> u8
    ensures exact { result ≡ looked_status has_looked status }
    ensures least { status ≤ 6 → result ≤ 6 }
{
    if has_looked {
        return status;
    }
    if status > ALL_DONE {
        return status;
    }
    say_nothing(rt, name, what);
    NOTHING_TO_JUDGE
}

/// Says on standard error why a test could not be run to its end. A fault that ends all tests is returned.
pub(crate) fn end_test<S>(
    rt: &HostRuntime,
    name: &str,
    input: &Watched<'_, S>,
    fault: RunFault,
) -> Result<(), RunFault>
    ensures said { OnOk result (ends_tests fault ≡ false) }
    ensures left { IfErr result (λ left. (ends_tests fault ≡ true) × (left ≡ fault)) }
{
    match fault {
        RunFault::Line(line) => {
            let _ = eprintln!(rt; "{name}:{line}: not a line of a test");
            say_wrong_line(rt, name, line);
            Ok(())
        }
        RunFault::ReadFault => {
            let _ = eprintln!(rt; "{}", RunFault::ReadFault);
            let _ = input.say_why(rt, TOO_MANY_READS);
            Ok(())
        }
        RunFault::WriteFault | RunFault::NoMemory => Err(fault),
    }
}

/// The exit status of a command that has worked on files: this one, or that of the fault that ended it early, which is written to standard
/// error.
pub(crate) fn end_files(rt: &HostRuntime, ended: Result<(), RunFault>, status: u8) -> u8
    ensures whole { IfOk ended (λ _. result ≡ status) }
    ensures fault { IfErr ended (λ fault. result ≡ fault_status fault) }
    ensures least { status ≤ 6 → result ≤ 6 }
{
    match ended {
        Ok(()) => status,
        Err(fault) => {
            let _ = eprintln!(rt; "{fault}");
            status_of(Err(fault))
        }
    }
}

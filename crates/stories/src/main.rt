//! Plays stories: scripts and transcripts that lie in `data/`, each with what it must print beside it, and tests, whose answers stand in
//! their lines.
//!
//! The file `stories` names one a line, by a [`Kind`] and the name of its files. For each story one line goes to standard output,
//! which says whether the story printed what is stored, or how many answers of a test were compared; of a script and of a test also what a
//! check says of its transcript, or after how many lines its migration was finished. The exit status is 1 where one did not pass, and 2
//! where a file cannot be read. A further story is a line and its files. Runs have two processors.
#![tactic(auto)]

mod answered;
mod finished;

use crate::answered::{print_test, script_of};
use crate::finished::finish_prefixes;
use engine::{Mode, RunFault, Setup, check_script, run_script};
use grammar::Language;
use lint::{Listed, lint_lines};
use std::alloc::{AllocError, Global};
use std::process::ExitCode;
use std::{fs, io};

const CPUS: u8 = 2;

const DIFFERS: u8 = 1;

const NOT_PLAYED: u8 = 2;

/// What is done with the files of a story.
#[derive(Clone, Copy, PartialEq, Eq)]
enum Kind {
    /// `NAME.script` is run, and prints `NAME.out`.
    Run,
    /// `NAME.script` is run for its transcript, and prints `NAME.transcript`.
    Print,
    /// `NAME.transcript` is checked, which prints `NAME.out`.
    Check,
    /// Each line of `NAME.lines` is a script of its own. They print `NAME.out`.
    Lines,
    /// Each line of `NAME.entries` is a transcript of its own. Their checks print `NAME.out`.
    Entries,
    /// No line of `NAME.script` is listed as wrong.
    Lint,
    /// No line of `NAME.transcript` is listed as wrong.
    LintTranscript,
    /// The migration of `NAME.script` is finished from each of its prefixes.
    Finish,
    /// `NAME.test` is run as `postmig test` runs it. Its transcript is checked, and its migration is finished from each of its prefixes.
    Test,
}

impl Kind {
    fn from_word(word: &str) -> Option<Kind> {
        match word {
            "run" => Some(Kind::Run),
            "print" => Some(Kind::Print),
            "check" => Some(Kind::Check),
            "lines" => Some(Kind::Lines),
            "entries" => Some(Kind::Entries),
            "lint" => Some(Kind::Lint),
            "lint-transcript" => Some(Kind::LintTranscript),
            "finish" => Some(Kind::Finish),
            "test" => Some(Kind::Test),
            _ => None,
        }
    }

    /// What the name of the file ends with that is read.
    fn input(self) -> &'static str {
        match self {
            Kind::Run | Kind::Print | Kind::Lint | Kind::Finish => "script",
            Kind::Check | Kind::LintTranscript => "transcript",
            Kind::Lines => "lines",
            Kind::Entries => "entries",
            Kind::Test => "test",
        }
    }

    /// What the name of the file ends with that has what must be printed.
    fn output(self) -> &'static str {
        match self {
            Kind::Print => "transcript",
            _ => "out",
        }
    }
}

/// Puts the message of a fault after what was printed before it.
fn print_fault(
    alloc: Global,
    text: &mut Vec<u8>,
    fault: Option<RunFault>,
) -> Result<(), AllocError> {
    if let Some(fault) = fault {
        let line = format!(in alloc; "{fault}\n")?;
        text.extend_from_slice(line.as_bytes())?;
    }
    Ok(())
}

/// Prints what a run of a script prints after a text, and then its fault.
fn print_run(
    alloc: Global,
    text: &mut Vec<u8>,
    script: &[u8],
    mode: Mode,
) -> Result<(), AllocError> {
    let mut reader = script;
    let outcome = run_script(alloc, &mut reader, text, Setup { cpus: CPUS, mode });
    print_fault(alloc, text, outcome.err())
}

/// Prints what a check of a transcript prints after a text, and then its fault.
fn print_check(alloc: Global, text: &mut Vec<u8>, transcript: &[u8]) -> Result<(), AllocError> {
    let mut reader = transcript;
    let outcome = check_script(alloc, &mut reader, text);
    print_fault(alloc, text, outcome.err())
}

/// Prints the listing of a script or a transcript after a text, and then its fault.
fn print_listing(
    alloc: Global,
    text: &mut Vec<u8>,
    input: &[u8],
    language: Language,
) -> Result<(), AllocError> {
    let mut reader = input;
    let listed = Listed {
        name: "-",
        language,
    };
    let outcome = lint_lines(alloc, &mut reader, text, listed);
    print_fault(alloc, text, outcome.err())
}

/// Prints what a story of a kind prints, from what its file has.
fn printed(alloc: Global, kind: Kind, input: &[u8]) -> Result<Vec<u8>, AllocError> {
    let mut text = Vec::new(alloc);
    match kind {
        Kind::Run => print_run(alloc, &mut text, input, Mode::Lines)?,
        Kind::Print => print_run(alloc, &mut text, input, Mode::Transcript)?,
        Kind::Check => print_check(alloc, &mut text, input)?,
        Kind::Finish | Kind::Test => {}
        Kind::Lint => print_listing(alloc, &mut text, input, Language::Script)?,
        Kind::LintTranscript => print_listing(alloc, &mut text, input, Language::Transcript)?,
        Kind::Lines => {
            for line in input.split(|byte| *byte == b'\n') {
                print_run(alloc, &mut text, line, Mode::Lines)?;
            }
        }
        Kind::Entries => {
            for line in input.split(|byte| *byte == b'\n') {
                print_check(alloc, &mut text, line)?;
            }
        }
    }
    Ok(text)
}

/// What a check says of the transcript of a script, without its line feed.
fn verdict(alloc: Global, script: &[u8]) -> io::Result<String> {
    let mut transcript = Vec::new(alloc);
    let mut reader = script;
    let setup = Setup {
        cpus: CPUS,
        mode: Mode::Transcript,
    };
    let _ = run_script(alloc, &mut reader, &mut transcript, setup);
    let mut text = Vec::new(alloc);
    print_check(alloc, &mut text, &transcript)?;
    let text = String::from_utf8_lossy(alloc, &text)?;
    Ok(text.trim_end().to_string(alloc)?)
}

fn read(rt: &HostRuntime, name: &str, ending: &str) -> io::Result<Vec<u8>> {
    let path = format!(in rt.alloc(); "{name}.{ending}")?;
    fs::read(rt, path.as_str())
}

/// Plays a story, and says whether it printed what is stored.
fn play(rt: &HostRuntime, kind: Kind, name: &str) -> io::Result<bool> {
    let input = read(rt, name, kind.input())?;
    let stored = match kind {
        Kind::Lint | Kind::LintTranscript => Vec::new(rt.alloc()),
        _ => read(rt, name, kind.output())?,
    };
    Ok(printed(rt.alloc(), kind, &input)? == stored)
}

/// Finishes a script from each of its prefixes, and ends the line with how it went.
fn print_finished(rt: &HostRuntime, script: &[u8]) -> io::Result<bool> {
    match finish_prefixes(rt.alloc(), script) {
        Ok(lines) => println!(rt; "finished after 0 to {lines} lines")?,
        Err(lines) => {
            println!(rt; "NOT FINISHED after {lines} lines")?;
            return Ok(false);
        }
    }
    Ok(true)
}

/// Finishes the script of a story, and prints how it went.
fn play_finish(rt: &HostRuntime, line: &str, name: &str) -> io::Result<bool> {
    let script = read(rt, name, Kind::Finish.input())?;
    print!(rt; "{line}: ")?;
    print_finished(rt, &script)
}

/// Plays a test, and prints how many answers were compared, what a check says of its transcript, and after how many lines its migration
/// was finished; or what the test says of an answer that differs.
fn play_test(rt: &HostRuntime, line: &str, name: &str) -> io::Result<bool> {
    let test = read(rt, name, Kind::Test.input())?;
    let mut text = Vec::new(rt.alloc());
    let answers = print_test(rt.alloc(), &mut text, &test, name)?;
    if !text.is_empty() {
        let text = String::from_utf8_lossy(rt.alloc(), &text)?;
        println!(rt; "{line}: {}", text.trim_end())?;
        return Ok(false);
    }
    let script = script_of(rt.alloc(), &test)?;
    let verdict = verdict(rt.alloc(), &script)?;
    print!(rt; "{line}: {answers} answers, transcript {verdict}, ")?;
    print_finished(rt, &script)
}

/// Plays the story of a line, and prints how it went.
fn play_line(rt: &HostRuntime, line: &str) -> io::Result<bool> {
    let Some((word, name)) = line.split_once(' ') else {
        println!(rt; "{line}: not a story")?;
        return Ok(false);
    };
    let Some(kind) = Kind::from_word(word) else {
        println!(rt; "{line}: not a story")?;
        return Ok(false);
    };
    match kind {
        Kind::Finish => return play_finish(rt, line, name),
        Kind::Test => return play_test(rt, line, name),
        _ => {}
    }
    let same = play(rt, kind, name)?;
    let says = if same { "as stored" } else { "DIFFERS" };
    if kind == Kind::Run {
        let verdict = verdict(rt.alloc(), &read(rt, name, kind.input())?)?;
        println!(rt; "{line}: {says}, transcript {verdict}")?;
    } else {
        println!(rt; "{line}: {says}")?;
    }
    Ok(same)
}

/// Plays all stories, and says whether each printed what is stored.
fn play_all(rt: &HostRuntime) -> io::Result<bool> {
    let stories = fs::read_to_string(rt, "stories")?;
    let mut all = true;
    for line in stories.lines() {
        all &= play_line(rt, line)?;
    }
    Ok(all)
}

fn main(rt: HostRuntime) -> ExitCode {
    match play_all(&rt) {
        Ok(true) => ExitCode::SUCCESS,
        Ok(false) => ExitCode::from(DIFFERS),
        Err(error) => {
            let _ = eprintln!(&rt; "stories: {error}");
            ExitCode::from(NOT_PLAYED)
        }
    }
}

//! The commands of the program: what each reads, runs and writes, and its exit status.

ghost use Rattle.std.specs.Prelude.{◌≡◌, ◌≤◌, true, false, IfSome, IfNone};

use crate::endings::{end_frames, end_script, end_tapped};
use crate::histories::judge;
use crate::showing::show;
use crate::walks::walk;
use clap::ArgMatches;
use clap::error::ErrorKind;
use command_line::{Shell, command_line, completion};
use console::{
    Bounded, LONGEST_LISTED, Painted, Script, Scripts, TestAsks, end, end_at_lines, end_lint,
    end_looked, open_script, paint_for, renew_files, say_looked, say_wrong_line, test_files,
};
use draw::run_draw;
use engine::line_runner::write_out;
use engine::script_reader::MAX_LINE;
use engine::{Mode, NamedScript, RunFault, Setup, check_script, run_script};
use expected::{answer_script, echo_script};
use explain::{Asks, NotingReader, explain_script};
use explore::{Plan, Profile, run_explore};
use finishing::{Ending, finish_script};
use frames::run_frames;
use grammar::Language;
use host_calls::run_steps;
use lint::{Listed, lint_lines};
use rig::CloseFault;
use std::alloc::AllocError;
use std::env::Env;
use std::io::Stdout;
use std::process::ExitCode;
use std::sync::Wait;
use std::thread::Threads;
use std::{env, io};
use streams::{
    ALL_DONE, BAD_COMMAND_OR_SCRIPT, Given, NO_FLAT_RUN, NO_MEMORY, READ_OR_WRITE_FAULT, Tap,
    Watched, can_tap, make_tap, name_bad_argument, open_input, open_output,
};
use threads::{Run, Scenario, run_threads};
use wiretap::Taps;

/// What a script lacks in which there is nothing to look at.
pub(crate) const NO_LINE: &str = "no line of a script";

/// The FILE of a command. None: standard input, which also has the name `-`.
fn file_of<'a>(matches: &ArgMatches<'a>) -> Option<&'a str> {
    let name = matches.get_str("file")?;
    if name == "-" {
        return None;
    }
    Some(name)
}

/// What is wrong with a command line of `explore` that has no seed.
const NO_SEEDS: &str =
    "one of these arguments is required:\n  --seed <S>\n  --seeds <A:B>\n  --all";

/// What is wrong with the seeds of a command line.
const BAD_SEEDS: &str =
    "invalid value for '--seeds <A:B>': not two seeds, of which the second is not below the first";

/// What the command line says of a command's input.
pub(crate) fn given_by<'a>(matches: &ArgMatches<'a>) -> Given<'a> {
    Given {
        file: file_of(matches),
        explains: matches.get_flag("explain"),
    }
}

/// The names of the files that get what is put on the wires of a run.
fn taps_named<'a>(matches: &ArgMatches<'a>) -> [Option<&'a str>; 3] {
    [
        matches.get_str("wire"),
        matches.get_str("back"),
        matches.get_str("urgent"),
    ]
}

/// Makes these files. Says on standard error why one of them cannot be made.
fn make_taps<'a>(
    rt: &HostRuntime,
    input: Option<&str>,
    names: &[Option<&'a str>; 3],
) -> Option<Taps<Watched<'a, Tap>>> {
    if !can_tap(rt, input, names) {
        return None;
    }
    let [forward, back, urgent] = *names;
    Some(Taps {
        forward: make_tap(rt, forward)?,
        back: make_tap(rt, back)?,
        urgent: make_tap(rt, urgent)?,
    })
}

/// Runs a script.
fn run(rt: &HostRuntime, matches: &ArgMatches) -> u8
    ensures { result ≤ 6 }
{
    let Some(cpus @ 1..=16) = matches.get_one::<u8>("cpus") else {
        return BAD_COMMAND_OR_SCRIPT;
    };
    let mode = if matches.get_flag("transcript") {
        Mode::Transcript
    } else {
        Mode::Lines
    };
    let setup = Setup { cpus, mode };
    let given = given_by(matches);
    let Some(mut input) = open_script(rt, given, matches.get_flag("answers")) else {
        return READ_OR_WRITE_FAULT;
    };
    let mut output = open_output(rt);
    let taps = taps_named(matches);
    if taps.iter().any(|name| name.is_some()) {
        return run_with_taps(rt, given, &taps, &mut input, &mut output, setup);
    }
    if matches.get_flag("answers") || matches.get_flag("echo") {
        return run_with_answers(rt, matches, input, &mut output, cpus);
    }
    let ran = if matches.get_flag("steps") {
        run_steps(rt.alloc(), &mut input, &mut output, cpus)
    } else {
        run_script(rt.alloc(), &mut input, &mut output, setup)
    };
    let outcome = ran.map(|()| true);
    end_at_lines(rt, given, &input, &output, Language::Script, outcome)
}

/// Writes each script of an input with the answer of each line: as a test, or in a column beside it.
fn answer_scripts(
    rt: &HostRuntime,
    scripts: &mut Scripts<Watched<'_, Script>>,
    output: &mut Watched<'_, Stdout>,
    cpus: u8,
    matches: &ArgMatches,
) -> Result<(), RunFault>
    requires low { 1 ≤ cpus }
    requires high { cpus ≤ 16 }
{
    for _ in 0..u64::MAX {
        let answered = if matches.get_flag("echo") {
            echo_script(rt.alloc(), scripts, output, cpus)
        } else {
            answer_script(rt.alloc(), scripts, output, cpus)
        };
        if let Err(fault) = answered {
            return Err(scripts.in_input(fault));
        }
        if !scripts.advance()? {
            break;
        }
    }
    Ok(())
}

/// Runs the scripts of an input, and writes them with the answer of each line.
fn run_with_answers(
    rt: &HostRuntime,
    matches: &ArgMatches,
    input: Watched<'_, Script>,
    output: &mut Watched<'_, Stdout>,
    cpus: u8,
) -> u8
    requires low { 1 ≤ cpus }
    requires high { cpus ≤ 16 }
    ensures { result ≤ 6 }
{
    let Ok(mut scripts) = Scripts::new(rt.alloc(), input) else {
        let _ = eprintln!(rt; "{}", RunFault::NoMemory);
        return NO_MEMORY;
    };
    let answered = answer_scripts(rt, &mut scripts, output, cpus, matches);
    let outcome = answered.map(|()| true);
    let given = given_by(matches);
    let status = end(rt, given, scripts.input(), output, outcome);
    if let Err(RunFault::Line(number)) = outcome
        && let Some(name) = given.file
    {
        say_wrong_line(rt, name, number);
    }
    status
}

/// Runs a script, with files for what is put on its wires.
fn run_with_taps(
    rt: &HostRuntime,
    given: Given<'_>,
    names: &[Option<&str>; 3],
    input: &mut Watched<'_, Script>,
    output: &mut Watched<'_, Stdout>,
    setup: Setup,
) -> u8
    requires low { 1 ≤ setup.cpus }
    requires high { setup.cpus ≤ 16 }
    ensures { result ≤ 6 }
{
    let Some(mut taps) = make_taps(rt, given.file, names) else {
        return READ_OR_WRITE_FAULT;
    };
    let outcome = taps.run_tapped(rt.alloc(), input, output, setup);
    end_tapped(rt, given, input, output, &taps, outcome)
}

/// Writes the lines that finish a script.
fn finish(rt: &HostRuntime, matches: &ArgMatches) -> u8
    ensures { result ≤ 6 }
{
    let Some(cpus @ 1..=16) = matches.get_one::<u8>("cpus") else {
        return BAD_COMMAND_OR_SCRIPT;
    };
    let given = given_by(matches);
    let Some(mut input) = open_input(rt, given) else {
        return READ_OR_WRITE_FAULT;
    };
    let mut output = open_output(rt);
    let outcome = finish_script(rt.alloc(), &mut input, &mut output, cpus).map(|ending| ending
        == Ending::Complete);
    end_at_lines(rt, given, &input, &output, Language::Script, outcome)
}

/// Checks a transcript: for its verdict, or for what is asked for beyond that. A strict check has to look at an entry.
fn check_input(rt: &HostRuntime, matches: &ArgMatches) -> u8
    ensures { result ≤ 6 }
{
    let asks = Asks {
        all: matches.get_flag("all"),
        reasons: matches.get_flag("explain"),
    };
    let given = given_by(matches);
    let Some(mut input) = open_input(rt, given) else {
        return READ_OR_WRITE_FAULT;
    };
    let mut output = open_output(rt);
    let is_strict = matches.get_flag("strict");
    let (outcome, is_empty) = if asks.all || asks.reasons || is_strict {
        let mut reader = NotingReader::new(rt.alloc(), &mut input);
        match explain_script(rt.alloc(), &mut reader, &mut output, asks) {
            Ok(verdict) => (Ok(verdict.is_flat), verdict.entries == 0),
            Err(fault) => (Err(fault), false),
        }
    } else {
        (check_script(rt.alloc(), &mut input, &mut output), false)
    };
    let status = end_at_lines(rt, given, &input, &output, Language::Transcript, outcome);
    end_looked(
        rt,
        input.name(),
        "no entry",
        status,
        !is_strict || !is_empty,
    )
}

/// Lists the wrong lines of a script or a transcript, by the name of their file, or `-`.
fn lint(rt: &HostRuntime, matches: &ArgMatches) -> u8
    ensures { result ≤ 6 }
{
    let (language, lacks) = if matches.get_flag("transcript") {
        (Language::Transcript, "no entry")
    } else {
        (Language::Script, NO_LINE)
    };
    let given = given_by(matches);
    let Some(input) = open_input(rt, given) else {
        return READ_OR_WRITE_FAULT;
    };
    let mut reader = Bounded::new(input, LONGEST_LISTED);
    let mut output = open_output(rt);
    let mut painted = Painted::new(&mut output, paint_for(rt, &rt.stdout()));
    let name = given.file.unwrap_or("-");
    let listed = Listed { name, language };
    let outcome = lint_lines(rt.alloc(), &mut reader, &mut painted, listed);
    let input = reader.input();
    let status = end_lint(rt, given, input, &output, outcome);
    if outcome.is_ok() {
        say_looked(rt, given, input.name(), reader.looked_at());
    }
    end_looked(rt, input.name(), lacks, status, reader.has_lines())
}

/// Hands frames to a destination. A strict command differs where one was refused, and has to look at one.
fn take_frames(rt: &HostRuntime, matches: &ArgMatches) -> u8
    ensures { result ≤ 6 }
{
    let Some(cpus @ 1..=16) = matches.get_one::<u8>("cpus") else {
        return BAD_COMMAND_OR_SCRIPT;
    };
    let given = given_by(matches);
    let Some(mut input) = open_input(rt, given) else {
        return READ_OR_WRITE_FAULT;
    };
    let mut output = open_output(rt);
    let outcome = run_frames(rt.alloc(), &mut input, &mut output, cpus);
    let status = end_frames(rt, given, &input, &output, outcome);
    if !matches.get_flag("strict") {
        return status;
    }
    if let Ok(refused @ 1..) = outcome {
        let _ = eprintln!(rt; "{}: refused frames: {refused}", input.name());
        return NO_FLAT_RUN;
    }
    end_looked(rt, input.name(), "no frame", status, !input.is_unused())
}

/// Draws the run of a script, by the name of its file, or `-`.
fn draw_script(rt: &HostRuntime, matches: &ArgMatches) -> u8
    ensures { result ≤ 6 }
{
    let Some(cpus @ 1..=16) = matches.get_one::<u8>("cpus") else {
        return BAD_COMMAND_OR_SCRIPT;
    };
    let given = given_by(matches);
    let Some(input) = open_input(rt, given) else {
        return READ_OR_WRITE_FAULT;
    };
    let mut reader = Bounded::new(input, MAX_LINE);
    let mut output = open_output(rt);
    let name = given.file.unwrap_or("-");
    let outcome = run_draw(
        rt.alloc(),
        &mut reader,
        &mut output,
        NamedScript { name, cpus },
    );
    end_script(rt, given, &reader, &output, outcome)
}

/// The seeds that `postmig explore` is given: the first and the last.
fn seeds_of(matches: &ArgMatches) -> Option<(u64, u64)>
    ensures { IfSome result (λ seeds. seeds.0 ≤ seeds.1) }
{
    let Some(seeds) = matches.get_str("seeds") else {
        let seed = matches.get_one::<u64>("seed")?;
        return Some((seed, seed));
    };
    let (first, last) = seeds.split_once(':')?;
    let first = first.parse::<u64>().ok()?;
    let last = last.parse::<u64>().ok()?;
    if first > last {
        return None;
    }
    Some((first, last))
}

/// The exploration of a seed that the other arguments of `postmig explore` ask for.
fn plan_of(matches: &ArgMatches, seed: u64) -> Option<Plan> {
    Some(Plan {
        seed,
        steps: matches.get_one::<u32>("lines")?,
        cpus: matches.get_one::<u8>("cpus").unwrap_or(2),
        profile: Profile::named(matches.get_str("profile")?)?,
        pages: matches.get_one::<u16>("pages").unwrap_or(8),
        finish: matches.get_flag("finish"),
        sweep: matches.get_flag("sweep"),
        answers: matches.get_flag("answers"),
    })
}

/// Writes the scripts of the plan's seed and of those after it up to the last.
fn explore_seeds(
    rt: &HostRuntime,
    output: &mut Watched<'_, Stdout>,
    plan: &Plan,
    last: u64,
) -> Result<(), RunFault>
    requires low { 1 ≤ plan.now.cpus }
    requires high { plan.now.cpus ≤ 16 }
    requires some { 1 ≤ plan.now.pages }
    requires few { plan.now.pages ≤ 4096 }
{
    for seed in plan.seed..=last {
        let plan = Plan { seed, ..*plan };
        run_explore(rt.alloc(), output, &plan)?;
    }
    Ok(())
}

/// Writes random scripts, one after the other, or walks all schedules of a small world.
fn explore(rt: &HostRuntime, matches: &ArgMatches) -> u8
    ensures { result ≤ 6 }
{
    if matches.get_flag("all") {
        return walk(rt, matches);
    }
    let Some((first, last)) = seeds_of(matches) else {
        let reason = match matches.get_str("seeds") {
            Some(_) => BAD_SEEDS,
            None => NO_SEEDS,
        };
        let _ = eprintln!(rt; "error: {reason}");
        return BAD_COMMAND_OR_SCRIPT;
    };
    let Some(plan) = plan_of(matches, first) else {
        return BAD_COMMAND_OR_SCRIPT;
    };
    if plan.cpus == 0 || plan.cpus > 16 || plan.pages == 0 || plan.pages > 4096 {
        return BAD_COMMAND_OR_SCRIPT;
    }
    let given = given_by(matches);
    let Some(input) = open_input(rt, given) else {
        return READ_OR_WRITE_FAULT;
    };
    let mut output = open_output(rt);
    let outcome = explore_seeds(rt, &mut output, &plan, last);
    end(rt, given, &input, &output, outcome.map(|()| true))
}

/// Tests each FILE, or standard input; with `--write` replaces the answers of each FILE.
fn test(rt: &HostRuntime, matches: &ArgMatches) -> u8
    ensures { result ≤ 6 }
{
    let Some(cpus @ 1..=16) = matches.get_one::<u8>("cpus") else {
        return BAD_COMMAND_OR_SCRIPT;
    };
    let files = matches.get_strs("file");
    if matches.get_flag("write") {
        return renew_files(rt, files.unwrap_or(&[]), cpus);
    }
    let asks = TestAsks {
        is_strict: matches.get_flag("strict"),
        names_all: matches.get_flag("all"),
        is_tap: matches.get_flag("tap"),
    };
    test_files(rt, files, asks, cpus)
}

/// Runs a migration in threads.
fn run_in_threads<T: Threads + Wait + Sync>(
    rt: &HostRuntime,
    handle: &T,
    matches: &ArgMatches,
) -> u8
    ensures { result ≤ 6 }
{
    let Some(cpus @ 1..=16) = matches.get_one::<u8>("cpus") else {
        return BAD_COMMAND_OR_SCRIPT;
    };
    let Some(calls) = matches.get_one::<u16>("calls") else {
        return BAD_COMMAND_OR_SCRIPT;
    };
    let given = given_by(matches);
    let Some(input) = open_input(rt, given) else {
        return READ_OR_WRITE_FAULT;
    };
    let mut output = open_output(rt);
    let cut = matches.get_flag("cut");
    let scenario = Scenario { cpus, calls, cut };
    let outcome = match run_threads(handle, rt.alloc(), &mut output, scenario) {
        Ok(run) => {
            if matches.get_flag("verbose") {
                say_run(rt, &run);
            }
            Ok(is_right(rt, run.fault))
        }
        Err(fault) => Err(fault),
    };
    end(rt, given, &input, &output, outcome)
}

/// Says on standard error what a run in threads did. The system has chosen its schedule, so no seed repeats it.
fn say_run(rt: &HostRuntime, run: &Run) {
    let counts = run.world.counts();
    let epoch = run.world.epoch();
    let _ = eprintln!(rt;
        "epoch {epoch} rounds {} sent {} installed {} dropped {} faults {}",
        counts.rounds, counts.sent, counts.installed, counts.dropped, counts.faults
    );
    let asked = run.asked;
    let _ = eprintln!(rt;
        "turns source {} dest {} serve {} push {}",
        asked.source, asked.dest, asked.serve, asked.push
    );
}

/// Whether nothing was found wrong when a rig was closed. If something was, standard error has its text.
fn is_right(rt: &HostRuntime, fault: Option<CloseFault>) -> bool
    ensures right { IfNone fault (result ≡ true) }
    ensures wrong { IfSome fault (λ _. result ≡ false) }
{
    match fault {
        None => true,
        Some(fault) => {
            let _ = eprintln!(rt; "postmig: {fault}");
            false
        }
    }
}

/// Writes the script by which a shell completes command lines.
fn complete(rt: &HostRuntime, matches: &ArgMatches) -> u8
    ensures { result ≤ 6 }
{
    let Some(shell) = matches.get_str("shell").and_then(Shell::named) else {
        return BAD_COMMAND_OR_SCRIPT;
    };
    let given = given_by(matches);
    let Some(input) = open_input(rt, given) else {
        return READ_OR_WRITE_FAULT;
    };
    let mut output = open_output(rt);
    let outcome = match completion(rt.alloc(), shell) {
        Ok(text) => write_out(&mut output, text.as_bytes()),
        Err(AllocError) => Err(RunFault::NoMemory),
    };
    end(rt, given, &input, &output, outcome.map(|()| true))
}

/// Carries out the parsed command line, and returns the exit status.
fn do_command<T: Threads + Wait + Sync>(rt: &HostRuntime, handle: &T, matches: &ArgMatches) -> u8
    ensures { result ≤ 6 }
{
    match matches.subcommand() {
        Some(("run", matches)) => run(rt, matches),
        Some(("finish", matches)) => finish(rt, matches),
        Some(("check", matches)) => check_input(rt, matches),
        Some(("lint", matches)) => lint(rt, matches),
        Some(("history", matches)) => judge(rt, matches),
        Some(("frames", matches)) => take_frames(rt, matches),
        Some(("draw", matches)) => draw_script(rt, matches),
        Some(("show", matches)) => show(rt, matches),
        Some(("explore", matches)) => explore(rt, matches),
        Some(("test", matches)) => test(rt, matches),
        Some(("threads", matches)) => run_in_threads(rt, handle, matches),
        Some(("completion", matches)) => complete(rt, matches),
        _ => BAD_COMMAND_OR_SCRIPT,
    }
}

/// Reads the command line, carries it out, and returns the exit status.
fn dispatch<T: Threads + Wait + Sync>(rt: &HostRuntime, handle: &T) -> io::Result<u8> {
    let words: Vec<String> = match env::args(rt) {
        Ok(words) => words.collect(rt.alloc())?,
        Err(error) if error.kind() == io::ErrorKind::InvalidData => {
            name_bad_argument(rt)?;
            return Ok(BAD_COMMAND_OR_SCRIPT);
        }
        Err(error) => return Err(error),
    };
    let command = command_line(rt.alloc())?;
    let matches = match command.try_get_matches_from(words.as_slice()) {
        Ok(matches) => matches,
        Err(error) => {
            if error.kind() == ErrorKind::OutOfMemory {
                return Err(io::Error::from(io::ErrorKind::OutOfMemory));
            }
            error.print(rt)?;
            if let [_, word, ..] = words.as_slice()
                && word.as_str() == "audit"
            {
                eprintln!(rt; "\nThe program uffd-audit judges logs of userfaultfd calls.")?;
            }
            let is_fault = error.use_stderr();
            return Ok(if is_fault {
                BAD_COMMAND_OR_SCRIPT
            } else {
                ALL_DONE
            });
        }
    };
    Ok(do_command(rt, handle, &matches))
}

/// Reads the command line, carries it out, and returns the exit status. An argument that is not UTF-8 is a fault of the command line.
/// `handle` starts the threads of `postmig threads`, and waits for them; `main` passes its runtime as both.
pub(crate) fn answer<T: Threads + Wait + Sync>(rt: &HostRuntime, handle: &T) -> ExitCode {
    match dispatch(rt, handle) {
        Ok(status) => ExitCode::from(status),
        Err(error) if error.kind() == io::ErrorKind::OutOfMemory => {
            let _ = eprintln!(rt; "{}", RunFault::NoMemory);
            ExitCode::from(NO_MEMORY)
        }
        Err(_) => {
            let _ = eprintln!(rt; "{}", RunFault::WriteFault);
            ExitCode::from(READ_OR_WRITE_FAULT)
        }
    }
}

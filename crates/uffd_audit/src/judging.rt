//! Reading the command line, judging the input, and saying why that ended early.

ghost use Rattle.std.specs.Prelude.{◌≡◌, ◌≤◌, IfOk, IfErr};
ghost use Rattle.uffd_audit.specs.Status.{fault_status, verdict_status};

use crate::arguments::arguments;
use crate::progress::{Counted, Erasing, ProgressLine};
use crate::status::status_of;
use audit::{Asked, Form, Verdict};
use call_log::LogFault;
use call_log::input::write_out;
use clap::ArgMatches;
use clap::error::ErrorKind;
use foundation::{NoMemory, PAGE_SIZE};
use std::alloc::Global;
use std::env::Env;
use std::io::Stdout;
use std::process::ExitCode;
use std::{env, io};
use streams::{
    ALL_DONE, BAD_COMMAND_OR_SCRIPT, Given, Input, NO_MEMORY, READ_OR_WRITE_FAULT, Watched,
    can_tap, make_tap, name_bad_argument, open_input, open_output, say_input, say_output,
};
use trace_audit::audit_input;
use uffd_log::Token;
use uffd_log::token::read_tokens;

/// Why what strace has written cannot be judged.
const NO_THREADS: &str =
    "what strace writes without threads or times: record with strace -f -ttt -T -o FILE";

/// Says on standard error why an input was not judged, and returns the exit status, by whether a certificate is wanted. Which file is no
/// log is said in the form of a finding.
fn end(
    rt: &HostRuntime,
    given: Given<'_>,
    input: &Watched<'_, Input>,
    output: &Watched<'_, Stdout>,
    outcome: Result<Verdict, LogFault>,
    wanted: bool,
) -> u8
    ensures verdict { IfOk outcome (λ verdict. result ≡ verdict_status wanted verdict) }
    ensures fault { IfErr outcome (λ fault. result ≡ fault_status fault) }
    ensures known { result ≤ 6 }
{
    if let Err(fault) = outcome {
        let name = given.file.unwrap_or("-");
        let _ = match fault {
            LogFault::NotALog | LogFault::Packed | LogFault::Empty => {
                eprintln!(rt; "{name}:1: {fault}")
            }
            LogFault::StraceOutput => eprintln!(rt; "{name}:1: {NO_THREADS}"),
            _ => eprintln!(rt; "{fault}"),
        };
        match fault {
            LogFault::ReadFault => say_input(rt, given, input),
            LogFault::WriteFault => say_output(rt, given, output),
            _ => {}
        }
    }
    status_of(outcome, wanted)
}

/// The number of the page with an address, which is written as a log has it. `None` if it is no number.
fn page_at(alloc: Global, address: &str) -> Result<Option<u64>, NoMemory> {
    let mut tokens = Vec::new(alloc);
    if !read_tokens(&mut tokens, address.as_bytes())? {
        return Ok(None);
    }
    match tokens.as_slice() {
        [Token::Number(addr)] => Ok(Some(*addr / PAGE_SIZE)),
        _ => Ok(None),
    }
}

/// The page that the command line asks for, if it does. Of a wrong address it says so on standard error; the error is the exit status.
fn page_asked(rt: &HostRuntime, matches: &ArgMatches) -> Result<Option<u64>, u8>
    ensures known { IfErr result (λ status. status ≤ 6) }
{
    let Some(address) = matches.get_str("page") else {
        return Ok(None);
    };
    match page_at(rt.alloc(), address) {
        Ok(Some(page)) => Ok(Some(page)),
        Ok(None) => {
            let _ = eprintln!(rt;
                "error: invalid value '{address}' for '--page <ADDRESS>': not a number below 2^64, as 4096 or 0x1000"
            );
            Err(BAD_COMMAND_OR_SCRIPT)
        }
        Err(NoMemory) => {
            let _ = eprintln!(rt; "{}", LogFault::NoMemory);
            Err(NO_MEMORY)
        }
    }
}

/// What the command line asks for, with this page.
fn asked_by(matches: &ArgMatches, page: Option<u64>) -> Asked
    ensures { result.page ≡ page }
{
    Asked {
        explains: matches.get_flag("explain"),
        late_after: matches.get_one::<u64>("late"),
        strict: matches.get_flag("strict"),
        expects_all: matches.get_str("expect").is_some(),
        page,
        traces: matches.get_str("trace-events").is_some(),
        form: if matches.get_flag("json") {
            Form::Json
        } else {
            Form::Text
        },
    }
}

/// Writes the trace events of a log that was judged to a file, and returns the exit status, which is this one if they were written. Says on
/// standard error why they could not be.
fn write_events(rt: &HostRuntime, name: &str, events: &[u8], status: u8) -> u8
    requires { status ≤ 6 }
    ensures known { result ≤ 6 }
{
    let Some(mut file) = make_tap(rt, Some(name)) else {
        return READ_OR_WRITE_FAULT;
    };
    match write_out(&mut file, events) {
        Ok(()) => status,
        Err(fault) => {
            let _ = eprintln!(rt; "{fault}");
            let _ = file.say_why(rt, "no byte was taken");
            READ_OR_WRITE_FAULT
        }
    }
}

/// Judges the calls of a log or of what strace has written, by the name of its file, or `-`. At a terminal it says how far it is.
fn judge(rt: &HostRuntime, matches: &ArgMatches) -> u8
    ensures known { result ≤ 6 }
{
    let given = Given {
        file: matches.get_str("file"),
        explains: matches.get_flag("explain"),
    };
    let page = match page_asked(rt, matches) {
        Ok(page) => page,
        Err(status) => return status,
    };
    let asked = asked_by(matches, page);
    let traced = matches.get_str("trace-events");
    if !can_tap(rt, given.file, &[traced, None, None]) {
        return READ_OR_WRITE_FAULT;
    }
    let Some(input) = open_input(rt, given) else {
        return READ_OR_WRITE_FAULT;
    };
    let line = ProgressLine::new(rt);
    let mut reader = Counted::new(rt, given.file, input, &line);
    let mut writer = Erasing::new(open_output(rt), &line);
    let name = given.file.unwrap_or("-");
    let mut events = Vec::new(rt.alloc());
    let outcome = audit_input(
        rt.alloc(),
        &mut reader,
        &mut writer,
        name,
        asked,
        &mut events,
    );
    line.erase();
    let wanted = matches.get_flag("certified");
    let status = end(rt, given, reader.input(), writer.output(), outcome, wanted);
    match traced {
        Some(name) if !events.is_empty() => write_events(rt, name, &events, status),
        _ => status,
    }
}

/// Reads the command line, judges the input, and returns the exit status.
fn dispatch(rt: &HostRuntime) -> io::Result<u8>
    ensures known { IfOk result (λ status. status ≤ 6) }
{
    let words: Vec<String> = match env::args(rt) {
        Ok(words) => words.collect(rt.alloc())?,
        Err(error) if error.kind() == io::ErrorKind::InvalidData => {
            name_bad_argument(rt)?;
            return Ok(BAD_COMMAND_OR_SCRIPT);
        }
        Err(error) => return Err(error),
    };
    let command = arguments(rt.alloc())?;
    match command.try_get_matches_from(words.as_slice()) {
        Ok(matches) => Ok(judge(rt, &matches)),
        Err(error) => {
            if error.kind() == ErrorKind::OutOfMemory {
                return Err(io::Error::from(io::ErrorKind::OutOfMemory));
            }
            error.print(rt)?;
            let is_fault = error.use_stderr();
            Ok(if is_fault {
                BAD_COMMAND_OR_SCRIPT
            } else {
                ALL_DONE
            })
        }
    }
}

/// Reads the command line, judges the input, and returns the exit status. An argument that is not UTF-8 is a fault of the command line.
pub(crate) fn answer(rt: &HostRuntime) -> ExitCode {
    let status = match dispatch(rt) {
        Ok(status) => status,
        Err(error) => {
            let fault = if error.kind() == io::ErrorKind::OutOfMemory {
                LogFault::NoMemory
            } else {
                LogFault::WriteFault
            };
            let _ = eprintln!(rt; "{fault}");
            status_of(Err(fault), false)
        }
    };
    ExitCode::from(status)
}

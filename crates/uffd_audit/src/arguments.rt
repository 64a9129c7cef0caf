//! The command line of the program.

ghost use Rattle.std.specs.Prelude.{◌≡◌};

use clap::builder::ValueParser;
use clap::{Arg, ArgAction, Command};
use std::alloc::{AllocError, Global};

/// What `--version` prints after the program's name.
const VERSION: &str = "0.1.0";

/// How the program ends.
const STATUSES: &str = "Exit status:
  0  no fault was found, and all calls were judged
  1  a fault was found, with --strict a note, or the command line is wrong
  2  a line of the log is wrong, there is no log, or a read or a write failed
  3  no run was found that gives some answer of the log
  4  memory ran out
  5  no fault was found, and not all calls could be judged; or lines of the log were lost; or with
     --certified the kernel's answers are not certified
  6  there was nothing to judge: no message was read, and no page was put

docs/AUDIT.md says what the findings mean, docs/UFFDLOG.md what a log is.";

/// A flag.
fn flag<'a>(alloc: Global, id: &'a str, help: &'a str) -> Arg<'a>
    ensures { result.id ≡ id.entry }
{
    Arg::new(alloc, id)
        .long(id)
        .help(help)
        .action(ArgAction::SetTrue)
}

/// An option with a value of this name, as the parser reads it.
fn option<'a>(
    alloc: Global,
    id: &'a str,
    value: &'a str,
    parser: ValueParser<'a>,
    help: &'a str,
) -> Arg<'a>
    ensures { result.id ≡ id.entry }
{
    Arg::new(alloc, id)
        .long(id)
        .help(help)
        .value_name(value)
        .value_parser(parser)
}

/// How the pages that a log owes are judged.
const EXPECTED: &[&str] = &["all"];

/// `uffd-audit [OPTIONS] [FILE]`. An error is that memory was refused.
pub(crate) fn arguments<'a>(alloc: Global) -> Result<Command<'a>, AllocError> {
    let explain = flag(
        alloc,
        "explain",
        "Says what the findings mean, how long faults waited, and why a read or a write failed",
    );
    let late = option(
        alloc,
        "late",
        "MICROSECONDS",
        ValueParser::Unsigned(0, u64::MAX),
        "Names each page fault that waited longer, from its read to the call that woke its thread",
    );
    let expect = option(
        alloc,
        "expect",
        "PAGES",
        ValueParser::Names(EXPECTED),
        "Has pages that are still missing at the end a fault, and not a note",
    );
    let strict = flag(alloc, "strict", "Has a note fail the log, as a fault does");
    let certified = flag(alloc, "certified", "Has a log fail without a certificate");
    let json = flag(
        alloc,
        "json",
        "Writes findings and summary as objects of JSON",
    );
    let page = option(
        alloc,
        "page",
        "ADDRESS",
        ValueParser::String,
        "Says after the findings what happened to the page of this address, in the run that was found",
    );
    let events = option(
        alloc,
        "trace-events",
        "FILE",
        ValueParser::String,
        "Writes waits and findings to FILE too, as events for Perfetto or chrome://tracing",
    );
    let file = Arg::new(alloc, "file")
        .help("Is read in place of standard input")
        .value_name("FILE");
    Command::new(alloc, "uffd-audit")
        .bin_name("uffd-audit")?
        .about(
            "Judges the userfaultfd calls of a log or of strace's output, and names what is wrong with them",
        )
        .version(VERSION)
        .after_help(STATUSES)
        .arg(explain)?
        .arg(late)?
        .arg(strict)?
        .arg(expect)?
        .arg(certified)?
        .arg(json)?
        .arg(page)?
        .arg(events)?
        .arg(file)
}

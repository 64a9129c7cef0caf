//! `postmig history`: whether what threads did to a memory at once is what one flat memory does.

ghost use Rattle.std.specs.Prelude.{◌≡◌, ◌≤◌};
ghost use Rattle.postmig.specs.Status.{history_status, history_fault_status};

use crate::commands::given_by;
use clap::ArgMatches;
use console::{end, status_of};
use engine::RunFault;
use history_judge::{
    HistoryFault, Judged, Verdict, judge_history, write_picture, write_transcript,
};
use std::io::Stdout;
use streams::{
    ALL_DONE, BAD_COMMAND_OR_SCRIPT, Given, Input, NO_FLAT_RUN, NOTHING_TO_JUDGE,
    READ_OR_WRITE_FAULT, UNDECIDED, Watched, can_tap, make_tap, open_input, open_output,
};

/// The exit status of a history that was judged.
fn verdict_status_of(verdict: Verdict) -> u8
    ensures exact { result ≡ history_status verdict }
    ensures least { result ≤ 6 }
{
    match verdict {
        Verdict::Kept => ALL_DONE,
        Verdict::Wrong => NO_FLAT_RUN,
        Verdict::Undecided => UNDECIDED,
        Verdict::Nothing => NOTHING_TO_JUDGE,
    }
}

/// Says on standard error why a history could not be judged, and returns the exit status.
fn end_history(
    rt: &HostRuntime,
    given: Given<'_>,
    input: &Watched<'_, Input>,
    output: &Watched<'_, Stdout>,
    fault: HistoryFault,
) -> u8
    ensures exact { result ≡ history_fault_status fault }
    ensures least { result ≤ 4 }
{
    match fault {
        HistoryFault::Line(number, reason) => {
            let name = given.file.unwrap_or("-");
            let _ = eprintln!(rt; "{name}:{number}: {reason}");
            BAD_COMMAND_OR_SCRIPT
        }
        HistoryFault::ReadFault => end(rt, given, input, output, Err(RunFault::ReadFault)),
        HistoryFault::WriteFault => end(rt, given, input, output, Err(RunFault::WriteFault)),
        HistoryFault::NoMemory => end(rt, given, input, output, Err(RunFault::NoMemory)),
    }
}

/// Writes what shows the verdict on the history `name` to a file: a picture of its first contradiction, or else its operations in their
/// order. Returns the status. Says on standard error why the file could not be written.
fn write_file(rt: &HostRuntime, file: &str, name: &str, judged: &Judged) -> u8
    ensures { result ≤ 4 }
{
    let Some(mut tap) = make_tap(rt, Some(file)) else {
        return READ_OR_WRITE_FAULT;
    };
    let operations = &judged.operations;
    let outcome = match judged.contradictions.first() {
        Some(first) => write_picture(rt.alloc(), &mut tap, name, operations, first),
        None => write_transcript(rt.alloc(), &mut tap, operations),
    };
    match outcome {
        Ok(()) => ALL_DONE,
        Err(fault) => {
            let _ = eprintln!(rt; "{fault}");
            if let RunFault::WriteFault = fault {
                let _ = tap.say_why(rt, "no byte was taken");
            }
            status_of(Err(fault))
        }
    }
}

/// Judges a history by the name of its file, or `-`. One that is kept is written as a transcript too, and one that is wrong is drawn, where
/// that is asked for.
pub(crate) fn judge(rt: &HostRuntime, matches: &ArgMatches) -> u8
    ensures { result ≤ 6 }
{
    let given = given_by(matches);
    let order = matches.get_str("transcript");
    let picture = matches.get_str("draw");
    // Only one of the two is written, so they may have one name.
    for file in [order, picture] {
        if !can_tap(rt, given.file, &[file, None, None]) {
            return READ_OR_WRITE_FAULT;
        }
    }
    let Some(mut input) = open_input(rt, given) else {
        return READ_OR_WRITE_FAULT;
    };
    let mut output = open_output(rt);
    let name = given.file.unwrap_or("-");
    match judge_history(rt.alloc(), &mut input, &mut output, name, given.explains) {
        Err(fault) => end_history(rt, given, &input, &output, fault),
        Ok(judged) => {
            let file = match judged.verdict {
                Verdict::Kept => order,
                Verdict::Wrong => picture,
                Verdict::Undecided | Verdict::Nothing => None,
            };
            if let Some(file) = file {
                let status = write_file(rt, file, name, &judged);
                if status != ALL_DONE {
                    return status;
                }
            }
            if let Some(picture) = picture
                && judged.verdict != Verdict::Wrong
            {
                let _ = eprintln!(rt; "{picture}: not written, as no contradiction was found");
            }
            verdict_status_of(judged.verdict)
        }
    }
}

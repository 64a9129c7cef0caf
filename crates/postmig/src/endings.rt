//! How the commands with faults of their own say why they ended early.

ghost use Rattle.std.specs.Prelude.{◌≡◌, ◌≤◌, IfErr, OnOk};
ghost use Rattle.postmig.specs.Status.{frames_fault_status, tap_fault_status};

use crate::commands::NO_LINE;
use crate::status::frames_status_of;
use console::{Bounded, Script, end, end_at_lines, end_looked, say_looked};
use engine::RunFault;
use frames::FramesFault;
use grammar::Language;
use std::io::Stdout;
use streams::{ALL_DONE, Given, Input, READ_OR_WRITE_FAULT, Tap, Watched, say_input, say_output};
use wiretap::{Channel, TapFault, Taps};

/// Says on standard error why frames were not taken to their end, and returns the exit status.
pub(crate) fn end_frames(
    rt: &HostRuntime,
    given: Given<'_>,
    input: &Watched<'_, Input>,
    output: &Watched<'_, Stdout>,
    outcome: Result<u64, FramesFault>,
) -> u8
    ensures ok { OnOk outcome (result ≡ 0) }
    ensures fault { IfErr outcome (λ fault. result ≡ frames_fault_status fault) }
    ensures least { result ≤ 4 }
{
    if let Err(fault) = outcome {
        let _ = eprintln!(rt; "{fault}");
        match fault {
            FramesFault::ReadFault => say_input(rt, given, input),
            FramesFault::WriteFault => say_output(rt, given, output),
            FramesFault::Stream(_) | FramesFault::Truncated | FramesFault::NoMemory => {}
        }
    }
    frames_status_of(outcome)
}

/// Says on standard error why a script was not looked at to its end, or how many lines were, where that is asked for, or that there was none,
/// and returns the exit status.
pub(crate) fn end_script(
    rt: &HostRuntime,
    given: Given<'_>,
    reader: &Bounded<Watched<'_, Input>>,
    output: &Watched<'_, Stdout>,
    outcome: Result<(), RunFault>,
) -> u8
    ensures { result ≤ 6 }
{
    let input = reader.input();
    let outcome = outcome.map(|()| true);
    let status = end_at_lines(rt, given, input, output, Language::Script, outcome);
    if status == ALL_DONE {
        say_looked(rt, given, input.name(), reader.looked_at());
    }
    end_looked(rt, input.name(), NO_LINE, status, reader.has_lines())
}

/// The same of a run with files for its wires. Says which of them could not be written, and why.
pub(crate) fn end_tapped(
    rt: &HostRuntime,
    given: Given<'_>,
    input: &Watched<'_, Script>,
    output: &Watched<'_, Stdout>,
    taps: &Taps<Watched<'_, Tap>>,
    outcome: Result<(), TapFault>,
) -> u8
    ensures ok { OnOk outcome (result ≡ 0) }
    ensures fault { IfErr outcome (λ fault. result ≡ tap_fault_status fault) }
    ensures least { result ≤ 4 }
{
    match outcome {
        Ok(()) => end(rt, given, input, output, Ok(true)),
        Err(TapFault::Run(fault)) => {
            end_at_lines(rt, given, input, output, Language::Script, Err(fault))
        }
        Err(TapFault::Wire(channel)) => {
            let tap = match channel {
                Channel::Forward => &taps.forward,
                Channel::Back => &taps.back,
                Channel::Urgent => &taps.urgent,
            };
            let _ = eprintln!(rt; "{}", RunFault::WriteFault);
            let _ = tap.say_why(rt, "no byte was taken");
            READ_OR_WRITE_FAULT
        }
    }
}

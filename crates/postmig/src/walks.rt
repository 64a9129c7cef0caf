//! `postmig explore --all`: all schedules of a small world.

ghost use Rattle.std.specs.Prelude.{◌≤◌, IfSome};

use clap::ArgMatches;
use console::{end, status_of};
use engine::RunFault;
use engine::line_runner::write_out;
use explore::{Meeting, MetByAll, meet_all};
use schedules::{Small, WalkFault, walk_schedules};
use std::fs::create_dir_all;
use streams::{
    ALL_DONE, BAD_COMMAND_OR_SCRIPT, Given, NO_FLAT_RUN, NO_MEMORY, READ_OR_WRITE_FAULT, UNDECIDED,
    make_tap, open_output, say_reason, standard_input,
};

/// How many states a walk finds at most, if no other number is given.
const MOST: u32 = 20_000;

/// The small world that a command line asks for. None where a number is not one that the command line lets through.
fn small_of(matches: &ArgMatches) -> Option<Small>
    ensures low { IfSome result (λ small. 1 ≤ small.cpus) }
    ensures high { IfSome result (λ small. small.cpus ≤ 16) }
{
    let cpus = matches.get_one::<u8>("cpus").unwrap_or(1);
    let pages = matches.get_one::<u16>("pages").unwrap_or(1);
    if cpus == 0 || cpus > 16 {
        return None;
    }
    Some(Small {
        cpus,
        pages,
        breaks: matches.get_one::<u16>("breaks").unwrap_or(1),
        rounds: matches.get_one::<u16>("rounds").unwrap_or(1),
        commands: matches.get_one::<u8>("commands").unwrap_or(1),
    })
}

/// Writes the script of a refusal to a file of a folder. Says on standard error why it could not be written.
fn write_meeting(rt: &HostRuntime, folder: &str, meeting: &Meeting) -> u8
    ensures { result ≤ 4 }
{
    let Ok(name) = format!(in rt.alloc(); "{folder}/{}.script", meeting.name) else {
        return NO_MEMORY;
    };
    let Some(mut tap) = make_tap(rt, Some(&name)) else {
        return READ_OR_WRITE_FAULT;
    };
    match write_out(&mut tap, &meeting.script) {
        Ok(()) => ALL_DONE,
        Err(fault) => {
            let _ = eprintln!(rt; "{fault}");
            let _ = tap.say_why(rt, "no byte was taken");
            status_of(Err(fault))
        }
    }
}

/// Writes the script of each refusal to a file of a folder, which is made if it is not there.
fn write_meetings(rt: &HostRuntime, folder: &str, meetings: &[Meeting]) -> u8
    ensures { result ≤ 4 }
{
    if let Err(error) = create_dir_all(rt, folder) {
        let _ = eprintln!(rt; "write fault");
        let _ = say_reason(rt, folder, &error);
        return READ_OR_WRITE_FAULT;
    }
    for meeting in meetings {
        let status = write_meeting(rt, folder, meeting);
        if status != ALL_DONE {
            return status;
        }
    }
    ALL_DONE
}

/// Writes what a walk counted. A dead end has a status of its own.
fn write_tally(rt: &HostRuntime, met: &MetByAll) -> u8
    ensures { result ≤ 6 }
{
    let tally = &met.tally;
    let written = format!(in rt.alloc();
        "states {}\nsteps {}\nrefusals {}\ncomplete {}\ndead ends {}\nmet {}\n",
        tally.states,
        tally.steps,
        tally.refusals,
        tally.complete,
        tally.dead_ends,
        met.meetings.len()
    );
    let given = Given {
        file: None,
        explains: true,
    };
    let mut output = open_output(rt);
    let outcome = match written {
        Ok(text) => write_out(&mut output, text.as_bytes()),
        Err(_) => Err(RunFault::NoMemory),
    };
    let status = end(
        rt,
        given,
        &standard_input(rt),
        &output,
        outcome.map(|()| true),
    );
    if status == ALL_DONE && tally.dead_ends > 0 {
        return NO_FLAT_RUN;
    }
    status
}

/// Says on standard error that memory ran out.
fn end_without_memory(rt: &HostRuntime) -> u8
    ensures { result ≤ 4 }
{
    let _ = eprintln!(rt; "{}", RunFault::NoMemory);
    NO_MEMORY
}

/// Walks all schedules of a small world, and writes what it counted; and a script for each refusal, where that is asked for.
pub(crate) fn walk(rt: &HostRuntime, matches: &ArgMatches) -> u8
    ensures { result ≤ 6 }
{
    let Some(small) = small_of(matches) else {
        return BAD_COMMAND_OR_SCRIPT;
    };
    let most = matches.get_one::<u32>("states").unwrap_or(MOST);
    let walked = match walk_schedules(rt.alloc(), &small, most as usize) {
        Ok(walked) => walked,
        Err(WalkFault::Full) => {
            let _ = eprintln!(rt;
                "error: the small world has more than {most} states: '--states <N>' lets it have more"
            );
            return UNDECIDED;
        }
        Err(WalkFault::NoMemory) => return end_without_memory(rt),
    };
    let Ok(met) = meet_all(rt.alloc(), &small, &walked) else {
        return end_without_memory(rt);
    };
    if let Some(folder) = matches.get_str("out") {
        let status = write_meetings(rt, folder, &met.meetings);
        if status != ALL_DONE {
            return status;
        }
    }
    write_tally(rt, &met)
}

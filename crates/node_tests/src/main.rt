//! Tests of the two nodes of a migration, the calls of `precopy` and `fault_handler`; and a program that makes calls of both nodes.
//!
//! A test is a table of calls with the answers that are wanted, worked out by hand. One loop for each node plays a table; where a call
//! is refused it looks that the node is as before, and where memory was refused it makes the call again. So a test passes whichever
//! allocation is refused.
//!
//! The program makes the calls that standard input has, and prints the answer of each, and what its node is then. No wire joins the two
//! nodes, so any frame may come at any time. A call is a letter, and after some of them comes a frame's text or the number of a page (one
//! byte, counted from page 0x10).
//!
//! | Letter | Call |
//! |---|---|
//! | `t` frame | `Destination::take`, after `answers` |
//! | `u` frame | `Destination::take_urgent` |
//! | `i` | `Destination::install` |
//! | `p` | `Destination::pause` |
//! | `m` | the first byte of each of 16 pages of the destination, or `-` |
//! | `b` frame | `Source::take`, after `answers` |
//! | `s`, `w`, `e`, `r` | `Source::start`, `switch`, `end`, `serve` |
//! | `v` page, `x` page | `Source::push`, `push_urgent`, in the source's epoch |
//! | `n`, `k` | `Source::notice`, `resume` |
//!
//! Both nodes have two processors. The source has 16 pages mapped from 0x10 on, and stored to each second one. The exit status is 1
//! where standard input has anything else, or where memory runs out. `bench/compare/takes.py` draws calls and compares the answers; `stdin`
//! and `stdout` have two such runs.
#![tactic(auto)]

mod calls;
#[cfg(test)]
mod destinations;
#[cfg(test)]
mod frames;
#[cfg(test)]
mod ranges;
#[cfg(test)]
mod same;
#[cfg(test)]
mod sources;

use crate::calls::{Call, Unread, on_destination, on_source};
use fault_handler::Destination;
use precopy::Source;
use std::io;
use std::io::Read;
use std::process::ExitCode;

/// Makes a call of its node, and prints the answer.
fn make(
    rt: &HostRuntime,
    destination: &mut Destination,
    source: &mut Source,
    call: Call,
) -> io::Result<()> {
    match call {
        Call::Take(epoch, frame) => on_destination::take(rt, destination, epoch, frame),
        Call::TakeUrgent(epoch, frame) => {
            on_destination::take_urgent(rt, destination, epoch, frame)
        }
        Call::Install => on_destination::install(rt, destination),
        Call::Pause => on_destination::pause(rt, destination),
        Call::Memory => on_destination::print_memory(rt, destination),
        Call::Back(epoch, frame) => on_source::back(rt, source, epoch, &frame),
        Call::Source(call) => on_source::make(rt, source, call),
    }
}

/// Makes all calls of standard input.
fn make_all(
    rt: &HostRuntime,
    destination: &mut Destination,
    source: &mut Source,
) -> io::Result<()> {
    let mut bytes = Vec::new(rt.alloc());
    rt.stdin().read_to_end(&mut bytes)?;
    let mut unread = Unread::new(&bytes);
    for _ in 0..u32::MAX {
        let Some(call) = unread.next_call(rt.alloc())? else {
            break;
        };
        make(rt, destination, source, call)?;
    }
    Ok(())
}

/// Makes the calls on a destination and on a new source, and returns whether all were made.
fn work_on(rt: &HostRuntime, destination: &mut Destination) -> bool {
    match Source::new(rt.alloc(), 2, 0, 0) {
        Ok(mut source) => fill_and_make(rt, destination, &mut source),
        Err(_) => false,
    }
}

fn fill_and_make(rt: &HostRuntime, destination: &mut Destination, source: &mut Source) -> bool {
    on_source::fill(source).is_ok() && make_all(rt, destination, source).is_ok()
}

/// Makes the calls on two new nodes, and returns whether all were made.
fn work(rt: &HostRuntime) -> bool {
    match Destination::new(rt.alloc(), 2) {
        Ok(mut destination) => work_on(rt, &mut destination),
        Err(_) => false,
    }
}

fn main(rt: HostRuntime) -> ExitCode {
    if work(&rt) {
        return ExitCode::SUCCESS;
    }
    let _ = eprintln!(&rt; "node_tests: wrong input, or out of memory");
    ExitCode::FAILURE
}

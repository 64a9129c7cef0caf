//! Times the destination of a migration: the copies that come for the pages that it is owed, their installation, and map calls over
//! pages that are still owed.
//!
//! Each word is a number of pages, `MAX_PAGES` at the most, for which it prints how many nanoseconds a page took: to come, to be
//! installed, and in a loop that copies as many pages to new ones; and how many a map call over one page took, to the end of the
//! reading of its messages.

use crate::copies;
use crate::destination::{self, APART, Call};
use crate::failure::{Failed, call_failed, lacking};
use crate::numbers::{nanoseconds, number};
use fault_handler::Destination;
use mig_base::{LOW_PAGE, MAX_PAGES};
use std::io;
use std::time::{Duration, Instant};

/// The pages that come where there is no number.
const FEW: u32 = 64;

/// The map calls that are timed, unless there are too few pages for them.
const CALLS: u32 = 512;

/// How often they are timed.
const ROUNDS: u32 = 8;

/// How long the coming of all copies takes.
fn time_arrival(
    rt: &HostRuntime,
    destination: &mut Destination,
    pages: u32,
) -> io::Result<Duration> {
    let begun = Instant::now(rt)?;
    destination::arrive_all(rt.alloc(), destination, pages).map_err(call_failed)?;
    begun.elapsed(rt)
}

/// How long their installation takes.
fn time_installs(
    rt: &HostRuntime,
    destination: &mut Destination,
    pages: u32,
) -> io::Result<Duration> {
    let begun = Instant::now(rt)?;
    destination::install_all(destination, pages).map_err(call_failed)?;
    begun.elapsed(rt)
}

/// How long both take on a new destination.
fn time_both(
    rt: &HostRuntime,
    destination: &mut Destination,
    pages: u32,
) -> io::Result<(Duration, Duration)> {
    destination::start(rt.alloc(), destination, pages).map_err(call_failed)?;
    let arrival = time_arrival(rt, destination, pages)?;
    Ok((arrival, time_installs(rt, destination, pages)?))
}

/// The same on a destination of its own.
fn time_destination(rt: &HostRuntime, pages: u32) -> io::Result<(Duration, Duration)> {
    match Destination::new(rt.alloc(), 1) {
        Ok(mut destination) => time_both(rt, &mut destination, pages),
        Err(_) => Err(call_failed(Failed)),
    }
}

/// The time of map calls of a kind on a new destination, over the last of its pages.
fn time_calls_of(
    rt: &HostRuntime,
    destination: &mut Destination,
    pages: u32,
    kind: Call,
) -> io::Result<Duration> {
    destination::start(rt.alloc(), destination, pages).map_err(call_failed)?;
    let calls = calls_over(pages);
    let first = LOW_PAGE.wrapping_add(pages.saturating_sub(CALLS * APART));
    let begun = Instant::now(rt)?;
    destination::make_all(destination, kind, first, calls).map_err(call_failed)?;
    begun.elapsed(rt)
}

/// The same on a destination of its own.
fn time_once(rt: &HostRuntime, pages: u32, kind: Call) -> io::Result<Duration> {
    match Destination::new(rt.alloc(), 1) {
        Ok(mut destination) => time_calls_of(rt, &mut destination, pages, kind),
        Err(_) => Err(call_failed(Failed)),
    }
}

/// How many nanoseconds a call takes, in the best of some rounds.
fn time_calls(rt: &HostRuntime, pages: u32, kind: Call) -> io::Result<u128> {
    let mut least = time_once(rt, pages, kind)?;
    for _ in 1..ROUNDS {
        least = least.min(time_once(rt, pages, kind)?);
    }
    Ok(nanoseconds(least, calls_over(pages)))
}

/// How long the copies to new pages take.
fn time_copies(rt: &HostRuntime, pages: u32) -> io::Result<Duration> {
    let filled = copies::filled(rt.alloc(), pages, 1).map_err(lacking)?;
    let begun = Instant::now(rt)?;
    // They are there until the time is taken.
    let _copies = copies::copy_to_new(rt.alloc(), &filled).map_err(lacking)?;
    begun.elapsed(rt)
}

/// The number of map calls over the last of this many pages.
fn calls_over(pages: u32) -> u32 {
    CALLS.min(pages / APART)
}

/// Prints the times for this many pages.
fn measure_pages(rt: &HostRuntime, pages: u32) -> io::Result<()> {
    let (arrival, install) = time_destination(rt, pages)?;
    let copy = time_copies(rt, pages)?;
    let arrival = nanoseconds(arrival, pages);
    let install = nanoseconds(install, pages);
    let copy = nanoseconds(copy, pages);
    println!(rt; "{pages} pages: arrival {arrival}, install {install}, copy {copy} ns a page")
}

/// Prints the times of map calls while this many pages are owed.
fn measure_calls(rt: &HostRuntime, pages: u32) -> io::Result<()> {
    let dontneed = time_calls(rt, pages, Call::DontNeed)?;
    let munmap = time_calls(rt, pages, Call::Unmap)?;
    let mremap = time_calls(rt, pages, Call::Move)?;
    println!(rt;
        "{pages} pages owed: madvise {dontneed}, munmap {munmap}, mremap {mremap} ns a call"
    )
}

/// Prints both.
fn measure_both(rt: &HostRuntime, pages: u32) -> io::Result<()> {
    if pages > MAX_PAGES {
        return Err(io::Error::from(io::ErrorKind::InvalidInput));
    }
    measure_pages(rt, pages)?;
    measure_calls(rt, pages)
}

/// Prints both for the numbers of pages that words say.
pub fn measure(rt: &HostRuntime, words: &[String]) -> io::Result<()> {
    for word in words {
        measure_both(rt, number(word.as_str())?)?;
    }
    Ok(())
}

/// Installs a few pages, makes a few map calls, and says so.
pub fn try_few(rt: &HostRuntime) -> io::Result<()> {
    time_destination(rt, FEW)?;
    let calls = calls_over(FEW);
    for kind in [Call::DontNeed, Call::Unmap, Call::Move] {
        time_once(rt, FEW, kind)?;
    }
    println!(rt; "{FEW} pages are installed, and {calls} map calls of each kind made")
}

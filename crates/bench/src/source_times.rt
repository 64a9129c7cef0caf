//! Times the source of a migration: a round, and then the sending of its pages one by one.
//!
//! Each word is a number of pages, for which it prints how many nanoseconds a page took: in the round, in the sending, and in a loop
//! that copies as many pages to new ones.

use crate::failure::{Failed, call_failed, lacking, refused};
use crate::numbers::{nanoseconds, number};
use crate::{copies, source};
use precopy::Source;
use std::io;
use std::time::{Duration, Instant};

/// The pages that are sent where there is no number.
const FEW: u32 = 64;

/// How long a round takes.
fn time_round(rt: &HostRuntime, source: &mut Source) -> io::Result<Duration> {
    let begun = Instant::now(rt)?;
    source.round().map_err(refused)?;
    begun.elapsed(rt)
}

/// How long the sending of its pages takes.
fn time_sending(rt: &HostRuntime, source: &mut Source, pages: u32) -> io::Result<Duration> {
    let begun = Instant::now(rt)?;
    source::send(source, pages).map_err(refused)?;
    begun.elapsed(rt)
}

/// How long a round takes on a new source, and then the sending of its pages.
fn time_both(
    rt: &HostRuntime,
    source: &mut Source,
    pages: u32,
) -> io::Result<(Duration, Duration)> {
    source::start(source, pages).map_err(refused)?;
    let round = time_round(rt, source)?;
    Ok((round, time_sending(rt, source, pages)?))
}

/// The same on a source of its own.
fn time_source(rt: &HostRuntime, pages: u32) -> io::Result<(Duration, Duration)> {
    match Source::new(rt.alloc(), 1, 0, 0) {
        Ok(mut source) => time_both(rt, &mut source, pages),
        Err(_) => Err(call_failed(Failed)),
    }
}

/// How long the copies take, and how many they were.
fn time_copies(rt: &HostRuntime, pages: u32) -> io::Result<(Duration, u32)> {
    let filled = copies::filled(rt.alloc(), pages, 1).map_err(lacking)?;
    let begun = Instant::now(rt)?;
    let count = copies::copy_and_drop(rt.alloc(), &filled).map_err(lacking)?;
    Ok((begun.elapsed(rt)?, count))
}

/// Prints the times for this many pages.
fn measure_pages(rt: &HostRuntime, pages: u32) -> io::Result<()> {
    let (round, send) = time_source(rt, pages)?;
    let (copy, copied) = time_copies(rt, pages)?;
    let round = nanoseconds(round, pages);
    let send = nanoseconds(send, pages);
    let copy = nanoseconds(copy, copied);
    println!(rt; "{pages} pages: round {round}, send {send}, copy {copy} ns a page")
}

/// Prints what the numbers of pages take that words say.
pub fn measure(rt: &HostRuntime, words: &[String]) -> io::Result<()> {
    for word in words {
        measure_pages(rt, number(word.as_str())?)?;
    }
    Ok(())
}

/// Sends a few pages, and says so.
pub fn try_few(rt: &HostRuntime) -> io::Result<()> {
    time_source(rt, FEW)?;
    println!(rt; "{FEW} pages are sent")
}

//! Times a whole migration, step by step and without a script: for each page what pre-copy does for it, a store to a page that was
//! sent, what post-copy does for it, and a fault at the destination.
//!
//! Each word is a number of pages, for which it prints how many nanoseconds a page took, and beside them those of two loops that copy as
//! many pages, to others that are there and to new ones. After the word `new-copies` it does nothing but the loop over new ones, which
//! has no memory from the work before then.

use crate::copies;
use crate::failure::{lacking, refused};
use crate::migration::{self, Work};
use crate::numbers::{nanoseconds, number};
use std::io;
use std::time::{Duration, Instant};
use world::World;

/// The pages of a run where there is no number.
const FEW: u32 = 16;

/// The word before numbers of pages for which only new copies are timed.
const NEW_COPIES: &str = "new-copies";

/// How long the work for all pages takes, on a new world.
fn time_on(rt: &HostRuntime, world: &mut World, work: Work, pages: u32) -> io::Result<Duration> {
    migration::prepare(world, work, pages).map_err(refused)?;
    let begun = Instant::now(rt)?;
    migration::make_all(world, work, pages).map_err(refused)?;
    begun.elapsed(rt)
}

/// The same on a world of its own.
fn time_work(rt: &HostRuntime, work: Work, pages: u32) -> io::Result<Duration> {
    match World::new(rt.alloc(), 1) {
        Ok(mut world) => time_on(rt, &mut world, work, pages),
        Err(refusal) => Err(refused(refusal)),
    }
}

/// The time to copy this many pages to pages that exist already.
fn time_copies(rt: &HostRuntime, pages: u32) -> io::Result<Duration> {
    let sources = copies::filled(rt.alloc(), pages, 1).map_err(lacking)?;
    let mut targets = copies::filled(rt.alloc(), pages, 2).map_err(lacking)?;
    let begun = Instant::now(rt)?;
    copies::copy(&sources, &mut targets);
    begun.elapsed(rt)
}

/// The time to copy this many pages to new ones.
fn time_new_copies(rt: &HostRuntime, pages: u32) -> io::Result<Duration> {
    let sources = copies::filled(rt.alloc(), pages, 1).map_err(lacking)?;
    let begun = Instant::now(rt)?;
    let _copies = copies::copy_to_new(rt.alloc(), &sources).map_err(lacking)?;
    begun.elapsed(rt)
}

/// Prints the times for this many pages.
fn measure_work(rt: &HostRuntime, pages: u32) -> io::Result<()> {
    let precopy = nanoseconds(time_work(rt, Work::PreCopy, pages)?, pages);
    let store = nanoseconds(time_work(rt, Work::Store, pages)?, pages);
    let postcopy = nanoseconds(time_work(rt, Work::PostCopy, pages)?, pages);
    let fault = nanoseconds(time_work(rt, Work::Fault, pages)?, pages);
    let copy = nanoseconds(time_copies(rt, pages)?, pages);
    let new_copy = nanoseconds(time_new_copies(rt, pages)?, pages);
    println!(rt;
        "{pages} pages: pre-copy {precopy}, store {store}, post-copy {postcopy}, fault {fault}, copy {copy}, new-copy {new_copy} ns a page"
    )
}

/// Prints the times for this many new copies.
fn measure_new_copies(rt: &HostRuntime, pages: u32) -> io::Result<()> {
    let new_copy = nanoseconds(time_new_copies(rt, pages)?, pages);
    println!(rt; "{pages} pages: new-copy {new_copy} ns a page")
}

/// Prints what the numbers of pages take that words say.
pub fn measure(rt: &HostRuntime, words: &[String]) -> io::Result<()> {
    match words {
        [word, rest @ ..] if word.as_str() == NEW_COPIES => {
            for word in rest {
                measure_new_copies(rt, number(word.as_str())?)?;
            }
        }
        _ => {
            for word in words {
                measure_work(rt, number(word.as_str())?)?;
            }
        }
    }
    Ok(())
}

/// Does the work for a few pages, and says so.
pub fn try_few(rt: &HostRuntime) -> io::Result<()> {
    time_work(rt, Work::Store, FEW)?;
    time_work(rt, Work::Fault, FEW)?;
    println!(rt; "{FEW} pages are migrated")
}

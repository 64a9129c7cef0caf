//! Times a rig, each beside what does the same without one. The first word says what:
//!
//! - `calls COUNT`: COUNT calls of one seat, beside the same number of commands by `World::step`.
//! - `seats SEATS COUNT`: COUNT calls of each of SEATS seats, in threads, beside those of one seat.
//! - `claims PAGES`: claims of PAGES pages, beside a loop of `fetch_and`; and making, searching and closing them.
//! - `post-copy PAGES`: PAGES owed pages sent by workers in threads, beside the same by `World::step`.
//!
//! Each prints nanoseconds, for a call or a page.
ghost use Rattle.pusher.specs.Seats.{IsSeatOf};

use crate::claim_work::{self, claim_all, clear_all, find_all, words};
use crate::failure::{Failed, call_failed, lacking, refused};
use crate::migration::{self, Work};
use crate::numbers::{nanoseconds, number, small};
use crate::rig_work::{self, UntilDone, make_all_calls, make_calls, make_steps, send_owed};
use pusher::{ClaimSeat, Claims};
use rig::{CpuSeat, Rig};
use std::alloc::Global;
use std::io;
use std::io::Print;
use std::sync::Wait;
use std::thread::Threads;
use std::time::{Clock, Duration, Instant};
use world::World;

/// Who runs the threads, and tells the time and prints.
pub trait Host: Threads + Wait + Clock + Print + Sync {}

impl<R: Threads + Wait + Clock + Print + Sync> Host for R {}

/// The calls, seats and pages where there are no words.
const FEW: u32 = 64;

/// A rig of a world of `cpus` processors, with memory mapped for each.
fn mapped_rig(alloc: Global, cpus: u8) -> io::Result<Rig> {
    let mut world = World::new(alloc, cpus).map_err(refused)?;
    rig_work::map(&mut world, cpus).map_err(refused)?;
    rig_of(alloc, world)
}

/// A rig of a world whose destination runs and is owed this many pages.
fn owing_rig(alloc: Global, pages: u32) -> io::Result<Rig> {
    let mut world = World::new(alloc, 1).map_err(refused)?;
    migration::prepare(&mut world, Work::PostCopy, pages).map_err(refused)?;
    rig_of(alloc, world)
}

fn rig_of(alloc: Global, world: World) -> io::Result<Rig> {
    match Rig::new(alloc, world) {
        Ok(rig) => Ok(rig),
        Err(_world) => Err(call_failed(Failed)),
    }
}

/// The time of `count` commands by `World::step`.
fn time_steps<R: Clock>(rt: &R, alloc: Global, count: u32) -> io::Result<Duration> {
    let mut world = World::new(alloc, 1).map_err(refused)?;
    time_steps_on(rt, &mut world, count)
}

fn time_steps_on<R: Clock>(rt: &R, world: &mut World, count: u32) -> io::Result<Duration> {
    rig_work::map(world, 1).map_err(refused)?;
    let begun = Instant::now(rt)?;
    make_steps(world, count).map_err(refused)?;
    begun.elapsed(rt)
}

/// The time of `count` calls of one seat.
fn time_calls<R: Wait + Clock>(rt: &R, alloc: Global, count: u32) -> io::Result<Duration> {
    let mut rig = mapped_rig(alloc, 1)?;
    match rig.seat(0) {
        Ok(mut seat) => time_calls_of(rt, &rig, &mut seat, count),
        Err(refusal) => Err(refused(refusal)),
    }
}

fn time_calls_of<R: Wait + Clock>(
    rt: &R,
    rig: &Rig,
    seat: &mut CpuSeat,
    count: u32,
) -> io::Result<Duration> {
    let begun = Instant::now(rt)?;
    make_calls(rt, rig, seat, count).map_err(refused)?;
    begun.elapsed(rt)
}

/// The time of `count` calls of each of `cpus` seats, in threads.
fn time_seats<R: Host>(rt: &R, alloc: Global, cpus: u8, count: u32) -> io::Result<Duration> {
    let mut rig = mapped_rig(alloc, cpus)?;
    match all_seats(alloc, &mut rig, cpus) {
        Some(seats) => time_calls_in_threads(rt, &rig, seats, count),
        None => Err(call_failed(Failed)),
    }
}

fn all_seats(alloc: Global, rig: &mut Rig, cpus: u8) -> Option<Vec<CpuSeat>> {
    let mut seats = Vec::new(alloc);
    for cpu in 0..cpus {
        seats.push(rig.seat(cpu).ok()?).ok()?;
    }
    Some(seats)
}

fn time_calls_in_threads<R: Host>(
    rt: &R,
    rig: &Rig,
    seats: Vec<CpuSeat>,
    count: u32,
) -> io::Result<Duration> {
    let wanted = seats.len().saturating_mul(count as usize);
    let begun = Instant::now(rt)?;
    let made = make_all_calls(rt, rig, seats, count).map_err(lacking)?;
    let time = begun.elapsed(rt)?;
    if made != wanted {
        return Err(call_failed(Failed));
    }
    Ok(time)
}

/// The time to send this many owed pages, and install them, by `World::step`.
fn time_owed_steps<R: Clock>(rt: &R, alloc: Global, pages: u32) -> io::Result<Duration> {
    let mut world = World::new(alloc, 1).map_err(refused)?;
    time_owed_steps_on(rt, &mut world, pages)
}

fn time_owed_steps_on<R: Clock>(rt: &R, world: &mut World, pages: u32) -> io::Result<Duration> {
    migration::prepare(world, Work::PostCopy, pages).map_err(refused)?;
    let begun = Instant::now(rt)?;
    migration::make_all(world, Work::PostCopy, pages).map_err(refused)?;
    begun.elapsed(rt)
}

/// The same by workers in threads, up to the end of the migration.
fn time_workers<R: Host>(rt: &R, alloc: Global, pages: u32) -> io::Result<Duration> {
    let rig = owing_rig(alloc, pages)?;
    match rig.claims(rt) {
        Ok((claims, seat)) => time_sending(rt, &rig, &claims, seat),
        Err(refusal) => Err(refused(refusal)),
    }
}

fn time_sending<R: Host>(
    rt: &R,
    rig: &Rig,
    claims: &Claims,
    seat: ClaimSeat,
) -> io::Result<Duration>
    requires { IsSeatOf claims.now seat }
{
    let gate = UntilDone::new();
    let begun = Instant::now(rt);
    let sent = send_owed(rt, rig, &gate, claims, seat);
    let time = begun?.elapsed(rt)?;
    if sent {
        Ok(time)
    } else {
        Err(call_failed(Failed))
    }
}

/// The times of claims of `count` pages: to make them, to claim all, to find all pages, to close.
fn time_claims<R: Clock>(rt: &R, alloc: Global, count: u32) -> io::Result<[Duration; 4]> {
    let pages = claim_work::pages(alloc, count).map_err(lacking)?;
    let begun = Instant::now(rt)?;
    let Ok((claims, mut seat)) = Claims::new(alloc, 1, pages) else {
        return Err(call_failed(Failed));
    };
    let new = begun.elapsed(rt);
    let claim = time_claiming(rt, &claims, &mut seat);
    let find = time_finding(rt, &claims, count);
    let close = time_closing(rt, alloc, claims, seat);
    Ok([new?, claim?, find?, close?])
}

fn time_claiming<R: Clock>(rt: &R, claims: &Claims, seat: &mut ClaimSeat) -> io::Result<Duration>
    requires { IsSeatOf claims.now seat.old }
    ensures { IsSeatOf claims.now seat.new }
{
    let begun = Instant::now(rt)?;
    claim_all(claims, seat);
    begun.elapsed(rt)
}

fn time_finding<R: Clock>(rt: &R, claims: &Claims, count: u32) -> io::Result<Duration> {
    let begun = Instant::now(rt)?;
    let found = find_all(claims, count);
    let time = begun.elapsed(rt)?;
    if found == count {
        Ok(time)
    } else {
        Err(call_failed(Failed))
    }
}

fn time_closing<R: Clock>(
    rt: &R,
    alloc: Global,
    claims: Claims,
    seat: ClaimSeat,
) -> io::Result<Duration>
    requires { IsSeatOf claims seat }
{
    let begun = Instant::now(rt);
    match claims.close(alloc, seat) {
        Ok((_left, _claimed)) => begun?.elapsed(rt),
        Err((_claims, _seat)) => Err(call_failed(Failed)),
    }
}

/// The time to clear `count` bits, one by one.
fn time_clearing<R: Clock>(rt: &R, alloc: Global, count: u32) -> io::Result<Duration> {
    let words = words(alloc, count).map_err(lacking)?;
    let begun = Instant::now(rt)?;
    let set = clear_all(&words);
    let time = begun.elapsed(rt)?;
    if set >= u64::from(count) {
        Ok(time)
    } else {
        Err(call_failed(Failed))
    }
}

fn measure_calls<R: Host>(rt: &R, alloc: Global, count: u32) -> io::Result<()> {
    let step = nanoseconds(time_steps(rt, alloc, count)?, count);
    let call = nanoseconds(time_calls(rt, alloc, count)?, count);
    println!(rt; "{count} calls: call {call}, step {step} ns")
}

fn measure_seats<R: Host>(rt: &R, alloc: Global, cpus: u8, count: u32) -> io::Result<()> {
    let one = nanoseconds(time_seats(rt, alloc, 1, count)?, count);
    let all = nanoseconds(
        time_seats(rt, alloc, cpus, count)?,
        count.saturating_mul(u32::from(cpus)),
    );
    println!(rt; "{cpus} seats, {count} calls of each: of one seat {one}, of all {all} ns")
}

fn measure_claims<R: Host>(rt: &R, alloc: Global, count: u32) -> io::Result<()> {
    let plain = nanoseconds(time_clearing(rt, alloc, count)?, count);
    let times = time_claims(rt, alloc, count)?;
    let [new, claim, find, close] = times.map(|time| nanoseconds(time, count));
    println!(rt;
        "{count} pages: claim {claim}, fetch_and {plain}, index_of {find}, new {new}, close {close} ns"
    )
}

fn measure_post_copy<R: Host>(rt: &R, alloc: Global, pages: u32) -> io::Result<()> {
    let step = nanoseconds(time_owed_steps(rt, alloc, pages)?, pages);
    let worker = nanoseconds(time_workers(rt, alloc, pages)?, pages);
    println!(rt; "{pages} pages: by workers {worker}, by step {step} ns")
}

/// Prints what the words ask for.
fn measure<R: Host>(rt: &R, alloc: Global, what: &str, words: &[String]) -> io::Result<()> {
    match (what, words) {
        ("calls", [count]) => measure_calls(rt, alloc, number(count.as_str())?),
        ("seats", [cpus, count]) => {
            measure_seats(rt, alloc, small(cpus.as_str())?, number(count.as_str())?)
        }
        ("claims", [pages]) => measure_claims(rt, alloc, number(pages.as_str())?),
        ("post-copy", [pages]) => measure_post_copy(rt, alloc, number(pages.as_str())?),
        _ => Err(io::Error::from(io::ErrorKind::InvalidInput)),
    }
}

/// Works on a few calls and pages, and says so.
pub fn try_few<R: Host>(rt: &R, alloc: Global) -> io::Result<()> {
    time_seats(rt, alloc, 2, FEW)?;
    time_claims(rt, alloc, FEW)?;
    time_workers(rt, alloc, FEW)?;
    println!(rt; "{FEW} calls of each of two seats are made, and {FEW} pages are claimed and sent")
}

/// Does what the words ask for; with none it works on a few calls and pages.
pub fn obey<R: Host>(rt: &R, alloc: Global, words: &[String]) -> io::Result<()> {
    match words {
        [] => try_few(rt, alloc),
        [what, rest @ ..] => measure(rt, alloc, what.as_str(), rest),
    }
}

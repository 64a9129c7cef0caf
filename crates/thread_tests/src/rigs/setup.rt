//! Rigs, claims and lists of seats for the tests, and what a rig was closed with. Where memory is refused a call is made again.
ghost use Rattle.std.specs.Prelude.{IfSome};
ghost use Rattle.pusher.specs.Seats.{IsSeatOf};

use super::gates::{MAP, issue, store};
use engine::progress;
use grammar::{Progress, print_progress};
use mig_base::effect::Effect;
use mig_base::refusal::Refusal;
use mig_base::schedule::Step;
use mig_base::{Command, NoMemory, Reply};
use pusher::{ClaimSeat, Claims};
use rig::{CloseFault, CpuSeat, Rig};
use std::alloc::Global;
use std::sync::Wait;
use world::World;

/// A rig of a new world of `cpus` processors in which the steps were made.
pub fn rig_after(alloc: Global, cpus: u8, steps: &[Step]) -> Option<Rig> {
    rig_of(alloc, world_after(alloc, cpus, steps)?)
}

/// A rig of a world.
pub fn rig_of(alloc: Global, world: World) -> Option<Rig> {
    match Rig::new(alloc, world) {
        Ok(rig) => Some(rig),
        Err(world) => Rig::new(alloc, world).ok(),
    }
}

/// A new world of `cpus` processors in which the steps were made.
pub fn world_after(alloc: Global, cpus: u8, steps: &[Step]) -> Option<World> {
    let mut world = new_world(alloc, cpus)?;
    if make_all(&mut world, steps) {
        Some(world)
    } else {
        None
    }
}

pub fn new_world(alloc: Global, cpus: u8) -> Option<World> {
    match World::new(alloc, cpus) {
        Ok(world) => Some(world),
        Err(_) => World::new(alloc, cpus).ok(),
    }
}

/// The steps to a destination that runs and is owed both pages, one of which this load has asked for.
pub fn asked_steps(load: Command) -> [Step; 12] {
    let deliver = Step::Deliver { n: u64::MAX };
    [
        issue(MAP),
        store(0x10000, 9),
        store(0x11000, 7),
        Step::Start,
        Step::Switch,
        deliver,
        deliver,
        deliver,
        issue(load),
        Step::DestRead,
        Step::DestAct,
        Step::DeliverBack { n: u64::MAX },
    ]
}

/// Makes steps in turn. Whether none was refused twice.
fn make_all(world: &mut World, steps: &[Step]) -> bool {
    for step in steps {
        if world.step(*step).is_err() && world.step(*step).is_err() {
            return false;
        }
    }
    true
}

/// Makes a call. One that is refused for memory is made again, or finished where the command sleeps.
pub fn call<R: Wait>(
    rt: &R,
    rig: &Rig,
    seat: &mut CpuSeat,
    command: Command,
) -> Result<Reply, Refusal> {
    let answer = rig.call(rt, seat, command);
    if answer != Err(Refusal::NoMemory) {
        return answer;
    }
    match rig.call(rt, seat, command) {
        Err(Refusal::Busy) => rig.finish(rt, seat),
        again => again,
    }
}

/// Makes a step of the rig, once more where memory was refused.
pub fn made<R: Wait>(rt: &R, rig: &Rig, step: Step) -> Result<Effect, Refusal> {
    match made_once(rt, rig, step) {
        Err(Refusal::NoMemory) => made_once(rt, rig, step),
        outcome => outcome,
    }
}

/// A Start, a Switch, a Break, and else a Resume.
fn made_once<R: Wait>(rt: &R, rig: &Rig, step: Step) -> Result<Effect, Refusal> {
    match step {
        Step::Start => rig.start(rt),
        Step::Switch => rig.switch(rt),
        Step::Break => rig.cut(rt),
        _ => rig.resume(rt),
    }
}

/// The reply to the command that a seat's processor has, asked for once more where memory was refused.
pub fn finished<R: Wait>(rt: &R, rig: &Rig, seat: &mut CpuSeat) -> Result<Reply, Refusal> {
    match rig.finish(rt, seat) {
        Err(Refusal::NoMemory) => rig.finish(rt, seat),
        answer => answer,
    }
}

/// Claims over the pages that remain.
pub fn claims<R: Wait>(rt: &R, rig: &Rig) -> Option<(Claims, ClaimSeat)>
    ensures { IfSome result (λ r. IsSeatOf r.0 r.1) }
{
    match rig.claims(rt) {
        Ok(made) => Some(made),
        Err(_) => rig.claims(rt).ok(),
    }
}

/// The seats of the first two processors.
pub fn two_seats(rig: &mut Rig) -> Option<(CpuSeat, CpuSeat)> {
    let first = rig.seat(0).ok()?;
    match rig.seat(1) {
        Ok(second) => Some((first, second)),
        Err(_) => None,
    }
}

/// A list with room for two seats.
fn list(alloc: Global) -> Option<Vec<CpuSeat>> {
    match Vec::with_capacity(alloc, 2) {
        Ok(list) => Some(list),
        Err(_) => Vec::with_capacity(alloc, 2).ok(),
    }
}

/// The two seats in a list.
pub fn listed(alloc: Global, first: CpuSeat, second: CpuSeat) -> Option<Vec<CpuSeat>> {
    let mut seats = list(alloc)?;
    seats.push(first).ok()?;
    seats.push(second).ok()?;
    Some(seats)
}

/// What a rig was closed with: the fault, if there is one, and something of the world.
#[derive(Clone, Copy)]
pub struct Closed {
    pub fault: Option<CloseFault>,
    pub entries: usize,
    pub last_cpu: Option<u8>,
    pub progress: Progress,
    pub remaining: u32,
    /// The bytes in flight on the wire to the destination, and on the urgent one.
    pub forward: u64,
    pub urgent: u64,
    /// The requests that the source has received and not served.
    pub asked: usize,
}

impl Closed {
    fn of(world: &World, fault: Option<CloseFault>) -> Closed {
        Closed {
            fault,
            entries: world.transcript().len(),
            last_cpu: last_cpu(world),
            progress: progress(world),
            remaining: world.remaining().len(),
            forward: world.forward_bytes(),
            urgent: world.urgent_bytes(),
            asked: world.asked(),
        }
    }

    /// Whether there is no fault, and the transcript has this many entries.
    pub fn is_whole(&self, entries: usize) -> bool {
        self.fault.is_none() && self.entries == entries
    }

    /// Whether there is no fault, and this is the line of the world's report.
    pub fn is_reported(&self, alloc: Global, wanted: &str) -> bool {
        let mut line = String::new(alloc);
        if let Err(NoMemory) = print_progress(&mut line, self.progress) {
            let _ = print_progress(&mut line, self.progress);
        }
        self.fault.is_none() && line.as_str() == wanted
    }
}

/// The processor of the last entry.
fn last_cpu(world: &World) -> Option<u8> {
    match world.transcript().last() {
        Some(entry) => Some(entry.cpu),
        None => None,
    }
}

pub fn close(rig: Rig, seats: Vec<CpuSeat>, claims: Option<(Claims, ClaimSeat)>) -> Closed
    requires { IfSome claims (λ c. IsSeatOf c.0 c.1) }
{
    match rig.close(seats, claims) {
        Ok(world) => Closed::of(&world, None),
        Err((fault, world)) => Closed::of(&world, Some(fault)),
    }
}

/// Closes a rig with one seat.
pub fn close_one(alloc: Global, rig: Rig, seat: CpuSeat) -> Option<Closed> {
    let mut seats = list(alloc)?;
    seats.push(seat).ok()?;
    Some(close(rig, seats, None))
}

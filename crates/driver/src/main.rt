//! A driver of a migration: it draws steps until the migration is complete, and prints the number of steps that the world took.
//! docs/USING.md explains it. Copy this crate to begin a driver of your own.
#![tactic(auto)]

ghost use Rattle.std.specs.Prelude.{◌<◌};

use rand_core::Rng;
use rand_pcg::Pcg32;
use std::io;
use std::process::ExitCode;
use world::prelude::*;

/// The number of the guest's processors.
const CPUS: u8 = 2;

/// A number below `end`.
fn below<R: Rng>(rng: &mut R, end: u32) -> u32
    requires { 0 < end }
    ensures { result < end }
{
    rng.next_u32() % end
}

/// A command of a processor: it maps the eight pages, loads or stores.
fn draw_command<R: Rng>(rng: &mut R) -> Command {
    let addr = 0x10000 + 8 * u64::from(below(rng, 4096));
    let width = 8;
    match below(rng, 3) {
        0 => Command::Mmap {
            addr_len: 8 * 4096,
            prot: Prot::ReadWrite,
            place: Place::Fixed(0x10000),
        },
        1 => Command::Load { addr, width },
        _ => Command::Store {
            addr,
            width,
            value: u64::from(addr),
        },
    }
}

/// A step of any kind.
fn draw<R: Rng>(rng: &mut R, epoch: u32) -> Step {
    let cpu = below(rng, u32::from(CPUS)) as u8;
    let page = 16 + below(rng, 8);
    let ticket = Ticket { epoch, page };
    match below(rng, 64) {
        0 => Step::Start,
        1 => Step::Round,
        2 => Step::SendRun { count: 4 },
        3 => Step::Switch,
        4 => Step::End,
        5 => Step::Push(ticket),
        6 => Step::PushUrgent(ticket),
        7 => Step::Serve,
        8 => Step::SourceRead,
        9 => Step::SourceAct,
        10 => Step::DestRead,
        11 => Step::DestAct,
        12 => Step::Install,
        13 => Step::DeliverBack { n: u64::MAX },
        14 => Step::DeliverUrgent { n: u64::MAX },
        15 => Step::Break,
        16 => Step::Notice(Side::Source),
        17 => Step::Notice(Side::Destination),
        18 => Step::Resume,
        19..=29 => Step::Deliver { n: u64::MAX },
        30..=39 => Step::Retry { cpu },
        _ => Step::Issue {
            cpu,
            command: draw_command(rng),
        },
    }
}

/// Draws at most `most` steps, until the migration is complete. Returns the number of steps that the world took.
fn drive<R: Rng>(world: &mut World, rng: &mut R, most: u32) -> u32 {
    let mut taken = 0_u32;
    for _ in 0..most {
        if world.phase() == WorldPhase::Complete {
            break;
        }
        if world.step(draw(rng, world.epoch())).is_ok() {
            taken = taken.saturating_add(1);
        }
    }
    taken
}

fn main(rt: HostRuntime) -> io::Result<ExitCode> {
    let Ok(mut world) = World::new(rt.alloc(), CPUS) else {
        return Ok(ExitCode::FAILURE);
    };
    let taken = drive(&mut world, &mut Pcg32::new(2, 1), 100_000);
    println!(rt; "{taken} steps, {} commands", world.transcript().len())?;
    Ok(ExitCode::SUCCESS)
}

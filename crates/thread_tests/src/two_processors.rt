//! A guest with two processors, in threads of their own.

use crate::rigs::setup::{close, listed, rig_after, two_seats};
use mig_base::{Command, Place, Prot, Reply};
use rig::{CpuSeat, Rig};
use std::alloc::Global;
use std::sync::Wait;
use std::test::Fail;
use std::thread;
use std::thread::Threads;

// docs/THREADS.md has what follows
/// A page of its own: what a processor stores there it loads again.
fn run_processor<R: Wait>(rt: &R, rig: &Rig, mut seat: CpuSeat) -> (CpuSeat, Option<Reply>) {
    let addr = 0x10000 + u64::from(seat.cpu()) * 0x1000;
    let commands = [
        Command::Mmap {
            addr_len: 4096,
            prot: Prot::ReadWrite,
            place: Place::Fixed(addr),
        },
        Command::Store {
            addr,
            width: 8,
            value: 7,
        },
        Command::Load { addr, width: 8 },
    ];
    let mut last = None;
    for command in commands {
        last = rig.call(rt, &mut seat, command).ok();
    }
    (seat, last)
}

/// Both processors side by side. None where no thread could be started for the first.
fn run_both<R: Threads + Wait + Sync>(
    rt: &R,
    rig: &Rig,
    first: CpuSeat,
    second: CpuSeat,
) -> Option<((CpuSeat, Option<Reply>), (CpuSeat, Option<Reply>))> {
    thread::scope(thread::scope_env(), rt, move |scope| {
        let other = scope.spawn(move || run_processor(rt, rig, first)).ok()?;
        let second = run_processor(rt, rig, second);
        Some((other.join(rt), second))
    })
}
// docs/THREADS.md ends here

/// The seats of both, and whether each loaded what it stored.
fn run_seats<R: Threads + Wait + Sync>(
    rt: &R,
    alloc: Global,
    rig: &mut Rig,
) -> Option<(Vec<CpuSeat>, bool)> {
    let (first, second) = two_seats(rig)?;
    let ((first, one), (second, other)) = run_both(rt, rig, first, second)?;
    let seats = listed(alloc, first, second)?;
    Some((seats, one == Some(Reply::Value(7)) && other == one))
}

fn is_run<R: Threads + Wait + Sync>(rt: &R, alloc: Global) -> Option<bool> {
    let mut rig = rig_after(alloc, 2, &[])?;
    let (seats, held) = run_seats(rt, alloc, &mut rig)?;
    let closed = close(rig, seats, None);
    Some(held && closed.is_whole(6))
}

#[test]
fn a_guest_of_two_processors(rt: HostRuntime) -> Result<(), Fail> {
    assert!(rt; is_run(&rt, rt.alloc()) == Some(true));
    Ok(())
}

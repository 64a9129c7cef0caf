//! Two processors and a worker in threads of their own. Where a thread cannot be made, or memory is refused for what comes before, all is
//! done once more.

use super::gates::{LOAD, LateReader, MAP, STORE, STORED, StoreFirst, issue, store};
use super::setup::{call, close, close_one, listed, rig_after, two_seats};
use mig_base::schedule::{Step, Ticket};
use mig_base::{Command, Reply};
use rig::{CpuSeat, Rig};
use std::alloc::Global;
use std::sync::Wait;
use std::sync::atomic::{AtomicBool, Ordering};
use std::test::Fail;
use std::thread;
use std::thread::Threads;
use std::time::Clock;

/// A processor's one call, and whether it was answered so.
fn one_call<R: Wait>(
    rt: &R,
    rig: &Rig,
    mut seat: CpuSeat,
    command: Command,
    reply: Reply,
) -> (CpuSeat, bool) {
    let answer = call(rt, rig, &mut seat, command);
    (seat, answer == Ok(reply))
}

/// A load that waits for its page, which waits for a store, side by side with this store.
fn loaded_and_stored<R: Threads + Wait + Sync, C: Clock + Sync>(
    rt: &R,
    gate: &StoreFirst<C>,
    rig: &Rig,
    loads: CpuSeat,
    stores: CpuSeat,
) -> Option<((CpuSeat, bool), (CpuSeat, bool))> {
    thread::scope(thread::scope_env(), rt, |scope| {
        let loader = scope
            .spawn(move || one_call(rt, rig, loads, LOAD, Reply::Value(7)))
            .ok()?;
        let stored = one_call(rt, rig, stores, STORE, Reply::Done);
        gate.stored.store(true, Ordering::SeqCst);
        Some((loader.join(rt), stored))
    })
}

/// The same beside the worker of the destination.
fn installed<R: Threads + Wait + Sync, C: Clock + Sync>(
    rt: &R,
    gate: &StoreFirst<C>,
    rig: &Rig,
    loads: CpuSeat,
    stores: CpuSeat,
) -> Option<((CpuSeat, bool), (CpuSeat, bool))> {
    thread::scope(thread::scope_env(), rt, |scope| {
        let worker = scope.spawn(move || rig.dest_worker(rt, gate)).ok()?;
        let done = loaded_and_stored(rt, gate, rig, loads, stores);
        gate.done.store(true, Ordering::SeqCst);
        worker.join(rt);
        done
    })
}

/// A rig whose destination runs the processors and has the page at 0x10000, and to which the other page was pushed. Each page was stored
/// to.
fn pushed_rig(alloc: Global) -> Option<Rig> {
    let deliver = Step::Deliver { n: u64::MAX };
    let steps = [
        issue(MAP),
        store(0x10000, 5),
        store(0x11000, 7),
        Step::Start,
        Step::Round,
        Step::Send,
        Step::Switch,
        deliver,
        deliver,
        deliver,
        deliver,
        Step::Push(Ticket { epoch: 1, page: 17 }),
    ];
    rig_after(alloc, 2, &steps)
}

/// Two seats in a list, and whether both held.
fn both(
    alloc: Global,
    first: (CpuSeat, bool),
    second: (CpuSeat, bool),
) -> Option<(Vec<CpuSeat>, bool)> {
    let (first, first_held) = first;
    let (second, second_held) = second;
    let seats = listed(alloc, first, second)?;
    Some((seats, first_held && second_held))
}

/// The seats of both processors after the load and the store, and whether both were answered as they should, the store first.
fn load_and_store<R: Threads + Wait + Sync, C: Clock + Sync + Drop>(
    rt: &R,
    alloc: Global,
    clock: C,
    rig: &mut Rig,
) -> Option<(Vec<CpuSeat>, bool)> {
    let gate = StoreFirst::new(clock);
    let (loads, stores) = two_seats(rig)?;
    let (loaded, stored) = installed(rt, &gate, rig, loads, stores)?;
    let (seats, held) = both(alloc, loaded, stored)?;
    Some((seats, held && !gate.gave_up.load(Ordering::SeqCst)))
}

/// Whether all is as wanted. None where a thread or memory was refused.
fn is_load_behind_store<R: Threads + Wait + Sync, C: Clock + Sync + Drop>(
    rt: &R,
    alloc: Global,
    clock: C,
) -> Option<bool> {
    let mut rig = pushed_rig(alloc)?;
    let (seats, held) = load_and_store(rt, alloc, clock, &mut rig)?;
    let closed = close(rig, seats, None);
    Some(held && closed.is_whole(5) && closed.last_cpu == Some(0))
}

#[test]
fn install_waits_for_another_store(rt: HostRuntime) -> Result<(), Fail> {
    let held = match is_load_behind_store(&rt, rt.alloc(), rt) {
        None => is_load_behind_store(&rt, rt.alloc(), rt),
        held => held,
    };
    assert!(rt; held == Some(true));
    Ok(())
}

/// A store in a thread that is joined.
fn stored_elsewhere<R: Threads + Wait + Sync>(
    rt: &R,
    rig: &Rig,
    seat: CpuSeat,
) -> Option<(CpuSeat, bool)> {
    thread::scope(thread::scope_env(), rt, |scope| {
        let storer = scope
            .spawn(move || one_call(rt, rig, seat, STORE, Reply::Done))
            .ok()?;
        Some(storer.join(rt))
    })
}

/// The seats after a store of one, in a thread that is joined, and a load of the other, and whether this read what was stored.
fn stored_and_loaded<R: Threads + Wait + Sync>(
    rt: &R,
    alloc: Global,
    rig: &mut Rig,
) -> Option<(Vec<CpuSeat>, bool)> {
    let (stores, loads) = two_seats(rig)?;
    let stored = stored_elsewhere(rt, rig, stores)?;
    let loaded = one_call(rt, rig, loads, STORED, Reply::Value(9));
    both(alloc, stored, loaded)
}

/// Whether all is as wanted, in the same way.
fn is_load_behind_join<R: Threads + Wait + Sync>(rt: &R, alloc: Global) -> Option<bool> {
    let mut rig = rig_after(alloc, 2, &[issue(MAP)])?;
    let (seats, held) = stored_and_loaded(rt, alloc, &mut rig)?;
    let closed = close(rig, seats, None);
    Some(held && closed.is_whole(3) && closed.last_cpu == Some(1))
}

#[test]
fn a_store_is_read_after_a_join(rt: HostRuntime) -> Result<(), Fail> {
    let held = match is_load_behind_join(&rt, rt.alloc()) {
        None => is_load_behind_join(&rt, rt.alloc()),
        held => held,
    };
    assert!(rt; held == Some(true));
    Ok(())
}

/// A map call, and then a load.
fn unmap_and_load<R: Wait>(rt: &R, rig: &Rig, seat: CpuSeat) -> (CpuSeat, bool) {
    let unmap = Command::Munmap {
        addr: 0x11000,
        len: 4096,
    };
    let (seat, was_unmapped) = one_call(rt, rig, seat, unmap, Reply::Done);
    let (seat, was_loaded) = one_call(rt, rig, seat, STORED, Reply::Value(9));
    (seat, was_unmapped && was_loaded)
}

/// The same beside a worker that reads the message of the map call late.
fn read_late<R: Threads + Wait + Sync, C: Clock + Sync>(
    rt: &R,
    gate: &LateReader<C>,
    rig: &Rig,
    seat: CpuSeat,
) -> Option<(CpuSeat, bool)> {
    thread::scope(thread::scope_env(), rt, |scope| {
        let worker = scope.spawn(move || rig.source_worker(rt, gate)).ok()?;
        let answered = unmap_and_load(rt, rig, seat);
        gate.done.store(true, Ordering::SeqCst);
        worker.join(rt);
        Some(answered)
    })
}

/// The same in a rig with one seat.
fn late_load<R: Threads + Wait + Sync, C: Clock + Sync + Drop>(
    rt: &R,
    clock: C,
    rig: &mut Rig,
) -> Option<(CpuSeat, bool)> {
    let gate = LateReader {
        clock,
        rested: AtomicBool::new(false),
        early: AtomicBool::new(false),
        done: AtomicBool::new(false),
    };
    let seat = rig.seat(0).ok()?;
    let (seat, held) = read_late(rt, &gate, rig, seat)?;
    Some((seat, held && !gate.early.load(Ordering::SeqCst)))
}

/// Whether all is as wanted in a rig whose migration has begun, in the same way.
fn is_load_after_unmap<R: Threads + Wait + Sync, C: Clock + Sync + Drop>(
    rt: &R,
    alloc: Global,
    clock: C,
) -> Option<bool> {
    let mut rig = rig_after(alloc, 1, &[issue(MAP), store(0x10000, 9), Step::Start])?;
    let (seat, held) = late_load(rt, clock, &mut rig)?;
    let closed = close_one(alloc, rig, seat)?;
    Some(held && closed.is_whole(4))
}

/// A map call returns once the worker has read its messages, and not before: the next call finds the processor idle.
#[test]
fn a_map_call_waits_until_its_messages_are_read(rt: HostRuntime) -> Result<(), Fail> {
    let held = match is_load_after_unmap(&rt, rt.alloc(), rt) {
        None => is_load_after_unmap(&rt, rt.alloc(), rt),
        held => held,
    };
    assert!(rt; held == Some(true));
    Ok(())
}

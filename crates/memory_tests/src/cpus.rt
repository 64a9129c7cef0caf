//! `Cpus`, call by call.

ghost use Rattle.std.specs.Prelude.{◌≡◌, true};
ghost use Rattle.mig_base.specs.Commands.{is_access};

use crate::same::same;
use mig_base::cpu_state::CpuState;
use mig_base::refusal::Refusal;
use mig_base::{Addr, Command, Errno, NoMemory, Reply};
use std::alloc::Global;
use std::process::Abort;
use std::test::Fail;
use vcpu::{Cpus, NewFault};

/// A call with its arguments.
#[derive(Clone, Copy)]
enum Call {
    State(u8),
    Outstanding(u8),
    EnsureIdle(u8),
    Woken(u8),
    Sleep(u8, Command),
    CallSleeps(u8, Reply, u8),
    Take(u8),
    MessageRead(u8),
    WakePage(u64),
    WakeRange(Addr, Addr),
    WakeAll,
    /// The processors take over the commands of another host's three.
    TakeOver([Option<Command>; 3]),
}

use Call::{
    CallSleeps, EnsureIdle, MessageRead, Outstanding, Sleep, State, Take, TakeOver, WakeAll,
    WakePage, WakeRange, Woken,
};

#[derive(Clone, Copy, PartialEq, Eq)]
enum Answer {
    Done,
    Refused(Refusal),
    Is(CpuState),
    Waits(Option<Command>),
    Makes(Command),
    Returns(Option<Reply>),
}

use Answer::{Done, Is, Makes, Refused, Returns, Waits};

/// Stops unless a command is a load or a store.
fn access(rt: &impl Abort, command: Command)
    ensures { is_access command ≡ true }
{
    assert!(rt; matches!(command, Command::Load { .. } | Command::Store { .. }));
}

/// Makes a call, and answers.
fn answered(rt: &impl Abort, cpus: &mut Cpus, call: Call) -> Answer {
    match call {
        State(k) => return cpus.state(k).map_or_else(Refused, Is),
        Outstanding(k) => return cpus.outstanding(k).map_or_else(Refused, Waits),
        EnsureIdle(k) => return cpus.ensure_idle(k).map_or_else(Refused, |()| Done),
        Woken(k) => return cpus.woken(k).map_or_else(Refused, Makes),
        Sleep(k, command) => {
            access(rt, command);
            return cpus.sleep(k, command).map_or_else(Refused, |()| Done);
        }
        CallSleeps(k, reply, left) => {
            assert!(rt; left > 0);
            return cpus
                .call_sleeps(k, reply, left)
                .map_or_else(Refused, |()| Done);
        }
        Take(k) => return cpus.take(k).map_or_else(Refused, Makes),
        MessageRead(k) => return cpus.message_read(k).map_or_else(Refused, Returns),
        WakePage(page) => cpus.wake_page(page),
        WakeRange(start, end) => cpus.wake_range(start, end),
        WakeAll => cpus.wake_all(),
        TakeOver(commands) => {
            assert_eq!(rt; cpus.count(), 3);
            cpus.take_over(&commands);
        }
    }
    Done
}

/// What processors 0 to 16 do.
fn states(cpus: &Cpus) -> [Result<CpuState, Refusal>; 17] {
    let mut states = [Err(Refusal::NoCpu); 17];
    for (k, state) in (0u8..17).zip(states.iter_mut()) {
        *state = cpus.state(k);
    }
    states
}

fn new_cpus(alloc: Global, n: u8) -> Result<Cpus, NewFault> {
    match Cpus::new(alloc, n) {
        Err(NewFault::NoMemory) => Cpus::new(alloc, n),
        answer => answer,
    }
}

fn commands_of(cpus: &Cpus) -> Result<Vec<Option<Command>>, NoMemory> {
    match cpus.commands() {
        Err(NoMemory) => cpus.commands(),
        answer => answer,
    }
}

fn copy_of(cpus: &Cpus) -> Result<Cpus, NoMemory> {
    match cpus.copy() {
        Err(NoMemory) => cpus.copy(),
        answer => answer,
    }
}

/// Looks that the commands are those of the processors.
fn told(rt: &impl Abort, cpus: &Cpus, commands: &[Option<Command>]) {
    same(
        rt,
        &commands.len(),
        &usize::from(cpus.count()),
        "commands",
        0,
    );
    for (k, command) in (0u8..16).zip(commands) {
        same(
            rt,
            &cpus.outstanding(k),
            &Ok(*command),
            "processor",
            usize::from(k),
        );
    }
}

/// Looks that a copy is equal, and is not touched when the processors are.
fn copied(rt: &impl Abort, cpus: &mut Cpus, copy: &Cpus) {
    let before = states(cpus);
    same(rt, &states(copy), &before, "copy", 0);
    cpus.wake_all();
    same(rt, &states(copy), &before, "copy", 1);
}

/// Makes the calls of a table.
fn play_on(rt: &impl Abort, cpus: &mut Cpus, steps: &[(Call, Answer)]) {
    for (i, (call, wanted)) in steps.iter().enumerate() {
        let before = states(cpus);
        let answer = answered(rt, cpus, *call);
        same(rt, &answer, wanted, "step", i);
        if let Refused(_) = answer {
            same(rt, &states(cpus), &before, "refused step", i);
        }
    }
}

/// Plays a table with three processors, and then looks at their commands and at a copy.
fn play(rt: &impl Abort, alloc: Global, steps: &[(Call, Answer)]) -> Result<(), Fail> {
    let mut cpus = new_cpus(alloc, 3)?;
    play_on(rt, &mut cpus, steps);
    told(rt, &cpus, commands_of(&cpus)?.as_slice());
    let copy = copy_of(&cpus)?;
    copied(rt, &mut cpus, &copy);
    Ok(())
}

/// Looks that there are this many processors, all idle.
fn all_idle(rt: &impl Abort, cpus: &Cpus, n: u8) {
    same(rt, &cpus.count(), &n, "count", usize::from(n));
    for k in 0..n {
        same(
            rt,
            &cpus.state(k),
            &Ok(CpuState::Idle),
            "processor",
            usize::from(k),
        );
    }
    same(
        rt,
        &cpus.state(n),
        &Err(Refusal::NoCpu),
        "processor",
        usize::from(n),
    );
}

/// A guest has 1 to 16 processors, all idle at first.
#[test]
fn a_guest_has_one_to_sixteen_processors(rt: HostRuntime) -> Result<(), Fail> {
    for n in [0u8, 17, 255] {
        let fault = new_cpus(rt.alloc(), n).err();
        same(&rt, &fault, &Some(NewFault::NoCpu), "count", usize::from(n));
    }
    for n in 1..17u8 {
        let cpus = new_cpus(rt.alloc(), n)?;
        all_idle(&rt, &cpus, n);
    }
    Ok(())
}

const LOAD_11: Command = Command::Load {
    addr: 0x11ff8,
    width: 8,
};

const STORE_11: Command = Command::Store {
    addr: 0x11000,
    width: 1,
    value: 7,
};

const LOAD_12: Command = Command::Load {
    addr: 0x12000,
    width: 2,
};

/// A load is woken by its page alone, and handed out once.
const ASLEEP: [(Call, Answer); 19] = [
    (EnsureIdle(1), Done),
    (Outstanding(1), Waits(None)),
    (Woken(1), Refused(Refusal::NotAsleep)),
    (Take(1), Refused(Refusal::NotAsleep)),
    (Sleep(1, LOAD_11), Done),
    (State(1), Is(CpuState::Asleep(LOAD_11))),
    (State(0), Is(CpuState::Idle)),
    (EnsureIdle(1), Refused(Refusal::Busy)),
    (Outstanding(1), Waits(Some(LOAD_11))),
    (WakePage(0x10), Done),
    (WakePage(0x12), Done),
    (Take(1), Refused(Refusal::NotWoken)),
    (WakePage(0x11), Done),
    (State(1), Is(CpuState::Woken(LOAD_11))),
    (Outstanding(1), Waits(Some(LOAD_11))),
    (Sleep(1, LOAD_12), Refused(Refusal::Busy)),
    (Woken(1), Makes(LOAD_11)),
    (Take(1), Makes(LOAD_11)),
    (State(1), Is(CpuState::Idle)),
];

#[test]
fn a_sleeper_is_woken_by_its_page(rt: HostRuntime) -> Result<(), Fail> {
    play(&rt, rt.alloc(), &ASLEEP)
}

/// Each command of a page is woken with it, and those of other pages sleep on.
const RANGES: [(Call, Answer); 16] = [
    (Sleep(0, LOAD_11), Done),
    (Sleep(1, STORE_11), Done),
    (Sleep(2, LOAD_12), Done),
    (WakeRange(0x10000, 0x11000), Done),
    (WakeRange(0x11000, 0x11000), Done),
    (WakeRange(0x13000, 0x14000), Done),
    (WakeRange(0x12000, 0x11000), Done),
    (Woken(0), Refused(Refusal::NotWoken)),
    (Woken(1), Refused(Refusal::NotWoken)),
    (WakeRange(0x11000, 0x12000), Done),
    (State(0), Is(CpuState::Woken(LOAD_11))),
    (State(1), Is(CpuState::Woken(STORE_11))),
    (State(2), Is(CpuState::Asleep(LOAD_12))),
    (WakeRange(0x12000, 0x1_0000_0000), Done),
    (State(2), Is(CpuState::Woken(LOAD_12))),
    (Take(2), Makes(LOAD_12)),
];

#[test]
fn a_range_wakes_its_sleepers_alone(rt: HostRuntime) -> Result<(), Fail> {
    play(&rt, rt.alloc(), &RANGES)
}

const EINVAL: Reply = Reply::Refused(Errno::Einval);

/// The reply of a call is handed over with the last of its messages. No page wakes it.
const IN_CALLS: [(Call, Answer); 20] = [
    (MessageRead(2), Refused(Refusal::NotAsleep)),
    (CallSleeps(2, Reply::At(0x20000), 2), Done),
    (CallSleeps(0, EINVAL, 1), Done),
    (Sleep(1, STORE_11), Done),
    (EnsureIdle(2), Refused(Refusal::Busy)),
    (CallSleeps(2, Reply::Done, 1), Refused(Refusal::Busy)),
    (CallSleeps(1, Reply::Done, 1), Refused(Refusal::Busy)),
    (Sleep(2, LOAD_11), Refused(Refusal::Busy)),
    (Outstanding(2), Waits(None)),
    (Take(2), Refused(Refusal::NotAsleep)),
    (MessageRead(1), Refused(Refusal::NotAsleep)),
    (MessageRead(2), Returns(None)),
    (
        State(2),
        Is(CpuState::InCall {
            reply: Reply::At(0x20000),
            left: 1,
        }),
    ),
    (WakeAll, Done),
    (State(1), Is(CpuState::Woken(STORE_11))),
    (MessageRead(1), Refused(Refusal::NotAsleep)),
    (MessageRead(2), Returns(Some(Reply::At(0x20000)))),
    (State(2), Is(CpuState::Idle)),
    (MessageRead(0), Returns(Some(EINVAL))),
    (MessageRead(0), Refused(Refusal::NotAsleep)),
];

#[test]
fn the_last_message_hands_the_reply_over(rt: HostRuntime) -> Result<(), Fail> {
    play(&rt, rt.alloc(), &IN_CALLS)
}

/// Each call that names a processor, of one that is not there.
const NOBODY: [(Call, Answer); 11] = [
    (State(3), Refused(Refusal::NoCpu)),
    (Outstanding(3), Refused(Refusal::NoCpu)),
    (EnsureIdle(3), Refused(Refusal::NoCpu)),
    (Woken(3), Refused(Refusal::NoCpu)),
    (Sleep(3, LOAD_11), Refused(Refusal::NoCpu)),
    (CallSleeps(255, EINVAL, 1), Refused(Refusal::NoCpu)),
    (Take(3), Refused(Refusal::NoCpu)),
    (MessageRead(255), Refused(Refusal::NoCpu)),
    (Sleep(0, LOAD_11), Done),
    (WakeAll, Done),
    (State(0), Is(CpuState::Woken(LOAD_11))),
];

#[test]
fn a_call_of_no_processor_is_refused(rt: HostRuntime) -> Result<(), Fail> {
    play(&rt, rt.alloc(), &NOBODY)
}

/// Processors that were handed a command are woken, and the others idle, whatever they did before.
const TAKEN_OVER: [(Call, Answer); 6] = [
    (CallSleeps(1, Reply::Done, 3), Done),
    (TakeOver([Some(LOAD_11), None, Some(STORE_11)]), Done),
    (State(0), Is(CpuState::Woken(LOAD_11))),
    (State(1), Is(CpuState::Idle)),
    (State(2), Is(CpuState::Woken(STORE_11))),
    (Sleep(1, LOAD_12), Done),
];

#[test]
fn what_was_handed_over_is_tried_again(rt: HostRuntime) -> Result<(), Fail> {
    play(&rt, rt.alloc(), &TAKEN_OVER)
}

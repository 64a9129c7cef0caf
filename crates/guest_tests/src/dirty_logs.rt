//! `DirtyLog`, call by call, with the space and the processors that are lent to it.

ghost use Rattle.std.specs.Prelude.{◌≡◌, true, false};
ghost use Rattle.mig_base.specs.Commands.{is_access};
ghost use Rattle.uffd_ioctl.specs.Lent.{IsLent};

use crate::lent::{new_cpus, opened};
use dirty_log::{DirtyLog, PageContent};
use mig_base::act::Act;
use mig_base::cpu_state::CpuState;
use mig_base::effect::Effect;
use mig_base::refusal::Refusal;
use mig_base::{Access, Addr, Command, HIGH_PAGE, Message, NoMemory, PageNo, Place, Prot, Reply};
use std::alloc::Global;
use std::process::Abort;
use std::test::Fail;
use uffd_ioctl::Space;
use vcpu::Cpus;

/// A call with its arguments.
#[derive(Clone, Copy)]
enum Call {
    /// A processor makes a command.
    Issue(u8, Command),
    Register,
    Plan,
    Send(PageNo),
    SendNext,
    /// A run from the lowest page of the round on, of at most this many pages.
    SendRun(u32),
    Read,
    Act,
    Discarded,
    Forget,
    DropHeld,
    /// What a processor does.
    Cpu(u8),
    /// How many pages are clean, to be sent and ever sent, and how many faults are held.
    Counts,
}

#[derive(Clone, Copy, PartialEq, Eq)]
enum Answer {
    Done,
    Nothing,
    Answered(Reply),
    Asleep,
    InCall(u8),
    /// A page with its first byte, or zeros.
    Sent(PageNo, Option<u8>),
    /// The first page of a run, how many they are, and the first byte of the last.
    Run(PageNo, usize, u8),
    Told(Effect),
    Acted(Act, Addr),
    Is(CpuState),
    Pages(u32),
    Counted([u32; 3], usize),
}

fn access(space: &mut Space, cpu: u8, command: Command) -> Result<Access, NoMemory>
    requires access { is_access command ≡ true }
    requires lent { IsLent space.old }
    ensures { IsLent space.new }
{
    space.access(cpu, command)
}

fn map_call(space: &mut Space, cpu: u8, command: Command) -> Result<(Reply, u8), NoMemory>
    requires call { is_access command ≡ false }
    requires lent { IsLent space.old }
    ensures { IsLent space.new }
{
    space.is_in_order();
    space.map_call(cpu, command)
}

/// A processor makes a command: it is answered, sleeps, or is in a call.
fn issue(space: &mut Space, cpus: &mut Cpus, cpu: u8, command: Command) -> Result<Answer, Refusal>
    requires lent { IsLent space.old }
    ensures { IsLent space.new }
{
    if command.is_access() {
        match access(space, cpu, command) {
            Ok(Access::Answered(reply)) => Ok(Answer::Answered(reply)),
            Ok(_) => cpus.sleep(cpu, command).map(|()| Answer::Asleep),
            Err(NoMemory) => Err(Refusal::NoMemory),
        }
    } else {
        match map_call(space, cpu, command) {
            Ok((reply, 0)) => Ok(Answer::Answered(reply)),
            Ok((reply, left)) => cpus
                .call_sleeps(cpu, reply, left)
                .map(|()| Answer::InCall(left)),
            Err(NoMemory) => Err(Refusal::NoMemory),
        }
    }
}

fn send(
    rt: &impl Abort,
    log: &mut DirtyLog,
    space: &mut Space,
    page: PageNo,
) -> Result<Answer, Refusal>
    requires lent { IsLent space.old }
    ensures { IsLent space.new }
{
    assert!(rt; page < HIGH_PAGE);
    match DirtyLog::send_page(space, log, page)? {
        PageContent::Page(bytes) => Ok(Answer::Sent(page, Some(bytes[0]))),
        PageContent::Zero => Ok(Answer::Sent(page, None)),
    }
}

fn send_run(
    rt: &impl Abort,
    log: &mut DirtyLog,
    space: &mut Space,
    most: u32,
) -> Result<Answer, Refusal>
    requires lent { IsLent space.old }
    ensures { IsLent space.new }
{
    let Some(first) = log.next_page() else {
        return Ok(Answer::Nothing);
    };
    let count = log.run_length(first, most);
    assert!(rt; count > 0);
    let pages = log.send_run(space, first, count)?;
    match pages.last() {
        Some(last) => Ok(Answer::Run(first, pages.len(), last.as_array()[0])),
        None => Ok(Answer::Nothing),
    }
}

/// Makes a call that changes no space.
fn asked(log: &mut DirtyLog, space: &Space, cpus: &Cpus, call: Call) -> Result<Answer, Refusal> {
    match call {
        Call::Plan => match log.dirty(space) {
            Ok(todo) => {
                log.begin_round(todo);
                Ok(Answer::Done)
            }
            Err(NoMemory) => Err(Refusal::NoMemory),
        },
        Call::Discarded => match log.discarded() {
            Ok(pages) => Ok(Answer::Pages(pages.len())),
            Err(NoMemory) => Err(Refusal::NoMemory),
        },
        Call::Forget => {
            log.forget();
            Ok(Answer::Done)
        }
        Call::DropHeld => {
            log.drop_held();
            Ok(Answer::Done)
        }
        Call::Cpu(cpu) => cpus.state(cpu).map(Answer::Is),
        _ => Ok(Answer::Counted(
            [log.clean().len(), next_run(log), log.ever_sent().len()],
            log.held(),
        )),
    }
}

/// The number of pages in the run that the round sends next.
fn next_run(log: &DirtyLog) -> u32 {
    match log.next_page() {
        Some(first) => log.run_length(first, 64),
        None => 0,
    }
}

/// Makes a call.
fn make(
    rt: &impl Abort,
    log: &mut DirtyLog,
    space: &mut Space,
    cpus: &mut Cpus,
    call: Call,
) -> Result<Answer, Refusal>
    requires lent { IsLent space.old }
    ensures { IsLent space.new }
{
    match call {
        Call::Issue(cpu, command) => issue(space, cpus, cpu, command),
        Call::Register => match log.register_new(space) {
            Ok(()) => Ok(Answer::Done),
            Err(NoMemory) => Err(Refusal::NoMemory),
        },
        Call::Send(page) => send(rt, log, space, page),
        Call::SendNext => match log.next_page() {
            Some(page) => send(rt, log, space, page),
            None => Ok(Answer::Nothing),
        },
        Call::SendRun(most) => send_run(rt, log, space, most),
        Call::Read => log.read(space, cpus).map(Answer::Told),
        Call::Act => match log.act(space, cpus) {
            Ok((act, addr)) => Ok(Answer::Acted(act, addr)),
            Err(refusal) => Err(refusal),
        },
        _ => asked(log, space, cpus, call),
    }
}

/// Plays a table. Where memory is refused the log is as before, and the call is made again.
fn play(
    rt: &impl Abort,
    alloc: Global,
    steps: &[(Call, Result<Answer, Refusal>)],
) -> Result<(), Fail> {
    let mut cpus = new_cpus(alloc)?;
    let mut space = opened(alloc);
    let mut log = DirtyLog::new(alloc);
    for (i, (call, wanted)) in steps.iter().enumerate() {
        let before = asked(&mut log, &space, &cpus, Call::Counts);
        let mut answer = make(rt, &mut log, &mut space, &mut cpus, *call);
        if answer == Err(Refusal::NoMemory) {
            assert!(rt;
                asked(&mut log, &space, &cpus, Call::Counts) == before,
                "step {i}"
            );
            answer = make(rt, &mut log, &mut space, &mut cpus, *call);
        }
        assert!(rt; answer == *wanted, "step {i}");
    }
    Ok(())
}

const STORE_10: Command = Command::Store {
    addr: 0x10000,
    width: 8,
    value: 1,
};

const STORE_11: Command = Command::Store {
    addr: 0x11000,
    width: 8,
    value: 2,
};

const STORE_12: Command = Command::Store {
    addr: 0x12000,
    width: 8,
    value: 0,
};

const STORE_AGAIN: Command = Command::Store {
    addr: 0x10000,
    width: 8,
    value: 9,
};

const LOAD_13: Command = Command::Load {
    addr: 0x13000,
    width: 8,
};

/// Three pages are sent, one alone and two in a run; one is written again, one is dropped, and a missing one is read.
const ROUNDS: [(Call, Result<Answer, Refusal>); 36] = [
    (
        Call::Issue(
            1,
            Command::Mmap {
                addr_len: 0x4000,
                prot: Prot::ReadWrite,
                place: Place::Anywhere,
            },
        ),
        Ok(Answer::Answered(Reply::At(0x10000))),
    ),
    (Call::Issue(0, STORE_10), Ok(Answer::Answered(Reply::Done))),
    (Call::Issue(0, STORE_11), Ok(Answer::Answered(Reply::Done))),
    (Call::Issue(0, STORE_12), Ok(Answer::Answered(Reply::Done))),
    (Call::Send(0x10), Err(Refusal::PageNotSendable)),
    (Call::Register, Ok(Answer::Done)),
    (Call::SendNext, Ok(Answer::Nothing)),
    (Call::Plan, Ok(Answer::Done)),
    (Call::Counts, Ok(Answer::Counted([0, 3, 0], 0))),
    (Call::SendNext, Ok(Answer::Sent(0x10, Some(1)))),
    (Call::SendRun(64), Ok(Answer::Run(0x11, 2, 0))),
    (Call::Counts, Ok(Answer::Counted([3, 0, 3], 0))),
    (Call::Issue(0, STORE_AGAIN), Ok(Answer::Asleep)),
    (Call::Act, Err(Refusal::NothingThere)),
    (
        Call::Read,
        Ok(Answer::Told(Effect::ReadFault {
            addr: 0x10000,
            wp: true,
        })),
    ),
    (Call::Counts, Ok(Answer::Counted([3, 0, 3], 1))),
    (Call::Act, Ok(Answer::Acted(Act::Unprotected, 0x10000))),
    (Call::Cpu(0), Ok(Answer::Is(CpuState::Woken(STORE_AGAIN)))),
    (Call::Counts, Ok(Answer::Counted([2, 0, 3], 0))),
    (Call::Discarded, Ok(Answer::Pages(1))),
    (Call::Issue(2, LOAD_13), Ok(Answer::Asleep)),
    (
        Call::Read,
        Ok(Answer::Told(Effect::ReadFault {
            addr: 0x13000,
            wp: false,
        })),
    ),
    (
        Call::Issue(
            1,
            Command::DontNeed {
                addr: 0x11000,
                len: 0x1000,
            },
        ),
        Ok(Answer::InCall(1)),
    ),
    (Call::Act, Err(Refusal::Changing)),
    (Call::Send(0x12), Err(Refusal::Changing)),
    (
        Call::Read,
        Ok(Answer::Told(Effect::ReadLast {
            event: Message::Remove {
                start: 0x11000,
                end: 0x12000,
            },
            cpu: 1,
            reply: Reply::Done,
        })),
    ),
    (Call::Act, Ok(Answer::Acted(Act::Zeroed, 0x13000))),
    (Call::Cpu(2), Ok(Answer::Is(CpuState::Woken(LOAD_13)))),
    (Call::Send(0x11), Err(Refusal::PageNotSendable)),
    (Call::Read, Err(Refusal::NothingThere)),
    (Call::Plan, Ok(Answer::Done)),
    (Call::Counts, Ok(Answer::Counted([1, 1, 3], 0))),
    (Call::SendNext, Ok(Answer::Sent(0x10, Some(1)))),
    (Call::SendNext, Ok(Answer::Sent(0x13, None))),
    (Call::Forget, Ok(Answer::Done)),
    (Call::Counts, Ok(Answer::Counted([0, 0, 0], 0))),
];

#[test]
fn pages_are_sent_and_written_again(rt: HostRuntime) -> Result<(), Fail> {
    play(&rt, rt.alloc(), &ROUNDS)
}

/// A page that is sent out of its turn does not hide those below it, and a new round begins at its least page.
const OUT_OF_TURN: [(Call, Result<Answer, Refusal>); 18] = [
    (
        Call::Issue(
            1,
            Command::Mmap {
                addr_len: 0x4000,
                prot: Prot::ReadWrite,
                place: Place::Anywhere,
            },
        ),
        Ok(Answer::Answered(Reply::At(0x10000))),
    ),
    (Call::Issue(0, STORE_10), Ok(Answer::Answered(Reply::Done))),
    (Call::Issue(0, STORE_11), Ok(Answer::Answered(Reply::Done))),
    (Call::Issue(0, STORE_12), Ok(Answer::Answered(Reply::Done))),
    (Call::Register, Ok(Answer::Done)),
    (Call::Plan, Ok(Answer::Done)),
    (Call::Send(0x11), Ok(Answer::Sent(0x11, Some(2)))),
    (Call::SendNext, Ok(Answer::Sent(0x10, Some(1)))),
    (Call::Send(0x10), Ok(Answer::Sent(0x10, Some(1)))),
    (Call::SendNext, Ok(Answer::Sent(0x12, None))),
    (Call::SendNext, Ok(Answer::Nothing)),
    (Call::Issue(0, STORE_AGAIN), Ok(Answer::Asleep)),
    (
        Call::Read,
        Ok(Answer::Told(Effect::ReadFault {
            addr: 0x10000,
            wp: true,
        })),
    ),
    (Call::Act, Ok(Answer::Acted(Act::Unprotected, 0x10000))),
    (Call::SendNext, Ok(Answer::Nothing)),
    (Call::Plan, Ok(Answer::Done)),
    (Call::SendNext, Ok(Answer::Sent(0x10, Some(1)))),
    (Call::SendNext, Ok(Answer::Nothing)),
];

#[test]
fn the_next_page_is_the_least(rt: HostRuntime) -> Result<(), Fail> {
    play(&rt, rt.alloc(), &OUT_OF_TURN)
}

/// Held faults are dropped at a switch.
const GIVEN_UP: [(Call, Result<Answer, Refusal>); 7] = [
    (
        Call::Issue(
            1,
            Command::Mmap {
                addr_len: 0x4000,
                prot: Prot::ReadWrite,
                place: Place::Anywhere,
            },
        ),
        Ok(Answer::Answered(Reply::At(0x10000))),
    ),
    (Call::Register, Ok(Answer::Done)),
    (Call::Issue(2, LOAD_13), Ok(Answer::Asleep)),
    (
        Call::Read,
        Ok(Answer::Told(Effect::ReadFault {
            addr: 0x13000,
            wp: false,
        })),
    ),
    (Call::Counts, Ok(Answer::Counted([0, 0, 0], 1))),
    (Call::DropHeld, Ok(Answer::Done)),
    (Call::Counts, Ok(Answer::Counted([0, 0, 0], 0))),
];

#[test]
fn held_faults_are_given_up(rt: HostRuntime) -> Result<(), Fail> {
    play(&rt, rt.alloc(), &GIVEN_UP)
}

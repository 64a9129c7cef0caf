//! `issue` and `retry`, call by call.

use crate::lent::{new_cpus, opened};
use guest::{Tried, issue, retry};
use mig_base::cpu_state::CpuState;
use mig_base::effect::Effect;
use mig_base::refusal::Refusal;
use mig_base::{Addr, Command, Message, PAGE_SIZE, Place, Prot, Reply};
use std::alloc::Global;
use std::process::Abort;
use std::test::Fail;
use uffd_ioctl::{CopyFault, IoctlFault, Space};
use vcpu::{Cpus, NewFault};

/// A call with its arguments.
#[derive(Clone, Copy)]
enum Call {
    Issue(u8, Command),
    Retry(u8),
    /// At a node that does not run the processors.
    IssueAway(u8, Command),
    RetryAway(u8),
    /// Registers the mapped pages of this many bytes from an address on in both modes.
    Register(Addr, u64),
    /// Makes a missing page zeros, and wakes its sleepers.
    MakeZeros(Addr),
    Protect(Addr),
    /// Ends the protection of a page, and wakes its sleepers.
    Unprotect(Addr),
    /// Wakes the sleepers of a page.
    Wake(Addr),
    /// Reads the next message.
    Read,
    /// What a processor does.
    Cpu(u8),
}

use Call::{
    Cpu, Issue, IssueAway, MakeZeros, Protect, Read, Register, Retry, RetryAway, Unprotect, Wake,
};

#[derive(Clone, Copy, PartialEq, Eq)]
enum Answer {
    Done,
    /// A command was answered, and entered so.
    Answered(u8, Command, Reply),
    Asleep(u8),
    /// A processor is in a call until that many messages are read. The call was entered with its reply.
    InCall(u8, u8, Command, Reply),
    /// The effect and the entry are of no command.
    Unfit(Tried),
    /// A page fault was read.
    Fault(Addr),
    /// An event was read. The last of its call hands the reply over.
    Event(Option<Reply>),
    Is(CpuState),
}

use Answer::{Answered, Asleep, Done, Event, Fault, InCall, Is, Unfit};

/// The outcome of a command.
fn told(tried: Tried) -> Answer {
    match (tried.effect, tried.entry) {
        (Effect::Asleep { cpu }, None) => Asleep(cpu),
        (Effect::Answered { cpu, reply }, Some(entry))
            if entry.cpu == cpu && entry.reply == reply => Answered(cpu, entry.command, reply),
        (Effect::InCall { cpu, messages }, Some(entry)) if entry.cpu == cpu => InCall(
            cpu,
            messages,
            entry.command,
            entry.reply,
        ),
        _ => Unfit(tried),
    }
}

/// A node: its space and its processors.
#[derive(Drop)]
struct Node {
    space: Space,
    cpus: Cpus,
}

/// What a refused call must leave.
#[derive(Clone, Copy, PartialEq, Eq)]
struct Picture {
    cpus: [Result<CpuState, Refusal>; 3],
    events: usize,
    next: Option<Message>,
    present: [bool; 4],
}

impl Node {
    /// Three idle processors, and a space on which nothing is mapped, whose object is enabled.
    fn new(alloc: Global) -> Result<Self, NewFault> {
        let cpus = new_cpus(alloc)?;
        Ok(Node {
            space: opened(alloc),
            cpus,
        })
    }

    fn picture(&self) -> Picture {
        let mut present = [false; 4];
        for (page, is_present) in (0x10..0x14u32).zip(present.iter_mut()) {
            *is_present = self.space.page(page).is_some();
        }
        Picture {
            cpus: [self.cpus.state(0), self.cpus.state(1), self.cpus.state(2)],
            events: self.space.changing(),
            next: self.space.next_message(),
            present,
        }
    }

    /// Makes a call of the crate.
    fn call(&mut self, call: Call) -> Result<Answer, Refusal> {
        let (space, cpus) = (&mut self.space, &mut self.cpus);
        match call {
            Issue(cpu, command) => issue(space, cpus, cpu, command, true),
            Retry(cpu) => retry(space, cpus, cpu, true),
            IssueAway(cpu, command) => issue(space, cpus, cpu, command, false),
            RetryAway(cpu) => retry(space, cpus, cpu, false),
            other => return self.handle(other),
        }
        .map(told)
    }

    /// Does what a fault handler does.
    fn handle(&mut self, call: Call) -> Result<Answer, Refusal> {
        match call {
            Register(start, len) => match self.space.register(start, len, 3) {
                Err(IoctlFault::NoMemory) => return Err(Refusal::NoMemory),
                Err(IoctlFault::Errno(_)) => return Err(Refusal::NothingThere),
                Ok(()) => {}
            },
            MakeZeros(addr) => {
                self.make_zeros(addr)?;
                self.cpus.wake_span(addr, PAGE_SIZE);
            }
            Protect(addr) => self.protect(addr, 1)?,
            Unprotect(addr) => {
                self.protect(addr, 0)?;
                self.cpus.wake_span(addr, PAGE_SIZE);
            }
            Wake(addr) => self.cpus.wake_span(addr, PAGE_SIZE),
            Read => return self.read(),
            Cpu(cpu) => return self.cpus.state(cpu).map(Is),
            _ => return Err(Refusal::NothingThere),
        }
        Ok(Done)
    }

    fn make_zeros(&mut self, addr: Addr) -> Result<(), Refusal> {
        match self.space.zeropage(addr, PAGE_SIZE, 0) {
            Ok(_) => Ok(()),
            Err(
                CopyFault {
                    fault: IoctlFault::NoMemory,
                    ..
                },
            ) => Err(Refusal::NoMemory),
            Err(_) => Err(Refusal::NothingThere),
        }
    }

    fn protect(&mut self, addr: Addr, mode: u64) -> Result<(), Refusal> {
        match self.space.writeprotect(addr, PAGE_SIZE, mode) {
            Ok(_) => Ok(()),
            Err(_) => Err(Refusal::NothingThere),
        }
    }

    fn read(&mut self) -> Result<Answer, Refusal> {
        match self.space.read_message() {
            Err(_) => Err(Refusal::NothingThere),
            Ok((Message::PageFault { addr, .. }, _)) => Ok(Fault(addr)),
            Ok((_, cpu)) => self.cpus.message_read(cpu).map(Event),
        }
    }
}

/// Plays a table.
fn play(
    rt: &impl Abort,
    alloc: Global,
    steps: &[(Call, Result<Answer, Refusal>)],
) -> Result<(), Fail> {
    let mut node = Node::new(alloc)?;
    for (i, (call, wanted)) in steps.iter().enumerate() {
        let before = node.picture();
        let mut answer = node.call(*call);
        if answer.is_err() {
            assert!(rt; node.picture() == before, "step {i}");
        }
        if answer == Err(Refusal::NoMemory) {
            answer = node.call(*call);
        }
        assert!(rt; answer == *wanted, "step {i}");
    }
    Ok(())
}

const MMAP: Command = Command::Mmap {
    addr_len: 0x4000,
    prot: Prot::ReadWrite,
    place: Place::Anywhere,
};

const STORE_10: Command = Command::Store {
    addr: 0x10000,
    width: 8,
    value: 1,
};

const STORE_AGAIN: Command = Command::Store {
    addr: 0x10008,
    width: 1,
    value: 9,
};

const LOAD_10: Command = Command::Load {
    addr: 0x10000,
    width: 8,
};

const LOAD_12: Command = Command::Load {
    addr: 0x12000,
    width: 2,
};

const LOAD_13: Command = Command::Load {
    addr: 0x13008,
    width: 4,
};

/// A load of a missing page sleeps and makes no entry. Once the page is there and the processor woken it is answered, and entered.
const MISSING: [(Call, Result<Answer, Refusal>); 16] = [
    (Issue(1, MMAP), Ok(Answered(1, MMAP, Reply::At(0x10000)))),
    (Issue(0, STORE_10), Ok(Answered(0, STORE_10, Reply::Done))),
    (Register(0x10000, 0x4000), Ok(Done)),
    (Issue(0, LOAD_13), Ok(Asleep(0))),
    (Cpu(0), Ok(Is(CpuState::Asleep(LOAD_13)))),
    (Issue(2, LOAD_10), Ok(Answered(2, LOAD_10, Reply::Value(1)))),
    (Read, Ok(Fault(0x13000))),
    (MakeZeros(0x13000), Ok(Done)),
    (Cpu(0), Ok(Is(CpuState::Woken(LOAD_13)))),
    (Retry(0), Ok(Answered(0, LOAD_13, Reply::Value(0)))),
    (Cpu(0), Ok(Is(CpuState::Idle))),
    (Retry(0), Err(Refusal::NotAsleep)),
    (Issue(0, LOAD_12), Ok(Asleep(0))),
    (Wake(0x12000), Ok(Done)),
    (Retry(0), Ok(Asleep(0))),
    (Cpu(0), Ok(Is(CpuState::Asleep(LOAD_12)))),
];

#[test]
fn a_load_sleeps_until_its_page_is_there(rt: HostRuntime) -> Result<(), Fail> {
    play(&rt, rt.alloc(), &MISSING)
}

/// A store to a protected page sleeps, and a load of it does not.
const PROTECTED: [(Call, Result<Answer, Refusal>); 10] = [
    (Issue(1, MMAP), Ok(Answered(1, MMAP, Reply::At(0x10000)))),
    (Issue(0, STORE_10), Ok(Answered(0, STORE_10, Reply::Done))),
    (Register(0x10000, 0x4000), Ok(Done)),
    (Protect(0x10000), Ok(Done)),
    (Issue(2, STORE_AGAIN), Ok(Asleep(2))),
    (Issue(0, LOAD_10), Ok(Answered(0, LOAD_10, Reply::Value(1)))),
    (Read, Ok(Fault(0x10000))),
    (Unprotect(0x10000), Ok(Done)),
    (Retry(2), Ok(Answered(2, STORE_AGAIN, Reply::Done))),
    (Cpu(2), Ok(Is(CpuState::Idle))),
];

#[test]
fn a_store_sleeps_until_its_page_is_open(rt: HostRuntime) -> Result<(), Fail> {
    play(&rt, rt.alloc(), &PROTECTED)
}

/// Two pages become one and move over another.
const MREMAP: Command = Command::Mremap {
    addr: 0x10000,
    old_len: 0x2000,
    new_len: 0x1000,
    may_move: true,
    fixed: Some(0x12000),
};

const AT_12: Reply = Reply::At(0x12000);

/// A map call is entered at once, and continues until its three messages are read.
const IN_A_CALL: [(Call, Result<Answer, Refusal>); 14] = [
    (Issue(1, MMAP), Ok(Answered(1, MMAP, Reply::At(0x10000)))),
    (Issue(0, STORE_10), Ok(Answered(0, STORE_10, Reply::Done))),
    (Register(0x10000, 0x4000), Ok(Done)),
    (Issue(1, MREMAP), Ok(InCall(1, 3, MREMAP, AT_12))),
    (
        Cpu(1),
        Ok(Is(CpuState::InCall {
            reply: AT_12,
            left: 3,
        })),
    ),
    (Issue(1, LOAD_10), Err(Refusal::Busy)),
    (Retry(1), Err(Refusal::NotAsleep)),
    (Read, Ok(Event(None))),
    (Read, Ok(Event(None))),
    (
        Cpu(1),
        Ok(Is(CpuState::InCall {
            reply: AT_12,
            left: 1,
        })),
    ),
    (Read, Ok(Event(Some(AT_12)))),
    (Read, Err(Refusal::NothingThere)),
    (Issue(1, LOAD_12), Ok(Answered(1, LOAD_12, Reply::Value(1)))),
    (
        Issue(1, LOAD_10),
        Ok(Answered(1, LOAD_10, Reply::Segv { mapped: false })),
    ),
];

#[test]
fn a_map_call_goes_on_until_its_messages_are_read(rt: HostRuntime) -> Result<(), Fail> {
    play(&rt, rt.alloc(), &IN_A_CALL)
}

/// Each refusal, and which comes first.
const REFUSED: [(Call, Result<Answer, Refusal>); 18] = [
    (Issue(1, MMAP), Ok(Answered(1, MMAP, Reply::At(0x10000)))),
    (Register(0x10000, 0x4000), Ok(Done)),
    (Issue(3, LOAD_10), Err(Refusal::NoCpu)),
    (IssueAway(255, LOAD_10), Err(Refusal::NoCpu)),
    (Retry(3), Err(Refusal::NoCpu)),
    (RetryAway(3), Err(Refusal::NoCpu)),
    (IssueAway(0, LOAD_10), Err(Refusal::Phase)),
    (IssueAway(0, MREMAP), Err(Refusal::Phase)),
    (RetryAway(0), Err(Refusal::NotAsleep)),
    (Issue(0, LOAD_10), Ok(Asleep(0))),
    (Issue(0, LOAD_10), Err(Refusal::Busy)),
    (IssueAway(0, MREMAP), Err(Refusal::Busy)),
    (Retry(0), Err(Refusal::NotWoken)),
    (RetryAway(0), Err(Refusal::NotWoken)),
    (Wake(0x10000), Ok(Done)),
    (Issue(0, LOAD_10), Err(Refusal::Busy)),
    (RetryAway(0), Err(Refusal::Phase)),
    (Cpu(0), Ok(Is(CpuState::Woken(LOAD_10)))),
];

#[test]
fn the_first_refusal_is_answered(rt: HostRuntime) -> Result<(), Fail> {
    play(&rt, rt.alloc(), &REFUSED)
}

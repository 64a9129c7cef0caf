//! The reading of messages, `make_zeros` and `install_page`, call by call.

ghost use Rattle.std.specs.Prelude.{◌≡◌, true, false};
ghost use Rattle.mig_base.specs.Userfault as object;
ghost use Rattle.mig_model.specs.Guest.{is_forgotten, is_present};
ghost use Rattle.uffd_ioctl.specs.Lent.{IsLent};

use crate::lent::{new_cpus, opened};
use guest::issue;
use mig_base::cpu_state::CpuState;
use mig_base::effect::Effect;
use mig_base::refusal::Refusal;
use mig_base::{
    Addr, Command, HIGH, LOW, Message, NoMemory, PAGE_BYTES, PageBytes, PageNo, Place, Prot, Reply,
};
use std::alloc::Global;
use std::process::Abort;
use std::test::Fail;
use uffd_ioctl::{IoctlFault, Space, install_page, make_zeros};
use vcpu::Cpus;

/// A call with its arguments.
#[derive(Clone, Copy)]
enum Call {
    /// A processor makes a command.
    Issue(u8, Command),
    /// Registers the mapped pages in both modes.
    Register,
    Read,
    /// Makes a missing page zeros, and wakes its sleepers.
    MakeZeros(PageNo),
    /// Makes a missing page present with bytes that are all this one, and wakes its sleepers.
    Install(PageNo, u8),
    /// The first byte of a page, if it is present, and the last.
    Ends(PageNo),
    /// What a processor does.
    Cpu(u8),
}

#[derive(Clone, Copy, PartialEq, Eq)]
enum Answer {
    Done,
    Tried(Effect),
    Message(Message, Effect),
    Bytes(Option<[u8; 2]>),
    Is(CpuState),
}

fn issued(space: &mut Space, cpus: &mut Cpus, cpu: u8, command: Command) -> Result<Answer, Refusal>
    requires lent { IsLent space.old }
    ensures { IsLent space.new }
{
    space.is_in_order();
    let tried = issue(space, cpus, cpu, command, true)?;
    Ok(Answer::Tried(tried.effect))
}

fn register(space: &mut Space) -> Result<Answer, Refusal>
    requires lent { IsLent space.old }
    ensures { IsLent space.new }
{
    match space.register(LOW, HIGH - LOW, 3) {
        Ok(()) => Ok(Answer::Done),
        Err(IoctlFault::NoMemory) => Err(Refusal::NoMemory),
        Err(IoctlFault::Errno(_)) => Err(Refusal::NothingThere),
    }
}

fn read(space: &mut Space, cpus: &mut Cpus) -> Result<Answer, Refusal>
    requires lent { IsLent space.old }
    ensures { IsLent space.new }
{
    match space.read_message() {
        Ok((message, cpu)) => Ok(Answer::Message(message, cpus.read(message, cpu))),
        Err(_) => Err(Refusal::NothingThere),
    }
}

/// Whether a page can be made present: it is missing and registered, and no event is unread.
fn is_wanted(space: &Space, page: PageNo) -> bool
    ensures quiet { result ≡ true → object.changing space.now.object ≡ 0 }
    ensures watched { result ≡ true → is_forgotten space.now page ≡ false }
    ensures missing { result ≡ true → is_present space.now page ≡ false }
{
    space.is_in_order();
    let mode = space.mode_at(page);
    space.changing() == 0 && (mode.missing || mode.protect) && space.page(page).is_none()
}

fn zeros(space: &mut Space, cpus: &mut Cpus, page: PageNo) -> Result<Answer, Refusal>
    requires lent { IsLent space.old }
    ensures { IsLent space.new }
{
    if !is_wanted(space, page) {
        return Err(Refusal::PageNotSendable);
    }
    match make_zeros(space, page) {
        Ok(()) => {
            cpus.wake_page(u64::from(page));
            Ok(Answer::Done)
        }
        Err(NoMemory) => Err(Refusal::NoMemory),
    }
}

/// Where memory is refused the bytes come back.
fn filled(
    rt: &impl Abort,
    alloc: Global,
    space: &mut Space,
    cpus: &mut Cpus,
    page: PageNo,
    byte: u8,
) -> Result<Answer, Refusal>
    requires lent { IsLent space.old }
    ensures { IsLent space.new }
{
    if !is_wanted(space, page) {
        return Err(Refusal::PageNotSendable);
    }
    let Ok(bytes) = PageBytes::copy_of(alloc, &[byte; PAGE_BYTES]) else {
        return Err(Refusal::NoMemory);
    };
    match install_page(space, page, bytes) {
        Ok(()) => {
            cpus.wake_page(u64::from(page));
            Ok(Answer::Done)
        }
        Err(back) => {
            assert_eq!(rt; back.as_array()[0], byte);
            Err(Refusal::NoMemory)
        }
    }
}

/// What a call that changes nothing tells.
fn shown(space: &Space, cpus: &Cpus, call: Call) -> Result<Answer, Refusal> {
    match call {
        Call::Ends(page) => Ok(Answer::Bytes(
            space
                .page(page)
                .map(|bytes| [bytes[0], bytes[PAGE_BYTES - 1]]),
        )),
        Call::Cpu(cpu) => cpus.state(cpu).map(Answer::Is),
        _ => Err(Refusal::NothingThere),
    }
}

/// Makes a call.
fn make(
    rt: &impl Abort,
    alloc: Global,
    space: &mut Space,
    cpus: &mut Cpus,
    call: Call,
) -> Result<Answer, Refusal>
    requires lent { IsLent space.old }
    ensures { IsLent space.new }
{
    match call {
        Call::Issue(cpu, command) => issued(space, cpus, cpu, command),
        Call::Register => register(space),
        Call::Read => read(space, cpus),
        Call::MakeZeros(page) => zeros(space, cpus, page),
        Call::Install(page, byte) => filled(rt, alloc, space, cpus, page, byte),
        _ => shown(space, cpus, call),
    }
}

/// What a refused call must leave.
#[derive(Clone, Copy, PartialEq, Eq)]
struct Picture {
    cpus: [Result<CpuState, Refusal>; 3],
    events: usize,
    next: Option<Message>,
    present: [bool; 8],
}

fn pictured(space: &Space, cpus: &Cpus) -> Picture {
    let mut present = [false; 8];
    for (page, is_present) in (0x10..0x18u32).zip(present.iter_mut()) {
        *is_present = space.page(page).is_some();
    }
    Picture {
        cpus: [cpus.state(0), cpus.state(1), cpus.state(2)],
        events: space.changing(),
        next: space.next_message(),
        present,
    }
}

/// Plays a table.
fn play(
    rt: &impl Abort,
    alloc: Global,
    steps: &[(Call, Result<Answer, Refusal>)],
) -> Result<(), Fail> {
    let mut cpus = new_cpus(alloc)?;
    let mut space = opened(alloc);
    for (i, (call, wanted)) in steps.iter().enumerate() {
        let before = pictured(&space, &cpus);
        let mut answer = make(rt, alloc, &mut space, &mut cpus, *call);
        if answer.is_err() {
            assert!(rt; pictured(&space, &cpus) == before, "step {i}");
        }
        if answer == Err(Refusal::NoMemory) {
            answer = make(rt, alloc, &mut space, &mut cpus, *call);
        }
        assert!(rt; answer == *wanted, "step {i}");
    }
    Ok(())
}

const MMAP: Command = Command::Mmap {
    addr_len: 0x4000,
    prot: Prot::ReadWrite,
    place: Place::Anywhere,
};

const LOAD_10: Command = Command::Load {
    addr: 0x10000,
    width: 8,
};

const LOAD_11: Command = Command::Load {
    addr: 0x11000,
    width: 8,
};

const LOAD_12: Command = Command::Load {
    addr: 0x12000,
    width: 8,
};

const DROP_10: Command = Command::DontNeed {
    addr: 0x10000,
    len: 0x1000,
};

const DROPPED_10: Message = Message::Remove {
    start: 0x10000,
    end: 0x11000,
};

const FAULT_10: Answer = Answer::Message(
    Message::PageFault {
        addr: 0x10000,
        write: false,
        wp: false,
        tid: 1,
    },
    Effect::ReadFault {
        addr: 0x10000,
        wp: false,
    },
);

const FAULT_11: Answer = Answer::Message(
    Message::PageFault {
        addr: 0x11000,
        write: false,
        wp: false,
        tid: 1,
    },
    Effect::ReadFault {
        addr: 0x11000,
        wp: false,
    },
);

const FAULT_12: Answer = Answer::Message(
    Message::PageFault {
        addr: 0x12000,
        write: false,
        wp: false,
        tid: 3,
    },
    Effect::ReadFault {
        addr: 0x12000,
        wp: false,
    },
);

/// Missing pages are made present, one with zeros and one with bytes, and their sleepers are woken. A page that is there, or is not
/// registered, is not made present, and none is while an event is unread.
const MADE_PRESENT: [(Call, Result<Answer, Refusal>); 23] = [
    (
        Call::Issue(1, MMAP),
        Ok(Answer::Tried(Effect::Answered {
            cpu: 1,
            reply: Reply::At(0x10000),
        })),
    ),
    (Call::MakeZeros(0x10), Err(Refusal::PageNotSendable)),
    (Call::Register, Ok(Answer::Done)),
    (
        Call::Issue(0, LOAD_10),
        Ok(Answer::Tried(Effect::Asleep { cpu: 0 })),
    ),
    (
        Call::Issue(2, LOAD_12),
        Ok(Answer::Tried(Effect::Asleep { cpu: 2 })),
    ),
    (Call::Ends(0x10), Ok(Answer::Bytes(None))),
    (Call::MakeZeros(0x10), Ok(Answer::Done)),
    (Call::Ends(0x10), Ok(Answer::Bytes(Some([0, 0])))),
    (Call::Cpu(0), Ok(Answer::Is(CpuState::Woken(LOAD_10)))),
    (Call::Cpu(2), Ok(Answer::Is(CpuState::Asleep(LOAD_12)))),
    (Call::Install(0x12, 7), Ok(Answer::Done)),
    (Call::Ends(0x12), Ok(Answer::Bytes(Some([7, 7])))),
    (Call::Cpu(2), Ok(Answer::Is(CpuState::Woken(LOAD_12)))),
    (Call::Install(0x12, 8), Err(Refusal::PageNotSendable)),
    (Call::MakeZeros(0x14), Err(Refusal::PageNotSendable)),
    (
        Call::Issue(1, DROP_10),
        Ok(Answer::Tried(Effect::InCall {
            cpu: 1,
            messages: 1,
        })),
    ),
    (Call::Ends(0x10), Ok(Answer::Bytes(None))),
    (Call::Read, Ok(FAULT_10)),
    (Call::Read, Ok(FAULT_12)),
    (Call::Install(0x10, 9), Err(Refusal::PageNotSendable)),
    (
        Call::Read,
        Ok(Answer::Message(
            DROPPED_10,
            Effect::ReadLast {
                event: DROPPED_10,
                cpu: 1,
                reply: Reply::Done,
            },
        )),
    ),
    (Call::Install(0x10, 9), Ok(Answer::Done)),
    (Call::Ends(0x10), Ok(Answer::Bytes(Some([9, 9])))),
];

#[test]
fn missing_pages_are_made_present(rt: HostRuntime) -> Result<(), Fail> {
    play(&rt, rt.alloc(), &MADE_PRESENT)
}

/// A page moves to where none is mapped.
const MOVE_11: Command = Command::Mremap {
    addr: 0x11000,
    old_len: 0x1000,
    new_len: 0x1000,
    may_move: true,
    fixed: Some(0x14000),
};

const MOVED_11: Message = Message::Remap {
    from: 0x11000,
    to: 0x14000,
    len: 0x1000,
};

/// A page replaces another.
const MOVE_10: Command = Command::Mremap {
    addr: 0x10000,
    old_len: 0x1000,
    new_len: 0x1000,
    may_move: true,
    fixed: Some(0x12000),
};

const REPLACED_12: Message = Message::Unmap {
    start: 0x12000,
    end: 0x13000,
};

const MOVED_10: Message = Message::Remap {
    from: 0x10000,
    to: 0x12000,
    len: 0x1000,
};

/// Page faults are read before events. Who sleeps on a page that is gone or has moved away is woken, and the last message of a call
/// hands its reply over.
const MESSAGES: [(Call, Result<Answer, Refusal>); 20] = [
    (Call::Read, Err(Refusal::NothingThere)),
    (
        Call::Issue(1, MMAP),
        Ok(Answer::Tried(Effect::Answered {
            cpu: 1,
            reply: Reply::At(0x10000),
        })),
    ),
    (Call::Register, Ok(Answer::Done)),
    (Call::Read, Err(Refusal::NothingThere)),
    (
        Call::Issue(0, LOAD_11),
        Ok(Answer::Tried(Effect::Asleep { cpu: 0 })),
    ),
    (
        Call::Issue(1, MOVE_11),
        Ok(Answer::Tried(Effect::InCall {
            cpu: 1,
            messages: 1,
        })),
    ),
    (Call::Read, Ok(FAULT_11)),
    (Call::Cpu(0), Ok(Answer::Is(CpuState::Asleep(LOAD_11)))),
    (
        Call::Read,
        Ok(Answer::Message(
            MOVED_11,
            Effect::ReadLast {
                event: MOVED_11,
                cpu: 1,
                reply: Reply::At(0x14000),
            },
        )),
    ),
    (Call::Cpu(0), Ok(Answer::Is(CpuState::Woken(LOAD_11)))),
    (Call::Cpu(1), Ok(Answer::Is(CpuState::Idle))),
    (
        Call::Issue(2, LOAD_12),
        Ok(Answer::Tried(Effect::Asleep { cpu: 2 })),
    ),
    (
        Call::Issue(1, MOVE_10),
        Ok(Answer::Tried(Effect::InCall {
            cpu: 1,
            messages: 2,
        })),
    ),
    (Call::Read, Ok(FAULT_12)),
    (
        Call::Read,
        Ok(Answer::Message(REPLACED_12, Effect::ReadEvent { event: REPLACED_12 })),
    ),
    (Call::Cpu(2), Ok(Answer::Is(CpuState::Woken(LOAD_12)))),
    (
        Call::Cpu(1),
        Ok(Answer::Is(CpuState::InCall {
            reply: Reply::At(0x12000),
            left: 1,
        })),
    ),
    (
        Call::Read,
        Ok(Answer::Message(
            MOVED_10,
            Effect::ReadLast {
                event: MOVED_10,
                cpu: 1,
                reply: Reply::At(0x12000),
            },
        )),
    ),
    (Call::Cpu(1), Ok(Answer::Is(CpuState::Idle))),
    (Call::Read, Err(Refusal::NothingThere)),
];

#[test]
fn messages_are_read_in_order(rt: HostRuntime) -> Result<(), Fail> {
    play(&rt, rt.alloc(), &MESSAGES)
}

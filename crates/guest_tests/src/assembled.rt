//! A space of parts that another host has sent, and a new host.

ghost use Rattle.std.specs.Prelude.{◌≤◌};

use crate::parts::parts;
use crate::spaces::{Answer, Call, play_on};
use hosts::Host;
use mig_base::{Command, Errno, Message, NoMemory, Place, Prot, Reply};
use std::alloc::Global;
use std::process::Abort;
use std::test::Fail;
use uffd_ioctl::{Mode, Space};

/// A space of the parts. Where memory is refused the table comes back as it was.
fn assembled(rt: &impl Abort, alloc: Global, mode: u64) -> Result<Space, Fail>
    requires { mode ≤ 3 }
{
    let (areas, pages) = parts(alloc)?;
    match Space::assemble(alloc, areas, pages, mode) {
        Ok(space) => Ok(space),
        Err((NoMemory, back)) => {
            assert_eq!(rt; back.get(0x10).is_some(), true, "mode {mode}");
            assert_eq!(rt; back.get(0x11).is_some(), false, "mode {mode}");
            let (areas, pages) = parts(alloc)?;
            match Space::assemble(alloc, areas, pages, mode) {
                Ok(space) => Ok(space),
                Err((NoMemory, _)) => Err(NoMemory.into()),
            }
        }
    }
}

const BARE: Mode = Mode {
    missing: false,
    protect: false,
};

const MISSING: Mode = Mode {
    missing: true,
    protect: false,
};

const PROTECT: Mode = Mode {
    missing: false,
    protect: true,
};

const BOTH: Mode = Mode {
    missing: true,
    protect: true,
};

const STORED: Answer = Answer::Answered(Reply::Done);

const SEVEN: Answer = Answer::Answered(Reply::Value(7));

const ZERO: Answer = Answer::Answered(Reply::Value(0));

const EAGAIN: Answer = Answer::Errno(Errno::Eagain);

const EINVAL: Answer = Answer::Errno(Errno::Einval);

/// The object of an assembled space tells no thread.
const LOADED: Message = Message::PageFault {
    addr: 0x11000,
    write: false,
    wp: false,
    tid: 0,
};

/// For each mode: what the object is, the modes of a page that is mapped and of one that is not, a load of the missing page,
/// and the message that tells of it.
const MODES: [[(Call, Answer); 8]; 4] = [
    [
        (Call::FirstByte(0x10), Answer::Byte(Some(7))),
        (Call::ModeAt(0x10), Answer::Mode(BARE)),
        (Call::ModeAt(0x12), Answer::Mode(BARE)),
        (Call::Load(1, 0x11000, 8), ZERO),
        (Call::Read, EINVAL),
        (Call::Handshake(0xaa, 0x14d), Answer::Features(0x14d)),
        (Call::Store(0, 0x10000, 1, 8), STORED),
        (Call::Present(0x11), Answer::Among(false, 1)),
    ],
    [
        (Call::FirstByte(0x10), Answer::Byte(Some(7))),
        (Call::ModeAt(0x10), Answer::Mode(MISSING)),
        (Call::ModeAt(0x12), Answer::Mode(BARE)),
        (Call::Load(1, 0x11000, 8), Answer::Missing),
        (Call::Read, Answer::Message(LOADED, 1)),
        (Call::Handshake(0xaa, 0x14d), EINVAL),
        (Call::Store(0, 0x10000, 1, 8), STORED),
        (Call::Present(0x11), Answer::Among(false, 1)),
    ],
    [
        (Call::FirstByte(0x10), Answer::Byte(Some(7))),
        (Call::ModeAt(0x11), Answer::Mode(PROTECT)),
        (Call::ModeAt(0x12), Answer::Mode(BARE)),
        (Call::Load(1, 0x11000, 8), ZERO),
        (Call::Read, EAGAIN),
        (Call::Handshake(0xaa, 0x14d), EINVAL),
        (Call::Store(0, 0x11000, 1, 8), STORED),
        (Call::Present(0x11), Answer::Among(true, 2)),
    ],
    [
        (Call::FirstByte(0x10), Answer::Byte(Some(7))),
        (Call::ModeAt(0x11), Answer::Mode(BOTH)),
        (Call::ModeAt(0x12), Answer::Mode(BARE)),
        (Call::Load(1, 0x11000, 8), Answer::Missing),
        (Call::Load(1, 0x10008, 1), SEVEN),
        (Call::Handshake(0xaa, 0x14d), EINVAL),
        (Call::Store(0, 0x10000, 1, 8), STORED),
        (Call::IsProtected(0x10), Answer::Is(false)),
    ],
];

#[test]
fn a_space_of_each_mode(rt: HostRuntime) -> Result<(), Fail> {
    for mode in 0..4u64 {
        let mut space = assembled(&rt, rt.alloc(), mode)?;
        play_on(&rt, &mut space, &MODES[mode as usize])?;
    }
    Ok(())
}

/// Commands on a host on which nothing is mapped, and their replies.
const FROM_NOTHING: [(Command, Reply); 7] = [
    (
        Command::Load {
            addr: 0x10000,
            width: 1,
        },
        Reply::Segv { mapped: false },
    ),
    (
        Command::Mmap {
            addr_len: 4096,
            prot: Prot::ReadWrite,
            place: Place::Anywhere,
        },
        Reply::At(0x10000),
    ),
    (
        Command::Store {
            addr: 0x10ff8,
            width: 8,
            value: 0x1122_3344_5566_7788,
        },
        Reply::Done,
    ),
    (
        Command::Load {
            addr: 0x10ffc,
            width: 4,
        },
        Reply::Value(0x1122_3344),
    ),
    (
        Command::Load {
            addr: 0x10ffc,
            width: 8,
        },
        Reply::BadAccess,
    ),
    (
        Command::Mremap {
            addr: 0x10000,
            old_len: 4096,
            new_len: 4096,
            may_move: true,
            fixed: Some(0x11000),
        },
        Reply::At(0x11000),
    ),
    (
        Command::Load {
            addr: 0x11ff8,
            width: 8,
        },
        Reply::Value(0x1122_3344_5566_7788),
    ),
];

#[test]
fn a_new_host(rt: HostRuntime) -> Result<(), Fail> {
    let mut host = Host::new(rt.alloc());
    for (i, (command, wanted)) in FROM_NOTHING.iter().enumerate() {
        let mut reply = host.perform(*command);
        if reply == Err(NoMemory) {
            reply = host.perform(*command);
        }
        assert_eq!(rt; reply, Ok(*wanted), "command {i}");
    }
    Ok(())
}

//! How a table of calls of `Space` is played.

use mig_base::{Addr, Command, Errno, Message, NoMemory, PAGE_SIZE, PageNo, Place, Prot, Reply};
use std::alloc::Global;
use std::process::Abort;
use std::test::Fail;
use uffd_ioctl::{Access, Copied, CopyFault, IoctlFault, Mode, Space, Wake};

/// A call with its arguments.
#[derive(Clone, Copy)]
pub enum Call {
    /// Processor, address and width.
    Load(u8, Addr, u8),
    /// Processor, address, width and value.
    Store(u8, Addr, u8, u64),
    /// Map calls are made by processor 3.
    Mmap(u64, Prot, Place),
    Munmap(Addr, u64),
    /// Address, old and new length; it may not move.
    Mremap(Addr, u64, u64),
    /// Address, old and new length, and where to if that is fixed; it may move.
    MremapAway(Addr, u64, u64, Option<Addr>),
    DontNeed(Addr, u64),
    /// API and features.
    Handshake(u64, u64),
    Register(Addr, u64, u64),
    Unregister(Addr, u64),
    Wake(Addr, u64),
    /// Start, how many pages of ones, and the mode.
    Copy(Addr, usize, u64),
    Zeropage(Addr, u64, u64),
    WriteProtect(Addr, u64, u64),
    Read,
    /// The bytes of the message that is read next.
    NextBytes,
    Changing,
    ModeAt(PageNo),
    IsProtected(PageNo),
    /// The first byte of a page, if it is present.
    FirstByte(PageNo),
    /// Whether a page is among the present pages, and how many they are.
    Present(PageNo),
}

#[derive(Clone, Copy, PartialEq, Eq)]
pub enum Answer {
    /// A load or store is answered.
    Answered(Reply),
    Missing,
    Protected,
    /// A map call is answered, and has queued as many events.
    Called(Reply, u8),
    /// A call of the object is refused.
    Errno(Errno),
    Features(u64),
    Registered,
    Woken(Wake),
    /// As many bytes were put.
    Put(u64, Wake),
    /// As many bytes were put before it stopped.
    Stopped(u64, Errno, Wake),
    Message(Message, u8),
    Bytes([u8; 32]),
    Count(usize),
    Mode(Mode),
    Is(bool),
    Byte(Option<u8>),
    Among(bool, u32),
}

/// A page of those that `seen` looks at: its protection, its first byte, its mode and whether it is protected.
type Page = (Option<Prot>, Option<u8>, Mode, bool);

const NO_PAGE: Page = (
    None,
    None,
    Mode {
        missing: false,
        protect: false,
    },
    false,
);

fn first_byte(space: &Space, page: PageNo) -> Option<u8> {
    match space.page(page) {
        Some(bytes) => Some(bytes[0]),
        None => None,
    }
}

/// The pages that are looked at where memory is refused: those of the tables, in three leaves of each table of pages.
const LOOKED_AT: [PageNo; 16] = [
    0x10, 0x11, 0x12, 0x13, 0x14, 0x15, 0x16, 0x17, 0x400, 0x401, 0x402, 0x403, 0x800, 0x801,
    0x802, 0x803,
];

/// These pages, the message that is read next and how many events are unread.
pub fn seen(space: &Space) -> Result<([Page; 16], Option<Message>, usize), Fail> {
    let areas = match space.areas() {
        Ok(areas) => areas,
        Err(NoMemory) => space.areas()?,
    };
    let mut pages = [NO_PAGE; 16];
    for (place, page) in pages.iter_mut().zip(LOOKED_AT) {
        *place = (
            areas.prot_at(page),
            first_byte(space, page),
            space.mode_at(page),
            space.is_protected(page),
        );
    }
    Ok((pages, space.next_message(), space.changing()))
}

fn accessed(access: Access) -> Answer {
    match access {
        Access::Answered(reply) => Answer::Answered(reply),
        Access::Missing => Answer::Missing,
        Access::Protected => Answer::Protected,
    }
}

/// Makes a load, a store or a map call.
fn command(space: &mut Space, call: Call) -> Result<Answer, NoMemory> {
    let (reply, queued) = match call {
        Call::Load(cpu, addr, width) => {
            return Ok(accessed(space.access(cpu, Command::Load { addr, width })?));
        }
        Call::Store(cpu, addr, width, value) => {
            let store = Command::Store { addr, width, value };
            return Ok(accessed(space.access(cpu, store)?));
        }
        Call::Mmap(addr_len, prot, place) => space.map_call(
            3,
            Command::Mmap {
                addr_len,
                prot,
                place,
            },
        )?,
        Call::Munmap(addr, len) => space.map_call(3, Command::Munmap { addr, len })?,
        Call::Mremap(addr, old_len, new_len) => space.map_call(
            3,
            Command::Mremap {
                addr,
                old_len,
                new_len,
                may_move: false,
                fixed: None,
            },
        )?,
        Call::MremapAway(addr, old_len, new_len, fixed) => space.map_call(
            3,
            Command::Mremap {
                addr,
                old_len,
                new_len,
                may_move: true,
                fixed,
            },
        )?,
        Call::DontNeed(addr, len) => space.map_call(3, Command::DontNeed { addr, len })?,
        _ => (Reply::BadAccess, 0),
    };
    Ok(Answer::Called(reply, queued))
}

/// The answer of a copy or of a call for zeros: running out of memory is an error only if no page was put.
pub fn put(outcome: Result<Copied, CopyFault>) -> Result<Answer, NoMemory> {
    match outcome {
        Ok(Copied { bytes, wake }) => Ok(Answer::Put(bytes, wake)),
        Err(
            CopyFault {
                copied: 0,
                fault: IoctlFault::NoMemory,
                wake: Wake::Nobody,
            },
        ) => Err(NoMemory),
        Err(
            CopyFault {
                copied,
                fault: IoctlFault::Errno(errno),
                wake,
            },
        ) => Ok(Answer::Stopped(copied, errno, wake)),
        Err(CopyFault { copied, wake, .. }) => Ok(Answer::Stopped(copied, Errno::Enomem, wake)),
    }
}

fn woken(outcome: Result<Wake, Errno>) -> Answer {
    match outcome {
        Ok(wake) => Answer::Woken(wake),
        Err(errno) => Answer::Errno(errno),
    }
}

fn registered(space: &mut Space, start: Addr, len: u64, mode: u64) -> Result<Answer, NoMemory> {
    match space.register(start, len, mode) {
        Ok(()) => Ok(Answer::Registered),
        Err(IoctlFault::Errno(errno)) => Ok(Answer::Errno(errno)),
        Err(IoctlFault::NoMemory) => Err(NoMemory),
    }
}

/// Makes a call of the object, or asks the space.
fn make(rt: &impl Abort, space: &mut Space, call: Call) -> Result<Answer, NoMemory> {
    let answer = match call {
        Call::Handshake(api, features) => match space.handshake(api, features) {
            Ok(features) => Answer::Features(features),
            Err(errno) => Answer::Errno(errno),
        },
        Call::Register(start, len, mode) => registered(space, start, len, mode)?,
        Call::Unregister(start, len) => match space.unregister(start, len) {
            Ok(wake) => Answer::Woken(wake),
            Err(IoctlFault::Errno(errno)) => Answer::Errno(errno),
            Err(IoctlFault::NoMemory) => return Err(NoMemory),
        },
        Call::Wake(start, len) => woken(space.wake(start, len)),
        Call::Copy(start, pages, mode) => {
            assert!(rt; pages <= 2);
            let ones = [1; 8192];
            put(space.copy(start, &ones[..4096 * pages], mode))?
        }
        Call::Zeropage(start, len, mode) => put(space.zeropage(start, len, mode))?,
        Call::WriteProtect(start, len, mode) => woken(space.writeprotect(start, len, mode)),
        Call::Read => match space.read_message() {
            Ok((message, cpu)) => Answer::Message(message, cpu),
            Err(errno) => Answer::Errno(errno),
        },
        Call::Present(page) => {
            let pages = space.present()?;
            Answer::Among(pages.contains(page), pages.len())
        }
        _ => return asked(space, call),
    };
    Ok(answer)
}

/// What a space answers to a question, or to a command.
fn asked(space: &mut Space, call: Call) -> Result<Answer, NoMemory> {
    match call {
        Call::NextBytes => match space.next_message() {
            Some(message) => Ok(Answer::Bytes(message.to_bytes())),
            None => Ok(Answer::Errno(Errno::Eagain)),
        },
        Call::Changing => Ok(Answer::Count(space.changing())),
        Call::ModeAt(page) => Ok(Answer::Mode(space.mode_at(page))),
        Call::IsProtected(page) => Ok(Answer::Is(space.is_protected(page))),
        Call::FirstByte(page) => Ok(Answer::Byte(first_byte(space, page))),
        _ => command(space, call),
    }
}

/// Plays a table on a space.
pub fn play_on(rt: &impl Abort, space: &mut Space, steps: &[(Call, Answer)]) -> Result<(), Fail> {
    for (i, (call, wanted)) in steps.iter().enumerate() {
        let before = seen(space)?;
        let mut answer = make(rt, space, *call);
        if answer == Err(NoMemory) {
            assert_eq!(rt; seen(space)?, before, "step {i}");
            answer = make(rt, space, *call);
        }
        assert!(rt; answer == Ok(*wanted), "step {i}");
    }
    Ok(())
}

/// Plays a table on a new space.
pub fn play(rt: &impl Abort, alloc: Global, steps: &[(Call, Answer)]) -> Result<(), Fail> {
    let mut space = Space::new(alloc);
    play_on(rt, &mut space, steps)
}

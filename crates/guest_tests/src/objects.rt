//! The calls of the userfault object of a space, after userfaultfd(2) and ioctl_userfaultfd(2).

use crate::spaces::{Answer, Call, play, play_on, put};
use Answer::{Answered, Called, Features, Missing, Protected, Put, Registered, Stopped, Woken};
use Call::{
    Changing, Copy, DontNeed, FirstByte, Handshake, IsProtected, Load, Mmap, ModeAt, Mremap,
    MremapAway, Munmap, NextBytes, Present, Read, Register, Store, Unregister, WriteProtect,
    Zeropage,
};
use mig_base::{Errno, Message, NoMemory, Place, Prot, Reply, Wake};
use std::process::Abort;
use std::test::Fail;
use uffd_ioctl::{Mode, Space};

/// Two pages from 0x10000 on.
const MAP_TWO: Call = Mmap(8192, Prot::ReadWrite, Place::Anywhere);

const MAPPED: Answer = Called(Reply::At(0x10000), 0);

const ENABLE: Call = Handshake(0xaa, 0x14d);

const ALL_FEATURES: Answer = Features(0x14d);

const EAGAIN: Answer = Answer::Errno(Errno::Eagain);

const EINVAL: Answer = Answer::Errno(Errno::Einval);

const ENOENT: Answer = Answer::Errno(Errno::Enoent);

const STORED: Answer = Answered(Reply::Done);

const FIRST: Wake = Wake::Range {
    start: 0x10000,
    len: 4096,
};

const SECOND: Wake = Wake::Range {
    start: 0x11000,
    len: 4096,
};

const BOTH: Wake = Wake::Range {
    start: 0x10000,
    len: 8192,
};

/// Nothing was put.
const PUT_EAGAIN: Answer = Stopped(0, Errno::Eagain, Wake::Nobody);

const PUT_EEXIST: Answer = Stopped(0, Errno::Eexist, Wake::Nobody);

const PUT_EINVAL: Answer = Stopped(0, Errno::Einval, Wake::Nobody);

const PUT_ENOENT: Answer = Stopped(0, Errno::Enoent, Wake::Nobody);

const NO_MODE: Mode = Mode {
    missing: false,
    protect: false,
};

const MISSING_MODE: Mode = Mode {
    missing: true,
    protect: false,
};

const BOTH_MODES: Mode = Mode {
    missing: true,
    protect: true,
};

/// By a load of the first page, which is missing.
const LOADED: Message = Message::PageFault {
    addr: 0x10000,
    write: false,
    wp: false,
    tid: 1,
};

/// By a store of processor 1 to the second page, which is missing.
const STORED_MISSING: Message = Message::PageFault {
    addr: 0x11000,
    write: true,
    wp: false,
    tid: 2,
};

/// The same as the 32 bytes of `struct uffd_msg`: the event, the flags, the address, and the thread.
const STORED_BYTES: [u8; 32] = [
    0x12, 0, 0, 0, 0, 0, 0, 0, 1, 0, 0, 0, 0, 0, 0, 0, 0, 0x10, 1, 0, 0, 0, 0, 0, 2, 0, 0, 0, 0, 0,
    0, 0,
];

/// The same two of an object for which the thread was not asked.
const STORED_BY_ANY: Message = Message::PageFault {
    addr: 0x11000,
    write: true,
    wp: false,
    tid: 0,
};

const STORED_BY_ANY_BYTES: [u8; 32] = [
    0x12, 0, 0, 0, 0, 0, 0, 0, 1, 0, 0, 0, 0, 0, 0, 0, 0, 0x10, 1, 0, 0, 0, 0, 0, 0, 0, 0, 0, 0, 0,
    0, 0,
];

/// By a store to the first page, which is write-protected.
const STORED_PROTECTED: Message = Message::PageFault {
    addr: 0x10000,
    write: true,
    wp: true,
    tid: 1,
};

const UNMAP_SECOND: Message = Message::Unmap {
    start: 0x11000,
    end: 0x12000,
};

const UNMAP_THIRD: Message = Message::Unmap {
    start: 0x12000,
    end: 0x13000,
};

const REMAP: Message = Message::Remap {
    from: 0x10000,
    to: 0x12000,
    len: 4096,
};

const REMOVE: Message = Message::Remove {
    start: 0x12000,
    end: 0x14000,
};

/// Two processors touch a missing page, of which one message tells. Then that page is protected, goes over the third one while
/// its fault is unread, and the range becomes shorter.
const FAULTS: [(Call, Answer); 25] = [
    (Mmap(12288, Prot::ReadWrite, Place::Anywhere), MAPPED),
    (ENABLE, ALL_FEATURES),
    (Register(0x10000, 12288, 3), Registered),
    (Load(0, 0x10000, 8), Missing),
    (Load(1, 0x10000, 8), Missing),
    (Read, Answer::Message(LOADED, 0)),
    (Read, EAGAIN),
    (Store(1, 0x11008, 8, 1), Missing),
    (NextBytes, Answer::Bytes(STORED_BYTES)),
    (Read, Answer::Message(STORED_MISSING, 1)),
    (Copy(0x10000, 1, 2), Put(4096, FIRST)),
    (Store(0, 0x10000, 8, 1), Protected),
    (
        MremapAway(0x10000, 8192, 4096, Some(0x12000)),
        Called(Reply::At(0x12000), 3),
    ),
    (Zeropage(0x12000, 4096, 0), PUT_EAGAIN),
    (WriteProtect(0x12000, 4096, 0), EAGAIN),
    (Read, Answer::Message(STORED_PROTECTED, 0)),
    (Read, Answer::Message(UNMAP_THIRD, 3)),
    (Read, Answer::Message(UNMAP_SECOND, 3)),
    (Read, Answer::Message(REMAP, 3)),
    (Zeropage(0x12000, 4096, 0), PUT_EEXIST),
    (Store(0, 0x12000, 8, 1), Protected),
    (ModeAt(0x10), Answer::Mode(NO_MODE)),
    (ModeAt(0x12), Answer::Mode(BOTH_MODES)),
    (IsProtected(0x12), Answer::Is(true)),
    (FirstByte(0x12), Answer::Byte(Some(1))),
];

#[test]
fn faults_and_a_move(rt: HostRuntime) -> Result<(), Fail> {
    play(&rt, rt.alloc(), &FAULTS)
}

/// With no bit 8 in the handshake a fault tells no thread.
const NO_THREADS: [(Call, Answer); 6] = [
    (MAP_TWO, MAPPED),
    (Handshake(0xaa, 0x4d), ALL_FEATURES),
    (Register(0x11000, 4096, 1), Registered),
    (Store(1, 0x11008, 8, 1), Missing),
    (NextBytes, Answer::Bytes(STORED_BY_ANY_BYTES)),
    (Read, Answer::Message(STORED_BY_ANY, 1)),
];

#[test]
fn a_fault_without_its_thread(rt: HostRuntime) -> Result<(), Fail> {
    play(&rt, rt.alloc(), &NO_THREADS)
}

/// What each call refuses, and what it does. The second page is present before the first.
const CALLS: [(Call, Answer); 28] = [
    (MAP_TWO, MAPPED),
    (Read, EINVAL),
    (Handshake(0xab, 0), EINVAL),
    (Handshake(0xaa, 2), EINVAL),
    (Handshake(0xaa, 0x34d), EINVAL),
    (Call::Wake(0x10000, 4096), EINVAL),
    (ENABLE, ALL_FEATURES),
    (ENABLE, EINVAL),
    (Register(0x10000, 8192, 0), EINVAL),
    (Register(0x12000, 4096, 1), EINVAL),
    (Unregister(0x12000, 4096), EINVAL),
    (Register(0x10000, 12288, 1), Registered),
    (WriteProtect(0x10000, 4096, 1), ENOENT),
    (WriteProtect(0x10000, 4096, 3), EINVAL),
    (Zeropage(0x11000, 4096, 0), Put(4096, SECOND)),
    (Copy(0x11000, 1, 0), PUT_EEXIST),
    (Copy(0x10000, 2, 0), Stopped(4096, Errno::Eagain, FIRST)),
    (Copy(0x12000, 1, 0), PUT_ENOENT),
    (Copy(0x11000, 2, 0), PUT_ENOENT),
    (Copy(0x11000, 1, 2), PUT_EINVAL),
    (Read, EAGAIN),
    (Call::Wake(0x11000, 4096), Woken(SECOND)),
    (FirstByte(0x10), Answer::Byte(Some(1))),
    (FirstByte(0x11), Answer::Byte(Some(0))),
    (Present(0x10), Answer::Among(true, 2)),
    (Unregister(0x10000, 8192), Woken(BOTH)),
    (ModeAt(0x11), Answer::Mode(NO_MODE)),
    (Call::Wake(0x10001, 4096), EINVAL),
];

/// The same with no bit 8 in the handshake, and no look between the calls.
const CALLS_WITHOUT_THREADS: [(Call, Answer); 21] = [
    (MAP_TWO, MAPPED),
    (Read, EINVAL),
    (Handshake(0xab, 0), EINVAL),
    (Handshake(0xaa, 2), EINVAL),
    (Handshake(0xaa, 0x4d), ALL_FEATURES),
    (Handshake(0xaa, 0x4d), EINVAL),
    (Register(0x10000, 8192, 0), EINVAL),
    (Register(0x12000, 4096, 1), EINVAL),
    (Unregister(0x12000, 4096), EINVAL),
    (Register(0x10000, 12288, 1), Registered),
    (WriteProtect(0x10000, 4096, 1), ENOENT),
    (WriteProtect(0x10000, 4096, 3), EINVAL),
    (Zeropage(0x11000, 4096, 0), Put(4096, SECOND)),
    (Copy(0x11000, 1, 0), PUT_EEXIST),
    (Copy(0x10000, 2, 0), Stopped(4096, Errno::Eagain, FIRST)),
    (Copy(0x12000, 1, 0), PUT_ENOENT),
    (Copy(0x11000, 2, 0), PUT_ENOENT),
    (Copy(0x11000, 1, 2), PUT_EINVAL),
    (Read, EAGAIN),
    (Unregister(0x10000, 8192), Woken(BOTH)),
    (Call::Wake(0x10001, 4096), EINVAL),
];

#[test]
fn the_calls_of_the_object(rt: HostRuntime) -> Result<(), Fail> {
    play(&rt, rt.alloc(), &CALLS)?;
    play(&rt, rt.alloc(), &CALLS_WITHOUT_THREADS)
}

/// Protection comes and goes on the first page, the second is missing. Bit 0 of a copy wakes nobody.
const PROTECTION: [(Call, Answer); 19] = [
    (MAP_TWO, MAPPED),
    (ENABLE, ALL_FEATURES),
    (Register(0x10000, 8192, 3), Registered),
    (Copy(0x10000, 1, 1), Put(4096, Wake::Nobody)),
    (Store(0, 0x10000, 1, 7), STORED),
    (WriteProtect(0x10000, 8192, 1), Woken(Wake::Nobody)),
    (IsProtected(0x10), Answer::Is(true)),
    (IsProtected(0x11), Answer::Is(false)),
    (Store(0, 0x10000, 1, 8), Protected),
    (Load(1, 0x10000, 1), Answered(Reply::Value(7))),
    (Read, Answer::Message(STORED_PROTECTED, 0)),
    (WriteProtect(0x10000, 8192, 2), Woken(Wake::Nobody)),
    (Store(0, 0x10000, 1, 8), STORED),
    (WriteProtect(0x10000, 4096, 1), Woken(Wake::Nobody)),
    (WriteProtect(0x10000, 8192, 0), Woken(BOTH)),
    (IsProtected(0x10), Answer::Is(false)),
    (Load(1, 0x10000, 1), Answered(Reply::Value(8))),
    (Zeropage(0x11000, 4096, 1), Put(4096, Wake::Nobody)),
    (Zeropage(0x11000, 4096, 2), PUT_EINVAL),
];

#[test]
fn protection_comes_and_goes(rt: HostRuntime) -> Result<(), Fail> {
    play(&rt, rt.alloc(), &PROTECTION)
}

/// What a handler reads of each event, and that growth is registered as the last page was.
const EVENTS: [(Call, Answer); 14] = [
    (MAP_TWO, MAPPED),
    (ENABLE, ALL_FEATURES),
    (Register(0x11000, 4096, 1), Registered),
    (Mremap(0x10000, 8192, 12288), MAPPED),
    (ModeAt(0x12), Answer::Mode(MISSING_MODE)),
    (ModeAt(0x10), Answer::Mode(NO_MODE)),
    (Munmap(0x10000, 4096), Called(Reply::Done, 0)),
    (
        DontNeed(0x12000, 8192),
        Called(Reply::Refused(Errno::Enomem), 1),
    ),
    (Munmap(0x11000, 4096), Called(Reply::Done, 1)),
    (Changing, Answer::Count(2)),
    (Read, Answer::Message(REMOVE, 3)),
    (Read, Answer::Message(UNMAP_SECOND, 3)),
    (Changing, Answer::Count(0)),
    (Read, EAGAIN),
];

#[test]
fn events_of_map_calls(rt: HostRuntime) -> Result<(), Fail> {
    play(&rt, rt.alloc(), &EVENTS)
}

const TWO_WATCHED: [(Call, Answer); 3] = [
    (MAP_TWO, MAPPED),
    (ENABLE, ALL_FEATURES),
    (Register(0x10000, 8192, 1), Registered),
];

const TWO_PRESENT: [(Call, Answer); 3] = [
    (FirstByte(0x10), Answer::Byte(Some(1))),
    (FirstByte(0x11), Answer::Byte(Some(1))),
    (Present(0x11), Answer::Among(true, 2)),
];

/// Copies two pages to a space where they are watched. What was put before memory is refused stays, and the next call puts the
/// rest. How many bytes the first call has put.
fn copy_two(rt: &impl Abort, space: &mut Space) -> usize {
    let ones = [1; 8192];
    let copied = match put(space.copy(0x10000, ones.as_slice(), 0)) {
        Err(NoMemory) => 0,
        Ok(answer) if answer == Stopped(4096, Errno::Eagain, FIRST) => 4096,
        Ok(answer) => {
            assert!(rt; answer == Put(8192, BOTH));
            8192
        }
    };
    assert_eq!(rt; space.page(0x10).is_some(), copied > 0);
    assert_eq!(rt; space.page(0x11).is_some(), copied == 8192);
    if copied == 0 {
        let again = put(space.copy(0x10000, ones.as_slice(), 0));
        assert!(rt; again == Ok(Put(8192, BOTH)));
    } else if copied == 4096 {
        let rest = put(space.copy(0x11000, &ones[..4096], 0));
        assert!(rt; rest == Ok(Put(4096, SECOND)));
    }
    copied
}

/// A copy of two pages that may be refused memory at either. `bench/compare/refused.py` refuses each growth, and looks for each count of
/// bytes.
#[test]
fn a_copy_that_wants_memory(rt: HostRuntime) -> Result<(), Fail> {
    let mut space = Space::new(rt.alloc());
    play_on(&rt, &mut space, &TWO_WATCHED)?;
    let copied = copy_two(&rt, &mut space);
    play_on(&rt, &mut space, &TWO_PRESENT)?;
    println!(rt; "copied {copied}")?;
    Ok(())
}

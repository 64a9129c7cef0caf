//! Map calls of a space in which no page is registered.

use crate::spaces::{Answer, Call, play};
use Answer::{Answered, Called};
use Call::{DontNeed, Load, Mmap, Mremap, MremapAway, Munmap, Present, Store};
use mig_base::{Errno, Place, Prot, Reply};
use std::test::Fail;

/// A store is made.
const STORED: Answer = Answered(Reply::Done);

/// An access to what is not mapped.
const UNMAPPED: Answer = Answered(Reply::Segv { mapped: false });

/// An access that the protection forbids.
const DENIED: Answer = Answered(Reply::Segv { mapped: true });

const DONE: Answer = Called(Reply::Done, 0);

const EINVAL: Answer = Called(Reply::Refused(Errno::Einval), 0);

const ENOMEM: Answer = Called(Reply::Refused(Errno::Enomem), 0);

const MOST: [(Call, Answer); 9] = [
    (
        Mmap(1_073_741_824, Prot::Read, Place::Anywhere),
        Called(Reply::At(0x10000), 0),
    ),
    (Mmap(1, Prot::Read, Place::Anywhere), ENOMEM),
    (Store(0, 0x11000, 1, 0), DENIED),
    (Munmap(0x10000, 4096), DONE),
    (
        Mmap(1, Prot::Read, Place::NoReplace(0x11000)),
        Called(Reply::Refused(Errno::Eexist), 0),
    ),
    (
        Mmap(1, Prot::ReadWrite, Place::Fixed(0xffff_f000)),
        Called(Reply::At(0xffff_f000), 0),
    ),
    (
        Mmap(4097, Prot::ReadWrite, Place::Fixed(0xffff_f000)),
        ENOMEM,
    ),
    (
        Mmap(4096, Prot::Read, Place::Fixed(0xf000)),
        Called(Reply::Refused(Errno::Eperm), 0),
    ),
    (Mmap(4096, Prot::Read, Place::Fixed(0x10001)), EINVAL),
];

#[test]
fn as_many_pages_as_may_be(rt: HostRuntime) -> Result<(), Fail> {
    play(&rt, rt.alloc(), &MOST)
}

/// A range grows where it is, goes elsewhere and gets shorter.
const GROWS: [(Call, Answer); 12] = [
    (
        Mmap(4096, Prot::ReadWrite, Place::Anywhere),
        Called(Reply::At(0x10000), 0),
    ),
    (
        Mmap(4096, Prot::Read, Place::Fixed(0x12000)),
        Called(Reply::At(0x12000), 0),
    ),
    (Store(0, 0x10000, 1, 7), STORED),
    (Mremap(0x10000, 4096, 8192), Called(Reply::At(0x10000), 0)),
    (Mremap(0x10000, 8192, 12288), ENOMEM),
    (
        MremapAway(0x10000, 8192, 12288, None),
        Called(Reply::At(0x13000), 0),
    ),
    (Load(0, 0x13000, 1), Answered(Reply::Value(7))),
    (Load(0, 0x10000, 1), UNMAPPED),
    (MremapAway(0x13000, 4096, 4096, Some(0x13000)), EINVAL),
    (
        Mremap(0x12000, 8192, 4096),
        Called(Reply::Refused(Errno::Efault), 0),
    ),
    (Mremap(0x13000, 12288, 4096), Called(Reply::At(0x13000), 0)),
    (Load(0, 0x14000, 1), UNMAPPED),
];

#[test]
fn ranges_grow_move_and_shrink(rt: HostRuntime) -> Result<(), Fail> {
    play(&rt, rt.alloc(), &GROWS)
}

const REPLACED: [(Call, Answer); 12] = [
    (
        Mmap(16384, Prot::ReadWrite, Place::Anywhere),
        Called(Reply::At(0x10000), 0),
    ),
    (Store(0, 0x10000, 1, 1), STORED),
    (Store(0, 0x11000, 1, 2), STORED),
    (Store(0, 0x12000, 1, 3), STORED),
    (Store(0, 0x13000, 1, 4), STORED),
    (Present(0x13), Answer::Among(true, 4)),
    (
        MremapAway(0x10000, 4096, 8192, Some(0x12000)),
        Called(Reply::At(0x12000), 0),
    ),
    (Load(0, 0x10000, 1), UNMAPPED),
    (Load(0, 0x11000, 1), Answered(Reply::Value(2))),
    (Load(0, 0x12000, 1), Answered(Reply::Value(1))),
    (Load(0, 0x13000, 1), Answered(Reply::Value(0))),
    (Present(0x13), Answer::Among(false, 2)),
];

#[test]
fn a_fixed_target_is_replaced(rt: HostRuntime) -> Result<(), Fail> {
    play(&rt, rt.alloc(), &REPLACED)
}

/// Two pages with a hole between them become zeros.
const NOT_NEEDED: [(Call, Answer); 11] = [
    (
        Mmap(4096, Prot::ReadWrite, Place::Anywhere),
        Called(Reply::At(0x10000), 0),
    ),
    (
        Mmap(4096, Prot::ReadWrite, Place::Fixed(0x12000)),
        Called(Reply::At(0x12000), 0),
    ),
    (Store(0, 0x10000, 1, 5), STORED),
    (Store(0, 0x12000, 1, 6), STORED),
    (DontNeed(0x10000, 12288), ENOMEM),
    (Load(0, 0x10000, 1), Answered(Reply::Value(0))),
    (Load(0, 0x12000, 1), Answered(Reply::Value(0))),
    (DontNeed(0x10000, 0), DONE),
    (DontNeed(0x10001, 1), EINVAL),
    (DontNeed(0xffff_f000, 8192), ENOMEM),
    (DontNeed(0xffff_ffff_ffff_f000, 4096), EINVAL),
];

#[test]
fn pages_that_are_not_needed(rt: HostRuntime) -> Result<(), Fail> {
    play(&rt, rt.alloc(), &NOT_NEEDED)
}

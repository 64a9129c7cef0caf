//! Moves of registered pages, each step of which may be refused memory: the messages, the room for the modes, the areas and the pages.

use crate::spaces::{Answer, Call, play};
use Answer::{Answered, Called, Features, Missing, Protected, Put, Registered};
use Call::{
    Changing, Copy, FirstByte, Handshake, IsProtected, Load, Mmap, ModeAt, Mremap, MremapAway,
    Present, Read, Register, Store,
};
use mig_base::{Message, Place, Prot, Reply, Wake};
use std::test::Fail;
use uffd_ioctl::Mode;

const NO_MODE: Answer = Answer::Mode(Mode {
    missing: false,
    protect: false,
});

const BOTH_MODES: Answer = Answer::Mode(Mode {
    missing: true,
    protect: true,
});

const FIRST: Wake = Wake::Range {
    start: 0x10000,
    len: 4096,
};

/// Of what the first move is put over.
const REPLACED: Message = Message::Unmap {
    start: 0x400000,
    end: 0x402000,
};

const MOVED: Message = Message::Remap {
    from: 0x10000,
    to: 0x400000,
    len: 0x2000,
};

/// Of the move by which the range grows: it tells the old length.
const MOVED_ON: Message = Message::Remap {
    from: 0x400000,
    to: 0x800000,
    len: 0x2000,
};

/// Two pages of three, of which the first is present and protected, go over two others, one of which is registered in another mode. Then
/// they move on to where nothing is and get longer, and get longer there once more.
const MOVES: [(Call, Answer); 32] = [
    (
        Mmap(12288, Prot::ReadWrite, Place::Anywhere),
        Called(Reply::At(0x10000), 0),
    ),
    (
        Mmap(8192, Prot::Read, Place::Fixed(0x401000)),
        Called(Reply::At(0x401000), 0),
    ),
    (Handshake(0xaa, 0x14d), Features(0x14d)),
    (Register(0x10000, 8192, 3), Registered),
    (Register(0x401000, 4096, 1), Registered),
    (Copy(0x10000, 1, 2), Put(4096, FIRST)),
    (
        MremapAway(0x10000, 8192, 8192, Some(0x400000)),
        Called(Reply::At(0x400000), 2),
    ),
    (Changing, Answer::Count(2)),
    (Read, Answer::Message(REPLACED, 3)),
    (Read, Answer::Message(MOVED, 3)),
    (ModeAt(0x10), NO_MODE),
    (ModeAt(0x11), NO_MODE),
    (ModeAt(0x400), BOTH_MODES),
    (ModeAt(0x401), BOTH_MODES),
    (ModeAt(0x402), NO_MODE),
    (FirstByte(0x10), Answer::Byte(None)),
    (FirstByte(0x400), Answer::Byte(Some(1))),
    (IsProtected(0x400), Answer::Is(true)),
    (
        MremapAway(0x400000, 8192, 12288, Some(0x800000)),
        Called(Reply::At(0x800000), 1),
    ),
    (Read, Answer::Message(MOVED_ON, 3)),
    (ModeAt(0x401), NO_MODE),
    (ModeAt(0x801), BOTH_MODES),
    (ModeAt(0x802), BOTH_MODES),
    (IsProtected(0x800), Answer::Is(true)),
    (
        Mremap(0x800000, 12288, 16384),
        Called(Reply::At(0x800000), 0),
    ),
    (ModeAt(0x803), BOTH_MODES),
    (Present(0x800), Answer::Among(true, 1)),
    (Store(0, 0x800000, 1, 7), Protected),
    (Store(0, 0x803000, 1, 7), Missing),
    (Load(0, 0x800000, 1), Answered(Reply::Value(1))),
    (Store(0, 0x12000, 1, 7), Answered(Reply::Done)),
    (Load(0, 0x10000, 1), Answered(Reply::Segv { mapped: false })),
];

#[test]
fn a_move_that_wants_memory(rt: HostRuntime) -> Result<(), Fail> {
    play(&rt, rt.alloc(), &MOVES)
}

//! `Userfault`, call by call.

use crate::ranges::{apart, inside};
use crate::same::same;
use mig_base::{Addr, HIGH_PAGE, Message, NoMemory, PageNo};
use std::alloc::Global;
use std::process::Abort;
use std::test::Fail;
use userfault::{Mode, Userfault};

/// A call with its arguments. A range is a first page and a count.
#[derive(Clone, Copy)]
enum Call {
    Enable(u64),
    Features,
    Register(PageNo, u32, Mode),
    Unregister(PageNo, u32),
    Forget(PageNo, u32),
    ModeAt(PageNo),
    IsAnyRegistered(PageNo, u32),
    HasModes(PageNo, u32, Mode),
    HasOneMode(PageNo, u32),
    /// A fault by a store of a processor at an address, of a page that is missing.
    MissingFault(Addr, u8),
    /// The same, of a page that is write-protected.
    ProtectFault(Addr, u8),
    /// A fault by a load, of a page that is missing.
    LoadFault(Addr, u8),
    Event(Message, u8),
    Changing,
    Next,
    Read,
    /// Two ranges of as many pages: the first of each, and the count.
    Move(PageNo, PageNo, u32),
    /// The same in its two steps.
    OpenMove(PageNo, PageNo, u32),
    /// A range is opened, and closed again.
    OpenClose(PageNo, u32),
    Limit(PageNo, u32, Mode),
    /// Takes back this many of the last events.
    TakeBack(u8),
}

use Call::{
    Changing, Enable, Event, Features, Forget, HasModes, HasOneMode, IsAnyRegistered, Limit,
    LoadFault, MissingFault, ModeAt, Move, Next, OpenClose, OpenMove, ProtectFault, Read, Register,
    TakeBack, Unregister,
};

#[derive(Clone, Copy, PartialEq, Eq)]
enum Answer {
    Done,
    Flags(Option<u64>),
    Has(Mode),
    Is(bool),
    Count(usize),
    Unread(Option<Message>),
    Got(Option<(Message, u8)>),
}

use Answer::{Count, Done, Flags, Got, Has, Is, Unread};

/// The pages that the tables speak of.
const PAGES: [PageNo; 20] = [
    0x10, 0x11, 0x12, 0x13, 0x14, 0x20, 0x3fe, 0x3ff, 0x400, 0x401, 0x402, 0x403, 0x7fe, 0x7ff,
    0x800, 0x801, 0x802, 0x803, 0x804, 0x805,
];

fn modes(object: &Userfault) -> [Mode; 20] {
    let mut modes = [NONE; 20];
    for (place, page) in modes.iter_mut().zip(PAGES) {
        *place = object.mode_at(page);
    }
    modes
}

/// The modes of these pages, the next message and how many events are unread.
fn seen(object: &Userfault) -> ([Mode; 20], Option<Message>, usize) {
    (modes(object), object.next_message(), object.changing())
}

/// Moves modes to a range that is opened for them.
fn open_and_move(
    rt: &impl Abort,
    object: &mut Userfault,
    from: PageNo,
    to: PageNo,
    count: u32,
) -> Result<(), NoMemory> {
    inside(rt, from, count);
    inside(rt, to, count);
    apart(rt, from, to, count);
    object.open_range(to, count)?;
    object.move_to_open(from, to, count);
    Ok(())
}

/// Opens a range, looks that it is open, and closes it again.
fn open_and_close(
    rt: &impl Abort,
    object: &mut Userfault,
    first: PageNo,
    count: u32,
) -> Result<(), NoMemory> {
    inside(rt, first, count);
    let modes = object.open_range(first, count)?;
    assert!(rt; object.has_modes(first, count, BOTH));
    object.close_range(first, count, &modes);
    Ok(())
}

/// Makes a call that may be refused memory, if it is one.
fn change(rt: &impl Abort, object: &mut Userfault, call: Call) -> Result<(), NoMemory> {
    match call {
        Register(first, count, mode) => {
            inside(rt, first, count);
            object.register(first, count, mode)
        }
        MissingFault(addr, cpu) => object.queue_fault(addr, true, cpu),
        ProtectFault(addr, cpu) => object.queue_protect_fault(addr, cpu),
        LoadFault(addr, cpu) => object.queue_fault(addr, false, cpu),
        Event(message, cpu) => object.queue_event(message, cpu),
        Move(from, to, count) => {
            inside(rt, from, count);
            inside(rt, to, count);
            apart(rt, from, to, count);
            object.move_range(from, to, count)
        }
        OpenMove(from, to, count) => open_and_move(rt, object, from, to, count),
        OpenClose(first, count) => open_and_close(rt, object, first, count),
        _ => Ok(()),
    }
}

/// Makes any other call, and answers.
fn answered(rt: &impl Abort, object: &mut Userfault, call: Call) -> Answer {
    match call {
        Enable(features) => object.enable(features),
        Features => return Flags(object.features()),
        Unregister(first, count) => {
            inside(rt, first, count);
            object.unregister(first, count);
        }
        Forget(first, count) => {
            inside(rt, first, count);
            object.forget_range(first, count);
        }
        ModeAt(page) => return Has(object.mode_at(page)),
        IsAnyRegistered(first, count) => {
            inside(rt, first, count);
            return Is(object.is_any_registered(first, count));
        }
        HasModes(first, count, mode) => {
            inside(rt, first, count);
            return Is(object.has_modes(first, count, mode));
        }
        HasOneMode(first, count) => {
            inside(rt, first, count);
            return Is(object.has_one_mode(first, count));
        }
        Limit(first, count, mode) => {
            inside(rt, first, count);
            object.limit_range(first, count, mode);
        }
        TakeBack(count) => {
            assert!(rt; usize::from(count) <= object.changing());
            object.take_back_events(count);
        }
        Changing => return Count(object.changing()),
        Next => return Unread(object.next_message()),
        Read => return Got(object.read_message()),
        _ => {}
    }
    Done
}

fn copy_of(object: &Userfault) -> Result<Userfault, NoMemory> {
    match object.copy() {
        Err(NoMemory) => object.copy(),
        answer => answer,
    }
}

/// Looks that a copy is equal, and is not touched when the object is.
fn copied(rt: &impl Abort, object: &mut Userfault, copy: &mut Userfault) {
    let before = seen(object);
    object.unregister(0, HIGH_PAGE);
    same(rt, &seen(copy), &before, "copy", 0);
    same(rt, &copy.features(), &object.features(), "features", 0);
    for i in 0..8 {
        same(
            rt,
            &copy.read_message(),
            &object.read_message(),
            "message",
            i,
        );
    }
    same(rt, &modes(object), &[NONE; 20], "modes", 0);
    same(rt, &modes(copy), &before.0, "modes", 1);
}

/// Makes the calls of a table.
fn play_on(
    rt: &impl Abort,
    object: &mut Userfault,
    steps: &[(Call, Answer)],
) -> Result<(), NoMemory> {
    for (i, (call, wanted)) in steps.iter().enumerate() {
        let before = seen(object);
        if change(rt, object, *call).is_err() {
            same(rt, &seen(object), &before, "refused step", i);
            change(rt, object, *call)?;
        }
        same(rt, &answered(rt, object, *call), wanted, "step", i);
    }
    Ok(())
}

/// Plays a table, and then looks at a copy.
fn play(rt: &impl Abort, alloc: Global, steps: &[(Call, Answer)]) -> Result<(), Fail> {
    let mut object = Userfault::new(alloc);
    play_on(rt, &mut object, steps)?;
    let mut copy = copy_of(&object)?;
    copied(rt, &mut object, &mut copy);
    Ok(())
}

const NONE: Mode = Mode {
    missing: false,
    protect: false,
};

const MISSING: Mode = Mode {
    missing: true,
    protect: false,
};

const PROTECT: Mode = Mode {
    missing: false,
    protect: true,
};

const BOTH: Mode = Mode {
    missing: true,
    protect: true,
};

const HANDSHAKES: [(Call, Answer); 6] = [
    (Features, Flags(None)),
    (Enable(0x49), Done),
    (Features, Flags(Some(0x49))),
    (Enable(0), Done),
    (Features, Flags(Some(0))),
    (Next, Unread(None)),
];

#[test]
fn the_handshake_tells_its_features(rt: HostRuntime) -> Result<(), Fail> {
    play(&rt, rt.alloc(), &HANDSHAKES)
}

/// A page that has all modes asked for keeps its own, and any other has exactly the new one.
const REGISTERED: [(Call, Answer); 17] = [
    (Register(0x10, 2, BOTH), Done),
    (Register(0x12, 2, MISSING), Done),
    (Register(0x11, 4, PROTECT), Done),
    (ModeAt(0xf), Has(NONE)),
    (ModeAt(0x10), Has(BOTH)),
    (ModeAt(0x11), Has(BOTH)),
    (ModeAt(0x12), Has(PROTECT)),
    (ModeAt(0x13), Has(PROTECT)),
    (ModeAt(0x14), Has(PROTECT)),
    (ModeAt(0x15), Has(NONE)),
    (Register(0x11, 2, BOTH), Done),
    (Register(0x12, 2, NONE), Done),
    (ModeAt(0x11), Has(BOTH)),
    (ModeAt(0x12), Has(BOTH)),
    (ModeAt(0x13), Has(PROTECT)),
    (ModeAt(0xffff_ffff), Has(NONE)),
    (HasOneMode(0x10, 3), Is(true)),
];

#[test]
fn a_page_with_all_modes_keeps_its_own(rt: HostRuntime) -> Result<(), Fail> {
    play(&rt, rt.alloc(), &REGISTERED)
}

const FORGOTTEN: [(Call, Answer); 12] = [
    (Register(0x3fe, 4, BOTH), Done),
    (Forget(0x3ff, 2), Done),
    (ModeAt(0x3fe), Has(BOTH)),
    (ModeAt(0x3ff), Has(NONE)),
    (ModeAt(0x400), Has(NONE)),
    (ModeAt(0x401), Has(BOTH)),
    (Unregister(0x401, 1), Done),
    (ModeAt(0x401), Has(NONE)),
    (IsAnyRegistered(0x3fe, 1), Is(true)),
    (IsAnyRegistered(0, 0x3ff), Is(true)),
    (IsAnyRegistered(0x3fe, 0), Is(false)),
    (IsAnyRegistered(0x3ff, 0x1000), Is(false)),
];

#[test]
fn a_forgotten_range_touches_no_other_page(rt: HostRuntime) -> Result<(), Fail> {
    play(&rt, rt.alloc(), &FORGOTTEN)
}

/// Three pages of one mode, and one of another between them and a fifth.
const ONE_MODE: [(Call, Answer); 21] = [
    (Register(0x3fe, 5, MISSING), Done),
    (Register(0x401, 1, BOTH), Done),
    (HasOneMode(0x3fe, 1), Is(true)),
    (HasOneMode(0x3fe, 3), Is(true)),
    (HasOneMode(0x3fe, 4), Is(false)),
    (HasOneMode(0x3fe, 5), Is(false)),
    (HasOneMode(0x3fe, 6), Is(false)),
    (HasModes(0x3fe, 1, MISSING), Is(true)),
    (HasModes(0x3fe, 3, MISSING), Is(true)),
    (HasModes(0x3fe, 4, MISSING), Is(true)),
    (HasModes(0x3fe, 5, MISSING), Is(true)),
    (HasModes(0x3fe, 6, MISSING), Is(false)),
    (HasModes(0x3fe, 1, BOTH), Is(false)),
    (HasModes(0x3fe, 3, BOTH), Is(false)),
    (HasModes(0x3fe, 4, BOTH), Is(false)),
    (HasModes(0x3fe, 5, BOTH), Is(false)),
    (HasModes(0x3fe, 6, BOTH), Is(false)),
    (HasModes(0x401, 1, BOTH), Is(true)),
    (HasModes(0x10, 8, NONE), Is(true)),
    (HasOneMode(0x10, 8), Is(true)),
    (HasModes(0x10, 8, PROTECT), Is(false)),
];

#[test]
fn ranges_of_one_mode(rt: HostRuntime) -> Result<(), Fail> {
    play(&rt, rt.alloc(), &ONE_MODE)
}

/// Pages on both sides of a chunk's border, one of them not registered, go to where another mode was.
const MOVED: [(Call, Answer); 22] = [
    (Register(0x3fe, 2, MISSING), Done),
    (Register(0x401, 2, BOTH), Done),
    (Register(0x7ff, 6, PROTECT), Done),
    (Move(0x3ff, 0x800, 3), Done),
    (ModeAt(0x3fe), Has(MISSING)),
    (ModeAt(0x3ff), Has(NONE)),
    (ModeAt(0x400), Has(NONE)),
    (ModeAt(0x401), Has(NONE)),
    (ModeAt(0x402), Has(BOTH)),
    (ModeAt(0x7ff), Has(PROTECT)),
    (ModeAt(0x800), Has(MISSING)),
    (ModeAt(0x801), Has(NONE)),
    (ModeAt(0x802), Has(BOTH)),
    (ModeAt(0x803), Has(PROTECT)),
    (ModeAt(0x804), Has(PROTECT)),
    (ModeAt(0x805), Has(NONE)),
    (Move(0x800, 0x3fe, 0), Done),
    (ModeAt(0x3fe), Has(MISSING)),
    (ModeAt(0x800), Has(MISSING)),
    (Move(0x802, 0x10, 1), Done),
    (ModeAt(0x10), Has(BOTH)),
    (ModeAt(0x802), Has(NONE)),
];

#[test]
fn a_moved_range_touches_no_other_page(rt: HostRuntime) -> Result<(), Fail> {
    play(&rt, rt.alloc(), &MOVED)
}

/// A range that is opened has its own modes again once it is closed. Else it gets others, of which some may be taken away.
const OPENED: [(Call, Answer); 25] = [
    (Register(0x3fe, 2, MISSING), Done),
    (Register(0x401, 1, PROTECT), Done),
    (Register(0x402, 1, BOTH), Done),
    (OpenClose(0x3ff, 5), Done),
    (ModeAt(0x3fe), Has(MISSING)),
    (ModeAt(0x3ff), Has(MISSING)),
    (ModeAt(0x400), Has(NONE)),
    (ModeAt(0x401), Has(PROTECT)),
    (ModeAt(0x402), Has(BOTH)),
    (ModeAt(0x403), Has(NONE)),
    (OpenMove(0x3ff, 0x801, 4), Done),
    (HasModes(0x3fe, 1, MISSING), Is(true)),
    (IsAnyRegistered(0x3ff, 4), Is(false)),
    (ModeAt(0x800), Has(NONE)),
    (ModeAt(0x801), Has(MISSING)),
    (ModeAt(0x802), Has(NONE)),
    (ModeAt(0x803), Has(PROTECT)),
    (ModeAt(0x804), Has(BOTH)),
    (Limit(0x803, 2, PROTECT), Done),
    (ModeAt(0x803), Has(PROTECT)),
    (ModeAt(0x804), Has(PROTECT)),
    (Limit(0x801, 3, MISSING), Done),
    (ModeAt(0x801), Has(MISSING)),
    (ModeAt(0x803), Has(NONE)),
    (OpenClose(0x10, 0), Done),
];

#[test]
fn ranges_open_and_close(rt: HostRuntime) -> Result<(), Fail> {
    play(&rt, rt.alloc(), &OPENED)
}

const REMOVE: Message = Message::Remove {
    start: 0x10000,
    end: 0x11000,
};

const UNMAP: Message = Message::Unmap {
    start: 0x12000,
    end: 0x14000,
};

const MISSING_10: Message = Message::PageFault {
    addr: 0x10000,
    write: true,
    wp: false,
    tid: 0,
};

const MISSING_11: Message = Message::PageFault {
    addr: 0x11000,
    write: true,
    wp: false,
    tid: 0,
};

const MISSING_12: Message = Message::PageFault {
    addr: 0x12000,
    write: true,
    wp: false,
    tid: 0,
};

const LOADED_12: Message = Message::PageFault {
    addr: 0x12000,
    write: false,
    wp: false,
    tid: 0,
};

const PROTECT_11: Message = Message::PageFault {
    addr: 0x11000,
    write: true,
    wp: true,
    tid: 0,
};

const FAULTS_FIRST: [(Call, Answer); 16] = [
    (Event(REMOVE, 1), Done),
    (MissingFault(0x11000, 2), Done),
    (Event(UNMAP, 3), Done),
    (MissingFault(0x10000, 4), Done),
    (Changing, Count(2)),
    (Next, Unread(Some(MISSING_11))),
    (Read, Got(Some((MISSING_11, 2)))),
    (Next, Unread(Some(MISSING_10))),
    (Read, Got(Some((MISSING_10, 4)))),
    (Next, Unread(Some(REMOVE))),
    (Read, Got(Some((REMOVE, 1)))),
    (Next, Unread(Some(UNMAP))),
    (Read, Got(Some((UNMAP, 3)))),
    (Changing, Count(0)),
    (Next, Unread(None)),
    (Read, Got(None)),
];

#[test]
fn faults_are_read_before_events(rt: HostRuntime) -> Result<(), Fail> {
    play(&rt, rt.alloc(), &FAULTS_FIRST)
}

/// The last events are taken back, and no fault.
const TAKEN_BACK: [(Call, Answer); 13] = [
    (Event(REMOVE, 1), Done),
    (Event(UNMAP, 3), Done),
    (MissingFault(0x11000, 2), Done),
    (TakeBack(1), Done),
    (Changing, Count(1)),
    (Read, Got(Some((MISSING_11, 2)))),
    (TakeBack(0), Done),
    (Read, Got(Some((REMOVE, 1)))),
    (Event(UNMAP, 3), Done),
    (Event(REMOVE, 1), Done),
    (TakeBack(2), Done),
    (Changing, Count(0)),
    (Read, Got(None)),
];

#[test]
fn events_are_taken_back(rt: HostRuntime) -> Result<(), Fail> {
    play(&rt, rt.alloc(), &TAKEN_BACK)
}

/// A page has one unread fault of each kind, whoever caused it. Once that is read there may be another.
const ONE_OF_A_KIND: [(Call, Answer); 14] = [
    (MissingFault(0x11000, 1), Done),
    (MissingFault(0x11000, 2), Done),
    (ProtectFault(0x11000, 3), Done),
    (LoadFault(0x12000, 4), Done),
    (MissingFault(0x12000, 4), Done),
    (ProtectFault(0x11000, 5), Done),
    (Changing, Count(0)),
    (Read, Got(Some((MISSING_11, 1)))),
    (MissingFault(0x11000, 6), Done),
    (Read, Got(Some((PROTECT_11, 3)))),
    (Read, Got(Some((LOADED_12, 4)))),
    (Read, Got(Some((MISSING_11, 6)))),
    (Read, Got(None)),
    (MissingFault(0x12000, 7), Done),
];

#[test]
fn an_unread_fault_is_the_only_one_of_its_kind(rt: HostRuntime) -> Result<(), Fail> {
    play(&rt, rt.alloc(), &ONE_OF_A_KIND)
}

const MISSING_BY_2: Message = Message::PageFault {
    addr: 0x11000,
    write: true,
    wp: false,
    tid: 3,
};

const PROTECT_BY_0: Message = Message::PageFault {
    addr: 0x11000,
    write: true,
    wp: true,
    tid: 1,
};

const LOADED_BY_255: Message = Message::PageFault {
    addr: 0x12000,
    write: false,
    wp: false,
    tid: 256,
};

/// With bit 8 alone a fault tells the thread of the first processor, and without it none.
const THREADS: [(Call, Answer); 12] = [
    (Enable(0x100), Done),
    (MissingFault(0x11000, 2), Done),
    (MissingFault(0x11000, 5), Done),
    (ProtectFault(0x11000, 0), Done),
    (LoadFault(0x12000, 255), Done),
    (Read, Got(Some((MISSING_BY_2, 2)))),
    (Read, Got(Some((PROTECT_BY_0, 0)))),
    (Read, Got(Some((LOADED_BY_255, 255)))),
    (Enable(0x4d), Done),
    (MissingFault(0x11000, 2), Done),
    (Read, Got(Some((MISSING_11, 2)))),
    (Read, Got(None)),
];

#[test]
fn a_fault_tells_its_thread(rt: HostRuntime) -> Result<(), Fail> {
    play(&rt, rt.alloc(), &THREADS)
}

const REMAP: Message = Message::Remap {
    from: 0x10000,
    to: 0x20000,
    len: 0x1000,
};

/// The copy that follows each table has something of all here.
const COPIED: [(Call, Answer); 12] = [
    (Enable(1), Done),
    (Event(REMAP, 2), Done),
    (Read, Got(Some((REMAP, 2)))),
    (Register(0x10, 2, MISSING), Done),
    (Register(0x20, 1, BOTH), Done),
    (MissingFault(0x10000, 1), Done),
    (MissingFault(0x12000, 3), Done),
    (Read, Got(Some((MISSING_10, 1)))),
    (Event(REMAP, 2), Done),
    (ModeAt(0x12), Has(NONE)),
    (Next, Unread(Some(MISSING_12))),
    (Changing, Count(1)),
];

#[test]
fn a_copy_is_equal_and_its_own(rt: HostRuntime) -> Result<(), Fail> {
    play(&rt, rt.alloc(), &COPIED)
}

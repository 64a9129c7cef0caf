//! Lines of scripts.

use Command::{DontNeed, Load, Mmap, Mremap, Munmap, Store};
use Order::{Make, Progress, Push};
use Step::{Deliver, DeliverBack, DeliverUrgent, Issue, Notice, Retry, SendRun};
use grammar::parse::parse;
use grammar::{ForwardWire, Language, Line, Order, Token, print_order};
use mig_base::schedule::{Side, Step, Ticket};
use mig_base::{Command, Place, Prot};
use std::process::Abort;
use std::test::Fail;

/// Reads the line of a script, and looks at what it says.
fn look(rt: &impl Abort, tokens: &mut Vec<Token>, text: &[u8], wanted: Option<Line>, i: usize) {
    let mut read = parse(Language::Script, tokens, text);
    if read.is_err() {
        read = parse(Language::Script, tokens, text);
    }
    assert_eq!(rt; read, Ok(wanted), "line {i}");
}

static ORDERS: [(&'static [u8], Order); 42] = [
    (b"retry 1", Make(Retry { cpu: 1 })),
    (b"retry 0xFF", Make(Retry { cpu: 255 })),
    (b"start", Make(Step::Start)),
    (b"round", Make(Step::Round)),
    (b"send", Make(Step::Send)),
    (b"sendrun 1", Make(SendRun { count: 1 })),
    (b"sendrun 64", Make(SendRun { count: 64 })),
    (b"sendrun 0x40", Make(SendRun { count: 64 })),
    (b"sread", Make(Step::SourceRead)),
    (b"sact", Make(Step::SourceAct)),
    (b"switch", Make(Step::Switch)),
    (b"deliver", Make(Deliver { n: u64::MAX })),
    (b"deliver 0", Make(Deliver { n: 0 })),
    (b"deliver 4112", Make(Deliver { n: 4112 })),
    (b"back", Make(DeliverBack { n: u64::MAX })),
    (b"back 0x1f", Make(DeliverBack { n: 31 })),
    (b"udeliver", Make(DeliverUrgent { n: u64::MAX })),
    (
        b"udeliver 18446744073709551615",
        Make(DeliverUrgent { n: u64::MAX }),
    ),
    (b"dread", Make(Step::DestRead)),
    (b"dact", Make(Step::DestAct)),
    (b"install", Make(Step::Install)),
    (b"serve", Make(Step::Serve)),
    (b"end", Make(Step::End)),
    (b"break", Make(Step::Break)),
    (b"notice source", Make(Notice(Side::Source))),
    (b"notice dest", Make(Notice(Side::Destination))),
    (b"resume", Make(Step::Resume)),
    (b"progress", Progress),
    (b"  progress  ", Progress),
    (
        b"push 0x10000",
        Push {
            wire: ForwardWire::Main,
            page: 0x10,
            epoch: None,
        },
    ),
    (
        b"push 0",
        Push {
            wire: ForwardWire::Main,
            page: 0,
            epoch: None,
        },
    ),
    (
        b"push 0xfffff000 4294967295",
        Push {
            wire: ForwardWire::Main,
            page: 0xf_ffff,
            epoch: Some(u32::MAX),
        },
    ),
    (
        b"upush 69632",
        Push {
            wire: ForwardWire::Urgent,
            page: 0x11,
            epoch: None,
        },
    ),
    (
        b" upush   0x11000  0x2",
        Push {
            wire: ForwardWire::Urgent,
            page: 0x11,
            epoch: Some(2),
        },
    ),
    (
        b"cpu 0 load 0x10000 8",
        Make(Issue {
            cpu: 0,
            command: Load {
                addr: 0x1_0000,
                width: 8,
            },
        }),
    ),
    (
        b"cpu 255 store 0xFFFFFFFFFFFFFFFF 255 18446744073709551615",
        Make(Issue {
            cpu: 255,
            command: Store {
                addr: u64::MAX,
                width: 255,
                value: u64::MAX,
            },
        }),
    ),
    (
        b"cpu 1 mmap 8192 rw",
        Make(Issue {
            cpu: 1,
            command: Mmap {
                addr_len: 8192,
                prot: Prot::ReadWrite,
                place: Place::Anywhere,
            },
        }),
    ),
    (
        b"cpu 1 mmap 1 none fixed 0x12000",
        Make(Issue {
            cpu: 1,
            command: Mmap {
                addr_len: 1,
                prot: Prot::NoAccess,
                place: Place::Fixed(0x1_2000),
            },
        }),
    ),
    (
        b"cpu 1 mmap 4096 r noreplace 0x12000",
        Make(Issue {
            cpu: 1,
            command: Mmap {
                addr_len: 4096,
                prot: Prot::Read,
                place: Place::NoReplace(0x1_2000),
            },
        }),
    ),
    (
        b"cpu 2 munmap 0x10000 0",
        Make(Issue {
            cpu: 2,
            command: Munmap {
                addr: 0x1_0000,
                len: 0,
            },
        }),
    ),
    (
        b"cpu 2 mremap 0x10000 4096 8192 maymove fixed 0x20000",
        Make(Issue {
            cpu: 2,
            command: Mremap {
                addr: 0x1_0000,
                old_len: 4096,
                new_len: 8192,
                may_move: true,
                fixed: Some(0x2_0000),
            },
        }),
    ),
    (
        b"cpu 2 dontneed 00065536 00000000000000000001",
        Make(Issue {
            cpu: 2,
            command: DontNeed {
                addr: 0x1_0000,
                len: 1,
            },
        }),
    ),
];

/// Lines of which a script has none.
static WRONG: [&'static [u8]; 64] = [
    b"start 1",
    b"Start",
    b"starts",
    b"star",
    b"round 1",
    b"send 1",
    b"sendrun",
    b"sendrun 0",
    b"sendrun 65",
    b"sendrun 256",
    b"sendrun 257",
    b"sendrun 1 1",
    b"sread 0",
    b"sact sact",
    b"switch 1",
    b"deliver 1 1",
    b"deliver all",
    b"deliver 18446744073709551616",
    b"deliver -1",
    b"back back",
    b"back 0x",
    b"udeliver 0X1",
    b"udeliver 0x10000000000000000",
    b"dread 1",
    b"dact 1",
    b"install 0x10000",
    b"serve 1",
    b"end 0",
    b"break 1",
    b"notice",
    b"notice destination",
    b"notice source dest",
    b"source",
    b"dest",
    b"resume 2",
    b"progress 1",
    b"retry",
    b"retry 256",
    b"retry 0 0",
    b"retry x",
    b"push",
    b"push 0x10001",
    b"push 0x100000000",
    b"push 0x10000 4294967296",
    b"push 0x10000 1 1",
    b"push page",
    b"upush",
    b"upush 4095",
    b"upush 0x10000 x",
    b"cpu",
    b"cpu 0",
    b"cpu 0 load 0x10000",
    b"cpu 0 load 0x10000 256",
    b"cpu 256 load 0x10000 8",
    b"cpu 0 store 0x10000 8",
    b"cpu 0 mmap 4096",
    b"cpu 0 mmap 4096 wr",
    b"cpu 0 mremap 0x10000 4096 4096 fixed 0x20000 maymove",
    b"cpu 0 munmap 0x10000 000000000000000000001",
    b"load 0x10000 8",
    b"start\r",
    b"start\t",
    b"0 load 0x10000 8 => done",
    b"push 0x10000 # a comment",
];

/// Lines that say nothing.
static NOTHING: [&'static [u8]; 6] = [b"", b"   ", b"#", b"# start", b"  #start", b"#\r"];

#[test]
fn lines_of_scripts(rt: HostRuntime) -> Result<(), Fail> {
    let mut tokens = Vec::new(rt.alloc());
    for (i, (text, order)) in ORDERS.iter().enumerate() {
        look(&rt, &mut tokens, text, Some(Line::Do(*order)), i);
    }
    for (i, text) in WRONG.iter().enumerate() {
        look(&rt, &mut tokens, text, None, i);
    }
    for (i, text) in NOTHING.iter().enumerate() {
        look(&rt, &mut tokens, text, Some(Line::Skipped), i);
    }
    Ok(())
}

/// What is printed for an order is read as that order.
#[test]
fn orders_are_read_back(rt: HostRuntime) -> Result<(), Fail> {
    let mut tokens = Vec::new(rt.alloc());
    let mut text = String::new(rt.alloc());
    for (i, (_, order)) in ORDERS.iter().enumerate() {
        if print_order(&mut text, *order).is_err() {
            assert!(&rt; text.is_empty());
            print_order(&mut text, *order)?;
        }
        look(&rt, &mut tokens, text.as_bytes(), Some(Line::Do(*order)), i);
    }
    Ok(())
}

static STEPS: [(Order, Option<Step>); 6] = [
    (Make(Step::Round), Some(Step::Round)),
    (Progress, None),
    (
        Push {
            wire: ForwardWire::Main,
            page: 0x10,
            epoch: None,
        },
        Some(Step::Push(Ticket {
            epoch: 7,
            page: 0x10,
        })),
    ),
    (
        Push {
            wire: ForwardWire::Main,
            page: 0x11,
            epoch: Some(8),
        },
        Some(Step::Push(Ticket {
            epoch: 8,
            page: 0x11,
        })),
    ),
    (
        Push {
            wire: ForwardWire::Urgent,
            page: 0x12,
            epoch: None,
        },
        Some(Step::PushUrgent(Ticket {
            epoch: 7,
            page: 0x12,
        })),
    ),
    (
        Push {
            wire: ForwardWire::Urgent,
            page: 0x13,
            epoch: Some(0),
        },
        Some(Step::PushUrgent(Ticket {
            epoch: 0,
            page: 0x13,
        })),
    ),
];

#[test]
fn steps_in_epoch_seven(rt: HostRuntime) -> Result<(), Fail> {
    for (i, (order, wanted)) in STEPS.iter().enumerate() {
        assert_eq!(&rt; order.step(7), *wanted, "order {i}");
    }
    Ok(())
}

//! `Frame`: which are well formed, and how long their texts are.

use crate::parts::{Areas, NONE, Ranges, holds, package, set};
use area_map::AreaMap;
use mig_base::phase::Received;
use mig_base::{Addr, Command, NoMemory, PageBytes, PageNo, PageSet, Prot};
use page_stream::{Frame, Pages, Waiting};
use std::alloc::Global;
use std::process::Abort;

/// A frame to be made. Pages have bytes of zeros.
#[derive(Clone, Copy)]
enum Sample {
    Advise,
    Page(PageNo),
    Zero(PageNo),
    /// The first page, and how many they are.
    Run(PageNo, usize),
    Discard(Ranges),
    /// What is mapped and owed, and how many processors there are. None waits.
    Package(Areas, Ranges, usize),
    /// A Package with nothing mapped and one processor, which waits for a load of an address and a width.
    Load(Addr, u8),
    /// The same, for a store of a width and a value.
    Store(u8, u64),
    /// The same, for a map call.
    MapCall,
    End(u32),
    Resume,
    Request(PageNo),
    Recv(Ranges),
    Done,
}

use Sample::{
    Advise, Discard, Done, End, Load, MapCall, Package, Page, Recv, Request, Resume, Run, Store,
    Zero,
};

fn page(alloc: Global, page: PageNo) -> Result<Frame, NoMemory> {
    let bytes = PageBytes::zeros(alloc)?;
    Ok(Frame::Page { page, bytes })
}

fn pages(alloc: Global, count: usize) -> Result<Pages, NoMemory> {
    let mut pages = Vec::new(alloc);
    for _ in 0..count {
        pages.push(PageBytes::zeros(alloc)?)?;
    }
    Ok(Pages::new(pages))
}

fn run(alloc: Global, first: PageNo, count: usize) -> Result<Frame, NoMemory> {
    let pages = pages(alloc, count)?;
    Ok(Frame::Run { first, pages })
}

fn discard(rt: &impl Abort, alloc: Global, ranges: Ranges) -> Result<Frame, NoMemory> {
    let pages = set(rt, alloc, ranges)?;
    Ok(Frame::Discard { pages })
}

fn recv(rt: &impl Abort, alloc: Global, ranges: Ranges) -> Result<Frame, NoMemory> {
    let owed = set(rt, alloc, ranges)?;
    Ok(Frame::Recv {
        state: Received::Running,
        owed,
    })
}

/// A Package of `count` processors without a command.
fn idle(
    rt: &impl Abort,
    alloc: Global,
    mapped: Areas,
    owed: Ranges,
    count: usize,
) -> Result<Frame, NoMemory> {
    let commands = Waiting::new(vec![in alloc; None; count]?);
    package(rt, alloc, mapped, owed, commands)
}

/// A Package with nothing mapped and one processor, which waits for the command.
fn waits_for(alloc: Global, command: Command) -> Result<Frame, NoMemory> {
    let commands = vec![in alloc; Some(command); 1]?;
    Ok(Frame::Package {
        areas: AreaMap::new(alloc),
        owed: PageSet::new(alloc),
        commands: Waiting::new(commands),
    })
}

/// The command of a sample that has one.
fn command(sample: Sample) -> Command {
    let addr = 0x11000;
    match sample {
        Load(addr, width) => Command::Load { addr, width },
        Store(width, value) => Command::Store { addr, width, value },
        _ => Command::Munmap { addr, len: 4096 },
    }
}

fn made(rt: &impl Abort, alloc: Global, sample: Sample) -> Result<Frame, NoMemory> {
    match sample {
        Advise => Ok(Frame::Advise),
        Page(number) => page(alloc, number),
        Zero(page) => Ok(Frame::Zero { page }),
        Run(first, count) => run(alloc, first, count),
        Discard(ranges) => discard(rt, alloc, ranges),
        Package(mapped, owed, processors) => idle(rt, alloc, mapped, owed, processors),
        Load(..) | Store(..) | MapCall => waits_for(alloc, command(sample)),
        End(urgent) => Ok(Frame::End { urgent }),
        Resume => Ok(Frame::Resume),
        Request(page) => Ok(Frame::Request { page }),
        Recv(ranges) => recv(rt, alloc, ranges),
        Done => Ok(Frame::Done),
    }
}

/// How long the text of a frame is, if the frame is well formed.
fn length(frame: &Frame) -> Option<u64> {
    if frame.is_well_formed() {
        Some(frame.text_len())
    } else {
        None
    }
}

/// How long the text of a sample is.
fn sample_length(rt: &impl Abort, alloc: Global, sample: Sample) -> Result<Option<u64>, NoMemory> {
    match made(rt, alloc, sample) {
        Ok(frame) => Ok(length(&frame)),
        Err(NoMemory) => Err(NoMemory),
    }
}

/// The same, looked at again where memory was refused.
fn length_again(rt: &impl Abort, alloc: Global, sample: Sample) -> Option<u64> {
    match sample_length(rt, alloc, sample) {
        Ok(length) => length,
        Err(NoMemory) => sample_length(rt, alloc, sample).expect(rt, "a second time"),
    }
}

fn play(rt: &impl Abort, alloc: Global, samples: &[(Sample, Option<u64>)]) {
    for (i, (sample, wanted)) in samples.iter().enumerate() {
        let length = length_again(rt, alloc, *sample);
        holds(rt, length == *wanted, "sample", i);
    }
}

type Samples<const N: usize> = [(Sample, Option<u64>); N];

/// The last page that may be mapped.
const LAST: PageNo = 0xf_ffff;

/// A page from `LOW_PAGE` up to `HIGH_PAGE`, and 1 to `MAX_RUN` of them in a run.
const PAGES: Samples<21> = [
    (Advise, Some(12)),
    (Resume, Some(12)),
    (Done, Some(12)),
    (End(0), Some(16)),
    (End(0xffff_ffff), Some(16)),
    (Page(0x10), Some(4112)),
    (Page(0xf), None),
    (Zero(LAST), Some(16)),
    (Zero(LAST + 1), None),
    (Request(0x10), Some(16)),
    (Request(0), None),
    (Request(0xffff_ffff), None),
    (Run(0x10, 1), Some(4116)),
    (Run(0x10, 64), Some(262_164)),
    (Run(0x10, 0), None),
    (Run(0x10, 65), None),
    (Run(0xf, 2), None),
    (Run(LAST, 1), Some(4116)),
    (Run(LAST, 2), None),
    (Run(LAST + 1, 1), None),
    (Run(0xffff_ffff, 64), None),
];

#[test]
fn pages_and_runs(rt: HostRuntime) {
    play(&rt, rt.alloc(), &PAGES);
}

/// A set is counted by its runs. A Discard may have any pages, a Recv 262,144 at most.
const SETS: Samples<14> = [
    (Discard(NONE), Some(16)),
    (Discard(((0x10, 1), (0, 0))), Some(24)),
    (Discard(((0x10, 2), (0x13, 1))), Some(32)),
    (Discard(((0x10, 2), (0x12, 1))), Some(24)),
    (Discard(((0x3ff, 2), (LAST, 1))), Some(32)),
    (Discard(((0x10, 0xf_fff0), (0, 0))), Some(24)),
    (Discard(((0xf, 2), (0, 0))), None),
    (Discard(((0, 1), (0x10, 1))), None),
    (Recv(NONE), Some(17)),
    (Recv(((0x10, 2), (0x13, 1))), Some(33)),
    (Recv(((0x10, 262_144), (0, 0))), Some(25)),
    (Recv(((0x10, 262_145), (0, 0))), None),
    (Recv(((0x10, 262_144), (LAST, 1))), None),
    (Recv(((0xf, 1), (0, 0))), None),
];

#[test]
fn sets_of_pages(rt: HostRuntime) {
    play(&rt, rt.alloc(), &SETS);
}

const READ: Prot = Prot::Read;

const WRITE: Prot = Prot::ReadWrite;

const UNMAPPED: Areas = ((0, 0, READ), (0, 0, READ));

/// Areas are counted as those of a map: touching ones of one protection are one. Each processor has a place in it.
const PACKAGES: Samples<18> = [
    (Package(UNMAPPED, NONE, 1), Some(22)),
    (
        Package(((0x10, 2, WRITE), (0, 0, READ)), ((0x11, 1), (0, 0)), 2),
        Some(40),
    ),
    (
        Package(((0x10, 1, READ), (0x11, 1, READ)), NONE, 1),
        Some(31),
    ),
    (
        Package(((0x10, 1, READ), (0x11, 1, WRITE)), NONE, 1),
        Some(40),
    ),
    (
        Package(((0x10, 1, READ), (0x12, 1, READ)), NONE, 1),
        Some(40),
    ),
    (
        Package(((0x10, 9, READ), (0x12, 1, READ)), NONE, 1),
        Some(31),
    ),
    (
        Package(((0x10, 1, READ), (LAST, 1, Prot::NoAccess)), NONE, 1),
        Some(40),
    ),
    (
        Package(((0x10, 262_144, READ), (0, 0, READ)), NONE, 1),
        Some(31),
    ),
    (
        Package(((0x10, 262_144, READ), (LAST, 1, READ)), NONE, 1),
        None,
    ),
    (Package(((0xf, 1, READ), (0, 0, READ)), NONE, 1), None),
    (Package(((0, 1, READ), (0x10, 1, READ)), NONE, 1), None),
    (Package(UNMAPPED, ((0x10, 2), (0x13, 1)), 1), Some(38)),
    (Package(UNMAPPED, ((0x10, 262_144), (0, 0)), 1), Some(30)),
    (Package(UNMAPPED, ((0x10, 262_144), (LAST, 1)), 1), None),
    (Package(UNMAPPED, ((0xf, 1), (0, 0)), 1), None),
    (Package(UNMAPPED, NONE, 16), Some(37)),
    (Package(UNMAPPED, NONE, 17), None),
    (Package(UNMAPPED, NONE, 0), None),
];

#[test]
fn packages(rt: HostRuntime) {
    play(&rt, rt.alloc(), &PACKAGES);
}

/// A load or store of any address may wait, where the address is a multiple of the width and the value fits it.
const COMMANDS: Samples<14> = [
    (Load(0x11000, 8), Some(31)),
    (Load(0xffff_ffff_ffff_fff8, 8), Some(31)),
    (Load(0x11001, 1), Some(31)),
    (Load(0x11001, 2), None),
    (Load(0x11000, 3), None),
    (Load(0x11000, 0), None),
    (Store(1, 0xff), Some(39)),
    (Store(1, 0x100), None),
    (Store(2, 0xffff), Some(39)),
    (Store(2, 0x1_0000), None),
    (Store(4, 0xffff_ffff), Some(39)),
    (Store(4, 0x1_0000_0000), None),
    (Store(8, 0xffff_ffff_ffff_ffff), Some(39)),
    (MapCall, None),
];

#[test]
fn waiting_commands(rt: HostRuntime) {
    play(&rt, rt.alloc(), &COMMANDS);
}

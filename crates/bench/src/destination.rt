//! A destination that is owed pages: the copies that come for it, and map calls over what it is owed.

use crate::failure::Failed;
use area_map::AreaMap;
use fault_handler::Destination;
use guest::Tried;
use mig_base::effect::Effect;
use mig_base::{
    Addr, Command, LOW_PAGE, MAX_PAGES, PAGE_BYTES, PAGE_SIZE, PageBytes, PageNo, PageSet, Prot,
    Reply, page_address,
};
use page_stream::{Frame, Waiting};
use std::alloc::Global;

/// The epoch of all frames.
const EPOCH: u32 = 1;

/// How far a page is moved: to where nothing is mapped.
const FAR: Addr = 0x8000_0000;

/// How far the pages of the map calls are from each other.
pub const APART: u32 = 8;

/// A map call over one page that is owed.
#[derive(Clone, Copy)]
pub enum Call {
    DontNeed,
    Unmap,
    Move,
}

impl Call {
    /// The command of a processor.
    fn command(self, page: PageNo) -> Command {
        let addr = page_address(page);
        match self {
            Call::DontNeed => Command::DontNeed {
                addr,
                len: PAGE_SIZE,
            },
            Call::Unmap => Command::Munmap {
                addr,
                len: PAGE_SIZE,
            },
            Call::Move => Command::Mremap {
                addr,
                old_len: PAGE_SIZE,
                new_len: PAGE_SIZE,
                may_move: true,
                fixed: Some(addr.wrapping_add(FAR)),
            },
        }
    }
}

/// Hands over a frame.
fn take(destination: &mut Destination, frame: Frame) -> Result<(), Failed> {
    if !frame.is_well_formed() {
        return Err(Failed);
    }
    match destination.take(EPOCH, frame) {
        Ok(_) => Ok(()),
        Err(_) => Err(Failed),
    }
}

/// This many pages from `LOW_PAGE` on, mapped and owed, and one processor, which waits for nothing.
fn package(alloc: Global, pages: u32) -> Result<Frame, Failed> {
    if pages > MAX_PAGES {
        return Err(Failed);
    }
    let mut areas = AreaMap::new(alloc);
    let mut owed = PageSet::new(alloc);
    let Ok(()) = areas.map(LOW_PAGE, pages, Prot::ReadWrite) else {
        return Err(Failed);
    };
    let Ok(()) = owed.insert_range(LOW_PAGE, pages) else {
        return Err(Failed);
    };
    let Ok(commands) = vec![in alloc; None; 1] else {
        return Err(Failed);
    };
    Ok(Frame::Package {
        areas,
        owed,
        commands: Waiting::new(commands),
    })
}

/// Has a destination run, and be owed this many pages.
pub fn start(alloc: Global, destination: &mut Destination, pages: u32) -> Result<(), Failed> {
    let package = package(alloc, pages)?;
    take(destination, Frame::Advise)?;
    let pages = PageSet::new(alloc);
    take(destination, Frame::Discard { pages })?;
    take(destination, package)
}

/// The copy of a page comes.
fn arrive(alloc: Global, destination: &mut Destination, page: PageNo) -> Result<(), Failed> {
    let Ok(bytes) = PageBytes::copy_of(alloc, &[1; PAGE_BYTES]) else {
        return Err(Failed);
    };
    take(destination, Frame::Page { page, bytes })
}

/// The copies of this many pages come.
pub fn arrive_all(alloc: Global, destination: &mut Destination, pages: u32) -> Result<(), Failed> {
    for i in 0..pages {
        arrive(alloc, destination, LOW_PAGE.wrapping_add(i))?;
    }
    Ok(())
}

/// Installs this many copies.
pub fn install_all(destination: &mut Destination, pages: u32) -> Result<(), Failed> {
    for _ in 0..pages {
        let Ok(Effect::Installed { .. }) = destination.install() else {
            return Err(Failed);
        };
    }
    Ok(())
}

/// Reads the messages of one call, until its processor has the reply.
fn read(destination: &mut Destination, messages: u8) -> Result<(), Failed> {
    for _ in 1..messages {
        let Ok(Effect::ReadEvent { .. }) = destination.read() else {
            return Err(Failed);
        };
    }
    match destination.read() {
        Ok(
            Effect::ReadLast {
                reply: Reply::Done | Reply::At(_),
                ..
            },
        ) => Ok(()),
        _ => Err(Failed),
    }
}

/// The processor makes a map call, whose messages are read.
fn make(destination: &mut Destination, command: Command) -> Result<(), Failed> {
    match destination.issue(0, command) {
        Ok(
            Tried {
                effect: Effect::InCall { messages, .. },
                ..
            },
        ) => read(destination, messages),
        _ => Err(Failed),
    }
}

/// Has the processor make `calls` calls, each over one page, `APART` pages after that of the last.
pub fn make_all(
    destination: &mut Destination,
    kind: Call,
    first: PageNo,
    calls: u32,
) -> Result<(), Failed> {
    for i in 0..calls {
        let page = first.wrapping_add(i.wrapping_mul(APART));
        make(destination, kind.command(page))?;
    }
    Ok(())
}

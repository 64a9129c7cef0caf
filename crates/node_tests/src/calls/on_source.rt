//! Calls of the source.

use crate::calls::SourceCall;
use mig_base::refusal::Refusal;
use mig_base::schedule::Ticket;
use mig_base::{Command, PAGE_SIZE, PageNo, Place, Prot};
use page_stream::Frame;
use precopy::{Source, SourceFault};
use std::io;

/// Maps 16 pages from 0x10 on, and stores to each second one.
pub fn fill(source: &mut Source) -> Result<(), Refusal> {
    let map = Command::Mmap {
        addr_len: 16 * PAGE_SIZE,
        prot: Prot::ReadWrite,
        place: Place::Anywhere,
    };
    source.issue(0, map)?;
    for place in 0..8_u64 {
        let store = Command::Store {
            addr: 0x10000 + 2 * place * PAGE_SIZE,
            width: 8,
            value: 1,
        };
        source.issue(0, store)?;
    }
    Ok(())
}

/// Prints what the source is, after an answer.
fn print_state(rt: &HostRuntime, source: &Source) -> io::Result<()> {
    println!(rt;
        "; {:?} switched {} epoch {} remaining {} asked {} sent {}",
        source.phase(),
        source.has_switched(),
        source.epoch(),
        source.remaining().len(),
        source.asked(),
        source.pages_sent()
    )
}

/// Takes a frame, and says how many frames answer it.
fn taken(source: &mut Source, epoch: u32, frame: &Frame) -> Result<usize, SourceFault> {
    let answers = source.answers(frame)?;
    source.take(epoch, frame)?;
    Ok(answers.len())
}

/// A frame comes back.
pub fn back(rt: &HostRuntime, source: &mut Source, epoch: u32, frame: &Frame) -> io::Result<()> {
    match (taken(source, epoch, frame), frame) {
        (Ok(count), Frame::Recv { .. }) => print!(rt; "took, and sends {count}")?,
        (Ok(_), _) => print!(rt; "took")?,
        (Err(fault), _) => print!(rt; "refused {fault:?}")?,
    }
    print_state(rt, source)
}

/// Pushes a page in the source's epoch.
fn push(source: &mut Source, page: PageNo, is_urgent: bool) -> Result<(), Refusal> {
    let ticket = Ticket {
        epoch: source.epoch(),
        page,
    };
    if is_urgent {
        source.push_urgent(ticket)?;
    } else {
        source.push(ticket)?;
    }
    Ok(())
}

/// The outcome of a call, without what it returns.
fn done<T: Drop>(answer: Result<T, Refusal>) -> Result<(), Refusal> {
    match answer {
        Ok(_) => Ok(()),
        Err(refusal) => Err(refusal),
    }
}

/// Makes a call that takes no frame.
fn outcome(source: &mut Source, call: SourceCall) -> Result<(), Refusal> {
    match call {
        SourceCall::Start => done(source.start()),
        SourceCall::Switch => done(source.switch()),
        SourceCall::End => done(source.end()),
        SourceCall::Serve => done(source.serve()),
        SourceCall::Push(page) => push(source, page, false),
        SourceCall::PushUrgent(page) => push(source, page, true),
        SourceCall::Notice => done(source.notice()),
        SourceCall::Resume => done(source.resume()),
    }
}

/// Makes a call that takes no frame, and prints the answer.
pub fn make(rt: &HostRuntime, source: &mut Source, call: SourceCall) -> io::Result<()> {
    match outcome(source, call) {
        Ok(()) => print!(rt; "done")?,
        Err(refusal) => print!(rt; "refused {refusal:?}")?,
    }
    print_state(rt, source)
}

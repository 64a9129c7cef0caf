//! Calls of the destination.

use fault_handler::Destination;
use mig_base::PageNo;
use mig_base::fault::TakeFault;
use page_stream::Frame;
use std::io;

/// Prints what the destination is, after an answer.
fn print_state(rt: &HostRuntime, destination: &Destination) -> io::Result<()> {
    println!(rt;
        "; {:?} run {} epoch {} arrivals {} owed {} installed {} dropped {}",
        destination.phase(),
        destination.has_run(),
        destination.epoch(),
        destination.arrivals(),
        destination.owed().len(),
        destination.installed(),
        destination.dropped()
    )
}

/// The answer to a frame that comes.
#[derive(Clone, Copy)]
enum Taken {
    /// It is not handed over: no text spells such a frame.
    NotWellFormed,
    Took,
    SendsDone,
    Refused(TakeFault),
}

fn taken_of(destination: &mut Destination, epoch: u32, frame: Frame) -> Taken {
    if !frame.is_well_formed() {
        return Taken::NotWellFormed;
    }
    let answers = match destination.answers(&frame) {
        Ok(answers) => answers,
        Err(fault) => return Taken::Refused(TakeFault::from(fault)),
    };
    match destination.take(epoch, frame) {
        Ok(()) if matches!(answers.as_slice(), [Frame::Done]) => Taken::SendsDone,
        Ok(()) => Taken::Took,
        Err(fault) => Taken::Refused(fault),
    }
}

fn urgently_taken(destination: &mut Destination, epoch: u32, frame: Frame) -> Taken {
    if !frame.is_well_formed() {
        return Taken::NotWellFormed;
    }
    match destination.take_urgent(epoch, frame) {
        Ok(()) => Taken::Took,
        Err(fault) => Taken::Refused(fault),
    }
}

/// Prints the answer to a frame, and what the destination is then.
fn print_taken(rt: &HostRuntime, destination: &Destination, answer: Taken) -> io::Result<()> {
    match answer {
        Taken::NotWellFormed => return println!(rt; "not well formed"),
        Taken::Took => print!(rt; "took")?,
        Taken::SendsDone => print!(rt; "took, and sends Done")?,
        Taken::Refused(fault) => print!(rt; "refused {fault:?}")?,
    }
    print_state(rt, destination)
}

/// A frame comes.
pub fn take(
    rt: &HostRuntime,
    destination: &mut Destination,
    epoch: u32,
    frame: Frame,
) -> io::Result<()> {
    let answer = taken_of(destination, epoch, frame);
    print_taken(rt, destination, answer)
}

/// A frame comes on the urgent wire.
pub fn take_urgent(
    rt: &HostRuntime,
    destination: &mut Destination,
    epoch: u32,
    frame: Frame,
) -> io::Result<()> {
    let answer = urgently_taken(destination, epoch, frame);
    print_taken(rt, destination, answer)
}

/// The first copy that waits is installed or dropped.
pub fn install(rt: &HostRuntime, destination: &mut Destination) -> io::Result<()> {
    match destination.install() {
        Ok(effect) => print!(rt; "{effect:?}")?,
        Err(refusal) => print!(rt; "refused {refusal:?}")?,
    }
    print_state(rt, destination)
}

/// The channel is broken.
pub fn pause(rt: &HostRuntime, destination: &mut Destination) -> io::Result<()> {
    destination.pause();
    print!(rt; "paused")?;
    print_state(rt, destination)
}

/// The first byte of a page that is present.
fn first_byte(destination: &Destination, page: PageNo) -> Option<u8> {
    match destination.space().page(page) {
        Some(bytes) => Some(bytes[0]),
        None => None,
    }
}

/// Prints the first byte of each of 16 pages, or `-` where the page is not present.
pub fn print_memory(rt: &HostRuntime, destination: &Destination) -> io::Result<()> {
    for page in 0x10..0x20 {
        match first_byte(destination, page) {
            Some(byte) => print!(rt; " {byte}")?,
            None => print!(rt; " -")?,
        }
    }
    println!(rt; "")
}

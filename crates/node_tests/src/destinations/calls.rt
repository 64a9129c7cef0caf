//! Calls of a destination, and what they answer.

use crate::frames::{Brief, Sending, frame_of};
use fault_handler::Destination;
use guest::Tried;
use mig_base::act::Act;
use mig_base::cpu_state::CpuState;
use mig_base::effect::Effect;
use mig_base::fault::TakeFault;
use mig_base::phase::DestPhase;
use mig_base::refusal::Refusal;
use mig_base::{Addr, Command, NoMemory, PAGE_SIZE, PageNo, Place, Prot, Reply};
use page_stream::Frame;
use std::alloc::Global;
use std::process::Abort;

/// A call with its arguments.
#[derive(Clone, Copy)]
pub enum Call {
    /// A frame comes that was sent in an epoch.
    Take(u32, Sending),
    /// So on the urgent wire.
    TakeUrgent(u32, Sending),
    /// A processor loads one byte.
    Load(u8, Addr),
    /// A processor stores 8 bytes.
    Store(u8, Addr, u64),
    /// A processor maps one page at an address, to be read and written.
    Map(u8, Addr),
    /// A processor unmaps one page.
    Unmap(u8, Addr),
    /// A processor moves one page to another address.
    Move(u8, Addr, Addr),
    /// A processor makes one page zeros again.
    DontNeed(u8, Addr),
    Retry(u8),
    Read,
    Act,
    Install,
    /// How the next `Act` would resolve a fault.
    NextAct,
    /// What the next `Install` would do.
    NextInstall,
    Pause,
    Notice,
    /// How far it has come, as a Recv reports it: the first frame with which it would answer a Resume.
    Report,
    /// Its requests once more: the frames that follow it.
    Rerequest,
    /// How far it is, whether it has run, and its epoch.
    Phase,
    /// What it counts.
    Counts,
    /// Where a page of the source belongs.
    Home(PageNo),
    /// What a processor does.
    Cpu(u8),
}

#[derive(Clone, Copy, PartialEq, Eq)]
pub enum Answer {
    Done,
    /// A frame was taken, and this is the first that answers it; or that would answer a Resume.
    Took(Option<Brief>),
    NotTaken(TakeFault),
    /// A command was answered, and was entered.
    Replied(u8, Reply),
    /// The processor sleeps, and nothing was entered.
    Asleep(u8),
    /// A map call waits for this number of messages, and was entered with this reply.
    InCall(u8, u8, Reply),
    /// A command whose entry does not fit its effect.
    Unfit(Tried),
    Told(Effect),
    /// The effect of resolving a fault, and the frame to send.
    Acts(Effect, Option<Brief>),
    /// How a fault would be resolved, and the address of its page.
    WouldAct(Act, Addr),
    /// A page of the source, and where it would be installed.
    WouldInstall(PageNo, Option<PageNo>),
    /// The first of the frames that ask again.
    Sends((Option<Brief>, Option<Brief>, Option<Brief>)),
    Stands(DestPhase, bool, u32),
    /// Copies installed, copies dropped and faults read; copies that wait; and pages that are owed.
    Counted([u64; 3], usize, u32),
    At(Option<PageNo>),
    Is(CpuState),
}

use Answer::{
    Acts, Asleep, At, Counted, Done, InCall, Is, NotTaken, Replied, Sends, Stands, Told, Took,
    Unfit, WouldAct, WouldInstall,
};

/// A call with the answer that is wanted.
pub type Step = (Call, Result<Answer, Refusal>);

fn brief_of(frame: Option<Frame>) -> Option<Brief> {
    match frame {
        Some(frame) => Some(Brief::of(&frame)),
        None => None,
    }
}

/// The first of the frames that answer another.
fn first_of(answers: &[Frame]) -> Option<Brief> {
    let (first, _, _) = Brief::of_first(answers);
    first
}

/// The answer for a frame that was refused.
fn not_taken(fault: TakeFault) -> Result<Answer, Refusal> {
    match fault {
        TakeFault::NoMemory => Err(Refusal::NoMemory),
        _ => Ok(NotTaken(fault)),
    }
}

/// A frame comes.
fn take(
    rt: &impl Abort,
    destination: &mut Destination,
    epoch: u32,
    frame: Frame,
) -> Result<Answer, Refusal> {
    assert!(rt; frame.is_well_formed());
    let answers = destination.answers(&frame)?;
    match destination.take(epoch, frame) {
        Ok(()) => Ok(Took(first_of(&answers))),
        Err(fault) => not_taken(fault),
    }
}

/// A frame comes on the urgent wire.
fn take_urgent(
    rt: &impl Abort,
    destination: &mut Destination,
    epoch: u32,
    frame: Frame,
) -> Result<Answer, Refusal> {
    assert!(rt; frame.is_well_formed());
    match destination.take_urgent(epoch, frame) {
        Ok(()) => Ok(Took(None)),
        Err(fault) => not_taken(fault),
    }
}

/// The answer for a command.
fn replied(tried: Tried) -> Answer {
    match (tried.effect, tried.entry) {
        (Effect::Asleep { cpu }, None) => Asleep(cpu),
        (Effect::Answered { cpu, reply }, Some(entry))
            if entry.cpu == cpu && entry.reply == reply => { Replied(cpu, reply) }
        (Effect::InCall { cpu, messages }, Some(entry)) if entry.cpu == cpu => {
            InCall(cpu, messages, entry.reply)
        }
        _ => Unfit(tried),
    }
}

fn tried(answer: Result<Tried, Refusal>) -> Result<Answer, Refusal> {
    match answer {
        Ok(tried) => Ok(replied(tried)),
        Err(refusal) => Err(refusal),
    }
}

/// The answer for a step that only tells its effect.
fn told(answer: Result<Effect, Refusal>) -> Result<Answer, Refusal> {
    match answer {
        Ok(effect) => Ok(Told(effect)),
        Err(refusal) => Err(refusal),
    }
}

fn acted(destination: &mut Destination) -> Result<Answer, Refusal> {
    match destination.act() {
        Ok((effect, frame)) => Ok(Acts(effect, brief_of(frame))),
        Err(refusal) => Err(refusal),
    }
}

fn report(destination: &Destination) -> Result<Answer, Refusal> {
    let answers = destination.answers(&Frame::Resume)?;
    Ok(Took(first_of(&answers)))
}

fn requested(destination: &Destination) -> Result<Answer, Refusal> {
    let answers = destination.answers(&Frame::Resume)?;
    match answers.as_slice() {
        [_recv, requests @ ..] => Ok(Sends(Brief::of_first(requests))),
        [] => Ok(Sends(Brief::of_first(&[Frame::Resume]))),
    }
}

fn next_act(destination: &Destination) -> Result<Answer, Refusal> {
    match destination.next_act() {
        Ok((act, addr)) => Ok(WouldAct(act, addr)),
        Err(refusal) => Err(refusal),
    }
}

fn next_install(destination: &Destination) -> Result<Answer, Refusal> {
    match destination.next_install() {
        Ok((origin, page)) => Ok(WouldInstall(origin, page)),
        Err(refusal) => Err(refusal),
    }
}

fn state(destination: &Destination, cpu: u8) -> Result<Answer, Refusal> {
    match destination.cpus().state(cpu) {
        Ok(state) => Ok(Is(state)),
        Err(refusal) => Err(refusal),
    }
}

fn counts(destination: &Destination) -> Answer {
    Counted(
        [
            destination.installed(),
            destination.dropped(),
            destination.faults(),
        ],
        destination.arrivals(),
        destination.owed().len(),
    )
}

/// Asks for what a destination knows.
fn asked(destination: &Destination, call: Call) -> Result<Answer, Refusal> {
    match call {
        Call::Report => report(destination),
        Call::Rerequest => requested(destination),
        Call::NextAct => next_act(destination),
        Call::NextInstall => next_install(destination),
        Call::Home(origin) => Ok(At(destination.owed().home(origin))),
        Call::Cpu(cpu) => state(destination, cpu),
        Call::Phase => Ok(Stands(
            destination.phase(),
            destination.has_run(),
            destination.epoch(),
        )),
        _ => Ok(counts(destination)),
    }
}

/// The command of a call.
fn command(call: Call) -> Option<(u8, Command)> {
    let len = PAGE_SIZE;
    match call {
        Call::Load(cpu, addr) => Some((cpu, Command::Load { addr, width: 1 })),
        Call::Store(cpu, addr, value) => Some((
            cpu,
            Command::Store {
                addr,
                width: 8,
                value,
            },
        )),
        Call::Map(cpu, addr) => Some((
            cpu,
            Command::Mmap {
                addr_len: len,
                prot: Prot::ReadWrite,
                place: Place::Fixed(addr),
            },
        )),
        Call::Unmap(cpu, addr) => Some((cpu, Command::Munmap { addr, len })),
        Call::Move(cpu, addr, to) => Some((cpu, moving(addr, to))),
        Call::DontNeed(cpu, addr) => Some((cpu, Command::DontNeed { addr, len })),
        _ => None,
    }
}

/// One page moves.
fn moving(addr: Addr, to: Addr) -> Command {
    Command::Mremap {
        addr,
        old_len: PAGE_SIZE,
        new_len: PAGE_SIZE,
        may_move: true,
        fixed: Some(to),
    }
}

/// A frame is made and comes.
fn take_made(
    rt: &impl Abort,
    alloc: Global,
    destination: &mut Destination,
    epoch: u32,
    sending: Sending,
) -> Result<Answer, Refusal> {
    match frame_of(rt, alloc, sending) {
        Ok(frame) => take(rt, destination, epoch, frame),
        Err(NoMemory) => Err(Refusal::NoMemory),
    }
}

/// So on the urgent wire.
fn take_made_urgent(
    rt: &impl Abort,
    alloc: Global,
    destination: &mut Destination,
    epoch: u32,
    sending: Sending,
) -> Result<Answer, Refusal> {
    match frame_of(rt, alloc, sending) {
        Ok(frame) => take_urgent(rt, destination, epoch, frame),
        Err(NoMemory) => Err(Refusal::NoMemory),
    }
}

fn pause(destination: &mut Destination) -> Result<Answer, Refusal> {
    destination.pause();
    Ok(Done)
}

/// Makes a call.
pub fn make(
    rt: &impl Abort,
    alloc: Global,
    destination: &mut Destination,
    call: Call,
) -> Result<Answer, Refusal> {
    if let Some((cpu, command)) = command(call) {
        return tried(destination.issue(cpu, command));
    }
    match call {
        Call::Take(epoch, sending) => take_made(rt, alloc, destination, epoch, sending),
        Call::TakeUrgent(epoch, sending) => {
            take_made_urgent(rt, alloc, destination, epoch, sending)
        }
        Call::Retry(cpu) => tried(destination.retry(cpu)),
        Call::Read => told(destination.read()),
        Call::Act => acted(destination),
        Call::Install => told(destination.install()),
        Call::Pause => pause(destination),
        Call::Notice => told(destination.notice()),
        _ => asked(destination, call),
    }
}

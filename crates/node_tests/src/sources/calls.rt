//! Calls of a source, and what they answer.

use crate::frames::{NONE, Range, set_of};
use dirty_log::{DirtyLog, PageContent};
use guest::Tried;
use mig_base::act::Act as Resolving;
use mig_base::cpu_state::CpuState;
use mig_base::effect::Effect;
use mig_base::phase::{Received, SourcePhase};
use mig_base::refusal::Refusal;
use mig_base::schedule::Ticket;
use mig_base::{Addr, Command, NoMemory, PageNo, Place, Prot};
use page_stream::{Frame, Waiting};
use precopy::{Source, SourceFault};
use std::alloc::Global;
use std::process::Abort;

/// A call with its arguments. Loads and stores are of 8 bytes.
#[derive(Clone, Copy)]
pub(super) enum Call {
    /// Maps this many bytes at the lowest free place, for reading and writing.
    Map(u8, u64),
    Load(u8, Addr),
    Store(u8, Addr, u64),
    /// Makes one page zeros again.
    DontNeed(u8, Addr),
    Retry(u8),
    Start,
    Round,
    Send,
    SendRun(u8),
    /// What would be sent, and the same step without its frame.
    NextRun(u8),
    RunSent(u8),
    Read,
    Act,
    /// How a fault would be resolved.
    NextAct,
    Switch,
    /// The first page from this one on that remains.
    NextRemaining(PageNo),
    /// An epoch and a page.
    Push(u32, PageNo),
    PushUrgent(u32, PageNo),
    Serve,
    End,
    /// A frame comes back, of an epoch.
    Back(u32, Heard),
    Notice,
    Resume,
    /// How far the source is.
    Phase,
    /// What it counts.
    Counts,
    /// What a processor does.
    Cpu(u8),
}

use Call::{
    Act, Back, Counts, Cpu, DontNeed, End, Load, Map, NextAct, NextRemaining, NextRun, Notice,
    Phase, Push, PushUrgent, Read, Resume, Retry, Round, RunSent, Send, SendRun, Serve, Start,
    Store, Switch,
};

/// A frame from the destination.
#[derive(Clone, Copy)]
pub(super) enum Heard {
    Request(PageNo),
    Recv(Received, Range),
    Done,
    /// One that only a source sends.
    Advise,
}

pub(super) const HAS_NOT_RUN: Heard = Heard::Recv(Received::NotRun, NONE);

pub(super) const HAS_ENDED: Heard = Heard::Recv(Received::Ended, NONE);

/// A pair, and no array: tables are statics, which cannot be borrowed where they hold arrays of these.
pub(super) type Two<T> = (T, T);

/// A frame to the destination, or a page that is sent from the space, as far as a table says it.
#[derive(Clone, Copy, PartialEq, Eq)]
pub(super) enum Brief {
    Advise,
    /// A page with its first byte.
    Page(PageNo, u8),
    Zero(PageNo),
    /// The first page, how many they are, and the first byte of the last.
    Run(PageNo, usize, u8),
    /// The first page, and how many they are.
    Discard(PageNo, u32),
    /// The mapped pages, the first owed one and how many they are, and the commands of two processors.
    Package(u32, PageNo, u32, Two<Option<Command>>),
    End(u32),
    Resume,
    /// One that no source sends.
    Unfit,
}

#[derive(Clone, Copy, PartialEq, Eq)]
pub(super) enum Answer {
    Done,
    /// A command was answered, or a map call continues, and it was entered; or its processor sleeps, and it was not.
    Tries(Effect),
    /// A command whose entry does not fit its effect.
    Unfit(Tried),
    Told(Effect),
    Sends(Effect, Brief),
    Hands(Effect, Two<Brief>),
    /// A first page, and how many they are.
    Finds(PageNo, u32),
    Marks(Effect, PageNo, u32),
    WouldAct(Resolving, Addr),
    Remains(Option<PageNo>),
    NotTaken(SourceFault),
    /// The phase, whether the source has switched, and its epoch.
    Stands(SourcePhase, bool, u32),
    /// How many pages are present, remaining, clean, in the run that is sent next and ever sent, how many were owed, and how many faults
    /// are held.
    Counted([u32; 6], usize),
    Is(CpuState),
}

use Answer::{
    Counted, Done, Finds, Hands, Is, Marks, NotTaken, Remains, Sends, Stands, Told, Tries, WouldAct,
};

/// The commands of the first two processors.
fn first_two(commands: &Waiting) -> Two<Option<Command>> {
    match commands.as_slice() {
        [first, second, ..] => (*first, *second),
        [first] => (*first, None),
        [] => (None, None),
    }
}

impl Brief {
    fn of(frame: &Frame) -> Self {
        match frame {
            Frame::Advise => Brief::Advise,
            Frame::Run { first, pages } => match pages.as_slice().last() {
                Some(last) => Brief::Run(*first, pages.len(), last.as_array()[0]),
                None => Brief::Unfit,
            },
            Frame::Discard { pages } => Brief::Discard(pages.next_member(0), pages.len()),
            Frame::Package {
                areas,
                owed,
                commands,
            } => Brief::Package(
                areas.mapped_pages(),
                owed.next_member(0),
                owed.len(),
                first_two(commands),
            ),
            Frame::End { urgent } => Brief::End(*urgent),
            Frame::Resume => Brief::Resume,
            _ => Brief::Unfit,
        }
    }
}

/// Whether the entry of a command fits its effect.
fn fits(tried: Tried) -> bool {
    match (tried.effect, tried.entry) {
        (Effect::Asleep { .. }, None) => true,
        (Effect::Answered { cpu, reply }, Some(entry)) => entry.cpu == cpu && entry.reply == reply,
        (Effect::InCall { cpu, .. }, Some(entry)) => entry.cpu == cpu,
        _ => false,
    }
}

/// The outcome of a command.
fn tried(answer: Result<Tried, Refusal>) -> Result<Answer, Refusal> {
    match answer {
        Ok(tried) if fits(tried) => Ok(Tries(tried.effect)),
        Ok(tried) => Ok(Answer::Unfit(tried)),
        Err(refusal) => Err(refusal),
    }
}

fn sent(answer: Result<(Effect, Frame), Refusal>) -> Result<Answer, Refusal> {
    match answer {
        Ok((effect, frame)) => Ok(Sends(effect, Brief::of(&frame))),
        Err(refusal) => Err(refusal),
    }
}

/// What goes on the wire of a page.
fn page_sent(page: PageNo, sent: PageContent) -> Brief {
    match sent {
        PageContent::Page(bytes) => Brief::Page(page, bytes[0]),
        PageContent::Zero => Brief::Zero(page),
    }
}

fn sent_page(
    page: PageNo,
    answer: Result<(Effect, PageContent), Refusal>,
) -> Result<Answer, Refusal> {
    match answer {
        Ok((effect, sent)) => Ok(Sends(effect, page_sent(page, sent))),
        Err(refusal) => Err(refusal),
    }
}

fn push(source: &mut Source, ticket: Ticket) -> Result<Answer, Refusal> {
    sent_page(ticket.page, source.push(ticket))
}

fn push_urgent(source: &mut Source, ticket: Ticket) -> Result<Answer, Refusal> {
    sent_page(ticket.page, source.push_urgent(ticket))
}

fn send(source: &mut Source) -> Result<Answer, Refusal> {
    match source.send_next() {
        Ok((effect, page, sent)) => Ok(Sends(effect, page_sent(page, sent))),
        Err(refusal) => Err(refusal),
    }
}

/// The answer for a step that only tells its effect.
fn told(answer: Result<Effect, Refusal>) -> Result<Answer, Refusal> {
    match answer {
        Ok(effect) => Ok(Told(effect)),
        Err(refusal) => Err(refusal),
    }
}

fn handed(answer: Result<(Effect, Frame, Frame), Refusal>) -> Result<Answer, Refusal> {
    match answer {
        Ok((effect, first, second)) => Ok(Hands(effect, (Brief::of(&first), Brief::of(&second)))),
        Err(refusal) => Err(refusal),
    }
}

fn frame(rt: &impl Abort, alloc: Global, heard: Heard) -> Result<Frame, NoMemory> {
    Ok(match heard {
        Heard::Request(page) => Frame::Request { page },
        Heard::Recv(state, range) => Frame::Recv {
            state,
            owed: set_of(rt, alloc, range)?,
        },
        Heard::Done => Frame::Done,
        Heard::Advise => Frame::Advise,
    })
}

/// A frame comes back. What answers it is looked at in `rebuilds`.
fn back(
    rt: &impl Abort,
    alloc: Global,
    source: &mut Source,
    epoch: u32,
    heard: Heard,
) -> Result<Answer, Refusal> {
    let frame = frame(rt, alloc, heard)?;
    match source.take(epoch, &frame) {
        Ok(()) => Ok(Done),
        Err(SourceFault::NoMemory) => Err(Refusal::NoMemory),
        Err(fault) => Ok(NotTaken(fault)),
    }
}

/// The number of pages in the run that the round sends next.
pub(super) fn next_run(log: &DirtyLog) -> u32 {
    match log.next_page() {
        Some(first) => log.run_length(first, 64),
        None => 0,
    }
}

/// The number of pages that are present.
fn present(source: &Source) -> Result<u32, Refusal> {
    match source.space().present() {
        Ok(pages) => Ok(pages.len()),
        Err(NoMemory) => Err(Refusal::NoMemory),
    }
}

fn counts(source: &Source) -> Result<Answer, Refusal> {
    let present = present(source)?;
    let log = source.log();
    Ok(Counted(
        [
            present,
            source.remaining().len(),
            log.clean().len(),
            next_run(log),
            log.ever_sent().len(),
            source.packaged(),
        ],
        log.held(),
    ))
}

/// The command of a call.
fn command(call: Call) -> Option<(u8, Command)> {
    match call {
        Map(cpu, addr_len) => Some((
            cpu,
            Command::Mmap {
                addr_len,
                prot: Prot::ReadWrite,
                place: Place::Anywhere,
            },
        )),
        Load(cpu, addr) => Some((cpu, Command::Load { addr, width: 8 })),
        Store(cpu, addr, value) => Some((
            cpu,
            Command::Store {
                addr,
                width: 8,
                value,
            },
        )),
        DontNeed(cpu, addr) => Some((cpu, Command::DontNeed { addr, len: 0x1000 })),
        _ => None,
    }
}

fn next_run_of(source: &Source, most: u8) -> Result<Answer, Refusal> {
    match source.next_run(most) {
        Ok((first, count)) => Ok(Finds(first, count)),
        Err(refusal) => Err(refusal),
    }
}

fn run_sent(source: &mut Source, most: u8) -> Result<Answer, Refusal> {
    match source.run_sent(most) {
        Ok((effect, first, count)) => Ok(Marks(effect, first, count)),
        Err(refusal) => Err(refusal),
    }
}

fn next_act(source: &Source) -> Result<Answer, Refusal> {
    match source.next_act() {
        Ok((act, addr)) => Ok(WouldAct(act, addr)),
        Err(refusal) => Err(refusal),
    }
}

fn state(source: &Source, cpu: u8) -> Result<Answer, Refusal> {
    match source.cpus().state(cpu) {
        Ok(state) => Ok(Is(state)),
        Err(refusal) => Err(refusal),
    }
}

/// Asks a source what it is, or would do next.
fn asked(source: &Source, call: Call) -> Result<Answer, Refusal> {
    match call {
        NextRun(most) => next_run_of(source, most),
        NextAct => next_act(source),
        NextRemaining(from) => Ok(Remains(source.next_remaining(from))),
        Phase => Ok(Stands(source.phase(), source.has_switched(), source.epoch())),
        Cpu(cpu) => state(source, cpu),
        _ => counts(source),
    }
}

/// Makes a call.
pub(super) fn make(
    rt: &impl Abort,
    alloc: Global,
    source: &mut Source,
    call: Call,
) -> Result<Answer, Refusal> {
    if let Some((cpu, command)) = command(call) {
        return tried(source.issue(cpu, command));
    }
    match call {
        Retry(cpu) => tried(source.retry(cpu)),
        Start => sent(source.start()),
        Round => told(source.round()),
        Send => send(source),
        SendRun(count) => sent(source.send_run(count)),
        RunSent(most) => run_sent(source, most),
        Read => told(source.read()),
        Act => told(source.act()),
        Switch => handed(source.switch()),
        Push(epoch, page) => push(source, Ticket { epoch, page }),
        PushUrgent(epoch, page) => push_urgent(source, Ticket { epoch, page }),
        Serve => told(source.serve()),
        End => sent(source.end()),
        Back(epoch, heard) => back(rt, alloc, source, epoch, heard),
        Notice => told(source.notice()),
        Resume => sent(source.resume()),
        _ => asked(source, call),
    }
}

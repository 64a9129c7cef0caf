//! Steps of a world, and looks at it, as a table writes them.

use mig_base::schedule::{Side, Step, Ticket};
use mig_base::{Addr, Command, PageNo, Place, Prot};

/// A step with its arguments, the processor first, or a look at a world.
#[derive(Clone, Copy)]
pub enum Call {
    /// Address and width.
    Load(u8, Addr, u8),
    /// Address, width and value.
    Store(u8, Addr, u8, u64),
    /// As many bytes at the least place that is free, to be read and written.
    Map(u8, u64),
    Munmap(u8, Addr, u64),
    DontNeed(u8, Addr, u64),
    /// Address, old size and new size of a range that moves to the last address.
    Move(u8, Addr, u64, u64, Addr),
    Retry(u8),
    Start,
    Round,
    Send,
    SendRun(u8),
    SourceRead,
    SourceAct,
    Switch,
    /// As many bytes as complete the first frame.
    Deliver,
    /// At most this number of bytes.
    DeliverPart(u64),
    Back,
    DestRead,
    DestAct,
    Install,
    /// A page, for the present epoch.
    Push(PageNo),
    /// The epoch of the ticket, and the page.
    PushFor(u32, PageNo),
    PushUrgent(PageNo),
    DeliverUrgent,
    Serve,
    End,
    Break,
    Notice(Side),
    Resume,
    /// The phase and the counts.
    Progress,
    /// The phase of the source and the epoch.
    Source,
    /// The pages that are still to be pushed.
    Remaining,
    /// What a processor does.
    Cpu(u8),
    /// The transcript.
    Transcript,
}

use Call::{
    Back, Break, Deliver, DeliverPart, DeliverUrgent, DestAct, DestRead, DontNeed, End, Install,
    Load, Map, Move, Munmap, Notice, Push, PushFor, PushUrgent, Resume, Retry, Round, Send,
    SendRun, Serve, SourceAct, SourceRead, Start, Store, Switch,
};

fn mmap(addr_len: u64) -> Command {
    Command::Mmap {
        addr_len,
        prot: Prot::ReadWrite,
        place: Place::Anywhere,
    }
}

fn mremap(addr: Addr, old_len: u64, new_len: u64, to: Addr) -> Command {
    Command::Mremap {
        addr,
        old_len,
        new_len,
        may_move: true,
        fixed: Some(to),
    }
}

/// The command of a processor.
fn command_of(call: Call) -> Option<(u8, Command)> {
    match call {
        Load(cpu, addr, width) => Some((cpu, Command::Load { addr, width })),
        Store(cpu, addr, width, value) => Some((cpu, Command::Store { addr, width, value })),
        Map(cpu, len) => Some((cpu, mmap(len))),
        Munmap(cpu, addr, len) => Some((cpu, Command::Munmap { addr, len })),
        DontNeed(cpu, addr, len) => Some((cpu, Command::DontNeed { addr, len })),
        Move(cpu, addr, old, new, to) => Some((cpu, mremap(addr, old, new, to))),
        _ => None,
    }
}

/// The step of a call at an epoch. None for a look.
pub fn step_of(call: Call, epoch: u32) -> Option<Step> {
    if let Some((cpu, command)) = command_of(call) {
        return Some(Step::Issue { cpu, command });
    }
    match call {
        Retry(cpu) => Some(Step::Retry { cpu }),
        Start => Some(Step::Start),
        Round => Some(Step::Round),
        Send => Some(Step::Send),
        SendRun(count) => Some(Step::SendRun { count }),
        SourceRead => Some(Step::SourceRead),
        SourceAct => Some(Step::SourceAct),
        Switch => Some(Step::Switch),
        Push(page) => Some(Step::Push(Ticket { epoch, page })),
        PushFor(epoch, page) => Some(Step::Push(Ticket { epoch, page })),
        PushUrgent(page) => Some(Step::PushUrgent(Ticket { epoch, page })),
        Serve => Some(Step::Serve),
        End => Some(Step::End),
        _ => step_of_link(call),
    }
}

/// The step of a call of the link or of the destination.
fn step_of_link(call: Call) -> Option<Step> {
    match call {
        Deliver => Some(Step::Deliver { n: u64::MAX }),
        DeliverPart(n) => Some(Step::Deliver { n }),
        Back => Some(Step::DeliverBack { n: u64::MAX }),
        DeliverUrgent => Some(Step::DeliverUrgent { n: u64::MAX }),
        DestRead => Some(Step::DestRead),
        DestAct => Some(Step::DestAct),
        Install => Some(Step::Install),
        Break => Some(Step::Break),
        Notice(side) => Some(Step::Notice(side)),
        Resume => Some(Step::Resume),
        _ => None,
    }
}

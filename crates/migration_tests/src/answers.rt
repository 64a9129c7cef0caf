//! What a world answers, as a table writes it.

use mig_base::cpu_state::CpuState;
use mig_base::effect::Effect;
use mig_base::phase::{Received, SourcePhase};
use mig_base::refusal::Refusal;
use mig_base::schedule::Side;
use mig_base::{Addr, Message, PageNo, Reply, WorldPhase};

/// The processor that leaves its map call with a message, and its reply.
pub type Last = Option<(u8, Reply)>;

/// The effect of a step, why it is refused, or what a look shows.
#[derive(Clone, Copy)]
pub enum Answer {
    Replied(u8, Reply),
    Asleep(u8),
    /// A map call waits until this number of messages is read.
    InCall(u8, u8),
    Refused(Refusal),
    Started(u32),
    /// The round, and how many pages it sends.
    RoundMade(u32, u32),
    SentPage(Addr),
    SentZero(Addr),
    SentRun(Addr, u32),
    /// The fault of a missing page is read.
    ReadMissing(Addr),
    /// A write-protect fault is read.
    ReadProtected(Addr),
    ReadRemap(Addr, Addr, u64, Last),
    ReadRemove(Addr, Addr, Last),
    ReadUnmap(Addr, Addr, Last),
    Unprotected(Addr),
    Zeroed(Addr),
    /// The page of the source, and where it is needed.
    Requested(Addr, Addr),
    /// How many pages are to be discarded, and how many are owed.
    Switched(u32, u32),
    Moved(u64),
    TookAdvise,
    TookPage(Addr),
    TookZero(Addr),
    TookRun(Addr, u32),
    TookDiscard(u32),
    TookPackage(u32),
    TookEnd,
    TookResume,
    TookRequest(Addr),
    TookRecv(Received, u32),
    TookDone,
    /// Where a copy is installed, and its page of the source.
    Installed(Addr, Addr),
    Dropped(Addr),
    Asked(Addr),
    EndSent,
    Broken,
    Noticed(Side),
    Resumed(u32),
    /// The phase, and how many rounds were made, pages sent, pages left, copies installed and dropped, and faults read.
    Stands(WorldPhase, [u64; 6]),
    /// The phase of the source and the epoch.
    SourceIs(SourcePhase, u32),
    /// How many pages remain, and the first, or 0x100000.
    Remain(u32, PageNo),
    CpuIs(CpuState),
    /// How many entries the transcript has, and the last reply.
    Entered(usize, Option<Reply>),
}

impl Answer {
    /// The outcome of the step that has this answer. None for what a look shows.
    pub fn outcome(self) -> Option<Result<Effect, Refusal>> {
        match self {
            Answer::Refused(refusal) => Some(Err(refusal)),
            answer => match of_processor(answer) {
                Some(effect) => Some(Ok(effect)),
                None => None,
            },
        }
    }
}

/// The effect of a step of a processor or a handler.
fn of_processor(answer: Answer) -> Option<Effect> {
    match answer {
        Answer::Replied(cpu, reply) => Some(Effect::Answered { cpu, reply }),
        Answer::Asleep(cpu) => Some(Effect::Asleep { cpu }),
        Answer::InCall(cpu, messages) => Some(Effect::InCall { cpu, messages }),
        Answer::ReadMissing(addr) => Some(Effect::ReadFault { addr, wp: false }),
        Answer::ReadProtected(addr) => Some(Effect::ReadFault { addr, wp: true }),
        Answer::ReadRemap(from, to, len, last) => Some(read(
            Message::Remap { from, to, len },
            last,
        )),
        Answer::ReadRemove(start, end, last) => Some(read(Message::Remove { start, end }, last)),
        Answer::ReadUnmap(start, end, last) => Some(read(Message::Unmap { start, end }, last)),
        Answer::Unprotected(addr) => Some(Effect::Unprotected { addr }),
        Answer::Zeroed(addr) => Some(Effect::Zeroed { addr }),
        Answer::Requested(origin, addr) => Some(Effect::Requested { origin, addr }),
        Answer::Installed(addr, origin) => Some(Effect::Installed { addr, origin }),
        Answer::Dropped(origin) => Some(Effect::Dropped { origin }),
        _ => of_source(answer),
    }
}

fn read(event: Message, last: Last) -> Effect {
    match last {
        Some((cpu, reply)) => Effect::ReadLast { event, cpu, reply },
        None => Effect::ReadEvent { event },
    }
}

/// What the source did, or the link.
fn of_source(answer: Answer) -> Option<Effect> {
    match answer {
        Answer::Started(epoch) => Some(Effect::Started { epoch }),
        Answer::RoundMade(round, todo) => Some(Effect::RoundMade { round, todo }),
        Answer::SentPage(addr) => Some(Effect::SentPage { addr }),
        Answer::SentZero(addr) => Some(Effect::SentZero { addr }),
        Answer::SentRun(addr, pages) => Some(Effect::SentRun { addr, pages }),
        Answer::Switched(discard, owed) => Some(Effect::Switched { discard, owed }),
        Answer::Asked(addr) => Some(Effect::Asked { addr }),
        Answer::EndSent => Some(Effect::EndSent),
        Answer::Broken => Some(Effect::Broken),
        Answer::Noticed(side) => Some(Effect::Noticed { side }),
        Answer::Resumed(epoch) => Some(Effect::Resumed { epoch }),
        Answer::Moved(bytes) => Some(Effect::Moved { bytes }),
        _ => of_frame(answer),
    }
}

/// The frame that a node took.
fn of_frame(answer: Answer) -> Option<Effect> {
    match answer {
        Answer::TookAdvise => Some(Effect::TookAdvise),
        Answer::TookPage(addr) => Some(Effect::TookPage { addr }),
        Answer::TookZero(addr) => Some(Effect::TookZero { addr }),
        Answer::TookRun(addr, pages) => Some(Effect::TookRun { addr, pages }),
        Answer::TookDiscard(pages) => Some(Effect::TookDiscard { pages }),
        Answer::TookPackage(owed) => Some(Effect::TookPackage { owed }),
        Answer::TookEnd => Some(Effect::TookEnd),
        Answer::TookResume => Some(Effect::TookResume),
        Answer::TookRequest(addr) => Some(Effect::TookRequest { addr }),
        Answer::TookRecv(state, pages) => Some(Effect::TookRecv { state, pages }),
        Answer::TookDone => Some(Effect::TookDone),
        _ => None,
    }
}

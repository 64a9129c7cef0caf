//! How a table of calls is played on a source.

use super::calls::{Answer, Brief, Call, Two, make, next_run};
use crate::same::same;
use mig_base::cpu_state::CpuState;
use mig_base::effect::Effect;
use mig_base::phase::SourcePhase;
use mig_base::refusal::Refusal;
use mig_base::schedule::Side;
use mig_base::{Command, Message, PageNo, Reply};
use precopy::Source;
use std::alloc::Global;
use std::process::Abort;
use std::test::Fail;
use vcpu::NewFault;

/// What a refused call has to leave.
#[derive(Clone, Copy, PartialEq, Eq)]
struct Picture {
    phase: SourcePhase,
    has_switched: bool,
    epoch: u32,
    packaged: u32,
    pages: [u32; 4],
    held: usize,
    cpus: [Result<CpuState, Refusal>; 2],
    events: usize,
    next: Option<Message>,
    present: [bool; 4],
}

fn has_page(source: &Source, page: PageNo) -> bool {
    source.space().page(page).is_some()
}

impl Picture {
    fn of(source: &Source) -> Self {
        let log = source.log();
        Picture {
            phase: source.phase(),
            has_switched: source.has_switched(),
            epoch: source.epoch(),
            packaged: source.packaged(),
            pages: [
                source.remaining().len(),
                log.clean().len(),
                next_run(log),
                log.ever_sent().len(),
            ],
            held: log.held(),
            cpus: [source.cpus().state(0), source.cpus().state(1)],
            events: source.space().changing(),
            next: source.space().next_message(),
            present: [
                has_page(source, 0x10),
                has_page(source, 0x11),
                has_page(source, 0x12),
                has_page(source, 0x13),
            ],
        }
    }
}

/// A source, where memory is refused asked for again.
pub(super) fn new_source(
    alloc: Global,
    cpus: u8,
    epoch: u32,
    rounds: u32,
) -> Result<Source, NewFault> {
    match Source::new(alloc, cpus, epoch, rounds) {
        Ok(source) => Ok(source),
        Err(NewFault::NoMemory) => Source::new(alloc, cpus, epoch, rounds),
        Err(fault) => Err(fault),
    }
}

/// Makes a call, and once more where memory was refused. A call that is refused leaves the source as it was.
fn make_again(
    rt: &impl Abort,
    alloc: Global,
    source: &mut Source,
    call: Call,
    i: usize,
) -> Result<Answer, Refusal> {
    let before = Picture::of(source);
    let answer = make(rt, alloc, source, call);
    if answer.is_err() {
        same(rt, &Picture::of(source), &before, "refused step", i);
    }
    if answer == Err(Refusal::NoMemory) {
        return make(rt, alloc, source, call);
    }
    answer
}

/// Plays a table on a source.
fn play_on(
    rt: &impl Abort,
    alloc: Global,
    source: &mut Source,
    steps: &[(Call, Result<Answer, Refusal>)],
) {
    for (i, (call, wanted)) in steps.iter().enumerate() {
        let answer = make_again(rt, alloc, source, *call, i);
        same(rt, &answer, wanted, "step", i);
    }
}

/// Plays a table on a source of two processors, whose counts of epochs and of rounds stand at the numbers given.
pub(super) fn play(
    rt: &impl Abort,
    alloc: Global,
    counts: (u32, u32),
    steps: &[(Call, Result<Answer, Refusal>)],
) -> Result<(), Fail> {
    let mut source = new_source(alloc, 2, counts.0, counts.1)?;
    play_on(rt, alloc, &mut source, steps);
    Ok(())
}

pub(super) type Steps<const N: usize> = [(Call, Result<Answer, Refusal>); N];

pub(super) const AT_10: Effect = Effect::Answered {
    cpu: 0,
    reply: Reply::At(0x10000),
};

pub(super) const DONE_0: Effect = Effect::Answered {
    cpu: 0,
    reply: Reply::Done,
};

pub(super) const PAGE_10: Effect = Effect::SentPage { addr: 0x10000 };

pub(super) const PAGE_11: Effect = Effect::SentPage { addr: 0x11000 };

pub(super) const STARTED: Effect = Effect::Started { epoch: 1 };

pub(super) const NOTICED: Effect = Effect::Noticed { side: Side::Source };

pub(super) const IDLE: Two<Option<Command>> = (None, None);

//! A source that continues from what a destination has received.

use crate::frames::{Brief, NONE, Range, set_of};
use crate::same::same;
use mig_base::phase::{Received, SourcePhase};
use mig_base::refusal::Refusal;
use mig_base::{Addr, Command, NoMemory, PAGE_SIZE, PageNo, Place, Prot};
use page_stream::Frame;
use precopy::{Source, SourceFault};
use std::alloc::Global;
use std::process::Abort;

/// A call of a source.
#[derive(Clone, Copy)]
enum Call {
    /// Pages 0x10 to 0x12 are mapped.
    Map,
    /// A processor stores 8 bytes.
    Store(Addr),
    Start,
    Round,
    Send,
    Switch,
    Notice,
    /// The destination has come so far, and needs these pages.
    Rebuild(Received, Range),
    /// How far it is, which pages remain, how many are to be sent and how many were owed.
    Looks,
}

use Call::{Looks, Map, Notice, Rebuild, Round, Send, Start, Store, Switch};

#[derive(Clone, Copy, PartialEq, Eq)]
enum Answer {
    Done,
    /// The first of the frames that it sends.
    Sends((Option<Brief>, Option<Brief>, Option<Brief>)),
    NotTaken(SourceFault),
    /// The phase, the pages that remain, the next page of the round, and how many pages the last Package owes.
    Stands(SourcePhase, Range, Option<PageNo>, u32),
}

use Answer::{Done, NotTaken, Sends, Stands};

type Step = (Call, Result<Answer, Refusal>);

/// What a refused call must leave.
fn looks(source: &Source) -> Answer {
    let remaining = source.remaining();
    Stands(
        source.phase(),
        (remaining.next_member(0), remaining.len()),
        source.log().next_page(),
        source.packaged(),
    )
}

/// The answer for a call whose result the tables do not look at.
fn done<T: Drop>(answer: Result<T, Refusal>) -> Result<Answer, Refusal> {
    match answer {
        Ok(_) => Ok(Done),
        Err(refusal) => Err(refusal),
    }
}

/// The source takes a Recv.
fn rebuilt(source: &mut Source, frame: &Frame) -> Result<Answer, Refusal> {
    let answers = source.answers(frame)?;
    match source.take(source.epoch(), frame) {
        Ok(()) => Ok(Sends(Brief::of_first(&answers))),
        Err(SourceFault::NoMemory) => Err(Refusal::NoMemory),
        Err(fault) => Ok(NotTaken(fault)),
    }
}

/// The same with a range of pages.
fn rebuilt_of(
    rt: &impl Abort,
    alloc: Global,
    source: &mut Source,
    state: Received,
    range: Range,
) -> Result<Answer, Refusal> {
    match set_of(rt, alloc, range) {
        Ok(owed) => rebuilt(source, &Frame::Recv { state, owed }),
        Err(NoMemory) => Err(Refusal::NoMemory),
    }
}

fn map_call() -> Command {
    Command::Mmap {
        addr_len: 3 * PAGE_SIZE,
        prot: Prot::ReadWrite,
        place: Place::Fixed(0x10000),
    }
}

fn store(addr: Addr) -> Command {
    Command::Store {
        addr,
        width: 8,
        value: 1,
    }
}

/// Makes a call.
fn make(
    rt: &impl Abort,
    alloc: Global,
    source: &mut Source,
    call: Call,
) -> Result<Answer, Refusal> {
    match call {
        Map => done(source.issue(0, map_call())),
        Store(addr) => done(source.issue(0, store(addr))),
        Start => done(source.start()),
        Round => done(source.round()),
        Send => done(source.send_next()),
        Switch => done(source.switch()),
        Notice => done(source.notice()),
        Looks => Ok(looks(source)),
        Rebuild(state, range) => rebuilt_of(rt, alloc, source, state, range),
    }
}

fn is_refused(answer: Result<Answer, Refusal>) -> bool {
    matches!(answer, Err(_) | Ok(NotTaken(_)))
}

/// Makes a call, and once more where memory was refused. A call that is refused leaves the source as it was.
fn make_again(
    rt: &impl Abort,
    alloc: Global,
    source: &mut Source,
    call: Call,
    i: usize,
) -> Result<Answer, Refusal> {
    let before = looks(source);
    let answer = make(rt, alloc, source, call);
    if is_refused(answer) {
        same(rt, &looks(source), &before, "refused step", i);
    }
    if answer == Err(Refusal::NoMemory) {
        return make(rt, alloc, source, call);
    }
    answer
}

/// A source of one processor, where memory is refused asked for again.
fn new_source(rt: &impl Abort, alloc: Global) -> Source {
    match Source::new(alloc, 1, 0, 0) {
        Ok(source) => source,
        Err(_) => Source::new(alloc, 1, 0, 0).expect(rt, "a second time"),
    }
}

/// Plays a table on a source.
fn play(rt: &impl Abort, alloc: Global, name: &str, steps: &[Step]) {
    let mut source = new_source(rt, alloc);
    for (i, (call, wanted)) in steps.iter().enumerate() {
        let answer = make_again(rt, alloc, &mut source, *call, i);
        same(rt, &answer, wanted, name, i);
    }
}

const NO_FRAMES: Result<Answer, Refusal> = Ok(Sends((None, None, None)));

const BAD_OWED: Result<Answer, Refusal> = Ok(NotTaken(SourceFault::BadOwed));

/// Before the switch a destination has not run, and pre-copy continues, of which nothing was kept.
static BEFORE_THE_SWITCH: [Step; 19] = [
    (Notice, Err(Refusal::Phase)),
    (Map, Ok(Done)),
    (Store(0x10000), Ok(Done)),
    (Store(0x12000), Ok(Done)),
    (Start, Ok(Done)),
    (Round, Ok(Done)),
    (Send, Ok(Done)),
    (Looks, Ok(Stands(SourcePhase::Precopy, NONE, Some(0x12), 0))),
    (Notice, Ok(Done)),
    (Looks, Ok(Stands(SourcePhase::Paused, NONE, Some(0x12), 0))),
    (Notice, Err(Refusal::Phase)),
    (Rebuild(Received::NotRun, (0x10, 1)), BAD_OWED),
    (Rebuild(Received::Running, NONE), BAD_OWED),
    (Rebuild(Received::Ended, NONE), BAD_OWED),
    (Rebuild(Received::NotRun, NONE), NO_FRAMES),
    (Looks, Ok(Stands(SourcePhase::Precopy, NONE, None, 0))),
    (Send, Err(Refusal::NothingThere)),
    (Round, Ok(Done)),
    (Looks, Ok(Stands(SourcePhase::Precopy, NONE, Some(0x10), 0))),
];

/// After the switch a destination that runs may need pages that the source has, and no others. One that has not run is sent a Discard
/// of none and a Package that owes every present page.
static AFTER_THE_SWITCH: [Step; 24] = [
    (Map, Ok(Done)),
    (Store(0x10000), Ok(Done)),
    (Store(0x11000), Ok(Done)),
    (Start, Ok(Done)),
    (Round, Ok(Done)),
    (Send, Ok(Done)),
    (Switch, Ok(Done)),
    (
        Looks,
        Ok(Stands(SourcePhase::Stopped, (0x11, 1), Some(0x11), 1)),
    ),
    (Notice, Ok(Done)),
    (
        Looks,
        Ok(Stands(SourcePhase::Paused, (0x11, 1), Some(0x11), 1)),
    ),
    (Rebuild(Received::Running, (0x30, 1)), BAD_OWED),
    (Rebuild(Received::Running, (0x11, 2)), BAD_OWED),
    (Rebuild(Received::NotRun, (0x10, 1)), BAD_OWED),
    (Rebuild(Received::Ended, (0x10, 1)), BAD_OWED),
    (Rebuild(Received::Running, (0x10, 1)), NO_FRAMES),
    (
        Looks,
        Ok(Stands(SourcePhase::Stopped, (0x10, 1), Some(0x11), 1)),
    ),
    (Notice, Ok(Done)),
    (
        Rebuild(Received::NotRun, NONE),
        Ok(Sends((
            Some(Brief::Discard(NONE)),
            Some(Brief::Package(3, (0x10, 2), 1)),
            None,
        ))),
    ),
    (
        Looks,
        Ok(Stands(SourcePhase::Stopped, (0x10, 2), Some(0x11), 2)),
    ),
    (Notice, Ok(Done)),
    (Rebuild(Received::Ended, NONE), NO_FRAMES),
    (Looks, Ok(Stands(SourcePhase::Released, NONE, None, 2))),
    (Notice, Err(Refusal::Phase)),
    (Store(0x10000), Err(Refusal::Phase)),
];

#[test]
fn a_source_goes_on(rt: HostRuntime) {
    let alloc = rt.alloc();
    play(&rt, alloc, "a break before the switch", &BEFORE_THE_SWITCH);
    play(&rt, alloc, "a break after the switch", &AFTER_THE_SWITCH);
}

//! How a table of calls is played on a destination.

use super::calls::{Answer, Call, Step, make};
use crate::frames::{Brief, Range, Sending};
use crate::same::same;
use fault_handler::Destination;
use mig_base::cpu_state::CpuState;
use mig_base::effect::Effect;
use mig_base::fault::TakeFault;
use mig_base::phase::{DestPhase, Received};
use mig_base::refusal::Refusal;
use mig_base::{Command, Message, PageNo, Reply};
use std::alloc::Global;
use std::process::Abort;

/// What a refused call must leave.
#[derive(Clone, Copy, PartialEq)]
struct Picture {
    phase: DestPhase,
    received: Received,
    epoch: u32,
    owed: u32,
    homes: [Option<PageNo>; 3],
    requests: [Option<PageNo>; 3],
    arrivals: usize,
    counts: [u64; 3],
    cpus: [Result<CpuState, Refusal>; 2],
    events: usize,
    next: Option<Message>,
    present: [bool; 3],
}

impl Picture {
    fn of(destination: &Destination) -> Self {
        let requests = destination.requests();
        let owed = destination.owed();
        let space = destination.space();
        let cpus = destination.cpus();
        Picture {
            phase: destination.phase(),
            received: destination.received(),
            epoch: destination.epoch(),
            owed: owed.len(),
            homes: [owed.home(0x10), owed.home(0x11), owed.home(0x12)],
            requests: [
                requests.get(0).copied(),
                requests.get(1).copied(),
                requests.get(2).copied(),
            ],
            arrivals: destination.arrivals(),
            counts: [
                destination.installed(),
                destination.dropped(),
                destination.faults(),
            ],
            cpus: [cpus.state(0), cpus.state(1)],
            events: space.changing(),
            next: space.next_message(),
            present: [
                space.page(0x10).is_some(),
                space.page(0x11).is_some(),
                space.page(0x12).is_some(),
            ],
        }
    }
}

fn is_refused(answer: Result<Answer, Refusal>) -> bool {
    matches!(answer, Err(_) | Ok(Answer::NotTaken(_)))
}

/// Makes a call, and once more where memory was refused. A call that is refused leaves the destination as it was.
fn make_again(
    rt: &impl Abort,
    alloc: Global,
    destination: &mut Destination,
    call: Call,
    i: usize,
) -> Result<Answer, Refusal> {
    let before = Picture::of(destination);
    let answer = make(rt, alloc, destination, call);
    if is_refused(answer) {
        same(rt, &Picture::of(destination), &before, "refused step", i);
    }
    if answer == Err(Refusal::NoMemory) {
        return make(rt, alloc, destination, call);
    }
    answer
}

/// Plays a table on a destination.
fn play_on(
    rt: &impl Abort,
    alloc: Global,
    destination: &mut Destination,
    name: &str,
    steps: &[Step],
) {
    for (i, (call, wanted)) in steps.iter().enumerate() {
        let answer = make_again(rt, alloc, destination, *call, i);
        same(rt, &answer, wanted, name, i);
    }
}

/// A destination of two processors, where memory is refused asked for again.
pub fn new_destination(rt: &impl Abort, alloc: Global) -> Destination {
    match Destination::new(alloc, 2) {
        Ok(destination) => destination,
        Err(_) => Destination::new(alloc, 2).expect(rt, "a second time"),
    }
}

/// Plays a table on a new destination of two processors.
pub fn play(rt: &impl Abort, alloc: Global, name: &str, steps: &[Step]) {
    let mut destination = new_destination(rt, alloc);
    play_on(rt, alloc, &mut destination, name, steps);
}

/// A frame is taken, and nothing is to be sent.
pub const TOOK: Result<Answer, Refusal> = Ok(Answer::Took(None));

pub const OUT_OF_PLACE: Result<Answer, Refusal> = Ok(Answer::NotTaken(TakeFault::OutOfPlace));

pub const STALE: Result<Answer, Refusal> = Ok(Answer::NotTaken(TakeFault::StaleEpoch));

pub const BAD: Result<Answer, Refusal> = Ok(Answer::NotTaken(TakeFault::BadFrame));

pub const ALL_DONE: Result<Answer, Refusal> = Ok(Answer::Took(Some(Brief::Done)));

pub const INSTALLED_10: Answer = Answer::Told(Effect::Installed {
    addr: 0x10000,
    origin: 0x10000,
});

pub const INSTALLED_11: Answer = Answer::Told(Effect::Installed {
    addr: 0x11000,
    origin: 0x11000,
});

pub const INSTALLED_12: Answer = Answer::Told(Effect::Installed {
    addr: 0x12000,
    origin: 0x12000,
});

/// The page fault of a load of a missing page is read.
pub const FAULT_10: Answer = Answer::Told(Effect::ReadFault {
    addr: 0x10000,
    wp: false,
});

pub const FAULT_12: Answer = Answer::Told(Effect::ReadFault {
    addr: 0x12000,
    wp: false,
});

/// A page that is owed at its own place is asked for.
pub const REQUESTED_10: Effect = Effect::Requested {
    origin: 0x10000,
    addr: 0x10000,
};

pub const REQUESTED_12: Effect = Effect::Requested {
    origin: 0x12000,
    addr: 0x12000,
};

//! A channel that breaks after each step of a migration, and a second time while both nodes continue.
//!
//! A story is played up to each of its rows. Then the channel breaks, both nodes continue, and the migration is led to its completion by
//! steps of the nodes alone. In the end the guest loads from each page, and its transcript is checked.

use crate::answers::Answer::{Broken, Noticed, Refused, Resumed, TookResume};
use crate::calls::Call::{Break, Deliver, Notice, Resume};
use crate::openings::{OWED, OWED_THREE, SENT};
use crate::play::{After, Row, make, on_world, play};
use crate::scenes::{ASKED_FOR, MOVED, UNMAPPED, URGENT};
use mig_base::cpu_state::CpuState;
use mig_base::effect::Effect;
use mig_base::refusal::Refusal;
use mig_base::schedule::{Side, Step, Ticket};
use mig_base::{Command, WorldPhase};
use report::CheckFault;
use report::check::check;
use std::alloc::Global;
use std::process::Abort;
use world::World;

/// When the channel breaks a second time.
#[derive(Clone, Copy)]
pub enum Again {
    Never,
    /// While the Resume is in flight.
    BeforeResume,
    /// While the Recv is in flight.
    BeforeRecv,
    /// Once the source has taken the Recv.
    AfterRecv,
}

impl Again {
    fn name(self) -> &'static str {
        match self {
            Again::Never => "once",
            Again::BeforeResume => "before the Resume",
            Again::BeforeRecv => "before the Recv",
            Again::AfterRecv => "after the Recv",
        }
    }
}

/// Before a migration begins, and once it is complete.
static NO_BREAK: [Row; 1] = [(Break, Refused(Refusal::Phase))];

static BREAKS: [Row; 4] = [
    (Break, Broken),
    (Notice(Side::Source), Noticed(Side::Source)),
    (Notice(Side::Destination), Noticed(Side::Destination)),
    (Resume, Resumed(2)),
];

static NOT_AGAIN: [Row; 1] = [(Deliver, TookResume)];

/// Both nodes still wait.
static BEFORE_RESUME: [Row; 5] = [
    (Break, Broken),
    (Notice(Side::Source), Refused(Refusal::Phase)),
    (Notice(Side::Destination), Refused(Refusal::Phase)),
    (Resume, Resumed(3)),
    (Deliver, TookResume),
];

/// The source still waits.
static BEFORE_RECV: [Row; 6] = [
    (Deliver, TookResume),
    (Break, Broken),
    (Notice(Side::Source), Refused(Refusal::Phase)),
    (Notice(Side::Destination), Noticed(Side::Destination)),
    (Resume, Resumed(3)),
    (Deliver, TookResume),
];

static AFTER_RECV: [Row; 5] = [
    (Break, Broken),
    (Notice(Side::Source), Noticed(Side::Source)),
    (Notice(Side::Destination), Noticed(Side::Destination)),
    (Resume, Resumed(3)),
    (Deliver, TookResume),
];

/// The source takes the Recv, whatever it says.
fn take_recv(rt: &impl Abort, world: &mut World) {
    let (outcome, _) = make(rt, world, Step::DeliverBack { n: u64::MAX }, 0);
    let is_recv = matches!(outcome, Ok(Effect::TookRecv { .. }));
    assert!(rt; is_recv, "another answer to the Recv");
}

/// The channel breaks, once or twice, and both nodes continue.
fn recover(rt: &impl Abort, world: &mut World, again: Again) {
    play(rt, world, "breaks", &BREAKS);
    match again {
        Again::Never | Again::AfterRecv => play(rt, world, "not again", &NOT_AGAIN),
        Again::BeforeResume => play(rt, world, "before the Resume", &BEFORE_RESUME),
        Again::BeforeRecv => play(rt, world, "before the Recv", &BEFORE_RECV),
    };
    take_recv(rt, world);
    if matches!(again, Again::AfterRecv) && world.phase() != WorldPhase::Complete {
        play(rt, world, "after the Recv", &AFTER_RECV);
        take_recv(rt, world);
    }
}

/// Makes the first of some steps that is not refused. Whether there is one.
fn make_first(rt: &impl Abort, world: &mut World, steps: &[Step]) -> bool {
    for (i, step) in steps.iter().enumerate() {
        if make(rt, world, *step, i).0.is_ok() {
            return true;
        }
    }
    false
}

/// What leads on to completion while the channel is up, the first that is not refused: the source reads its messages and switches, then it
/// sends what remains and the End, and what arrives is installed before more is delivered.
fn steps_on(world: &World) -> [Step; 9] {
    let ticket = Ticket {
        epoch: world.epoch(),
        page: world.remaining().next_member(0),
    };
    [
        Step::SourceRead,
        Step::Switch,
        Step::Push(ticket),
        Step::End,
        Step::DeliverUrgent { n: u64::MAX },
        Step::DestRead,
        Step::Install,
        Step::Deliver { n: u64::MAX },
        Step::DeliverBack { n: u64::MAX },
    ]
}

/// More steps than any of the stories needs.
const MANY: u32 = 64;

fn complete(rt: &impl Abort, world: &mut World) {
    for _ in 0..MANY {
        if world.phase() != WorldPhase::Complete {
            let steps = steps_on(world);
            assert!(rt; make_first(rt, world, &steps), "all steps are refused");
        }
    }
    assert_eq!(rt; world.phase(), WorldPhase::Complete);
    assert_eq!(rt; world.owed_left(), 0);
}

/// What leads on to the answers of two processors.
static ANSWERING: [Step; 4] = [
    Step::Retry { cpu: 0 },
    Step::Retry { cpu: 1 },
    Step::DestRead,
    Step::DestAct,
];

/// Both processors are answered.
fn answer_all(rt: &impl Abort, world: &mut World) {
    for _ in 0..MANY {
        if !make_first(rt, world, &ANSWERING) {
            break;
        }
    }
    assert_eq!(rt; world.cpu_state(0), Ok(CpuState::Idle));
    assert_eq!(rt; world.cpu_state(1), Ok(CpuState::Idle));
}

/// The guest loads from each page that the stories have.
fn load_all(rt: &impl Abort, world: &mut World) {
    answer_all(rt, world);
    for addr in [0x10000, 0x11000, 0x12000, 0x20000] {
        let command = Command::Load { addr, width: 8 };
        let (outcome, _) = make(rt, world, Step::Issue { cpu: 0, command }, 0);
        assert!(rt; outcome.is_ok(), "a load at {addr:#x} is refused");
        answer_all(rt, world);
    }
}

/// Whether a transcript is a flat run, asked again where memory is refused.
fn checked(alloc: Global, world: &World) -> Result<(), CheckFault> {
    match check(alloc, world.transcript()) {
        Err(CheckFault::NoMemory) => check(alloc, world.transcript()),
        outcome => outcome,
    }
}

/// The channel breaks, and the migration continues to its completion.
pub fn break_and_complete(rt: &impl Abort, alloc: Global, world: &mut World, again: Again) {
    if matches!(world.phase(), WorldPhase::Idle | WorldPhase::Complete) {
        play(rt, world, "no break", &NO_BREAK);
        return;
    }
    recover(rt, world, again);
    complete(rt, world);
    load_all(rt, world);
    let is_flat = checked(alloc, world) == Ok(());
    assert!(rt; is_flat, "another reply, broken {}", again.name());
}

/// Plays the front of a story, and then breaks the channel once and twice.
fn break_after(rt: &impl Abort, alloc: Global, table: &str, opening: &[Row], rows: &[Row]) {
    for again in [
        Again::Never,
        Again::BeforeResume,
        Again::BeforeRecv,
        Again::AfterRecv,
    ] {
        let after = After::Broken(again);
        let told = on_world(rt, alloc, (2, 0, 0), table, &[opening, rows], after);
        assert!(rt; told == Ok(true), "no world for {table}");
    }
}

/// Breaks the channel after each row of an opening.
fn break_opening(rt: &impl Abort, alloc: Global, table: &str, opening: &[Row]) {
    for end in 0..opening.len() {
        break_after(rt, alloc, table, &opening[..end], &[]);
    }
}

/// Breaks the channel after each row of a story.
fn break_each(rt: &impl Abort, alloc: Global, table: &str, opening: &[Row], rows: &[Row]) {
    break_opening(rt, alloc, table, opening);
    for end in 0..=rows.len() {
        break_after(rt, alloc, table, opening, &rows[..end]);
    }
}

#[test]
fn breaks_while_a_page_is_asked_for(rt: HostRuntime) {
    break_each(&rt, rt.alloc(), "asked for", &SENT, &ASKED_FOR);
}

#[test]
fn breaks_while_a_page_is_unmapped(rt: HostRuntime) {
    break_each(&rt, rt.alloc(), "unmapped", &OWED, &UNMAPPED);
}

#[test]
fn breaks_while_a_page_is_moved(rt: HostRuntime) {
    break_each(&rt, rt.alloc(), "moved", &OWED, &MOVED);
}

#[test]
fn breaks_while_pages_are_urgent(rt: HostRuntime) {
    break_each(&rt, rt.alloc(), "urgent", &OWED_THREE, &URGENT);
}

//! Draws of orders.

ghost use Rattle.std.specs.Prelude.{◌≡◌, ◌<◌, ◌≤◌};
ghost use Rattle.grammar.specs.Fits.{CanBeSpelled, IsSayable};

use crate::commands::{draw_command, draw_of, draw_page};
use crate::course::{Course, Memo};
use crate::random::{below, in_share};
use crate::weights::REPAIR;
use grammar::{ForwardWire, Order};
use mig_base::{LOW_PAGE, MAX_RUN};
use rand_core::Rng;
use world::prelude::*;

/// Draws that are made at most for one line.
const DRAWS: u32 = 64;

/// Which part of a world acts.
#[derive(Clone, Copy)]
enum Actor {
    Guest,
    SourceHandler,
    Sender,
    Pusher,
    Wires,
    DestHandler,
    Link,
}

/// A part of the world, by its weight.
fn draw_actor<R: Rng>(rng: &mut R, course: &Course, is_up: bool) -> Actor {
    let weights = &course.weights;
    let link = if is_up { weights.link } else { REPAIR };
    let parts = [
        (Actor::SourceHandler, weights.source_handler),
        (Actor::Sender, weights.sender),
        (Actor::Pusher, weights.pusher),
        (Actor::Wires, weights.wires),
        (Actor::DestHandler, weights.dest_handler),
        (Actor::Link, link),
    ];
    let mut left = below(rng, 1 + total(weights, link));
    for (actor, weight) in parts {
        let weight = u32::from(weight);
        if left < weight {
            return actor;
        }
        left -= weight;
    }
    Actor::Guest
}

/// The weights of all parts.
fn total(weights: &crate::weights::Weights, link: u8) -> u32
    ensures { result < 2000 }
{
    u32::from(weights.guest)
        + u32::from(weights.source_handler)
        + u32::from(weights.sender)
        + u32::from(weights.pusher)
        + u32::from(weights.wires)
        + u32::from(weights.dest_handler)
        + u32::from(link)
}

/// The wire of a push, by whether it is urgent.
fn wire_if(urgent: bool) -> ForwardWire {
    if urgent {
        ForwardWire::Urgent
    } else {
        ForwardWire::Main
    }
}

/// A processor of the guest.
fn draw_cpu<R: Rng>(rng: &mut R, course: &Course) -> u8 {
    let cpu = below(rng, u32::from(course.cpus));
    cpu as u8
}

/// What a processor does: one that was woken tries again, and any other issues a command.
fn draw_guest<R: Rng>(rng: &mut R, course: &Course, memo: &Memo, world: &World) -> Step
    ensures { IsSayable result }
{
    let cpu = draw_cpu(rng, course);
    if let Ok(CpuState::Woken(_)) = world.cpu_state(cpu) {
        return Step::Retry { cpu };
    }
    draw_issue(rng, course, memo, world, cpu)
}

/// A command of a processor.
fn draw_issue<R: Rng>(rng: &mut R, course: &Course, memo: &Memo, world: &World, cpu: u8) -> Step
    ensures { IsSayable result }
{
    let maps = match world.phase() {
        WorldPhase::Idle | WorldPhase::Precopy => course.weights.maps,
        WorldPhase::Switching | WorldPhase::Postcopy => course.weights.moves,
        WorldPhase::Complete => course.weights.maps,
    };
    Step::Issue {
        cpu,
        command: draw_command(rng, course, memo, maps, world),
    }
}

/// A send of the round's first page, or of several.
fn draw_send<R: Rng>(rng: &mut R, course: &Course) -> Step
    ensures { IsSayable result }
{
    if in_share(rng, course.weights.runs) {
        let count = 1 + below(rng, u32::from(MAX_RUN));
        return Step::SendRun { count: count as u8 };
    }
    Step::Send
}

/// Whether the source would owe some of the pages from which commands draw: they are present, and not clean.
fn would_owe(course: &Course, world: &World) -> bool {
    let clean = world.dirty_log().clean();
    let mut owed = 0u32;
    for page in LOW_PAGE..LOW_PAGE + PageNo::from(course.pages) {
        if world.source_space().page(page).is_some() && !clean.contains(page) {
            owed = owed.saturating_add(1);
        }
        if owed >= course.owes {
            return true;
        }
    }
    false
}

/// The switch, or what leads to one after which pages are owed: the guest stores on, and no page is sent.
fn draw_switch<R: Rng>(rng: &mut R, course: &Course, memo: &Memo, world: &World) -> Step
    ensures { IsSayable result }
{
    if memo.line < course.switch_by && !would_owe(course, world) {
        return draw_source_handler(rng);
    }
    Step::Switch
}

/// What the source does before the switch. A migration starts and switches where its course says so.
fn draw_sender<R: Rng>(rng: &mut R, course: &Course, memo: &Memo, world: &World) -> Step
    ensures { IsSayable result }
{
    if world.phase() == WorldPhase::Idle && memo.line >= course.start {
        return Step::Start;
    }
    if memo.line >= course.switch {
        return draw_switch(rng, course, memo, world);
    }
    match below(rng, 8) {
        0 => Step::Round,
        _ => draw_send(rng, course),
    }
}

/// A push of the page that was requested, or of one that is owed. Up to a line of its course the source pushes little that was not
/// requested. It serves requests where its profile has it wait for them.
fn draw_push<R: Rng>(rng: &mut R, course: &Course, memo: &Memo, world: &World) -> Order
    ensures { CanBeSpelled result }
{
    let background = if memo.line < course.rest {
        1
    } else {
        course.weights.background
    };
    let page = match memo.asked {
        Some(page) if below(rng, 8) > 0 => page,
        _ if in_share(rng, background) => draw_of(rng, course, world.remaining()),
        _ => return Order::Make(Step::Serve),
    };
    Order::Push {
        wire: wire_if(in_share(rng, course.weights.urgent)),
        page,
        epoch: None,
    }
}

/// What the source does after the switch.
fn draw_pusher<R: Rng>(rng: &mut R, course: &Course, memo: &Memo, world: &World) -> Order
    ensures { CanBeSpelled result }
{
    match below(rng, 8) {
        0 if memo.line >= course.rest => Order::Make(Step::End),
        0..=3 => Order::Make(Step::Serve),
        _ => draw_push(rng, course, memo, world),
    }
}

/// How many bytes arrive: all that the first frame lacks, or a few.
fn draw_bytes<R: Rng>(rng: &mut R, course: &Course) -> u64 {
    if !in_share(rng, course.weights.pieces) {
        return u64::MAX;
    }
    match below(rng, 4) {
        0 => u64::from(below(rng, 4)),
        1..=2 => u64::from(below(rng, 40)),
        _ => u64::from(below(rng, 5000)),
    }
}

/// An arrival of bytes on one of the wires.
fn draw_delivery<R: Rng>(rng: &mut R, course: &Course) -> Step
    ensures { IsSayable result }
{
    let n = draw_bytes(rng, course);
    match below(rng, 8) {
        0..=2 => Step::Deliver { n },
        3..=4 => Step::DeliverBack { n },
        _ => Step::DeliverUrgent { n },
    }
}

/// What the destination's handler does.
fn draw_dest_handler<R: Rng>(rng: &mut R) -> Step
    ensures { IsSayable result }
{
    match below(rng, 3) {
        0 => Step::DestRead,
        1 => Step::DestAct,
        _ => Step::Install,
    }
}

/// What the source's handler does.
fn draw_source_handler<R: Rng>(rng: &mut R) -> Step
    ensures { IsSayable result }
{
    match below(rng, 2) {
        0 => Step::SourceRead,
        _ => Step::SourceAct,
    }
}

/// The loss of the channel, or what follows it.
fn draw_link<R: Rng>(rng: &mut R, is_up: bool) -> Step
    ensures { IsSayable result }
{
    if is_up {
        return Step::Break;
    }
    match below(rng, 3) {
        0 => Step::Notice(Side::Source),
        1 => Step::Notice(Side::Destination),
        _ => Step::Resume,
    }
}

/// What the world may do next.
fn draw_likely<R: Rng>(rng: &mut R, course: &Course, memo: &Memo, world: &World) -> Order
    ensures { CanBeSpelled result }
{
    if memo.line == 0 {
        return Order::Make(draw_guest(rng, course, memo, world));
    }
    let is_up = world.is_up();
    match draw_actor(rng, course, is_up) {
        Actor::Guest => Order::Make(draw_guest(rng, course, memo, world)),
        Actor::SourceHandler => Order::Make(draw_source_handler(rng)),
        Actor::Sender => Order::Make(draw_sender(rng, course, memo, world)),
        Actor::Pusher => draw_pusher(rng, course, memo, world),
        Actor::Wires => Order::Make(draw_delivery(rng, course)),
        Actor::DestHandler => Order::Make(draw_dest_handler(rng)),
        Actor::Link => Order::Make(draw_link(rng, is_up)),
    }
}

/// A step of any kind with one word.
fn draw_word<R: Rng>(rng: &mut R) -> Step
    ensures { IsSayable result }
{
    match below(rng, 15) {
        0 => Step::Start,
        1 => Step::Round,
        2 => Step::Send,
        3 => Step::SourceRead,
        4 => Step::SourceAct,
        5 => Step::Switch,
        6 => Step::DestRead,
        7 => Step::DestAct,
        8 => Step::Install,
        9 => Step::Serve,
        10 => Step::End,
        11 => Step::Break,
        12 => Step::Notice(Side::Source),
        13 => Step::Notice(Side::Destination),
        _ => Step::Resume,
    }
}

/// The epoch of a push: mostly the present one, or one beside it.
fn draw_epoch<R: Rng>(rng: &mut R, present: u32) -> Option<u32> {
    match below(rng, 8) {
        0..=1 => Some(present.wrapping_sub(1)),
        2 => Some(present.wrapping_add(1)),
        3 => Some(present),
        _ => None,
    }
}

/// A step of any kind, whether or not it belongs here.
fn draw_any<R: Rng>(rng: &mut R, course: &Course, memo: &Memo, world: &World) -> Order
    ensures { CanBeSpelled result }
{
    let cpu = below(rng, 1 + u32::from(course.cpus));
    let cpu = cpu as u8;
    match below(rng, 24) {
        0..=2 => Order::Push {
            wire: wire_if(below(rng, 2) == 0),
            page: draw_page(rng, course),
            epoch: draw_epoch(rng, world.epoch()),
        },
        3..=4 => Order::Make(Step::Retry { cpu }),
        5 => Order::Make(draw_issue(rng, course, memo, world, cpu)),
        6..=8 => Order::Make(draw_delivery(rng, course)),
        9 => Order::Make(draw_send(rng, course)),
        _ => Order::Make(draw_word(rng)),
    }
}

/// Whether a world would make the step of an order. A report is always made.
fn would_make(world: &World, order: Order) -> bool {
    match order.step(world.epoch()) {
        Some(step) => world.would(step).is_ok(),
        None => true,
    }
}

/// An order for the next line. The world would make it, or in about one of ten lines it would refuse it.
pub(crate) fn draw_order<R: Rng>(rng: &mut R, course: &Course, memo: &Memo, world: &World) -> Order
    ensures { CanBeSpelled result }
{
    if memo.line == 0 {
        return draw_made(rng, course, memo, world);
    }
    match below(rng, 80) {
        0 => Order::Progress,
        1..=8 => draw_refused(rng, course, memo, world),
        _ => draw_made(rng, course, memo, world),
    }
}

/// An order that the world would make, if one is found.
fn draw_made<R: Rng>(rng: &mut R, course: &Course, memo: &Memo, world: &World) -> Order
    ensures { CanBeSpelled result }
{
    let mut order = draw_likely(rng, course, memo, world);
    for _ in 0..DRAWS {
        if would_make(world, order) {
            break;
        }
        order = draw_likely(rng, course, memo, world);
    }
    order
}

/// An order that the world would refuse, if one is found.
fn draw_refused<R: Rng>(rng: &mut R, course: &Course, memo: &Memo, world: &World) -> Order
    ensures { CanBeSpelled result }
{
    let mut order = draw_either(rng, course, memo, world);
    for _ in 0..DRAWS {
        if !would_make(world, order) {
            break;
        }
        order = draw_either(rng, course, memo, world);
    }
    order
}

/// What the world may do next, or a step of any kind.
fn draw_either<R: Rng>(rng: &mut R, course: &Course, memo: &Memo, world: &World) -> Order
    ensures { CanBeSpelled result }
{
    match below(rng, 2) {
        0 => draw_any(rng, course, memo, world),
        _ => draw_likely(rng, course, memo, world),
    }
}

//! The loops of the two workers that send the owed pages, and divide them by claims.

ghost use Rattle.std.specs.Prelude.{◌≡◌, ◌≢◌, ◌⊎◌, ◌^◌, ◌-◌, true, false, None, Some, IfSome, IfNone};
ghost use Rattle.mig_base.specs.declared.schedule.Step.{Step};
ghost use Rattle.pusher.specs.Seats.{IsSeatOf};
ghost use Rattle.rig.specs.Claiming.{BeginsWith, Continues};
ghost use Rattle.rig.specs.declared.gate.StepKind.{StepKind};
ghost use Rattle.rig.specs.declared.gate.Worker.{Worker};
ghost use Rattle.rig.specs.declared.sending.HeldTicket.{HeldTicket};
ghost use Rattle.rig.specs.declared.turns.Leave.{Leave};
ghost use Rattle.rig.specs.Turns.{IsStepOf, kind_of, ticket_of};

use crate::gate::{Pass, StepKind};
use crate::turns::Turns;
use mig_base::effect::Effect;
use mig_base::refusal::Refusal;
use mig_base::schedule::{Step, Ticket};
use mig_base::{Addr, PAGE_SIZE, PageNo};
use pusher::{ClaimSeat, Claims};
use std::thread;

/// What a turn of a worker leaves.
enum HeldTicket {
    /// The ticket that it pushes next, if it has one.
    Ticket(Option<Ticket>),
    /// The epoch of its claims is over.
    Over,
}

/// The loop of the worker that serves, for [`Rig::serve_worker`](crate::Rig::serve_worker): in each turn a Serve and a claim of the page
/// that it names, or a PushUrgent of the ticket that it holds.
pub fn serve_turns<T: Turns>(turns: &mut T, claims: &Claims, mut seat: ClaimSeat) -> ClaimSeat
    requires seat { IsSeatOf claims.now seat }
    requires who { T.who turns.old ≡ Worker.Serve }
    requires first { T.turn turns.old ≡ 0 }
    requires runs { T.leave turns.old ≢ Leave.Over }
    requires none { T.due turns.old ≡ None }
    ensures ended { (T.leave turns.new ≡ Leave.Over) ⊎
        (T.stale turns.new ≡ true) ⊎
        (T.turn turns.new ≡ 2 ^ 64 - 1) }
    ensures seat { IsSeatOf claims.now result }
    ensures share { result.share ≡ seat.share }
    ensures claimed { BeginsWith result.claimed seat.claimed }
    ensures seen { BeginsWith result.seen seat.seen }
{
    let mut ticket = None;
    for turn in 0..u64::MAX {
        let next = match ticket {
            Some(_) => StepKind::PushUrgent,
            None => StepKind::Serve,
        };
        match turns.pass(next) {
            Pass::Go => match serve(turns, claims, &mut seat, ticket) {
                HeldTicket::Ticket(held) => ticket = held,
                HeldTicket::Over => return seat,
            },
            Pass::Skip => thread::yield_now(),
            Pass::Stop => return seat,
        }
    }
    seat
}

/// The loop of the worker that pushes, for [`Rig::push_worker`](crate::Rig::push_worker): in each turn a Push of the ticket that it holds,
/// which it claims first if it has none.
pub fn push_turns<T: Turns>(turns: &mut T, claims: &Claims, mut seat: ClaimSeat) -> ClaimSeat
    requires seat { IsSeatOf claims.now seat }
    requires who { T.who turns.old ≡ Worker.Push }
    requires first { T.turn turns.old ≡ 0 }
    requires runs { T.leave turns.old ≢ Leave.Over }
    requires none { T.due turns.old ≡ None }
    ensures ended { (T.leave turns.new ≡ Leave.Over) ⊎
        (T.stale turns.new ≡ true) ⊎
        (T.turn turns.new ≡ 2 ^ 64 - 1) }
    ensures seat { IsSeatOf claims.now result }
    ensures share { result.share ≡ seat.share }
    ensures claimed { BeginsWith result.claimed seat.claimed }
    ensures seen { BeginsWith result.seen seat.seen }
{
    let mut index = 0;
    let mut ticket = None;
    for turn in 0..u64::MAX {
        match turns.pass(StepKind::Push) {
            Pass::Go => {
                if ticket.is_none() {
                    ticket = claim_next(claims, &mut seat, &mut index);
                }
                match push(turns, claims.epoch(), ticket) {
                    HeldTicket::Ticket(held) => ticket = held,
                    HeldTicket::Over => return seat,
                }
            }
            Pass::Skip => thread::yield_now(),
            Pass::Stop => return seat,
        }
    }
    seat
}

/// One turn of the worker that serves: it sends the page of its ticket, or dequeues a request and claims its page.
fn serve<T: Turns>(
    turns: &mut T,
    claims: &Claims,
    seat: &mut ClaimSeat,
    ticket: Option<Ticket>,
) -> HeldTicket
    requires seat { IsSeatOf claims.now seat.old }
    requires who { T.who turns.old ≡ Worker.Serve }
    requires urgent { IfSome ticket (λ t. T.leave turns.old ≡ Leave.Step StepKind.PushUrgent) }
    requires serves { IfNone ticket (T.leave turns.old ≡ Leave.Step StepKind.Serve) }
    requires held { IfSome (T.due turns.old) (λ due. ticket ≡ Some due) }
    ensures seat { IsSeatOf claims.now seat.new }
    ensures continued { Continues seat.old seat.new }
    ensures who { T.who turns.new ≡ T.who turns.old }
    ensures turn { T.turn turns.new ≡ T.turn turns.old }
    ensures leave { T.leave turns.new ≡ Leave.Nothing }
    ensures held { IfSome (T.due turns.new) (λ due. result ≡ HeldTicket.Ticket (Some due)) }
    ensures over { result ≡ HeldTicket.Over → T.stale turns.new ≡ true }
{
    if let Some(ticket) = ticket {
        return send(turns, Step::PushUrgent(ticket), ticket);
    }
    match turns.serve(claims.epoch()) {
        Ok(Effect::Asked { addr }) => HeldTicket::Ticket(claim_at(claims, seat, addr)),
        Err(Refusal::StaleEpoch) => HeldTicket::Over,
        _ => {
            thread::yield_now();
            HeldTicket::Ticket(None)
        }
    }
}

/// One turn of the worker that pushes: it sends the page of its ticket. Without one it looks whether the epoch is over.
fn push<T: Turns>(turns: &mut T, epoch: u32, ticket: Option<Ticket>) -> HeldTicket
    requires who { T.who turns.old ≡ Worker.Push }
    requires leave { T.leave turns.old ≡ Leave.Step StepKind.Push }
    requires held { IfSome (T.due turns.old) (λ due. ticket ≡ Some due) }
    ensures who { T.who turns.new ≡ T.who turns.old }
    ensures turn { T.turn turns.new ≡ T.turn turns.old }
    ensures leave { T.leave turns.new ≢ Leave.Over }
    ensures held { IfSome (T.due turns.new) (λ due. result ≡ HeldTicket.Ticket (Some due)) }
    ensures over { result ≡ HeldTicket.Over → T.stale turns.new ≡ true }
{
    if let Some(ticket) = ticket {
        return send(turns, Step::Push(ticket), ticket);
    }
    if turns.is_over(epoch) {
        return HeldTicket::Over;
    }
    thread::yield_now();
    HeldTicket::Ticket(None)
}

/// Makes a push of a ticket, and keeps the ticket where the push may be accepted later.
fn send<T: Turns>(turns: &mut T, step: Step, ticket: Ticket) -> HeldTicket
    requires step { IsStepOf (T.who turns.old) step }
    requires leave { T.leave turns.old ≡ Leave.Step (kind_of step) }
    requires ticket { ticket_of step ≡ Some ticket }
    requires held { IfSome (T.due turns.old) (λ due. ticket ≡ due) }
    ensures who { T.who turns.new ≡ T.who turns.old }
    ensures turn { T.turn turns.new ≡ T.turn turns.old }
    ensures leave { T.leave turns.new ≡ Leave.Nothing }
    ensures held { IfSome (T.due turns.new) (λ due. result ≡ HeldTicket.Ticket (Some due)) }
    ensures over { result ≡ HeldTicket.Over → T.stale turns.new ≡ true }
{
    let outcome = turns.make(step);
    if outcome.is_ok() {
        return HeldTicket::Ticket(None);
    }
    thread::yield_now();
    match outcome {
        Err(Refusal::NoMemory | Refusal::Broken | Refusal::Phase) => HeldTicket::Ticket(Some(
            ticket,
        )),
        Err(Refusal::StaleEpoch) => HeldTicket::Over,
        _ => HeldTicket::Ticket(None),
    }
}

/// Claims the first free index from `index` on. The next search begins after it.
fn claim_next(claims: &Claims, seat: &mut ClaimSeat, index: &mut usize) -> Option<Ticket>
    requires { IsSeatOf claims.now seat.old }
    ensures seat { IsSeatOf claims.now seat.new }
    ensures continued { Continues seat.old seat.new }
{
    while *index < claims.len() {
        let here = *index;
        *index += 1;
        if let Some(ticket) = claims.claim(seat, here) {
            return Some(ticket);
        }
    }
    None
}

/// Claims the page at an address, if it is among the claims' pages and free.
fn claim_at(claims: &Claims, seat: &mut ClaimSeat, addr: Addr) -> Option<Ticket>
    requires { IsSeatOf claims.now seat.old }
    ensures seat { IsSeatOf claims.now seat.new }
    ensures continued { Continues seat.old seat.new }
{
    let page = PageNo::try_from(addr / PAGE_SIZE).ok()?;
    let index = claims.index_of(page)?;
    claims.claim(seat, index)
}

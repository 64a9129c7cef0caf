//! The loops of the workers over a world in memory that keeps the kinds of step that they ask for.
ghost use Rattle.std.specs.Prelude.{◌≡◌, None, IfSome, IfOk};
ghost use Rattle.pusher.specs.Seats.{IsSeatOf};

use super::claims::held;
use super::gates::{LOAD, MAP, issue, store};
use super::setup::{asked_steps, world_after};
use crate::claims::rows::ascending;
use mig_base::NoMemory;
use mig_base::effect::Effect;
use mig_base::refusal::Refusal;
use mig_base::schedule::{Step, Ticket};
use pusher::{ClaimSeat, Claims};
use rig::{
    Leave, Pass, StepKind, Turns, Worker, dest_turns, push_turns, says_stale, serve_turns,
    source_turns, ticket_due,
};
use std::alloc::Global;
use std::test::Fail;
use world::World;

/// The most turns of a list.
const MOST: usize = 10;

/// Allows each of the first turns, and keeps what was asked for in it.
#[derive(Drop)]
struct Listed {
    who: Worker,
    turn: u64,
    leave: Leave,
    due: Option<Ticket>,
    stale: bool,
    world: World,
    kinds: [StepKind; MOST],
    count: usize,
}

impl Listed {
    fn new(who: Worker, world: World) -> Listed
        ensures who { result.who ≡ who }
        ensures turn { result.turn ≡ 0 }
        ensures leave { result.leave ≡ Leave.Nothing }
        ensures due { result.due ≡ None }
    {
        Listed {
            who,
            turn: 0,
            leave: Leave::Nothing,
            due: None,
            stale: false,
            world,
            kinds: [StepKind::Retry; MOST],
            count: 0,
        }
    }
}

impl Turns for Listed {
    ghost who = { λ s. s.who };

    ghost turn = { λ s. s.turn };

    ghost leave = { λ s. s.leave };

    ghost due = { λ s. s.due };

    ghost stale = { λ s. s.stale };

    fn pass(&mut self, next: StepKind) -> Pass {
        self.turn += 1;
        if self.count < MOST {
            self.kinds[self.count] = next;
            self.count += 1;
            self.leave = Leave::Step(next);
            return Pass::Go;
        }
        self.leave = Leave::Over;
        Pass::Stop
    }

    fn make(&mut self, step: Step) -> Result<Effect, Refusal> {
        self.leave = Leave::Nothing;
        self.world.headline();
        let outcome = self.world.step(step);
        self.due = ticket_due(step, &outcome);
        self.stale |= says_stale(&outcome);
        outcome
    }

    fn serve(&mut self, epoch: u32) -> Result<Effect, Refusal> {
        self.leave = Leave::Nothing;
        if self.world.epoch() != epoch {
            self.stale = true;
            return Err(Refusal::StaleEpoch);
        }
        self.world.headline();
        let outcome = self.world.step(Step::Serve);
        self.stale |= says_stale(&outcome);
        outcome
    }

    fn is_over(&mut self, epoch: u32) -> bool {
        let is_over = self.world.epoch() != epoch;
        self.stale |= is_over;
        is_over
    }
}

/// A world in which a migration has begun, for the workers of the two sides. For the workers that send owed pages, one whose destination
/// runs and is owed two pages, of which a load has asked for the second.
fn world_for(alloc: Global, who: Worker) -> Option<World> {
    match who {
        Worker::Source | Worker::Dest => {
            world_after(alloc, 1, &[issue(MAP), store(0x10000, 9), Step::Start])
        }
        Worker::Serve | Worker::Push => world_after(alloc, 1, &asked_steps(LOAD)),
    }
}

/// Claims of both pages in the first epoch, made once more where memory was refused.
fn both_claims(alloc: Global) -> Option<(Claims, ClaimSeat)>
    ensures { IfSome result (λ r. IsSeatOf r.0 r.1) }
{
    match claims_once(alloc) {
        Ok(made) => Some(made),
        Err(NoMemory) => claims_once(alloc).ok(),
    }
}

fn claims_once(alloc: Global) -> Result<(Claims, ClaimSeat), NoMemory>
    ensures { IfOk result (λ r. IsSeatOf r.0 r.1) }
{
    let pages = ascending(alloc, 16, 2)?;
    Claims::new(alloc, 1, pages)
}

/// Whether a worker makes its steps in turn.
fn play(alloc: Global, who: Worker) -> bool {
    let Some(world) = world_for(alloc, who) else {
        return false;
    };
    let mut turns = Listed::new(who, world);
    match who {
        Worker::Source => {
            source_turns(&mut turns);
            is_source(&turns)
        }
        Worker::Dest => {
            dest_turns(&mut turns);
            is_dest(&turns)
        }
        Worker::Serve => serves(alloc, &mut turns),
        Worker::Push => pushes(alloc, &mut turns),
    }
}

fn is_source(turns: &Listed) -> bool {
    let wanted = [
        StepKind::Round,
        StepKind::Send,
        StepKind::SourceRead,
        StepKind::SourceAct,
        StepKind::DeliverBack,
        StepKind::End,
        StepKind::Notice,
        StepKind::Round,
        StepKind::Send,
        StepKind::SourceRead,
    ];
    turns.kinds == wanted && turns.world.counts().sent > 0
}

fn is_dest(turns: &Listed) -> bool {
    let wanted = [
        StepKind::Deliver,
        StepKind::DeliverUrgent,
        StepKind::DestRead,
        StepKind::DestAct,
        StepKind::Install,
        StepKind::Notice,
        StepKind::Deliver,
        StepKind::DeliverUrgent,
        StepKind::DestRead,
        StepKind::DestAct,
    ];
    turns.kinds == wanted && turns.world.forward_bytes() == 0
}

fn serves(alloc: Global, turns: &mut Listed) -> bool
    requires who { turns.old.who ≡ Worker.Serve }
    requires turn { turns.old.turn ≡ 0 }
    requires leave { turns.old.leave ≡ Leave.Nothing }
    requires due { turns.old.due ≡ None }
{
    let Some((claims, seat)) = both_claims(alloc) else {
        return false;
    };
    let seat = serve_turns(turns, &claims, seat);
    let first = [StepKind::Serve, StepKind::PushUrgent, StepKind::Serve];
    held(&claims, &seat) == Some((false, true))
        && turns.kinds.starts_with(&first)
        && turns.world.urgent_bytes() > 0
        && turns.world.forward_bytes() == 0
}

fn pushes(alloc: Global, turns: &mut Listed) -> bool
    requires who { turns.old.who ≡ Worker.Push }
    requires turn { turns.old.turn ≡ 0 }
    requires leave { turns.old.leave ≡ Leave.Nothing }
    requires due { turns.old.due ≡ None }
{
    let Some((claims, seat)) = both_claims(alloc) else {
        return false;
    };
    let seat = push_turns(turns, &claims, seat);
    held(&claims, &seat) == Some((true, true))
        && turns.kinds == [StepKind::Push; MOST]
        && turns.world.urgent_bytes() == 0
        && turns.world.forward_bytes() > 0
        && turns.world.counts().sent == 2
}

#[test]
fn each_worker_makes_its_steps_in_turn(rt: HostRuntime) -> Result<(), Fail> {
    assert!(rt; play(rt.alloc(), Worker::Source));
    assert!(rt; play(rt.alloc(), Worker::Dest));
    assert!(rt; play(rt.alloc(), Worker::Serve));
    assert!(rt; play(rt.alloc(), Worker::Push));
    Ok(())
}

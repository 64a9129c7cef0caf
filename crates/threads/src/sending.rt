//! The thread that sends the owed pages.

ghost use Rattle.pusher.specs.Seats.{IsSeatOf};

use crate::driver::Shared;
use pusher::{ClaimSeat, Claims};
use std::alloc::Global;
use std::sync::Wait;
use std::thread;
use std::thread::{Promise, Threads};

/// The claims of an epoch, with a seat that has every claim.
#[derive(Drop)]
pub(crate) struct EpochClaims {
    pub claims: Claims,
    pub seat: ClaimSeat,
    ghost fits: { IsSeatOf claims seat },
}

/// The promise of a thread to return a seat of these claims.
#[derive(Clone, Copy)]
struct SeatOf<'a>(&'a Claims);

impl<'a> Promise<ClaimSeat> for SeatOf<'a> {
    ghost kept_by = { λ p r. IsSeatOf p.0.now r };
}

/// Sends the owed pages until the run is over, in each epoch by new claims. Returns the claims of the last epoch. Claims that are refused
/// for lack of memory are tried again.
pub(crate) fn send_pages<R: Threads + Wait + Sync>(
    rt: &R,
    alloc: Global,
    shared: Shared<'_>,
) -> Option<EpochClaims> {
    let mut last = None;
    for _ in rt.forever() {
        if shared.course.is_over() {
            return last;
        }
        match shared.rig.claims(rt) {
            Ok((claims, seat)) => last = Some(send_epoch(rt, alloc, shared, claims, seat)),
            Err(_) => thread::yield_now(),
        }
    }
    unreachable!()
}

/// Sends the pages of an epoch: those that are requested in a thread of its own, the others in this one. If that thread cannot be started,
/// this one sends them all.
fn send_epoch<R: Threads + Wait + Sync>(
    rt: &R,
    alloc: Global,
    shared: Shared<'_>,
    claims: Claims,
    mut seat: ClaimSeat,
) -> EpochClaims
    requires { IsSeatOf claims seat }
{
    let seat = match claims.split(alloc, &mut seat) {
        Ok(other) => send_shared(rt, shared, &claims, seat, other),
        Err(_) => {
            shared.course.lack();
            shared.rig.push_worker(rt, &claims, seat, shared.course)
        }
    };
    EpochClaims { claims, seat }
}

/// Sends with two seats, and joins them.
fn send_shared<R: Threads + Wait + Sync>(
    rt: &R,
    shared: Shared<'_>,
    claims: &Claims,
    seat: ClaimSeat,
    other: ClaimSeat,
) -> ClaimSeat
    requires seat { IsSeatOf claims.now seat }
    requires other { IsSeatOf claims.now other }
    ensures { IsSeatOf claims.now result }
{
    let Shared { rig, course } = shared;
    thread::scope(
        thread::scope_env(),
        rt,
        move |scope| -> ClaimSeat
            requires seat { IsSeatOf claims.now seat }
            requires other { IsSeatOf claims.now other }
            ensures { IsSeatOf claims.entry.now result }
        {
            let served = scope.spawn_with(
                SeatOf(claims),
                move || rig.serve_worker(rt, claims, other, course),
            );
            let mut seat = rig.push_worker(rt, claims, seat, course);
            match served {
                Ok(served) => claims.join(&mut seat, served.join(rt)),
                Err(_) => course.lack(),
            }
            seat
        },
    )
}

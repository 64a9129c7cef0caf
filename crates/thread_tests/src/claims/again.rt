//! Calls that are made again where memory was refused.
ghost use Rattle.std.specs.Prelude.{IfSome};
ghost use Rattle.pusher.specs.Seats.{IsSeatOf};

use mig_base::{NoMemory, PageNo};
use pusher::{ClaimSeat, Claims};
use std::alloc::Global;

/// A seat for one more thread.
pub fn split(alloc: Global, claims: &Claims, seat: &mut ClaimSeat) -> Option<ClaimSeat>
    requires { IsSeatOf claims.now seat.old }
    ensures seat { IsSeatOf claims.now seat.new }
    ensures new { IfSome result (λ s. IsSeatOf claims.now s) }
{
    match claims.split(alloc, seat) {
        Ok(other) => Some(other),
        Err(NoMemory) => claims.split(alloc, seat).ok(),
    }
}

/// What is left, and what the seat has claimed.
pub fn close(alloc: Global, claims: Claims, seat: ClaimSeat) -> Option<(Vec<PageNo>, Vec<PageNo>)>
    requires { IsSeatOf claims seat }
{
    match claims.close(alloc, seat) {
        Ok(lists) => Some(lists),
        Err((claims, seat)) => claims.close(alloc, seat).ok(),
    }
}

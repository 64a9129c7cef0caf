//! Two threads claim all pages: what they have claimed together is every page, once.
ghost use Rattle.std.specs.Prelude.{◌≡◌, ◌≢◌, ℕ, ◌<◌, ◌⊎◌, length, IfOk, AllPairs, Contains, IsPermutation};
ghost use Rattle.pusher.specs.Seats.{IsSeatOf};

use super::rows::ascending;
use mig_base::{NoMemory, PageNo};
use pusher::{ClaimSeat, Claims};
use std::alloc::Global;
use std::marker::Sync;
use std::test::Fail;
use std::thread;
use std::thread::Threads;

fn claim_all(claims: &Claims, mut seat: ClaimSeat) -> ClaimSeat
    requires { IsSeatOf claims.now seat }
    ensures seat { IsSeatOf claims.now result }
    ensures share { result.share ≡ seat.share }
    ensures known { (i : ℕ) → i < length claims.now.pages →
        Contains result.claimed i ⊎ Contains result.seen i }
{
    for index in 0..claims.len() {
        let _ = claims.claim(&mut seat, index);
    }
    seat
}

/// The pages in the order of their indexes.
fn claim_by_two<R: Threads + Sync>(
    rt: &R,
    alloc: Global,
    pages: Vec<PageNo>,
) -> Result<Vec<PageNo>, NoMemory>
    requires { AllPairs ◌≢◌ pages.items }
    ensures { IfOk result (λ v. IsPermutation pages.items v.items) }
{
    let (claims, mut first) = Claims::new(alloc, 1, pages)?;
    let second = claims.split(alloc, &mut first)?;
    let shared = &claims;
    let (mut first, second) = thread::join(
        rt,
        move ||
            requires { IsSeatOf shared.now first }
            ensures seat { IsSeatOf shared.entry.now result }
            ensures share { result.share ≡ first.share }
            ensures known { (i : ℕ) → i < length shared.entry.now.pages →
                Contains result.claimed i ⊎ Contains result.seen i }
        { claim_all(shared, first) },
        move ||
            requires { IsSeatOf shared.now second }
            ensures seat { IsSeatOf shared.entry.now result }
            ensures share { result.share ≡ second.share }
        { claim_all(shared, second) },
    );
    claims.join(&mut first, second);
    match claims.close(alloc, first) {
        Ok((_left, claimed)) => Ok(claimed),
        Err((_claims, _seat)) => Err(NoMemory),
    }
}

fn claim_thousand<R: Threads + Sync>(rt: &R, alloc: Global) -> Result<Vec<PageNo>, NoMemory> {
    let pages = ascending(alloc, 0x10, 1000)?;
    claim_by_two(rt, alloc, pages)
}

/// Whether these are the thousand pages from 0x10 up.
fn is_thousand(pages: &[PageNo]) -> bool {
    let mut next = 0x10;
    for page in pages {
        if *page != next {
            return false;
        }
        next = next.saturating_add(1);
    }
    next == 0x10 + 1000
}

#[test]
fn two_threads_claim_all(rt: HostRuntime) -> Result<(), Fail> {
    let claimed = match claim_thousand(&rt, rt.alloc()) {
        Ok(claimed) => claimed,
        Err(NoMemory) => claim_thousand(&rt, rt.alloc())?,
    };
    assert!(rt; is_thousand(&claimed));
    Ok(())
}

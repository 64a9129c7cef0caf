//! What is timed of claims: claims of all indexes, and look-ups of all pages.
ghost use Rattle.std.specs.Prelude.{◌≡◌, ◌≢◌, IfOk, AllPairs};
ghost use Rattle.pusher.specs.Seats.{IsSeatOf};

use mig_base::{NoMemory, PageNo};
use pusher::{ClaimSeat, Claims};
use std::alloc::Global;
use std::sync::atomic::{AtomicU64, Ordering};

/// The pages from 0 on.
pub fn pages(alloc: Global, count: u32) -> Result<Vec<PageNo>, NoMemory>
    ensures { IfOk result (λ v. AllPairs ◌≢◌ v.items) }
{
    let mut pages = Vec::new(alloc);
    for page in 0..count {
        pages.push(page)?;
    }
    Ok(pages)
}

/// Claims each index.
pub fn claim_all(claims: &Claims, seat: &mut ClaimSeat)
    requires { IsSeatOf claims.now seat.old }
    ensures { IsSeatOf claims.now seat.new }
{
    for index in 0..claims.len() {
        let _ = claims.claim(seat, index);
    }
}

/// The number of pages, among the first `count`, that have an index.
pub fn find_all(claims: &Claims, count: u32) -> u32 {
    let mut found = 0_u32;
    for page in 0..count {
        if claims.index_of(page).is_some() {
            found = found.saturating_add(1);
        }
    }
    found
}

/// Words for `count` bits, all of them set.
pub fn words(alloc: Global, count: u32) -> Result<Vec<AtomicU64>, NoMemory> {
    let mut words = Vec::new(alloc);
    for _ in 0..count.div_ceil(u64::BITS) {
        words.push(AtomicU64::new(u64::MAX))?;
    }
    Ok(words)
}

/// Clears each bit with one `fetch_and`. How many were set.
pub fn clear_all(words: &[AtomicU64]) -> u64 {
    let mut set = 0_u64;
    for word in words {
        for bit in 0..u64::BITS {
            let found = word.fetch_and(!(1 << bit), Ordering::SeqCst);
            set = set.saturating_add(found >> bit & 1);
        }
    }
    set
}

//! Lists of pages without a repeat.
ghost use Rattle.std.specs.Prelude.{◌≢◌, ◌+◌, ◌<◌, ◌≤◌, ◌^◌, IfOk, AllPairs};

use mig_base::{NoMemory, PageNo};
use std::alloc::Global;

/// The pages from `first` up.
pub fn ascending(alloc: Global, first: PageNo, count: u32) -> Result<Vec<PageNo>, NoMemory>
    requires { first + count < 2 ^ 32 }
    ensures { IfOk result (λ v. AllPairs ◌≢◌ v.items) }
{
    let mut pages = Vec::new(alloc);
    for i in 0..count {
        pages.push(first + i)?;
    }
    Ok(pages)
}

/// The pages from `last` down.
pub fn descending(alloc: Global, last: PageNo, count: u32) -> Result<Vec<PageNo>, NoMemory>
    requires { count ≤ last }
    ensures { IfOk result (λ v. AllPairs ◌≢◌ v.items) }
{
    let mut pages = Vec::new(alloc);
    for i in 0..count {
        pages.push(last - i)?;
    }
    Ok(pages)
}

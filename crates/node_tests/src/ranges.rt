//! What the calls require of ranges, looked at when a table is played.

ghost use Rattle.std.specs.Prelude.{◌+◌, ◌≤◌};
ghost use Rattle.mig_base.specs.declared.TheConstants.{HIGH_PAGE as END};

use mig_base::{HIGH_PAGE, PageNo};
use std::process::Abort;

/// Stops unless a range ends at `HIGH_PAGE` or below.
pub fn inside(rt: &impl Abort, first: PageNo, count: u32)
    ensures { first + count ≤ END }
{
    assert!(rt; first <= HIGH_PAGE && count <= HIGH_PAGE - first);
}

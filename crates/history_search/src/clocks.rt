//! Operations that a clock cannot have timed so.

ghost use Rattle.std.specs.Prelude.{IfOk, length};
ghost use Rattle.std.specs.List.{All};
ghost use Rattle.history_search.specs.Proposals.{IsWithin};

use crate::accesses::short;
use crate::within::keep_within;
use history::{Clock, Contradiction, NEVER, Operation, is_turned};
use mig_base::NoMemory;
use std::alloc::Global;

/// The most contradictions of a kind that are proposed.
pub(crate) const MOST: usize = 16;

/// Adds the operations of which each two were given one tick.
fn push_shared(
    alloc: Global,
    found: &mut Vec<Contradiction>,
    operations: &[Operation],
) -> Result<(), NoMemory> {
    let mut by_tick: Vec<(u64, u32)> = Vec::new(alloc);
    for (at, operation) in operations.iter().enumerate() {
        by_tick.push((operation.begin, short(at)))?;
        if operation.end != NEVER {
            by_tick.push((operation.end, short(at)))?;
        }
    }
    by_tick.sort_unstable();
    let mut before: Option<(u64, u32)> = None;
    for this in &by_tick {
        if let Some(before) = before
            && before.0 == this.0
            && before.1 != this.1
            && found.len() < MOST
        {
            found.push(Contradiction::OneTick {
                first: before.1 as usize,
                second: this.1 as usize,
            })?;
        }
        before = Some(*this);
    }
    Ok(())
}

/// The operations that ended before they began, and those of one thread that overlap.
pub(crate) fn clock_contradictions(
    alloc: Global,
    clock: Clock,
    operations: &[Operation],
) -> Result<Vec<Contradiction>, NoMemory> {
    let mut found = Vec::new(alloc);
    let mut by_thread: Vec<(u8, u64, u64, u32)> = Vec::new(alloc);
    for (at, operation) in operations.iter().enumerate() {
        if is_turned(clock, operation) && found.len() < MOST {
            found.push(Contradiction::Backward { at })?;
        }
        by_thread.push((operation.thread, operation.begin, operation.end, short(at)))?;
    }
    by_thread.sort_unstable();
    let mut before: Option<(u8, u64, u64, u32)> = None;
    for this in &by_thread {
        if let Some(before) = before
            && before.0 == this.0
            && this.1 < before.2
            && found.len() < MOST
        {
            found.push(Contradiction::Overlap {
                first: before.3 as usize,
                second: this.3 as usize,
            })?;
        }
        before = Some(*this);
    }
    Ok(found)
}

/// Proposes contradictions in a history to which a counter gave a tick twice: each names operations that are there. `NoMemory` is returned if room is
/// refused: 32 bytes an operation are needed.
pub fn propose_shared(
    alloc: Global,
    clock: Clock,
    operations: &[Operation],
) -> Result<Vec<Contradiction>, NoMemory>
    ensures { IfOk result (λ proposed. All (IsWithin (length operations.now)) proposed.items) }
{
    let mut found = clock_contradictions(alloc, clock, operations)?;
    push_shared(alloc, &mut found, operations)?;
    keep_within(alloc, found, operations.len())
}

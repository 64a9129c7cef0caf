//! Whether an order explains a history.

ghost use Rattle.std.specs.Prelude.{IfOk};
ghost use Rattle.std.specs.Bool.{OnTrue};
ghost use Rattle.std.specs.List.Sorted.{IsPermutation};
ghost use Rattle.history.specs.Histories.{Explains};

use crate::replay::is_flat;
use history::{Operation, agrees};
use mig_base::NoMemory;
use std::alloc::Global;

/// Puts the operations that are in turn at `start`, at `order[start]`, at the index which that one has in `order`, and so on, each to
/// the place before it. The indices become their own.
fn arrange_cycle(operations: &mut [Operation], order: &mut [u32], start: usize)
    ensures { IsPermutation operations.old operations.new }
{
    let mut at = start;
    for _ in 0..operations.len() {
        if at >= order.len() {
            return;
        }
        let next = order[at] as usize;
        order[at] = u32::try_from(at).unwrap_or(u32::MAX);
        if next == start || next >= operations.len() || at >= operations.len() {
            return;
        }
        operations.swap(at, next);
        at = next;
    }
}

/// Puts first the operation whose index comes first in `order`, and so on. Where `order` is not each index once, the operations are in
/// some other order: none is lost, and none is there twice.
fn arrange(operations: &mut [Operation], order: &mut [u32])
    ensures { IsPermutation operations.old operations.new }
{
    for start in 0..operations.len() {
        arrange_cycle(operations, order, start);
    }
}

/// Puts the operations of a history into the order in which `order` lists their indices, and says whether that order explains the history:
/// it has all operations, agrees with each interval and each thread, and in it each reply is that of one flat memory. If not, another order
/// may explain it. The indices are replaced. `NoMemory` is returned if room for the pages is refused.
pub fn confirm_order(
    alloc: Global,
    operations: &mut [Operation],
    order: &mut [u32],
) -> Result<bool, NoMemory>
    ensures { IfOk result (λ explains. OnTrue explains (Explains operations.old operations.new)) }
{
    arrange(operations, order);
    if !agrees(operations) {
        return Ok(false);
    }
    is_flat(alloc, operations)
}

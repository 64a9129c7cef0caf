//! Whether a clock gave its ticks as it should.

ghost use Rattle.std.specs.Prelude.{◌≡◌, ◌≢◌, ◌++◌, OnOk, IfOk};
ghost use Rattle.std.specs.Bool.{OnTrue};
ghost use Rattle.std.specs.List.{AllPairs};
ghost use Rattle.std.specs.List.Sorted.{IsStrictlyIncreasing};
ghost use Rattle.history.specs.Histories.{GaveTicks, ticks, ticks_of};

use crate::operation::{Clock, NEVER, Operation};
use mig_base::NoMemory;
use std::alloc::Global;

/// Adds the ticks of an operation.
fn push_ticks(list: &mut Vec<u64>, operation: &Operation) -> Result<(), NoMemory>
    ensures { OnOk result (list.new.items ≡ list.old.items ++ ticks_of operation.now) }
{
    list.push(operation.begin)?;
    if operation.end != NEVER {
        list.push(operation.end)?;
    }
    Ok(())
}

/// The ticks of operations.
fn list_ticks(alloc: Global, operations: &[Operation]) -> Result<Vec<u64>, NoMemory>
    ensures { IfOk result (λ list. list.items ≡ ticks operations.now) }
{
    let mut list = Vec::new(alloc);
    for operation in operations {
        push_ticks(&mut list, operation)?;
    }
    Ok(list)
}

/// Whether each number is greater than the one before it.
fn is_increasing(list: &[u64]) -> bool
    ensures { OnTrue result (IsStrictlyIncreasing list.now) }
{
    for at in 1..list.len() {
        if list[at] <= list[at - 1] {
            return false;
        }
    }
    true
}

/// Whether no two of the numbers are the same.
fn is_apart(list: &mut [u64]) -> bool
    ensures { OnTrue result (AllPairs (λ x y. x ≢ y) list.old) }
{
    list.sort_unstable();
    is_increasing(list)
}

/// Whether the clock gave its ticks as it should: a counter gives none twice. `NoMemory` is returned if room for the ticks is refused.
pub fn gave_ticks(alloc: Global, clock: Clock, operations: &[Operation]) -> Result<bool, NoMemory>
    ensures { IfOk result (λ gave. OnTrue gave (GaveTicks clock operations.now)) }
{
    match clock {
        Clock::Time => Ok(true),
        Clock::Counter => {
            let mut list = list_ticks(alloc, operations)?;
            Ok(is_apart(&mut list))
        }
    }
}

//! Whether an order of operations agrees with their intervals and with their threads.

ghost use Rattle.std.specs.Prelude.{◌≡◌, ◌<◌, ◌≤◌};
ghost use Rattle.std.specs.Bool.{OnTrue};
ghost use Rattle.std.specs.List.{All, AllPairs};
ghost use Rattle.history.specs.Histories.{MayPrecede};

use crate::operation::Operation;

/// The thread of an operation, as an index.
fn thread_of(operation: &Operation) -> usize
    ensures value { result ≡ operation.now.thread }
    ensures few { result < 256 }
{
    usize::from(operation.thread)
}

/// The line of an operation that has one tick for its begin and its end; 0 for another, as lines are counted from 1.
fn line_at_once(operation: &Operation) -> u32
    ensures { operation.now.end ≤ operation.now.begin → result ≡ operation.now.line }
{
    if operation.begin < operation.end {
        return 0;
    }
    operation.line
}

/// Whether an operation ended after the last one of its thread, or is on a later line.
fn is_later(operation: &Operation, last_end: u64, last_line: u32) -> bool
    ensures { OnTrue result (operation.now.end ≡ last_end → last_line < operation.now.line) }
{
    if operation.end != last_end {
        return true;
    }
    last_line < operation.line
}

/// Whether no operation ended before it began, and none is listed after one that began when it had ended, nor after one of its own thread that
/// had not ended when it began. Operations of one thread that have one tick for all are listed as their lines follow each other.
pub fn agrees(operations: &[Operation]) -> bool
    ensures timed { OnTrue result
        (All (λ operation. operation.begin ≤ operation.end) operations.now) }
    ensures pairs { OnTrue result (AllPairs MayPrecede operations.now) }
{
    // The greatest tick at which one of those before began, and for each thread the last at which one ended, with the line of that one, if it
    // has no other tick.
    let mut latest = 0;
    let mut ends = [0u64; 256];
    let mut lines = [0u32; 256];
    for operation in operations {
        let begin = operation.begin;
        let end = operation.end;
        let thread = thread_of(operation);
        if end < begin || end < latest || begin < ends[thread] {
            return false;
        }
        if !is_later(operation, ends[thread], lines[thread]) {
            return false;
        }
        latest = latest.max(begin);
        ends[thread] = end;
        lines[thread] = line_at_once(operation);
    }
    true
}

//! Values of a location that cannot have been there one after the other.

ghost use Rattle.std.specs.Prelude.{IfSome};
ghost use Rattle.std.specs.Bool.{OnTrue};
ghost use Rattle.history.specs.Contradictions.{
  IsAt,
  IsCycle,
  IsLocation,
  IsRound,
  LeftFirst,
  WasBefore,
};

use crate::before::is_before;
use crate::operation::Operation;
use crate::place::changes;
use crate::reader::{is_location, is_reader, sees};

/// A value that was at a location, by the indices of operations that left it or found it.
#[derive(Clone, Copy)]
pub struct Value {
    /// The operation that left it.
    pub source: usize,
    /// One that comes before one that saw the next value.
    pub early: usize,
    /// One that comes after one that saw the value before it.
    pub late: usize,
}

/// These operations.
#[derive(Clone, Copy)]
struct Seen {
    source: Operation,
    early: Operation,
    late: Operation,
}

/// The operations at the indices of a value, if there are such.
fn look_up(operations: &[Operation], value: Value) -> Option<Seen>
    ensures source { IfSome result (λ it. IsAt operations.now value.source it.source) }
    ensures early { IfSome result (λ it. IsAt operations.now value.early it.early) }
    ensures late { IfSome result (λ it. IsAt operations.now value.late it.late) }
{
    if value.source >= operations.len() {
        return None;
    }
    if value.early >= operations.len() || value.late >= operations.len() {
        return None;
    }
    Some(Seen {
        source: operations[value.source],
        early: operations[value.early],
        late: operations[value.late],
    })
}

/// Whether one value was there before another, by the intervals of operations that saw them.
fn left_first(operations: &[Operation], place: u64, value: Seen, next: Seen) -> bool
    ensures { OnTrue result
        (LeftFirst operations.now place value.source value.early next.source next.late) }
{
    if value.source.line == next.source.line || !is_before(&value.early, &next.late) {
        return false;
    }
    if !changes(place, value.source.action) {
        return false;
    }
    if !sees(operations, place, value.source, value.early) {
        return false;
    }
    sees(operations, place, next.source, next.late)
}

/// Whether one value was there before another: the source of the other found it, or their intervals say so.
fn was_before(operations: &[Operation], place: u64, value: Value, next: Value) -> bool
    ensures { OnTrue result (WasBefore operations.now place value next) }
{
    let Some(seen) = look_up(operations, value) else {
        return false;
    };
    let Some(next) = look_up(operations, next) else {
        return false;
    };
    if is_reader(operations, place, seen.source, next.source) {
        return true;
    }
    left_first(operations, place, seen, next)
}

/// Whether each value was there before the next, and the last before the first.
fn is_round(operations: &[Operation], place: u64, first: Value, rest: &[Value]) -> bool
    ensures { OnTrue result (IsRound operations.now place first first rest.now) }
{
    let mut last = first;
    for value in rest {
        if !was_before(operations, place, last, *value) {
            return false;
        }
        last = *value;
    }
    was_before(operations, place, last, first)
}

/// Whether each of the values of a location was there before the next, and the last before the first.
pub(crate) fn is_cycle(operations: &[Operation], place: u64, size: u8, values: &[Value]) -> bool
    ensures location { OnTrue result (IsLocation operations.now place size) }
    ensures values { OnTrue result (IsCycle operations.now place values.now) }
{
    let [first, rest @ ..] = values else {
        return false;
    };
    if !is_location(operations, place, size) {
        return false;
    }
    is_round(operations, place, *first, rest)
}

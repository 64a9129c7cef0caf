//! Contradictions: operations of which no order explains all.

ghost use Rattle.std.specs.Prelude.{Some, None};
ghost use Rattle.std.specs.Bool.{OnTrue};
ghost use Rattle.std.specs.List.{Contains};
ghost use Rattle.history.specs.declared.contradiction.Contradiction.TheVariants as kinds;
ghost use Rattle.history.specs.declared.operation.Clock.{Clock};
ghost use Rattle.history.specs.Histories.{IsKept, ticks_of};
ghost use Rattle.history.specs.Contradictions.{Contradicts, IsBackward, ShareTick};

use crate::before::is_before;
use crate::cycle::{Value, is_cycle};
use crate::operation::{Clock, NEVER, Operation};
use crate::place::{changes, disturbs, read_of};
use crate::reader::{has_no_other, is_location, is_reader};
use mig_base::Addr;

/// What contradicts each order of the operations of a history, which are named by their indices.
#[derive(Drop)]
pub enum Contradiction {
    /// The operation `reader` found a value that no operation can have given it: each that left the value comes after `reader`, or before
    /// `between`, which comes before `reader` and disturbed the value.
    NoSource {
        reader: usize,
        between: Option<usize>,
    },
    /// Two exchanges found what the operation `source` left, which no other can have given them.
    Fork {
        source: usize,
        first: usize,
        second: usize,
    },
    /// Each of these values was there before the next one, and the last before the first, at a location of `size` bytes at the address
    /// `place`.
    Cycle {
        place: Addr,
        size: u8,
        values: Vec<Value>,
    },
    /// An operation ended before it began, or with a counter at the same tick.
    Backward {
        at: usize,
    },
    /// A counter gave two operations one tick.
    OneTick {
        first: usize,
        second: usize,
    },
    /// Two operations of one thread, of which neither had ended when the other began.
    Overlap {
        first: usize,
        second: usize,
    },
}

/// Whether no operation can have given the one at an index the value that it found, since each that left the value comes after it.
fn refutes_alone(operations: &[Operation], at: usize) -> bool
    ensures { OnTrue result
        ((clock : Clock) → Contradicts clock operations.now (kinds.NoSource at None)) }
{
    if at >= operations.len() {
        return false;
    }
    let reader = operations[at];
    let Some(read) = read_of(reader.action) else {
        return false;
    };
    if !is_location(operations, read.place, read.size) {
        return false;
    }
    has_no_other(operations, read.place, read.value, reader, None, None)
}

/// Whether no operation can have given the one at an index the value that it found, since each that left the value comes after it, or before
/// the one at the index `mid`, which disturbs the value.
fn refutes_between(operations: &[Operation], at: usize, mid: usize) -> bool
    ensures { OnTrue result
        ((clock : Clock) → Contradicts clock operations.now (kinds.NoSource at (Some mid))) }
{
    if at >= operations.len() || mid >= operations.len() {
        return false;
    }
    let reader = operations[at];
    let between = operations[mid];
    let Some(read) = read_of(reader.action) else {
        return false;
    };
    if !is_before(&between, &reader) || !disturbs(read.place, read.value, &between) {
        return false;
    }
    if !is_location(operations, read.place, read.size) {
        return false;
    }
    has_no_other(
        operations,
        read.place,
        read.value,
        reader,
        None,
        Some(between),
    )
}

/// Whether no operation can have given the one at an index the value that it found.
fn has_no_source(operations: &[Operation], at: usize, between: Option<usize>) -> bool
    ensures { OnTrue result
        ((clock : Clock) → Contradicts clock operations.now (kinds.NoSource at between)) }
{
    match between {
        Some(between) => refutes_between(operations, at, between),
        None => refutes_alone(operations, at),
    }
}

/// Whether an operation ended before it began, or a counter gave one tick for both.
pub fn is_turned(clock: Clock, operation: &Operation) -> bool
    ensures { OnTrue result (IsBackward clock operation.now) }
{
    match clock {
        Clock::Counter => operation.end <= operation.begin && operation.end != NEVER,
        Clock::Time => operation.end < operation.begin,
    }
}

/// Whether that is so of the operation at an index.
fn is_backward(clock: Clock, operations: &[Operation], at: usize) -> bool
    ensures { OnTrue result (Contradicts clock operations.now (kinds.Backward at)) }
{
    if at >= operations.len() {
        return false;
    }
    is_turned(clock, &operations[at])
}

/// Whether an operation was given this tick.
fn has_tick(operation: &Operation, tick: u64) -> bool
    ensures { OnTrue result (Contains (ticks_of operation.now) tick) }
{
    operation.begin == tick || (operation.end == tick && tick != NEVER)
}

/// Whether two operations were given one tick by a counter.
fn share_tick(clock: Clock, first: &Operation, second: &Operation) -> bool
    ensures { OnTrue result (ShareTick clock first.now second.now) }
{
    match clock {
        Clock::Counter => {
            has_tick(second, first.begin) || (first.end != NEVER && has_tick(second, first.end))
        }
        Clock::Time => false,
    }
}

/// Whether that is so of the operations at two indices.
fn is_one_tick(clock: Clock, operations: &[Operation], first: usize, second: usize) -> bool
    ensures { OnTrue result (Contradicts clock operations.now (kinds.OneTick first second)) }
{
    if first >= operations.len() || second >= operations.len() || first == second {
        return false;
    }
    share_tick(clock, &operations[first], &operations[second])
}

/// Whether the operations at two indices are of one thread and on different lines, and neither had ended when the other began.
fn overlap(operations: &[Operation], first: usize, second: usize) -> bool
    ensures { OnTrue result
        ((clock : Clock) → Contradicts clock operations.now (kinds.Overlap first second)) }
{
    if first >= operations.len() || second >= operations.len() {
        return false;
    }
    let first = operations[first];
    let second = operations[second];
    if first.thread != second.thread || first.line == second.line {
        return false;
    }
    if second.begin >= first.end || first.begin >= second.end {
        return false;
    }
    true
}

/// Whether the operations at two indices both found what the one at the index `from` left, and each left something in its place.
fn is_fork(operations: &[Operation], from: usize, first: usize, second: usize) -> bool
    ensures { OnTrue result
        ((clock : Clock) → Contradicts clock operations.now (kinds.Fork from first second)) }
{
    if first >= operations.len() || second >= operations.len() || from >= operations.len() {
        return false;
    }
    let source = operations[from];
    let one = operations[first];
    let other = operations[second];
    let Some(read) = read_of(one.action) else {
        return false;
    };
    if one.line == other.line || !is_location(operations, read.place, read.size) {
        return false;
    }
    if !changes(read.place, one.action) || !changes(read.place, other.action) {
        return false;
    }
    if !is_reader(operations, read.place, source, one) {
        return false;
    }
    is_reader(operations, read.place, source, other)
}

/// Whether a contradiction is there as it says.
fn is_there(clock: Clock, operations: &[Operation], contradiction: &Contradiction) -> bool
    ensures { OnTrue result (Contradicts clock operations.now contradiction.now) }
{
    match contradiction {
        Contradiction::NoSource { reader, between } => has_no_source(operations, *reader, *between),
        Contradiction::Fork {
            source,
            first,
            second,
        } => is_fork(operations, *source, *first, *second),
        Contradiction::Cycle {
            place,
            size,
            values,
        } => is_cycle(operations, *place, *size, values),
        Contradiction::Backward { at } => is_backward(clock, operations, *at),
        Contradiction::OneTick { first, second } => is_one_tick(clock, operations, *first, *second),
        Contradiction::Overlap { first, second } => overlap(operations, *first, *second),
    }
}

/// Whether a contradiction is there as it says, so that with this clock no order of the operations explains the history. If not, there may be
/// one all the same.
pub fn refutes(clock: Clock, operations: &[Operation], contradiction: &Contradiction) -> bool
    ensures named { OnTrue result (Contradicts clock operations.now contradiction.now) }
    ensures no_order { OnTrue result (IsKept clock operations.now → ⊥) }
{
    is_there(clock, operations, contradiction)
}

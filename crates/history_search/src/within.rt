//! Contradictions whose operations are there.

ghost use Rattle.std.specs.Prelude.{IfOk};
ghost use Rattle.std.specs.Bool.{OnTrue};
ghost use Rattle.std.specs.List.{All};
ghost use Rattle.history_search.specs.Proposals.{IsValueWithin, IsWithin};

use history::{Contradiction, Value};
use mig_base::NoMemory;
use std::alloc::Global;

/// Whether the operations that saw a value are among the first `count`.
fn is_value_within(value: &Value, count: usize) -> bool
    ensures { OnTrue result (IsValueWithin count value.now) }
{
    value.source < count && value.early < count && value.late < count
}

/// Whether those of each value are.
fn are_values_within(values: &[Value], count: usize) -> bool
    ensures { OnTrue result (All (IsValueWithin count) values.now) }
{
    for value in values {
        if !is_value_within(value, count) {
            return false;
        }
    }
    true
}

/// Whether the operations that a contradiction names are among the first `count`.
fn is_within(contradiction: &Contradiction, count: usize) -> bool
    ensures { OnTrue result (IsWithin count contradiction.now) }
{
    match contradiction {
        Contradiction::NoSource {
            reader,
            between: None,
        } => *reader < count,
        Contradiction::NoSource {
            reader,
            between: Some(between),
        } => *reader < count && *between < count,
        Contradiction::Fork {
            source,
            first,
            second,
        } => *source < count && *first < count && *second < count,
        Contradiction::Cycle { values, .. } => are_values_within(values, count),
        Contradiction::Backward { at } => *at < count,
        Contradiction::OneTick { first, second } => *first < count && *second < count,
        Contradiction::Overlap { first, second } => *first < count && *second < count,
    }
}

/// The contradictions whose operations are among the first `count`.
pub(crate) fn keep_within(
    alloc: Global,
    found: Vec<Contradiction>,
    count: usize,
) -> Result<Vec<Contradiction>, NoMemory>
    ensures { IfOk result (λ kept. All (IsWithin count) kept.items) }
{
    let mut kept = Vec::with_capacity(alloc, found.len())?;
    for contradiction in found {
        if is_within(&contradiction, count) {
            kept.push(contradiction)?;
        }
    }
    Ok(kept)
}

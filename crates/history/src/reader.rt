//! What operations found at a location, and which operation can have left it there.

ghost use Rattle.std.specs.Prelude.{◌≡◌, ◌⊎◌, Option, Some, None, true, IfSome};
ghost use Rattle.std.specs.Bool.{OnTrue};
ghost use Rattle.std.specs.List.{All};
ghost use Rattle.history.specs.Contradictions as contradictions;
ghost use Rattle.history.specs.Contradictions.{
  Before,
  CannotGive,
  IsLocation,
  IsOnly,
  IsReader,
  Sees,
};

use crate::before::is_before;
use crate::operation::Operation;
use crate::place::{found_at, keeps_whole, leaves};
use mig_base::command::is_aligned;

/// Whether a location is aligned, and each operation is an access to the whole of it, or to none of it, or a map call.
pub(crate) fn is_location(operations: &[Operation], place: u64, size: u8) -> bool
    ensures { OnTrue result (IsLocation operations.now place size) }
{
    if !is_aligned(place, size) {
        return false;
    }
    for operation in operations {
        if !keeps_whole(place, size, operation.action) {
            return false;
        }
    }
    true
}

/// Whether an operation is the only one that may have left a value, if there is one.
fn is_only(only: Option<Operation>, source: &Operation) -> bool
    ensures { OnTrue result (IsOnly only source.now) }
{
    match only {
        Some(only) => *source == only,
        None => false,
    }
}

/// Whether `source` cannot have given `reader` what it left.
fn cannot_give(between: Option<Operation>, reader: Operation, source: &Operation) -> bool
    ensures { OnTrue result (CannotGive between reader source.now) }
{
    if is_before(&reader, source) {
        return true;
    }
    match between {
        Some(between) => is_before(source, &between),
        None => false,
    }
}

/// Whether an operation, if it left this value at an address, is the only one that may have given it to `reader`, or cannot have.
fn is_no_other(
    place: u64,
    value: u64,
    reader: Operation,
    only: Option<Operation>,
    between: Option<Operation>,
    source: &Operation,
) -> bool
    ensures { OnTrue result (contradictions.left_at place source.now.action ≡ Some (Some value) →
        IsOnly only source.now ⊎ CannotGive between reader source.now) }
{
    if !leaves(place, value, source.action) {
        return true;
    }
    is_only(only, source) || cannot_give(between, reader, source)
}

/// Whether that is so of each operation.
pub(crate) fn has_no_other(
    operations: &[Operation],
    place: u64,
    value: u64,
    reader: Operation,
    only: Option<Operation>,
    between: Option<Operation>,
) -> bool
    ensures { OnTrue result (All (λ source.
        contradictions.left_at place source.action ≡ Some (Some value) →
        IsOnly only source ⊎ CannotGive between reader source) operations.now) }
{
    for operation in operations {
        if !is_no_other(place, value, reader, only, between, operation) {
            return false;
        }
    }
    true
}

/// The source, if it comes before `reader`.
fn ended_before(source: Operation, reader: Operation) -> Option<Operation>
    ensures { IfSome result (λ it. (it ≡ source) × Before it reader) }
{
    if is_before(&source, &reader) {
        Some(source)
    } else {
        None
    }
}

/// Whether `reader` found at an address what `source` left there, and no other operation can have given it that.
pub(crate) fn is_reader(
    operations: &[Operation],
    place: u64,
    source: Operation,
    reader: Operation,
) -> bool
    ensures { OnTrue result (IsReader operations.now place source reader) }
{
    let Some(value) = found_at(place, reader.action) else {
        return false;
    };
    if !leaves(place, value, source.action) {
        return false;
    }
    let between = ended_before(source, reader);
    has_no_other(operations, place, value, reader, Some(source), between)
}

/// Whether an operation is `source`, or found what that one left and no other can have given it.
pub(crate) fn sees(
    operations: &[Operation],
    place: u64,
    source: Operation,
    member: Operation,
) -> bool
    ensures { OnTrue result (Sees operations.now place source member) }
{
    if member == source {
        return true;
    }
    is_reader(operations, place, source, member)
}

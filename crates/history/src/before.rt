//! Which of two operations comes first in each order that explains a history with both.

ghost use Rattle.std.specs.Bool.{OnTrue};
ghost use Rattle.history.specs.Histories.{IsMadeBefore};
ghost use Rattle.history.specs.Contradictions.{Before};

use crate::operation::Operation;

/// Whether the first of two operations of one thread was made before the second: it had ended when that one began. Where both have one tick for
/// all, it is on an earlier line.
pub fn is_made_before(first: &Operation, second: &Operation) -> bool
    ensures { OnTrue result (IsMadeBefore first.now second.now) }
{
    if first.end > second.begin {
        return false;
    }
    if second.end > first.begin {
        return true;
    }
    first.line < second.line
}

/// Whether an operation had ended when another began, or one thread made it before the other.
pub(crate) fn is_before(first: &Operation, second: &Operation) -> bool
    ensures { OnTrue result (Before first.now second.now) }
{
    if first.end < second.begin {
        return true;
    }
    if first.thread != second.thread {
        return false;
    }
    is_made_before(first, second)
}

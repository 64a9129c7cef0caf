//! The decision on a history.

ghost use Rattle.std.specs.Prelude.{IfOk};
ghost use Rattle.std.specs.List.{All};
ghost use Rattle.history.specs.Contradictions.{Contradicts};
ghost use Rattle.history_judge.specs.Decisions.{Decides};

use history::{Clock, Contradiction, Operation, gave_ticks, refutes};
use history_order::confirm_order;
use history_search::{Doubt, Proposal, propose, propose_shared};
use mig_base::NoMemory;
use std::alloc::Global;

/// What is known of a history.
#[derive(Drop)]
pub enum Decision {
    /// The operations are in an order that explains it.
    Kept,
    /// No order does. The contradictions that are named may not be all.
    Wrong(Vec<Contradiction>),
    /// Neither was shown. None: an order was proposed that is none.
    Undecided(Option<Doubt>),
}

/// Whether the last contradiction of the list says of the same operation that its value has no source.
fn is_named(list: &[Contradiction], contradiction: &Contradiction) -> bool {
    let Contradiction::NoSource { reader, .. } = contradiction else {
        return false;
    };
    match list.last() {
        Some(Contradiction::NoSource { reader: named, .. }) => *named == *reader,
        _ => false,
    }
}

/// The contradictions that are there, but for those of which the one before says the like.
fn keep_true(
    alloc: Global,
    clock: Clock,
    operations: &[Operation],
    proposed: Vec<Contradiction>,
) -> Result<Vec<Contradiction>, NoMemory>
    ensures { IfOk result (λ kept. All (Contradicts clock operations.now) kept.items) }
{
    let mut kept = Vec::new(alloc);
    for contradiction in proposed {
        if !is_named(&kept, &contradiction) && refutes(clock, operations, &contradiction) {
            kept.push(contradiction)?;
        }
    }
    Ok(kept)
}

/// The decision where contradictions were proposed, of which none may be there.
fn decide_wrong(
    alloc: Global,
    clock: Clock,
    operations: &[Operation],
    proposed: Vec<Contradiction>,
) -> Result<Decision, NoMemory>
    ensures { IfOk result (λ decision.
        Decides clock operations.now operations.now decision) }
{
    let kept = keep_true(alloc, clock, operations, proposed)?;
    if kept.is_empty() {
        return Ok(Decision::Undecided(None));
    }
    Ok(Decision::Wrong(kept))
}

/// Decides on a history: puts the operations into an order that explains it, or leaves them as they are and names contradictions in it.
/// `NoMemory` is returned if room is refused.
pub fn decide(
    alloc: Global,
    clock: Clock,
    operations: &mut [Operation],
) -> Result<Decision, NoMemory>
    ensures { IfOk result (λ decision. Decides clock operations.old operations.new decision) }
{
    if !gave_ticks(alloc, clock, operations)? {
        let proposed = propose_shared(alloc, clock, operations)?;
        return decide_wrong(alloc, clock, operations, proposed);
    }
    match propose(alloc, clock, operations)? {
        Proposal::Order(order) => {
            let mut order = order;
            let explains = confirm_order(alloc, operations, &mut order)?;
            if explains {
                Ok(Decision::Kept)
            } else {
                Ok(Decision::Undecided(None))
            }
        }
        Proposal::Contradictions(proposed) => decide_wrong(alloc, clock, operations, proposed),
        Proposal::Nothing(doubt) => Ok(Decision::Undecided(Some(doubt))),
    }
}

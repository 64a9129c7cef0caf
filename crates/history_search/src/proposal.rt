//! What is proposed of a history.

ghost use Rattle.std.specs.Prelude.{◌<◌, IfOk};
ghost use Rattle.std.specs.List.{All};
ghost use Rattle.history_search.specs.Proposals.{NamesThose};

use crate::accesses::{Access, Listed, call_on, list_all, pages_of, short};
use crate::chains::{Member, Placement, push_member, width_of};
use crate::clocks::clock_contradictions;
use crate::locations::{Doubt, SearchState};
use crate::tangles::take_tangles;
use crate::within::keep_within;
use history::{Clock, Contradiction, Operation, is_made_before};
use mig_base::{NoMemory, PAGE_SIZE};
use std::alloc::Global;

/// How many steps may be tried, and 16 more for each operation.
const MOST_STEPS: u64 = 2_000_000;

/// What is proposed of a history.
#[derive(Drop)]
pub enum Proposal {
    /// Its operations in an order, by their indices.
    Order(Vec<u32>),
    /// Contradictions in it. There may be more.
    Contradictions(Vec<Contradiction>),
    /// Nothing.
    Nothing(Doubt),
}

/// Adds a place for each map call that overlaps nothing: its begin.
fn place_calls(
    placed: &mut Vec<Placement>,
    operations: &[Operation],
    listed: &Listed,
) -> Result<(), NoMemory> {
    for (index, operation) in operations.iter().enumerate() {
        let index = short(index);
        if pages_of(operation.action).is_some() && listed.is_apart(index) {
            placed.push(Placement {
                place: operation.begin,
                index,
            })?;
        }
    }
    Ok(())
}

/// Adds the map call before an access as a member of its location.
fn push_call(
    members: &mut Vec<Member>,
    operations: &[Operation],
    listed: &Listed,
    access: Access,
) -> Result<(), NoMemory> {
    if access.calls == 0 {
        return Ok(());
    }
    let number = (access.calls - 1) as usize;
    match call_on(&listed.calls, number, access.addr / PAGE_SIZE) {
        Some(call) => push_member(members, operations, call.index),
        None => Ok(()),
    }
}

/// Takes the members of a location, which are removed.
fn take_members(
    alloc: Global,
    found: &mut SearchState,
    operations: &[Operation],
    members: &mut Vec<Member>,
    access: Access,
) -> Result<(), NoMemory> {
    let width = width_of(operations, access.index);
    found.take_location(alloc, operations, access.addr, width, members)?;
    members.clear();
    Ok(())
}

/// Takes each location on whose page no call overlaps an access.
fn take_locations(
    alloc: Global,
    found: &mut SearchState,
    operations: &[Operation],
    listed: &Listed,
) -> Result<(), NoMemory> {
    let mut members = Vec::new(alloc);
    let mut before: Option<Access> = None;
    for access in &listed.accesses {
        let continues = match before {
            Some(before) => before.addr == access.addr && before.calls == access.calls,
            None => false,
        };
        if !continues {
            if let Some(before) = before {
                take_members(alloc, found, operations, &mut members, before)?;
            }
            push_call(&mut members, operations, listed, *access)?;
        }
        push_member(&mut members, operations, access.index)?;
        before = Some(*access);
    }
    match before {
        Some(before) => take_members(alloc, found, operations, &mut members, before),
        None => Ok(()),
    }
}

/// The indices of what was placed, in the order of the places.
fn order_of(alloc: Global, placed: &mut Vec<Placement>, count: usize) -> Result<Vec<u32>, NoMemory>
    ensures { IfOk result (λ order. All (λ index. index < count) order.items) }
{
    placed.sort_by_key(|placed| placed.place)?;
    let mut order = Vec::with_capacity(alloc, placed.len())?;
    for placed in placed.iter() {
        if (placed.index as usize) < count {
            order.push(placed.index)?;
        }
    }
    Ok(order)
}

/// Whether the operations of each thread are in the order in which it made them.
fn keeps_threads(operations: &[Operation], order: &[u32]) -> bool {
    let mut before: [Option<Operation>; 256] = [None; 256];
    for index in order {
        let Some(operation) = operations.get(*index as usize) else {
            return false;
        };
        let Some(last) = before.get_mut(operation.thread as usize) else {
            return false;
        };
        if let Some(last) = last
            && !is_made_before(last, operation)
        {
            return false;
        }
        *last = Some(*operation);
    }
    true
}

/// Places all operations step by step. Whether an order was found.
fn place_all(
    alloc: Global,
    found: &mut SearchState,
    operations: &[Operation],
) -> Result<bool, NoMemory> {
    let mut indices = Vec::with_capacity(alloc, operations.len())?;
    for index in 0..operations.len() {
        indices.push(short(index))?;
    }
    found.placed.clear();
    found.place_steps(alloc, operations, &indices, &[])
}

/// The order in which the operations were placed. Locations are placed one after the other, and by ticks that differ the operations of a thread
/// are then as it made them. Where they are not, all are placed step by step: none if no order was found so.
fn order_of_threads(
    alloc: Global,
    clock: Clock,
    found: &mut SearchState,
    operations: &[Operation],
) -> Result<Proposal, NoMemory>
    ensures { IfOk result (λ proposal. NamesThose operations.now proposal) }
{
    let count = operations.len();
    let order = order_of(alloc, &mut found.placed, count)?;
    if clock == Clock::Counter || keeps_threads(operations, &order) {
        return Ok(Proposal::Order(order));
    }
    if !place_all(alloc, found, operations)? {
        return Ok(Proposal::Nothing(Doubt::Threads));
    }
    let order = order_of(alloc, &mut found.placed, count)?;
    Ok(Proposal::Order(order))
}

/// Takes all operations of a history. Why nothing can be proposed comes if there is a reason.
fn find(
    alloc: Global,
    found: &mut SearchState,
    operations: &[Operation],
) -> Result<Option<Doubt>, NoMemory> {
    let most = operations.len().saturating_mul(8);
    let Some(listed) = list_all(alloc, operations, most)? else {
        return Ok(Some(Doubt::Calls));
    };
    place_calls(&mut found.placed, operations, &listed)?;
    take_locations(alloc, found, operations, &listed)?;
    take_tangles(alloc, found, operations, &listed)?;
    Ok(None)
}

/// Proposes an order of the operations of a history, or contradictions in it: each names operations that are there. No tick is looked for that a
/// counter gave twice. `NoMemory` is returned if room is refused: about 50 bytes an operation are needed.
pub fn propose(alloc: Global, clock: Clock, operations: &[Operation]) -> Result<Proposal, NoMemory>
    ensures { IfOk result (λ proposal. NamesThose operations.now proposal) }
{
    let count = operations.len();
    let clocks = clock_contradictions(alloc, clock, operations)?;
    if !clocks.is_empty() {
        return Ok(Proposal::Contradictions(keep_within(alloc, clocks, count)?));
    }
    let budget = (operations.len() as u64)
        .saturating_mul(16)
        .saturating_add(MOST_STEPS);
    let mut found = SearchState::new(alloc, budget);
    if let Some(doubt) = find(alloc, &mut found, operations)? {
        return Ok(Proposal::Nothing(doubt));
    }
    if !found.contradictions.is_empty() {
        let kept = keep_within(alloc, found.contradictions, count)?;
        return Ok(Proposal::Contradictions(kept));
    }
    match found.doubt {
        Some(doubt) => Ok(Proposal::Nothing(doubt)),
        None => order_of_threads(alloc, clock, &mut found, operations),
    }
}

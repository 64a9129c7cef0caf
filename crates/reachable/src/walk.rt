//! The walk.

ghost use Rattle.std.specs.Prelude.{◌≡◌, ◌<◌, ◌++◌, [], ◌∷◌, List, IfOk, OnOk, length};
ghost use Rattle.std.specs.List.{Contains, slice_index_or};
ghost use Rattle.reachable.specs.Reachable.{AreAll, AreSound, AreFollowed, Grows, IsHashed, state_at, states_of};
ghost use Rattle.reachable.specs.declared.found.Found.{Found};

use crate::found::{Found, Reached, holds};
use crate::system::System;
use std::alloc::{AllocError, Global};

/// Why a walk ends early.
#[derive(Clone, Copy, Debug, PartialEq, Eq)]
pub enum ReachFault {
    /// There are more states than the greatest number that was asked for.
    Full,
    /// An allocation failed.
    NoMemory,
}

impl From<AllocError> for ReachFault {
    fn from(_refused: AllocError) -> Self {
        ReachFault::NoMemory
    }
}

/// Moves, and one after them.
fn with<M: Copy>(alloc: Global, path: &[M], step: M) -> Result<Vec<M>, AllocError>
    ensures { IfOk result (λ longer. longer.items ≡ path.now ++ step ∷ []) }
{
    let mut longer = Vec::from_slice(alloc, path)?;
    longer.push(step)?;
    Ok(longer)
}

/// Adds a state to which a move leads from one that was found, if it was not found before.
fn add<S, M, Y>(
    system: &Y,
    moves: &[M],
    reached: &mut Reached<S, M>,
    from: usize,
    step: M,
    new: Found<S, M>,
) -> Result<(), AllocError>
where
    S: Drop,
    M: Copy,
    Y: System<S, M>,
    requires hashed { IsHashed (Y.hash_of system.now) reached.old }
    requires from { from < length reached.old.found.items }
    requires among { Contains moves.now step }
    requires state { new.state ≡
        Y.next system.now (slice_index_or reached.old.found.items from new).state step }
    requires path { new.path.items ≡
        (slice_index_or reached.old.found.items from new).path.items ++ step ∷ [] }
    ensures hashed { OnOk result (IsHashed (Y.hash_of system.now) reached.new) }
    ensures grows { OnOk result (Grows (Y.next system.now) moves.now
        reached.old.found.items reached.new.found.items) }
    ensures there { OnOk result (Contains (states_of reached.new.found.items) new.state) }
{
    if holds(system, reached, &new.state) {
        return Ok(());
    }
    reached.hashes.push(system.hash(&new.state))?;
    reached.found.push(new)?;
    Ok(())
}

/// Follows one move from a state that was found.
fn follow_move<S, M, Y>(
    alloc: Global,
    system: &Y,
    moves: &[M],
    turn: usize,
    reached: &mut Reached<S, M>,
    from: usize,
) -> Result<(), AllocError>
where
    S: Drop,
    M: Copy,
    Y: System<S, M>,
    requires hashed { IsHashed (Y.hash_of system.now) reached.old }
    requires turn { turn < length moves.now }
    requires from { from < length reached.old.found.items }
    ensures hashed { OnOk result (IsHashed (Y.hash_of system.now) reached.new) }
    ensures grows { OnOk result (Grows (Y.next system.now) moves.now
        reached.old.found.items reached.new.found.items) }
    ensures there { OnOk result ((none : S) (by : M) →
        Contains (states_of reached.new.found.items) (Y.next system.now
        (state_at reached.old.found.items from none) (slice_index_or moves.now turn by))) }
{
    let step = moves[turn];
    match system.follow(&reached.found[from].state, step)? {
        Some(state) => {
            let path = with(alloc, &reached.found[from].path, step)?;
            add(system, moves, reached, from, step, Found { state, path })
        }
        None => Ok(()),
    }
}

/// Follows each move from a state that was found.
fn expand<S, M, Y>(
    alloc: Global,
    system: &Y,
    moves: &[M],
    reached: &mut Reached<S, M>,
    from: usize,
) -> Result<(), AllocError>
where
    S: Drop,
    M: Copy,
    Y: System<S, M>,
    requires hashed { IsHashed (Y.hash_of system.now) reached.old }
    requires from { from < length reached.old.found.items }
    ensures hashed { OnOk result (IsHashed (Y.hash_of system.now) reached.new) }
    ensures grows { OnOk result (Grows (Y.next system.now) moves.now
        reached.old.found.items reached.new.found.items) }
    ensures followed { OnOk result ((state : S) →
        AreFollowed (Y.next system.now) moves.now (states_of reached.new.found.items)
        (slice_index_or (states_of reached.old.found.items) from state ∷ [])) }
{
    for turn in 0..moves.len() {
        follow_move(alloc, system, moves, turn, reached, from)?;
    }
    Ok(())
}

/// The first state alone.
fn begin<S: Drop, M: Copy, Y: System<S, M>>(
    alloc: Global,
    system: &Y,
    first: S,
) -> Result<Reached<S, M>, AllocError>
    ensures hashed { IfOk result (IsHashed (Y.hash_of system.now)) }
    ensures sound { IfOk result (λ reached. (moves : List M) →
        AreSound (Y.next system.now) moves first reached.found.items) }
{
    let mut reached = Reached {
        found: Vec::new(alloc),
        hashes: Vec::new(alloc),
    };
    reached.hashes.push(system.hash(&first))?;
    let path = Vec::new(alloc);
    reached.found.push(Found { state: first, path })?;
    Ok(reached)
}

/// All states that these moves reach from the first one, at most `most` of them, in the order of a walk that is breadth first.
///
/// `Full` is returned where there are more states, `NoMemory` where an allocation fails.
pub fn reach<S, M, Y>(
    alloc: Global,
    system: &Y,
    moves: &[M],
    first: S,
    most: usize,
) -> Result<Reached<S, M>, ReachFault>
where
    S: Drop,
    M: Copy,
    Y: System<S, M>,
    ensures { IfOk result (λ reached.
        AreAll (Y.next system.now) moves.now first reached.found.items) }
{
    let mut reached = begin(alloc, system, first)?;
    let mut at = 0;
    while at < reached.found.len() {
        if reached.found.len() > most {
            return Err(ReachFault::Full);
        }
        expand(alloc, system, moves, &mut reached, at)?;
        at += 1;
    }
    Ok(reached)
}

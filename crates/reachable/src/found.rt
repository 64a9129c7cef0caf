//! The states that were found.

ghost use Rattle.std.specs.Prelude.{◌≡◌, ◌↔◌, ◌<◌, IsTrue, length};
ghost use Rattle.std.specs.List.{Contains, slice_index_or};
ghost use Rattle.reachable.specs.Reachable.{IsHashed, states_of};

use crate::system::System;

/// A state that was found.
#[derive(Drop)]
pub struct Found<S, M> {
    pub state: S,
    /// The moves that lead to it from the first state.
    pub path: Vec<M>,
}

/// The states that were found, in the order in which they were, and the hash of each.
#[derive(Drop)]
pub struct Reached<S, M> {
    pub found: Vec<Found<S, M>>,
    pub(crate) hashes: Vec<u64>,
}

/// Whether the state at a place is this one, which has this hash.
fn is_at<S, M, Y: System<S, M>>(
    system: &Y,
    reached: &Reached<S, M>,
    place: usize,
    hash: u64,
    state: &S,
) -> bool
    requires place { place < length reached.now.found.items }
    requires hash { hash ≡ Y.hash_of system.now state.now }
    requires hashed { IsHashed (Y.hash_of system.now) reached.now }
    ensures { IsTrue result ↔
        (slice_index_or (states_of reached.now.found.items) place state.now ≡ state.now) }
{
    reached.hashes[place] == hash && system.is_same(&reached.found[place].state, state)
}

/// Whether a state is among those found.
pub(crate) fn holds<S, M, Y: System<S, M>>(system: &Y, reached: &Reached<S, M>, state: &S) -> bool
    requires { IsHashed (Y.hash_of system.now) reached.now }
    ensures { IsTrue result ↔ Contains (states_of reached.now.found.items) state.now }
{
    let hash = system.hash(state);
    for place in 0..reached.found.len() {
        if is_at(system, reached, place, hash, state) {
            return true;
        }
    }
    false
}

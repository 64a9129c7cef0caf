//! What moves do to states.

ghost use Rattle.std.specs.Prelude.{◌≡◌, ◌↔◌, ℕ, IfOk, MatchOption, IsTrue};

use std::alloc::AllocError;

/// What moves of the kind `M` do to states of the kind `S`.
pub trait System<S, M> {
    ghost next: { Self → S → M → S };

    ghost hash_of: { Self → S → ℕ };

    /// The state after a move, in memory of its own. `None` where the move changes nothing.
    fn follow(&self, state: &S, step: M) -> Result<Option<S>, AllocError>
        ensures { IfOk result (λ followed. MatchOption followed
            (next self.now state.now step ≡ state.now)
            (λ new. new ≡ next self.now state.now step)) };

    /// Whether two states are equal.
    fn is_same(&self, state: &S, other: &S) -> bool
        ensures { IsTrue result ↔ (state.now ≡ other.now) };

    /// A number that equal states share.
    fn hash(&self, state: &S) -> u64
        ensures { result ≡ hash_of self.now state.now };
}

//! A law of what is written. The function does nothing: its contract is the law.

ghost use Rattle.std.specs.Prelude.{ℕ, ◌+◌, List, false};
ghost use Rattle.mig_model.specs.Migration.{World};
ghost use Rattle.explore.specs.Explorations.{Explored, IsScript};

/// Without answers the text is a script: each line, the comment too, is a line of it, and its run leads to the state that the exploration
/// led to.
pub fn a_script()
    ensures { (start end : World) (count : ℕ) (text : List ℕ) →
        Explored false start count end text → IsScript start end (count + 1) text }
{}

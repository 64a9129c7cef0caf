//! A law of escaped text: a function that does nothing, whose contract is the law.

ghost use Rattle.std.specs.Prelude.{◌≡◌, ℕ, List, true};
ghost use Rattle.std.specs.List.{list_all};
ghost use Rattle.diagram.specs.Escapes.{escaped};
ghost use Rattle.diagram.specs.Safe.{is_safe};

/// An escaped text has no `<`, no `>` and no `"`, and no byte that does not print.
pub fn escaped_text_is_safe()
    ensures { (text : List ℕ) → list_all is_safe (escaped text) ≡ true }
{}

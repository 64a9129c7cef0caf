//! A law about listings. The function does nothing: its contract is the law.

ghost use Rattle.std.specs.Prelude.{◌≡◌, ◌↔◌, ℕ, List, []};
ghost use Rattle.std.specs.List.{concat};
ghost use Rattle.grammar.specs.declared.line.Line.{Line as LineOf};
ghost use Rattle.grammar.specs.declared.line.Language.{Language as LanguageOf};
ghost use Rattle.grammar.specs.Lines.{Reads};
ghost use Rattle.lint.specs.Listing.{Lists};

/// Nothing is listed exactly of an input that `engine::run_script`, or `engine::check_script`, reads to its end.
pub fn nothing_listed()
    ensures { (language : LanguageOf) (name input : List ℕ) (texts : List (List ℕ)) →
        Lists language name 1 input texts [] →
        (concat texts ≡ []) ↔ ((lines : List LineOf) × Reads language input lines []) }
{}

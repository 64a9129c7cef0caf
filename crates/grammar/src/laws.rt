//! Laws of scripts and transcripts. The functions do nothing: their contracts are the laws.

ghost use Rattle.std.specs.Prelude.{◌≡◌, ◌<◌, ℕ, List, [], ◌∷◌, ◌++◌, length};
ghost use Rattle.mig_base.specs.declared.command.Entry.{Entry};
ghost use Rattle.grammar.specs.declared.order.Order.{Order};
ghost use Rattle.grammar.specs.declared.line.Line.{Line};
ghost use Rattle.grammar.specs.declared.line.Line.TheVariants.{Do, Enter};
ghost use Rattle.grammar.specs.declared.line.Language.{Language};
ghost use Rattle.grammar.specs.declared.line.Language.TheVariants.{Script, Transcript};
ghost use Rattle.grammar.specs.Words.{words_of};
ghost use Rattle.words.specs.Words.{HasNone};
ghost use Rattle.grammar.specs.Fits.{EntryFits, OrderFits};
ghost use Rattle.grammar.specs.Spelling.{HasSpelling, Spells};
ghost use Rattle.grammar.specs.Lines.{IsLine, Reads, BeginsWrong};
ghost use Rattle.grammar.specs.Texts.{entry_text, order_text};

/// Leading spaces are skipped, and a word ends at a space or at the end of the text.
pub fn words_by_spaces()
    ensures nothing { words_of [] ≡ [] }
    ensures space { (text : List ℕ) → words_of (32 ∷ text) ≡ words_of text }
    ensures last { (word : List ℕ) → 0 < length word → HasNone 32 word → words_of word ≡ word ∷ [] }
    ensures more { (word text : List ℕ) → 0 < length word → HasNone 32 word →
        words_of (word ++ 32 ∷ text) ≡ word ∷ words_of text }
{}

/// No text spells two lines of a language, so no script and no transcript has two meanings.
pub fn one_meaning()
    ensures line { (language : Language) (text : List ℕ) (a b : Line) → Spells language text a →
        Spells language text b → a ≡ b }
    ensures whole { (language : Language) (input : List ℕ) (xs ys : List Line) →
        Reads language input xs [] → Reads language input ys [] → xs ≡ ys }
    ensures fault { (language : Language) (input : List ℕ) (xs ys : List Line) (r s : List ℕ) →
        Reads language input xs r → BeginsWrong language r → Reads language input ys s →
        BeginsWrong language s → xs ≡ ys }
    ensures either { (language : Language) (input : List ℕ) (xs ys : List Line) (s : List ℕ) →
        Reads language input xs [] → Reads language input ys s → BeginsWrong language s → ⊥ }
{}

/// A line is an order or an entry exactly if its numbers fit.
pub fn what_has_a_line()
    ensures order { (order : Order) → OrderFits order → HasSpelling Script (Do order) }
    ensures no_other { (order : Order) → HasSpelling Script (Do order) → OrderFits order }
    ensures entry { (entry : Entry) → EntryFits entry → HasSpelling Transcript (Enter entry) }
    ensures no_other_entry { (entry : Entry) →
        HasSpelling Transcript (Enter entry) → EntryFits entry }
{}

/// What is printed of an order or an entry is a line, and is read as that order or entry, if any line is.
pub fn what_is_printed_is_read()
    ensures order { (order : Order) →
        HasSpelling Script (Do order) → IsLine Script (order_text order) (Do order) }
    ensures entry { (entry : Entry) →
        HasSpelling Transcript (Enter entry) → IsLine Transcript (entry_text entry) (Enter entry) }
{}

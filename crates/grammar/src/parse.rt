//! Reading a line.

ghost use Rattle.std.specs.Prelude.{◌↔◌, IsTrue, IfOk, IfSome, IfNone};
ghost use Rattle.grammar.specs.declared.line.Line.{Line as LineOf};
ghost use Rattle.grammar.specs.Words.{words_of};
ghost use Rattle.grammar.specs.Spelling.{IsNothing, Spells};

use crate::line::{Language, Line};
use crate::parse_entry::entry_in;
use crate::parse_order::order_in;
use crate::token::{Token, skip_spaces};
use mig_base::NoMemory;

/// Whether a line has nothing to do: no word, or a comment.
fn is_nothing(text: &[u8]) -> bool
    ensures { IsTrue result ↔ IsNothing (words_of text.now) }
{
    match skip_spaces(text) {
        [] => true,
        [first, ..] => *first == b'#',
    }
}

/// Reads the text of a line, without its line feed, in a language: `None` if it is not a line of it. The tokens are replaced; they only
/// keep their room from line to line. `NoMemory` is returned if room for tokens is refused.
pub fn parse(
    language: Language,
    tokens: &mut Vec<Token>,
    text: &[u8],
) -> Result<Option<Line>, NoMemory>
    ensures found { IfOk result (λ found. IfSome found (λ line. Spells language text.now line)) }
    ensures none { IfOk result (λ found.
        IfNone found ((line : LineOf) → Spells language text.now line → ⊥)) }
{
    if is_nothing(text) {
        return Ok(Some(Line::Skipped));
    }
    match language {
        Language::Script => match order_in(tokens, text)? {
            Some(order) => Ok(Some(Line::Do(order))),
            None => Ok(None),
        },
        Language::Transcript => match entry_in(tokens, text)? {
            Some(entry) => Ok(Some(Line::Enter(entry))),
            None => Ok(None),
        },
    }
}

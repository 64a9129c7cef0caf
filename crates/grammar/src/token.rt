//! The words of a line, and the tokens for which they stand.

ghost use Rattle.std.specs.Prelude.{◌≡◌, ◌≢◌, ◌<◌, ◌≤◌, List, [], Some, length, slice_get, IfOk, IfSome, IfNone};
ghost use Rattle.std.specs.Bool.{OnTrue, OnFalse};
ghost use Rattle.grammar.specs.declared.token.Token.{Token as TokenOf};
ghost use Rattle.grammar.specs.Words.{words_of, IsToken, AreTokens, FirstWord};

use crate::keyword::Keyword;
use memchr::memchr;
use mig_base::NoMemory;
use words::number;

/// A token: what a word of a line stands for.
#[derive(Clone, Copy, Debug, PartialEq, Eq)]
pub enum Token {
    Key(Keyword),
    Number(u64),
}

fn token_of(word: &[u8]) -> Option<Token>
    ensures found { IfSome result (λ token. IsToken token word.now) }
    ensures none { IfNone result ((token : TokenOf) → IsToken token word.now → ⊥) }
{
    match word {
        [b'0'..=b'9', ..] => Some(Token::Number(number(word)?)),
        _ => Some(Token::Key(Keyword::from_text(word)?)),
    }
}

/// The text without leading spaces.
pub fn skip_spaces(text: &[u8]) -> &[u8]
    ensures words { words_of result.now ≡ words_of text.now }
    ensures front { slice_get result.now 0 ≢ Some 32 }
    ensures shorter { length result.now ≤ length text.now }
{
    let mut rest = text;
    while let [b' ', behind @ ..] = rest {
        rest = behind;
    }
    rest
}

/// The first word of a text, and what comes after it; `None` if there is no word.
pub fn next_word(text: &[u8]) -> Option<(&[u8], &[u8])>
    ensures found { IfSome result (λ parts. FirstWord text.now parts.0.now parts.1.now) }
    ensures none { IfNone result (words_of text.now ≡ []) }
{
    let rest = skip_spaces(text);
    if rest.is_empty() {
        return None;
    }
    match memchr(b' ', rest) {
        Some(end) => Some(rest.split_at(end)),
        None => Some((rest, &[])),
    }
}

/// Replaces the tokens by those of the words of a text. Stops with false at a word that stands for none, and with `NoMemory` if room is
/// refused; the tokens before it stay.
pub fn read_tokens(tokens: &mut Vec<Token>, text: &[u8]) -> Result<bool, NoMemory>
    ensures found { IfOk result (λ found.
        OnTrue found (AreTokens tokens.new.items (words_of text.now))) }
    ensures none { IfOk result (λ found.
        OnFalse found ((tokens : List TokenOf) → AreTokens tokens (words_of text.now) → ⊥)) }
{
    tokens.clear();
    let mut rest = text;
    while let Some((word, behind)) = next_word(rest) {
        let Some(token) = token_of(word) else {
            return Ok(false);
        };
        let Ok(()) = tokens.push(token) else {
            return Err(NoMemory);
        };
        rest = behind;
    }
    Ok(true)
}

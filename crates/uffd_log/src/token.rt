//! The words of a line, and the tokens for which they stand.

ghost use Rattle.std.specs.Prelude.{◌≡◌, ◌+◌, ◌<◌, ℕ, List, length, take, drop, IfOk, IfSome, IfNone};
ghost use Rattle.std.specs.Bool.{OnTrue, OnFalse};
ghost use Rattle.uffd_log.specs.declared.token.Token.{Token as TokenOf};
ghost use Rattle.uffd_log.specs.declared.call.Descriptor.{Descriptor as DescriptorOf};
ghost use Rattle.uffd_log.specs.Words.{words_of, IsMinus, IsDescriptor, IsToken, AreTokens};

use crate::call::Descriptor;
use crate::keyword::Keyword;
use foundation::NoMemory;
use memchr::memchr;
use words::number;

/// A token: the meaning of a word of a line.
#[derive(Clone, Copy)]
pub enum Token {
    Key(Keyword),
    Number(u64),
    /// A minus sign, and a number.
    Minus(u64),
    On(Descriptor),
    /// The name of an error without a keyword: a word that begins with E.
    Error,
    /// Any other word.
    Text,
}

/// The bytes before a place, and those after it.
fn around(text: &[u8], at: usize) -> (&[u8], &[u8])
    requires { at < length text.now }
    ensures front { result.0.now ≡ take at text.now }
    ensures back { result.1.now ≡ drop (at + 1) text.now }
{
    (&text[..at], &text[at + 1..])
}

/// The number after a minus sign.
fn minus(word: &[u8]) -> Option<u64>
    ensures found { IfSome result (λ n. IsMinus word.now n) }
    ensures none { IfNone result ((n : ℕ) → IsMinus word.now n → ⊥) }
{
    match word {
        [b'-', ..] => number(around(word, 0).1),
        _ => None,
    }
}

/// The descriptor that a word spells: two numbers with a colon between them, of which the second fits an `int`.
fn descriptor(word: &[u8]) -> Option<Descriptor>
    ensures found { IfSome result (λ on. IsDescriptor word.now on) }
    ensures none { IfNone result ((on : DescriptorOf) → IsDescriptor word.now on → ⊥) }
{
    let at = memchr(b':', word)?;
    let (object, fd) = around(word, at);
    let object = number(object)?;
    let fd = number(fd)?;
    if fd < 1 << 31 {
        return Some(Descriptor {
            object,
            fd: fd as u32,
        });
    }
    None
}

/// The token of a word; `None` if it is empty.
fn token_of(word: &[u8]) -> Option<Token>
    ensures found { IfSome result (λ token. IsToken token word.now) }
    ensures none { IfNone result ((token : TokenOf) → IsToken token word.now → ⊥) }
{
    if word.is_empty() {
        return None;
    }
    if let Some(n) = number(word) {
        return Some(Token::Number(n));
    }
    if let Some(on) = descriptor(word) {
        return Some(Token::On(on));
    }
    if let Some(n) = minus(word) {
        return Some(Token::Minus(n));
    }
    if let Some(keyword) = Keyword::from_text(word) {
        return Some(Token::Key(keyword));
    }
    match word {
        [b'E', ..] => Some(Token::Error),
        _ => Some(Token::Text),
    }
}

/// Replaces the tokens by those of the words of a text. Stops with false at an empty word, and with `NoMemory` if room is refused; the
/// tokens before it stay.
pub fn read_tokens(tokens: &mut Vec<Token>, text: &[u8]) -> Result<bool, NoMemory>
    ensures found { IfOk result (λ found.
        OnTrue found (AreTokens tokens.new.items (words_of text.now))) }
    ensures none { IfOk result (λ found.
        OnFalse found ((tokens : List TokenOf) → AreTokens tokens (words_of text.now) → ⊥)) }
{
    tokens.clear();
    let mut rest = text;
    while let Some(end) = memchr(b' ', rest) {
        let (word, behind) = around(rest, end);
        let Some(token) = token_of(word) else {
            return Ok(false);
        };
        let Ok(()) = tokens.push(token) else {
            return Err(NoMemory);
        };
        rest = behind;
    }
    let Some(token) = token_of(rest) else {
        return Ok(false);
    };
    match tokens.push(token) {
        Ok(()) => Ok(true),
        Err(_) => Err(NoMemory),
    }
}

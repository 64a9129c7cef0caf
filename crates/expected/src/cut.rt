//! Where the answer of a line begins.

ghost use Rattle.std.specs.Prelude.{◌≡◌, ℕ, List, IfSome, IfNone};
ghost use Rattle.expected.specs.Cases.{Cut};

use memchr::memmem;

/// What is between an order and its answer.
pub(crate) const ARROW: &[u8] = b" => ";

/// What is before the first arrow of a text, and what is after it.
pub(crate) fn split_answer(text: &[u8]) -> Option<(&[u8], &[u8])>
    ensures found { IfSome result (λ parts. Cut text.now parts.0.now parts.1.now) }
    ensures none { IfNone result ((front answer : List ℕ) → Cut text.now front answer → ⊥) }
{
    let at = memmem::find(text, ARROW)?;
    Some((&text[..at], &text[at + ARROW.len()..]))
}

/// The part of a line of a test that is to be an order, if the line has an answer: what is before its first ` => `, or else all of it.
pub fn order_part(text: &[u8]) -> &[u8]
    ensures cut { (front answer : List ℕ) → Cut text.now front answer → result.now ≡ front }
    ensures whole { ((front answer : List ℕ) → Cut text.now front answer → ⊥) →
        result.now ≡ text.now }
{
    match split_answer(text) {
        Some((front, _)) => front,
        None => text,
    }
}

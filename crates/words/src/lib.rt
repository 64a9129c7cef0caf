//! The words of lines that several languages share: numbers, and what the tokens of a line are.
//!
//! A language has its keywords and its tokens, and says where its words end; a number is written alike in all. `proofs/` has what is
//! common to readers of tokens.
#![tactic(auto)]

ghost use Rattle.std.specs.Prelude.{◌<◌, ◌≤◌, ◌^◌, ℕ, IfSome, IfNone};
ghost use Rattle.std.specs.Option.{SomeIff};
ghost use Rattle.std.specs.Str.Parse.{AllDigits, digits_value};
ghost use Rattle.words.specs.Words.{IsNumber};

/// The number that digits in a radix write, if it is below 2^64.
fn digits(text: &[u8], radix: u32) -> Option<u64>
    requires low { 2 ≤ radix }
    requires high { radix ≤ 36 }
    ensures { SomeIff result (AllDigits radix text.now ×
        (digits_value radix text.now < 2 ^ 64)) (digits_value radix text.now) }
{
    let mut value: u64 = 0;
    for byte in text {
        let digit = char::from(*byte).to_digit(radix)?;
        value = value
            .checked_mul(u64::from(radix))?
            .checked_add(u64::from(digit))?;
    }
    Some(value)
}

/// The number that a word writes: up to 20 decimal digits, or `0x` and up to 16 hexadecimal ones. `None` if it writes none below 2^64.
pub fn number(word: &[u8]) -> Option<u64>
    ensures found { IfSome result (λ n. IsNumber word.now n) }
    ensures none { IfNone result ((n : ℕ) → IsNumber word.now n → ⊥) }
{
    match word {
        [b'0', b'x', text @ ..] if !text.is_empty() && text.len() <= 16 => digits(text, 16),
        [b'0', b'x', ..] => None,
        _ if word.is_empty() || word.len() > 20 => None,
        _ => digits(word, 10),
    }
}

//! What is wrong with a number.

ghost use Rattle.std.specs.Prelude.{◌≤◌};

use crate::wanted::Wanted;
use mig_base::{HIGH, MAX_RUN, PAGE_SIZE};

/// What is wrong with a number.
#[derive(Clone, Copy)]
pub(crate) enum NumberFault {
    /// What this says.
    Plain(&'static str),
    /// This byte is not a digit of it.
    Digit { byte: u8, radix: u32 },
    /// It has this number of digits.
    Digits { count: usize, radix: u32 },
    /// It is outside what is wanted in its place.
    Range(Wanted),
}

/// The number that digits in a radix write, at most `most` of them.
fn digits(text: &[u8], radix: u32, most: usize) -> Result<u64, NumberFault>
    requires low { 2 ≤ radix }
    requires high { radix ≤ 36 }
{
    let mut value: Option<u64> = Some(0);
    for byte in text {
        let Some(digit) = char::from(*byte).to_digit(radix) else {
            return Err(NumberFault::Digit { byte: *byte, radix });
        };
        value = match value {
            Some(value) => pushed(value, radix, digit),
            None => None,
        };
    }
    if text.len() > most {
        return Err(NumberFault::Digits {
            count: text.len(),
            radix,
        });
    }
    value.ok_or(NumberFault::Plain("is out of range: numbers are below 2^64"))
}

/// The number with one more digit, if it is below 2^64.
fn pushed(value: u64, radix: u32, digit: u32) -> Option<u64> {
    value
        .checked_mul(u64::from(radix))?
        .checked_add(u64::from(digit))
}

/// The number that a word spells.
fn value_of(word: &[u8]) -> Result<u64, NumberFault> {
    match word {
        [b'-' | b'+', ..] => Err(NumberFault::Plain("has a sign: numbers have none")),
        [b'0', b'X', ..] => Err(NumberFault::Plain("has a capital X: write `0x`")),
        [b'0', b'x'] => Err(NumberFault::Plain("has no digits")),
        [b'0', b'x', text @ ..] => digits(text, 16, 16),
        _ => digits(word, 10, 20),
    }
}

/// Why a number is outside what is wanted.
fn range_fault(value: u64, wanted: Wanted) -> Option<NumberFault> {
    let fits = match wanted {
        Wanted::Cpu | Wanted::Width => value <= 255,
        Wanted::Count => value >= 1 && value <= u64::from(MAX_RUN),
        Wanted::Epoch => value <= u64::from(u32::MAX),
        Wanted::Page if value % PAGE_SIZE != 0 => {
            return Some(NumberFault::Plain("is not a multiple of 4096"));
        }
        Wanted::Page if value >= HIGH => {
            return Some(NumberFault::Plain("is beyond the pages: they lie below 0x100000000"));
        }
        _ => true,
    };
    if fits {
        None
    } else {
        Some(NumberFault::Range(wanted))
    }
}

/// Whether a word is written to be a number.
pub(crate) fn is_meant(word: &[u8]) -> bool {
    match word {
        [b'0'..=b'9' | b'-' | b'+', ..] => true,
        _ => false,
    }
}

/// Why a word is not a number that is wanted.
pub(crate) fn number_fault(word: &[u8], wanted: Wanted) -> Option<NumberFault> {
    match value_of(word) {
        Ok(value) => range_fault(value, wanted),
        Err(fault) => Some(fault),
    }
}

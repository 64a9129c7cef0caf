//! Texts in parts.

use crate::state::{Counts, State};
use mig_base::refusal::Refusal;
use std::alloc::AllocError;

/// A place: how far to the right, and how far down, in tenths of a pixel.
pub(crate) type Place = (u64, u64);

/// A part of a text.
#[derive(Clone, Copy)]
pub(crate) enum Part<'a> {
    Nothing,
    Words(&'a str),
    Number(u32),
    Tick(u64),
    /// A number of things, and what they are: with an s after it unless there is one.
    Count(u32, &'a str),
    /// A page, as its address.
    Page(u32),
    /// The number of pages that follow the first, if any do: this number includes the first.
    More(u32),
    /// A length in tenths of a pixel.
    Length(u64),
    /// A place, as its two lengths.
    At(Place),
    /// Why a line was refused.
    Refused(Refusal),
    /// The steps of a wait by state.
    Sum(&'a Counts),
}

/// Adds a length.
fn push_length(text: &mut String, length: u64) -> Result<(), AllocError> {
    let whole = length / 10;
    let tenth = length % 10;
    if tenth == 0 {
        return write!(text, "{whole}");
    }
    write!(text, "{whole}.{tenth}")
}

/// Adds a number of things.
fn push_count(text: &mut String, count: u32, what: &str) -> Result<(), AllocError> {
    write!(text, "{count} {what}")?;
    if count == 1 {
        return Ok(());
    }
    text.push('s')
}

/// Adds the steps of each state, as a sum after what they sum to.
fn push_sum(text: &mut String, counts: &Counts) -> Result<(), AllocError> {
    let mut sign = "=";
    for state in State::WAITS {
        let steps = counts.of(state);
        if steps > 0 {
            let word = state.look().part;
            write!(text, " {sign} {word} {steps}")?;
            sign = "+";
        }
    }
    Ok(())
}

/// Adds a part to a text.
fn push(text: &mut String, part: Part) -> Result<(), AllocError> {
    match part {
        Part::Words(words) => text.push_str(words),
        Part::Number(number) => write!(text, "{number}"),
        Part::Tick(tick) => write!(text, "{tick}"),
        Part::Count(count, what) => push_count(text, count, what),
        Part::Page(page) => {
            let addr = u64::from(page) * 4096;
            write!(text, "0x{addr:x}")
        }
        Part::More(pages) if pages > 1 => {
            let more = pages - 1;
            write!(text, " +{more}")
        }
        Part::More(_) | Part::Nothing => Ok(()),
        Part::Length(length) => push_length(text, length),
        Part::At(place) => {
            push_length(text, place.0)?;
            text.push(' ')?;
            push_length(text, place.1)
        }
        Part::Refused(refusal) => write!(text, "{refusal}"),
        Part::Sum(counts) => push_sum(text, counts),
    }
}

/// Adds parts to a text.
pub(crate) fn push_all(text: &mut String, parts: &[Part]) -> Result<(), AllocError> {
    for part in parts {
        push(text, *part)?;
    }
    Ok(())
}

/// How wide a text of `len` bytes is, at a size in tenths of a pixel: an estimate for wide fonts.
pub(crate) fn width_of(len: usize, size: u64) -> u64 {
    (len as u64).saturating_mul(size).saturating_mul(3) / 5
}

//! What is wrong with the lines of a text.

ghost use Rattle.std.specs.Prelude.{◌≡◌, ◌⊎◌, ℕ, List, [], IfOk, IfSome, IfNone, codes};
ghost use Rattle.std.specs.declared.option.Option.TheVariants.{Some as Just};
ghost use Rattle.lint.specs.Listing.{ListsAll};
ghost use Rattle.postmig_c.specs.Reasons.{IsLine, IsReason, language_for};
ghost use Rattle.postmig_c.specs.Room.{Fills, IsTooLong};

use crate::room::hand_over;
use crate::status::{DONE, NO_MEMORY, NOT_A_LINE};
use engine::script_reader::MAX_LINE;
use grammar::Language;
use grammar::parse::parse;
use lines::first_line;
use lint::{Listed, Reason, lint_lines, reason_of};
use mig_base::NoMemory;
use std::alloc::Global;

/// The language of transcripts, or that of scripts.
fn language_for(is_transcript: bool) -> Language
    ensures { result ≡ language_for is_transcript }
{
    if is_transcript {
        Language::Transcript
    } else {
        Language::Script
    }
}

/// Why a text is not a line; none if it is one.
fn reason_in(
    alloc: Global,
    is_transcript: bool,
    text: &[u8],
) -> Result<Option<Reason<'_>>, NoMemory>
    ensures right { IfOk result (λ found. IfNone found (IsLine is_transcript text.now)) }
    ensures wrong { IfOk result (λ found.
        IfSome found (λ reason. IsLine is_transcript text.now → ⊥)) }
{
    let language = language_for(is_transcript);
    if text.len() > MAX_LINE {
        return Ok(Some(reason_of(text, language)));
    }
    let mut tokens = Vec::new(alloc);
    match parse(language, &mut tokens, text)? {
        Some(_) => Ok(None),
        None => Ok(Some(reason_of(text, language))),
    }
}

/// Writes a reason.
fn write_reason(alloc: Global, reason: &Reason, out: &mut [u8], written: &mut usize) -> u32
    ensures told { result ≡ 3 →
        (text : List ℕ) × IsReason text × Fills text written.new out.new }
    ensures long { result ≡ 1 →
        (text : List ℕ) × IsReason text × IsTooLong text written.new out.new }
    ensures range { (result ≡ 1) ⊎ (result ≡ 3) ⊎ (result ≡ 4) }
{
    let mut text = String::new(alloc);
    if write!(text, "{reason}").is_err() {
        return NO_MEMORY;
    }
    match hand_over(first_line(text.as_bytes()), out, written) {
        DONE => NOT_A_LINE,
        status => status,
    }
}

/// Says why a text, without a line feed, is not a line of a script or of a transcript: `NOT_A_LINE`, and its reason is written, whose place
/// is at `column`, in bytes from 1. `DONE` if the text is a line; then nothing is written. If `out` is too short `written` is the length
/// that is needed.
#[unsafe(no_mangle)]
pub extern "C" fn postmig_line_reason(
    alloc: Global,
    is_transcript: bool,
    line: &[u8],
    column: &mut usize,
    out: &mut [u8],
    written: &mut usize,
) -> u32
    ensures line { result ≡ 0 → IsLine is_transcript line.now × (written.new ≡ 0) }
    ensures no_line { (result ≡ 1) ⊎ (result ≡ 3) → IsLine is_transcript line.now → ⊥ }
    ensures told { result ≡ 3 →
        (text : List ℕ) × IsReason text × Fills text written.new out.new }
    ensures long { result ≡ 1 →
        (text : List ℕ) × IsReason text × IsTooLong text written.new out.new }
    ensures range { (result ≡ 0) ⊎ (result ≡ 1) ⊎ (result ≡ 3) ⊎ (result ≡ 4) }
{
    match reason_in(alloc, is_transcript, line) {
        Ok(Some(reason)) => {
            *column = reason.column;
            write_reason(alloc, &reason, out, written)
        }
        Ok(None) => {
            *written = 0;
            DONE
        }
        Err(NoMemory) => NO_MEMORY,
    }
}

/// Lists the wrong lines of a whole script or transcript in `out`, as `postmig lint` does of standard input, and says whether there are
/// none. If `out` is too short `written` is the length that is needed.
#[unsafe(no_mangle)]
pub extern "C" fn postmig_lint(
    alloc: Global,
    is_transcript: bool,
    text: &[u8],
    is_clean: &mut bool,
    out: &mut [u8],
    written: &mut usize,
) -> u32
    ensures ok { result ≡ 0 →
        (listing : List ℕ) × ListsAll (language_for is_transcript) (codes "-") text.now
        is_clean.new (Just []) (Just listing) × Fills listing written.new out.new }
    ensures long { result ≡ 1 →
        (listing : List ℕ) × ListsAll (language_for is_transcript) (codes "-") text.now
        is_clean.new (Just []) (Just listing) × IsTooLong listing written.new out.new }
    ensures range { (result ≡ 0) ⊎ (result ≡ 1) ⊎ (result ≡ 4) }
{
    let mut reader = text;
    let mut listing = Vec::new(alloc);
    let language = language_for(is_transcript);
    let listed = Listed {
        name: "-",
        language,
    };
    match lint_lines(alloc, &mut reader, &mut listing, listed) {
        Ok(answer) => {
            *is_clean = answer;
            hand_over(&listing, out, written)
        }
        Err(_) => NO_MEMORY,
    }
}

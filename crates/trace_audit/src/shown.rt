//! What an audit says of the log that a trace was converted to, with the lines of the trace in place of the log's.

ghost use Rattle.std.specs.Prelude.{◌≡◌, ◌++◌, ◌∷◌, ◌-◌, ◌≤◌, ◌^◌, false, true, min, length, slice_index, OnOk, IfOk, IfSome, IfNone, MatchOption};
ghost use Rattle.std.specs.List.{before_first, position_or_len};
ghost use Rattle.std.specs.Str.Parse.{digits_value};
ghost use Rattle.trace_audit.specs.ShownText.{HasNo, is_no_digit, is_of_log, names_line, shown_line, shown_one, shown_said, shown_text, shown_word};

use foundation::NoMemory;
use memchr::memchr;
use std::alloc::Global;
use std::fmt::Write;

/// The bytes before the first of these bytes, and those after it.
pub(crate) fn split_at_byte(text: &[u8], byte: u8) -> Option<(&[u8], &[u8])>
    ensures front { IfSome result (λ parts. HasNo byte parts.0.now) }
    ensures whole { IfSome result (λ parts. text.now ≡ parts.0.now ++ byte ∷ parts.1.now) }
    ensures none { IfNone result (HasNo byte text.now) }
{
    let end = memchr(byte, text)?;
    Some((&text[..end], &text[end + 1..]))
}

/// The number that the digits at the front of a word write, or the most that there is, and how many digits these are.
fn number_at(word: &[u8]) -> (usize, usize)
    ensures len { result.1 ≡ position_or_len is_no_digit word.now }
    ensures number { result.0 ≡
        min (digits_value 10 (before_first is_no_digit word.now)) (2 ^ 64 - 1) }
{
    let mut number: usize = 0;
    for (at, byte) in word.iter().enumerate() {
        let digit = match *byte {
            digit @ b'0'..=b'9' => digit - b'0',
            _ => return (number, at),
        };
        number = number.saturating_mul(10).saturating_add(usize::from(digit));
    }
    (number, word.len())
}

/// The line of the trace that a line of the log comes from.
fn line_at(lines: &[u64], number: usize) -> Option<u64>
    ensures { MatchOption result (is_of_log lines.now number ≡ false) (λ line.
        (is_of_log lines.now number ≡ true) × (line ≡ slice_index lines.now (number - 1))) }
{
    lines.get(number.checked_sub(1)?).copied()
}

/// Adds a word, with the number at its front as that of the trace's line.
fn add_number(
    output: &mut Vec<u8>,
    text: &mut String,
    word: &[u8],
    lines: &[u64],
) -> Result<(), NoMemory>
    ensures { OnOk result
        (output.new.items ≡ output.old.items ++ shown_word lines.now word.now) }
{
    let (number, len) = number_at(word);
    let (digits, rest) = word.split_at(len);
    match line_at(lines, number) {
        Some(line) => {
            text.clear();
            write!(text, "{line}")?;
            output.extend_from_slice(text.as_bytes())?;
        }
        None => output.extend_from_slice(digits)?,
    }
    output.extend_from_slice(rest)?;
    Ok(())
}

/// Whether the number of a line comes after a word.
fn names_line(word: &[u8]) -> bool
    ensures { result ≡ names_line word.now }
{
    word == b"line".as_slice() || word == b"\"line\":".as_slice()
}

/// Adds words, of which the first may have the number of a line.
fn add_words(
    output: &mut Vec<u8>,
    text: &mut String,
    said: &[u8],
    lines: &[u64],
    is_number: bool,
) -> Result<(), NoMemory>
    ensures { OnOk result
        (output.new.items ≡ output.old.items ++ shown_said lines.now is_number said.now) }
{
    let mut rest = said;
    let mut is_next = is_number;
    while let Some((word, behind)) = split_at_byte(rest, b' ') {
        add_word(output, text, word, lines, is_next)?;
        output.push(b' ')?;
        is_next = names_line(word);
        rest = behind;
    }
    add_word(output, text, rest, lines, is_next)
}

/// Adds a word, which may have the number of a line.
fn add_word(
    output: &mut Vec<u8>,
    text: &mut String,
    word: &[u8],
    lines: &[u64],
    is_number: bool,
) -> Result<(), NoMemory>
    ensures { OnOk result
        (output.new.items ≡ output.old.items ++ shown_one lines.now is_number word.now) }
{
    if is_number {
        return add_number(output, text, word, lines);
    }
    output.extend_from_slice(word)?;
    Ok(())
}

/// Adds a line. That of a finding begins with a colon, and gets its name.
fn add_line(
    output: &mut Vec<u8>,
    text: &mut String,
    name: &str,
    line: &[u8],
    lines: &[u64],
) -> Result<(), NoMemory>
    ensures { OnOk result
        (output.new.items ≡ output.old.items ++ shown_line name.now lines.now line.now) }
{
    match line {
        [b':', said @ ..] => {
            output.extend_from_slice(name.as_bytes())?;
            output.push(b':')?;
            add_words(output, text, said, lines, true)
        }
        _ => add_words(output, text, line, lines, false),
    }
}

/// What an audit said under the empty name, with this name and the lines of the trace. Line N of the log comes from line `lines[N - 1]`.
pub(crate) fn show(
    alloc: Global,
    name: &str,
    said: &[u8],
    lines: &[u64],
) -> Result<Vec<u8>, NoMemory>
    ensures { IfOk result (λ shown. shown.items ≡ shown_text name.now lines.now said.now) }
{
    let mut output = Vec::new(alloc);
    let mut text = String::new(alloc);
    let mut rest = said;
    while let Some((line, behind)) = split_at_byte(rest, b'\n') {
        add_line(&mut output, &mut text, name, line, lines)?;
        output.push(b'\n')?;
        rest = behind;
    }
    add_line(&mut output, &mut text, name, rest, lines)?;
    Ok(output)
}

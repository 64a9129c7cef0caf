//! Bytes that no line has, or that look like others.

use crate::problem::Problem;
use crate::reason::Fault;

const UTF16: Problem = Problem::Plain("UTF-16: save the file as ASCII");

/// What is wrong with the first byte of these, if it is not printable ASCII.
fn problem_at(bytes: &[u8]) -> Option<Problem> {
    let text = match bytes {
        [b' '..=b'~', ..] | [] => return None,
        [0xef, 0xbb, 0xbf, ..] => "a byte order mark: save the file without it",
        [0xff, 0xfe, ..] | [0xfe, 0xff, ..] => return Some(UTF16),
        [0xc2, 0xa0, ..] => "a non-breaking space is not a space",
        [b'\t', ..] => "a tab is not a space",
        [b'\r', ..] => "a carriage return that is not right before a line feed",
        [0, ..] => "a NUL byte is not printable ASCII",
        [byte, ..] => return Some(Problem::Byte(*byte)),
    };
    Some(Problem::Plain(text))
}

/// Whether a line is UTF-16 without a mark: its first byte or its second is NUL.
fn is_utf16(line: &[u8]) -> bool {
    match line {
        [0, b' '..=b'~', ..] | [b' '..=b'~', 0, ..] => true,
        _ => false,
    }
}

/// The first byte of a line that is not printable ASCII. A comment after the line is not looked at.
pub(crate) fn byte_fault(line: &[u8]) -> Option<Fault> {
    if is_utf16(line) {
        return Some(Fault::at(1, UTF16));
    }
    let mut rest = line;
    let mut column: usize = 1;
    for _ in 0..line.len() {
        if let Some(problem) = problem_at(rest) {
            return Some(Fault::at(column, problem));
        }
        match rest {
            [b' ', b'#', ..] | [] => return None,
            [_, behind @ ..] => rest = behind,
        }
        column = column.saturating_add(1);
    }
    None
}

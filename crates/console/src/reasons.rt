//! What is wrong with the line at which a command ended.

use crate::bounded::{Bounded, LONGEST_LISTED};
use crate::paint::{Painted, paint_for};
use engine::script_reader::MAX_LINE;
use expected::order_part;
use grammar::parse::parse;
use grammar::{Language, Token};
use lines::Lines;
use lint::{Listed, lint_lines, reason_of};
use std::fs::File;
use std::io::{Read, Stderr, Write};
use std::{fs, io};
use streams::{Given, gives_reasons};

/// What is wrong with a line of a test where a comment or nothing is in place of its order.
const NO_ORDER: &str = "no order stands before the answer, or N of `# cpus N` is not 1 to 16";

/// A writer of one line on standard error. It takes no byte after that line.
#[derive(Drop)]
struct OneLine {
    stderr: Stderr,
    has_ended: bool,
}

impl Write for OneLine {
    fn write(&mut self, buf: &[u8]) -> io::Result<usize> {
        if self.has_ended {
            return Ok(0);
        }
        let Some(line) = Lines::new(buf).next() else {
            return Ok(0);
        };
        let count = self.stderr.write(line.whole)?;
        self.has_ended = line.ended && count == line.whole.len();
        Ok(count)
    }

    fn flush(&mut self) -> io::Result<()> {
        self.stderr.flush()
    }
}

/// Opens a FILE once more. None if it is not a regular file: what a pipe had is gone.
fn open_again(rt: &HostRuntime, name: &str) -> Option<File> {
    match fs::metadata(rt, name) {
        Ok(found) if found.is_file() => File::open(rt, name).ok(),
        _ => None,
    }
}

/// Says on standard error what is wrong with the first wrong line of FILE, where a run or a check ended at one; with `--explain` and at a
/// terminal it says so of all of them.
pub(crate) fn say_wrong_lines(rt: &HostRuntime, given: Given<'_>, language: Language) {
    let Some(name) = given.file else {
        return;
    };
    let Some(file) = open_again(rt, name) else {
        return;
    };
    let mut file = Bounded::new(file, LONGEST_LISTED);
    let listed = Listed { name, language };
    if gives_reasons(rt, given) {
        let stderr = rt.stderr();
        let paint = paint_for(rt, &stderr);
        let mut painted = Painted::new(stderr, paint);
        let _ = lint_lines(rt.alloc(), &mut file, &mut painted, listed);
        return;
    }
    let mut one = OneLine {
        stderr: rt.stderr(),
        has_ended: false,
    };
    let _ = lint_lines(rt.alloc(), &mut file, &mut one, listed);
}

/// Writes what is wrong with a line of a test. The tokens are replaced.
pub(crate) fn write_reason<W: Write>(
    writer: &mut W,
    tokens: &mut Vec<Token>,
    name: &str,
    number: u64,
    line: &[u8],
) -> io::Result<()> {
    let order = if line.len() > MAX_LINE {
        line
    } else {
        order_part(line)
    };
    match parse(Language::Script, tokens, order) {
        Ok(Some(_)) => write!(writer, "{name}:{number}:1: {NO_ORDER}\n")?,
        _ => {
            let reason = reason_of(order, Language::Script);
            let column = reason.column;
            write!(writer, "{name}:{number}:{column}: {reason}\n")?;
        }
    }
    Ok(())
}

/// Says on standard error what is wrong with the line of a FILE at which a test ended.
pub fn say_wrong_line(rt: &HostRuntime, name: &str, number: u64) {
    let Some(file) = open_again(rt, name) else {
        return;
    };
    let mut text = Vec::new(rt.alloc());
    if Bounded::new(file, LONGEST_LISTED)
        .read_to_end(&mut text)
        .is_err()
    {
        return;
    }
    if let Some(line) = Lines::new(&text).find(|line| line.number == number) {
        let mut tokens = Vec::new(rt.alloc());
        let _ = write_reason(&mut rt.stderr(), &mut tokens, name, number, line.text());
    }
}

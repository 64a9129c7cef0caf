//! Why a line is wrong, and where.

use crate::bytes::byte_fault;
use crate::line_words::Word;
use crate::output::is_output;
use crate::problem::{Problem, Shown, case_of};
use crate::walk::{entry_fault, order_fault};
use grammar::Language;
use std::fmt;

/// What is wrong with a line, and where.
#[derive(Clone, Copy)]
pub(crate) struct Fault {
    column: usize,
    /// How many bytes the word has that is wrong, if it is a word.
    len: usize,
    problem: Problem,
}

impl Fault {
    /// A problem at a column.
    pub(crate) fn at(column: usize, problem: Problem) -> Fault {
        Fault {
            column,
            len: 0,
            problem,
        }
    }

    /// A problem of a word.
    pub(crate) fn of(word: Word<'_>, problem: Problem) -> Fault {
        Fault {
            column: word.column,
            len: word.text.len(),
            problem,
        }
    }
}

/// Why a line is wrong, and where. It is printed without a line feed.
#[derive(Clone, Copy)]
pub struct Reason<'a> {
    /// The column of the byte where the reason is, counted in bytes from 1.
    pub column: usize,
    word: &'a [u8],
    problem: Problem,
}

impl fmt::Display for Reason<'_> {
    fn fmt<W: fmt::Write>(&self, f: &mut fmt::Formatter<W>) -> fmt::Result {
        let word = Shown(self.word);
        match self.problem {
            Problem::Plain(text) => write!(f, "{text}"),
            Problem::TooLong(len) => {
                write!(f, "a line has at most 256 bytes, and this one has {len}")
            }
            Problem::Byte(byte) => write!(f, "the byte 0x{byte:02x} is not printable ASCII"),
            Problem::Number(fault) => write!(f, "{word} {fault}"),
            Problem::Case(right) => {
                let rule = case_of(right);
                write!(f, "write `{right}`, not {word}: {rule}")
            }
            Problem::Unexpected(wanted) => {
                let phrase = wanted.phrase();
                write!(f, "{word} is not {phrase}")
            }
            Problem::Near {
                wanted,
                front,
                near,
            } => {
                let phrase = wanted.phrase();
                write!(f, "{word} is not {phrase}: did you mean `{front}{near}`?")
            }
            Problem::Missing { wanted, usage } => {
                let name = wanted.name();
                write!(f, "{name} is missing: {usage}")
            }
            Problem::Extra(usage) => write!(f, "{word} is a word too many: {usage}"),
            Problem::Order { text, usage } => write!(f, "{text}: {usage}"),
        }
    }
}

/// The `len` bytes of a line from a column on.
fn word_at(line: &[u8], column: usize, len: usize) -> &[u8] {
    let start = column.saturating_sub(1);
    line.get(start..start.saturating_add(len)).unwrap_or(&[])
}

impl<'a> Reason<'a> {
    /// The reason for a line with a fault.
    fn new(line: &'a [u8], fault: Fault) -> Reason<'a> {
        Reason {
            column: fault.column,
            word: word_at(line, fault.column, fault.len),
            problem: fault.problem,
        }
    }

    /// The reason for a line of this number of bytes, more than 256.
    pub(crate) fn too_long(len: u64) -> Reason<'static> {
        Reason {
            column: 257,
            word: &[],
            problem: Problem::TooLong(len),
        }
    }
}

/// What this says of a whole line.
fn plain(text: &'static str) -> Fault {
    Fault::at(1, Problem::Plain(text))
}

/// What is wrong with a line that is not one of a script.
fn script_fault(line: &[u8]) -> Fault {
    if is_output(line) {
        return plain("this is a line of a run's output, and not of a script");
    }
    if entry_fault(line).is_none() {
        return plain("this is a line of a transcript; `postmig check` reads transcripts");
    }
    match order_fault(line) {
        Some(fault) => fault,
        None => plain("not a line of the language"),
    }
}

/// What is wrong with a line that is not one of a transcript.
fn transcript_fault(line: &[u8]) -> Fault {
    if is_output(line) {
        return plain(
            "this is a line of a run's output; `postmig run --transcript` writes transcripts",
        );
    }
    if order_fault(line).is_none() {
        return plain("this is a line of a script; a transcript has `=>` and the reply");
    }
    match entry_fault(line) {
        Some(fault) => fault,
        None => plain("not a line of the language"),
    }
}

/// Why a line is not one of a language. The line has no line feed, and no carriage return before one. Of a line of the language the
/// answer says nothing.
pub fn reason_of(line: &[u8], language: Language) -> Reason<'_> {
    if line.len() > 256 {
        return Reason::too_long(line.len() as u64);
    }
    let fault = match (byte_fault(line), language) {
        (Some(fault), _) => fault,
        (None, Language::Script) => script_fault(line),
        (None, Language::Transcript) => transcript_fault(line),
    };
    Reason::new(line, fault)
}

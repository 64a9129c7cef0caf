//! The scripts of an input, one after the other.

use crate::bounded::Bounded;
use engine::RunFault;
use engine::script_reader::MAX_LINE;
use std::alloc::Global;
use std::io;
use std::io::{BufRead, BufReader, ErrorKind, Read};

/// How a line begins that may begin a script, as the first of `postmig explore` does.
const HEADER: &[u8] = b"# postmig ";

/// The fault of a read that failed so.
fn fault_of(kind: ErrorKind) -> RunFault {
    match kind {
        ErrorKind::OutOfMemory => RunFault::NoMemory,
        _ => RunFault::ReadFault,
    }
}

/// Whether a line says something: it is neither empty nor a comment.
fn says_something(line: &[u8]) -> bool {
    let first = line
        .iter()
        .find(|byte| !matches!(**byte, b' ' | b'\r' | b'\n'));
    match first {
        None => false,
        Some(byte) => *byte != b'#',
    }
}

/// The scripts of an input, each as a reader: it is at its end where the script is, until `advance` begins the next one. A line that begins
/// with `# postmig ` begins a script if a line before it in its script says something. The input ends at a line of more than 256 bytes.
#[derive(Drop)]
pub struct Scripts<R> {
    input: BufReader<Bounded<R>>,
    /// The line that was read last, with its line feed.
    line: Vec<u8>,
    /// How many of its bytes were handed over.
    passed: usize,
    /// Whether it begins the next script.
    is_next: bool,
    /// Whether a line of the script says something.
    says: bool,
    /// How many lines were read.
    lines: u64,
    /// How many of them come before the script.
    before: u64,
}

impl<R: Read + Drop> Scripts<R> {
    /// The scripts of this input. The first has begun.
    pub fn new(alloc: Global, input: R) -> Result<Scripts<R>, RunFault> {
        let input = match BufReader::new(alloc, Bounded::new(input, MAX_LINE)) {
            Ok(input) => input,
            Err(_) => return Err(RunFault::NoMemory),
        };
        Ok(Scripts {
            input,
            line: Vec::new(alloc),
            passed: 0,
            is_next: false,
            says: false,
            lines: 0,
            before: 0,
        })
    }

    /// The input itself.
    pub fn input(&self) -> &R {
        self.input.get_ref().input()
    }

    /// How many lines come before the script.
    pub fn before(&self) -> u64 {
        self.before
    }

    /// A fault of the script as one of the input, whose lines before the script count.
    pub fn in_input(&self, fault: RunFault) -> RunFault {
        match fault {
            RunFault::Line(number) => RunFault::Line(number.saturating_add(self.before)),
            _ => fault,
        }
    }

    /// Whether the input ends at the line with this number, which is too long.
    pub fn ends_at(&self, number: u64) -> bool {
        self.input.get_ref().too_long() == Some(number)
    }

    /// Reads the next line, and returns whether it is one of the script.
    fn load(&mut self) -> io::Result<bool> {
        if self.is_next {
            return Ok(false);
        }
        self.line.clear();
        self.passed = 0;
        if self.input.read_until(b'\n', &mut self.line)? == 0 {
            return Ok(false);
        }
        self.is_next = self.says && self.line.starts_with(HEADER);
        if self.is_next {
            return Ok(false);
        }
        self.lines = self.lines.saturating_add(1);
        self.says = self.says || says_something(&self.line);
        Ok(true)
    }

    /// Passes over what is left of the script.
    fn pass_over(&mut self) -> io::Result<()> {
        for _ in 0..u64::MAX {
            if !self.load()? {
                break;
            }
        }
        Ok(())
    }

    /// Passes over what is left of the script, and begins the next one. False at the end of the input. `Line` comes with the number of a
    /// line that is too long, in the input.
    pub fn advance(&mut self) -> Result<bool, RunFault> {
        if let Err(error) = self.pass_over() {
            return Err(fault_of(error.kind()));
        }
        if !self.is_next {
            if self.ends_at(self.lines) {
                return Err(RunFault::Line(self.lines));
            }
            return Ok(false);
        }
        self.is_next = false;
        self.says = false;
        self.before = self.lines;
        self.lines = self.lines.saturating_add(1);
        Ok(true)
    }
}

impl<R: Read + Drop> Read for Scripts<R> {
    fn read(&mut self, buf: &mut [u8]) -> io::Result<usize> {
        if self.is_next {
            return Ok(0);
        }
        if self.passed >= self.line.len() && !self.load()? {
            return Ok(0);
        }
        let rest = self.line.get(self.passed..).unwrap_or(&[]);
        let count = rest.len().min(buf.len());
        buf[..count].copy_from_slice(&rest[..count]);
        self.passed = self.passed.saturating_add(count);
        Ok(count)
    }
}

//! How far a command is that reads for long: one line on standard error.
//!
//! Nothing is written when standard error is no terminal, or when the input is typed at one, and nothing in the first second. After that the
//! line says how many lines of the input were read. It is written anew at most once a second, when a read returns, and once more when the
//! input has ended. It is erased before anything else is written: findings go to standard output, which is often the same terminal.

ghost use Rattle.std.specs.Prelude.{◌≡◌, ◌≤◌, false, IfSome, IsTrue};

use std::cell::Cell;
use std::io::{IsTerminal, Read, Write};
use std::time::Instant;
use std::{fs, io};
use streams::{Input, Watched};

/// The longest name of an input that the line shows, in bytes, so that it fits the 80 columns of a terminal.
const LONGEST_NAME: usize = 32;

/// What the line calls an input with a longer name.
const NAMELESS: &str = "the input";

/// The line of the terminal. Reader and writer of a command share it.
#[derive(Drop)]
pub(crate) struct ProgressLine<'a> {
    rt: &'a HostRuntime,
    is_shown: Cell<bool>,
}

impl<'a> ProgressLine<'a> {
    /// A line that is not shown.
    pub(crate) fn new(rt: &'a HostRuntime) -> ProgressLine<'a> {
        ProgressLine {
            rt,
            is_shown: Cell::new(false),
        }
    }

    /// Writes the line in place of what it was.
    fn show(&self, name: &str, counts: &Counts) {
        self.is_shown.set(true);
        let lines = counts.lines;
        let _ = if counts.has_ended {
            eprint!(self.rt; "\r{name}: {lines} lines read, judging their calls\x1b[K")
        } else if let Some(percent) = counts.percent() {
            eprint!(self.rt; "\r{name}: {lines} lines read, {percent} % of the file\x1b[K")
        } else {
            eprint!(self.rt; "\r{name}: {lines} lines read\x1b[K")
        };
    }

    /// Erases the line where it is shown, and leaves the cursor at its first column.
    pub(crate) fn erase(&self) {
        if self.is_shown.get() {
            self.is_shown.set(false);
            let _ = eprint!(self.rt; "\r\x1b[K");
        }
    }
}

/// How much of an input was read, and when the line was written last.
#[derive(Drop)]
struct Counts {
    begun: Instant,
    /// When the line was written last, or when the command began.
    written: Instant,
    lines: u64,
    bytes: u64,
    /// The bytes of the file, or 0 if they are not known.
    size: u64,
    has_ended: bool,
}

impl Counts {
    fn new(begun: Instant, size: u64) -> Counts {
        Counts {
            begun,
            written: begun,
            lines: 0,
            bytes: 0,
            size,
            has_ended: false,
        }
    }

    /// Counts bytes that were read.
    fn add(&mut self, read: &[u8]) {
        let feeds = read.iter().filter(|byte| **byte == b'\n').count();
        self.lines = self.lines.saturating_add(feeds as u64);
        self.bytes = self.bytes.saturating_add(read.len() as u64);
    }

    /// The share of the file that was read, in percent, if its size is known.
    fn percent(&self) -> Option<u64>
        ensures { IfSome result (λ percent. percent ≤ 100) }
    {
        let percent = self.bytes.saturating_mul(100).checked_div(self.size)?;
        Some(percent.min(100))
    }

    /// Whether the line is to be written after a read at this time: when a second has passed since it was written last; at the end of the
    /// input, when a second has passed since the command began.
    fn is_due(&mut self, now: Instant, has_ended: bool) -> bool
        ensures once { IsTrue self.old.has_ended → result ≡ false }
        ensures ended { IsTrue has_ended → IsTrue self.new.has_ended }
    {
        if self.has_ended {
            return false;
        }
        self.has_ended = has_ended;
        let since = if has_ended { self.begun } else { self.written };
        if now.duration_since(since).as_secs() == 0 {
            return false;
        }
        self.written = now;
        true
    }
}

/// Whether a command says how far it is.
fn says_progress(rt: &HostRuntime, file: Option<&str>) -> bool {
    let is_typed = file.is_none() && rt.stdin().is_terminal();
    rt.stderr().is_terminal() && !is_typed
}

/// The bytes of the FILE of a command, or 0 where it is not a regular file.
fn size_of_file(rt: &HostRuntime, file: Option<&str>) -> u64 {
    let Some(name) = file else {
        return 0;
    };
    match fs::metadata(rt, name) {
        Ok(found) if found.is_file() => found.len(),
        _ => 0,
    }
}

/// The counts of an input of which nothing was read. None if the command does not say how far it is.
fn begin_counts(rt: &HostRuntime, file: Option<&str>) -> Option<Counts> {
    if !says_progress(rt, file) {
        return None;
    }
    let begun = Instant::now(rt).ok()?;
    Some(Counts::new(begun, size_of_file(rt, file)))
}

/// An input of which the line says how much was read.
#[derive(Drop)]
pub(crate) struct Counted<'a> {
    input: Watched<'a, Input>,
    line: &'a ProgressLine<'a>,
    /// None if the line is never written.
    counts: Option<Counts>,
}

impl<'a> Counted<'a> {
    /// An input of which nothing was read. `file` is the FILE of the command.
    pub(crate) fn new(
        rt: &HostRuntime,
        file: Option<&str>,
        input: Watched<'a, Input>,
        line: &'a ProgressLine<'a>,
    ) -> Counted<'a> {
        Counted {
            input,
            line,
            counts: begin_counts(rt, file),
        }
    }

    /// The input itself.
    pub(crate) fn input(&self) -> &Watched<'a, Input> {
        &self.input
    }

    /// What the line calls the input.
    fn name(&self) -> &'a str {
        let name = self.input.name();
        if name.len() > LONGEST_NAME {
            return NAMELESS;
        }
        name
    }

    /// Counts what a read has returned, and writes the line if it is due. A read without a byte is the end of the input.
    fn note(&mut self, read: &[u8]) {
        let name = self.name();
        let Some(counts) = &mut self.counts else {
            return;
        };
        counts.add(read);
        let Ok(now) = Instant::now(self.line.rt) else {
            return;
        };
        if counts.is_due(now, read.is_empty()) {
            self.line.show(name, counts);
        }
    }
}

impl Read for Counted<'_> {
    fn read(&mut self, buf: &mut [u8]) -> io::Result<usize> {
        let count = self.input.read(buf)?;
        self.note(&buf[..count]);
        Ok(count)
    }
}

/// A writer that erases the line before it writes.
#[derive(Drop)]
pub(crate) struct Erasing<'a, S> {
    output: S,
    line: &'a ProgressLine<'a>,
}

impl<'a, S> Erasing<'a, S> {
    /// A writer that writes to this one.
    pub(crate) fn new(output: S, line: &'a ProgressLine<'a>) -> Erasing<'a, S> {
        Erasing { output, line }
    }

    /// The writer itself.
    pub(crate) fn output(&self) -> &S {
        &self.output
    }
}

impl<S: Write> Write for Erasing<'_, S> {
    fn write(&mut self, buf: &[u8]) -> io::Result<usize> {
        self.line.erase();
        self.output.write(buf)
    }

    fn flush(&mut self) -> io::Result<()> {
        self.output.flush()
    }
}

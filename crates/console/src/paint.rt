//! Findings at a terminal: the place of each, as `FILE:LINE:COLUMN:`, is bold.

ghost use Rattle.std.specs.Prelude.{◌≤◌, IfOk, length};

use std::env::{Env, FillError};
use std::io;
use std::io::{IsTerminal, Write};

/// What a terminal is sent before what is bold, and after it.
const BOLD: &[u8] = b"\x1b[1m";

const PLAIN: &[u8] = b"\x1b[0m";

/// How findings are written.
#[derive(Clone, Copy, Debug, PartialEq, Eq)]
pub enum Paint {
    Bold,
    Plain,
}

/// How findings are written to this stream: bold at a terminal, unless the variable NO_COLOR is set to some text
/// (<https://no-color.org>).
pub fn paint_for<S: IsTerminal>(rt: &HostRuntime, stream: &S) -> Paint {
    let mut room = [0u8; 1];
    match rt.var("NO_COLOR", &mut room) {
        Ok(0) | Err(FillError::NotPresent) if stream.is_terminal() => Paint::Bold,
        _ => Paint::Plain,
    }
}

/// Which part of a line comes next.
#[derive(Clone, Copy)]
enum Part {
    /// Its first byte.
    Start,
    /// More of its place, which its first space ends.
    Place,
    /// What is after the place.
    Rest,
}

/// A writer of findings, each a line.
#[derive(Drop)]
pub struct Painted<W> {
    output: W,
    paint: Paint,
    part: Part,
}

impl<W: Write> Painted<W> {
    /// A writer to this one.
    pub fn new(output: W, paint: Paint) -> Painted<W> {
        Painted {
            output,
            paint,
            part: Part::Start,
        }
    }

    /// Writes the bytes of a place up to its end, and returns how many they are.
    fn write_place(&mut self, buf: &[u8]) -> io::Result<usize>
        ensures { IfOk result (λ count. count ≤ length buf.now) }
    {
        let Some(end) = buf.iter().position(|byte| matches!(*byte, b' ' | b'\n')) else {
            return self.output.write(buf);
        };
        self.output.write_all(&buf[..end])?;
        self.output.write_all(PLAIN)?;
        self.output.write_all(&buf[end..=end])?;
        self.part = if buf[end] == b'\n' {
            Part::Start
        } else {
            Part::Rest
        };
        Ok(end + 1)
    }

    /// Writes the bytes after a place up to the end of their line, and returns how many they are.
    fn write_rest(&mut self, buf: &[u8]) -> io::Result<usize>
        ensures { IfOk result (λ count. count ≤ length buf.now) }
    {
        let Some(end) = buf.iter().position(|byte| *byte == b'\n') else {
            return self.output.write(buf);
        };
        self.output.write_all(&buf[..=end])?;
        self.part = Part::Start;
        Ok(end + 1)
    }
}

impl<W: Write> Write for Painted<W> {
    fn write(&mut self, buf: &[u8]) -> io::Result<usize> {
        if self.paint == Paint::Plain || buf.is_empty() {
            return self.output.write(buf);
        }
        match self.part {
            Part::Start => {
                self.output.write_all(BOLD)?;
                self.part = Part::Place;
                self.write_place(buf)
            }
            Part::Place => self.write_place(buf),
            Part::Rest => self.write_rest(buf),
        }
    }

    fn flush(&mut self) -> io::Result<()> {
        self.output.flush()
    }
}

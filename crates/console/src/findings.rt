//! What is found in a script of an input, by the numbers of the lines in the input.

use std::io;
use std::io::Write;

/// A writer of lines `:N: TEXT` about a script, which writes `NAME:M: TEXT` of each: M counts the lines of the input before the script too.
#[derive(Drop)]
pub(crate) struct Findings<'a, W> {
    pub(crate) output: W,
    /// What the input is called.
    pub(crate) name: &'a str,
    /// How many lines come before the script.
    pub(crate) before: u64,
    /// Whether each line is a comment of a report in the form of TAP.
    pub(crate) is_comment: bool,
}

/// The number of a line, and what is written after it, its colon first.
fn numbered(line: &[u8]) -> Option<(u64, &[u8])> {
    let [b':', rest @ ..] = line else {
        return None;
    };
    let end = rest.iter().position(|byte| *byte == b':')?;
    let number = str::from_utf8(&rest[..end]).ok()?.parse::<u64>().ok()?;
    Some((number, &rest[end..]))
}

impl<W: Write> Findings<'_, W> {
    /// Writes a line, which has no line feed.
    fn write_finding(&mut self, line: &[u8]) -> io::Result<()> {
        if self.is_comment {
            self.output.write_all(b"# ")?;
        }
        let rest = match numbered(line) {
            Some((number, rest)) => {
                let number = number.saturating_add(self.before);
                write!(self.output, "{}:{number}", self.name)?;
                rest
            }
            None => line,
        };
        self.output.write_all(rest)?;
        self.output.write_all(b"\n")
    }
}

impl<W: Write> Write for Findings<'_, W> {
    fn write(&mut self, buf: &[u8]) -> io::Result<usize> {
        let Some(end) = buf.iter().position(|byte| *byte == b'\n') else {
            return self.output.write(buf);
        };
        self.write_finding(&buf[..end])?;
        Ok(end + 1)
    }

    fn flush(&mut self) -> io::Result<()> {
        self.output.flush()
    }
}

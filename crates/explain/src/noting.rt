//! The lines that the entries of a transcript are in.

ghost use Rattle.std.specs.Prelude.{◌≡◌};
ghost use Rattle.explain.specs.Unread.{unread};

use mig_base::NoMemory;
use std::alloc::Global;
use std::io;
use std::io::Read;

/// Notes the numbers of the lines of a transcript that have an entry: those whose first byte, spaces and carriage returns aside, is
/// not `#`.
#[derive(Drop)]
struct Notes {
    lines: Vec<u64>,
    /// The number of the line that is read, counted from 1.
    number: u64,
    /// Whether that line has an entry or a comment.
    has_begun: bool,
    /// Whether a number was lost for lack of memory.
    is_short: bool,
}

impl Notes {
    fn take(&mut self, byte: u8) {
        match byte {
            b'\n' => {
                self.number = self.number.saturating_add(1);
                self.has_begun = false;
            }
            b' ' | b'\r' => {}
            _ if self.has_begun => {}
            b'#' => self.has_begun = true,
            _ => {
                self.has_begun = true;
                self.is_short |= self.lines.push(self.number).is_err();
            }
        }
    }

    fn take_all(&mut self, bytes: &[u8]) {
        for byte in bytes {
            self.take(*byte);
        }
    }
}

/// A reader of a transcript that notes the lines that entries are in.
#[derive(Drop)]
pub struct NotingReader<R> {
    reader: R,
    notes: Notes,
}

impl<R: Read> NotingReader<R> {
    /// Notes what is read of a reader, which is at the start of a transcript. Nothing is read yet.
    pub fn new(alloc: Global, reader: R) -> NotingReader<R>
        ensures { unread R.remaining result ≡ R.remaining reader }
    {
        let notes = Notes {
            lines: Vec::new(alloc),
            number: 1,
            has_begun: false,
            is_short: false,
        };
        NotingReader { reader, notes }
    }

    /// The numbers of the lines with an entry, in order. None where one was lost for lack of memory.
    pub(crate) fn lines(&self) -> Result<&[u64], NoMemory> {
        if self.notes.is_short {
            return Err(NoMemory);
        }
        Ok(&self.notes.lines)
    }
}

impl<R: Read> Read for NotingReader<R> {
    ghost remaining = { unread R.remaining };

    fn read(&mut self, buf: &mut [u8]) -> io::Result<usize> {
        let count = self.reader.read(buf)?;
        self.notes.take_all(&buf[..count]);
        Ok(count)
    }
}

//! Streams that remember why they failed.

use std::alloc::{AllocError, Global};
use std::io;
use std::io::{Read, Write};

/// A reader or a writer with the last error that it returned.
#[derive(Drop)]
pub struct Watched<'a, S> {
    stream: S,
    /// What messages call it.
    name: &'a str,
    error: Option<io::Error>,
    /// Whether a byte was read or written.
    is_used: bool,
}

impl<'a, S> Watched<'a, S> {
    /// A stream that has not failed.
    pub fn new(name: &'a str, stream: S) -> Watched<'a, S> {
        Watched {
            stream,
            name,
            error: None,
            is_used: false,
        }
    }

    /// What messages call it.
    pub fn name(&self) -> &'a str {
        self.name
    }

    /// Whether no byte was read or written.
    pub fn is_unused(&self) -> bool {
        !self.is_used
    }

    /// The stream itself.
    pub fn into_stream(self) -> S {
        let Watched {
            stream,
            name: _,
            error: _,
            is_used: _,
        } = self;
        stream
    }

    fn note(&mut self, answer: &io::Result<usize>) {
        match answer {
            Ok(count) => self.is_used = self.is_used || *count > 0,
            Err(error) => self.error = Some(*error),
        }
    }

    /// Says on standard error why it has failed, or this, where it returned no error.
    pub fn say_why(&self, rt: &HostRuntime, otherwise: &str) -> io::Result<()> {
        match &self.error {
            Some(error) => say_reason(rt, self.name, error),
            None => eprintln!(rt; "{}: {otherwise}", self.name),
        }
    }
}

impl<S: Read> Read for Watched<'_, S> {
    fn read(&mut self, buf: &mut [u8]) -> io::Result<usize> {
        let answer = self.stream.read(buf);
        self.note(&answer);
        answer
    }
}

impl<S: Write> Write for Watched<'_, S> {
    fn write(&mut self, buf: &[u8]) -> io::Result<usize> {
        let answer = self.stream.write(buf);
        self.note(&answer);
        answer
    }

    fn flush(&mut self) -> io::Result<()> {
        self.stream.flush()
    }
}

/// Why a call of the system failed, in the words of the C library alone: std puts the number of the error after them.
fn reason(alloc: Global, error: &io::Error) -> Result<String, AllocError> {
    let text = format!(in alloc; "{error}")?;
    match text.split_once(" (os error ") {
        Some((words, _)) => words.to_string(alloc),
        None => Ok(text),
    }
}

/// Says on standard error why a stream of this name has failed.
pub fn say_reason(rt: &HostRuntime, name: &str, error: &io::Error) -> io::Result<()> {
    let reason = reason(rt.alloc(), error)?;
    eprintln!(rt; "{name}: {reason}")
}

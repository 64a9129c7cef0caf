//! Readers and writers for tests: they take bytes in pieces, fail at a read or a write, or stop.
//!
//! None of them keeps a promise beyond those of `Read` and `Write`.
#![tactic(auto)]

use std::io;
use std::io::{Read, Write};

/// Gives its bytes in pieces of this size, and fails at this read.
#[derive(Drop)]
pub struct Pieces<'a> {
    pub bytes: &'a [u8],
    pub size: usize,
    pub fails_at: u32,
    pub reads: u32,
}

impl Read for Pieces<'_> {
    fn read(&mut self, buf: &mut [u8]) -> io::Result<usize> {
        self.reads = self.reads.wrapping_add(1);
        if self.reads == self.fails_at {
            return Err(io::Error::from(io::ErrorKind::Other));
        }
        let count = self.size.min(self.bytes.len()).min(buf.len());
        let (front, rest) = self.bytes.split_at(count);
        buf[..count].copy_from_slice(front);
        self.bytes = rest;
        Ok(count)
    }
}

/// Gives the same byte without an end, in pieces of this size.
#[derive(Drop)]
pub struct Endless {
    pub byte: u8,
    pub size: usize,
    pub reads: u32,
}

impl Read for Endless {
    fn read(&mut self, buf: &mut [u8]) -> io::Result<usize> {
        self.reads = self.reads.wrapping_add(1);
        let count = self.size.min(buf.len());
        buf[..count].fill(self.byte);
        Ok(count)
    }
}

/// Takes one byte at a time, fails at this write, and takes no byte once it has this many.
#[derive(Drop)]
pub struct OneByte {
    pub bytes: Vec<u8>,
    pub fails_at: u32,
    pub writes: u32,
    pub most: usize,
}

impl Write for OneByte {
    fn write(&mut self, buf: &[u8]) -> io::Result<usize> {
        self.writes = self.writes.wrapping_add(1);
        if self.writes == self.fails_at {
            return Err(io::Error::from(io::ErrorKind::Other));
        }
        match buf.first() {
            Some(byte) if self.bytes.len() < self.most => {
                self.bytes.push(*byte)?;
                Ok(1)
            }
            _ => Ok(0),
        }
    }

    fn flush(&mut self) -> io::Result<()> {
        Ok(())
    }
}

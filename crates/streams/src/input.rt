//! What a command reads.

use std::fs::File;
use std::io;
use std::io::{Read, Stdin};

/// Standard input, or a file that was opened.
#[derive(Drop)]
pub enum Input {
    Standard(Stdin),
    File(File),
}

impl Read for Input {
    fn read(&mut self, buf: &mut [u8]) -> io::Result<usize> {
        match self {
            Input::Standard(stdin) => stdin.read(buf),
            Input::File(file) => file.read(buf),
        }
    }
}

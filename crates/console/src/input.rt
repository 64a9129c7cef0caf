//! What a run reads.

use crate::terminal::Terminal;
use std::io;
use std::io::Read;
use streams::Input;

/// The script of a run: an input, or one that is typed.
#[derive(Drop)]
pub enum Script {
    Given(Input),
    Typed(Terminal),
}

impl Read for Script {
    fn read(&mut self, buf: &mut [u8]) -> io::Result<usize> {
        match self {
            Script::Given(input) => input.read(buf),
            Script::Typed(terminal) => terminal.read(buf),
        }
    }
}

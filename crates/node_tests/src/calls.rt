//! Calls as standard input spells them.

pub mod on_destination;
pub mod on_source;

use frame_decoder::{front_len, read_text};
use mig_base::PageNo;
use page_stream::Frame;
use std::alloc::Global;
use std::io;

/// A call of the source that takes no frame.
#[derive(Clone, Copy)]
pub enum SourceCall {
    Start,
    Switch,
    End,
    Serve,
    Push(PageNo),
    PushUrgent(PageNo),
    Notice,
    Resume,
}

/// A call of either node. A frame comes with its epoch.
#[derive(Drop)]
pub enum Call {
    Take(u32, Frame),
    TakeUrgent(u32, Frame),
    Install,
    Pause,
    Memory,
    Back(u32, Frame),
    Source(SourceCall),
}

/// The error of bytes that spell no call.
fn wrong_input() -> io::Error {
    io::Error::from(io::ErrorKind::InvalidInput)
}

/// The bytes that are still to be read.
#[derive(Drop)]
pub struct Unread<'a> {
    bytes: &'a [u8],
}

impl<'a> Unread<'a> {
    pub fn new(bytes: &'a [u8]) -> Self {
        Unread { bytes }
    }

    /// Reads a byte, if there is one.
    fn next_byte(&mut self) -> Option<u8> {
        let (first, rest) = self.bytes.split_first()?;
        self.bytes = rest;
        Some(*first)
    }

    /// Reads a page of those from 0x10 on.
    fn next_page(&mut self) -> Option<PageNo> {
        let place = self.next_byte()?;
        Some(0x10 + PageNo::from(place))
    }

    /// Reads a frame, with its epoch.
    fn next_frame(&mut self, alloc: Global) -> Option<(u32, Frame)> {
        let (text, rest) = self.bytes.split_at_checked(front_len(self.bytes))?;
        self.bytes = rest;
        match read_text(alloc, text) {
            Ok(sent) => sent,
            Err(_) => None,
        }
    }

    /// Reads the frame of the call of a letter.
    fn frame_call(&mut self, alloc: Global, letter: u8) -> Option<Call> {
        let (epoch, frame) = self.next_frame(alloc)?;
        Some(match letter {
            b't' => Call::Take(epoch, frame),
            b'u' => Call::TakeUrgent(epoch, frame),
            _ => Call::Back(epoch, frame),
        })
    }

    /// The call of the source for a letter.
    fn source_call(&mut self, letter: u8) -> Option<SourceCall> {
        match letter {
            b's' => Some(SourceCall::Start),
            b'w' => Some(SourceCall::Switch),
            b'e' => Some(SourceCall::End),
            b'r' => Some(SourceCall::Serve),
            b'v' => Some(SourceCall::Push(self.next_page()?)),
            b'x' => Some(SourceCall::PushUrgent(self.next_page()?)),
            b'n' => Some(SourceCall::Notice),
            b'k' => Some(SourceCall::Resume),
            _ => None,
        }
    }

    /// The call for a letter: none where the bytes spell no call, or memory runs out.
    fn call(&mut self, alloc: Global, letter: u8) -> Option<Call> {
        match letter {
            b't' | b'u' | b'b' => self.frame_call(alloc, letter),
            b'i' => Some(Call::Install),
            b'p' => Some(Call::Pause),
            b'm' => Some(Call::Memory),
            letter => Some(Call::Source(self.source_call(letter)?)),
        }
    }

    /// Reads a call, or `None` at the end.
    pub fn next_call(&mut self, alloc: Global) -> io::Result<Option<Call>> {
        let Some(letter) = self.next_byte() else {
            return Ok(None);
        };
        match self.call(alloc, letter) {
            Some(call) => Ok(Some(call)),
            None => Err(wrong_input()),
        }
    }
}

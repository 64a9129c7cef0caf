//! A call of a log, with how it ended.

use crate::pages::{PageSize, Range};
use kernel_rules::answers::is_populating;
use uffd_log::{Answer, Call, Errno, Message};

/// UFFDIO_COPY_MODE_DONTWAKE, and the same of the other calls that fill pages.
pub const DONTWAKE: u64 = 1;

/// UFFDIO_COPY_MODE_WP.
pub const COPY_PROTECTS: u64 = 2;

/// UFFDIO_WRITEPROTECT_MODE_WP.
pub const PROTECTS: u64 = 1;

/// POLLIN, the bit of poll(2) for a message that waits.
pub const POLLIN: u64 = 0x1;

/// How sure a call's answer is.
#[derive(Clone, Copy, PartialEq, Eq)]
pub enum Kind {
    /// It was not judged.
    Unjudged,
    /// It is the only answer that the rules allow.
    Must,
    /// An access explains it which the log does not show.
    May,
    /// No run was found that gives it.
    Unexplained,
}

/// A call of a log with its answer, which is absent where it never returned.
#[derive(Clone, Copy)]
pub struct LogCall {
    pub call: Call,
    pub answer: Option<Answer>,
    /// The number of the line where it begins.
    pub begin: u32,
    /// The number of the line where it ends; 0 where it never returned.
    pub end: u32,
    /// When it ended, in nanoseconds of the log's clock.
    pub until: u64,
    /// The process that made it, and the thread.
    pub process: u32,
    pub thread: u32,
    /// The address space that it changes, by its process.
    pub space: u32,
    /// The program that its process runs, as in its entry; 0 while it is read.
    pub program: u32,
    /// The entry where it ends, which has its messages and its runs of pages; absent where it never returned.
    pub ending: Option<u32>,
    /// Of close: no descriptor of the object is left.
    pub last: bool,
    /// Whether the rules speak of it.
    pub judged: bool,
    /// Whether it took effect.
    pub done: bool,
    pub kind: Kind,
}

impl LogCall {
    /// The object that it is made on.
    pub fn object(&self) -> Option<u64> {
        match self.call {
            Call::Api { on, .. } | Call::Register { on, .. } | Call::Unregister { on, .. } => Some(
                on.object,
            ),
            Call::Wake { on, .. } | Call::Copy { on, .. } | Call::Move { on, .. } => Some(
                on.object,
            ),
            Call::ZeroPage { on, .. } | Call::Continue { on, .. } | Call::Poison { on, .. } => Some(
                on.object,
            ),
            Call::WriteProtect { on, .. } | Call::Read { on, .. } | Call::Poll { on } => Some(
                on.object,
            ),
            Call::NonBlock { on, .. } | Call::Dup { on, .. } | Call::Close { on } => Some(
                on.object,
            ),
            Call::Scan { on, .. } => Some(on.object),
            _ => None,
        }
    }

    /// The bytes that it is of: where they begin, and how many.
    pub fn bytes(&self) -> Option<(u64, u64)> {
        match self.call {
            Call::Register { start, len, .. } | Call::Unregister { start, len, .. } => Some((
                start, len,
            )),
            Call::Wake { start, len, .. } | Call::ZeroPage { start, len, .. } => Some((start, len)),
            Call::Continue { start, len, .. } | Call::Poison { start, len, .. } => Some((
                start, len,
            )),
            Call::WriteProtect { start, len, .. } | Call::Scan { start, len, .. } => Some((
                start, len,
            )),
            Call::Copy { to, len, .. } | Call::Move { to, len, .. } => Some((to, len)),
            Call::Munmap { addr, len } | Call::Madvise { addr, len, .. } => Some((addr, len)),
            Call::Mremap { addr, old_len, .. } => Some((addr, old_len)),
            Call::Mmap { len, .. } => match self.answer {
                Some(Answer::Value(addr)) => Some((addr, len)),
                _ => None,
            },
            _ => None,
        }
    }

    /// The word of modes of a call that fills pages: UFFDIO_COPY, ZEROPAGE, CONTINUE, POISON and MOVE.
    pub fn install_mode(&self) -> Option<u64> {
        match self.call {
            Call::Copy { mode, .. } | Call::ZeroPage { mode, .. } => Some(mode),
            Call::Continue { mode, .. } | Call::Poison { mode, .. } => Some(mode),
            Call::Move { mode, .. } => Some(mode),
            _ => None,
        }
    }

    /// Whether it changes an address space.
    pub fn is_map_call(&self) -> bool {
        match self.call {
            Call::Mmap { .. } | Call::Munmap { .. } | Call::Mremap { .. } | Call::Madvise { .. } =>
                true,
            _ => false,
        }
    }

    /// Whether it is a madvise that has touched each page of its range.
    pub fn populates(&self) -> bool {
        match (self.call, self.answer) {
            (Call::Madvise { advice, .. }, Some(answer)) => is_populating(advice, answer),
            _ => false,
        }
    }

    /// Whether it succeeded.
    pub fn is_ok(&self) -> bool {
        match self.answer {
            Some(Answer::Failed { .. } | Answer::Interrupted) | None => false,
            Some(_) => true,
        }
    }

    /// Why it failed, if it did.
    pub fn errno(&self) -> Option<Errno> {
        match self.answer {
            Some(Answer::Failed { errno, .. }) => Some(errno),
            _ => None,
        }
    }

    /// The number that it returned.
    pub fn value(&self) -> Option<u64> {
        match self.answer {
            Some(Answer::Value(n)) => Some(n),
            _ => None,
        }
    }

    /// Whether it returned, and had an effect then.
    pub fn has_effect(&self) -> bool {
        match self.answer {
            Some(Answer::Interrupted) | None => false,
            Some(_) => self.judged,
        }
    }

    /// Whether it wakes threads that sleep at its pages: an install that stopped, at those that it has put.
    pub fn is_waking(&self) -> bool {
        let wakes = match self.call {
            Call::WriteProtect { mode, .. } => mode == 0,
            Call::Wake { .. } | Call::Unregister { .. } => true,
            _ => match self.install_mode() {
                Some(mode) => mode & DONTWAKE == 0,
                None => false,
            },
        };
        wakes && has_put(self)
    }

    /// The pages that it has changed, if it has any: of a call that stopped those before it did.
    pub fn done_pages(&self, size: PageSize) -> Option<Range> {
        if !has_put(self) {
            return None;
        }
        let (start, len) = self.bytes()?;
        let done = match self.answer {
            Some(
                Answer::Failed {
                    bytes: Some(bytes),
                    ..
                },
            ) => bytes.min(len),
            _ => len,
        };
        Some(size.range(start, done))
    }

    /// The pages at which it wakes threads, if it does.
    pub fn woken(&self, size: PageSize) -> Option<Range> {
        if self.is_waking() {
            self.done_pages(size)
        } else {
            None
        }
    }

    /// Whether it wakes the threads that sleep at a page of an object.
    pub fn wakes(&self, size: PageSize, object: u64, page: u64) -> bool {
        match self.woken(size) {
            Some(range) => self.object() == Some(object) && range.contains(page),
            None => false,
        }
    }

    /// Whether a page is among those that it is of.
    pub fn covers(&self, size: PageSize, page: u64) -> bool {
        match self.bytes() {
            Some((start, len)) => size.range(start, len).contains(page),
            None => false,
        }
    }

    /// Its name in a log.
    pub fn word(&self) -> &'static str {
        word_of(&self.call)
    }
}

/// Whether a call has put a page. A kernel that fails a call has done less than was asked for: a field with more has what the program had there.
pub fn has_put(call: &LogCall) -> bool {
    match (call.answer, call.bytes()) {
        (
            Some(
                Answer::Failed {
                    bytes: Some(done),
                    ..
                },
            ),
            Some((_, len)),
        ) => 0 < done && done < len,
        _ => call.is_ok(),
    }
}

/// The name of a call in a log.
pub(crate) fn word_of(call: &Call) -> &'static str {
    match *call {
        Call::Open { .. } => "open",
        Call::Api { .. } => "api",
        Call::Register { .. } => "register",
        Call::Unregister { .. } => "unregister",
        Call::Wake { .. } => "wake",
        Call::Copy { .. } => "copy",
        Call::Move { .. } => "move",
        Call::ZeroPage { .. } => "zeropage",
        Call::Continue { .. } => "continue",
        Call::Poison { .. } => "poison",
        Call::WriteProtect { .. } => "writeprotect",
        Call::Read { .. } => "read",
        Call::Poll { .. } => "poll",
        Call::NonBlock { .. } => "nonblock",
        Call::Dup { .. } => "dup",
        Call::Close { .. } => "close",
        Call::Scan { .. } => "scan",
        Call::Mmap { .. } => "mmap",
        Call::Munmap { .. } => "munmap",
        Call::Mremap { .. } => "mremap",
        Call::Madvise { .. } => "madvise",
        Call::Fork => "fork",
    }
}

/// Whether a message is no page fault.
pub fn is_event(message: &Message) -> bool {
    !matches!(message, Message::Fault { .. })
}

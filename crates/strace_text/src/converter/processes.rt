//! Threads, the processes of which they are, and the programs that these run.

ghost use Rattle.std.specs.Prelude.{◌≡◌, None, IfOk, IfSome};

use super::{Converter, Maker, Range};
use crate::files::Files;
use crate::kind::Kind;
use crate::number::{decimal, hexadecimal};
use crate::plan::{After, Plan, answer};
use crate::quoted::{closed, next_string, unescape};
use crate::stop::{Shown, Stop};
use crate::text::{Class, front, rsplit_once, split_once};
use crate::traced::Traced;
use foundation::NoMemory;
use std::alloc::{AllocError, Global};
use std::fmt::Write;

/// The most bytes of the words of a program.
const LONGEST_WORDS: usize = 3000;

/// The number in hexadecimal after the first mark that begins a word, and has digits after it.
fn field(text: &[u8], mark: &[u8]) -> Option<u64> {
    let mut last = b' ';
    let mut rest = text;
    for _ in 0..text.len() {
        let (before, after) = split_once(rest, mark)?;
        last = before.last().copied().unwrap_or(last);
        let (digits, _) = front(after, Class::Hex);
        if !digits.is_empty() && !Class::Word.has(last) {
            return Some(hexadecimal(digits));
        }
        last = mark.last().copied().unwrap_or(last);
        rest = after;
    }
    None
}

/// The list of the words of a program, without its brackets.
fn list_of(arguments: &[u8]) -> Option<&[u8]> {
    let (_, rest) = closed(arguments.strip_prefix(b"\"")?)?;
    let rest = rest.strip_prefix(b"...").unwrap_or(rest);
    let list = rest.strip_prefix(b", [")?;
    for (at, byte) in list.iter().enumerate() {
        let after = &list[at + 1..];
        if *byte == b']' && (after.is_empty() || after.starts_with(b", ")) {
            return Some(&list[..at]);
        }
    }
    None
}

/// Adds a text of the language.
fn encode(out: &mut String, bytes: &[u8]) -> Result<(), AllocError> {
    if bytes.is_empty() {
        return out.push('%');
    }
    for byte in bytes {
        match *byte {
            b'%' | 0..=0x20 | 0x7f..=0xff => {
                let byte = *byte;
                write!(out, "%{byte:02x}")?;
            }
            byte => out.push(char::from(byte))?,
        }
    }
    Ok(())
}

/// Adds the words of a string of the trace, after a blank if they are not the first.
fn add_words(alloc: Global, out: &mut String, string: &[u8]) -> Result<(), Stop> {
    if !out.is_empty() {
        out.push(' ')?;
    }
    let mut bytes = Vec::new(alloc);
    unescape(alloc, &mut bytes, string)?;
    encode(out, &bytes)?;
    Ok(())
}

/// The words of a list of strings, with a blank between them.
fn words_of(alloc: Global, list: &[u8]) -> Result<String, Stop> {
    let mut out = String::new(alloc);
    let mut rest = list;
    for _ in 0..list.len() {
        let Some((string, after)) = next_string(rest) else {
            break;
        };
        add_words(alloc, &mut out, string)?;
        rest = after;
    }
    Ok(out)
}

/// The words of a program, of which a last `...` says that some were left out.
fn shortened(alloc: Global, words: String) -> Result<String, AllocError> {
    if words.is_empty() {
        return String::from_str(alloc, "...");
    }
    match words.as_bytes().get(..LONGEST_WORDS) {
        Some(front) if words.len() > LONGEST_WORDS => {
            let front = match rsplit_once(front, b" ") {
                Some((before, _)) => Shown(before),
                None => Shown(front),
            };
            format!(in alloc; "{front} ...")
        }
        _ => Ok(words),
    }
}

impl Converter {
    /// Notes which call made a thread, and what was registered, for the whole trace.
    pub(crate) fn prepare(&mut self, call: &Traced) -> Result<(), NoMemory> {
        match call.kind {
            Kind::Fork => self.prepare_child(call, call.has_argument(b"CLONE_VM")),
            Kind::Vfork => self.prepare_child(call, true),
            Kind::Ioctl if call.has_argument(b"UFFDIO_REGISTER,") && call.errno().is_none() => {
                self.prepare_range(&call.arguments)
            }
            _ => Ok(()),
        }
    }

    fn prepare_range(&mut self, arguments: &[u8]) -> Result<(), NoMemory> {
        let start = field(arguments, b"start=0x");
        let length = field(arguments, b"len=0x");
        if let (Some(start), Some(length)) = (start, length) {
            self.ranges.insert(Range { start, length })?;
        }
        Ok(())
    }

    fn prepare_child(&mut self, call: &Traced, shares_memory: bool) -> Result<(), NoMemory> {
        let (digits, _) = front(&call.returned, Class::Digit);
        let Some(child) = decimal(digits) else {
            return Ok(());
        };
        let maker = Maker {
            by: call.thread,
            is_thread: call.has_argument(b"CLONE_THREAD"),
            shares_files: call.has_argument(b"CLONE_FILES"),
            shares_memory,
        };
        self.made.insert(child, maker)?;
        Ok(())
    }

    /// The process of a thread: its own, unless it was made as a thread.
    pub(crate) fn process_of(&mut self, thread: u64) -> Result<u64, Stop> {
        if let Some(process) = self.of_thread.get(&thread) {
            return Ok(*process);
        }
        self.of_thread.insert(thread, thread)?;
        Ok(thread)
    }

    /// Finds the process of a thread that is seen for the first time.
    pub(crate) fn adopt(&mut self, thread: u64, time: u64) -> Result<(), Stop> {
        if self.of_thread.contains_key(&thread) {
            return Ok(());
        }
        match self.made.get(&thread).copied() {
            Some(maker) if maker.is_thread => {
                let process = self.process_of(maker.by)?;
                self.of_thread.insert(thread, process)?;
                Ok(())
            }
            Some(maker) => self.adopt_process(thread, time, maker),
            None => {
                self.process_of(thread)?;
                Ok(())
            }
        }
    }

    /// A new process has the descriptors of its parent, and a copy of its memory or this itself.
    fn adopt_process(&mut self, thread: u64, time: u64, maker: Maker) -> Result<(), Stop> {
        self.of_thread.insert(thread, thread)?;
        let parent = self.process_of(maker.by)?;
        self.parents.insert(thread, parent)?;
        let shared = self.set_of_process(parent)?;
        let set = if maker.shares_files {
            shared
        } else {
            self.copied_set(shared, false)?
        };
        self.files.insert(thread, set)?;
        if maker.shares_memory {
            return self.borrow_memory(thread, maker.by);
        }
        let said = format!(in self.alloc; "forked {parent}")?;
        self.write(time, thread, said.as_str())?;
        self.announce(time, thread)
    }

    /// A new set with the descriptors of another one, or with those alone that survive execve.
    fn copied_set(&mut self, set: usize, survives: bool) -> Result<usize, Stop> {
        let files = match self.sets.get(set) {
            Some(files) => files.copy(self.alloc, survives)?,
            None => Files::new(self.alloc),
        };
        self.new_set(files)
    }

    /// A fork. What makes a thread, or shares the memory, is none of the language.
    pub(super) fn plan_fork(&mut self, call: &Traced) -> Result<Option<Plan>, Stop> {
        if call.has_argument(b"CLONE_THREAD") || call.has_argument(b"CLONE_VM") {
            return Ok(None);
        }
        let (child, _) = front(&call.returned, Class::Digit);
        let end = answer(self.alloc, call, child)?;
        let begin = String::from_str(self.alloc, "fork")?;
        Ok(Some(Plan::new(self.alloc, begin, end, After::Nothing)))
    }

    /// A program that is run, not a call of a log.
    pub(super) fn plan_execve(&mut self, call: &Traced) -> Result<Option<Plan>, Stop>
        ensures silent { IfOk result (λ plan. IfSome plan (λ plan. plan.begin ≡ None)) }
    {
        if !call.has_succeeded() {
            return Ok(None);
        }
        let list = list_of(&call.arguments).unwrap_or(b"".as_slice());
        let words = shortened(self.alloc, words_of(self.alloc, list)?)?;
        Ok(Some(Plan {
            begin: None,
            number: 0,
            messages: Vec::new(self.alloc),
            end: None,
            after: After::Start(words),
        }))
    }

    /// A process runs a program from now on, and has the descriptors that survive.
    pub(crate) fn start(&mut self, time: u64, thread: u64, words: &str) -> Result<(), Stop> {
        let process = self.process_of(thread)?;
        let set = self.set_of_process(process)?;
        let set = self.copied_set(set, true)?;
        self.files.insert(process, set)?;
        let parent = self.parents.get(&process).copied().unwrap_or(0);
        let said = format!(in self.alloc; "started {parent} {words}")?;
        self.write(time, thread, said.as_str())?;
        self.announce(time, thread)
    }
}

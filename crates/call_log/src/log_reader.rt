//! The lines of a log: its head, the lines of the language below it, and the listing of those that are wrong.

ghost use Rattle.std.specs.Prelude.{◌≡◌, ◌<◌, ◌≤◌, ℕ, List, [], ◌∷◌, IfOk, OnOk, IfNone, IfSome, IsNone, IsTrue, true, length, codes};
ghost use Rattle.call_log.specs.Listing.{IsListed, BeginsWith, head_word};
ghost use Rattle.call_log.specs.Reading.{Adds, AddsAny, IsNew, Reads, Takes, TakesLine};

use crate::call_table::narrow;
use crate::complete::ReadLog;
use crate::fault::LogFault;
use crate::head::Head;
use crate::pages::PageSize;
use crate::reader::CallReader;
use crate::strace::is_of_strace;
use crate::wrong::{Flaw, HeadFault, Wrong};
use foundation::NoMemory;
use lines::first_line;
use log_entries::{EntryReader, LogLine};
use std::alloc::Global;
use uffd_log::parse::parse;
use uffd_log::{Line, Token};

/// The most bytes of a line, with its line feed.
pub(crate) const LONGEST_LINE: usize = 4096;

/// The first line of a log.
const FIRST_LINE: &[u8] = b"uffdlog 1";

/// Takes the lines of one log.
#[derive(Drop)]
pub(crate) struct LogReader {
    name: String,
    calls: CallReader,
    pub(crate) entries: EntryReader,
    /// The listing of wrong lines that is not written yet.
    pub(crate) output: Vec<u8>,
    /// Whether no line was wrong.
    pub(crate) is_right: bool,
    /// The number of the last line.
    line: u32,
    head: Head,
    /// Kept for their room.
    tokens: Vec<Token>,
    text: String,
    listed: Vec<u8>,
}

/// What is wrong with the bytes of a line, if anything.
fn form_fault(bytes: &[u8], ended: bool) -> Option<Flaw>
    ensures short { IfNone result (length bytes.now < 4096) }
    ensures ended { IfNone result (ended ≡ true) }
{
    if bytes.len() >= LONGEST_LINE {
        return Some(Flaw::TooLong);
    }
    if !ended {
        return Some(Flaw::NoLineFeed);
    }
    if !bytes.iter().all(|byte| matches!(*byte, b' '..=b'~')) {
        return Some(Flaw::NotPrintable);
    }
    None
}

/// Whether a log may have this line with this number: the first is known.
fn may_be(number: u32, bytes: &[u8], ended: bool) -> bool
    ensures { IsTrue result → number ≡ 1 → bytes.now ≡ codes "uffdlog 1" }
{
    if number != 1 {
        return true;
    }
    ended && bytes == FIRST_LINE
}

/// How a packed file begins (RFC 1952, section 2.3.1).
const PACKED: &[u8] = &[0x1f, 0x8b];

/// Why an input is no log whose first line is this.
fn no_log_fault(bytes: &[u8]) -> LogFault {
    if is_of_strace(bytes) {
        LogFault::StraceOutput
    } else if bytes.starts_with(PACKED) {
        LogFault::Packed
    } else {
        LogFault::NotALog
    }
}

/// Puts the line of a listing in place of these bytes. The text is replaced.
fn print_listed(
    listed: &mut Vec<u8>,
    text: &mut String,
    name: &str,
    number: u32,
    wrong: Wrong,
) -> Result<(), NoMemory>
    ensures { OnOk result (IsListed name.now number listed.new.items) }
{
    text.clear();
    write!(text, "{name}:{number}: ")?;
    listed.clear();
    listed.extend_from_slice(text.as_bytes())?;
    text.clear();
    write!(text, "{wrong}")?;
    listed.extend_from_slice(first_line(text.as_bytes()))?;
    listed.extend_from_slice(b"\n")?;
    Ok(())
}

impl LogReader {
    /// One that has read nothing.
    pub(crate) fn new(alloc: Global, name: &str) -> Result<LogReader, NoMemory>
        ensures { IfOk result (IsNew name.now) }
    {
        let name = String::from_str(alloc, name)?;
        Ok(LogReader {
            name,
            calls: CallReader::new(alloc),
            entries: EntryReader::new(alloc),
            output: Vec::new(alloc),
            is_right: true,
            line: 0,
            head: Head::new(),
            tokens: Vec::new(alloc),
            text: String::new(alloc),
            listed: Vec::new(alloc),
        })
    }

    /// Lists the line that was read last.
    fn list(&mut self, wrong: Wrong) -> Result<(), NoMemory>
        ensures { OnOk result ((text : List ℕ) ×
            Adds self.old.line self.old (text ∷ []) self.new × (self.new.head ≡ self.old.head)
            × (self.new.entries ≡ self.old.entries)) }
    {
        print_listed(
            &mut self.listed,
            &mut self.text,
            self.name.as_str(),
            self.line,
            wrong,
        )?;
        self.output.extend_from_slice(&self.listed)?;
        self.is_right = false;
        Ok(())
    }

    /// The same, if anything is wrong with it.
    fn list_any(&mut self, wrong: Option<Wrong>) -> Result<(), NoMemory>
        ensures { OnOk result (AddsAny (IsNone wrong) self.old self.new) }
    {
        match wrong {
            Some(wrong) => self.list(wrong),
            None => Ok(()),
        }
    }

    /// Takes a line, given with at most 4,097 of its bytes and without its line feed.
    pub(crate) fn take_line(&mut self, bytes: &[u8], ended: bool) -> Result<(), LogFault>
        ensures { OnOk result (TakesLine self.old bytes.now ended self.new) }
    {
        let Some(line) = self.line.checked_add(1) else {
            return Err(LogFault::ReadFault);
        };
        if !may_be(line, bytes, ended) {
            return Err(no_log_fault(bytes));
        }
        self.line = line;
        match form_fault(bytes, ended) {
            Some(flaw) => {
                self.list(Wrong::Plain(flaw))?;
                Ok(())
            }
            None => {
                self.take(bytes)?;
                Ok(())
            }
        }
    }

    /// Takes a line that has the form of one.
    fn take(&mut self, bytes: &[u8]) -> Result<(), NoMemory>
        ensures { OnOk result (Takes self.old bytes.now self.new) }
    {
        if self.head.is_next(bytes) {
            return self.take_head(bytes);
        }
        let Some(line) = self.head.next_line() else {
            return self.take_below(bytes);
        };
        self.list(Wrong::Head(HeadFault::Missing(line)))?;
        self.head.end();
        self.take_below(bytes)
    }

    /// Takes the next line of the head.
    fn take_head(&mut self, bytes: &[u8]) -> Result<(), NoMemory>
        requires left { self.old.head.read < 6 }
        requires word { BeginsWith (head_word self.old.head.read) bytes.now }
        ensures { OnOk result (Takes self.old bytes.now self.new) }
    {
        let is_last = self.head.is_last();
        let wrong = self.head.take(&mut self.tokens, bytes)?;
        self.calls
            .note_head(bytes, is_last, PageSize(self.head.page))?;
        self.list_any(wrong)
    }

    /// Takes a line below the head.
    fn take_below(&mut self, bytes: &[u8]) -> Result<(), NoMemory>
        requires { 6 ≤ self.old.head.read }
        ensures { OnOk result (Takes self.old bytes.now self.new) }
    {
        let line = parse(&mut self.tokens, bytes)?;
        let first = self.entries.entries.len();
        self.enter(line)?;
        let entry = self.entry_after(first)?;
        let wrong = self
            .calls
            .take_line(self.line, line, entry, self.head.one_clock)?;
        self.list_any(wrong)
    }

    /// Takes the entries of a line, if it is one of the language.
    fn enter(&mut self, line: Option<Line>) -> Result<(), NoMemory>
        ensures read { OnOk result (IfSome line (λ one.
            Reads self.old.line one self.old.entries self.new.entries)) }
        ensures same { self.new ≡ record self.old { entries = self.new.entries } }
    {
        let Some(line) = line else {
            return Ok(());
        };
        let opens = self.calls.is_new(&line);
        let number = self.line;
        self.entries.take(LogLine { number, line }, opens)
    }

    /// The first entry that was added after this number of them, if any was.
    fn entry_after(&self, first: usize) -> Result<Option<u32>, NoMemory> {
        if self.entries.entries.len() > first {
            Ok(Some(narrow(first)?))
        } else {
            Ok(None)
        }
    }

    /// The log that was read.
    pub(crate) fn into_log(self) -> ReadLog
        ensures { result.entries ≡ self.entries }
    {
        let LogReader { calls, entries, .. } = self;
        ReadLog {
            table: calls.into_table(),
            entries,
        }
    }

    /// After the last line: a log without its whole head is wrong.
    pub(crate) fn finish(&mut self) -> Result<(), LogFault>
        ensures { OnOk result (AddsAny (6 ≤ self.old.head.read) self.old self.new) }
    {
        if self.line == 0 {
            return Err(LogFault::Empty);
        }
        match self.head.next_line() {
            Some(line) => {
                self.list(Wrong::Head(HeadFault::Ends(line)))?;
                Ok(())
            }
            None => Ok(()),
        }
    }
}

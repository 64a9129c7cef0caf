//! Why an entry is wrong.

use crate::account::Account;
use crate::differing::differing_parts;
use crate::span::Span;
use crate::stored::{MAX_STORES, stores_of};
use crate::stretches::{RangeOutcome, Stretch, stretches};
use crate::touch::{has_unmapped, mappers};
use crate::wrong::WrongReply;
use mig_base::{Addr, Command, Entry, Errno, HIGH, NoMemory, PAGE_SIZE, Place, Reply};
use std::alloc::Global;

/// The most parts of a range that are named.
const MAX_PARTS: usize = 8;

const NO_ENTRY: &str = "  no earlier entry decides this reply\n";

/// The line of a wrong entry, and the entries before it that decide its reply.
pub(crate) fn reason_of(
    alloc: Global,
    account: &Account<'_>,
    wrong: WrongReply,
) -> Result<String, NoMemory> {
    let mut text = String::new(alloc);
    let Some(entry) = account.entry(wrong.index) else {
        return Ok(text);
    };
    account.cite(&mut text, "  ", wrong.index)?;
    let reason = Reason {
        alloc,
        account,
        index: wrong.index,
        past: account.before(wrong.index),
        given: entry.reply,
        expected: wrong.expected,
    };
    reason.write_reason(&mut text, entry.command)?;
    Ok(text)
}

/// A wrong entry with what came before it.
#[derive(Drop)]
struct Reason<'a> {
    alloc: Global,
    account: &'a Account<'a>,
    index: usize,
    past: &'a [Entry],
    given: Reply,
    expected: Reply,
}

impl Reason<'_> {
    /// Whether either reply is this one.
    fn has_reply(&self, reply: Reply) -> bool {
        self.given == reply || self.expected == reply
    }

    /// Whether either reply depends on the words of the command alone.
    fn is_by_words(&self) -> bool {
        self.has_reply(Reply::BadAccess)
            || self.has_reply(Reply::Refused(Errno::Einval))
            || self.has_reply(Reply::Refused(Errno::Eperm))
    }

    fn write_reason(&self, text: &mut String, command: Command) -> Result<(), NoMemory> {
        if self.is_by_words() {
            text.push_str(NO_ENTRY)?;
            return Ok(());
        }
        match command {
            Command::Load { addr, width } => self.write_load(text, addr, width),
            Command::Store { addr, .. } => self.write_address(text, addr),
            Command::Mmap {
                addr_len,
                place,
                ..
            } => self.write_mmap(text, addr_len, place),
            Command::DontNeed { addr, len } => self.write_range(text, Span::pages(addr, len)),
            Command::Mremap {
                addr,
                old_len,
                new_len,
                ..
            } => { self.write_mremap(text, addr, old_len, new_len) }
            Command::Munmap { .. } => {
                text.push_str(NO_ENTRY)?;
                Ok(())
            }
        }
    }

    /// Of a load the bytes that differ, or whether its address is mapped.
    fn write_load(&self, text: &mut String, addr: Addr, width: u8) -> Result<(), NoMemory> {
        let (Reply::Value(given), Reply::Value(expected)) = (self.given, self.expected) else {
            return self.write_address(text, addr);
        };
        let parts = differing_parts(
            self.alloc,
            self.past,
            Span::bytes(addr, u64::from(width)),
            given ^ expected,
        )?;
        if parts.is_empty() {
            text.push_str("  the value has more bytes than the load\n")?;
            return Ok(());
        }
        for part in parts.iter() {
            let first = part.span.start;
            let last = part.span.end.saturating_sub(1);
            write!(text, "  bytes 0x{first:x} to 0x{last:x} differ:\n")?;
            self.cite_all(text, &part.holders)?;
        }
        self.write_stores(text, given, width)
    }

    /// Which entries stored the value that a load has read, if it is not 0.
    fn write_stores(&self, text: &mut String, value: u64, width: u8) -> Result<(), NoMemory> {
        if value == 0 {
            return Ok(());
        }
        let entries = self.account.answered();
        let stores = stores_of(self.alloc, entries, self.index, value, width)?;
        if stores.indexes.is_empty() {
            write!(text, "  no entry stores 0x{value:x}\n")?;
            return Ok(());
        }
        let which = match (stores.are_later, stores.indexes.len() < MAX_STORES) {
            (false, true) => "was stored:",
            (false, false) => "was stored, last by:",
            (true, true) => "is stored only later:",
            (true, false) => "is stored only later, first by:",
        };
        write!(text, "  0x{value:x} {which}\n")?;
        self.cite_all(text, &stores.indexes)
    }

    fn cite_all(&self, text: &mut String, indexes: &[usize]) -> Result<(), NoMemory> {
        for index in indexes {
            self.account.cite(text, "    ", *index)?;
        }
        Ok(())
    }

    /// Whether an address is mapped, and by which entries.
    fn write_address(&self, text: &mut String, addr: Addr) -> Result<(), NoMemory> {
        let mappers = mappers(self.alloc, self.past, addr)?;
        let last = match mappers.last() {
            Some(index) => self.past.get(*index),
            None => None,
        };
        match last {
            None => write!(text, "  0x{addr:x} was never mapped\n")?,
            Some(entry) if has_unmapped(entry, addr) => write!(
                text,
                "  0x{addr:x} is not mapped:\n"
            )?,
            Some(_) => write!(text, "  0x{addr:x} is mapped:\n")?,
        }
        self.cite_all(text, &mappers)
    }

    /// Of an mmap the places that either reply names, and the one that must be free.
    fn write_mmap(&self, text: &mut String, len: u64, place: Place) -> Result<(), NoMemory> {
        let is_placed = match place {
            Place::Anywhere => self.write_places(text, None, len)?,
            Place::NoReplace(addr) if self.has_reply(Reply::Refused(Errno::Eexist)) => {
                self.write_range(text, Span::pages(addr, len))?;
                true
            }
            _ => false,
        };
        let is_counted = self.write_count(text)?;
        if !is_placed && !is_counted {
            text.push_str(NO_ENTRY)?;
        }
        Ok(())
    }

    /// Of an mremap the old range, what it grows over, and the places that either reply names.
    fn write_mremap(
        &self,
        text: &mut String,
        addr: Addr,
        old_len: u64,
        new_len: u64,
    ) -> Result<(), NoMemory> {
        let old = Span::pages(addr, old_len);
        let new = Span::pages(addr, new_len);
        self.write_range(text, old)?;
        if old.end < new.end {
            self.write_range(
                text,
                Span {
                    start: old.end,
                    end: new.end,
                },
            )?;
        }
        self.write_places(text, Some(addr), new_len)?;
        self.write_count(text)?;
        Ok(())
    }

    /// The places of `len` bytes that the replies name, but for the one at `old`. Says whether there is one.
    fn write_places(
        &self,
        text: &mut String,
        old: Option<Addr>,
        len: u64,
    ) -> Result<bool, NoMemory> {
        let mut is_named = false;
        for reply in [self.given, self.expected] {
            if let Reply::At(start) = reply {
                if old != Some(start) {
                    self.write_range(text, Span::pages(start, len))?;
                    is_named = true;
                }
            }
        }
        Ok(is_named)
    }

    /// How many pages are mapped, where a reply says that there is no room, and whether one does.
    fn write_count(&self, text: &mut String) -> Result<bool, NoMemory> {
        if !self.has_reply(Reply::Refused(Errno::Enomem)) {
            return Ok(false);
        }
        let mut bytes = 0u64;
        // All that may be mapped, and what lies below it.
        let whole = Span {
            start: 0,
            end: HIGH,
        };
        for stretch in stretches(self.alloc, self.past, whole)?.iter() {
            if let RangeOutcome::Mapped { .. } = stretch.fate {
                bytes = bytes.saturating_add(stretch.span.len());
            }
        }
        let pages = bytes / PAGE_SIZE;
        write!(text, "  {pages} pages are mapped\n")?;
        Ok(true)
    }

    /// Which parts of a range are mapped, and by which entries.
    fn write_range(&self, text: &mut String, span: Span) -> Result<(), NoMemory> {
        let parts = stretches(self.alloc, self.past, span)?;
        for part in parts.iter().take(MAX_PARTS) {
            self.write_stretch(text, *part)?;
        }
        if parts.len() > MAX_PARTS {
            let more = parts.len() - MAX_PARTS;
            write!(text, "  and {more} parts more\n")?;
        }
        Ok(())
    }

    fn write_stretch(&self, text: &mut String, part: Stretch) -> Result<(), NoMemory> {
        let first = part.span.start;
        let last = part.span.end.saturating_sub(1);
        match part.fate {
            RangeOutcome::NeverMapped => write!(
                text,
                "  0x{first:x} to 0x{last:x} was never mapped\n"
            )?,
            RangeOutcome::Mapped { by } => {
                write!(text, "  0x{first:x} to 0x{last:x} is mapped:\n")?;
                self.account.cite(text, "    ", by)?;
            }
            RangeOutcome::Unmapped { by } => {
                write!(text, "  0x{first:x} to 0x{last:x} is free:\n")?;
                self.account.cite(text, "    ", by)?;
            }
        }
        Ok(())
    }
}

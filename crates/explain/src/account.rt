//! A transcript that was read and replayed.

use crate::wrong::WrongReply;
use grammar::EntryText;
use mig_base::{Entry, NoMemory};
use std::alloc::Global;

/// The entries of a transcript, and the lines that they are in.
#[derive(Drop)]
pub(crate) struct Account<'a> {
    /// As the transcript has them.
    entries: &'a [Entry],
    /// The same with the replies of the flat memory.
    answered: Vec<Entry>,
    /// The number of the line of each.
    lines: &'a [u64],
}

impl<'a> Account<'a> {
    /// The account of entries of which these are wrong.
    pub(crate) fn new(
        alloc: Global,
        entries: &'a [Entry],
        wrongs: &[WrongReply],
        lines: &'a [u64],
    ) -> Result<Account<'a>, NoMemory> {
        let mut answered = Vec::with_capacity(alloc, entries.len())?;
        answered.extend_from_slice(entries)?;
        for wrong in wrongs {
            if let Some(entry) = answered.get_mut(wrong.index) {
                entry.reply = wrong.expected;
            }
        }
        Ok(Account {
            entries,
            answered,
            lines,
        })
    }

    /// The entry at an index, as the transcript has it.
    pub(crate) fn entry(&self, index: usize) -> Option<Entry> {
        self.entries.get(index).copied()
    }

    /// The entries before an index, with the replies of the flat memory.
    pub(crate) fn before(&self, index: usize) -> &[Entry] {
        self.answered.get(..index).unwrap_or(&[])
    }

    /// All entries, with the replies of the flat memory.
    pub(crate) fn answered(&self) -> &[Entry] {
        &self.answered
    }

    /// Appends the number of an entry's line, its own number and its text to a text, in a line of its own.
    pub(crate) fn cite(
        &self,
        text: &mut String,
        indent: &str,
        index: usize,
    ) -> Result<(), NoMemory> {
        if let (Some(entry), Some(number)) = (self.entries.get(index), self.lines.get(index)) {
            let entry = EntryText(*entry);
            write!(text, "{indent}line {number}, entry {index}: {entry}\n")?;
        }
        Ok(())
    }
}

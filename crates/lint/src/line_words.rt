//! The words of a line, and where each is.

use grammar::token::next_word;

/// A word of a line.
#[derive(Clone, Copy)]
pub(crate) struct Word<'a> {
    pub(crate) text: &'a [u8],
    /// Where its first byte is in the line, counted from 1.
    pub(crate) column: usize,
}

impl Word<'_> {
    /// Whether it is this word.
    pub(crate) fn is(self, text: &[u8]) -> bool {
        self.text == text
    }
}

/// The words that are left of a part of a line.
#[derive(Clone, Copy)]
pub(crate) struct Words<'a> {
    rest: &'a [u8],
    /// How many bytes of the line come before the end of the part.
    end: usize,
    /// The column after the last word that was taken.
    pub(crate) after: usize,
}

impl<'a> Words<'a> {
    /// The words of a part that begins at this offset of its line.
    pub(crate) fn new(part: &'a [u8], offset: usize) -> Words<'a> {
        Words {
            rest: part,
            end: offset.saturating_add(part.len()),
            after: offset.saturating_add(1),
        }
    }

    /// Takes the next word.
    pub(crate) fn next(&mut self) -> Option<Word<'a>> {
        let (text, behind) = next_word(self.rest)?;
        self.rest = behind;
        self.after = self.end.saturating_sub(behind.len()).saturating_add(1);
        Some(Word {
            text,
            column: self.after.saturating_sub(text.len()),
        })
    }

    /// The next word, which is not taken.
    pub(crate) fn peek(self) -> Option<Word<'a>> {
        let mut ahead = self;
        ahead.next()
    }
}

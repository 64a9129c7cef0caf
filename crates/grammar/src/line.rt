//! Lines and their languages.

use crate::order::Order;
use mig_base::Entry;

/// The language in which lines are written.
#[derive(Clone, Copy, Debug, PartialEq, Eq)]
pub enum Language {
    /// Orders for a world.
    Script,
    /// Commands that took effect, with their replies.
    Transcript,
}

/// What a line says.
#[derive(Clone, Copy, Debug, PartialEq, Eq)]
pub enum Line {
    /// Nothing: the line is empty, or a comment.
    Skipped,
    /// An order for a world.
    Do(Order),
    /// A command took effect.
    Enter(Entry),
}

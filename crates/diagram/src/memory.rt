//! Memory for what a picture is made from.

use crate::text::{Part, push_all};
use std::alloc::Global;

/// Memory for lists and texts. Where it runs out, the work continues with what there is, and the picture is not made in the end.
#[derive(Clone, Copy)]
pub(crate) struct Memory {
    pub alloc: Global,
    /// False once memory ran out.
    pub whole: bool,
}

impl Memory {
    /// Notes whether there was memory for something.
    pub(crate) fn note(&mut self, found: bool) {
        if !found {
            self.whole = false;
        }
    }

    /// Appends an item to a list.
    pub(crate) fn push<T: Copy>(&mut self, list: &mut Vec<T>, item: T) {
        let found = list.push(item).is_ok();
        self.note(found);
    }

    /// A list that has an item `count` times.
    pub(crate) fn filled<T: Copy>(&mut self, item: T, count: usize) -> Vec<T> {
        match vec![in self.alloc; item; count] {
            Ok(list) => list,
            Err(_) => {
                self.whole = false;
                Vec::new(self.alloc)
            }
        }
    }

    /// Appends parts to a text.
    pub(crate) fn write(&mut self, text: &mut String, parts: &[Part]) {
        let found = push_all(text, parts).is_ok();
        self.note(found);
    }

    /// A text of parts.
    pub(crate) fn text(&mut self, parts: &[Part]) -> String {
        let mut text = String::new(self.alloc);
        self.write(&mut text, parts);
        text
    }
}

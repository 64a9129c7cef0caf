//! A picture that is being written.

ghost use Rattle.std.specs.Prelude.{◌≡◌, ◌++◌, IfOk, OnOk};
ghost use Rattle.diagram.specs.Escapes.{escaped};
ghost use Rattle.diagram.specs.Given.{all_given};
ghost use Rattle.diagram.specs.Trees.{IsPicture, start_tag};

use crate::escape::push_escaped;
use crate::name::Tag;
use crate::tags::{Attribute, push_end, push_start};
use mig_base::NoMemory;
use std::alloc::Global;
use std::marker::Model;

/// A picture that is being written: an `svg` element, and its content so far.
#[derive(Drop)]
pub(crate) struct Sheet {
    bytes: Vec<u8>,
    /// The elements inside `svg` that are open, the innermost last.
    inner: Vec<Tag>,
    /// False once a call ran out of memory.
    whole: bool,
}

impl Model for Sheet {
    ghost use Rattle.std.specs.Prelude.{ℕ, List};
    ghost use Rattle.diagram.specs.Sheets.{IsSheet};

    ghost Value = { List ℕ };

    ghost view = { λ s. s.bytes.items };

    ghost invariant = { λ s. IsSheet s.whole s.inner.items s.bytes.items };
}

impl Sheet {
    /// A picture with nothing inside its `svg` element, which has these attributes.
    pub(crate) fn new(alloc: Global, attributes: &[Attribute]) -> Result<Sheet, NoMemory>
        ensures { IfOk result (λ sheet. sheet ≡ start_tag Tag.Svg (all_given attributes.now)) }
    {
        let mut bytes = Vec::new(alloc);
        push_start(&mut bytes, Tag::Svg, attributes)?;
        Ok(Sheet {
            bytes,
            inner: Vec::new(alloc),
            whole: true,
        })
    }

    /// Opens an element inside the innermost that is open. After `NoMemory` the picture cannot be finished.
    pub(crate) fn begin(&mut self, tag: Tag, attributes: &[Attribute]) -> Result<(), NoMemory>
        ensures { OnOk result (self.new ≡ self.old ++ start_tag tag (all_given attributes.now)) }
    {
        let whole = self.whole;
        self.whole = false;
        push_start(&mut self.bytes, tag, attributes)?;
        self.inner.push(tag)?;
        self.whole = whole;
        Ok(())
    }

    /// Writes a text inside the innermost element that is open. After `NoMemory` the picture cannot be finished.
    pub(crate) fn write(&mut self, text: &[u8]) -> Result<(), NoMemory>
        ensures { OnOk result (self.new ≡ self.old ++ escaped text.now) }
    {
        let whole = self.whole;
        self.whole = false;
        push_escaped(&mut self.bytes, text)?;
        self.whole = whole;
        Ok(())
    }

    /// Closes the innermost element that is open; the `svg` element stays open. After `NoMemory` the picture cannot be finished.
    pub(crate) fn close(&mut self) -> Result<(), NoMemory> {
        let whole = self.whole;
        let Some(tag) = self.inner.pop() else {
            return Ok(());
        };
        self.whole = false;
        push_end(&mut self.bytes, tag)?;
        self.whole = whole;
        Ok(())
    }

    /// Closes all elements, and returns the text of the picture. An earlier call that ran out of memory makes it `NoMemory`, too.
    pub(crate) fn finish(self) -> Result<Vec<u8>, NoMemory>
        ensures { IfOk result (λ bytes. IsPicture bytes.items) }
    {
        let mut sheet = self;
        for _ in 0..sheet.inner.len() {
            sheet.close()?;
        }
        let Sheet {
            mut bytes,
            inner,
            whole,
        } = sheet;
        if !whole || !inner.is_empty() {
            return Err(NoMemory);
        }
        push_end(&mut bytes, Tag::Svg)?;
        Ok(bytes)
    }
}

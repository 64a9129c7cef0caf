//! Drawing shapes and words on a sheet.

ghost use Rattle.std.specs.Prelude.{IfOk};
ghost use Rattle.diagram.specs.Trees.{IsPicture};

use crate::class::Class;
use crate::memory::Memory;
use crate::name::{Key, Tag};
use crate::sheet::Sheet;
use crate::tags::Attribute;
use crate::text::Part::{At, Length, Words};
use crate::text::{Part, Place, width_of};
use mig_base::NoMemory;

/// A box: where it begins, and how large it is.
#[derive(Clone, Copy)]
pub(crate) struct Frame {
    pub x: u64,
    pub y: u64,
    pub width: u64,
    pub height: u64,
}

/// A part of a length: as much of it as the part is of the whole.
pub(crate) fn share(length: u64, part: u64, whole: u64) -> u64 {
    length.saturating_mul(part).checked_div(whole).unwrap_or(0)
}

/// A height above or below another.
fn shifted(y: u64, by: u64, up: bool) -> u64 {
    if up {
        y.saturating_sub(by)
    } else {
        y.saturating_add(by)
    }
}

/// The two ends of the head of an arrow, which leads to the right, straight down or straight up.
fn head(from: Place, to: Place) -> (Place, Place) {
    let across = to.0.abs_diff(from.0);
    let down = to.1.abs_diff(from.1);
    let falls = to.1 > from.1;
    // About the arrow's length: exact along the axes, and seven hundredths too much at worst.
    let length = across
        .max(down)
        .saturating_add(across.min(down).saturating_mul(3) / 8);
    let x = to.0.saturating_sub(share(55, across, length));
    let y = shifted(to.1, share(55, down, length), falls);
    let right = x.saturating_add(share(26, down, length));
    let left = x.saturating_sub(share(26, down, length));
    let aside = share(26, across, length);
    (
        (right, shifted(y, aside, falls)),
        (left, shifted(y, aside, !falls)),
    )
}

/// A sheet that is drawn on. Where memory runs out the drawing continues without it, and `finish` says so: a sheet remembers that too.
pub(crate) struct Pen {
    sheet: Sheet,
    pub memory: Memory,
    /// Room for the attribute of a shape, or for words.
    text: String,
    /// The title of the next shape, if it is not empty.
    name: String,
}

// Written by hand, so that each exit of a function that owns a pen has one call instead of the drops of all parts.
impl Drop for Pen {
    fn drop(self) {
        let Pen {
            sheet: _sheet,
            memory: _memory,
            text: _text,
            name: _name,
        } = self;
    }
}

impl Pen {
    /// A pen for a sheet.
    pub(crate) fn new(memory: Memory, sheet: Sheet) -> Pen {
        Pen {
            sheet,
            memory,
            text: String::new(memory.alloc),
            name: String::new(memory.alloc),
        }
    }

    /// The text of the sheet, if there was memory for all that was drawn.
    pub(crate) fn finish(self) -> Result<Vec<u8>, NoMemory>
        ensures { IfOk result (λ picture. IsPicture picture.items) }
    {
        let Pen {
            sheet,
            memory,
            text: _text,
            name: _name,
        } = self;
        if !memory.whole {
            return Err(NoMemory);
        }
        sheet.finish()
    }

    /// Puts a text into the room for one.
    fn say(&mut self, parts: &[Part]) {
        self.text.clear();
        self.memory.write(&mut self.text, parts);
    }

    /// Gives the next shape a title.
    pub(crate) fn name(&mut self, parts: &[Part]) {
        self.memory.write(&mut self.name, parts);
    }

    /// How wide a text is, at a size in tenths of a pixel.
    pub(crate) fn width(&mut self, parts: &[Part], size: u64) -> u64 {
        self.say(parts);
        width_of(self.text.len(), size)
    }

    /// Opens an element with attributes.
    pub(crate) fn open(&mut self, tag: Tag, attributes: &[Attribute]) {
        let _ = self.sheet.begin(tag, attributes);
    }

    /// Closes the open element.
    pub(crate) fn close(&mut self) {
        let _ = self.sheet.close();
    }

    /// Writes an element that has only a text.
    pub(crate) fn element(&mut self, tag: Tag, text: &[u8]) {
        let _ = self.sheet.begin(tag, &[]);
        let _ = self.sheet.write(text);
        let _ = self.sheet.close();
    }

    /// Opens an element of a class, with an attribute of this text.
    fn begin(&mut self, tag: Tag, class: Class, key: Key, parts: &[Part]) {
        self.say(parts);
        let attributes = [
            Attribute {
                key: Key::Class,
                value: class.name().as_bytes(),
            },
            Attribute {
                key,
                value: self.text.as_bytes(),
            },
        ];
        let _ = self.sheet.begin(tag, &attributes);
    }

    /// Draws a path, with its title.
    pub(crate) fn path(&mut self, class: Class, shape: &[Part]) {
        self.begin(Tag::Path, class, Key::Shape, shape);
        if !self.name.is_empty() {
            let _ = self.sheet.begin(Tag::Title, &[]);
            let _ = self.sheet.write(self.name.as_bytes());
            let _ = self.sheet.close();
            self.name.clear();
        }
        let _ = self.sheet.close();
    }

    /// Draws a rectangle.
    pub(crate) fn rectangle(&mut self, class: Class, frame: Frame) {
        let shape = [
            Words("M"),
            At((frame.x, frame.y)),
            Words("h"),
            Length(frame.width),
            Words("v"),
            Length(frame.height),
            Words("h-"),
            Length(frame.width),
            Words("z"),
        ];
        self.path(class, &shape);
    }

    /// Draws a line.
    pub(crate) fn line(&mut self, class: Class, from: Place, to: Place) {
        self.path(class, &[Words("M"), At(from), Words("L"), At(to)]);
    }

    /// Draws an arrow.
    pub(crate) fn arrow(&mut self, class: Class, from: Place, to: Place) {
        let (right, left) = head(from, to);
        let shape = [
            Words("M"),
            At(from),
            Words("L"),
            At(to),
            Words("M"),
            At(right),
            Words("L"),
            At(to),
            Words("M"),
            At(left),
            Words("L"),
            At(to),
        ];
        self.path(class, &shape);
    }

    /// Draws a cross.
    pub(crate) fn cross(&mut self, class: Class, at: Place, reach: u64) {
        let left = at.0.saturating_sub(reach);
        let right = at.0.saturating_add(reach);
        let top = at.1.saturating_sub(reach);
        let bottom = at.1.saturating_add(reach);
        let shape = [
            Words("M"),
            At((left, top)),
            Words("L"),
            At((right, bottom)),
            Words("M"),
            At((left, bottom)),
            Words("L"),
            At((right, top)),
        ];
        self.path(class, &shape);
    }

    /// Draws a disk.
    pub(crate) fn disk(&mut self, class: Class, at: Place, reach: u64) {
        let across = reach.saturating_mul(2);
        let shape = [
            Words("M"),
            At((at.0.saturating_sub(reach), at.1)),
            Words("a"),
            At((reach, reach)),
            Words(" 0 0 0 "),
            Length(across),
            Words(" 0a"),
            At((reach, reach)),
            Words(" 0 0 0 -"),
            Length(across),
            Words(" 0"),
        ];
        self.path(class, &shape);
    }

    /// Opens words at a place, turned so.
    fn begin_words(&mut self, class: Class, at: Place, turn: &str) {
        let place = [Words("translate("), At(at), Words(")"), Words(turn)];
        self.begin(Tag::Text, class, Key::Transform, &place);
    }

    /// Writes words.
    pub(crate) fn words(&mut self, class: Class, at: Place, words: &[Part]) {
        self.begin_words(class, at, "");
        self.say(words);
        let _ = self.sheet.write(self.text.as_bytes());
        let _ = self.sheet.close();
    }

    /// Writes a text at a place, turned so.
    pub(crate) fn turned(&mut self, class: Class, at: Place, turn: &str, text: &str) {
        self.begin_words(class, at, turn);
        let _ = self.sheet.write(text.as_bytes());
        let _ = self.sheet.close();
    }

    /// Writes a word.
    pub(crate) fn word(&mut self, class: Class, at: Place, word: &str) {
        self.turned(class, at, "", word);
    }
}

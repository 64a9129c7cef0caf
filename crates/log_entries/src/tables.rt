//! What the events of a log have in common, each kept once: shapes of calls and answers; and what calls have read, one after another.

ghost use Rattle.std.specs.Prelude.{◌≡◌, true, Some, slice_get, IfOk, IfSome};
ghost use Rattle.log_entries.specs.Stores.{part_of, IsGrown, IsPart};

use foundation::NoMemory;
use kernel_rules::{Made, Run};
use std::alloc::Global;
use uffd_log::{Answer, Message};

/// How many entries at the end of a table are searched: calls that say the same are mostly near each other.
const NEAR: usize = 64;

/// A part of a list: the index of its first item, and how many items it has.
#[derive(Clone, Copy)]
pub(crate) struct Span {
    pub(crate) first: u32,
    pub(crate) count: u32,
}

/// Shapes of calls, answers, and the messages and runs of pages of all calls.
#[derive(Drop)]
pub(crate) struct Tables {
    pub(crate) shapes: Vec<Made>,
    pub(crate) answers: Vec<Answer>,
    pub(crate) messages: Vec<Message>,
    pub(crate) runs: Vec<Run>,
}

/// An index or a count as a table keeps it. `NoMemory` where it is too large.
fn kept_number(number: usize) -> Result<u32, NoMemory>
    ensures { IfOk result (λ kept. kept ≡ number) }
{
    match u32::try_from(number) {
        Ok(kept) => Ok(kept),
        Err(_) => Err(NoMemory),
    }
}

/// Whether two shapes are the same.
fn is_same(one: Made, other: Made) -> bool
    ensures { result ≡ true → one ≡ other }
{
    one == other
}

/// The index of an equal shape near the end of a table.
fn find_shape(shapes: &[Made], shape: Made) -> Option<usize>
    ensures { IfSome result (λ at. slice_get shapes.now at ≡ Some shape) }
{
    for at in shapes.len().saturating_sub(NEAR)..shapes.len() {
        if is_same(shapes[at], shape) {
            return Some(at);
        }
    }
    None
}

/// The index of an equal answer near the end of a table.
fn find_answer(answers: &[Answer], answer: Answer) -> Option<usize>
    ensures { IfSome result (λ at. slice_get answers.now at ≡ Some answer) }
{
    for at in answers.len().saturating_sub(NEAR)..answers.len() {
        if answers[at] == answer {
            return Some(at);
        }
    }
    None
}

impl Tables {
    /// Empty tables.
    pub(crate) fn new(alloc: Global) -> Tables {
        Tables {
            shapes: Vec::new(alloc),
            answers: Vec::new(alloc),
            messages: Vec::new(alloc),
            runs: Vec::new(alloc),
        }
    }

    /// The index of a shape. It is added if it is not near the end.
    pub(crate) fn shape_number(&mut self, shape: Made) -> Result<u32, NoMemory>
        ensures grown { IsGrown self.old self.new }
        ensures found { IfOk result (λ n. slice_get self.new.shapes.items n ≡ Some shape) }
    {
        if let Some(at) = find_shape(&self.shapes, shape) {
            return kept_number(at);
        }
        let number = kept_number(self.shapes.len())?;
        match self.shapes.push(shape) {
            Ok(()) => Ok(number),
            Err(_) => Err(NoMemory),
        }
    }

    /// The index of an answer. It is added if it is not near the end.
    pub(crate) fn answer_number(&mut self, answer: Answer) -> Result<u32, NoMemory>
        ensures grown { IsGrown self.old self.new }
        ensures found { IfOk result (λ n. slice_get self.new.answers.items n ≡ Some answer) }
    {
        if let Some(at) = find_answer(&self.answers, answer) {
            return kept_number(at);
        }
        let number = kept_number(self.answers.len())?;
        match self.answers.push(answer) {
            Ok(()) => Ok(number),
            Err(_) => Err(NoMemory),
        }
    }

    /// Adds messages.
    pub(crate) fn add_messages(&mut self, messages: &[Message]) -> Result<Span, NoMemory>
        ensures grown { IsGrown self.old self.new }
        ensures part { IfOk result (λ span. IsPart span self.new.messages.items) }
        ensures added { IfOk result (λ span. part_of span self.new.messages.items ≡ messages.now) }
    {
        let first = kept_number(self.messages.len())?;
        let count = kept_number(messages.len())?;
        match self.messages.extend_from_slice(messages) {
            Ok(()) => Ok(Span { first, count }),
            Err(_) => Err(NoMemory),
        }
    }

    /// Adds runs of pages.
    pub(crate) fn add_runs(&mut self, runs: &[Run]) -> Result<Span, NoMemory>
        ensures grown { IsGrown self.old self.new }
        ensures part { IfOk result (λ span. IsPart span self.new.runs.items) }
        ensures added { IfOk result (λ span. part_of span self.new.runs.items ≡ runs.now) }
    {
        let first = kept_number(self.runs.len())?;
        let count = kept_number(runs.len())?;
        match self.runs.extend_from_slice(runs) {
            Ok(()) => Ok(Span { first, count }),
            Err(_) => Err(NoMemory),
        }
    }
}

//! Listing the lines of a script or of a transcript that are wrong.

ghost use Rattle.std.specs.Prelude.{◌≡◌, true, OnOk, IfOk, IfNone, IfSome};
ghost use Rattle.engine.specs.Lines.{held_line};
ghost use Rattle.lint.specs.Listing.{IsListed};
ghost use Rattle.lint.specs.Parts.{IsOfLanguage, Takes};

use crate::reason::{Reason, reason_of};
use engine::RunFault;
use engine::line_reader::LineSink;
use engine::script_reader::MAX_LINE;
use grammar::parse::parse;
use grammar::{Language, Token};
use lines::{first_line, text_of};
use mig_base::NoMemory;
use std::alloc::Global;

/// Why a line is wrong that begins with these bytes and has this number of them; none if it is a line of the language. The tokens are
/// replaced.
fn wrong_in<'a>(
    language: Language,
    tokens: &mut Vec<Token>,
    front: &'a [u8],
    len: u64,
    ended: bool,
) -> Result<Option<Reason<'a>>, NoMemory>
    ensures right { IfOk result (λ found.
        IfNone found (IsOfLanguage language (held_line front.now len ended))) }
    ensures wrong { IfOk result (λ found.
        IfSome found (λ reason. IsOfLanguage language (held_line front.now len ended) → ⊥)) }
{
    if len > MAX_LINE as u64 {
        return Ok(Some(Reason::too_long(len)));
    }
    let text = text_of(front, ended);
    match parse(language, tokens, text)? {
        Some(_) => Ok(None),
        None => Ok(Some(reason_of(text, language))),
    }
}

/// Puts the line of a listing in place of these bytes. The text is replaced.
fn print_listed(
    line: &mut Vec<u8>,
    text: &mut String,
    name: &str,
    number: u64,
    reason: &Reason,
) -> Result<(), NoMemory>
    ensures { OnOk result (IsListed name.now number line.new.items) }
{
    let column = reason.column;
    text.clear();
    write!(text, "{name}:{number}:{column}: ")?;
    line.clear();
    line.extend_from_slice(text.as_bytes())?;
    text.clear();
    write!(text, "{reason}")?;
    line.extend_from_slice(first_line(text.as_bytes()))?;
    line.extend_from_slice(b"\n")?;
    Ok(())
}

/// Lists wrong lines.
#[derive(Drop)]
pub(crate) struct Linter<'a> {
    /// The name that is listed with each.
    name: &'a str,
    language: Language,
    /// Whether no line was listed.
    pub(crate) clean: bool,
    /// The tokens of the last line, kept for their room.
    tokens: Vec<Token>,
    /// The text that was printed last, kept for its room.
    text: String,
    /// The line that was listed last, kept for its room.
    listed: Vec<u8>,
}

impl<'a> Linter<'a> {
    /// One that has listed nothing.
    pub(crate) fn new(alloc: Global, name: &'a str, language: Language) -> Linter<'a>
        ensures name { result.name.now ≡ name.now }
        ensures language { result.language ≡ language }
        ensures clean { result.clean ≡ true }
    {
        Linter {
            name,
            language,
            clean: true,
            tokens: Vec::new(alloc),
            text: String::new(alloc),
            listed: Vec::new(alloc),
        }
    }
}

impl LineSink for Linter<'_> {
    ghost takes = { Takes };

    ghost refuses = { λ _ _ _. ⊥ };

    fn take_line(
        &mut self,
        number: u64,
        front: &[u8],
        len: u64,
        ended: bool,
        output: &mut Vec<u8>,
    ) -> Result<(), RunFault> {
        let Some(reason) = wrong_in(self.language, &mut self.tokens, front, len, ended)? else {
            return Ok(());
        };
        print_listed(&mut self.listed, &mut self.text, self.name, number, &reason)?;
        output.extend_from_slice(&self.listed)?;
        self.clean = false;
        Ok(())
    }

    fn overrun(&self, _number: u64) -> Result<(), RunFault> {
        Ok(())
    }
}

//! Drawing a script that is read from a reader.

ghost use Rattle.std.specs.Prelude.{◌≡◌, ◌≤◌, IfOk, OnOk};
ghost use Rattle.diagram.specs.Drawing.{Draws};
ghost use Rattle.diagram.specs.Trees.{IsPicture};

use crate::recorder::Recorder;
use diagram::paint;
use engine::line_runner::write_out;
use engine::whole_input::{read_whole, short_text};
use engine::{NamedScript, RunFault};
use grammar::parse::parse;
use grammar::{Language, Line, Token};
use lines::Lines;
use std::alloc::Global;
use std::io::{Read, Write};

/// Does the line with this number and text. The tokens are replaced.
fn do_line(
    recorder: &mut Recorder,
    tokens: &mut Vec<Token>,
    number: u64,
    text: &[u8],
) -> Result<(), RunFault> {
    let Some(line) = parse(Language::Script, tokens, text)? else {
        return Err(RunFault::Line(number));
    };
    if let Line::Do(order) = line
        && let Some(step) = order.step(recorder.epoch())
    {
        recorder.make(number.min(u64::from(u32::MAX)) as u32, text, step)?;
    }
    Ok(())
}

/// Does all lines of a script.
fn do_lines(alloc: Global, recorder: &mut Recorder, input: &[u8]) -> Result<(), RunFault> {
    let mut tokens = Vec::new(alloc);
    for line in Lines::new(input) {
        do_line(recorder, &mut tokens, line.number, short_text(line)?)?;
    }
    Ok(())
}

/// The picture of a script.
fn picture_in(alloc: Global, input: &[u8], script: NamedScript<'_>) -> Result<Vec<u8>, RunFault>
    ensures { IfOk result (λ picture. IsPicture picture.items) }
{
    let mut recorder = Recorder::new(alloc, script.cpus)?;
    do_lines(alloc, &mut recorder, input)?;
    Ok(paint(alloc, &recorder.record, script.name)?)
}

/// The picture of the script that a reader has.
fn picture_of<R: Read>(
    alloc: Global,
    reader: &mut R,
    script: NamedScript<'_>,
) -> Result<Vec<u8>, RunFault>
    ensures { IfOk result (λ picture. IsPicture picture.items) }
{
    let mut input = Vec::new(alloc);
    read_whole(reader, &mut input)?;
    picture_in(alloc, &input, script)
}

/// Reads a script, makes its steps on a new world, and writes the picture of what they did, by its name. Reports of progress are not drawn.
///
/// The whole input is read before the first step, and the whole picture is made before it is written: at any fault but a write fault
/// nothing is written. A line is wrong where [`engine::run_script`] finds it wrong.
pub fn run_draw<R: Read, W: Write>(
    alloc: Global,
    reader: &mut R,
    writer: &mut W,
    script: NamedScript<'_>,
) -> Result<(), RunFault>
    requires low { 1 ≤ script.cpus }
    requires high { script.cpus ≤ 16 }
    ensures { OnOk result (Draws (W.contents writer.old) (W.contents writer.new)) }
{
    let picture = picture_of(alloc, reader, script)?;
    write_out(writer, &picture)
}

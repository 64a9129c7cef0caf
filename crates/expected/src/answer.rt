//! Writing the answers that the lines of a script have now.

ghost use Rattle.std.specs.Prelude.{◌≤◌, ◌<◌, ◌+◌, ◌^◌, length};

use crate::cut::{ARROW, split_answer};
use crate::player::Player;
use engine::RunFault;
use engine::line_runner::write_out;
use engine::script_reader::MAX_LINE;
use engine::whole_input::{read_whole, short_text};
use grammar::parse::parse;
use grammar::{Language, Token};
use lines::{Line, Lines};
use mig_base::NoMemory;
use std::alloc::Global;
use std::io::{Read, Write};

/// Where an output begins that stands beside its order: after the longest store.
const COLUMN: usize = 44;

/// Reads a script, or a test, on a new world, and writes it as a test: each order with ` => ` and its output after it. An answer that
/// is there already is replaced. Other lines stay as they are, and so does an order that would be longer than 256 bytes with its
/// answer. Each line is written with a line feed. The world has as many processors as the first line says, and otherwise `cpus`, 1 to 16.
///
/// A line is wrong where [`test_script`](crate::test_script) finds it wrong; then what comes before it is written. At any other fault but
/// a write fault nothing is written. The whole input is kept until the end, and so is what is written.
pub fn answer_script<R: Read, W: Write>(
    alloc: Global,
    reader: &mut R,
    writer: &mut W,
    cpus: u8,
) -> Result<(), RunFault>
    requires low { 1 ≤ cpus }
    requires high { cpus ≤ 16 }
{
    let mut answerer = Answerer::new(alloc, cpus, Places::Every)?;
    answerer.write_answers(reader, writer)
}

/// The same for a reader: the output of each order stands beside it, in a column of its own, however long the line is.
pub fn echo_script<R: Read, W: Write>(
    alloc: Global,
    reader: &mut R,
    writer: &mut W,
    cpus: u8,
) -> Result<(), RunFault>
    requires low { 1 ≤ cpus }
    requires high { cpus ≤ 16 }
{
    let mut answerer = Answerer::new(alloc, cpus, Places::Beside)?;
    answerer.write_answers(reader, writer)
}

/// A test with the answers that its lines have now.
#[derive(Drop)]
pub struct Renewed {
    pub text: Vec<u8>,
    /// How many answers it has.
    pub answers: u64,
    /// How many of them are not those that it had.
    pub changed: u64,
}

/// Reads a test on a new world, and returns it with each of its answers replaced by the output of the line. All other bytes stay as they
/// are. An order that would be longer than 256 bytes with its output loses its answer. The world has as many processors as the first line
/// says, and otherwise `cpus`, 1 to 16.
///
/// A line is wrong where [`test_script`](crate::test_script) finds it wrong. The whole input is kept until the end.
pub fn renew_answers<R: Read>(alloc: Global, reader: &mut R, cpus: u8) -> Result<Renewed, RunFault>
    requires low { 1 ≤ cpus }
    requires high { cpus ≤ 16 }
{
    let mut answerer = Answerer::new(alloc, cpus, Places::Given)?;
    answerer.answer_input(reader)?;
    Ok(Renewed {
        text: answerer.output,
        answers: answerer.answers,
        changed: answerer.changed,
    })
}

/// The text of a line without its answer, and its answer, if it has one. The tokens are replaced.
fn without_answer<'a>(
    tokens: &mut Vec<Token>,
    text: &'a [u8],
) -> Result<(&'a [u8], Option<&'a [u8]>), NoMemory> {
    if parse(Language::Script, tokens, text)?.is_some() {
        return Ok((text, None));
    }
    match split_answer(text) {
        Some((front, answer)) => Ok((front, Some(answer))),
        None => Ok((text, None)),
    }
}

/// Which lines get an answer.
#[derive(Clone, Copy, PartialEq, Eq)]
enum Places {
    /// Each order.
    Every,
    /// Each order, beside it.
    Beside,
    /// Those that have one.
    Given,
}

impl Places {
    /// What is written after a line that ends so.
    fn ending(self, end: &[u8]) -> &[u8] {
        match self {
            Places::Every | Places::Beside => b"\n",
            Places::Given => end,
        }
    }
}

/// Appends an output without its line feed, in the column of outputs, to a line of this length. An empty one leaves the line as it is.
fn write_beside(line: &mut Vec<u8>, len: usize, out: &[u8]) -> Result<(), NoMemory> {
    let [answer @ .., b'\n'] = out else {
        return Ok(());
    };
    for _ in len..COLUMN.max(len.saturating_add(2)) {
        line.push(b' ')?;
    }
    line.extend_from_slice(answer)?;
    Ok(())
}

/// Does the lines of a script, and gathers them with their answers.
#[derive(Drop)]
struct Answerer {
    alloc: Global,
    player: Player,
    places: Places,
    /// The tokens of the last line, kept for their room.
    tokens: Vec<Token>,
    output: Vec<u8>,
    answers: u64,
    /// How many answers are not those that were there.
    changed: u64,
}

impl Answerer {
    /// An answerer with a new world of `cpus` processors. `NoMemory` comes if the world cannot be made.
    fn new(alloc: Global, cpus: u8, places: Places) -> Result<Answerer, RunFault>
        requires low { 1 ≤ cpus }
        requires high { cpus ≤ 16 }
    {
        Ok(Answerer {
            alloc,
            player: Player::new(alloc, cpus)?,
            places,
            tokens: Vec::new(alloc),
            output: Vec::new(alloc),
            answers: 0,
            changed: 0,
        })
    }

    /// Does the line with this number and text, and gathers it without its end.
    fn answer_line(&mut self, number: u64, text: &[u8]) -> Result<(), RunFault> {
        let (line, given) = without_answer(&mut self.tokens, text)?;
        let out = self.player.output_of(number, line)?;
        if given.is_some() && out.is_empty() {
            return Err(RunFault::Line(number));
        }
        self.output.extend_from_slice(line)?;
        if self.places == Places::Beside {
            write_beside(&mut self.output, line.len(), out)?;
            return Ok(());
        }
        let room = MAX_LINE
            .saturating_sub(line.len())
            .saturating_sub(ARROW.len());
        let is_place = given.is_some() || self.places == Places::Every;
        match out {
            [answer @ .., b'\n'] if is_place && answer.len() <= room => {
                self.output.extend_from_slice(ARROW)?;
                self.output.extend_from_slice(answer)?;
                self.answers = self.answers.saturating_add(1);
                let is_kept = match given {
                    Some(old) => old == answer,
                    None => false,
                };
                if !is_kept {
                    self.changed = self.changed.saturating_add(1);
                }
            }
            _ => {}
        }
        Ok(())
    }

    /// Does a line, and gathers it with its end.
    fn take_line(&mut self, line: Line<'_>) -> Result<(), RunFault> {
        let text = short_text(line)?;
        self.answer_line(line.number, text)?;
        let feed = line.whole.get(text.len()..).unwrap_or(b"".as_slice());
        let end = self.places.ending(feed);
        self.output.extend_from_slice(end)?;
        Ok(())
    }

    /// Does all lines of a script, and gathers them.
    fn answer_lines(&mut self, input: &[u8]) -> Result<(), RunFault> {
        for line in Lines::new(input) {
            self.take_line(line)?;
        }
        Ok(())
    }

    /// Reads a script, does all its lines, and gathers them.
    fn answer_input<R: Read>(&mut self, reader: &mut R) -> Result<(), RunFault> {
        let mut input = Vec::new(self.alloc);
        read_whole(reader, &mut input)?;
        self.answer_lines(&input)
    }

    /// Reads a script, or a test, and writes it with its answers.
    fn write_answers<R: Read, W: Write>(
        &mut self,
        reader: &mut R,
        writer: &mut W,
    ) -> Result<(), RunFault> {
        let answered = self.answer_input(reader);
        match answered {
            Ok(()) | Err(RunFault::Line(_)) => write_out(writer, &self.output)?,
            Err(_) => {}
        }
        answered
    }
}

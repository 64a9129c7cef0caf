//! Writing each answer that differs.

ghost use Rattle.std.specs.Prelude.{◌≤◌};

use crate::outcome::{Outcome, Tested};
use crate::player::Player;
use engine::line_runner::write_out;
use engine::whole_input::{read_whole, short_text};
use engine::{NamedScript, RunFault};
use lines::Lines;
use std::alloc::Global;
use std::io::{Read, Write};

/// Runs a test on a new world as [`test_script`](crate::test_script) does, but continues after an answer that differs: it writes the line
/// of each of them. [`Tested`] has the outcome, and how many answers were compared.
///
/// A line is wrong where `test_script` finds it wrong; then what differs before it is written. At any other fault but a write fault nothing
/// is written. The whole input is kept until the end, and so is what is written.
pub fn list_differences<R: Read, W: Write>(
    alloc: Global,
    reader: &mut R,
    writer: &mut W,
    test: NamedScript<'_>,
) -> Result<Tested, RunFault>
    requires low { 1 ≤ test.cpus }
    requires high { test.cpus ≤ 16 }
{
    let mut input = Vec::new(alloc);
    read_whole(reader, &mut input)?;
    let mut lister = Lister {
        player: Player::new(alloc, test.cpus)?,
        output: Vec::new(alloc),
    };
    let listed = lister.list_lines(test.name, &input);
    match listed {
        Ok(()) | Err(RunFault::Line(_)) => write_out(writer, &lister.output)?,
        Err(_) => {}
    }
    listed?;
    Ok(lister.tested())
}

/// Does the lines of a test, and gathers what is said of each answer that differs.
#[derive(Drop)]
struct Lister {
    player: Player,
    output: Vec<u8>,
}

impl Lister {
    /// How the lines that were done have ended.
    fn tested(&self) -> Tested {
        let outcome = if self.output.is_empty() {
            Outcome::Same
        } else {
            Outcome::Differs
        };
        Tested {
            outcome,
            answers: self.player.answers,
        }
    }

    /// Does the line with this number and text.
    fn list_line(&mut self, name: &str, number: u64, text: &[u8]) -> Result<(), RunFault> {
        if let Outcome::Differs = self.player.run_line(name, number, text)? {
            self.output.extend_from_slice(&self.player.report)?;
        }
        Ok(())
    }

    /// Does all lines of a test.
    fn list_lines(&mut self, name: &str, input: &[u8]) -> Result<(), RunFault> {
        for line in Lines::new(input) {
            self.list_line(name, line.number, short_text(line)?)?;
        }
        Ok(())
    }
}

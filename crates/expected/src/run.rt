//! Reading a test from a reader, and writing what differs to a writer.

ghost use Rattle.std.specs.Prelude.{◌≡◌, ◌≤◌, ℕ, [], IfOk, IfErr, IfSome};
ghost use Rattle.engine.specs.Lines.{FaultsAs};
ghost use Rattle.expected.specs.Tests.{HaltsTest, Tests, TestStops};
ghost use Rattle.expected.specs.Parts.{Came, Ran};

use crate::outcome::{Outcome, Tested};
use crate::tester::Tester;
use engine::line_runner::write_out;
use engine::{NamedScript, RunFault};
use std::alloc::Global;
use std::io::{Read, Write};

/// The most bytes that are read at once.
const PIECE: usize = 16_384;

/// Runs a script on a new world, and compares the output of each line with its answer, if it has one: the text after ` => `. The world has
/// as many processors as the first line says, and otherwise as the test is given.
///
/// At the first answer that differs it writes `NAME:LINE: expected ANSWER, got OUTPUT` and a line feed, and stops: LINE is counted from 1.
/// Nothing else is written. A wrong line before that is the fault [`RunFault::Line`]. The promises of `world` hold for each world of a
/// test. [`Tested`] has the outcome, and how many answers were compared.
///
/// At most 4,294,967,295 reads are made; a test that needs more ends with a read fault. This bounds the loop: no clause counts reads. An
/// interrupted read or write is a fault.
pub fn test_script<R: Read, W: Write>(
    alloc: Global,
    reader: &mut R,
    writer: &mut W,
    test: NamedScript<'_>,
) -> Result<Tested, RunFault>
    requires low { 1 ≤ test.cpus }
    requires high { test.cpus ≤ 16 }
    ensures ok { IfOk result (λ tested. IfSome (R.remaining reader.old) (λ input.
        Tests test.entry.name.now test.entry.cpus input tested.outcome tested.answers
        (W.contents writer.old) (W.contents writer.new))) }
    ensures fault { FaultsAs result (TestStops test.entry.name.now test.entry.cpus)
        (R.remaining reader.old) (R.remaining reader.new) (W.contents writer.old)
        (W.contents writer.new) }
{
    let mut tester = Tester::new(alloc, test.cpus)?;
    match test_lines(reader, test.name, &mut tester)? {
        Outcome::Same => Ok(Tested {
            outcome: Outcome::Same,
            answers: tester.player.answers,
        }),
        Outcome::Differs => {
            write_out(writer, &tester.player.report)?;
            Ok(Tested {
                outcome: Outcome::Differs,
                answers: tester.player.answers,
            })
        }
    }
}

/// Reads all lines to the end of the input, or up to the first that differs, and does each.
fn test_lines<R: Read>(reader: &mut R, name: &str, tester: &mut Tester) -> Result<Outcome, RunFault>
    requires { tester.old.number ≡ 0 }
    ensures ok { IfOk result (λ outcome. (cpus : ℕ) → Ran cpus [] tester.old →
        IfSome (R.remaining reader.old) (λ input.
        Came name.now cpus input outcome tester.new)) }
    ensures fault { IfErr result (λ fault. (cpus : ℕ) → Ran cpus [] tester.old →
        IfSome (R.remaining reader.old) (λ input.
        HaltsTest cpus input (R.remaining reader.new) fault)) }
{
    let mut buffer = [0u8; PIECE];
    for _ in 0..u32::MAX {
        match reader.read(&mut buffer) {
            Ok(0) => return tester.finish(name),
            Ok(count) => match tester.feed(name, &buffer[..count])? {
                Outcome::Same => {}
                Outcome::Differs => return Ok(Outcome::Differs),
            },
            Err(_) => return Err(RunFault::ReadFault),
        }
    }
    Err(RunFault::ReadFault)
}

//! Reading a script line by line, and writing its output and what its steps put on the wires.

ghost use Rattle.std.specs.Prelude.{◌≡◌, ◌+◌, ◌<◌, ◌≤◌, ◌^◌, [], length, OnOk, IfOk, IfSome};
ghost use Rattle.grammar.specs.Lines.{HasNoFeed};
ghost use Rattle.engine.specs.declared.line_runner.Mode.{Mode as AMode};
ghost use Rattle.engine.specs.Engine.{Running, start_of};
ghost use Rattle.engine.specs.Script.{new_world, Writes};
ghost use Rattle.mig_model.specs.Migration.{World};
ghost use Rattle.wiretap.specs.Traffic.{IsTapped, Gets};
ghost use Rattle.wiretap.specs.Moves.{IsRunning, EndsOne, Moves, Ends, ReadsAll, AreMarks, bytes_in_flight};

use crate::fault::TapFault;
use crate::marks::Marks;
use crate::taps::Taps;
use engine::{LineRunner, RunFault, ScriptReader, Setup};
use lines::Lines;
use std::alloc::Global;
use std::io::{Read, Write};

/// The most bytes that are read at once.
const PIECE: usize = 16_384;

impl<T: Write + Drop> Taps<T> {
    /// Runs a script as `engine::run_script` does, and writes to each of the taps what the steps put on its wire.
    ///
    /// The output of a line is written as the line ends, and then what its step put on the wires. At most 4,294,967,295 reads are made; a
    /// script that needs more ends with a read fault. An interrupted read or write is a fault.
    pub fn run_tapped<R: Read, W: Write>(
        &mut self,
        alloc: Global,
        reader: &mut R,
        writer: &mut W,
        setup: Setup,
    ) -> Result<(), TapFault>
        requires low { 1 ≤ setup.cpus }
        requires high { setup.cpus ≤ 16 }
        ensures output { OnOk result (IfSome (R.remaining reader.old) (λ input.
            Writes setup.mode (new_world setup) input (W.contents writer.old)
            (W.contents writer.new))) }
        ensures wires { OnOk result (IfSome (R.remaining reader.old) (λ input.
            IsTapped T.contents setup.mode (new_world setup) input (W.contents writer.old)
            (W.contents writer.new) self.old self.new)) }
    {
        let runner = LineRunner::on_world(alloc, setup.cpus, setup.mode)?;
        let mut script = ScriptReader::new(alloc, runner);
        self.read_lines(reader, writer, &mut script)
    }

    /// Reads all lines to the end of the input, and does each.
    fn read_lines<R: Read, W: Write>(
        &mut self,
        reader: &mut R,
        writer: &mut W,
        script: &mut ScriptReader,
    ) -> Result<(), TapFault>
        requires start { script.old ≡ start_of script.old.work }
        requires runs { IsRunning script.old.work }
        ensures { OnOk result (IfSome (R.remaining reader.old) (λ input.
            ReadsAll T.contents script.old.work input script.new.work (W.contents writer.old)
            (W.contents writer.new) self.old self.new)) }
    {
        let mut buffer = [0u8; PIECE];
        for _ in 0..u32::MAX {
            match reader.read(&mut buffer) {
                Ok(0) => return finish(writer, self, script),
                Ok(count) => run_lines(writer, self, script, &buffer[..count])?,
                Err(_) => return Err(TapFault::Run(RunFault::ReadFault)),
            }
        }
        Err(TapFault::Run(RunFault::ReadFault))
    }
}

/// Takes the next bytes, and does each line that ends in them.
fn run_lines<W: Write, T: Write + Drop>(
    writer: &mut W,
    taps: &mut Taps<T>,
    script: &mut ScriptReader,
    bytes: &[u8],
) -> Result<(), TapFault>
    requires clean { script.old.output ≡ [] }
    requires open { HasNoFeed script.old.line }
    requires runs { IsRunning script.old.work }
    requires number { script.old.number + length bytes.now + 1 < 2 ^ 64 }
    ensures ok { OnOk result
        (Moves T.contents script.old bytes.now script.new (W.contents writer.old)
        (W.contents writer.new) taps.old taps.new) }
    ensures clean { OnOk result (script.new.output ≡ []) }
    ensures open { OnOk result (HasNoFeed script.new.line) }
    ensures runs { OnOk result (IsRunning script.new.work) }
    ensures number { OnOk result (script.new.number ≤ script.old.number + length bytes.now) }
{
    for line in Lines::new(bytes) {
        run_bytes(writer, taps, script, line.whole)?;
    }
    Ok(())
}

/// Takes bytes in which at most one line ends, with the last of them, and does it.
fn run_bytes<W: Write, T: Write + Drop>(
    writer: &mut W,
    taps: &mut Taps<T>,
    script: &mut ScriptReader,
    bytes: &[u8],
) -> Result<(), TapFault>
    requires clean { script.old.output ≡ [] }
    requires open { HasNoFeed script.old.line }
    requires runs { IsRunning script.old.work }
    requires one { EndsOne bytes.now }
    requires number { script.old.number + length bytes.now + 1 < 2 ^ 64 }
    ensures ok { OnOk result
        (Moves T.contents script.old bytes.now script.new (W.contents writer.old)
        (W.contents writer.new) taps.old taps.new) }
    ensures clean { OnOk result (script.new.output ≡ []) }
    ensures open { OnOk result (HasNoFeed script.new.line) }
    ensures runs { OnOk result (IsRunning script.new.work) }
    ensures number { OnOk result (script.new.number ≤ script.old.number + length bytes.now) }
{
    let before = marks_of(script)?;
    script.run_piece(writer, bytes)?;
    write_put(taps, script, before)
}

/// Does the last line, if it lacks its line feed.
fn finish<W: Write, T: Write + Drop>(
    writer: &mut W,
    taps: &mut Taps<T>,
    script: &mut ScriptReader,
) -> Result<(), TapFault>
    requires clean { script.old.output ≡ [] }
    requires open { HasNoFeed script.old.line }
    requires runs { IsRunning script.old.work }
    requires number { script.old.number + 1 < 2 ^ 64 }
    ensures { OnOk result
        (Ends T.contents script.old script.new.work (W.contents writer.old) (W.contents writer.new)
        taps.old taps.new) }
{
    let before = marks_of(script)?;
    script.finish(writer)?;
    write_put(taps, script, before)
}

/// How many bytes are in flight in the world of a script.
fn marks_of(script: &ScriptReader) -> Result<Marks, TapFault>
    requires { IsRunning script.now.work }
    ensures { IfOk result (λ marks. (mode : AMode) (state : World) →
        script.now.work ≡ Running mode state → AreMarks state marks) }
{
    match script.world() {
        Some(world) => Marks::of(world),
        None => unreachable!(),
    }
}

/// Writes what was put on the wires in the world of a script, which had that many bytes before.
fn write_put<T: Write + Drop>(
    taps: &mut Taps<T>,
    script: &ScriptReader,
    before: Marks,
) -> Result<(), TapFault>
    requires { IsRunning script.now.work }
    ensures { OnOk result ((mode : AMode) (state : World) → script.now.work ≡ Running mode state →
        Gets T.contents taps.old taps.new (bytes_in_flight before state)) }
{
    match script.world() {
        Some(world) => taps.write_all_put(world, before),
        None => unreachable!(),
    }
}

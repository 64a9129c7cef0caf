//! Reading a script or a transcript: where its lines end, and their numbers.

ghost use Rattle.std.specs.Prelude.{◌≡◌, ◌+◌, ◌<◌, ◌≤◌, ◌^◌, ◌++◌, ◌↔◌, ◌≢◌, IsTrue, ℕ, List, [], ◌∷◌, length, Some, None, OnOk, IfErr, IfSome, IfNone, vec_len};
ghost use Rattle.grammar.specs.Lines.{HasNoFeed};
ghost use Rattle.engine.specs.Engine.{Place, coded_place, kept_entries, run_world, start_of, Fed, FedUntil, Passes, Halts, Closes, CloseFault};

use crate::fault::RunFault;
use crate::line_runner::LineRunner;
use lines::{Lines, without_return};
use mig_base::Entry;
use std::alloc::Global;
use std::io::Write;
use std::marker::Model;
use world::World;

/// The most bytes of a line, without its line feed.
pub const MAX_LINE: usize = 256;

/// A script or a transcript that is being read.
#[derive(Drop)]
pub struct ScriptReader {
    runner: LineRunner,
    /// The bytes of the line that has no end yet.
    line: Vec<u8>,
    /// The number of lines before it.
    number: u64,
}

impl Model for ScriptReader {
    ghost Value = { Place };

    ghost coded = { coded_place };

    ghost view = { λ s. record { work = s.runner.work; output = s.runner.output; line = s.line.items; number = s.number } };

    ghost invariant = { λ s. (vec_len s.line ≤ 256) × HasNoFeed s.line.items };
}

impl ScriptReader {
    /// A reader that has read nothing.
    pub fn new(alloc: Global, runner: LineRunner) -> ScriptReader
        requires { runner.output ≡ [] }
        ensures { result ≡ start_of runner.work }
    {
        ScriptReader {
            runner,
            line: Vec::new(alloc),
            number: 0,
        }
    }

    /// The entries that were kept; none if a world is run.
    pub fn entries(&self) -> &[Entry]
        ensures { result.now ≡ kept_entries self.now.work }
    {
        self.runner.entries()
    }

    /// The world that is run; none if entries are kept.
    pub fn world(&self) -> Option<&World>
        ensures some { IfSome result (λ world. run_world self.now.work ≡ Some world.now) }
        ensures none { IfNone result (run_world self.now.work ≡ None) }
    {
        self.runner.world()
    }

    /// Hands over the world that is run; none if entries are kept.
    pub fn into_world(self) -> Option<World>
        ensures { result ≡ run_world self.work }
    {
        self.runner.into_world()
    }

    /// Whether the last line has no line feed.
    pub fn is_open(&self) -> bool
        ensures { IsTrue result ↔ (self.now.line ≢ []) }
    {
        !self.line.is_empty()
    }

    /// Takes bytes of the open line, none of which is a line feed.
    fn hold(&mut self, bytes: &[u8]) -> Result<(), RunFault>
        requires feed { HasNoFeed bytes.now }
        requires number { self.old.number + 1 < 2 ^ 64 }
        ensures ok { OnOk result (self.new ≡
            record self.old { line = self.old.line ++ bytes.now }) }
        ensures fault { IfErr result (λ fault. FedUntil self.old bytes.now fault self.new.output) }
    {
        if bytes.len() > MAX_LINE - self.line.len() {
            return Err(RunFault::Line(self.number + 1));
        }
        self.line.extend_from_slice(bytes)?;
        Ok(())
    }

    /// Does a whole line, without copying its bytes.
    fn do_whole(&mut self, bytes: &[u8]) -> Result<(), RunFault>
        requires none { self.old.line ≡ [] }
        requires feed { HasNoFeed bytes.now }
        requires number { self.old.number + 1 < 2 ^ 64 }
        ensures ok { OnOk result (Fed self.old (bytes.now ++ 10 ∷ []) self.new) }
        ensures number { OnOk result (self.new.number ≡ self.old.number + 1) }
        ensures fault { IfErr result (λ fault.
            FedUntil self.old (bytes.now ++ 10 ∷ []) fault self.new.output) }
    {
        if bytes.len() > MAX_LINE {
            return Err(RunFault::Line(self.number + 1));
        }
        self.runner
            .run_line(self.number + 1, without_return(bytes))?;
        self.number += 1;
        Ok(())
    }

    /// Does the line that is held in part and ends with these bytes and a line feed.
    fn end_held(&mut self, bytes: &[u8]) -> Result<(), RunFault>
        requires feed { HasNoFeed bytes.now }
        requires number { self.old.number + 1 < 2 ^ 64 }
        ensures ok { OnOk result (Fed self.old (bytes.now ++ 10 ∷ []) self.new) }
        ensures number { OnOk result (self.new.number ≡ self.old.number + 1) }
        ensures fault { IfErr result (λ fault.
            FedUntil self.old (bytes.now ++ 10 ∷ []) fault self.new.output) }
    {
        self.hold(bytes)?;
        self.runner
            .run_line(self.number + 1, without_return(&self.line))?;
        self.line.clear();
        self.number += 1;
        Ok(())
    }

    /// Does the line that ends with these bytes and a line feed.
    fn end_line(&mut self, bytes: &[u8]) -> Result<(), RunFault>
        requires feed { HasNoFeed bytes.now }
        requires number { self.old.number + 1 < 2 ^ 64 }
        ensures ok { OnOk result (Fed self.old (bytes.now ++ 10 ∷ []) self.new) }
        ensures number { OnOk result (self.new.number ≡ self.old.number + 1) }
        ensures fault { IfErr result (λ fault.
            FedUntil self.old (bytes.now ++ 10 ∷ []) fault self.new.output) }
    {
        if self.line.is_empty() {
            return self.do_whole(bytes);
        }
        self.end_held(bytes)
    }

    /// Takes the next bytes, does each line that ends in them, and gathers the output.
    fn feed(&mut self, bytes: &[u8]) -> Result<(), RunFault>
        requires { self.old.number + length bytes.now + 1 < 2 ^ 64 }
        ensures ok { OnOk result (Fed self.old bytes.now self.new) }
        ensures number { OnOk result (self.new.number ≤ self.old.number + length bytes.now) }
        ensures fault { IfErr result (λ fault. FedUntil self.old bytes.now fault self.new.output) }
    {
        for line in Lines::new(bytes) {
            if line.ended {
                self.end_line(line.raw)?;
            } else {
                self.hold(line.raw)?;
            }
        }
        Ok(())
    }

    /// Takes the next bytes, does each line that ends in them, and writes the output.
    pub fn run_piece<W: Write>(&mut self, writer: &mut W, bytes: &[u8]) -> Result<(), RunFault>
        requires clean { self.old.output ≡ [] }
        requires number { self.old.number + length bytes.now + 1 < 2 ^ 64 }
        ensures ok { OnOk result
            (Passes self.old bytes.now self.new (W.contents writer.old) (W.contents writer.new)) }
        ensures clean { OnOk result (self.new.output ≡ []) }
        ensures number { OnOk result (self.new.number ≤ self.old.number + length bytes.now) }
        ensures fault { IfErr result (λ fault.
            Halts self.old bytes.now fault (W.contents writer.old) (W.contents writer.new)) }
        ensures open { HasNoFeed self.new.line }
    {
        let fed = self.feed(bytes);
        self.runner.write_output(writer)?;
        fed
    }

    /// Does the last line, if it lacks its line feed, and writes its output.
    pub fn finish<W: Write>(&mut self, writer: &mut W) -> Result<(), RunFault>
        requires clean { self.old.output ≡ [] }
        requires number { self.old.number + 1 < 2 ^ 64 }
        ensures ok { OnOk result ((text : List ℕ) ×
            Closes self.old self.new.work [] text [] (W.contents writer.old)
            (W.contents writer.new)) }
        ensures fault { IfErr result (λ fault.
            CloseFault self.old fault (W.contents writer.old) (W.contents writer.new)) }
    {
        if self.line.is_empty() {
            return Ok(());
        }
        let run = self.runner.run_line(self.number + 1, &self.line);
        self.runner.write_output(writer)?;
        run
    }
}

//! A test that is being read: where its lines end, and their numbers.

ghost use Rattle.std.specs.Prelude.{◌≡◌, ◌<◌, ◌≤◌, ◌^◌, ◌+◌, ◌++◌, ◌∷◌, ℕ, List, [], length, OnOk, IfOk, IfErr};
ghost use Rattle.grammar.specs.Lines.{HasNoFeed};
ghost use Rattle.engine.specs.declared.fault.RunFault.TheVariants.{NoMemory as OutOfMemory};
ghost use Rattle.expected.specs.Tests.{Comes};
ghost use Rattle.expected.specs.Parts.{Ran, After, FaultIn, FaultAtEnd};

use crate::outcome::Outcome;
use crate::player::Player;
use engine::RunFault;
use engine::script_reader::MAX_LINE;
use lines::{Lines, without_return};
use std::alloc::Global;

/// A test that is being read.
#[derive(Drop)]
pub(crate) struct Tester {
    pub(crate) player: Player,
    /// The bytes of the line that has no end yet.
    line: Vec<u8>,
    /// The number of lines before it.
    number: u64,
}

impl Tester {
    /// A test of which nothing is read, on a new world of `cpus` processors. `NoMemory` is returned if the world cannot be made.
    pub(crate) fn new(alloc: Global, cpus: u8) -> Result<Tester, RunFault>
        requires low { 1 ≤ cpus }
        requires high { cpus ≤ 16 }
        ensures ok { IfOk result (λ tester. Ran cpus [] tester) }
        ensures number { IfOk result (λ tester. tester.number ≡ 0) }
        ensures err { IfErr result (λ fault. fault ≡ OutOfMemory) }
    {
        Ok(Tester {
            player: Player::new(alloc, cpus)?,
            line: Vec::new(alloc),
            number: 0,
        })
    }

    /// Takes bytes of the open line, none of which is a line feed.
    fn hold(&mut self, bytes: &[u8]) -> Result<(), RunFault>
        requires feed { HasNoFeed bytes.now }
        requires number { self.old.number + 1 < 2 ^ 64 }
        ensures ok { OnOk result ((cpus : ℕ) (front : List ℕ) → Ran cpus front self.old →
            Ran cpus (front ++ bytes.now) self.new) }
        ensures number { self.new.number ≡ self.old.number }
        ensures fault { IfErr result (λ fault. (cpus : ℕ) (front : List ℕ) →
            Ran cpus front self.old → FaultIn cpus (front ++ bytes.now) fault) }
    {
        if bytes.len() > MAX_LINE.saturating_sub(self.line.len()) {
            return Err(RunFault::Line(self.number + 1));
        }
        self.line.extend_from_slice(bytes)?;
        Ok(())
    }

    /// Does the line that ends with these bytes and a line feed.
    fn end_line(&mut self, name: &str, bytes: &[u8]) -> Result<Outcome, RunFault>
        requires feed { HasNoFeed bytes.now }
        requires number { self.old.number + 1 < 2 ^ 64 }
        ensures ok { IfOk result (λ outcome. (cpus : ℕ) (front : List ℕ) → Ran cpus front self.old →
            After name.now cpus (front ++ (bytes.now ++ 10 ∷ [])) outcome self.new) }
        ensures number { OnOk result (self.new.number ≡ self.old.number + 1) }
        ensures fault { IfErr result (λ fault. (cpus : ℕ) (front : List ℕ) →
            Ran cpus front self.old → FaultIn cpus (front ++ (bytes.now ++ 10 ∷ [])) fault) }
    {
        self.hold(bytes)?;
        let text = without_return(&self.line);
        let outcome = self.player.run_line(name, self.number + 1, text)?;
        self.line.clear();
        self.number += 1;
        Ok(outcome)
    }

    /// Takes the next bytes, and does each line that ends in them, up to the first that differs.
    pub(crate) fn feed(&mut self, name: &str, bytes: &[u8]) -> Result<Outcome, RunFault>
        requires { self.old.number + length bytes.now + 1 < 2 ^ 64 }
        ensures ok { IfOk result (λ outcome. (cpus : ℕ) (front : List ℕ) → Ran cpus front self.old →
            After name.now cpus (front ++ bytes.now) outcome self.new) }
        ensures number { OnOk result (self.new.number ≤ self.old.number + length bytes.now) }
        ensures fault { IfErr result (λ fault. (cpus : ℕ) (front : List ℕ) →
            Ran cpus front self.old → FaultIn cpus (front ++ bytes.now) fault) }
    {
        for line in Lines::new(bytes) {
            if !line.ended {
                self.hold(line.raw)?;
            } else if let Outcome::Differs = self.end_line(name, line.raw)? {
                return Ok(Outcome::Differs);
            }
        }
        Ok(Outcome::Same)
    }

    /// Does the last line, if it lacks its line feed.
    pub(crate) fn finish(&mut self, name: &str) -> Result<Outcome, RunFault>
        requires { self.old.number + 1 < 2 ^ 64 }
        ensures ok { IfOk result (λ outcome. (cpus : ℕ) (input : List ℕ) → Ran cpus input self.old →
            Comes name.now cpus input outcome self.new.player.answers
            self.new.player.report.items) }
        ensures fault { IfErr result (λ fault. (cpus : ℕ) (input : List ℕ) →
            Ran cpus input self.old → FaultAtEnd cpus input fault) }
    {
        if self.line.is_empty() {
            return Ok(Outcome::Same);
        }
        self.player.run_line(name, self.number + 1, &self.line)
    }
}

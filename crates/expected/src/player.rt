//! Doing one line of a test: carrying out its order on a world, and comparing the output with its answer.

ghost use Rattle.std.specs.Prelude.{◌≡◌, ◌<◌, ◌≤◌, ◌^◌, ◌+◌, ◌++◌, ◌∷◌, ◌↔◌, ℕ, List, [], OnOk, IfOk, IfErr, IfSome, IfNone, IsTrue, string_bytes};
ghost use Rattle.grammar.specs.declared.line.Line.{Line as LineOf};
ghost use Rattle.grammar.specs.declared.line.Language.TheVariants.{Script as AScript};
ghost use Rattle.grammar.specs.declared.line.Line.TheVariants.{Do};
ghost use Rattle.grammar.specs.declared.order.Order.{Order as AnOrder};
ghost use Rattle.grammar.specs.Spelling.{Spells};
ghost use Rattle.engine.specs.declared.fault.RunFault.TheVariants.{NoMemory as OutOfMemory};
ghost use Rattle.mig_model.specs.Migration.{first_world};
ghost use Rattle.expected.specs.Cases.{NoCpus};
ghost use Rattle.expected.specs.Tests.{difference_line};
ghost use Rattle.expected.specs.Parts.{LeadsPlayer, FaultAtLine};

use crate::cpus::{Setting, setting_of};
use crate::cut::split_answer;
use crate::outcome::Outcome;
use engine::line_runner::carry_out;
use engine::{Mode, RunFault};
use grammar::parse::parse;
use grammar::{Language, Line, Order, Token};
use mig_base::NoMemory;
use std::alloc::Global;
use world::World;

/// A new world of `cpus` processors. `NoMemory` is returned if it cannot be made.
fn new_world(alloc: Global, cpus: u8) -> Result<World, RunFault>
    requires low { 1 ≤ cpus }
    requires high { cpus ≤ 16 }
    ensures ok { IfOk result (λ world. world ≡ first_world cpus) }
    ensures err { IfErr result (λ fault. fault ≡ OutOfMemory) }
{
    let Ok(world) = World::new(alloc, cpus) else {
        return Err(RunFault::NoMemory);
    };
    Ok(world)
}

/// The order of a text, if it is one. The tokens are replaced.
fn order_of(tokens: &mut Vec<Token>, text: &[u8]) -> Result<Option<Order>, NoMemory>
    ensures found { IfOk result (λ found.
        IfSome found (λ order. Spells AScript text.now (Do order))) }
    ensures none { IfOk result (λ found.
        IfNone found ((order : AnOrder) → Spells AScript text.now (Do order) → ⊥)) }
{
    match parse(Language::Script, tokens, text)? {
        Some(Line::Do(order)) => Ok(Some(order)),
        Some(Line::Skipped) => Ok(None),
        Some(Line::Enter(_)) => unreachable!(),
        None => Ok(None),
    }
}

/// Whether an output is this answer and a line feed.
fn is_answer(output: &[u8], answer: &[u8]) -> bool
    ensures { IsTrue result ↔ (output.now ≡ answer.now ++ 10 ∷ []) }
{
    match output {
        [text @ .., b'\n'] => text == answer,
        _ => false,
    }
}

/// The line of a report: the name of the test, the number of the line, its answer, and its output, which ends in a line feed.
fn difference(
    alloc: Global,
    name: &str,
    number: u64,
    answer: &[u8],
    output: &[u8],
) -> Result<Vec<u8>, NoMemory>
    ensures { IfOk result (λ report.
        report.items ≡ difference_line name.now number answer.now output.now) }
{
    let front = format!(in alloc; "{name}:{number}: expected ")?;
    let mut report = Vec::new(alloc);
    report.extend_from_slice(front.as_bytes())?;
    report.extend_from_slice(answer)?;
    report.extend_from_slice(b", got ")?;
    report.extend_from_slice(output)?;
    Ok(report)
}

/// A world on which the lines of a test are done.
#[derive(Drop)]
pub(crate) struct Player {
    alloc: Global,
    world: World,
    /// The tokens of the last line, kept for their room.
    tokens: Vec<Token>,
    /// The output of the last line.
    printed: String,
    /// The line of the report, once an answer differed.
    pub(crate) report: Vec<u8>,
    /// How many answers were compared.
    pub(crate) answers: u64,
}

impl Player {
    /// A player with a new world of `cpus` processors. `NoMemory` is returned if the world cannot be made.
    pub(crate) fn new(alloc: Global, cpus: u8) -> Result<Player, RunFault>
        requires low { 1 ≤ cpus }
        requires high { cpus ≤ 16 }
        ensures ok { IfOk result (λ player. player.world ≡ first_world cpus) }
        ensures answers { IfOk result (λ player. player.answers ≡ 0) }
        ensures err { IfErr result (λ fault. fault ≡ OutOfMemory) }
    {
        Ok(Player {
            alloc,
            world: new_world(alloc, cpus)?,
            tokens: Vec::new(alloc),
            printed: String::new(alloc),
            report: Vec::new(alloc),
            answers: 0,
        })
    }

    /// Does the line with this number and text. Where it differs the report says so.
    pub(crate) fn run_line(
        &mut self,
        name: &str,
        number: u64,
        text: &[u8],
    ) -> Result<Outcome, RunFault>
        ensures ok { IfOk result (λ outcome.
            LeadsPlayer name.now number self.old.world self.old.answers text.now outcome self.new) }
        ensures fault { IfErr result (λ fault. FaultAtLine number text.now fault) }
    {
        self.printed.clear();
        if number != 1 {
            return self.run_order(name, number, text);
        }
        match setting_of(&mut self.tokens, text)? {
            Setting::Absent => self.run_order(name, number, text),
            Setting::Wrong => Err(RunFault::Line(number)),
            Setting::Count(cpus) => {
                self.world = new_world(self.alloc, cpus)?;
                Ok(Outcome::Same)
            }
        }
    }

    /// Does a line without an answer. Its output is empty if the line is not an order.
    pub(crate) fn output_of(&mut self, number: u64, text: &[u8]) -> Result<&[u8], RunFault> {
        self.run_line("", number, text)?;
        Ok(self.printed.as_bytes())
    }

    /// Does a line that names no number of processors.
    fn run_order(&mut self, name: &str, number: u64, text: &[u8]) -> Result<Outcome, RunFault>
        requires cpus { NoCpus number text.now }
        requires clear { string_bytes self.old.printed ≡ [] }
        ensures ok { IfOk result (λ outcome.
            LeadsPlayer name.now number self.old.world self.old.answers text.now outcome self.new) }
        ensures fault { IfErr result (λ fault. FaultAtLine number text.now fault) }
    {
        match parse(Language::Script, &mut self.tokens, text)? {
            Some(Line::Skipped) => Ok(Outcome::Same),
            Some(Line::Do(order)) => {
                carry_out(&mut self.world, Mode::Lines, order, &mut self.printed)?;
                Ok(Outcome::Same)
            }
            Some(Line::Enter(_)) => unreachable!(),
            None => self.run_answered(name, number, text),
        }
    }

    /// Does a line that is an order and its answer.
    fn run_answered(&mut self, name: &str, number: u64, text: &[u8]) -> Result<Outcome, RunFault>
        requires cpus { NoCpus number text.now }
        requires other { (line : LineOf) → Spells AScript text.now line → ⊥ }
        ensures ok { IfOk result (λ outcome.
            LeadsPlayer name.now number self.old.world self.old.answers text.now outcome self.new) }
        ensures fault { IfErr result (λ fault. FaultAtLine number text.now fault) }
    {
        let Some((front, answer)) = split_answer(text) else {
            return Err(RunFault::Line(number));
        };
        let Some(order) = order_of(&mut self.tokens, front)? else {
            return Err(RunFault::Line(number));
        };
        carry_out(&mut self.world, Mode::Lines, order, &mut self.printed)?;
        self.answers = self.answers.saturating_add(1);
        if is_answer(self.printed.as_bytes(), answer) {
            return Ok(Outcome::Same);
        }
        self.report = difference(self.alloc, name, number, answer, self.printed.as_bytes())?;
        Ok(Outcome::Differs)
    }
}

//! Doing the lines of a script: the order of each is carried out, and printed with the calls after it.

ghost use Rattle.std.specs.Prelude.{◌≡◌, ◌≤◌, ◌++◌, [], Ok, OnOk, IfOk, IfErr, string_bytes};
ghost use Rattle.engine.specs.declared.fault.RunFault.TheVariants.{NoMemory as OutOfMemory};
ghost use Rattle.engine.specs.Lines.{LineFault};
ghost use Rattle.mig_model.specs.Migration.{first_world};
ghost use Rattle.host_calls.specs.Texts.{call_line, call_lines};
ghost use Rattle.host_calls.specs.Calls.{IsWithin};
ghost use Rattle.host_calls.specs.Stepped.{MakesCalls, ObeysCalls, IsLine, IsWrong, step_lines};
ghost use Rattle.host_calls.specs.Parts.{Takes, Refuses};

use crate::call::Call;
use crate::listing::{list_calls, node_of};
use engine::line_reader::LineSink;
use engine::script_reader::MAX_LINE;
use engine::{RunFault, progress};
use grammar::parse::parse;
use grammar::{Language, Line, Order, Token, print_line, print_progress};
use lines::text_of;
use mig_base::NoMemory;
use mig_base::effect::Effect;
use mig_base::refusal::Refusal;
use mig_base::schedule::{Side, Step};
use std::alloc::{AllocError, Global};
use world::World;

/// Appends the line of a call on the host of a node.
#[tactic(auto, unfolding(crate::specs::Texts::call_line))]
fn print_call(text: &mut String, node: Side, call: Call) -> Result<(), AllocError>
    ensures { OnOk result (string_bytes text.new ≡ string_bytes text.old ++ call_line node call) }
{
    write!(text, "> {node} {call}\n")
}

/// Appends the lines of calls.
fn print_calls(text: &mut String, node: Side, calls: &[Call]) -> Result<(), NoMemory>
    ensures { OnOk result (string_bytes text.new ≡
        string_bytes text.old ++ call_lines node calls.now) }
{
    for call in calls {
        print_call(text, node, *call)?;
    }
    Ok(())
}

/// A world on which the lines of a script are done.
#[derive(Drop)]
pub(crate) struct Stepper {
    world: World,
    /// The tokens of the last line, kept for their room.
    tokens: Vec<Token>,
    /// The calls of the last step, kept for their room.
    calls: Vec<Call>,
    /// The output of the last line.
    printed: String,
}

impl Stepper {
    /// A stepper with a new world of `cpus` processors. `NoMemory` is returned if the world cannot be made.
    pub(crate) fn new(alloc: Global, cpus: u8) -> Result<Stepper, RunFault>
        requires low { 1 ≤ cpus }
        requires high { cpus ≤ 16 }
        ensures ok { IfOk result (λ stepper. stepper.world ≡ first_world cpus) }
        ensures err { IfErr result (λ fault. fault ≡ OutOfMemory) }
    {
        let Ok(world) = World::new(alloc, cpus) else {
            return Err(RunFault::NoMemory);
        };
        Ok(Stepper {
            world,
            tokens: Vec::new(alloc),
            calls: Vec::new(alloc),
            printed: String::new(alloc),
        })
    }

    /// Prints the line of a step that was made, and those of its calls.
    fn print_made(&mut self, step: Step, effect: Effect) -> Result<(), RunFault>
        requires clear { string_bytes self.old.printed ≡ [] }
        requires within { IsWithin step effect }
        ensures ok { OnOk result (string_bytes self.new.printed ≡
            step_lines step (Ok effect) self.new.world) }
        ensures same { self.new.world ≡ self.old.world }
        ensures fault { IfErr result (λ fault. fault ≡ OutOfMemory) }
    {
        print_line(&mut self.printed, &Ok(effect))?;
        list_calls(&mut self.calls, &self.world, step, effect)?;
        print_calls(&mut self.printed, node_of(step), &self.calls)?;
        Ok(())
    }

    /// Makes a step, and prints the line of its outcome and those of its calls.
    fn make_step(&mut self, step: Step) -> Result<(), RunFault>
        requires { string_bytes self.old.printed ≡ [] }
        ensures ok { OnOk result
            (MakesCalls self.old.world step self.new.world (string_bytes self.new.printed)) }
        ensures fault { IfErr result (λ fault. fault ≡ OutOfMemory) }
    {
        self.world.headline();
        let outcome = self.world.step(step);
        if let Err(Refusal::NoMemory) = outcome {
            return Err(RunFault::NoMemory);
        }
        match outcome {
            Ok(effect) => self.print_made(step, effect),
            Err(_) => {
                print_line(&mut self.printed, &outcome)?;
                Ok(())
            }
        }
    }

    /// Carries out an order, and prints it.
    fn obey(&mut self, order: Order) -> Result<(), RunFault>
        requires { string_bytes self.old.printed ≡ [] }
        ensures ok { OnOk result
            (ObeysCalls self.old.world order self.new.world (string_bytes self.new.printed)) }
        ensures fault { IfErr result (λ fault. fault ≡ OutOfMemory) }
    {
        match order.step(self.world.epoch()) {
            Some(step) => self.make_step(step),
            None => {
                print_progress(&mut self.printed, progress(&self.world))?;
                Ok(())
            }
        }
    }

    /// Does the line with this number and text, and replaces what was printed by its output.
    fn run_line(&mut self, number: u64, text: &[u8]) -> Result<(), RunFault>
        ensures ok { OnOk result
            (IsLine self.old.world text.now self.new.world (string_bytes self.new.printed)) }
        ensures fault { IfErr result (λ fault. LineFault (IsWrong text.now) number fault) }
    {
        self.printed.clear();
        match parse(Language::Script, &mut self.tokens, text)? {
            None => Err(RunFault::Line(number)),
            Some(Line::Skipped) => Ok(()),
            Some(Line::Do(order)) => self.obey(order),
            Some(Line::Enter(_)) => unreachable!(),
        }
    }
}

impl LineSink for Stepper {
    ghost takes = { Takes };

    ghost refuses = { Refuses };

    fn take_line(
        &mut self,
        number: u64,
        front: &[u8],
        len: u64,
        ended: bool,
        output: &mut Vec<u8>,
    ) -> Result<(), RunFault> {
        if len > MAX_LINE as u64 {
            return Err(RunFault::Line(number));
        }
        self.run_line(number, text_of(front, ended))?;
        output.extend_from_slice(self.printed.as_bytes())?;
        Ok(())
    }

    /// A line of more than 256 bytes is wrong, whatever its end.
    fn overrun(&self, number: u64) -> Result<(), RunFault> {
        Err(RunFault::Line(number))
    }
}

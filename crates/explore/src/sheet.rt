//! One line of a script after the other.

ghost use Rattle.std.specs.Prelude.{◌≡◌, ◌<◌, ◌++◌, [], OnOk, string_bytes};
ghost use Rattle.grammar.specs.declared.line.Language.TheVariants.{Script};
ghost use Rattle.grammar.specs.declared.line.Line.TheVariants.{Skipped};
ghost use Rattle.grammar.specs.Fits.{CanBeSpelled};
ghost use Rattle.grammar.specs.Lines.{IsLine};
ghost use Rattle.grammar.specs.Orders.{order_of};
ghost use Rattle.engine.specs.declared.line_runner.Mode.TheVariants.{Lines};
ghost use Rattle.engine.specs.Script.{Makes, Obeys, reported};
ghost use Rattle.explore.specs.Explorations.{IsComment, Adds, MakesIt, tail};
ghost use Rattle.explore.specs.Plans.{comment_text};

use crate::course::Memo;
use crate::plan::{Plan, VERSION};
use engine::{RunFault, progress, spell};
use grammar::{Order, print_line, print_order, print_progress};
use mig_base::effect::Effect;
use mig_base::refusal::Refusal;
use mig_base::schedule::Step;
use mig_base::{Command, HIGH_PAGE, LOW_PAGE, PAGE_SIZE, PageNo, Reply};
use std::alloc::Global;
use world::World;

/// The text that was printed and not written yet, and room that is used again from line to line.
#[derive(Drop)]
pub(crate) struct Sheet {
    /// The line that is made.
    line: String,
    /// The line that `postmig run` prints for it.
    answer: String,
    /// The lines that are not written yet, each with its line feed.
    pub output: Vec<u8>,
}

/// Gathers a line, and with `answers` what a run prints for it.
fn gather(output: &mut Vec<u8>, line: &str, answers: bool, answer: &str) -> Result<(), RunFault>
    ensures { OnOk result (output.new.items ≡
        output.old.items ++ (line.now ++ tail answers answer.now)) }
{
    output.extend_from_slice(line.as_bytes())?;
    if answers {
        output.extend_from_slice(b" => ")?;
        output.extend_from_slice(answer.as_bytes())?;
    } else {
        output.push(b'\n')?;
    }
    Ok(())
}

/// Replaces a text by the comment that says how a script is made.
#[tactic(auto, unfolding(crate::specs::Plans::comment_text))]
fn print_comment(text: &mut String, plan: Plan) -> Result<(), RunFault>
    ensures text { OnOk result (string_bytes text.new ≡ comment_text plan) }
    ensures line { OnOk result (IsLine Script (string_bytes text.new) Skipped) }
{
    text.clear();
    write!(text, "# postmig {VERSION} explore {plan}")?;
    Ok(())
}

impl Sheet {
    /// A sheet without text.
    pub(crate) fn new(alloc: Global) -> Sheet
        ensures { result.output.items ≡ [] }
    {
        Sheet {
            line: String::new(alloc),
            answer: String::new(alloc),
            output: Vec::new(alloc),
        }
    }

    /// Gathers the comment that says how the script is made.
    pub(crate) fn add_comment(&mut self, plan: &Plan) -> Result<(), RunFault>
        ensures { OnOk result (IsComment self.old.output.items self.new.output.items) }
    {
        print_comment(&mut self.line, *plan)?;
        gather(&mut self.output, &self.line, false, "")
    }

    /// Prints an order as a line, carries it out, and gathers the line. What is remembered of the step goes to `memo`.
    pub(crate) fn add_order(
        &mut self,
        world: &mut World,
        memo: &mut Memo,
        order: Order,
        answers: bool,
    ) -> Result<(), RunFault>
        requires { CanBeSpelled order }
        ensures { OnOk result
            (Adds answers world.old world.new self.old.output.items self.new.output.items) }
    {
        print_order(&mut self.line, order)?;
        let effect = obey(world, order, &mut self.answer)?;
        remember_store(memo, order, effect);
        remember(memo, effect);
        gather(&mut self.output, &self.line, answers, &self.answer)
    }

    /// Prints a step as a line, makes it, and gathers the line.
    pub(crate) fn add_step(
        &mut self,
        world: &mut World,
        step: Step,
        answers: bool,
    ) -> Result<(), RunFault>
        requires { CanBeSpelled (order_of step) }
        ensures added { OnOk result
            (Adds answers world.old world.new self.old.output.items self.new.output.items) }
        ensures made { OnOk result (MakesIt world.old step world.new) }
    {
        let order = spell(step, &mut self.line)?;
        obey(world, order, &mut self.answer)?;
        gather(&mut self.output, &self.line, answers, &self.answer)
    }
}

/// Carries out an order, and replaces a text by the line that `postmig run` prints for it. It returns the effect of a step that was made.
fn obey(world: &mut World, order: Order, answer: &mut String) -> Result<Option<Effect>, RunFault>
    ensures { OnOk result (Obeys Lines world.old order world.new (string_bytes answer.new)) }
{
    match order.step(world.epoch()) {
        Some(step) => make_step(world, step, answer),
        None => {
            report_progress(world, answer)?;
            Ok(None)
        }
    }
}

/// Makes a step, and replaces a text by the line of its outcome.
fn make_step(world: &mut World, step: Step, answer: &mut String) -> Result<Option<Effect>, RunFault>
    ensures { OnOk result (Makes Lines world.old step world.new (string_bytes answer.new)) }
{
    answer.clear();
    let outcome = world.step(step);
    if let Err(Refusal::NoMemory) = outcome {
        return Err(RunFault::NoMemory);
    }
    print_line(answer, &outcome)?;
    Ok(outcome.ok())
}

/// Replaces a text by the report of a world's progress.
fn report_progress(world: &World, answer: &mut String) -> Result<(), RunFault>
    ensures { OnOk result (string_bytes answer.new ≡ reported Lines world.now) }
{
    answer.clear();
    print_progress(answer, progress(world))?;
    Ok(())
}

/// The page at an address, and the lowest for an address above the address space.
pub(crate) fn page_at(addr: u64) -> PageNo
    ensures { result < 0x10_0000 }
{
    let page = addr / PAGE_SIZE;
    if page < u64::from(HIGH_PAGE) {
        page as PageNo
    } else {
        LOW_PAGE
    }
}

/// Remembers the slot of a store that was made, or that waits for its page.
fn remember_store(memo: &mut Memo, order: Order, effect: Option<Effect>) {
    let Order::Make(
        Step::Issue {
            command: Command::Store { addr, .. },
            ..
        },
    ) = order
    else {
        return;
    };
    if let Some(
        Effect::Asleep { .. }
        | Effect::Answered {
            reply: Reply::Done,
            ..
        },
    ) = effect
    {
        memo.stored[(memo.line % 8) as usize] = addr;
    }
}

/// Remembers one line more, and which page was sent, dequeued or installed.
fn remember(memo: &mut Memo, effect: Option<Effect>) {
    memo.line = memo.line.saturating_add(1);
    match effect {
        Some(Effect::SentPage { addr } | Effect::SentZero { addr }) => {
            memo.sent = page_at(addr);
            if memo.asked == Some(memo.sent) {
                memo.asked = None;
            }
        }
        Some(Effect::SentRun { addr, .. }) => memo.sent = page_at(addr),
        Some(Effect::Asked { addr }) => memo.asked = Some(page_at(addr)),
        Some(Effect::Installed { addr, .. }) => memo.installed = Some(page_at(addr)),
        Some(Effect::Broken) => memo.asked = None,
        _ => {}
    }
}

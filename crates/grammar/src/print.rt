//! Printing the outcome of a step.

ghost use Rattle.std.specs.Prelude.{◌≡◌, ◌++◌, ◌∷◌, [], Ok, OnOk, OnErr, string_bytes};
ghost use Rattle.mig_base.specs.declared.command.Reply.TheVariants as reply;
ghost use Rattle.mig_base.specs.declared.effect.Effect.TheVariants as effect;
ghost use Rattle.grammar.specs.Printed.{outcome_line, outcome_text};

use mig_base::effect::Effect;
use mig_base::refusal::Refusal;
use mig_base::{NoMemory, Reply};
use std::alloc::AllocError;

/// The room that is reserved for a line, in bytes: no line is longer.
const LINE: usize = 128;

/// Writes the line of a value that was loaded.
fn write_value(text: &mut String, cpu: u8, value: u64) -> Result<(), AllocError>
    ensures { OnOk result (string_bytes text.new ≡
        string_bytes text.old ++ outcome_text (Ok (effect.Answered cpu (reply.Value value))) ++
        10 ∷ []) }
{
    write!(text, "cpu {cpu} value 0x{value:x}\n")
}

/// Writes the line of a command whose reply is `done`.
fn write_done(text: &mut String, cpu: u8) -> Result<(), AllocError>
    ensures { OnOk result (string_bytes text.new ≡
        string_bytes text.old ++ outcome_text (Ok (effect.Answered cpu reply.Done)) ++ 10 ∷ []) }
{
    write!(text, "cpu {cpu} done\n")
}

/// Appends the line of an outcome to a text. The replies of nearly all commands are written in one go: part by part is slower. It is
/// inlined, so that an outcome is not copied once more.
#[inline(always)]
#[tactic(auto, unfolding(crate::specs::Printed::outcome_line))]
fn write_line(text: &mut String, outcome: &Result<Effect, Refusal>) -> Result<(), AllocError>
    ensures { OnOk result (string_bytes text.new ≡
        string_bytes text.old ++ outcome_line outcome.now) }
{
    match *outcome {
        Ok(
            Effect::Answered {
                cpu,
                reply: Reply::Value(value),
            },
        ) => write_value(text, cpu, value),
        Ok(
            Effect::Answered {
                cpu,
                reply: Reply::Done,
            },
        ) => write_done(text, cpu),
        Ok(effect) => write!(text, "{effect}\n"),
        Err(refusal) => write!(text, "refused {refusal}\n"),
    }
}

/// Appends the line of an outcome, with its line feed, to a text. `NoMemory` leaves the text as it was.
pub fn print_line(text: &mut String, outcome: &Result<Effect, Refusal>) -> Result<(), NoMemory>
    ensures ok { OnOk result (string_bytes text.new ≡
        string_bytes text.old ++ outcome_line outcome.now) }
    ensures err { OnErr result (string_bytes text.new ≡ string_bytes text.old) }
{
    if text.is_empty() {
        if write_line(text, outcome).is_err() {
            text.clear();
            return Err(NoMemory);
        }
        return Ok(());
    }
    let mut line = String::with_capacity(*text.allocator(), LINE)?;
    write_line(&mut line, outcome)?;
    text.push_str(&line)?;
    Ok(())
}

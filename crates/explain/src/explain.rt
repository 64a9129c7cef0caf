//! The report on the transcript that a reader gives.

ghost use Rattle.std.specs.Prelude.{◌≡◌, ◌++◌, ℕ, List, [], IfOk, IfSome, OnOk, string_bytes};
ghost use Rattle.engine.specs.Checking.{wrong_line};
ghost use Rattle.engine.specs.Lines.{FaultsAs};
ghost use Rattle.explain.specs.Unread.{unread};
ghost use Rattle.explain.specs.Explaining.{IsReason, IsReport, ListsWrong, Explains, ExplainStops};

use crate::account::Account;
use crate::noting::NotingReader;
use crate::reason::reason_of;
use crate::wrong::{WrongReply, wrong_entries};
use engine::line_runner::write_out;
use engine::run::read_lines;
use engine::{LineRunner, RunFault, ScriptReader};
use mig_base::{Entry, NoMemory};
use std::alloc::Global;
use std::io::{Read, Write};

/// What is asked for beyond the verdict.
#[derive(Clone, Copy)]
pub struct Asks {
    /// Each wrong entry, and not the first alone.
    pub all: bool,
    /// The reason of each that is listed.
    pub reasons: bool,
}

/// What is said of a transcript.
#[derive(Clone, Copy)]
pub struct Verdict {
    /// Whether each entry has the reply of one flat memory.
    pub is_flat: bool,
    /// How many entries there are.
    pub entries: usize,
}

/// Reads a whole transcript, and writes what is wrong with it: `ok N`, where it has N entries and each has the reply of one flat
/// memory; or else `wrong I expected REPLY` for the first that has another, or for all. I counts from 0. The flat memory continues
/// from its own reply. The lines of a reason follow that of its entry, with two spaces or more in front.
///
/// Nothing is written before the whole input was read. At most 4,294,967,295 reads are made; a transcript that needs more ends
/// with a read fault. An interrupted read or write is a fault.
pub fn explain_script<R: Read, W: Write>(
    alloc: Global,
    reader: &mut NotingReader<R>,
    writer: &mut W,
    asks: Asks,
) -> Result<Verdict, RunFault>
    ensures ok { IfOk result (λ verdict. IfSome (unread R.remaining reader.old) (λ input.
        Explains asks input verdict.is_flat verdict.entries (W.contents writer.old)
        (W.contents writer.new))) }
    ensures fault { FaultsAs result (ExplainStops asks) (unread R.remaining reader.old)
        (unread R.remaining reader.new) (W.contents writer.old) (W.contents writer.new) }
{
    let mut script = ScriptReader::new(alloc, LineRunner::keeping(alloc));
    read_lines(reader, writer, &mut script)?;
    let lines = reader.lines()?;
    let entries = script.entries();
    let mut text = String::new(alloc);
    let answer = write_report(alloc, &mut text, entries, lines, asks)?;
    write_out(writer, text.as_bytes())?;
    Ok(Verdict {
        is_flat: answer,
        entries: entries.len(),
    })
}

/// Puts the report on entries, which are in these lines, into a text without bytes, and says whether all is well.
fn write_report(
    alloc: Global,
    text: &mut String,
    entries: &[Entry],
    lines: &[u64],
    asks: Asks,
) -> Result<bool, NoMemory>
    requires { string_bytes text.old ≡ [] }
    ensures { IfOk result (λ answer. IsReport asks entries.now answer (string_bytes text.new)) }
{
    let wrongs = wrong_entries(alloc, entries)?;
    if wrongs.is_empty() {
        let count = entries.len();
        write!(text, "ok {count}\n")?;
        return Ok(true);
    }
    let account = Account::new(alloc, entries, &wrongs, lines)?;
    let listed = if asks.all { &wrongs[..] } else { &wrongs[..1] };
    list(alloc, text, &account, listed, asks.reasons)?;
    Ok(false)
}

/// Puts the line of each wrong entry into a text without bytes, and after each its reason, where reasons are asked for.
fn list(
    alloc: Global,
    text: &mut String,
    account: &Account<'_>,
    wrongs: &[WrongReply],
    reasons: bool,
) -> Result<(), NoMemory>
    requires { string_bytes text.old ≡ [] }
    ensures { OnOk result (ListsWrong reasons wrongs.now (string_bytes text.new)) }
{
    for wrong in wrongs {
        write_wrong(alloc, text, account, *wrong, reasons)?;
    }
    Ok(())
}

/// Appends the line of a wrong entry to a text, and its reason, where one is asked for.
fn write_wrong(
    alloc: Global,
    text: &mut String,
    account: &Account<'_>,
    wrong: WrongReply,
    reasons: bool,
) -> Result<(), NoMemory>
    ensures { OnOk result ((reason : List ℕ) × IsReason reasons reason ×
        (string_bytes text.new ≡
        string_bytes text.old ++ wrong_line wrong.index wrong.expected ++ reason)) }
{
    let index = wrong.index;
    let expected = wrong.expected;
    write!(text, "wrong {index} expected {expected}\n")?;
    if reasons {
        let reason = reason_of(alloc, account, wrong)?;
        text.push_str(&reason)?;
    }
    Ok(())
}

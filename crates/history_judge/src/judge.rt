//! Judging a history that a reader gives.

use crate::account::write_account;
use crate::decision::{Decision, decide};
use crate::line::{Wrong, text_of_wrong};
use crate::reading::Reading;
use engine::RunFault;
use engine::line_reader::read_lines;
use engine::line_runner::write_out;
use grammar::print_entry;
use history::{Clock, Contradiction, Operation};
use history_order::entries_of;
use history_search::Doubt;
use mig_base::NoMemory;
use std::alloc::{AllocError, Global};
use std::io::{Read, Write};

/// How many bytes of a transcript are gathered before they are written.
const PIECE: usize = 32_768;

/// What is known of a history.
#[derive(Clone, Copy, PartialEq, Eq)]
pub enum Verdict {
    /// It is that of one flat memory.
    Kept,
    /// It is not.
    Wrong,
    /// Neither was shown.
    Undecided,
    /// It has no operation.
    Nothing,
}

/// A history that was judged.
#[derive(Drop)]
pub struct Judged {
    pub verdict: Verdict,
    /// Its operations, if it is kept in an order that explains it.
    pub operations: Vec<Operation>,
    /// What contradicts each order of them, if it is wrong. There may be more.
    pub contradictions: Vec<Contradiction>,
}

/// Why a history could not be judged.
#[derive(Clone, Copy)]
pub enum HistoryFault {
    /// The line with this number, counted from 1, is wrong, for this reason.
    Line(u64, &'static str),
    /// A read failed, or more than 4,294,967,295 were needed.
    ReadFault,
    /// A write failed, or took no byte.
    WriteFault,
    /// An allocation failed.
    NoMemory,
}

impl From<NoMemory> for HistoryFault {
    ghost from_gives = { λ _ _. Unit {0} };

    fn from(_e: NoMemory) -> HistoryFault {
        HistoryFault::NoMemory
    }
}

impl From<AllocError> for HistoryFault {
    ghost from_gives = { λ _ _. Unit {0} };

    fn from(_e: AllocError) -> HistoryFault {
        HistoryFault::NoMemory
    }
}

impl From<RunFault> for HistoryFault {
    ghost from_gives = { λ _ _. Unit {0} };

    fn from(fault: RunFault) -> HistoryFault {
        match fault {
            RunFault::Line(number) => HistoryFault::Line(number, text_of_wrong(Wrong::TooLong)),
            RunFault::ReadFault => HistoryFault::ReadFault,
            RunFault::WriteFault => HistoryFault::WriteFault,
            RunFault::NoMemory => HistoryFault::NoMemory,
        }
    }
}

/// Reads a whole history.
fn read_history<R: Read, W: Write>(
    alloc: Global,
    reader: &mut R,
    writer: &mut W,
) -> Result<Reading, HistoryFault> {
    let mut reading = Reading::new(alloc);
    match read_lines(alloc, reader, writer, &mut reading) {
        Ok(()) => Ok(reading),
        Err(RunFault::Line(number)) => {
            let wrong = reading.wrong.unwrap_or(Wrong::TooLong);
            Err(HistoryFault::Line(number, text_of_wrong(wrong)))
        }
        Err(fault) => Err(HistoryFault::from(fault)),
    }
}

/// Appends why a history is not to be decided, if it is not: it is empty, a record of it is damaged, or it may be cut off.
fn write_unfit(text: &mut String, reading: &Reading) -> Result<Option<Verdict>, AllocError> {
    let count = reading.operations.len();
    if let Some(line) = reading.damaged {
        write!(text, "undecided: line {line}: a record is damaged\n")?;
        return Ok(Some(Verdict::Undecided));
    }
    let Some(end) = reading.end else {
        if count == 0 {
            write!(text, "nothing was judged: the history has no operation\n")?;
            return Ok(Some(Verdict::Nothing));
        }
        write!(
            text,
            "undecided: the history has no line end N, and may be cut off\n"
        )?;
        return Ok(Some(Verdict::Undecided));
    };
    if end != count as u64 {
        write!(
            text,
            "undecided: the history has {count} operations, and its end says {end}\n"
        )?;
        return Ok(Some(Verdict::Undecided));
    }
    if count == 0 {
        write!(text, "nothing was judged: the history has no operation\n")?;
        return Ok(Some(Verdict::Nothing));
    }
    Ok(None)
}

/// Appends why a history is undecided.
fn write_doubt(text: &mut String, doubt: Option<Doubt>) -> Result<(), AllocError> {
    match doubt {
        None => write!(text, "undecided: what was found was not confirmed\n"),
        Some(Doubt::Repeats(addr)) => {
            write!(
                text,
                "undecided: at 0x{addr:x} a value was stored twice, or 0 was, and no order was found\n"
            )
        }
        Some(Doubt::Overlaps(addr)) => {
            write!(
                text,
                "undecided: at 0x{addr:x} a map call overlaps an access or a map call, and no order was found\n"
            )
        }
        Some(Doubt::Threads) => {
            write!(
                text,
                "undecided: operations of a thread share a tick, and no order was found that has them as they were made\n"
            )
        }
        Some(Doubt::Calls) => write!(text, "undecided: too many map calls on pages\n"),
        Some(Doubt::Unexplained(addr)) => {
            write!(
                text,
                "undecided: at 0x{addr:x} no order was found, and no contradiction\n"
            )
        }
    }
}

/// Decides on a history that is fit for it. Appends the verdict. Returns it, and what contradicts each order, if it is wrong.
fn write_decision(
    alloc: Global,
    text: &mut String,
    name: &str,
    clock: Clock,
    operations: &mut Vec<Operation>,
    explains: bool,
) -> Result<(Verdict, Vec<Contradiction>), NoMemory> {
    match decide(alloc, clock, operations)? {
        Decision::Kept => {
            let count = operations.len();
            write!(text, "ok {count}\n")?;
            Ok((Verdict::Kept, Vec::new(alloc)))
        }
        Decision::Wrong(contradictions) => {
            for contradiction in &contradictions {
                write_account(alloc, text, name, operations, contradiction, explains)?;
            }
            write!(text, "wrong\n")?;
            Ok((Verdict::Wrong, contradictions))
        }
        Decision::Undecided(doubt) => {
            write_doubt(text, doubt)?;
            Ok((Verdict::Undecided, Vec::new(alloc)))
        }
    }
}

/// Reads a whole history, and writes the verdict: `ok N`, if it has N operations and is that of one flat memory; what contradicts that, by
/// the name and the lines, and then `wrong`; or `undecided`, and why. With `explains` the operations that show a contradiction follow it.
/// Nothing is written before the whole input is read. An interrupted read or write is a fault.
pub fn judge_history<R: Read, W: Write>(
    alloc: Global,
    reader: &mut R,
    writer: &mut W,
    name: &str,
    explains: bool,
) -> Result<Judged, HistoryFault> {
    let mut reading = read_history(alloc, reader, writer)?;
    let mut text = String::new(alloc);
    let (verdict, contradictions) = match write_unfit(&mut text, &reading)? {
        Some(verdict) => (verdict, Vec::new(alloc)),
        None => {
            let clock = reading.clock.unwrap_or(Clock::Counter);
            write_decision(
                alloc,
                &mut text,
                name,
                clock,
                &mut reading.operations,
                explains,
            )?
        }
    };
    write_out(writer, text.as_bytes())?;
    Ok(Judged {
        verdict,
        operations: reading.operations,
        contradictions,
    })
}

/// Writes operations in their order as the lines of a transcript.
pub fn write_transcript<W: Write>(
    alloc: Global,
    writer: &mut W,
    operations: &[Operation],
) -> Result<(), RunFault> {
    let mut text = String::new(alloc);
    let mut line = String::new(alloc);
    for operation in operations {
        let (first, second) = entries_of(operation);
        line.clear();
        print_entry(&mut line, first)?;
        text.push_str(&line)?;
        if let Some(second) = second {
            line.clear();
            print_entry(&mut line, second)?;
            text.push_str(&line)?;
        }
        if text.len() >= PIECE {
            write_out(writer, text.as_bytes())?;
            text.clear();
        }
    }
    write_out(writer, text.as_bytes())
}

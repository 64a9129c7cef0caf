//! What contradicts an order, in words and as a picture.

ghost use Rattle.std.specs.Prelude.{OnOk};
ghost use Rattle.diagram.specs.Drawing.{Draws};

use diagram::{Bar, Timeline, paint_timeline};
use engine::RunFault;
use engine::line_runner::write_out;
use grammar::EntryText;
use history::{Action, Contradiction, NEVER, Operation, Value};
use history_order::entries_of;
use std::alloc::{AllocError, Global};
use std::io::Write;

/// What is said of a contradiction.
#[derive(Clone, Copy)]
struct Account {
    /// The index of the operation at fault.
    at: usize,
    /// Its kind.
    kind: &'static str,
    /// Why no order has it.
    why: &'static str,
    /// The indices of the others that show it, the first first.
    others: [Option<usize>; 2],
}

/// What is said of an operation that did not end after it began, of two that share a tick, and of two that overlap.
const BACKWARD: &str = "it did not end after it began:";

const ONE_TICK: &str = "the counter gave both one tick:";

const OVERLAP: &str = "one thread made both, and neither had ended when the other began:";

/// What is said of two exchanges that found one value.
const FORKED: &str = "two exchanges found one value, and no call brought it back between them:";

/// What is said of values that cannot have been there one after the other.
const SPLIT: &str =
    "each of these values was there before the next, and the last before the first:";

/// What is said of a value that no operation can have given.
const NEVER_WRITTEN: &str = "no operation stored this value:";

const ELSEWHERE: &str = "this value was stored only at another address:";

const FUTURE: &str = "its value was stored by operations that began when it had ended:";

const UNMAPPED: &str = "zeros, although no map call on its page had begun when it ended:";

const STALE: &str = "its value was stored first, and then another was there, before it began:";

const SURVIVED: &str = "its value was stored before this call cleared the page:";

const ZEROS: &str =
    "zeros, although a value was there before it began, and no call cleared the page after that:";

/// The address that an action reads, and the value that it found there.
fn read_by(action: Action) -> Option<(u64, u64)> {
    match action {
        Action::Load { addr, value, .. } => Some((addr, value)),
        Action::Swap { addr, found, .. } => Some((addr, found)),
        _ => None,
    }
}

/// The address at which an action stores, and the value.
fn stored_by(action: Action) -> Option<(u64, u64)> {
    match action {
        Action::Store { addr, value, .. } | Action::Swap { addr, value, .. } => Some((addr, value)),
        _ => None,
    }
}

/// The index of the first operation that stores this value at this address, or where that is not given, at any.
fn storing(operations: &[Operation], addr: Option<u64>, value: u64) -> Option<usize> {
    for (index, operation) in operations.iter().enumerate() {
        if let Some((at, stored)) = stored_by(operation.action)
            && stored == value
            && addr.unwrap_or(at) == at
        {
            return Some(index);
        }
    }
    None
}

/// Whether an operation is a map call.
fn is_call(operation: &Operation) -> bool {
    matches!(
        operation.action,
        Action::Map { .. } | Action::Unmap { .. } | Action::Discard { .. }
    )
}

/// What is said of a value that was found without a source.
fn account_of_read(
    operations: &[Operation],
    at: usize,
    between: Option<usize>,
    read: (u64, u64),
) -> Account {
    let (addr, value) = read;
    let source = storing(operations, Some(addr), value);
    let Some(middle) = between else {
        let (kind, why, other) = match source {
            Some(source) => ("future", FUTURE, Some(source)),
            None if value == 0 => ("zeros", UNMAPPED, None),
            None => match storing(operations, None, value) {
                Some(other) => ("elsewhere", ELSEWHERE, Some(other)),
                None => ("never-written", NEVER_WRITTEN, None),
            },
        };
        return Account {
            at,
            kind,
            why,
            others: [other, None],
        };
    };
    let call = match operations.get(middle) {
        Some(operation) => is_call(operation),
        None => false,
    };
    let (kind, why) = if value == 0 {
        ("zeros", ZEROS)
    } else if call {
        ("survived", SURVIVED)
    } else {
        ("stale", STALE)
    };
    Account {
        at,
        kind,
        why,
        others: [source, between],
    }
}

/// What is said of an operation that a clock cannot have timed so, perhaps beside another.
fn account_of_clock(at: usize, other: Option<usize>, why: &'static str) -> Account {
    Account {
        at,
        kind: "clock",
        why,
        others: [other, None],
    }
}

/// What is said of a contradiction.
fn account_of(operations: &[Operation], contradiction: &Contradiction) -> Account {
    match contradiction {
        Contradiction::Backward { at } => account_of_clock(*at, None, BACKWARD),
        Contradiction::OneTick { first, second } => {
            account_of_clock(*second, Some(*first), ONE_TICK)
        }
        Contradiction::Overlap { first, second } => {
            account_of_clock(*second, Some(*first), OVERLAP)
        }
        Contradiction::Fork {
            source,
            first,
            second,
        } => Account {
            at: *second,
            kind: "forked",
            why: FORKED,
            others: [Some(*source), Some(*first)],
        },
        Contradiction::Cycle { values, .. } => Account {
            at: match values.first() {
                Some(value) => value.late,
                None => 0,
            },
            kind: "split",
            why: SPLIT,
            others: [None, None],
        },
        Contradiction::NoSource { reader, between } => {
            let read = match operations.get(*reader) {
                Some(operation) => read_by(operation.action),
                None => None,
            };
            account_of_read(operations, *reader, *between, read.unwrap_or((0, 0)))
        }
    }
}

/// Appends an operation as the entries of a transcript that it is.
fn write_entries(text: &mut String, operation: &Operation) -> Result<(), AllocError> {
    let (first, second) = entries_of(operation);
    let first = EntryText(first);
    write!(text, "{first}")?;
    if let Some(second) = second {
        let second = EntryText(second);
        write!(text, " and at once {second}")?;
    }
    Ok(())
}

/// Appends the line of an operation that shows a contradiction.
fn write_shown(text: &mut String, operation: &Operation) -> Result<(), AllocError> {
    let line = operation.line;
    let begin = operation.begin;
    let end = operation.end;
    if end == NEVER {
        write!(text, "    line {line}, from {begin} on: ")?;
    } else {
        write!(text, "    line {line}, from {begin} to {end}: ")?;
    }
    write_entries(text, operation)?;
    text.push('\n')
}

/// Adds the operations that saw a value, but for the one at the index `last` and those that are there.
fn push_value(shown: &mut Vec<usize>, value: &Value, last: usize) -> Result<(), AllocError> {
    for index in [value.source, value.late, value.early] {
        if index != last && !shown.contains(&index) {
            shown.push(index)?;
        }
    }
    Ok(())
}

/// The indices of the operations that show a contradiction, each once: the one at fault is the last.
fn shown_by(
    alloc: Global,
    contradiction: &Contradiction,
    account: Account,
) -> Result<Vec<usize>, AllocError> {
    let mut shown = Vec::new(alloc);
    for other in account.others {
        if let Some(other) = other {
            shown.push(other)?;
        }
    }
    if let Contradiction::Cycle { values, .. } = contradiction {
        for value in values {
            push_value(&mut shown, value, account.at)?;
        }
    }
    shown.push(account.at)?;
    Ok(shown)
}

/// Appends what is said of a contradiction: `NAME:LINE: KIND: ENTRY`, and if it is to be explained why, with the operations that show it.
pub(crate) fn write_account(
    alloc: Global,
    text: &mut String,
    name: &str,
    operations: &[Operation],
    contradiction: &Contradiction,
    explains: bool,
) -> Result<(), AllocError> {
    let account = account_of(operations, contradiction);
    let Some(operation) = operations.get(account.at) else {
        return Ok(());
    };
    let line = operation.line;
    let kind = account.kind;
    write!(text, "{name}:{line}: {kind}: ")?;
    write_entries(text, operation)?;
    text.push('\n')?;
    if !explains {
        return Ok(());
    }
    let why = account.why;
    write!(text, "  {why}\n")?;
    for index in shown_by(alloc, contradiction, account)? {
        if let Some(shown) = operations.get(index) {
            write_shown(text, shown)?;
        }
    }
    Ok(())
}

/// An operation as a picture shows it that is not at fault.
fn bar_of(alloc: Global, operation: &Operation) -> Result<Bar, AllocError> {
    let mut text = String::new(alloc);
    let line = operation.line;
    write!(text, "line {line}: ")?;
    write_entries(&mut text, operation)?;
    Ok(Bar {
        thread: operation.thread,
        begin: operation.begin,
        end: (operation.end != NEVER).then_some(operation.end),
        text,
        is_fault: false,
    })
}

/// What a picture shows of a contradiction.
fn timeline_of(
    alloc: Global,
    name: &str,
    operations: &[Operation],
    contradiction: &Contradiction,
) -> Result<Timeline, AllocError> {
    let account = account_of(operations, contradiction);
    let kind = account.kind;
    let mut title = String::new(alloc);
    let mut bars = Vec::new(alloc);
    for index in shown_by(alloc, contradiction, account)? {
        if let Some(operation) = operations.get(index) {
            let mut bar = bar_of(alloc, operation)?;
            bar.is_fault = index == account.at;
            if bar.is_fault {
                let line = operation.line;
                write!(title, "{name}:{line}: {kind}")?;
            }
            bars.push(bar)?;
        }
    }
    bars.sort_by_key(|bar| (bar.thread, bar.begin))?;
    Ok(Timeline {
        title,
        sentence: account.why,
        bars,
    })
}

/// Writes a picture of the operations that show a contradiction: a lane for each thread, and a bar for each operation. The picture is
/// whole before it is written.
pub fn write_picture<W: Write>(
    alloc: Global,
    writer: &mut W,
    name: &str,
    operations: &[Operation],
    contradiction: &Contradiction,
) -> Result<(), RunFault>
    ensures { OnOk result (Draws (W.contents writer.old) (W.contents writer.new)) }
{
    let timeline = timeline_of(alloc, name, operations, contradiction)?;
    let picture = paint_timeline(alloc, &timeline)?;
    write_out(writer, &picture)
}

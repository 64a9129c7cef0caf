//! Lines of a history.

use grammar::parse::parse;
use grammar::token::{next_word, read_tokens, skip_spaces};
use grammar::{Keyword, Language, Line, Token};
use history::{Action, Clock, NEVER, Operation};
use mig_base::{Command, Entry, NoMemory, Place, Prot, Reply};

/// What a line of a history says.
#[derive(Clone, Copy)]
pub(crate) enum HistoryLine {
    /// Nothing: it is empty, or a comment.
    Nothing,
    /// `history 1`.
    Head,
    /// `clock counter` or `clock tsc`.
    Ticks(Clock),
    /// `damaged ..`: a record could not be read.
    Damaged,
    /// `end N`: N operations were written.
    End(u64),
    /// An operation. The number of its line is not set.
    Operation(Operation),
}

/// What is wrong with a line.
#[derive(Clone, Copy)]
pub(crate) enum Wrong {
    TooLong,
    NoInterval,
    NoOperation,
    NotJudged,
    NoNumber,
    NoClock,
    NotFirst,
    AfterEnd,
    Again,
}

/// The room of a parser, which is kept from line to line.
#[derive(Drop)]
pub(crate) struct Room {
    pub(crate) tokens: Vec<Token>,
    /// A line of a transcript.
    pub(crate) entry: Vec<u8>,
}

/// The number that a word spells, as in a transcript.
fn number_in(room: &mut Room, word: &[u8]) -> Result<Option<u64>, NoMemory> {
    if !read_tokens(&mut room.tokens, word)? {
        return Ok(None);
    }
    match room.tokens.as_slice() {
        [Token::Number(number)] => Ok(Some(*number)),
        _ => Ok(None),
    }
}

/// The tick that a word spells. The greatest number is none: it is that of an end which is not known.
fn tick_in(room: &mut Room, word: &[u8]) -> Result<Option<u64>, NoMemory> {
    match number_in(room, word)? {
        Some(tick) if tick != NEVER => Ok(Some(tick)),
        _ => Ok(None),
    }
}

/// What an entry of a transcript is as an action of a history; none if no history has it.
fn action_of(entry: Entry) -> Option<Action> {
    match (entry.command, entry.reply) {
        (Command::Load { addr, width }, Reply::Value(value)) => {
            Some(Action::Load { addr, width, value })
        }
        (Command::Store { addr, width, value }, Reply::Done) => {
            Some(Action::Store { addr, width, value })
        }
        (Command::Munmap { addr, len }, Reply::Done) => Some(Action::Unmap { addr, len }),
        (Command::DontNeed { addr, len }, Reply::Done) => Some(Action::Discard { addr, len }),
        (
            Command::Mmap {
                addr_len,
                prot: Prot::ReadWrite,
                place: Place::Fixed(addr),
            },
            Reply::At(at),
        ) => {
            if at == addr {
                Some(Action::Map {
                    addr,
                    len: addr_len,
                })
            } else {
                None
            }
        }
        _ => None,
    }
}

/// The exchange that a text spells: `ADDR WIDTH VALUE => value FOUND`.
fn swap_in(room: &mut Room, text: &[u8]) -> Result<Option<Action>, NoMemory> {
    if !read_tokens(&mut room.tokens, text)? {
        return Ok(None);
    }
    match room.tokens.as_slice() {
        [
            Token::Number(addr),
            Token::Number(width),
            Token::Number(value),
            Token::Key(Keyword::Gives),
            Token::Key(Keyword::Value),
            Token::Number(found),
        ] => {
            let Ok(width) = u8::try_from(*width) else {
                return Ok(None);
            };
            Ok(Some(Action::Swap {
                addr: *addr,
                width,
                value: *value,
                found: *found,
            }))
        }
        _ => Ok(None),
    }
}

/// The action that a text spells, with its thread before it: `swap ..`, or the command and the reply of a line of a transcript.
fn action_in(
    room: &mut Room,
    thread: &[u8],
    text: &[u8],
) -> Result<Result<Action, Wrong>, NoMemory> {
    if let Some((word, behind)) = next_word(text)
        && word == b"swap".as_slice()
    {
        return match swap_in(room, behind)? {
            Some(action) => Ok(Ok(action)),
            None => Ok(Err(Wrong::NoOperation)),
        };
    }
    room.entry.clear();
    room.entry.extend_from_slice(thread)?;
    room.entry.extend_from_slice(b" ")?;
    room.entry.extend_from_slice(text)?;
    match parse(Language::Transcript, &mut room.tokens, &room.entry)? {
        Some(Line::Enter(entry)) => match action_of(entry) {
            Some(action) => Ok(Ok(action)),
            None => Ok(Err(Wrong::NotJudged)),
        },
        _ => Ok(Err(Wrong::NoOperation)),
    }
}

/// The operation that a text spells: a thread, the ticks between which it took effect, and the action.
fn operation_in(room: &mut Room, text: &[u8]) -> Result<Result<Operation, Wrong>, NoMemory> {
    let Some((thread, behind)) = next_word(text) else {
        return Ok(Err(Wrong::NoInterval));
    };
    let Some((begin, behind)) = next_word(behind) else {
        return Ok(Err(Wrong::NoInterval));
    };
    let Some((end, behind)) = next_word(behind) else {
        return Ok(Err(Wrong::NoInterval));
    };
    let number = number_in(room, thread)?;
    let begin = tick_in(room, begin)?;
    let end = if end == b"-".as_slice() {
        Some(NEVER)
    } else {
        tick_in(room, end)?
    };
    let (Some(number), Some(begin), Some(end)) = (number, begin, end) else {
        return Ok(Err(Wrong::NoInterval));
    };
    let Ok(number) = u8::try_from(number) else {
        return Ok(Err(Wrong::NoInterval));
    };
    match action_in(room, thread, behind)? {
        Ok(action) => Ok(Ok(Operation {
            begin,
            end,
            action,
            line: 0,
            thread: number,
        })),
        Err(wrong) => Ok(Err(wrong)),
    }
}

/// The line that begins with `history` or `end`, by the number after it.
fn numbered(
    room: &mut Room,
    is_head: bool,
    text: &[u8],
) -> Result<Result<HistoryLine, Wrong>, NoMemory> {
    match number_in(room, text)? {
        Some(1) if is_head => Ok(Ok(HistoryLine::Head)),
        Some(number) if !is_head => Ok(Ok(HistoryLine::End(number))),
        _ => Ok(Err(Wrong::NoNumber)),
    }
}

/// The clock that a text names.
fn clock_in(text: &[u8]) -> Result<HistoryLine, Wrong> {
    let Some((word, behind)) = next_word(text) else {
        return Err(Wrong::NoClock);
    };
    if !skip_spaces(behind).is_empty() {
        return Err(Wrong::NoClock);
    }
    if word == b"counter".as_slice() {
        return Ok(HistoryLine::Ticks(Clock::Counter));
    }
    if word == b"tsc".as_slice() {
        return Ok(HistoryLine::Ticks(Clock::Time));
    }
    Err(Wrong::NoClock)
}

/// Reads the text of a line, without its line feed. `NoMemory` is returned if room is refused.
pub(crate) fn read_line(
    room: &mut Room,
    text: &[u8],
) -> Result<Result<HistoryLine, Wrong>, NoMemory> {
    let Some((word, behind)) = next_word(text) else {
        return Ok(Ok(HistoryLine::Nothing));
    };
    if word.first() == Some(&b'#') {
        return Ok(Ok(HistoryLine::Nothing));
    }
    if word == b"history".as_slice() || word == b"end".as_slice() {
        return numbered(room, word == b"history".as_slice(), behind);
    }
    if word == b"clock".as_slice() {
        return Ok(clock_in(behind));
    }
    if word == b"damaged".as_slice() {
        return Ok(Ok(HistoryLine::Damaged));
    }
    match operation_in(room, text)? {
        Ok(operation) => Ok(Ok(HistoryLine::Operation(operation))),
        Err(wrong) => Ok(Err(wrong)),
    }
}

/// What is wrong, in words.
pub(crate) fn text_of_wrong(wrong: Wrong) -> &'static str {
    match wrong {
        Wrong::TooLong => "longer than 256 bytes",
        Wrong::NoInterval =>
            "an operation begins with its thread, which is below 256, and two ticks below 2^64 - 1, the second of which may be -",
        Wrong::NoOperation => "no operation with its reply",
        Wrong::NotJudged =>
            "an operation that no history has: only loads, stores, swaps, munmap, dontneed, and mmap rw fixed, which were made",
        Wrong::NoNumber => "history 1 or end N is wanted",
        Wrong::NoClock => "clock counter or clock tsc is wanted",
        Wrong::NotFirst => "history 1 comes first, and then the clock",
        Wrong::AfterEnd => "a line after the end",
        Wrong::Again => "this line was there before",
    }
}
